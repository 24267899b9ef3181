//! Writes start predicates.

use regex_pattern_front::bytesearch::ByteSet;
use regex_pattern_front::ir::Regex;
use regress_program::insn::StartPredicate;
use regress_program::startpredicate::predicate_for_re;
use std::alloc::{AllocError, Global};

// Writes the start predicate of a tree, and its bytes.
pub(crate) fn write_predicate(
    alloc: Global,
    text: &mut String,
    tree: &Regex,
) -> Result<(), AllocError> {
    write_start_predicate(text, &predicate_for_re(alloc, tree)?)
}

pub(crate) fn write_start_predicate(
    text: &mut String,
    predicate: &StartPredicate,
) -> Result<(), AllocError> {
    match predicate {
        StartPredicate::Arbitrary => write_bytes(text, "Arbitrary", &[]),
        StartPredicate::StartAnchored => write_bytes(text, "StartAnchored", &[]),
        StartPredicate::ByteSet1(set) => write_bytes(text, "ByteSet1", set),
        StartPredicate::ByteSet2(set) => write_bytes(text, "ByteSet2", set),
        StartPredicate::ByteSet3(set) => write_bytes(text, "ByteSet3", set),
        StartPredicate::ByteSeq(bytes) => write_bytes(text, "ByteSeq", bytes),
        StartPredicate::ByteBracket(set) => write_members(text, "ByteBracket", set),
    }
}

pub(crate) fn write_bytes(text: &mut String, name: &str, bytes: &[u8]) -> Result<(), AllocError> {
    write!(text, "{name} {bytes:?}")
}

// Writes the name and the members of a set.
pub(crate) fn write_members<Set: ByteSet>(
    text: &mut String,
    name: &str,
    set: &Set,
) -> Result<(), AllocError> {
    text.push_str(name)?;
    for byte in 0..=u8::MAX {
        if set.contains(byte) {
            write!(text, " {byte}")?;
        }
    }
    Ok(())
}
