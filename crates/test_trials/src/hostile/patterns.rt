//! The patterns of rows: a text, or a tree in words.

use crate::fault::ParseFault;
use regex_pattern_front::bytesearch::{ByteBitmap, ByteSet};
use regex_pattern_front::ir;
use regress_match::backends::{emit, emit_units, optimize, try_parse};
use regress_match::{Error, Flags, Regex};
use regress_program::emit::EmitError;
use regress_program::insn::{CompiledRegex, CompiledRegexFor16BitUnits, StartPredicate};
use regress_program::startpredicate::predicate_for_re;
use std::alloc::Global;
use test_trees::tree_of;

/// The programs of a tree, and the pattern that is made of their clones.
#[derive(Drop)]
pub struct Compiled {
    pub regex: Regex,
    pub bytes: CompiledRegex,
    pub units: CompiledRegexFor16BitUnits,
}

// Returns the tree of a pattern.
fn parsed(alloc: Global, pattern: &str, flags: Flags) -> Result<ir::Regex, Error> {
    let code_points: Vec<u32> = pattern.chars().map(u32::from).collect(alloc)?;
    Ok(try_parse(alloc, &code_points, flags.for_front())?)
}

// Returns the tree of a row.
fn tree_of_row(alloc: Global, pattern: &str, flags: &str) -> Result<ir::Regex, ParseFault> {
    if flags == "tree" {
        tree_of(alloc, pattern).ok_or(ParseFault::Refused)
    } else {
        Ok(parsed(alloc, pattern, Flags::from(flags))?)
    }
}

// Returns the program for 16-bit units. For a tree that reads bytes, it is a program that always
// matches.
fn units_of(alloc: Global, tree: &ir::Regex) -> Result<CompiledRegexFor16BitUnits, ParseFault> {
    match emit_units(alloc, tree) {
        Err(EmitError::BytesInUnits) => {
            let always = tree_of(alloc, "goal").ok_or(ParseFault::Refused)?;
            Ok(emit_units(alloc, &always)?)
        }
        emitted => Ok(emitted?),
    }
}

fn regex_of_separate_programs(
    bytes: CompiledRegex,
    units: CompiledRegexFor16BitUnits,
) -> Result<Compiled, ParseFault> {
    let regex = Regex::from_programs(bytes.clone()?, units.clone()?);
    Ok(Compiled {
        regex,
        bytes,
        units,
    })
}

fn are_same_sets(one: &ByteBitmap, other: &ByteBitmap) -> bool {
    let mut same = true;
    for byte in 0..=u8::MAX {
        same &= one.contains(byte) == other.contains(byte);
    }
    same
}

fn is_same(one: &StartPredicate, other: &StartPredicate) -> bool {
    match (one, other) {
        (StartPredicate::Arbitrary, StartPredicate::Arbitrary) => true,
        (StartPredicate::StartAnchored, StartPredicate::StartAnchored) => true,
        (StartPredicate::ByteSet1(one), StartPredicate::ByteSet1(other)) => one == other,
        (StartPredicate::ByteSet2(one), StartPredicate::ByteSet2(other)) => one == other,
        (StartPredicate::ByteSet3(one), StartPredicate::ByteSet3(other)) => one == other,
        (StartPredicate::ByteSeq(one), StartPredicate::ByteSeq(other)) => {
            one.as_slice() == other.as_slice()
        }
        (StartPredicate::ByteBracket(one), StartPredicate::ByteBracket(other)) => {
            are_same_sets(one, other)
        }
        _ => false,
    }
}

// Returns the program for bytes. Checks that its start predicate, and a copy of it, are those of
// the tree.
fn bytes_of(alloc: Global, tree: &ir::Regex) -> Result<CompiledRegex, ParseFault> {
    let bytes = emit(alloc, tree)?;
    let predicate = predicate_for_re(alloc, tree)?;
    let copy = predicate.clone()?;
    if is_same(&copy, &predicate) && is_same(bytes.start_pred(), &predicate) {
        Ok(bytes)
    } else {
        Err(ParseFault::Wrong)
    }
}

/// Compiles a pattern with flags, or a tree in words (with `tree` in place of flags). It is
/// optimized unless `no_opt` is set.
pub fn compile(
    alloc: Global,
    pattern: &str,
    flags: &str,
    no_opt: bool,
) -> Result<Compiled, ParseFault> {
    let mut tree = tree_of_row(alloc, pattern, flags)?;
    if !no_opt {
        optimize(&mut tree);
    }
    regex_of_separate_programs(bytes_of(alloc, &tree)?, units_of(alloc, &tree)?)
}
