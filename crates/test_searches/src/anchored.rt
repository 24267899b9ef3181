//! Patterns whose programs are tried only at the left end of the text.

use crate::rows::{Row, compare};
use regex_parser::parse::try_parse;
use regex_pattern_front::flags::Flags;
use regex_pattern_front::ir::Regex;
use regress_program::emit::{emit, emit_units};
use std::alloc::{AllocError, Global};

// Rows of three fields: a pattern, its flags (`m` or none), and whether its programs are anchored.
pub const ANCHORED: &str = "\
^a~~true
^a~m~false
^a|b~~false
^a|^b~~true
(?<=^b)a~~false
(?=^)a~~false
(?:^a)+~~false
(^a)b~~true";

// Returns whether both programs of a tree, for bytes and for 16-bit units, are anchored, or only
// one of them.
fn anchored(alloc: Global, tree: &Regex) -> &'static str {
    let (Ok(bytes), Ok(units)) = (emit(alloc, tree), emit_units(alloc, tree)) else {
        return "no program";
    };
    if bytes.is_anchored() != units.is_anchored() {
        return "one of two";
    }
    if units.is_anchored() { "true" } else { "false" }
}

pub fn check_anchored(
    alloc: Global,
    differing: &mut String,
    row: Row<'_>,
) -> Result<(), AllocError> {
    let (pattern, letters) = row.asked.split_once('~').unwrap_or((row.asked, ""));
    let points: Vec<u32> = pattern.chars().map(u32::from).collect(alloc)?;
    let flags = Flags {
        multiline: letters == "m",
        ..Flags::default()
    };
    let found = match try_parse(alloc, &points, flags) {
        Ok(tree) => anchored(alloc, &tree),
        Err(_) => "no pattern",
    };
    compare(differing, row, found, "")
}
