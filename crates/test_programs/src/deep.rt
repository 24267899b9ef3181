//! Tests that wide and deep patterns are compiled.

use regex_parser::parse::try_parse;
use regex_pattern_front::flags::Flags;
use regex_pattern_front::optimizer::optimize;
use regress_program::emit::{emit, emit_units};
use std::alloc::{AllocError, Global};
use std::process::Abort;
use std::test::Fail;

// Appends `count` copies of a piece of a pattern.
fn add(pattern: &mut Vec<u32>, piece: &str, count: usize) -> Result<(), AllocError> {
    for _ in 0..count {
        for c in piece.chars() {
            pattern.push(c as u32)?;
        }
    }
    Ok(())
}

// Checks whether a pattern of `count` openings and as many closings is compiled, with and without
// being optimized.
fn is_compiled(
    alloc: Global,
    opening: &str,
    closing: &str,
    count: usize,
) -> Result<bool, AllocError> {
    let mut pattern = Vec::new(alloc);
    add(&mut pattern, opening, count)?;
    add(&mut pattern, closing, count)?;
    let Ok(mut re) = try_parse(alloc, &pattern, Flags::default()) else {
        return Ok(false);
    };
    let as_read = emit_units(alloc, &re).is_ok();
    optimize(&mut re);
    Ok(as_read && emit(alloc, &re).is_ok())
}

// Each line has a count, and an opening and its closing around the contents. The first two are
// wide. The others are deep, in their first or in their last part.
const NESTS: &str = "\
100000 a|…
100000 a…
5000 (…)
5000 (…)b
5000 a|(…)
5000 (…|a)b
5000 (?:…)*
5000 (?:…)+b
5000 (?=b…)
5000 (?!…)b
5000 (?<!…)b
5000 (?<=b…)";

#[test]
fn wide_and_deep_patterns_are_compiled(rt: HostRuntime) -> Result<(), Fail> {
    for line in NESTS.lines() {
        let (count, nest) = line.split_once(' ').unwrap_or((line, "no nest"));
        let (opening, closing) = nest.split_once('…').unwrap_or((nest, "no inside"));
        let count = count.parse::<usize>().unwrap_or(0);
        assert!(rt;
            count > 0 && is_compiled(rt.alloc(), opening, closing, count)?,
            "{line}"
        );
    }
    Ok(())
}
