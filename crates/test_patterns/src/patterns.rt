//! Tests of patterns: their trees, and those that are refused.

use crate::ecmascript_table::ECMASCRIPT_PATTERNS;
use crate::printing::write_tree;
use crate::table::PATTERNS;
use regex_parser::parse::{ParseError, try_parse, try_parse_in};
use regex_parser::syntax::Syntax;
use regex_pattern_front::flags::Flags;
use regex_pattern_front::ir::Regex;
use regex_pattern_front::optimizer::optimize;
use std::alloc::{AllocError, Global};
use std::process::Abort;
use std::test::Fail;

pub(crate) fn flags_of(letters: &str) -> Flags {
    Flags {
        icase: letters.contains('i'),
        multiline: letters.contains('m'),
        dot_all: letters.contains('s'),
        no_opt: false,
        unicode: letters.contains('u'),
        unicode_sets: letters.contains('v'),
    }
}

// Returns the tree of a pattern. Returns `None` if it is refused.
fn tree(
    alloc: Global,
    pattern: &[u32],
    letters: &str,
    syntax: Syntax,
) -> Result<Option<Regex>, AllocError> {
    match try_parse_in(alloc, pattern, flags_of(letters), syntax) {
        Ok(re) => Ok(Some(re)),
        Err(ParseError::Syntax(_) | ParseError::TooManyGroups) => Ok(None),
        Err(ParseError::Memory) => Err(AllocError),
    }
}

pub(crate) fn code_points(alloc: Global, pattern: &str) -> Result<Vec<u32>, AllocError> {
    let mut code_points = Vec::new(alloc);
    for c in pattern.chars() {
        code_points.push(c as u32)?;
    }
    Ok(code_points)
}

// Writes the tree of a pattern.
fn write_answer(
    alloc: Global,
    text: &mut String,
    letters: &str,
    pattern: &str,
    syntax: Syntax,
) -> Result<(), AllocError> {
    let pattern = code_points(alloc, pattern)?;
    match tree(alloc, &pattern, letters, syntax)? {
        Some(mut re) => {
            if letters.contains('o') {
                optimize(&mut re);
            }
            write_tree(text, &re.node)
        }
        None => text.push_str("refused"),
    }
}

// Returns the first line of a table whose pattern has another tree than the line says, with that
// tree.
fn first_differing_line<'t>(
    alloc: Global,
    table: &'t str,
    syntax: Syntax,
) -> Result<Option<(&'t str, String)>, AllocError> {
    for line in table.lines() {
        let (row, wanted) = line.split_once(" → ").unwrap_or((line, "refused"));
        let (letters, pattern) = row.split_once(':').unwrap_or((row, "no colon"));
        let mut found = String::new(alloc);
        write_answer(alloc, &mut found, letters, pattern, syntax)?;
        if found.as_str() != wanted {
            return Ok(Some((line, found)));
        }
    }
    Ok(None)
}

#[test]
fn patterns_have_these_trees(rt: HostRuntime) -> Result<(), Fail> {
    if let Some((line, found)) = first_differing_line(rt.alloc(), PATTERNS, Syntax::Profile)? {
        assert!(rt; false, "{found} at {line}");
    }
    Ok(())
}

#[test]
fn patterns_of_the_whole_language_have_these_trees(rt: HostRuntime) -> Result<(), Fail> {
    if let Some((line, found)) = first_differing_line(
        rt.alloc(),
        ECMASCRIPT_PATTERNS,
        Syntax::EcmaScript2018,
    )? {
        assert!(rt; false, "{found} at {line}");
    }
    Ok(())
}

// Appends `count` copies of a piece of a pattern.
pub(crate) fn add(pattern: &mut Vec<u32>, piece: &str, count: usize) -> Result<(), AllocError> {
    let piece = code_points(*pattern.allocator(), piece)?;
    for _ in 0..count {
        pattern.extend_from_slice(&piece)?;
    }
    Ok(())
}

// Returns the error of a pattern with this many groups, if it is refused.
fn refusal_of(alloc: Global, groups: usize) -> Result<Option<ParseError>, AllocError> {
    let mut pattern = Vec::new(alloc);
    add(&mut pattern, "()", groups)?;
    Ok(try_parse(alloc, &pattern, flags_of("")).err())
}

#[test]
fn groups_have_a_limit(rt: HostRuntime) -> Result<(), Fail> {
    assert!(rt; refusal_of(rt.alloc(), 65535)?.is_none());
    assert!(rt; refusal_of(rt.alloc(), 65536)? == Some(ParseError::TooManyGroups));
    Ok(())
}

// Checks whether a pattern of `count` openings and as many closings has a tree, which is then
// optimized and dropped.
fn is_read(alloc: Global, opening: &str, closing: &str, count: usize) -> Result<bool, AllocError> {
    let mut pattern = Vec::new(alloc);
    add(&mut pattern, opening, count)?;
    add(&mut pattern, closing, count)?;
    match tree(alloc, &pattern, "", Syntax::Profile)? {
        Some(mut re) => {
            optimize(&mut re);
            Ok(true)
        }
        None => Ok(false),
    }
}

// Each line is an opening, a space and its closing.
const NESTS: &str = "a| \na \n(?: )\n( )\n( )b\n(?: )*\n(?=b )\n(?<! )b";

#[test]
fn wide_and_deep_patterns_are_read(rt: HostRuntime) -> Result<(), Fail> {
    for line in NESTS.lines() {
        let (opening, closing) = line.split_once(' ').unwrap_or((line, "no space"));
        assert!(rt; is_read(rt.alloc(), opening, closing, 20000)?, "{line}");
    }
    Ok(())
}
