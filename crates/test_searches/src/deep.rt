//! Searches for wide and deep patterns in texts with and without a match.

use crate::rows::{Row, compare};
use regress_match::Regex;
use std::alloc::{AllocError, Global};

// Rows of four fields: a count, a pattern, a text, and whether there is a match, or the error of
// the pattern. In the pattern, the part before the first `…` and the part after the last one are
// repeated as often as the count says. A loop over one character counts as a loop if it is not
// optimized, as in the program for 16-bit units. For the last two rows, a search that tried all
// paths would not end.
pub const NESTS: &str = "\
100000~a|…b…~xb~found
100000~a|…b…~xc~none
100000~(?=b)…b…~xb~found
100000~a…b…~xab~none
5000~(…a…)~xa~found
5000~(…a…)~xb~none
5000~a|(…b…)~xb~found
5000~a|(…b…)~xc~none
5000~(…a…|b)~xb~found
5000~(…a…|b)~xc~none
5000~(?:…a…)+?~xa~found
5000~(?:…a…)+?~xb~none
5000~(?=…a…)~xa~found
5000~(?=…a…)~xb~none
5000~(?!…a…)~xa~found
5000~(?!…a…)~xb~none
5000~(?<=…a…)~xa~found
5000~(?<=…a…)~xb~none
5000~(?<!…a…)~xa~found
5000~(?<!…a…)~xb~none
65535~a*……~xa~found
65536~a*……~xa~too many loops (at most 65535)
65536~(……~xa~too many groups (at most 65535)
40~(?:\\b|^|\\B)…a…~a~found
40~(?:a|b|\\b)…c…~abc~found";

// Appends a piece of a pattern `count` times.
fn add(pattern: &mut String, piece: &str, count: usize) -> Result<(), AllocError> {
    for _ in 0..count {
        pattern.push_str(piece)?;
    }
    Ok(())
}

// Returns the pattern of a row.
fn pattern_of_nest(alloc: Global, nest: &str, count: usize) -> Result<String, AllocError> {
    let mut pattern = String::new(alloc);
    let (opening, rest) = nest.split_once('…').unwrap_or((nest, ""));
    let (inside, closing) = rest.split_once('…').unwrap_or((rest, ""));
    add(&mut pattern, opening, count)?;
    pattern.push_str(inside)?;
    add(&mut pattern, closing, count)?;
    Ok(pattern)
}

// Returns the result of a search.
fn found(alloc: Global, re: &Regex, text: &str) -> Result<String, AllocError> {
    let found = match re.find(text) {
        Ok(Some(_)) => "found",
        Ok(None) => "none",
        Err(_) => "refused",
    };
    String::from_str(alloc, found)
}

// Returns the result of a search, or the error of the pattern.
fn outcome(alloc: Global, pattern: &str, text: &str) -> Result<String, AllocError> {
    match Regex::new(alloc, pattern) {
        Ok(re) => found(alloc, &re, text),
        Err(refused) => format!(in alloc; "{refused}"),
    }
}

pub fn check_nest(alloc: Global, differing: &mut String, row: Row<'_>) -> Result<(), AllocError> {
    let fields: Vec<&str> = row.asked.split('~').collect(alloc)?;
    let [count, nest, text] = *fields.as_slice() else {
        return compare(differing, row, "other than four fields", "");
    };
    let pattern = pattern_of_nest(alloc, nest, count.parse::<usize>().unwrap_or(0))?;
    let outcome = outcome(alloc, &pattern, text)?;
    compare(differing, row, outcome.as_str(), "")
}
