//! Writes matches as rows have them: the range of the match and the ranges of its groups, with `-`
//! for a group that did not match. `; ` separates matches.

use regress_input::indexing::{AsciiInput, Utf8Input};
use regress_match::api;
use regress_match::backends::{DefaultUcs2Executor, DefaultUtf16Executor, PikeVMExecutor};
use regress_match::exec::{Match, MatchProducer, Matches, SearchError};
use std::alloc::AllocError;
use std::ops::Range;

fn write_range(line: &mut String, range: &Range<usize>) -> Result<(), AllocError> {
    let start = range.start;
    let end = range.end;
    write!(line, "{start}..{end}")
}

fn write_match(line: &mut String, found: &Match) -> Result<(), AllocError> {
    write_range(line, &found.range)?;
    for group in &found.captures {
        line.push(' ')?;
        match group {
            Some(range) => write_range(line, range)?,
            None => line.push('-')?,
        }
    }
    Ok(())
}

// Appends a match.
pub fn write_found(line: &mut String, found: &Match) -> Result<(), AllocError> {
    if !line.is_empty() {
        line.push_str("; ")?;
    }
    write_match(line, found)
}

fn write_item(line: &mut String, item: Result<Match, SearchError>) -> Result<(), SearchError> {
    Ok(write_found(line, &item?)?)
}

// Writes the next match, or all remaining ones. Checks that the iterator returns `None` after the
// end.
fn write_items<P: MatchProducer + Drop>(
    line: &mut String,
    matches: &mut Matches<P>,
    first: bool,
) -> Result<(), SearchError> {
    for item in &mut *matches {
        write_item(line, item)?;
        if first {
            return Ok(());
        }
    }
    match matches.next() {
        Some(_) => Ok(line.push_str("; and more behind the end")?),
        None => Ok(()),
    }
}

// Each input has a function of its own, because a call of a generic function is slow to prove.

pub fn write_utf8<'r, 't>(
    line: &mut String,
    matches: &mut api::Matches<'r, 't>,
    first: bool,
) -> Result<(), SearchError> {
    write_items(line, matches, first)
}

pub fn write_ascii<'r, 't>(
    line: &mut String,
    matches: &mut api::AsciiMatches<'r, 't>,
    first: bool,
) -> Result<(), SearchError> {
    write_items(line, matches, first)
}

pub fn write_utf16<'r, 't>(
    line: &mut String,
    matches: &mut Matches<DefaultUtf16Executor<'r, 't>>,
    first: bool,
) -> Result<(), SearchError> {
    write_items(line, matches, first)
}

pub fn write_ucs2<'r, 't>(
    line: &mut String,
    matches: &mut Matches<DefaultUcs2Executor<'r, 't>>,
    first: bool,
) -> Result<(), SearchError> {
    write_items(line, matches, first)
}

pub fn write_items_of_pikevm<'r, 't>(
    line: &mut String,
    matches: &mut Matches<PikeVMExecutor<'r, Utf8Input<'t>>>,
    first: bool,
) -> Result<(), SearchError> {
    write_items(line, matches, first)
}

pub fn write_items_of_ascii_pikevm<'r, 't>(
    line: &mut String,
    matches: &mut Matches<PikeVMExecutor<'r, AsciiInput<'t>>>,
    first: bool,
) -> Result<(), SearchError> {
    write_items(line, matches, first)
}

// Writes the matches before the end or the limit, and the limit. Checks that the iterator then
// returns `None`.
pub fn write_limited<'r, 't>(
    line: &mut String,
    matches: &mut api::LimitedMatches<'r, 't>,
    first: bool,
) -> Result<(), SearchError> {
    match write_items(line, matches, first) {
        Err(SearchError::StepLimit) => {
            line.push_str(if line.is_empty() { "limit" } else { "; limit" })?;
            match matches.next() {
                Some(_) => Ok(line.push_str("; and more behind the limit")?),
                None => Ok(()),
            }
        }
        other => other,
    }
}

// Writes one match, or nothing if there is none.
pub fn write_match_if_any(line: &mut String, found: &Option<Match>) -> Result<(), SearchError> {
    match found {
        Some(found) => Ok(write_match(line, found)?),
        None => Ok(()),
    }
}
