//! The methods by which a text is searched: in which encoding, and by which call and executor.

ghost use Rattle.std.specs.Prelude.{IsAscii};

use crate::backends::{
    write_ascii_matches_by_named_executor, write_ascii_matches_by_pikevm,
    write_matches_by_named_executor, write_matches_by_pikevm,
};
use crate::calls::SearchCall;
use crate::lines::{write_ascii, write_limited, write_match_if_any, write_utf8};
use crate::starts::is_start;
use crate::units::{write_of_ucs2, write_of_utf16};
use regress_match::{Regex, SearchError};
use std::alloc::{AllocError, Global};

#[derive(Clone, Copy)]
pub enum SearchMethod {
    Utf8,
    Ascii,
    Utf16,
    Ucs2,
    Named,
    AsciiNamed,
    Limited,
    Copying,
    AsciiCopying,
}

pub const ALL_METHODS: [(SearchMethod, &str); 9] = [
    (SearchMethod::Utf8, "in UTF-8"),
    (SearchMethod::Ascii, "in ASCII"),
    (SearchMethod::Utf16, "in UTF-16"),
    (SearchMethod::Ucs2, "in UCS-2"),
    (SearchMethod::Named, "by the default executor, named"),
    (
        SearchMethod::AsciiNamed,
        "by the default executor, named, in ASCII",
    ),
    (SearchMethod::Limited, "within steps"),
    (SearchMethod::Copying, "by the copying executor"),
    (
        SearchMethod::AsciiCopying,
        "by the copying executor in ASCII",
    ),
];

// The methods that use a plan: one for each encoding, and the search with a step limit.
pub const PLANNED_METHODS: [(SearchMethod, &str); 5] = [
    (SearchMethod::Utf8, "in UTF-8"),
    (SearchMethod::Ascii, "in ASCII"),
    (SearchMethod::Utf16, "in UTF-16"),
    (SearchMethod::Ucs2, "in UCS-2"),
    (SearchMethod::Limited, "within steps"),
];

fn write_of_utf8(
    line: &mut String,
    re: &Regex,
    text: &str,
    asked: SearchCall,
) -> Result<(), SearchError> {
    match asked {
        SearchCall::First => write_match_if_any(line, &re.find(text)?),
        SearchCall::All => write_utf8(line, &mut re.find_iter(text)?, false),
        SearchCall::From(start) if is_start(text, start) => {
            write_utf8(line, &mut re.find_from(text, start)?, false)
        }
        SearchCall::At(at) if is_start(text, at) => write_match_if_any(
            line,
            &re.match_at(text, at)?,
        ),
        SearchCall::From(_) | SearchCall::At(_) => Ok(line.push_str("no start")?),
    }
}

fn write_of_ascii(
    line: &mut String,
    re: &Regex,
    text: &str,
    asked: SearchCall,
) -> Result<(), SearchError>
    requires { IsAscii text.now }
{
    match asked {
        SearchCall::First => write_match_if_any(line, &re.find_ascii(text)?),
        SearchCall::All => write_ascii(line, &mut re.find_iter_ascii(text)?, false),
        SearchCall::From(start) => {
            write_ascii(line, &mut re.find_from_ascii(text, start)?, false)
        }
        SearchCall::At(at) => write_match_if_any(line, &re.match_at_ascii(text, at)?),
    }
}

// Searches with the greatest step limit.
fn write_within_steps(
    line: &mut String,
    re: &Regex,
    text: &str,
    start: usize,
    first: bool,
) -> Result<(), SearchError> {
    if !is_start(text, start) {
        return Ok(line.push_str("no start")?);
    }
    write_limited(
        line,
        &mut re.find_from_limited(text, start, u64::MAX)?,
        first,
    )
}

// Returns the same text in 16-bit units, each of which is a character.
fn units_of_ascii(alloc: Global, text: &str) -> Result<Vec<u16>, AllocError> {
    text.bytes().map(u16::from).collect(alloc)
}

fn write_of_ascii_text(
    alloc: Global,
    line: &mut String,
    re: &Regex,
    text: &str,
    asked: SearchCall,
    method: SearchMethod,
) -> Result<(), SearchError>
    requires { IsAscii text.now }
{
    let (start, first) = (asked.start(), asked.is_first());
    match method {
        SearchMethod::Ascii => write_of_ascii(line, re, text, asked),
        SearchMethod::AsciiNamed => write_ascii_matches_by_named_executor(
            line, re, text, start, first,
        ),
        SearchMethod::AsciiCopying => write_ascii_matches_by_pikevm(line, re, text, start, first),
        SearchMethod::Utf16 => write_of_utf16(line, re, &units_of_ascii(alloc, text)?, asked),
        _ => write_of_ucs2(line, re, &units_of_ascii(alloc, text)?, asked),
    }
}

// Writes the matches of a pattern in a text. Methods that read ASCII write `no ASCII` for other
// texts.
pub fn write_found(
    alloc: Global,
    line: &mut String,
    re: &Regex,
    text: &str,
    asked: SearchCall,
    method: SearchMethod,
) -> Result<(), SearchError> {
    let (start, first) = (asked.start(), asked.is_first());
    match method {
        SearchMethod::Utf8 => write_of_utf8(line, re, text, asked),
        SearchMethod::Named => write_matches_by_named_executor(line, re, text, start, first),
        SearchMethod::Limited => write_within_steps(line, re, text, start, first),
        SearchMethod::Copying => write_matches_by_pikevm(line, re, text, start, first),
        _ if text.is_ascii() => write_of_ascii_text(alloc, line, re, text, asked, method),
        _ => Ok(line.push_str("no ASCII")?),
    }
}
