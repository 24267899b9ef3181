//! Searches by a named executor.

ghost use Rattle.std.specs.Prelude.{IsAscii};

use crate::lines::{write_ascii, write_items_of_ascii_pikevm, write_items_of_pikevm, write_utf8};
use crate::starts::is_start;
use regress_input::indexing::Utf8Input;
use regress_match::backends::{DefaultExecutor, PikeVMExecutor, find, find_ascii};
use regress_match::{Regex, SearchError};

type Copying<'a> = PikeVMExecutor<'a, Utf8Input<'a>>;

pub fn write_matches_by_named_executor(
    line: &mut String,
    re: &Regex,
    text: &str,
    start: usize,
    first: bool,
) -> Result<(), SearchError> {
    if is_start(text, start) {
        write_utf8(line, &mut find::<DefaultExecutor>(re, text, start)?, first)
    } else {
        Ok(line.push_str("no start")?)
    }
}

pub fn write_ascii_matches_by_named_executor(
    line: &mut String,
    re: &Regex,
    text: &str,
    start: usize,
    first: bool,
) -> Result<(), SearchError>
    requires { IsAscii text.now }
{
    write_ascii(
        line,
        &mut find_ascii::<DefaultExecutor>(re, text, start)?,
        first,
    )
}

pub fn write_matches_by_pikevm(
    line: &mut String,
    re: &Regex,
    text: &str,
    start: usize,
    first: bool,
) -> Result<(), SearchError> {
    if is_start(text, start) {
        write_items_of_pikevm(line, &mut find::<Copying>(re, text, start)?, first)
    } else {
        Ok(line.push_str("no start")?)
    }
}

pub fn write_ascii_matches_by_pikevm(
    line: &mut String,
    re: &Regex,
    text: &str,
    start: usize,
    first: bool,
) -> Result<(), SearchError>
    requires { IsAscii text.now }
{
    write_items_of_ascii_pikevm(line, &mut find_ascii::<Copying>(re, text, start)?, first)
}
