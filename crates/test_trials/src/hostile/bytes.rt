//! Searches in UTF-8 and in ASCII texts, by each call.

ghost use Rattle.std.specs.Prelude.{◌<◌, ◌⊎◌, IsAscii, IsCharBoundary, IsTrue, length};

use crate::fault::ParseFault;
use crate::hostile::executors::finds;
use crate::hostile::lists::{are_expected_matches, is_first};
use crate::hostile::patterns::Compiled;
use regress_input::indexing::{AsciiInput, Utf8Input};
use regress_match::Regex;
use regress_match::backends::{
    DefaultAsciiExecutor, DefaultExecutor, PikeVMExecutor, find, find_ascii,
};
use regress_match::exec::ProducerFromProgramAndText;
use regress_program::insn::CompiledRegex;

/// The ways to search.
#[derive(Clone, Copy)]
pub enum Way {
    /// The first match, searched for from the left end.
    First,
    /// All matches.
    All,
    /// All matches, with more steps than are needed.
    Limited,
    /// The first match, from a direct call of an executor.
    Asked,
    /// All matches, by the copying executor.
    CopyingAll,
    /// The first match, from a direct call of the copying executor.
    CopyingAsked,
}

/// Checks whether an offset is a character boundary of the text, or past the end.
pub fn is_start(text: &str, offset: usize) -> bool
    ensures { IsTrue result → IsCharBoundary text.now offset ⊎ (length text.now < offset) }
{
    text.is_char_boundary(offset) || text.len() < offset
}

fn all(re: &Regex, text: &str, start: usize, wanted: &str) -> Result<bool, ParseFault>
    requires { IsCharBoundary text.now start ⊎ (length text.now < start) }
{
    are_expected_matches(re.find_from(text, start)?, wanted)
}

fn limited(re: &Regex, text: &str, start: usize, wanted: &str) -> Result<bool, ParseFault>
    requires { IsCharBoundary text.now start ⊎ (length text.now < start) }
{
    are_expected_matches(re.find_from_limited(text, start, u64::MAX)?, wanted)
}

fn asked(re: &CompiledRegex, text: &str, start: usize, wanted: &str) -> Result<bool, ParseFault>
    requires { IsCharBoundary text.now start ⊎ (length text.now < start) }
{
    let mut executor = DefaultExecutor::new(re, text)?;
    finds(&mut executor, start, wanted)
}

fn are_matches_by_pikevm_expected(
    re: &Regex,
    text: &str,
    start: usize,
    wanted: &str,
) -> Result<bool, ParseFault>
    requires { IsCharBoundary text.now start ⊎ (length text.now < start) }
{
    let matches = find::<PikeVMExecutor<Utf8Input>>(re, text, start)?;
    are_expected_matches(matches, wanted)
}

fn is_first_match_by_pikevm_expected(
    re: &CompiledRegex,
    text: &str,
    start: usize,
    wanted: &str,
) -> Result<bool, ParseFault>
    requires { IsCharBoundary text.now start ⊎ (length text.now < start) }
{
    let mut executor = PikeVMExecutor::<Utf8Input>::new(re, text)?;
    finds(&mut executor, start, wanted)
}

/// Checks whether a search of a UTF-8 text has the expected result.
pub fn in_utf8(
    re: &Compiled,
    text: &str,
    start: usize,
    wanted: &str,
    way: Way,
) -> Result<bool, ParseFault>
    requires { IsCharBoundary text.now start ⊎ (length text.now < start) }
{
    match way {
        Way::First if start != 0 => Ok(true),
        Way::First => is_first(re.regex.find(text)?, wanted),
        Way::All => all(&re.regex, text, start, wanted),
        Way::Limited => limited(&re.regex, text, start, wanted),
        Way::Asked => asked(&re.bytes, text, start, wanted),
        Way::CopyingAll => are_matches_by_pikevm_expected(&re.regex, text, start, wanted),
        Way::CopyingAsked => is_first_match_by_pikevm_expected(&re.bytes, text, start, wanted),
    }
}

fn all_in_ascii(re: &Regex, text: &str, start: usize, wanted: &str) -> Result<bool, ParseFault>
    requires { IsAscii text.now }
{
    are_expected_matches(re.find_from_ascii(text, start)?, wanted)
}

fn asked_in_ascii(
    re: &CompiledRegex,
    text: &str,
    start: usize,
    wanted: &str,
) -> Result<bool, ParseFault>
    requires { IsAscii text.now }
{
    let mut executor = DefaultAsciiExecutor::new(re, text)?;
    finds(&mut executor, start, wanted)
}

fn copying_all_in_ascii(
    re: &Regex,
    text: &str,
    start: usize,
    wanted: &str,
) -> Result<bool, ParseFault>
    requires { IsAscii text.now }
{
    let matches = find_ascii::<PikeVMExecutor<Utf8Input>>(re, text, start)?;
    are_expected_matches(matches, wanted)
}

fn copying_asked_in_ascii(
    re: &CompiledRegex,
    text: &str,
    start: usize,
    wanted: &str,
) -> Result<bool, ParseFault>
    requires { IsAscii text.now }
{
    let mut executor = PikeVMExecutor::<AsciiInput>::new(re, text)?;
    finds(&mut executor, start, wanted)
}

/// Checks the same for an ASCII text.
pub fn in_ascii(
    re: &Compiled,
    text: &str,
    start: usize,
    wanted: &str,
    way: Way,
) -> Result<bool, ParseFault>
    requires { IsAscii text.now }
{
    match way {
        Way::First if start == 0 => is_first(re.regex.find_ascii(text)?, wanted),
        Way::First | Way::Limited => Ok(true),
        Way::All => all_in_ascii(&re.regex, text, start, wanted),
        Way::Asked => asked_in_ascii(&re.bytes, text, start, wanted),
        Way::CopyingAll => copying_all_in_ascii(&re.regex, text, start, wanted),
        Way::CopyingAsked => copying_asked_in_ascii(&re.bytes, text, start, wanted),
    }
}
