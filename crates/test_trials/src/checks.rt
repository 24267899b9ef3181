//! Checks that hold for the searches of each pattern in each text.

ghost use Rattle.std.specs.Prelude.{IsAscii};

use crate::bounded::{do_work_bounds_suffice, do_work_limits_agree};
use crate::fault::ParseFault;
use crate::limits::{do_step_limits_agree, program_of};
use crate::lists::{all, are_same, is_start, match_same_places};
use regress_input::indexing::Utf8Input;
use regress_match::backends::{DefaultExecutor, PikeVMExecutor, find, find_ascii};
use regress_match::exec::{Matches, ProducerFromProgramAndText};
use regress_match::{Flags, Match, Regex, SearchError};
use regress_program::insn::CompiledRegex;
use std::alloc::Global;

/// A pattern with flags, and a text.
#[derive(Clone, Copy)]
pub struct Case<'a> {
    pub pattern: &'a str,
    pub flags: &'a str,
    pub text: &'a str,
}

// Returns all matches.
fn found(alloc: Global, re: &Regex, text: &str) -> Result<Vec<Match>, ParseFault> {
    Ok(all(alloc, re.find_iter(text)?)?)
}

// Checks whether the unoptimized tree has the same matches.
fn is_same_unoptimized(alloc: Global, case: Case<'_>, list: &[Match]) -> Result<bool, ParseFault> {
    let flags = Flags {
        no_opt: true,
        ..Flags::from(case.flags)
    };
    let re = Regex::with_flags(alloc, case.pattern, flags)?;
    Ok(are_same(list, &found(alloc, &re, case.text)?))
}

// Checks whether the copying executor finds the same matches.
fn does_pikevm_agree(
    alloc: Global,
    re: &Regex,
    text: &str,
    list: &[Match],
) -> Result<bool, ParseFault> {
    let others = find::<PikeVMExecutor<Utf8Input>>(re, text, 0)?;
    Ok(are_same(list, &all(alloc, others)?))
}

// Returns all matches that an executor finds that remembers failures from the first attempt on.
fn matches_with_memoization(
    alloc: Global,
    re: &CompiledRegex,
    text: &str,
) -> Result<Vec<Match>, SearchError> {
    let mut executor = DefaultExecutor::new(re, text)?;
    executor.always_memoize();
    all(alloc, Matches::new(executor, 0))
}

// Checks whether the executor that remembers failures finds the same matches.
fn does_memoizing_executor_agree(
    alloc: Global,
    case: Case<'_>,
    list: &[Match],
) -> Result<bool, ParseFault> {
    let program = program_of(alloc, case.pattern, Flags::from(case.flags))?;
    Ok(are_same(list, &matches_with_memoization(alloc, &program, case.text)?))
}

// Checks whether the search of ASCII texts finds the same matches.
fn is_same_in_ascii(
    alloc: Global,
    re: &Regex,
    text: &str,
    list: &[Match],
) -> Result<bool, ParseFault>
    requires { IsAscii text.now }
{
    Ok(are_same(list, &all(alloc, re.find_iter_ascii(text)?)?))
}

// Checks the same with the copying executor.
fn does_pikevm_agree_in_ascii(
    alloc: Global,
    re: &Regex,
    text: &str,
    list: &[Match],
) -> Result<bool, ParseFault>
    requires { IsAscii text.now }
{
    let others = find_ascii::<PikeVMExecutor<Utf8Input>>(re, text, 0)?;
    Ok(are_same(list, &all(alloc, others)?))
}

// Checks whether the search in UTF-16 finds the same places.
fn is_same_in_utf16(
    alloc: Global,
    re: &Regex,
    text: &str,
    list: &[Match],
) -> Result<bool, ParseFault> {
    let units: Vec<u16> = text.encode_utf16().collect(alloc)?;
    let others = all(alloc, re.find_from_utf16(&units, 0)?)?;
    Ok(match_same_places(text, list, &others))
}

// Checks whether a search from the end of a match, which is a boundary, finds the remaining
// matches.
fn does_search_from_end_find_rest(
    alloc: Global,
    re: &Regex,
    text: &str,
    end: usize,
    rest: &[Match],
) -> Result<bool, ParseFault> {
    if !is_start(text, end) {
        return Ok(false);
    }
    Ok(are_same(rest, &all(alloc, re.find_from(text, end)?)?))
}

// Checks this for the end of each match that is not empty.
fn do_resumed_searches_agree(
    alloc: Global,
    re: &Regex,
    text: &str,
    list: &[Match],
) -> Result<bool, ParseFault> {
    let mut same = true;
    for (id, found) in list.iter().enumerate() {
        if found.start() < found.end() {
            let rest = list.get(id.saturating_add(1)..).unwrap_or(&[]);
            same &= does_search_from_end_find_rest(alloc, re, text, found.end(), rest)?;
        }
    }
    Ok(same)
}

// Checks whether replacing each match, or the first one, by itself does not change the text.
fn is_kept_when_replaced_by_itself(re: &Regex, text: &str) -> Result<bool, ParseFault> {
    let each = re.replace_all(text, "$0")?.as_str() == text;
    Ok(each && re.replace(text, "$0")?.as_str() == text)
}

// Returns the fault if the check fails.
fn fault_unless(holds: bool, fault: ParseFault) -> Result<(), ParseFault> {
    if holds { Ok(()) } else { Err(fault) }
}

// Makes all checks for the matches of a pattern. Returns whether a work bound of the pattern is
// known.
fn check(alloc: Global, re: &Regex, case: Case<'_>, list: &[Match]) -> Result<bool, ParseFault> {
    let text = case.text;
    fault_unless(
        is_same_unoptimized(alloc, case, list)?,
        ParseFault::Unoptimized,
    )?;
    fault_unless(
        does_pikevm_agree(alloc, re, text, list)?,
        ParseFault::Copied,
    )?;
    fault_unless(
        does_memoizing_executor_agree(alloc, case, list)?,
        ParseFault::Remembered,
    )?;
    if text.is_ascii() {
        fault_unless(is_same_in_ascii(alloc, re, text, list)?, ParseFault::Ascii)?;
        fault_unless(
            does_pikevm_agree_in_ascii(alloc, re, text, list)?,
            ParseFault::CopiedAscii,
        )?;
    }
    fault_unless(is_same_in_utf16(alloc, re, text, list)?, ParseFault::Utf16)?;
    fault_unless(
        do_resumed_searches_agree(alloc, re, text, list)?,
        ParseFault::Resumed,
    )?;
    fault_unless(
        do_step_limits_agree(alloc, re, case, list)?
            && do_work_limits_agree(alloc, re, text, list)?,
        ParseFault::Limited,
    )?;
    fault_unless(
        is_kept_when_replaced_by_itself(re, text)?,
        ParseFault::ReplacedByItself,
    )?;
    let bounded = do_work_bounds_suffice(alloc, re, text, list)?;
    fault_unless(bounded != Some(false), ParseFault::Bounded)?;
    Ok(bounded.is_some())
}

/// Returns the number of matches of a case, and whether a work bound is known. Returns the fault if
/// a check fails.
pub fn try_case(alloc: Global, case: Case<'_>) -> Result<(usize, bool), ParseFault> {
    let re = Regex::with_flags(alloc, case.pattern, Flags::from(case.flags))?;
    let list = found(alloc, &re, case.text)?;
    let bounded = check(alloc, &re, case, &list)?;
    Ok((list.len(), bounded))
}
