//! Searches with a step limit.

ghost use Rattle.regex_meaning.specs.CodeUnitOffsets.{IsBoundaryOrPastEnd};
ghost use Rattle.std.specs.Prelude.{◌<◌, ◌⊎◌, IsCharBoundary, length};

use crate::fault::ParseFault;
use crate::hostile::bytes::is_start;
use crate::hostile::fields::Fields;
use crate::hostile::lists::{are_expected_matches, is_first};
use crate::hostile::patterns::{Compiled, compile};
use crate::hostile::wanted::LIMIT;
use regress_match::backends::LimitedExecutor;
use regress_match::exec::MatchProducer;
use regress_match::{Match, Regex, SearchError};
use regress_program::insn::CompiledRegex;
use std::alloc::Global;

// The step limit, the number of steps for the first match, and the expected matches.
#[derive(Clone, Copy)]
struct Row<'a> {
    steps: u64,
    need: u64,
    wanted: &'a str,
}

// Checks whether an executor with this many steps returns the expected first match and takes the
// steps that it needs, or returns the limit and has no steps left.
fn is_answer_within_steps_as_expected(
    row: Row<'_>,
    before: u64,
    after: u64,
    answer: Result<Option<Match>, SearchError>,
) -> Result<bool, ParseFault> {
    match answer {
        Ok(found) => {
            let spent = before.checked_sub(row.need) == Some(after);
            Ok(spent && row.wanted != LIMIT && is_first(found, row.wanted)?)
        }
        Err(SearchError::StepLimit) => Ok(before < row.need && after == 0),
        Err(SearchError::Memory) => Err(ParseFault::Refused),
    }
}

/// An executor that counts its steps.
trait Counting: MatchProducer {
    /// Returns the number of steps that are left.
    fn left(&self) -> u64;
}

impl<'r, 't> Counting for LimitedExecutor<'r, 't> {
    fn left(&self) -> u64 {
        self.steps_left()
    }
}

// Checks whether an executor returns the expected result for its steps. If an allocation fails, the
// place where the list continues is unchanged, no steps were added, and a second call returns the
// expected result for the steps that are left.
fn answers<P: Counting>(executor: &mut P, start: usize, row: Row<'_>) -> Result<bool, ParseFault>
    requires { IsBoundaryOrPastEnd (P.text executor.old) start }
{
    let Some(pos) = executor.initial_position(start) else {
        return Ok(executor.left() == row.steps);
    };
    let mut next = Some(pos);
    let first = executor.next_match(pos, &mut next);
    let left = executor.left();
    if !matches!(first, Err(SearchError::Memory)) {
        return is_answer_within_steps_as_expected(row, row.steps, left, first);
    }
    let unchanged = left <= row.steps && next == Some(pos);
    let second = executor.next_match(pos, &mut next);
    if unchanged && is_answer_within_steps_as_expected(row, left, executor.left(), second)? {
        Err(ParseFault::Refused)
    } else {
        Err(ParseFault::Wrong)
    }
}

fn is_direct_search_as_expected(
    re: &CompiledRegex,
    text: &str,
    start: usize,
    row: Row<'_>,
) -> Result<bool, ParseFault>
    requires { IsCharBoundary text.now start ⊎ (length text.now < start) }
{
    let mut executor = LimitedExecutor::new(re, text, row.steps)?;
    answers(&mut executor, start, row)
}

fn are_all(re: &Regex, text: &str, start: usize, row: Row<'_>) -> Result<bool, ParseFault>
    requires { IsCharBoundary text.now start ⊎ (length text.now < start) }
{
    are_expected_matches(re.find_from_limited(text, start, row.steps)?, row.wanted)
}

fn agrees(
    re: &Compiled,
    text: &str,
    start: usize,
    row: Row<'_>,
    asked: bool,
) -> Result<bool, ParseFault> {
    if !is_start(text, start) {
        Ok(false)
    } else if asked {
        is_direct_search_as_expected(&re.bytes, text, start, row)
    } else {
        are_all(&re.regex, text, start, row)
    }
}

/// Checks whether the searches of a row agree. If an allocation fails, the search is repeated with
/// the same pattern.
pub fn agree(alloc: Global, line: &str) -> Result<bool, ParseFault> {
    let mut fields = Fields::of(line);
    let re = compile(alloc, fields.next(), fields.next(), false)?;
    let text = fields.next();
    let start = fields.next().parse::<usize>().unwrap_or(0);
    let row = Row {
        steps: fields.next().parse::<u64>().unwrap_or(0),
        need: fields.next().parse::<u64>().unwrap_or(0),
        wanted: fields.next(),
    };
    let mut agree = true;
    for asked in [false, true] {
        let mut tried = agrees(&re, text, start, row, asked);
        if matches!(tried, Err(ParseFault::Refused)) {
            tried = agrees(&re, text, start, row, asked);
        }
        agree &= matches!(tried, Ok(true));
    }
    Ok(agree)
}

// Checks whether an executor finds two matches in turn, the second one from this place on. If an
// allocation fails in the second search, it has taken at least this many steps before: until then,
// the memory of the first search suffices.
fn finds_two_matches_in_turn<P: Counting>(
    executor: &mut P,
    behind: usize,
    first: &str,
    second: &str,
    taken: u64,
) -> Result<bool, ParseFault>
    requires first { IsBoundaryOrPastEnd (P.text executor.old) 0 }
    requires second { IsBoundaryOrPastEnd (P.text executor.old) behind }
{
    let (Some(pos), Some(behind)) = (
        executor.initial_position(0),
        executor.initial_position(behind),
    ) else {
        return Ok(false);
    };
    let mut next = Some(pos);
    let is_found = is_first(executor.next_match(pos, &mut next)?, first)?;
    let goes_on = next == Some(behind);
    if !is_found || !goes_on {
        return Ok(false);
    }
    let before = executor.left();
    match executor.next_match(behind, &mut next) {
        Ok(found) => is_first(found, second),
        Err(_) if before.saturating_sub(executor.left()) < taken => Err(ParseFault::Wrong),
        Err(error) => Err(ParseFault::from(error)),
    }
}

fn is_taken(
    re: &CompiledRegex,
    text: &str,
    behind: usize,
    first: &str,
    second: &str,
    taken: u64,
) -> Result<bool, ParseFault>
    requires first { IsCharBoundary text.now 0 ⊎ (length text.now < 0) }
    requires second { IsCharBoundary text.now behind ⊎ (length text.now < behind) }
{
    let mut executor = LimitedExecutor::new(re, text, u64::MAX)?;
    finds_two_matches_in_turn(&mut executor, behind, first, second, taken)
}

/// Checks that steps that were taken before an allocation failed are spent, for a row of `TAKEN`.
pub fn steps_stay_taken_on_refusal(alloc: Global, line: &str) -> Result<bool, ParseFault> {
    let mut fields = Fields::of(line);
    let re = compile(alloc, fields.next(), fields.next(), false)?;
    let text = fields.next();
    let first = fields.next();
    let second = fields.next();
    let taken = fields.next().parse::<u64>().unwrap_or(0);
    let behind = fields.next().parse::<usize>().unwrap_or(0);
    if !is_start(text, 0) {
        return Ok(false);
    }
    if !is_start(text, behind) {
        return Ok(false);
    }
    is_taken(&re.bytes, text, behind, first, second, taken)
}
