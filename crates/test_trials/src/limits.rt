//! Tests of searches with a step limit, by the steps that they report as left.

ghost use Rattle.regex_meaning.specs.CodeUnitOffsets.{IsBoundaryOrPastEnd};
ghost use Rattle.std.specs.Prelude.{◌<◌, ◌⊎◌, IsCharBoundary, length};

use crate::checks::Case;
use crate::fault::ParseFault;
use crate::lists::{is_same, is_start};
use regress_match::backends::{LimitedExecutor, emit, optimize, try_parse};
use regress_match::exec::{MatchProducer, Matches};
use regress_match::{Error, Flags, Match, Regex, SearchError};
use regress_program::insn::CompiledRegex;
use std::alloc::{AllocError, Global};

/// More steps than any of these searches takes.
const AMPLE_STEPS: u64 = 1 << 40;

/// Returns the program for bytes of the optimized tree of a pattern.
pub fn program_of(alloc: Global, pattern: &str, flags: Flags) -> Result<CompiledRegex, Error> {
    let code_points: Vec<u32> = pattern.chars().map(u32::from).collect(alloc)?;
    let mut tree = try_parse(alloc, &code_points, flags.for_front())?;
    optimize(&mut tree);
    Ok(emit(alloc, &tree)?)
}

// Searches for the first match from a start on.
fn ask<P: MatchProducer>(executor: &mut P, start: usize) -> Result<(), SearchError>
    requires { IsBoundaryOrPastEnd (P.text executor.old) start }
{
    let Some(pos) = executor.initial_position(start) else {
        return Ok(());
    };
    let mut next = Some(pos);
    executor.next_match(pos, &mut next)?;
    Ok(())
}

// Returns the number of steps that this search needs.
fn need(re: &CompiledRegex, text: &str, start: usize) -> Result<u64, SearchError>
    requires { IsCharBoundary text.now start ⊎ (length text.now < start) }
{
    let mut executor = LimitedExecutor::new(re, text, AMPLE_STEPS)?;
    ask(&mut executor, start)?;
    Ok(AMPLE_STEPS.saturating_sub(executor.steps_left()))
}

// Returns where the list of matches continues after a match, if it does.
fn start_after_match(text: &str, found: &Match) -> Option<usize> {
    if found.start() < found.end() {
        return Some(found.end());
    }
    let next = text.get(found.end()..)?.chars().next()?;
    found.end().checked_add(next.len_utf8())
}

// Returns the number of steps that are needed for each match and all matches before it, and last
// for the end of the list.
fn cumulative_steps(
    alloc: Global,
    re: &CompiledRegex,
    text: &str,
    list: &[Match],
) -> Result<Vec<u64>, SearchError> {
    let mut cumulative_steps = Vec::new(alloc);
    let mut sum = 0u64;
    let mut start = Some(0);
    for number in 0..=list.len() {
        if let Some(at) = start
            && is_start(text, at)
        {
            sum = sum.saturating_add(need(re, text, at)?);
        }
        cumulative_steps.push(sum).map_err(AllocError::from)?;
        start = match list.get(number) {
            Some(found) => start_after_match(text, found),
            None => None,
        };
    }
    Ok(cumulative_steps)
}

// Returns for how many items this number of steps suffices.
fn count(cumulative_steps: &[u64], steps: u64) -> usize {
    let mut items = 0usize;
    for sum in cumulative_steps {
        items = items.saturating_add(usize::from(*sum <= steps));
    }
    items
}

// Checks whether a match is the one with this number in the list.
fn is_at(list: &[Match], number: usize, found: &Match) -> bool {
    match list.get(number) {
        Some(wanted) => is_same(wanted, found),
        None => false,
    }
}

// Checks whether this many items of the list follow, and then an error, unless the last item is the
// end of the list.
fn do_items_follow<P: MatchProducer + Drop>(
    mut matches: Matches<P>,
    list: &[Match],
    items: usize,
) -> bool {
    let mut yielded = 0usize;
    let mut limited = false;
    let mut same = true;
    for item in &mut matches {
        match item {
            Ok(found) => {
                same &= is_at(list, yielded, &found);
                yielded = yielded.saturating_add(1);
            }
            Err(error) => limited = error == SearchError::StepLimit,
        }
    }
    same && limited == (items <= list.len()) && yielded == items.min(list.len())
}

// Checks whether a search with this many steps yields this many items.
fn yields(
    re: &Regex,
    text: &str,
    list: &[Match],
    steps: u64,
    items: usize,
) -> Result<bool, ParseFault> {
    let matches = re.find_from_limited(text, 0, steps)?;
    Ok(do_items_follow(matches, list, items))
}

// Returns the numbers of steps that the items of a case need.
fn cumulative_steps_of_case(
    alloc: Global,
    case: Case<'_>,
    list: &[Match],
) -> Result<Vec<u64>, ParseFault> {
    let program = program_of(alloc, case.pattern, Flags::from(case.flags))?;
    Ok(cumulative_steps(alloc, &program, case.text, list)?)
}

/// Checks that the steps that an item needs yield it, and that one step less yields one item less.
pub fn do_step_limits_agree(
    alloc: Global,
    re: &Regex,
    case: Case<'_>,
    list: &[Match],
) -> Result<bool, ParseFault> {
    let cumulative_steps = cumulative_steps_of_case(alloc, case, list)?;
    let mut holds = true;
    for sum in &cumulative_steps {
        for steps in [*sum, sum.saturating_sub(1)] {
            holds &= yields(re, case.text, list, steps, count(&cumulative_steps, steps))?;
        }
    }
    Ok(holds)
}
