//! Searches within a work budget, with the pattern of a handle.

ghost use Rattle.std.specs.Prelude.{◌≡◌};
ghost use Rattle.regress_c.specs.{FirstMatchInWork.{IsFindResultWithinWork, IsFindResultOfHandleWithinWork, IsFirstInWork, IsWorkBoundResult, RepliesWorkBound}, Searching.{can_start_utf8}};
ghost use Rattle.regress_match.specs.WorkBounds.{IsHigherOfProgramWorkBounds};

use crate::pattern::Pattern;
use crate::refusal::{DONE, Refusal};
use crate::subject::text_with_valid_start;
use regress_match::{BoundedRegex, Match, Regex};
use std::alloc::Global;

/// Finds the first match with the handle's pattern, with at most `work` work. The handle holds the
/// pattern again afterwards. Sets `work` to the work that is left.
pub(crate) fn find(
    alloc: Global,
    pattern: &mut Pattern,
    bytes: &[u8],
    start: usize,
    work: &mut u64,
) -> Result<Option<Match>, Refusal>
    ensures finds { IsFindResultOfHandleWithinWork pattern.old.held bytes.now start work.old result work.new }
    ensures kept { pattern.new.held ≡ pattern.old.held }
{
    let Some(re) = pattern.take(alloc) else {
        return Err(Refusal::Empty);
    };
    let found = find_with_regex_within_work(&re, bytes, start, work);
    pattern.put(re);
    found
}

// Finds the first match with a pattern, with at most `work` work.
fn find_with_regex_within_work(
    re: &Regex,
    bytes: &[u8],
    start: usize,
    work: &mut u64,
) -> Result<Option<Match>, Refusal>
    ensures { IsFindResultWithinWork re.now bytes.now start work.old result work.new }
{
    let text = text_with_valid_start(bytes, start)?;
    let bounded = re.bounded()?;
    first_match_within_work(&bounded, text, start, work)
}

// Returns the first match in a text, with at most `work` work.
fn first_match_within_work(
    bounded: &BoundedRegex<'_>,
    text: &str,
    start: usize,
    work: &mut u64,
) -> Result<Option<Match>, Refusal>
    requires start { can_start_utf8 text.now start }
    requires enough { IsHigherOfProgramWorkBounds bounded.now.re bounded.now.per_unit }
    ensures { IsFirstInWork bounded.now.re text.now start work.old result work.new }
{
    let mut matches = bounded.find_from(text, start, *work)?;
    let first = matches.next();
    *work = matches.work_left();
    Ok(first.transpose()?)
}

/// Sets `per_unit` to the work bound of the handle's pattern: for a text of n units, `per_unit` ×
/// (n + 1) work suffices. Returns a code.
pub(crate) fn write_work_bound(alloc: Global, pattern: &mut Pattern, per_unit: &mut u64) -> u32
    ensures replies { RepliesWorkBound pattern.old.held per_unit.old per_unit.new result }
    ensures kept { pattern.new.held ≡ pattern.old.held }
{
    match work_bound_or_refusal(alloc, pattern) {
        Ok(number) => {
            *per_unit = number;
            DONE
        }
        Err(refusal) => refusal.code(),
    }
}

// Returns the work bound, or the reason why there is none.
fn work_bound_or_refusal(alloc: Global, pattern: &mut Pattern) -> Result<u64, Refusal>
    ensures work_bound_result { IsWorkBoundResult pattern.old.held result }
    ensures kept { pattern.new.held ≡ pattern.old.held }
{
    let Some(re) = pattern.take(alloc) else {
        return Err(Refusal::Empty);
    };
    let found = re.work_per_unit();
    pattern.put(re);
    Ok(found?)
}
