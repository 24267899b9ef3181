//! Leaps: how far a search may advance without an attempt, because each match has to reach a goal.

ghost use Rattle.std.specs.Prelude.{◌≤◌, ◌≡◌, ◌<◌, true};
ghost use Rattle.regex_meaning.specs.CodeUnitOffsets.{IsBoundary, units};
ghost use Rattle.regress_program.specs.Leaps.{AreGoalsFewAscii, AreHighKeysAlike};
ghost use Rattle.regress_search.specs.Leaping.{may_read_unit_before_goal, IsPastBarriersBeforeGoal, IsFirstOffsetReadableUpToGoal, IsTargetOfLeap, IsTargetOfLeapWithin};
ghost use Rattle.regress_search.specs.StartSearch.{IsFirstAllowedBoundary, table_of_listed_units};

use crate::class_char_and_table_lookups::{unit_at_offset, unit_key_at_offset};
use crate::few_wide_units::first_unit_with_listed_key;
use crate::search_context::{SearchContext, text_end};
use crate::start_search::next_of_few_units;
use regress_input::indexing::{CodeUnitEncoding, HasUnitType};
use regress_program::leap::Leap;

/// Where a leap leads: to the first offset from which a match may reach the next goal.
#[derive(Clone, Copy)]
pub struct LeapTarget {
    /// No match begins before this offset.
    pub to: usize,
    /// The offset of the next goal. A match that begins between `to` and `goal` may reach it.
    pub goal: usize,
}

/// Returns where a leap from an offset leads. Returns `None` if there is no goal at that offset or
/// later.
#[inline(never)]
pub fn leap_target_from<W: SearchContext>(
    context: &W,
    leap: &Leap,
    from: usize,
) -> Option<LeapTarget>
    requires at { IsBoundary (W.searching context.now).text from }
    requires ascii { AreGoalsFewAscii leap.now }
    requires alike { AreHighKeysAlike leap.now }
    ensures { IsTargetOfLeap (W.searching context.now) leap.now from result }
{
    match next_goal(context, leap, from) {
        Some(goal) => {
            let to = offset_past_barrier_before_goal(context, leap, from, goal);
            Some(LeapTarget { to, goal })
        }
        None => None,
    }
}

/// Returns where a leap from an offset leads that searches for a goal only before `limit`. If there
/// is none, `limit` stands for the goal: the leap leads past the barriers before it. Returns `None`
/// if there is no goal up to the end of the text.
#[inline(never)]
pub fn leap_target_within<W: SearchContext>(
    context: &W,
    leap: &Leap,
    from: usize,
    limit: usize,
) -> Option<LeapTarget>
    requires at { IsBoundary (W.searching context.now).text from }
    requires ahead { from ≤ limit }
    requires ascii { AreGoalsFewAscii leap.now }
    requires alike { AreHighKeysAlike leap.now }
    ensures { IsTargetOfLeapWithin (W.searching context.now) leap.now from limit result }
{
    if limit >= text_end(context) {
        return leap_target_from(context, leap, from);
    }
    match first_unit_with_listed_key(context, leap.goal, from, limit) {
        Some(found) => {
            let to = offset_past_barrier_before_goal(context, leap, from, found);
            Some(LeapTarget { to, goal: found })
        }
        None => {
            let boundary = last_boundary_before(context, from, limit);
            let to = offset_past_barrier_before_goal(context, leap, from, boundary);
            Some(LeapTarget { to, goal: limit })
        }
    }
}

// Returns the offset of the last unit in `from..limit` that is below 128, which is a boundary.
// Returns `from` if there is none.
#[inline(always)]
fn last_boundary_before<W: SearchContext>(context: &W, from: usize, limit: usize) -> usize
    requires at { IsBoundary (W.searching context.now).text from }
    requires ahead { from ≤ limit }
    requires inside { limit ≤ units (W.searching context.now).text }
    ensures boundary { IsBoundary (W.searching context.now).text result }
    ensures ahead { from ≤ result }
    ensures before { result ≤ limit }
{
    let mut at = limit;
    'back: while at > from {
        at -= 1;
        if unit_key_at_offset(context, at) < 128 {
            return at;
        }
    }
    from
}

// Returns the first offset at `from` or later of a unit that is a goal.
#[inline(always)]
fn next_goal<W: SearchContext>(context: &W, leap: &Leap, from: usize) -> Option<usize>
    requires at { IsBoundary (W.searching context.now).text from }
    requires ascii { AreGoalsFewAscii leap.now }
    ensures { IsFirstAllowedBoundary (W.searching context.now) (table_of_listed_units leap.now.goal)
        from result }
{
    if <<W::Input as HasUnitType>::Units as CodeUnitEncoding>::ARE_BYTES {
        next_of_few_units(context, leap.goal, from)
    } else {
        first_unit_with_listed_key(context, leap.goal, from, text_end(context))
    }
}

// Returns an offset at `from` or later. A match that begins at `from` or later and before it does
// not reach `goal`, because it would have to read a barrier: a unit that it may not read on its way
// to the goal. The barrier is at the returned offset or just before it.
// Contract: `from` and `goal` are boundaries of the text, in this order. `alike` says that the leap
// does not distinguish the keys from 128 on.
#[inline(always)]
fn offset_past_barrier_before_goal<W: SearchContext>(
    context: &W,
    leap: &Leap,
    from: usize,
    goal: usize,
) -> usize
    requires from { IsBoundary (W.searching context.now).text from }
    requires goal { IsBoundary (W.searching context.now).text goal }
    requires ahead { from ≤ goal }
    requires inside { goal ≤ units (W.searching context.now).text }
    requires alike { AreHighKeysAlike leap.now }
    ensures { IsPastBarriersBeforeGoal (W.searching context.now) leap.now from goal result }
{
    let at = first_offset_readable_up_to_goal(context, leap, from, goal);
    if at <= from {
        return at;
    }
    let key = unit_key_at_offset(context, at - 1);
    if key < 128 { at - 1 } else { at }
}

// Returns the first offset at `from` or later such that a match may read all units between it and
// `goal`.
#[inline(always)]
fn first_offset_readable_up_to_goal<W: SearchContext>(
    context: &W,
    leap: &Leap,
    from: usize,
    goal: usize,
) -> usize
    requires ahead { from ≤ goal }
    requires inside { goal ≤ units (W.searching context.now).text }
    requires alike { AreHighKeysAlike leap.now }
    ensures { IsFirstOffsetReadableUpToGoal (W.searching context.now) leap.now from goal result }
{
    let mut at = goal;
    'back: while at > from {
        if !may_read_unit_on_way_to_goal(context, leap, at - 1) {
            return at;
        }
        at -= 1;
    }
    at
}

// Checks whether a match may read the unit at an offset on its way to the goal. For 16-bit units,
// the entry of 128 stands for all units from 128 on.
#[inline(always)]
fn may_read_unit_on_way_to_goal<W: SearchContext>(context: &W, leap: &Leap, at: usize) -> bool
    requires inside { at < units (W.searching context.now).text }
    requires alike { AreHighKeysAlike leap.now }
    ensures { result ≡ may_read_unit_before_goal (W.searching context.now) leap.now at }
{
    if <<W::Input as HasUnitType>::Units as CodeUnitEncoding>::ARE_BYTES {
        return leap.over[unit_key_at_offset(context, at)];
    }
    let unit = unit_at_offset(context, at);
    if unit < 128 {
        return leap.over[unit as usize];
    }
    leap.over[128]
}
