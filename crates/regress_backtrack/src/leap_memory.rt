//! Leaps: attempts that are skipped, because each match has to reach a goal.

ghost use Rattle.std.specs.Prelude.{◌≡◌, Some, true};
ghost use Rattle.regex_meaning.specs.{Tree.{Tree}, Text.{Text}, CodeUnitOffsets.{IsBoundary}};
ghost use Rattle.regress_search.specs.AttemptsAndStarts.{NextStartSkipsNoMatch, NoMatchAt};
ghost use Rattle.regress_machine.specs.SearchFindsFirstOutcomeAtPlace.{TreeProgramCanSearchText};
ghost use Rattle.regress_program.specs.{Leaps.{IsLeapRightForProgram}, TableKeysOfUnits.{is_16_bit_encoding}};
ghost use Rattle.regress_search.specs.TreePlanAndText.{program_of};
ghost use Rattle.regress_backtrack.specs.LeapMemory.{NoMatchBeforeRememberedLeap};

use regress_program::leap::Leap;
use regress_search::leaping::{LeapTarget, leap_target_from};
use regress_search::search_context::SearchContext;

/// What a search remembers of its last leap.
#[derive(Clone, Copy)]
pub(crate) struct LeapMemory {
    // No match begins between `from` and `to`. If `to` is `None`, no match begins at `from` or
    // later.
    from: usize,
    to: Option<usize>,
    // `to`, or the greatest number if that is `None`. So a single comparison detects most offsets
    // past it.
    until: usize,
    // When the next leap is due.
    schedule: LeapSchedule,
    // Whether an attempt was made. A search at a given offset makes only one.
    began: bool,
}

/// When the next leap of a search is due.
#[derive(Clone, Copy)]
pub(crate) struct LeapSchedule {
    // A leap precedes an attempt at this offset or later.
    due: usize,
    // The number of leaps that did not advance the search, up to `MAX_UNPRODUCTIVE_LEAPS`. It is
    // halved by each leap that does.
    vain: u32,
}

/// After this many leaps that did not advance the search, no leap is made for
/// `OFFSETS_WITHOUT_LEAP` offsets.
const MAX_UNPRODUCTIVE_LEAPS: u32 = 16;

const OFFSETS_WITHOUT_LEAP: usize = 1024;

impl LeapMemory {
    /// Returns the memory of a search that has made no leap.
    pub(crate) fn new(leap: &Option<Leap>) -> Self
        ensures from { result.from ≡ 0 }
        ensures to { result.to ≡ Some 0 }
    {
        LeapMemory {
            from: 0,
            to: Some(0),
            until: 0,
            schedule: LeapSchedule::new(leap),
            began: false,
        }
    }

    /// Checks whether the last leap says nothing about an offset.
    #[inline(always)]
    pub(crate) fn is_past_leap_target(&self, at: usize) -> bool {
        at >= self.until
    }

    /// Returns the first offset at `at` or later where a match may begin, as far as the last leap
    /// tells. Returns `None` if there is none.
    pub(crate) fn past(&self, at: usize) -> Option<usize>
        ensures { (tree : Tree) (text : Text) → IsBoundary text at → NoMatchBeforeRememberedLeap tree text self.now
            → NextStartSkipsNoMatch tree text at result }
    {
        if at < self.from {
            return Some(at);
        }
        match self.to {
            Some(to) => Some(at.max(to)),
            None => None,
        }
    }
}

impl LeapSchedule {
    /// Returns the schedule of a search that has made no leap.
    pub(crate) fn new(leap: &Option<Leap>) -> Self {
        let due = if leap.is_some() { 0 } else { usize::MAX };
        LeapSchedule { due, vain: 0 }
    }

    /// Checks whether a leap precedes an attempt at an offset.
    #[inline(always)]
    pub(crate) fn is_leap_due(&self, at: usize) -> bool {
        at >= self.due
    }

    /// Determines that no further leap is made, because there is no further goal.
    pub(crate) fn end_leaps(&mut self) {
        self.due = usize::MAX;
    }

    /// Determines when the next leap is due, after a leap from `from` that led to `target`.
    pub(crate) fn schedule_next_leap(&mut self, from: usize, target: LeapTarget) {
        self.due = target.goal.saturating_add(1);
        if target.to > from {
            self.vain /= 2;
        } else if self.vain < MAX_UNPRODUCTIVE_LEAPS {
            self.vain += 1;
        } else {
            self.due = self.due.max(from.saturating_add(OFFSETS_WITHOUT_LEAP));
        }
    }
}

/// Makes a leap from an offset if one is due. Returns `true` if no match begins at this offset.
#[inline(always)]
pub(crate) fn make_leap_if_due<W: SearchContext>(
    context: &W,
    memory: &mut LeapMemory,
    at: usize,
) -> bool
    requires at { IsBoundary (W.searching context.now).text at }
    requires executable { let w = W.searching context.now in TreeProgramCanSearchText (program_of w) w.tree w.text }
    ensures none { let w = W.searching context.now in result ≡ true → NoMatchAt w.tree w.text at }
    ensures sound { let w = W.searching context.now in NoMatchBeforeRememberedLeap w.tree w.text memory.old
        → NoMatchBeforeRememberedLeap w.tree w.text memory.new }
{
    if !memory.schedule.is_leap_due(at) {
        return false;
    }
    make_leap_after_first_attempt(context, memory, at)
}

// Makes a leap from an offset, unless no attempt was made yet. Returns `true` if no match begins at
// this offset.
#[inline(never)]
fn make_leap_after_first_attempt<W: SearchContext>(
    context: &W,
    memory: &mut LeapMemory,
    at: usize,
) -> bool
    requires at { IsBoundary (W.searching context.now).text at }
    requires executable { let w = W.searching context.now in TreeProgramCanSearchText (program_of w) w.tree w.text }
    ensures none { let w = W.searching context.now in result ≡ true → NoMatchAt w.tree w.text at }
    ensures sound { let w = W.searching context.now in NoMatchBeforeRememberedLeap w.tree w.text memory.old
        → NoMatchBeforeRememberedLeap w.tree w.text memory.new }
{
    let Some(leap) = &context.plan().leap else {
        return false;
    };
    if !memory.began {
        memory.began = true;
        return false;
    }
    make_leap_and_store_it(context, leap, memory, at)
}

// Makes a leap from an offset, and stores where it led. Returns `true` if no match begins at this
// offset.
#[inline(always)]
fn make_leap_and_store_it<W: SearchContext>(
    context: &W,
    leap: &Leap,
    memory: &mut LeapMemory,
    at: usize,
) -> bool
    requires at { IsBoundary (W.searching context.now).text at }
    requires executable { let w = W.searching context.now in TreeProgramCanSearchText (program_of w) w.tree w.text }
    requires leap { let w = W.searching context.now in IsLeapRightForProgram (is_16_bit_encoding w.encoding)
        (program_of w) leap.now }
    ensures none { let w = W.searching context.now in result ≡ true → NoMatchAt w.tree w.text at }
    ensures sound { let w = W.searching context.now in NoMatchBeforeRememberedLeap w.tree w.text memory.new }
{
    memory.from = at;
    match leap_target_from(context, leap, at) {
        Some(target) => {
            memory.to = Some(target.to);
            memory.until = target.to;
            memory.schedule.schedule_next_leap(at, target);
            at < target.to
        }
        None => {
            memory.to = None;
            memory.until = usize::MAX;
            memory.schedule.end_leaps();
            true
        }
    }
}
