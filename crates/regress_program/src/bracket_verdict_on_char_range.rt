//! How much of an interval of characters a bracket accepts: nothing, all, or possibly a part.

ghost use Rattle.std.specs.Prelude.{◌≡◌, ℕ, Bool, not, map};
ghost use Rattle.regex_meaning.specs.Outcomes.{in_intervals};
ghost use Rattle.regex_pattern_front.specs.Intervals.{interval_of};
ghost use Rattle.regress_program.specs.ClassReadLengths.{AcceptsNoneSomeOrAllOfRange, bracket_accepts};

use regex_pattern_front::codepointset::Interval;
use regex_pattern_front::types::BracketContents;

/// How much of a range is accepted.
#[derive(Clone, Copy)]
pub enum RangeAcceptanceVerdict {
    Nothing,
    /// Undecided: a part of it, all or nothing.
    Part,
    Whole,
}

/// Returns how much of a range a bracket accepts.
pub(crate) fn bracket_coverage_of_range(
    contents: &BracketContents,
    range: Interval,
) -> RangeAcceptanceVerdict
    ensures { AcceptsNoneSomeOrAllOfRange (bracket_accepts contents.now) range result }
{
    let share = share_of_intervals(contents.cps.intervals(), range);
    if contents.invert {
        coverage_by_complement(share)
    } else {
        share
    }
}

// Returns the coverage by the complement.
fn coverage_by_complement(share: RangeAcceptanceVerdict) -> RangeAcceptanceVerdict
    ensures { (test : ℕ → Bool) (range : Interval)
        → AcceptsNoneSomeOrAllOfRange test range share → AcceptsNoneSomeOrAllOfRange (λ c. not (test c)) range result }
{
    match share {
        RangeAcceptanceVerdict::Nothing => RangeAcceptanceVerdict::Whole,
        RangeAcceptanceVerdict::Part => RangeAcceptanceVerdict::Part,
        RangeAcceptanceVerdict::Whole => RangeAcceptanceVerdict::Nothing,
    }
}

// Returns how much of a range a list of intervals covers.
fn share_of_intervals(intervals: &[Interval], range: Interval) -> RangeAcceptanceVerdict
    ensures { AcceptsNoneSomeOrAllOfRange (in_intervals (map interval_of intervals.now)) range result }
{
    for interval in intervals {
        if interval.first <= range.first && range.last <= interval.last {
            return RangeAcceptanceVerdict::Whole;
        }
        if interval.first <= range.last && range.first <= interval.last {
            return RangeAcceptanceVerdict::Part;
        }
    }
    RangeAcceptanceVerdict::Nothing
}
