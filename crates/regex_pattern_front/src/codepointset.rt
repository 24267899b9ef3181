//! Sets of code points.

ghost use Rattle.std.specs.Prelude.{◌≡◌, ℕ, ◌+◌, ◌<◌, ◌≤◌, ◌&&◌, Bool, true, not, List, [], ◌∷◌, map, filter, nat_le, IfOk, if◌then◌else◌};
ghost use Rattle.std.specs.List.{All};
ghost use Rattle.std.specs.List.Sorted.{IsNonDecreasingBy, IsPermutation};
ghost use Rattle.regex_meaning.specs.Outcomes.{in_intervals};
ghost use Rattle.regex_meaning.specs.CharacterClasses.{AreCanonicalIntervals};
ghost use Rattle.regex_pattern_front.specs.Intervals.{interval_of, IntervalsAreInOrder, is_interval_nonempty, merged_intervals, gaps_between_intervals};

use std::alloc::{AllocError, Global};
use std::marker::Model;

/// The greatest code point.
pub const CODE_POINT_MAX: u32 = 0x10_FFFF;

/// The code points from `first` to `last`, both inclusive. The interval is empty if `last` is below
/// `first`.
#[derive(Clone, Copy, Debug, PartialEq, Eq)]
pub struct Interval {
    pub first: u32,
    pub last: u32,
}

/// A set of code points: intervals in increasing order. No interval is empty, and no two overlap.
/// Contracts refer to the list of their ends.
#[derive(Drop)]
pub struct CodePointSet {
    intervals: Vec<Interval>,
}

impl Model for CodePointSet {
    ghost use Rattle.std.specs.Prelude.{ℕ, List, map};
    ghost use Rattle.regex_pattern_front.specs.Intervals.{interval_of, IntervalsAreInOrder};

    ghost Value = { List (ℕ × ℕ) };

    ghost view = { λ s. map interval_of s.intervals.items };

    ghost invariant = { λ s. IntervalsAreInOrder (map interval_of s.intervals.items) };
}

impl CodePointSet {
    /// Returns the empty set.
    pub fn new(alloc: Global) -> Self
        ensures { result ≡ [] }
    {
        CodePointSet {
            intervals: Vec::new(alloc),
        }
    }

    /// Returns the set of the code points in these intervals. They may be in any order, overlap,
    /// touch, or be empty.
    ///
    /// # Errors
    ///
    /// Returns an error on allocation failure.
    pub fn from_intervals(alloc: Global, intervals: &[Interval]) -> Result<Self, AllocError>
        ensures members { IfOk result (λ s. (c : ℕ) → in_intervals s c ≡ in_intervals
            (map interval_of intervals.now) c) }
        ensures apart { IfOk result (λ s. AreCanonicalIntervals s) }
    {
        if are_canonical(intervals) {
            return Ok(CodePointSet {
                intervals: Vec::from_slice(alloc, intervals)?,
            });
        }
        let sorted = sorted(alloc, intervals)?;
        match sorted.split_first() {
            None => Ok(CodePointSet::new(alloc)),
            Some((first, others)) => Ok(CodePointSet {
                intervals: merge(alloc, *first, others)?,
            }),
        }
    }

    /// Returns the intervals, in increasing order.
    pub fn intervals(&self) -> &[Interval]
        ensures { map interval_of result.now ≡ self.now }
    {
        &self.intervals
    }

    /// Checks whether a number is in the set.
    pub fn contains(&self, c: u32) -> bool
        ensures { result ≡ in_intervals self.now c }
    {
        contains(&self.intervals, c)
    }

    /// Returns the set of the code points that are not in this set.
    ///
    /// # Errors
    ///
    /// Returns an error on allocation failure.
    pub fn inverted(&self) -> Result<Self, AllocError>
        ensures members { IfOk result (λ s. (c : ℕ) → in_intervals s c
            ≡ (nat_le c 0x10_FFFF && not (in_intervals self.now c))) }
        ensures apart { IfOk result (λ s. AreCanonicalIntervals s) }
    {
        Ok(CodePointSet {
            intervals: gaps_between_intervals(*self.intervals.allocator(), &self.intervals)?,
        })
    }

    /// Returns a copy of the set.
    ///
    /// # Errors
    ///
    /// Returns an error on allocation failure.
    pub fn clone(&self) -> Result<Self, AllocError>
        ensures { IfOk result (λ s. s ≡ self.now) }
    {
        Ok(CodePointSet {
            intervals: self.intervals.clone()?,
        })
    }
}

// Checks whether the intervals are in increasing order, none is empty, and no two touch.
fn are_canonical(intervals: &[Interval]) -> bool
    ensures { result ≡ true → AreCanonicalIntervals (map interval_of intervals.now) }
{
    let mut least = 0u64;
    for interval in intervals {
        if u64::from(interval.first) < least || interval.last < interval.first {
            return false;
        }
        least = u64::from(interval.last) + 2;
    }
    true
}

// Returns the nonempty intervals, sorted by `first`.
fn sorted(alloc: Global, intervals: &[Interval]) -> Result<Vec<Interval>, AllocError>
    ensures hold { IfOk result (λ v. All (λ i. i.first ≤ i.last) v.items) }
    ensures rise { IfOk result (λ v. IsNonDecreasingBy (λ (i : _). i.first) v.items) }
    ensures same { IfOk result (λ v. (c : ℕ) → in_intervals (map interval_of v.items) c
        ≡ in_intervals (map interval_of intervals.now) c) }
{
    let mut holding = holding(alloc, intervals)?;
    holding.sort_unstable_by_key(|i| i.first);
    Ok(holding)
}

// Returns the nonempty intervals.
fn holding(alloc: Global, intervals: &[Interval]) -> Result<Vec<Interval>, AllocError>
    ensures { IfOk result (λ v. v.items ≡ filter is_interval_nonempty intervals.now) }
{
    let mut holding = Vec::with_capacity(alloc, intervals.len())?;
    for interval in intervals {
        if interval.first <= interval.last {
            holding.push(*interval)?;
        }
    }
    Ok(holding)
}

// Merges intervals that overlap or touch. Each interval must begin at or after the one before.
fn merge(alloc: Global, first: Interval, others: &[Interval]) -> Result<Vec<Interval>, AllocError>
    ensures { IfOk result (λ v. v.items ≡ merged_intervals first others.now) }
{
    let mut intervals = Vec::new(alloc);
    let mut current = first;
    for next in others {
        if next.first.saturating_sub(1) <= current.last {
            current.last = current.last.max(next.last);
        } else {
            intervals.push(current)?;
            current = *next;
        }
    }
    intervals.push(current)?;
    Ok(intervals)
}

// Returns the intervals between these intervals, up to the greatest code point.
fn gaps_between_intervals(
    alloc: Global,
    intervals: &[Interval],
) -> Result<Vec<Interval>, AllocError>
    ensures { IfOk result (λ v. v.items ≡ gaps_between_intervals 0 intervals.now) }
{
    let mut gaps = Vec::new(alloc);
    let mut next = 0;
    for interval in intervals {
        if next < interval.first {
            gaps.push(Interval {
                first: next,
                last: CODE_POINT_MAX.min(interval.first - 1),
            })?;
        }
        if interval.last >= CODE_POINT_MAX {
            return Ok(gaps);
        }
        next = interval.last + 1;
    }
    gaps.push(Interval {
        first: next,
        last: CODE_POINT_MAX,
    })?;
    Ok(gaps)
}

// Searches by bisection. The intervals below `low` end before the number, and those from `high` on
// begin after it.
#[inline]
fn contains(intervals: &[Interval], c: u32) -> bool
    requires { IntervalsAreInOrder (map interval_of intervals.now) }
    ensures { result ≡ in_intervals (map interval_of intervals.now) c }
{
    let mut low = 0;
    let mut high = intervals.len();
    while low < high {
        let middle = low + (high - low) / 2;
        let interval = intervals[middle];
        if interval.last < c {
            low = middle + 1;
        } else if c < interval.first {
            high = middle;
        } else {
            return true;
        }
    }
    false
}
