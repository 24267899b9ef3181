//! Case variants over all of Unicode: the characters that match one where case is ignored.

ghost use Rattle.std.specs.Prelude.{◌≡◌, ◌<◌, ◌≤◌, ◌++◌, filter, length, IfOk, OnOk};
ghost use Rattle.std.specs.List.{AllWithin};
ghost use Rattle.std.specs.List.Sorted.{IsNonDecreasingBy};
ghost use Rattle.ucd_case.specs.CaseFolding.{fold_pairs};
ghost use Rattle.regex_meaning.specs.Canonical.{AreCaseVariants};
ghost use Rattle.regex_meaning.specs.Outcomes.{in_intervals};
ghost use Rattle.regex_parser.specs.CaseVariantContracts.{AreOtherVariants, AddsMatchingCharacters, AddsMatchingWithin, matching_seconds, firsts_that_match, is_between, is_on_side};

use crate::character_class_parser::add_each;
use regex_pattern_front::canonical::are_alike;
use regex_pattern_front::codepointset::{CodePointSet, Interval};
use std::alloc::{AllocError, Global};
use ucd_case::fold_pairs;

/// Returns the characters that match `c`, including `c`, in increasing order. With `icase` these
/// are the characters with the same `canonicalize`, at most four. Without `icase` it is `c` alone.
///
/// # Errors
///
/// Returns an error on allocation failure.
pub(crate) fn case_variants(
    alloc: Global,
    c: u32,
    icase: bool,
    unicode: bool,
) -> Result<Vec<u32>, AllocError>
    ensures { IfOk result (λ members. AreCaseVariants icase unicode c members.items) }
{
    if !icase {
        return Ok(vec![in alloc; c]?);
    }
    let others = other_case_variants(alloc, c, unicode)?;
    let mut members = Vec::new(alloc);
    push_one_side(&mut members, &others, c, true)?;
    members.push(c)?;
    push_one_side(&mut members, &others, c, false)?;
    Ok(members)
}

// Pushes the numbers below `c` if `is_below`, and all others otherwise.
fn push_one_side(
    members: &mut Vec<u32>,
    numbers: &[u32],
    c: u32,
    is_below: bool,
) -> Result<(), AllocError>
    ensures { OnOk result (members.new.items ≡ members.old.items ++ filter (is_on_side c is_below) numbers.now) }
{
    for number in numbers {
        if (*number < c) == is_below {
            members.push(*number)?;
        }
    }
    Ok(())
}

// Returns the characters other than `c` that match it, in increasing order.
fn other_case_variants(alloc: Global, c: u32, unicode: bool) -> Result<Vec<u32>, AllocError>
    ensures { IfOk result (λ others. AreOtherVariants unicode c others.items) }
{
    matching_seconds(alloc, fold_pairs_between(c, c), unicode)
}

// Returns the second characters of the pairs whose characters match each other.
fn matching_seconds(
    alloc: Global,
    pairs: &[(u32, u32)],
    unicode: bool,
) -> Result<Vec<u32>, AllocError>
    ensures { IfOk result (λ seconds. seconds.items ≡ matching_seconds unicode pairs.now) }
{
    let mut seconds = Vec::new(alloc);
    for pair in pairs {
        if are_alike(pair.0, pair.1, unicode) {
            seconds.push(pair.1)?;
        }
    }
    Ok(seconds)
}

// Returns the pairs of characters with the same simple case folding whose first character is
// between these two, inclusive.
fn fold_pairs_between(first: u32, last: u32) -> &'static [(u32, u32)]
    ensures { result.now ≡ filter (λ p. is_between first last p.0) fold_pairs }
{
    let pairs = fold_pairs();
    let start = count_below(pairs, u64::from(first));
    let end = count_below(pairs, u64::from(last) + 1);
    &pairs[start..end.max(start)]
}

// Returns how many pairs have a first character below this bound, by binary search.
fn count_below(pairs: &[(u32, u32)], bound: u64) -> usize
    requires { IsNonDecreasingBy (λ (p : _). p.0) pairs.now }
    ensures most { result ≤ length pairs.now }
    ensures below { AllWithin (λ p. p.0 < bound) pairs.now 0 result }
    ensures above { AllWithin (λ p. bound ≤ p.0) pairs.now result (length pairs.now) }
{
    let mut low = 0;
    let mut high = pairs.len();
    while low < high {
        let middle = low + (high - low) / 2;
        if u64::from(pairs[middle].0) < bound {
            low = middle + 1;
        } else {
            high = middle;
        }
    }
    low
}

/// Adds the characters outside the set that match a member of it. It may also add members.
///
/// # Errors
///
/// Returns an error on allocation failure.
pub(crate) fn add_canonical_variants(
    intervals: &mut Vec<Interval>,
    set: &CodePointSet,
    unicode: bool,
) -> Result<(), AllocError>
    ensures { OnOk result (AddsMatchingCharacters unicode (in_intervals set.now) intervals.old.items
        intervals.new.items) }
{
    if begins_most_pairs(set) {
        add_nonmembers_that_match(intervals, set, unicode)
    } else {
        add_variants_of_members(intervals, set, unicode)
    }
}

// Checks whether more than half of the fold pairs begin with a member of the set. Then there are
// fewer pairs that begin outside the set.
fn begins_most_pairs(set: &CodePointSet) -> bool {
    let mut pairs = 0usize;
    for interval in set.intervals() {
        pairs = pairs.saturating_add(fold_pairs_between(interval.first, interval.last).len());
    }
    pairs > fold_pairs().len() / 2
}

// Adds the characters outside the set that match a member of it.
fn add_nonmembers_that_match(
    intervals: &mut Vec<Interval>,
    set: &CodePointSet,
    unicode: bool,
) -> Result<(), AllocError>
    ensures { OnOk result (AddsMatchingCharacters unicode (in_intervals set.now) intervals.old.items
        intervals.new.items) }
{
    let outside = set.inverted()?;
    for gap in outside.intervals() {
        add_matching_of_gap(intervals, *gap, set, unicode)?;
    }
    Ok(())
}

// Adds the characters of the gap that match a character of the set.
fn add_matching_of_gap(
    intervals: &mut Vec<Interval>,
    gap: Interval,
    set: &CodePointSet,
    unicode: bool,
) -> Result<(), AllocError>
    ensures { OnOk result (AddsMatchingWithin unicode (in_intervals set.now) (is_between gap.first gap.last)
        intervals.old.items intervals.new.items) }
{
    let pairs = fold_pairs_between(gap.first, gap.last);
    let matching = firsts_that_match(*intervals.allocator(), pairs, set, unicode)?;
    add_each(intervals, &matching)
}

// Returns the first characters of the pairs whose second character is in the set and matches the
// first.
fn firsts_that_match(
    alloc: Global,
    pairs: &[(u32, u32)],
    set: &CodePointSet,
    unicode: bool,
) -> Result<Vec<u32>, AllocError>
    ensures { IfOk result (λ firsts. firsts.items ≡ firsts_that_match unicode (in_intervals set.now) pairs.now) }
{
    let mut firsts = Vec::new(alloc);
    for pair in pairs {
        if set.contains(pair.1) && are_alike(pair.0, pair.1, unicode) {
            firsts.push(pair.0)?;
        }
    }
    Ok(firsts)
}

// Adds the characters that match another character, which is in the set.
fn add_variants_of_members(
    intervals: &mut Vec<Interval>,
    set: &CodePointSet,
    unicode: bool,
) -> Result<(), AllocError>
    ensures { OnOk result (AddsMatchingCharacters unicode (in_intervals set.now) intervals.old.items
        intervals.new.items) }
{
    for interval in set.intervals() {
        add_variants_of_interval(intervals, *interval, unicode)?;
    }
    Ok(())
}

// Adds the characters that match another character, which is in the interval.
fn add_variants_of_interval(
    intervals: &mut Vec<Interval>,
    interval: Interval,
    unicode: bool,
) -> Result<(), AllocError>
    ensures { OnOk result (AddsMatchingCharacters unicode (is_between interval.first interval.last) intervals.old.items
        intervals.new.items) }
{
    let pairs = fold_pairs_between(interval.first, interval.last);
    let others = matching_seconds(*intervals.allocator(), pairs, unicode)?;
    add_each(intervals, &others)
}
