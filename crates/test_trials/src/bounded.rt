//! Tests of searches with the work that their bound requires.

use crate::fault::ParseFault;
use crate::lists::{are_same, match_same_places};
use regress_match::exec::{WorkLimitedProducer, WorkMatches};
use regress_match::{BoundedRegex, Match, Regex, Unbounded, WorkError};
use std::alloc::{AllocError, Global};

/// Returns the work that suffices for this many units.
pub fn enough(bounded: &BoundedRegex<'_>, units: usize) -> u64 {
    let places = (units as u64).saturating_add(1);
    bounded.work_per_unit().saturating_mul(places)
}

// A pattern that is searched within a work limit.
#[derive(Clone, Copy)]
enum WorkLimitedPattern<'a> {
    Bounded(&'a BoundedRegex<'a>),
    Any(&'a Regex),
}

// A text and its matches, which were found without a bound.
#[derive(Clone, Copy)]
struct Known<'a> {
    text: &'a str,
    list: &'a [Match],
}

// The result of a search with a work budget.
#[derive(Drop)]
struct WorkLimitedResult {
    list: Vec<Match>,
    // The work that is left.
    left: u64,
    // Whether more work was needed.
    ran_out_of_work: bool,
}

impl WorkLimitedResult {
    // Checks whether the search found these matches.
    fn has_exactly_these_matches(&self, list: &[Match]) -> bool {
        !self.ran_out_of_work && are_same(list, &self.list)
    }

    // Checks whether the search found a prefix of these matches, and then no work was left.
    fn is_prefix_until_work_ran_out(&self, list: &[Match]) -> bool {
        let Some(first) = list.get(..self.list.len()) else {
            return false;
        };
        self.ran_out_of_work && self.left == 0 && are_same(first, &self.list)
    }
}

// Returns all remaining items. Checks that no call increases the work that is left.
fn all<P: WorkLimitedProducer + Drop>(
    alloc: Global,
    mut matches: WorkMatches<P>,
) -> Result<WorkLimitedResult, ParseFault> {
    let mut list = Vec::new(alloc);
    let mut ran_out_of_work = false;
    let mut left = matches.work_left();
    for _ in 0..u64::MAX {
        let item = matches.next();
        let before = left;
        left = matches.work_left();
        if before < left {
            return Err(ParseFault::Bounded);
        }
        match item {
            Some(Ok(found)) => list.push(found).map_err(AllocError::from)?,
            Some(Err(WorkError::WorkLimit)) => ran_out_of_work = true,
            Some(Err(WorkError::Memory)) => return Err(ParseFault::Refused),
            None => break,
        }
    }
    Ok(WorkLimitedResult {
        list,
        left,
        ran_out_of_work,
    })
}

// Returns the result of a search in bytes.
fn all_in_bytes(
    alloc: Global,
    pattern: WorkLimitedPattern<'_>,
    text: &str,
    work: u64,
) -> Result<WorkLimitedResult, ParseFault> {
    match pattern {
        WorkLimitedPattern::Bounded(bounded) => all(alloc, bounded.find_from(text, 0, work)?),
        WorkLimitedPattern::Any(re) => all(alloc, re.find_from_in_work(text, 0, work)?),
    }
}

// Checks whether finding these matches takes exactly this much work: none is left, and one unit
// less does not suffice.
fn is_taken(
    alloc: Global,
    pattern: WorkLimitedPattern<'_>,
    known: Known<'_>,
    work: u64,
) -> Result<bool, ParseFault> {
    let whole = all_in_bytes(alloc, pattern, known.text, work)?;
    if !whole.has_exactly_these_matches(known.list) || whole.left != 0 {
        return Ok(false);
    }
    match work.checked_sub(1) {
        Some(less) => Ok(all_in_bytes(
            alloc, pattern, known.text, less,
        )?.is_prefix_until_work_ran_out(known.list)),
        None => Ok(true),
    }
}

// Returns the work that finding these matches takes. Returns `None` if a search with this work
// finds other matches, or what it takes is not exact.
fn exact_work_taken(
    alloc: Global,
    pattern: WorkLimitedPattern<'_>,
    known: Known<'_>,
    work: u64,
) -> Result<Option<u64>, ParseFault> {
    let found = all_in_bytes(alloc, pattern, known.text, work)?;
    let taken = work.saturating_sub(found.left);
    let is_exact = found.has_exactly_these_matches(known.list)
        && is_taken(alloc, pattern, known, taken)?;
    Ok(if is_exact { Some(taken) } else { None })
}

// Checks whether the default executor finds the same matches in UTF-16 within a work limit: with
// exactly the work that they take. Half of it suffices for a prefix of the matches.
fn do_work_limits_agree_in_utf16(
    alloc: Global,
    re: &Regex,
    known: Known<'_>,
) -> Result<bool, ParseFault> {
    let units: Vec<u16> = known.text.encode_utf16().collect(alloc)?;
    let found = all(alloc, re.find_from_utf16_in_work(&units, 0, u64::MAX)?)?;
    let taken = u64::MAX.saturating_sub(found.left);
    let again = all(alloc, re.find_from_utf16_in_work(&units, 0, taken)?)?;
    let half = all(alloc, re.find_from_utf16_in_work(&units, 0, taken / 2)?)?;
    let list = found.list.as_slice();
    Ok(
        !found.ran_out_of_work
            && match_same_places(known.text, known.list, list)
            && again.left == 0
            && again.has_exactly_these_matches(list)
            && (half.has_exactly_these_matches(list) || half.is_prefix_until_work_ran_out(list)),
    )
}

/// Checks whether the default executor finds the same matches within a work limit: with exactly the
/// work that they take. One unit less, and half of it, suffice for a prefix of the matches. Checks
/// the same in UTF-16.
pub fn do_work_limits_agree(
    alloc: Global,
    re: &Regex,
    text: &str,
    list: &[Match],
) -> Result<bool, ParseFault> {
    let pattern = WorkLimitedPattern::Any(re);
    let known = Known { text, list };
    let Some(taken) = exact_work_taken(alloc, pattern, known, u64::MAX)? else {
        return Ok(false);
    };
    let half = all_in_bytes(alloc, pattern, text, taken / 2)?;
    if !half.has_exactly_these_matches(list) && !half.is_prefix_until_work_ran_out(list) {
        return Ok(false);
    }
    do_work_limits_agree_in_utf16(alloc, re, known)
}

// Checks whether all matches in bytes are found with the work that the bound requires.
fn is_found(
    alloc: Global,
    bounded: &BoundedRegex<'_>,
    known: Known<'_>,
) -> Result<bool, ParseFault> {
    let text = known.text;
    let work = enough(bounded, text.len());
    let pattern = WorkLimitedPattern::Bounded(bounded);
    let Some(taken) = exact_work_taken(alloc, pattern, known, work)? else {
        return Ok(false);
    };
    if !text.is_ascii() {
        return Ok(true);
    }
    let others = all(alloc, bounded.find_from_ascii(text, 0, work)?)?;
    Ok(others.has_exactly_these_matches(known.list) && work.saturating_sub(others.left) == taken)
}

// Checks the same in UTF-16.
fn is_found_in_utf16(
    alloc: Global,
    bounded: &BoundedRegex<'_>,
    known: Known<'_>,
) -> Result<bool, ParseFault> {
    let units: Vec<u16> = known.text.encode_utf16().collect(alloc)?;
    let work = enough(bounded, units.len());
    let found = all(alloc, bounded.find_from_utf16(&units, 0, work)?)?;
    Ok(!found.ran_out_of_work && match_same_places(known.text, known.list, &found.list))
}

// Checks whether a search in UCS-2 finds the same as without a bound.
fn is_same_in_ucs2(
    alloc: Global,
    re: &Regex,
    bounded: &BoundedRegex<'_>,
    text: &str,
) -> Result<bool, ParseFault> {
    let units: Vec<u16> = text.encode_utf16().collect(alloc)?;
    let work = enough(bounded, units.len());
    let list = crate::lists::all(alloc, re.find_from_ucs2(&units, 0)?)?;
    let found = all(alloc, bounded.find_from_ucs2(&units, 0, work)?)?;
    Ok(found.has_exactly_these_matches(&list))
}

/// Checks whether the same matches are found with the work that the bound requires. Returns `None`
/// if no bound is known.
pub fn do_work_bounds_suffice(
    alloc: Global,
    re: &Regex,
    text: &str,
    list: &[Match],
) -> Result<Option<bool>, ParseFault> {
    let bounded = match re.bounded() {
        Ok(bounded) => bounded,
        Err(Unbounded::Memory) => return Err(ParseFault::Refused),
        Err(_) => return Ok(None),
    };
    let known = Known { text, list };
    let holds = is_found(alloc, &bounded, known)?
        && is_found_in_utf16(alloc, &bounded, known)?
        && is_same_in_ucs2(alloc, re, &bounded, text)?;
    Ok(Some(holds))
}
