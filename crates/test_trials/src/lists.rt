//! Lists of matches, and their comparison.

ghost use Rattle.std.specs.Prelude.{◌<◌, ◌⊎◌, IsCharBoundary, IsTrue, length};

use regress_match::exec::{MatchProducer, Matches};
use regress_match::{Match, Range, SearchError};
use std::alloc::{AllocError, Global};

/// Checks whether an offset is a character boundary of the text.
pub fn is_start(text: &str, offset: usize) -> bool
    ensures { IsTrue result → IsCharBoundary text.now offset ⊎ (length text.now < offset) }
{
    text.is_char_boundary(offset)
}

/// Returns all remaining matches.
pub fn all<P: MatchProducer + Drop>(
    alloc: Global,
    mut matches: Matches<P>,
) -> Result<Vec<Match>, SearchError> {
    let mut list = Vec::new(alloc);
    for item in &mut matches {
        list.push(item?).map_err(AllocError::from)?;
    }
    Ok(list)
}

// Returns the number of 16-bit units before an offset.
fn units_before(text: &str, offset: usize) -> Option<usize> {
    Some(text.get(..offset)?.encode_utf16().count())
}

// Checks whether a range in bytes is the same as a range in 16-bit units.
fn is_same_in_units(text: &str, bytes: &Range<usize>, units: &Range<usize>) -> bool {
    units_before(text, bytes.start) == Some(units.start)
        && units_before(text, bytes.end) == Some(units.end)
}

// Checks the same for the ranges of groups.
fn are_same_in_units(
    text: &str,
    bytes: &[Option<Range<usize>>],
    units: &[Option<Range<usize>>],
) -> bool {
    let mut same = bytes.len() == units.len();
    for (bytes, units) in bytes.iter().zip(units) {
        same &= match (bytes, units) {
            (Some(bytes), Some(units)) => is_same_in_units(text, bytes, units),
            (None, None) => true,
            _ => false,
        };
    }
    same
}

/// Checks whether two matches are equal.
pub fn is_same(one: &Match, other: &Match) -> bool {
    one.range == other.range && one.captures == other.captures
}

/// Checks whether two lists of matches are equal.
pub fn are_same(some: &[Match], others: &[Match]) -> bool {
    let mut same = some.len() == others.len();
    for (one, other) in some.iter().zip(others) {
        same &= is_same(one, other);
    }
    same
}

/// Checks whether the matches of a text in bytes and in 16-bit units are at the same places.
pub fn match_same_places(text: &str, bytes: &[Match], units: &[Match]) -> bool {
    let mut same = bytes.len() == units.len();
    for (bytes, units) in bytes.iter().zip(units) {
        same &= is_same_in_units(text, &bytes.range, &units.range);
        same &= are_same_in_units(text, &bytes.captures, &units.captures);
    }
    same
}
