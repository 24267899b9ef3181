//! Reading code units of a text, one by one or a range at a time.

ghost use Rattle.std.specs.Prelude.{◌≡◌, ◌≤◌, ℕ, true, length, drop, option_map, slice_range};
ghost use Rattle.regex_meaning.specs.Text.{rightwards, leftwards};
ghost use Rattle.regress_input.specs.CharAndByteReadsFromOffset.{direction_of_forward_flag, end_if_matched, adjacent_byte, moved_by_units, past_units_if_next as spec_past_units_if_next};
ghost use Rattle.regress_input.specs.CharAndByteReadsFromOffset.{IsFirstOccurrenceFrom};

use crate::front::ByteSearcher;
use crate::position::PositionType;

/// Returns the byte to the right of an offset, or `None` at the right end.
#[inline(always)]
pub(crate) fn byte_right(bytes: &[u8], at: usize) -> Option<u8>
    requires { at ≤ length bytes.now }
    ensures { result ≡ adjacent_byte bytes.now rightwards at }
{
    if at == bytes.len() {
        None
    } else {
        Some(bytes[at])
    }
}

/// Returns the byte to the left of an offset, or `None` at the left end.
#[inline(always)]
pub(crate) fn byte_left(bytes: &[u8], at: usize) -> Option<u8>
    requires { at ≤ length bytes.now }
    ensures { result ≡ adjacent_byte bytes.now leftwards at }
{
    if at == 0 { None } else { Some(bytes[at - 1]) }
}

/// Returns the offset past the units `these` if they occur next to `at` on the side that is read,
/// and `None` otherwise.
#[inline(always)]
pub(crate) fn past_units_if_next<Unit: PartialEq>(
    all: &[Unit],
    forward: bool,
    at: usize,
    these: &[Unit],
) -> Option<usize>
    requires { at ≤ length all.now }
    ensures { result ≡ spec_past_units_if_next Unit.eq all.now these.now (direction_of_forward_flag forward) at }
{
    if forward {
        past_right(all, at, these)
    } else {
        past_left(all, at, these)
    }
}

/// Returns the offset past the units from `start` to `end` if they occur again next to `at` on the
/// side that is read, and `None` otherwise.
#[inline(always)]
pub(crate) fn past_repeated_range_if_next<Unit: PartialEq>(
    all: &[Unit],
    forward: bool,
    at: usize,
    start: usize,
    end: usize,
) -> Option<usize>
    requires at { at ≤ length all.now }
    requires to { end ≤ length all.now }
    requires in_order { start ≤ end }
    ensures { result ≡ spec_past_units_if_next Unit.eq all.now (slice_range all.now start end)
        (direction_of_forward_flag forward) at }
{
    past_units_if_next(all, forward, at, &all[start..end])
}

// Returns the offset past the units `these` if they occur to the right of `at`, and `None`
// otherwise.
#[inline(always)]
fn past_right<Unit: PartialEq>(all: &[Unit], at: usize, these: &[Unit]) -> Option<usize>
    requires { at ≤ length all.now }
    ensures { result ≡ spec_past_units_if_next Unit.eq all.now these.now rightwards at }
{
    if all.len() - at < these.len() {
        return None;
    }
    let end = at + these.len();
    if &all[at..end] == these {
        Some(end)
    } else {
        None
    }
}

// Returns the offset at which the units `these` begin if they occur to the left of `at`, and `None`
// otherwise.
#[inline(always)]
fn past_left<Unit: PartialEq>(all: &[Unit], at: usize, these: &[Unit]) -> Option<usize>
    requires { at ≤ length all.now }
    ensures { result ≡ spec_past_units_if_next Unit.eq all.now these.now leftwards at }
{
    if at < these.len() {
        return None;
    }
    let start = at - these.len();
    if &all[start..at] == these {
        Some(start)
    } else {
        None
    }
}

/// Returns the first offset from `at` on at which the searched bytes occur, or `None`.
#[inline(always)]
pub(crate) fn find_by_byte_searcher_from<Search: ByteSearcher>(
    all: &[u8],
    at: usize,
    search: &Search,
) -> Option<usize>
    requires { at ≤ length all.now }
    ensures { IsFirstOccurrenceFrom true (Search.stands_at search.now) all.now at result }
{
    let found = search.find_in(suffix_from_offset(all, at))?;
    Some(at + found)
}

#[inline(always)]
fn suffix_from_offset(all: &[u8], at: usize) -> &[u8]
    requires { at ≤ length all.now }
    ensures { result.now ≡ drop at all.now }
{
    &all[at..]
}

/// Moves `pos` to `to` if that is `Some`, and returns whether it is.
#[inline(always)]
pub(crate) fn move_position_if_some<Position: PositionType>(
    pos: &mut Position,
    to: Option<Position>,
) -> bool
    ensures { end_if_matched result (Position.offset pos.new) ≡ option_map (λ p. Position.offset p) to }
{
    match to {
        Some(there) => {
            *pos = there;
            true
        }
        None => false,
    }
}

/// Returns the position with this offset, or `None` if there is no offset.
#[inline(always)]
pub(crate) fn position_at<Position: PositionType>(offset: Option<usize>) -> Option<Position>
    ensures { option_map (λ p. Position.offset p) result ≡ offset }
{
    match offset {
        Some(offset) => Some(Position::from_offset(offset)),
        None => None,
    }
}

/// Returns the offset `amt` units to the right of any offset `at`, or `None` if it is not within a
/// text of `len` units.
#[inline(always)]
pub(crate) fn offset_moved_right(len: usize, at: usize, amt: usize) -> Option<usize>
    ensures { result ≡ moved_by_units len rightwards amt at }
{
    if len < at || len - at < amt {
        None
    } else {
        Some(at + amt)
    }
}

/// Returns the offset `amt` units to the left of any offset `at`, or `None` if it is not within a
/// text of `len` units.
#[inline(always)]
pub(crate) fn offset_moved_left(len: usize, at: usize, amt: usize) -> Option<usize>
    ensures { result ≡ moved_by_units len leftwards amt at }
{
    if at < amt || len < at - amt {
        None
    } else {
        Some(at - amt)
    }
}
