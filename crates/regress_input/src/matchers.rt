//! Character properties that depend on the encoding, and backreferences.

ghost use Rattle.std.specs.Prelude.{◌≡◌, ◌≤◌};
ghost use Rattle.regex_meaning.specs.{CodeUnitOffsets.{IsBoundary}, Outcomes.{is_same}, Tree.{alike}};
ghost use Rattle.regex_pattern_front.specs.AstToSpecTree.{spec_sameness_of};
ghost use Rattle.regress_input.specs.CharAndByteReadsFromOffset.{direction_of_forward_flag, end_if_matched, past_repeated_range_if_next, past_folded_range_if_next, past_same_range_if_next};

use crate::cursor::{self, Direction};
use crate::front::{Sameness, are_alike};
use crate::indexing::{ElementType, InputIndexer};
pub use crate::indexing::{
    ASCIICharProperties, CharProperties, UTF8CharProperties, Utf16CharProperties,
};
use std::ops::Range;

/// Checks whether the characters of `orig_range` occur again next to the boundary `pos` in the
/// direction, read left to right (ECMA-262, 21.2.2.9). If so, `pos` is moved past them; otherwise
/// its new value is unspecified.
#[inline(always)]
pub fn backref<Input: InputIndexer, Dir: Direction>(
    input: &Input,
    dir: Dir,
    orig_range: Range<Input::Position>,
    pos: &mut Input::Position,
) -> bool
    requires at { IsBoundary (Input.text input.now) (Input.Position.offset pos.old) }
    requires from { IsBoundary (Input.text input.now) (Input.Position.offset orig_range.start) }
    requires to { IsBoundary (Input.text input.now) (Input.Position.offset orig_range.end) }
    requires in_order { Input.Position.offset orig_range.start ≤ Input.Position.offset orig_range.end }
    ensures { let at = Input.Position.offset in
        end_if_matched result (at pos.new) ≡ past_repeated_range_if_next (Input.text input.now)
        (at orig_range.start) (at orig_range.end) (direction_of_forward_flag Dir.FORWARD) (at pos.old) }
{
    input.subrange_eq(dir, pos, orig_range)
}

/// Like `backref`, but characters are also equal if their folds are equal. The match may have a
/// different number of code units than the range.
#[inline]
pub fn backref_icase<Input: InputIndexer, Dir: Direction>(
    input: &Input,
    dir: Dir,
    orig_range: Range<Input::Position>,
    pos: &mut Input::Position,
) -> bool
    requires at { IsBoundary (Input.text input.now) (Input.Position.offset pos.old) }
    requires from { IsBoundary (Input.text input.now) (Input.Position.offset orig_range.start) }
    requires to { IsBoundary (Input.text input.now) (Input.Position.offset orig_range.end) }
    requires in_order { Input.Position.offset orig_range.start ≤ Input.Position.offset orig_range.end }
    ensures { let at = Input.Position.offset in
        end_if_matched result (at pos.new) ≡ past_folded_range_if_next (Input.text input.now)
        (at orig_range.start) (at orig_range.end) (direction_of_forward_flag Dir.FORWARD) (at pos.old) }
{
    backref_char_by_char(input, dir, orig_range, Sameness::Folded, pos)
}

/// Like `backref`, but characters are the same if `canonicalize` is the same for both. The match
/// may have a different number of code units than the range.
#[inline(never)]
pub fn backref_canonical<Input: InputIndexer, Dir: Direction>(
    input: &Input,
    dir: Dir,
    orig_range: Range<Input::Position>,
    unicode: bool,
    pos: &mut Input::Position,
) -> bool
    requires at { IsBoundary (Input.text input.now) (Input.Position.offset pos.old) }
    requires from { IsBoundary (Input.text input.now) (Input.Position.offset orig_range.start) }
    requires to { IsBoundary (Input.text input.now) (Input.Position.offset orig_range.end) }
    requires in_order { Input.Position.offset orig_range.start ≤ Input.Position.offset orig_range.end }
    ensures { let at = Input.Position.offset in
        end_if_matched result (at pos.new) ≡ past_same_range_if_next (Input.text input.now) (alike unicode)
        (at orig_range.start) (at orig_range.end) (direction_of_forward_flag Dir.FORWARD) (at pos.old) }
{
    backref_char_by_char(input, dir, orig_range, Sameness::Alike { unicode }, pos)
}

// Compares character by character.
#[inline(always)]
fn backref_char_by_char<Input: InputIndexer, Dir: Direction>(
    input: &Input,
    dir: Dir,
    orig_range: Range<Input::Position>,
    same: Sameness,
    pos: &mut Input::Position,
) -> bool
    requires at { IsBoundary (Input.text input.now) (Input.Position.offset pos.old) }
    requires from { IsBoundary (Input.text input.now) (Input.Position.offset orig_range.start) }
    requires to { IsBoundary (Input.text input.now) (Input.Position.offset orig_range.end) }
    requires in_order { Input.Position.offset orig_range.start ≤ Input.Position.offset orig_range.end }
    ensures { let at = Input.Position.offset in
        end_if_matched result (at pos.new) ≡ past_same_range_if_next (Input.text input.now) (spec_sameness_of same)
        (at orig_range.start) (at orig_range.end) (direction_of_forward_flag Dir.FORWARD) (at pos.old) }
{
    let start = orig_range.start;
    let end = orig_range.end;
    let (mut at, stop) = if Dir::FORWARD {
        (start, end)
    } else {
        (end, start)
    };
    'each: while at != stop {
        let Some(c1) = cursor::next(input, dir, &mut at) else {
            return false;
        };
        let Some(c2) = cursor::next(input, dir, pos) else {
            return false;
        };
        if !are_same(input, c1, c2, same) {
            return false;
        }
    }
    true
}

// Checks whether two characters are the same in this sense.
#[inline(always)]
fn are_same<Input: InputIndexer>(
    input: &Input,
    c1: Input::Element,
    c2: Input::Element,
    same: Sameness,
) -> bool
    ensures { result ≡ is_same (Input.text input.now) (spec_sameness_of same)
        (Input.Element.number c1) (Input.Element.number c2) }
{
    match same {
        Sameness::Exact => c1.as_u32() == c2.as_u32(),
        Sameness::Folded => input.fold_equals(c1, c2),
        Sameness::Alike { unicode } => are_alike(c1.as_u32(), c2.as_u32(), unicode),
    }
}
