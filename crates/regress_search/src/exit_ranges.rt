//! Ranges of offsets, and steps of one character.

ghost use Rattle.std.specs.Prelude.{◌≡◌, ℕ, Some};
ghost use Rattle.regex_meaning.specs.CodeUnitOffsets.{IsBoundary};
ghost use Rattle.regress_input.specs.CharAndByteReadsFromOffset.{past, direction_of_forward_flag};

use crate::search_context::{SearchContext, offset_in_searched_text, position_in_searched_text};
use regress_input::indexing::InputIndexer;

/// The nearest exit of a char loop, after the minimum number of characters, and the furthest one,
/// after the maximum number.
#[derive(Clone, Copy)]
pub struct NearestAndFurthestExit {
    pub near: usize,
    pub far: usize,
}

/// A range of offsets that begins with the preferred one.
#[derive(Clone, Copy)]
pub struct OffsetRangeInPreferenceOrder {
    pub first: usize,
    pub last: usize,
    /// Whether `last` is to the right of `first`, if they differ.
    pub rightwards: bool,
}

/// Returns the offset one character further in the direction, or `at` if there is no character.
#[inline(always)]
pub fn offset_one_char_further<W: SearchContext>(context: &W, forward: bool, at: usize) -> usize
    requires { IsBoundary (W.searching context.now).text at }
    ensures { (to : ℕ) → past (W.searching context.now).text (direction_of_forward_flag forward) at ≡ Some to →
        result ≡ to }
{
    let input = context.input();
    let pos = position_in_searched_text(context, at);
    let next = if forward {
        input.next_right_pos(pos)
    } else {
        input.next_left_pos(pos)
    };
    match next {
        Some(to) => offset_in_searched_text(context, to),
        None => at,
    }
}
