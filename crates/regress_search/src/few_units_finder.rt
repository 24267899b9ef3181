//! Searches for one of a few bytes.

ghost use Rattle.std.specs.Prelude.{length, take};
ghost use Rattle.regex_pattern_front.specs.FirstPassingIndex.{FindsFirstPassingIndex, is_member_byte_at_index};

use memchr::{memchr, memchr2, memchr3};
use regress_input::front::ByteSearcher;
use regress_program::up_to_three_units::UpToThreeUnits;

/// A search for the next byte that is one of a few units.
#[derive(Clone, Copy)]
pub(crate) struct FewUnitsFinder {
    pub(crate) few: UpToThreeUnits,
}

impl ByteSearcher for FewUnitsFinder {
    ghost use Rattle.std.specs.Prelude.{take};
    ghost use Rattle.regex_pattern_front.specs.FirstPassingIndex.{is_member_byte_at_index};

    ghost stands_at = { λ finder bytes. is_member_byte_at_index (take finder.few.len finder.few.units) bytes };

    #[inline(always)]
    fn find_in(&self, bytes: &[u8]) -> Option<usize> {
        first_of_few(self.few, bytes)
    }
}

// Returns the first index at which one of a few bytes occurs.
#[inline(always)]
fn first_of_few(few: UpToThreeUnits, bytes: &[u8]) -> Option<usize>
    ensures { FindsFirstPassingIndex (is_member_byte_at_index (take few.len few.units) bytes.now)
        (length bytes.now) result }
{
    let [a, b, _] = few.units;
    match few.len {
        0 => None,
        1 => memchr(a, bytes),
        2 => memchr2(a, b, bytes),
        _ => first_of_three(few.units, bytes),
    }
}

// Returns the first index at which one of three bytes occurs.
#[inline(always)]
fn first_of_three(units: [u8; 3], bytes: &[u8]) -> Option<usize>
    ensures { FindsFirstPassingIndex (is_member_byte_at_index units bytes.now) (length bytes.now) result }
{
    memchr3(units[0], units[1], units[2], bytes)
}
