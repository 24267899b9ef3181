//! Sets of the bytes that texts begin with.

ghost use Rattle.std.specs.Prelude.{◌≡◌, ◌+◌, ◌≤◌, [], ◌∷◌, false, map, IfOk, IsOk, MatchOption};
ghost use Rattle.regex_meaning.specs.NumberListHelpers.{contains};
ghost use Rattle.regex_meaning.specs.StartPredicate.{bytes_that_pass, union_of_byte_sets, first_byte_as_set, first_bytes, code_points_of_class};
ghost use Rattle.regex_pattern_front.specs.ByteSetMembers.{member_bytes_of_byte_bitmap};
ghost use Rattle.regex_pattern_front.specs.Intervals.{interval_of};
ghost use Rattle.regex_pattern_front.specs.AstToSpecTree.{class_as_spec};
ghost use Rattle.regress_program.specs.JoinedStarts.{set_bytes_from};

use regex_pattern_front::bytesearch::{ByteBitmap, ByteSet};
use regex_pattern_front::codepointset::Interval;
use regex_pattern_front::folding_and_first_bytes::add_utf8_first_bytes_to_bitmap;
use regex_pattern_front::types::BracketContents;
use std::alloc::AllocError;

pub(crate) fn bitmap_of_bytes(bytes: &[u8]) -> ByteBitmap
    ensures { member_bytes_of_byte_bitmap result ≡ bytes_that_pass (contains bytes.now) }
{
    let mut set = ByteBitmap::default();
    for byte in bytes {
        set.set(*byte);
    }
    set
}

// Adds the first byte of a sequence to a set. An empty sequence adds nothing.
pub(crate) fn add_first_byte_of_sequence(set: &mut ByteBitmap, bytes: &[u8])
    ensures { member_bytes_of_byte_bitmap set.new ≡ union_of_byte_sets (member_bytes_of_byte_bitmap set.old)
        (first_byte_as_set bytes.now) }
{
    if let Some(byte) = bytes.first() {
        set.set(*byte);
    }
}

pub(crate) fn union_byte_bitmap_into(set: &mut ByteBitmap, other: &ByteBitmap)
    ensures { member_bytes_of_byte_bitmap set.new
        ≡ union_of_byte_sets (member_bytes_of_byte_bitmap set.old) (member_bytes_of_byte_bitmap other.now) }
{
    for byte in 0..=u8::MAX {
        if other.contains(byte) {
            set.set(byte);
        }
    }
}

// Returns the first bytes of these code points, up to U+10FFFF.
pub(crate) fn first_bytes_of_members(members: &[u32]) -> ByteBitmap
    ensures { member_bytes_of_byte_bitmap result ≡ first_bytes (map (λ c. (c, c)) members.now) }
{
    let mut set = ByteBitmap::default();
    for c in members {
        let interval = Interval {
            first: *c,
            last: *c,
        };
        add_utf8_first_bytes_to_bitmap(interval, &mut set);
    }
    set
}

// Returns the first bytes of the code points that the class accepts.
pub(crate) fn first_bytes_of_class(contents: &BracketContents) -> Result<ByteBitmap, AllocError>
    ensures bytes { IfOk result (λ s. member_bytes_of_byte_bitmap s
        ≡ first_bytes (code_points_of_class (class_as_spec contents.now))) }
    ensures no_memory { contents.now.invert ≡ false → IsOk result }
{
    if contents.invert {
        let outside = contents.cps.inverted()?;
        Ok(first_bytes_of_intervals(outside.intervals()))
    } else {
        Ok(first_bytes_of_intervals(contents.cps.intervals()))
    }
}

fn first_bytes_of_intervals(intervals: &[Interval]) -> ByteBitmap
    ensures { member_bytes_of_byte_bitmap result ≡ first_bytes (map interval_of intervals.now) }
{
    let mut set = ByteBitmap::default();
    for interval in intervals {
        add_utf8_first_bytes_to_bitmap(*interval, &mut set);
    }
    set
}

// Returns the least member that is at least `from`.
pub(crate) fn least_byte_in_set_from(set: &ByteBitmap, from: usize) -> Option<u8>
    requires { from ≤ 256 }
    ensures { let left = set_bytes_from (member_bytes_of_byte_bitmap set.now) in
        MatchOption result (left from ≡ []) (λ b. left from ≡ b ∷ left (b + 1)) }
{
    for number in from..256 {
        let byte = number as u8;
        if set.contains(byte) {
            return Some(byte);
        }
    }
    None
}
