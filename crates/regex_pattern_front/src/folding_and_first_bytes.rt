//! Case folding of code points, and their first bytes in UTF-8.

ghost use Rattle.std.specs.Prelude.{◌≡◌, ◌<◌, ◌≤◌, ◌||◌, ℕ, Bool, Some, IfOk, [], ◌∷◌, ◌++◌, slice_get, encode_utf8, if◌then◌else◌, ◌==◌};
ghost use Rattle.regex_meaning.specs.NumberListHelpers.{contains};
ghost use Rattle.regex_meaning.specs.Text.{fold_code_point, expand_code_point, code_points_with_fold, nonascii_with_fold, nonascii_folds_to_ascii_word_char, to_ascii_lowercase, to_ascii_uppercase};
ghost use Rattle.regex_meaning.specs.StartPredicate.{bytes_that_pass, chars_with_first_byte, intersects};
ghost use Rattle.regex_pattern_front.specs.ByteSetMembers.{member_bytes_of_byte_bitmap};
ghost use Rattle.regex_pattern_front.specs.Intervals.{interval_of, optional_interval_as_list};

use crate::bytesearch::ByteBitmap;
use crate::codepointset::{CODE_POINT_MAX, Interval};
use std::alloc::{AllocError, Global};

/// Returns the code point that represents `c` when case is ignored. With `unicode` it is the
/// lowercase ASCII letter, also for U+017F and U+212A. Without it, it is the uppercase letter. Any
/// other code point represents itself (ECMA-262, 21.2.2.8.2 `Canonicalize`, restricted to the
/// letters that fold to ASCII).
#[inline]
#[tactic(auto, unfolding(regex_meaning::specs::Text::fold_code_point))]
pub fn fold_code_point(c: u32, unicode: bool) -> u32
    ensures { result ≡ fold_code_point unicode c }
{
    if !unicode {
        return to_ascii_uppercase(c);
    }
    match c {
        0x017F => 's' as u32,
        0x212A => 'k' as u32,
        _ => to_ascii_lowercase(c),
    }
}

#[inline]
fn to_ascii_lowercase(c: u32) -> u32
    ensures { result ≡ to_ascii_lowercase c }
{
    if 0x41 <= c && c <= 0x5A { c + 0x20 } else { c }
}

#[inline]
fn to_ascii_uppercase(c: u32) -> u32
    ensures { result ≡ to_ascii_uppercase c }
{
    if 0x61 <= c && c <= 0x7A { c - 0x20 } else { c }
}

/// Returns the code points that a code point of a pattern matches, in increasing order. With
/// `icase` these are all code points with its fold (`fold_code_point`). Otherwise it is the code
/// point alone.
///
/// # Errors
///
/// Returns an error on allocation failure.
#[tactic(auto, unfolding(regex_meaning::specs::Text::expand_code_point))]
pub fn expand_code_point(
    alloc: Global,
    c: u32,
    icase: bool,
    unicode: bool,
) -> Result<Vec<u32>, AllocError>
    ensures { IfOk result (λ members. members.items ≡ expand_code_point c icase unicode) }
{
    if icase {
        code_points_with_fold(alloc, fold_code_point(c, unicode), unicode)
    } else {
        Ok(vec![in alloc; c]?)
    }
}

/// The maximum number of code points with the same fold.
const MOST_WITH_FOLD: usize = 3;

// Returns all code points with this fold, in increasing order.
fn code_points_with_fold(alloc: Global, folded: u32, unicode: bool) -> Result<Vec<u32>, AllocError>
    ensures { IfOk result (λ members. members.items ≡ code_points_with_fold unicode folded) }
{
    let upper = to_ascii_uppercase(folded);
    let lower = to_ascii_lowercase(folded);
    let mut members = Vec::with_capacity(alloc, MOST_WITH_FOLD)?;
    members.push(upper)?;
    if lower != upper {
        members.push(lower)?;
    }
    if unicode && folded == 's' as u32 {
        members.push(0x017F)?;
    } else if unicode && folded == 'k' as u32 {
        members.push(0x212A)?;
    }
    Ok(members)
}

/// Checks whether a code point beyond ASCII folds to an ASCII word character. Only U+017F and
/// U+212A do.
#[inline]
pub fn nonascii_folds_to_ascii_word_char(c: u32) -> bool
    ensures { result ≡ nonascii_folds_to_ascii_word_char c }
{
    c == 0x017F || c == 0x212A
}

/// Returns the first byte of a code point in UTF-8. For a surrogate it is 0xED, as for the code
/// points around it. A number above U+10FFFF has no UTF-8. For it the result is 0xFF, which begins
/// no character.
pub fn utf8_first_byte(c: u32) -> u8
    ensures begins { c ≤ 0x10_FFFF → slice_get (encode_utf8 c) 0 ≡ Some result }
    ensures beyond { 0x10_FFFF < c → result ≡ 0xFF }
{
    if c < 0x80 {
        c as u8
    } else if c < 0x800 {
        (0xC0 + (c >> 6)) as u8
    } else if c < 0x1_0000 {
        (0xE0 + (c >> 12)) as u8
    } else if c <= CODE_POINT_MAX {
        (0xF0 + (c >> 18)) as u8
    } else {
        0xFF
    }
}

/// Adds the first UTF-8 bytes of the interval's code points, up to U+10FFFF.
pub fn add_utf8_first_bytes_to_bitmap(interval: Interval, bitmap: &mut ByteBitmap)
    ensures { member_bytes_of_byte_bitmap bitmap.new ≡ bytes_that_pass (λ b.
        contains (member_bytes_of_byte_bitmap bitmap.old) b || intersects (chars_with_first_byte b)
        (interval_of interval ∷ [])) }
{
    // Only these bytes can be first bytes, because first bytes increase with the code points.
    let least = utf8_first_byte(interval.first.min(CODE_POINT_MAX));
    let greatest = utf8_first_byte(interval.last.min(CODE_POINT_MAX));
    for byte in least..=greatest {
        if is_first_byte_of_char_in_interval(byte, interval) {
            bitmap.set(byte);
        }
    }
}

// Checks whether the UTF-8 of a code point of the interval begins with this byte.
fn is_first_byte_of_char_in_interval(byte: u8, interval: Interval) -> bool
    ensures { result ≡ intersects (chars_with_first_byte byte) (interval_of interval ∷ []) }
{
    let Some(begun) = chars_with_first_byte(byte) else {
        return false;
    };
    interval.first <= interval.last && begun.first <= interval.last && interval.first <= begun.last
}

// Returns the code points whose UTF-8 begins with this byte, or `None` if there are none.
fn chars_with_first_byte(byte: u8) -> Option<Interval>
    ensures { optional_interval_as_list result ≡ chars_with_first_byte byte }
{
    let b = u32::from(byte);
    let (first, last) = match byte {
        0..=0x7F => (b, b),
        0xC2..=0xDF => ((b - 0xC0) * 0x40, (b - 0xC0) * 0x40 + 0x3F),
        0xE0 => (0x800, 0xFFF),
        0xE1..=0xEF => ((b - 0xE0) * 0x1000, (b - 0xE0) * 0x1000 + 0xFFF),
        0xF0 => (0x1_0000, 0x3_FFFF),
        0xF1..=0xF3 => ((b - 0xF0) * 0x4_0000, (b - 0xF0) * 0x4_0000 + 0x3_FFFF),
        0xF4 => (0x10_0000, 0x10_FFFF),
        _ => return None,
    };
    Some(Interval { first, last })
}
