//! Converts a script's numbers to the values that the calls take.

ghost use Rattle.std.specs.Prelude.{◌≡◌};
ghost use Rattle.use_regexp.specs.Coercions.{length_of, size_modulo_2_32 as spec_size_modulo_2_32, uint32_from_number};

use num_traits::ToPrimitive;
use std::num::saturating_f64_to_u64;

/// The greatest length of a string: 2^53 - 1.
const MAX_LENGTH: u64 = 0x1F_FFFF_FFFF_FFFF;

/// Converts a number to a length (7.1.15, ToLength), as `exec` converts `lastIndex`.
///
/// The fraction is dropped. NaN and numbers below 0 give 0. Numbers above 2^53 - 1 give 2^53 - 1,
/// which is past the end of each text.
pub fn to_length(number: f64) -> usize
    ensures { result ≡ length_of number }
{
    saturating_f64_to_u64(number).min(MAX_LENGTH) as usize
}

/// Converts a number to an integer of 32 bits (7.1.6, ToUint32), as `split` converts its limit.
///
/// The fraction is dropped, and the result is taken modulo 2^32: -1 gives 4,294,967,295. NaN and
/// the infinities give 0.
pub fn to_uint32(number: f64) -> u32
    ensures { result ≡ uint32_from_number number }
{
    let size = size_modulo_2_32(number);
    if number < 0.0 {
        size.wrapping_neg()
    } else {
        size
    }
}

// Returns the whole part of the number's absolute value, modulo 2^32.
fn size_modulo_2_32(number: f64) -> u32
    ensures { result ≡ spec_size_modulo_2_32 number }
{
    match number.abs().to_u128() {
        Some(whole) => (whole % 0x1_0000_0000) as u32,
        // NaN, an infinity, or a multiple of 2^32, because a number of 2^128 or more has no lower
        // digits.
        None => 0,
    }
}
