//! Comparison of numbers by their values.

ghost use Rattle.std.specs.Prelude.{◌≡◌, true, false};
ghost use Rattle.serde_json.specs.Find.{is_float};
ghost use Rattle.serde_json.specs.View.{number_view};

use crate::keyword::Range;
use serde_json::{Number, Value};
use std::num::{
    f64_to_bits_with_nan, nearest_i64_to_f64, nearest_u64_to_f64, saturating_f64_to_i64,
    saturating_f64_to_u64,
};

// 2^63 and 2^64 as floating-point numbers.
const TWO_63: f64 = 9223372036854775808.0;

const TWO_64: f64 = 18446744073709551616.0;

// The leading bit of a significand, which a float does not store, and the bits of its exponent.
const HIDDEN_BIT: u64 = 1 << 52;

const EXPONENT_BITS: u64 = 0x7ff << 52;

/// Converts each whole number in a value to an integer, so that equal numbers are equal values: 1.0
/// becomes 1. Numbers that do not fit in an integer of 64 bits are unchanged.
pub fn convert_whole_numbers(value: &mut Value) {
    match value {
        Value::Number(number) => *number = whole(*number),
        Value::Array(items) => {
            for item in items.iter_mut() {
                convert_whole_numbers(item);
            }
        }
        Value::Object(members) => {
            for (_, member) in members.iter_mut() {
                convert_whole_numbers(member);
            }
        }
        _ => {}
    }
}

// Returns the integer that is equal to the number. If there is none, returns the number itself.
fn whole(number: Number) -> Number {
    if !number.is_f64() {
        return number;
    }
    let integer = match number.as_f64() {
        Some(x) => integer_of(x),
        None => None,
    };
    integer.unwrap_or(number)
}

// Returns the 64-bit integer that is equal to a float.
fn integer_of(x: f64) -> Option<Number> {
    if -TWO_63 <= x && x < TWO_63 {
        let n = saturating_f64_to_i64(x);
        if nearest_i64_to_f64(n) == x {
            return Number::from_i128(n as i128);
        }
    } else if TWO_63 <= x && x < TWO_64 {
        let n = saturating_f64_to_u64(x);
        if nearest_u64_to_f64(n) == x {
            return Number::from_u128(n as u128);
        }
    }
    None
}

/// Checks whether a number is an integer, that is, whole.
pub fn is_integer(number: &Number) -> bool
    ensures { is_float (number_view number.now) ≡ false → result ≡ true }
{
    if !number.is_f64() {
        return true;
    }
    match number.as_f64() {
        Some(x) => x <= -TWO_63 || TWO_63 <= x,
        None => false,
    }
}

/// Checks whether a number is in a range. Integers are compared exactly, and other numbers as
/// floats.
pub fn is_in(number: &Number, range: Range, bound: &Number) -> bool {
    match range {
        Range::AtLeast => !is_less(number, bound),
        Range::AtMost => !is_less(bound, number),
        Range::MoreThan => is_less(bound, number),
        Range::LessThan => is_less(number, bound),
        Range::MultipleOf => is_multiple(number, bound),
    }
}

/// Checks whether a number is greater than zero.
pub fn is_positive(number: &Number) -> bool {
    match number.as_f64() {
        Some(x) => 0.0 < x,
        None => false,
    }
}

fn is_less(a: &Number, b: &Number) -> bool {
    if let (Some(a), Some(b)) = (a.as_i128(), b.as_i128()) {
        return a < b;
    }
    match (a.as_f64(), b.as_f64()) {
        (Some(a), Some(b)) => a < b,
        _ => false,
    }
}

// Checks whether the quotient is whole. If the number is so large that the quotient is no float,
// the odd parts decide, because the number has more factors of two.
fn is_multiple(number: &Number, factor: &Number) -> bool {
    if let (Some(n), Some(d)) = (magnitude(number), magnitude(factor)) {
        return d != 0 && n % d == 0;
    }
    let (Some(n), Some(d)) = (number.as_f64(), factor.as_f64()) else {
        return false;
    };
    let quotient = n / d;
    if quotient.is_finite() {
        is_whole(quotient)
    } else {
        let odd = odd_part(d);
        odd != 0 && odd_part(n) % odd == 0
    }
}

// Returns the odd part of a float's significand, without the sign.
fn odd_part(x: f64) -> u64 {
    let bits = f64_to_bits_with_nan(x);
    let fraction = bits & (HIDDEN_BIT - 1);
    let is_subnormal = bits & EXPONENT_BITS == 0;
    let significand = if is_subnormal {
        fraction
    } else {
        fraction | HIDDEN_BIT
    };
    let power_of_two = significand & significand.wrapping_neg();
    if power_of_two == 0 {
        0
    } else {
        significand / power_of_two
    }
}

// Checks whether a float is whole. Each float of 2^63 or more is.
fn is_whole(x: f64) -> bool {
    x <= -TWO_63 || TWO_63 <= x || nearest_i64_to_f64(saturating_f64_to_i64(x)) == x
}

// Returns the absolute value of an integer.
fn magnitude(number: &Number) -> Option<u64> {
    match number.as_u64() {
        Some(n) => Some(n),
        None => number.as_i64().map(i64::unsigned_abs),
    }
}
