//! Parses lines. Each function parses the beginning of a line, and returns the result with the rest
//! of the line.

ghost use Rattle.std.specs.Prelude.{◌<◌, ◌≤◌, IfSome, length};

use crate::stop::{Malformed, Stop};
use std::alloc::{AllocError, Global};

/// The pattern and the flags at the beginning of a line.
#[derive(Drop)]
pub struct Literal {
    pub source: Vec<u16>,
    pub flags: Vec<u16>,
}

/// Returns the UTF-16 code units of a text.
pub fn units_of(alloc: Global, text: &str) -> Result<Vec<u16>, AllocError> {
    text.encode_utf16().collect(alloc)
}

/// Appends a unit.
pub fn push(units: &mut Vec<u16>, unit: u16) -> Result<(), AllocError> {
    Ok(units.push(unit)?)
}

fn is_blank(unit: u16) -> bool {
    unit == 32 || unit == 9
}

fn is_letter(unit: u16) -> bool {
    matches!(unit, 65..=90 | 97..=122)
}

fn is_digit(unit: u16) -> bool {
    matches!(unit, 48..=57)
}

/// Returns the line without leading blanks.
pub fn skip_blanks(line: &[u16]) -> &[u16] {
    match line.iter().position(|unit| !is_blank(*unit)) {
        Some(end) => &line[end..],
        None => &[],
    }
}

/// Parses a word, which consists of letters and may be empty.
pub fn word(line: &[u16]) -> (&[u16], &[u16]) {
    match line.iter().position(|unit| !is_letter(*unit)) {
        Some(end) => line.split_at(end),
        None => (line, &[]),
    }
}

/// Returns the part before the next blank, and the rest.
fn split_at_blank(line: &[u16]) -> (&[u16], &[u16]) {
    match line.iter().position(|unit| is_blank(*unit)) {
        Some(end) => line.split_at(end),
        None => (line, &[]),
    }
}

/// Checks whether a word is this name.
pub fn is(word: &[u16], name: &str) -> bool {
    word.len() == name.len()
        && word
            .iter()
            .zip(name.bytes())
            .all(|(unit, byte)| *unit == u16::from(byte))
}

// The names of numbers without digits.
const NAMED_NUMBERS: [(&str, f64); 3] = [
    ("NaN", f64::NAN),
    ("Infinity", f64::INFINITY),
    ("-Infinity", f64::NEG_INFINITY),
];

// Returns the number with this name.
fn named_number(word: &[u16]) -> Option<f64> {
    for (name, value) in NAMED_NUMBERS {
        if is(word, name) {
            return Some(value);
        }
    }
    None
}

/// Checks whether a line begins like a number.
pub fn begins_number(line: &[u16]) -> bool {
    match line.first() {
        Some(unit) if is_digit(*unit) || *unit == 45 => true,
        _ => named_number(split_at_blank(line).0).is_some(),
    }
}

// Checks whether a unit may occur in a number with digits.
fn may_occur_in_number(unit: u16) -> bool {
    is_digit(unit) || matches!(unit, 43 | 45 | 46 | 69 | 101)
}

// Returns the text of a number with digits.
fn digits_of(alloc: Global, word: &[u16]) -> Result<String, Stop> {
    let mut text = String::new(alloc);
    for unit in word {
        match u8::try_from(*unit) {
            Ok(byte) if may_occur_in_number(*unit) => text.push(char::from(byte))?,
            _ => return Err(Stop::Malformed(Malformed::NoNumber)),
        }
    }
    Ok(text)
}

/// Parses a number that ends at the next blank: a decimal number, `NaN`, `Infinity` or `-Infinity`.
pub fn number(alloc: Global, line: &[u16]) -> Result<(f64, &[u16]), Stop> {
    let (word, rest) = split_at_blank(line);
    if let Some(value) = named_number(word) {
        return Ok((value, rest));
    }
    let digits = digits_of(alloc, word)?;
    match digits.as_str().parse::<f64>() {
        Ok(value) => Ok((value, rest)),
        Err(_) => Err(Stop::Malformed(Malformed::NoNumber)),
    }
}

/// Returns the units before the unit at index `end`, and those after it. Returns `None` if there is
/// no index.
fn split_around_unit_at(line: &[u16], end: Option<usize>) -> Option<(&[u16], &[u16])>
    requires { IfSome end (λ at. at < length line.now) }
{
    match end {
        Some(at) => Some((&line[..at], &line[at + 1..])),
        None => None,
    }
}

// Returns the index of the slash that ends a pattern. A slash in a class or after a backslash does
// not.
fn index_of_closing_slash(line: &[u16]) -> Option<usize>
    ensures { IfSome result (λ at. at < length line.now) }
{
    let mut escaped = false;
    let mut in_class = false;
    for (at, unit) in line.iter().enumerate() {
        if escaped {
            escaped = false;
        } else if *unit == 47 && !in_class {
            return Some(at);
        } else {
            escaped = *unit == 92;
            in_class = *unit == 91 || (in_class && *unit != 93);
        }
    }
    None
}

// Returns the index of the quote that ends a string. A quote after a backslash does not.
fn index_of_closing_quote(line: &[u16]) -> Option<usize>
    ensures { IfSome result (λ at. at < length line.now) }
{
    let mut escaped = false;
    for (at, unit) in line.iter().enumerate() {
        if escaped {
            escaped = false;
        } else if *unit == 34 {
            return Some(at);
        } else {
            escaped = *unit == 92;
        }
    }
    None
}

/// Parses a JSON string.
pub fn string(alloc: Global, line: &[u16]) -> Result<(Vec<u16>, &[u16]), Stop> {
    let Some((34, behind)) = first(line) else {
        return Err(Stop::Malformed(Malformed::NoString));
    };
    let Some((inside, rest)) = split_around_unit_at(behind, index_of_closing_quote(behind)) else {
        return Err(Stop::Malformed(Malformed::UnclosedString));
    };
    let text = decode_json_string(alloc, inside)?;
    Ok((text, rest))
}

/// Returns the first unit, and the rest.
pub fn first(line: &[u16]) -> Option<(u16, &[u16])> {
    match line.split_first() {
        Some((unit, rest)) => Some((*unit, rest)),
        None => None,
    }
}

// The state of the parser of an escape.
#[derive(Clone, Copy, PartialEq, Eq)]
enum Escape {
    // Outside of an escape.
    Outside,
    // After the backslash.
    AfterBackslash,
    // After `\u`. The first number is how many of its four digits follow after the next one, and
    // the second is the value of the digits before it.
    Hex(u8, u16),
}

// Decodes a JSON string, given the part between its quotes.
fn decode_json_string(alloc: Global, inside: &[u16]) -> Result<Vec<u16>, Stop> {
    let mut text = Vec::new(alloc);
    let mut escape = Escape::Outside;
    for unit in inside {
        let (next, replacement_for_match) = step(escape, *unit)?;
        if let Some(replacement_for_match) = replacement_for_match {
            push(&mut text, replacement_for_match)?;
        }
        escape = next;
    }
    if escape != Escape::Outside {
        return Err(Stop::Malformed(Malformed::InvalidEscape));
    }
    Ok(text)
}

// Reads a unit. Returns the next state, and the unit of the value that is now complete, if any.
fn step(escape: Escape, unit: u16) -> Result<(Escape, Option<u16>), Malformed> {
    match escape {
        Escape::Outside if unit == 92 => Ok((Escape::AfterBackslash, None)),
        Escape::Outside if unit < 32 => Err(Malformed::ControlCharacter),
        Escape::Outside => Ok((Escape::Outside, Some(unit))),
        Escape::AfterBackslash if unit == 117 => Ok((Escape::Hex(3, 0), None)),
        Escape::AfterBackslash => match named(unit) {
            Some(replacement_for_match) => Ok((Escape::Outside, Some(replacement_for_match))),
            None => Err(Malformed::InvalidEscape),
        },
        Escape::Hex(left, value) => match hex_digit(unit) {
            Some(digit) => Ok(state_after_hex_digit(
                left,
                value.wrapping_mul(16).wrapping_add(digit),
            )),
            None => Err(Malformed::InvalidEscape),
        },
    }
}

// Returns the state after a digit of `\u`: `left` digits remain, and the digits so far have the
// value `value`.
fn state_after_hex_digit(left: u8, value: u16) -> (Escape, Option<u16>) {
    if left == 0 {
        (Escape::Outside, Some(value))
    } else {
        (Escape::Hex(left.saturating_sub(1), value), None)
    }
}

// Returns the value of a hexadecimal digit.
fn hex_digit(unit: u16) -> Option<u16> {
    match unit {
        48..=57 => Some(unit.saturating_sub(48)),
        65..=70 => Some(unit.saturating_sub(55)),
        97..=102 => Some(unit.saturating_sub(87)),
        _ => None,
    }
}

// Returns the unit of an escape with one letter. Returns `None` if JSON has no such escape, and for
// `\u`.
fn named(unit: u16) -> Option<u16> {
    match unit {
        34 | 47 | 92 => Some(unit),
        98 => Some(8),
        102 => Some(12),
        110 => Some(10),
        114 => Some(13),
        116 => Some(9),
        _ => None,
    }
}

/// Parses a pattern and its flags: `/pattern/flags`, or two JSON strings.
pub fn pattern(alloc: Global, line: &[u16]) -> Result<(Literal, &[u16]), Stop> {
    match first(line) {
        Some((47, behind)) => read_literal_after_slash(alloc, behind),
        Some((34, _)) => quoted(alloc, line),
        _ => Err(Stop::Malformed(Malformed::NoPattern)),
    }
}

// Parses a pattern and its flags after the first slash.
fn read_literal_after_slash(alloc: Global, line: &[u16]) -> Result<(Literal, &[u16]), Stop> {
    let Some((source, rest)) = split_around_unit_at(line, index_of_closing_slash(line)) else {
        return Err(Stop::Malformed(Malformed::NoPattern));
    };
    let (flags, rest) = word(rest);
    let source = source.to_vec(alloc)?;
    let flags = flags.to_vec(alloc)?;
    Ok((Literal { source, flags }, rest))
}

// Parses a pattern and its flags as two strings.
fn quoted(alloc: Global, line: &[u16]) -> Result<(Literal, &[u16]), Stop> {
    let (source, rest) = string(alloc, line)?;
    let (flags, rest) = string(alloc, skip_blanks(rest))?;
    Ok((Literal { source, flags }, rest))
}
