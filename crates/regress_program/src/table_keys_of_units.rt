//! Keys of units, which are the indices of tables of what comes next.
//!
//! A table has one entry for each key. A byte is its own key, and so is a 16-bit unit below 128.
//! The other 16-bit units have one key for each 512 of them.

ghost use Rattle.std.specs.Prelude.{◌≡◌, ◌<◌, ◌+◌, ◌/◌, ◌&&◌, ◌||◌, ℕ, min, true, false, is_some};
ghost use Rattle.regex_meaning.specs.CodeUnits.{Encoding};
ghost use Rattle.regress_machine.specs.FirstSetTables.{is_character_in_encoding, first_unit_key};
ghost use Rattle.regress_program.specs.TableKeysOfUnits.{key as spec_key, is_16_bit_encoding, begins_utf8_character, is_16_bit_width, may_begin_surrogate_pair as spec_may_begin_surrogate_pair};
ghost use Rattle.regress_program.specs.TableKeysOfUnits.{KeyCharsLieInRangeOrPairs, HasKeysBetween, first_utf8_byte, first_utf16_unit};

use regex_pattern_front::codepointset::Interval;

/// The number of keys.
pub const KEYS: usize = 256;

/// The units of the texts that a plan is for.
#[derive(Clone, Copy, PartialEq, Eq)]
pub enum UnitWidth {
    /// The bytes of UTF-8, and so of ASCII.
    Bytes,
    /// 16-bit units.
    Wide,
}

/// The characters that begin with units of one key, and the number of units of each.
#[derive(Clone, Copy)]
pub struct CharRangeOfKey {
    pub range: Interval,
    pub width: u8,
}

/// Returns the key of a 16-bit unit.
#[inline(always)]
pub fn bucket_key_of_u16(unit: u16) -> usize
    ensures is { result ≡ spec_key true unit }
    ensures inside { result < 256 }
{
    if unit < 128 {
        usize::from(unit)
    } else {
        usize::from(128 + (unit >> 9))
    }
}

/// Checks whether units of this key may begin a surrogate pair: those from 0xD800 to 0xDBFF.
#[inline(always)]
pub fn may_begin_surrogate_pair(key: u8, units: UnitWidth) -> bool
    ensures { result ≡ (is_16_bit_width units && spec_may_begin_surrogate_pair key) }
{
    match units {
        UnitWidth::Bytes => false,
        UnitWidth::Wide => key == 128 + 108 || key == 128 + 109,
    }
}

/// Returns the characters that begin with a unit of this key, except surrogate pairs; `None` if no
/// character does.
#[inline(always)]
pub fn characters_of_key(key: u8, units: UnitWidth) -> Option<CharRangeOfKey>
    ensures begun { KeyCharsLieInRangeOrPairs (is_16_bit_width units) key result }
    ensures leads { is_some result ≡ (is_16_bit_width units || begins_utf8_character key) }
{
    match units {
        UnitWidth::Bytes => chars_with_first_utf8_byte(key),
        UnitWidth::Wide => Some(single_units_of(key)),
    }
}

// Returns the characters whose UTF-8 encoding begins with this byte.
#[inline(always)]
fn chars_with_first_utf8_byte(byte: u8) -> Option<CharRangeOfKey>
    ensures begun { KeyCharsLieInRangeOrPairs false byte result }
    ensures leads { is_some result ≡ begins_utf8_character byte }
{
    let b = u32::from(byte);
    let (first, last, width) = match byte {
        0..=0x7F => (b, b, 1),
        0xC2..=0xDF => ((b - 0xC0) * 0x40, (b - 0xC0) * 0x40 + 0x3F, 2),
        0xE0..=0xEF => {
            let first = (b - 0xE0) * 0x1000;
            (first.max(0x800), first + 0xFFF, 3)
        }
        0xF0..=0xF4 => {
            let first = (b - 0xF0) * 0x4_0000;
            (first.max(0x1_0000), (first + 0x3_FFFF).min(0x10_FFFF), 4)
        }
        _ => return None,
    };
    Some(CharRangeOfKey {
        range: Interval { first, last },
        width,
    })
}

// Returns the characters that are one 16-bit unit with this key.
#[inline(always)]
fn single_units_of(key: u8) -> CharRangeOfKey
    ensures { KeyCharsLieInRangeOrPairs true key (Some result) }
{
    let k = u32::from(key);
    let range = if k < 128 {
        Interval { first: k, last: k }
    } else {
        Interval {
            first: ((k - 128) * 512).max(128),
            last: (k - 128) * 512 + 511,
        }
    };
    CharRangeOfKey { range, width: 1 }
}

/// Returns the key of the first unit of a character. If the number is not a character, the key is
/// unspecified.
pub fn key_of_first_unit(c: u32, units: UnitWidth) -> usize
    ensures is { (e : Encoding) → is_16_bit_encoding e ≡ is_16_bit_width units → is_character_in_encoding e c ≡ true
        → first_unit_key e (spec_key (is_16_bit_width units)) c ≡ Some result }
    ensures inside { result < 256 }
{
    let key = match units {
        UnitWidth::Bytes => first_byte(c),
        UnitWidth::Wide => {
            let unit = first_unit(c);
            if unit < 128 { unit } else { 128 + (unit >> 9) }
        }
    };
    key.min(255) as usize
}

/// Returns the first and the last key with which characters of an interval begin, except those of
/// ASCII and surrogate pairs.
pub(crate) fn non_ascii_keys_of_interval(interval: Interval, units: UnitWidth) -> (usize, usize)
    ensures between { HasKeysBetween (is_16_bit_width units) interval result.0 result.1 }
    ensures inside { result.1 < 256 }
{
    let first = interval.first.max(128);
    match units {
        UnitWidth::Bytes => (
            first_byte(first) as usize,
            first_byte(interval.last).min(255) as usize,
        ),
        UnitWidth::Wide => (high_key(first), high_key(interval.last)),
    }
}

// Returns the key of a 16-bit unit of 128 or more. For a larger number, returns the key of the last
// unit.
fn high_key(c: u32) -> usize
    ensures { result ≡ 128 + min c 0xFFFF / 512 }
{
    128 + (c.min(0xFFFF) >> 9) as usize
}

// Returns the first byte of a character in UTF-8.
fn first_byte(c: u32) -> u32
    ensures { result ≡ first_utf8_byte c }
{
    if c < 0x80 {
        c
    } else if c < 0x800 {
        0xC0 + (c >> 6)
    } else if c < 0x1_0000 {
        0xE0 + (c >> 12)
    } else {
        0xF0 + (c >> 18)
    }
}

// Returns the first 16-bit unit of a character.
fn first_unit(c: u32) -> u32
    ensures { result ≡ first_utf16_unit c }
{
    if c < 0x1_0000 {
        c
    } else {
        0xD800 + (c - 0x1_0000 >> 10)
    }
}
