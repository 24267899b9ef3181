//! Texts of 16-bit code units. With the flag `u` they are read as UTF-16.

ghost use Rattle.std.specs.Prelude.{◌≡◌, ◌≤◌, ◌∷◌, IfOk, length};
ghost use Rattle.regex_meaning.specs.Laws.{is_within_pair as spec_is_within_pair};
ghost use Rattle.regex_meaning.specs.Text.{decode_surrogate_pair, is_high_surrogate, is_low_surrogate, utf16_characters};
ghost use Rattle.use_regexp.specs.Units.{advanced as spec_advanced, character_start as spec_character_start, characters_of};

use std::alloc::{AllocError, Global};

// Checks whether a unit is a high surrogate.
fn is_high(unit: u16) -> bool
    ensures { result ≡ is_high_surrogate unit }
{
    matches!(unit, 0xD800..=0xDBFF)
}

// Checks whether a unit is a low surrogate.
fn is_low(unit: u16) -> bool
    ensures { result ≡ is_low_surrogate unit }
{
    matches!(unit, 0xDC00..=0xDFFF)
}

// Checks whether an index is within a surrogate pair.
fn is_within_pair(text: &[u16], index: usize) -> bool
    ensures { result ≡ spec_is_within_pair text.now index }
{
    if index == 0 {
        return false;
    }
    if text.len() <= index {
        return false;
    }
    is_high(text[index - 1]) && is_low(text[index])
}

// Returns the index at which the character at an index begins. With `u`, it is one unit before an
// index within a surrogate pair (21.2.2.2).
pub(crate) fn character_start(unicode: bool, text: &[u16], index: usize) -> usize
    ensures { result ≡ spec_character_start unicode text.now index }
{
    if unicode && is_within_pair(text, index) {
        index - 1
    } else {
        index
    }
}

// Returns the index after the character at an index (21.2.5.2.3, AdvanceStringIndex).
pub(crate) fn advanced(unicode: bool, text: &[u16], index: usize) -> usize
    requires { index ≤ length text.now }
    ensures { result ≡ spec_advanced unicode text.now index }
{
    if unicode && is_within_pair(text, index + 1) {
        index + 2
    } else {
        index + 1
    }
}

// Returns the first character in UTF-16, and the rest.
fn first_character(unit: u16, behind: &[u16]) -> (u32, &[u16])
    ensures first { utf16_characters (unit ∷ behind.now) ≡ result.0 ∷ utf16_characters result.1.now }
    ensures shorter { length result.1.now ≤ length behind.now }
{
    if let Some((low, left)) = behind.split_first() {
        if is_high(unit) && is_low(*low) {
            return (character_of(unit, *low), left);
        }
    }
    (u32::from(unit), behind)
}

// Returns the character of a surrogate pair.
fn character_of(high: u16, low: u16) -> u32
    ensures { result ≡ decode_surrogate_pair high low }
{
    0x1_0000 + (u32::from(high) % 0x400 * 0x400 + u32::from(low) % 0x400)
}

// Returns the characters of a UTF-16 text.
fn decoded(alloc: Global, units: &[u16]) -> Result<Vec<u32>, AllocError>
    ensures { IfOk result (λ v. v.items ≡ utf16_characters units.now) }
{
    let mut characters = Vec::with_capacity(alloc, units.len())?;
    let mut rest = units;
    while let Some((unit, behind)) = rest.split_first() {
        let (character, left) = first_character(*unit, behind);
        characters.push(character)?;
        rest = left;
    }
    Ok(characters)
}

// Returns each unit as a character.
fn units_as_code_points(alloc: Global, units: &[u16]) -> Result<Vec<u32>, AllocError>
    ensures { IfOk result (λ v. v.items ≡ units.now) }
{
    units.iter().map(|unit| u32::from(*unit)).collect(alloc)
}

// Returns the characters of a pattern. With `u` it is read as UTF-16; otherwise each unit is a
// character.
pub(crate) fn characters(
    alloc: Global,
    unicode: bool,
    units: &[u16],
) -> Result<Vec<u32>, AllocError>
    ensures { IfOk result (λ v. v.items ≡ characters_of unicode units.now) }
{
    if unicode {
        decoded(alloc, units)
    } else {
        units_as_code_points(alloc, units)
    }
}
