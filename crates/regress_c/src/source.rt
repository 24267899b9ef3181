//! Texts of patterns, and their code points.

ghost use Rattle.std.specs.Prelude.{◌≡◌, ◌+◌, ◌<◌, ◌≤◌, ◌&&◌, ◌∷◌, ℕ, List, IfOk, IsUtf8, chars, drop, length};
ghost use Rattle.std.specs.Char.{len_utf8};
ghost use Rattle.regex_meaning.specs.Text.{decode_surrogate_pair, is_high_surrogate, is_low_surrogate, utf16_characters, utf16_width};
ghost use Rattle.regress_c.specs.Reading.{IsPatternReadResult};

use crate::refusal::Refusal;
use std::alloc::{AllocError, Global};

/// The text of a pattern in some encoding. Contracts see whether it is valid in that encoding, and
/// its code points.
pub(crate) trait Source {
    ghost is_text: { Self → Type 0 };

    ghost characters: { Self → List ℕ };

    ghost width_of: { ℕ → ℕ };

    /// Returns the number of units of a code point.
    fn width(c: u32) -> usize
        ensures width { result ≡ width_of c }
        ensures few { result ≤ 4 };

    /// Returns the code points.
    fn code_points(&self, alloc: Global) -> Result<Vec<u32>, Refusal>
        ensures { IsPatternReadResult (is_text self.now) (characters self.now) result };
}

/// A pattern in UTF-8.
#[derive(Clone, Copy)]
pub(crate) struct Utf8Source<'p> {
    pub(crate) bytes: &'p [u8],
}

impl Source for Utf8Source<'_> {
    ghost is_text = { λ s. IsUtf8 s.bytes.now };

    ghost characters = { λ s. chars s.bytes.now };

    ghost width_of = { len_utf8 };

    fn width(c: u32) -> usize
        ensures width { result ≡ len_utf8 c }
        ensures few { result ≤ 4 }
    {
        match c {
            0..0x80 => 1,
            0x80..0x800 => 2,
            0x800..0x1_0000 => 3,
            _ => 4,
        }
    }

    fn code_points(&self, alloc: Global) -> Result<Vec<u32>, Refusal> {
        let text = str::from_utf8(self.bytes)?;
        Ok(text.chars().map(u32::from).collect(alloc)?)
    }
}

/// A pattern in UTF-16, in which an unpaired surrogate is a code point.
#[derive(Clone, Copy)]
pub(crate) struct Utf16Source<'p> {
    pub(crate) units: &'p [u16],
}

impl Source for Utf16Source<'_> {
    ghost is_text = { λ _. Unit {0} };

    ghost characters = { λ s. utf16_characters s.units.now };

    ghost width_of = { utf16_width };

    fn width(c: u32) -> usize
        ensures width { result ≡ utf16_width c }
        ensures few { result ≤ 4 }
    {
        if c < 0x1_0000 { 1 } else { 2 }
    }

    fn code_points(&self, alloc: Global) -> Result<Vec<u32>, Refusal> {
        Ok(characters_of(alloc, self.units)?)
    }
}

// Checks whether two code units are a surrogate pair.
fn is_pair(high: u16, low: u16) -> bool
    ensures { result ≡ (is_high_surrogate high && is_low_surrogate low) }
{
    matches!(high, 0xD800..=0xDBFF) && matches!(low, 0xDC00..=0xDFFF)
}

// Returns the code point of a surrogate pair.
fn character_of(high: u16, low: u16) -> u32
    ensures { result ≡ decode_surrogate_pair high low }
{
    0x1_0000 + (u32::from(high) % 0x400 * 0x400 + u32::from(low) % 0x400)
}

// Returns the first code point of these code units, and the number of its code units.
fn first_of(first: u16, behind: &[u16]) -> (u32, usize)
    ensures characters { utf16_characters (first ∷ behind.now)
        ≡ result.0 ∷ utf16_characters (drop result.1 (first ∷ behind.now)) }
    ensures there { 0 < result.1 }
    ensures few { result.1 ≤ 2 }
    ensures inside { result.1 ≤ length behind.now + 1 }
{
    match behind {
        [second, ..] if is_pair(first, *second) => (character_of(first, *second), 2),
        _ => (u32::from(first), 1),
    }
}

// Returns the code points of a UTF-16 text.
fn characters_of(alloc: Global, units: &[u16]) -> Result<Vec<u32>, AllocError>
    ensures { IfOk result (λ v. v.items ≡ utf16_characters units.now) }
{
    let mut characters = Vec::with_capacity(alloc, units.len())?;
    let mut rest = units;
    'characters: while let [first, behind @ ..] = rest {
        let (c, width) = first_of(*first, behind);
        characters.push(c)?;
        rest = &rest[width..];
    }
    Ok(characters)
}
