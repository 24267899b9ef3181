//! Texts in ASCII, with one byte per character.

ghost use Rattle.std.specs.Prelude.{◌≡◌, refl, ◌<◌, ◌^◌, nat_le, ℕ, length, IsAscii};
ghost use Rattle.std.proofs.Common.{rules};
ghost use Rattle.regex_meaning.specs.Text.{ascii_text, fold_ascii};
ghost use Rattle.regex_meaning.proofs.{EncodedTextCharacters.{ascii-characters}, CodeUnitOffsetsLemmas.{ascii_text-IsText}};
ghost use Rattle.regress_input.specs.{ByteTextsAreUtf8.{ascii_text-IsEncodedInUtf8}, TextSpellingAndOffsetLimit.{ascii_text-IsSpelled, ascii_text-fits}};

use super::{ByteCodeUnitEncoding, CharProperties, ElementType, HasUnitType, InputIndexer};
use crate::position::{DefPosition, IndexPosition};

impl ElementType for u8 {
    ghost number = { λ c. c };

    ghost is_number = { λ n. nat_le n 255 };

    ghost equal = { Prim.search rules };

    ghost same = { λ a b e. e };

    #[inline(always)]
    fn try_from(code: u32) -> Option<u8> {
        if code <= 0xFF { Some(code as u8) } else { None }
    }

    #[inline(always)]
    fn as_u32(self) -> u32 {
        self as u32
    }
}

/// The properties of characters of an ASCII text.
pub struct ASCIICharProperties {}

impl CharProperties for ASCIICharProperties {
    type Element = u8;

    ghost folded = { fold_ascii };

    #[inline(always)]
    fn fold(c: u8, unicode: bool) -> u8 {
        if unicode {
            if 0x41 <= c && c <= 0x5A { c + 0x20 } else { c }
        } else {
            if 0x61 <= c && c <= 0x7A { c - 0x20 } else { c }
        }
    }
}

/// A text in ASCII.
#[derive(Clone, Copy, Debug)]
pub struct AsciiInput<'a> {
    input: &'a [u8],
    unicode: bool,
    ghost is_ascii: { IsAscii input.now },
    ghost fits: { length input.now < 2 ^ 63 },
}

impl<'a> AsciiInput<'a> {
    /// Returns the text of the bytes of `input`, which fold to lower case if `unicode` is set and
    /// to upper case otherwise. `input` must be ASCII, which `is_ascii` checks.
    #[inline(always)]
    pub fn new(input: &'a str, unicode: bool) -> Self
        requires { IsAscii input.now }
        ensures { ⟦<AsciiInput<'a> as InputIndexer>⟧.text result ≡ ascii_text input.now unicode }
    {
        AsciiInput {
            input: input.as_bytes(),
            unicode,
        }
    }
}

impl<'a> HasUnitType for AsciiInput<'a> {
    type Units = ByteCodeUnitEncoding;
}

impl<'a> InputIndexer for AsciiInput<'a> {
    type Element = u8;

    type CharProps = ASCIICharProperties;

    type Position = DefPosition<'a>;

    ghost text = { λ it. ascii_text it.input.now it.unicode };

    ghost is_text = { λ it. ascii_text-IsText it.input.now it.unicode };

    ghost offsets_fit = { λ it. ascii_text-fits it.input.now it.unicode it.fits };

    ghost spelled = { λ it. ascii_text-IsSpelled it.input.now it.unicode it.is_ascii };

    ghost characters = { λ it. ascii-characters it.input.now it.is_ascii };

    ghost in_utf8 = { λ it _. ascii_text-IsEncodedInUtf8 it.input.now it.unicode it.is_ascii };

    ghost folds = { λ it. refl };

    #[inline(always)]
    fn unicode(&self) -> bool {
        self.unicode
    }

    #[inline(always)]
    fn code_units(&self) -> &[u8] {
        self.input
    }

    #[inline(always)]
    fn read_existing_char_right(&self, pos: DefPosition<'a>) -> (u8, DefPosition<'a>) {
        (self.input[pos.offset], IndexPosition::new(pos.offset + 1))
    }

    #[inline(always)]
    fn read_existing_char_left(&self, pos: DefPosition<'a>) -> (u8, DefPosition<'a>) {
        let start = pos.offset - 1;
        (self.input[start], IndexPosition::new(start))
    }

    #[inline(always)]
    fn text_between(&self, start: DefPosition<'a>, end: DefPosition<'a>) -> Self {
        let start = start.offset;
        let end = end.offset;
        AsciiInput {
            input: &self.input[start..end],
            unicode: self.unicode,
        }
    }
}
