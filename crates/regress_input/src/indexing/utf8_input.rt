//! Texts in UTF-8.

ghost use Rattle.std.specs.Prelude.{◌≡◌, refl, ◌<◌, ◌^◌, ◌==◌, ℕ, length, IsUtf8};
ghost use Rattle.regex_meaning.specs.Text.{utf8_text, is_scalar, fold_char};
ghost use Rattle.regex_meaning.proofs.{EncodedTextCharacters.{utf8-characters}, CodeUnitOffsetsLemmas.{utf8_text-IsText}};
ghost use Rattle.std.proofs.Common.{rules};
ghost use Rattle.regress_input.specs.{ByteTextsAreUtf8.{utf8_text-IsEncodedInUtf8}, TextSpellingAndOffsetLimit.{utf8_text-IsSpelled, utf8_text-fits}};

use super::{ByteCodeUnitEncoding, CharProperties, ElementType, HasUnitType, InputIndexer};
use crate::front::fold_code_point;
use crate::position::{DefPosition, IndexPosition};
use crate::utf8_decoding;

impl ElementType for char {
    ghost number = { λ c. c };

    ghost is_number = { is_scalar };

    ghost equal = { Prim.search rules };

    ghost same = { λ a b e. e };

    #[inline(always)]
    fn try_from(code: u32) -> Option<char> {
        char::from_u32(code)
    }

    #[inline(always)]
    fn as_u32(self) -> u32 {
        self as u32
    }
}

/// The properties of characters of a text in UTF-8.
pub struct UTF8CharProperties {}

impl CharProperties for UTF8CharProperties {
    type Element = char;

    ghost folded = { fold_char };

    #[inline(always)]
    fn fold(c: char, unicode: bool) -> char {
        char::from_u32(fold_code_point(c as u32, unicode)).unwrap_or(c)
    }
}

/// A text in UTF-8.
#[derive(Clone, Copy, Debug)]
pub struct Utf8Input<'a> {
    input: &'a str,
    unicode: bool,
    ghost is_utf8: { ∥ IsUtf8 input.now ∥₁ },
    ghost fits: { length input.now < 2 ^ 63 },
}

impl<'a> Utf8Input<'a> {
    /// Returns the text of the characters of `input`, which fold as with the flag `u` if `unicode`
    /// is set.
    #[inline(always)]
    pub fn new(input: &'a str, unicode: bool) -> Self
        ensures { ⟦<Utf8Input<'a> as InputIndexer>⟧.text result ≡ utf8_text input.now unicode }
    {
        Utf8Input { input, unicode }
    }
}

impl<'a> HasUnitType for Utf8Input<'a> {
    type Units = ByteCodeUnitEncoding;
}

impl<'a> InputIndexer for Utf8Input<'a> {
    type Element = char;

    type CharProps = UTF8CharProperties;

    type Position = DefPosition<'a>;

    ghost text = { λ it. utf8_text it.input.now it.unicode };

    ghost is_text = { λ it. utf8_text-IsText it.input.now it.unicode };

    ghost offsets_fit = { λ it. utf8_text-fits it.input.now it.unicode it.is_utf8 it.fits };

    ghost spelled = { λ it. utf8_text-IsSpelled it.input.now it.unicode };

    ghost characters = { λ it. utf8-characters it.input.now it.is_utf8 };

    ghost in_utf8 = { λ it _. utf8_text-IsEncodedInUtf8 it.input.now it.unicode it.is_utf8 };

    ghost folds = { λ it. refl };

    #[inline(always)]
    fn unicode(&self) -> bool {
        self.unicode
    }

    #[inline(always)]
    fn code_units(&self) -> &[u8] {
        self.input.as_bytes()
    }

    #[inline(always)]
    fn read_existing_char_right(&self, pos: DefPosition<'a>) -> (char, DefPosition<'a>) {
        let at = pos.offset;
        let (c, end) = utf8_decoding::character_at(self.input.as_bytes(), at);
        (c, IndexPosition::new(end))
    }

    #[inline(always)]
    fn read_existing_char_left(&self, pos: DefPosition<'a>) -> (char, DefPosition<'a>) {
        let at = pos.offset;
        let (c, start) = utf8_decoding::character_before(self.input.as_bytes(), at);
        (c, IndexPosition::new(start))
    }

    #[inline(always)]
    fn text_between(&self, start: DefPosition<'a>, end: DefPosition<'a>) -> Self {
        let start = start.offset;
        let end = end.offset;
        Utf8Input {
            input: &self.input[start..end],
            unicode: self.unicode,
        }
    }
}
