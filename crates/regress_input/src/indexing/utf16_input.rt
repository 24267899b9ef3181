//! Texts in UTF-16.

ghost use Rattle.std.specs.Prelude.{◌≡◌, refl, ◌<◌, ◌*◌, ◌^◌, length};
ghost use Rattle.regex_meaning.specs.Text.{utf16_text};
ghost use Rattle.regex_meaning.specs.CodeUnits.{AreU16Units};
ghost use Rattle.regex_meaning.proofs.{EncodedTextCharacters.{utf16-characters}, CodeUnitOffsetsLemmas.{utf16_text-IsText}};
ghost use Rattle.regress_input.specs.CharAndByteReadsFromOffset.{vacuous_without_byte_units};
ghost use Rattle.regress_input.specs.TextSpellingAndOffsetLimit.{utf16_text-IsSpelled, utf16_text-fits};

use super::{
    CharProperties, HasUnitType, InputIndexer, Utf16CharProperties, Utf16CodeUnitEncoding,
};
use crate::position::{DefPosition, IndexPosition};
use crate::utf16_decoding;

/// A text in UTF-16. A high surrogate and the low surrogate after it are one character; any other
/// unit is a character by itself.
#[derive(Clone, Copy, Debug)]
pub struct Utf16Input<'a> {
    input: &'a [u16],
    unicode: bool,
    ghost fits: { length input.now < 2 ^ 63 },
    ghost sized: { length input.now * 2 < 2 ^ 63 },
    ghost small: { AreU16Units input.now },
}

impl<'a> Utf16Input<'a> {
    /// Returns the text of the characters of `input`, which fold as with the flag `u` if `unicode`
    /// is set.
    #[inline(always)]
    pub fn new(input: &'a [u16], unicode: bool) -> Self
        ensures { ⟦<Utf16Input<'a> as InputIndexer>⟧.text result ≡ utf16_text input.now unicode }
    {
        Utf16Input { input, unicode }
    }
}

impl<'a> HasUnitType for Utf16Input<'a> {
    type Units = Utf16CodeUnitEncoding;
}

impl<'a> InputIndexer for Utf16Input<'a> {
    type Element = u32;

    type CharProps = Utf16CharProperties;

    type Position = DefPosition<'a>;

    ghost text = { λ it. utf16_text it.input.now it.unicode };

    ghost is_text = { λ it. utf16_text-IsText it.input.now it.unicode };

    ghost offsets_fit = { λ it. utf16_text-fits it.input.now it.unicode it.small it.fits };

    ghost spelled = { λ it. utf16_text-IsSpelled it.input.now it.unicode };

    ghost characters = { λ it. utf16-characters it.input.now it.small };

    ghost in_utf8 = { λ it bytes. vacuous_without_byte_units bytes };

    ghost folds = { λ it. refl };

    #[inline(always)]
    fn unicode(&self) -> bool {
        self.unicode
    }

    #[inline(always)]
    fn code_units(&self) -> &[u16] {
        self.input
    }

    #[inline(always)]
    fn read_existing_char_right(&self, pos: DefPosition<'a>) -> (u32, DefPosition<'a>) {
        let at = pos.offset;
        let (c, end) = utf16_decoding::character_at(self.input, at);
        (c, IndexPosition::new(end))
    }

    #[inline(always)]
    fn read_existing_char_left(&self, pos: DefPosition<'a>) -> (u32, DefPosition<'a>) {
        let at = pos.offset;
        let (c, start) = utf16_decoding::character_before(self.input, at);
        (c, IndexPosition::new(start))
    }

    #[inline(always)]
    fn text_between(&self, start: DefPosition<'a>, end: DefPosition<'a>) -> Self {
        let start = start.offset;
        let end = end.offset;
        Utf16Input {
            input: &self.input[start..end],
            unicode: self.unicode,
        }
    }
}
