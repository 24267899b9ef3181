//! Texts of 16-bit code units, with one unit per character.

ghost use Rattle.std.specs.Prelude.{◌≡◌, refl, ◌<◌, ◌*◌, ◌^◌, ℕ, true, length};
ghost use Rattle.std.proofs.Common.{rules};
ghost use Rattle.regex_meaning.specs.Text.{ucs2_text, fold_code_point};
ghost use Rattle.regex_meaning.specs.CodeUnits.{AreU16Units};
ghost use Rattle.regex_meaning.proofs.{EncodedTextCharacters.{ucs2-characters}, CodeUnitOffsetsLemmas.{ucs2_text-IsText}};
ghost use Rattle.regress_input.specs.CharAndByteReadsFromOffset.{vacuous_without_byte_units};
ghost use Rattle.regress_input.specs.TextSpellingAndOffsetLimit.{ucs2_text-IsSpelled, ucs2_text-fits};

use super::{CharProperties, ElementType, HasUnitType, InputIndexer, Ucs2CodeUnitEncoding};
use crate::front::fold_code_point;
use crate::position::{DefPosition, IndexPosition};

impl ElementType for u32 {
    ghost number = { λ c. c };

    ghost is_number = { λ _. true };

    ghost equal = { Prim.search rules };

    ghost same = { λ a b e. e };

    #[inline(always)]
    fn try_from(code: u32) -> Option<u32> {
        Some(code)
    }

    #[inline(always)]
    fn as_u32(self) -> u32 {
        self
    }
}

/// A text of 16-bit code units, each of which is a character.
#[derive(Clone, Copy, Debug)]
pub struct Ucs2Input<'a> {
    input: &'a [u16],
    unicode: bool,
    ghost fits: { length input.now < 2 ^ 63 },
    ghost sized: { length input.now * 2 < 2 ^ 63 },
    ghost small: { AreU16Units input.now },
}

impl<'a> Ucs2Input<'a> {
    /// Returns the text of the units of `input`, which fold as with the flag `u` if `unicode` is
    /// set.
    #[inline(always)]
    pub fn new(input: &'a [u16], unicode: bool) -> Self
        ensures { ⟦<Ucs2Input<'a> as InputIndexer>⟧.text result ≡ ucs2_text input.now unicode }
    {
        Ucs2Input { input, unicode }
    }
}

/// The properties of characters of a text of 16-bit code units.
pub struct Utf16CharProperties {}

impl CharProperties for Utf16CharProperties {
    type Element = u32;

    ghost folded = { fold_code_point };

    #[inline(always)]
    fn fold(c: u32, unicode: bool) -> u32 {
        fold_code_point(c, unicode)
    }
}

impl<'a> HasUnitType for Ucs2Input<'a> {
    type Units = Ucs2CodeUnitEncoding;
}

impl<'a> InputIndexer for Ucs2Input<'a> {
    type Element = u32;

    type CharProps = Utf16CharProperties;

    type Position = DefPosition<'a>;

    ghost text = { λ it. ucs2_text it.input.now it.unicode };

    ghost is_text = { λ it. ucs2_text-IsText it.input.now it.unicode };

    ghost offsets_fit = { λ it. ucs2_text-fits it.input.now it.unicode it.fits };

    ghost spelled = { λ it. ucs2_text-IsSpelled it.input.now it.unicode };

    ghost characters = { λ it. ucs2-characters it.input.now it.small };

    ghost in_utf8 = { λ it bytes. vacuous_without_byte_units bytes };

    ghost folds = { λ it. refl };

    #[inline(always)]
    fn unicode(&self) -> bool {
        self.unicode
    }

    #[inline(always)]
    fn code_units(&self) -> &[u16] {
        self.input
    }

    #[inline(always)]
    fn read_existing_char_right(&self, pos: DefPosition<'a>) -> (u32, DefPosition<'a>) {
        (
            self.input[pos.offset] as u32,
            IndexPosition::new(pos.offset + 1),
        )
    }

    #[inline(always)]
    fn read_existing_char_left(&self, pos: DefPosition<'a>) -> (u32, DefPosition<'a>) {
        let start = pos.offset - 1;
        (self.input[start] as u32, IndexPosition::new(start))
    }

    #[inline(always)]
    fn text_between(&self, start: DefPosition<'a>, end: DefPosition<'a>) -> Self {
        let start = start.offset;
        let end = end.offset;
        Ucs2Input {
            input: &self.input[start..end],
            unicode: self.unicode,
        }
    }
}
