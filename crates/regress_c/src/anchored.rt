//! Texts in each encoding, for searches that only look for a match that begins at the start.

ghost use Rattle.std.specs.Prelude.{◌≡◌, IsUtf8};
ghost use Rattle.regress_c.specs.Searching.{can_start_utf16, can_start_utf8};
ghost use Rattle.regress_c.specs.MatchesAt.{ucs2_match_to_come_at, utf16_match_to_come_at, utf8_match_to_come_at};

use crate::opening::splits_surrogate_pair;
use crate::refusal::Refusal;
use crate::subject::{Subject, text_with_valid_start};
use regress_match::{Match, Regex};

/// A text in UTF-8.
#[derive(Drop)]
pub(crate) struct AnchoredUtf8<'t> {
    pub(crate) bytes: &'t [u8],
}

impl Subject for AnchoredUtf8<'_> {
    ghost is_text = { λ s. IsUtf8 s.bytes.now };

    ghost can_start = { λ s at. can_start_utf8 s.bytes.now at };

    ghost coming = { λ s re at. utf8_match_to_come_at s.bytes.now re at };

    fn first(&self, re: &Regex, at: usize) -> Result<Option<Match>, Refusal> {
        let text = text_with_valid_start(self.bytes, at)?;
        Ok(re.match_at(text, at)?)
    }
}

/// A text in UTF-16.
#[derive(Drop)]
pub(crate) struct AnchoredUtf16<'t> {
    pub(crate) units: &'t [u16],
}

impl Subject for AnchoredUtf16<'_> {
    ghost is_text = { λ _. Unit {0} };

    ghost can_start = { λ s at. can_start_utf16 s.units.now at };

    ghost coming = { λ s re at. utf16_match_to_come_at s.units.now re at };

    fn first(&self, re: &Regex, at: usize) -> Result<Option<Match>, Refusal> {
        if splits_surrogate_pair(self.units, at) {
            return Err(Refusal::NotBoundary);
        }
        Ok(re.match_at_utf16(self.units, at)?)
    }
}

/// A text in UCS-2.
#[derive(Drop)]
pub(crate) struct AnchoredUcs2<'t> {
    pub(crate) units: &'t [u16],
}

impl Subject for AnchoredUcs2<'_> {
    ghost is_text = { λ _. Unit {0} };

    ghost can_start = { λ _ _. Unit {0} };

    ghost coming = { λ s re at. ucs2_match_to_come_at s.units.now re at };

    fn first(&self, re: &Regex, at: usize) -> Result<Option<Match>, Refusal> {
        Ok(re.match_at_ucs2(self.units, at)?)
    }
}
