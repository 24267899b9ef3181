//! Texts to be searched, in each encoding.

ghost use Rattle.std.specs.Prelude.{◌≡◌, ◌<◌, ◌↔◌, ◌⊎◌, ℕ, IsTrue, IsUtf8, length};
ghost use Rattle.regress_c.specs.Searching.{MatchesToCome, Finds, IsFirstOfRemainingMatches, IsTextWithValidStart, can_start_utf16, can_start_utf8, ucs2_matches_to_come, utf16_matches_to_come};
ghost use Rattle.regress_c.specs.Searching.{utf8_matches_to_come};
ghost use Rattle.regress_match.specs.declared.api.regex.Regex.{Regex as Compiled};

use crate::refusal::Refusal;
use regress_match::{Match, Regex, is_unit_boundary};
use regress_search::exec::{MatchProducer, Matches};

/// A text to be searched. Contracts see whether it is valid in its encoding, where a search may
/// start, and the matches from a start on.
pub(crate) trait Subject {
    ghost is_text: { Self → Type 0 };

    ghost can_start: { Self → ℕ → Type 0 };

    ghost coming: { Self → Compiled → ℕ → MatchesToCome };

    /// Returns the first match from an offset in units on. Refuses an invalid text, and a start
    /// that splits a character.
    fn first(&self, re: &Regex, start: usize) -> Result<Option<Match>, Refusal>
        ensures { Finds (is_text self.now) (can_start self.now start) (coming self.now re.now start) result };
}

// Returns the first of the remaining matches.
fn first_of<P: MatchProducer + Drop>(mut matches: Matches<P>) -> Result<Option<Match>, Refusal>
    ensures { IsFirstOfRemainingMatches (record { answers = matches.answers; limited = matches.limited }) result }
{
    Ok(matches.next().transpose()?)
}

/// Returns these bytes as a UTF-8 text, if they are valid UTF-8 and a search may start at `start`.
pub(crate) fn text_with_valid_start(bytes: &[u8], start: usize) -> Result<&str, Refusal>
    ensures { IsTextWithValidStart bytes.now start result }
{
    let text = str::from_utf8(bytes)?;
    if text.is_char_boundary(start) || text.len() < start {
        Ok(text)
    } else {
        Err(Refusal::NotBoundary)
    }
}

/// A text in UTF-8.
#[derive(Drop)]
pub(crate) struct Utf8<'t> {
    pub(crate) bytes: &'t [u8],
}

impl Subject for Utf8<'_> {
    ghost is_text = { λ s. IsUtf8 s.bytes.now };

    ghost can_start = { λ s start. can_start_utf8 s.bytes.now start };

    ghost coming = { λ s re start. utf8_matches_to_come s.bytes.now re start };

    fn first(&self, re: &Regex, start: usize) -> Result<Option<Match>, Refusal> {
        let text = text_with_valid_start(self.bytes, start)?;
        first_of(re.find_from(text, start)?)
    }
}

/// A text in UTF-16. All sequences of code units are valid: an unpaired surrogate is a character.
#[derive(Drop)]
pub(crate) struct Utf16<'t> {
    pub(crate) units: &'t [u16],
}

impl Subject for Utf16<'_> {
    ghost is_text = { λ _. Unit {0} };

    ghost can_start = { λ s start. can_start_utf16 s.units.now start };

    ghost coming = { λ s re start. utf16_matches_to_come s.units.now re start };

    fn first(&self, re: &Regex, start: usize) -> Result<Option<Match>, Refusal> {
        if !is_unit_boundary(self.units, start) && start <= self.units.len() {
            return Err(Refusal::NotBoundary);
        }
        first_of(re.find_from_utf16(self.units, start)?)
    }
}

/// A text in UCS-2, in which each code unit is a character.
#[derive(Drop)]
pub(crate) struct Ucs2<'t> {
    pub(crate) units: &'t [u16],
}

impl Subject for Ucs2<'_> {
    ghost is_text = { λ _. Unit {0} };

    ghost can_start = { λ _ _. Unit {0} };

    ghost coming = { λ s re start. ucs2_matches_to_come s.units.now re start };

    fn first(&self, re: &Regex, start: usize) -> Result<Option<Match>, Refusal> {
        first_of(re.find_from_ucs2(self.units, start)?)
    }
}
