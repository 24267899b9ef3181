//! Opening a search, and the offsets at which it may start.

ghost use Rattle.std.specs.Prelude.{◌≡◌, true, false};
ghost use Rattle.regress_c.specs.{Codes.{code_of_result}, Opening.{search_after_opening}, Searching.{can_start_utf8, can_start_utf16}};

use crate::refusal::{DONE, Refusal};
use crate::search::Search;
use regress_match::is_unit_boundary;

/// Stores an opened search in `search`, and returns the code. If opening was refused, `search` is
/// unchanged.
pub(crate) fn open<'t>(search: &mut Search<'t>, opened: Result<Search<'t>, Refusal>) -> u32
    ensures code { result ≡ code_of_result opened.entry }
    ensures after { search.new ≡ search_after_opening search.old opened.entry }
{
    match opened {
        Ok(opened) => {
            *search = opened;
            DONE
        }
        Err(refusal) => refusal.code(),
    }
}

/// Checks whether a start in a UTF-8 text splits a character.
pub(crate) fn splits_utf8_character(text: &str, start: usize) -> bool
    ensures cut { result ≡ true → ¬ can_start_utf8 text.now start }
    ensures whole { result ≡ false → can_start_utf8 text.now start }
{
    start <= text.len() && !text.is_char_boundary(start)
}

/// Checks whether a start in a UTF-16 text splits a surrogate pair.
pub(crate) fn splits_surrogate_pair(units: &[u16], start: usize) -> bool
    ensures cut { result ≡ true → ¬ can_start_utf16 units.now start }
    ensures whole { result ≡ false → can_start_utf16 units.now start }
{
    start <= units.len() && !is_unit_boundary(units, start)
}
