//! Parsing of flags. Unknown letters are refused.

ghost use Rattle.std.specs.Prelude.{◌≡◌, ◌↔◌, IsTrue};
ghost use Rattle.regress_c.specs.Reading.{AreFlags, IsFlagsReadResult, is_flag_letter};

use crate::refusal::Refusal;
use regress_match::Flags;

// Checks whether a letter is the letter of a flag.
fn is_flag(letter: u8) -> bool
    ensures { result ≡ is_flag_letter letter }
{
    matches!(letter, b'i' | b'm' | b's' | b'u' | b'v')
}

// Checks whether each letter is the letter of a flag.
fn are_flags(letters: &[u8]) -> bool
    ensures { IsTrue result ↔ AreFlags letters.now }
{
    letters.iter().all(|letter| is_flag(*letter))
}

/// Returns the flags with these letters, or `UnknownFlag` if some letter is not the letter of a
/// flag.
pub(crate) fn flags_from(letters: &[u8]) -> Result<Flags, Refusal>
    ensures { IsFlagsReadResult letters.now result }
{
    if !are_flags(letters) {
        return Err(Refusal::UnknownFlag);
    }
    match str::from_utf8(letters) {
        Ok(letters) => Ok(Flags::from(letters)),
        Err(_) => Err(Refusal::UnknownFlag),
    }
}
