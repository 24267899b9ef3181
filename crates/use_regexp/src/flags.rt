//! Flags of regular expressions.

ghost use Rattle.std.specs.Prelude.{◌≡◌, ◌++◌, IfOk};
ghost use Rattle.regex_meaning.specs.FlagLettersAndEscaping.{letter_if_flag_set};
ghost use Rattle.use_regexp.specs.Letters.{are_flags as spec_are_flags};

use regress_match::Flags as PatternFlags;
use std::alloc::{AllocError, Global};

/// The letters of the flags, in the order of the standard.
const FLAG_LETTERS: [u16; 7] = [100, 103, 105, 109, 115, 117, 121];

/// The flags of a regular expression (21.2.5). `d` is a flag of the 13th edition (ES2022).
#[derive(Clone, Copy, Debug, Default, PartialEq, Eq)]
pub struct Flags {
    /// The results of `exec` have the array `indices` (`d`). This does not change a search, because
    /// a [`Match`](crate::Match) always has the indices.
    pub has_indices: bool,
    /// A search continues at the end of the previous match, and calls that replace or match use all
    /// matches (`g`).
    pub global: bool,
    /// Letters match regardless of case (`i`).
    pub ignore_case: bool,
    /// `^` also matches after a line terminator, and `$` before one (`m`).
    pub multiline: bool,
    /// `.` also matches line terminators (`s`).
    pub dot_all: bool,
    /// Pattern and text are read as UTF-16 (`u`).
    pub unicode: bool,
    /// A match has to begin at `lastIndex` (`y`).
    pub sticky: bool,
}

impl Flags {
    ghost use Rattle.use_regexp.specs.Flags.{flags_of, uses_last_index as spec_uses_last_index, letters_of, tree_flags};
    ghost use Rattle.regress_match.specs.PublicFlagsAsSpecFlags.{spec_flags_of};

    /// Returns the flags with these letters, in any order. Returns `None` if a letter is not the
    /// letter of a flag or occurs twice (21.2.3.2.2).
    pub fn of_letters(letters: &[u16]) -> Option<Flags>
        ensures { result ≡ flags_of letters.now }
    {
        if are_flags(letters) {
            Some(Flags {
                has_indices: letters.contains(&100),
                global: letters.contains(&103),
                ignore_case: letters.contains(&105),
                multiline: letters.contains(&109),
                dot_all: letters.contains(&115),
                unicode: letters.contains(&117),
                sticky: letters.contains(&121),
            })
        } else {
            None
        }
    }

    /// Returns the letters of the flags that are set, in the order `dgimsuy` (22.2.6.4 of the 13th
    /// edition).
    ///
    /// # Errors
    ///
    /// `AllocError` if an allocation fails.
    pub fn letters(self, alloc: Global) -> Result<Vec<u16>, AllocError>
        ensures { IfOk result (λ v. v.items ≡ letters_of self) }
    {
        let mut letters = Vec::new(alloc);
        push_if(&mut letters, self.has_indices, 100)?;
        push_if(&mut letters, self.global, 103)?;
        push_if(&mut letters, self.ignore_case, 105)?;
        push_if(&mut letters, self.multiline, 109)?;
        push_if(&mut letters, self.dot_all, 115)?;
        push_if(&mut letters, self.unicode, 117)?;
        push_if(&mut letters, self.sticky, 121)?;
        Ok(letters)
    }

    // Checks whether a search begins at `lastIndex` and sets it.
    pub(crate) fn uses_last_index(self) -> bool
        ensures { result ≡ spec_uses_last_index self }
    {
        self.global || self.sticky
    }

    // Returns the flags with which the pattern is compiled.
    pub(crate) fn for_pattern(self) -> PatternFlags
        ensures { spec_flags_of result ≡ tree_flags self }
    {
        PatternFlags {
            icase: self.ignore_case,
            multiline: self.multiline,
            dot_all: self.dot_all,
            no_opt: false,
            unicode: self.unicode,
            unicode_sets: false,
        }
    }
}

// Appends a letter if its flag is set.
fn push_if(letters: &mut Vec<u16>, set: bool, letter: u16) -> Result<(), AllocError>
    ensures { IfOk result (λ _. letters.new.items ≡ letters.old.items ++ letter_if_flag_set set letter) }
{
    if set {
        letters.push(letter)?;
    }
    Ok(())
}

// Checks whether each letter is the letter of a flag, and none occurs twice.
fn are_flags(letters: &[u16]) -> bool
    ensures { result ≡ spec_are_flags letters.now }
{
    let mut rest = letters;
    while let Some((letter, behind)) = rest.split_first() {
        if !FLAG_LETTERS.contains(letter) || behind.contains(letter) {
            return false;
        }
        rest = behind;
    }
    true
}
