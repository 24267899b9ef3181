//! Searches anchored at one offset.

ghost use Rattle.std.specs.Prelude.{◌≡◌, ◌<◌, ◌⊎◌, IfErr, IfOk, IfSome, IsAscii, IsCharBoundary, IsTrue, length, option_map};
ghost use Rattle.regex_meaning.specs.Text.{is_unit_boundary};
ghost use Rattle.regress_search.specs.MatchesAsSpecAnswers.{answer_of};
ghost use Rattle.regress_match.specs.ProgramTreesAndAnswers.{ascii_answer_beginning_at, ucs2_answer_beginning_at, utf16_answer_beginning_at, utf8_answer_beginning_at};
ghost use Rattle.regress_match.specs.CompileErrors.{IsOutOfMemory};
ghost use Rattle.regress_match.specs.ExpansionsAndMatchRanges.{MatchFitsText, MatchRangesLieWithinUnits};

use crate::api::{Match, Regex, SearchError};
use crate::executor_aliases::DefaultAsciiExecutor;
use regress_search::exec::ProducerFromProgramAndText;
use regress_search::search_loop::match_at;

impl Regex {
    /// Returns the match of highest priority in `text` that begins at byte offset `at`, which is a
    /// character boundary (`is_char_boundary`) or past the end.
    ///
    /// Returns `None` exactly if no match begins there. No other start position is tried. As in
    /// `find_from`, the text before the offset is part of the text.
    ///
    /// In `xab`, the match of `a|ab` at 1 is `1..2`, and at 0 there is none (tested in
    /// `test_searches`).
    ///
    /// # Errors
    ///
    /// `Memory` if an allocation for the search fails.
    pub fn match_at(&self, text: &str, at: usize) -> Result<Option<Match>, SearchError>
        requires { IsCharBoundary text.now at ⊎ (length text.now < at) }
        ensures found { IfOk result (λ m. option_map answer_of m ≡ utf8_answer_beginning_at self.now text.now at) }
        ensures fits { IfOk result (λ m. IfSome m (λ found. MatchFitsText text.now (answer_of found))) }
        ensures refused { IfErr result IsOutOfMemory }
    {
        match_at(&mut self.utf8_search(text)?, at)
    }

    /// Like `match_at`, in ASCII text (`is_ascii`). `at` may be any offset in bytes.
    ///
    /// # Errors
    ///
    /// `Memory` if an allocation for the search fails.
    pub fn match_at_ascii(&self, text: &str, at: usize) -> Result<Option<Match>, SearchError>
        requires { IsAscii text.now }
        ensures found { IfOk result (λ m. option_map answer_of m ≡ ascii_answer_beginning_at self.now text.now at) }
        ensures fits { IfOk result (λ m. IfSome m (λ found. MatchFitsText text.now (answer_of found))) }
        ensures refused { IfErr result IsOutOfMemory }
    {
        let mut executor = DefaultAsciiExecutor::new(self.byte_program(), text)?;
        match_at(&mut executor, at)
    }

    /// Returns the match of highest priority in a UTF-16 text that begins at `at`, an offset in
    /// code units that does not split a surrogate pair (`is_unit_boundary`), or is past the end.
    ///
    /// Returns `None` exactly if no match begins there. No other start position is tried.
    ///
    /// # Errors
    ///
    /// `Memory` if an allocation for the search fails.
    pub fn match_at_utf16(&self, text: &[u16], at: usize) -> Result<Option<Match>, SearchError>
        requires { IsTrue (is_unit_boundary text.now at) ⊎ (length text.now < at) }
        ensures found { IfOk result (λ m. option_map answer_of m ≡ utf16_answer_beginning_at self.now text.now at) }
        ensures fits { IfOk result (λ m. IfSome m (λ found. MatchRangesLieWithinUnits text.now (answer_of found))) }
        ensures refused { IfErr result IsOutOfMemory }
    {
        match_at(&mut self.utf16_search(text)?, at)
    }

    /// Returns the match of highest priority in a UCS-2 text that begins at `at`, an offset in code
    /// units. Each code unit is a character.
    ///
    /// Returns `None` exactly if no match begins there, for example if `at` is past the end. No
    /// other start position is tried.
    ///
    /// # Errors
    ///
    /// `Memory` if an allocation for the search fails.
    pub fn match_at_ucs2(&self, text: &[u16], at: usize) -> Result<Option<Match>, SearchError>
        ensures found { IfOk result (λ m. option_map answer_of m ≡ ucs2_answer_beginning_at self.now text.now at) }
        ensures fits { IfOk result (λ m. IfSome m (λ found. MatchRangesLieWithinUnits text.now (answer_of found))) }
        ensures refused { IfErr result IsOutOfMemory }
    {
        match_at(&mut self.ucs2_search(text)?, at)
    }
}
