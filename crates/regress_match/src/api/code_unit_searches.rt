//! Searches in texts of 16-bit code units.

ghost use Rattle.regex_meaning.specs.CodeUnitOffsets.{is_past};
ghost use Rattle.std.specs.Prelude.{◌≡◌, ◌<◌, ◌⊎◌, IfErr, IfOk, IsTrue, false, length, nat_le, not};
ghost use Rattle.regex_meaning.specs.Text.{is_unit_boundary};
ghost use Rattle.regress_bounded.specs.CostsOfAttempts.{IteratorBeginsSearches};
ghost use Rattle.regress_match.specs.{ProgramTreesAndAnswers.{units_as_ucs2_text, units_as_utf16_text, tree_for_16_bit_units}, CompileErrors.{IsOutOfMemory}};
ghost use Rattle.regress_match.specs.SearchResults.{YieldsMatches};

use crate::api::{Regex, SearchError, WorkLimitedMatches};
use crate::executor_aliases::{DefaultUcs2Executor, DefaultUtf16Executor, WorkLimitedExecutor};
use regress_input::indexing::{Ucs2Input, Utf16Input};
use regress_search::exec::{Matches, SearchState, WorkMatches};

impl Regex {
    /// Returns an iterator over the matches in a UTF-16 text from `start` on, an offset in code
    /// units that does not split a surrogate pair (`is_unit_boundary`), or is past the end. Past
    /// the end there are no matches.
    ///
    /// A high surrogate followed by a low surrogate is one character. Any other code unit is a
    /// character by itself. `.` matches both (tested in `test_searches`).
    ///
    /// # Errors
    ///
    /// `Memory` if an allocation for the search fails.
    pub fn find_from_utf16<'r, 't>(
        &'r self,
        text: &'t [u16],
        start: usize,
    ) -> Result<Matches<DefaultUtf16Executor<'r, 't>>, SearchError>
        requires { IsTrue (is_unit_boundary text.now start) ⊎ (length text.now < start) }
        ensures answers { IfOk result (YieldsMatches (tree_for_16_bit_units self.now)
            (units_as_utf16_text self.now text.now) start) }
        ensures ended { IfOk result (λ it. it.ended ≡ is_past start (length text.now)) }
        ensures refused { IfErr result IsOutOfMemory }
    {
        Ok(Matches::new(self.utf16_search(text)?, start))
    }

    /// Like `find_from_utf16`, but all items together take at most `work` units of work.
    /// `find_from_in_work` says what a unit is, and what an item `WorkLimit` means. The clauses
    /// `left` and `begins` say how much work is left, and what determines the cost of the first call
    /// of `next`.
    ///
    /// # Errors
    ///
    /// `Memory` if an allocation for the search fails.
    pub fn find_from_utf16_in_work<'r, 't>(
        &'r self,
        text: &'t [u16],
        start: usize,
        work: u64,
    ) -> Result<WorkLimitedMatches<'r, Utf16Input<'t>>, SearchError>
        requires { IsTrue (is_unit_boundary text.now start) ⊎ (length text.now < start) }
        ensures answers { IfOk result (λ it. YieldsMatches (tree_for_16_bit_units self.now)
            (units_as_utf16_text self.now text.now) start it.remaining) }
        ensures left { IfOk result (λ it. it.left ≡ work) }
        ensures begins { let e = ⟦<WorkLimitedExecutor<'r, Utf16Input<'t>> as SearchState>⟧ in
            IfOk result (IteratorBeginsSearches e (tree_for_16_bit_units self.now)
            (units_as_utf16_text self.now text.now) start) }
        ensures ended { IfOk result (λ it. it.remaining.ended ≡ is_past start (length text.now)) }
        ensures refused { IfErr result IsOutOfMemory }
    {
        let executor = self.utf16_search_in_work(text, work)?;
        let matches = WorkMatches::new(executor, start);
        Ok(matches)
    }

    /// Returns an iterator over the matches in a UCS-2 text from `start` on, an offset in code
    /// units. Each code unit is a character. Past the end there are no matches.
    ///
    /// This is how JavaScript reads a string without the flag `u` (`docs/PROFILE.md`).
    ///
    /// # Errors
    ///
    /// `Memory` if an allocation for the search fails.
    pub fn find_from_ucs2<'r, 't>(
        &'r self,
        text: &'t [u16],
        start: usize,
    ) -> Result<Matches<DefaultUcs2Executor<'r, 't>>, SearchError>
        ensures answers { IfOk result (YieldsMatches (tree_for_16_bit_units self.now)
            (units_as_ucs2_text self.now text.now) start) }
        ensures ended { IfOk result (λ it. it.ended ≡ is_past start (length text.now)) }
        ensures refused { IfErr result IsOutOfMemory }
    {
        Ok(Matches::new(self.ucs2_search(text)?, start))
    }

    /// Like `find_from_ucs2`, but all items together take at most `work` units of work.
    /// `find_from_in_work` says what a unit is, and what an item `WorkLimit` means. The clauses
    /// `left` and `begins` say how much work is left, and what determines the cost of the first call
    /// of `next`.
    ///
    /// # Errors
    ///
    /// `Memory` if an allocation for the search fails.
    pub fn find_from_ucs2_in_work<'r, 't>(
        &'r self,
        text: &'t [u16],
        start: usize,
        work: u64,
    ) -> Result<WorkLimitedMatches<'r, Ucs2Input<'t>>, SearchError>
        ensures answers { IfOk result (λ it. YieldsMatches (tree_for_16_bit_units self.now)
            (units_as_ucs2_text self.now text.now) start it.remaining) }
        ensures left { IfOk result (λ it. it.left ≡ work) }
        ensures begins { let e = ⟦<WorkLimitedExecutor<'r, Ucs2Input<'t>> as SearchState>⟧ in
            IfOk result (IteratorBeginsSearches e (tree_for_16_bit_units self.now)
            (units_as_ucs2_text self.now text.now) start) }
        ensures ended { IfOk result (λ it. it.remaining.ended ≡ is_past start (length text.now)) }
        ensures refused { IfErr result IsOutOfMemory }
    {
        let executor = self.ucs2_search_in_work(text, work)?;
        let matches = WorkMatches::new(executor, start);
        Ok(matches)
    }
}
