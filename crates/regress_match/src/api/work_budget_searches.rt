//! Searches within a work budget, for patterns with a known work bound.

ghost use Rattle.regex_meaning.specs.CodeUnitOffsets.{is_past};
ghost use Rattle.std.specs.Prelude.{◌≡◌, ◌<◌, ◌⊎◌, IfErr, IfOk, IsAscii, IsCharBoundary, IsTrue, OnOk, length, nat_le, not};
ghost use Rattle.regex_meaning.specs.Text.{is_unit_boundary};
ghost use Rattle.regress_match.specs.ProgramTreesAndAnswers.{bytes_as_ascii_text, units_as_ucs2_text, bytes_as_utf8_text, units_as_utf16_text, tree_for_byte_units, tree_for_16_bit_units};
ghost use Rattle.regress_match.specs.CompileErrors.{IsOutOfMemory};
ghost use Rattle.regress_match.specs.ExpansionsAndMatchRanges.{MatchesFitTextInOrderFrom};
ghost use Rattle.regress_bounded.specs.CostsOfAttempts.{IteratorBeginsSearches};
ghost use Rattle.regress_search.specs.CostsOfCalls.{without_costs};
ghost use Rattle.regress_match.specs.WorkBounds.{IsHigherOfProgramWorkBounds, BothTreesHaveOnlySimpleLookarounds, IsPatternUnboundedBy, YieldsMatchesIfWorkSuffices, max_of_two};

use crate::api::{Regex, SearchError};
use regress_bounded::executor::BoundedExecutor;
use regress_bounded::work_bound::{Unbounded, WorkBound};
use regress_input::indexing::{AsciiInput, Ucs2Input, Utf8Input, Utf16Input};
use regress_search::exec::{SearchState, WorkMatches};
use std::marker::Model;

/// An iterator over the matches of a pattern in a text, within a work budget. Contracts see the
/// remaining answers, how much work is left, and whether that suffices for all of them.
pub type MatchesInWork<'r, Input> = WorkMatches<BoundedExecutor<'r, Input>>;

/// A pattern with a known work bound: with a budget of `work_per_unit` × (n + 1), all matches in a
/// text of n units are found unless an allocation fails, and together they take at most that work. A
/// unit of a text is a byte or a 16-bit code unit.
///
/// A search begins as `Regex::find_from_in_work` does, with 16 units of work for each position. If
/// they do not suffice, it goes on with an executor that remembers failures: in one bit for each
/// position, each instruction that records, and each state of the loops around it.
///
/// `docs/LINEAR.md` says what a unit of work is. A call of `next` without an error takes exactly a
/// cost of its search (`CostsInWork`).
///
/// Contracts see the pattern, and the number that `work_per_unit` returns.
#[derive(Drop)]
pub struct BoundedRegex<'r> {
    re: &'r Regex,
    bytes: WorkBound,
    units: WorkBound,
}

impl<'r> Model for BoundedRegex<'r> {
    ghost use Rattle.std.specs.Coded.{codes};
    ghost use Rattle.regex_pattern_front.specs.contracts.ir.Node as node;
    ghost use Rattle.regress_match.specs.WorkBounds.{AreWorkBoundsOfBothPrograms, BoundedView, higher_bound_of};

    ghost Value = { BoundedView };

    ghost coded = { Prim.hlevel (codes, node.the_row.coded) };

    ghost view = { λ b. record { re = b.re.now; per_unit = higher_bound_of b.bytes b.units } };

    ghost invariant = { λ b. AreWorkBoundsOfBothPrograms b.re.now b.bytes b.units };
}

impl Regex {
    /// Returns the pattern with its work bound, for searches within a work budget.
    ///
    /// # Errors
    ///
    /// Returns the reason why no bound is known for the program for 16-bit units or, if that has
    /// one, for the program for bytes. `docs/LINEAR.md` has the full list of causes. It is proved
    /// when the first two are returned, and tested when the others are.
    ///
    /// - `Backreference` exactly if this program has one.
    /// - Otherwise `Lookaround` exactly if in this program the contents of a lookaround have a loop,
    ///   or alternatives that more contents follow. (Loops over one character with a maximum are allowed
    ///   in the program for bytes. That for 16-bit units has no such loops.)
    /// - `Count` if the counts of its loops are too large, or its loops are nested too deeply.
    /// - `BoundTooLarge` if the bound is too large, or lookarounds are nested too deeply.
    /// - `Memory` if an allocation for computing the bound fails.
    pub fn bounded(&self) -> Result<BoundedRegex<'_>, Unbounded>
        ensures pattern { IfOk result (λ bounded. bounded.re ≡ self.now) }
        ensures enough { IfOk result (λ bounded. IsHigherOfProgramWorkBounds self.now bounded.per_unit) }
        ensures plain { OnOk result (BothTreesHaveOnlySimpleLookarounds self.now) }
        ensures refused { IfErr result (IsPatternUnboundedBy self.now) }
    {
        let units = WorkBound::bound_for_units(self.unit_program())?;
        let bytes = WorkBound::bound_for_bytes(self.byte_program())?;
        Ok(BoundedRegex {
            re: self,
            bytes,
            units,
        })
    }

    /// Returns the `work_per_unit` of the pattern. For a text of n units, `work_per_unit` × (n + 1)
    /// work suffices.
    ///
    /// A contract relates a search to the number of its own `BoundedRegex`, so a caller who
    /// searches should take the number from there.
    ///
    /// # Errors
    ///
    /// Returns the reason why no bound is known, like `bounded`.
    pub fn work_per_unit(&self) -> Result<u64, Unbounded>
        ensures enough { IfOk result (IsHigherOfProgramWorkBounds self.now) }
        ensures refused { IfErr result (IsPatternUnboundedBy self.now) }
    {
        let bounded = self.bounded()?;
        Ok(bounded.work_per_unit())
    }
}

impl<'r> BoundedRegex<'r> {
    /// Returns the work bound. In any encoding, `work_per_unit` × (n + 1) work suffices for all
    /// matches in a text of n units.
    pub fn work_per_unit(&self) -> u64
        ensures number { result ≡ self.now.per_unit }
        ensures enough { IsHigherOfProgramWorkBounds self.now.re result }
    {
        max_of_two(self.bytes.per_unit(), self.units.per_unit())
    }

    /// Returns an iterator over the matches in `text` from byte offset `start` on, like
    /// `Regex::find_from`. All items together take at most `work` work.
    ///
    /// The items are the list of matches, or a beginning of it followed by an error. After the last
    /// item, each call returns `None`. The error is `WorkLimit` if more work is needed than is
    /// left; then no work is left. It never occurs if `work` is at least `work_per_unit` × (n + 1)
    /// for a text of n bytes. The error is `Memory` if an allocation fails. The iterator's
    /// `work_left` returns how much work is left.
    ///
    /// A search for all matches of `a` in `ba` takes 3 units of work. With 2 units, the only item is
    /// `WorkLimit` (tested in `test_searches`).
    ///
    /// The clause `yields` says that the iterator yields the list of matches, and when the work
    /// suffices for all of it. The clause `begins` says what determines the cost of its first call.
    /// The clauses `in_text`, `ended` and `refused` say that the matches are in the text and
    /// ordered, whether the iterator has ended at once, and what an error means.
    ///
    /// # Errors
    ///
    /// `Memory` if an allocation fails.
    pub fn find_from<'t>(
        &self,
        text: &'t str,
        start: usize,
        work: u64,
    ) -> Result<MatchesInWork<'r, Utf8Input<'t>>, SearchError>
        requires { IsCharBoundary text.now start ⊎ (length text.now < start) }
        ensures yields { IfOk result (λ it. YieldsMatchesIfWorkSuffices (tree_for_byte_units self.now.re)
            (bytes_as_utf8_text self.now.re text.now) start self.now.per_unit work (without_costs it)) }
        ensures begins { let e = ⟦<BoundedExecutor<'r, Utf8Input<'t>> as SearchState>⟧ in
            IfOk result (IteratorBeginsSearches e (tree_for_byte_units self.now.re)
            (bytes_as_utf8_text self.now.re text.now) start) }
        ensures in_text { IfOk result (λ it. MatchesFitTextInOrderFrom text.now start it.remaining.answers) }
        ensures ended { IfOk result (λ it. it.remaining.ended ≡ is_past start (length text.now)) }
        ensures refused { IfErr result IsOutOfMemory }
    {
        let program = self.re.byte_program();
        let bound = &self.bytes;
        let matches = BoundedExecutor::<Utf8Input>::matches_utf8(
            program, bound, text, start, work,
        )?;
        Ok(matches)
    }

    /// Like `find_from`, in ASCII text (`is_ascii`).
    ///
    /// The contract is that of `find_from`, for the text as ASCII.
    ///
    /// # Errors
    ///
    /// The same as `find_from`.
    pub fn find_from_ascii<'t>(
        &self,
        text: &'t str,
        start: usize,
        work: u64,
    ) -> Result<MatchesInWork<'r, AsciiInput<'t>>, SearchError>
        requires { IsAscii text.now }
        ensures yields { IfOk result (λ it. YieldsMatchesIfWorkSuffices (tree_for_byte_units self.now.re)
            (bytes_as_ascii_text self.now.re text.now) start self.now.per_unit work (without_costs it)) }
        ensures begins { let e = ⟦<BoundedExecutor<'r, AsciiInput<'t>> as SearchState>⟧ in
            IfOk result (IteratorBeginsSearches e (tree_for_byte_units self.now.re)
            (bytes_as_ascii_text self.now.re text.now) start) }
        ensures in_text { IfOk result (λ it. MatchesFitTextInOrderFrom text.now start it.remaining.answers) }
        ensures ended { IfOk result (λ it. it.remaining.ended ≡ is_past start (length text.now)) }
        ensures refused { IfErr result IsOutOfMemory }
    {
        let program = self.re.byte_program();
        let bound = &self.bytes;
        let matches = BoundedExecutor::<AsciiInput>::matches_ascii(
            program, bound, text, start, work,
        )?;
        Ok(matches)
    }

    /// Like `find_from`, in UTF-16 text. `start` is an offset in code units that does not split a
    /// surrogate pair (`is_unit_boundary`), or is past the end.
    ///
    /// # Errors
    ///
    /// The same as `find_from`.
    pub fn find_from_utf16<'t>(
        &self,
        text: &'t [u16],
        start: usize,
        work: u64,
    ) -> Result<MatchesInWork<'r, Utf16Input<'t>>, SearchError>
        requires { IsTrue (is_unit_boundary text.now start) ⊎ (length text.now < start) }
        ensures yields { IfOk result (λ it. YieldsMatchesIfWorkSuffices (tree_for_16_bit_units self.now.re)
            (units_as_utf16_text self.now.re text.now) start self.now.per_unit work (without_costs it)) }
        ensures begins { let e = ⟦<BoundedExecutor<'r, Utf16Input<'t>> as SearchState>⟧ in
            IfOk result (IteratorBeginsSearches e (tree_for_16_bit_units self.now.re)
            (units_as_utf16_text self.now.re text.now) start) }
        ensures ended { IfOk result (λ it. it.remaining.ended ≡ is_past start (length text.now)) }
        ensures refused { IfErr result IsOutOfMemory }
    {
        let program = self.re.unit_program();
        let bound = &self.units;
        let matches = BoundedExecutor::<Utf16Input>::matches_utf16(
            program, bound, text, start, work,
        )?;
        Ok(matches)
    }

    /// Like `find_from`, in UCS-2 text, in which each code unit is a character. `start` is in code
    /// units.
    ///
    /// # Errors
    ///
    /// The same as `find_from`.
    pub fn find_from_ucs2<'t>(
        &self,
        text: &'t [u16],
        start: usize,
        work: u64,
    ) -> Result<MatchesInWork<'r, Ucs2Input<'t>>, SearchError>
        ensures yields { IfOk result (λ it. YieldsMatchesIfWorkSuffices (tree_for_16_bit_units self.now.re)
            (units_as_ucs2_text self.now.re text.now) start self.now.per_unit work (without_costs it)) }
        ensures begins { let e = ⟦<BoundedExecutor<'r, Ucs2Input<'t>> as SearchState>⟧ in
            IfOk result (IteratorBeginsSearches e (tree_for_16_bit_units self.now.re)
            (units_as_ucs2_text self.now.re text.now) start) }
        ensures ended { IfOk result (λ it. it.remaining.ended ≡ is_past start (length text.now)) }
        ensures refused { IfErr result IsOutOfMemory }
    {
        let program = self.re.unit_program();
        let bound = &self.units;
        let matches = BoundedExecutor::<Ucs2Input>::matches_ucs2(
            program, bound, text, start, work,
        )?;
        Ok(matches)
    }
}

// Returns the higher of two numbers.
fn max_of_two(a: u64, b: u64) -> u64
    ensures { result ≡ max_of_two a b }
{
    if a < b { b } else { a }
}
