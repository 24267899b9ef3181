//! Compiled patterns, and their searches.

ghost use Rattle.regex_meaning.specs.CodeUnitOffsets.{is_past};
ghost use Rattle.std.specs.Prelude.{◌≡◌, ◌<◌, ◌⊎◌, IfErr, IfOk, IfSome, IsAscii, IsCharBoundary, chars, false, length, nat_le, not, option_map, slice_get, []};
ghost use Rattle.regex_meaning.specs.FlagLettersAndEscaping.{flags_from_letters};
ghost use Rattle.regex_parser.specs.SyntaxDialects.{spec_syntax_of};
ghost use Rattle.regex_pattern_front.specs.AstToSpecTree.{tree_of};
ghost use Rattle.regress_search.specs.MatchesAsSpecAnswers.{answer_of};
ghost use Rattle.regress_bounded.specs.CostsOfAttempts.{IteratorBeginsSearches};
ghost use Rattle.regress_match.specs.CompileErrors.{IsOutOfMemory, IsPatternRefusedWith, IsPatternRefusedWithSyntax};
ghost use Rattle.regress_match.specs.ExpansionsAndMatchRanges.{MatchFitsText, MatchesFitTextInOrderFrom};
ghost use Rattle.regress_match.specs.SearchResults.{YieldsMatches};

use crate::api::diagnosis::code_points;
use crate::api::{Error, Flags, Syntax};
use crate::executor_aliases::{
    DefaultAsciiExecutor, DefaultExecutor, LimitedExecutor, WorkLimitedExecutor,
    search_with_executor_from,
};
use regex_parser::parse::try_parse_in;
use regress_input::indexing::{AsciiInput, Utf8Input};
use regress_program::emit::emit_both;
use regress_program::insn::{CompiledRegex, CompiledRegexFor16BitUnits};
use regress_search::exec;
use regress_search::exec::{Match, MatchProducer, SearchError, SearchState};
use std::alloc::{AllocError, Global};

/// An iterator over the matches of a pattern in a UTF-8 text. Contracts see the remaining answers.
pub type Matches<'r, 't> = exec::Matches<DefaultExecutor<'r, 't>>;

/// An iterator over the matches of a pattern in an ASCII text. Contracts see the remaining answers.
pub type AsciiMatches<'r, 't> = exec::Matches<DefaultAsciiExecutor<'r, 't>>;

/// An iterator over the matches of a pattern in a UTF-8 text, within a step budget. Contracts see
/// the remaining answers, and whether `StepLimit` follows them instead of the end.
pub type LimitedMatches<'r, 't> = exec::Matches<LimitedExecutor<'r, 't>>;

/// An iterator over the matches of a pattern in a text, within a work limit. Contracts see the
/// remaining answers, how much work is left, and what determines the cost of the next call.
pub type WorkLimitedMatches<'r, Input> = exec::WorkMatches<WorkLimitedExecutor<'r, Input>>;

/// A compiled pattern.
#[derive(Drop)]
pub struct Regex {
    // The program for texts of bytes.
    byte_program: CompiledRegex,
    // The program for texts of 16-bit code units.
    unit_program: CompiledRegexFor16BitUnits,
}

impl Regex {
    ghost use Rattle.regress_match.specs.PublicFlagsAsSpecFlags.{spec_flags_of};
    ghost use Rattle.regress_match.specs.ProgramTreesAndAnswers.{IsCompiledWith, IsCompiledWithSyntax, bytes_as_ascii_text, bytes_as_utf8_text, ascii_answers, tree_for_byte_units, utf8_steps_suffice};
    ghost use Rattle.regress_match.specs.ProgramTreesAndAnswers.{tree_for_16_bit_units, utf8_answers, utf8_answers_within_steps};

    /// Compiles a pattern with the default flags (`crates/use_dates` compiles `\d{4}-\d\d-\d\d`).
    ///
    /// # Errors
    ///
    /// The same as `with_flags`.
    pub fn new(alloc: Global, pattern: &str) -> Result<Regex, Error>
        ensures compiled { IfOk result (IsCompiledWith (flags_from_letters []) (chars pattern.now)) }
        ensures refused { IfErr result (IsPatternRefusedWith (flags_from_letters []) (chars pattern.now)) }
    {
        Regex::with_flags(alloc, pattern, Flags::default())
    }

    /// Compiles a pattern with the default flags, like `new`.
    ///
    /// # Errors
    ///
    /// The same as `with_flags`.
    pub fn from_str(alloc: Global, pattern: &str) -> Result<Regex, Error>
        ensures compiled { IfOk result (IsCompiledWith (flags_from_letters []) (chars pattern.now)) }
        ensures refused { IfErr result (IsPatternRefusedWith (flags_from_letters []) (chars pattern.now)) }
    {
        Regex::new(alloc, pattern)
    }

    /// Compiles a pattern with the given flags.
    ///
    /// Parses the pattern, emits the program for 16-bit code units, optimizes the tree unless
    /// `no_opt` is set, and emits the program for bytes. `docs/PROFILE.md` lists the supported
    /// patterns.
    ///
    /// # Errors
    ///
    /// - `Parse` if the text is not a valid pattern; `Error::diagnosis` returns what is wrong with
    ///   it, and where.
    /// - `Emit` if it opens more than 65,535 groups, or its tree has too many loops or
    ///   instructions.
    /// - `Memory` if an allocation fails in any of these stages.
    pub fn with_flags(alloc: Global, pattern: &str, flags: Flags) -> Result<Regex, Error>
        ensures compiled { IfOk result (IsCompiledWith (spec_flags_of flags) (chars pattern.now)) }
        ensures refused { IfErr result (IsPatternRefusedWith (spec_flags_of flags) (chars pattern.now)) }
    {
        Regex::with_syntax(alloc, pattern, flags, Syntax::Profile)
    }

    /// Compiles a pattern that is given as code points, like `with_flags`.
    ///
    /// # Errors
    ///
    /// The same as `with_flags`.
    pub fn from_unicode(alloc: Global, pattern: &[u32], flags: Flags) -> Result<Regex, Error>
        ensures compiled { IfOk result (IsCompiledWith (spec_flags_of flags) pattern.now) }
        ensures refused { IfErr result (IsPatternRefusedWith (spec_flags_of flags) pattern.now) }
    {
        Regex::from_unicode_with_syntax(alloc, pattern, flags, Syntax::Profile)
    }

    /// Compiles a pattern of a syntax with the given flags.
    ///
    /// `Syntax::Profile` is the language of `with_flags`. `Syntax::EcmaScript2018` is the whole
    /// language of ECMAScript 2018 with annex B. A pattern of the profile may have another meaning
    /// in it: with `i`, for example, letters outside ASCII are folded too.
    ///
    /// # Errors
    ///
    /// The same as `with_flags`. `Parse` means that the text is not a pattern of the syntax.
    pub fn with_syntax(
        alloc: Global,
        pattern: &str,
        flags: Flags,
        syntax: Syntax,
    ) -> Result<Regex, Error>
        ensures compiled { IfOk result (IsCompiledWithSyntax (spec_syntax_of syntax) (spec_flags_of flags)
            (chars pattern.now)) }
        ensures refused { IfErr result (IsPatternRefusedWithSyntax (spec_syntax_of syntax) (spec_flags_of flags)
            (chars pattern.now)) }
    {
        let code_points = code_points(alloc, pattern)?;
        Regex::from_unicode_with_syntax(alloc, &code_points, flags, syntax)
    }

    /// Compiles a pattern that is given as code points, like `with_syntax`.
    ///
    /// # Errors
    ///
    /// The same as `with_syntax`.
    pub fn from_unicode_with_syntax(
        alloc: Global,
        pattern: &[u32],
        flags: Flags,
        syntax: Syntax,
    ) -> Result<Regex, Error>
        ensures compiled { IfOk result (IsCompiledWithSyntax (spec_syntax_of syntax) (spec_flags_of flags)
            pattern.now) }
        ensures refused { IfErr result (IsPatternRefusedWithSyntax (spec_syntax_of syntax) (spec_flags_of flags)
            pattern.now) }
    {
        let parsed = try_parse_in(alloc, pattern, flags.for_front(), syntax)?;
        let (byte_program, unit_program) = emit_both(alloc, parsed)?;
        Ok(Regex {
            byte_program,
            unit_program,
        })
    }

    /// Creates a pattern that searches texts of bytes with `byte_program` and texts of 16-bit code
    /// units with `unit_program`. It does not allocate.
    pub fn from_programs(
        byte_program: CompiledRegex,
        unit_program: CompiledRegexFor16BitUnits,
    ) -> Regex
        ensures bytes { tree_for_byte_units result ≡ tree_of byte_program }
        ensures units { tree_for_16_bit_units result ≡ tree_of unit_program }
    {
        Regex {
            byte_program,
            unit_program,
        }
    }

    /// Returns an equal pattern.
    ///
    /// # Errors
    ///
    /// `AllocError` if an allocation for its programs fails.
    pub fn clone(&self) -> Result<Self, AllocError>
        ensures { IfOk result (λ re. re ≡ self.now) }
    {
        Ok(Regex {
            byte_program: self.byte_program.clone()?,
            unit_program: self.unit_program.clone()?,
        })
    }

    // Returns the allocator of its programs.
    pub(super) fn allocator(&self) -> Global {
        self.byte_program.allocator()
    }

    // Returns the program that searches texts of bytes.
    pub(crate) fn byte_program(&self) -> &CompiledRegex
        ensures { result.now ≡ self.now.byte_program }
    {
        &self.byte_program
    }

    // Returns the program that searches texts of 16-bit code units.
    pub(super) fn unit_program(&self) -> &CompiledRegexFor16BitUnits
        ensures { result.now ≡ self.now.unit_program }
    {
        &self.unit_program
    }

    /// Returns the first match in `text`, or `None` exactly if there is none.
    ///
    /// The first match of `(aa|aabaac|ba|b|c)*` in `aabaac` is `0..4`, with the group `2..4`
    /// (tested in `test_searches`).
    ///
    /// # Errors
    ///
    /// `Memory` if an allocation for the search fails.
    pub fn find(&self, text: &str) -> Result<Option<Match>, SearchError>
        ensures first { IfOk result (λ m. option_map answer_of m ≡ slice_get (utf8_answers self.now text.now 0) 0) }
        ensures fits { IfOk result (λ m. IfSome m (λ found. MatchFitsText text.now (answer_of found))) }
        ensures refused { IfErr result IsOutOfMemory }
    {
        first(self.find_iter(text)?)
    }

    /// Returns the first match in an ASCII text (`is_ascii`), or `None` exactly if there is none.
    ///
    /// # Errors
    ///
    /// `Memory` if an allocation for the search fails.
    pub fn find_ascii(&self, text: &str) -> Result<Option<Match>, SearchError>
        requires { IsAscii text.now }
        ensures first { IfOk result (λ m. option_map answer_of m ≡ slice_get (ascii_answers self.now text.now 0) 0) }
        ensures fits { IfOk result (λ m. IfSome m (λ found. MatchFitsText text.now (answer_of found))) }
        ensures refused { IfErr result IsOutOfMemory }
    {
        first(self.find_iter_ascii(text)?)
    }

    /// Returns an iterator over the matches in `text`, from its beginning.
    ///
    /// The matches of `a*` in `aab` are `0..2`, `2..2` and `3..3` (tested in `test_searches`).
    ///
    /// # Errors
    ///
    /// `Memory` if an allocation for the search fails.
    pub fn find_iter<'r, 't>(&'r self, text: &'t str) -> Result<Matches<'r, 't>, SearchError>
        ensures answers { IfOk result (YieldsMatches (tree_for_byte_units self.now)
            (bytes_as_utf8_text self.now text.now) 0) }
        ensures in_text { IfOk result (λ it. MatchesFitTextInOrderFrom text.now 0 it.answers) }
        ensures not_ended { IfOk result (λ it. it.ended ≡ false) }
        ensures refused { IfErr result IsOutOfMemory }
    {
        self.find_from(text, 0)
    }

    /// Returns an iterator over the matches in an ASCII text (`is_ascii`), from its beginning.
    ///
    /// # Errors
    ///
    /// `Memory` if an allocation for the search fails.
    pub fn find_iter_ascii<'t>(&self, text: &'t str) -> Result<AsciiMatches<'_, 't>, SearchError>
        requires { IsAscii text.now }
        ensures answers { IfOk result (YieldsMatches (tree_for_byte_units self.now)
            (bytes_as_ascii_text self.now text.now) 0) }
        ensures in_text { IfOk result (λ it. MatchesFitTextInOrderFrom text.now 0 it.answers) }
        ensures not_ended { IfOk result (λ it. it.ended ≡ false) }
        ensures refused { IfErr result IsOutOfMemory }
    {
        self.find_from_ascii(text, 0)
    }

    /// Returns an iterator over the matches in `text` from byte offset `start` on, which is a
    /// character boundary (`is_char_boundary`) or past the end. Past the end there are no matches.
    ///
    /// The text before `start` is part of the text: `^` does not match at `start`, and a lookbehind
    /// reads what precedes it. The matches of `(?<=x)y` in `xyxy` from 1 on are `1..2` and `3..4`
    /// (tested in `test_searches`).
    ///
    /// # Errors
    ///
    /// `Memory` if an allocation for the search fails.
    pub fn find_from<'r, 't>(
        &'r self,
        text: &'t str,
        start: usize,
    ) -> Result<Matches<'r, 't>, SearchError>
        requires { IsCharBoundary text.now start ⊎ (length text.now < start) }
        ensures answers { IfOk result (YieldsMatches (tree_for_byte_units self.now)
            (bytes_as_utf8_text self.now text.now) start) }
        ensures in_text { IfOk result (λ it. MatchesFitTextInOrderFrom text.now start it.answers) }
        ensures ended { IfOk result (λ it. it.ended ≡ is_past start (length text.now)) }
        ensures refused { IfErr result IsOutOfMemory }
    {
        search_with_executor_from::<DefaultExecutor<'r, 't>>(&self.byte_program, text, start)
    }

    /// Like `find_from`, but all items together take at most `steps` steps.
    ///
    /// A match is returned exactly if the steps suffice for it and the matches before it. `None` is
    /// returned if they also suffice for finding the end of the list. Otherwise the next item is
    /// `StepLimit`, and no item follows it. The number of steps depends only on the pattern's tree
    /// and the text, not on the time that a search takes. It may be more than any `u64`.
    ///
    /// A search for `[b]c` in `aabbc` needs five steps. With four, the first item is `StepLimit`
    /// (tested in `test_searches`).
    ///
    /// The clauses `answers` and `limited` say which matches the iterator returns, and whether
    /// `StepLimit` follows. The clauses `in_text` and `ended` say that the matches are in the text
    /// and ordered, and whether the iterator has ended at once. The clause `refused` says what an
    /// error means.
    ///
    /// # Errors
    ///
    /// `Memory` if an allocation for the search fails.
    pub fn find_from_limited<'r, 't>(
        &'r self,
        text: &'t str,
        start: usize,
        steps: u64,
    ) -> Result<LimitedMatches<'r, 't>, SearchError>
        requires { IsCharBoundary text.now start ⊎ (length text.now < start) }
        ensures answers { IfOk result (λ it. it.answers
            ≡ utf8_answers_within_steps steps self.now text.now start) }
        ensures in_text { IfOk result (λ it. MatchesFitTextInOrderFrom text.now start it.answers) }
        ensures limited { IfOk result (λ it. it.limited
            ≡ not (utf8_steps_suffice steps self.now text.now start)) }
        ensures ended { IfOk result (λ it. it.ended ≡ is_past start (length text.now)) }
        ensures refused { IfErr result IsOutOfMemory }
    {
        let executor = LimitedExecutor::new(&self.byte_program, text, steps)?;
        let matches = exec::Matches::new(executor, start);
        Ok(matches)
    }

    /// Like `find_from`, but all items together take at most `work` units of work.
    ///
    /// A unit of work is an executed operation, a character that a loop over one character tries, a
    /// code unit that a backreference compares, a resumed choice point, or a code unit that the
    /// search skips: a skip from offset p to offset q costs q - p. No clause says which starts are
    /// skipped: those that a prefilter excludes, and after a failed attempt the positions in a
    /// leading loop, whatever work is left. A call of `next` without an error takes exactly a cost of
    /// its search. The item is `WorkLimit` only if a beginning of the search costs more than is left;
    /// then no work is left, and no item follows. The law `calls_within_work_return_matches` states the
    /// results of successive calls. The iterator's `work_left` returns how much work is left.
    ///
    /// No number suffices for all texts, because a search may take exponential work: failures are
    /// not recorded. `BoundedRegex` has a number that suffices, for patterns with a known bound.
    ///
    /// Finding the first match of `a*b` in `aab` takes 6 units of work. With 5, the first item is
    /// `WorkLimit` (tested in `test_searches`).
    ///
    /// The clauses `answers` and `left` say which matches the iterator has to yield, and how much
    /// work is left. The clause `begins` says what determines the cost of its first call; what each
    /// call returns and costs is `NextYieldsAtCost` of its `next`. The clauses `in_text`, `ended`
    /// and `refused` say that the matches are in the text and ordered, whether the iterator has
    /// ended at once, and what an error means.
    ///
    /// # Errors
    ///
    /// `Memory` if an allocation for the search fails.
    pub fn find_from_in_work<'r, 't>(
        &'r self,
        text: &'t str,
        start: usize,
        work: u64,
    ) -> Result<WorkLimitedMatches<'r, Utf8Input<'t>>, SearchError>
        requires { IsCharBoundary text.now start ⊎ (length text.now < start) }
        ensures answers { IfOk result (λ it. YieldsMatches (tree_for_byte_units self.now)
            (bytes_as_utf8_text self.now text.now) start it.remaining) }
        ensures left { IfOk result (λ it. it.left ≡ work) }
        ensures begins { let e = ⟦<WorkLimitedExecutor<'r, Utf8Input<'t>> as SearchState>⟧ in
            IfOk result (IteratorBeginsSearches e (tree_for_byte_units self.now)
            (bytes_as_utf8_text self.now text.now) start) }
        ensures in_text { IfOk result (λ it. MatchesFitTextInOrderFrom text.now start it.remaining.answers) }
        ensures ended { IfOk result (λ it. it.remaining.ended ≡ is_past start (length text.now)) }
        ensures refused { IfErr result IsOutOfMemory }
    {
        let executor = WorkLimitedExecutor::<Utf8Input>::new(&self.byte_program, text, work)?;
        let matches = exec::WorkMatches::new(executor, start);
        Ok(matches)
    }

    /// Returns an iterator over the matches in an ASCII text (`is_ascii`) from byte offset `start`
    /// on. Past the end there are no matches.
    ///
    /// # Errors
    ///
    /// `Memory` if an allocation for the search fails.
    pub fn find_from_ascii<'r, 't>(
        &'r self,
        text: &'t str,
        start: usize,
    ) -> Result<AsciiMatches<'r, 't>, SearchError>
        requires { IsAscii text.now }
        ensures answers { IfOk result (YieldsMatches (tree_for_byte_units self.now)
            (bytes_as_ascii_text self.now text.now) start) }
        ensures in_text { IfOk result (λ it. MatchesFitTextInOrderFrom text.now start it.answers) }
        ensures ended { IfOk result (λ it. it.ended ≡ is_past start (length text.now)) }
        ensures refused { IfErr result IsOutOfMemory }
    {
        search_with_executor_from::<DefaultAsciiExecutor<'r, 't>>(&self.byte_program, text, start)
    }

    /// Like `find_from_in_work`, in an ASCII text (`is_ascii`).
    ///
    /// # Errors
    ///
    /// The same as `find_from_in_work`.
    pub fn find_from_ascii_in_work<'r, 't>(
        &'r self,
        text: &'t str,
        start: usize,
        work: u64,
    ) -> Result<WorkLimitedMatches<'r, AsciiInput<'t>>, SearchError>
        requires { IsAscii text.now }
        ensures answers { IfOk result (λ it. YieldsMatches (tree_for_byte_units self.now)
            (bytes_as_ascii_text self.now text.now) start it.remaining) }
        ensures left { IfOk result (λ it. it.left ≡ work) }
        ensures begins { let e = ⟦<WorkLimitedExecutor<'r, AsciiInput<'t>> as SearchState>⟧ in
            IfOk result (IteratorBeginsSearches e (tree_for_byte_units self.now)
            (bytes_as_ascii_text self.now text.now) start) }
        ensures in_text { IfOk result (λ it. MatchesFitTextInOrderFrom text.now start it.remaining.answers) }
        ensures ended { IfOk result (λ it. it.remaining.ended ≡ is_past start (length text.now)) }
        ensures refused { IfErr result IsOutOfMemory }
    {
        let program = &self.byte_program;
        let executor = WorkLimitedExecutor::<AsciiInput>::new_ascii(program, text, work)?;
        let matches = exec::WorkMatches::new(executor, start);
        Ok(matches)
    }
}

// Returns the first of the remaining matches, or `None` if there is none.
fn first<P: MatchProducer + Drop>(
    mut matches: exec::Matches<P>,
) -> Result<Option<Match>, SearchError>
    ensures first { IfOk result (λ m. option_map answer_of m ≡ slice_get matches.answers 0) }
    ensures refused { matches.limited ≡ false → IfErr result IsOutOfMemory }
{
    matches.next().transpose()
}
