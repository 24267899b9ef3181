//! The bounded executor: searches in two stages, within a work budget.

ghost use Rattle.std.specs.Prelude.{◌≡◌, ◌≤◌, ◌<◌, ◌^◌, ◌*◌, ◌+◌, ◌-◌, nat_le, IfErr, IfOk, IsAscii, None, false, min, refl, true};
ghost use Rattle.std.specs.Option.{ForSome, option_map_or};
ghost use Rattle.std.specs.Arc.{arc_value};
ghost use Rattle.std.specs.Coded.{codes};
ghost use Rattle.std.proofs.Props.{props};
ghost use Rattle.regex_meaning.specs.{CodeUnitOffsets.{IsBoundary, IsBoundaryOrPastEnd, is_past, units}, Text.{ascii_text, ucs2_text, utf16_text, utf8_text}};
ghost use Rattle.regex_pattern_front.specs.AstToSpecTree.{tree_of};
ghost use Rattle.regex_pattern_front.specs.contracts.ir.Node as node;
ghost use Rattle.regress_search.specs.AttemptsAndStarts.{end_with_groups, match_end_and_groups_at};
ghost use Rattle.regress_search.specs.CostsOfCalls.{without_costs};
ghost use Rattle.regress_search.specs.{CostsOfSearches.{SpendsExactCost}, MatchesWithinWork.{AttemptKeepsWorkEnough}};
ghost use Rattle.regress_search.specs.declared.exec.SearchError.TheVariants.{Memory};
ghost use Rattle.regress_pikevm.specs.States.{groups_as_offset_ranges};
ghost use Rattle.regress_backtrack.specs.{State.{current_thread_state_of}, WorkOfAttempts.{no_failures}};
ghost use Rattle.regress_bounded.specs.WorkBoundForAllMatches.{TreeHasWorkBound, HasMadeNoAttempt, YieldsMatchesIfWorkSuffices, first_stage_work_per_position};
ghost use Rattle.regress_bounded.specs.WorkBoundForAllMatches.{is_work_enough_for_text, second_stage_work_per_position};
ghost use Rattle.regress_bounded.specs.CostsOfAttempts.{AttemptCosts, NoFailuresAreKnown, IteratorBeginsSearches, failures_of};
ghost use Rattle.regress_bounded.specs.CostsOfStages.{costs_of_stages};

use crate::memoizing_executor::MemoizingExecutor;
use crate::work_bound::{FIRST_STAGE_WORK_PER_POSITION, WorkBound};
use regress_backtrack::classicalbacktrack::FirstStageExecutor;
use regress_input::indexing::{AsciiInput, InputIndexer, Ucs2Input, Utf8Input, Utf16Input};
use regress_input::position::PositionType;
use regress_program::insn::{CompiledRegex, CompiledRegexFor16BitUnits, Program};
use regress_search::exec::{SearchError, SearchState, WorkLimitedProducer, WorkMatches};
use regress_search::program_and_input::ProgramAndInput;
use regress_search::search_loop::{SingleAttemptExecutor, position_range_of_group};

/// Searches a text with a program that has a work bound. A limited amount of work is shared by all
/// matches.
///
/// A search has two stages. The first one has at most 16 units of work for each position of the text,
/// and executes attempts as `WorkLimitedExecutor` does: it remembers no failures, and skips starts. If
/// an attempt costs more than what is left of them, the second stage repeats it with the rest of the
/// work. It remembers failures (`MemoizingExecutor`), and makes all further attempts.
///
/// Only `WorkMatches` holds such an executor, and it reports an exhausted budget as `WorkLimit`. No
/// function returns the executor itself, because `SearchError` has no such variant.
#[derive(Drop)]
pub struct BoundedExecutor<'r, Input: InputIndexer> {
    first: FirstStageExecutor<'r, Input>,
    bound: WorkBound,
    // The work of the second stage, until that begins.
    reserve: u64,
    // Whether that is enough for all matches.
    enough: bool,
    // How much less work the first stage was given than 16 units for each position. It decides by the
    // full number whether it skips starts, so that costs do not depend on the budget.
    lacking: u64,
    // Whether the last attempt or skip of the first stage reached the limit of all work.
    out: bool,
    second: Option<MemoizingExecutor<'r, Input>>,
    ghost bounded: { TreeHasWorkBound (tree_of first.executor.search.program.regex) bound } by { Prim.hlevel props },
    ghost program: { ForSome second (λ m. m.searched.program.now
        ≡ first.executor.search.program.regex) } by { Prim.hlevel (props, codes, node.the_row.coded) },
    ghost text: { ForSome second (λ m. Input.text m.searched.input
        ≡ Input.text first.executor.search.searched.input) } by { Prim.hlevel props },
    ghost sum: { first.progress.steps.left + reserve < 2 ^ 64 },
    ghost suffices: { enough ≡ true → second_stage_work_per_position (arc_value bound.memo_analysis)
        * (units (Input.text first.executor.search.searched.input) + 1) ≤ reserve } by { Prim.hlevel props },
    ghost all_given: { 0 < lacking → reserve ≡ 0 } by { Prim.hlevel props },
    ghost spent: { out ≡ true → (first.progress.steps.left ≡ 0) × (reserve ≡ 0) } by { Prim.hlevel props },
}

impl<'r, Input: InputIndexer> SearchState for BoundedExecutor<'r, Input> {
    ghost tree = { λ e. tree_of e.first.executor.search.program.regex };

    ghost text = { λ e. Input.text e.first.executor.search.searched.input };

    ghost enough = { λ e. option_map_or (λ m. m.enough) e.second e.enough };

    ghost ahead = { λ e. option_map_or (λ m. m.ahead) e.second 0 };

    ghost out_of_work = { λ e. option_map_or (λ m. m.out) e.second e.out };

    ghost left = { λ e. option_map_or (λ m. m.progress.left) e.second
        (e.first.progress.steps.left + e.reserve) };

    ghost counts_work = { true };

    ghost failures = { λ e. option_map_or (λ m. failures_of m.progress.memo) e.second no_failures };

    ghost costs = { costs_of_stages Input.Units.encoding };
}

impl<'r, Input: InputIndexer> SingleAttemptExecutor for BoundedExecutor<'r, Input> {
    type Input = Input;

    ghost groups = { λ e. option_map_or (λ m. groups_as_offset_ranges Input.Position.offset m.groups.items) e.second
        (current_thread_state_of e.first.executor.memory 0 0).groups };

    ghost is_text = { λ e. Input.is_text e.first.executor.search.searched.input };

    fn program(&self) -> &Program {
        self.first.program()
    }

    fn input(&self) -> &Input {
        self.first.input()
    }

    fn attempt(&mut self, pos: Input::Position) -> Result<Option<Input::Position>, SearchError> {
        match &mut self.second {
            Some(second) => return second.attempt(pos),
            None => {}
        }
        self.out = false;
        let result = self.first.attempt(pos);
        if !self.first.is_work_exhausted() {
            return result;
        }
        if self.reserve == 0 {
            self.out = true;
            return result;
        }
        self.repeat_in_second_stage(pos)
    }

    fn group_count(&self) -> usize {
        match &self.second {
            Some(second) => second.groups.len(),
            None => self.first.group_count(),
        }
    }

    fn group(&self, id: usize) -> Option<(Input::Position, Input::Position)> {
        match &self.second {
            Some(second) => position_range_of_group(&second.groups, id),
            None => self.first.group(id),
        }
    }

    fn first_start_to_try_from(&self, pos: Input::Position) -> Option<Input::Position> {
        Some(pos)
    }

    fn next_start_after_failure(&self, tried: Input::Position) -> Option<Input::Position> {
        self.first.next_start_after_failure(tried)
    }

    fn skip_to_candidate(
        &mut self,
        from: Input::Position,
    ) -> Result<Option<Input::Position>, SearchError> {
        match &self.second {
            Some(_) => return Ok(Some(from)),
            None => {}
        }
        let end = self.first.input().unit_count();
        let left = self.first.work_left();
        if !pays_for_rest_of_text(end, from.to_offset(), left, self.lacking) {
            return Ok(Some(from));
        }
        let next = self.first.skip_to_candidate(from);
        self.out = next.is_err();
        next
    }

    fn skip_after_failure(
        &mut self,
        tried: Input::Position,
        next: Input::Position,
    ) -> Result<Option<Input::Position>, SearchError> {
        match &self.second {
            Some(_) => return Ok(Some(next)),
            None => {}
        }
        let end = self.first.input().unit_count();
        let left = self.first.work_left();
        if !pays_for_rest_of_text(end, next.to_offset(), left, self.lacking) {
            return Ok(Some(next));
        }
        let start = self.first.skip_after_failure(tried, next);
        self.out = start.is_err();
        start
    }
}

impl<'r, Input: InputIndexer> WorkLimitedProducer for BoundedExecutor<'r, Input> {
    fn work_left(&self) -> u64 {
        match &self.second {
            Some(second) => second.progress.left,
            None => self.first.work_left() + self.reserve,
        }
    }

    fn is_work_exhausted(&self) -> bool {
        match &self.second {
            Some(second) => second.out,
            None => self.out,
        }
    }

    ghost is_counted = { refl };
}

impl<'r, Input: InputIndexer> BoundedExecutor<'r, Input> {
    // Creates an executor that has made no attempt.
    // Contract: `first` searches a text of `unit_count` units, with `given` of the work. The other
    // clauses say what the executor has: this program and text, this work, whether it suffices for all
    // matches, and that it is in the first stage. An error is an allocation failure.
    fn from_first_stage(
        first: FirstStageExecutor<'r, Input>,
        given: u64,
        unit_count: usize,
        bound: &WorkBound,
        work: u64,
    ) -> Result<Self, SearchError>
        requires bound { TreeHasWorkBound (tree_of first.executor.search.program.regex) bound.now }
        requires unit_count { unit_count ≡ units (Input.text first.executor.search.searched.input) }
        requires left { first.progress.steps.left ≡ given }
        requires given { given ≡ min (first_stage_work_per_position * (unit_count + 1)) work }
        ensures program { IfOk result (λ e. e.first.executor.search.program.regex
            ≡ first.entry.executor.search.program.regex) }
        ensures text { IfOk result (λ e. Input.text e.first.executor.search.searched.input
            ≡ Input.text first.entry.executor.search.searched.input) }
        ensures left { IfOk result (λ e. e.first.progress.steps.left + e.reserve ≡ work) }
        ensures enough { IfOk result (λ e. e.enough ≡ is_work_enough_for_text bound.now.per_unit
            (Input.text first.entry.executor.search.searched.input) work) }
        ensures first_stage { IfOk result (λ e. e.second ≡ None) }
        ensures refused { IfErr result (λ e. e ≡ Memory) }
    {
        let enough = is_work_enough_for_places(bound.per_unit(), unit_count + 1, work);
        let bound = bound.clone()?;
        let reserve = work - given;
        let lacking = full_work_of_first_stage(unit_count).saturating_sub(given);
        Ok(BoundedExecutor {
            first,
            bound,
            reserve,
            enough,
            lacking,
            out: false,
            second: None,
        })
    }

    // Begins the second stage, and repeats the attempt there for which the first stage lacked work. It
    // is not inlined, because that happens at most once, and most attempts are made in the first stage.
    // Contract: the clauses are those of `SingleAttemptExecutor::attempt`, for an attempt of the second
    // stage that knows no failures and has the work that is left for it. By `first`, the program, the
    // text and the first stage stay the same.
    #[inline(never)]
    fn repeat_in_second_stage(
        &mut self,
        pos: Input::Position,
    ) -> Result<Option<Input::Position>, SearchError>
        requires at { IsBoundary (Input.text self.old.first.executor.search.searched.input)
            (Input.Position.offset pos) }
        requires first_stage { (self.old.second ≡ None) × (self.old.out ≡ false) }
        requires exhausted { self.old.first.progress.steps.out ≡ true }
        ensures found { let at = Input.Position.offset in IfOk result (λ end. end_with_groups at end
            (option_map_or (λ m. groups_as_offset_ranges at m.groups.items) self.new.second
            (current_thread_state_of self.new.first.executor.memory 0 0).groups) ≡ match_end_and_groups_at
            (tree_of self.old.first.executor.search.program.regex)
            (Input.text self.old.first.executor.search.searched.input) (at pos)) }
        ensures cause { IfErr result (λ e. e ≡ Memory) }
        ensures work { let at = Input.Position.offset in let second = self.new.second in
            AttemptKeepsWorkEnough at self.old.enough 0 (at pos) result
            (option_map_or (λ m. m.enough) second self.new.enough) (option_map_or (λ m. m.ahead) second 0)
            (option_map_or (λ m. m.out) second self.new.out) }
        ensures left { option_map_or (λ m. m.progress.left) self.new.second
            (self.new.first.progress.steps.left + self.new.reserve) ≤ self.old.reserve }
        ensures within { IfOk result (λ _. option_map_or (λ m. m.out) self.new.second self.new.out ≡ false) }
        ensures cost { let first = self.old.first.executor.search in let second = self.new.second in
            SpendsExactCost (AttemptCosts (tree_of first.program.regex) (Input.text first.searched.input) no_failures
            (Input.Position.offset pos)) self.old.reserve result (option_map_or (λ m. m.out) second self.new.out)
            (option_map_or (λ m. m.progress.left) second (self.new.first.progress.steps.left + self.new.reserve))
            (option_map_or (λ m. failures_of m.progress.memo) second no_failures) }
        ensures first { self.new.first ≡ self.old.first }
    {
        let mut second = self.new_second_stage()?;
        let result = second.attempt(pos);
        self.second = Some(second);
        result
    }

    // Creates the second stage, which has made no attempt and has the work that is left for it.
    #[inline(never)]
    fn new_second_stage(&self) -> Result<MemoizingExecutor<'r, Input>, SearchError>
        ensures program { IfOk result (λ m. m.searched.program.now ≡ self.now.first.executor.search.program.regex) }
        ensures text { IfOk result (λ m. Input.text m.searched.input
            ≡ Input.text self.now.first.executor.search.searched.input) }
        ensures left { IfOk result (λ m. m.progress.left ≡ self.now.reserve) }
        ensures enough { IfOk result (λ m. m.enough ≡ self.now.enough) }
        ensures ahead { IfOk result (λ m. m.ahead ≡ 0) }
        ensures fresh { IfOk result (λ m. NoFailuresAreKnown (failures_of m.progress.memo)) }
        ensures refused { IfErr result (λ e. e ≡ Memory) }
    {
        let searched = self.first.searched();
        let searched = ProgramAndInput {
            program: searched.program,
            anchored: searched.anchored,
            input: searched.input,
        };
        MemoizingExecutor::over(searched, &self.bound, self.reserve, self.enough)
    }
}

// Checks whether the first stage may skip starts from an offset on: whether what is left of the full
// number of units pays for a skip to the end of the text.
#[inline(always)]
fn pays_for_rest_of_text(end: usize, from: usize, left: u64, lacking: u64) -> bool
    ensures { result ≡ true → end ≤ from + (left + lacking) }
{
    end.saturating_sub(from) as u64 <= left.saturating_add(lacking)
}

// Returns the work of the first stage in a text of this number of units, of all the work.
fn first_stage_work(unit_count: usize, work: u64) -> u64
    ensures { result ≡ min (first_stage_work_per_position * (unit_count + 1)) work }
{
    full_work_of_first_stage(unit_count).min(work)
}

// Returns the units of work of the first stage if there are as many: 16 for each position.
fn full_work_of_first_stage(unit_count: usize) -> u64
    ensures { result ≡ min (first_stage_work_per_position * (unit_count + 1)) (2 ^ 64 - 1) }
{
    (unit_count as u64)
        .saturating_add(1)
        .saturating_mul(FIRST_STAGE_WORK_PER_POSITION)
}

// Checks whether `work` suffices for a text with this number of positions.
fn is_work_enough_for_places(per_unit: u64, places: usize, work: u64) -> bool
    ensures { result ≡ nat_le (per_unit * places) work }
{
    match per_unit.checked_mul(places as u64) {
        Some(all) => all <= work,
        None => false,
    }
}

impl<'r, 't> BoundedExecutor<'r, Ucs2Input<'t>> {
    /// Returns an iterator over the matches of the program `re` in a UCS-2 text, from offset
    /// `start` (in code units) on. All matches together take at most `work` units of work. `start`
    /// is a boundary or past the end.
    ///
    /// The clause `yields` says that the iterator yields the list of matches, and when the work
    /// suffices for all of it. The clause `begins` says what determines the cost of its first call.
    /// The other clauses say whether it has ended at once, what an error means, and what the
    /// arguments have to be.
    ///
    /// # Errors
    ///
    /// Returns `Memory` if an allocation fails.
    pub fn matches_ucs2(
        re: &'r CompiledRegexFor16BitUnits,
        bound: &WorkBound,
        text: &'t [u16],
        start: usize,
        work: u64,
    ) -> Result<WorkMatches<Self>, SearchError>
        requires bound { TreeHasWorkBound (tree_of re.now) bound.now }
        requires start { IsBoundaryOrPastEnd (ucs2_text text.now (tree_of re.now).flags.unicode) start }
        ensures yields { IfOk result (λ it. YieldsMatchesIfWorkSuffices (tree_of re.now)
            (ucs2_text text.now (tree_of re.now).flags.unicode) start bound.now.per_unit work (without_costs it)) }
        ensures begins { let e = ⟦<BoundedExecutor<'r, Ucs2Input<'t>> as SearchState>⟧ in
            IfOk result (IteratorBeginsSearches e (tree_of re.now)
            (ucs2_text text.now (tree_of re.now).flags.unicode) start) }
        ensures ended { IfOk result (λ it. it.remaining.ended
            ≡ is_past start (units (ucs2_text text.now (tree_of re.now).flags.unicode))) }
        ensures refused { IfErr result (λ e. e ≡ Memory) }
    {
        let executor = BoundedExecutor::<Ucs2Input>::new_ucs2(re, bound, text, work)?;
        Ok(WorkMatches::new(executor, start))
    }

    // Creates an executor for a UCS-2 text with a budget of `work` units.
    fn new_ucs2(
        re: &'r CompiledRegexFor16BitUnits,
        bound: &WorkBound,
        text: &'t [u16],
        work: u64,
    ) -> Result<Self, SearchError>
        requires bound { TreeHasWorkBound (tree_of re.now) bound.now }
        ensures start { let e = ⟦<BoundedExecutor<'r, Ucs2Input<'t>> as SearchState>⟧ in
            IfOk result (HasMadeNoAttempt e (tree_of re.now) (ucs2_text text.now) bound.now work) }
        ensures refused { IfErr result (λ e. e ≡ Memory) }
    {
        let searched = ProgramAndInput::pair_with_ucs2_text(re, text);
        let unit_count = searched.input.unit_count();
        let given = first_stage_work(unit_count, work);
        let first = FirstStageExecutor::<Ucs2Input>::new_ucs2(re, text, given)?;
        BoundedExecutor::from_first_stage(first, given, unit_count, bound, work)
    }
}

impl<'r, 't> BoundedExecutor<'r, Utf8Input<'t>> {
    /// Returns an iterator over the matches of the program `re` in a UTF-8 text, from offset
    /// `start` (in code units) on. All matches together take at most `work` units of work. `start`
    /// is a boundary or past the end.
    ///
    /// The clause `yields` says that the iterator yields the list of matches, and when the work
    /// suffices for all of it. The clause `begins` says what determines the cost of its first call.
    /// The other clauses say whether it has ended at once, what an error means, and what the
    /// arguments have to be.
    ///
    /// # Errors
    ///
    /// Returns `Memory` if an allocation fails.
    pub fn matches_utf8(
        re: &'r CompiledRegex,
        bound: &WorkBound,
        text: &'t str,
        start: usize,
        work: u64,
    ) -> Result<WorkMatches<Self>, SearchError>
        requires bound { TreeHasWorkBound (tree_of re.now) bound.now }
        requires start { IsBoundaryOrPastEnd (utf8_text text.now (tree_of re.now).flags.unicode) start }
        ensures yields { IfOk result (λ it. YieldsMatchesIfWorkSuffices (tree_of re.now)
            (utf8_text text.now (tree_of re.now).flags.unicode) start bound.now.per_unit work (without_costs it)) }
        ensures begins { let e = ⟦<BoundedExecutor<'r, Utf8Input<'t>> as SearchState>⟧ in
            IfOk result (IteratorBeginsSearches e (tree_of re.now)
            (utf8_text text.now (tree_of re.now).flags.unicode) start) }
        ensures ended { IfOk result (λ it. it.remaining.ended
            ≡ is_past start (units (utf8_text text.now (tree_of re.now).flags.unicode))) }
        ensures refused { IfErr result (λ e. e ≡ Memory) }
    {
        let executor = BoundedExecutor::<Utf8Input>::new_utf8(re, bound, text, work)?;
        Ok(WorkMatches::new(executor, start))
    }

    // Creates an executor for a UTF-8 text with a budget of `work` units.
    fn new_utf8(
        re: &'r CompiledRegex,
        bound: &WorkBound,
        text: &'t str,
        work: u64,
    ) -> Result<Self, SearchError>
        requires bound { TreeHasWorkBound (tree_of re.now) bound.now }
        ensures start { let e = ⟦<BoundedExecutor<'r, Utf8Input<'t>> as SearchState>⟧ in
            IfOk result (HasMadeNoAttempt e (tree_of re.now) (utf8_text text.now) bound.now work) }
        ensures refused { IfErr result (λ e. e ≡ Memory) }
    {
        let searched = ProgramAndInput::pair_with_utf8_text(re, text);
        let unit_count = searched.input.unit_count();
        let given = first_stage_work(unit_count, work);
        let first = FirstStageExecutor::<Utf8Input>::new(re, text, given)?;
        BoundedExecutor::from_first_stage(first, given, unit_count, bound, work)
    }
}

impl<'r, 't> BoundedExecutor<'r, AsciiInput<'t>> {
    /// Returns an iterator over the matches of the program `re` in an ASCII text (`is_ascii`), from
    /// offset `start` (in code units) on. All matches together take at most `work` units of work.
    /// `start` is a boundary or past the end.
    ///
    /// The clause `yields` says that the iterator yields the list of matches, and when the work
    /// suffices for all of it. The clause `begins` says what determines the cost of its first call.
    /// The other clauses say whether it has ended at once, what an error means, and what the
    /// arguments have to be.
    ///
    /// # Errors
    ///
    /// Returns `Memory` if an allocation fails.
    pub fn matches_ascii(
        re: &'r CompiledRegex,
        bound: &WorkBound,
        text: &'t str,
        start: usize,
        work: u64,
    ) -> Result<WorkMatches<Self>, SearchError>
        requires bound { TreeHasWorkBound (tree_of re.now) bound.now }
        requires ascii { IsAscii text.now }
        requires start { IsBoundaryOrPastEnd (ascii_text text.now (tree_of re.now).flags.unicode) start }
        ensures yields { IfOk result (λ it. YieldsMatchesIfWorkSuffices (tree_of re.now)
            (ascii_text text.now (tree_of re.now).flags.unicode) start bound.now.per_unit work (without_costs it)) }
        ensures begins { let e = ⟦<BoundedExecutor<'r, AsciiInput<'t>> as SearchState>⟧ in
            IfOk result (IteratorBeginsSearches e (tree_of re.now)
            (ascii_text text.now (tree_of re.now).flags.unicode) start) }
        ensures ended { IfOk result (λ it. it.remaining.ended
            ≡ is_past start (units (ascii_text text.now (tree_of re.now).flags.unicode))) }
        ensures refused { IfErr result (λ e. e ≡ Memory) }
    {
        let executor = BoundedExecutor::<AsciiInput>::new_ascii(re, bound, text, work)?;
        Ok(WorkMatches::new(executor, start))
    }

    // Creates an executor for an ASCII text (`is_ascii`) with a budget of `work` units.
    fn new_ascii(
        re: &'r CompiledRegex,
        bound: &WorkBound,
        text: &'t str,
        work: u64,
    ) -> Result<Self, SearchError>
        requires bound { TreeHasWorkBound (tree_of re.now) bound.now }
        requires ascii { IsAscii text.now }
        ensures start { let e = ⟦<BoundedExecutor<'r, AsciiInput<'t>> as SearchState>⟧ in
            IfOk result (HasMadeNoAttempt e (tree_of re.now) (ascii_text text.now) bound.now work) }
        ensures refused { IfErr result (λ e. e ≡ Memory) }
    {
        let searched = ProgramAndInput::pair_with_ascii_text(re, text);
        let unit_count = searched.input.unit_count();
        let given = first_stage_work(unit_count, work);
        let first = FirstStageExecutor::<AsciiInput>::new_ascii(re, text, given)?;
        BoundedExecutor::from_first_stage(first, given, unit_count, bound, work)
    }
}

impl<'r, 't> BoundedExecutor<'r, Utf16Input<'t>> {
    /// Returns an iterator over the matches of the program `re` in a UTF-16 text, from offset
    /// `start` (in code units) on. All matches together take at most `work` units of work. `start`
    /// is a boundary or past the end.
    ///
    /// The clause `yields` says that the iterator yields the list of matches, and when the work
    /// suffices for all of it. The clause `begins` says what determines the cost of its first call.
    /// The other clauses say whether it has ended at once, what an error means, and what the
    /// arguments have to be.
    ///
    /// # Errors
    ///
    /// Returns `Memory` if an allocation fails.
    pub fn matches_utf16(
        re: &'r CompiledRegexFor16BitUnits,
        bound: &WorkBound,
        text: &'t [u16],
        start: usize,
        work: u64,
    ) -> Result<WorkMatches<Self>, SearchError>
        requires bound { TreeHasWorkBound (tree_of re.now) bound.now }
        requires start { IsBoundaryOrPastEnd (utf16_text text.now (tree_of re.now).flags.unicode) start }
        ensures yields { IfOk result (λ it. YieldsMatchesIfWorkSuffices (tree_of re.now)
            (utf16_text text.now (tree_of re.now).flags.unicode) start bound.now.per_unit work (without_costs it)) }
        ensures begins { let e = ⟦<BoundedExecutor<'r, Utf16Input<'t>> as SearchState>⟧ in
            IfOk result (IteratorBeginsSearches e (tree_of re.now)
            (utf16_text text.now (tree_of re.now).flags.unicode) start) }
        ensures ended { IfOk result (λ it. it.remaining.ended
            ≡ is_past start (units (utf16_text text.now (tree_of re.now).flags.unicode))) }
        ensures refused { IfErr result (λ e. e ≡ Memory) }
    {
        let executor = BoundedExecutor::<Utf16Input>::new_utf16(re, bound, text, work)?;
        Ok(WorkMatches::new(executor, start))
    }

    // Creates an executor for a UTF-16 text with a budget of `work` units.
    fn new_utf16(
        re: &'r CompiledRegexFor16BitUnits,
        bound: &WorkBound,
        text: &'t [u16],
        work: u64,
    ) -> Result<Self, SearchError>
        requires bound { TreeHasWorkBound (tree_of re.now) bound.now }
        ensures start { let e = ⟦<BoundedExecutor<'r, Utf16Input<'t>> as SearchState>⟧ in
            IfOk result (HasMadeNoAttempt e (tree_of re.now) (utf16_text text.now) bound.now work) }
        ensures refused { IfErr result (λ e. e ≡ Memory) }
    {
        let searched = ProgramAndInput::pair_with_utf16_text(re, text);
        let unit_count = searched.input.unit_count();
        let given = first_stage_work(unit_count, work);
        let first = FirstStageExecutor::<Utf16Input>::new_utf16(re, text, given)?;
        BoundedExecutor::from_first_stage(first, given, unit_count, bound, work)
    }
}
