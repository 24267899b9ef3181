//! The executor with a limited amount of work.

ghost use Rattle.std.specs.Option.{ForSome};
ghost use Rattle.std.specs.Prelude.{◌≡◌, ◌≤◌, ◌<◌, ◌+◌, ◌-◌, ◌*◌, ◌/◌, ◌^◌, ℕ, IsAscii, IfErr, IfOk, IfSome, OnErr, OnOk, true, false, refl, min, option_map};
ghost use Rattle.std.proofs.Props.{props};
ghost use Rattle.regex_meaning.specs.Text.{ascii_text, ucs2_text, utf16_text, utf8_text};
ghost use Rattle.regex_meaning.specs.CodeUnitOffsets.{IsBoundary, units};
ghost use Rattle.regex_pattern_front.specs.AstToSpecTree.{tree_of};
ghost use Rattle.regress_machine.specs.SearchFindsFirstOutcomeAtPlace.{TreeProgramCanSearchText};
ghost use Rattle.regress_program.specs.{Leaps.{IsLeapRightForProgram}, TableKeysOfUnits.{is_16_bit_encoding}};
ghost use Rattle.regress_search.specs.{AttemptsAndStarts.{NextStartSkipsNoMatch}, CostsOfSearches.{units_skipped}, TreePlanAndText.{program_of}};
ghost use Rattle.regress_search.specs.declared.exec.SearchError.TheVariants.{Memory};
ghost use Rattle.regress_backtrack.specs.BudgetAccounting.{IsRefusedByBudget, IsTakenFromBudget};
ghost use Rattle.regress_backtrack.specs.{LeadingLoops.{MayPassLeadingLoop}, State.{current_thread_state_of}, WorkOfAttempts.{AttemptsCostAtMostTheirSteps, work_costs}};

use crate::attempts::attempt;
use crate::classicalbacktrack::{
    BacktrackExecutor, end_of_leading_loop, may_rescan_loop, next_candidate_start,
};
use crate::failure_memo::{NoMemo, StepsAndMemo};
use crate::leap_memory::LeapSchedule;
use crate::next_candidate_start_by_plan::is_candidate_start;
use crate::step_and_work_budgets::{FirstStage, OnlyStage, SearchStage, StepCounter, WorkBudget};
use regress_input::indexing::{AsciiInput, InputIndexer, Ucs2Input, Utf8Input, Utf16Input};
use regress_program::insn::{CompiledRegex, CompiledRegexFor16BitUnits, Program};
use regress_program::leading_char_loop::LeadingCharLoop;
use regress_program::leap::Leap;
use regress_search::exec::{
    ProducerFromProgramAndText, SearchError, SearchState, WorkLimitedProducer,
};
use regress_search::leaping::{LeapTarget, leap_target_within};
use regress_search::program_and_input::ProgramAndInput;
use regress_search::search_context::{
    PositionOf, SearchContext, offset_in_searched_text, position_in_searched_text, text_end,
};
use regress_search::search_loop::SingleAttemptExecutor;
use std::alloc::AllocError;
use std::marker::PhantomData;

/// Searches a text like `BacktrackExecutor`, but does at most a given amount of work for all matches
/// together. It records no failures.
///
/// Each attempt takes exactly what it costs (`work_costs`) from the work that is left, before that
/// work is done. Between attempts, a prefilter skips to the next candidate start. After a failed
/// attempt, the leading loop is skipped too, and a leap is made if one is due. A skip takes one unit
/// for each code unit that is skipped. What a search costs does not depend on the work that is left.
#[derive(Drop)]
pub struct WorkPayingExecutor<'r, Input: InputIndexer, Stage: SearchStage> {
    executor: BacktrackExecutor<'r, Input>,
    // The work that is left, and whether the last attempt was refused some.
    progress: StepsAndMemo<WorkBudget<Stage>, NoMemo>,
    // When leaps are made, and how far they may read ahead.
    leaps: LeapsWithinWork,
    // No work is left after some was refused.
    ghost spent: { progress.steps.out ≡ true → progress.steps.left ≡ 0 } by { Prim.hlevel props },
}

/// An executor that makes whole searches with a limited amount of work.
pub type WorkLimitedExecutor<'r, Input> = WorkPayingExecutor<'r, Input, OnlyStage>;

/// An executor that makes the first of two stages of a search, with a limited amount of work.
pub type FirstStageExecutor<'r, Input> = WorkPayingExecutor<'r, Input, FirstStage>;

/// The leaps of a search with a limited amount of work. They read at most as many units beyond the
/// starts to which they lead as units of work were paid before, so that what they read is paid for
/// whether or not the search goes on.
#[derive(Clone, Copy)]
struct LeapsWithinWork {
    schedule: LeapSchedule,
    // How much more this is than the work that is left is how many units leaps may read.
    covered: u64,
}

impl LeapsWithinWork {
    // Checks whether a leap precedes an attempt at an offset. None does before work was paid.
    #[inline(always)]
    fn is_leap_due(&self, at: usize, work: u64) -> bool
        ensures { result ≡ true → work < self.now.covered }
    {
        self.schedule.is_leap_due(at) && self.covered > work
    }

    // Returns the offset up to which a leap from an offset may search for a goal. The units beyond
    // its target are read twice.
    #[inline(always)]
    fn limit_of_leap(&self, from: usize, work: u64) -> usize
        ensures ahead { from ≤ result }
        ensures exact { result ≡ min (from + (self.now.covered - work) / 2) (2 ^ 64 - 1) }
    {
        from.saturating_add(((self.covered.saturating_sub(work)) / 2) as usize)
    }

    // Notes a leap from an offset that led to `target`. The units between it and the goal were read
    // twice.
    #[inline(always)]
    fn note_leap(&mut self, from: usize, target: LeapTarget)
        ensures { self.new.covered ≡ self.old.covered - min ((target.goal - target.to) * 2) (2 ^ 64 - 1) }
    {
        let ahead = target.goal.saturating_sub(target.to) as u64;
        self.covered = self.covered.saturating_sub(ahead.saturating_mul(2));
        self.schedule.schedule_next_leap(from, target);
    }
}

impl<'r, Input: InputIndexer, Stage: SearchStage> WorkPayingExecutor<'r, Input, Stage> {
    // Limits the work of an executor.
    fn from_executor(executor: BacktrackExecutor<'r, Input>, work: u64) -> Self
        ensures tree { tree_of result.executor.search.program.regex
            ≡ tree_of executor.entry.search.program.regex }
        ensures text { Input.text result.executor.search.searched.input
            ≡ Input.text executor.entry.search.searched.input }
        ensures left { result.progress.steps.left ≡ work }
    {
        let leaps = LeapsWithinWork {
            schedule: LeapSchedule::new(&executor.search.program.plan().leap),
            covered: work,
        };
        WorkPayingExecutor {
            executor,
            progress: StepsAndMemo {
                steps: WorkBudget {
                    left: work,
                    out: false,
                    stage: PhantomData,
                },
                memo: NoMemo,
                end: None,
            },
            leaps,
        }
    }

    /// Returns the program and the text that it searches.
    pub fn searched(&self) -> &ProgramAndInput<'r, Input>
        ensures { result.now ≡ self.now.executor.search.searched }
    {
        &self.executor.search.searched
    }
}

impl<'r, 't, Stage: SearchStage> WorkPayingExecutor<'r, Utf8Input<'t>, Stage> {
    /// Creates an executor that searches `text` with the program `re`, in at most `work` units of
    /// work.
    ///
    /// # Errors
    ///
    /// Returns `Err` if an allocation fails.
    pub fn new(re: &'r CompiledRegex, text: &'t str, work: u64) -> Result<Self, AllocError>
        ensures tree { IfOk result (λ e. ⟦<WorkPayingExecutor<'r, Utf8Input<'t>, Stage> as SearchState>⟧.tree e
            ≡ tree_of re.now) }
        ensures text { IfOk result (λ e. ⟦<WorkPayingExecutor<'r, Utf8Input<'t>, Stage> as SearchState>⟧.text e
            ≡ utf8_text text.now (tree_of re.now).flags.unicode) }
        ensures left { IfOk result (λ e. ⟦<WorkPayingExecutor<'r, Utf8Input<'t>, Stage> as SearchState>⟧.left e
            ≡ work) }
    {
        let executor = BacktrackExecutor::<Utf8Input>::new(re, text)?;
        Ok(WorkPayingExecutor::from_executor(executor, work))
    }
}

impl<'r, 't, Stage: SearchStage> WorkPayingExecutor<'r, AsciiInput<'t>, Stage> {
    /// Creates an executor that searches an ASCII text (`is_ascii`) with the program `re`, in at
    /// most `work` units of work.
    ///
    /// # Errors
    ///
    /// Returns `Err` if an allocation fails.
    pub fn new_ascii(re: &'r CompiledRegex, text: &'t str, work: u64) -> Result<Self, AllocError>
        requires { IsAscii text.now }
        ensures tree { IfOk result (λ e. ⟦<WorkPayingExecutor<'r, AsciiInput<'t>, Stage> as SearchState>⟧.tree e
            ≡ tree_of re.now) }
        ensures text { IfOk result (λ e. ⟦<WorkPayingExecutor<'r, AsciiInput<'t>, Stage> as SearchState>⟧.text e
            ≡ ascii_text text.now (tree_of re.now).flags.unicode) }
        ensures left { IfOk result (λ e. ⟦<WorkPayingExecutor<'r, AsciiInput<'t>, Stage> as SearchState>⟧.left e
            ≡ work) }
    {
        let executor = BacktrackExecutor::<AsciiInput>::new(re, text)?;
        Ok(WorkPayingExecutor::from_executor(executor, work))
    }
}

impl<'r, 't, Stage: SearchStage> WorkPayingExecutor<'r, Utf16Input<'t>, Stage> {
    /// Creates an executor that searches 16-bit units, read as UTF-16, with the program `re`, in
    /// at most `work` units of work.
    ///
    /// # Errors
    ///
    /// Returns `Err` if an allocation fails.
    pub fn new_utf16(
        re: &'r CompiledRegexFor16BitUnits,
        text: &'t [u16],
        work: u64,
    ) -> Result<Self, AllocError>
        ensures tree { IfOk result (λ e. ⟦<WorkPayingExecutor<'r, Utf16Input<'t>, Stage> as SearchState>⟧.tree e
            ≡ tree_of re.now) }
        ensures text { IfOk result (λ e. ⟦<WorkPayingExecutor<'r, Utf16Input<'t>, Stage> as SearchState>⟧.text e
            ≡ utf16_text text.now (tree_of re.now).flags.unicode) }
        ensures left { IfOk result (λ e. ⟦<WorkPayingExecutor<'r, Utf16Input<'t>, Stage> as SearchState>⟧.left e
            ≡ work) }
    {
        let executor = BacktrackExecutor::<Utf16Input>::new_utf16(re, text)?;
        Ok(WorkPayingExecutor::from_executor(executor, work))
    }
}

impl<'r, 't, Stage: SearchStage> WorkPayingExecutor<'r, Ucs2Input<'t>, Stage> {
    /// Creates an executor that searches 16-bit units, each of which is a character, with the
    /// program `re`, in at most `work` units of work.
    ///
    /// # Errors
    ///
    /// Returns `Err` if an allocation fails.
    pub fn new_ucs2(
        re: &'r CompiledRegexFor16BitUnits,
        text: &'t [u16],
        work: u64,
    ) -> Result<Self, AllocError>
        ensures tree { IfOk result (λ e. ⟦<WorkPayingExecutor<'r, Ucs2Input<'t>, Stage> as SearchState>⟧.tree e
            ≡ tree_of re.now) }
        ensures text { IfOk result (λ e. ⟦<WorkPayingExecutor<'r, Ucs2Input<'t>, Stage> as SearchState>⟧.text e
            ≡ ucs2_text text.now (tree_of re.now).flags.unicode) }
        ensures left { IfOk result (λ e. ⟦<WorkPayingExecutor<'r, Ucs2Input<'t>, Stage> as SearchState>⟧.left e
            ≡ work) }
    {
        let executor = BacktrackExecutor::<Ucs2Input>::new_ucs2(re, text)?;
        Ok(WorkPayingExecutor::from_executor(executor, work))
    }
}

impl<'r, Input: InputIndexer, Stage: SearchStage> SearchState
    for WorkPayingExecutor<'r, Input, Stage> {
    ghost tree = { λ e. tree_of e.executor.search.program.regex };

    ghost text = { λ e. Input.text e.executor.search.searched.input };

    ghost enough = { λ _. false };

    ghost out_of_work = { λ e. e.progress.steps.out };

    ghost left = { λ e. e.progress.steps.left };

    ghost counts_work = { true };

    ghost costs = { work_costs Input.Units.encoding };
}

impl<'r, Input: InputIndexer, Stage: SearchStage> SingleAttemptExecutor
    for WorkPayingExecutor<'r, Input, Stage> {
    type Input = Input;

    ghost groups = { λ e. (current_thread_state_of e.executor.memory 0 0).groups };

    ghost is_text = { λ e. Input.is_text e.executor.search.searched.input };

    fn program(&self) -> &Program {
        self.executor.program()
    }

    fn input(&self) -> &Input {
        self.executor.input()
    }

    fn attempt(&mut self, pos: Input::Position) -> Result<Option<Input::Position>, SearchError> {
        self.progress.steps.out = false;
        let executor = &mut self.executor;
        attempt(
            &executor.search,
            pos,
            &mut executor.memory,
            &mut self.progress,
        )
    }

    fn group_count(&self) -> usize {
        self.executor.group_count()
    }

    fn group(&self, id: usize) -> Option<(Input::Position, Input::Position)> {
        self.executor.group(id)
    }

    fn first_start_to_try_from(&self, pos: Input::Position) -> Option<Input::Position> {
        Some(pos)
    }

    fn next_start_after_failure(&self, tried: Input::Position) -> Option<Input::Position> {
        self.executor.search.searched.position_after_failure(tried)
    }

    fn skip_to_candidate(
        &mut self,
        from: Input::Position,
    ) -> Result<Option<Input::Position>, SearchError> {
        if self.executor.search.searched.is_anchored() {
            return Ok(Some(from));
        }
        let executor = &mut self.executor;
        let work = self.progress.steps.left;
        let (next, skipped) = skip_by_prefilter(&executor.search, &mut self.leaps, from, work);
        pay_or_refuse_search(&mut self.progress.steps, skipped)?;
        Ok(next)
    }

    fn skip_after_failure(
        &mut self,
        tried: Input::Position,
        next: Input::Position,
    ) -> Result<Option<Input::Position>, SearchError> {
        let executor = &mut self.executor;
        let leading_loop = executor.leading_loop;
        let work = self.progress.steps.left;
        let (start, skipped) = skip_past_loop(
            &executor.search,
            &mut self.leaps,
            leading_loop,
            tried,
            next,
            work,
        );
        pay_or_refuse_search(&mut self.progress.steps, skipped)?;
        Ok(start)
    }
}

// Pays for units of work. If fewer are left, the search is refused by the work limit: no work is
// left, and the result is an error. `SearchError` has no variant for the work limit.
// `is_work_exhausted` tells whether it was reached.
#[inline(always)]
fn pay_or_refuse_search<Stage: SearchStage>(
    work: &mut WorkBudget<Stage>,
    units: usize,
) -> Result<(), SearchError>
    ensures paid { let budget = ⟦<WorkBudget<Stage> as StepCounter>⟧.work in
        OnOk result (IsTakenFromBudget true units (budget work.old) (budget work.new)) }
    ensures refused { let budget = ⟦<WorkBudget<Stage> as StepCounter>⟧.work in
        OnErr result (IsRefusedByBudget true units (budget work.old) (budget work.new)) }
    ensures cause { IfErr result (λ e. e ≡ Memory) }
{
    if work.pay(units).is_err() {
        return Err(SearchError::Memory);
    }
    Ok(())
}

// Returns the next candidate start at `from` or later, and the number of code units that it skips.
// If this skip costs more than `work`, the result may be an earlier start that costs more too.
#[inline(always)]
fn skip_by_prefilter<W: SearchContext>(
    context: &W,
    leaps: &mut LeapsWithinWork,
    from: PositionOf<W>,
    work: u64,
) -> (Option<PositionOf<W>>, usize)
    requires at { IsBoundary (W.searching context.now).text (W.Input.Position.offset from) }
    requires executable { let w = W.searching context.now in TreeProgramCanSearchText (program_of w) w.tree w.text }
    ensures next { let w = W.searching context.now in let at = W.Input.Position.offset in
        NextStartSkipsNoMatch w.tree w.text (at from) (option_map at result.0) }
    ensures skipped { let at = W.Input.Position.offset in
        result.1 ≡ units_skipped (W.searching context.now).text (at from) (option_map at result.0) }
{
    let at = offset_in_searched_text(context, from);
    let limit = last_affordable_offset(context, at, work);
    let start = next_candidate_start_within(context, from, limit);
    let next = candidate_past_due_leap(context, leaps, start, work, limit);
    (next, units_to_start(context, at, next))
}

// Returns the next candidate start that is not in the leading loop, with which each match begins,
// and the number of code units that it skips. No match begins at `tried`. If this skip costs more
// than `work`, the result may be an earlier start that costs more too.
#[inline(always)]
fn skip_past_loop<W: SearchContext>(
    context: &W,
    leaps: &mut LeapsWithinWork,
    leading_loop: LeadingCharLoop,
    tried: PositionOf<W>,
    next: PositionOf<W>,
    work: u64,
) -> (Option<PositionOf<W>>, usize)
    requires { let at = W.Input.Position.offset in
        MayPassLeadingLoop (W.searching context.now) leading_loop.opens (at tried) (at next) }
    ensures next { let w = W.searching context.now in let at = W.Input.Position.offset in
        NextStartSkipsNoMatch w.tree w.text (at next) (option_map at result.0) }
    ensures skipped { let at = W.Input.Position.offset in
        result.1 ≡ units_skipped (W.searching context.now).text (at next) (option_map at result.0) }
{
    let at = offset_in_searched_text(context, next);
    let limit = last_affordable_offset(context, at, work);
    let start = candidate_past_loop(context, leading_loop, tried, next, limit);
    let to = candidate_past_due_leap(context, leaps, start, work, limit);
    (to, units_to_start(context, at, to))
}

// Makes a leap from a candidate start, if there is one and a leap is due. Returns the first
// candidate start from which the next goal may be reached. If it is past `limit`, the result may be
// an earlier start past `limit`.
#[inline(always)]
fn candidate_past_due_leap<W: SearchContext>(
    context: &W,
    leaps: &mut LeapsWithinWork,
    start: Option<PositionOf<W>>,
    work: u64,
    limit: usize,
) -> Option<PositionOf<W>>
    requires at { ForSome start (λ p. IsBoundary (W.searching context.now).text (W.Input.Position.offset p)) }
    requires executable { let w = W.searching context.now in TreeProgramCanSearchText (program_of w) w.tree w.text }
    ensures { let w = W.searching context.now in let at = W.Input.Position.offset in (from : ℕ)
        → NextStartSkipsNoMatch w.tree w.text from (option_map at start)
        → NextStartSkipsNoMatch w.tree w.text from (option_map at result) }
{
    let start = start?;
    if !leaps.is_leap_due(offset_in_searched_text(context, start), work) {
        return Some(start);
    }
    candidate_past_leap(context, leaps, start, work, limit)
}

// Does what `candidate_past_due_leap` does, if there is a candidate start and a leap is due.
#[inline(never)]
fn candidate_past_leap<W: SearchContext>(
    context: &W,
    leaps: &mut LeapsWithinWork,
    start: PositionOf<W>,
    work: u64,
    limit: usize,
) -> Option<PositionOf<W>>
    requires at { IsBoundary (W.searching context.now).text (W.Input.Position.offset start) }
    requires executable { let w = W.searching context.now in TreeProgramCanSearchText (program_of w) w.tree w.text }
    ensures { let w = W.searching context.now in let at = W.Input.Position.offset in
        NextStartSkipsNoMatch w.tree w.text (at start) (option_map at result) }
{
    let Some(leap) = &context.plan().leap else {
        return Some(start);
    };
    leap_to_candidate(context, leap, leaps, start, work, limit)
}

// Makes a leap from a candidate start, and returns the first candidate start where it leads.
// Contract: by `paid`, leaps read no more units ahead than were paid for.
#[inline(always)]
fn leap_to_candidate<W: SearchContext>(
    context: &W,
    leap: &Leap,
    leaps: &mut LeapsWithinWork,
    start: PositionOf<W>,
    work: u64,
    limit: usize,
) -> Option<PositionOf<W>>
    requires at { IsBoundary (W.searching context.now).text (W.Input.Position.offset start) }
    requires executable { let w = W.searching context.now in TreeProgramCanSearchText (program_of w) w.tree w.text }
    requires leap { let w = W.searching context.now in IsLeapRightForProgram (is_16_bit_encoding w.encoding)
        (program_of w) leap.now }
    ensures next { let w = W.searching context.now in let at = W.Input.Position.offset in
        NextStartSkipsNoMatch w.tree w.text (at start) (option_map at result) }
    ensures paid { work ≤ leaps.old.covered → work ≤ leaps.new.covered }
{
    let from = offset_in_searched_text(context, start);
    let reach = leaps.limit_of_leap(from, work);
    match leap_target_within(context, leap, from, reach) {
        Some(target) => {
            leaps.note_leap(from, target);
            let to = position_in_searched_text(context, target.to);
            next_candidate_start_within(context, to, limit)
        }
        None => {
            leaps.schedule.end_leaps();
            None
        }
    }
}

// Returns the last offset to which a skip from offset `at` costs at most `work`: the end of the text
// if `work` pays for the whole rest of the text.
#[inline(always)]
fn last_affordable_offset<W: SearchContext>(context: &W, at: usize, work: u64) -> usize
    requires { at ≤ units (W.searching context.now).text }
    ensures all { let end = units (W.searching context.now).text in end - at ≤ work → result ≡ end }
    ensures part { work < units (W.searching context.now).text - at → result ≡ at + work }
{
    let end = text_end(context);
    if work < (end - at) as u64 {
        at + work as usize
    } else {
        end
    }
}

// Returns the number of code units from offset `at` to the next start, or to the end of the text.
#[inline(always)]
fn units_to_start<W: SearchContext>(context: &W, at: usize, next: Option<PositionOf<W>>) -> usize
    requires end { at ≤ units (W.searching context.now).text }
    requires ahead { IfSome next (λ p. at ≤ W.Input.Position.offset p) }
    ensures { let offset = W.Input.Position.offset in
        result ≡ units_skipped (W.searching context.now).text at (option_map offset next) }
{
    match next {
        Some(start) => offset_in_searched_text(context, start) - at,
        None => text_end(context) - at,
    }
}

// Returns the first candidate start at `from` or later. If it is past `limit`, the result may be an
// earlier start past `limit`.
#[inline(always)]
fn next_candidate_start_within<W: SearchContext>(
    context: &W,
    from: PositionOf<W>,
    limit: usize,
) -> Option<PositionOf<W>>
    requires at { IsBoundary (W.searching context.now).text (W.Input.Position.offset from) }
    requires executable { let w = W.searching context.now in TreeProgramCanSearchText (program_of w) w.tree w.text }
    ensures { let w = W.searching context.now in let at = W.Input.Position.offset in
        NextStartSkipsNoMatch w.tree w.text (at from) (option_map at result) }
{
    if limit == text_end(context) {
        next_candidate_start(context, from)
    } else {
        next_start_by_single_tests(context, from, limit)
    }
}

// Does what `next_candidate_start_within` does, and tests no start past `limit`.
#[inline(never)]
fn next_start_by_single_tests<W: SearchContext>(
    context: &W,
    from: PositionOf<W>,
    limit: usize,
) -> Option<PositionOf<W>>
    requires at { IsBoundary (W.searching context.now).text (W.Input.Position.offset from) }
    requires executable { let w = W.searching context.now in TreeProgramCanSearchText (program_of w) w.tree w.text }
    ensures { let w = W.searching context.now in let at = W.Input.Position.offset in
        NextStartSkipsNoMatch w.tree w.text (at from) (option_map at result) }
{
    let mut start = from;
    'starts: while offset_in_searched_text(context, start) <= limit {
        if is_candidate_start(context, offset_in_searched_text(context, start)) {
            return Some(start);
        }
        start = context.input().next_right_pos(start)?;
    }
    Some(start)
}

// Returns the first candidate start at `next` or later that is not in the leading loop. No match
// begins at `tried`. If it is past `limit`, the result may be an earlier start past `limit`.
#[inline(always)]
fn candidate_past_loop<W: SearchContext>(
    context: &W,
    leading_loop: LeadingCharLoop,
    tried: PositionOf<W>,
    next: PositionOf<W>,
    limit: usize,
) -> Option<PositionOf<W>>
    requires { let at = W.Input.Position.offset in
        MayPassLeadingLoop (W.searching context.now) leading_loop.opens (at tried) (at next) }
    ensures { let w = W.searching context.now in let at = W.Input.Position.offset in
        NextStartSkipsNoMatch w.tree w.text (at next) (option_map at result) }
{
    let to = next_candidate_start_within(context, next, limit)?;
    let from = offset_in_searched_text(context, tried);
    if !may_rescan_loop(leading_loop, from, offset_in_searched_text(context, to)) {
        return Some(to);
    }
    next_start_past_loop_within(context, leading_loop.opens, tried, to, limit)
}

// Does what `candidate_past_loop` does, if `from` is a candidate start that may be in the loop.
#[inline(never)]
fn next_start_past_loop_within<W: SearchContext>(
    context: &W,
    opens: usize,
    tried: PositionOf<W>,
    from: PositionOf<W>,
    limit: usize,
) -> Option<PositionOf<W>>
    requires { let at = W.Input.Position.offset in
        MayPassLeadingLoop (W.searching context.now) opens (at tried) (at from) }
    ensures { let w = W.searching context.now in let at = W.Input.Position.offset in
        NextStartSkipsNoMatch w.tree w.text (at from) (option_map at result) }
{
    let past = end_of_leading_loop(context, opens, tried, from);
    next_candidate_start_within(context, past, limit)
}

impl<'r, Input: InputIndexer, Stage: SearchStage> WorkLimitedProducer
    for WorkPayingExecutor<'r, Input, Stage> {
    fn work_left(&self) -> u64 {
        self.progress.steps.left
    }

    fn is_work_exhausted(&self) -> bool {
        self.progress.steps.out
    }

    ghost is_counted = { refl };
}

/// A law: without backreferences, an attempt costs at most as many units of work as the machine's
/// search takes steps, and ends as this search does.
pub fn attempts_cost_at_most_their_steps()
    ensures { AttemptsCostAtMostTheirSteps }
{}
