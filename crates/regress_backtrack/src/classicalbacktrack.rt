//! The backtracking executor, which keeps one state and undoes the changes of failed threads.

ghost use Rattle.std.specs.Prelude.{◌≡◌, ◌≤◌, IsAscii, IfOk, option_map, ⊤};
ghost use Rattle.std.proofs.{Common.{refl}, Props.{props}};
ghost use Rattle.regex_meaning.specs.{CodeUnitOffsets.{IsBoundary}, Text.{ascii_text, utf8_text, utf16_text, ucs2_text}};
ghost use Rattle.regex_pattern_front.specs.AstToSpecTree.{tree_of};
ghost use Rattle.regress_search.specs.AttemptsAndStarts.{NextStartSkipsNoMatch};
ghost use Rattle.regress_search.specs.NewExecutorsAndAsciiTexts.{IsNewExecutor};
ghost use Rattle.regress_machine.specs.SearchFindsFirstOutcomeAtPlace.{TreeProgramCanSearchText};
ghost use Rattle.regress_program.specs.{TableKeysOfUnits.{is_16_bit_encoding}, LeadingCharLoops.{OnlyOpensGroups}};
ghost use Rattle.regress_search.specs.TreePlanAndText.{program_of};
ghost use Rattle.regress_memo.specs.MemoContents.{has_failure, has_success};
ghost use Rattle.regress_program.specs.CompilationOfTreesAsFunction.{compiled};
ghost use Rattle.regress_backtrack.specs.{State.{current_thread_state_of}, FailuresInMemoTable.{scheme_of}, ProgramsAndPlans.{executed_tree_of}};
ghost use Rattle.regress_backtrack.specs.{LeadingLoops.{MayPassLeadingLoop}, LeapMemory.{NoMatchBeforeRememberedLeap}};
ghost use Rattle.regress_backtrack.specs.FailureMemo.{AreFailuresSoundIn, AreEndsSoundIn, scheme_of_optional_memo, failures_of_optional_memo};

use crate::attempts::{attempt, retry_with_memo};
use crate::failure_memo::{NoMemo, StepsAndMemo};
use crate::failures_in_memo_table::CounterAndMemoForRetries;
use crate::leap_memory::{LeapMemory, make_leap_if_due};
use crate::next_candidate_start_by_plan::{first_candidate_start_from, is_candidate_start};
use crate::program_plan_and_text::{ProgramAndPlan, ProgramPlanAndText};
use crate::state::BacktrackState;
use crate::step_and_work_budgets::{UnlimitedCounter, WorkBounded};
pub use crate::step_limited::LimitedExecutor;
pub use crate::work_limited::{FirstStageExecutor, WorkLimitedExecutor};
use regress_input::indexing::{AsciiInput, InputIndexer, Ucs2Input, Utf8Input, Utf16Input};
use regress_input::position::PositionType;
use regress_program::insn::{CompiledRegex, CompiledRegexFor16BitUnits, Program};
use regress_program::leading_char_loop::LeadingCharLoop;
use regress_search::exec::{Executor, ProducerFromProgramAndText, SearchError, SearchState};
use regress_search::leading_char_loop::skip_leading_char_loop;
use regress_search::program_and_input::ProgramAndInput;
use regress_search::search_context::{
    PositionOf, SearchContext, offset_in_searched_text, position_in_searched_text,
};
use regress_search::search_loop::SingleAttemptExecutor;
use std::alloc::AllocError;

/// Executes a program's plan on a text. It keeps one state. When a thread fails, its changes to the
/// state are undone.
#[derive(Drop)]
pub struct BacktrackExecutor<'r, Input: InputIndexer> {
    pub(crate) search: ProgramPlanAndText<'r, Input>,
    // The state. It holds the groups of the last attempt that found an end.
    pub(crate) memory: BacktrackState,
    // The work budget of all attempts without a memo. When it is spent, the current attempt is
    // repeated with a memo.
    without_memo: StepsAndMemo<WorkBounded, NoMemo>,
    // The state of the attempts after that, which record failures.
    with_memo: CounterAndMemoForRetries,
    // The end that the last repeated attempt found. Its type also exposes the text's lifetime in
    // this struct, which generic calls require.
    last_retry_end: Option<Input::Position>,
    // The leading char loop, with which each match begins. It is scanned again after a failed
    // start, so that none of its positions is tried.
    pub(crate) leading_loop: LeadingCharLoop,
    // What is remembered of the last leap.
    leap: LeapMemory,
    // The memo is right: each key that it holds as failed fails, and each key that it holds as
    // finding an end finds one.
    ghost right: { AreFailuresSoundIn (compiled (executed_tree_of search.program)) (Input.text search.searched.input)
        (scheme_of_optional_memo (λ memo. scheme_of memo.value.memo_analysis) with_memo.progress.memo)
        (failures_of_optional_memo (λ memo. has_failure memo.value) with_memo.progress.memo)
        × AreEndsSoundIn (compiled (executed_tree_of search.program)) (Input.text search.searched.input)
        (scheme_of_optional_memo (λ memo. scheme_of memo.value.memo_analysis) with_memo.progress.memo)
        (failures_of_optional_memo (λ memo. has_success memo.value) with_memo.progress.memo) } by { Prim.hlevel props },
    // No match begins between the two offsets of the last leap.
    ghost no_match_in_last_leap: { NoMatchBeforeRememberedLeap (executed_tree_of search.program)
        (Input.text search.searched.input) leap } by { Prim.hlevel props },
    // Only groups are opened before the leading char loop.
    ghost opened: { OnlyOpensGroups search.program.plan leading_loop.opens } by { Prim.hlevel props },
}

// The work that is allowed for each offset of a text and for each instruction. It is more than most
// searches do. Instructions count too, because the memo analysis examines each of them.
const WORK_PER_OFFSET_AND_INSN: u64 = 16;

const MAX_WORK_BUDGET: u64 = 0x7FFF_FFFF_FFFF_FFFF;

// Returns the initial work budget of a search over `units` units with `insns` instructions.
#[inline(always)]
fn initial_work_budget(units: usize, insns: usize) -> u64 {
    let each = units.saturating_add(insns);
    if each < 0x0400_0000_0000_0000 {
        (each as u64 + 1) * WORK_PER_OFFSET_AND_INSN
    } else {
        MAX_WORK_BUDGET
    }
}

impl<'r, Input: InputIndexer> BacktrackExecutor<'r, Input> {
    // Creates an executor that has made no attempt. This allocates no memory.
    fn from_parts(program: ProgramAndPlan<'r>, searched: ProgramAndInput<'r, Input>) -> Self
        requires same { program.regex ≡ searched.program.now }
        requires wide { program.wide ≡ is_16_bit_encoding Input.Units.encoding }
        ensures tree { tree_of result.search.program.regex ≡ tree_of searched.entry.program.now }
        ensures text { Input.text result.search.searched.input ≡ Input.text searched.entry.input }
    {
        let search = ProgramPlanAndText::new(program, searched);
        let alloc = search.searched.program.allocator();
        let units = search.searched.input.unit_count();
        let work = initial_work_budget(units, search.program.insns().len());
        let leading_loop = search.program.plan().leading_loop;
        let leap = LeapMemory::new(&search.program.plan().leap);
        BacktrackExecutor {
            search,
            memory: BacktrackState::new(alloc),
            without_memo: StepsAndMemo {
                steps: WorkBounded::work_counter_with_limit(work),
                memo: NoMemo,
                end: None,
            },
            with_memo: CounterAndMemoForRetries {
                progress: StepsAndMemo {
                    steps: UnlimitedCounter::work_counter_with_limit(0),
                    memo: None,
                    end: None,
                },
                began: false,
            },
            last_retry_end: None,
            leading_loop,
            leap,
        }
    }

    // Checks whether the leading char loop is scanned again from the failed start `tried`.
    #[inline(always)]
    fn may_rescan_leading_loop(&self, tried: Input::Position, next: Input::Position) -> bool {
        may_rescan_loop(self.leading_loop, tried.to_offset(), next.to_offset())
    }

    /// Makes all further attempts record failures, as they do when the work budget is spent. The
    /// results are the same.
    pub fn always_memoize(&mut self)
        ensures tree { tree_of self.new.search.program.regex ≡ tree_of self.old.search.program.regex }
        ensures text { Input.text self.new.search.searched.input ≡ Input.text self.old.search.searched.input }
    {
        self.without_memo.steps = WorkBounded::exhausted_work_counter();
    }
}

/// Checks whether the leading char loop is scanned again from the failed start `tried`. It is if
/// `next`, the next start to try, may be the loop's next character. The next attempt is past the
/// loop's end, so each character is scanned again only once.
#[inline(always)]
pub(crate) fn may_rescan_loop(leading_loop: LeadingCharLoop, tried: usize, next: usize) -> bool {
    let most = leading_loop.max_char_units;
    most != 0 && next.wrapping_sub(tried) <= most
}

/// Returns the first candidate start of the plan at `from` or later. Returns `None` if no match
/// begins there.
#[inline(always)]
pub(crate) fn next_candidate_start<W: SearchContext>(
    context: &W,
    from: PositionOf<W>,
) -> Option<PositionOf<W>>
    requires at { IsBoundary (W.searching context.now).text (W.Input.Position.offset from) }
    requires executable { let w = W.searching context.now in TreeProgramCanSearchText (program_of w) w.tree w.text }
    ensures { let w = W.searching context.now in let at = W.Input.Position.offset in
        NextStartSkipsNoMatch w.tree w.text (at from) (option_map at result) }
{
    match first_candidate_start_from(context, offset_in_searched_text(context, from)) {
        Some(at) => Some(position_in_searched_text(context, at)),
        None => None,
    }
}

// Returns the first candidate start at `from` or later that is not before the target of the last
// leap.
#[inline(always)]
fn next_candidate_past_leap<W: SearchContext>(
    context: &W,
    leap: &LeapMemory,
    from: PositionOf<W>,
) -> Option<PositionOf<W>>
    requires at { IsBoundary (W.searching context.now).text (W.Input.Position.offset from) }
    requires executable { let w = W.searching context.now in TreeProgramCanSearchText (program_of w) w.tree w.text }
    requires no_match_in_last_leap { let w = W.searching context.now in NoMatchBeforeRememberedLeap w.tree w.text
        leap.now }
    ensures { let w = W.searching context.now in let at = W.Input.Position.offset in
        NextStartSkipsNoMatch w.tree w.text (at from) (option_map at result) }
{
    if leap.is_past_leap_target(offset_in_searched_text(context, from)) {
        return next_candidate_start(context, from);
    }
    next_candidate_by_remembered_leap(context, leap, from)
}

// Does the work of `next_candidate_past_leap` if the last leap may say something about `from`. It
// is not inlined, because this is rare.
#[inline(never)]
fn next_candidate_by_remembered_leap<W: SearchContext>(
    context: &W,
    leap: &LeapMemory,
    from: PositionOf<W>,
) -> Option<PositionOf<W>>
    requires at { IsBoundary (W.searching context.now).text (W.Input.Position.offset from) }
    requires executable { let w = W.searching context.now in TreeProgramCanSearchText (program_of w) w.tree w.text }
    requires no_match_in_last_leap { let w = W.searching context.now in NoMatchBeforeRememberedLeap w.tree w.text
        leap.now }
    ensures { let w = W.searching context.now in let at = W.Input.Position.offset in
        NextStartSkipsNoMatch w.tree w.text (at from) (option_map at result) }
{
    let past = leap.past(offset_in_searched_text(context, from))?;
    next_candidate_start(context, position_in_searched_text(context, past))
}

/// Returns the first position at `from` or later that is not in the leading loop. Each match opens
/// `opens` groups and then begins with a char loop, and no match begins at `tried`, so none begins
/// at the loop's positions.
///
/// Contract: `MayPassLeadingLoop` states these assumptions, for a program that can search the text.
#[inline(always)]
pub(crate) fn end_of_leading_loop<W: SearchContext>(
    context: &W,
    opens: usize,
    tried: PositionOf<W>,
    from: PositionOf<W>,
) -> PositionOf<W>
    requires { let at = W.Input.Position.offset in
        MayPassLeadingLoop (W.searching context.now) opens (at tried) (at from) }
    ensures { let w = W.searching context.now in let at = W.Input.Position.offset in
        NextStartSkipsNoMatch w.tree w.text (at from) (Some (at result)) }
{
    let past = skip_leading_char_loop(context, opens, offset_in_searched_text(context, tried));
    if past <= offset_in_searched_text(context, from) {
        return from;
    }
    position_in_searched_text(context, past)
}

// Returns the first candidate start at `from` or later that is not in the leading loop. `from` is a
// candidate start. The contract is that of `end_of_leading_loop`, except that the result is `None`
// if no match begins at `from` or later.
#[inline(never)]
fn next_start_past_loop<W: SearchContext>(
    context: &W,
    opens: usize,
    tried: PositionOf<W>,
    from: PositionOf<W>,
) -> Option<PositionOf<W>>
    requires { let at = W.Input.Position.offset in
        MayPassLeadingLoop (W.searching context.now) opens (at tried) (at from) }
    ensures { let w = W.searching context.now in let at = W.Input.Position.offset in
        NextStartSkipsNoMatch w.tree w.text (at from) (option_map at result) }
{
    let past = end_of_leading_loop(context, opens, tried, from);
    if offset_in_searched_text(context, past) == offset_in_searched_text(context, from) {
        return Some(from);
    }
    next_candidate_start(context, past)
}

impl<'r, Input: InputIndexer> SearchState for BacktrackExecutor<'r, Input> {
    ghost tree = { λ e. tree_of e.search.program.regex };

    ghost text = { λ e. Input.text e.search.searched.input };
}

impl<'r, Input: InputIndexer> SingleAttemptExecutor for BacktrackExecutor<'r, Input> {
    type Input = Input;

    ghost groups = { λ e. (current_thread_state_of e.memory 0 0).groups };

    ghost is_text = { λ e. Input.is_text e.search.searched.input };

    fn program(&self) -> &Program {
        self.search.searched.program
    }

    fn input(&self) -> &Input {
        &self.search.searched.input
    }

    #[inline(always)]
    fn attempt(&mut self, pos: Input::Position) -> Result<Option<Input::Position>, SearchError> {
        let at = self.search.searched.input.pos_to_offset(pos);
        if make_leap_if_due(&self.search, &mut self.leap, at) {
            return Ok(None);
        }
        if self.without_memo.steps.is_work_limit_exceeded() {
            let insns = self.search.program.insns();
            return retry_with_memo(
                &self.search,
                insns,
                pos,
                &mut self.memory,
                &mut self.with_memo,
                &mut self.last_retry_end,
            );
        }
        let end = attempt(&self.search, pos, &mut self.memory, &mut self.without_memo);
        if end.is_ok() || !self.without_memo.steps.is_work_limit_exceeded() {
            return end;
        }
        let insns = self.search.program.insns();
        retry_with_memo(
            &self.search,
            insns,
            pos,
            &mut self.memory,
            &mut self.with_memo,
            &mut self.last_retry_end,
        )
    }

    fn group_count(&self) -> usize {
        self.memory.group_count()
    }

    fn group(&self, id: usize) -> Option<(Input::Position, Input::Position)> {
        if id >= self.memory.group_count() {
            return None;
        }
        let (start, end) = self.memory.captured_range_of(id)?;
        let left = self.search.searched.input.left_end();
        Some((left + start, left + end))
    }

    fn first_start_to_try_from(&self, pos: Input::Position) -> Option<Input::Position> {
        let searched = &self.search.searched;
        if !searched.is_anchored() {
            return next_candidate_start(&self.search, pos);
        }
        if is_candidate_start(&self.search, searched.input.pos_to_offset(pos)) {
            Some(pos)
        } else {
            searched.position_after_failure(pos)
        }
    }

    fn next_start_after_failure(&self, tried: Input::Position) -> Option<Input::Position> {
        let next = self.search.searched.position_after_failure(tried)?;
        let to = next_candidate_past_leap(&self.search, &self.leap, next)?;
        if self.may_rescan_leading_loop(tried, to) {
            return next_start_past_loop(&self.search, self.leading_loop.opens, tried, to);
        }
        Some(to)
    }
}

impl<'r, 't> BacktrackExecutor<'r, Utf16Input<'t>> {
    /// Creates an executor that searches 16-bit units, read as UTF-16, with the program `re`.
    ///
    /// # Errors
    ///
    /// Never returns `Err` at present, because it allocates no memory.
    pub fn new_utf16(
        re: &'r CompiledRegexFor16BitUnits,
        text: &'t [u16],
    ) -> Result<Self, AllocError>
        ensures { let producer = ⟦<BacktrackExecutor<'r, Utf16Input<'t>> as SearchState>⟧ in
            IfOk result (IsNewExecutor producer (tree_of re.now) (utf16_text text.now)) }
    {
        let program = ProgramAndPlan::new_16_bit_program_and_plan(re);
        Ok(BacktrackExecutor::from_parts(program, ProgramAndInput::pair_with_utf16_text(re, text)))
    }
}

impl<'r, 't> BacktrackExecutor<'r, Ucs2Input<'t>> {
    /// Creates an executor that searches 16-bit units, each of which is a character, with the
    /// program `re`.
    ///
    /// # Errors
    ///
    /// Never returns `Err` at present, because it allocates no memory.
    pub fn new_ucs2(re: &'r CompiledRegexFor16BitUnits, text: &'t [u16]) -> Result<Self, AllocError>
        ensures { let producer = ⟦<BacktrackExecutor<'r, Ucs2Input<'t>> as SearchState>⟧ in
            IfOk result (IsNewExecutor producer (tree_of re.now) (ucs2_text text.now)) }
    {
        let program = ProgramAndPlan::new_16_bit_program_and_plan(re);
        Ok(BacktrackExecutor::from_parts(program, ProgramAndInput::pair_with_ucs2_text(re, text)))
    }
}

impl<'r, 't> ProducerFromProgramAndText<'r> for BacktrackExecutor<'r, Utf8Input<'t>> {
    type Text = &'t str;

    ghost can_search = { λ _. ⊤ };

    ghost text_of = { λ text. utf8_text text.now };

    fn new(re: &'r CompiledRegex, text: &'t str) -> Result<Self, AllocError> {
        let program = ProgramAndPlan::new_byte_program_and_plan(re);
        Ok(BacktrackExecutor::from_parts(program, ProgramAndInput::pair_with_utf8_text(re, text)))
    }
}

impl<'r, 't> ProducerFromProgramAndText<'r> for BacktrackExecutor<'r, AsciiInput<'t>> {
    type Text = &'t str;

    // `is_ascii` checks this.
    ghost can_search = { λ text. IsAscii text.now };

    ghost text_of = { λ text. ascii_text text.now };

    fn new(re: &'r CompiledRegex, text: &'t str) -> Result<Self, AllocError> {
        let program = ProgramAndPlan::new_byte_program_and_plan(re);
        Ok(BacktrackExecutor::from_parts(program, ProgramAndInput::pair_with_ascii_text(re, text)))
    }
}

impl<'r, 't> Executor<'r, 't> for BacktrackExecutor<'r, Utf8Input<'t>> {
    type AsAscii = BacktrackExecutor<'r, AsciiInput<'t>>;

    ghost takes_ascii = { λ _ is_ascii. is_ascii };

    ghost reads_ascii = { refl };
}

impl<'r, 't> Executor<'r, 't> for BacktrackExecutor<'r, AsciiInput<'t>> {
    type AsAscii = Self;

    ghost takes_ascii = { λ _ is_ascii. is_ascii };

    ghost reads_ascii = { refl };
}
