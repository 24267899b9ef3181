//! A single attempt at one start position.

ghost use Rattle.std.specs.Prelude.{true, ◌≡◌, IfOk, None, false, map, option_map};
ghost use Rattle.regex_meaning.specs.CodeUnitOffsets.{IsBoundary};
ghost use Rattle.regress_search.specs.AttemptsAndStarts.{ticks_of_attempt_at};
ghost use Rattle.regress_search.specs.SearchEffects.{SpendsNeedOrReachesLimit, cause_of_error, TellsIfStepLimitReached};
ghost use Rattle.regress_program.specs.InsnsAsSpec.{insn_as_spec_insn};
ghost use Rattle.regress_search.specs.TreePlanAndText.{program_of};
ghost use Rattle.regress_backtrack.specs.AttemptResults.{HasFirstOutcomeEndAndGroups, CostsStepsAt, AllocFailureCostsStepIfSlots};
ghost use Rattle.regress_backtrack.specs.{MemoizedExecution.{IsMemoSound, KeepsMemoSound}, Interpreter.{IfResultStored}, FailuresInMemoTable.{IsMemoRight}};
ghost use Rattle.regress_backtrack.specs.TextsReadAsTreeRequires.{TreeCanSearchText};
ghost use Rattle.regress_backtrack.specs.PaidSearches.{PaysForAttempt};

use crate::failure_memo::{FailureMemo, StepsAndMemo, StoredOrStopped};
use crate::failures_in_memo_table::{CounterAndMemoForRetries, enable_memo};
use crate::interpreter::run_thread;
use crate::position_and_result::ThreadPos;
use crate::state::BacktrackState;
use crate::step_and_work_budgets::{SearchStoppedWithoutResult, StepCounter};
use regress_input::indexing::InputIndexer;
use regress_program::instructions::Insn;
use regress_search::exec::SearchError;
use regress_search::search_context::{PositionOf, SearchContext, position_in_searched_text};

// Returns why a search stopped: steps were refused, or otherwise an allocation failed.
fn cause_of_stop<S: StepCounter>(steps: &S) -> SearchError
    ensures { result ≡ cause_of_error (S.budget steps.now).out }
{
    if steps.steps_were_refused() {
        SearchError::StepLimit
    } else {
        SearchError::Memory
    }
}

// Returns the position of an end offset. Returns `None` if there is no end.
#[inline(always)]
fn end_position<W: SearchContext>(context: &W, end: Option<usize>) -> Option<PositionOf<W>>
    ensures { option_map (λ p. W.Input.Position.offset p) result ≡ end }
{
    match end {
        Some(end) => Some(position_in_searched_text(context, end)),
        None => None,
    }
}

/// Returns the end of the match of highest priority that begins at a position, and leaves its
/// groups in `memory`. Returns `None` if there is no match. The steps are taken from the budget.
/// Returns `Err` if too few steps are left or an allocation fails.
///
/// The clauses `found`, `steps`, `begun` and `cause` say which match is found, which steps are
/// spent and which error is returned. The clauses `sound` say that the memo is right and stays so.
/// The clauses `executable` and `fresh` are what an attempt needs: a program that can search the
/// text, a boundary, and a budget that has refused no steps.
pub(crate) fn attempt<W: SearchContext, S: StepCounter, M: FailureMemo>(
    context: &W,
    pos: PositionOf<W>,
    memory: &mut BacktrackState,
    progress: &mut StepsAndMemo<S, M>,
) -> Result<Option<PositionOf<W>>, SearchError>
    requires executable { let w = W.searching context.now in
        TreeCanSearchText w.tree w.text × IsBoundary w.text (W.Input.Position.offset pos) }
    requires sound { IsMemoSound S.StepCounter M.FailureMemo (W.searching context.now) progress.old.memo }
    requires fresh { (S.budget progress.old.steps).out ≡ false }
    ensures found { let at = W.Input.Position.offset in
        IfOk result (HasFirstOutcomeEndAndGroups at (W.searching context.now) (at pos) memory.new) }
    ensures steps { CostsStepsAt (W.searching context.now) (W.Input.Position.offset pos) S.COUNTS
        (S.budget progress.old.steps) result (S.budget progress.new.steps) }
    ensures begun { AllocFailureCostsStepIfSlots (W.searching context.now) memory.new S.COUNTS
        (S.budget progress.old.steps) result (S.budget progress.new.steps) }
    ensures cause { TellsIfStepLimitReached result (S.budget progress.new.steps).out }
    ensures sound { KeepsMemoSound S.StepCounter M.FailureMemo (W.searching context.now) progress.old.memo
        progress.new.memo }
    ensures paid { PaysForAttempt S.StepCounter M.FailureMemo (W.searching context.now) true
        (W.Input.Position.offset pos) progress.old.steps result progress.new.steps }
{
    let at = context.input().pos_to_offset(pos);
    let groups = context.program().groups() as usize;
    let loops = context.number_of_loops() as usize;
    memory.begin(groups, loops, at)?;
    let start = ThreadPos { ip: 0, at };
    match run_thread(context, start, memory, progress) {
        Ok(end) => Ok(end_position(context, end)),
        Err(SearchStoppedWithoutResult) => Err(cause_of_stop(&progress.steps)),
    }
}

// Makes an attempt from its start, whatever an earlier attempt has left, and does not limit the
// work. It records failures if possible. It stores the end in `came`: if it returned the end,
// attempts that never come here would have to reserve space for it.
#[inline(never)]
fn attempt_with_memo<W: SearchContext>(
    context: &W,
    insns: &[Insn],
    pos: PositionOf<W>,
    memory: &mut BacktrackState,
    again: &mut CounterAndMemoForRetries,
    came: &mut Option<PositionOf<W>>,
) -> StoredOrStopped
    requires executable { let w = W.searching context.now in
        TreeCanSearchText w.tree w.text × IsBoundary w.text (W.Input.Position.offset pos) }
    requires insns { map insn_as_spec_insn insns.now ≡ (program_of (W.searching context.now)).insns }
    requires sound { IsMemoRight (λ memo. memo.value) (W.searching context.now) again.old.progress.memo }
    ensures found { let at = W.Input.Position.offset in
        IfResultStored result (HasFirstOutcomeEndAndGroups at (W.searching context.now) (at pos) memory.new came.new) }
    ensures sound { IsMemoRight (λ memo. memo.value) (W.searching context.now) again.new.progress.memo }
{
    enable_memo(context, insns, again);
    match attempt(context, pos, memory, &mut again.progress) {
        Ok(end) => {
            *came = end;
            StoredOrStopped::Done
        }
        Err(_) => StoredOrStopped::Stopped,
    }
}

/// Runs `attempt_with_memo` and returns the end that it found.
///
/// The clause `found` says which match is found. The clauses `steps` and `cause` say that no steps
/// are counted, so that an error is an allocation failure. The clauses `sound` say that the memo is
/// right and stays so, and `executable` and `insns` are what an attempt needs.
#[inline(always)]
pub(crate) fn retry_with_memo<W: SearchContext>(
    context: &W,
    insns: &[Insn],
    pos: PositionOf<W>,
    memory: &mut BacktrackState,
    again: &mut CounterAndMemoForRetries,
    came: &mut Option<PositionOf<W>>,
) -> Result<Option<PositionOf<W>>, SearchError>
    requires executable { let w = W.searching context.now in
        TreeCanSearchText w.tree w.text × IsBoundary w.text (W.Input.Position.offset pos) }
    requires insns { map insn_as_spec_insn insns.now ≡ (program_of (W.searching context.now)).insns }
    requires sound { IsMemoRight (λ memo. memo.value) (W.searching context.now) again.old.progress.memo }
    ensures found { let at = W.Input.Position.offset in
        IfOk result (HasFirstOutcomeEndAndGroups at (W.searching context.now) (at pos) memory.new) }
    ensures steps { let w = W.searching context.now in
        SpendsNeedOrReachesLimit (ticks_of_attempt_at w.tree w.text (W.Input.Position.offset pos)) None result None }
    ensures cause { TellsIfStepLimitReached result false }
    ensures sound { IsMemoRight (λ memo. memo.value) (W.searching context.now) again.new.progress.memo }
{
    match attempt_with_memo(context, insns, pos, memory, again, came) {
        StoredOrStopped::Done => Ok(*came),
        StoredOrStopped::Stopped => Err(SearchError::Memory),
    }
}
