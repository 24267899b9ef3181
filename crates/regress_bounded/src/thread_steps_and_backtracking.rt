//! Executes steps of threads and backtracks, and takes the work of each from the budget.

ghost use Rattle.std.specs.Prelude.{◌≡◌, ◌≤◌, List, IfErr, IfOk, IfSome, OnOk, [], ◌∷◌, ◌++◌, map, option_map};
ghost use Rattle.regex_meaning.specs.{CodeUnitOffsets.{units}, Text.{rightwards}};
ghost use Rattle.regex_pattern_front.specs.AstToSpecTree.{tree_of};
ghost use Rattle.regress_memo.specs.MemoSearch.{one_thread};
ghost use Rattle.regress_machine.specs.{InsnEffects.{IsNotStuck}, Machine.{act, running}};
ghost use Rattle.regress_memo.specs.MemoContents.{memo_key_as_spec, has_failure};
ghost use Rattle.regress_program.specs.{CompilationOfTreesAsFunction.{compiled}, InsnsAsSpec.{insn_as_spec_insn}};
ghost use Rattle.regress_memo.specs.{CheckedAnalysis.{IsRecordableMemoKey}, Successors.{is_goal_insn}};
ghost use Rattle.regress_bounded.specs.CostsOfSearchEvents.{StepLeavesOnlyThreads, threads_after_step, work_of_machine_step};
ghost use Rattle.regress_bounded.specs.BoundedState.{IsMemoRightForRegex, IsUnfailedStateKeyIfAny, char_loop_max, IsNotUnboundedCharLoop, is_known_key, min_and_greed_of_loop};
ghost use Rattle.regress_bounded.specs.BoundedState.{HasAttemptState, ContinuesOrStopsInEachAttempt, StepResultInEachAttempt, TakesPreferredState, TakesPreferredThread, stack_with_record_if_any};
ghost use Rattle.regress_bounded.specs.BudgetSpending.{LowersBudgetByWork, IsWorkOrMoreThanLeft, WorkExceedsBudget};
ghost use Rattle.regress_bounded.specs.declared.memo_and_work_budget.AttemptAbortReason.TheVariants.{Work};
ghost use Rattle.regress_pikevm.specs.States.{machine_state_of};

use crate::lookarounds::execute_lookaround;
use crate::memo_and_work_budget::{AttemptAbortReason, MemoAndWorkBudget};
use crate::pending_stack::{StackEntry, UnboundedCharLoop, push_entry};
use crate::step_work::work_of_step;
use crate::unbounded_char_loops::{resume_lazy_char_loop, unbounded_char_loop_with_memo};
use crate::work_bound::is_lookaround;
use regress_input::cursor::Forward;
use regress_input::indexing::InputIndexer;
use regress_input::position::PositionType;
use regress_memo::memo::ThreadMemoKey;
use regress_pikevm::pikevm::single_insn_execution::execute_insn;
use regress_pikevm::pikevm::states::{NextStates, State};
use regress_program::insn::Insn;
use regress_search::program_and_input::ProgramAndInput;
use std::alloc::AllocError;

/// The result of a step: the thread that continues (if there is one), or the end of the search.
#[derive(Drop)]
pub(crate) enum StepResult<P> {
    ContinueWith(Option<State<P>>),
    End(State<P>),
}

/// Executes one step of a thread. If its key is known to fail, drops the thread instead.
pub(crate) fn execute_thread_step<Input: InputIndexer>(
    searched: &ProgramAndInput<'_, Input>,
    insns: &[Insn],
    state: State<Input::Position>,
    stack: &mut Vec<StackEntry<Input::Position>>,
    progress: &mut MemoAndWorkBudget,
) -> Result<StepResult<Input::Position>, AttemptAbortReason>
    requires code { map insn_as_spec_insn insns.now ≡ (compiled (tree_of searched.now.program.now)).insns }
    requires stands { let s = searched.now in
        HasAttemptState Input.Position.offset (compiled (tree_of s.program.now)) (Input.text s.input)
        (one_thread (running (machine_state_of Input.Position.offset state)) ∷ []) stack.old.items progress.old }
    ensures memo { progress.new.memo ≡ progress.old.memo }
    ensures left { progress.new.left ≤ progress.old.left }
    ensures continues { let at = Input.Position.offset in let s = searched.now in
        StepResultInEachAttempt at (compiled (tree_of s.program.now)) (Input.text s.input)
        (one_thread (running (machine_state_of at state)) ∷ []) stack.old.items progress.old result stack.new.items
        progress.new }
{
    let key = progress.key_at(state.ip, state.pos, &state);
    if is_key_known_to_fail(key, progress) {
        progress.spend(1)?;
        return Ok(StepResult::ContinueWith(None));
    }
    let Some((least, greedy)) = unbounded_loop(insns[state.ip]) else {
        return execute_with_record(searched, insns, key, state, stack, progress);
    };
    let run = UnboundedCharLoop {
        body: insns[state.ip + 1],
        least,
        greedy,
    };
    let next = unbounded_char_loop_with_memo(searched, run, state, stack, progress)?;
    Ok(StepResult::ContinueWith(next))
}

// Returns the minimum of a char loop without a maximum, and whether the loop is greedy. Returns
// `None` for other instructions.
#[inline(always)]
fn unbounded_loop(insn: Insn) -> Option<(usize, bool)>
    ensures { result ≡ min_and_greed_of_loop (insn_as_spec_insn insn) }
{
    let Insn::Loop1CharBody {
        min_iters,
        max_iters,
        greedy,
    } = insn
    else {
        return None;
    };
    if max_iters == usize::MAX {
        Some((min_iters, greedy))
    } else {
        None
    }
}

// Checks whether the key exists and is known to fail.
#[inline(always)]
fn is_key_known_to_fail(key: Option<ThreadMemoKey>, progress: &MemoAndWorkBudget) -> bool
    requires { IfSome key (λ k. IsRecordableMemoKey progress.now.memo.memo_analysis progress.now.memo.places
        (memo_key_as_spec k)) }
    ensures { result ≡ is_known_key (has_failure progress.now.memo) (option_map memo_key_as_spec key) }
{
    match key {
        Some(key) => progress.memo.fails(key),
        None => false,
    }
}

// Takes the work of an instruction from the budget, and executes it. If there is a key, pushes its
// record below the threads that the instruction leaves. A lookaround has no record.
// Contract: `stands` says that an attempt is at this state, and `continues` says how that attempt
// goes on. `code`, `key` and `limited` say that `insns` is the program's code, that `key` is the
// state's key and not known to fail, and that no char loop without a maximum is executed. `memo`,
// `left` and `refused` say what stays the same, and that the work left does not grow.
fn execute_with_record<Input: InputIndexer>(
    searched: &ProgramAndInput<'_, Input>,
    insns: &[Insn],
    key: Option<ThreadMemoKey>,
    state: State<Input::Position>,
    stack: &mut Vec<StackEntry<Input::Position>>,
    progress: &mut MemoAndWorkBudget,
) -> Result<StepResult<Input::Position>, AttemptAbortReason>
    requires code { map insn_as_spec_insn insns.now ≡ (compiled (tree_of searched.now.program.now)).insns }
    requires stands { let s = searched.now in
        HasAttemptState Input.Position.offset (compiled (tree_of s.program.now)) (Input.text s.input)
        (one_thread (running (machine_state_of Input.Position.offset state)) ∷ []) stack.old.items progress.old }
    requires key { IsUnfailedStateKeyIfAny progress.old.memo (machine_state_of Input.Position.offset state) key }
    requires limited { IsNotUnboundedCharLoop (compiled (tree_of searched.now.program.now)) state.ip }
    ensures memo { progress.new.memo ≡ progress.old.memo }
    ensures left { progress.new.left ≤ progress.old.left }
    ensures refused { IfErr result (λ e. e ≡ Work → stack.new.items ≡ stack.old.items) }
    ensures continues { let at = Input.Position.offset in let s = searched.now in
        StepResultInEachAttempt at (compiled (tree_of s.program.now)) (Input.text s.input)
        (one_thread (running (machine_state_of at state)) ∷ []) stack.old.items progress.old result stack.new.items
        progress.new }
{
    let insn = insns[state.ip];
    if is_goal(insn) {
        return Ok(StepResult::End(state));
    }
    if is_lookaround(&insn) {
        let next = execute_lookaround(searched, insns, state, progress)?;
        return Ok(StepResult::ContinueWith(next));
    }
    let work = work_of_step(searched, insns, Forward, &state, progress);
    spend_and_push_record(key, work, stack, progress)?;
    let next = push_threads_of_step(searched, insns, state, stack)?;
    Ok(StepResult::ContinueWith(next))
}

// Checks whether an instruction ends the search.
#[inline(always)]
fn is_goal(insn: Insn) -> bool
    ensures { result ≡ is_goal_insn (insn_as_spec_insn insn) }
{
    matches!(insn, Insn::Goal)
}

// Executes an instruction that does not end the search. Pushes the threads that it leaves, and
// returns the preferred one.
fn push_threads_of_step<Input: InputIndexer>(
    searched: &ProgramAndInput<'_, Input>,
    insns: &[Insn],
    state: State<Input::Position>,
    stack: &mut Vec<StackEntry<Input::Position>>,
) -> Result<Option<State<Input::Position>>, AllocError>
    requires code { map insn_as_spec_insn insns.now ≡ (compiled (tree_of searched.now.program.now)).insns }
    requires inside { Input.Position.offset state.pos ≤ units (Input.text searched.now.input) }
    requires leads { let s = searched.now in StepLeavesOnlyThreads
        (act (compiled (tree_of s.program.now)) (Input.text s.input)
        rightwards (machine_state_of Input.Position.offset state)) }
    ensures { let s = searched.now in IfOk result (λ next. TakesPreferredThread Input.Position.offset
        (threads_after_step (act (compiled (tree_of s.program.now)) (Input.text s.input) rightwards
        (machine_state_of Input.Position.offset state))) stack.old.items next stack.new.items) }
{
    match execute_insn(searched, insns, Forward, state)? {
        NextStates::Dead => Ok(None),
        NextStates::Continue(next) => Ok(Some(next)),
        NextStates::Fork(next, other) => {
            push_entry(StackEntry::Thread(other), stack)?;
            Ok(Some(next))
        }
        NextStates::CharLoopExits(_, states) => take_preferred_and_push_others(states, stack),
        NextStates::Lookaround { .. } => unreachable!(),
        NextStates::Accept(_) => unreachable!(),
    }
}

// Takes `work` from the budget. If there is a key, pushes its record.
fn spend_and_push_record<P: PositionType>(
    key: Option<ThreadMemoKey>,
    work: u64,
    stack: &mut Vec<StackEntry<P>>,
    progress: &mut MemoAndWorkBudget,
) -> Result<(), AttemptAbortReason>
    ensures memo { progress.new.memo ≡ progress.old.memo }
    ensures left { progress.new.left ≤ progress.old.left }
    ensures spent { OnOk result (LowersBudgetByWork work progress.old.left progress.new.left) }
    ensures pushed { OnOk result (stack.new.items ≡ stack_with_record_if_any key stack.old.items) }
    ensures over { IfErr result (λ e. e ≡ Work
        → WorkExceedsBudget work progress.old.left progress.new.left × (stack.new.items ≡ stack.old.items)) }
{
    progress.spend(work)?;
    if let Some(key) = key {
        push_entry(StackEntry::Record(key), stack)?;
    }
    Ok(())
}

// Returns the preferred state, and pushes the others.
fn take_preferred_and_push_others<P: PositionType>(
    mut states: Vec<State<P>>,
    stack: &mut Vec<StackEntry<P>>,
) -> Result<Option<State<P>>, AllocError>
    ensures { IfOk result (λ next. TakesPreferredState P.offset states.items stack.old.items next stack.new.items) }
{
    let Some(first) = states.pop() else {
        return Ok(None);
    };
    states.reverse();
    'others: while let Some(state) = states.pop() {
        push_entry(StackEntry::Thread(state), stack)?;
    }
    Ok(Some(first))
}

/// Backtracks to a pending entry: resumes a thread or a loop, or reaches a record. When a record is
/// reached, all threads above it have failed, so its failure is stored.
///
/// The clause `stands` says that an attempt has this entry on top, and `continues` says how that
/// attempt goes on. The clauses `sound` and `memo_analysis` say that the memo table is right and
/// keeps its analysis. The clauses `left` and `refused` say that the work left does not grow, and
/// that the stack stays the same if the work does not suffice.
pub(crate) fn backtrack_to_pending_entry<Input: InputIndexer>(
    searched: &ProgramAndInput<'_, Input>,
    insns: &[Insn],
    waiting: StackEntry<Input::Position>,
    stack: &mut Vec<StackEntry<Input::Position>>,
    progress: &mut MemoAndWorkBudget,
) -> Result<Option<State<Input::Position>>, AttemptAbortReason>
    requires code { map insn_as_spec_insn insns.now ≡ (compiled (tree_of searched.now.program.now)).insns }
    requires stands { let s = searched.now in
        HasAttemptState Input.Position.offset (compiled (tree_of s.program.now)) (Input.text s.input)
        [] (stack.old.items ++ waiting ∷ []) progress.old }
    ensures sound { let s = searched.now in IsMemoRightForRegex s.program.now (Input.text s.input) progress.new.memo }
    ensures memo_analysis { progress.new.memo.memo_analysis ≡ progress.old.memo.memo_analysis }
    ensures left { progress.new.left ≤ progress.old.left }
    ensures refused { IfErr result (λ e. e ≡ Work → stack.new.items ≡ stack.old.items) }
    ensures continues { let at = Input.Position.offset in let s = searched.now in
        ContinuesOrStopsInEachAttempt at (compiled (tree_of s.program.now)) (Input.text s.input) []
        (stack.old.items ++ waiting ∷ []) progress.old result stack.new.items progress.new }
{
    match waiting {
        StackEntry::Thread(state) => {
            progress.spend(1)?;
            Ok(Some(state))
        }
        StackEntry::PendingLazyLoop(state) => resume_lazy_char_loop(
            searched, insns, state, stack, progress,
        ),
        StackEntry::Record(key) => {
            progress.spend(1)?;
            progress.memo.record_failure(key);
            Ok(None)
        }
    }
}
