//! Executes lookarounds. Their contents are searched without the memo table.

ghost use Rattle.std.specs.Prelude.{◌≡◌, ◌≤◌, ◌<◌, ℕ, Some, OnOk, [], ◌∷◌, map};
ghost use Rattle.regex_meaning.specs.{CodeUnitOffsets.{units}, Text.{rightwards}};
ghost use Rattle.regex_pattern_front.specs.AstToSpecTree.{tree_of};
ghost use Rattle.regress_input.specs.CharAndByteReadsFromOffset.{direction_of_forward_flag};
ghost use Rattle.regress_machine.specs.{InsnEffects.{IsNotStuck}, Machine.{Found, running, act, search}};
ghost use Rattle.regress_program.specs.{CompilationOfTreesAsFunction.{compiled}, InsnsAsSpec.{insn_as_spec_insn}};
ghost use Rattle.regress_bounded.specs.{BudgetSpending.{IsWorkOrMoreThanLeft}, CostsOfSearchEvents.{work_of_machine_step}};
ghost use Rattle.regress_bounded.specs.LookaroundResults.{HasResult, ContentsOfLookaround, ResumesFirstThread, SearchResultIs, LookaroundResultIs};
ghost use Rattle.regress_pikevm.specs.States.{machine_state_of, pending_threads};

use crate::memo_and_work_budget::{AttemptAbortReason, MemoAndWorkBudget};
use crate::step_work::work_of_step;
use regress_input::cursor::{Backward, Forward};
use regress_input::indexing::InputIndexer;
use regress_input::position::PositionType;
use regress_pikevm::pikevm::single_insn_execution::execute_insn;
use regress_pikevm::pikevm::states::{NextStates, State, resume_after_lookaround};
use regress_pikevm::pikevm::{execute_in_direction, take_preferred_exit_and_push_others};
use regress_program::insn::Insn;
use regress_search::program_and_input::ProgramAndInput;

/// Executes a lookaround of a rightward search. Returns the thread that continues, if there is one.
///
/// The clause `contents` says that the state is at a lookaround whose contents have a result, and
/// `continues` says how that result decides. The clauses `code` and `inside` say that `insns` is the
/// program's code, and that the offset is inside the text. The others say what stays the same, and
/// that the work left does not grow.
pub(crate) fn execute_lookaround<Input: InputIndexer>(
    searched: &ProgramAndInput<'_, Input>,
    insns: &[Insn],
    state: State<Input::Position>,
    progress: &mut MemoAndWorkBudget,
) -> Result<Option<State<Input::Position>>, AttemptAbortReason>
    requires code { map insn_as_spec_insn insns.now ≡ (compiled (tree_of searched.now.program.now)).insns }
    requires inside { Input.Position.offset state.pos ≤ units (Input.text searched.now.input) }
    requires contents { let s = searched.now in ∥ ContentsOfLookaround (compiled (tree_of s.program.now))
        (Input.text s.input) (machine_state_of Input.Position.offset state) ∥₁ }
    ensures memo { progress.new.memo ≡ progress.old.memo }
    ensures left { progress.new.left ≤ progress.old.left }
    ensures continues { let s = searched.now in let at = Input.Position.offset in
        (x : ContentsOfLookaround (compiled (tree_of s.program.now)) (Input.text s.input) (machine_state_of at state))
        → LookaroundResultIs at x result progress.old.left progress.new.left }
{
    progress.spend(1)?;
    match execute_insn(searched, insns, Forward, state)? {
        NextStates::Lookaround {
            forward,
            negate,
            inner,
            after,
        } => {
            let found = search_contents(searched, insns, forward, inner, progress)?;
            Ok(resume_after_lookaround(negate, after, found))
        }
        _ => unreachable!(),
    }
}

// Searches the contents of a lookaround from their first state. Returns the state at their end, if
// they match.
// Contract: `result` says that this search has a result, and `finds` that this result is returned.
// The other clauses are those of `execute_lookaround`.
fn search_contents<Input: InputIndexer>(
    searched: &ProgramAndInput<'_, Input>,
    insns: &[Insn],
    forward: bool,
    start: State<Input::Position>,
    progress: &mut MemoAndWorkBudget,
) -> Result<Option<State<Input::Position>>, AttemptAbortReason>
    requires code { map insn_as_spec_insn insns.now ≡ (compiled (tree_of searched.now.program.now)).insns }
    requires inside { Input.Position.offset start.pos ≤ units (Input.text searched.now.input) }
    requires result { let s = searched.now in HasResult (compiled (tree_of s.program.now)) (Input.text s.input)
        (direction_of_forward_flag forward) (running (machine_state_of Input.Position.offset start) ∷ []) }
    ensures memo { progress.new.memo ≡ progress.old.memo }
    ensures left { progress.new.left ≤ progress.old.left }
    ensures finds { let s = searched.now in let at = Input.Position.offset in (turns : ℕ) (f : Found)
        → search (compiled (tree_of s.program.now)) (Input.text s.input) turns
        (direction_of_forward_flag forward) (running (machine_state_of at start) ∷ []) ≡ Some f
        → SearchResultIs at f result progress.old.left progress.new.left }
{
    let mut stack = Vec::new(*start.groups.allocator());
    let mut next = Some(start);
    'search: loop {
        let Some(state) = current_or_resumed_state(next, &mut stack, progress)? else {
            return Ok(None);
        };
        let work = work_in_direction(searched, insns, forward, &state, progress);
        progress.spend(work)?;
        match execute_in_direction(searched, insns, forward, state)? {
            NextStates::Dead => next = None,
            NextStates::Continue(state) => next = Some(state),
            NextStates::Fork(preferred, other) => {
                stack.push(other)?;
                next = Some(preferred);
            }
            NextStates::CharLoopExits(_, states) => next = take_preferred_exit_and_push_others(
                states, &mut stack,
            )?,
            NextStates::Lookaround {
                forward,
                negate,
                inner,
                after,
            } => {
                let found = search_contents(searched, insns, forward, inner, progress)?;
                next = resume_after_lookaround(negate, after, found);
            }
            NextStates::Accept(end) => return Ok(Some(end)),
        }
    }
}

// Returns the current state if there is one. Otherwise resumes the last state of the stack.
fn current_or_resumed_state<P: PositionType>(
    next: Option<State<P>>,
    stack: &mut Vec<State<P>>,
    progress: &mut MemoAndWorkBudget,
) -> Result<Option<State<P>>, AttemptAbortReason>
    ensures memo { progress.new.memo ≡ progress.old.memo }
    ensures left { progress.new.left ≤ progress.old.left }
    ensures resumes { ResumesFirstThread P.offset (pending_threads P.offset next stack.old.items) result
        stack.new.items progress.old.left progress.new.left }
{
    if next.is_some() {
        return Ok(next);
    }
    let Some(waiting) = stack.pop() else {
        return Ok(None);
    };
    progress.spend(1)?;
    Ok(Some(waiting))
}

// Returns the work of a step in a direction, like `work_of_step`.
fn work_in_direction<Input: InputIndexer>(
    searched: &ProgramAndInput<'_, Input>,
    insns: &[Insn],
    forward: bool,
    state: &State<Input::Position>,
    progress: &MemoAndWorkBudget,
) -> u64
    requires code { map insn_as_spec_insn insns.now ≡ (compiled (tree_of searched.now.program.now)).insns }
    requires executable { let s = searched.now in IsNotStuck (act (compiled (tree_of s.program.now))
        (Input.text s.input) (direction_of_forward_flag forward)
        (machine_state_of Input.Position.offset state.now)) }
    ensures { let s = searched.now in IsWorkOrMoreThanLeft progress.now.left (work_of_machine_step (act
        (compiled (tree_of s.program.now)) (Input.text s.input) (direction_of_forward_flag forward)
        (machine_state_of Input.Position.offset state.now))) result }
{
    if forward {
        work_of_step(searched, insns, Forward, state, progress)
    } else {
        work_of_step(searched, insns, Backward, state, progress)
    }
}
