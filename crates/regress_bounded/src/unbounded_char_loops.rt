//! Char loops without a maximum. Each of their exits has a record.

ghost use Rattle.std.specs.Prelude.{◌≡◌, ◌<◌, ◌≤◌, ◌^◌, ◌+◌, ◌-◌, ℕ, Bool, true, false, min, Some, IfOk, IfErr, IsSome, [], ◌∷◌, ◌++◌, map};
ghost use Rattle.regex_meaning.specs.{CodeUnitOffsets.{IsBoundary, place_at}, Text.{rightwards}};
ghost use Rattle.regress_input.specs.CharAndByteReadsFromOffset.{direction_of_forward_flag};
ghost use Rattle.regex_pattern_front.specs.AstToSpecTree.{tree_of};
ghost use Rattle.regress_memo.specs.{CharLoopExitThreadLists.{passing}, MemoSearch.{one_thread}};
ghost use Rattle.regress_machine.specs.Machine.{running};
ghost use Rattle.regress_memo.specs.MemoContents.{has_failure};
ghost use Rattle.regress_program.specs.{CompilationOfTreesAsFunction.{compiled}, InsnsAsSpec.{insn_as_spec_insn}};
ghost use Rattle.regress_search.specs.OffsetsAfterMatchedInsns.{ByteInsnHasByteText, char_test_of_insn};
ghost use Rattle.regress_bounded.specs.BoundedState.{IsMemoRightForRegex, IsStateAtUnboundedLoopOverInsn, HasAttemptState, ContinuesOrStopsInEachAttempt, ScansWithMemo, HasPassedRequiredChars};
ghost use Rattle.regress_bounded.specs.BoundedState.{IsPositionAfterCharsOfClass, TakesNearestExit};
ghost use Rattle.regress_bounded.specs.declared.memo_and_work_budget.AttemptAbortReason.TheVariants.{Work};
ghost use Rattle.regress_bounded.specs.declared.pending_stack.StackEntry.TheVariants.{PendingLazyLoop as AsRun};
ghost use Rattle.regress_pikevm.specs.States.{machine_state_of};

use crate::memo_and_work_budget::{AttemptAbortReason, MemoAndWorkBudget};
use crate::pending_stack::{StackEntry, UnboundedCharLoop, push_entry};
use regress_input::cursor::{Direction, Forward};
use regress_input::indexing::InputIndexer;
use regress_input::position::PositionType;
use regress_memo::memo::ThreadMemoKey;
use regress_pikevm::pikevm::char_loops::copy_state_after_char_loop;
use regress_pikevm::pikevm::insn_matchers;
use regress_pikevm::pikevm::states::State;
use regress_program::insn::Insn;
use regress_search::program_and_input::ProgramAndInput;
use std::alloc::AllocError;

/// Reads the next characters that a loop accepts, up to `most` and up to what the budget allows
/// after the cost of the step itself. Returns their number.
pub(crate) fn read_chars_within_budget<Input: InputIndexer, Dir: Direction>(
    searched: &ProgramAndInput<'_, Input>,
    body: Insn,
    dir: Dir,
    most: usize,
    progress: &MemoAndWorkBudget,
    pos: &mut Input::Position,
) -> usize
    requires test { IsSome (char_test_of_insn searched.now.program.now body) }
    requires at { IsBoundary (Input.text searched.now.input) (Input.Position.offset pos.old) }
    requires bytes { ByteInsnHasByteText body (Input.text searched.now.input) Input.Units.ARE_BYTES }
    ensures at { IsBoundary (Input.text searched.now.input) (Input.Position.offset pos.new) }
    ensures passed { let s = searched.now in let text = Input.text s.input in (test : ℕ → Bool) (place : ℕ)
        → char_test_of_insn s.program.now body ≡ Some test → place_at text
        (Input.Position.offset pos.old) ≡ Some place → HasPassedRequiredChars Input.Position.offset text
        (direction_of_forward_flag Dir.FORWARD) test (min most (progress.now.left - 1)) place result pos.new }
{
    let limit = progress.chars_within_budget(most);
    let mut count = 0;
    'characters: while count < limit {
        let mut next = *pos;
        if !insn_matchers::consume_next_char_if_accepted(searched, body, dir, &mut next) {
            break;
        }
        *pos = next;
        count += 1;
    }
    count
}

/// Executes a char loop without a maximum.
///
/// A greedy loop continues at its furthest exit, and pushes the nearer ones. It stops at a position
/// from which it is known to fail. A lazy loop continues at its nearest exit, and pushes one entry
/// for all others. It reads no more characters than the budget allows.
///
/// The clauses `run` and `stands` say that an attempt is at this loop, and `continues` says how
/// that attempt goes on. The clauses `memo`, `left` and `refused` say what stays the same, and that
/// the work left does not grow. The clauses `bytes` and `within` say that an instruction on bytes
/// has a text of bytes, and that the loop's index is in range.
pub(crate) fn unbounded_char_loop_with_memo<Input: InputIndexer>(
    searched: &ProgramAndInput<'_, Input>,
    run: UnboundedCharLoop,
    state: State<Input::Position>,
    stack: &mut Vec<StackEntry<Input::Position>>,
    progress: &mut MemoAndWorkBudget,
) -> Result<Option<State<Input::Position>>, AttemptAbortReason>
    requires run { let s = searched.now in IsStateAtUnboundedLoopOverInsn Input.Position.offset
        (compiled (tree_of s.program.now))
        (Input.text s.input) run run.greedy (machine_state_of Input.Position.offset state) }
    requires bytes { ByteInsnHasByteText run.body (Input.text searched.now.input) Input.Units.ARE_BYTES }
    requires within { state.ip + 2 < 2 ^ 64 }
    requires stands { let s = searched.now in
        HasAttemptState Input.Position.offset (compiled (tree_of s.program.now)) (Input.text s.input)
        (one_thread (running (machine_state_of Input.Position.offset state)) ∷ []) stack.old.items progress.old }
    ensures memo { progress.new.memo ≡ progress.old.memo }
    ensures left { progress.new.left ≤ progress.old.left }
    ensures refused { IfErr result (λ e. e ≡ Work → run.greedy ≡ false → stack.new.items ≡ stack.old.items) }
    ensures continues { let at = Input.Position.offset in let s = searched.now in
        ContinuesOrStopsInEachAttempt at (compiled (tree_of s.program.now)) (Input.text s.input)
        (one_thread (running (machine_state_of at state)) ∷ []) stack.old.items progress.old result stack.new.items
        progress.new }
{
    let mut at = state.pos;
    let passed = read_chars_within_budget(
        searched, run.body, Forward, run.least, progress, &mut at,
    );
    if passed < run.least {
        progress.spend(passed as u64 + 2)?;
        return Ok(None);
    }
    if run.greedy {
        let (next, count) = scan_greedy_loop_with_memo(searched, run, at, &state, stack, progress)?;
        progress.spend(count as u64 + 2)?;
        return Ok(next);
    }
    progress.spend(passed as u64 + 2)?;
    let next = take_nearest_exit(searched, run.body, at, state, stack)?;
    Ok(Some(next))
}

// Scans a greedy loop from its nearest exit on. Returns the thread at the furthest exit and the
// number of accepted characters. The thread is `None` if the loop is known to fail from some
// position, or if the work left does not suffice.
// Contract: `scans` says how the scan ends and which exits are pushed, if `from` is the nearest
// exit. The `ensures` clause `paid` says that at most as many characters are accepted as work is
// left. The `requires` clauses say that the memo table is right, and that the loop and its nearest
// exit are as described.
fn scan_greedy_loop_with_memo<Input: InputIndexer>(
    searched: &ProgramAndInput<'_, Input>,
    run: UnboundedCharLoop,
    from: Input::Position,
    state: &State<Input::Position>,
    stack: &mut Vec<StackEntry<Input::Position>>,
    progress: &MemoAndWorkBudget,
) -> Result<(Option<State<Input::Position>>, usize), AllocError>
    requires sound { let s = searched.now in IsMemoRightForRegex s.program.now (Input.text s.input) progress.now.memo }
    requires run { let s = searched.now in IsStateAtUnboundedLoopOverInsn Input.Position.offset
        (compiled (tree_of s.program.now))
        (Input.text s.input) run true (machine_state_of Input.Position.offset state.now) }
    requires bytes { ByteInsnHasByteText run.body (Input.text searched.now.input) Input.Units.ARE_BYTES }
    requires within { state.now.ip + 2 < 2 ^ 64 }
    requires test { IsSome (char_test_of_insn searched.now.program.now run.body) }
    requires at { IsBoundary (Input.text searched.now.input) (Input.Position.offset from) }
    requires few { run.least ≤ Input.Position.offset from }
    requires paid { run.least ≤ progress.now.left }
    ensures paid { IfOk result (λ r. r.1 ≤ progress.now.left) }
    ensures scans { let at = Input.Position.offset in let s = searched.now in let text = Input.text s.input in
        (test : ℕ → Bool) (place : ℕ) → char_test_of_insn s.program.now run.body ≡ Some test
        → IsPositionAfterCharsOfClass at text rightwards test place run.least from
        → IfOk result (ScansWithMemo at (compiled (tree_of s.program.now)) text progress.now.memo.memo_analysis
        (has_failure progress.now.memo) test place (machine_state_of at state.now) run.least progress.now.left
        stack.old.items stack.new.items) }
{
    let mut at = from;
    let mut count = run.least;
    'places: loop {
        if progress.left < count as u64 + 2 {
            return Ok((None, count));
        }
        let Some(key) = progress.key_at(state.ip + 1, at, state) else {
            unreachable!()
        };
        if progress.memo.fails(key) {
            return Ok((None, count));
        }
        let here = copy_state_after_char_loop(at, state)?;
        push_entry(StackEntry::Record(key), stack)?;
        if !insn_matchers::consume_next_char_if_accepted(searched, run.body, Forward, &mut at) {
            return Ok((Some(here), count));
        }
        push_entry(StackEntry::Thread(here), stack)?;
        count += 1;
    }
}

// Returns the thread at an exit of a lazy loop. If there is a next exit, pushes the loop at that
// exit.
fn take_nearest_exit<Input: InputIndexer>(
    searched: &ProgramAndInput<'_, Input>,
    body: Insn,
    at: Input::Position,
    mut state: State<Input::Position>,
    stack: &mut Vec<StackEntry<Input::Position>>,
) -> Result<State<Input::Position>, AllocError>
    requires test { IsSome (char_test_of_insn searched.now.program.now body) }
    requires at { IsBoundary (Input.text searched.now.input) (Input.Position.offset at) }
    requires bytes { ByteInsnHasByteText body (Input.text searched.now.input) Input.Units.ARE_BYTES }
    requires within { state.ip + 2 < 2 ^ 64 }
    ensures { let s = searched.now in let text = Input.text s.input in (test : ℕ → Bool) (place : ℕ)
        → char_test_of_insn s.program.now body ≡ Some test → place_at text (Input.Position.offset at) ≡ Some place
        → IfOk result (λ here. TakesNearestExit Input.Position.offset text test place at state here
        stack.old.items stack.new.items) }
{
    let here = copy_state_after_char_loop(at, &state)?;
    let mut next = at;
    if insn_matchers::consume_next_char_if_accepted(searched, body, Forward, &mut next) {
        state.pos = next;
        push_entry(StackEntry::PendingLazyLoop(state), stack)?;
    }
    Ok(here)
}

/// Continues a lazy loop at the position of its pending entry.
///
/// The clause `stands` says that an attempt has this entry on top, and `continues` says how that
/// attempt goes on. The clauses `memo`, `left` and `refused` say what stays the same, and that the
/// work left does not grow. The clause `code` says that `insns` is the program's code.
pub(crate) fn resume_lazy_char_loop<Input: InputIndexer>(
    searched: &ProgramAndInput<'_, Input>,
    insns: &[Insn],
    state: State<Input::Position>,
    stack: &mut Vec<StackEntry<Input::Position>>,
    progress: &mut MemoAndWorkBudget,
) -> Result<Option<State<Input::Position>>, AttemptAbortReason>
    requires code { map insn_as_spec_insn insns.now ≡ (compiled (tree_of searched.now.program.now)).insns }
    requires stands { let s = searched.now in
        HasAttemptState Input.Position.offset (compiled (tree_of s.program.now)) (Input.text s.input)
        [] (stack.old.items ++ AsRun state ∷ []) progress.old }
    ensures memo { progress.new.memo ≡ progress.old.memo }
    ensures left { progress.new.left ≤ progress.old.left }
    ensures refused { IfErr result (λ e. e ≡ Work → stack.new.items ≡ stack.old.items) }
    ensures continues { let at = Input.Position.offset in let s = searched.now in
        ContinuesOrStopsInEachAttempt at (compiled (tree_of s.program.now)) (Input.text s.input) []
        (stack.old.items ++ AsRun state ∷ []) progress.old result stack.new.items progress.new }
{
    let at = state.pos;
    let Some(key) = progress.key_at(state.ip + 1, at, &state) else {
        unreachable!()
    };
    if progress.memo.fails(key) {
        progress.spend(1)?;
        return Ok(None);
    }
    progress.spend(2)?;
    push_entry(StackEntry::Record(key), stack)?;
    let next = take_nearest_exit(searched, insns[state.ip + 1], at, state, stack)?;
    Ok(Some(next))
}
