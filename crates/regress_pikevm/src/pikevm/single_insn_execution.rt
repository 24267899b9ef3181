//! Executes one instruction in a state.

ghost use Rattle.std.specs.Prelude.{◌≡◌, ◌<◌, ◌≤◌, ◌^◌, ◌+◌, IfOk, IsTrue, Some, map, [], ◌∷◌, length};
ghost use Rattle.regex_meaning.specs.CodeUnitOffsets.{units};
ghost use Rattle.regex_pattern_front.specs.AstToSpecTree.{spec_sameness_of, tree_of};
ghost use Rattle.regress_input.specs.CharAndByteReadsFromOffset.{direction_of_forward_flag};
ghost use Rattle.regress_program.specs.{CompilationOfTreesAsFunction.{compiled}, InsnsAsSpec.{insn_as_spec_insn, loop_fields_as_spec}};
ghost use Rattle.regress_machine.specs.Machine.{running, waiting, goes, asks, state_with_ip, state_at_next_ip, range_swapped_if_leftwards, iterate_or_leave_at_loop_head, effect_at_iteration_end};
ghost use Rattle.regress_machine.specs.Machine.{loop_again_effect};
ghost use Rattle.regress_machine.specs.InsnEffects.{begin_capture_group_effect, end_capture_group_effect, reset_capture_group_effect, body_entered_with_iteration_count, IsNotStuck};
ghost use Rattle.regress_machine.specs.InsnEffects.{is_read_or_assertion_insn};
ghost use Rattle.regress_pikevm.specs.InsnEffects.{machine_effect_at_state, effect_of_insn, effect_of_range_backref, effect_of_backref};
ghost use Rattle.regress_pikevm.specs.States.{machine_state_of, loop_data_in_offsets, effect_of_next_states};
ghost use Rattle.regress_search.specs.OffsetsAfterMatchedInsns.{ByteInsnHasByteText};

use super::char_loops::{CharLoopBoundsAndGreed, execute_char_loop};
use super::insn_matchers;
use super::states::{LoopData, NextStates, State, copy_state};
use regress_input::cursor::Direction;
use regress_input::front::{CaptureGroupID, LoopID, Sameness};
use regress_input::indexing::InputIndexer;
use regress_input::position::PositionType;
use regress_program::insn::{Insn, LoopFields};
use regress_search::insns_that_read_or_test_text::read_backref_text;
use regress_search::program_and_input::ProgramAndInput;
use std::alloc::AllocError;

/// Executes the instruction at the state's index.
#[inline(always)]
pub fn execute_insn<Input: InputIndexer, Dir: Direction>(
    searched: &ProgramAndInput<'_, Input>,
    insns: &[Insn],
    dir: Dir,
    state: State<Input::Position>,
) -> Result<NextStates<Input::Position>, AllocError>
    requires code { map insn_as_spec_insn insns.now ≡ (compiled (tree_of searched.now.program.now)).insns }
    requires executable { let s = searched.now in
        IsNotStuck (machine_effect_at_state Input.Position.offset s.program.now (Input.text s.input) Dir.FORWARD
        state) }
    requires inside { Input.Position.offset state.pos ≤ units (Input.text searched.now.input) }
    ensures { let s = searched.now in IfOk result (λ t. effect_of_next_states Input.Position.offset t
        ≡ machine_effect_at_state Input.Position.offset s.program.now (Input.text s.input) Dir.FORWARD state) }
{
    let insn = insns[state.ip];
    execute_fetched_insn(insn, searched, insns, dir, state)
}

// Executes one instruction.
// Contract: the result is the effect that the abstract machine gives the instruction in this state.
// `code` and `executable` say that `insns` is the program's code, and that the instruction can run.
// `bytes`, `inside` and `within` say that an instruction on bytes has a text of bytes, and that the
// offset and the instruction's index are in range.
fn execute_fetched_insn<Input: InputIndexer, Dir: Direction>(
    insn: Insn,
    searched: &ProgramAndInput<'_, Input>,
    insns: &[Insn],
    dir: Dir,
    mut state: State<Input::Position>,
) -> Result<NextStates<Input::Position>, AllocError>
    requires code { map insn_as_spec_insn insns.now ≡ (compiled (tree_of searched.now.program.now)).insns }
    requires executable { let s = searched.now in IsNotStuck (effect_of_insn Input.Position.offset
        s.program.now (Input.text s.input) Dir.FORWARD insn state) }
    requires bytes { ByteInsnHasByteText insn (Input.text searched.now.input) Input.Units.ARE_BYTES }
    requires inside { Input.Position.offset state.pos ≤ units (Input.text searched.now.input) }
    requires within { state.ip + 1 < 2 ^ 64 }
    ensures { let s = searched.now in IfOk result (λ t. effect_of_next_states Input.Position.offset t
        ≡ effect_of_insn Input.Position.offset s.program.now (Input.text s.input) Dir.FORWARD insn state) }
{
    match insn {
        Insn::Goal => Ok(NextStates::Accept(state)),
        Insn::Jump { target } => {
            state.ip = target as usize;
            Ok(NextStates::Continue(state))
        }
        Insn::Alt { secondary } => fork_thread_at_insn(secondary, state),
        Insn::EnterLoop { .. } => execute_loop_start(insn.loop_fields(), state.ip, 0, state),
        Insn::LoopAgain { begin } => execute_loop_end(insns[begin as usize], begin as usize, state),
        Insn::Loop1CharBody {
            min_iters,
            max_iters,
            greedy,
        } => {
            let run = CharLoopBoundsAndGreed {
                min_iters,
                max_iters,
                greedy,
            };
            let body = insns[state.ip + 1];
            execute_char_loop(run, body, searched, dir, state)
        }
        Insn::BeginCaptureGroup(id) => Ok(open_group(id, state)),
        Insn::EndCaptureGroup(id) => Ok(close_group(id, dir, state)),
        Insn::ResetCaptureGroup(id) => Ok(reset_group(id, state)),
        Insn::BackRef { group, same } => Ok(execute_backref(group, same, searched, dir, state)),
        Insn::Lookahead {
            negate,
            continuation,
            ..
        } => fork_lookaround(true, negate, continuation, state),
        Insn::Lookbehind {
            negate,
            continuation,
            ..
        } => fork_lookaround(false, negate, continuation, state),
        _ => Ok(execute_read_or_assertion(insn, searched, dir, state)),
    }
}

// Executes an instruction that only reads or tests the text. The thread continues at the next
// instruction, or fails.
// The contract is that of `execute_fetched_insn` without `code`, for an instruction that only reads
// or tests (`reader`).
#[inline(always)]
fn execute_read_or_assertion<Input: InputIndexer, Dir: Direction>(
    insn: Insn,
    searched: &ProgramAndInput<'_, Input>,
    dir: Dir,
    mut state: State<Input::Position>,
) -> NextStates<Input::Position>
    requires executable { let s = searched.now in IsNotStuck (effect_of_insn Input.Position.offset
        s.program.now (Input.text s.input) Dir.FORWARD insn state) }
    requires reader { IsTrue (is_read_or_assertion_insn (insn_as_spec_insn insn)) }
    requires bytes { ByteInsnHasByteText insn (Input.text searched.now.input) Input.Units.ARE_BYTES }
    requires inside { Input.Position.offset state.pos ≤ units (Input.text searched.now.input) }
    requires within { state.ip + 1 < 2 ^ 64 }
    ensures { let s = searched.now in effect_of_next_states Input.Position.offset result
        ≡ effect_of_insn Input.Position.offset s.program.now (Input.text s.input) Dir.FORWARD insn state }
{
    if insn_matchers::match_read_or_assertion_insn(searched, insn, dir, &mut state.pos) {
        state.ip += 1;
        NextStates::Continue(state)
    } else {
        NextStates::Dead
    }
}

// Forks into a thread at the next instruction, which is preferred, and one at index `secondary`.
fn fork_thread_at_insn<P: PositionType>(
    secondary: u32,
    mut state: State<P>,
) -> Result<NextStates<P>, AllocError>
    requires { state.ip + 1 < 2 ^ 64 }
    ensures { let s = machine_state_of P.offset state in IfOk result (λ t. effect_of_next_states P.offset t
        ≡ goes (running (state_at_next_ip s) ∷ waiting (state_with_ip secondary s) ∷ [])) }
{
    let mut second = copy_state(&state)?;
    second.ip = secondary as usize;
    state.ip += 1;
    Ok(NextStates::Fork(state, second))
}

// Forks into the search of a lookaround, which begins at the next instruction, and the thread that
// continues at `continuation` after it.
fn fork_lookaround<P: PositionType>(
    forward: bool,
    negate: bool,
    continuation: u32,
    mut state: State<P>,
) -> Result<NextStates<P>, AllocError>
    requires { state.ip + 1 < 2 ^ 64 }
    ensures { let s = machine_state_of P.offset state in IfOk result (λ t. effect_of_next_states P.offset t
        ≡ asks (direction_of_forward_flag forward) negate (state_at_next_ip s) (state_with_ip continuation s)) }
{
    let mut inner = copy_state(&state)?;
    inner.ip += 1;
    state.ip = continuation as usize;
    Ok(NextStates::Lookaround {
        forward,
        negate,
        inner,
        after: state,
    })
}

// ---- Groups

// Opens a group at the current position. Its earlier range is forgotten.
fn open_group<P: PositionType>(id: CaptureGroupID, mut state: State<P>) -> NextStates<P>
    requires executable { IsNotStuck (begin_capture_group_effect id (machine_state_of P.offset state)) }
    requires within { state.ip + 1 < 2 ^ 64 }
    ensures { effect_of_next_states P.offset result ≡ begin_capture_group_effect id (machine_state_of P.offset state) }
{
    let id = id as usize;
    state.ip += 1;
    state.groups[id] = None;
    state.starts[id] = state.pos;
    NextStates::Continue(state)
}

// Closes a group at the current position. In a leftward search, this is where its range begins.
fn close_group<P: PositionType, Dir: Direction>(
    id: CaptureGroupID,
    dir: Dir,
    mut state: State<P>,
) -> NextStates<P>
    requires executable { IsNotStuck (end_capture_group_effect id (direction_of_forward_flag Dir.FORWARD)
        (machine_state_of P.offset state)) }
    requires within { state.ip + 1 < 2 ^ 64 }
    ensures { effect_of_next_states P.offset result ≡ end_capture_group_effect id
        (direction_of_forward_flag Dir.FORWARD) (machine_state_of P.offset state) }
{
    let id = id as usize;
    let start = state.starts[id];
    state.ip += 1;
    state.groups[id] = Some(span_in_ascending_order(dir, start, state.pos));
    NextStates::Continue(state)
}

// Returns the range between two positions, in ascending order. `to` was reached from `from`.
#[inline(always)]
fn span_in_ascending_order<P: PositionType, Dir: Direction>(_dir: Dir, from: P, to: P) -> (P, P)
    ensures { (P.offset result.0, P.offset result.1)
        ≡ range_swapped_if_leftwards (direction_of_forward_flag Dir.FORWARD) (P.offset from) (P.offset to) }
{
    if Dir::FORWARD { (from, to) } else { (to, from) }
}

// Forgets the range of a group, as each iteration of a loop around the group requires.
fn reset_group<P: PositionType>(id: CaptureGroupID, mut state: State<P>) -> NextStates<P>
    requires executable { IsNotStuck (reset_capture_group_effect id (machine_state_of P.offset state)) }
    requires within { state.ip + 1 < 2 ^ 64 }
    ensures { effect_of_next_states P.offset result ≡ reset_capture_group_effect id (machine_state_of P.offset state) }
{
    state.ip += 1;
    state.groups[id as usize] = None;
    NextStates::Continue(state)
}

// ---- Backreferences

// Matches the characters of a group again.
fn execute_backref<Input: InputIndexer, Dir: Direction>(
    group: u32,
    same: Sameness,
    searched: &ProgramAndInput<'_, Input>,
    dir: Dir,
    state: State<Input::Position>,
) -> NextStates<Input::Position>
    requires executable { IsNotStuck (effect_of_backref Input.Position.offset
        (Input.text searched.now.input) Dir.FORWARD (spec_sameness_of same) group state) }
    requires within { state.ip + 1 < 2 ^ 64 }
    ensures { let at = Input.Position.offset in
        effect_of_next_states at result ≡ effect_of_backref at (Input.text searched.now.input) Dir.FORWARD
        (spec_sameness_of same) group state }
{
    let range = state.groups[group as usize];
    read_range_again(range, same, searched, dir, state)
}

// Matches the characters of a range again. If there is no range, it matches the empty string.
fn read_range_again<Input: InputIndexer, Dir: Direction>(
    range: Option<(Input::Position, Input::Position)>,
    same: Sameness,
    searched: &ProgramAndInput<'_, Input>,
    dir: Dir,
    mut state: State<Input::Position>,
) -> NextStates<Input::Position>
    requires executable { IsNotStuck (effect_of_range_backref Input.Position.offset
        (Input.text searched.now.input) Dir.FORWARD (spec_sameness_of same) range state) }
    requires within { state.ip + 1 < 2 ^ 64 }
    ensures { let at = Input.Position.offset in
        effect_of_next_states at result ≡ effect_of_range_backref at (Input.text searched.now.input) Dir.FORWARD
        (spec_sameness_of same) range state }
{
    let Some(span) = range else {
        state.ip += 1;
        return NextStates::Continue(state);
    };
    if read_backref_text(span.0, span.1, same, &searched.input, dir, &mut state.pos) {
        state.ip += 1;
        NextStates::Continue(state)
    } else {
        NextStates::Dead
    }
}

// ---- Loops

// Executes the start of a loop before iteration `k`: enters the iteration, exits the loop, or forks
// to both.
fn execute_loop_start<P: PositionType>(
    fields: LoopFields,
    begin: usize,
    k: usize,
    mut state: State<P>,
) -> Result<NextStates<P>, AllocError>
    requires executable { IsNotStuck (iterate_or_leave_at_loop_head (loop_fields_as_spec fields) begin k
        (machine_state_of P.offset state)) }
    requires within { begin + 1 < 2 ^ 64 }
    ensures { IfOk result (λ t. effect_of_next_states P.offset t
        ≡ iterate_or_leave_at_loop_head (loop_fields_as_spec fields) begin k (machine_state_of P.offset state)) }
{
    let may_leave = fields.min_iters <= k;
    if k >= fields.max_iters {
        state.ip = fields.exit as usize;
        return Ok(if may_leave {
            NextStates::Continue(state)
        } else {
            NextStates::Dead
        });
    }
    if !may_leave {
        return Ok(NextStates::Continue(state_at_iteration_start(fields.loop_id, begin, k, state)));
    }
    let mut leaving = copy_state(&state)?;
    leaving.ip = fields.exit as usize;
    let again = state_at_iteration_start(fields.loop_id, begin, k, state);
    if fields.greedy {
        Ok(NextStates::Fork(again, leaving))
    } else {
        Ok(NextStates::Fork(leaving, again))
    }
}

// Returns the state at the start of iteration `k`.
fn state_at_iteration_start<P: PositionType>(
    id: LoopID,
    begin: usize,
    k: usize,
    mut state: State<P>,
) -> State<P>
    requires known { id < length state.loops.items }
    requires within { begin + 1 < 2 ^ 64 }
    ensures { machine_state_of P.offset result ≡ body_entered_with_iteration_count id begin k
        (machine_state_of P.offset state) }
{
    state.ip = begin + 1;
    state.loops[id as usize] = LoopData {
        iters: k,
        entry: state.pos,
    };
    state
}

// Executes the end of an iteration. `head` is the first instruction of the loop.
fn execute_loop_end<P: PositionType>(
    head: Insn,
    begin: usize,
    state: State<P>,
) -> Result<NextStates<P>, AllocError>
    requires executable { IsNotStuck (loop_again_effect (Some (insn_as_spec_insn head)) begin
        (machine_state_of P.offset state)) }
    requires within { begin + 1 < 2 ^ 64 }
    ensures { IfOk result (λ t. effect_of_next_states P.offset t
        ≡ loop_again_effect (Some (insn_as_spec_insn head)) begin (machine_state_of P.offset state)) }
{
    match head {
        Insn::EnterLoop { .. } => {
            let fields = head.loop_fields();
            let last = state.loops[fields.loop_id as usize];
            execute_loop_end_with_data(fields, begin, last, state)
        }
        _ => unreachable!(),
    }
}

// Executes the end of an iteration, given the loop's data `last`. If the iteration is empty and
// past the minimum, the thread fails.
fn execute_loop_end_with_data<P: PositionType>(
    fields: LoopFields,
    begin: usize,
    last: LoopData<P>,
    state: State<P>,
) -> Result<NextStates<P>, AllocError>
    requires executable { IsNotStuck
        (effect_at_iteration_end (loop_fields_as_spec fields) begin (loop_data_in_offsets P.offset last)
        (machine_state_of P.offset state)) }
    requires within { begin + 1 < 2 ^ 64 }
    ensures { IfOk result (λ t. effect_of_next_states P.offset t
        ≡ effect_at_iteration_end (loop_fields_as_spec fields) begin (loop_data_in_offsets P.offset last)
        (machine_state_of P.offset state)) }
{
    if last.entry == state.pos && fields.min_iters < last.iters + 1 {
        Ok(NextStates::Dead)
    } else {
        execute_loop_start(fields, begin, last.iters + 1, state)
    }
}
