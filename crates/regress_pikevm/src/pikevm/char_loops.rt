//! Char loops: reading characters one by one, and the exits after each number of characters between
//! the bounds.

ghost use Rattle.std.specs.Prelude.{◌≡◌, ◌<◌, ◌^◌, ◌+◌, ℕ, IfOk, OnOk, IsTrue, IsSome, if◌then◌else◌, reverse};
ghost use Rattle.regex_meaning.specs.CodeUnitOffsets.{IsBoundary};
ghost use Rattle.regress_program.specs.InsnsAsSpec.{insn_as_spec_insn};
ghost use Rattle.regress_machine.specs.InsnEffects.{state_after_char_loop_to_offset, IsNotStuck};
ghost use Rattle.regress_search.specs.OffsetsAfterMatchedInsns.{ByteInsnHasByteText, char_test_of_insn};
ghost use Rattle.regress_pikevm.specs.{InsnEffects.{effect_of_char_loop, LoopExitsAreStates, PushesExitIfWanted}, States.{machine_state_of, effect_of_next_states}};

use super::insn_matchers;
use super::states::{NextStates, State, copy_state};
use regress_input::cursor::Direction;
use regress_input::indexing::InputIndexer;
use regress_input::position::PositionType;
use regress_program::insn::Insn;
use regress_search::program_and_input::ProgramAndInput;
use std::alloc::AllocError;

/// The minimum and the maximum number of iterations of a char loop, and whether it prefers more
/// iterations.
#[derive(Clone, Copy)]
pub(crate) struct CharLoopBoundsAndGreed {
    pub min_iters: usize,
    pub max_iters: usize,
    pub greedy: bool,
}

/// Executes a char loop, whose body is an instruction that reads one character.
///
/// The clause says that the result is the loop's effect in the machine (`effect_of_char_loop`). The
/// machine is not stuck there, and a body that reads bytes has a text of bytes.
pub(crate) fn execute_char_loop<Input: InputIndexer, Dir: Direction>(
    run: CharLoopBoundsAndGreed,
    body: Insn,
    searched: &ProgramAndInput<'_, Input>,
    dir: Dir,
    state: State<Input::Position>,
) -> Result<NextStates<Input::Position>, AllocError>
    requires executable { let s = searched.now in IsNotStuck (effect_of_char_loop Input.Position.offset
        s.program.now (Input.text s.input) Dir.FORWARD run body state) }
    requires bytes { ByteInsnHasByteText body (Input.text searched.now.input) Input.Units.ARE_BYTES }
    requires within { state.ip + 2 < 2 ^ 64 }
    ensures { let s = searched.now in IfOk result (λ t. effect_of_next_states Input.Position.offset t
        ≡ effect_of_char_loop Input.Position.offset s.program.now (Input.text s.input) Dir.FORWARD run body state) }
{
    let (tries, states) = states_at_loop_exits(run, body, searched, dir, &state)?;
    Ok(NextStates::CharLoopExits(tries, states_by_priority(run.greedy, states)))
}

// Takes states in ascending order of iterations, and orders them so that the preferred one is last.
fn states_by_priority<P: PositionType>(greedy: bool, mut states: Vec<State<P>>) -> Vec<State<P>>
    ensures { result.items ≡ (if greedy then states.items else reverse states.items) }
{
    if !greedy {
        states.reverse();
    }
    states
}

// Returns the number of characters that were tested, and the states at the exits in ascending order
// of iterations.
fn states_at_loop_exits<Input: InputIndexer, Dir: Direction>(
    run: CharLoopBoundsAndGreed,
    body: Insn,
    searched: &ProgramAndInput<'_, Input>,
    dir: Dir,
    state: &State<Input::Position>,
) -> Result<(usize, Vec<State<Input::Position>>), AllocError>
    requires test { IsSome (char_test_of_insn searched.now.program.now body) }
    requires boundary { IsBoundary (Input.text searched.now.input) (Input.Position.offset state.now.pos) }
    requires bytes { ByteInsnHasByteText body (Input.text searched.now.input) Input.Units.ARE_BYTES }
    requires within { state.now.ip + 2 < 2 ^ 64 }
    ensures { let s = searched.now in IfOk result (λ r. LoopExitsAreStates Input.Position.offset
        s.program.now (Input.text s.input) Dir.FORWARD run body state.now r.0 r.1.items) }
{
    let mut states = Vec::new(*state.groups.allocator());
    let mut at = state.pos;
    let mut count = 0;
    'characters: loop {
        push_if_wanted(run.min_iters <= count, at, state, &mut states)?;
        if count == run.max_iters {
            return Ok((count, states));
        }
        if !insn_matchers::consume_next_char_if_accepted(searched, body, dir, &mut at) {
            return Ok((count + 1, states));
        }
        count += 1;
    }
}

// Pushes another exit state if `wanted`.
fn push_if_wanted<P: PositionType>(
    wanted: bool,
    at: P,
    state: &State<P>,
    states: &mut Vec<State<P>>,
) -> Result<(), AllocError>
    requires { state.now.ip + 2 < 2 ^ 64 }
    ensures { OnOk result (PushesExitIfWanted P.offset wanted at state.now states.old.items states.new.items) }
{
    if wanted {
        states.push(copy_state_after_char_loop(at, state)?)?;
    }
    Ok(())
}

/// Returns the state after a char loop that exits at a position.
pub fn copy_state_after_char_loop<P: PositionType>(
    at: P,
    state: &State<P>,
) -> Result<State<P>, AllocError>
    requires { state.now.ip + 2 < 2 ^ 64 }
    ensures { IfOk result (λ s. machine_state_of P.offset s
        ≡ state_after_char_loop_to_offset (P.offset at) (machine_state_of P.offset state.now)) }
{
    let mut next = copy_state(state)?;
    next.ip += 2;
    next.pos = at;
    Ok(next)
}
