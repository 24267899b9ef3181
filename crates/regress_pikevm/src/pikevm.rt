//! The executor that copies its states. It is kept simple: each pending thread has a state of its
//! own.

ghost use Rattle.std.specs.Prelude.{◌≡◌, ◌<◌, ◌≤◌, ◌++◌, map, IsTrue, IsAscii, IsSome, IfOk, option_map, ⊤};
ghost use Rattle.std.proofs.Common.{refl};
ghost use Rattle.regex_meaning.specs.{Text.{ascii_text, ucs2_text, utf16_text, utf8_text}, CodeUnitOffsets.{IsBoundary, units}};
ghost use Rattle.regex_pattern_front.specs.AstToSpecTree.{tree_of};
ghost use Rattle.regress_program.specs.{CompilationOfTreesAsFunction.{compiled}, InsnsAsSpec.{insn_as_spec_insn}};
ghost use Rattle.regress_machine.specs.{Machine.{first_running_and_others_waiting}, InsnEffects.{IsNotStuck}};
ghost use Rattle.regress_search.specs.AttemptsAndStarts.{match_end_and_groups_at};
ghost use Rattle.regress_search.specs.NewExecutorsAndAsciiTexts.{IsNewExecutor};
ghost use Rattle.regress_pikevm.specs.InsnEffects.{end_and_groups, search_from_state, machine_effect_at_state, SearchEndsWithState};
ghost use Rattle.regress_pikevm.specs.States.{groups_as_offset_ranges, effect_of_next_states, threads_of_stack, pending_threads, states_by_priority, TakesFirstOfPendingThreads};

pub mod char_loops;
pub mod insn_matchers;
pub mod single_insn_execution;
pub mod states;

use self::single_insn_execution::execute_insn;
use self::states::{NextStates, State, initial_state, resume_after_lookaround};
use regress_input::cursor::{Backward, Forward};
use regress_input::indexing::{AsciiInput, InputIndexer, Ucs2Input, Utf8Input, Utf16Input};
use regress_input::position::PositionType;
use regress_program::insn::{CompiledRegex, CompiledRegexFor16BitUnits, Insn, Program};
use regress_search::exec::{Executor, ProducerFromProgramAndText, SearchError, SearchState};
use regress_search::program_and_input::ProgramAndInput;
use regress_search::search_loop::{SingleAttemptExecutor, position_range_of_group};
use std::alloc::{AllocError, Global};

/// An executor that runs a program on a text and copies whole states.
#[derive(Drop)]
pub struct PikeVMExecutor<'r, Input: InputIndexer> {
    searched: ProgramAndInput<'r, Input>,
    // The states of the pending threads. The next one is last.
    stack: Vec<State<Input::Position>>,
    // The groups of the last attempt that found an end.
    groups: Vec<Option<(Input::Position, Input::Position)>>,
}

impl<'r, Input: InputIndexer> PikeVMExecutor<'r, Input> {
    // Creates an executor that has made no attempt. This allocates no memory.
    fn new_executor(searched: ProgramAndInput<'r, Input>) -> Self
        ensures { result.searched ≡ searched.entry }
    {
        let alloc = searched.program.allocator();
        PikeVMExecutor {
            searched,
            stack: Vec::new(alloc),
            groups: Vec::new(alloc),
        }
    }
}

/// Executes one instruction in a direction.
#[inline(always)]
pub fn execute_in_direction<Input: InputIndexer>(
    searched: &ProgramAndInput<'_, Input>,
    insns: &[Insn],
    forward: bool,
    state: State<Input::Position>,
) -> Result<NextStates<Input::Position>, AllocError>
    requires code { map insn_as_spec_insn insns.now ≡ (compiled (tree_of searched.now.program.now)).insns }
    requires executable { let s = searched.now in
        IsNotStuck (machine_effect_at_state Input.Position.offset s.program.now (Input.text s.input) forward state) }
    requires inside { Input.Position.offset state.pos ≤ units (Input.text searched.now.input) }
    ensures { let s = searched.now in IfOk result (λ t. effect_of_next_states Input.Position.offset t
        ≡ machine_effect_at_state Input.Position.offset s.program.now (Input.text s.input) forward state) }
{
    if forward {
        execute_insn(searched, insns, Forward, state)
    } else {
        execute_insn(searched, insns, Backward, state)
    }
}

// Returns the current state if there is one. Otherwise pops the last state of the stack.
#[inline(always)]
fn current_or_popped_state<P: PositionType>(
    next: Option<State<P>>,
    stack: &mut Vec<State<P>>,
) -> Option<State<P>>
    ensures { TakesFirstOfPendingThreads P.offset (pending_threads P.offset next stack.old.items) result
        stack.new.items }
{
    match next {
        Some(state) => Some(state),
        None => stack.pop(),
    }
}

/// Returns the preferred state, and pushes the others.
pub fn take_preferred_exit_and_push_others<P: PositionType>(
    mut states: Vec<State<P>>,
    stack: &mut Vec<State<P>>,
) -> Result<Option<State<P>>, AllocError>
    ensures { IfOk result (λ next. pending_threads P.offset next stack.new.items
        ≡ first_running_and_others_waiting (states_by_priority P.offset states.items) ++ threads_of_stack P.offset
        stack.old.items) }
{
    let Some(next) = states.pop() else {
        return Ok(None);
    };
    stack.append(&mut states)?;
    Ok(Some(next))
}

// Returns the preferred end state that can be reached from a state. Returns `None` if there is
// none. The search is part of an attempt at the position `at`.
fn run<Input: InputIndexer>(
    searched: &ProgramAndInput<'_, Input>,
    at: Input::Position,
    forward: bool,
    stack: &mut Vec<State<Input::Position>>,
    start: State<Input::Position>,
) -> Result<Option<State<Input::Position>>, AllocError>
    requires inside { Input.Position.offset start.pos ≤ units (Input.text searched.now.input) }
    requires terminates { let s = searched.now in IsSome (search_from_state Input.Position.offset s.program.now
        (Input.text s.input) forward (Input.Position.offset at) start) }
    ensures { let s = searched.now in IfOk result (SearchEndsWithState Input.Position.offset s.program.now
        (Input.text s.input) forward (Input.Position.offset at) start) }
{
    stack.clear();
    let insns = searched.program.insns();
    let mut next = Some(start);
    'search: loop {
        let Some(state) = current_or_popped_state(next, stack) else {
            return Ok(None);
        };
        match execute_in_direction(searched, insns, forward, state)? {
            NextStates::Dead => next = None,
            NextStates::Continue(state) => next = Some(state),
            NextStates::Fork(preferred, other) => {
                stack.push(other)?;
                next = Some(preferred);
            }
            NextStates::CharLoopExits(_, states) => next = take_preferred_exit_and_push_others(
                states, stack,
            )?,
            NextStates::Lookaround {
                forward,
                negate,
                inner,
                after,
            } => {
                let mut alone = Vec::new(*stack.allocator());
                let found = run(searched, at, forward, &mut alone, inner)?;
                next = resume_after_lookaround(negate, after, found);
            }
            NextStates::Accept(end) => return Ok(Some(end)),
        }
    }
}

// Returns the state at the end of the preferred match that begins at a position. Returns `None` if
// there is none.
fn preferred_final_state<Input: InputIndexer>(
    searched: &ProgramAndInput<'_, Input>,
    stack: &mut Vec<State<Input::Position>>,
    pos: Input::Position,
) -> Result<Option<State<Input::Position>>, AllocError>
    requires { IsBoundary (Input.text searched.now.input) (Input.Position.offset pos) }
    ensures { let s = searched.now in IfOk result (λ end. end_and_groups Input.Position.offset end
        ≡ match_end_and_groups_at (tree_of s.program.now) (Input.text s.input) (Input.Position.offset pos)) }
{
    let start = initial_state(searched.program, pos)?;
    let end = run(searched, pos, true, stack, start)?;
    Ok(end)
}

impl<'r, Input: InputIndexer> SearchState for PikeVMExecutor<'r, Input> {
    ghost tree = { λ e. tree_of e.searched.program.now };

    ghost text = { λ e. Input.text e.searched.input };
}

impl<'r, Input: InputIndexer> SingleAttemptExecutor for PikeVMExecutor<'r, Input> {
    type Input = Input;

    ghost groups = { λ e. groups_as_offset_ranges Input.Position.offset e.groups.items };

    ghost is_text = { λ e. Input.is_text e.searched.input };

    fn program(&self) -> &Program {
        self.searched.program
    }

    fn input(&self) -> &Input {
        &self.searched.input
    }

    fn attempt(&mut self, pos: Input::Position) -> Result<Option<Input::Position>, SearchError> {
        match preferred_final_state(&self.searched, &mut self.stack, pos)? {
            Some(end) => {
                let pos = end.pos;
                self.groups = end.groups;
                Ok(Some(pos))
            }
            None => Ok(None),
        }
    }

    fn group_count(&self) -> usize {
        self.groups.len()
    }

    fn group(&self, id: usize) -> Option<(Input::Position, Input::Position)> {
        position_range_of_group(&self.groups, id)
    }

    fn first_start_to_try_from(&self, pos: Input::Position) -> Option<Input::Position> {
        Some(pos)
    }

    fn next_start_after_failure(&self, tried: Input::Position) -> Option<Input::Position> {
        self.searched.position_after_failure(tried)
    }
}

impl<'r, 't> ProducerFromProgramAndText<'r> for PikeVMExecutor<'r, Utf8Input<'t>> {
    type Text = &'t str;

    ghost can_search = { λ _. ⊤ };

    ghost text_of = { λ text. utf8_text text.now };

    fn new(re: &'r CompiledRegex, text: &'t str) -> Result<Self, AllocError> {
        Ok(PikeVMExecutor::new_executor(ProgramAndInput::pair_with_utf8_text(re, text)))
    }
}

impl<'r, 't> Executor<'r, 't> for PikeVMExecutor<'r, Utf8Input<'t>> {
    type AsAscii = PikeVMExecutor<'r, AsciiInput<'t>>;

    ghost takes_ascii = { λ _ is_ascii. is_ascii };

    ghost reads_ascii = { refl };
}

impl<'r, 't> ProducerFromProgramAndText<'r> for PikeVMExecutor<'r, AsciiInput<'t>> {
    type Text = &'t str;

    // `is_ascii` checks this.
    ghost can_search = { λ text. IsAscii text.now };

    ghost text_of = { λ text. ascii_text text.now };

    fn new(re: &'r CompiledRegex, text: &'t str) -> Result<Self, AllocError> {
        Ok(PikeVMExecutor::new_executor(ProgramAndInput::pair_with_ascii_text(re, text)))
    }
}

impl<'r, 't> Executor<'r, 't> for PikeVMExecutor<'r, AsciiInput<'t>> {
    type AsAscii = Self;

    ghost takes_ascii = { λ _ is_ascii. is_ascii };

    ghost reads_ascii = { refl };
}

impl<'r, 't> PikeVMExecutor<'r, Utf16Input<'t>> {
    /// Searches a text in UTF-16 with the program `re`.
    ///
    /// # Errors
    ///
    /// Never returns `Err` at present, because it allocates no memory.
    pub fn new_utf16(
        re: &'r CompiledRegexFor16BitUnits,
        text: &'t [u16],
    ) -> Result<Self, AllocError>
        ensures { IfOk result (IsNewExecutor ⟦<PikeVMExecutor<'r, Utf16Input<'t>> as SearchState>⟧ (tree_of re.now)
            (utf16_text text.now)) }
    {
        Ok(PikeVMExecutor::new_executor(ProgramAndInput::pair_with_utf16_text(re, text)))
    }
}

impl<'r, 't> PikeVMExecutor<'r, Ucs2Input<'t>> {
    /// Searches a text in UCS-2 with the program `re`.
    ///
    /// # Errors
    ///
    /// Never returns `Err` at present, because it allocates no memory.
    pub fn new_ucs2(re: &'r CompiledRegexFor16BitUnits, text: &'t [u16]) -> Result<Self, AllocError>
        ensures { IfOk result (IsNewExecutor ⟦<PikeVMExecutor<'r, Ucs2Input<'t>> as SearchState>⟧ (tree_of re.now)
            (ucs2_text text.now)) }
    {
        Ok(PikeVMExecutor::new_executor(ProgramAndInput::pair_with_ucs2_text(re, text)))
    }
}
