//! The states of an executor, and the results of executing an instruction.

ghost use Rattle.std.specs.Prelude.{◌≡◌, IfOk, map, replicate, option_map};
ghost use Rattle.std.specs.Option.{option_to_list};
ghost use Rattle.regex_pattern_front.specs.AstToSpecTree.{tree_of};
ghost use Rattle.regress_program.specs.CompilationOfTreesAsFunction.{compiled};
ghost use Rattle.regress_machine.specs.{Machine.{after_lookaround}, SearchFindsFirstOutcomeAtPlace.{state_before_first_insn}};
ghost use Rattle.regress_pikevm.specs.States.{machine_state_of, current_thread_if_any};

use regress_input::position::PositionType;
use regress_program::insn::Program;
use std::alloc::{AllocError, Global};

/// The number of finished iterations of a loop, and the position at which the current iteration
/// began.
#[derive(Clone, Copy)]
pub struct LoopData<P> {
    pub iters: usize,
    pub entry: P,
}

/// The state of a thread: its instruction and position, the groups, the start of each open group,
/// and the data of the loops.
#[derive(Drop)]
pub struct State<P> {
    pub ip: usize,
    pub pos: P,
    pub groups: Vec<Option<(P, P)>>,
    pub starts: Vec<P>,
    pub loops: Vec<LoopData<P>>,
}

/// The threads after an instruction, in order of priority.
#[derive(Drop)]
pub enum NextStates<P> {
    /// The thread has failed.
    Dead,
    Continue(State<P>),
    Fork(State<P>, State<P>),
    /// The number of characters that were tested, and the threads at the exits, with the preferred
    /// one last.
    CharLoopExits(usize, Vec<State<P>>),
    /// The search from `inner` decides whether the thread `after` continues.
    Lookaround {
        forward: bool,
        negate: bool,
        inner: State<P>,
        after: State<P>,
    },
    /// The search has ended.
    Accept(State<P>),
}

/// Copies a state.
pub(crate) fn copy_state<P: PositionType>(state: &State<P>) -> Result<State<P>, AllocError>
    ensures { IfOk result (λ s. machine_state_of P.offset s ≡ machine_state_of P.offset state.now) }
{
    Ok(State {
        ip: state.ip,
        pos: state.pos,
        groups: Vec::from_slice(*state.groups.allocator(), &state.groups)?,
        starts: Vec::from_slice(*state.starts.allocator(), &state.starts)?,
        loops: Vec::from_slice(*state.loops.allocator(), &state.loops)?,
    })
}

// Returns a vector of `count` copies of a value.
fn copies<T: Copy>(alloc: Global, value: T, count: usize) -> Result<Vec<T>, AllocError>
    ensures { IfOk result (λ v. v.items ≡ replicate count value) }
{
    let mut values = Vec::with_capacity(alloc, count)?;
    for _ in 0..count {
        values.push(value)?;
    }
    Ok(values)
}

/// Returns the state before the first instruction.
pub fn initial_state<P: PositionType>(program: &Program, pos: P) -> Result<State<P>, AllocError>
    ensures { IfOk result (λ s. machine_state_of P.offset s
        ≡ state_before_first_insn (compiled (tree_of program.now)) (P.offset pos)) }
{
    let alloc = program.allocator();
    let groups = program.groups() as usize;
    let loops = program.loops() as usize;
    Ok(State {
        ip: 0,
        pos,
        groups: copies(alloc, None, groups)?,
        starts: copies(alloc, pos, groups)?,
        loops: copies(
            alloc,
            LoopData {
                iters: 0,
                entry: pos,
            },
            loops,
        )?,
    })
}

/// Returns the state that continues after a lookaround, given the end of its search. After a
/// positive lookaround, it keeps the groups and loop data of that search. Returns `None` if the
/// lookaround fails.
pub fn resume_after_lookaround<P: PositionType>(
    negate: bool,
    after: State<P>,
    found: Option<State<P>>,
) -> Option<State<P>>
    ensures { current_thread_if_any P.offset result
        ≡ after_lookaround negate (machine_state_of P.offset after)
        (option_map (λ s. machine_state_of P.offset s) found) }
{
    match found {
        Some(mut inner) => {
            if negate {
                return None;
            }
            inner.ip = after.ip;
            inner.pos = after.pos;
            Some(inner)
        }
        None => { if negate { Some(after) } else { None } }
    }
}
