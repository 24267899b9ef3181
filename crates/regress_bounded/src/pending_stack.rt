//! The stack of pending entries below the current thread: threads, lazy loops, and records.

ghost use Rattle.std.specs.Prelude.{◌≡◌, ◌++◌, ◌∷◌, [], map, OnOk};
ghost use Rattle.regress_pikevm.specs.States.{loop_data_in_offsets};

use regress_input::front::LoopID;
use regress_input::position::PositionType;
use regress_memo::loop_data_key_codes::{IterationStatesOfAllLoops, LoopCountAndIterationStart};
use regress_memo::memo::ThreadMemoKey;
use regress_pikevm::pikevm::states::State;
use regress_program::insn::Insn;
use std::alloc::AllocError;

/// A pending entry.
#[derive(Drop)]
pub(crate) enum StackEntry<P> {
    Thread(State<P>),
    /// A lazy char loop without a maximum, at the position where it continues.
    PendingLazyLoop(State<P>),
    /// The record of a key. When it is popped, all entries that were above it have failed.
    Record(ThreadMemoKey),
}

/// A char loop without a maximum: the instruction that reads its characters, its minimum, and
/// whether it is greedy.
#[derive(Clone, Copy)]
pub(crate) struct UnboundedCharLoop {
    pub(crate) body: Insn,
    pub(crate) least: usize,
    pub(crate) greedy: bool,
}

/// Pushes an entry onto the stack. Returns `Err` if an allocation fails.
pub(crate) fn push_entry<P: PositionType>(
    one: StackEntry<P>,
    stack: &mut Vec<StackEntry<P>>,
) -> Result<(), AllocError>
    ensures { OnOk result (stack.new.items ≡ stack.old.items ++ one ∷ []) }
{
    stack.push(one)?;
    Ok(())
}

/// The loop states of a thread's state.
#[derive(Drop)]
pub(crate) struct ThreadLoopStates<'s, P> {
    pub(crate) state: &'s State<P>,
}

impl<P: PositionType> IterationStatesOfAllLoops for ThreadLoopStates<'_, P> {
    ghost rounds = { λ l. map (loop_data_in_offsets P.offset) l.state.now.loops.items };

    fn iteration_state_of_loop(&self, id: LoopID) -> Option<LoopCountAndIterationStart> {
        match self.state.loops.get(usize::from(id)) {
            Some(held) => Some(LoopCountAndIterationStart {
                iters: held.iters,
                entry: held.entry.to_offset(),
            }),
            None => None,
        }
    }
}
