//! The position of a thread, and the result of executing an operation.

ghost use Rattle.std.specs.Prelude.{◌≡◌, ◌<◌, ◌+◌, ◌^◌, IsSome};
ghost use Rattle.regress_search.specs.TreePlanAndText.{insn_at};

use regress_program::ops::LookaroundAndNextOp;
use regress_search::search_context::SearchContext;

/// The position of a thread: the index of the current instruction, and an offset.
#[derive(Clone, Copy)]
pub struct ThreadPos {
    pub ip: usize,
    pub at: usize,
}

/// A thread position, and the direction in which a thread continues from it.
#[derive(Clone, Copy)]
pub struct DirectedThreadPos {
    pub here: ThreadPos,
    pub forward: bool,
}

/// Returns the position of the next instruction, at the same offset.
#[inline(always)]
pub fn pos_of_next_op<W: SearchContext>(context: &W, here: ThreadPos) -> ThreadPos
    requires { IsSome (insn_at (W.searching context.now) here.ip) }
    ensures { result ≡ record { ip = here.ip + 1; at = here.at } }
{
    let _insn = context.op(here.ip);
    ThreadPos {
        ip: here.ip + 1,
        at: here.at,
    }
}

/// The result of executing an operation.
#[derive(Clone, Copy)]
pub enum Control {
    /// The thread continues at this position.
    Continue(ThreadPos),
    /// The thread has failed.
    Backtrack,
    /// The thread has reached the goal.
    Accept,
    /// A lookaround must be evaluated. The position is that of the lookaround. The position at
    /// which threads continue has storage of its own.
    Lookaround(ThreadPos, LookaroundAndNextOp),
}
