//! Loops whose body reads nothing.

ghost use Rattle.std.specs.Prelude.{◌≡◌, ◌<◌, ◌≤◌, ◌+◌, Bool, true, Some, slice_get};
ghost use Rattle.regex_meaning.specs.CompilationRelation.{Insn};
ghost use Rattle.regress_machine.specs.LoopsReadingNothing.{ReadsNothingAndLeadsOnward, ReadsNothingUntil};
ghost use Rattle.regress_search.specs.TreePlanAndText.{program_of, insn_at};

use crate::search_context::SearchContext;
use regress_program::ops::Op;

/// The maximum length of a body, in operations, that is checked. It limits the time of the check.
const MAX_CHECKED_BODY_LENGTH: usize = 64;

/// Checks whether the body of a loop, from `head` to `end`, is short and reads nothing. A body that
/// changes groups has to have a single path.
#[inline(never)]
pub fn loop_body_reads_nothing<W: SearchContext>(context: &W, head: usize, end: usize) -> bool
    ensures behind { result ≡ true → head < end }
    ensures body { result ≡ true
        → (forks : Bool) × ReadsNothingUntil forks (program_of (W.searching context.now)) (head + 1) end }
{
    if head >= end || end - head > MAX_CHECKED_BODY_LENGTH {
        return false;
    }
    are_nonreading_forward_ops(context, false, head + 1, end)
        || are_nonreading_forward_ops(context, true, head + 1, end)
}

// Checks whether each operation in `from..end` reads nothing and continues at a later operation, up
// to `end`.
fn are_nonreading_forward_ops<W: SearchContext>(
    context: &W,
    forks: bool,
    from: usize,
    end: usize,
) -> bool
    ensures { result ≡ true → ReadsNothingUntil forks (program_of (W.searching context.now)) from end }
{
    for ip in from..end {
        if !reads_nothing_toward_end(context, forks, ip, end) {
            return false;
        }
    }
    true
}

// Checks whether an operation reads nothing and continues at a later operation, up to `end`.
fn reads_nothing_toward_end<W: SearchContext>(
    context: &W,
    forks: bool,
    ip: usize,
    end: usize,
) -> bool
    ensures { result ≡ true → (insn : Insn) → insn_at (W.searching context.now) ip ≡ Some insn
        → ReadsNothingAndLeadsOnward forks end ip insn }
{
    match context.op_at(ip) {
        Some(Op::Goto(to)) => is_jump_forward_up_to_end(ip, *to, end),
        Some(Op::Either(other)) => forks && is_jump_forward_up_to_end(ip, *other, end),
        Some(Op::ResetGroup(_)) => !forks,
        Some(Op::OpenGroup(_)) => !forks,
        Some(Op::CloseGroup(_)) => !forks,
        _ => false,
    }
}

// Checks whether `to` is after `ip` and not after `end`.
fn is_jump_forward_up_to_end(ip: usize, to: u32, end: usize) -> bool
    ensures { result ≡ true → (ip < to) × (to ≤ end) }
{
    ip < to as usize && to as usize <= end
}
