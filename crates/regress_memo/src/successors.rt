//! Successors of instructions.

ghost use Rattle.std.specs.Prelude.{◌≡◌, ◌<◌, ◌^◌, ◌+◌, true, None, map, slice_get};
ghost use Rattle.regress_program.specs.InsnsAsSpec.{insn_as_spec_insn, literal_bytes_of_insn};
ghost use Rattle.regress_memo.specs.Successors.{successors_of, successors_of_insn_if_any, is_fall_through_insn, fall_through};

use regress_program::instructions::{Insn, LoopFields};

/// A single successor. `reads` says whether the instruction reads a character, and `silent` whether
/// it leaves groups unchanged.
#[derive(Clone, Copy)]
pub struct PlainSuccessor {
    pub to: usize,
    pub reads: bool,
    pub silent: bool,
}

/// The minimum and the maximum number of characters of a char loop, and whether it is greedy.
#[derive(Clone, Copy)]
pub struct CharLoopMinMaxAndGreed {
    pub least: usize,
    pub most: usize,
    pub greedy: bool,
}

/// A lookaround: its direction, whether it is negative, and the instruction after it.
#[derive(Clone, Copy)]
pub struct LookaroundSuccessor {
    pub forward: bool,
    pub negate: bool,
    pub past: usize,
}

/// The successors of an instruction.
#[derive(Clone, Copy)]
pub enum Successors {
    /// No successor.
    Ends,
    /// One successor.
    One(PlainSuccessor),
    /// The next instruction or this one.
    Two(usize),
    /// The instruction after this loop head, or the loop's exit.
    Enter(LoopFields),
    /// The successors of the loop head at this index.
    Again(usize),
    /// The instruction after a char loop.
    Run(CharLoopMinMaxAndGreed),
    /// The instruction after a lookaround, whose contents follow directly.
    LookaroundSuccessor(LookaroundSuccessor),
    /// The instruction after a backreference.
    Same,
}

/// Returns the successors of an instruction. An index past the end has none.
pub(crate) fn successors_at(insns: &[Insn], ip: usize) -> Successors
    ensures { result ≡ successors_of_insn_if_any ip (slice_get (map insn_as_spec_insn insns.now) ip) }
{
    match insns.get(ip) {
        Some(insn) => of_insn(insn, ip),
        None => Successors::Ends,
    }
}

// Returns the successors of an instruction at index `ip`.
fn of_insn(insn: &Insn, ip: usize) -> Successors
    requires { ip + 2 < 2 ^ 64 }
    ensures { result ≡ successors_of ip (insn_as_spec_insn insn.now) }
{
    match insn.bytes_of_literal_insn() {
        Some(bytes) => successor_at_next_insn(ip, !bytes.is_empty(), true),
        None => successors_of_other_insn(insn, ip),
    }
}

// Returns the successors of an instruction that reads no byte sequence.
fn successors_of_other_insn(insn: &Insn, ip: usize) -> Successors
    requires { ip + 2 < 2 ^ 64 }
    ensures { literal_bytes_of_insn (insn_as_spec_insn insn.now) ≡ None → result ≡ successors_of ip
        (insn_as_spec_insn insn.now) }
{
    match insn {
        Insn::Goal | Insn::JustFail => Successors::Ends,
        Insn::Alt { secondary } => Successors::Two(*secondary as usize),
        Insn::Jump { target } => Successors::One(PlainSuccessor {
            to: *target as usize,
            reads: false,
            silent: true,
        }),
        Insn::EnterLoop { .. } => Successors::Enter(insn.loop_fields()),
        Insn::LoopAgain { begin } => Successors::Again(*begin as usize),
        Insn::Loop1CharBody {
            min_iters,
            max_iters,
            greedy,
        } => Successors::Run(CharLoopMinMaxAndGreed {
            least: *min_iters,
            most: *max_iters,
            greedy: *greedy,
        }),
        other => successors_of_plain_insn(other, ip),
    }
}

// Returns the successors of a lookaround, of a backreference, or of an instruction that only
// continues at the next one.
fn successors_of_plain_insn(insn: &Insn, ip: usize) -> Successors
    requires { ip + 2 < 2 ^ 64 }
    ensures { is_fall_through_insn (insn_as_spec_insn insn.now) ≡ true → result ≡ successors_of ip
        (insn_as_spec_insn insn.now) }
{
    match insn {
        Insn::StartOfLine { .. }
        | Insn::EndOfLine { .. }
        | Insn::WordBoundary { .. }
        | Insn::WordBoundaryUnicodeICase { .. } => successor_at_next_insn(ip, false, true),
        Insn::BeginCaptureGroup(_) | Insn::EndCaptureGroup(_) | Insn::ResetCaptureGroup(_) => {
            successor_at_next_insn(ip, false, false)
        }
        Insn::BackRef { .. } => Successors::Same,
        Insn::Lookahead {
            negate,
            continuation,
            ..
        } => lookaround_successors(true, *negate, *continuation),
        Insn::Lookbehind {
            negate,
            continuation,
            ..
        } => lookaround_successors(false, *negate, *continuation),
        _ => successor_at_next_insn(ip, true, true),
    }
}

// Returns the successors of a lookaround.
fn lookaround_successors(forward: bool, negate: bool, continuation: u32) -> Successors
    ensures { result ≡ Successors.LookaroundSuccessor
        (record { forward = forward; negate = negate; past = continuation }) }
{
    Successors::LookaroundSuccessor(LookaroundSuccessor {
        forward,
        negate,
        past: continuation as usize,
    })
}

// Returns the successors of an instruction that continues at the next one only.
fn successor_at_next_insn(ip: usize, reads: bool, silent: bool) -> Successors
    requires { ip + 2 < 2 ^ 64 }
    ensures { result ≡ fall_through ip reads silent }
{
    Successors::One(PlainSuccessor {
        to: ip + 1,
        reads,
        silent,
    })
}
