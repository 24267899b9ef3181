//! Checks that control stays inside the contents of lookarounds.

ghost use Rattle.std.specs.Prelude.{◌≡◌, ◌<◌, ◌^◌, ◌+◌, ℕ, true, length, slice_get};
ghost use Rattle.regex_meaning.specs.CompilationRelation.{Program};
ghost use Rattle.regress_memo.specs.ClosedLookarounds.{IsInContents, StaysInContents, HasClosedContents, HasClosedContentsIfLookaround};
ghost use Rattle.regress_memo.specs.Successors.{DeclaredInsnsEqualProgramInsns, successors_of_insn_if_any};

use crate::successors::{Successors, successors_at};
use regress_program::instructions::Insn;

// The contents of a lookaround: the instructions between `from` and `past`.
#[derive(Clone, Copy)]
struct LookaroundContents {
    from: usize,
    past: usize,
}

impl LookaroundContents {
    fn contains(&self, ip: usize) -> bool
        ensures { result ≡ true → IsInContents self.now.from self.now.past ip }
    {
        self.from < ip && ip < self.past
    }
}

// Checks that the contents of each lookaround are closed.
pub(crate) fn are_lookarounds_closed(insns: &[Insn]) -> bool
    ensures { result ≡ true → (program : Program) → DeclaredInsnsEqualProgramInsns program insns.now → (ip : ℕ)
        → HasClosedContentsIfLookaround program (successors_of_insn_if_any ip (slice_get program.insns ip)) ip }
{
    for ip in 0..insns.len() {
        if !is_closed_if_lookaround(insns, ip) {
            return false;
        }
    }
    true
}

// Checks that the contents of an instruction are closed if it is a lookaround.
fn is_closed_if_lookaround(insns: &[Insn], ip: usize) -> bool
    requires { ip < length insns.now }
    ensures { result ≡ true → (program : Program) → DeclaredInsnsEqualProgramInsns program insns.now
        → HasClosedContentsIfLookaround program (successors_of_insn_if_any ip (slice_get program.insns ip)) ip }
{
    match successors_at(insns, ip) {
        Successors::LookaroundSuccessor(look) => are_contents_closed(
            insns,
            LookaroundContents {
                from: ip,
                past: look.past,
            },
        ),
        _ => true,
    }
}

// Checks that the contents have an instruction, and that control stays inside them.
fn are_contents_closed(insns: &[Insn], contents: LookaroundContents) -> bool
    requires { contents.from < length insns.now }
    ensures { result ≡ true → (program : Program) → DeclaredInsnsEqualProgramInsns program insns.now
        → HasClosedContents contents.from contents.past program }
{
    let first = contents.from + 1;
    for ip in first..contents.past {
        if !stays_in_contents(insns, contents, ip) {
            return false;
        }
    }
    first < contents.past
}

// Checks that the successors of the instruction `ip` are in the contents.
fn stays_in_contents(insns: &[Insn], contents: LookaroundContents, ip: usize) -> bool
    ensures { result ≡ true → (program : Program) → DeclaredInsnsEqualProgramInsns program insns.now
        → StaysInContents contents.from contents.past
        (successors_of_insn_if_any ip (slice_get program.insns ip)) ip }
{
    match successors_at(insns, ip) {
        Successors::Ends => true,
        Successors::One(next) => contents.contains(next.to),
        Successors::Two(other) => {
            ip < insns.len() && contents.contains(ip + 1) && contents.contains(other)
        }
        Successors::Run(_) => ip < insns.len() && contents.contains(ip + 2),
        Successors::LookaroundSuccessor(look) => contents.contains(look.past),
        Successors::Enter(_) | Successors::Again(_) | Successors::Same => false,
    }
}
