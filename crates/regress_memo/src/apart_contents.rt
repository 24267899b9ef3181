//! Checks that the contents of lookarounds are apart from the instructions around them.

ghost use Rattle.std.specs.Prelude.{◌≡◌, ◌<◌, ℕ, true, length, slice_get};
ghost use Rattle.regex_meaning.specs.CompilationRelation.{Program};
ghost use Rattle.regress_memo.specs.ContentsApart.{is_in_contents, is_on_side_of, RepeatsOnSide, FlowsOnSide, IsApart, IsApartIfLookaround, ContentsAreApart};
ghost use Rattle.regress_memo.specs.Successors.{DeclaredInsnsEqualProgramInsns, successors_of_insn_if_any};

use crate::successors::{Successors, successors_at};
use regress_program::instructions::Insn;

// The contents of a lookaround: the instructions between `from` and `past`.
#[derive(Clone, Copy)]
struct ContentsRange {
    from: usize,
    past: usize,
}

impl ContentsRange {
    fn contains(&self, ip: usize) -> bool
        ensures { result ≡ is_in_contents self.now.from self.now.past ip }
    {
        self.from < ip && ip < self.past
    }

    // Returns whether another instruction is on the same side of the contents as `ip`.
    fn has_on_side_of(&self, ip: usize, other: usize) -> bool
        ensures { result ≡ is_on_side_of self.now.from self.now.past ip other }
    {
        if self.contains(ip) {
            self.contains(other)
        } else {
            !self.contains(other)
        }
    }

    // Returns whether two other instructions are on the same side of the contents as `ip`.
    fn has_both_on_side_of(&self, ip: usize, one: usize, other: usize) -> bool
        ensures one { result ≡ true → is_on_side_of self.now.from self.now.past ip one ≡ true }
        ensures other { result ≡ true → is_on_side_of self.now.from self.now.past ip other ≡ true }
    {
        self.has_on_side_of(ip, one) && self.has_on_side_of(ip, other)
    }
}

/// Checks that the contents of each lookaround are apart, as the laws on contents that are searched
/// with the memo table require.
pub fn are_contents_apart(insns: &[Insn]) -> bool
    ensures { result ≡ true → (program : Program) → DeclaredInsnsEqualProgramInsns program insns.now → ContentsAreApart
        program }
{
    for ip in 0..insns.len() {
        if !is_apart_if_lookaround(insns, ip) {
            return false;
        }
    }
    true
}

// Checks that the contents of an instruction are apart if it is a lookaround.
fn is_apart_if_lookaround(insns: &[Insn], ip: usize) -> bool
    requires { ip < length insns.now }
    ensures { result ≡ true → (program : Program) → DeclaredInsnsEqualProgramInsns program insns.now
        → IsApartIfLookaround program (successors_of_insn_if_any ip (slice_get program.insns ip)) ip }
{
    match successors_at(insns, ip) {
        Successors::LookaroundSuccessor(look) => is_apart(
            insns,
            ContentsRange {
                from: ip,
                past: look.past,
            },
        ),
        _ => true,
    }
}

// Checks that the contents have an instruction, and that control neither leaves nor enters them.
fn is_apart(insns: &[Insn], contents: ContentsRange) -> bool
    requires { contents.from < length insns.now }
    ensures { result ≡ true → (program : Program) → DeclaredInsnsEqualProgramInsns program insns.now
        → IsApart contents.from contents.past program }
{
    for ip in 0..insns.len() {
        if !keeps_side(insns, contents, ip) {
            return false;
        }
    }
    contents.from + 1 < contents.past
}

// Checks that the successors of the instruction `ip` are on its side of the contents.
fn keeps_side(insns: &[Insn], contents: ContentsRange, ip: usize) -> bool
    requires { ip < length insns.now }
    ensures { result ≡ true → (program : Program) → DeclaredInsnsEqualProgramInsns program insns.now
        → FlowsOnSide (is_on_side_of contents.from contents.past ip) program
        (successors_of_insn_if_any ip (slice_get program.insns ip)) ip }
{
    match successors_at(insns, ip) {
        Successors::Ends => true,
        Successors::One(next) => contents.has_on_side_of(ip, next.to),
        Successors::Two(other) => contents.has_both_on_side_of(ip, ip + 1, other),
        Successors::Enter(fields) => contents.has_both_on_side_of(ip, ip + 1, fields.exit as usize),
        Successors::Again(begin) => repeats_on_side(insns, contents, ip, begin),
        Successors::Run(_) => contents.has_both_on_side_of(ip, ip + 1, ip + 2),
        Successors::LookaroundSuccessor(look) => contents.has_on_side_of(ip, look.past),
        Successors::Same => contents.has_on_side_of(ip, ip + 1),
    }
}

// If the instruction `begin` is the head of a loop, checks that its successors are on the same side
// of the contents as `ip`.
fn repeats_on_side(insns: &[Insn], contents: ContentsRange, ip: usize, begin: usize) -> bool
    ensures { result ≡ true → (program : Program) → DeclaredInsnsEqualProgramInsns program insns.now
        → RepeatsOnSide (is_on_side_of contents.from contents.past ip) program (slice_get program.insns begin) begin }
{
    match successors_at(insns, begin) {
        Successors::Enter(fields) => {
            begin < insns.len() && contents.has_both_on_side_of(ip, begin + 1, fields.exit as usize)
        }
        _ => true,
    }
}
