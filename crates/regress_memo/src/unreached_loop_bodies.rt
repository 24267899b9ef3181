//! Checks that no thread reaches the body of a char loop.

ghost use Rattle.std.specs.Prelude.{◌≡◌, ◌<◌, ℕ, true, length, slice_get};
ghost use Rattle.regex_meaning.specs.CompilationRelation.{Program};
ghost use Rattle.regress_memo.specs.UnreachedCharLoopBodies.{are_char_loop_successors, IsNotLoopBody, EntersPastBodies, FlowsPastBodies};
ghost use Rattle.regress_memo.specs.Successors.{DeclaredInsnsEqualProgramInsns, successors_of_insn_if_any};

use crate::successors::{Successors, successors_at};
use regress_program::instructions::Insn;

// Checks that no instruction leads to the body of a char loop. The loop executes its body itself.
pub(crate) fn no_char_loop_body_is_reached(insns: &[Insn]) -> bool
    ensures { result ≡ true → (program : Program) → DeclaredInsnsEqualProgramInsns program insns.now → (ip : ℕ)
        → FlowsPastBodies program (successors_of_insn_if_any ip (slice_get program.insns ip)) ip }
{
    for ip in 0..insns.len() {
        if !leads_past_char_loop_bodies(insns, ip) {
            return false;
        }
    }
    true
}

// Checks that the instruction `ip` does not lead to the body of a char loop.
fn leads_past_char_loop_bodies(insns: &[Insn], ip: usize) -> bool
    requires { ip < length insns.now }
    ensures { result ≡ true → (program : Program) → DeclaredInsnsEqualProgramInsns program insns.now
        → FlowsPastBodies program (successors_of_insn_if_any ip (slice_get program.insns ip)) ip }
{
    match successors_at(insns, ip) {
        Successors::Ends | Successors::Same => true,
        Successors::One(next) => is_no_body(insns, next.to),
        Successors::Two(other) => are_no_bodies(insns, ip + 1, other),
        Successors::Enter(fields) => are_no_bodies(insns, ip + 1, fields.exit as usize),
        Successors::Again(begin) => loop_leads_past_char_loop_bodies(insns, begin),
        Successors::Run(_) => is_no_body(insns, ip + 2),
        Successors::LookaroundSuccessor(look) => are_no_bodies(insns, ip + 1, look.past),
    }
}

// If the instruction `begin` is the head of a loop, checks that it does not lead to the body of a
// char loop.
fn loop_leads_past_char_loop_bodies(insns: &[Insn], begin: usize) -> bool
    ensures { result ≡ true → (program : Program) → DeclaredInsnsEqualProgramInsns program insns.now
        → EntersPastBodies program (slice_get program.insns begin) begin }
{
    match successors_at(insns, begin) {
        Successors::Enter(fields) => {
            begin < insns.len() && are_no_bodies(insns, begin + 1, fields.exit as usize)
        }
        _ => true,
    }
}

// Checks that neither of two instructions is the body of a char loop.
fn are_no_bodies(insns: &[Insn], ip: usize, other: usize) -> bool
    ensures one { result ≡ true → (program : Program) → DeclaredInsnsEqualProgramInsns program insns.now → IsNotLoopBody
        program ip }
    ensures other { result ≡ true → (program : Program) → DeclaredInsnsEqualProgramInsns program insns.now →
        IsNotLoopBody program other }
{
    is_no_body(insns, ip) && is_no_body(insns, other)
}

// Checks that the instruction before this one is not a char loop.
fn is_no_body(insns: &[Insn], ip: usize) -> bool
    ensures { result ≡ true → (program : Program) → DeclaredInsnsEqualProgramInsns program insns.now → IsNotLoopBody
        program ip }
{
    ip == 0 || !runs(successors_at(insns, ip - 1))
}

// Checks whether these are the successors of a char loop.
fn runs(step: Successors) -> bool
    ensures { result ≡ are_char_loop_successors step }
{
    match step {
        Successors::Run(_) => true,
        Successors::Ends | Successors::One(_) | Successors::Two(_) | Successors::Enter(_) => false,
        Successors::Again(_) | Successors::LookaroundSuccessor(_) | Successors::Same => false,
    }
}
