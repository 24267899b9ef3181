//! The work bound of a memo analysis: the maximum work of all searches of a text, per position.

ghost use Rattle.std.specs.Prelude.{◌≡◌, ◌≤◌, ◌<◌, ◌+◌, ◌^◌, ℕ, IfSome, IsSome, true, false, length, map, slice_get};
ghost use Rattle.regress_program.specs.InsnsAsSpec.{insn_as_spec_insn};
ghost use Rattle.regex_meaning.specs.CompilationRelation.{Program};
ghost use Rattle.regress_memo.specs.WorkBound.{insn_keys_cost_per_position, all_keys_cost_per_position, work_per_position, IsStepWorkBounded, IsWorkBounded};
ghost use Rattle.regress_memo.specs.AnalysisAsPotentials.{insn_analysis_of};
ghost use Rattle.regress_memo.specs.Successors.{DeclaredInsnsEqualProgramInsns, successors_of_insn_if_any};

use crate::analysis_result::{InsnAnalysis, MemoAnalysis};
use crate::closed_lookarounds::are_lookarounds_closed;
use crate::successors::{LookaroundSuccessor, Successors, successors_at};
use crate::unreached_loop_bodies::no_char_loop_body_is_reached;
use regress_program::instructions::Insn;

impl MemoAnalysis {
    /// Returns the maximum work per position, if failures are memoized from the first attempt on.
    /// Returns `None` if no bound is known.
    pub fn work_per_position(&self, insns: &[Insn]) -> Option<u64>
        ensures work { IfSome result (λ work. work ≡ work_per_position self.now) }
        ensures bounded { IsSome result → (program : Program) → DeclaredInsnsEqualProgramInsns program insns.now
            → IsWorkBounded self.now program }
    {
        if !self.all_is_paid(insns) {
            return None;
        }
        let keys = self.all_keys_cost_per_position()?;
        let ready = u64::from(self.insn_analysis_at(0).ready);
        keys.checked_add(ready)?.checked_mul(3)
    }

    // Returns the cost of all keys at one position. Returns `None` on overflow.
    fn all_keys_cost_per_position(&self) -> Option<u64>
        ensures { IfSome result (λ cost. cost ≡ all_keys_cost_per_position self.now) }
    {
        let lines = self.lines.as_slice();
        let mut all = 0u64;
        for line in lines {
            let cost = cost_of_insn_keys(line)?;
            all = all.checked_add(cost)?;
        }
        Some(all)
    }

    // Checks conditions under which all work is covered: the contents of lookarounds are closed, and
    // nothing in them records, so no record is discarded when they match; no lazy char loop without
    // a maximum is searched to the left; and no thread reaches the body of a char loop.
    fn all_is_paid(&self, insns: &[Insn]) -> bool
        ensures { result ≡ true → (program : Program) → DeclaredInsnsEqualProgramInsns program insns.now → IsWorkBounded
            self.now program }
    {
        for ip in 0..insns.len() {
            if !self.is_paid_at(insns, ip) {
                return false;
            }
        }
        self.all_are_ready() && no_char_loop_body_is_reached(insns) && are_lookarounds_closed(insns)
    }

    // Checks that each thread has some potential.
    fn all_are_ready(&self) -> bool
        ensures { result ≡ true → (ip : ℕ) → 1 ≤ (insn_analysis_of self.now ip).ready }
    {
        let lines = self.lines.as_slice();
        for line in lines {
            if line.ready == 0 {
                return false;
            }
        }
        true
    }

    // Checks the conditions for one instruction that is a lookaround or a char loop.
    fn is_paid_at(&self, insns: &[Insn], ip: usize) -> bool
        requires { ip < length insns.now }
        ensures { result ≡ true → IsStepWorkBounded self.now
            (successors_of_insn_if_any ip (slice_get (map insn_as_spec_insn insns.now) ip)) ip }
    {
        match successors_at(insns, ip) {
            Successors::LookaroundSuccessor(look) => self.has_potential_for_lookaround(
                ip, look.past,
            ) && !self.records_within(look, ip),
            Successors::Run(bounds) => {
                bounds.greedy || bounds.most != usize::MAX || self.insn_analysis_at(ip).forward
            }
            _ => true,
        }
    }

    // Checks that the potential left by a lookaround also covers its contents.
    fn has_potential_for_lookaround(&self, ip: usize, past: usize) -> bool
        requires { ip + 1 < 2 ^ 64 }
        ensures { result ≡ true → (insn_analysis_of self.now (ip + 1)).ready + (insn_analysis_of self.now past).ready
            ≤ (insn_analysis_of self.now ip).left }
    {
        let ready = u64::from(self.insn_analysis_at(ip + 1).ready)
            + u64::from(self.insn_analysis_at(past).ready);
        ready <= u64::from(self.insn_analysis_at(ip).left)
    }

    // Checks whether a lookaround or an instruction inside it records.
    fn records_within(&self, look: LookaroundSuccessor, ip: usize) -> bool
        ensures { result ≡ false → (inner : ℕ) → ip ≤ inner → inner < look.past
            → (insn_analysis_of self.now inner).records ≡ false }
    {
        for inner in ip..look.past {
            if self.insn_analysis_at(inner).records {
                return true;
            }
        }
        false
    }
}

// Returns the cost of an instruction's keys at one position. It is 0 if the instruction does not
// record. Returns `None` on overflow.
fn cost_of_insn_keys(line: &InsnAnalysis) -> Option<u64>
    ensures { IfSome result (λ cost. cost ≡ insn_keys_cost_per_position line.now) }
{
    if line.records {
        u64::from(line.key_cost).checked_mul(line.codes as u64)
    } else {
        Some(0)
    }
}
