//! Checks that the potentials and the costs of keys cover the work of a search.

ghost use Rattle.std.specs.Prelude.{◌≡◌, ◌≤◌, ◌<◌, ◌+◌, ◌-◌, ◌*◌, ◌^◌, true, length, slice_get};
ghost use Rattle.regex_meaning.specs.CompilationRelation.{Program};
ghost use Rattle.regress_memo.specs.ThreadPotentials.{CoversOne, CoversTwo, CoversRepeat};
ghost use Rattle.regress_memo.specs.AnalysisAsPotentials.{insn_analysis_of, potentials_of, key_code_questions_of, insn_direction};
ghost use Rattle.regress_memo.specs.Successors.{DeclaredInsnsEqualProgramInsns, successors_of_insn_if_any};
ghost use Rattle.regress_memo.specs.AnalysisChecks.{IsCoveredAt, IsInsnCostCovered, IsCharLoopChecked, CoversUnboundedLoop, CoversBoundedLoop, unlimited};

use crate::analysis_result::MemoAnalysis;
use crate::successors::{CharLoopMinMaxAndGreed, Successors, successors_at};
use regress_program::instructions::Insn;

/// The maximum of a char loop with a maximum has to be less than this number.
const MOST_CHARACTERS: usize = 0x1_0000;

impl MemoAnalysis {
    // Checks that the potential that an instruction leaves covers its successors.
    pub(crate) fn covers_successors_at(&self, insns: &[Insn], ip: usize) -> bool
        requires { ip < length insns.now }
        ensures { result ≡ true → (program : Program) → DeclaredInsnsEqualProgramInsns program insns.now
            → IsCoveredAt self.now program (successors_of_insn_if_any ip (slice_get program.insns ip)) ip }
    {
        match successors_at(insns, ip) {
            Successors::Ends => true,
            Successors::One(next) => self.covers_one_successor(ip, next.to),
            Successors::Two(other) => self.has_potential_for_two_threads(ip, ip + 1, other),
            Successors::Enter(fields) => self.has_potential_for_two_threads(
                ip,
                ip + 1,
                fields.exit as usize,
            ),
            Successors::Again(begin) => self.has_potential_after_iteration(insns, ip, begin),
            Successors::Run(bounds) => self.covers_char_loop(bounds, ip),
            Successors::LookaroundSuccessor(look) => self.covers_one_successor(ip, look.past),
            Successors::Same => self.covers_one_successor(ip, ip + 1),
        }
    }

    // Checks that the potential left by an instruction covers one thread.
    fn covers_one_successor(&self, ip: usize, next: usize) -> bool
        ensures { result ≡ true → CoversOne (potentials_of self.now) ip next }
    {
        self.insn_analysis_at(next).ready <= self.insn_analysis_at(ip).left
    }

    // Checks that the potential left by an instruction covers two threads, of which one is pending.
    fn has_potential_for_two_threads(&self, ip: usize, next: usize, other: usize) -> bool
        ensures { result ≡ true → CoversTwo (potentials_of self.now) ip next other }
    {
        let ready = u64::from(self.insn_analysis_at(next).ready)
            + u64::from(self.insn_analysis_at(other).ready);
        ready + 1 <= u64::from(self.insn_analysis_at(ip).left)
    }

    // Checks that the potential left by an instruction covers the threads after the end of an
    // iteration.
    fn has_potential_after_iteration(&self, insns: &[Insn], ip: usize, begin: usize) -> bool
        ensures { result ≡ true → (program : Program) → DeclaredInsnsEqualProgramInsns program insns.now
            → CoversRepeat (potentials_of self.now) (slice_get program.insns begin) ip begin }
    {
        match successors_at(insns, begin) {
            Successors::Enter(fields) => {
                begin < insns.len()
                    && self.has_potential_for_two_threads(ip, begin + 1, fields.exit as usize)
            }
            _ => true,
        }
    }

    // Checks that the cost of an instruction is covered: by the cost of its key if it records, and
    // otherwise by its potential.
    pub(crate) fn insn_cost_is_covered(&self, ip: usize) -> bool
        ensures { result ≡ true → IsInsnCostCovered self.now ip }
    {
        let line = self.insn_analysis_at(ip);
        let left = u64::from(line.left);
        let ready = u64::from(line.ready);
        if line.records {
            left + 2 <= ready + u64::from(line.key_cost)
        } else {
            left + 1 <= ready
        }
    }

    // Checks that the body of a char loop has the keys of the loop, and that the loop is covered.
    fn covers_char_loop(&self, bounds: CharLoopMinMaxAndGreed, ip: usize) -> bool
        requires { ip + 2 < 2 ^ 64 }
        ensures { result ≡ true → (program : Program) → IsCharLoopChecked self.now program bounds ip }
    {
        self.insn_analysis_at(ip + 1).forward == self.insn_analysis_at(ip).forward
            && if bounds.most == usize::MAX {
                self.insn_analysis_at(ip + 1).records
                    && self.has_key_code_questions_of_next(ip + 1)
                    && self.covers_unbounded_loop(bounds, ip)
            } else {
                self.covers_bounded_loop(bounds, ip)
            }
    }

    // Checks that the key codes of an instruction depend on the same loops as those of the next one.
    fn has_key_code_questions_of_next(&self, ip: usize) -> bool
        requires { ip + 1 < 2 ^ 64 }
        ensures { result ≡ true → key_code_questions_of self.now ip ≡ key_code_questions_of self.now (ip + 1) }
    {
        let here = self.insn_analysis_at(ip);
        let next = self.insn_analysis_at(ip + 1);
        here.first == next.first && here.end == next.end
    }

    // Checks that the potential covers a char loop without a maximum, and that the costs of the
    // keys cover its exits.
    fn covers_unbounded_loop(&self, bounds: CharLoopMinMaxAndGreed, ip: usize) -> bool
        requires { ip + 2 < 2 ^ 64 }
        ensures { result ≡ true → CoversUnboundedLoop self.now bounds ip }
    {
        let behind = u64::from(self.insn_analysis_at(ip + 2).ready);
        let ready = u64::from(self.insn_analysis_at(ip).ready);
        let first = if bounds.greedy { 2 } else { behind * 2 + 3 };
        behind + 3 <= u64::from(self.insn_analysis_at(ip + 1).key_cost)
            && first <= ready
            && bounds.least as u64 <= ready - first
    }

    // Checks that the potential left by a char loop with a maximum covers each exit and each
    // character.
    fn covers_bounded_loop(&self, bounds: CharLoopMinMaxAndGreed, ip: usize) -> bool
        requires { ip + 2 < 2 ^ 64 }
        ensures { result ≡ true → CoversBoundedLoop self.now bounds ip }
    {
        if bounds.most >= MOST_CHARACTERS {
            return false;
        }
        let behind = self.insn_analysis_at(ip + 2).ready as usize;
        let places = (bounds.most + 1).saturating_sub(bounds.least);
        bounds.most + 1 + places * (behind + 1) <= self.insn_analysis_at(ip).left as usize
    }
}
