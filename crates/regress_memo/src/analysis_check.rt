//! Checks a memo analysis against its program, however it was built.

ghost use Rattle.std.specs.Prelude.{◌≡◌, ◌≤◌, ◌<◌, ◌+◌, ◌^◌, ◌||◌, ℕ, Bool, true, false, None, Some, length, map, slice_get};
ghost use Rattle.regex_meaning.specs.CompilationRelation.{Program};
ghost use Rattle.regress_program.specs.InsnsAsSpec.{insn_as_spec_insn, loop_fields_as_spec};
ghost use Rattle.regress_memo.specs.ThreadPotentials.{CoversOne, CoversTwo};
ghost use Rattle.regress_memo.specs.AnalysisAsPotentials.{enclosing_loops_of, insn_analysis_of, groups_stay_unchanged_from, potentials_of, states_loop_fact, knows_iteration_reads};
ghost use Rattle.regress_memo.specs.Successors.{DeclaredInsnsEqualProgramInsns, successors_of_insn_if_any};
ghost use Rattle.regress_memo.specs.AnalysisChecks.{is_entered, LoopFactsFlow, AllLoopFactsFlow, IsConsistentFlow, MayBeginIteration, MayRepeatLoop, MayEndIteration, MayRepeatLoopAt, CountDecides};
ghost use Rattle.regress_memo.specs.AnalysisChecks.{LoopsAreBefore, IsolatesLookaround, IsConsistentAt, IsCoveredAt, IsInsnCostCovered};
ghost use Rattle.regress_memo.specs.AnalysisChecks.{IsCharLoopChecked, IsInsnChecked};
ghost use Rattle.regress_memo.specs.CheckedAnalysis.{IsAnalysisOf, HasDisjointCodes, FirstInsnForwardOutsideLoops};

use crate::analysis_result::{EnclosingLoop, InsnAnalysis, LoopProgressFact, MemoAnalysis};
use crate::flow_edges::{FlowEdge, edge_enters_loop};
use crate::successors::{LookaroundSuccessor, PlainSuccessor, Successors, successors_at};
use regex_pattern_front::types::LoopID;
use regress_program::instructions::{Insn, LoopFields};

impl MemoAnalysis {
    // Checks whether the analysis is correct for the program with these instructions.
    pub(crate) fn is_analysis_of_program(&self, insns: &[Insn]) -> bool
        ensures of { result ≡ true → (program : Program) → DeclaredInsnsEqualProgramInsns program insns.now →
            IsAnalysisOf program self.now }
        ensures coded { result ≡ true → HasDisjointCodes self.now }
    {
        if !self.starts_outside() {
            return false;
        }
        self.lines.len() == insns.len() && self.is_analysis_right_at_each_insn(insns)
    }

    // Checks that the first instruction has no enclosing loop and is searched to the right.
    fn starts_outside(&self) -> bool
        ensures { result ≡ true → FirstInsnForwardOutsideLoops self.now }
    {
        self.enclosing_loops(0).is_empty() && self.insn_analysis_at(0).forward
    }

    // Checks the analysis of each instruction.
    fn is_analysis_right_at_each_insn(&self, insns: &[Insn]) -> bool
        ensures { result ≡ true → (program : Program) → DeclaredInsnsEqualProgramInsns program insns.now → (ip : ℕ)
            → ip < length insns.now → IsInsnChecked self.now program
            (successors_of_insn_if_any ip (slice_get program.insns ip)) ip }
    {
        for ip in 0..insns.len() {
            if !self.is_written_at(insns, ip) {
                return false;
            }
        }
        true
    }

    // Checks the analysis of one instruction.
    fn is_written_at(&self, insns: &[Insn], ip: usize) -> bool
        requires { ip < length insns.now }
        ensures { result ≡ true → (program : Program) → DeclaredInsnsEqualProgramInsns program insns.now
            → IsInsnChecked self.now program (successors_of_insn_if_any ip (slice_get program.insns ip)) ip }
    {
        self.is_right_at(insns, ip)
            && self.covers_successors_at(insns, ip)
            && self.insn_cost_is_covered(ip)
            && self.has_disjoint_codes_at(ip)
    }

    // ---- Consistency

    // Checks that the facts at an instruction are consistent with those at its successors.
    fn is_right_at(&self, insns: &[Insn], ip: usize) -> bool
        requires { ip < length insns.now }
        ensures { result ≡ true → (program : Program) → DeclaredInsnsEqualProgramInsns program insns.now
            → IsConsistentAt self.now program (successors_of_insn_if_any ip (slice_get program.insns ip)) ip }
    {
        match successors_at(insns, ip) {
            Successors::Ends => true,
            Successors::One(next) => self.agrees_with_only_successor(ip, next),
            Successors::Two(other) => self.agrees_with_successor(ip, ip + 1)
                && self.agrees_with_successor(ip, other),
            Successors::Enter(fields) => self.begins(&fields, ip, ip),
            Successors::Again(begin) => self.begins_again_at(insns, ip, begin),
            Successors::Run(bounds) => self.leads(FlowEdge {
                ip,
                to: ip + 2,
                reads: bounds.least > 0,
                entered: None,
            }),
            Successors::LookaroundSuccessor(look) => self.are_lookaround_contents_isolated(
                look, ip,
            ),
            Successors::Same => false,
        }
    }

    // Checks consistency with the only successor of an instruction.
    fn agrees_with_only_successor(&self, ip: usize, next: PlainSuccessor) -> bool
        ensures next { result ≡ true → IsConsistentFlow self.now next.reads None ip next.to }
        ensures silent { result ≡ true → groups_stay_unchanged_from self.now ip ≡ true → next.silent ≡ true }
    {
        (next.silent || !self.insn_analysis_at(ip).silent)
            && self.leads(FlowEdge {
                ip,
                to: next.to,
                reads: next.reads,
                entered: None,
            })
    }

    // Checks consistency with a successor that is reached without reading a character.
    fn agrees_with_successor(&self, ip: usize, to: usize) -> bool
        ensures { result ≡ true → IsConsistentFlow self.now false None ip to }
    {
        self.leads(FlowEdge {
            ip,
            to,
            reads: false,
            entered: None,
        })
    }

    // Checks that the facts at the target of an edge follow from those at its source.
    fn leads(&self, edge: FlowEdge) -> bool
        ensures { result ≡ true → IsConsistentFlow self.now edge.reads edge.entered edge.ip edge.to }
    {
        let here = self.insn_analysis_at(edge.ip);
        let next = self.insn_analysis_at(edge.to);
        is_onward(here, next) && self.all_loop_facts_flow(edge)
    }

    // Checks that all entries at the target of an edge follow from those at its source.
    fn all_loop_facts_flow(&self, edge: FlowEdge) -> bool
        ensures { result ≡ true → AllLoopFactsFlow self.now edge.reads edge.entered edge.ip edge.to }
    {
        let rows = self.enclosing_loops(edge.to);
        for row in rows {
            if !self.loop_facts_flow_for_entry(edge, row) {
                return false;
            }
        }
        true
    }

    // Checks that one entry at the target of an edge follows from those at its source.
    fn loop_facts_flow_for_entry(&self, edge: FlowEdge, row: &EnclosingLoop) -> bool
        ensures { result ≡ true → LoopFactsFlow self.now edge.reads edge.entered edge.ip row.now }
    {
        if edge_enters_loop(edge, row.id) {
            return !row.moved;
        }
        self.states_loop_fact(edge.ip, LoopProgressFact::Inside, row.id)
            && (edge.reads || self.loop_facts_hold_at_source(edge.ip, row))
    }

    // Checks that the facts of an entry hold at the source of an edge that reads no character.
    fn loop_facts_hold_at_source(&self, ip: usize, row: &EnclosingLoop) -> bool
        ensures moved { result ≡ true → row.now.moved ≡ true
            → states_loop_fact LoopProgressFact.Moved row.now.id (enclosing_loops_of self.now ip) ≡ true }
        ensures empty { result ≡ true → row.now.empty ≡ true → knows_iteration_reads row.now.id
            (enclosing_loops_of self.now ip) ≡ true }
    {
        (!row.moved || self.states_loop_fact(ip, LoopProgressFact::Moved, row.id))
            && (!row.empty || self.knows_iteration_reads(ip, row.id))
    }

    // Checks whether it is known that the loop's iteration has read a character, or the memo key
    // distinguishes whether it has.
    fn knows_iteration_reads(&self, ip: usize, id: LoopID) -> bool
        ensures { result ≡ true → knows_iteration_reads id (enclosing_loops_of self.now ip) ≡ true }
    {
        self.states_loop_fact(ip, LoopProgressFact::Empty, id)
            || self.states_loop_fact(ip, LoopProgressFact::Moved, id)
    }

    // ---- Loops

    // Checks that an iteration of the loop with head `begin` may begin from an instruction.
    fn begins(&self, fields: &LoopFields, ip: usize, begin: usize) -> bool
        requires { begin + 1 < 2 ^ 64 }
        ensures { result ≡ true → MayBeginIteration self.now (loop_fields_as_spec fields.now) ip begin }
    {
        let count = self.count_bound_of_loop(fields.loop_id);
        (!count.counted || fields.max_iters <= usize::from(count.up_to) + 1)
            && self.insn_analysis_at(ip).from <= u32::from(fields.loop_id)
            && self.agrees_with_successor(ip, fields.exit as usize)
            && self.leads(FlowEdge {
                ip,
                to: begin + 1,
                reads: false,
                entered: Some(fields.loop_id),
            })
    }

    // Checks that another iteration may begin, if the instruction `begin` is a loop head.
    fn begins_again_at(&self, insns: &[Insn], ip: usize, begin: usize) -> bool
        ensures { result ≡ true → (program : Program) → DeclaredInsnsEqualProgramInsns program insns.now
            → MayRepeatLoopAt self.now (slice_get program.insns begin) ip begin }
    {
        match successors_at(insns, begin) {
            Successors::Enter(fields) => begin < insns.len()
                && self.may_begin_next_iteration(&fields, ip, begin),
            _ => true,
        }
    }

    // Checks that another iteration may begin after one that ends at `ip`, and that the facts decide
    // at `ip` how the loop continues.
    fn may_begin_next_iteration(&self, fields: &LoopFields, ip: usize, begin: usize) -> bool
        requires { begin + 1 < 2 ^ 64 }
        ensures { result ≡ true → MayRepeatLoop self.now (loop_fields_as_spec fields.now) ip begin }
    {
        self.begins(fields, ip, begin) && self.may_end_iteration(fields, ip)
    }

    // Checks that an iteration of a loop may end at an instruction, and that the facts decide how
    // the loop continues.
    fn may_end_iteration(&self, fields: &LoopFields, ip: usize) -> bool
        ensures { result ≡ true → MayEndIteration self.now (loop_fields_as_spec fields.now) ip }
    {
        self.states_loop_fact(ip, LoopProgressFact::Inside, fields.loop_id)
            && self.knows_iteration_reads(ip, fields.loop_id)
            && self.decides(fields, ip)
    }

    // Checks that the distinguished iteration counts decide how the loop continues.
    fn decides(&self, fields: &LoopFields, ip: usize) -> bool
        ensures { let f = loop_fields_as_spec fields.now in result ≡ true
            → CountDecides self.now f (states_loop_fact LoopProgressFact.Moved f.loop_id
            (enclosing_loops_of self.now ip)) }
    {
        let count = self.count_bound_of_loop(fields.loop_id);
        if count.counted {
            return true;
        }
        let up_to = usize::from(count.up_to);
        fields.max_iters == usize::MAX
            && (fields.min_iters <= up_to
                || fields.min_iters <= up_to + 1
                    && self.states_loop_fact(ip, LoopProgressFact::Moved, fields.loop_id))
    }

    // ---- Lookarounds

    // Checks that the contents of a lookaround are isolated from the code around it.
    fn are_lookaround_contents_isolated(&self, look: LookaroundSuccessor, ip: usize) -> bool
        requires { ip + 1 < 2 ^ 64 }
        ensures { result ≡ true → IsolatesLookaround self.now look ip }
    {
        let here = self.insn_analysis_at(ip);
        let inner = self.insn_analysis_at(ip + 1);
        here.from <= inner.from
            && inner.forward == look.forward
            && (inner.silent || !here.silent)
            && self.enclosing_loops(ip + 1).is_empty()
            && self.are_enclosing_loops_numbered_below(look.past, inner.from)
            && self.agrees_with_successor(ip, look.past)
    }

    // Checks that all loops that enclose an instruction have numbers below `from`.
    fn are_enclosing_loops_numbered_below(&self, ip: usize, from: u32) -> bool
        ensures { result ≡ true → LoopsAreBefore self.now ip from }
    {
        let rows = self.enclosing_loops(ip);
        for row in rows {
            if u32::from(row.id) >= from {
                return false;
            }
        }
        true
    }
}

// Checks that `next` has the same direction as `here`, and permits no writes of loops and no
// changes of groups that `here` excludes.
fn is_onward(here: InsnAnalysis, next: InsnAnalysis) -> bool
    ensures from { result ≡ true → here.from ≤ next.from }
    ensures forward { result ≡ true → here.forward ≡ next.forward }
    ensures silent { result ≡ true → here.silent ≡ true → next.silent ≡ true }
{
    here.from <= next.from && here.forward == next.forward && (next.silent || !here.silent)
}
