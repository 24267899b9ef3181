//! Builds a memo analysis. Nothing is proved about the builder, because its result is checked
//! (`analysis_check.rt`).

ghost use Rattle.std.specs.Prelude.{◌<◌, ◌^◌, length, IfOk, IfSome};
ghost use Rattle.regex_meaning.specs.CompilationRelation.{Program};
ghost use Rattle.regress_memo.specs.{Successors.{DeclaredInsnsEqualProgramInsns}, CheckedAnalysis.{IsAnalysisOf, HasDisjointCodes}};

use crate::analysis_result::{
    EnclosingLoop, InsnAnalysis, LoopCountsDistinguishedUpTo, LoopProgressFact, MemoAnalysis,
    default_insn_analysis, undistinguished_loop_bound,
};
use crate::flow_edges::{FlowEdge, edge_enters_loop, edges_past_lookarounds, loop_ending_at};
use crate::successors::{Successors, successors_at};
use regex_pattern_front::types::LoopID;
use regress_program::instructions::{Insn, LoopFields};
use std::alloc::{AllocError, Global};

/// The maximum number of passes of each fixpoint iteration.
pub(crate) const PASSES: usize = 8;

/// The maximum nesting depth of loops and lookarounds.
const DEEPEST: usize = 64;

/// A loop or a lookaround that encloses an instruction.
#[derive(Clone, Copy)]
enum EnclosingLoopOrLookaround {
    Loop(LoopID),
    /// The analysis of the first instruction of the lookaround's contents.
    LookaroundSuccessor(InsnAnalysis),
}

/// An open scope, which ends at instruction `end`.
#[derive(Clone, Copy)]
struct EnclosingScopeWithEnd {
    open: EnclosingLoopOrLookaround,
    end: usize,
}

/// What the instructions before a given one may write.
#[derive(Clone, Copy)]
struct LoopsAndGroupsWritten {
    /// All loops that may be entered have smaller numbers.
    loops: u32,
    /// The number of instructions that change a group.
    group_changes: usize,
}

impl MemoAnalysis {
    /// Analyses a program with these instructions and `loops` loops.
    ///
    /// Returns `None` if the program has a backreference, if an instruction would need more than 64
    /// codes, or if loops and lookarounds are nested too deeply.
    ///
    /// # Errors
    ///
    /// `AllocError` if memory cannot be allocated.
    pub fn new(
        alloc: Global,
        insns: &[Insn],
        loops: usize,
    ) -> Result<Option<MemoAnalysis>, AllocError>
        ensures of { IfOk result (λ found. IfSome found (λ memo_analysis. (program : Program)
            → DeclaredInsnsEqualProgramInsns program insns.now → IsAnalysisOf program memo_analysis)) }
        ensures coded { IfOk result (λ found. IfSome found HasDisjointCodes) }
    {
        let made = MemoAnalysis::build_unchecked_analysis(alloc, insns, loops)?;
        if made.is_analysis_of_program(insns) {
            Ok(Some(made))
        } else {
            Ok(None)
        }
    }

    // Builds an analysis. The caller checks it.
    fn build_unchecked_analysis(
        alloc: Global,
        insns: &[Insn],
        loops: usize,
    ) -> Result<MemoAnalysis, AllocError> {
        let mut made = MemoAnalysis {
            lines: Vec::with_capacity(alloc, insns.len())?,
            rows: Vec::new(alloc),
            counts: Vec::from_elem(alloc, undistinguished_loop_bound(), loops)?,
            codes: 0,
        };
        made.open_all(alloc, insns)?;
        made.clear_unproved_moved(insns);
        made.set_count_bounds(insns);
        made.set_empty_where_needed(insns);
        made.copy_entries_to_char_loop_bodies(insns);
        made.choose_memo_points(alloc, insns)?;
        made.assign_costs(insns);
        made.number_codes();
        Ok(made)
    }

    // ---- Enclosing scopes

    // Adds the analysis of each instruction. It has an entry for each enclosing loop.
    fn open_all(&mut self, alloc: Global, insns: &[Insn]) -> Result<(), AllocError> {
        let mut levels = Vec::new(alloc);
        let before = writes_before_each(alloc, insns)?;
        for ip in 0..insns.len() {
            close_ended_scopes(&mut levels, ip);
            self.add_line(&levels)?;
            match successors_at(insns, ip) {
                Successors::Enter(fields) => {
                    levels.push(EnclosingScopeWithEnd {
                        open: EnclosingLoopOrLookaround::Loop(fields.loop_id),
                        end: fields.exit as usize,
                    })?;
                }
                Successors::LookaroundSuccessor(look) => {
                    let mut line = self.insn_analysis_at(ip);
                    line.forward = look.forward;
                    set_contents_writes(&mut line, before.get(ip), before.get(look.past));
                    levels.push(EnclosingScopeWithEnd {
                        open: EnclosingLoopOrLookaround::LookaroundSuccessor(line),
                        end: look.past,
                    })?;
                }
                _ => {}
            }
        }
        Ok(())
    }

    // Adds the analysis of an instruction in these scopes. An instruction inside a lookaround has
    // no entries for the loops around the lookaround.
    fn add_line(&mut self, levels: &[EnclosingScopeWithEnd]) -> Result<(), AllocError> {
        let first = self.rows.len();
        let mut line = InsnAnalysis {
            from: 0,
            ..default_insn_analysis()
        };
        if levels.len() <= DEEPEST {
            for level in levels {
                match level.open {
                    EnclosingLoopOrLookaround::Loop(id) => self.rows.push(EnclosingLoop {
                        id,
                        moved: true,
                        empty: false,
                    })?,
                    EnclosingLoopOrLookaround::LookaroundSuccessor(inner) => {
                        self.rows.truncate(first);
                        line = inner;
                    }
                }
            }
        }
        line.first = first;
        line.end = self.rows.len();
        self.lines.push(line)?;
        Ok(())
    }

    // ---- Facts about iterations

    // Clears `moved` in all entries where it does not follow from the preceding instructions.
    fn clear_unproved_moved(&mut self, insns: &[Insn]) {
        for _pass in 0..PASSES {
            let mut changed = false;
            for ip in 0..insns.len() {
                let [first, second] = edges_past_lookarounds(insns, ip);
                changed |= self.clear_unproved_moved_at_target(first);
                changed |= self.clear_unproved_moved_at_target(second);
            }
            if !changed {
                return;
            }
        }
    }

    // Clears `moved` in the entries at the target of an edge where it does not follow. Returns
    // whether anything changed.
    fn clear_unproved_moved_at_target(&mut self, edge: Option<FlowEdge>) -> bool {
        let Some(edge) = edge else {
            return false;
        };
        let line = self.insn_analysis_at(edge.to);
        let mut changed = false;
        for number in line.first..line.end.min(self.rows.len()) {
            let row = self.rows[number];
            if row.moved && !self.is_moved_along(edge, row.id) {
                self.rows[number].moved = false;
                changed = true;
            }
        }
        changed
    }

    // Checks whether an iteration of the loop has read a character once this edge is taken.
    fn is_moved_along(&self, edge: FlowEdge, id: LoopID) -> bool {
        !edge_enters_loop(edge, id)
            && (edge.reads || self.states_loop_fact(edge.ip, LoopProgressFact::Moved, id))
    }

    // Sets the count bound of each loop.
    fn set_count_bounds(&mut self, insns: &[Insn]) {
        for ip in 0..insns.len() {
            if let Some(fields) = loop_ending_at(insns, ip) {
                let moved = self.states_loop_fact(ip, LoopProgressFact::Moved, fields.loop_id);
                if let Some(count) = self.counts.get_mut(usize::from(fields.loop_id)) {
                    *count = distinguished_count_of_loop(&fields, moved);
                }
            }
        }
    }

    // Sets `empty` where an iteration ends, and at the instructions before it where `moved` is not
    // known.
    fn set_empty_where_needed(&mut self, insns: &[Insn]) {
        for _pass in 0..PASSES {
            let mut changed = false;
            for ip in (0..insns.len()).rev() {
                let [first, second] = edges_past_lookarounds(insns, ip);
                changed |= self.ask_at_end(insns, ip);
                changed |= self.propagate_empty_backward(first);
                changed |= self.propagate_empty_backward(second);
            }
            if !changed {
                return;
            }
        }
    }

    // Sets `empty` for the loop whose iteration ends here. Returns whether anything changed.
    fn ask_at_end(&mut self, insns: &[Insn], ip: usize) -> bool {
        match loop_ending_at(insns, ip) {
            Some(fields) => self.distinguish_empty_iterations(ip, fields.loop_id),
            None => false,
        }
    }

    // Propagates `empty` backward along an edge. Returns whether anything changed.
    fn propagate_empty_backward(&mut self, edge: Option<FlowEdge>) -> bool {
        let Some(edge) = edge else {
            return false;
        };
        let line = self.insn_analysis_at(edge.to);
        let mut changed = false;
        for number in line.first..line.end {
            if let Some(row) = self.rows.get(number).copied() {
                let asks = row.empty && !edge.reads && !edge_enters_loop(edge, row.id);
                changed |= asks && self.distinguish_empty_iterations(edge.ip, row.id);
            }
        }
        changed
    }

    // Sets `empty` for a loop at an instruction where `moved` is not known. Returns whether
    // anything changed.
    fn distinguish_empty_iterations(&mut self, ip: usize, id: LoopID) -> bool {
        let line = self.insn_analysis_at(ip);
        for number in line.first..line.end.min(self.rows.len()) {
            let row = self.rows[number];
            if row.id == id && !row.moved && !row.empty {
                self.rows[number].empty = true;
                return true;
            }
        }
        false
    }

    // Gives the body of each char loop the entries of the instruction after the loop.
    fn copy_entries_to_char_loop_bodies(&mut self, insns: &[Insn]) {
        for ip in 0..insns.len() {
            if let Successors::Run(_) = successors_at(insns, ip) {
                let behind = self.insn_analysis_at(ip + 2);
                if let Some(line) = self.lines.get_mut(ip + 1) {
                    line.first = behind.first;
                    line.end = behind.end;
                }
            }
        }
    }

    // ---- Codes

    // Counts the codes of each instruction, and assigns the first code of each recording one.
    fn number_codes(&mut self) {
        let mut base = 0usize;
        for ip in 0..self.lines.len() {
            let codes = self.code_count_at(ip).unwrap_or(0);
            let line = &mut self.lines[ip];
            line.codes = codes;
            line.base = base;
            if line.records {
                base = base.saturating_add(codes);
            }
        }
        self.codes = base;
    }
}

// Returns, for each instruction, what the instructions before it write.
fn writes_before_each(
    alloc: Global,
    insns: &[Insn],
) -> Result<Vec<LoopsAndGroupsWritten>, AllocError> {
    let mut before = Vec::with_capacity(alloc, insns.len())?;
    let mut written = LoopsAndGroupsWritten {
        loops: 0,
        group_changes: 0,
    };
    for ip in 0..insns.len() {
        before.push(written)?;
        match successors_at(insns, ip) {
            Successors::Enter(fields) => {
                written.loops = written.loops.max(u32::from(fields.loop_id) + 1);
            }
            Successors::One(next) if !next.silent => {
                written.group_changes = written.group_changes.saturating_add(1);
            }
            _ => {}
        }
    }
    Ok(before)
}

// Sets what the contents of a lookaround may write, given what is written before the contents and
// before the instruction that follows them.
fn set_contents_writes(
    line: &mut InsnAnalysis,
    before: Option<&LoopsAndGroupsWritten>,
    behind: Option<&LoopsAndGroupsWritten>,
) {
    let (Some(before), Some(behind)) = (before, behind) else {
        return;
    };
    line.from = if before.loops == behind.loops {
        default_insn_analysis().from
    } else {
        before.loops
    };
    line.silent |= before.group_changes == behind.group_changes;
}

// Closes the scopes that end at an instruction or before it.
fn close_ended_scopes(levels: &mut Vec<EnclosingScopeWithEnd>, ip: usize) {
    for _level in 0..levels.len() {
        match levels.last() {
            Some(last) if last.end <= ip => {
                let _ = levels.pop();
            }
            _ => {
                return;
            }
        }
    }
}

// Computes the count bound of a loop. `moved` says whether each iteration has read a character at
// its end.
fn distinguished_count_of_loop(fields: &LoopFields, moved: bool) -> LoopCountsDistinguishedUpTo {
    let counted = fields.max_iters != usize::MAX;
    let up_to = if counted {
        fields.max_iters.saturating_sub(1)
    } else if moved {
        fields.min_iters.saturating_sub(1)
    } else {
        fields.min_iters
    };
    LoopCountsDistinguishedUpTo {
        up_to: u16::try_from(up_to).unwrap_or(u16::MAX),
        counted,
    }
}
