//! Chooses the recording instructions, their potentials, and the costs of their keys.

ghost use Rattle.std.specs.Prelude.{◌<◌, ◌+◌, ◌^◌, length};

use crate::analysis_builder::PASSES;
use crate::analysis_result::MemoAnalysis;
use crate::flow_edges::{FlowEdge, edges_past_lookarounds, loop_ending_at};
use crate::successors::{CharLoopMinMaxAndGreed, Successors, successors_at};
use regress_program::instructions::Insn;
use std::alloc::{AllocError, Global};

/// The maximum potential.
const MAX_POTENTIAL: u64 = 0x7FFF_FFFF;

impl MemoAnalysis {
    // Makes these instructions record: those with more than one incoming edge, and the bodies of
    // char loops without a maximum. So each cycle has a recording instruction. If a lookaround has
    // several incoming edges, the instruction after it records instead.
    pub(crate) fn choose_memo_points(
        &mut self,
        alloc: Global,
        insns: &[Insn],
    ) -> Result<(), AllocError> {
        let mut ways = count_incoming_edges(alloc, insns)?;
        for ip in 0..insns.len() {
            let merges = matches!(ways.get(ip), Some(count) if *count > 1);
            match successors_at(insns, ip) {
                Successors::Run(bounds) if bounds.most == usize::MAX => self.mark_as_recording(
                    ip + 1,
                ),
                Successors::LookaroundSuccessor(look) if merges => count_flow_edge(
                    &mut ways, look.past,
                ),
                Successors::Ends | Successors::LookaroundSuccessor(_) => {}
                _ if merges => self.mark_as_recording(ip),
                _ => {}
            }
        }
        Ok(())
    }

    fn mark_as_recording(&mut self, ip: usize) {
        if let Some(line) = self.lines.get_mut(ip) {
            line.records = true;
        }
    }

    // Assigns potentials, from the last instruction to the first, and costs of keys.
    pub(crate) fn assign_costs(&mut self, insns: &[Insn]) {
        for _pass in 0..PASSES {
            let mut changed = false;
            for ip in (0..insns.len()).rev() {
                changed |= self.weigh(insns, ip);
            }
            if !changed {
                return;
            }
        }
    }

    // Assigns the potential and the cost of one instruction. Returns whether anything changed.
    fn weigh(&mut self, insns: &[Insn], ip: usize) -> bool
        requires { ip < length insns.now }
    {
        let left = self
            .potential_needed_after_insn(insns, ip)
            .min(MAX_POTENTIAL);
        let ready = self
            .potential_needed_at_insn(insns, ip, left)
            .min(MAX_POTENTIAL);
        let Some(line) = self.lines.get_mut(ip) else {
            return false;
        };
        let changed = u64::from(line.left) != left || u64::from(line.ready) != ready;
        line.left = left as u32;
        line.ready = ready as u32;
        line.key_cost = if line.records { left as u32 + 3 } else { 0 };
        changed
    }

    // Returns the potential of a thread at an instruction.
    fn ready(&self, ip: usize) -> u64
        ensures { result < 2 ^ 32 }
    {
        u64::from(self.insn_analysis_at(ip).ready)
    }

    // Returns the potential needed for a running thread and a pending one.
    fn ready_for_two(&self, next: usize, other: usize) -> u64 {
        self.ready(next) + self.ready(other) + 1
    }

    // Returns the potential needed for the threads that an instruction leaves.
    fn potential_needed_after_insn(&self, insns: &[Insn], ip: usize) -> u64
        requires { ip < length insns.now }
    {
        match successors_at(insns, ip) {
            Successors::Run(bounds) => self.potential_of_bounded_char_loop(bounds, ip),
            Successors::Enter(fields) => self.ready_for_two(ip + 1, fields.exit as usize),
            Successors::Again(begin) => match loop_ending_at(insns, ip) {
                Some(fields) => {
                    self.ready_for_two(begin.saturating_add(1), fields.exit as usize)
                }
                None => 0,
            },
            Successors::LookaroundSuccessor(look) => self.ready(ip + 1) + self.ready(look.past),
            _ => match edges_past_lookarounds(insns, ip) {
                [Some(next), Some(other)] => self.ready_for_two(next.to, other.to),
                [Some(next), None] => self.ready(next.to),
                _ => 0,
            },
        }
    }

    // Returns the potential needed for the characters and the exits of a char loop with a maximum.
    // Returns 0 for a loop without a maximum.
    fn potential_of_bounded_char_loop(&self, bounds: CharLoopMinMaxAndGreed, ip: usize) -> u64
        requires { ip + 2 < 2 ^ 64 }
    {
        if bounds.most == usize::MAX {
            return 0;
        }
        let places = (bounds.most as u64)
            .saturating_add(1)
            .saturating_sub(bounds.least as u64);
        places
            .saturating_mul(self.ready(ip + 2) + 1)
            .saturating_add(bounds.most as u64)
            .saturating_add(1)
    }

    // Returns the potential needed for a thread at an instruction that leaves `left`.
    fn potential_needed_at_insn(&self, insns: &[Insn], ip: usize, left: u64) -> u64
        requires { ip < length insns.now }
    {
        match successors_at(insns, ip) {
            Successors::Run(bounds) if bounds.most == usize::MAX => {
                let first = if bounds.greedy {
                    2
                } else {
                    2 * self.ready(ip + 2) + 3
                };
                (bounds.least as u64).saturating_add(first)
            }
            _ if self.insn_analysis_at(ip).records => 1,
            _ => left.saturating_add(1),
        }
    }
}

// Counts the incoming edges of each instruction.
fn count_incoming_edges(alloc: Global, insns: &[Insn]) -> Result<Vec<u8>, AllocError> {
    let mut ways = Vec::from_elem(alloc, 0u8, insns.len())?;
    count_flow_edge(&mut ways, 0);
    for ip in 0..insns.len() {
        let [first, second] = edges_past_lookarounds(insns, ip);
        add_edge(&mut ways, first);
        add_edge(&mut ways, second);
    }
    Ok(ways)
}

// Counts the edge, if there is one, at its target.
fn add_edge(ways: &mut [u8], edge: Option<FlowEdge>) {
    if let Some(edge) = edge {
        count_flow_edge(ways, edge.to);
    }
}

// Counts one more edge to the instruction, up to 255.
fn count_flow_edge(ways: &mut [u8], to: usize) {
    if let Some(count) = ways.get_mut(to) {
        *count = count.saturating_add(1);
    }
}
