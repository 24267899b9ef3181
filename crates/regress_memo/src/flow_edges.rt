//! Control-flow edges: from which instruction to which a thread may continue.

ghost use Rattle.std.specs.Prelude.{◌≡◌, ◌<◌, length};
ghost use Rattle.regress_memo.specs.AnalysisChecks.{is_entered};

use crate::successors::{Successors, successors_at};
use regex_pattern_front::types::LoopID;
use regress_program::instructions::{Insn, LoopFields};

/// An edge between two instructions. It also says whether a character is read, and which loop is
/// entered.
#[derive(Clone, Copy)]
pub(crate) struct FlowEdge {
    pub(crate) ip: usize,
    pub(crate) to: usize,
    pub(crate) reads: bool,
    pub(crate) entered: Option<LoopID>,
}

// Checks whether an edge enters a loop.
pub(crate) fn edge_enters_loop(edge: FlowEdge, id: LoopID) -> bool
    ensures { result ≡ is_entered edge.entered id }
{
    match edge.entered {
        Some(entered) => id == entered,
        None => false,
    }
}

/// Returns the edges from an instruction, without the edge to the contents of a lookaround.
pub(crate) fn edges_past_lookarounds(insns: &[Insn], ip: usize) -> [Option<FlowEdge>; 2]
    requires { ip < length insns.now }
{
    match successors_at(insns, ip) {
        Successors::Ends | Successors::Same => [None, None],
        Successors::One(next) => [plain(ip, next.to, next.reads), None],
        Successors::Two(other) => [plain(ip, ip + 1, false), plain(ip, other, false)],
        Successors::Enter(fields) => edges_of_loop_head(ip, ip, &fields),
        Successors::Again(begin) => match successors_at(insns, begin) {
            Successors::Enter(fields) => edges_of_loop_head(ip, begin, &fields),
            _ => [None, None],
        },
        Successors::Run(bounds) => [plain(ip, ip + 2, bounds.least > 0), None],
        Successors::LookaroundSuccessor(look) => [plain(ip, look.past, false), None],
    }
}

/// Returns the loop whose iteration ends at an instruction, if there is one.
pub(crate) fn loop_ending_at(insns: &[Insn], ip: usize) -> Option<LoopFields> {
    if let Successors::Again(begin) = successors_at(insns, ip) {
        if let Successors::Enter(fields) = successors_at(insns, begin) {
            return Some(fields);
        }
    }
    None
}

// Returns an edge that enters no loop.
fn plain(ip: usize, to: usize, reads: bool) -> Option<FlowEdge> {
    Some(FlowEdge {
        ip,
        to,
        reads,
        entered: None,
    })
}

// Returns the edges from a loop head to the loop's body and to its exit.
fn edges_of_loop_head(ip: usize, begin: usize, fields: &LoopFields) -> [Option<FlowEdge>; 2] {
    let again = FlowEdge {
        ip,
        to: begin.saturating_add(1),
        reads: false,
        entered: Some(fields.loop_id),
    };
    [Some(again), plain(ip, fields.exit as usize, false)]
}
