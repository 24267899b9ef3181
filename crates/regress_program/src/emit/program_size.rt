//! Counts the groups, loops and instructions that the program of a tree has.
#![tactic(auto, unfolding(regex_pattern_front::specs::AstToSpecTree::spec_node_of))]

ghost use Rattle.std.specs.Prelude.{◌≡◌, ◌+◌, ◌-◌, ◌^◌, Some, length, min};
ghost use Rattle.std.proofs.Common.{refl};
ghost use Rattle.regex_meaning.specs.Tree.{group_ids};
ghost use Rattle.regex_pattern_front.specs.AstToSpecTree.{spec_node_of};
ghost use Rattle.regress_program.specs.CompilationOfTreesAsFunction.{node_insn_count, insn_count_without_children as spec_insn_count_without_children, loop_count};
ghost use Rattle.regress_program.specs.GroupLoopInsnCountsPerNode.{count_node};

use crate::emit::byte_sequences_and_string_sets::{chunk_count, insn_count_of_strings};
use crate::emit::tree_walk_with_visitor::{PreorderNodeVisitor, walk};
use regex_pattern_front::ir::Node;

/// The number of groups, loops and instructions. Each count saturates at `usize::MAX`.
#[derive(Drop)]
pub(crate) struct ProgramSize {
    pub(crate) groups: usize,
    pub(crate) loops: usize,
    pub(crate) insns: usize,
}

impl ProgramSize {
    pub(crate) fn new() -> ProgramSize
        ensures groups { result.groups ≡ 0 }
        ensures loops { result.loops ≡ 0 }
        ensures insns { result.insns ≡ 0 }
    {
        ProgramSize {
            groups: 0,
            loops: 0,
            insns: 0,
        }
    }

    // Counts a node and those inside it.
    pub(crate) fn count_node_and_descendants(&mut self, node: &Node)
        ensures groups { min self.new.groups (2 ^ 64 - 1)
            ≡ min (self.old.groups + length (group_ids (spec_node_of node.now))) (2 ^ 64 - 1) }
        ensures loops { min self.new.loops (2 ^ 64 - 1)
            ≡ min (self.old.loops + loop_count (spec_node_of node.now)) (2 ^ 64 - 1) }
        ensures insns { min self.new.insns (2 ^ 64 - 1)
            ≡ min (self.old.insns + node_insn_count (spec_node_of node.now)) (2 ^ 64 - 1) }
    {
        let _ = walk(self, node);
    }

    fn add_insns(&mut self, count: usize)
        ensures groups { self.new.groups ≡ self.old.groups }
        ensures loops { self.new.loops ≡ self.old.loops }
        ensures insns { self.new.insns ≡ min (self.old.insns + count) (2 ^ 64 - 1) }
    {
        self.insns = self.insns.saturating_add(count);
    }
}

impl PreorderNodeVisitor for ProgramSize {
    ghost step = { λ n it. Some (count_node n it) };

    ghost passes_rows = { λ first rest it. refl };

    ghost passes_ends = { λ it. refl };

    fn visit_node_or_stop_walk(&mut self, node: &Node) -> bool {
        match node {
            Node::Cat(_) => return true,
            Node::CaptureGroup { .. } => self.groups = self.groups.saturating_add(1),
            Node::Loop { .. } => self.loops = self.loops.saturating_add(1),
            _ => {}
        }
        self.add_insns(insn_count_without_children(node));
        true
    }
}

// Returns the number of instructions of a node without those of its children, saturating at
// `usize::MAX`.
fn insn_count_without_children(node: &Node) -> usize
    ensures { result ≡ min (spec_insn_count_without_children (spec_node_of node.now)) (2 ^ 64 - 1) }
{
    match node {
        Node::Empty => 0,
        Node::Cat(_) => 0,
        Node::Goal
        | Node::Char { .. }
        | Node::CharSet(_)
        | Node::ByteSet(_)
        | Node::Bracket(_)
        | Node::MatchAny
        | Node::MatchAnyExceptLineTerminator
        | Node::Anchor { .. }
        | Node::WordBoundary { .. }
        | Node::BackRef { .. }
        | Node::CanonicalBackRef { .. }
        | Node::Loop1CharBody { .. } => 1,
        Node::Alt(..) | Node::CaptureGroup { .. } | Node::LookaroundAssertion { .. } => 2,
        Node::ByteSequence(bytes) => chunk_count(bytes),
        Node::StringSet { alternatives, .. } => insn_count_of_strings(alternatives),
        Node::Loop {
            enclosed_groups,
            ..
        } => {
            let resets = enclosed_groups.end.saturating_sub(enclosed_groups.start);
            usize::from(resets) + 2
        }
    }
}
