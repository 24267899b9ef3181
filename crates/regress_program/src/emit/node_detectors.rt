//! Tests for nodes that read bytes, and for loops that optimizing changes.
#![tactic(auto, unfolding(regex_pattern_front::specs::AstToSpecTree::spec_node_of))]

ghost use Rattle.std.specs.Prelude.{◌≡◌, not, true};
ghost use Rattle.std.proofs.Common.{refl};
ghost use Rattle.regex_meaning.specs.CompilationRelation.{is_byte_node, tree_contains_byte_nodes as spec_tree_contains_byte_nodes};
ghost use Rattle.regex_pattern_front.specs.OptimizedTrees.{optimized};
ghost use Rattle.regex_pattern_front.specs.AstToSpecTree.{spec_node_of};
ghost use Rattle.regress_program.specs.{LeafNodesAndOptimizableLoops.{becomes_char_loop}, TryFoldOverTreeNodes.{step_of_test}};

use crate::emit::tree_walk_with_visitor::{PreorderNodeVisitor, walk};
use regex_pattern_front::ir::Node;
use regex_pattern_front::optimizer::reads_one_character;

// A visitor that stops at a byte set or a byte sequence.
#[derive(Drop)]
struct ByteNodeDetector;

impl PreorderNodeVisitor for ByteNodeDetector {
    ghost step = { λ n it. step_of_test (not (is_byte_node n)) it };

    ghost passes_rows = { λ first rest it. refl };

    ghost passes_ends = { λ it. refl };

    fn visit_node_or_stop_walk(&mut self, node: &Node) -> bool {
        match node {
            Node::ByteSet(_) | Node::ByteSequence(_) => false,
            _ => true,
        }
    }
}

// Checks whether the tree contains a byte set or a byte sequence.
pub(crate) fn tree_contains_byte_nodes(node: &Node) -> bool
    ensures { result ≡ spec_tree_contains_byte_nodes (spec_node_of node.now) }
{
    !walk(&mut ByteNodeDetector, node)
}

// A visitor that stops at a loop over a node that reads one character.
#[derive(Drop)]
struct OptimizableLoopDetector;

impl PreorderNodeVisitor for OptimizableLoopDetector {
    ghost step = { λ n it. step_of_test (not (becomes_char_loop n)) it };

    ghost passes_rows = { λ first rest it. refl };

    ghost passes_ends = { λ it. refl };

    fn visit_node_or_stop_walk(&mut self, node: &Node) -> bool {
        match node {
            Node::Loop { loopee, .. } => !reads_one_character(loopee),
            _ => true,
        }
    }
}

// Checks that no loop is over a node that reads one character.
pub(crate) fn has_no_loop_left_to_optimize(node: &Node) -> bool
    ensures { result ≡ true → optimized (spec_node_of node.now) ≡ spec_node_of node.now }
{
    walk(&mut OptimizableLoopDetector, node)
}
