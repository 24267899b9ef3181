//! A walk over the nodes of a tree.
#![tactic(auto, unfolding(regex_pattern_front::specs::AstToSpecTree::spec_node_of, crate::specs::InnerNodeCountMeasure::inner_node_count))]

ghost use Rattle.std.specs.Prelude.{◌≡◌, Option, Some, is_some, IsTrue};
ghost use Rattle.regex_meaning.specs.Tree.{Node as TreeNode, cat, end_of_cat};
ghost use Rattle.regex_pattern_front.specs.AstToSpecTree.{spec_node_of};
ghost use Rattle.regress_program.specs.{LeafNodesAndOptimizableLoops.{spec_cat_of_children}, TryFoldOverTreeNodes.{try_fold_tree_nodes}};

use regex_pattern_front::ir::Node;

/// An action on each node of a walk.
pub(crate) trait PreorderNodeVisitor {
    // The visitor after a node, or none if the walk stops at the node.
    ghost step: { TreeNode → Self → Option Self };

    // Visits a node. Returns whether the walk continues.
    fn visit_node_or_stop_walk(&mut self, node: &Node) -> bool
        ensures goes_on { result ≡ is_some (step (spec_node_of node.now) self.old) }
        ensures step { IsTrue result → step (spec_node_of node.now) self.old ≡ Some self.new };

    // Visiting a list itself changes nothing, only its nodes do.
    ghost passes_rows: { (first rest : TreeNode) (it : Self) → step (cat first rest) it ≡ Some it };

    ghost passes_ends: { (it : Self) → step end_of_cat it ≡ Some it };
}

// Visits a node and each node inside it, in the order of the tree, until one stops the walk.
// Returns whether none did. It iterates along the last child of each node, so neither many
// alternatives nor nested groups need stack.
#[cycle(walk)]
pub(crate) fn walk<V: PreorderNodeVisitor>(visitor: &mut V, root: &Node) -> bool
    ensures goes_on { result ≡ is_some (try_fold_tree_nodes V.step (spec_node_of root.now) visitor.old) }
    ensures walked { IsTrue result → try_fold_tree_nodes V.step (spec_node_of root.now) visitor.old ≡ Some visitor.new }
{
    let mut rest = root;
    while visitor.visit_node_or_stop_walk(rest) {
        match rest {
            Node::Cat(nodes) => return walk_row(visitor, nodes),
            Node::Alt(left, right) => {
                if !walk_arm(visitor, left) {
                    return false;
                }
                rest = right;
            }
            Node::CaptureGroup { contents, .. } | Node::LookaroundAssertion { contents, .. } => {
                rest = contents;
            }
            Node::Loop { loopee, .. } | Node::Loop1CharBody { loopee, .. } => rest = loopee,
            Node::Empty
            | Node::Goal
            | Node::Char { .. }
            | Node::CharSet(_)
            | Node::ByteSet(_)
            | Node::ByteSequence(_)
            | Node::Bracket(_)
            | Node::StringSet { .. }
            | Node::MatchAny
            | Node::MatchAnyExceptLineTerminator
            | Node::Anchor { .. }
            | Node::WordBoundary { .. }
            | Node::BackRef { .. }
            | Node::CanonicalBackRef { .. } => return true,
        }
    }
    false
}

// Walks an alternative that is not the last. The nodes of a list are walked inline, so a level of
// nesting takes one stack frame.
#[cycle(walk)]
#[inline(always)]
fn walk_arm<V: PreorderNodeVisitor>(visitor: &mut V, arm: &Node) -> bool
    ensures goes_on { result ≡ is_some (try_fold_tree_nodes V.step (spec_node_of arm.now) visitor.old) }
    ensures walked { IsTrue result → try_fold_tree_nodes V.step (spec_node_of arm.now) visitor.old ≡ Some visitor.new }
{
    match arm {
        Node::Cat(nodes) => walk_row(visitor, nodes),
        _ => walk(visitor, arm),
    }
}

#[cycle(walk)]
#[inline(always)]
fn walk_row<V: PreorderNodeVisitor>(visitor: &mut V, nodes: &[Node]) -> bool
    ensures goes_on { result ≡ is_some (try_fold_tree_nodes V.step (spec_cat_of_children nodes.now) visitor.old) }
    ensures walked { IsTrue result → try_fold_tree_nodes V.step (spec_cat_of_children nodes.now) visitor.old ≡ Some
        visitor.new }
{
    for node in nodes {
        if !walk(visitor, node) {
            return false;
        }
    }
    true
}
