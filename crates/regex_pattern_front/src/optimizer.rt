//! The optimizer, which introduces loops over one character.

ghost use Rattle.std.specs.Prelude.{◌≡◌};
ghost use Rattle.regex_pattern_front.specs.AstToSpecTree.{spec_cat_of_children, spec_node_of};
ghost use Rattle.regex_pattern_front.specs.declared.ir.Node.TheVariants.{Alt};
ghost use Rattle.regex_pattern_front.specs.OptimizedTrees.{reads_one_character, optimized, loop_turned_into_char_loop, rest_of_alternatives, first_alternative_prepended_to_chain};
ghost use Rattle.regex_pattern_front.specs.OptimizedTrees.{alternatives_with_links_unreversed, OptimizedIsWellFormed, OptimizedHasSameOutcomes, OptimizedHasSameAnswers};
ghost use Rattle.regex_pattern_front.specs.OptimizedTrees.{OptimizedHasSameGroups, OptimizedHasSameNames};
ghost use Rattle.regex_meaning.specs.Tree.{alt};

use crate::ir::{Node, Regex};
use std::mem;

/// Turns each `Loop` over a one-character node into a `Loop1CharBody`, and changes nothing else. It
/// allocates no memory, and uses no more stack for many alternatives than for two.
pub fn optimize(re: &mut Regex)
    ensures root { spec_node_of re.new.node ≡ optimized (spec_node_of re.old.node) }
    ensures flags { re.new.flags ≡ re.old.flags }
{
    optimize_node(&mut re.node);
}

// Optimizes a node in place.
#[cycle(optimize)]
fn optimize_node(node: &mut Node)
    ensures { spec_node_of node.new ≡ optimized (spec_node_of node.old) }
{
    match node {
        Node::Cat(children) => optimize_all(children),
        Node::Alt(left, right) => optimize_nested_alternatives(left, right),
        Node::CaptureGroup { contents, .. } => optimize_node(contents),
        Node::LookaroundAssertion { contents, .. } => optimize_node(contents),
        Node::Loop { loopee, .. } => {
            if reads_one_character(loopee) {
                turn_into_char_loop(node);
            } else {
                optimize_node(loopee);
            }
        }
        Node::Loop1CharBody { loopee, .. } => optimize_node(loopee),
        _ => {}
    }
}

// Optimizes each node.
#[cycle(optimize)]
fn optimize_all(nodes: &mut Vec<Node>)
    ensures { spec_cat_of_children nodes.new.items ≡ optimized (spec_cat_of_children nodes.old.items) }
{
    for i in 0..nodes.len() {
        optimize_node(&mut nodes[i]);
    }
}

// Optimizes alternatives that are nested to the right, in a loop. On the way to the last one, each
// link is reversed to point to the alternative before it. On the way back, each link is restored.
// The frame holds only the number of reversed links, and the functions that move nodes return
// before the recursion, so nested alternations take little stack. A chain that is longer than this
// number can count is continued by recursion.
#[cycle(optimize)]
#[inline(never)]
fn optimize_nested_alternatives(first: &mut Node, rest: &mut Node)
    ensures { alt (spec_node_of first.new) (spec_node_of rest.new) ≡ optimized
        (alt (spec_node_of first.old) (spec_node_of rest.old)) }
{
    optimize_node(first);
    let mut turned = 0;
    while let Node::Alt(left, _right) = rest {
        if turned == usize::MAX {
            break;
        }
        optimize_node(left);
        move_alternative(rest, first);
        turned += 1;
    }
    optimize_node(rest);
    restore_alternatives(first, rest, turned);
}

// Restores `turned` reversed alternatives, and puts them before those that follow them.
fn restore_alternatives(done: &mut Node, rest: &mut Node, mut turned: usize)
    ensures { alt (spec_node_of done.new) (spec_node_of rest.new) ≡ alternatives_with_links_unreversed turned
        (spec_node_of done.old) (spec_node_of rest.old) }
{
    while turned > 0 {
        move_alternative(done, rest);
        turned -= 1;
    }
}

// Moves the first alternative of one chain to the front of another.
#[inline(never)]
fn move_alternative(from: &mut Node, to: &mut Node)
    ensures from { spec_node_of from.new ≡ rest_of_alternatives (spec_node_of from.old) }
    ensures to { spec_node_of to.new ≡ first_alternative_prepended_to_chain (spec_node_of from.old)
        (spec_node_of to.old) }
    ensures part { (left right : _) → from.old ≡ Alt left right → from.new ≡ right.value }
{
    if let Node::Alt(_, right) = from {
        mem::swap(&mut **right, to);
        mem::swap(from, to);
    }
}

// Turns a loop into a loop over one character.
#[inline(never)]
fn turn_into_char_loop(node: &mut Node)
    ensures { spec_node_of node.new ≡ loop_turned_into_char_loop (spec_node_of node.old) }
{
    let taken = mem::replace(node, Node::Empty);
    *node = taken.loop_turned_into_char_loop();
}

/// Checks whether a node reads one character, which it accepts or rejects. `optimize` changes
/// exactly the loops over such nodes.
#[tactic(auto, unfolding(crate::specs::AstToSpecTree::spec_node_of))]
pub fn reads_one_character(node: &Node) -> bool
    ensures { result ≡ reads_one_character (spec_node_of node.now) }
{
    match node {
        Node::Char { .. } => true,
        Node::CharSet(_) => true,
        Node::ByteSet(_) => true,
        Node::Bracket(_) => true,
        Node::MatchAny => true,
        Node::MatchAnyExceptLineTerminator => true,
        _ => false,
    }
}

/// Proves that the optimized tree is well formed if the tree is.
pub fn optimized_is_well_formed()
    ensures { OptimizedIsWellFormed }
{}

/// Proves that the optimized tree of a well-formed tree has the same outcomes.
pub fn optimized_has_same_outcomes()
    ensures { OptimizedHasSameOutcomes }
{}

/// Proves that the optimized tree of a well-formed tree has the same matches in each text, and that
/// optimizing any tree keeps its groups and their names.
pub fn optimized_has_same_matches()
    ensures answers { OptimizedHasSameAnswers }
    ensures groups { OptimizedHasSameGroups }
    ensures names { OptimizedHasSameNames }
{}
