//! Local patterns. Their matches depend only on the characters that they read and on word
//! boundaries, and not on other characters next to them or on what a group has matched.
//!
//! If a local pattern has no match in a text, it has none in any line of the text. So whole texts
//! are searched first. A word that ends at the end of a line also ends there in the text, because a
//! line break is not a word character.
#![tactic(auto, unfolding(regex_pattern_front::specs::AstToSpecTree::spec_node_of, regress_program::specs::InnerNodeCountMeasure::inner_node_count))]

ghost use Rattle.std.specs.Prelude.{◌≡◌, IfOk, IsTrue, chars};
ghost use Rattle.regex_pattern_front.specs.AstToSpecTree.{spec_node_of};
ghost use Rattle.regress_match.specs.PublicFlagsAsSpecFlags.{spec_flags_of};
ghost use Rattle.regress_program.specs.LeafNodesAndOptimizableLoops.{spec_cat_of_children};
ghost use Rattle.use_grep.specs.{Local.{is_local as spec_is_local}, Selecting.{IsLocal}};

use crate::patterns::SYNTAX;
use regex_pattern_front::ir::Node;
use regress_match::Flags;
use regress_match::backends::try_parse_in;
use std::alloc::{AllocError, Global};

/// Checks whether a pattern is local. An invalid pattern is not.
///
/// # Errors
///
/// `AllocError` if an allocation fails.
pub fn is_local(alloc: Global, pattern: &str, flags: Flags) -> Result<bool, AllocError>
    ensures { IfOk result (λ b. IsTrue b → IsLocal (spec_flags_of flags) pattern.now) }
{
    let characters = characters(alloc, pattern)?;
    match try_parse_in(alloc, &characters, flags.for_front(), SYNTAX) {
        Ok(parsed) => Ok(is_local_node(&parsed.node)),
        Err(_) => Ok(false),
    }
}

// Returns the characters of a text.
fn characters(alloc: Global, text: &str) -> Result<Vec<u32>, AllocError>
    ensures { IfOk result (λ v. v.items ≡ chars text.now) }
{
    text.chars().map(u32::from).collect(alloc)
}

// Checks whether a node and all nodes inside it are local. It loops over the last node inside each
// node, so that neither many alternatives nor nested groups use much stack.
#[cycle(is_local_node)]
fn is_local_node(node: &Node) -> bool
    ensures { result ≡ spec_is_local (spec_node_of node.now) }
{
    let mut rest = node;
    loop {
        match rest {
            Node::Cat(nodes) => return are_local(nodes),
            Node::Alt(left, right) => {
                if !is_local_node(left) {
                    return false;
                }
                rest = right;
            }
            Node::CaptureGroup { contents, .. } => rest = contents,
            Node::Loop { loopee, .. } | Node::Loop1CharBody { loopee, .. } => rest = loopee,
            Node::Bracket(_)
            | Node::ByteSet(_)
            | Node::Char { .. }
            | Node::CharSet(_)
            | Node::Empty
            | Node::Goal
            | Node::MatchAny
            | Node::MatchAnyExceptLineTerminator => return true,
            Node::WordBoundary { invert, .. } => return !*invert,
            Node::ByteSequence(_)
            | Node::StringSet { .. }
            | Node::Anchor { .. }
            | Node::BackRef { .. }
            | Node::CanonicalBackRef { .. }
            | Node::LookaroundAssertion { .. } => return false,
        }
    }
}

#[cycle(is_local_node)]
fn are_local(nodes: &[Node]) -> bool
    ensures { result ≡ spec_is_local (spec_cat_of_children nodes.now) }
{
    for node in nodes {
        if !is_local_node(node) {
            return false;
        }
    }
    true
}
