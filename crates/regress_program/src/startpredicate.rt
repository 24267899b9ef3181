//! Computes the start predicate of a tree.
#![tactic(auto, unfolding(regex_pattern_front::specs::AstToSpecTree::spec_node_of, crate::specs::InnerNodeCountMeasure::inner_node_count))]

ghost use Rattle.std.specs.Prelude.{◌≡◌, ◌&&◌, not, false, IfOk, IsOk};
ghost use Rattle.regex_meaning.specs.StartPredicate.{IsSoundStartPredicateOf, is_anchored, start_predicate, resolved_start_predicate, sequence, one_of};
ghost use Rattle.regex_meaning.specs.WellFormedTrees.{IsWellFormed};
ghost use Rattle.regex_pattern_front.specs.ByteSetMembers.{member_bytes_of_byte_bitmap};
ghost use Rattle.regex_pattern_front.specs.AstToSpecTree.{spec_node_of, tree_of};
ghost use Rattle.regress_program.specs.{JoinedStarts.{abstract_start_as_spec}, InsnsAsSpec.{start_predicate_as_spec}};
ghost use Rattle.regress_program.specs.StartPredicates.{HasOverThreeBytes, is_anchored_tree, predicate_is_byte_sequence, start_predicate_may_allocate};

mod abstract_start;
mod first_bytes_of_chars_and_classes;

use crate::insn::StartPredicate;
use crate::startpredicate::abstract_start::{AbstractStartPredicate, abstract_start_of};
use crate::startpredicate::first_bytes_of_chars_and_classes::least_byte_in_set_from;
use regex_pattern_front::bytesearch::ByteBitmap;
use regex_pattern_front::ir;
use regex_pattern_front::ir::{AnchorType, Node};
use std::alloc::{AllocError, Global};

/// Computes the start predicate of a tree, for texts in bytes: given bytes, one byte of a set, or
/// anything. If the pattern matches only at the left end of the text, as one that begins with `^`
/// does, the predicate says so. Otherwise the first node that reads something decides, and
/// alternatives give what they have in common. Which nodes give what is a rule of this crate
/// (`start_predicate` of `regex_meaning`).
///
/// The predicate is sound for a well-formed tree: it holds at each offset where the pattern
/// matches, and the byte that it looks for first is the first byte of a character.
///
/// # Errors
///
/// Returns `Err` if an allocation fails. Memory is allocated only for the bytes of a sequence and
/// for an inverted class. None is allocated if the tree is anchored, or if neither a byte sequence
/// nor an inverted class is reached before the predicate is decided.
pub fn predicate_for_re(alloc: Global, re: &ir::Regex) -> Result<StartPredicate, AllocError>
    ensures predicate { IfOk result (λ p. start_predicate_as_spec p ≡ start_predicate (tree_of re.now)) }
    ensures sound { IsWellFormed (tree_of re.now).root
        → IfOk result (λ p. IsSoundStartPredicateOf (start_predicate_as_spec p) (tree_of re.now).root) }
    ensures over_three { IfOk result HasOverThreeBytes }
    ensures no_memory { start_predicate_may_allocate (tree_of re.now) ≡ false → IsOk result }
{
    if matches_at_left_end(re) {
        return Ok(StartPredicate::StartAnchored);
    }
    let beginning = abstract_start_of(&re.node)?;
    beginning_predicate(alloc, beginning)
}

// Returns the start predicate of an abstract one. A small set is stored as an array.
fn beginning_predicate(
    alloc: Global,
    beginning: AbstractStartPredicate<'_>,
) -> Result<StartPredicate, AllocError>
    ensures predicate { IfOk result (λ p. start_predicate_as_spec p ≡ resolved_start_predicate
        (abstract_start_as_spec beginning.entry)) }
    ensures over_three { IfOk result HasOverThreeBytes }
    ensures no_memory { predicate_is_byte_sequence (abstract_start_as_spec beginning.entry) ≡ false →
        IsOk result }
{
    match beginning {
        AbstractStartPredicate::Open | AbstractStartPredicate::Anything => Ok(
            StartPredicate::Arbitrary,
        ),
        AbstractStartPredicate::Sequence(bytes) => bytes_predicate(alloc, bytes),
        AbstractStartPredicate::OneOf(set) => Ok(set_predicate(set)),
    }
}

// Returns the predicate that a text starts with these bytes.
fn bytes_predicate(alloc: Global, bytes: &[u8]) -> Result<StartPredicate, AllocError>
    ensures predicate { IfOk result (λ p. start_predicate_as_spec p ≡ resolved_start_predicate (sequence bytes.now)) }
    ensures over_three { IfOk result HasOverThreeBytes }
{
    match bytes {
        [] => Ok(StartPredicate::Arbitrary),
        [byte] => Ok(StartPredicate::ByteSet1([*byte])),
        _ => Ok(StartPredicate::ByteSeq(bytes.to_vec(alloc)?)),
    }
}

// Returns the predicate that a text starts with a byte of the set.
fn set_predicate(set: ByteBitmap) -> StartPredicate
    ensures predicate { start_predicate_as_spec result
        ≡ resolved_start_predicate (one_of (member_bytes_of_byte_bitmap set)) }
    ensures over_three { HasOverThreeBytes result }
{
    let Some(a) = least_byte_in_set_from(&set, 0) else {
        return StartPredicate::Arbitrary;
    };
    let Some(b) = least_byte_in_set_from(&set, usize::from(a) + 1) else {
        return StartPredicate::ByteSet1([a]);
    };
    let Some(c) = least_byte_in_set_from(&set, usize::from(b) + 1) else {
        return StartPredicate::ByteSet2([a, b]);
    };
    match least_byte_in_set_from(&set, usize::from(c) + 1) {
        None => StartPredicate::ByteSet3([a, b, c]),
        Some(_) => StartPredicate::ByteBracket(set),
    }
}

// Checks whether the tree is anchored, so that it matches only at the left end of a text.
pub(crate) fn matches_at_left_end(re: &ir::Regex) -> bool
    ensures { result ≡ is_anchored_tree (tree_of re.now) }
{
    !re.flags.multiline && is_start_anchored(&re.node)
}

// Checks whether the node is anchored.
fn is_start_anchored(node: &Node) -> bool
    ensures { result ≡ is_anchored (spec_node_of node.now) }
{
    let mut rest = node;
    loop {
        match rest {
            Node::Cat(nodes) => match nodes.first() {
                Some(first) => rest = first,
                None => return false,
            },
            Node::Alt(left, right) => {
                if !is_start_anchored(left) {
                    return false;
                }
                rest = right;
            }
            Node::CaptureGroup { contents, .. } => rest = contents,
            Node::Anchor {
                anchor_type: AnchorType::StartOfLine,
                multiline,
            } => return !*multiline,
            Node::Anchor { .. }
            | Node::Empty
            | Node::Goal
            | Node::Char { .. }
            | Node::CharSet(_)
            | Node::ByteSet(_)
            | Node::ByteSequence(_)
            | Node::Bracket(_)
            | Node::StringSet { .. }
            | Node::MatchAny
            | Node::MatchAnyExceptLineTerminator
            | Node::WordBoundary { .. }
            | Node::BackRef { .. }
            | Node::CanonicalBackRef { .. }
            | Node::LookaroundAssertion { .. }
            | Node::Loop { .. }
            | Node::Loop1CharBody { .. } => return false,
        }
    }
}
