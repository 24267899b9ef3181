//! Computes the bytes that the nodes of a tree begin with.
#![tactic(auto, unfolding(regex_pattern_front::specs::AstToSpecTree::spec_node_of, regex_meaning::specs::StartPredicate::abstract_start_predicate, crate::specs::StartPredicates::making_node_start_predicate_may_allocate, crate::specs::InnerNodeCountMeasure::inner_node_count))]

ghost use Rattle.std.specs.Prelude.{◌≡◌, not, true, false, IfOk, OnOk, IsOk};
ghost use Rattle.regex_meaning.specs.StartPredicate.{abstract_start_predicate, join, byte_sequence_predicate, common_prefix_or_first_bytes, union_of_byte_sets, first_byte_as_set, common_prefix};
ghost use Rattle.regex_pattern_front.specs.AstToSpecTree.{spec_node_of};
ghost use Rattle.regress_program.specs.JoinedStarts.{abstract_start_as_spec, join_nonempty_starts, join_starts_of_alternatives, join_starts};
ghost use Rattle.regress_program.specs.LeafNodesAndOptimizableLoops.{spec_cat_of_children, is_leaf};
ghost use Rattle.regress_program.specs.StartPredicates.{predicate_says_reads_nothing, making_node_start_predicate_may_allocate};

use crate::startpredicate::first_bytes_of_chars_and_classes::{
    add_first_byte_of_sequence, bitmap_of_bytes, first_bytes_of_class, first_bytes_of_members,
    union_byte_bitmap_into,
};
use regex_pattern_front::bytesearch::ByteBitmap;
use regex_pattern_front::ir::Node;
use std::alloc::AllocError;

// What a text has to start with where a node matches.
#[derive(Clone, Copy)]
pub(crate) enum AbstractStartPredicate<'a> {
    // The node reads nothing, so the node after it decides.
    Open,
    Anything,
    // These bytes.
    Sequence(&'a [u8]),
    // One byte of the set.
    OneOf(ByteBitmap),
}

// Computes what the node begins with.
pub(crate) fn abstract_start_of(node: &Node) -> Result<AbstractStartPredicate<'_>, AllocError>
    ensures beginning { IfOk result (λ b. abstract_start_as_spec b ≡ abstract_start_predicate (spec_node_of node.now)) }
    ensures no_memory { making_node_start_predicate_may_allocate (spec_node_of node.now) ≡ false → IsOk result }
{
    let mut shared = AbstractStartPredicate::Open;
    join_node(&mut shared, node)?;
    Ok(shared)
}

// Joins what the node begins with to `shared`, which is what the alternatives before it begin with,
// or `Open` if there are none. Returns whether the node reads something. If it reads nothing,
// `shared` is unchanged.
//
// The joined value is in one variable, and the work for a leaf is outside the frames of the nodes
// with children. So deep nesting needs little stack.
#[cycle(join_node)]
fn join_node<'a>(
    shared: &mut AbstractStartPredicate<'a>,
    node: &'a Node,
) -> Result<bool, AllocError>
    ensures shared { OnOk result (abstract_start_as_spec shared.new
        ≡ join_nonempty_starts (abstract_start_as_spec shared.old) (abstract_start_predicate (spec_node_of node.now))) }
    ensures reads { IfOk result (λ reads. reads ≡ not (predicate_says_reads_nothing
        (abstract_start_predicate (spec_node_of node.now)))) }
    ensures no_memory { making_node_start_predicate_may_allocate (spec_node_of node.now) ≡ false → IsOk result }
{
    match node {
        Node::Cat(nodes) => join_node_list(shared, nodes),
        Node::Alt(left, right) => {
            join_arms(shared, left, right)?;
            Ok(true)
        }
        Node::CaptureGroup { contents, .. } => join_node(shared, contents),
        Node::Loop { loopee, quant, .. } | Node::Loop1CharBody { loopee, quant } => {
            if 0 < quant.min {
                join_node(shared, loopee)
            } else {
                *shared = AbstractStartPredicate::Anything;
                Ok(true)
            }
        }
        Node::LookaroundAssertion { .. } => Ok(false),
        _ => {
            join_leaf(shared, node)?;
            Ok(true)
        }
    }
}

// Joins what a list of nodes begins with. The first node that reads something decides.
#[cycle(join_node)]
fn join_node_list<'a>(
    shared: &mut AbstractStartPredicate<'a>,
    nodes: &'a [Node],
) -> Result<bool, AllocError>
    ensures shared { OnOk result (abstract_start_as_spec shared.new
        ≡ join_nonempty_starts (abstract_start_as_spec shared.old)
        (abstract_start_predicate (spec_cat_of_children nodes.now))) }
    ensures reads { IfOk result (λ reads. reads ≡ not (predicate_says_reads_nothing
        (abstract_start_predicate (spec_cat_of_children nodes.now)))) }
    ensures no_memory { making_node_start_predicate_may_allocate (spec_cat_of_children nodes.now) ≡ false → IsOk
        result }
{
    for node in nodes {
        if join_node(shared, node)? {
            return Ok(true);
        }
    }
    Ok(false)
}

// Joins what alternatives begin with. `others` may itself be alternatives.
#[cycle(join_node)]
fn join_arms<'a>(
    shared: &mut AbstractStartPredicate<'a>,
    first: &'a Node,
    others: &'a Node,
) -> Result<(), AllocError>
    ensures shared { let begun = join_starts_of_alternatives (abstract_start_as_spec shared.old)
        (abstract_start_predicate (spec_node_of first.now)) in
        OnOk result (abstract_start_as_spec shared.new ≡ join_starts_of_alternatives begun
        (abstract_start_predicate (spec_node_of others.now))) }
    ensures no_memory { making_node_start_predicate_may_allocate (spec_node_of first.now) ≡ false
        → making_node_start_predicate_may_allocate (spec_node_of others.now) ≡ false → IsOk result }
{
    join_one_arm(shared, first)?;
    let mut rest = others;
    while let Node::Alt(left, right) = rest {
        join_one_arm(shared, left)?;
        rest = right;
    }
    join_one_arm(shared, rest)
}

// Joins what an alternative begins with, which is anything if it reads nothing.
#[cycle(join_node)]
fn join_one_arm<'a>(
    shared: &mut AbstractStartPredicate<'a>,
    arm: &'a Node,
) -> Result<(), AllocError>
    ensures shared { OnOk result (abstract_start_as_spec shared.new
        ≡ join_starts_of_alternatives (abstract_start_as_spec shared.old)
        (abstract_start_predicate (spec_node_of arm.now))) }
    ensures no_memory { making_node_start_predicate_may_allocate (spec_node_of arm.now) ≡ false → IsOk result }
{
    if !join_node(shared, arm)? {
        *shared = AbstractStartPredicate::Anything;
    }
    Ok(())
}

// Joins what a leaf, a node without children, begins with.
#[inline(never)]
fn join_leaf<'a>(shared: &mut AbstractStartPredicate<'a>, node: &'a Node) -> Result<(), AllocError>
    requires { is_leaf (spec_node_of node.now) ≡ true }
    ensures shared { OnOk result (abstract_start_as_spec shared.new
        ≡ join_nonempty_starts (abstract_start_as_spec shared.old) (abstract_start_predicate (spec_node_of node.now))) }
    ensures no_memory { making_node_start_predicate_may_allocate (spec_node_of node.now) ≡ false → IsOk result }
{
    *shared = join_starts(*shared, leaf_start(node)?);
    Ok(())
}

// Computes what a leaf begins with.
fn leaf_start(node: &Node) -> Result<AbstractStartPredicate<'_>, AllocError>
    requires { is_leaf (spec_node_of node.now) ≡ true }
    ensures beginning { IfOk result (λ b. abstract_start_as_spec b ≡ abstract_start_predicate (spec_node_of node.now)) }
    ensures no_memory { making_node_start_predicate_may_allocate (spec_node_of node.now) ≡ false → IsOk result }
{
    match node {
        Node::ByteSequence(bytes) => Ok(sequence_start(bytes)),
        Node::ByteSet(members) => Ok(AbstractStartPredicate::OneOf(bitmap_of_bytes(members))),
        Node::CharSet(members) => Ok(AbstractStartPredicate::OneOf(first_bytes_of_members(
            members,
        ))),
        Node::Bracket(contents) => Ok(AbstractStartPredicate::OneOf(first_bytes_of_class(
            contents,
        )?)),
        Node::Empty
        | Node::Goal
        | Node::Char { .. }
        | Node::StringSet { .. }
        | Node::MatchAny
        | Node::MatchAnyExceptLineTerminator
        | Node::Anchor { .. }
        | Node::WordBoundary { .. }
        | Node::BackRef { .. }
        | Node::CanonicalBackRef { .. } => Ok(AbstractStartPredicate::Anything),
        Node::Cat(_) => unreachable!(),
        Node::Alt(..)
        | Node::CaptureGroup { .. }
        | Node::LookaroundAssertion { .. }
        | Node::Loop { .. }
        | Node::Loop1CharBody { .. } => unreachable!(),
    }
}

// Returns what these bytes begin with. An empty sequence, which no well-formed tree has, begins
// with anything.
fn sequence_start(bytes: &[u8]) -> AbstractStartPredicate<'_>
    ensures { abstract_start_as_spec result ≡ byte_sequence_predicate bytes.now }
{
    if bytes.is_empty() {
        AbstractStartPredicate::Anything
    } else {
        AbstractStartPredicate::Sequence(bytes)
    }
}

// Joins what alternatives begin with. `shared` is `Open` if there are no alternatives before.
fn join_starts<'a>(
    shared: AbstractStartPredicate<'a>,
    more: AbstractStartPredicate<'a>,
) -> AbstractStartPredicate<'a>
    ensures { abstract_start_as_spec result ≡ join_starts (abstract_start_as_spec shared.entry)
        (abstract_start_as_spec more.entry) }
{
    match shared {
        AbstractStartPredicate::Open => more,
        AbstractStartPredicate::Anything
        | AbstractStartPredicate::Sequence(_)
        | AbstractStartPredicate::OneOf(_) => join(shared, more),
    }
}

// Returns what one of the two nodes begins with.
fn join<'a>(
    left: AbstractStartPredicate<'a>,
    right: AbstractStartPredicate<'a>,
) -> AbstractStartPredicate<'a>
    ensures { abstract_start_as_spec result ≡ join (abstract_start_as_spec left.entry)
        (abstract_start_as_spec right.entry) }
{
    match (left, right) {
        (AbstractStartPredicate::Sequence(xs), AbstractStartPredicate::Sequence(ys)) =>
            join_sequences(xs, ys),
        (AbstractStartPredicate::Sequence(bytes), AbstractStartPredicate::OneOf(mut set))
        | (AbstractStartPredicate::OneOf(mut set), AbstractStartPredicate::Sequence(bytes)) => {
            add_first_byte_of_sequence(&mut set, bytes);
            AbstractStartPredicate::OneOf(set)
        }
        (AbstractStartPredicate::OneOf(mut set), AbstractStartPredicate::OneOf(other)) => {
            union_byte_bitmap_into(&mut set, &other);
            AbstractStartPredicate::OneOf(set)
        }
        _ => AbstractStartPredicate::Anything,
    }
}

// Returns the common prefix or, if it is empty, the set of both first bytes.
fn join_sequences<'a>(xs: &'a [u8], ys: &[u8]) -> AbstractStartPredicate<'a>
    ensures { abstract_start_as_spec result
        ≡ common_prefix_or_first_bytes (common_prefix xs.now ys.now) (union_of_byte_sets (first_byte_as_set xs.now)
        (first_byte_as_set ys.now)) }
{
    let front = common_prefix(xs, ys);
    if !front.is_empty() {
        return AbstractStartPredicate::Sequence(front);
    }
    let mut set = ByteBitmap::default();
    add_first_byte_of_sequence(&mut set, xs);
    add_first_byte_of_sequence(&mut set, ys);
    AbstractStartPredicate::OneOf(set)
}

// Returns the common prefix of two byte sequences.
fn common_prefix<'a>(xs: &'a [u8], ys: &[u8]) -> &'a [u8]
    ensures { result.now ≡ common_prefix xs.now ys.now }
{
    let mut shared = 0;
    while shared < xs.len() && shared < ys.len() && xs[shared] == ys[shared] {
        shared += 1;
    }
    &xs[..shared]
}
