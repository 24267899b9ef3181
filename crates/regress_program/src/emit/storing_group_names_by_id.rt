//! Collects the names of groups, indexed by group id.
#![tactic(auto, unfolding(regex_pattern_front::specs::AstToSpecTree::spec_node_of, crate::specs::InnerNodeCountMeasure::inner_node_count))]

ghost use Rattle.std.specs.Prelude.{◌≡◌, ◌+◌, ◌∷◌, ◌++◌, [], length, map, set, replicate, string_bytes, IfOk, OnOk, IsTrue, ◌==◌};
ghost use Rattle.std.proofs.Common.{refl};
ghost use Rattle.regex_meaning.specs.{Tree.{group_ids}, WellFormedTrees.{each_id_stands_once}};
ghost use Rattle.regex_meaning.specs.MatchGroupsByNumberAndName.{capturing_group_ids_and_names, group_names_by_id};
ghost use Rattle.regex_pattern_front.specs.AstToSpecTree.{spec_node_of, group_name_bytes};
ghost use Rattle.regress_program.specs.StoringGroupNamesById.{IsNameListAfterStoringNames, StoresOrPushesNodes, PushesTwoNodes, PushesNamedNodes, is_nameless};
ghost use Rattle.regress_program.specs.StoringGroupNamesById.{tree_has_no_named_groups as spec_tree_has_no_named_groups, naming_measure_of_node, naming_measure_of_part, names_in_pending_part};
ghost use Rattle.regress_program.specs.TryFoldOverTreeNodes.{step_of_test};

use crate::emit::nested_nodes::has_children;
use crate::emit::tree_walk_with_visitor::{PreorderNodeVisitor, walk};
use regex_pattern_front::ir::Node;
use regex_pattern_front::types::CaptureGroupID;
use std::alloc::{AllocError, Global};

// The initial capacity of the stack of pending parts.
const INITIAL_CAPACITY: usize = 16;

// Returns the names of a tree with `groups` groups, by id, with an empty name for a group without
// one. The list is empty if no group has a name.
pub(crate) fn names_by_id(
    alloc: Global,
    root: &Node,
    groups: u32,
) -> Result<Vec<String>, AllocError>
    requires once { IsTrue (each_id_stands_once (spec_node_of root.now)) }
    requires all { groups ≡ length (group_ids (spec_node_of root.now)) }
    ensures { IfOk result (λ names. map string_bytes names.items ≡ group_names_by_id (spec_node_of root.now)) }
{
    if tree_has_no_named_groups(root) {
        return Ok(Vec::new(alloc));
    }
    let mut names = empty_names(alloc, groups)?;
    store_names(alloc, root, &mut names)?;
    Ok(names)
}

// Returns `count` empty names.
fn empty_names(alloc: Global, count: u32) -> Result<Vec<String>, AllocError>
    ensures { IfOk result (λ names. map string_bytes names.items ≡ replicate count []) }
{
    let mut names = Vec::new(alloc);
    for _ in 0..count {
        names.push(String::new(alloc))?;
    }
    Ok(names)
}

// A part of the tree whose names are still to be stored.
#[derive(Clone, Copy)]
pub(crate) enum NodeOrListWithUnstoredNames<'a> {
    Node(&'a Node),
    // The nodes of a list, in order.
    Row(&'a [Node]),
}

// Stores each name inside a node at the index of its group's id. Pending parts are on the heap, so
// nested nodes need no stack.
fn store_names(alloc: Global, root: &Node, names: &mut [String]) -> Result<(), AllocError>
    ensures long { length names.new ≡ length names.old }
    ensures with_names_stored_by_id { OnOk result (IsNameListAfterStoringNames (capturing_group_ids_and_names
        (spec_node_of root.now)) names.old names.new) }
{
    let mut rest = Vec::with_capacity(alloc, INITIAL_CAPACITY)?;
    rest.push(NodeOrListWithUnstoredNames::Node(root))?;
    while let Some(next) = rest.pop() {
        store_pending(alloc, next, names, &mut rest)?;
    }
    Ok(())
}

// Stores the names of the next pending part. What remains of the part is pushed before the rest.
fn store_pending<'a>(
    alloc: Global,
    next: NodeOrListWithUnstoredNames<'a>,
    names: &mut [String],
    rest: &mut Vec<NodeOrListWithUnstoredNames<'a>>,
) -> Result<(), AllocError>
    ensures long { length names.new ≡ length names.old }
    ensures with_names_stored_by_id { OnOk result (StoresOrPushesNodes (names_in_pending_part next.entry)
        (naming_measure_of_part next.entry) names.old names.new rest.old.items rest.new.items) }
{
    match next {
        NodeOrListWithUnstoredNames::Node(node) => store_node_names(alloc, node, names, rest),
        NodeOrListWithUnstoredNames::Row(nodes) => defer_node_list(nodes, rest),
    }
}

// Stores a node's own name, and pushes its children.
fn store_node_names<'a>(
    alloc: Global,
    node: &'a Node,
    names: &mut [String],
    rest: &mut Vec<NodeOrListWithUnstoredNames<'a>>,
) -> Result<(), AllocError>
    ensures long { length names.new ≡ length names.old }
    ensures with_names_stored_by_id { OnOk result (StoresOrPushesNodes (capturing_group_ids_and_names
        (spec_node_of node.now)) (naming_measure_of_node (spec_node_of node.now)) names.old names.new rest.old.items
        rest.new.items) }
{
    match node {
        Node::Cat(nodes) => defer_node_list(nodes, rest),
        Node::Alt(left, right) => defer_both(left, right, rest),
        Node::CaptureGroup { id, contents, name } => {
            store_group_name(alloc, *id, name, contents, names, rest)
        }
        Node::LookaroundAssertion { contents, .. } => push_pending(
            NodeOrListWithUnstoredNames::Node(contents),
            rest,
        ),
        Node::Loop { loopee, .. } => push_pending(NodeOrListWithUnstoredNames::Node(loopee), rest),
        Node::Loop1CharBody { loopee, .. } => push_pending(
            NodeOrListWithUnstoredNames::Node(loopee),
            rest,
        ),
        _ => Ok(()),
    }
}

// Pushes two nodes. The first one is handled first.
// The names that are not stored yet are then those of both nodes and those of the rest.
fn defer_both<'a>(
    first: &'a Node,
    others: &'a Node,
    rest: &mut Vec<NodeOrListWithUnstoredNames<'a>>,
) -> Result<(), AllocError>
    ensures { OnOk result (PushesTwoNodes first.now others.now rest.old.items rest.new.items) }
{
    push_pending(NodeOrListWithUnstoredNames::Node(others), rest)?;
    push_pending(NodeOrListWithUnstoredNames::Node(first), rest)?;
    Ok(())
}

// Stores the name of a group, and pushes its contents.
fn store_group_name<'a>(
    alloc: Global,
    id: CaptureGroupID,
    name: &Option<String>,
    contents: &'a Node,
    names: &mut [String],
    rest: &mut Vec<NodeOrListWithUnstoredNames<'a>>,
) -> Result<(), AllocError>
    ensures long { length names.new ≡ length names.old }
    ensures with_names_stored_by_id { let named = (id, group_name_bytes name.now) ∷ capturing_group_ids_and_names
        (spec_node_of contents.now) in
        OnOk result (StoresOrPushesNodes named (naming_measure_of_node (spec_node_of contents.now) + 1)
        names.old names.new rest.old.items rest.new.items) }
{
    let copy = copy_name(alloc, name)?;
    put(names, id, copy);
    push_pending(NodeOrListWithUnstoredNames::Node(contents), rest)?;
    Ok(())
}

// Pushes the nodes of a list from the first node with children on.
fn defer_node_list<'a>(
    nodes: &'a [Node],
    rest: &mut Vec<NodeOrListWithUnstoredNames<'a>>,
) -> Result<(), AllocError>
    ensures { OnOk result (PushesNamedNodes nodes.now rest.old.items rest.new.items) }
{
    let mut left = nodes;
    while let Some((first, others)) = left.split_first() {
        if has_children(first) {
            push_pending(NodeOrListWithUnstoredNames::Row(others), rest)?;
            push_pending(NodeOrListWithUnstoredNames::Node(first), rest)?;
            return Ok(());
        }
        left = others;
    }
    Ok(())
}

// Pushes a part that is handled before the rest.
fn push_pending<'a>(
    next: NodeOrListWithUnstoredNames<'a>,
    rest: &mut Vec<NodeOrListWithUnstoredNames<'a>>,
) -> Result<(), AllocError>
    ensures { OnOk result (rest.new.items ≡ rest.old.items ++ next.entry ∷ []) }
{
    rest.push(next)?;
    Ok(())
}

// Stores a name at the index of an id, if the list has that index.
#[tactic(auto, using(std::proofs::lemmas::Grind::common_steps, crate::proofs::StoringGroupNamesLemmas::put_past, crate::proofs::StoringGroupNamesLemmas::put_there))]
fn put(names: &mut [String], id: CaptureGroupID, name: String)
    ensures long { length names.new ≡ length names.old }
    ensures with_names_stored_by_id { map string_bytes names.new
        ≡ set (map string_bytes names.old) id (string_bytes name) }
{
    let place = usize::from(id);
    if place >= names.len() {
        return;
    }
    names[place] = name;
}

// Copies a name. A missing name becomes the empty one.
fn copy_name(alloc: Global, name: &Option<String>) -> Result<String, AllocError>
    ensures { IfOk result (λ copy. string_bytes copy ≡ group_name_bytes name.now) }
{
    match name {
        None => Ok(String::new(alloc)),
        Some(name) => String::from_str(alloc, name.as_str()),
    }
}

// A visitor that stops at a group with a name.
#[derive(Drop)]
struct NamedGroupDetector;

impl PreorderNodeVisitor for NamedGroupDetector {
    ghost step = { λ n it. step_of_test (is_nameless n) it };

    ghost passes_rows = { λ first rest it. refl };

    ghost passes_ends = { λ it. refl };

    fn visit_node_or_stop_walk(&mut self, node: &Node) -> bool {
        match node {
            Node::CaptureGroup { name, .. } => is_empty_name(name),
            _ => true,
        }
    }
}

// Checks whether no group has a name.
fn tree_has_no_named_groups(node: &Node) -> bool
    ensures { result ≡ spec_tree_has_no_named_groups (spec_node_of node.now) }
{
    walk(&mut NamedGroupDetector, node)
}

fn is_empty_name(name: &Option<String>) -> bool
    ensures { result ≡ (length (group_name_bytes name.now) == 0) }
{
    match name {
        None => true,
        Some(text) => text.is_empty(),
    }
}
