//! The check of whether a tree can be compiled.
#![tactic(auto, unfolding(regex_pattern_front::specs::AstToSpecTree::spec_node_of))]

ghost use Rattle.std.specs.Prelude.{◌≡◌, ◌+◌, ◌≤◌, ◌↔◌, ◌==◌, nat_le, nat_lt, ◌&&◌, min, length, IsTrue};
ghost use Rattle.std.proofs.Common.{refl};
ghost use Rattle.std.specs.List.{list_all};
ghost use Rattle.std.specs.Str.{is_utf8, chars, continuation_len};
ghost use Rattle.regex_pattern_front.specs.AstToSpecTree.{spec_node_of, spec_quantifier_of};
ghost use Rattle.regex_meaning.specs.Tree.{every_node_passes};
ghost use Rattle.regex_meaning.specs.WellFormedTrees.{number_of_goal_nodes, ends_in_goal, only_goal_node_is_last, IsWellFormed, is_one_character as spec_is_one_character};
ghost use Rattle.regex_meaning.specs.WellFormedTrees.{is_min_at_most_max as spec_is_min_at_most_max};
ghost use Rattle.regress_program.specs.{GroupIdCheck.{is_well_formed_node}, EmitterStateAndAppendedCode.{strings_as_code_points}, TryFoldOverTreeNodes.{step_of_test}};
ghost use Rattle.regress_program.specs.AtMostOneGoalNodeCheck.{visit_goal};

use crate::emit::group_id_and_range_check::group_id_span_if_ids_valid;
use crate::emit::tree_walk_with_visitor::{PreorderNodeVisitor, walk};
use regex_pattern_front::ir;
use regex_pattern_front::ir::{Node, Quantifier};

/// Checks whether a tree can be compiled. The conditions are:
///
/// - exactly one node is `Goal`, and it is last: the root, the last child of the root, and so on;
/// - each id below the number of groups is that of exactly one group, and there is no other id;
/// - each loop and each lookaround names exactly the groups inside it;
/// - each backreference is to a group that exists;
/// - no minimum is above its maximum;
/// - the body of a one-character loop is one character;
/// - each byte sequence is UTF-8 and not empty;
/// - sets hold at most four members, byte sets only bytes below 128, and strings only code points.
pub fn is_well_formed(re: &ir::Regex) -> bool
    ensures { IsTrue result ↔ IsWellFormed (spec_node_of re.now.node) }
{
    is_root_well_formed(&re.node)
}

fn is_root_well_formed(root: &Node) -> bool
    ensures { IsTrue result ↔ IsWellFormed (spec_node_of root.now) }
{
    if !is_goal_last(root) {
        return false;
    }
    let Some(span) = group_id_span_if_ids_valid(root) else {
        return false;
    };
    if span.high as usize > span.count {
        return false;
    }
    has_well_formed_nodes(root, span.count)
}

// Checks whether there is exactly one `Goal`, and it is last.
fn is_goal_last(root: &Node) -> bool
    ensures { result ≡ only_goal_node_is_last (spec_node_of root.now) }
{
    has_one_goal(root) && is_goal_at_end(root)
}

// A visitor that looks for `Goal`, and stops at a second one.
#[derive(Drop)]
struct SecondGoalNodeDetector {
    found: bool,
}

impl PreorderNodeVisitor for SecondGoalNodeDetector {
    ghost step = { visit_goal };

    ghost passes_rows = { λ first rest it. refl };

    ghost passes_ends = { λ it. refl };

    fn visit_node_or_stop_walk(&mut self, node: &Node) -> bool {
        match node {
            Node::Goal => {
                let first = !self.found;
                self.found = true;
                first
            }
            _ => true,
        }
    }
}

// Checks whether there is exactly one `Goal`.
fn has_one_goal(root: &Node) -> bool
    ensures { result ≡ (number_of_goal_nodes (spec_node_of root.now) == 1) }
{
    let mut goals = SecondGoalNodeDetector { found: false };
    walk(&mut goals, root) && goals.found
}

// Checks whether the node is `Goal`, or a `Cat` whose last child recursively ends in `Goal`.
fn is_goal_at_end(node: &Node) -> bool
    ensures { result ≡ ends_in_goal (spec_node_of node.now) }
{
    let mut rest = node;
    loop {
        match rest {
            Node::Goal => return true,
            Node::Cat(nodes) => match nodes.last() {
                Some(last) => rest = last,
                None => return false,
            },
            _ => return false,
        }
    }
}

// A visitor that stops at a node that is not well formed by itself. `groups` is the number of
// groups.
#[derive(Drop)]
struct WellFormedNodeCheck {
    groups: usize,
}

impl PreorderNodeVisitor for WellFormedNodeCheck {
    ghost step = { λ n it. step_of_test (is_well_formed_node it.groups n) it };

    ghost passes_rows = { λ first rest it. refl };

    ghost passes_ends = { λ it. refl };

    fn visit_node_or_stop_walk(&mut self, node: &Node) -> bool {
        match node {
            Node::CharSet(members) => members.len() <= 4,
            Node::ByteSet(members) => members.len() <= 4 && bytes_are_ascii(members),
            Node::ByteSequence(bytes) => is_nonempty_utf8(bytes),
            Node::StringSet { alternatives, .. } => are_code_points(alternatives),
            Node::BackRef { group, .. } | Node::CanonicalBackRef { group, .. } => {
                1 <= *group && *group as usize <= self.groups
            }
            Node::Loop { quant, .. } => is_min_at_most_max(quant),
            Node::Loop1CharBody { loopee, quant } => is_min_at_most_max(quant)
                && is_one_character(loopee),
            _ => true,
        }
    }
}

// Checks whether the node and each node inside it are well formed by themselves. `groups` is the
// number of groups.
fn has_well_formed_nodes(node: &Node, groups: usize) -> bool
    ensures { result ≡ every_node_passes (is_well_formed_node groups) (spec_node_of node.now) }
{
    walk(&mut WellFormedNodeCheck { groups }, node)
}

fn bytes_are_ascii(bytes: &[u8]) -> bool
    ensures { result ≡ list_all (λ b. nat_lt b 128) bytes.now }
{
    bytes.iter().all(|b| *b < 128)
}

// Checks whether the bytes are UTF-8 of at least one character.
fn is_nonempty_utf8(bytes: &[u8]) -> bool
    ensures { result ≡ (nat_lt 0 (length bytes.now) && is_utf8 bytes.now) }
{
    match str::from_utf8(bytes) {
        Ok(_) => !bytes.is_empty(),
        Err(_) => false,
    }
}

fn are_code_points(strings: &[Vec<u32>]) -> bool
    ensures { result ≡ list_all (list_all (λ c. nat_le c 0x10_FFFF)) (strings_as_code_points strings.now) }
{
    for string in strings {
        if !holds_code_points(string) {
            return false;
        }
    }
    true
}

fn holds_code_points(string: &[u32]) -> bool
    ensures { result ≡ list_all (λ c. nat_le c 0x10_FFFF) string.now }
{
    string.iter().all(|c| *c <= 0x10_FFFF)
}

fn is_min_at_most_max(quant: &Quantifier) -> bool
    ensures { result ≡ spec_is_min_at_most_max (spec_quantifier_of quant.now) }
{
    match quant.max {
        None => true,
        Some(max) => quant.min <= max,
    }
}

// Checks whether the node reads exactly one character.
fn is_one_character(node: &Node) -> bool
    ensures { result ≡ spec_is_one_character (spec_node_of node.now) }
{
    match node {
        Node::Char { .. }
        | Node::CharSet(_)
        | Node::ByteSet(_)
        | Node::Bracket(_)
        | Node::MatchAny
        | Node::MatchAnyExceptLineTerminator => true,
        Node::ByteSequence(bytes) => utf8_char_count(bytes) == 1,
        Node::Cat(_) => false,
        Node::Empty
        | Node::Goal
        | Node::Alt(..)
        | Node::StringSet { .. }
        | Node::Anchor { .. }
        | Node::WordBoundary { .. }
        | Node::CaptureGroup { .. }
        | Node::BackRef { .. }
        | Node::CanonicalBackRef { .. }
        | Node::LookaroundAssertion { .. }
        | Node::Loop { .. }
        | Node::Loop1CharBody { .. } => false,
    }
}

// Returns the number of characters of these bytes in UTF-8.
fn utf8_char_count(bytes: &[u8]) -> usize
    ensures { result ≡ length (chars bytes.now) }
{
    let Some((first, rest)) = bytes.split_first() else {
        return 0;
    };
    let mut left = continuation_count(*first);
    let mut count = 0;
    for byte in rest {
        if left == 0 {
            count += 1;
            left = continuation_count(*byte);
        } else {
            left -= 1;
        }
    }
    if left == 0 { count + 1 } else { count }
}

// Returns the number of bytes that follow the first byte of a character.
fn continuation_count(first: u8) -> u8
    ensures { result ≡ continuation_len first }
{
    match first {
        0..=127 => 0,
        128..=223 => 1,
        224..=239 => 2,
        _ => 3,
    }
}
