//! The pattern tree.

ghost use Rattle.std.specs.Prelude.{◌≡◌, ◌+◌, Some, None};
ghost use Rattle.regex_pattern_front.specs.IterativeDropMeasure.{DecreasesDropMeasure, tree_size, node_size, drop_measure_of_size_and_rest, drop_measure_of_node_and_rest};
ghost use Rattle.regex_pattern_front.specs.AstToSpecTree.{spec_cat_of_children};
ghost use Rattle.regex_pattern_front.specs.declared.ir.Node.{Node};

use crate::flags::Flags;
use crate::types::{BracketContents, CaptureGroupID};
use std::mem;
use std::ops::Range;

/// `^` or `$`.
#[derive(Clone, Copy, Debug, PartialEq, Eq)]
pub enum AnchorType {
    /// `^`
    StartOfLine,
    /// `$`
    EndOfLine,
}

/// How often a loop iterates, and whether it prefers another iteration.
#[derive(Clone, Copy, Debug, PartialEq, Eq)]
pub struct Quantifier {
    /// Minimum number of iterations.
    pub min: usize,
    /// Maximum number of iterations. `None` means `usize::MAX`.
    pub max: Option<usize>,
    /// Whether another iteration is preferred to leaving the loop.
    pub greedy: bool,
}

/// A node of the pattern tree.
pub enum Node {
    /// Matches the empty text.
    Empty,
    /// The end of the pattern.
    Goal,
    /// One character.
    Char {
        c: u32,
    },
    /// One character of a set of at most four.
    CharSet(Vec<u32>),
    /// One byte of a set of at most four, all below 128.
    ByteSet(Vec<u8>),
    /// The characters whose UTF-8 these bytes are.
    ByteSequence(Vec<u8>),
    /// A sequence of nodes, in stored order.
    Cat(Vec<Node>),
    /// One node or the other. The left one is preferred.
    Alt(Box<Node>, Box<Node>),
    /// One character of a class.
    Bracket(BracketContents),
    /// One of these strings. Earlier ones are preferred.
    StringSet {
        alternatives: Vec<Vec<u32>>,
        icase: bool,
    },
    /// Any character.
    MatchAny,
    /// Any character except U+000A, U+000D, U+2028 and U+2029.
    MatchAnyExceptLineTerminator,
    /// The start or the end of the text or, with `multiline`, of a line.
    Anchor {
        anchor_type: AnchorType,
        multiline: bool,
    },
    /// `\b` or, with `invert`, `\B`.
    WordBoundary {
        invert: bool,
        unicode_icase: bool,
    },
    /// A capturing group. Ids count from 0. An empty name means that the group has none.
    CaptureGroup {
        id: CaptureGroupID,
        contents: Box<Node>,
        name: Option<String>,
    },
    /// The text of a group again. With `icase`, characters with the same fold in the text are
    /// treated as the same. Group numbers begin with 1.
    BackRef {
        group: u32,
        icase: bool,
    },
    /// The text of a group again, where characters with the same `canonicalize` are treated as the
    /// same. Group numbers begin with 1.
    CanonicalBackRef {
        group: u32,
        unicode: bool,
    },
    /// A lookahead or a lookbehind, with the range of the group ids inside it.
    LookaroundAssertion {
        negate: bool,
        backwards: bool,
        start_group: CaptureGroupID,
        end_group: CaptureGroupID,
        contents: Box<Node>,
    },
    /// A loop, with the range of the group ids inside it.
    Loop {
        loopee: Box<Node>,
        quant: Quantifier,
        enclosed_groups: Range<CaptureGroupID>,
    },
    /// A loop over one character.
    Loop1CharBody {
        loopee: Box<Node>,
        quant: Quantifier,
    },
}

impl Node {
    ghost use Rattle.regex_pattern_front.specs.OptimizedTrees.{loop_turned_into_char_loop};
    ghost use Rattle.regex_pattern_front.specs.AstToSpecTree.{spec_node_of};

    // Turns a loop into a loop over one character, which has no group ids. Other nodes are
    // unchanged.
    pub(crate) fn loop_turned_into_char_loop(self) -> Node
        ensures { spec_node_of result ≡ loop_turned_into_char_loop (spec_node_of self) }
    {
        match self {
            Node::Loop {
                loopee,
                quant,
                enclosed_groups: _,
            } => Node::Loop1CharBody { loopee, quant },
            other => other,
        }
    }

    // Separates the node from its children, for `Drop`.
    fn separate_node_from_children(self, rest: Option<Node>) -> NextNodeAndRestToDrop
        ensures { DecreasesDropMeasure result (drop_measure_of_node_and_rest self rest) }
    {
        match self {
            Node::Cat(children) => separate_last_child(children, rest),
            Node::Alt(left, right) => separate_alternatives(left, right, rest),
            Node::CaptureGroup {
                id: _,
                contents,
                name: _,
            } => NextNodeAndRestToDrop::Inside(Box::into_inner(contents), rest),
            Node::LookaroundAssertion {
                negate: _,
                backwards: _,
                start_group: _,
                end_group: _,
                contents,
            } => NextNodeAndRestToDrop::Inside(Box::into_inner(contents), rest),
            Node::Loop {
                loopee,
                quant: _,
                enclosed_groups: _,
            } => NextNodeAndRestToDrop::Inside(Box::into_inner(loopee), rest),
            Node::Loop1CharBody { loopee, quant: _ } => NextNodeAndRestToDrop::Inside(
                Box::into_inner(loopee),
                rest,
            ),
            Node::CharSet(_) => continue_drop_with_rest(rest),
            Node::ByteSet(_) => continue_drop_with_rest(rest),
            Node::ByteSequence(_) => continue_drop_with_rest(rest),
            Node::Bracket(_) => continue_drop_with_rest(rest),
            Node::StringSet {
                alternatives: _,
                icase: _,
            } => continue_drop_with_rest(rest),
            Node::Empty => continue_drop_with_rest(rest),
            Node::Goal => continue_drop_with_rest(rest),
            Node::Char { c: _ } => continue_drop_with_rest(rest),
            Node::MatchAny => continue_drop_with_rest(rest),
            Node::MatchAnyExceptLineTerminator => continue_drop_with_rest(rest),
            Node::Anchor {
                anchor_type: _,
                multiline: _,
            } => continue_drop_with_rest(rest),
            Node::WordBoundary {
                invert: _,
                unicode_icase: _,
            } => continue_drop_with_rest(rest),
            Node::BackRef { group: _, icase: _ } => continue_drop_with_rest(rest),
            Node::CanonicalBackRef {
                group: _,
                unicode: _,
            } => continue_drop_with_rest(rest),
        }
    }
}

// The result of separating a node from its children.
enum NextNodeAndRestToDrop {
    // A child, and the rest.
    Inside(Node, Option<Node>),
    // A list without nodes, and the rest.
    Row(Vec<Node>, Option<Node>),
    // Nothing is left.
    Nothing,
}

// Drops a tree in a loop that allocates no memory, and whose stack does not grow with the depth of
// the tree. What is left to drop is one node and the rest. In place of each separated child, the
// rest links back to the parent of that child.
impl Drop for Node {
    fn drop(mut self) {
        let mut rest = None;
        loop {
            match self.separate_node_from_children(rest) {
                NextNodeAndRestToDrop::Inside(node, others) => {
                    self = node;
                    rest = others;
                }
                NextNodeAndRestToDrop::Row(_row, others) => match others {
                    Some(node) => {
                        self = node;
                        rest = None;
                    }
                    None => return,
                },
                NextNodeAndRestToDrop::Nothing => return,
            }
        }
    }
}

// Continues with the rest.
fn continue_drop_with_rest(rest: Option<Node>) -> NextNodeAndRestToDrop
    ensures { (node : Node) → DecreasesDropMeasure result (drop_measure_of_node_and_rest node rest) }
{
    match rest {
        Some(node) => NextNodeAndRestToDrop::Inside(node, None),
        None => NextNodeAndRestToDrop::Nothing,
    }
}

// Separates the last node of a list or, if there is a rest, the first one, and puts the rest in its
// position, so that the rest is reached last.
fn separate_last_child(children: Vec<Node>, rest: Option<Node>) -> NextNodeAndRestToDrop
    ensures { DecreasesDropMeasure result (drop_measure_of_size_and_rest
        (tree_size (spec_cat_of_children children.items)) rest) }
{
    match rest {
        None => pop_last_child(children),
        Some(link) => next_node_and_linked_rest(children, link),
    }
}

// Separates the last child. The other children are the rest.
fn pop_last_child(mut children: Vec<Node>) -> NextNodeAndRestToDrop
    ensures { DecreasesDropMeasure result (drop_measure_of_size_and_rest
        (tree_size (spec_cat_of_children children.items)) None) }
{
    let Some(node) = children.pop() else {
        return NextNodeAndRestToDrop::Row(children, None);
    };
    if children.is_empty() {
        return NextNodeAndRestToDrop::Row(children, Some(node));
    }
    NextNodeAndRestToDrop::Inside(node, Some(Node::Cat(children)))
}

// Separates the first child, and puts the rest in its position.
fn next_node_and_linked_rest(mut children: Vec<Node>, link: Node) -> NextNodeAndRestToDrop
    ensures { DecreasesDropMeasure result (drop_measure_of_size_and_rest
        (tree_size (spec_cat_of_children children.items)) (Some link)) }
{
    if children.is_empty() {
        return NextNodeAndRestToDrop::Row(children, Some(link));
    }
    let node = mem::replace(&mut children[0], link);
    NextNodeAndRestToDrop::Inside(node, Some(Node::Cat(children)))
}

// Separates the right alternative or, if there is a rest, the left one, and puts the rest in its
// position.
fn separate_alternatives(
    mut left: Box<Node>,
    right: Box<Node>,
    rest: Option<Node>,
) -> NextNodeAndRestToDrop
    ensures { let both = node_size left.value + node_size right.value + 1 in
        DecreasesDropMeasure result (drop_measure_of_size_and_rest both rest) }
{
    match rest {
        None => NextNodeAndRestToDrop::Inside(Box::into_inner(right), Some(Box::into_inner(left))),
        Some(link) => {
            let node = mem::replace(&mut *left, link);
            NextNodeAndRestToDrop::Inside(node, Some(Node::Alt(left, right)))
        }
    }
}

/// A pattern tree and its flags.
#[derive(Drop)]
pub struct Regex {
    pub node: Node,
    pub flags: Flags,
}
