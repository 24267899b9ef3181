//! The part of a pattern that has been read and is not closed yet: the current disjunction, and the
//! open groups around it.

ghost use Rattle.std.specs.Prelude.{◌≡◌, IfOk, OnOk, [], ◌∷◌, ◌++◌, map};
ghost use Rattle.regex_pattern_front.specs.AstToSpecTree.{spec_node_of};
ghost use Rattle.regex_pattern_front.specs.SubtreeListInvariants.{CombinesGroupsAndGoalsOfNodes, SoundSubtreesMakeSoundNode, KeepsSubtreeInvariant};
ghost use Rattle.regex_parser.specs.GroupIdInvariant.{nodes_read_in_disjunction};
ghost use Rattle.regex_parser.specs.PartialDisjunctionModel.{disjunction_of, nest_all_alternatives};
ghost use Rattle.regex_parser.specs.ParseStack.{empty_disjunction, push_term, end_alternative, nest_alternatives};
ghost use Rattle.regex_meaning.specs.ReadingStatesAndDigits.{arm};

use crate::group_openings_and_names::GroupKind;
use regex_pattern_front::ir::Node;
use regex_pattern_front::types::CaptureGroupID;
use std::alloc::{AllocError, Global};
use std::mem;

/// A disjunction, as far as it has been read.
#[derive(Drop)]
pub(crate) struct PartialDisjunction {
    // The alternatives that have ended.
    arms: Vec<Node>,
    // The terms of the current alternative.
    terms: Vec<Node>,
    // Whether it is inside a lookbehind, where terms are stored in reverse order.
    in_lookbehind: bool,
}

/// An open group, and the disjunction around it.
#[derive(Drop)]
pub(crate) struct OpenGroup {
    pub(crate) outer: PartialDisjunction,
    pub(crate) opening: GroupKind,
    pub(crate) name: Option<String>,
    /// Number of capturing groups that had opened before it.
    pub(crate) start: CaptureGroupID,
    /// Number of code points that are left from its parenthesis on.
    pub(crate) left: usize,
}

impl PartialDisjunction {
    /// Returns a disjunction of which nothing has been read.
    pub(crate) fn new(alloc: Global, in_lookbehind: bool) -> PartialDisjunction
        ensures parts { nodes_read_in_disjunction result ≡ [] }
        ensures level { disjunction_of result ≡ empty_disjunction in_lookbehind }
    {
        PartialDisjunction {
            arms: Vec::new(alloc),
            terms: Vec::new(alloc),
            in_lookbehind,
        }
    }

    /// Returns whether its terms are stored in reverse order.
    pub(crate) fn are_terms_reversed(&self) -> bool
        ensures { result ≡ self.now.in_lookbehind }
    {
        self.in_lookbehind
    }

    /// Adds a term to the current alternative.
    pub(crate) fn push(&mut self, term: Node) -> Result<(), AllocError>
        ensures parts { OnOk result (nodes_read_in_disjunction self.new ≡ nodes_read_in_disjunction self.old ++ term ∷
            []) }
        ensures level { OnOk result (disjunction_of self.new ≡ push_term (spec_node_of term)
            (disjunction_of self.old)) }
    {
        self.terms.push(term)?;
        Ok(())
    }

    /// Ends the current alternative.
    pub(crate) fn end_alternative(&mut self) -> Result<(), AllocError>
        ensures parts { OnOk result (KeepsSubtreeInvariant (nodes_read_in_disjunction self.old)
            (nodes_read_in_disjunction self.new)) }
        ensures ended { OnOk result (self.new.terms.items ≡ []) }
        ensures level { OnOk result (disjunction_of self.new ≡ end_alternative (disjunction_of self.old)) }
    {
        let alloc = *self.terms.allocator();
        let terms = mem::replace(&mut self.terms, Vec::new(alloc));
        self.arms.push(cat(terms, self.in_lookbehind))?;
        Ok(())
    }

    /// Returns the node of the disjunction: its alternatives, nested to the right.
    pub(crate) fn into_alternation_node(mut self) -> Result<Node, AllocError>
        ensures parts { IfOk result (λ n. SoundSubtreesMakeSoundNode (nodes_read_in_disjunction self)
            (spec_node_of n)) }
        ensures node { let l = disjunction_of self in IfOk result (λ n. spec_node_of n ≡ nest_alternatives l.arms
            (arm l.in_lookbehind l.terms)) }
    {
        self.end_alternative()?;
        nest_alternatives(self.arms)
    }
}

// Returns the sequence of the terms.
fn cat(mut terms: Vec<Node>, in_lookbehind: bool) -> Node
    ensures parts { CombinesGroupsAndGoalsOfNodes terms.items (spec_node_of result) }
    ensures arm { spec_node_of result ≡ arm in_lookbehind (map spec_node_of terms.items) }
{
    if in_lookbehind {
        terms.reverse();
    }
    Node::Cat(terms)
}

// Nests the alternatives to the right. An empty list is the empty pattern.
fn nest_alternatives(mut alternatives: Vec<Node>) -> Result<Node, AllocError>
    ensures parts { IfOk result (λ n. SoundSubtreesMakeSoundNode alternatives.items (spec_node_of n)) }
    ensures node { IfOk result (λ n. spec_node_of n ≡ nest_all_alternatives (map spec_node_of alternatives.items)) }
{
    let alloc = *alternatives.allocator();
    let Some(mut joined) = alternatives.pop() else {
        return Ok(Node::Empty);
    };
    while let Some(left) = alternatives.pop() {
        joined = Node::Alt(Box::new(alloc, left)?, Box::new(alloc, joined)?);
    }
    Ok(joined)
}
