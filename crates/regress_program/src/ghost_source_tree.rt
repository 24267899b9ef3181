//! The tree that a program was made from. It exists only in contracts and takes no bytes.

ghost use Rattle.std.specs.Prelude.{◌≡◌};
ghost use Rattle.std.specs.Coded.{codes};
ghost use base.Fml.{ftrue};
ghost use Rattle.regex_pattern_front.specs.contracts.ir.Node as node;
ghost use Rattle.regex_pattern_front.specs.declared.ir.Regex.{Regex};

use regex_pattern_front::ir;
use std::marker::Model;

/// A pattern tree, for contracts.
#[derive(Drop)]
pub(crate) struct GhostSourceTree {
    pub(crate) ghost value: { Regex } by { Prim.hlevel (codes, node.the_row.coded) },
}

impl Model for GhostSourceTree {
    ghost also_owns = { λ _. ftrue };
}

/// A value that has a tree, for contracts.
pub(crate) trait HasTree {
    ghost tree: { Self → Regex };
}

impl HasTree for ir::Regex {
    ghost tree = { λ it. it };
}

impl HasTree for GhostSourceTree {
    ghost tree = { λ it. it.value };
}

impl GhostSourceTree {
    /// Returns the tree of this pattern, or the tree that another value has.
    pub(crate) fn of<T: HasTree>(_tree: &T) -> GhostSourceTree
        ensures { result.value ≡ T.tree _tree.now }
    {
        GhostSourceTree {}
    }
}
