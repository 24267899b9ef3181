//! Writes trees of patterns as text.

use regex_pattern_front::codepointset::Interval;
use regex_pattern_front::ir::{Node, Quantifier};
use std::alloc::AllocError;

#[cycle(write)]
pub(crate) fn write_tree(text: &mut String, node: &Node) -> Result<(), AllocError> {
    match node {
        Node::Cat(nodes) => write_cat(text, nodes),
        Node::Alt(left, right) => {
            text.push_str("Alt(")?;
            write_tree(text, left)?;
            text.push_str(", ")?;
            write_tree(text, right)?;
            text.push_str(")")
        }
        Node::CaptureGroup {
            contents: child,
            ..
        }
        | Node::LookaroundAssertion {
            contents: child,
            ..
        }
        | Node::Loop { loopee: child, .. }
        | Node::Loop1CharBody { loopee: child, .. } => {
            write_head(text, node)?;
            write_tree(text, child)?;
            text.push_str(")")
        }
        leaf => write_leaf(text, leaf),
    }
}

#[cycle(write)]
fn write_cat(text: &mut String, nodes: &[Node]) -> Result<(), AllocError> {
    text.push_str("Cat[")?;
    for (i, node) in nodes.iter().enumerate() {
        if i > 0 {
            text.push_str(", ")?;
        }
        write_tree(text, node)?;
    }
    text.push_str("]")
}

// Writes what precedes the child of a node with one child.
fn write_head(text: &mut String, node: &Node) -> Result<(), AllocError> {
    match node {
        Node::CaptureGroup { id, name, .. } => {
            write!(text, "Group{id}")?;
            if let Some(name) = name {
                text.push_str(name)?;
            }
            text.push_str("(")
        }
        Node::LookaroundAssertion {
            negate,
            backwards,
            start_group,
            end_group,
            ..
        } => {
            let not = if *negate { "Not" } else { "" };
            let way = if *backwards { "Behind" } else { "Ahead" };
            write!(text, "{not}{way}{start_group}..{end_group}(")
        }
        Node::Loop {
            quant,
            enclosed_groups,
            ..
        } => {
            write_quantifier(text, "Loop", quant)?;
            let start = enclosed_groups.start;
            let end = enclosed_groups.end;
            write!(text, "{start}..{end}(")
        }
        Node::Loop1CharBody { quant, .. } => {
            write_quantifier(text, "Loop1CharBody", quant)?;
            text.push_str("(")
        }
        _ => text.push_str("?("),
    }
}

fn write_leaf(text: &mut String, node: &Node) -> Result<(), AllocError> {
    match node {
        Node::Goal => text.push_str("Goal"),
        Node::Char { c } => write_code_point(text, *c),
        Node::CharSet(members) => {
            text.push_str("Set(")?;
            for c in members {
                write_code_point(text, *c)?;
            }
            text.push_str(")")
        }
        Node::Bracket(contents) => {
            text.push_str(if contents.invert { "[^" } else { "[" })?;
            write_intervals(text, contents.cps.intervals())?;
            text.push_str("]")
        }
        Node::MatchAny => text.push_str("Any"),
        Node::MatchAnyExceptLineTerminator => text.push_str("Dot"),
        Node::Anchor {
            anchor_type,
            multiline,
        } => write!(text, "{anchor_type:?}({multiline})"),
        Node::WordBoundary {
            invert,
            unicode_icase,
        } => write!(text, "Boundary({invert}, {unicode_icase})"),
        Node::BackRef { group, icase } => write!(text, "Ref{group}({icase})"),
        _ => text.push_str("?"),
    }
}

fn write_quantifier(text: &mut String, name: &str, quant: &Quantifier) -> Result<(), AllocError> {
    let min = quant.min;
    let end = if quant.greedy { "}" } else { "}?" };
    match quant.max {
        Some(max) => write!(text, "{name}{{{min},{max}{end}"),
        None => write!(text, "{name}{{{min},{end}"),
    }
}

fn write_intervals(text: &mut String, intervals: &[Interval]) -> Result<(), AllocError> {
    for interval in intervals {
        write_code_point(text, interval.first)?;
        if interval.first < interval.last {
            text.push_str("-")?;
            write_code_point(text, interval.last)?;
        }
    }
    Ok(())
}

fn write_code_point(text: &mut String, c: u32) -> Result<(), AllocError> {
    if 0x20 < c && c < 0x7F {
        write!(text, "{}", c as u8 as char)
    } else {
        write!(text, "<{c:X}>")
    }
}
