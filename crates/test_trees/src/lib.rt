//! Reads trees from words, for rows with trees that are made by hand.
//!
//! Each node precedes its children, as in `cat:2 alt a b goal`. Numbers follow a colon. They are
//! hexadecimal, and separated by commas. A word of one letter is this character. The other words
//! are:
//!
//! - without children: `goal`, `empty`, `any`, `start`, `line`, `char:C`, `ref:GROUP`,
//!   `canonical:GROUP,UNICODE` (a reference that compares by `Canonicalize`), `set:C,..`,
//!   `byteset:B,..`, `bytes:B,..`, `class:FIRST,LAST,..` and `not:FIRST,LAST,..`;
//! - with one child: `group:ID`, `named:ID,LETTER`, `ahead:FIRST,END`, `behind:FIRST,END`,
//!   `loop:FIRST,END,MIN`, `loop:FIRST,END,MIN,MAX`, `loop1:MIN` and `loop1:MIN,MAX`, where
//!   `FFFFFFFF` stands for the greatest minimum;
//! - with two children: `alt`;
//! - with `COUNT` children: `cat:COUNT`, and `strings:COUNT` (or `istrings:COUNT`, which ignores
//!   case), whose children are sets, one for each string;
//! - `groups` for an empty group of each id, and `loops` for as many loops over nothing.
#![tactic(auto)]

use regex_pattern_front::codepointset::{CodePointSet, Interval};
use regex_pattern_front::flags::Flags;
use regex_pattern_front::ir::{AnchorType, Node, Quantifier, Regex};
use regex_pattern_front::types::BracketContents;
use std::alloc::Global;

/// Returns the tree of these words. Returns `None` if they are not the words of one tree, or if an
/// allocation fails.
pub fn tree_of(alloc: Global, words: &str) -> Option<Regex> {
    let mut nodes = Vec::new(alloc);
    put_nodes(alloc, words, &mut nodes)?;
    let node = nodes.pop()?;
    if !nodes.is_empty() {
        return None;
    }
    Some(Regex {
        node,
        flags: Flags::default(),
    })
}

// Pushes the nodes of the words onto `nodes`, beginning with the last word.
fn put_nodes(alloc: Global, words: &str, nodes: &mut Vec<Node>) -> Option<()> {
    for word in words.rsplit(' ') {
        let (name, numbers) = word.split_once(':').unwrap_or((word, ""));
        let node = node_of(alloc, name, &numbers_of(alloc, numbers)?, nodes)?;
        nodes.push(node).ok()?;
    }
    Some(())
}

fn numbers_of(alloc: Global, text: &str) -> Option<Vec<u32>> {
    let mut numbers = Vec::new(alloc);
    if !text.is_empty() {
        for number in text.split(',') {
            numbers.push(u32::from_str_radix(number, 16).ok()?).ok()?;
        }
    }
    Some(numbers)
}

// Returns the node of a word. Its children are taken from `nodes`.
fn node_of(alloc: Global, name: &str, numbers: &[u32], nodes: &mut Vec<Node>) -> Option<Node> {
    match (name, numbers) {
        ("cat", [count]) => cat_of(alloc, *count, nodes),
        ("strings" | "istrings", [count]) => strings_of(alloc, *count, name == "istrings", nodes),
        ("alt", []) => {
            let left = child_of(alloc, nodes)?;
            Some(Node::Alt(left, child_of(alloc, nodes)?))
        }
        ("groups" | "loops", []) => {
            put_many(alloc, name, nodes)?;
            nodes.pop()
        }
        ("group" | "named" | "ahead" | "behind" | "loop" | "loop1", _) => {
            parent(alloc, name, numbers, child_of(alloc, nodes)?)
        }
        _ => leaf(alloc, name, numbers),
    }
}

fn cat_of(alloc: Global, count: u32, nodes: &mut Vec<Node>) -> Option<Node> {
    let mut children = Vec::new(alloc);
    for _ in 0..count {
        children.push(nodes.pop()?).ok()?;
    }
    Some(Node::Cat(children))
}

// Returns the set of strings. Each string is given by the members of a `set` that follows.
fn strings_of(alloc: Global, count: u32, icase: bool, nodes: &mut Vec<Node>) -> Option<Node> {
    let mut alternatives = Vec::new(alloc);
    for _ in 0..count {
        let node = nodes.pop()?;
        let Node::CharSet(string) = &node else {
            return None;
        };
        alternatives
            .push(Vec::from_slice(alloc, string).ok()?)
            .ok()?;
    }
    Some(Node::StringSet {
        alternatives,
        icase,
    })
}

fn child_of(alloc: Global, nodes: &mut Vec<Node>) -> Option<Box<Node>> {
    Box::new(alloc, nodes.pop()?).ok()
}

// Pushes the groups of all ids, or that many loops, all of them empty.
fn put_many(alloc: Global, name: &str, nodes: &mut Vec<Node>) -> Option<()> {
    for id in 0..=u16::MAX {
        let child = Box::new(alloc, Node::Empty).ok()?;
        let node = if name == "groups" {
            parent(alloc, "group", &[u32::from(u16::MAX - id)], child)?
        } else {
            parent(alloc, "loop", &[0, 0, 0], child)?
        };
        nodes.push(node).ok()?;
    }
    Some(())
}

// Returns a node with one child.
fn parent(alloc: Global, name: &str, numbers: &[u32], child: Box<Node>) -> Option<Node> {
    match (name, numbers) {
        ("group", [id]) => Some(Node::CaptureGroup {
            id: id_of(*id),
            contents: child,
            name: None,
        }),
        ("named", [id, letter]) => Some(Node::CaptureGroup {
            id: id_of(*id),
            contents: child,
            name: Some(name_of(alloc, *letter)?),
        }),
        ("ahead" | "behind", [first, end]) => Some(Node::LookaroundAssertion {
            negate: false,
            backwards: name == "behind",
            start_group: id_of(*first),
            end_group: id_of(*end),
            contents: child,
        }),
        ("loop", [first, end, bounds @ ..]) => Some(Node::Loop {
            loopee: child,
            quant: quantifier(bounds)?,
            enclosed_groups: id_of(*first)..id_of(*end),
        }),
        ("loop1", bounds) => Some(Node::Loop1CharBody {
            loopee: child,
            quant: quantifier(bounds)?,
        }),
        _ => None,
    }
}

fn id_of(number: u32) -> u16 {
    (number & 0xFFFF) as u16
}

fn name_of(alloc: Global, letter: u32) -> Option<String> {
    let mut name = String::new(alloc);
    name.push(char::from_u32(letter)?).ok()?;
    Some(name)
}

// Returns the minimum and, if there is one, the maximum number of iterations.
fn quantifier(bounds: &[u32]) -> Option<Quantifier> {
    let (min, max) = match bounds {
        [min] => (*min, None),
        [min, max] => (*min, Some(*max as usize)),
        _ => return None,
    };
    Some(Quantifier {
        min: if min == u32::MAX {
            usize::MAX
        } else {
            min as usize
        },
        max,
        greedy: true,
    })
}

fn start_of_line(multiline: bool) -> Node {
    Node::Anchor {
        anchor_type: AnchorType::StartOfLine,
        multiline,
    }
}

// Returns a node without children.
fn leaf(alloc: Global, name: &str, numbers: &[u32]) -> Option<Node> {
    match (name, numbers) {
        ("goal", []) => Some(Node::Goal),
        ("empty", []) => Some(Node::Empty),
        ("any", []) => Some(Node::MatchAny),
        ("start", []) => Some(start_of_line(false)),
        ("line", []) => Some(start_of_line(true)),
        ("char", [c]) => Some(Node::Char { c: *c }),
        ("ref", [group]) => Some(Node::BackRef {
            group: *group,
            icase: false,
        }),
        ("canonical", [group, unicode]) => Some(Node::CanonicalBackRef {
            group: *group,
            unicode: *unicode != 0,
        }),
        ("set", members) => Some(Node::CharSet(Vec::from_slice(alloc, members).ok()?)),
        ("byteset", members) => Some(Node::ByteSet(bytes_of(alloc, members)?)),
        ("bytes", bytes) => Some(Node::ByteSequence(bytes_of(alloc, bytes)?)),
        ("class", bounds) => class_of(alloc, false, bounds),
        ("not", bounds) => class_of(alloc, true, bounds),
        (letter, []) => char_of(letter),
        _ => None,
    }
}

fn char_of(letter: &str) -> Option<Node> {
    let mut letters = letter.chars();
    let c = letters.next()?;
    match letters.next() {
        None => Some(Node::Char { c: u32::from(c) }),
        Some(_) => None,
    }
}

fn bytes_of(alloc: Global, numbers: &[u32]) -> Option<Vec<u8>> {
    let mut bytes = Vec::new(alloc);
    for number in numbers {
        bytes.push((*number & 0xFF) as u8).ok()?;
    }
    Some(bytes)
}

// Returns the class of the code points in the given ranges, or of all others.
fn class_of(alloc: Global, invert: bool, bounds: &[u32]) -> Option<Node> {
    let mut intervals = Vec::new(alloc);
    for bounds in bounds.chunks(2) {
        let [first, last] = *bounds else {
            return None;
        };
        intervals.push(Interval { first, last }).ok()?;
    }
    Some(Node::Bracket(BracketContents {
        invert,
        cps: CodePointSet::from_intervals(alloc, &intervals).ok()?,
    }))
}
