//! Generates patterns of a few pieces.

use crate::seed::Seed;
use std::alloc::{AllocError, Global};

/// The maximum number of open groups and lookarounds.
const DEPTH: u32 = 4;

/// Pieces that may be followed by a quantifier.
const ATOMS: [&str; 16] = [
    "a", "b", "k", "é", "😀", ".", "[ab]", "[^a]", "[^b-é]", "\\w", "\\W", "\\d", "\\s", "[\\s\\S]",
    "ab", "K",
];

/// Pieces that may not.
const UNQUANTIFIABLE_PIECES: [&str; 6] = ["^", "$", "\\b", "\\B", "(?=a)", "(?<!b)"];

/// The quantifiers.
const QUANTIFIERS: [&str; 9] = ["*", "+", "?", "*?", "+?", "??", "{2}", "{1,2}", "{0,2}?"];

/// The openings of groups, which are atoms when they are closed, and of lookarounds, which are not.
const GROUPS: [&str; 3] = ["(", "(?:", "("];

const LOOKAROUNDS: [&str; 4] = ["(?=", "(?!", "(?<=", "(?<!"];

// A pattern that is being written.
#[derive(Drop)]
struct Draft {
    text: String,
    // The number of capture groups that were opened.
    groups: u32,
    // The number of open parentheses, and for each of them, beginning with the last in the lowest
    // bit, whether it is a group.
    open: u32,
    kinds: u32,
    // Whether a quantifier may come next.
    counts: bool,
}

impl Draft {
    fn write(&mut self, piece: &str, counts: bool) -> Result<(), AllocError> {
        self.counts = counts;
        self.text.push_str(piece)
    }

    fn open(&mut self, piece: &str, is_group: bool) -> Result<(), AllocError> {
        if self.open >= DEPTH {
            return Ok(());
        }
        self.open += 1;
        self.kinds = (self.kinds & 0xFFFF) * 2 + u32::from(is_group);
        if piece == "(" {
            self.groups = self.groups.saturating_add(1);
        }
        self.write(piece, false)
    }

    fn close(&mut self) -> Result<(), AllocError> {
        if self.open == 0 {
            return Ok(());
        }
        self.open -= 1;
        let is_group = self.kinds % 2 == 1;
        self.kinds /= 2;
        self.write(")", is_group)
    }

    // Appends a piece that may come next.
    fn add(&mut self, seed: &mut Seed) -> Result<(), AllocError> {
        if self.counts && seed.is(4) {
            return self.write(seed.pick(&QUANTIFIERS), false);
        }
        if seed.is(5) {
            return self.write(seed.pick(&ATOMS), true);
        }
        if seed.is(4) {
            return self.open(seed.pick(&GROUPS), true);
        }
        if seed.is(4) {
            return self.close();
        }
        self.append_rare_piece(seed)
    }

    fn append_rare_piece(&mut self, seed: &mut Seed) -> Result<(), AllocError> {
        if seed.is(3) {
            return self.open(seed.pick(&LOOKAROUNDS), false);
        }
        if seed.is(4) {
            return self.write("|", false);
        }
        if self.groups > 0 && seed.is(4) {
            return self.write("\\1", true);
        }
        self.write(seed.pick(&UNQUANTIFIABLE_PIECES), false)
    }
}

/// Returns a pattern of at most this many pieces, and the closings that it needs.
pub fn pattern(alloc: Global, seed: &mut Seed, pieces: u32) -> Result<String, AllocError> {
    let mut draft = Draft {
        text: String::new(alloc),
        groups: 0,
        open: 0,
        kinds: 0,
        counts: false,
    };
    for _ in 0..pieces {
        draft.add(seed)?;
    }
    for _ in 0..DEPTH {
        draft.close()?;
    }
    Ok(draft.text)
}
