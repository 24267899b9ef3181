//! Patterns whose searches explode if nothing is remembered. Compares how much work they do in
//! texts without a match with how much their bound allows.

use crate::bounded::enough;
use crate::fault::ParseFault;
use regress_match::{BoundedRegex, Regex};
use std::alloc::{AllocError, Global};

/// The patterns. Each has a piece that its texts repeat, and the end of its texts.
pub const EXPLOSIONS: [[&str; 3]; 11] = [
    ["(a*)*b", "a", ""],
    ["(?:a|a)*b", "a", ""],
    ["(.*)*x", "a", ""],
    ["(x+x+)+y", "x", ""],
    ["^(\\w+\\s?)*$", "ab c d ef ", "!"],
    ["^(?:(?:ab|a|b)+,?)+$", "ab", "!"],
    [
        "^([a-zA-Z0-9])(([\\-.]|[_]+)?([a-zA-Z0-9]+))*(@)",
        "a1b2",
        "",
    ],
    ["^(([a-z])+.)+[A-Z]([a-z])+$", "ab", "!"],
    ["((a|)+)+Z", "a", ""],
    ["((?:a?)*)*c", "a", ""],
    ["a+b|a*c", "a", ""],
];

/// The numbers of characters of the texts, without the end.
pub const SIZES: [usize; 3] = [1_000, 10_000, 100_000];

/// The greatest allowed quotient of the bound and the work, rounded up.
const MOST: u64 = 14;

/// A pattern, and what its texts consist of.
#[derive(Clone, Copy)]
pub struct ExplosivePattern {
    pub pattern: &'static str,
    piece: &'static str,
    end: &'static str,
}

impl ExplosivePattern {
    /// Reads a row.
    pub fn of(row: [&'static str; 3]) -> Self {
        let [pattern, piece, end] = row;
        ExplosivePattern {
            pattern,
            piece,
            end,
        }
    }

    // Returns the text with this many characters, a multiple of the length of the repeated piece.
    fn text(self, alloc: Global, size: usize) -> Result<String, AllocError> {
        let pieces = size.checked_div(self.piece.len()).unwrap_or(0);
        let mut text = String::new(alloc);
        for _ in 0..pieces {
            text.push_str(self.piece)?;
        }
        text.push_str(self.end)?;
        Ok(text)
    }

    /// Returns the quotient of the bound and the work of a search in a text of this size, rounded
    /// up.
    pub fn quotient_of_bound_and_work(self, alloc: Global, size: usize) -> Result<u64, ParseFault> {
        let re = Regex::new(alloc, self.pattern)?;
        let bounded = re.bounded()?;
        let text = self.text(alloc, size)?;
        quotient_for_text(&bounded, &text)
    }
}

// Returns this quotient for a text without a match.
fn quotient_for_text(bounded: &BoundedRegex<'_>, text: &str) -> Result<u64, ParseFault> {
    let bound = enough(bounded, text.len());
    let mut matches = bounded.find_from(text, 0, bound)?;
    match matches.next() {
        None => {}
        Some(Ok(_)) => return Err(ParseFault::Bounded),
        Some(Err(error)) => return Err(ParseFault::from(error)),
    }
    let work = bound.saturating_sub(matches.work_left());
    let almost = work.saturating_sub(1);
    match bound.saturating_add(almost).checked_div(work) {
        Some(quotient_of_bound_and_work) if quotient_of_bound_and_work <= MOST => Ok(
            quotient_of_bound_and_work,
        ),
        _ => Err(ParseFault::Bounded),
    }
}
