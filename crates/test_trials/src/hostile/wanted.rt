//! Expected matches in words: the range of the match, followed by the ranges of its groups, with
//! `-` for a group that did not match. `;` separates matches, and `none` stands for no match. They
//! are compared without allocations.

use regress_match::{Match, Range};

/// The word for no match.
pub const NONE: &str = "none";

/// The word for the step limit.
pub const LIMIT: &str = "limit";

/// Checks whether this is the word of a range, or of no range.
pub fn is_range(range: Option<&Range<usize>>, word: &str) -> bool {
    match (range, word.split_once("..")) {
        (Some(range), Some((start, end))) => {
            start.parse::<usize>() == Ok(range.start) && end.parse::<usize>() == Ok(range.end)
        }
        (None, None) => word == "-",
        _ => false,
    }
}

/// Checks whether these are the words of a match.
pub fn is_match(found: &Match, words: &str) -> bool {
    let mut words = words.split(' ');
    let mut agrees = is_range(Some(&found.range), words.next().unwrap_or(""));
    for group in &found.captures {
        agrees &= is_range(group.as_ref(), words.next().unwrap_or(""));
    }
    agrees && words.next().is_none()
}

/// Returns the words of the first match, and those of the others.
pub fn split_first(words: &str) -> (&str, &str) {
    words.split_once(';').unwrap_or((words, NONE))
}

/// Checks whether no match is expected.
pub fn is_none(words: &str) -> bool {
    words == NONE
}
