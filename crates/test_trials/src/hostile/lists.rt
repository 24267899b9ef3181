//! First matches, and lists of matches, where allocations may fail.

use crate::fault::ParseFault;
use crate::hostile::wanted::{LIMIT, NONE, is_match, is_none, split_first};
use regress_match::exec::{MatchProducer, Matches};
use regress_match::{Match, SearchError};

/// Checks whether a clone of this is the expected first match, or whether there is none as
/// expected.
pub fn is_first(found: Option<Match>, words: &str) -> Result<bool, ParseFault> {
    match found {
        Some(found) => Ok(is_match(&found.clone()?, split_first(words).0)),
        None => Ok(is_none(words)),
    }
}

/// Checks whether these are the expected matches. A failed allocation comes after a prefix of them,
/// and a step limit where it is expected. After these and after the end, the iterator returns
/// `None`.
pub fn are_expected_matches<P: MatchProducer + Drop>(
    mut matches: Matches<P>,
    words: &str,
) -> Result<bool, ParseFault> {
    let mut words = words;
    let mut agrees = true;
    let mut over = false;
    let mut refused = false;
    for item in &mut matches {
        agrees &= !over;
        match item {
            Ok(found) => {
                let (first, rest) = split_first(words);
                words = rest;
                agrees &= is_match(&found, first);
            }
            Err(SearchError::Memory) => {
                over = true;
                refused = true;
            }
            Err(SearchError::StepLimit) => {
                over = true;
                agrees &= words == LIMIT;
                words = NONE;
            }
        }
    }
    if !agrees || matches.next().is_some() {
        return Err(ParseFault::Wrong);
    }
    if refused {
        return Err(ParseFault::Refused);
    }
    Ok(is_none(words))
}
