//! Replacements of matches.

use crate::fault::ParseFault;
use crate::hostile::fields::Fields;
use regress_match::{Flags, Match, Regex, ReplaceError};
use std::alloc::{AllocError, Global};
use std::cell::Cell;

/// The errors of a closure.
#[derive(Clone, Copy, PartialEq, Eq)]
enum Failure {
    /// An allocation failed.
    Memory,
    /// The number is too great for the closure.
    TooGreat(u32),
}

impl From<AllocError> for Failure {
    fn from(_: AllocError) -> Failure {
        Failure::Memory
    }
}

// Returns the closure's result for a match, which is a number.
fn answer_to(alloc: Global, text: &str, found: &Match, how: &str) -> Result<String, Failure> {
    let word = text.get(found.range()).unwrap_or("");
    let number = word.parse::<u32>().unwrap_or(0);
    match how {
        "doubled" => Ok(format!(in alloc; "{}", number.wrapping_mul(2))?),
        "tenfold" => Ok(format!(in alloc; "[{}]", number.wrapping_mul(10))?),
        _ if number < 10 => Ok(String::from_str(alloc, "x")?),
        _ => Err(Failure::TooGreat(number)),
    }
}

// Checks whether these are the words of the number that a closure refused, and of the number of
// calls until then.
fn is_refusal(number: u32, count: u8, wanted: &str) -> bool {
    match wanted
        .strip_prefix("refused ")
        .and_then(|words| words.split_once(" called "))
    {
        Some((refused, called)) => {
            refused.parse::<u32>() == Ok(number) && called.parse::<u8>() == Ok(count)
        }
        None => false,
    }
}

// Checks the text that closures make, or the error of a closure. The closure says whether an
// allocation failed in it; then the error is its own.
fn is_closure_outcome_as_expected(
    made: Result<String, ReplaceError<Failure>>,
    calls: &Cell<(u8, bool)>,
    wanted: &str,
) -> Result<bool, ParseFault> {
    let (count, refused) = calls.get();
    match made {
        Ok(made) => Ok(!refused && made.as_str() == wanted),
        Err(ReplaceError::Search(error)) if !refused => Err(ParseFault::from(error)),
        Err(ReplaceError::Closure(Failure::Memory)) if refused => Err(ParseFault::Refused),
        Err(ReplaceError::Closure(Failure::TooGreat(number))) => {
            Ok(is_refusal(number, count, wanted))
        }
        Err(_) => Err(ParseFault::Wrong),
    }
}

// Replaces the first match, or each match, with a closure.
fn is_closure_replacement_as_expected(
    alloc: Global,
    re: &Regex,
    text: &str,
    how: &str,
    wanted: &str,
) -> Result<bool, ParseFault> {
    let calls = Cell::new((0u8, false));
    let answer = |found: &Match| {
        let made = answer_to(alloc, text, found, how);
        let refused = matches!(made, Err(Failure::Memory));
        calls.set((calls.get().0.saturating_add(1), refused));
        made
    };
    let made = match how {
        "doubled" => re.replace_with(text, answer),
        _ => re.replace_all_with(text, answer),
    };
    is_closure_outcome_as_expected(made, &calls, wanted)
}

/// Checks whether the replacement of a row has the expected result, by the unoptimized and by the
/// optimized pattern. The result is a text of its own, and not a part of another one.
pub fn is_replaced_as_expected(alloc: Global, line: &str) -> Result<bool, ParseFault> {
    let mut fields = Fields::of(line);
    let pattern = fields.next();
    let (text, how, by, wanted) = (fields.next(), fields.next(), fields.next(), fields.next());
    let mut agrees = true;
    for no_opt in [false, true] {
        let flags = Flags {
            no_opt,
            ..Flags::default()
        };
        let re = Regex::with_flags(alloc, pattern, flags)?;
        agrees &= match how {
            "first" => re.replace(text, by)?.as_str() == wanted,
            "all" => re.replace_all(text, by)?.as_str() == wanted,
            _ => is_closure_replacement_as_expected(alloc, &re, text, how, wanted)?,
        };
    }
    Ok(agrees)
}
