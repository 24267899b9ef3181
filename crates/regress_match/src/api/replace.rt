//! Replacement of matches in a text by other text.

ghost use Rattle.std.specs.Prelude.{◌≡◌, ◌≤◌, ◌++◌, IfErr, IfOk, IsCharBoundary, drop, false, slice_range, string_bytes, take};
ghost use Rattle.regex_meaning.specs.Replace.{replaced};
ghost use Rattle.regress_search.specs.MatchesAsSpecAnswers.{answer_of};
ghost use Rattle.regress_match.specs.{Laws.{ReplacingByMatchKeepsText}, ProgramTreesAndAnswers.{utf8_answers}, CompileErrors.{IsOutOfMemory}};
ghost use Rattle.regress_match.specs.ExpansionsAndMatchRanges.{MatchFitsText, MatchesFitTextInOrderFrom, matches_with_expansions};

mod closures;
mod expansion;

use crate::api::replace::expansion::expand;
use crate::api::{Match, Regex, SearchError};
use regress_search::exec::{MatchProducer, Matches};
use std::alloc::{AllocError, Global};

impl Regex {
    /// Returns `text` with the first match replaced by `replacement`. If there is no match, returns
    /// `text` itself.
    ///
    /// With `(\d{4})-(\d{2})-(\d{2})`, the replacement `$2/$3/$1` turns `2023-12-25` into
    /// `12/25/2023` (tested in `test_searches`).
    ///
    /// In a replacement:
    ///
    /// - `$$` is replaced by `$`.
    /// - `$0` is replaced by the whole match.
    /// - `$` with digits is replaced by the group of that number. Digits are read until the number
    ///   exceeds the largest group number.
    /// - `${name}` is replaced by the group of that name.
    /// - A group that does not exist, or did not match, is replaced by nothing.
    /// - `${` without a `}` makes all of the rest literal. Any other `$` is literal.
    ///
    /// # Errors
    ///
    /// `Memory` if an allocation for the search or the text fails.
    pub fn replace(&self, text: &str, replacement: &str) -> Result<String, SearchError>
        ensures made { IfOk result (λ s. string_bytes s ≡ replaced text.now 0
            (matches_with_expansions text.now replacement.now (take 1 (utf8_answers self.now text.now 0)))) }
        ensures refused { IfErr result IsOutOfMemory }
    {
        expand_first(self.allocator(), self.find_iter(text)?, text, replacement)
    }

    /// Returns `text` with each match replaced by `replacement`, which is read as in `replace`.
    ///
    /// With `\b(\w)(\w+)`, the replacement `$1.$2` turns `hello world` into `h.ello w.orld` (tested
    /// in `test_searches`).
    ///
    /// # Errors
    ///
    /// `Memory` if an allocation for the search or the text fails.
    pub fn replace_all(&self, text: &str, replacement: &str) -> Result<String, SearchError>
        ensures made { IfOk result (λ s. string_bytes s
            ≡ replaced text.now 0 (matches_with_expansions text.now replacement.now
            (utf8_answers self.now text.now 0))) }
        ensures refused { IfErr result IsOutOfMemory }
    {
        expand_each(self.allocator(), self.find_iter(text)?, text, replacement)
    }
}

/// A law: replacing the first match, or all matches, by `$0` does not change the text.
///
/// Statement: `specs/Laws`.
pub fn replacing_by_match_keeps_text()
    ensures { ReplacingByMatchKeepsText }
{}

// Appends the text before a match, and returns the offset after the match.
fn append_text_before_match(
    made: &mut String,
    text: &str,
    from: usize,
    found: &Match,
) -> Result<usize, AllocError>
    requires rising { from ≤ found.now.range.start }
    requires boundary { IsCharBoundary text.now from }
    requires fits { MatchFitsText text.now (answer_of found.now) }
    ensures made { IfOk result (λ _. string_bytes made.new
        ≡ string_bytes made.old ++ slice_range text.now from found.now.range.start) }
    ensures behind { IfOk result (λ to. to ≡ found.now.range.end) }
{
    made.push_str(&text[from..found.start()])?;
    Ok(found.end())
}

// Appends the rest of the text.
fn append_text_after_last_match(
    mut made: String,
    text: &str,
    from: usize,
) -> Result<String, AllocError>
    requires { IsCharBoundary text.now from }
    ensures { IfOk result (λ s. string_bytes s ≡ string_bytes made ++ drop from text.now) }
{
    made.push_str(&text[from..])?;
    Ok(made)
}

// Returns the text with the first match replaced.
fn expand_first<P: MatchProducer + Drop>(
    alloc: Global,
    mut matches: Matches<P>,
    text: &str,
    replacement: &str,
) -> Result<String, SearchError>
    requires { MatchesFitTextInOrderFrom text.now 0 matches.answers }
    ensures made { IfOk result (λ s. string_bytes s
        ≡ replaced text.now 0 (matches_with_expansions text.now replacement.now (take 1 matches.answers))) }
    ensures refused { matches.limited ≡ false → IfErr result IsOutOfMemory }
{
    let mut made = String::new(alloc);
    let Some(item) = matches.next() else {
        return Ok(append_text_after_last_match(made, text, 0)?);
    };
    let found = item?;
    let from = append_text_before_match(&mut made, text, 0, &found)?;
    expand(&mut made, &found, text, replacement)?;
    Ok(append_text_after_last_match(made, text, from)?)
}

// Returns the text with each match replaced.
fn expand_each<P: MatchProducer + Drop>(
    alloc: Global,
    matches: Matches<P>,
    text: &str,
    replacement: &str,
) -> Result<String, SearchError>
    requires { MatchesFitTextInOrderFrom text.now 0 matches.answers }
    ensures made { IfOk result (λ s. string_bytes s
        ≡ replaced text.now 0 (matches_with_expansions text.now replacement.now matches.answers)) }
    ensures refused { matches.limited ≡ false → IfErr result IsOutOfMemory }
{
    let mut made = String::new(alloc);
    let mut from = 0;
    for item in matches {
        let found = item?;
        from = append_text_before_match(&mut made, text, from, &found)?;
        expand(&mut made, &found, text, replacement)?;
    }
    Ok(append_text_after_last_match(made, text, from)?)
}
