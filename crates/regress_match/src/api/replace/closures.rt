//! Replacement of matches in a text by the results of a closure.

ghost use Rattle.std.specs.Prelude.{◌≡◌, ◌++◌, IfErr, IfOk, false, string_bytes, take};
ghost use Rattle.std.specs.Result.{IsOkAnd};
ghost use Rattle.regress_match.specs.ClosureReplacement.{IsClosureErrorOrOutOfMemory};
ghost use Rattle.regress_match.specs.{StringClosures.{ClosureCanBeCalled, IsPossibleReplaceError, IsReplacedBy}, ProgramTreesAndAnswers.{utf8_answers}};
ghost use Rattle.regress_match.specs.ExpansionsAndMatchRanges.{MatchesFitTextInOrderFrom};

use crate::api::replace::{append_text_after_last_match, append_text_before_match};
use crate::api::{Match, Regex, ReplaceError};
use regress_search::exec::{MatchProducer, Matches};
use std::alloc::Global;

impl Regex {
    /// Returns `text` with the first match replaced by the closure's result for it. If there is no
    /// match, returns `text` itself and does not call the closure.
    ///
    /// # Errors
    ///
    /// - `Search` if an allocation for the search or the text fails.
    /// - `Closure` with the closure's error.
    pub fn replace_with<E, F>(&self, text: &str, with: F) -> Result<String, ReplaceError<E>>
    where
        F: FnOnce(&Match) -> Result<String, E>,
        requires { ClosureCanBeCalled (F.pre with) (take 1 (utf8_answers self.now text.now 0)) }
        ensures made { IfOk result (λ s. IsReplacedBy (F.post with) text.now
            (take 1 (utf8_answers self.now text.now 0)) (string_bytes s)) }
        ensures refused { IfErr result (IsPossibleReplaceError (F.post with)
            (take 1 (utf8_answers self.now text.now 0))) }
    {
        replace_first_by_closure(self.allocator(), self.find_iter(text)?, text, with)
    }

    /// Returns `text` with each match replaced by the closure's result for it. The closure is
    /// called for the matches in order. After an error, it is not called again.
    ///
    /// # Errors
    ///
    /// - `Search` if an allocation for the search or the text fails.
    /// - `Closure` with the closure's error.
    pub fn replace_all_with<E, F>(&self, text: &str, with: F) -> Result<String, ReplaceError<E>>
    where
        F: Fn(&Match) -> Result<String, E>,
        requires { ClosureCanBeCalled (F.pre with) (utf8_answers self.now text.now 0) }
        ensures made { IfOk result (λ s.
            IsReplacedBy (F.post with) text.now (utf8_answers self.now text.now 0) (string_bytes s)) }
        ensures refused { IfErr result (IsPossibleReplaceError (F.post with) (utf8_answers self.now text.now 0)) }
    {
        replace_each_match(self.allocator(), self.find_iter(text)?, text, with)
    }
}

// Appends the closure's result for a match.
fn append_closure_result<E>(
    made: &mut String,
    answer: Result<String, E>,
) -> Result<(), ReplaceError<E>>
    ensures made { IfOk result (λ _. IsOkAnd answer (λ piece. string_bytes made.new
        ≡ string_bytes made.old ++ string_bytes piece)) }
    ensures refused { IfErr result (IsClosureErrorOrOutOfMemory answer) }
{
    let piece = answer.map_err(ReplaceError::Closure)?;
    made.push_str(&piece)?;
    Ok(())
}

// Returns the text with the first match replaced by the closure's result for it.
fn replace_first_by_closure<P: MatchProducer + Drop, E, F: FnOnce(&Match) -> Result<String, E>>(
    alloc: Global,
    mut matches: Matches<P>,
    text: &str,
    with: F,
) -> Result<String, ReplaceError<E>>
    requires in_text { MatchesFitTextInOrderFrom text.now 0 matches.answers }
    requires executable { ClosureCanBeCalled (F.pre with) (take 1 matches.answers) }
    ensures made { IfOk result (λ s. IsReplacedBy (F.post with) text.now (take 1 matches.answers) (string_bytes s)) }
    ensures refused { matches.limited ≡ false
        → IfErr result (IsPossibleReplaceError (F.post with) (take 1 matches.answers)) }
{
    let mut made = String::new(alloc);
    let Some(item) = matches.next() else {
        return Ok(append_text_after_last_match(made, text, 0)?);
    };
    let found = item?;
    let behind = append_text_before_match(&mut made, text, 0, &found)?;
    append_closure_result(&mut made, with(&found))?;
    Ok(append_text_after_last_match(made, text, behind)?)
}

// Returns the text with each match replaced by the closure's result for it.
fn replace_each_match<P: MatchProducer + Drop, E, F: Fn(&Match) -> Result<String, E>>(
    alloc: Global,
    matches: Matches<P>,
    text: &str,
    with: F,
) -> Result<String, ReplaceError<E>>
    requires in_text { MatchesFitTextInOrderFrom text.now 0 matches.answers }
    requires executable { ClosureCanBeCalled (F.pre with) matches.answers }
    ensures made { IfOk result (λ s. IsReplacedBy (F.post with) text.now matches.answers (string_bytes s)) }
    ensures refused { matches.limited ≡ false
        → IfErr result (IsPossibleReplaceError (F.post with) matches.answers) }
{
    let mut made = String::new(alloc);
    let mut from = 0;
    for item in matches {
        let found = item?;
        from = append_text_before_match(&mut made, text, from, &found)?;
        append_closure_result(&mut made, with(&found))?;
    }
    Ok(append_text_after_last_match(made, text, from)?)
}
