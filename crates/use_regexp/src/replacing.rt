//! Replacement of matches.

ghost use Rattle.std.specs.Prelude.{◌≡◌, ◌++◌, ◌≤◌, IfErr, IfOk, OnErr, drop, length, map, slice_range};
ghost use Rattle.std.specs.Result.{IsOkAnd};
ghost use Rattle.regex_meaning.specs.Replace.{replaced};
ghost use Rattle.regress_search.specs.MatchesAsSpecAnswers.{answer_of};
ghost use Rattle.regress_match.specs.{ClosureReplacement.{IsClosureErrorOrOutOfMemory}, StringClosures.{ClosureCanBeCalled}, CompileErrors.{IsOutOfMemory}};
ghost use Rattle.regress_match.specs.ExpansionsAndMatchRanges.{MatchRangesLieWithinUnits};
ghost use Rattle.use_regexp.specs.Loops.{SetsLastIndexAfterMatches};
ghost use Rattle.use_regexp.specs.Replace.{ClosureAcceptsMatches, IsPossibleErrorForMatches, IsPossibleReplaceError, IsReplaced, IsReplacedBy, IsReplacedWith, AreRangesInOrderFrom, substituted};

use crate::regexp::RegExp;
use crate::template::substitute;
use regress_match::{Match, ReplaceError, SearchError};
use std::alloc::{AllocError, Global};

impl RegExp {
    /// Returns the text with matches replaced by the expansion of a template: with `g` all matches,
    /// and otherwise the match of `exec` (21.2.5.9, `[Symbol.replace]`). Without a match, it is the
    /// text itself. `lastIndex` is set as by `match_text`.
    ///
    /// In a template, `$$` is a `$`, `$&` is the match, `` $` `` is the text before it, and `$'` is
    /// the text after it. `$` with one or two digits is the group with this number, if it exists.
    /// `$<name>` is the group with this name, if any group has a name. Any other `$` is literal.
    ///
    /// # Errors
    ///
    /// `Memory` if an allocation fails. Then `self` is unchanged.
    pub fn replace(
        &mut self,
        alloc: Global,
        text: &[u16],
        template: &[u16],
    ) -> Result<Vec<u16>, SearchError>
        ensures made { IfOk result (λ v.
            IsReplaced self.old.pattern self.old.last_index text.now template.now v.items) }
        ensures last { IfOk result (λ _. SetsLastIndexAfterMatches self.old self.new text.now) }
        ensures same { self.new.pattern ≡ self.old.pattern }
        ensures refused { IfErr result IsOutOfMemory }
        ensures unchanged { OnErr result (self.new ≡ self.old) }
    {
        let matches = self
            .pattern
            .matches_of_call(alloc, text, 0, self.last_index)?;
        let made = replace_matches_by_template(alloc, text, matches.as_slice(), template)?;
        self.set_last_index_after(matches.as_slice());
        Ok(made)
    }

    /// Returns the text with matches replaced by the results of a closure: with `g` all matches,
    /// and otherwise the match of `exec` (21.2.5.9). The closure is called for the matches in
    /// order, and not again after an error. `lastIndex` is set as by `match_text`.
    ///
    /// Returns `Search` if an allocation fails, and `Closure` if the closure returns an error. Then
    /// `self` is unchanged.
    ///
    /// `Search` if an allocation fails, and `Closure` with the error of the closure. Then `self` is
    /// unchanged.
    pub fn replace_with<E, F>(
        &mut self,
        alloc: Global,
        text: &[u16],
        with: F,
    ) -> Result<Vec<u16>, ReplaceError<E>>
    where
        F: Fn(&Match) -> Result<Vec<u16>, E>,
        requires { ClosureAcceptsMatches (F.pre with) self.old.pattern text.now self.old.last_index }
        ensures made { IfOk result (λ v.
            IsReplacedWith (F.post with) self.old.pattern text.now self.old.last_index v.items) }
        ensures last { IfOk result (λ _. SetsLastIndexAfterMatches self.old self.new text.now) }
        ensures same { self.new.pattern ≡ self.old.pattern }
        ensures refused { IfErr result (IsPossibleReplaceError (F.post with) self.old.pattern text.now
            self.old.last_index) }
        ensures unchanged { OnErr result (self.new ≡ self.old) }
    {
        let matches = self
            .pattern
            .matches_of_call(alloc, text, 0, self.last_index)?;
        let made = replace_matches_by_closure(alloc, text, matches.as_slice(), with)?;
        self.set_last_index_after(matches.as_slice());
        Ok(made)
    }
}

// Appends the text between `from` and a match, and returns the end of the match.
fn append_units_before_match(
    made: &mut Vec<u16>,
    text: &[u16],
    from: usize,
    found: &Match,
) -> Result<usize, AllocError>
    requires rising { from ≤ found.now.range.start }
    requires fits { MatchRangesLieWithinUnits text.now (answer_of found.now) }
    ensures made { IfOk result (λ _. made.new.items
        ≡ made.old.items ++ slice_range text.now from found.now.range.start) }
    ensures behind { IfOk result (λ to. to ≡ found.now.range.end) }
{
    made.extend_from_slice(&text[from..found.start()])?;
    Ok(found.end())
}

// Returns the text with the expansion of the template in place of each match.
fn replace_matches_by_template(
    alloc: Global,
    text: &[u16],
    matches: &[Match],
    template: &[u16],
) -> Result<Vec<u16>, AllocError>
    requires { AreRangesInOrderFrom text.now 0 (map answer_of matches.now) }
    ensures { IfOk result (λ v. v.items
        ≡ replaced text.now 0 (substituted text.now template.now (map answer_of matches.now))) }
{
    let mut made = Vec::new(alloc);
    let mut from = 0;
    let mut rest = matches;
    while let Some((found, behind)) = rest.split_first() {
        from = append_units_before_match(&mut made, text, from, found)?;
        substitute(alloc, &mut made, text, found, template)?;
        rest = behind;
    }
    made.extend_from_slice(&text[from..])?;
    Ok(made)
}

// Appends the closure's result for a match.
fn push_closure_result<E>(
    made: &mut Vec<u16>,
    answer: Result<Vec<u16>, E>,
) -> Result<(), ReplaceError<E>>
    ensures made { IfOk result (λ _. IsOkAnd answer (λ piece. made.new.items ≡ made.old.items ++ piece.items)) }
    ensures refused { IfErr result (IsClosureErrorOrOutOfMemory answer) }
{
    let piece = answer.map_err(ReplaceError::Closure)?;
    made.extend_from_slice(&piece)?;
    Ok(())
}

// Returns the text with the result of the closure in place of each match.
fn replace_matches_by_closure<E, F>(
    alloc: Global,
    text: &[u16],
    matches: &[Match],
    with: F,
) -> Result<Vec<u16>, ReplaceError<E>>
where
    F: Fn(&Match) -> Result<Vec<u16>, E>,
    requires in_text { AreRangesInOrderFrom text.now 0 (map answer_of matches.now) }
    requires executable { ClosureCanBeCalled (F.pre with) (map answer_of matches.now) }
    ensures made { IfOk result (λ v. IsReplacedBy (F.post with) text.now (map answer_of matches.now) v.items) }
    ensures refused { IfErr result (IsPossibleErrorForMatches (F.post with) (map answer_of matches.now)) }
{
    let mut made = Vec::new(alloc);
    let mut from = 0;
    let mut rest = matches;
    while let Some((found, behind)) = rest.split_first() {
        from = append_units_before_match(&mut made, text, from, found)?;
        push_closure_result(&mut made, with(found))?;
        rest = behind;
    }
    made.extend_from_slice(&text[from..])?;
    Ok(made)
}
