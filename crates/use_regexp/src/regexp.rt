//! The RegExp object: a compiled pattern, and the index at which its next search begins.

ghost use Rattle.std.specs.Prelude.{◌≡◌, IfErr, IfOk, OnErr, if◌then◌else◌, is_some, map, option_map, slice_get};
ghost use Rattle.regress_search.specs.MatchesAsSpecAnswers.{answer_of};
ghost use Rattle.regress_match.specs.CompileErrors.{IsOutOfMemory};
ghost use Rattle.use_regexp.specs.{Compiled.{IsPatternOf}, Exec.{found, last_index_after_search}, Loops.{AreMatchesOfCall, SetsLastIndexAfterMatches}, Refusals.{IsPossibleConstructorError}};
ghost use Rattle.use_regexp.specs.Source.{escaped_source, literal_of};

use crate::error::RegExpError;
use crate::flags::Flags;
use crate::pattern::Pattern;
use crate::source::escaped;
use regress_match::{Match, SearchError};
use std::alloc::{AllocError, Global};

/// A regular expression, with the index at which its next search begins.
#[derive(Drop)]
pub struct RegExp {
    pub(crate) pattern: Pattern,
    /// `lastIndex` in code units (21.2.6.1). With `g` or `y`, the next search begins at this index.
    /// Any value is allowed. A search from past the end of the text finds no match.
    ///
    /// The property of a script's object may hold any value, and a call coerces it. So before a
    /// call, a host sets this field to the property's number, converted with
    /// [`to_length`](crate::to_length). After `exec`, `test`, `match_text`, `replace` and
    /// `replace_with`, it writes the field back to the property if the flags have `g` or `y`.
    /// Otherwise the property keeps its value.
    pub last_index: usize,
}

impl RegExp {
    /// Compiles a pattern with the flags of these letters, in any order (21.2.3.1). `lastIndex` is
    /// 0.
    ///
    /// # Errors
    ///
    /// Returns `Flags` if a letter is not the letter of a flag or occurs twice, `Pattern` if the
    /// pattern is refused, and `Memory` if an allocation fails.
    pub fn new(alloc: Global, source: &[u16], letters: &[u16]) -> Result<RegExp, RegExpError>
        ensures compiled { IfOk result (λ r. IsPatternOf source.now letters.now r.pattern) }
        ensures first { IfOk result (λ r. r.last_index ≡ 0) }
        ensures refused { IfErr result (IsPossibleConstructorError source.now letters.now) }
    {
        let pattern = Pattern::new(alloc, source, letters)?;
        Ok(RegExp {
            pattern,
            last_index: 0,
        })
    }

    /// Returns the flags (21.2.5.4, and the clauses of the single flags).
    pub fn flags(&self) -> Flags
        ensures { result ≡ self.now.pattern.flags }
    {
        self.pattern.flags()
    }

    /// Returns the source of the pattern, escaped so that it can stand between slashes (21.2.5.11).
    ///
    /// # Errors
    ///
    /// `AllocError` if an allocation fails.
    pub fn source(&self, alloc: Global) -> Result<Vec<u16>, AllocError>
        ensures { IfOk result (λ v. v.items ≡ escaped_source self.now.pattern.source.items) }
    {
        escaped(alloc, self.pattern.source())
    }

    /// Returns the literal `/source/flags` (21.2.5.15, toString).
    ///
    /// # Errors
    ///
    /// `AllocError` if an allocation fails.
    pub fn to_text(&self, alloc: Global) -> Result<Vec<u16>, AllocError>
        ensures { IfOk result (λ v. v.items
            ≡ literal_of self.now.pattern.source.items self.now.pattern.flags) }
    {
        let mut text = Vec::new(alloc);
        text.push(47)?;
        text.extend_from_slice(&self.source(alloc)?)?;
        text.push(47)?;
        text.extend_from_slice(&self.flags().letters(alloc)?)?;
        Ok(text)
    }

    /// Returns a match (21.2.5.2): with `g` the first match from `lastIndex` on, with `y` the match
    /// that begins at `lastIndex`, and otherwise the first match in the text. With `g` or `y`,
    /// `lastIndex` becomes the end of the match, or 0 if there is none. With `u`, an index within a
    /// surrogate pair is moved to the start of the pair.
    ///
    /// With the flag `d`, a result has an array `indices` (22.2.7.2 of the 13th edition), which is
    /// [`Match::groups`]: a range is a pair of indices, and a group that did not match has none.
    /// The `groups` of this array are [`Match::named_groups`].
    ///
    /// # Errors
    ///
    /// `Memory` if an allocation fails. Then `self` is unchanged.
    pub fn exec(&mut self, text: &[u16]) -> Result<Option<Match>, SearchError>
        ensures found { IfOk result (λ m. option_map answer_of m
            ≡ found self.old.pattern text.now self.old.last_index) }
        ensures last { IfOk result (λ m. self.new.last_index
            ≡ last_index_after_search self.old.pattern self.old.last_index (option_map answer_of m)) }
        ensures same { self.new.pattern ≡ self.old.pattern }
        ensures refused { IfErr result IsOutOfMemory }
        ensures unchanged { OnErr result (self.new ≡ self.old) }
    {
        let found = self.pattern.find(text, self.last_index)?;
        let last_index = self
            .pattern
            .last_index_after_search(self.last_index, found.as_ref());
        self.last_index = last_index;
        Ok(found)
    }

    /// Checks whether `exec` finds a match, and sets `lastIndex` as `exec` does (21.2.5.14).
    ///
    /// # Errors
    ///
    /// Returns the errors of `exec`.
    pub fn test(&mut self, text: &[u16]) -> Result<bool, SearchError>
        ensures tested { IfOk result (λ b. b ≡ is_some (found self.old.pattern text.now self.old.last_index)) }
        ensures last { IfOk result (λ b. self.new.last_index ≡ last_index_after_search self.old.pattern
            self.old.last_index (found self.old.pattern text.now self.old.last_index)) }
        ensures same { self.new.pattern ≡ self.old.pattern }
        ensures refused { IfErr result IsOutOfMemory }
        ensures unchanged { OnErr result (self.new ≡ self.old) }
    {
        let found = self.exec(text)?;
        Ok(found.is_some())
    }

    /// Returns the start of the match that `exec` finds if `lastIndex` is 0. Returns `None` if
    /// there is no match. `lastIndex` is unchanged (21.2.5.10).
    ///
    /// # Errors
    ///
    /// `Memory` if an allocation fails.
    pub fn search(&self, text: &[u16]) -> Result<Option<usize>, SearchError>
        ensures found { IfOk result (λ at. at
            ≡ option_map (λ m. m.range.0) (found self.now.pattern text.now 0)) }
        ensures refused { IfErr result IsOutOfMemory }
    {
        match self.pattern.find(text, 0)? {
            Some(found) => Ok(Some(found.start())),
            None => Ok(None),
        }
    }

    /// Returns matches (21.2.5.7, `[Symbol.match]`): with `g` all matches in the text, and
    /// otherwise the match of `exec`, if there is one. With `g`, `lastIndex` becomes 0. Otherwise
    /// `exec` sets it.
    ///
    /// # Errors
    ///
    /// `Memory` if an allocation fails. Then `self` is unchanged.
    pub fn match_text(&mut self, alloc: Global, text: &[u16]) -> Result<Vec<Match>, SearchError>
        ensures taken { IfOk result (λ v.
            AreMatchesOfCall self.old.pattern text.now 0 self.old.last_index (map answer_of v.items)) }
        ensures last { IfOk result (λ _. SetsLastIndexAfterMatches self.old self.new text.now) }
        ensures same { self.new.pattern ≡ self.old.pattern }
        ensures refused { IfErr result IsOutOfMemory }
        ensures unchanged { OnErr result (self.new ≡ self.old) }
    {
        let matches = self
            .pattern
            .matches_of_call(alloc, text, 0, self.last_index)?;
        self.set_last_index_after(matches.as_slice());
        Ok(matches)
    }

    // Sets `lastIndex` to its value after these matches.
    pub(crate) fn set_last_index_after(&mut self, matches: &[Match])
        ensures last { self.new.last_index ≡ (if self.old.pattern.flags.global then 0
            else last_index_after_search self.old.pattern self.old.last_index
            (slice_get (map answer_of matches.now) 0)) }
        ensures same { self.new.pattern ≡ self.old.pattern }
    {
        let last_index = self
            .pattern
            .last_index_after_matches(self.last_index, matches);
        self.last_index = last_index;
    }

    /// Returns matches: with `g` all matches from `lastIndex` on, and otherwise the match of
    /// `exec`, if there is one. `lastIndex` is unchanged (21.2.5.8 of the 11th edition,
    /// `[Symbol.matchAll]`, which the 9th edition does not have).
    ///
    /// # Errors
    ///
    /// `Memory` if an allocation fails.
    pub fn match_all(&self, alloc: Global, text: &[u16]) -> Result<Vec<Match>, SearchError>
        ensures taken { IfOk result (λ v.
            AreMatchesOfCall self.now.pattern text.now self.now.last_index self.now.last_index
            (map answer_of v.items)) }
        ensures refused { IfErr result IsOutOfMemory }
    {
        self.pattern
            .matches_of_call(alloc, text, self.last_index, self.last_index)
    }
}
