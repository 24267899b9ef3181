//! Compiled patterns with their flags, and searches with them.

ghost use Rattle.std.specs.Prelude.{◌≡◌, ◌++◌, ◌∷◌, ◌≤◌, [], IfErr, IfOk, IfSome, IsTrue, false, if◌then◌else◌, length, map, option_map, slice_get};
ghost use Rattle.std.specs.Option.{option_to_list};
ghost use Rattle.regress_search.specs.MatchesAsSpecAnswers.{answer_of};
ghost use Rattle.regress_match.specs.CompileErrors.{IsOutOfMemory};
ghost use Rattle.use_regexp.specs.Refusals.{IsPossibleConstructorError};

use crate::error::RegExpError;
use crate::flags::Flags;
use crate::units;
use regress_match::exec::{MatchProducer, Matches};
use regress_match::{Match, Regex, SearchError, Syntax};
use std::alloc::{AllocError, Global};

/// A compiled pattern, with its source text and its flags.
#[derive(Drop)]
pub struct Pattern {
    re: Regex,
    source: Vec<u16>,
    flags: Flags,
}

impl Pattern {
    ghost use Rattle.use_regexp.specs.Compiled.{IsPatternOf};
    ghost use Rattle.use_regexp.specs.Exec.{IsRangeFromIndexOn, first_match, found, last_index_after_search, match_beginning_at_index, search_index as spec_search_index};
    ghost use Rattle.use_regexp.specs.Loops.{AreSuccessiveSearchResults, AreMatchesOfCall, index_after_match};

    /// Compiles a pattern of the whole language, with annex B, with the flags of these letters
    /// (21.2.3.2.2, RegExpInitialize). With `u`, the source is read as UTF-16. Without it, each
    /// code unit is a character.
    ///
    /// # Errors
    ///
    /// Returns `Flags` if a letter is not the letter of a flag or occurs twice, `Pattern` if the
    /// pattern is refused, and `Memory` if an allocation fails.
    pub fn new(alloc: Global, source: &[u16], letters: &[u16]) -> Result<Pattern, RegExpError>
        ensures compiled { IfOk result (IsPatternOf source.now letters.now) }
        ensures refused { IfErr result (IsPossibleConstructorError source.now letters.now) }
    {
        let Some(flags) = Flags::of_letters(letters) else {
            return Err(RegExpError::Flags);
        };
        let characters = units::characters(alloc, flags.unicode, source)?;
        let re = Regex::from_unicode_with_syntax(
            alloc,
            &characters,
            flags.for_pattern(),
            Syntax::EcmaScript2018,
        )?;
        let source = Vec::from_slice(alloc, source)?;
        Ok(Pattern { re, source, flags })
    }

    /// Returns the flags.
    pub fn flags(&self) -> Flags
        ensures { result ≡ self.now.flags }
    {
        self.flags
    }

    /// Returns the source text of the pattern, as it was given.
    pub fn source(&self) -> &[u16]
        ensures { result.now ≡ self.now.source.items }
    {
        &self.source
    }

    // Returns the first match from an index on.
    pub(crate) fn first_match(&self, text: &[u16], at: usize) -> Result<Option<Match>, SearchError>
        ensures found { IfOk result (λ m. option_map answer_of m ≡ first_match self.now text.now at) }
        ensures refused { IfErr result IsOutOfMemory }
    {
        let start = units::character_start(self.flags.unicode, text, at);
        if self.flags.unicode {
            first(self.re.find_from_utf16(text, start)?)
        } else {
            first(self.re.find_from_ucs2(text, start)?)
        }
    }

    // Returns the match that begins at an index, if there is one. No other index is tried.
    pub(crate) fn match_beginning_at_index(
        &self,
        text: &[u16],
        at: usize,
    ) -> Result<Option<Match>, SearchError>
        ensures found { IfOk result (λ m. option_map answer_of m ≡ match_beginning_at_index self.now text.now at) }
        ensures refused { IfErr result IsOutOfMemory }
    {
        let start = units::character_start(self.flags.unicode, text, at);
        if self.flags.unicode {
            self.re.match_at_utf16(text, start)
        } else {
            self.re.match_at_ucs2(text, start)
        }
    }

    /// Returns the match of a search with this `lastIndex` (21.2.5.2.2, RegExpBuiltinExec). With
    /// `g` or `y`, the search begins at `lastIndex`, and otherwise at 0. With `y`, no other index
    /// is tried. With `u`, an index within a surrogate pair is moved to the start of the pair.
    ///
    /// # Errors
    ///
    /// `Memory` if an allocation fails.
    pub fn find(&self, text: &[u16], last_index: usize) -> Result<Option<Match>, SearchError>
        ensures found { IfOk result (λ m. option_map answer_of m ≡ found self.now text.now last_index) }
        ensures stands { IfOk result (λ m. IfSome m (λ f.
            IsRangeFromIndexOn self.now text.now (spec_search_index self.now last_index) (answer_of f))) }
        ensures refused { IfErr result IsOutOfMemory }
    {
        let index = self.search_index(last_index);
        if self.flags.sticky {
            self.match_beginning_at_index(text, index)
        } else {
            self.first_match(text, index)
        }
    }

    // Returns the index at which a search begins. It is `lastIndex` with `g` or `y`, and otherwise
    // 0.
    fn search_index(&self, last_index: usize) -> usize
        ensures { result ≡ spec_search_index self.now last_index }
    {
        if self.flags.uses_last_index() {
            last_index
        } else {
            0
        }
    }

    /// Returns `lastIndex` after a search. With `g` or `y`, it is the end of the match, or 0 if
    /// there is none. Otherwise it is unchanged.
    pub fn last_index_after_search(&self, last_index: usize, found: Option<&Match>) -> usize
        ensures { result ≡ last_index_after_search self.now last_index (option_map (λ m. answer_of m.now) found.entry) }
    {
        if !self.flags.uses_last_index() {
            return last_index;
        }
        match found {
            Some(found) => found.end(),
            None => 0,
        }
    }

    // Returns the index at which a loop over matches continues after a match: the end of the match,
    // or one character further if it is empty.
    pub(crate) fn index_after_match(&self, text: &[u16], found: &Match) -> usize
        requires { found.now.range.end ≤ length text.now }
        ensures { result ≡ index_after_match self.now text.now (answer_of found.now) }
    {
        if found.start() == found.end() {
            units::advanced(self.flags.unicode, text, found.end())
        } else {
            found.end()
        }
    }

    // Returns all matches that successive searches find from an index on.
    fn all_matches_from_index(
        &self,
        alloc: Global,
        text: &[u16],
        first: usize,
    ) -> Result<Vec<Match>, SearchError>
        requires { IsTrue self.now.flags.global }
        ensures taken { IfOk result (λ v. AreSuccessiveSearchResults self.now text.now first (map answer_of v.items)) }
        ensures refused { IfErr result IsOutOfMemory }
    {
        let mut matches = Vec::new(alloc);
        let mut last = first;
        'turns: while let Some(found) = self.find(text, last)? {
            last = self.index_after_match(text, &found);
            push_match(&mut matches, found)?;
        }
        Ok(matches)
    }

    /// Returns matches: with `g` all matches from the index `first` on, and otherwise the match of
    /// a search with this `lastIndex`, if there is one.
    ///
    /// # Errors
    ///
    /// `Memory` if an allocation fails.
    pub fn matches_of_call(
        &self,
        alloc: Global,
        text: &[u16],
        first: usize,
        last_index: usize,
    ) -> Result<Vec<Match>, SearchError>
        ensures taken { IfOk result (λ v. AreMatchesOfCall self.now text.now first last_index (map answer_of v.items)) }
        ensures refused { IfErr result IsOutOfMemory }
    {
        if self.flags.global {
            return self.all_matches_from_index(alloc, text, first);
        }
        let found = self.find(text, last_index)?;
        let matches = match_as_list(alloc, found)?;
        Ok(matches)
    }

    /// Returns `lastIndex` after these matches. With `g` it is 0, because the last search has found
    /// no match.
    pub fn last_index_after_matches(&self, last_index: usize, matches: &[Match]) -> usize
        ensures { result ≡ (if self.now.flags.global then 0
            else last_index_after_search self.now last_index (slice_get (map answer_of matches.now) 0)) }
    {
        if self.flags.global {
            return 0;
        }
        self.last_index_after_search(last_index, matches.first())
    }
}

// Returns the next match, if there is one.
fn first<P: MatchProducer + Drop>(mut matches: Matches<P>) -> Result<Option<Match>, SearchError>
    ensures first { IfOk result (λ m. option_map answer_of m ≡ slice_get matches.answers 0) }
    ensures refused { matches.limited ≡ false → IfErr result IsOutOfMemory }
{
    matches.next().transpose()
}

// Returns the match as a list, which is empty if there is none.
fn match_as_list(alloc: Global, found: Option<Match>) -> Result<Vec<Match>, AllocError>
    ensures { IfOk result (λ v. map answer_of v.items ≡ option_to_list (option_map answer_of found)) }
{
    let mut matches = Vec::new(alloc);
    match found {
        Some(found) => {
            push_match(&mut matches, found)?;
            Ok(matches)
        }
        None => Ok(matches),
    }
}

// Appends a match.
fn push_match(matches: &mut Vec<Match>, found: Match) -> Result<(), AllocError>
    ensures { IfOk result (λ _. matches.new.items ≡ matches.old.items ++ found ∷ []) }
{
    Ok(matches.push(found)?)
}
