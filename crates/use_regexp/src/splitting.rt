//! Splitting of texts at matches.

ghost use Rattle.std.specs.Prelude.{◌≡◌, ◌++◌, ◌∷◌, ◌⊎◌, ◌≤◌, [], IfErr, IfNone, IfOk, IfSome, None, Some, length, map, option_map, take};
ghost use Rattle.regress_search.specs.MatchesAsSpecAnswers.{answer_of, range_as_pair};
ghost use Rattle.regress_match.specs.CompileErrors.{IsOutOfMemory};
ghost use Rattle.use_regexp.specs.Split.{ArePieces, IsSeparator, IsSplit, match_if_before_end, chosen, pieces_of_empty_text, separator};

use crate::pattern::Pattern;
use crate::regexp::RegExp;
use crate::units::advanced;
use regress_match::{Match, Range, SearchError};
use std::alloc::{AllocError, Global};

impl RegExp {
    /// Splits the text at the matches, and returns the ranges between them (21.2.5.12,
    /// `[Symbol.split]`). The range before a match is followed by the ranges of the match's groups,
    /// which are `None` for groups that did not match. The list has at most `limit` items. 2^32 - 1
    /// stands for no limit. A host coerces the limit with [`to_uint32`](crate::to_uint32).
    ///
    /// An empty match splits only between two characters. `lastIndex`, `g` and `y` have no effect.
    ///
    /// # Errors
    ///
    /// `Memory` if an allocation fails.
    pub fn split(
        &self,
        alloc: Global,
        text: &[u16],
        limit: u32,
    ) -> Result<Vec<Option<Range<usize>>>, SearchError>
        ensures split { IfOk result (λ v.
            IsSplit self.now.pattern text.now limit (map (option_map range_as_pair) v.items)) }
        ensures refused { IfErr result IsOutOfMemory }
    {
        let limit = limit as usize;
        if text.is_empty() {
            return self.pattern.pieces_of_empty_text(alloc, text, limit);
        }
        self.pattern.pieces(alloc, text, limit)
    }
}

impl Pattern {
    // Returns the pieces of an empty text. There is none if the pattern matches the empty text.
    fn pieces_of_empty_text(
        &self,
        alloc: Global,
        text: &[u16],
        limit: usize,
    ) -> Result<Vec<Option<Range<usize>>>, SearchError>
        ensures pieces { IfOk result (λ v. map (option_map range_as_pair) v.items
            ≡ take limit (pieces_of_empty_text self.now text.now)) }
        ensures refused { IfErr result IsOutOfMemory }
    {
        let mut pieces = Vec::new(alloc);
        if self.match_beginning_at_index(text, 0)?.is_none() {
            push_piece(&mut pieces, 0, 0)?;
        }
        pieces.truncate(limit);
        Ok(pieces)
    }

    // Returns the pieces of a non-empty text. The search ends when there are `limit` pieces.
    fn pieces(
        &self,
        alloc: Global,
        text: &[u16],
        limit: usize,
    ) -> Result<Vec<Option<Range<usize>>>, SearchError>
        ensures pieces { IfOk result (λ v. ArePieces self.now text.now limit (map (option_map range_as_pair) v.items)) }
        ensures refused { IfErr result IsOutOfMemory }
    {
        let mut pieces = Vec::new(alloc);
        let mut from = 0;
        'cuts: while let Some(found) = self.next_separator_within_limit(
            text,
            from,
            pieces.as_slice(),
            limit,
        )? {
            push_pieces(&mut pieces, from, &found)?;
            from = found.end();
        }
        push_piece(&mut pieces, from, text.len())?;
        pieces.truncate(limit);
        Ok(pieces)
    }

    // Returns the next separator after the start of a piece. Returns `None` if there are already
    // `limit` pieces.
    fn next_separator_within_limit(
        &self,
        text: &[u16],
        from: usize,
        pieces: &[Option<Range<usize>>],
        limit: usize,
    ) -> Result<Option<Match>, SearchError>
        requires { from ≤ length text.now }
        ensures ends { IfOk result (λ m. IfNone m
            ((separator self.now text.now from ≡ None) ⊎ (limit ≤ length pieces.now))) }
        ensures continues { IfOk result (λ m. IfSome m (λ f. separator self.now text.now from ≡ Some (answer_of f))) }
        ensures stands { IfOk result (λ m. IfSome m (λ f. IsSeparator self.now text.now from (answer_of f))) }
        ensures refused { IfErr result IsOutOfMemory }
    {
        if limit <= pieces.len() {
            return Ok(None);
        }
        self.separator(text, from)
    }

    // Returns the next separator after the start of a piece: a match that does not end there and
    // begins before the end of the text.
    fn separator(&self, text: &[u16], from: usize) -> Result<Option<Match>, SearchError>
        requires { from ≤ length text.now }
        ensures found { IfOk result (λ m. option_map answer_of m ≡ separator self.now text.now from) }
        ensures stands { IfOk result (λ m. IfSome m (λ f. IsSeparator self.now text.now from (answer_of f))) }
        ensures refused { IfErr result IsOutOfMemory }
    {
        let first = self.first_match(text, from)?;
        let chosen = self.first_match_past_empty_one(text, from, first)?;
        Ok(before_end(text, chosen))
    }

    // Returns the first match from the start of a piece on. If it is empty and begins there,
    // returns the first match from the next index on.
    fn first_match_past_empty_one(
        &self,
        text: &[u16],
        from: usize,
        first: Option<Match>,
    ) -> Result<Option<Match>, SearchError>
        requires { from ≤ length text.now }
        ensures chosen { IfOk result (λ m. option_map answer_of m
            ≡ chosen self.now text.now from (option_map answer_of first)) }
        ensures refused { IfErr result IsOutOfMemory }
    {
        let Some(found) = first else {
            return Ok(None);
        };
        if found.end() == from {
            let next = advanced(self.flags().unicode, text, from);
            return self.first_match(text, next);
        }
        Ok(Some(found))
    }
}

// Returns the match if it begins before the end of the text, and otherwise `None`.
fn before_end(text: &[u16], found: Option<Match>) -> Option<Match>
    ensures { option_map answer_of result ≡ match_if_before_end text.now (option_map answer_of found) }
{
    match found {
        Some(found) if found.start() < text.len() => Some(found),
        _ => None,
    }
}

// Appends a piece.
fn push_piece(
    pieces: &mut Vec<Option<Range<usize>>>,
    start: usize,
    end: usize,
) -> Result<(), AllocError>
    ensures { IfOk result (λ _. map (option_map range_as_pair) pieces.new.items
        ≡ map (option_map range_as_pair) pieces.old.items ++ Some (start, end) ∷ []) }
{
    Ok(pieces.push(Some(start..end))?)
}

// Appends the piece before a match, and the groups of the match.
fn push_pieces(
    pieces: &mut Vec<Option<Range<usize>>>,
    from: usize,
    found: &Match,
) -> Result<(), AllocError>
    ensures { IfOk result (λ _. map (option_map range_as_pair) pieces.new.items
        ≡ map (option_map range_as_pair) pieces.old.items
        ++ Some (from, found.now.range.start) ∷ (answer_of found.now).captures) }
{
    push_piece(pieces, from, found.start())?;
    for group in &found.captures {
        pieces.push(copied(group))?;
    }
    Ok(())
}

// Returns a copy of a range. A range is not `Copy`, and its `clone` may fail.
fn copied(range: &Option<Range<usize>>) -> Option<Range<usize>>
    ensures { result ≡ range.now }
{
    match range {
        Some(range) => Some(range.start..range.end),
        None => None,
    }
}
