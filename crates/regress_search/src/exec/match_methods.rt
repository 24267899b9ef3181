//! The accessors of a match: its range, and its groups by number and by name.

ghost use Rattle.std.specs.Prelude.{◌≡◌, ◌≤◌, IfOk, IsCharBoundary, map, option_map, slice_range};
ghost use Rattle.regex_meaning.specs.{Outcomes.{group_range}, MatchGroupsByNumberAndName.{first_range, group as spec_group, ids_named, named_group as spec_named_group}};
ghost use Rattle.regress_search.specs.MatchesAsSpecAnswers.{answer_of, range_as_pair};

use crate::exec::Match;
use std::alloc::AllocError;
use std::ops::Range;

impl Match {
    /// Returns the range of the whole match, in code units of the text.
    pub fn range(&self) -> Range<usize>
        ensures { result ≡ self.now.range }
    {
        copy_range(&self.range)
    }

    /// Returns the offset at which the match begins, in code units of the text.
    pub fn start(&self) -> usize
        ensures { result ≡ self.now.range.start }
    {
        self.range.start
    }

    /// Returns the offset at which the match ends, in code units of the text.
    pub fn end(&self) -> usize
        ensures { result ≡ self.now.range.end }
    {
        self.range.end
    }

    /// Returns the matched part of `text`, which has to be the text that was searched: in another
    /// text, the range may be invalid. So the contract requires an ordered range between two
    /// boundaries (`is_char_boundary`).
    pub fn as_str<'t>(&self, text: &'t str) -> &'t str
        requires rising { self.now.range.start ≤ self.now.range.end }
        requires from { IsCharBoundary text.now self.now.range.start }
        requires to { IsCharBoundary text.now self.now.range.end }
        ensures { result.now ≡ slice_range text.now self.now.range.start self.now.range.end }
    {
        &text[self.start()..self.end()]
    }

    /// Returns the range of a group. Group 0 is the whole match, and the groups of the pattern are
    /// numbered from 1. Returns `None` if there is no such group, if it did not match, or if
    /// `captures` was truncated before it.
    pub fn group(&self, idx: usize) -> Option<Range<usize>>
        ensures { option_map range_as_pair result ≡ spec_group (answer_of self.now) idx }
    {
        if idx == 0 {
            Some(self.range())
        } else {
            group_range_with_id(&self.captures, idx - 1)
        }
    }

    /// Returns the range of a group by name. If several groups have the name, it returns the range
    /// of the first one, by number, that matched. It returns `None` if none of them matched, and
    /// for the empty name, which marks groups without a name.
    pub fn named_group(&self, name: &str) -> Option<Range<usize>>
        ensures { option_map range_as_pair result ≡ spec_named_group (answer_of self.now) name.now }
    {
        if name.is_empty() {
            None
        } else {
            self.first_matched_group_with_name(name)
        }
    }

    // Like `named_group`, but the name may be empty.
    pub(super) fn first_matched_group_with_name(&self, name: &str) -> Option<Range<usize>>
        ensures { option_map range_as_pair result
            ≡ first_range (answer_of self.now) (ids_named (answer_of self.now) name.now) }
    {
        let names = self.names.as_slice();
        for (id, other) in names.iter().enumerate() {
            if name == other.as_str() {
                let range = group_range_with_id(&self.captures, id);
                if range.is_some() {
                    return range;
                }
            }
        }
        None
    }

    /// Returns an equal match.
    ///
    /// # Errors
    ///
    /// Returns `Err` if the allocation of its lists fails.
    pub fn clone(&self) -> Result<Self, AllocError>
        ensures { IfOk result (λ m. answer_of m ≡ answer_of self.now) }
    {
        Ok(Match {
            range: self.range(),
            captures: self.captures.clone()?,
            names: self.names.clone()?,
        })
    }
}

// Copies a range. A range is not `Copy`, and its `clone` could fail.
fn copy_range(range: &Range<usize>) -> Range<usize>
    ensures { result ≡ range.now }
{
    range.start..range.end
}

// Returns the range of the group with this id. Returns `None` if it did not match or there is no
// such id.
fn group_range_with_id(captures: &[Option<Range<usize>>], id: usize) -> Option<Range<usize>>
    ensures { option_map range_as_pair result ≡ group_range (map (option_map range_as_pair) captures.now) id }
{
    match captures.get(id) {
        Some(Some(range)) => Some(copy_range(range)),
        _ => None,
    }
}
