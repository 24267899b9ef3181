//! Iterators over the groups of a match. None of them allocates memory.

ghost use Rattle.std.specs.Prelude.{◌≡◌, [], ◌∷◌, IfSome, MatchOption, bytes_eq, length, map, option_map, string_bytes};
ghost use Rattle.std.specs.List.{list_any};
ghost use Rattle.std.specs.Iterator.{UpTo, YieldsFirstBy, at_most, item_count};
ghost use Rattle.std.specs.Iterator.SizeHint.{IsWithinCount};
ghost use Rattle.regex_meaning.specs.MatchGroupsByNumberAndName.{named_groups as spec_named_groups};
ghost use Rattle.regress_search.specs.{MatchesAsSpecAnswers.{answer_of, range_as_pair}, GroupIterators.{all_groups, is_new_group_name as spec_is_new_group_name, distinct_names_from}};

use crate::exec::Match;
use std::iter::FusedIterator;
use std::marker::Model;
use std::ops::Range;

impl Match {
    /// Iterates over the ranges of all groups by number. The first one is the whole match.
    pub fn groups(&self) -> Groups<'_>
        ensures { result ≡ all_groups (answer_of self.now) }
    {
        Groups {
            matched: self,
            number: 0,
        }
    }

    /// Iterates over the distinct names of groups in order of their first occurrence. Each name
    /// comes with the range of its first group that matched.
    pub fn named_groups(&self) -> NamedGroups<'_>
        ensures { result ≡ spec_named_groups (answer_of self.now) }
    {
        NamedGroups {
            matched: self,
            id: 0,
        }
    }
}

// Returns the first name at id `from` or later that does not occur at an earlier id, and the id
// after it.
fn new_name_from(names: &[String], from: usize) -> Option<(usize, &str)>
    ensures { let left = distinct_names_from (map string_bytes names.now) in
        MatchOption result (left from ≡ []) (λ found. left from ≡ found.1.now ∷ left found.0) }
{
    for id in from..names.len() {
        let name = names[id].as_str();
        if is_new_group_name(name, &names[..id]) {
            return Some((id + 1, name));
        }
    }
    None
}

// Returns the number of names at id `from` or later that do not occur at an earlier id.
fn count_new_names_from(names: &[String], from: usize) -> usize
    ensures { result ≡ length (distinct_names_from (map string_bytes names.now) from) }
{
    let mut left = 0;
    for id in from..names.len() {
        if is_new_group_name(names[id].as_str(), &names[..id]) {
            left += 1;
        }
    }
    left
}

// Checks whether a name is not empty and does not occur in `before`.
fn is_new_group_name(name: &str, before: &[String]) -> bool
    ensures { result ≡ spec_is_new_group_name name.now (map string_bytes before.now) }
{
    !name.is_empty() && !is_among_names(name, before)
}

fn is_among_names(name: &str, names: &[String]) -> bool
    ensures { result ≡ list_any (λ other. bytes_eq name.now (string_bytes other)) names.now }
{
    names.iter().any(|other| name == other.as_str())
}

/// An iterator over the ranges of a match's groups. The first one is the whole match. Contracts see
/// the ranges that are left.
#[derive(Drop)]
pub struct Groups<'m> {
    matched: &'m Match,
    // The number of the next group.
    number: usize,
}

impl<'m> Model for Groups<'m> {
    ghost use Rattle.std.specs.Prelude.{ℕ, List, Option, drop};
    ghost use Rattle.regress_search.specs.{MatchesAsSpecAnswers.{answer_of}, GroupIterators.{all_groups}};

    ghost Value = { List (Option (ℕ × ℕ)) };

    ghost view = { λ it. drop it.number (all_groups (answer_of it.matched.now)) };
}

impl<'m> Groups<'m> {
    /// Returns an iterator over the groups that are left.
    pub fn clone(&self) -> Self
        ensures { result ≡ self.now }
    {
        Groups {
            matched: self.matched,
            number: self.number,
        }
    }
}

impl<'m> Iterator for Groups<'m> {
    type Item = Option<Range<usize>>;

    ghost next_gives = { YieldsFirstBy (option_map range_as_pair) (λ rest. rest) };

    ghost remaining = { item_count (λ rest. rest) };

    /// Returns the range of the next group, which is `None` if the group did not match.
    fn next(&mut self) -> Option<Option<Range<usize>>> {
        if self.matched.captures.len() < self.number {
            return None;
        }
        let group = self.matched.group(self.number);
        self.number += 1;
        Some(group)
    }

    fn size_hint(&self) -> (usize, Option<usize>)
        ensures lower { IsWithinCount result.0 (at_most (length self.now)) }
        ensures upper { IfSome result.1 (UpTo (at_most (length self.now))) }
        ensures exact { result ≡ (length self.now, Some (length self.now)) }
    {
        let groups = self.len();
        (groups, Some(groups))
    }
}

impl<'m> ExactSizeIterator for Groups<'m> {
    /// Returns the number of groups that are left.
    fn len(&self) -> usize {
        (self.matched.captures.len() + 1).saturating_sub(self.number)
    }
}

impl<'m> FusedIterator for Groups<'m> {}

/// An iterator over the names of a match's groups, each with the range of its first group that
/// matched. Contracts see the pairs that are left.
#[derive(Drop)]
pub struct NamedGroups<'m> {
    matched: &'m Match,
    // The id from which on names are still to be looked at.
    id: usize,
}

impl<'m> Model for NamedGroups<'m> {
    ghost use Rattle.std.specs.Prelude.{ℕ, List, Option};
    ghost use Rattle.regress_search.specs.{MatchesAsSpecAnswers.{answer_of}, GroupIterators.{named_groups_from}};

    ghost Value = { List (List ℕ × Option (ℕ × ℕ)) };

    ghost view = { λ it. named_groups_from (answer_of it.matched.now) it.id };
}

impl<'m> NamedGroups<'m> {
    /// Returns an iterator over the names that are left.
    pub fn clone(&self) -> Self
        ensures { result ≡ self.now }
    {
        NamedGroups {
            matched: self.matched,
            id: self.id,
        }
    }
}

impl<'m> Iterator for NamedGroups<'m> {
    type Item = (&'m str, Option<Range<usize>>);

    ghost next_gives = { YieldsFirstBy (λ item. (item.0.now, option_map range_as_pair item.1)) (λ rest. rest) };

    ghost remaining = { item_count (λ rest. rest) };

    /// Returns the next name and its range, which is `None` if none of its groups matched.
    fn next(&mut self) -> Option<(&'m str, Option<Range<usize>>)> {
        let matched = self.matched;
        let (behind, name) = new_name_from(matched.names.as_slice(), self.id)?;
        self.id = behind;
        Some((name, matched.first_matched_group_with_name(name)))
    }

    fn size_hint(&self) -> (usize, Option<usize>)
        ensures lower { IsWithinCount result.0 (at_most (length self.now)) }
        ensures upper { IfSome result.1 (UpTo (at_most (length self.now))) }
        ensures exact { result ≡ (length self.now, Some (length self.now)) }
    {
        let names = self.len();
        (names, Some(names))
    }
}

impl<'m> ExactSizeIterator for NamedGroups<'m> {
    /// Returns the number of names that are left. This takes a search for each name.
    fn len(&self) -> usize {
        count_new_names_from(self.matched.names.as_slice(), self.id)
    }
}

impl<'m> FusedIterator for NamedGroups<'m> {}
