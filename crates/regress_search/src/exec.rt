//! Matches, the iterator over them, and the traits of executors.

ghost use Rattle.std.specs.Prelude.{◌≡◌, ◌≤◌, Bool, map, option_map, IfOk, IfErr, OnErr, OnSome, IfNone, not, None, string_bytes};
ghost use Rattle.std.specs.Iterator.{at_most};
ghost use Rattle.std.specs.Option.{ForSome};
ghost use Rattle.regex_meaning.specs.{Text.{Text}, CodeUnitOffsets.{HasRisingPlaceOffsets, IsBoundary, IsBoundaryOrPastEnd, is_past, offset_within, units}, SearchAnswers.{first_answer}};
ghost use Rattle.regex_meaning.specs.StepBudget.{answers_within, finishes_within, need_from};
ghost use Rattle.regex_pattern_front.specs.AstToSpecTree.{tree_of};
ghost use Rattle.regress_search.specs.SearchEffects.{IsNextStartAfterFirstMatch, SpendsNeedOrReachesLimit, cause_of_error};
ghost use Rattle.regress_search.specs.RemainingAnswers.{RemainingView, remaining_answers_from, NextYields, EndsAtTextEnd, max_items_left};
ghost use Rattle.regress_search.specs.MatchesWithinWork.{CallKeepsWorkEnough, SearchKeepsWorkEnough, is_work_enough};
ghost use Rattle.regress_search.specs.CostsOfSearches.{CallSpendsExactCost, ContinuesAfterCall, IfWorkIsCounted, SearchCosts};
ghost use Rattle.regress_search.specs.EffectsOnSearchState.{SearchTakesItsCost};

use regress_input::position::PositionType;
use regress_program::insn::{CompiledRegex, GroupNames};
use std::alloc::AllocError;
use std::marker::Model;
use std::ops::Range;
use thiserror::Error;

mod group_iterators;
mod match_methods;
mod search_state;
mod work_matches;

pub use self::group_iterators::{Groups, NamedGroups};
pub use self::search_state::SearchState;
pub use self::work_matches::{WorkError, WorkLimitedProducer, WorkMatches};

/// Why a search failed.
#[derive(Clone, Copy, Debug, PartialEq, Eq, Error)]
pub enum SearchError {
    /// An allocation failed. A `WorkLimitedProducer` returns it at its work limit too.
    #[error("out of memory")]
    Memory,
    /// The step limit was reached. This occurs only if there is a limit.
    #[error("the step limit is reached")]
    StepLimit,
}

impl From<AllocError> for SearchError {
    ghost use Rattle.regress_search.specs.declared.exec.SearchError.TheVariants.{Memory};

    ghost from_gives = { λ _ e. e ≡ Memory };

    fn from(_: AllocError) -> SearchError {
        SearchError::Memory
    }
}

/// A match: its range and the ranges of its groups, in code units of the text.
#[derive(Debug, Drop)]
pub struct Match {
    /// The range of the whole match.
    pub range: Range<usize>,
    /// The ranges of the groups by id. The range is `None` if the group did not match.
    pub captures: Vec<Option<Range<usize>>>,
    names: GroupNames,
}

impl Match {
    ghost use Rattle.regress_search.specs.MatchesAsSpecAnswers.{answer_of, range_as_pair};

    /// Creates a match from its range, the ranges of its groups and the names by id. They are not
    /// checked.
    pub fn from_parts(
        range: Range<usize>,
        captures: Vec<Option<Range<usize>>>,
        names: Vec<String>,
    ) -> Self
        ensures { answer_of result ≡ record {
          range = range_as_pair range;
          captures = map (option_map range_as_pair) captures.items;
          names = map string_bytes names.items;
        } }
    {
        Match::from_parts_with_shared_names(range, captures, GroupNames::from_owned_names(names))
    }

    // Creates a match whose names are shared with other matches.
    pub(crate) fn from_parts_with_shared_names(
        range: Range<usize>,
        captures: Vec<Option<Range<usize>>>,
        names: GroupNames,
    ) -> Self
        ensures { answer_of result ≡ record {
          range = range_as_pair range;
          captures = map (option_map range_as_pair) captures.items;
          names = names;
        } }
    {
        Match {
            range,
            captures,
            names,
        }
    }
}

/// A searcher that finds the matches of a pattern in a text, one at a time.
pub trait MatchProducer: SearchState {
    ghost use Rattle.regress_search.specs.MatchesAsSpecAnswers.{answer_of};

    /// A position at which a search can continue.
    type Position: PositionType;

    /// Returns the position of an offset in code units. The offset is a boundary, or past the end
    /// of the text; then the result is `None`.
    fn initial_position(&self, offset: usize) -> Option<Self::Position>
        requires { IsBoundaryOrPastEnd (Self.text self.now) offset }
        ensures { option_map Self.Position.offset result
            ≡ offset_within (Self.text self.now) offset };

    /// Finds the first match at a position or later. `next_start` becomes the position at which the
    /// list of matches continues, or `None` if the list ends. It is unchanged if there is no match
    /// or an error occurs.
    ///
    /// The clauses `found` and `stays` say which match is returned and what `next_start` becomes.
    /// The clauses `steps` and `cause` say which steps are spent and which error is returned. The
    /// clauses `work`, `left` and `cost` say whether the work limit suffices and how much work is
    /// taken, and `same` says that the tree and the text stay the same.
    ///
    /// # Errors
    ///
    /// Returns `StepLimit` if the search needs more steps than are left; then no steps are left.
    /// Returns `Memory` if an allocation fails; the steps taken before that are spent.
    fn next_match(
        &mut self,
        pos: Self::Position,
        next_start: &mut Option<Self::Position>,
    ) -> Result<Option<Match>, SearchError>
        requires { IsBoundary (Self.text self.old) (Self.Position.offset pos) }
        ensures found { let at = Self.Position.offset in IfOk result (λ m.
            (option_map answer_of m ≡ first_answer (Self.tree self.old).root (Self.text self.old) (at pos))
            × OnSome m (IsNextStartAfterFirstMatch (Self.tree self.old) (Self.text self.old) (at pos)
            (option_map at next_start.new))) }
        ensures stays { IfOk result (λ m. IfNone m (next_start.new ≡ next_start.old))
            × OnErr result (next_start.new ≡ next_start.old) }
        ensures steps { SpendsNeedOrReachesLimit (need_from (Self.tree self.old) (Self.text self.old)
            (Self.Position.offset pos)) (Self.budget self.old) result (Self.budget self.new) }
        ensures cause { IfErr result (λ e. e ≡ cause_of_error (Self.out_of_steps self.new)) }
        ensures work { let at = Self.Position.offset in SearchKeepsWorkEnough (Self.enough self.old)
            (Self.ahead self.old) (at pos) result (Self.enough self.new) (Self.ahead self.new)
            (option_map at next_start.new) (Self.out_of_work self.new) }
        ensures left { Self.left self.new ≤ Self.left self.old }
        ensures cost { SearchTakesItsCost Self.SearchState self.old (Self.Position.offset pos) result self.new }
        ensures same { (Self.tree self.new ≡ Self.tree self.old) × (Self.text self.new ≡ Self.text self.old) };

    ghost is_text: { (it : Self) → HasRisingPlaceOffsets (Self.text it) };
}

/// A producer of matches that is created from a program and a text. `can_search` says which texts
/// it can search. `text_of` gives the characters that it reads, depending on the flag `unicode`.
pub trait ProducerFromProgramAndText<'r>: MatchProducer {
    /// The type of texts that it searches.
    type Text;

    ghost can_search: { Self.Text → Type 0 };

    ghost text_of: { Self.Text → (unicode : Bool) → Text };

    /// Creates a producer that searches `text` with the program `re`.
    ///
    /// # Errors
    ///
    /// Returns `Err` if an allocation fails.
    fn new(re: &'r CompiledRegex, text: Self::Text) -> Result<Self, AllocError>
    where
        Self: Sized,
        requires { can_search text }
        ensures tree { IfOk result (λ e. Self.tree e ≡ tree_of re.now) }
        ensures text { IfOk result (λ e. Self.text e ≡ text_of text (tree_of re.now).flags.unicode) }
        ensures unlimited { IfOk result (λ e. Self.budget e ≡ None) };
}

/// An executor that runs a program for bytes on a `str`. It is created by `new` of
/// `ProducerFromProgramAndText`.
pub trait Executor<'r, 't>: ProducerFromProgramAndText<'r, Text = &'t str> {
    ghost use Rattle.regress_search.specs.NewExecutorsAndAsciiTexts.{CanSearchAllAsciiTexts, ReadsBytesAsAscii};

    /// The same executor for ASCII texts. A function that uses it as an executor states this in its
    /// bounds.
    type AsAscii: ProducerFromProgramAndText<'r, Text = &'t str>;

    // The executor for ASCII texts can search each ASCII text.
    ghost takes_ascii: { CanSearchAllAsciiTexts Self.AsAscii.can_search };

    // It reads each byte as a character.
    ghost reads_ascii: { ReadsBytesAsAscii Self.AsAscii.text_of };
}

/// An iterator over the matches of a pattern in a text. Contracts see the answers still to come.
#[derive(Drop)]
pub struct Matches<P: MatchProducer> {
    producer: P,
    position: Option<P::Position>,
}

impl<P: MatchProducer> Model for Matches<P> {
    ghost Value = { RemainingView };

    ghost view = { λ m. remaining_answers_from (P.tree m.producer) (P.text m.producer) (P.budget m.producer)
        (option_map P.Position.offset m.position) (P.out_of_steps m.producer) };

    ghost invariant = { λ m. ForSome m.position (λ p. IsBoundary (P.text m.producer) (P.Position.offset p)) };
}

impl<P: MatchProducer> Matches<P> {
    /// Creates an iterator over the matches at `start` or later. `start` is an offset in code
    /// units. It is a boundary, or past the end of the text, where there are no matches.
    pub fn new(producer: P, start: usize) -> Self
        requires { IsBoundaryOrPastEnd (P.text producer) start }
        ensures answers { result.answers
            ≡ answers_within (P.tree producer) (P.text producer) (P.budget producer) start }
        ensures limited { result.limited
            ≡ not (finishes_within (P.tree producer) (P.text producer) (P.budget producer) start) }
        ensures ended { result.ended ≡ is_past start (units (P.text producer)) }
        ensures text_end { result.text_end ≡ units (P.text producer) }
    {
        let position = producer.initial_position(start);
        Matches { producer, position }
    }
}

impl<P: MatchProducer + Drop> Iterator for Matches<P> {
    type Item = Result<Match, SearchError>;

    ghost next_gives = { NextYields };

    ghost remaining = { λ s. at_most (max_items_left s) };

    /// Returns the next match. After the last match and after an error, it returns `None`.
    fn next(&mut self) -> Option<Result<Match, SearchError>> {
        advance_matches(&mut self.producer, &mut self.position)
    }
}

// Returns the first match at a position or later. The position becomes the one at which the list of
// matches continues, or `None` if the list ends.
// Contract: `gives` and `continues` say what is returned and where the list continues. `work` and
// `cost` say whether the work limit suffices and how much work is taken; `left` says that the work
// that is left does not grow. `at` and `same` say that the position stays a boundary of the same
// text.
fn advance_matches<P: MatchProducer>(
    producer: &mut P,
    position: &mut Option<P::Position>,
) -> Option<Result<Match, SearchError>>
    requires at { ForSome position.old (λ p. IsBoundary (P.text producer.old) (P.Position.offset p)) }
    ensures at { ForSome position.new (λ p. IsBoundary (P.text producer.new) (P.Position.offset p)) }
    ensures gives { let offset = option_map P.Position.offset in
        let before = remaining_answers_from (P.tree producer.old) (P.text producer.old) (P.budget producer.old)
        (offset position.old) (P.out_of_steps producer.old) in
        let behind = remaining_answers_from (P.tree producer.new) (P.text producer.new) (P.budget producer.new)
        (offset position.new) (P.out_of_steps producer.new) in
        NextYields before result behind }
    ensures work { let offset = option_map P.Position.offset in
        let before = is_work_enough (P.enough producer.old) (P.ahead producer.old) (offset position.old) in
        let behind = is_work_enough (P.enough producer.new) (P.ahead producer.new) (offset position.new) in
        CallKeepsWorkEnough before result behind (P.out_of_work producer.new) }
    ensures left { P.left producer.new ≤ P.left producer.old }
    ensures cost { let offset = option_map P.Position.offset in
        let costs = SearchCosts P.costs (P.tree producer.old) (P.text producer.old) (P.failures producer.old)
        (offset position.old) in
        IfWorkIsCounted P.counts_work (CallSpendsExactCost costs (P.left producer.old) result
        (P.out_of_work producer.new) (P.left producer.new) (P.failures producer.new)) }
    ensures continues { let offset = option_map P.Position.offset in
        ContinuesAfterCall (P.tree producer.old) (P.text producer.old) (offset position.old) result
        (offset position.new) }
    ensures same { (P.tree producer.new ≡ P.tree producer.old) × (P.text producer.new ≡ P.text producer.old) }
{
    let pos = (*position)?;
    match producer.next_match(pos, position) {
        Ok(Some(found)) => Some(Ok(found)),
        Ok(None) => {
            *position = None;
            None
        }
        Err(refused) => {
            *position = None;
            Some(Err(refused))
        }
    }
}

/// A law: after a match at the end of the text, which is empty, the next call returns `None`.
/// Statement: `specs/RemainingAnswers`.
pub fn match_at_text_end_is_last()
    ensures { EndsAtTextEnd }
{}
