//! Iterates over matches within a work limit.

ghost use Rattle.std.specs.Prelude.{◌≡◌, ℕ, true, Option, Some, None, option_map, not};
ghost use Rattle.std.specs.Iterator.{at_most};
ghost use Rattle.std.specs.Option.{ForSome};
ghost use Rattle.regex_meaning.specs.{CodeUnitOffsets.{IsBoundary, IsBoundaryOrPastEnd, is_past, offset_within, units}, StepBudget.{answers_within, finishes_within}};
ghost use Rattle.regress_search.specs.RemainingAnswers.{remaining_answers_from, max_items_left};
ghost use Rattle.regress_search.specs.MatchesWithinWork.{IsWorkLimitOrMemoryCause, is_work_enough};
ghost use Rattle.regress_search.specs.CostsOfCalls.{NextYieldsAtCost, WorkMatchesView};

use super::{Match, MatchProducer, advance_matches};
use std::marker::Model;
use thiserror::Error;

/// Why a search with a work limit failed.
#[derive(Clone, Copy, Debug, PartialEq, Eq, Error)]
pub enum WorkError {
    /// An allocation failed.
    #[error("out of memory")]
    Memory,
    /// The work limit is reached.
    #[error("the work limit is reached")]
    WorkLimit,
}

/// A producer of matches with a work limit. In contracts, `left` is the work that is left, which
/// never increases; `costs` are the costs of attempts; `enough` says whether the work left
/// suffices for attempts in ascending order of offsets (see `SearchState`).
pub trait WorkLimitedProducer: MatchProducer {
    /// Returns the work that is left.
    fn work_left(&self) -> u64
        ensures { result ≡ Self.left self.now };

    /// Checks whether the last attempt needed more work than was left. If so, no work is left.
    fn is_work_exhausted(&self) -> bool
        ensures limit { result ≡ Self.out_of_work self.now }
        ensures spent { result ≡ true → Self.left self.now ≡ 0 };

    ghost is_counted: { Self.counts_work ≡ true };
}

/// An iterator over the matches of a pattern in a text, within a work limit. Contracts see the
/// answers still to come, the work that is left, whether it suffices for all of them, and what
/// determines the cost of the next call.
#[derive(Drop)]
pub struct WorkMatches<P: WorkLimitedProducer> {
    producer: P,
    position: Option<P::Position>,
}

impl<P: WorkLimitedProducer> Model for WorkMatches<P> {
    ghost Value = { WorkMatchesView P };

    ghost view = { λ m. record {
      remaining = remaining_answers_from (P.tree m.producer) (P.text m.producer) (P.budget m.producer)
          (option_map P.Position.offset m.position) (P.out_of_steps m.producer);
      left = P.left m.producer;
      enough = is_work_enough (P.enough m.producer) (P.ahead m.producer) (option_map P.Position.offset m.position);
      producer = m.producer;
      position = option_map P.Position.offset m.position;
    } };

    ghost invariant = { λ m. ForSome m.position (λ p. IsBoundary (P.text m.producer) (P.Position.offset p)) };
}

impl<P: WorkLimitedProducer> WorkMatches<P> {
    /// Creates an iterator over the matches at `start` or later. `start` is an offset in code
    /// units. It is a boundary, or past the end of the text, where there are no matches.
    ///
    /// The clauses `answers` and `limited` say which matches the iterator returns, and whether the
    /// step limit cuts them off. The clauses `left` and `enough` say how much work is left, and
    /// whether it suffices. The other clauses say where the iterator is and what its producer has.
    pub fn new(producer: P, start: usize) -> Self
        requires { IsBoundaryOrPastEnd (P.text producer) start }
        ensures answers { result.remaining.answers
            ≡ answers_within (P.tree producer) (P.text producer) (P.budget producer) start }
        ensures limited { result.remaining.limited
            ≡ not (finishes_within (P.tree producer) (P.text producer) (P.budget producer) start) }
        ensures ended { result.remaining.ended ≡ is_past start (units (P.text producer)) }
        ensures left { result.left ≡ P.left producer }
        ensures enough { result.enough ≡ is_work_enough (P.enough producer) (P.ahead producer)
            (offset_within (P.text producer) start) }
        ensures text_end { result.remaining.text_end ≡ units (P.text producer) }
        ensures tree { P.tree result.producer ≡ P.tree producer }
        ensures text { P.text result.producer ≡ P.text producer }
        ensures failures { P.failures result.producer ≡ P.failures producer }
        ensures position { result.position ≡ offset_within (P.text producer) start }
    {
        let position = producer.initial_position(start);
        WorkMatches { producer, position }
    }

    /// Returns the work that is left.
    pub fn work_left(&self) -> u64
        ensures { result ≡ self.now.left }
    {
        self.producer.work_left()
    }
}

impl<P: WorkLimitedProducer + Drop> Iterator for WorkMatches<P> {
    type Item = Result<Match, WorkError>;

    ghost next_gives = { NextYieldsAtCost P.costs P.tree P.text P.failures };

    ghost remaining = { λ s. at_most (max_items_left s.remaining) };

    /// Returns the next match. After the last match and after an error, it returns `None`.
    fn next(&mut self) -> Option<Result<Match, WorkError>> {
        match advance_matches(&mut self.producer, &mut self.position)? {
            Ok(found) => Some(Ok(found)),
            Err(_) => Some(Err(cause_of_work_error(&self.producer))),
        }
    }
}

// Returns the cause of the last search's error: the work limit if it was reached, and otherwise a
// failed allocation.
fn cause_of_work_error<P: WorkLimitedProducer>(producer: &P) -> WorkError
    ensures { IsWorkLimitOrMemoryCause result (P.out_of_work producer.now) (P.left producer.now) }
{
    if producer.is_work_exhausted() {
        WorkError::WorkLimit
    } else {
        WorkError::Memory
    }
}
