//! The search loop over the candidate starts of a text, shared by all executors.

ghost use Rattle.std.specs.Option.{ForSome};
ghost use Rattle.std.specs.Prelude.{◌≡◌, ◌+◌, ◌≤◌, ℕ, ⊤, false, IfErr, IfOk, IsSome, Some, map, option_map, length};
ghost use Rattle.regex_meaning.specs.{CodeUnitOffsets.{HasRisingPlaceOffsets, IsBoundary, IsBoundaryOrPastEnd, units}, SearchAnswers.{answer_at}};
ghost use Rattle.regex_meaning.specs.{Outcomes.{Groups, group_range}, MatchGroupsByNumberAndName.{group_names_by_id}};
ghost use Rattle.regex_pattern_front.specs.AstToSpecTree.{tree_of};
ghost use Rattle.regress_search.specs.MatchesAsSpecAnswers.{answer_from_parts, answer_of, range_as_pair};
ghost use Rattle.regress_search.specs.AttemptsAndStarts.{NextStartSkipsNoMatch, NoMatchAt, end_with_groups, match_end_and_groups_at, first_filtered_start, next_filtered_start, next_search_offset};
ghost use Rattle.regress_search.specs.AttemptsAndStarts.{ticks_of_attempt_at};
ghost use Rattle.regress_search.specs.OffsetRangeOfPositions.{offset_range_of_positions};
ghost use Rattle.regress_search.specs.SearchEffects.{SpendsNeedOrReachesLimit, AllocFailureCostsAStep, TellsIfStepLimitReached, cause_of_error};
ghost use Rattle.regress_search.specs.MatchesWithinWork.{AttemptKeepsWorkEnough};
ghost use Rattle.regress_search.specs.CostsOfSearches.{IfWorkIsCounted, next_attempt_offset};
ghost use Rattle.regress_search.specs.EffectsOnSearchState.{AttemptTakesItsCost, SkipsAndPays};

use crate::exec::{Match, MatchProducer, SearchError, SearchState};
use regress_input::indexing::InputIndexer;
use regress_input::position::PositionType;
use regress_program::insn::Program;
use std::alloc::AllocError;
use std::ops::Range;

/// An executor that tries one start position at a time.
///
/// If steps are counted, only the positions that the start predicate admits are tried. If work is
/// counted, each position is tried, or skipped and paid for.
pub trait SingleAttemptExecutor: SearchState {
    /// The text that is searched.
    type Input: InputIndexer;

    // Whether the last attempt had begun. Beginning also allocates memory.
    ghost has_begun: { Self → Type 0 } = { λ _. ⊤ };

    // The groups of the last attempt that found an end.
    ghost groups: { Self → Groups };

    /// Returns the program that is run.
    fn program(&self) -> &Program
        ensures { tree_of result.now ≡ Self.tree self.now };

    /// Returns the input that is read.
    fn input(&self) -> &Self::Input
        ensures { Self.Input.text result.now ≡ Self.text self.now };

    /// Returns the end of the match of highest priority that begins at `pos`. After that, `group`
    /// returns its groups.
    ///
    /// The clause `found` says which end and groups are found. The clauses `steps`, `begun` and
    /// `cause` say which steps are spent and which error is returned. The clauses `work`, `left`,
    /// `within` and `cost` say whether the work limit suffices and how much work is taken, and
    /// `same` says that the tree and the text stay the same.
    ///
    /// # Errors
    ///
    /// Returns `StepLimit` if the attempt needs more steps than are left; then no steps are left.
    /// Returns `Memory` if an allocation fails; the steps taken before that are spent, at least one
    /// if the attempt had begun.
    fn attempt(
        &mut self,
        pos: <Self::Input as InputIndexer>::Position,
    ) -> Result<Option<<Self::Input as InputIndexer>::Position>, SearchError>
        requires { IsBoundary (Self.text self.old) (Self.Input.Position.offset pos) }
        ensures found { let at = Self.Input.Position.offset in IfOk result (λ end.
            end_with_groups at end (groups self.new) ≡ match_end_and_groups_at (Self.tree self.old)
            (Self.text self.old) (at pos)) }
        ensures steps { let ticks = ticks_of_attempt_at (Self.tree self.old) (Self.text self.old) in
            SpendsNeedOrReachesLimit (ticks (Self.Input.Position.offset pos)) (Self.budget self.old) result
            (Self.budget self.new) }
        ensures begun { AllocFailureCostsAStep (has_begun self.new) (Self.budget self.old) result
            (Self.budget self.new) }
        ensures cause { TellsIfStepLimitReached result (Self.out_of_steps self.new) }
        ensures work { let at = Self.Input.Position.offset in AttemptKeepsWorkEnough at (Self.enough self.old)
            (Self.ahead self.old) (at pos) result (Self.enough self.new) (Self.ahead self.new)
            (Self.out_of_work self.new) }
        ensures left { Self.left self.new ≤ Self.left self.old }
        ensures within { IfWorkIsCounted Self.counts_work (IfOk result (λ _. Self.out_of_work self.new ≡ false)) }
        ensures cost { AttemptTakesItsCost Self.SearchState self.old (Self.Input.Position.offset pos) result self.new }
        ensures same { (Self.tree self.new ≡ Self.tree self.old) × (Self.text self.new ≡ Self.text self.old) };

    /// Returns the number of groups of the last attempt that found an end.
    fn group_count(&self) -> usize
        ensures { result ≡ length (groups self.now) };

    /// Returns the range of a group in the last attempt that found an end, or `None` if it did not
    /// match.
    fn group(
        &self,
        id: usize,
    ) -> Option<
        (
            <Self::Input as InputIndexer>::Position,
            <Self::Input as InputIndexer>::Position,
        ),
    >
        ensures { option_map (offset_range_of_positions Self.Input.Position.offset) result
            ≡ group_range (groups self.now) id };

    /// Returns the first position to try at a given position or later. No match begins before it.
    /// Returns `None` if no match begins at the given position or later.
    ///
    /// If steps are counted, `counted` says which position this is. If work is counted,
    /// `next_if_work_counted` says that it is the given position.
    fn first_start_to_try_from(
        &self,
        pos: <Self::Input as InputIndexer>::Position,
    ) -> Option<<Self::Input as InputIndexer>::Position>
        requires { IsBoundary (Self.text self.now) (Self.Input.Position.offset pos) }
        ensures next { let at = Self.Input.Position.offset in
            NextStartSkipsNoMatch (Self.tree self.now) (Self.text self.now) (at pos) (option_map at result) }
        ensures counted { let at = Self.Input.Position.offset in IsSome (Self.budget self.now)
            → option_map at result ≡ first_filtered_start (Self.tree self.now) (Self.text self.now) (at pos) }
        ensures next_if_work_counted { let at = Self.Input.Position.offset in
            IfWorkIsCounted Self.counts_work (option_map at result ≡ Some (at pos)) };

    /// Returns the next position to try after one at which no match begins. No match begins in
    /// between. Returns `None` if no match begins later.
    ///
    /// If steps are counted, `counted` says which position this is. If work is counted,
    /// `next_if_work_counted` says that it is the position one character further, or `None` at the
    /// end of the text or if the pattern matches only at its left end.
    fn next_start_after_failure(
        &self,
        tried: <Self::Input as InputIndexer>::Position,
    ) -> Option<<Self::Input as InputIndexer>::Position>
        requires at { IsBoundary (Self.text self.now) (Self.Input.Position.offset tried) }
        requires no_match { NoMatchAt (Self.tree self.now) (Self.text self.now) (Self.Input.Position.offset tried) }
        ensures next { let at = Self.Input.Position.offset in
            NextStartSkipsNoMatch (Self.tree self.now) (Self.text self.now) (at tried + 1) (option_map at result) }
        ensures counted { let at = Self.Input.Position.offset in IsSome (Self.budget self.now)
            → option_map at result ≡ next_filtered_start (Self.tree self.now) (Self.text self.now) (at tried) }
        ensures next_if_work_counted { let at = Self.Input.Position.offset in IfWorkIsCounted Self.counts_work
            (option_map at result ≡ next_attempt_offset (Self.tree self.now) (Self.text self.now) (at tried)) };

    /// Returns the next position to try at a given position or later, and pays for the code units
    /// that it skips. No match begins before the result. Returns `None` if no match begins at the
    /// given position or later.
    ///
    /// An executor that does not pay for skips, or that counts steps, returns the given position.
    /// The clause `effect` says what the skip costs and what it leaves unchanged.
    ///
    /// # Errors
    ///
    /// Returns `Err` if the skip costs more work than is left. `refused` and `paid` of `effect` say
    /// that it is for no other reason.
    fn skip_to_candidate(
        &mut self,
        from: <Self::Input as InputIndexer>::Position,
    ) -> Result<Option<<Self::Input as InputIndexer>::Position>, SearchError>
        requires { IsBoundary (Self.text self.old) (Self.Input.Position.offset from) }
        ensures next { let at = Self.Input.Position.offset in IfOk result (λ to.
            NextStartSkipsNoMatch (Self.tree self.old) (Self.text self.old) (at from) (option_map at to)) }
        ensures effect { SkipsAndPays Self.SearchState Self.Input.Position.offset (Some from) self.old result self.new }
    {
        Ok(Some(from))
    }

    /// Returns the next position to try after `tried`, at which no match begins, and pays for the
    /// code units that it skips. `next` is what `next_start_after_failure` returned for `tried`. No
    /// match begins between `next` and the result. Returns `None` if no match begins at `next` or
    /// later.
    ///
    /// Unless an executor can use that no match begins at `tried`, this is `skip_to_candidate` of
    /// `next`. The clause `effect` is that of `skip_to_candidate`.
    ///
    /// # Errors
    ///
    /// Returns `Err` if the skip costs more work than is left.
    fn skip_after_failure(
        &mut self,
        tried: <Self::Input as InputIndexer>::Position,
        next: <Self::Input as InputIndexer>::Position,
    ) -> Result<Option<<Self::Input as InputIndexer>::Position>, SearchError>
        requires at { IsBoundary (Self.text self.old) (Self.Input.Position.offset tried) }
        requires no_match { NoMatchAt (Self.tree self.old) (Self.text self.old) (Self.Input.Position.offset tried) }
        requires next { let at = Self.Input.Position.offset in
            NextStartSkipsNoMatch (Self.tree self.old) (Self.text self.old) (at tried + 1) (Some (at next)) }
        ensures next { let at = Self.Input.Position.offset in IfOk result (λ to.
            NextStartSkipsNoMatch (Self.tree self.old) (Self.text self.old) (at next) (option_map at to)) }
        ensures effect { SkipsAndPays Self.SearchState Self.Input.Position.offset (Some next) self.old result self.new }
    {
        self.skip_to_candidate(next)
    }

    ghost is_text: { (it : Self) → HasRisingPlaceOffsets (Self.text it) };
}

/// Returns the range of a group by id. Returns `None` if the group did not match or does not exist.
#[inline(always)]
pub fn position_range_of_group<P: PositionType>(
    groups: &[Option<(P, P)>],
    id: usize,
) -> Option<(P, P)>
    ensures { option_map (offset_range_of_positions P.offset) result
        ≡ group_range (map (option_map (offset_range_of_positions P.offset)) groups.now) id }
{
    match groups.get(id) {
        Some(range) => *range,
        None => None,
    }
}

// Returns a group's range in offsets.
fn range_in_offsets<Input: InputIndexer>(
    input: &Input,
    range: Option<(Input::Position, Input::Position)>,
) -> Option<Range<usize>>
    ensures { option_map range_as_pair result ≡ option_map (offset_range_of_positions Input.Position.offset) range }
{
    match range {
        None => None,
        Some((start, end)) => Some(input.pos_to_offset(start)..input.pos_to_offset(end)),
    }
}

// Returns the groups of the last attempt that found an end, in offsets.
fn captures_of<A: SingleAttemptExecutor>(
    executor: &A,
) -> Result<Vec<Option<Range<usize>>>, AllocError>
    ensures { IfOk result (λ v. map (option_map range_as_pair) v.items ≡ A.groups executor.now) }
{
    let input = executor.input();
    let count = executor.group_count();
    let mut captures = Vec::with_capacity(executor.program().allocator(), count)?;
    for id in 0..count {
        captures.push(range_in_offsets(input, executor.group(id)))?;
    }
    Ok(captures)
}

// Returns the match between two positions, with the groups of the last attempt.
#[inline(always)]
fn successful_match<A: SingleAttemptExecutor>(
    executor: &A,
    start: <A::Input as InputIndexer>::Position,
    end: <A::Input as InputIndexer>::Position,
) -> Result<Match, AllocError>
    ensures { let at = A.Input.Position.offset in IfOk result (λ m. answer_of m
        ≡ answer_from_parts (at start) (at end) (A.groups executor.now)
        (group_names_by_id (A.tree executor.now).root)) }
{
    let captures = captures_of(executor)?;
    let names = executor.program().shared_names().clone()?;
    let input = executor.input();
    let range = input.pos_to_offset(start)..input.pos_to_offset(end);
    Ok(Match::from_parts_with_shared_names(range, captures, names))
}

// Returns the position at which the list of matches continues after a match. It is the end of the
// match, or one character further if the match is empty.
fn next_search_pos<Input: InputIndexer>(
    input: &Input,
    start: Input::Position,
    end: Input::Position,
) -> Option<Input::Position>
    requires { IsBoundary (Input.text input.now) (Input.Position.offset end) }
    ensures { let at = Input.Position.offset in
        option_map at result ≡ next_search_offset (Input.text input.now) (at start) (at end) }
{
    if input.pos_to_offset(start) < input.pos_to_offset(end) {
        Some(end)
    } else {
        input.next_right_pos(end)
    }
}

// Returns the next position to try at `next` or later, and pays for the code units that it skips.
// Returns `Err` if the skip costs more work than is left.
#[inline(always)]
fn skip_from<A: SingleAttemptExecutor>(
    executor: &mut A,
    next: Option<<A::Input as InputIndexer>::Position>,
) -> Result<Option<<A::Input as InputIndexer>::Position>, SearchError>
    requires { ForSome next (λ p. IsBoundary (A.text executor.old) (A.Input.Position.offset p)) }
    ensures next { let at = A.Input.Position.offset in IfOk result (λ to. (from : ℕ)
        → NextStartSkipsNoMatch (A.tree executor.old) (A.text executor.old) from (option_map at next)
        → NextStartSkipsNoMatch (A.tree executor.old) (A.text executor.old) from (option_map at to)) }
    ensures candidate { let at = A.Input.Position.offset in IfOk result (λ to. ForSome next (λ p.
        NextStartSkipsNoMatch (A.tree executor.old) (A.text executor.old) (at p) (option_map at to))) }
    ensures effect { SkipsAndPays A.SearchState A.Input.Position.offset next executor.old result executor.new }
{
    let Some(from) = next else {
        return Ok(None);
    };
    executor.skip_to_candidate(from)
}

// Does what `skip_from` does, after a failed attempt at `tried`. `next` is what
// `next_start_after_failure` returned.
#[inline(always)]
fn skip_from_failed<A: SingleAttemptExecutor>(
    executor: &mut A,
    tried: <A::Input as InputIndexer>::Position,
    next: Option<<A::Input as InputIndexer>::Position>,
) -> Result<Option<<A::Input as InputIndexer>::Position>, SearchError>
    requires at { IsBoundary (A.text executor.old) (A.Input.Position.offset tried) }
    requires no_match { NoMatchAt (A.tree executor.old) (A.text executor.old) (A.Input.Position.offset tried) }
    requires next { let at = A.Input.Position.offset in
        NextStartSkipsNoMatch (A.tree executor.old) (A.text executor.old) (at tried + 1) (option_map at next) }
    ensures next { let at = A.Input.Position.offset in IfOk result (λ to.
        NextStartSkipsNoMatch (A.tree executor.old) (A.text executor.old) (at tried + 1) (option_map at to)) }
    ensures candidate { let at = A.Input.Position.offset in IfOk result (λ to. ForSome next (λ p.
        NextStartSkipsNoMatch (A.tree executor.old) (A.text executor.old) (at p) (option_map at to))) }
    ensures effect { SkipsAndPays A.SearchState A.Input.Position.offset next executor.old result executor.new }
{
    let Some(from) = next else {
        return Ok(None);
    };
    executor.skip_after_failure(tried, from)
}

impl<A: SingleAttemptExecutor> MatchProducer for A {
    type Position = <A::Input as InputIndexer>::Position;

    ghost is_text = { A.is_text };

    fn initial_position(&self, offset: usize) -> Option<<A::Input as InputIndexer>::Position> {
        let input = self.input();
        input.try_move_right(input.left_end(), offset)
    }

    // It has two callers in the library for C, so without the attribute it is a call there.
    #[inline(always)]
    fn next_match(
        &mut self,
        pos: <A::Input as InputIndexer>::Position,
        next_start: &mut Option<<A::Input as InputIndexer>::Position>,
    ) -> Result<Option<Match>, SearchError> {
        let first = self.first_start_to_try_from(pos);
        let mut next = skip_from(self, first)?;
        'places: while let Some(start) = next {
            if let Some(end) = self.attempt(start)? {
                let found = successful_match(self, start, end)?;
                *next_start = next_search_pos(self.input(), start, end);
                return Ok(Some(found));
            }
            let further = self.next_start_after_failure(start);
            next = skip_from_failed(self, start, further)?;
        }
        Ok(None)
    }
}

/// Returns the match of highest priority that begins at an offset in code units. The offset is a
/// boundary, or past the end of the text. Returns `None` if no match begins there. It tries no
/// other offset, so it takes the steps of one attempt.
///
/// # Errors
///
/// Returns `StepLimit` if the attempt needs more steps than are left; then no steps are left.
/// Returns `Memory` if an allocation fails; the steps taken before that are spent.
pub fn match_at<A: SingleAttemptExecutor>(
    executor: &mut A,
    at: usize,
) -> Result<Option<Match>, SearchError>
    requires { IsBoundaryOrPastEnd (A.text executor.old) at }
    ensures found { IfOk result (λ m. option_map answer_of m
        ≡ answer_at (A.tree executor.old).root (A.text executor.old) at) }
    ensures steps { SpendsNeedOrReachesLimit (ticks_of_attempt_at (A.tree executor.old) (A.text executor.old) at)
        (A.budget executor.old) result (A.budget executor.new) }
    ensures cause { IfErr result (λ e. e ≡ cause_of_error (A.out_of_steps executor.new)) }
{
    let Some(start) = executor.initial_position(at) else {
        return Ok(None);
    };
    let Some(end) = executor.attempt(start)? else {
        return Ok(None);
    };
    let found = successful_match(executor, start, end)?;
    Ok(Some(found))
}
