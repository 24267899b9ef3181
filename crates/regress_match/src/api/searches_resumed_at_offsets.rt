//! Searches that resume at an offset, for callers that cannot hold an iterator between two matches.

ghost use Rattle.std.specs.Prelude.{◌≡◌, ◌<◌, IfErr, IfOk, IfSome, None, Some, option_map, unwrap_or};
ghost use Rattle.regex_meaning.specs.CodeUnitOffsets.{offset_within, units, IsBoundaryOrPastEnd};
ghost use Rattle.regress_match.specs.ProgramTreesAndAnswers.{units_as_ucs2_text, units_as_utf16_text, bytes_as_utf8_text, tree_for_byte_units, tree_for_16_bit_units};
ghost use Rattle.regress_search.specs.CostsOfSearches.{IfWorkIsCounted, SearchCosts, SpendsExactCost};
ghost use Rattle.regress_match.specs.{CompileErrors.{IsOutOfMemory}, Resuming.{IsResultOfNextFrom, offset_after_first_match}};

use crate::api::{Match, Regex, SearchError};
use crate::executor_aliases::{
    DefaultExecutor, DefaultUcs2Executor, DefaultUtf16Executor, LimitedExecutor,
    WorkLimitedExecutor,
};
use regress_input::indexing::{InputIndexer, Ucs2Input, Utf8Input, Utf16Input};
use regress_search::exec::{MatchProducer, ProducerFromProgramAndText, SearchState};
use regress_search::search_loop::SingleAttemptExecutor;

/// A match, and the offset from which the list of matches continues after it.
#[derive(Debug, Drop)]
pub struct MatchAndNext {
    /// The match.
    pub found: Match,
    /// The offset in units from which the list continues. If the list ends, it is past the end of
    /// the text.
    pub next: usize,
}

impl Regex {
    /// Returns a search for the matches in a UTF-8 text. `next_from` finds them one after another.
    ///
    /// # Errors
    ///
    /// `Memory` if an allocation for the search fails.
    pub fn utf8_search<'r, 't>(
        &'r self,
        text: &'t str,
    ) -> Result<DefaultExecutor<'r, 't>, SearchError>
        ensures tree { IfOk result (λ e. ⟦<DefaultExecutor<'r, 't> as SearchState>⟧.tree e ≡
            tree_for_byte_units self.now) }
        ensures text { IfOk result (λ e. ⟦<DefaultExecutor<'r, 't> as SearchState>⟧.text e
            ≡ bytes_as_utf8_text self.now text.now) }
        ensures budget { IfOk result (λ e. ⟦<DefaultExecutor<'r, 't> as SearchState>⟧.budget e ≡ None) }
        ensures refused { IfErr result IsOutOfMemory }
    {
        Ok(DefaultExecutor::new(self.byte_program(), text)?)
    }

    /// Like `utf8_search`, but all calls together take at most `steps` steps. The search's
    /// `steps_left` returns how many are left.
    ///
    /// # Errors
    ///
    /// `Memory` if an allocation for the search fails.
    pub fn utf8_search_limited<'r, 't>(
        &'r self,
        text: &'t str,
        steps: u64,
    ) -> Result<LimitedExecutor<'r, 't>, SearchError>
        ensures tree { IfOk result (λ e. ⟦<LimitedExecutor<'r, 't> as SearchState>⟧.tree e ≡
            tree_for_byte_units self.now) }
        ensures text { IfOk result (λ e. ⟦<LimitedExecutor<'r, 't> as SearchState>⟧.text e
            ≡ bytes_as_utf8_text self.now text.now) }
        ensures budget { IfOk result (λ e. ⟦<LimitedExecutor<'r, 't> as SearchState>⟧.budget e ≡ Some steps) }
        ensures refused { IfErr result IsOutOfMemory }
    {
        Ok(LimitedExecutor::new(self.byte_program(), text, steps)?)
    }

    /// Like `utf8_search`, but all calls together take at most `work` units of work
    /// (`find_from_in_work` says what a unit is). The search's `work_left` returns how many are
    /// left.
    ///
    /// If `next_from` needs more than are left, it returns `Memory`, and no work is left. After
    /// such an error, `is_work_exhausted` tells whether the work limit was reached.
    ///
    /// # Errors
    ///
    /// `Memory` if an allocation for the search fails.
    pub fn utf8_search_in_work<'r, 't>(
        &'r self,
        text: &'t str,
        work: u64,
    ) -> Result<WorkLimitedExecutor<'r, Utf8Input<'t>>, SearchError>
        ensures tree { IfOk result (λ e. ⟦<WorkLimitedExecutor<'r, Utf8Input<'t>> as SearchState>⟧.tree e ≡
            tree_for_byte_units self.now) }
        ensures text { IfOk result (λ e. ⟦<WorkLimitedExecutor<'r, Utf8Input<'t>> as SearchState>⟧.text e
            ≡ bytes_as_utf8_text self.now text.now) }
        ensures left { IfOk result (λ e. ⟦<WorkLimitedExecutor<'r, Utf8Input<'t>> as SearchState>⟧.left e ≡ work) }
        ensures refused { IfErr result IsOutOfMemory }
    {
        Ok(WorkLimitedExecutor::<Utf8Input>::new(self.byte_program(), text, work)?)
    }

    /// Returns a search for the matches in a UTF-16 text. `next_from` finds them one after another.
    ///
    /// # Errors
    ///
    /// `Memory` if an allocation for the search fails.
    pub fn utf16_search<'r, 't>(
        &'r self,
        text: &'t [u16],
    ) -> Result<DefaultUtf16Executor<'r, 't>, SearchError>
        ensures tree { IfOk result (λ e. ⟦<DefaultUtf16Executor<'r, 't> as SearchState>⟧.tree e
            ≡ tree_for_16_bit_units self.now) }
        ensures text { IfOk result (λ e. ⟦<DefaultUtf16Executor<'r, 't> as SearchState>⟧.text e
            ≡ units_as_utf16_text self.now text.now) }
        ensures budget { IfOk result (λ e. ⟦<DefaultUtf16Executor<'r, 't> as SearchState>⟧.budget e ≡ None) }
        ensures refused { IfErr result IsOutOfMemory }
    {
        Ok(DefaultUtf16Executor::new_utf16(self.unit_program(), text)?)
    }

    /// Like `utf16_search`, but all calls together take at most `work` units of work, as in
    /// `utf8_search_in_work`.
    ///
    /// # Errors
    ///
    /// `Memory` if an allocation for the search fails.
    pub fn utf16_search_in_work<'r, 't>(
        &'r self,
        text: &'t [u16],
        work: u64,
    ) -> Result<WorkLimitedExecutor<'r, Utf16Input<'t>>, SearchError>
        ensures tree { IfOk result (λ e. ⟦<WorkLimitedExecutor<'r, Utf16Input<'t>> as SearchState>⟧.tree e
            ≡ tree_for_16_bit_units self.now) }
        ensures text { IfOk result (λ e. ⟦<WorkLimitedExecutor<'r, Utf16Input<'t>> as SearchState>⟧.text e
            ≡ units_as_utf16_text self.now text.now) }
        ensures left { IfOk result (λ e. ⟦<WorkLimitedExecutor<'r, Utf16Input<'t>> as SearchState>⟧.left e
            ≡ work) }
        ensures refused { IfErr result IsOutOfMemory }
    {
        Ok(WorkLimitedExecutor::<Utf16Input>::new_utf16(self.unit_program(), text, work)?)
    }

    /// Returns a search for the matches in a UCS-2 text. `next_from` finds them one after another.
    ///
    /// # Errors
    ///
    /// `Memory` if an allocation for the search fails.
    pub fn ucs2_search<'r, 't>(
        &'r self,
        text: &'t [u16],
    ) -> Result<DefaultUcs2Executor<'r, 't>, SearchError>
        ensures tree { IfOk result (λ e. ⟦<DefaultUcs2Executor<'r, 't> as SearchState>⟧.tree e ≡
            tree_for_16_bit_units self.now) }
        ensures text { IfOk result (λ e. ⟦<DefaultUcs2Executor<'r, 't> as SearchState>⟧.text e
            ≡ units_as_ucs2_text self.now text.now) }
        ensures budget { IfOk result (λ e. ⟦<DefaultUcs2Executor<'r, 't> as SearchState>⟧.budget e ≡ None) }
        ensures refused { IfErr result IsOutOfMemory }
    {
        Ok(DefaultUcs2Executor::new_ucs2(self.unit_program(), text)?)
    }

    /// Like `ucs2_search`, but all calls together take at most `work` units of work, as in
    /// `utf8_search_in_work`.
    ///
    /// # Errors
    ///
    /// `Memory` if an allocation for the search fails.
    pub fn ucs2_search_in_work<'r, 't>(
        &'r self,
        text: &'t [u16],
        work: u64,
    ) -> Result<WorkLimitedExecutor<'r, Ucs2Input<'t>>, SearchError>
        ensures tree { IfOk result (λ e. ⟦<WorkLimitedExecutor<'r, Ucs2Input<'t>> as SearchState>⟧.tree e
            ≡ tree_for_16_bit_units self.now) }
        ensures text { IfOk result (λ e. ⟦<WorkLimitedExecutor<'r, Ucs2Input<'t>> as SearchState>⟧.text e
            ≡ units_as_ucs2_text self.now text.now) }
        ensures left { IfOk result (λ e. ⟦<WorkLimitedExecutor<'r, Ucs2Input<'t>> as SearchState>⟧.left e
            ≡ work) }
        ensures refused { IfErr result IsOutOfMemory }
    {
        Ok(WorkLimitedExecutor::<Ucs2Input>::new_ucs2(self.unit_program(), text, work)?)
    }
}

/// Returns the first match from `start` on, and the offset at which the list of matches continues.
/// `start` is an offset in units. It is a boundary or past the end.
///
/// Within the steps that are left, the list of matches from `start` is this match, followed by the
/// list from `next` within the steps that are left after the call. Returns `None` exactly if no
/// match remains. So calls that each start at the `next` of the call before return what an iterator
/// yields, and no iterator has to be held between them.
///
/// A call takes exactly the steps that are needed to find the match, or to find that there is none.
/// Past the end of the text, it takes none. The clause `cost` says the same of work, if the search
/// counts work.
///
/// # Errors
///
/// - `StepLimit` if more steps are needed than are left; then none is left.
/// - `Memory` if an allocation for the search fails, or if more work is needed than is left. What
///   was taken until then stays spent.
pub fn next_from<E: SingleAttemptExecutor>(
    search: &mut E,
    start: usize,
) -> Result<Option<MatchAndNext>, SearchError>
    requires { IsBoundaryOrPastEnd (E.text search.old) start }
    ensures continues { IsResultOfNextFrom (E.tree search.old) (E.text search.old) (E.budget search.old) start result
        (E.budget search.new) }
    ensures next { IfOk result (λ s. IfSome s (λ step. step.next
        ≡ offset_after_first_match (E.tree search.old) (E.text search.old) start)) }
    ensures cost { let costs = SearchCosts E.costs (E.tree search.old) (E.text search.old)
        (E.failures search.old) (offset_within (E.text search.old) start) in
        IfWorkIsCounted E.counts_work (SpendsExactCost costs (E.left search.old) result (E.out_of_work search.new)
        (E.left search.new) (E.failures search.new)) }
    ensures same_tree { E.tree search.new ≡ E.tree search.old }
    ensures same_text { E.text search.new ≡ E.text search.old }
{
    let Some(pos) = search.initial_position(start) else {
        return Ok(None);
    };
    let mut next = None;
    let Some(found) = search.next_match(pos, &mut next)? else {
        return Ok(None);
    };
    let next = offset_of_position(search, next);
    Ok(Some(MatchAndNext { found, next }))
}

// Returns the offset of a position. If there is none, returns `usize::MAX`, which is past the end
// of every text.
fn offset_of_position<E: SingleAttemptExecutor>(
    search: &E,
    position: Option<<E::Input as InputIndexer>::Position>,
) -> usize
    ensures offset { result ≡ unwrap_or (option_map E.Input.Position.offset position) usize.MAX }
    ensures fits { units (E.text search.now) < usize.MAX }
{
    let input = search.input();
    match position {
        Some(position) => input.pos_to_offset(position),
        None => usize::MAX,
    }
}
