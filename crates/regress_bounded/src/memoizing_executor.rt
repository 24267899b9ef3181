//! The memoizing executor. It copies its states, and remembers each failure from its first attempt
//! on.

ghost use Rattle.std.specs.Prelude.{◌≡◌, ◌≤◌, ◌<◌, ◌^◌, ◌*◌, ◌+◌, nat_le, not, IfErr, IfOk, IsAscii, None, Some, [], false, refl, true};
ghost use Rattle.std.proofs.Props.{props};
ghost use Rattle.regex_meaning.specs.{CodeUnitOffsets.{IsBoundary, units}};
ghost use Rattle.regex_pattern_front.specs.AstToSpecTree.{tree_of};
ghost use Rattle.regress_search.specs.{AttemptsAndStarts.{end_with_groups, match_end_and_groups_at}, CostsOfSearches.{SpendsExactCost}};
ghost use Rattle.regress_search.specs.{MatchesWithinWork.{AttemptKeepsWorkEnough, least_offset_after_match}};
ghost use Rattle.std.specs.Arc.{arc_value};
ghost use Rattle.regress_search.specs.declared.exec.SearchError.TheVariants.{Memory};
ghost use Rattle.regress_program.specs.CompilationOfTreesAsFunction.{compiled};
ghost use Rattle.regress_pikevm.specs.{InsnEffects.{end_and_groups}, States.{groups_as_offset_ranges}};
ghost use Rattle.regress_bounded.specs.WorkBoundForAllMatches.{TreeHasWorkBound, second_stage_work_per_position};
ghost use Rattle.regress_bounded.specs.BoundedState.{BoundedAttempt, BoundedAttemptBegins, IsMemoRightForRegex, AttemptHasState, HasAttemptState, AttemptResultIs, entry_of_current_thread};
ghost use Rattle.regress_bounded.specs.WorkOfSuccessiveAttempts.{AttemptsLeaveEnoughWork};
ghost use Rattle.regress_bounded.specs.CostsOfAttempts.{NoFailuresAreKnown, AttemptCosts, failures_of};

use crate::memo_and_work_budget::{AttemptAbortReason, MemoAndWorkBudget};
use crate::pending_stack::StackEntry;
use crate::thread_steps_and_backtracking::{
    StepResult, backtrack_to_pending_entry, execute_thread_step,
};
use crate::work_bound::WorkBound;
use regress_input::indexing::InputIndexer;
use regress_input::position::PositionType;
use regress_pikevm::pikevm::states::{State, initial_state};
use regress_search::exec::SearchError;
use regress_search::program_and_input::ProgramAndInput;

/// Searches a text with a program that has a work bound. A limited amount of work is shared by all
/// matches.
///
/// A unit of work is a step of a thread, a backtrack to a pending entry, a thread that is dropped
/// because it is known to fail, a character that a char loop tests, or a record that is reached
/// (`CostsOfSearchEvents`). Copying states and passing over positions are not counted.
///
/// It is the second stage of a `BoundedExecutor`.
#[derive(Drop)]
pub(crate) struct MemoizingExecutor<'r, Input: InputIndexer> {
    pub(crate) searched: ProgramAndInput<'r, Input>,
    // The pending entries. The next one is last.
    stack: Vec<StackEntry<Input::Position>>,
    // The groups of the last attempt that found an end.
    pub(crate) groups: Vec<Option<(Input::Position, Input::Position)>>,
    pub(crate) progress: MemoAndWorkBudget,
    // Whether the budget suffices and all attempts were made in ascending order, so that no later
    // attempt is before `ahead`.
    pub(crate) enough: bool,
    pub(crate) ahead: usize,
    // Whether the last attempt was aborted because the budget was exhausted. If so, no work is
    // left.
    pub(crate) out: bool,
    ghost right: { IsMemoRightForRegex searched.program.now (Input.text searched.input)
        progress.memo } by { Prim.hlevel props },
    ghost walked: { enough ≡ true
        → AttemptsLeaveEnoughWork (compiled (tree_of searched.program.now)) (Input.text searched.input) progress
        ahead } by { Prim.hlevel props },
    ghost spent: { out ≡ true → progress.left ≡ 0 } by { Prim.hlevel props },
}

// Returns the preferred end state that can be reached from a state, within the budget.
fn run<Input: InputIndexer>(
    searched: &ProgramAndInput<'_, Input>,
    start: State<Input::Position>,
    stack: &mut Vec<StackEntry<Input::Position>>,
    progress: &mut MemoAndWorkBudget,
) -> Result<Option<State<Input::Position>>, AttemptAbortReason>
    requires stands { let s = searched.now in
        HasAttemptState Input.Position.offset (compiled (tree_of s.program.now)) (Input.text s.input)
        (entry_of_current_thread Input.Position.offset (Some start)) [] progress.old }
    ensures sound { let s = searched.now in IsMemoRightForRegex s.program.now (Input.text s.input) progress.new.memo }
    ensures memo_analysis { progress.new.memo.memo_analysis ≡ progress.old.memo.memo_analysis }
    ensures left { progress.new.left ≤ progress.old.left }
    ensures runs { let at = Input.Position.offset in let s = searched.now in
        let program = compiled (tree_of s.program.now) in let text = Input.text s.input in
        (b : BoundedAttempt) → AttemptHasState at program text b (entry_of_current_thread at (Some start)) []
        progress.old
        → AttemptResultIs at program text b result progress.new }
{
    stack.clear();
    let insns = searched.program.insns();
    let mut next = Some(start);
    'search: loop {
        next = match next {
            Some(state) => match execute_thread_step(searched, insns, state, stack, progress)? {
                StepResult::ContinueWith(next) => next,
                StepResult::End(end) => return Ok(Some(end)),
            },
            None => match stack.pop() {
                Some(waiting) => backtrack_to_pending_entry(
                    searched, insns, waiting, stack, progress,
                )?,
                None => return Ok(None),
            },
        };
    }
}

// Returns the end state of the preferred match that begins at a position, within the budget.
// Returns `None` if there is none.
// Contract: `found` says which end and groups are returned, and `runs` says what the attempt did
// with the budget and the memo table. `sound` and `memo_analysis` say that the table stays right
// and keeps its analysis. `left` says that the work that is left does not grow.
fn preferred_final_state<Input: InputIndexer>(
    searched: &ProgramAndInput<'_, Input>,
    stack: &mut Vec<StackEntry<Input::Position>>,
    progress: &mut MemoAndWorkBudget,
    pos: Input::Position,
) -> Result<Option<State<Input::Position>>, AttemptAbortReason>
    requires at { IsBoundary (Input.text searched.now.input) (Input.Position.offset pos) }
    requires sound { let s = searched.now in IsMemoRightForRegex s.program.now (Input.text s.input) progress.old.memo }
    ensures sound { let s = searched.now in IsMemoRightForRegex s.program.now (Input.text s.input) progress.new.memo }
    ensures found { let s = searched.now in IfOk result (λ end. end_and_groups Input.Position.offset end
        ≡ match_end_and_groups_at (tree_of s.program.now) (Input.text s.input) (Input.Position.offset pos)) }
    ensures memo_analysis { progress.new.memo.memo_analysis ≡ progress.old.memo.memo_analysis }
    ensures left { progress.new.left ≤ progress.old.left }
    ensures runs { let at = Input.Position.offset in let s = searched.now in
        let program = compiled (tree_of s.program.now) in let text = Input.text s.input in
        (b : BoundedAttempt) → BoundedAttemptBegins program text (at pos) progress.old b → AttemptResultIs
        at program text b result progress.new }
{
    let start = initial_state(searched.program, pos)?;
    let end = run(searched, start, stack, progress)?;
    Ok(end)
}

impl<'r, Input: InputIndexer> MemoizingExecutor<'r, Input> {
    /// Returns the end of the match of highest priority that begins at `pos`. After that, `groups` are
    /// its groups. The clauses are those of `SingleAttemptExecutor::attempt`; by `searched`, the program
    /// and the text stay the same.
    #[inline(never)]
    pub(crate) fn attempt(
        &mut self,
        pos: Input::Position,
    ) -> Result<Option<Input::Position>, SearchError>
        requires { IsBoundary (Input.text self.old.searched.input) (Input.Position.offset pos) }
        ensures found { let at = Input.Position.offset in IfOk result (λ end.
            end_with_groups at end (groups_as_offset_ranges at self.new.groups.items) ≡ match_end_and_groups_at
            (tree_of self.old.searched.program.now) (Input.text self.old.searched.input) (at pos)) }
        ensures cause { IfErr result (λ e. e ≡ Memory) }
        ensures work { let at = Input.Position.offset in AttemptKeepsWorkEnough at self.old.enough self.old.ahead
            (at pos) result self.new.enough self.new.ahead self.new.out }
        ensures left { self.new.progress.left ≤ self.old.progress.left }
        ensures within { IfOk result (λ _. self.new.out ≡ false) }
        ensures cost { SpendsExactCost (AttemptCosts (tree_of self.old.searched.program.now)
            (Input.text self.old.searched.input) (failures_of self.old.progress.memo) (Input.Position.offset pos))
            self.old.progress.left result self.new.out self.new.progress.left (failures_of self.new.progress.memo) }
        ensures searched { self.new.searched ≡ self.old.searched }
    {
        let at = pos.to_offset();
        self.out = false;
        self.enough = self.enough && self.ahead <= at;
        match preferred_final_state(&self.searched, &mut self.stack, &mut self.progress, pos) {
            Ok(Some(end)) => {
                let pos = end.pos;
                self.ahead = least_offset_after_match(at, pos.to_offset());
                self.groups = end.groups;
                Ok(Some(pos))
            }
            Ok(None) => {
                self.ahead = at + 1;
                Ok(None)
            }
            Err(refusal) => {
                self.enough = false;
                self.out = matches!(refusal, AttemptAbortReason::Work);
                Err(SearchError::Memory)
            }
        }
    }
}

// Returns the least offset of the next attempt after a match.
fn least_offset_after_match(at: usize, end: usize) -> usize
    requires { end + 1 < 2 ^ 64 }
    ensures { result ≡ least_offset_after_match at end }
{
    if at < end { end } else { end + 1 }
}

impl<'r, Input: InputIndexer> MemoizingExecutor<'r, Input> {
    // Creates an executor that has made no attempt.
    // Contract: `bound` is a work bound of the program's tree. If `enough` holds, the work suffices for
    // all matches. The other clauses say what the executor has: this text, this work, attempts from
    // offset 0 on, and no known failures. An error is an allocation failure.
    pub(crate) fn over(
        searched: ProgramAndInput<'r, Input>,
        bound: &WorkBound,
        work: u64,
        enough: bool,
    ) -> Result<Self, SearchError>
        requires bound { TreeHasWorkBound (tree_of searched.program.now) bound.now }
        requires suffices { enough ≡ true → second_stage_work_per_position (arc_value bound.now.memo_analysis)
            * (units (Input.text searched.input) + 1) ≤ work }
        ensures searched { IfOk result (λ e. e.searched ≡ searched.entry) }
        ensures left { IfOk result (λ e. e.progress.left ≡ work) }
        ensures enough { IfOk result (λ e. e.enough ≡ enough) }
        ensures ahead { IfOk result (λ e. e.ahead ≡ 0) }
        ensures fresh { IfOk result (λ e. NoFailuresAreKnown (failures_of e.progress.memo)) }
        ensures refused { IfErr result (λ e. e ≡ Memory) }
    {
        let alloc = searched.program.allocator();
        let places = searched.input.unit_count() + 1;
        let Some(memo) = bound.empty_memo_table(alloc, places)? else {
            return Err(SearchError::Memory);
        };
        Ok(MemoizingExecutor {
            searched,
            stack: Vec::new(alloc),
            groups: Vec::new(alloc),
            progress: MemoAndWorkBudget { memo, left: work },
            enough,
            ahead: 0,
            out: false,
        })
    }
}
