//! The executor with a step limit.

ghost use Rattle.std.specs.Prelude.{◌≡◌, IfOk, Some};
ghost use Rattle.regex_meaning.specs.{StartPredicate.{start_predicate}, Text.{utf8_text}};
ghost use Rattle.regex_meaning.proofs.CodeUnitOffsetsLemmas.{utf8_text-IsText};
ghost use Rattle.regex_pattern_front.specs.AstToSpecTree.{tree_of};
ghost use Rattle.regress_program.specs.InsnsAsSpec.{start_predicate_as_spec};
ghost use Rattle.regress_backtrack.specs.{State.{current_thread_state_of}, AttemptResults.{HasSlotPerGroupAndLoop}};

use crate::accepted_starts::{first_start_to_try, next_start_to_try};
use crate::attempts::attempt;
use crate::classicalbacktrack::BacktrackExecutor;
use crate::failure_memo::{NoMemo, StepsAndMemo};
use crate::step_and_work_budgets::LimitedStepCounter;
use regress_input::indexing::{InputIndexer, Utf8Input};
use regress_program::insn::{CompiledRegex, Program, StartPredicate};
use regress_search::exec::{ProducerFromProgramAndText, SearchError, SearchState};
use regress_search::search_loop::SingleAttemptExecutor;
use std::alloc::AllocError;

/// Searches a text in UTF-8 like `BacktrackExecutor`, but takes at most a given number of steps for
/// all matches together. It tries only the positions that the program's start predicate admits,
/// because each position that is tried takes steps.
#[derive(Drop)]
pub struct LimitedExecutor<'r, 't> {
    executor: BacktrackExecutor<'r, Utf8Input<'t>>,
    start: &'r StartPredicate,
    // The steps that are left, and whether the last attempt was refused any.
    steps: LimitedStepCounter,
    ghost start_predicate_is_of_tree: { start_predicate (tree_of executor.search.program.regex) ≡
        start_predicate_as_spec start.now },
}

impl<'r, 't> LimitedExecutor<'r, 't> {
    /// Creates an executor that searches `text` with the program `re`, in at most `steps` steps.
    ///
    /// # Errors
    ///
    /// Returns `Err` if an allocation fails.
    pub fn new(re: &'r CompiledRegex, text: &'t str, steps: u64) -> Result<Self, AllocError>
        ensures tree { IfOk result (λ e. ⟦<LimitedExecutor<'r, 't> as SearchState>⟧.tree e
            ≡ tree_of re.now) }
        ensures text { IfOk result (λ e. ⟦<LimitedExecutor<'r, 't> as SearchState>⟧.text e
            ≡ utf8_text text.now (tree_of re.now).flags.unicode) }
        ensures budget { IfOk result (λ e. ⟦<LimitedExecutor<'r, 't> as SearchState>⟧.budget e
            ≡ Some steps) }
    {
        let executor = BacktrackExecutor::<Utf8Input>::new(re, text)?;
        Ok(LimitedExecutor {
            executor,
            start: re.start_pred(),
            steps: LimitedStepCounter {
                left: steps,
                out: false,
            },
        })
    }

    /// Returns the number of steps that are left.
    pub fn steps_left(&self) -> u64
        ensures { ⟦<LimitedExecutor<'r, 't> as SearchState>⟧.budget self.now ≡ Some result }
    {
        self.steps.left
    }
}

impl<'r, 't> SearchState for LimitedExecutor<'r, 't> {
    ghost tree = { λ e. tree_of e.executor.search.program.regex };

    ghost text = { λ e. ⟦<Utf8Input<'t> as InputIndexer>⟧.text e.executor.search.searched.input };

    ghost budget = { λ e. Some e.steps.left };

    ghost out_of_steps = { λ e. e.steps.out };
}

impl<'r, 't> SingleAttemptExecutor for LimitedExecutor<'r, 't> {
    type Input = Utf8Input<'t>;

    ghost has_begun = { λ e. HasSlotPerGroupAndLoop (tree_of e.executor.search.program.regex) e.executor.memory };

    ghost groups = { λ e. (current_thread_state_of e.executor.memory 0 0).groups };

    ghost is_text = { λ e. utf8_text-IsText e.executor.search.searched.input.input.now
        e.executor.search.searched.input.unicode };

    fn program(&self) -> &Program {
        self.executor.program()
    }

    fn input(&self) -> &Utf8Input<'t> {
        self.executor.input()
    }

    fn attempt(
        &mut self,
        pos: <Utf8Input<'t> as InputIndexer>::Position,
    ) -> Result<Option<<Utf8Input<'t> as InputIndexer>::Position>, SearchError> {
        let mut progress = StepsAndMemo {
            steps: LimitedStepCounter {
                left: self.steps.left,
                out: false,
            },
            memo: NoMemo,
            end: None,
        };
        let executor = &mut self.executor;
        let end = attempt(&executor.search, pos, &mut executor.memory, &mut progress);
        let steps = progress.steps;
        self.steps = steps;
        end
    }

    fn group_count(&self) -> usize {
        self.executor.group_count()
    }

    fn group(
        &self,
        id: usize,
    ) -> Option<
        (
            <Utf8Input<'t> as InputIndexer>::Position,
            <Utf8Input<'t> as InputIndexer>::Position,
        ),
    > {
        self.executor.group(id)
    }

    fn first_start_to_try_from(
        &self,
        pos: <Utf8Input<'t> as InputIndexer>::Position,
    ) -> Option<<Utf8Input<'t> as InputIndexer>::Position> {
        first_start_to_try(&self.executor.search.searched.input, self.start, pos)
    }

    fn next_start_after_failure(
        &self,
        tried: <Utf8Input<'t> as InputIndexer>::Position,
    ) -> Option<<Utf8Input<'t> as InputIndexer>::Position> {
        next_start_to_try(&self.executor.search.searched.input, self.start, tried)
    }
}
