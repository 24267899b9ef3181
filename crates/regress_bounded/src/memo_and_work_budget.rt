//! The memo table and the work budget of a search.

ghost use Rattle.std.specs.Prelude.{◌≡◌, ◌<◌, ◌≤◌, ◌-◌, min, OnOk, IfErr, IfSome, option_map};
ghost use Rattle.regress_memo.specs.CheckedAnalysis.{IsRecordableMemoKey};
ghost use Rattle.regress_memo.specs.MemoContents.{memo_key_as_spec, memo_key_at};
ghost use Rattle.regress_pikevm.specs.States.{machine_state_of};
ghost use Rattle.regress_bounded.specs.declared.memo_and_work_budget.AttemptAbortReason.TheVariants.{Memory, Work};
ghost use Rattle.regress_bounded.specs.BudgetSpending.{LowersBudgetByWork, WorkExceedsBudget};

use crate::pending_stack::ThreadLoopStates;
use regress_input::position::PositionType;
use regress_memo::memo::{MemoTable, ThreadMemoKey};
use regress_pikevm::pikevm::states::State;
use std::alloc::{AllocError, AllocFailed};

/// Why an attempt was aborted.
#[derive(Clone, Copy)]
pub(crate) enum AttemptAbortReason {
    /// An allocation failed.
    Memory,
    /// The work budget was exhausted.
    Work,
}

impl From<AllocError> for AttemptAbortReason {
    ghost from_gives = { λ _ e. e ≡ Memory };

    fn from(_: AllocError) -> Self {
        AttemptAbortReason::Memory
    }
}

impl<T: Drop> From<AllocFailed<T>> for AttemptAbortReason {
    ghost from_gives = { λ _ e. e ≡ Memory };

    fn from(_: AllocFailed<T>) -> Self {
        AttemptAbortReason::Memory
    }
}

/// The memo table of failures, and the work that is left.
#[derive(Drop)]
pub(crate) struct MemoAndWorkBudget {
    pub(crate) memo: MemoTable,
    pub(crate) left: u64,
}

impl MemoAndWorkBudget {
    /// Takes `work` from the work that is left. If less is left, takes all of it and returns `Err`.
    #[inline(always)]
    pub(crate) fn spend(&mut self, work: u64) -> Result<(), AttemptAbortReason>
        ensures memo { self.new.memo ≡ self.old.memo }
        ensures left { self.new.left ≤ self.old.left }
        ensures spent { OnOk result (LowersBudgetByWork work self.old.left self.new.left) }
        ensures over { IfErr result (λ e. (e ≡ Work) × WorkExceedsBudget work self.old.left self.new.left) }
    {
        if self.left < work {
            self.left = 0;
            return Err(AttemptAbortReason::Work);
        }
        self.left -= work;
        Ok(())
    }

    /// Returns the number of characters that a step may read, up to `most`. Each character costs 1,
    /// and so does the step.
    #[inline(always)]
    pub(crate) fn chars_within_budget(&self, most: usize) -> usize
        ensures { result ≡ min most (self.now.left - 1) }
    {
        most.min(self.left.saturating_sub(1) as usize)
    }

    /// Returns the key of a state at this instruction and position. Returns `None` if the
    /// instruction does not record.
    #[inline(always)]
    pub(crate) fn key_at<P: PositionType>(
        &self,
        ip: usize,
        at: P,
        state: &State<P>,
    ) -> Option<ThreadMemoKey>
        ensures key { option_map memo_key_as_spec result ≡ memo_key_at self.now.memo.memo_analysis
            (record (machine_state_of P.offset state.now) { ip = ip; pos = P.offset at }) }
        ensures bit { P.offset at < self.now.memo.places
            → IfSome result (λ key. IsRecordableMemoKey self.now.memo.memo_analysis self.now.memo.places
            (memo_key_as_spec key)) }
    {
        self.memo
            .key_at(ip, at.to_offset(), &ThreadLoopStates { state })
    }
}
