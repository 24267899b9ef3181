//! Budgets of a search: how many steps it may take, and how much work it may do.

ghost use Rattle.std.specs.Prelude.{◌≡◌, ◌<◌, ◌+◌, ◌⊎◌, ℕ, Bool, true, false, OnOk, OnErr, IsTrue, refl};
ghost use Rattle.std.proofs.Common.{sym, true≢false};
ghost use Rattle.regress_backtrack.specs.BudgetAccounting.{Budget, IsTakenFromBudget, IsRefusedByBudget};

use std::alloc::AllocError;
use std::marker::PhantomData;

/// A search stopped without a result: an allocation failed, too much work was done, or, if steps
/// are counted, too few steps were left. The type has no fields, so that a result with a position
/// is returned in registers. The step counter knows the cause.
#[derive(Clone, Copy)]
pub struct SearchStoppedWithoutResult;

impl From<AllocError> for SearchStoppedWithoutResult {
    #[inline(always)]
    fn from(_: AllocError) -> SearchStoppedWithoutResult {
        SearchStoppedWithoutResult
    }
}

/// A step counter. It may count steps or not. If steps are not counted, it may have a budget from
/// which work is paid.
pub trait StepCounter: Copy {
    ghost COUNTS: { Bool };

    /// Whether steps are counted.
    const COUNTS: bool;

    /// Whether a loop may iterate in bulk over units before which it cannot be left. It may not do
    /// so where each iteration may be recorded in a memo.
    const ALLOWS_BULK_ITERATION: bool;

    ghost PAYS: { Bool };

    /// Whether work is paid from a budget.
    const PAYS: bool;

    ghost budget: { Self → Budget };

    // The work that is left, if work is paid, and whether some was refused.
    ghost work: { Self → Budget };

    /// Returns the work that is left, if work is paid.
    fn room(&self) -> usize
        ensures { IsTrue PAYS → result ≡ (work self.now).left };

    /// Pays for units of work. If fewer are left, returns `Err`, and no work is left.
    fn pay(&mut self, units: usize) -> Result<(), SearchStoppedWithoutResult>
        ensures paid { OnOk result (IsTakenFromBudget PAYS units (work self.old) (work self.new)) }
        ensures short { OnErr result (IsRefusedByBudget PAYS units (work self.old) (work self.new)) }
        ensures steps { budget self.new ≡ budget self.old };

    /// Takes a number of steps. If fewer are left, returns `Err`, and no steps are left.
    fn take(&mut self, steps: usize) -> Result<(), SearchStoppedWithoutResult>
        ensures work { work self.new ≡ work self.old }
        ensures taken { OnOk result (IsTakenFromBudget COUNTS steps (budget self.old) (budget self.new)) }
        ensures refused { OnErr result (IsRefusedByBudget COUNTS steps (budget self.old) (budget self.new)) };

    /// Charges one operation before it is executed: takes one step and pays one unit of work.
    /// Returns `Err` if no step or no work is left.
    fn begin_operation(&mut self) -> Result<(), SearchStoppedWithoutResult>
        ensures taken { OnOk result (IsTakenFromBudget COUNTS 1 (budget self.old) (budget self.new)) }
        ensures stopped { OnErr result (IsRefusedByBudget COUNTS 1 (budget self.old) (budget self.new)
            ⊎ (IsTrue PAYS × IsTakenFromBudget COUNTS 1 (budget self.old) (budget self.new))) }
        ensures paid { OnOk result (IsTakenFromBudget PAYS 1 (work self.old) (work self.new)) }
        ensures short { OnErr result (IsTrue PAYS → IsRefusedByBudget PAYS 1 (work self.old) (work self.new)) };

    /// Charges one backtrack: takes one step, pays one unit of work (`PAYS`), and counts towards
    /// the work after which failures are memoized. Returns `Err` if too much work was done, or if
    /// no step or no work is left.
    fn backtrack(&mut self) -> Result<(), SearchStoppedWithoutResult>
        ensures taken { OnOk result (IsTakenFromBudget COUNTS 1 (budget self.old) (budget self.new)) }
        ensures stopped { OnErr result (IsTakenFromBudget COUNTS 1 (budget self.old) (budget self.new)
            ⊎ IsRefusedByBudget COUNTS 1 (budget self.old) (budget self.new)) }
        ensures paid { OnOk result (IsTakenFromBudget PAYS 1 (work self.old) (work self.new)) }
        ensures short { OnErr result (IsTrue PAYS → IsRefusedByBudget PAYS 1 (work self.old) (work self.new)) };

    /// Notes units that one operation read, or choice points that were dropped at once. Only a
    /// large number counts, towards the work after which failures are memoized. No work is paid.
    fn note_bulk_work(&mut self, units: usize)
        ensures budget { budget self.new ≡ budget self.old }
        ensures work { work self.new ≡ work self.old };

    /// Returns `Err` if too much work was done. A search that does not backtrack has to call this
    /// itself.
    fn stop_if_too_much_work(&self) -> Result<(), SearchStoppedWithoutResult>;

    /// Checks whether any steps were refused.
    fn steps_were_refused(&self) -> bool
        ensures { result ≡ (budget self.now).out };

    ghost uncounted: { PAYS ≡ true → COUNTS ≡ false };

    // If work is not paid, its budget is always the same.
    ghost unpaid: { PAYS ≡ false → (one another : Self) → work one ≡ work another };
}

// The smallest number of units that counts as work. Reading fewer takes little more time than
// reading none.
const MIN_UNITS_COUNTED_AS_WORK: usize = 16;

// From this value on, `work` represents a negative number.
const MIN_NEGATIVE_WORK: u64 = 0x8000_0000_0000_0000;

/// A counter without a step limit. If `BOUND` is set, it limits the work.
#[derive(Clone, Copy)]
pub struct WorkCounterWithoutStepLimit<const BOUND: bool> {
    // The work that is left. It wraps around below 0, so that any amount of work can be subtracted.
    work: u64,
}

/// A counter without a step limit that limits the work.
pub type WorkBounded = WorkCounterWithoutStepLimit<true>;

/// A counter that limits neither steps nor work.
pub type UnlimitedCounter = WorkCounterWithoutStepLimit<false>;

impl<const BOUND: bool> WorkCounterWithoutStepLimit<BOUND> {
    /// Creates a counter that allows this amount of work.
    #[inline(always)]
    pub fn work_counter_with_limit(work: u64) -> Self {
        WorkCounterWithoutStepLimit { work }
    }

    /// Creates a counter that allows no more work.
    #[inline(always)]
    pub fn exhausted_work_counter() -> Self {
        WorkCounterWithoutStepLimit {
            work: MIN_NEGATIVE_WORK,
        }
    }

    /// Checks whether more work was done than was allowed.
    #[inline(always)]
    pub fn is_work_limit_exceeded(&self) -> bool {
        self.work >= MIN_NEGATIVE_WORK
    }
}

impl<const BOUND: bool> StepCounter for WorkCounterWithoutStepLimit<BOUND> {
    ghost COUNTS = { false };

    const COUNTS: bool = false;

    const ALLOWS_BULK_ITERATION: bool = BOUND;

    ghost PAYS = { false };

    const PAYS: bool = false;

    ghost budget = { λ _. record { left = 0; out = false } };

    ghost work = { λ _. record { left = 0; out = false } };

    #[inline(always)]
    fn room(&self) -> usize {
        usize::MAX
    }

    #[inline(always)]
    fn pay(&mut self, _units: usize) -> Result<(), SearchStoppedWithoutResult> {
        Ok(())
    }

    #[inline(always)]
    fn take(&mut self, _steps: usize) -> Result<(), SearchStoppedWithoutResult> {
        Ok(())
    }

    #[inline(always)]
    fn begin_operation(&mut self) -> Result<(), SearchStoppedWithoutResult> {
        Ok(())
    }

    #[inline(always)]
    fn backtrack(&mut self) -> Result<(), SearchStoppedWithoutResult> {
        if !BOUND {
            return Ok(());
        }
        self.work = self.work.wrapping_sub(1);
        if self.is_work_limit_exceeded() {
            Err(SearchStoppedWithoutResult)
        } else {
            Ok(())
        }
    }

    #[inline(always)]
    fn note_bulk_work(&mut self, units: usize) {
        if BOUND && units >= MIN_UNITS_COUNTED_AS_WORK {
            self.work = self.work.wrapping_sub(units as u64);
        }
    }

    #[inline(always)]
    fn stop_if_too_much_work(&self) -> Result<(), SearchStoppedWithoutResult> {
        if BOUND && self.is_work_limit_exceeded() {
            return Err(SearchStoppedWithoutResult);
        }
        Ok(())
    }

    #[inline(always)]
    fn steps_were_refused(&self) -> bool {
        false
    }

    ghost uncounted = { λ pays. refl };

    ghost unpaid = { λ free one another. refl };
}

/// A counter that limits steps: how many are left, and whether any were refused.
#[derive(Clone, Copy)]
pub struct LimitedStepCounter {
    pub left: u64,
    pub out: bool,
}

impl StepCounter for LimitedStepCounter {
    ghost COUNTS = { true };

    const COUNTS: bool = true;

    const ALLOWS_BULK_ITERATION: bool = false;

    ghost PAYS = { false };

    const PAYS: bool = false;

    ghost budget = { λ s. record { left = s.left; out = s.out } };

    ghost work = { λ _. record { left = 0; out = false } };

    #[inline(always)]
    fn room(&self) -> usize {
        usize::MAX
    }

    #[inline(always)]
    fn pay(&mut self, _units: usize) -> Result<(), SearchStoppedWithoutResult> {
        Ok(())
    }

    #[inline(always)]
    fn take(&mut self, steps: usize) -> Result<(), SearchStoppedWithoutResult> {
        let steps = steps as u64;
        if self.left < steps {
            self.left = 0;
            self.out = true;
            return Err(SearchStoppedWithoutResult);
        }
        self.left -= steps;
        Ok(())
    }

    #[inline(always)]
    fn begin_operation(&mut self) -> Result<(), SearchStoppedWithoutResult> {
        self.take(1)
    }

    #[inline(always)]
    fn backtrack(&mut self) -> Result<(), SearchStoppedWithoutResult> {
        self.begin_operation()
    }

    #[inline(always)]
    fn note_bulk_work(&mut self, _units: usize) {}

    #[inline(always)]
    fn stop_if_too_much_work(&self) -> Result<(), SearchStoppedWithoutResult> {
        Ok(())
    }

    #[inline(always)]
    fn steps_were_refused(&self) -> bool {
        self.out
    }

    ghost uncounted = { λ pays. sym pays };

    ghost unpaid = { λ free one another. refl };
}

/// The part of a search that an executor with a work budget makes. Each implementation is a type of
/// its own, so that each has its own copy of the interpreter, with a single call site where it is
/// inlined: see `interpret`.
pub trait SearchStage: Copy {}

/// The executor makes the whole search.
#[derive(Clone, Copy)]
pub struct OnlyStage;

impl SearchStage for OnlyStage {}

/// The executor makes the first of two stages of a search.
#[derive(Clone, Copy)]
pub struct FirstStage;

impl SearchStage for FirstStage {}

/// A counter without a step limit, with a budget from which work is paid.
#[derive(Clone, Copy)]
pub struct WorkBudget<Stage: SearchStage> {
    /// The work that is left.
    pub left: u64,
    /// Whether work was refused.
    pub out: bool,
    /// The stage whose work is paid.
    pub stage: PhantomData<Stage>,
}

impl<Stage: SearchStage> StepCounter for WorkBudget<Stage> {
    ghost COUNTS = { false };

    const COUNTS: bool = false;

    const ALLOWS_BULK_ITERATION: bool = false;

    ghost PAYS = { true };

    const PAYS: bool = true;

    ghost budget = { λ _. record { left = 0; out = false } };

    ghost work = { λ s. record { left = s.left; out = s.out } };

    #[inline(always)]
    fn room(&self) -> usize {
        self.left as usize
    }

    #[inline(always)]
    fn pay(&mut self, units: usize) -> Result<(), SearchStoppedWithoutResult> {
        let units = units as u64;
        if self.left < units {
            self.left = 0;
            self.out = true;
            return Err(SearchStoppedWithoutResult);
        }
        self.left -= units;
        Ok(())
    }

    #[inline(always)]
    fn take(&mut self, _steps: usize) -> Result<(), SearchStoppedWithoutResult> {
        Ok(())
    }

    #[inline(always)]
    fn begin_operation(&mut self) -> Result<(), SearchStoppedWithoutResult> {
        self.pay(1)
    }

    #[inline(always)]
    fn backtrack(&mut self) -> Result<(), SearchStoppedWithoutResult> {
        self.begin_operation()
    }

    #[inline(always)]
    fn note_bulk_work(&mut self, _units: usize) {}

    #[inline(always)]
    fn stop_if_too_much_work(&self) -> Result<(), SearchStoppedWithoutResult> {
        Ok(())
    }

    #[inline(always)]
    fn steps_were_refused(&self) -> bool {
        false
    }

    ghost uncounted = { λ pays. refl };

    ghost unpaid = { λ free one another. absurd (true≢false free) };
}
