//! What is recorded about searches that failed, and about searches of lookarounds' contents that
//! found an end.

ghost use Rattle.std.specs.Prelude.{◌≡◌, ◌≤◌, ◌⊎◌, ◌∷◌, [], Bool, true, false, IfSome};
ghost use Rattle.regex_meaning.specs.CodeUnitOffsets.{units};
ghost use Rattle.regress_memo.specs.MemoSearch.{Key};
ghost use Rattle.regress_machine.specs.Machine.{running};
ghost use Rattle.regress_backtrack.specs.{State.{current_thread_state_of}, MemoizedCharLoops.{DecidesLoopRest}};
ghost use Rattle.regress_backtrack.specs.FailureMemo.{MemoScheme, AreFailuresSound, KeyStandsForThreadsInDirection, record_key_as_spec, scheme_recording_nothing, ContentsKeepState};

use crate::position_and_result::DirectedThreadPos;
use crate::state::BacktrackState;
use crate::step_and_work_budgets::StepCounter;
use regress_search::search_context::SearchContext;

/// A memo key in the form that choice points hold: an instruction, an offset, and a code for the
/// state of the loops. It is the `ThreadMemoKey` of `regress_memo` with an instruction of 32 bits.
#[derive(Clone, Copy)]
pub struct RecordKey {
    pub ip: u32,
    pub at: usize,
    pub code: usize,
}

/// A memo of the keys that have failed and, in lookarounds' contents, of the keys that have found
/// an end. It may also record nothing.
pub trait FailureMemo {
    ghost ON: { Bool };

    /// Whether anything is recorded.
    const ON: bool;

    ghost terms: { Self → MemoScheme };

    ghost failed: { Self → Key → Bool };

    ghost succeeded: { Self → Key → Bool };

    // The memo has a place for the key.
    ghost has_key: { Self → Key → Type 0 };

    /// Returns the key of a thread, if it has one.
    fn key_at<W: SearchContext>(
        &self,
        context: &W,
        thread: DirectedThreadPos,
        memory: &BacktrackState,
    ) -> Option<RecordKey>
        requires sound { AreFailuresSound (W.searching context.now) (terms self.now) (failed self.now) }
        requires inside { thread.here.at ≤ units (W.searching context.now).text }
        ensures { IfSome result (λ k. KeyStandsForThreadsInDirection (W.searching context.now) (terms self.now)
            thread.forward
            (record_key_as_spec k) (running (current_thread_state_of memory.now thread.here.ip thread.here.at) ∷ [])) };

    /// Returns the key of the rest of a char loop without a maximum, from an offset on. Returns
    /// `None` if it has no key.
    fn unbounded_char_loop_rest_key<W: SearchContext>(
        &self,
        context: &W,
        run: DirectedThreadPos,
        memory: &BacktrackState,
    ) -> Option<RecordKey>
        requires sound { AreFailuresSound (W.searching context.now) (terms self.now) (failed self.now) }
        ensures { IfSome result (λ k. DecidesLoopRest (W.searching context.now) (terms self.now) run.forward run.here
            (record_key_as_spec k) memory.now) };

    /// Checks whether a search from an instruction is known to change neither groups nor loop data.
    fn keeps_state<W: SearchContext>(&self, context: &W, ip: usize, memory: &BacktrackState) -> bool
        requires sound { AreFailuresSound (W.searching context.now) (terms self.now) (failed self.now) }
        ensures { result ≡ true → ContentsKeepState (W.searching context.now) ip memory.now };

    /// Checks whether a key is known to fail.
    fn is_known_to_fail(&self, key: RecordKey) -> bool
        ensures { result ≡ failed self.now (record_key_as_spec key) };

    /// Checks whether a key is known to find an end.
    fn is_known_to_find_end(&self, key: RecordKey) -> bool
        ensures { result ≡ succeeded self.now (record_key_as_spec key) };

    /// Records that a key finds an end, if the memo has the key and records ends.
    fn record_key_found_end(&mut self, key: RecordKey)
        ensures terms { terms self.new ≡ terms self.old }
        ensures failed { (k : Key) → failed self.new k ≡ failed self.old k }
        ensures succeeded { (k : Key) → succeeded self.new k ≡ true → (succeeded self.old k ≡ true) ⊎
            (k ≡ record_key_as_spec key) };

    /// Records that a key has failed, if the memo has the key.
    fn record_key_failed(&mut self, key: RecordKey)
        ensures terms { terms self.new ≡ terms self.old }
        ensures succeeded { (k : Key) → succeeded self.new k ≡ succeeded self.old k }
        ensures failed { (k : Key) → failed self.new k ≡ true → (failed self.old k ≡ true) ⊎
            (k ≡ record_key_as_spec key) }
        ensures recorded { has_key self.old (record_key_as_spec key) → failed self.new (record_key_as_spec key) ≡ true }
        ensures kept { (k : Key) → failed self.old k ≡ true → failed self.new k ≡ true };
}

/// The step counter of a search, and its failure memo.
#[derive(Drop)]
pub struct StepsAndMemo<S: StepCounter, M: FailureMemo> {
    pub steps: S,
    pub memo: M,
    /// The place where a call that is rarely made stores an end. If it returned the end, each
    /// search would have to reserve space for it.
    pub end: Option<usize>,
}

/// Whether a call has stored a result outside of its return value, such as in `StepsAndMemo::end`.
#[derive(Clone, Copy)]
pub enum StoredOrStopped {
    Done,
    Stopped,
}

/// A memo that records nothing.
#[derive(Clone, Copy)]
pub struct NoMemo;

impl FailureMemo for NoMemo {
    ghost ON = { false };

    const ON: bool = false;

    ghost terms = { λ _. scheme_recording_nothing };

    ghost failed = { λ _ _. false };

    ghost succeeded = { λ _ _. false };

    ghost has_key = { λ _ _. ⊥ };

    #[inline(always)]
    fn key_at<W: SearchContext>(
        &self,
        _: &W,
        _: DirectedThreadPos,
        _: &BacktrackState,
    ) -> Option<RecordKey> {
        None
    }

    #[inline(always)]
    fn unbounded_char_loop_rest_key<W: SearchContext>(
        &self,
        _: &W,
        _: DirectedThreadPos,
        _: &BacktrackState,
    ) -> Option<RecordKey> {
        None
    }

    #[inline(always)]
    fn keeps_state<W: SearchContext>(&self, _: &W, _ip: usize, _: &BacktrackState) -> bool {
        false
    }

    #[inline(always)]
    fn is_known_to_fail(&self, _key: RecordKey) -> bool {
        false
    }

    #[inline(always)]
    fn is_known_to_find_end(&self, _key: RecordKey) -> bool {
        false
    }

    #[inline(always)]
    fn record_key_found_end(&mut self, _key: RecordKey) {}

    #[inline(always)]
    fn record_key_failed(&mut self, _key: RecordKey) {}
}
