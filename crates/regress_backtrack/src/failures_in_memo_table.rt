//! Failures that a memo table records, given the memo analysis of a program.

ghost use Rattle.std.specs.Prelude.{◌≡◌, ℕ, true, false, None, is_some, IfOk, IfSome, map};
ghost use Rattle.regress_memo.specs.{LoopDataKeyCodes.{HasSlotsOfProgram}, UnboundedCharLoopMemoKeys.{char_loop_greediness_at, insn_before}};
ghost use Rattle.regress_memo.specs.CheckedAnalysis.{IsRecordableMemoKey};
ghost use Rattle.regress_memo.specs.MemoContents.{has_failure, has_success, memo_key_as_spec};
ghost use Rattle.regress_program.specs.{InsnsAsSpec.{insn_as_spec_insn}, Plans.{op_as_char_loop}};
ghost use Rattle.regress_search.specs.TreePlanAndText.{program_of};
ghost use Rattle.regress_backtrack.specs.{State.{current_thread_state_of}, FailuresInMemoTable.{scheme_of, IsMemoRight}};
ghost use Rattle.regress_backtrack.specs.FailuresInMemoTable.{keeps_state_from as spec_keeps_state_from};
ghost use Rattle.regress_backtrack.specs.FailureMemo.{record_key_as_spec, scheme_of_optional_memo, failures_of_optional_memo, has_key_in_optional_memo};

use crate::failure_memo::{FailureMemo, RecordKey, StepsAndMemo};
use crate::position_and_result::DirectedThreadPos;
use crate::state::BacktrackState;
use crate::step_and_work_budgets::UnlimitedCounter;
use regex_pattern_front::types::LoopID;
use regress_memo::analysis_result::MemoAnalysis;
use regress_memo::loop_data_key_codes::{IterationStatesOfAllLoops, LoopCountAndIterationStart};
use regress_memo::memo::{MemoTable, ThreadMemoKey as Known};
use regress_program::instructions::Insn;
use regress_program::ops::Op;
use regress_search::search_context::{SearchContext, text_end};
use std::alloc::{AllocError, Global};

impl IterationStatesOfAllLoops for BacktrackState {
    ghost rounds = { λ m. (current_thread_state_of m 0 0).loops };

    #[inline(always)]
    fn iteration_state_of_loop(&self, id: LoopID) -> Option<LoopCountAndIterationStart> {
        let id = usize::from(id);
        if id >= self.number_of_loops() {
            return None;
        }
        let held = self.loop_data(id);
        Some(LoopCountAndIterationStart {
            iters: held.from,
            entry: held.at,
        })
    }
}

// Checks whether the operation before this one is a char loop. Then this one is the loop's body,
// which no thread reaches.
#[inline(always)]
fn is_loop_body<W: SearchContext>(context: &W, ip: usize) -> bool
    ensures { let program = program_of (W.searching context.now) in
        result ≡ false → char_loop_greediness_at (insn_before program ip) ≡ None }
{
    if ip == 0 {
        return false;
    }
    match context.op_at(ip - 1) {
        Some(op) => op.as_char_loop().is_some(),
        None => false,
    }
}

// Checks whether the state has as many groups and loops as the program.
#[inline(always)]
fn has_all_slots<W: SearchContext>(context: &W, memory: &BacktrackState) -> bool
    ensures { result ≡ true → (ip at : ℕ)
        → HasSlotsOfProgram (program_of (W.searching context.now)) (current_thread_state_of memory.now ip at) }
{
    memory.group_count() == context.program().groups() as usize
        && memory.number_of_loops() == context.number_of_loops() as usize
}

// Checks whether a search from an instruction changes neither groups nor the first `loops` loops.
#[inline(always)]
fn keeps_state_from(memo_analysis: &MemoAnalysis, ip: usize, loops: usize) -> bool
    ensures { result ≡ spec_keeps_state_from memo_analysis.now ip loops }
{
    let line = memo_analysis.insn_analysis_at(ip);
    line.silent && line.first == line.end && loops <= line.from as usize
}

impl FailureMemo for MemoTable {
    ghost ON = { true };

    const ON: bool = true;

    ghost terms = { λ m. scheme_of m.memo_analysis };

    ghost failed = { λ m. has_failure m };

    ghost succeeded = { λ m. has_success m };

    ghost has_key = { λ m k. IsRecordableMemoKey m.memo_analysis m.places k };

    #[inline(always)]
    fn key_at<W: SearchContext>(
        &self,
        context: &W,
        thread: DirectedThreadPos,
        memory: &BacktrackState,
    ) -> Option<RecordKey> {
        let DirectedThreadPos { here, forward } = thread;
        let line = self.memo_analysis().insn_analysis_at(here.ip);
        if !line.records || line.forward != forward || is_loop_body(context, here.ip) {
            return None;
        }
        if !has_all_slots(context, memory) {
            return None;
        }
        let end = text_end(context);
        if !self
            .memo_analysis()
            .is_reachable_loop_state(here.ip, here.at, end, memory)
        {
            return None;
        }
        let key = MemoTable::key_at(self, here.ip, here.at, memory)?;
        record_key_of(key)
    }

    #[inline(always)]
    fn unbounded_char_loop_rest_key<W: SearchContext>(
        &self,
        context: &W,
        run: DirectedThreadPos,
        memory: &BacktrackState,
    ) -> Option<RecordKey> {
        let (from, forward) = (run.here, run.forward);
        if from.ip >= usize::MAX - 2 {
            return None;
        }
        let (body, behind) = (from.ip + 1, from.ip + 2);
        let line = self.memo_analysis().insn_analysis_at(body);
        if !line.records || line.forward != forward {
            return None;
        }
        if self.memo_analysis().insn_analysis_at(behind).forward != forward
            || !has_all_slots(context, memory)
        {
            return None;
        }
        let end = text_end(context);
        if !self
            .memo_analysis()
            .is_reachable_loop_state(behind, from.at, end, memory)
        {
            return None;
        }
        let key = MemoTable::key_at(self, body, from.at, memory)?;
        record_key_of(key)
    }

    #[inline(always)]
    fn keeps_state<W: SearchContext>(
        &self,
        _context: &W,
        ip: usize,
        memory: &BacktrackState,
    ) -> bool {
        keeps_state_from(self.memo_analysis(), ip, memory.number_of_loops())
    }

    #[inline(always)]
    fn is_known_to_fail(&self, key: RecordKey) -> bool {
        let key = memo_key_of(key);
        self.has(key) && self.fails(key)
    }

    #[inline(always)]
    fn is_known_to_find_end(&self, key: RecordKey) -> bool {
        let key = memo_key_of(key);
        self.has(key) && self.is_known_to_reach_end(key)
    }

    #[inline(always)]
    fn record_key_found_end(&mut self, key: RecordKey) {
        let key = memo_key_of(key);
        if self.records_successes() && self.has(key) {
            self.record_success(key);
        }
    }

    #[inline(always)]
    fn record_key_failed(&mut self, key: RecordKey) {
        let key = memo_key_of(key);
        if self.has(key) {
            self.record_failure(key);
        }
    }
}

// Converts a key of the memo table to the form that choice points hold.
#[inline(always)]
fn record_key_of(key: Known) -> Option<RecordKey>
    ensures { IfSome result (λ k. record_key_as_spec k ≡ memo_key_as_spec key) }
{
    match u32::try_from(key.ip) {
        Ok(ip) => Some(RecordKey {
            ip,
            at: key.at,
            code: key.code,
        }),
        Err(_) => None,
    }
}

// Converts a key of a choice point to a key of the memo table.
#[inline(always)]
fn memo_key_of(key: RecordKey) -> Known
    ensures { memo_key_as_spec result ≡ record_key_as_spec key }
{
    Known {
        ip: key.ip as usize,
        at: key.at,
        code: key.code,
    }
}

/// An optional memo. Without one, nothing is recorded.
impl<M: FailureMemo> FailureMemo for Option<Box<M>> {
    ghost ON = { M.ON };

    const ON: bool = M::ON;

    ghost terms = { scheme_of_optional_memo (λ memo. M.terms memo.value) };

    ghost failed = { failures_of_optional_memo (λ memo. M.failed memo.value) };

    ghost succeeded = { failures_of_optional_memo (λ memo. M.succeeded memo.value) };

    ghost has_key = { has_key_in_optional_memo (λ memo. M.has_key memo.value) };

    #[inline(always)]
    fn key_at<W: SearchContext>(
        &self,
        context: &W,
        thread: DirectedThreadPos,
        memory: &BacktrackState,
    ) -> Option<RecordKey> {
        match self {
            Some(memo) => memo.key_at(context, thread, memory),
            None => None,
        }
    }

    #[inline(always)]
    fn unbounded_char_loop_rest_key<W: SearchContext>(
        &self,
        context: &W,
        run: DirectedThreadPos,
        memory: &BacktrackState,
    ) -> Option<RecordKey> {
        match self {
            Some(memo) => memo.unbounded_char_loop_rest_key(context, run, memory),
            None => None,
        }
    }

    #[inline(always)]
    fn keeps_state<W: SearchContext>(
        &self,
        context: &W,
        ip: usize,
        memory: &BacktrackState,
    ) -> bool {
        match self {
            Some(memo) => memo.keeps_state(context, ip, memory),
            None => false,
        }
    }

    #[inline(always)]
    fn is_known_to_fail(&self, key: RecordKey) -> bool {
        match self {
            Some(memo) => memo.is_known_to_fail(key),
            None => false,
        }
    }

    #[inline(always)]
    fn is_known_to_find_end(&self, key: RecordKey) -> bool {
        match self {
            Some(memo) => memo.is_known_to_find_end(key),
            None => false,
        }
    }

    #[inline(always)]
    fn record_key_found_end(&mut self, key: RecordKey) {
        match self {
            Some(memo) => memo.record_key_found_end(key),
            None => {}
        }
    }

    #[inline(always)]
    fn record_key_failed(&mut self, key: RecordKey) {
        match self {
            Some(memo) => memo.record_key_failed(key),
            None => {}
        }
    }
}

/// The state of attempts that are repeated with a memo.
#[derive(Drop)]
pub(crate) struct CounterAndMemoForRetries {
    /// The counter and the memo. Failures are recorded if the program has a memo analysis and there
    /// is memory for the memo.
    pub progress: StepsAndMemo<UnlimitedCounter, Option<Box<MemoTable>>>,
    /// Whether the memo was already created, or its creation failed.
    pub began: bool,
}

/// Creates the memo, unless this was tried before. If it cannot be created, nothing is recorded.
pub(crate) fn enable_memo<W: SearchContext>(
    context: &W,
    insns: &[Insn],
    again: &mut CounterAndMemoForRetries,
)
    requires insns { map insn_as_spec_insn insns.now ≡ (program_of (W.searching context.now)).insns }
    requires sound { IsMemoRight (λ memo. memo.value) (W.searching context.now) again.old.progress.memo }
    ensures { IsMemoRight (λ memo. memo.value) (W.searching context.now) again.new.progress.memo }
{
    if again.began {
        return;
    }
    again.began = true;
    let alloc = context.program().allocator();
    if let Ok(memo) = new_memo(alloc, context, insns) {
        again.progress.memo = memo;
    }
}

// Checks whether a program has a lookaround for which only the existence of an end of its contents
// matters. Only searches of such contents read recorded ends.
fn reads_recorded_ends(memo_analysis: &MemoAnalysis, insns: &[Insn], loops: usize) -> bool {
    for ip in 0..insns.len() {
        if let Insn::Lookahead { negate, .. } | Insn::Lookbehind { negate, .. } = insns[ip] {
            if negate || keeps_state_from(memo_analysis, ip + 1, loops) {
                return true;
            }
        }
    }
    false
}

// Creates an empty memo table for a search with these instructions. Returns `None` if the program
// has no memo analysis, or if the number of its keys is too large.
fn new_memo<W: SearchContext>(
    alloc: Global,
    context: &W,
    insns: &[Insn],
) -> Result<Option<Box<MemoTable>>, AllocError>
    requires { map insn_as_spec_insn insns.now ≡ (program_of (W.searching context.now)).insns }
    ensures { IfOk result (IsMemoRight (λ memo. memo.value) (W.searching context.now)) }
{
    let loops = context.number_of_loops() as usize;
    let Some(memo_analysis) = MemoAnalysis::new(alloc, insns, loops)? else {
        return Ok(None);
    };
    let places = text_end(context) + 1;
    let records_ends = reads_recorded_ends(&memo_analysis, insns, loops);
    let Some(memo) = MemoTable::new(alloc, memo_analysis, places, records_ends)? else {
        return Ok(None);
    };
    let memo = Box::new(alloc, memo)?;
    Ok(Some(memo))
}
