//! The memo table: which keys are known to fail, and which to reach an end.

ghost use Rattle.std.specs.Prelude.{◌≡◌, ◌≤◌, ◌<◌, ◌*◌, ◌^◌, ◌↔◌, true, option_map, IfOk, IfSome, IsTrue, MatchOption};
ghost use Rattle.std.specs.Arc.{arc_value};
ghost use Rattle.regress_machine.specs.Machine.{State};
ghost use Rattle.regress_memo.specs.AnalysisAsPotentials.{memo_bit_index_of_key as spec_memo_bit_index_of_key};
ghost use Rattle.regress_memo.specs.CheckedAnalysis.{HasDisjointCodes, IsRecordableMemoKey};
ghost use Rattle.regress_memo.specs.MemoContents.{memo_key_as_spec, memo_key_at, has_failure, has_success, IsEmptyMemo, RecordsFailure, RecordsSuccess};
ghost use Rattle.regress_memo.specs.MemoContractView.{MemoView, HasRoom};

use crate::analysis_result::MemoAnalysis;
use crate::bit_set::Bits;
use crate::loop_data_key_codes::IterationStatesOfAllLoops;
use std::alloc::{AllocError, Global};
use std::marker::Model;
use std::sync::Arc;

/// The memo key of a thread: its instruction, its offset, and a code for the states of its loops.
#[derive(Clone, Copy)]
pub struct ThreadMemoKey {
    pub ip: usize,
    pub at: usize,
    pub code: usize,
}

/// The memo table of a program in a text. It holds what is known of each key of the program's memo
/// analysis at `places` offsets.
#[derive(Drop)]
pub struct MemoTable {
    memo_analysis: Arc<MemoAnalysis, Global>,
    places: usize,
    records_successes: bool,
    failures: Bits,
    ends: Bits,
}

impl Model for MemoTable {
    ghost Value = { MemoView };

    ghost view = { λ m. record {
      memo_analysis = arc_value m.memo_analysis;
      places = m.places;
      records_successes = m.records_successes;
      failures = m.failures.words.items;
      ends = m.ends.words.items;
    } };

    ghost invariant = { λ m. HasRoom (arc_value m.memo_analysis) m.places m.records_successes
        m.failures.words.items m.ends.words.items };
}

impl MemoTable {
    /// Creates an empty memo table. Returns `None` if the number of keys overflows. Successes are
    /// recorded only if `records_successes` is set.
    ///
    /// # Errors
    ///
    /// Returns `AllocError` if an allocation fails.
    pub fn new(
        alloc: Global,
        memo_analysis: MemoAnalysis,
        places: usize,
        records_successes: bool,
    ) -> Result<Option<MemoTable>, AllocError>
        requires { HasDisjointCodes memo_analysis }
        ensures { IfOk result (λ found. MatchOption found (2 ^ 64 ≤ memo_analysis.codes * places)
            (IsEmptyMemo memo_analysis places records_successes)) }
    {
        let memo_analysis = Arc::new(alloc, memo_analysis)?;
        MemoTable::new_with_shared_analysis(alloc, memo_analysis, places, records_successes)
    }

    /// Creates an empty memo table like `new`, with a shared memo analysis.
    ///
    /// # Errors
    ///
    /// Returns `AllocError` if an allocation fails.
    pub fn new_with_shared_analysis(
        alloc: Global,
        memo_analysis: Arc<MemoAnalysis, Global>,
        places: usize,
        records_successes: bool,
    ) -> Result<Option<MemoTable>, AllocError>
        requires { HasDisjointCodes (arc_value memo_analysis) }
        ensures { IfOk result (λ found. MatchOption found (2 ^ 64 ≤ (arc_value memo_analysis).codes * places)
            (IsEmptyMemo (arc_value memo_analysis) places records_successes)) }
    {
        let Some(count) = memo_analysis.codes.checked_mul(places) else {
            return Ok(None);
        };
        let failures = Bits::new(alloc, count)?;
        let ends = Bits::new(alloc, if records_successes { count } else { 0 })?;
        Ok(Some(MemoTable {
            memo_analysis,
            places,
            records_successes,
            failures,
            ends,
        }))
    }

    /// Returns the program's memo analysis.
    #[inline(always)]
    pub fn memo_analysis(&self) -> &MemoAnalysis
        ensures { result.now ≡ self.now.memo_analysis }
    {
        &self.memo_analysis
    }

    /// Checks whether successes are recorded too.
    #[inline(always)]
    pub fn records_successes(&self) -> bool
        ensures { result ≡ self.now.records_successes }
    {
        self.records_successes
    }

    /// Returns the key of a thread at an instruction and an offset with these loop states. Returns
    /// `None` if the instruction does not record.
    #[inline(always)]
    pub fn key_at<R: IterationStatesOfAllLoops>(
        &self,
        ip: usize,
        at: usize,
        rounds: &R,
    ) -> Option<ThreadMemoKey>
        ensures key { (s : State) → s.ip ≡ ip → s.pos ≡ at → s.loops ≡ R.rounds rounds.now
            → option_map memo_key_as_spec result ≡ memo_key_at self.now.memo_analysis s }
        ensures bit { at < self.now.places
            → IfSome result (λ key. IsRecordableMemoKey self.now.memo_analysis self.now.places (memo_key_as_spec key)) }
    {
        let line = self.memo_analysis.insn_analysis_at(ip);
        if !line.records {
            return None;
        }
        let code = if line.codes == 1 {
            0
        } else {
            self.memo_analysis.code_at(ip, at, rounds)
        };
        Some(ThreadMemoKey { ip, at, code })
    }

    /// Checks whether the key exists: its instruction records, and its offset and its code are in
    /// range.
    pub fn has(&self, key: ThreadMemoKey) -> bool
        ensures { IsTrue result ↔ IsRecordableMemoKey self.now.memo_analysis self.now.places (memo_key_as_spec key) }
    {
        let line = self.memo_analysis.insn_analysis_at(key.ip);
        key.ip < self.memo_analysis.lines.len()
            && line.records
            && key.at < self.places
            && key.code < line.codes
    }

    /// Checks whether the key is known to fail.
    #[inline(always)]
    pub fn fails(&self, key: ThreadMemoKey) -> bool
        requires { IsRecordableMemoKey self.now.memo_analysis self.now.places (memo_key_as_spec key) }
        ensures { result ≡ has_failure self.now (memo_key_as_spec key) }
    {
        let bit = memo_bit_index_of_key(&self.memo_analysis, self.places, key);
        self.failures.has(bit)
    }

    /// Checks whether the key is known to reach an end.
    #[inline(always)]
    pub fn is_known_to_reach_end(&self, key: ThreadMemoKey) -> bool
        requires { IsRecordableMemoKey self.now.memo_analysis self.now.places (memo_key_as_spec key) }
        ensures { result ≡ has_success self.now (memo_key_as_spec key) }
    {
        let bit = memo_bit_index_of_key(&self.memo_analysis, self.places, key);
        self.records_successes && self.ends.has(bit)
    }

    /// Records that the key fails.
    #[inline(always)]
    pub fn record_failure(&mut self, key: ThreadMemoKey)
        requires { IsRecordableMemoKey self.old.memo_analysis self.old.places (memo_key_as_spec key) }
        ensures { RecordsFailure (memo_key_as_spec key) self.old self.new }
    {
        let bit = memo_bit_index_of_key(&self.memo_analysis, self.places, key);
        self.failures.set(bit);
    }

    /// Records that the key reaches an end.
    #[inline(always)]
    pub fn record_success(&mut self, key: ThreadMemoKey)
        requires wanted { self.old.records_successes ≡ true }
        requires key { IsRecordableMemoKey self.old.memo_analysis self.old.places (memo_key_as_spec key) }
        ensures { RecordsSuccess (memo_key_as_spec key) self.old self.new }
    {
        let bit = memo_bit_index_of_key(&self.memo_analysis, self.places, key);
        self.ends.set(bit);
    }
}

// Returns the index of a key's bit.
#[inline(always)]
fn memo_bit_index_of_key(memo_analysis: &MemoAnalysis, places: usize, key: ThreadMemoKey) -> usize
    requires coded { HasDisjointCodes memo_analysis.now }
    requires key { IsRecordableMemoKey memo_analysis.now places (memo_key_as_spec key) }
    requires fits { memo_analysis.now.codes * places < 2 ^ 64 }
    ensures bit { result ≡ spec_memo_bit_index_of_key memo_analysis.now places key.ip key.at key.code }
    ensures below { result < memo_analysis.now.codes * places }
{
    memo_analysis.key_bit_index_at(places, key.ip, key.at, key.code)
}
