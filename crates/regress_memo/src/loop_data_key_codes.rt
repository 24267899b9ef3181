//! Key codes: one number for the loop states of a thread, as far as memo keys distinguish them.

ghost use Rattle.std.specs.Prelude.{◌≡◌, ◌≤◌, ◌<◌, ◌+◌, ◌*◌, ◌^◌, true, List, option_map, map, length, slice_get, IfSome};
ghost use Rattle.regress_machine.specs.Machine.{State, LoopData};
ghost use Rattle.regress_memo.specs.LoopDataKeyCodes.{code_of, codes_of, plan_codes};
ghost use Rattle.regress_memo.specs.AnalysisAsPotentials.{insn_analysis_of, count_bound_of, key_code_questions_of, memo_codes_before_insn, number_of_memo_codes_at_insn, memo_bit_index_of_key};
ghost use Rattle.regress_memo.specs.AnalysisChecks.{HasDisjointCodesAt, max_codes_per_insn};
ghost use Rattle.regress_memo.specs.CheckedAnalysis.{loop_iteration_state_as_spec, digit_of, radix_of_loop_digit, HasDisjointCodes, IsRecordableMemoKey};

use crate::analysis_result::{EnclosingLoop, MemoAnalysis};
use regex_pattern_front::types::LoopID;

/// The maximum number of codes at an instruction.
pub const MOST_CODES: usize = 64;

/// A loop's number of finished iterations, and the offset at which the current iteration began.
#[derive(Clone, Copy)]
pub struct LoopCountAndIterationStart {
    pub iters: usize,
    pub entry: usize,
}

/// The states of all loops.
pub trait IterationStatesOfAllLoops {
    ghost rounds: { Self → List LoopData };

    /// Returns the state of a loop, if it exists.
    fn iteration_state_of_loop(&self, id: LoopID) -> Option<LoopCountAndIterationStart>
        ensures { option_map loop_iteration_state_as_spec result ≡ slice_get (rounds self.now) id };
}

impl IterationStatesOfAllLoops for Vec<LoopCountAndIterationStart> {
    ghost rounds = { λ v. map loop_iteration_state_as_spec v.items };

    fn iteration_state_of_loop(&self, id: LoopID) -> Option<LoopCountAndIterationStart> {
        self.get(usize::from(id)).copied()
    }
}

// The first digits of a code, and the number of different prefixes of that length.
#[derive(Clone, Copy)]
struct KeyCodePrefix {
    code: usize,
    codes: usize,
}

impl MemoAnalysis {
    /// Returns the code of a thread at an instruction and an offset with these loop states.
    ///
    /// The code is that of the questions that the analysis asks at the instruction.
    pub fn code_at<R: IterationStatesOfAllLoops>(&self, ip: usize, at: usize, rounds: &R) -> usize
        requires { HasDisjointCodes self.now }
        ensures { (s : State) → s.pos ≡ at → s.loops ≡ R.rounds rounds.now
            → result ≡ code_of (key_code_questions_of self.now ip) s }
    {
        let rows = self.enclosing_loops(ip);
        let mut digits = KeyCodePrefix { code: 0, codes: 1 };
        for row in rows {
            let digit = self.digit(row, at, rounds.iteration_state_of_loop(row.id));
            let answers = self.number_of_digit_values(row);
            digits = digits.append_digit(digit, answers);
        }
        digits.code
    }

    // Returns the digit of an entry.
    fn digit(
        &self,
        row: &EnclosingLoop,
        at: usize,
        loop_iteration_state: Option<LoopCountAndIterationStart>,
    ) -> usize
        ensures { result ≡ digit_of (count_bound_of self.now row.now.id).up_to at
            (option_map loop_iteration_state_as_spec loop_iteration_state) row.now }
    {
        let Some(loop_iteration_state) = loop_iteration_state else {
            return 0;
        };
        let count = loop_iteration_state
            .iters
            .min(usize::from(self.count_bound_of_loop(row.id).up_to));
        if row.empty {
            usize::from(loop_iteration_state.entry == at) + 2 * count
        } else {
            count
        }
    }

    // Returns the number of values that the digit of an entry may have.
    fn number_of_digit_values(&self, row: &EnclosingLoop) -> usize
        ensures answers { result ≡ radix_of_loop_digit (count_bound_of self.now row.now.id).up_to row.now }
        ensures few { result ≤ 2 ^ 17 }
    {
        let counts = usize::from(self.count_bound_of_loop(row.id).up_to) + 1;
        if row.empty { 2 * counts } else { counts }
    }

    // Returns the number of codes at an instruction. Returns `None` if it is more than
    // `MOST_CODES`.
    pub(crate) fn code_count_at(&self, ip: usize) -> Option<usize>
        ensures codes { IfSome result (λ codes. plan_codes (key_code_questions_of self.now) ip ≡ codes) }
        ensures few { IfSome result (λ codes. codes ≤ max_codes_per_insn) }
    {
        let rows = self.enclosing_loops(ip);
        let mut codes = 1usize;
        for row in rows {
            let answers = self.number_of_digit_values(row);
            codes *= answers;
            if codes > MOST_CODES {
                return None;
            }
        }
        Some(codes)
    }

    // Checks that the number of codes of an instruction is right, and that its bits come before
    // those of the next instruction.
    pub(crate) fn has_disjoint_codes_at(&self, ip: usize) -> bool
        requires { ip + 1 < 2 ^ 64 }
        ensures { result ≡ true → HasDisjointCodesAt self.now ip }
    {
        let codes = self.insn_analysis_at(ip).codes;
        self.code_count_at(ip) == Some(codes) && self.is_apart(ip)
    }

    // Checks that the bits of an instruction come before those of the next one.
    fn is_apart(&self, ip: usize) -> bool
        requires { ip + 1 < 2 ^ 64 }
        ensures { result ≡ true → memo_codes_before_insn self.now ip + number_of_memo_codes_at_insn self.now
            ip ≤ memo_codes_before_insn self.now (ip + 1) }
    {
        let line = self.insn_analysis_at(ip);
        let width = if line.records { line.codes } else { 0 };
        let (base, next) = (self.base(ip), self.base(ip + 1));
        base <= next && width <= next - base
    }

    // Returns the number of codes at all recording instructions before this one.
    fn base(&self, ip: usize) -> usize
        ensures { result ≡ memo_codes_before_insn self.now ip }
    {
        if ip < self.lines.len() {
            self.insn_analysis_at(ip).base
        } else {
            self.codes
        }
    }

    /// Returns the bit index of a key in a memo table for `places` offsets.
    #[inline(always)]
    pub fn key_bit_index_at(&self, places: usize, ip: usize, at: usize, code: usize) -> usize
        requires coded { HasDisjointCodes self.now }
        requires key { IsRecordableMemoKey self.now places (record { ip = ip; at = at; code = code }) }
        requires fits { self.now.codes * places < 2 ^ 64 }
        ensures bit { result ≡ memo_bit_index_of_key self.now places ip at code }
        ensures below { result < self.now.codes * places }
    {
        let line = self.insn_analysis_at(ip);
        line.base * places + (at * line.codes + code)
    }
}

impl KeyCodePrefix {
    // Appends a digit with the given base.
    fn append_digit(self, digit: usize, base: usize) -> KeyCodePrefix
        requires code { self.code < self.codes }
        requires digit { digit < base }
        requires few { self.codes * base ≤ max_codes_per_insn }
        ensures { result ≡ record { code = self.code + self.codes * digit; codes = self.codes * base } }
    {
        KeyCodePrefix {
            code: self.code + self.codes * digit,
            codes: self.codes * base,
        }
    }
}
