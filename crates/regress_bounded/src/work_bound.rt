//! Work bounds: how much work suffices for all matches of a text.

ghost use Rattle.std.specs.Arc.{arc_value};
ghost use Rattle.std.specs.Prelude.{◌≡◌, ◌+◌, ◌-◌, ◌/◌, ◌*◌, ◌≤◌, ◌^◌, IfErr, IfOk, IfSome, MatchOption, OnOk, false, map, min, nat_le, true};
ghost use Rattle.std.specs.List.{list_any, sum_by};
ghost use Rattle.regex_pattern_front.specs.AstToSpecTree.{tree_of};
ghost use Rattle.regress_memo.specs.CheckedAnalysis.{HasDisjointCodes};
ghost use Rattle.regress_memo.specs.MemoContents.{IsEmptyMemo};
ghost use Rattle.regress_program.specs.InsnsAsSpec.{insn_as_spec_insn};
ghost use Rattle.regress_bounded.specs.Unboundedness.{HasOnlySimpleLookarounds, IsReasonForUnboundedness, is_lookaround_or_backref_insn};
ghost use Rattle.regress_bounded.specs.WorkBoundForAllMatches.{TreeHasWorkBound, first_stage_work_per_position, most_memo_codes_per_insn, work_size_of_insn};

use crate::complex_lookarounds::has_complex_lookaround;
use regress_memo::analysis_result::MemoAnalysis;
use regress_memo::loop_data_key_codes::MOST_CODES;
use regress_memo::memo::MemoTable;
use regress_program::insn::{CompiledRegex, CompiledRegexFor16BitUnits, Insn, Program};
use std::alloc::{AllocError, AllocFailed, Global};
use std::sync::Arc;
use thiserror::Error;

// The work of the first stage of a search for each position of the text.
pub(crate) const FIRST_STAGE_WORK_PER_POSITION: u64 = 16;

// The largest accepted bound, per unit of program size and per key code. If a bound is larger, no
// bound is known.
const MAX_BOUND_PER_SIZE_AND_CODE: u64 = 64;

// A loop over one character with this maximum or a larger one has no memo analysis.
const UNANALYZABLE_CHAR_LOOP_MAX: usize = 0x1_0000;

// From this minimum on, the costs of a loop over one character alone may be too large.
const COSTLY_CHAR_LOOP_MIN: usize = 0x4000_0000;

/// Why a pattern has no known work bound.
#[derive(Clone, Copy, Debug, PartialEq, Eq, Error)]
pub enum Unbounded {
    /// An allocation failed. The pattern may have a bound.
    #[error("out of memory")]
    Memory,
    /// The contents of a lookahead or a lookbehind have a loop, or alternatives that more contents
    /// follow (`docs/LINEAR.md`). In bytes, a loop over one character with a maximum is allowed.
    #[error("no work bound is known: a lookaround has a loop, or alternatives before its end")]
    Lookaround,
    /// The pattern has a backreference.
    #[error("no work bound is known: the pattern has a backreference")]
    Backreference,
    /// The counts of loops are too large, or loops are nested too deeply. An instruction needs more
    /// than 64 key codes, or a loop over one character has a maximum of 65,536 or more or a minimum
    /// of about 2^31 (`docs/LINEAR.md`).
    #[error("no work bound is known: counts are too large, or loops are nested too deeply")]
    Count,
    /// The bound does not fit in 64 bits, or is more than 64 times the program's size times its
    /// largest number of key codes, or the cost of an instruction does not fit in 31 bits, or
    /// lookarounds are nested more than 64 deep. Many lazy loops in sequence are one cause.
    #[error("no work bound is known: the bound is too large, or lookarounds are nested too deeply")]
    BoundTooLarge,
}

impl From<AllocError> for Unbounded {
    ghost use Rattle.regress_bounded.specs.declared.work_bound.Unbounded.TheVariants.{Memory};

    ghost from_gives = { λ _ e. e ≡ Memory };

    fn from(_: AllocError) -> Unbounded {
        Unbounded::Memory
    }
}

impl<T: Drop> From<AllocFailed<T>> for Unbounded {
    ghost use Rattle.regress_bounded.specs.declared.work_bound.Unbounded.TheVariants.{Memory};

    ghost from_gives = { λ _ e. e ≡ Memory };

    fn from(_: AllocFailed<T>) -> Unbounded {
        Unbounded::Memory
    }
}

/// How much work suffices for all matches of a text together, with the memo analysis that proves
/// it.
#[derive(Drop)]
pub struct WorkBound {
    memo_analysis: Arc<MemoAnalysis, Global>,
    per_unit: u64,
}

impl WorkBound {
    /// Computes the work bound for searches of byte texts.
    ///
    /// # Errors
    ///
    /// Returns the reason why no bound is known. A backreference is reported before a lookaround.
    pub fn bound_for_bytes(re: &CompiledRegex) -> Result<WorkBound, Unbounded>
        ensures bound { IfOk result (TreeHasWorkBound (tree_of re.now)) }
        ensures plain { OnOk result (HasOnlySimpleLookarounds (tree_of re.now)) }
        ensures refused { IfErr result (IsReasonForUnboundedness (tree_of re.now)) }
    {
        WorkBound::bound_of_program(re.common_program())
    }

    /// Computes the work bound for searches of texts of 16-bit units, like `bound_for_bytes`.
    ///
    /// # Errors
    ///
    /// The same as for `bound_for_bytes`.
    pub fn bound_for_units(re: &CompiledRegexFor16BitUnits) -> Result<WorkBound, Unbounded>
        ensures bound { IfOk result (TreeHasWorkBound (tree_of re.now)) }
        ensures plain { OnOk result (HasOnlySimpleLookarounds (tree_of re.now)) }
        ensures refused { IfErr result (IsReasonForUnboundedness (tree_of re.now)) }
    {
        WorkBound::bound_of_program(re.common_program())
    }

    // Computes the bound of a program.
    fn bound_of_program(program: &Program) -> Result<WorkBound, Unbounded>
        ensures bound { IfOk result (TreeHasWorkBound (tree_of program.now)) }
        ensures plain { OnOk result (HasOnlySimpleLookarounds (tree_of program.now)) }
        ensures refused { IfErr result (IsReasonForUnboundedness (tree_of program.now)) }
    {
        let alloc = program.allocator();
        let insns = program.insns();
        if has_backreference(insns) {
            return Err(Unbounded::Backreference);
        }
        if has_complex_lookaround(insns) {
            return Err(Unbounded::Lookaround);
        }
        let Some(memo_analysis) = MemoAnalysis::new(alloc, insns, program.loops() as usize)? else {
            if counts_may_cause_no_bound(insns) {
                return Err(Unbounded::Count);
            }
            return Err(Unbounded::BoundTooLarge);
        };
        let Some(work) = memo_analysis.work_per_position(insns) else {
            return Err(Unbounded::BoundTooLarge);
        };
        let Some(per_unit) = work_per_position_of_stages(work) else {
            return Err(Unbounded::BoundTooLarge);
        };
        if !is_bound_small_enough(
            per_unit,
            program_size(insns),
            most_memo_codes_per_insn(&memo_analysis),
        ) {
            return Err(Unbounded::BoundTooLarge);
        }
        let memo_analysis = Arc::new(alloc, memo_analysis)?;
        Ok(WorkBound {
            memo_analysis,
            per_unit,
        })
    }

    /// Returns the bound per code unit. For a text of `n` units, `n + 1` times this much work
    /// suffices.
    pub fn per_unit(&self) -> u64
        ensures { result ≡ self.now.per_unit }
    {
        self.per_unit
    }

    // Returns the same bound.
    pub(crate) fn clone(&self) -> Result<WorkBound, AllocError>
        ensures analysis { IfOk result (λ b. arc_value b.memo_analysis ≡ arc_value self.now.memo_analysis) }
        ensures per_unit { IfOk result (λ b. b.per_unit ≡ self.now.per_unit) }
    {
        Ok(WorkBound {
            memo_analysis: self.memo_analysis.clone()?,
            per_unit: self.per_unit,
        })
    }

    // Allocates an empty memo table of failures for `places` offsets.
    pub(crate) fn empty_memo_table(
        &self,
        alloc: Global,
        places: usize,
    ) -> Result<Option<MemoTable>, AllocError>
        requires { HasDisjointCodes (arc_value self.now.memo_analysis) }
        ensures { IfOk result (λ found. MatchOption found (2 ^ 64 ≤ (arc_value self.now.memo_analysis).codes * places)
            (IsEmptyMemo (arc_value self.now.memo_analysis) places false)) }
    {
        MemoTable::new_with_shared_analysis(alloc, self.memo_analysis.clone()?, places, false)
    }
}

// Returns the work per position: that of the first stage, 1 to pass the position, the work of all
// searches together, and the work of one more search.
fn work_per_position_of_stages(work: u64) -> Option<u64>
    ensures { IfSome result (λ all. all ≡ first_stage_work_per_position + (1 + (work + work / 3))) }
{
    work.checked_add(work / 3)?
        .checked_add(FIRST_STAGE_WORK_PER_POSITION + 1)
}

// Checks that the bound is at most a constant times the program size times the number of codes.
fn is_bound_small_enough(per_unit: u64, size: u64, codes: u64) -> bool
    ensures { result ≡ nat_le per_unit (64 * (size * codes)) }
{
    per_unit
        <= size
            .saturating_mul(codes)
            .saturating_mul(MAX_BOUND_PER_SIZE_AND_CODE)
}

// Returns the size of a program, or `u64::MAX` if that is larger.
fn program_size(insns: &[Insn]) -> u64
    ensures { result ≡ min (sum_by work_size_of_insn (map insn_as_spec_insn insns.now)) (2 ^ 64 - 1) }
{
    let mut all = 0u64;
    for insn in insns {
        all = all.saturating_add(insn_size(*insn));
    }
    all
}

// Returns the size of an instruction: 1, plus the maximum of a char loop or, if it has none, its
// minimum.
fn insn_size(insn: Insn) -> u64
    ensures { result ≡ min (work_size_of_insn (insn_as_spec_insn insn)) (2 ^ 64 - 1) }
{
    let Insn::Loop1CharBody {
        min_iters,
        max_iters,
        ..
    } = insn
    else {
        return 1;
    };
    let bound = if max_iters == usize::MAX {
        min_iters
    } else {
        max_iters
    };
    (bound as u64).saturating_add(1)
}

// Returns the largest number of codes at an instruction.
fn most_memo_codes_per_insn(memo_analysis: &MemoAnalysis) -> u64
    ensures { result ≡ most_memo_codes_per_insn memo_analysis.now }
{
    let lines = memo_analysis.lines.as_slice();
    let mut most = 0;
    for line in lines {
        most = most.max(line.codes);
    }
    most as u64
}

/// Checks whether an instruction is a lookaround.
pub(crate) fn is_lookaround(insn: &Insn) -> bool
    ensures { result ≡ is_lookaround_or_backref_insn true (insn_as_spec_insn insn.now) }
{
    matches!(insn, Insn::Lookahead { .. } | Insn::Lookbehind { .. })
}

// Checks whether a program has a backreference.
fn has_backreference(insns: &[Insn]) -> bool
    ensures { result ≡ list_any (λ insn. is_lookaround_or_backref_insn false (insn_as_spec_insn insn)) insns.now }
{
    insns.iter().any(|insn| is_backreference(insn))
}

// Checks whether an instruction is a backreference.
fn is_backreference(insn: &Insn) -> bool
    ensures { result ≡ is_lookaround_or_backref_insn false (insn_as_spec_insn insn.now) }
{
    matches!(insn, Insn::BackRef { .. })
}

// Checks whether counts or nested loops may be the reason why a program without backreferences, and
// with simple lookarounds at most, has no memo analysis. If not, its costs are too large, or its
// lookarounds are nested too deeply. This is not proved.
fn counts_may_cause_no_bound(insns: &[Insn]) -> bool {
    let mut codes = 1usize;
    for insn in insns {
        match *insn {
            Insn::EnterLoop { .. } => codes = codes.saturating_mul(max_memo_code_factor_of_loop(
                insn,
            )),
            Insn::LoopAgain { begin } => codes /= max_memo_code_factor_at_loop(
                insns,
                begin as usize,
            ),
            _ => {}
        }
        if codes > MOST_CODES || has_large_count(insn) {
            return true;
        }
    }
    false
}

// Returns the largest factor by which the loop at `begin` may multiply the number of codes.
fn max_memo_code_factor_at_loop(insns: &[Insn], begin: usize) -> usize
    ensures { 1 ≤ result }
{
    match insns.get(begin) {
        Some(insn) => max_memo_code_factor_of_loop(insn),
        None => 1,
    }
}

// Returns the largest factor by which a loop with this head may multiply the number of codes: the
// number of distinguished counts, times two if empty iterations are distinguished.
fn max_memo_code_factor_of_loop(insn: &Insn) -> usize
    ensures { 1 ≤ result }
{
    let Insn::EnterLoop {
        min_iters,
        max_iters,
        ..
    } = *insn
    else {
        return 1;
    };
    let counts = if max_iters == usize::MAX {
        min_iters.saturating_add(1)
    } else {
        max_iters.max(1)
    };
    counts.saturating_mul(2)
}

// Checks whether an instruction is a loop over one character whose count is too large for a memo
// analysis.
fn has_large_count(insn: &Insn) -> bool {
    let Insn::Loop1CharBody {
        min_iters,
        max_iters,
        ..
    } = *insn
    else {
        return false;
    };
    min_iters >= COSTLY_CHAR_LOOP_MIN
        || (max_iters >= UNANALYZABLE_CHAR_LOOP_MAX && max_iters != usize::MAX)
}
