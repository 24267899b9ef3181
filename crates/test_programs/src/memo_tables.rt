//! Counts the keys that a memo table for three offsets records, one by one.

ghost use Rattle.std.specs.Prelude.{IfOk, IfSome};
ghost use Rattle.regress_memo.specs.CheckedAnalysis.{HasDisjointCodes};

use regex_pattern_front::ir::Regex;
use regress_memo::analysis_result::MemoAnalysis;
use regress_memo::memo::{MemoTable, ThreadMemoKey};
use regress_program::emit::emit;
use std::alloc::{AllocError, Global};

/// The number of offsets, and the number of codes that are tested.
const PLACES: usize = 3;

const CODES: usize = 7;

// If the byte program of a tree has a memo analysis, writes the number of its keys, and whether
// there can be a table for the greatest number of offsets.
pub(crate) fn write_memo_table(
    alloc: Global,
    text: &mut String,
    tree: &Regex,
) -> Result<(), AllocError> {
    let Some(memo_analysis) = memo_analysis_of(alloc, tree)? else {
        return text.push_str("none");
    };
    match MemoTable::new(alloc, memo_analysis, PLACES, true)? {
        Some(mut memo) => write_keys(text, &mut memo)?,
        None => text.push_str("too many")?,
    }
    let Some(memo_analysis) = memo_analysis_of(alloc, tree)? else {
        return text.push_str("none");
    };
    match MemoTable::new(alloc, memo_analysis, usize::MAX, false) {
        Ok(Some(_memo)) => text.push_str(", in all places"),
        Ok(None) => text.push_str(", too many"),
        Err(_) => text.push_str(", refused"),
    }
}

// Returns the memo analysis of a program, if it has one.
fn memo_analysis_of(alloc: Global, tree: &Regex) -> Result<Option<MemoAnalysis>, AllocError>
    ensures { IfOk result (λ found. IfSome found HasDisjointCodes) }
{
    let Ok(program) = emit(alloc, tree) else {
        return Ok(None);
    };
    let loops = program.common_program().loops() as usize;
    MemoAnalysis::new(alloc, program.insns(), loops)
}

// Records each key as failing, and then as finding an end. Counts the keys for which this changes
// no other key.
fn write_keys(text: &mut String, memo: &mut MemoTable) -> Result<(), AllocError> {
    let mut noted = 0usize;
    for ip in 0..memo.memo_analysis().lines.len() {
        for at in 0..PLACES + 1 {
            for code in 0..CODES {
                if is_only_failing_key(memo, ThreadMemoKey { ip, at, code }) {
                    noted = noted.wrapping_add(1);
                }
            }
        }
    }
    write!(text, "{noted} fail")?;
    let mut noted = 0usize;
    for ip in 0..memo.memo_analysis().lines.len() {
        for at in 0..PLACES + 1 {
            for code in 0..CODES {
                if is_only_key_finding_end(memo, ThreadMemoKey { ip, at, code }) {
                    noted = noted.wrapping_add(1);
                }
            }
        }
    }
    write!(text, ", {noted} find an end")
}

// Checks whether a key is recorded as failing and no other key changes.
fn is_only_failing_key(memo: &mut MemoTable, key: ThreadMemoKey) -> bool {
    if !memo.has(key) || memo.fails(key) {
        return false;
    }
    let before = known(memo);
    memo.record_failure(key);
    let after = known(memo);
    memo.fails(key) && after.0 == before.0.wrapping_add(1) && after.1 == before.1
}

// Checks whether a key is recorded as finding an end and no other key changes.
fn is_only_key_finding_end(memo: &mut MemoTable, key: ThreadMemoKey) -> bool {
    if !memo.has(key) || memo.is_known_to_reach_end(key) || !memo.records_successes() {
        return false;
    }
    let before = known(memo);
    memo.record_success(key);
    let after = known(memo);
    memo.is_known_to_reach_end(key) && after.1 == before.1.wrapping_add(1) && after.0 == before.0
}

// Returns the number of keys that are known to fail, and that are known to find an end.
fn known(memo: &MemoTable) -> (usize, usize) {
    let (mut failures, mut ends) = (0usize, 0usize);
    for ip in 0..memo.memo_analysis().lines.len() {
        for at in 0..PLACES + 1 {
            for code in 0..CODES {
                let key = ThreadMemoKey { ip, at, code };
                if memo.has(key) && memo.fails(key) {
                    failures = failures.wrapping_add(1);
                }
                if memo.has(key) && memo.is_known_to_reach_end(key) {
                    ends = ends.wrapping_add(1);
                }
            }
        }
    }
    (failures, ends)
}
