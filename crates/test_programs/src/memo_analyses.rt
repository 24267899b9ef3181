//! Writes which instructions of a program record, their numbers of codes, the cost of all of them
//! per offset, and codes of threads.

ghost use Rattle.regress_memo.specs.CheckedAnalysis.{HasDisjointCodes};

use regex_pattern_front::ir::Regex;
use regress_memo::analysis_result::MemoAnalysis;
use regress_memo::loop_data_key_codes::LoopCountAndIterationStart;
use regress_program::emit::emit;
use std::alloc::{AllocError, Global};

// Writes the memo analysis of a tree's program for texts in bytes, if it has one.
pub(crate) fn write_memo_analysis(
    alloc: Global,
    text: &mut String,
    tree: &Regex,
) -> Result<(), AllocError> {
    let Ok(program) = emit(alloc, tree) else {
        return text.push_str("no program");
    };
    let loops = program.common_program().loops() as usize;
    match MemoAnalysis::new(alloc, program.insns(), loops)? {
        Some(memo_analysis) => write_recording_insns(text, &memo_analysis),
        None => text.push_str("none"),
    }
}

// Writes each recording instruction with its number of codes, and the total cost.
fn write_recording_insns(
    text: &mut String,
    memo_analysis: &MemoAnalysis,
) -> Result<(), AllocError> {
    let mut all = 0u64;
    for (ip, line) in memo_analysis.lines.iter().enumerate() {
        if line.records {
            write!(text, "{ip}x{} ", line.codes)?;
            let cost = u64::from(line.key_cost).saturating_mul(line.codes as u64);
            all = all.saturating_add(cost);
        }
    }
    write!(text, "for {all}")
}

// Writes the codes of threads at the recording instructions with several codes, if the program has
// a memo analysis.
pub(crate) fn write_codes(
    alloc: Global,
    text: &mut String,
    tree: &Regex,
) -> Result<(), AllocError> {
    let Ok(program) = emit(alloc, tree) else {
        return text.push_str("no program");
    };
    let loops = program.common_program().loops() as usize;
    match MemoAnalysis::new(alloc, program.insns(), loops)? {
        Some(memo_analysis) => write_each(alloc, text, &memo_analysis, loops),
        None => text.push_str("none"),
    }
}

// Writes the codes of one instruction after another.
fn write_each(
    alloc: Global,
    text: &mut String,
    memo_analysis: &MemoAnalysis,
    loops: usize,
) -> Result<(), AllocError>
    requires { HasDisjointCodes memo_analysis.now }
{
    for ip in 0..memo_analysis.lines.len() {
        let line = memo_analysis.insn_analysis_at(ip);
        if line.records && line.codes > 1 {
            if !text.is_empty() {
                text.push_str("; ")?;
            }
            write!(text, "{ip}:")?;
            write_codes_at(alloc, text, memo_analysis, loops, ip)?;
        }
    }
    if text.is_empty() {
        text.push_str("one each")
    } else {
        Ok(())
    }
}

// Writes the codes after zero to four iterations of each loop, if the current iteration has read a
// character and if it has not. A mark shows states that are not sound at the end of a text of one
// unit.
fn write_codes_at(
    alloc: Global,
    text: &mut String,
    memo_analysis: &MemoAnalysis,
    loops: usize,
    ip: usize,
) -> Result<(), AllocError>
    requires { HasDisjointCodes memo_analysis.now }
{
    for number in 0..10usize {
        let round = LoopCountAndIterationStart {
            iters: number / 2,
            entry: number % 2,
        };
        let rounds = Vec::from_elem(alloc, round, loops)?;
        let code = memo_analysis.code_at(ip, 1, &rounds);
        let mark = if memo_analysis.is_reachable_loop_state(ip, 1, 1, &rounds) {
            ""
        } else {
            "!"
        };
        write!(text, " {code}{mark}")?;
    }
    Ok(())
}
