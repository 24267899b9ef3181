//! Writes whether the contents of lookaheads match, by the next unit.

use regex_pattern_front::ir::Regex;
use regress_program::emit::{emit, emit_units};
use regress_program::lookahead_and_exit_tables::{
    LookaheadAndExitTables, LookaheadOrExitTable, LookaheadOrExitVerdict,
};
use regress_program::table_keys_of_units::KEYS;
use std::alloc::{AllocError, Global};

// Writes the tables of the plan for texts in bytes.
pub(crate) fn write_lookaheads(
    alloc: Global,
    text: &mut String,
    tree: &Regex,
) -> Result<(), AllocError> {
    match emit(alloc, tree) {
        Ok(program) => write_each(text, &program.plan().lookahead_and_exit_tables),
        Err(_) => Ok(()),
    }
}

// Writes the tables of the plan for texts of 16-bit units.
pub(crate) fn write_unit_lookaheads(
    alloc: Global,
    text: &mut String,
    tree: &Regex,
) -> Result<(), AllocError> {
    match emit_units(alloc, tree) {
        Ok(program) => write_each(text, &program.plan().lookahead_and_exit_tables),
        Err(_) => Ok(()),
    }
}

// Writes the verdicts on each lookahead after its operation.
fn write_each(text: &mut String, decided: &LookaheadAndExitTables) -> Result<(), AllocError> {
    for (head, number) in decided.heads.iter().enumerate() {
        if let Some(verdicts) = decided.verdicts.get(usize::from(*number)) {
            if !text.is_empty() {
                text.push_str("; ")?;
            }
            write!(text, "at {head}")?;
            write_rows(text, verdicts)?;
        }
    }
    if text.is_empty() {
        text.push_str("none")
    } else {
        Ok(())
    }
}

// Writes the verdict after the first key of each run of equal verdicts, and that of the text's end
// if it differs from the last key's.
fn write_rows(text: &mut String, verdicts: &LookaheadOrExitTable) -> Result<(), AllocError> {
    let mut before = "";
    for (seen, verdict) in verdicts.by.iter().enumerate() {
        let word = word_of(*verdict);
        if before != word {
            if seen < KEYS {
                write!(text, " {seen}:{word}")?;
            } else {
                write!(text, " end:{word}")?;
            }
        }
        before = word;
    }
    Ok(())
}

fn word_of(verdict: LookaheadOrExitVerdict) -> &'static str {
    match verdict {
        LookaheadOrExitVerdict::No => "no",
        LookaheadOrExitVerdict::Yes => "yes",
        LookaheadOrExitVerdict::Evaluate => "ask",
    }
}
