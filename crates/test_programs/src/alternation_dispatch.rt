//! Writes which arms of alternations may match, by the next unit.

use regex_pattern_front::ir::Regex;
use regress_program::alternation_dispatch::{ArmDispatchTables, FirstViableArmTable};
use regress_program::emit::{emit, emit_units};
use regress_program::table_keys_of_units::KEYS;
use std::alloc::{AllocError, Global};

// Writes the arm tables of the plan for texts in bytes.
pub(crate) fn write_arms_by_key(
    alloc: Global,
    text: &mut String,
    tree: &Regex,
) -> Result<(), AllocError> {
    match emit(alloc, tree) {
        Ok(program) => write_each(text, &program.plan().arm_dispatch_tables),
        Err(_) => Ok(()),
    }
}

// Writes the arm tables of the plan for texts of 16-bit units.
pub(crate) fn write_unit_arms_by_key(
    alloc: Global,
    text: &mut String,
    tree: &Regex,
) -> Result<(), AllocError> {
    match emit_units(alloc, tree) {
        Ok(program) => write_each(text, &program.plan().arm_dispatch_tables),
        Err(_) => Ok(()),
    }
}

// Writes each table after the operation at which its alternation begins.
fn write_each(text: &mut String, choices: &ArmDispatchTables) -> Result<(), AllocError> {
    for (head, number) in choices.heads.iter().enumerate() {
        if let Some(choice) = choices.choices.get(usize::from(*number)) {
            if !text.is_empty() {
                text.push_str("; ")?;
            }
            write!(text, "at {head}")?;
            write_rows(text, choices, choice)?;
        }
    }
    if text.is_empty() {
        text.push_str("none")
    } else {
        Ok(())
    }
}

// Writes the arms after the first key of each run of equal rows, and those of the text's end if
// they differ from the last key's.
fn write_rows(
    text: &mut String,
    choices: &ArmDispatchTables,
    choice: &FirstViableArmTable,
) -> Result<(), AllocError> {
    let mut before = None;
    for (seen, first) in choice.first.iter().enumerate() {
        if before != Some(*first) {
            if seen < KEYS {
                write!(text, " {seen}:")?;
            } else {
                text.push_str(" end:")?;
            }
            write_arms(text, choices, usize::from(*first))?;
        }
        before = Some(*first);
    }
    Ok(())
}

// Writes the operations of a row of arms, from one of them on.
fn write_arms(
    text: &mut String,
    choices: &ArmDispatchTables,
    first: usize,
) -> Result<(), AllocError> {
    for arm in choices.arms.get(first..).unwrap_or(&[]) {
        write!(text, "{}", arm.op)?;
        if !arm.more {
            return Ok(());
        }
        text.push_str(",")?;
    }
    Ok(())
}
