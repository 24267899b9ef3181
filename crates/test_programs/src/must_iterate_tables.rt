//! Writes the units over which loops must iterate.

use regex_pattern_front::ir::Regex;
use regress_program::emit::{emit, emit_units};
use regress_program::must_iterate_tables::{MustIterateTable, MustIterateTables};
use std::alloc::{AllocError, Global};

// Writes the tables of the plan for texts in bytes.
pub(crate) fn write_must_iterate(
    alloc: Global,
    text: &mut String,
    tree: &Regex,
) -> Result<(), AllocError> {
    match emit(alloc, tree) {
        Ok(program) => write_each(text, &program.plan().must_iterate_tables),
        Err(_) => Ok(()),
    }
}

// Writes the tables of the plan for texts of 16-bit units.
pub(crate) fn write_unit_must_iterate(
    alloc: Global,
    text: &mut String,
    tree: &Regex,
) -> Result<(), AllocError> {
    match emit_units(alloc, tree) {
        Ok(program) => write_each(text, &program.plan().must_iterate_tables),
        Err(_) => Ok(()),
    }
}

// Writes the keys of each loop after the operation at which its body ends.
fn write_each(text: &mut String, rounds: &MustIterateTables) -> Result<(), AllocError> {
    for (end, number) in rounds.ends.iter().enumerate() {
        if let Some(over) = rounds.units.get(usize::from(*number)) {
            if !text.is_empty() {
                text.push_str("; ")?;
            }
            write!(text, "at {end}")?;
            write_keys(text, over)?;
        }
    }
    if text.is_empty() {
        text.push_str("none")
    } else {
        Ok(())
    }
}

// Writes the first and last key of each run of keys.
fn write_keys(text: &mut String, over: &MustIterateTable) -> Result<(), AllocError> {
    let mut before = false;
    for (key, is) in over.keys.iter().enumerate() {
        if before != *is {
            write!(text, " {key}")?;
        }
        before = *is;
    }
    Ok(())
}
