//! Writes the tables of the classes of plans.

use crate::predicates::write_bytes;
use regex_pattern_front::ir::Regex;
use regress_program::char_class_tables::Class;
use regress_program::emit::{emit, emit_units};
use regress_program::plan::Plan;
use std::alloc::{AllocError, Global};

// Writes the classes of the plan of a tree for texts in bytes.
pub(crate) fn write_classes(
    alloc: Global,
    text: &mut String,
    tree: &Regex,
) -> Result<(), AllocError> {
    match emit(alloc, tree) {
        Ok(program) => write_each(text, program.plan()),
        Err(_) => Ok(()),
    }
}

// Writes the same for texts of 16-bit units.
pub(crate) fn write_unit_classes(
    alloc: Global,
    text: &mut String,
    tree: &Regex,
) -> Result<(), AllocError> {
    match emit_units(alloc, tree) {
        Ok(program) => write_each(text, program.plan()),
        Err(_) => Ok(()),
    }
}

fn write_each(text: &mut String, plan: &Plan) -> Result<(), AllocError> {
    for class in &plan.classes {
        if !text.is_empty() {
            text.push_str("; ")?;
        }
        write_class(text, class)?;
    }
    Ok(())
}

// Writes whether the class has only single-unit characters, its steps, and the bytes at which a
// scan may end.
fn write_class(text: &mut String, class: &Class) -> Result<(), AllocError> {
    text.push_str(if class.single_unit { "single" } else { "wide" })?;
    write_class_steps(text, &class.steps)?;
    match &class.stops {
        Some(stops) => write_bytes(text, " stops", stops.units.get(..stops.len).unwrap_or(&[])),
        None => Ok(()),
    }
}

// Writes each step after the first key of a run of keys that have it. Before the first one, keys
// have the step 0.
fn write_class_steps(text: &mut String, steps: &[u8; 256]) -> Result<(), AllocError> {
    let mut before = 0;
    for (key, step) in steps.iter().enumerate() {
        if *step != before {
            write!(text, " {key}:{step}")?;
        }
        before = *step;
    }
    Ok(())
}
