//! Writes the parts of programs, and of their copies.

use crate::listing::push_word_and_numbers;
use crate::predicates::write_start_predicate;
use regex_pattern_front::ir::Regex;
use regex_pattern_front::types::BracketContents;
use regress_program::emit::{emit, emit_units};
use regress_program::insn::{CompiledRegex, Program};
use std::alloc::{AllocError, Global};

// Writes the parts of the program of a tree for texts in bytes, and those of its copy.
pub(crate) fn write_program_and_copy(
    alloc: Global,
    text: &mut String,
    tree: &Regex,
) -> Result<(), AllocError> {
    match emit(alloc, tree) {
        Ok(program) => {
            write_parts_of_program_and_copy(text, &program)?;
            write_parts_of_program_and_copy(text, &program.clone()?)
        }
        Err(_) => Ok(()),
    }
}

fn write_parts_of_program_and_copy(
    text: &mut String,
    program: &CompiledRegex,
) -> Result<(), AllocError> {
    write_program_parts(text, program.common_program())?;
    text.push(' ')?;
    write_start_predicate(text, program.start_pred())
}

// Writes the same for texts of 16-bit units.
pub(crate) fn write_unit_parts(
    alloc: Global,
    text: &mut String,
    tree: &Regex,
) -> Result<(), AllocError> {
    match emit_units(alloc, tree) {
        Ok(program) => {
            write_program_parts(text, program.common_program())?;
            write_program_parts(text, program.clone()?.common_program())
        }
        Err(_) => Ok(()),
    }
}

// Writes the numbers of instructions, classes, loops, groups and names, whether U+E9 is in the only
// class, whether the flag `u` is set, and the names of four groups.
fn write_program_parts(text: &mut String, program: &Program) -> Result<(), AllocError> {
    let numbers = [
        program.insns().len(),
        program.brackets().len(),
        program.loops() as usize,
        program.groups() as usize,
        program.group_names().len(),
        has_letter(program.brackets()) as usize,
        program.flags().unicode as usize,
    ];
    push_word_and_numbers(text, "parts", &numbers)?;
    let names = [
        program.group_name(0),
        program.group_name(1),
        program.group_name(2),
        program.group_name(usize::MAX),
    ];
    write_names(text, &names)
}

// Writes the names of groups as they are displayed.
pub(crate) fn write_displayed_group_names(
    alloc: Global,
    text: &mut String,
    tree: &Regex,
) -> Result<(), AllocError> {
    match emit(alloc, tree) {
        Ok(program) => write!(text, "{:?}", program.common_program().shared_names()),
        Err(_) => Ok(()),
    }
}

fn has_letter(classes: &[BracketContents]) -> bool {
    match classes {
        [class] => class.cps.contains(0xE9),
        _ => false,
    }
}

// Writes each name before a stroke.
fn write_names(text: &mut String, names: &[&str]) -> Result<(), AllocError> {
    for name in names {
        write!(text, " {name}/")?;
    }
    Ok(())
}
