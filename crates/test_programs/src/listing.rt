//! Writes programs in words.

use crate::predicates::{write_bytes, write_members};
use regex_pattern_front::canonical::Sameness;
use regex_pattern_front::ir::Regex;
use regress_program::emit::{EmitError, emit, emit_units};
use regress_program::insn::{Insn, LoopFields};
use std::alloc::{AllocError, Global};

// Writes the program of a tree for texts in bytes, or why there is none.
pub(crate) fn write_program(
    alloc: Global,
    text: &mut String,
    tree: &Regex,
) -> Result<(), AllocError> {
    match emit(alloc, tree) {
        Ok(compiled) => write_insns(text, compiled.insns()),
        Err(error) => text.push_str(named(error)),
    }
}

// Writes the program for texts of 16-bit units, or why there is none.
pub(crate) fn write_unit_program(
    alloc: Global,
    text: &mut String,
    tree: &Regex,
) -> Result<(), AllocError> {
    match emit_units(alloc, tree) {
        Ok(compiled) => write_insns(text, compiled.insns()),
        Err(error) => text.push_str(named(error)),
    }
}

fn named(error: EmitError) -> &'static str {
    match error {
        EmitError::NotWellFormed => "NotWellFormed",
        EmitError::BytesInUnits => "BytesInUnits",
        EmitError::TooManyGroups => "TooManyGroups",
        EmitError::TooManyLoops => "TooManyLoops",
        EmitError::TooManyInstructions => "TooManyInstructions",
        EmitError::Memory => "Memory",
    }
}

// Writes the instructions in order.
fn write_insns(text: &mut String, insns: &[Insn]) -> Result<(), AllocError> {
    for insn in insns {
        if !text.is_empty() {
            text.push_str(", ")?;
        }
        write_insn(text, insn)?;
    }
    Ok(())
}

fn write_insn(text: &mut String, insn: &Insn) -> Result<(), AllocError> {
    match insn {
        Insn::Goal => text.push_str("Goal"),
        Insn::Alt { secondary } => push_word_and_numbers(text, "Alt", &[*secondary as usize]),
        Insn::Jump { target } => push_word_and_numbers(text, "Jump", &[*target as usize]),
        Insn::EnterLoop { .. } => write_loop_fields(text, &insn.loop_fields()),
        Insn::LoopAgain { begin } => push_word_and_numbers(text, "LoopAgain", &[*begin as usize]),
        Insn::Loop1CharBody {
            min_iters,
            max_iters,
            greedy,
        } => {
            push_word_and_numbers(text, "Loop1CharBody", &[*min_iters, *max_iters])?;
            text.push_str(word_of_bool(*greedy))
        }
        Insn::BeginCaptureGroup(id) => push_word_and_numbers(
            text,
            "BeginCaptureGroup",
            &[*id as usize],
        ),
        Insn::EndCaptureGroup(id) => push_word_and_numbers(
            text,
            "EndCaptureGroup",
            &[*id as usize],
        ),
        Insn::ResetCaptureGroup(id) => push_word_and_numbers(
            text,
            "ResetCaptureGroup",
            &[*id as usize],
        ),
        Insn::BackRef { group, same } => {
            push_word_and_numbers(text, "BackRef", &[*group as usize])?;
            text.push_str(word_of_sameness(*same))
        }
        Insn::Lookahead { .. } | Insn::Lookbehind { .. } => write_lookaround_insn(text, insn),
        _ => write_conditional_insn(text, insn),
    }
}

fn write_lookaround_insn(text: &mut String, insn: &Insn) -> Result<(), AllocError> {
    match insn {
        Insn::Lookahead {
            negate,
            start_group,
            end_group,
            continuation,
        }
        | Insn::Lookbehind {
            negate,
            start_group,
            end_group,
            continuation,
        } => {
            let ahead = matches!(insn, Insn::Lookahead { .. });
            text.push_str(if ahead { "Lookahead" } else { "Lookbehind" })?;
            let groups = [*start_group as usize, *end_group as usize];
            push_word_and_numbers(text, word_of_bool(*negate), &groups)?;
            push_word_and_numbers(text, "", &[*continuation as usize])
        }
        _ => Ok(()),
    }
}

// Writes an instruction that reads a character, bytes or nothing, and continues only at the next
// one.
fn write_conditional_insn(text: &mut String, insn: &Insn) -> Result<(), AllocError> {
    match insn {
        Insn::Char(c) => push_word_and_numbers(text, "Char", &[*c as usize]),
        Insn::MatchAny => text.push_str("MatchAny"),
        Insn::MatchAnyExceptLineTerminator => text.push_str("MatchAnyExceptLineTerminator"),
        Insn::StartOfLine { multiline } => push_word_if_flag(text, "StartOfLine", *multiline),
        Insn::EndOfLine { multiline } => push_word_if_flag(text, "EndOfLine", *multiline),
        Insn::WordBoundary { invert } => push_word_if_flag(text, "WordBoundary", *invert),
        Insn::WordBoundaryUnicodeICase { invert } => {
            push_word_if_flag(text, "WordBoundaryUnicodeICase", *invert)
        }
        Insn::Bracket(index) => push_word_and_numbers(text, "Bracket", &[*index]),
        Insn::AsciiBracket(set) => write_members(text, "AsciiBracket", set),
        Insn::CharSet(members) => write!(text, "CharSet {members:?}"),
        Insn::ByteSet2(set) => write_bytes(text, "ByteSet2", &set.0),
        Insn::ByteSet3(set) => write_bytes(text, "ByteSet3", &set.0),
        Insn::ByteSet4(set) => write_bytes(text, "ByteSet4", &set.0),
        Insn::JustFail => text.push_str("JustFail"),
        literal => write_literal(text, literal.bytes_of_literal_insn().unwrap_or(&[])),
    }
}

fn push_word_if_flag(text: &mut String, word: &str, flag: bool) -> Result<(), AllocError> {
    text.push_str(word)?;
    text.push_str(word_of_bool(flag))
}

fn word_of_sameness(same: Sameness) -> &'static str {
    match same {
        Sameness::Exact => " false",
        Sameness::Folded => " true",
        Sameness::Alike { unicode: false } => " alike",
        Sameness::Alike { unicode: true } => " alike with u",
    }
}

fn word_of_bool(value: bool) -> &'static str {
    if value { " true" } else { " false" }
}

pub(crate) fn push_word_and_numbers(
    text: &mut String,
    word: &str,
    numbers: &[usize],
) -> Result<(), AllocError> {
    text.push_str(word)?;
    for number in numbers {
        write!(text, " {number}")?;
    }
    Ok(())
}

fn write_loop_fields(text: &mut String, fields: &LoopFields) -> Result<(), AllocError> {
    let numbers = [fields.loop_id as usize, fields.min_iters, fields.max_iters];
    push_word_and_numbers(text, "EnterLoop", &numbers)?;
    push_word_and_numbers(text, word_of_bool(fields.greedy), &[fields.exit as usize])
}

// Writes the number of bytes, and the bytes as characters.
fn write_literal(text: &mut String, bytes: &[u8]) -> Result<(), AllocError> {
    write!(text, "ByteSeq{} ", bytes.len())?;
    for byte in bytes {
        text.push(char::from(*byte))?;
    }
    Ok(())
}
