//! Reads the rows of the inputs, and writes the answers.

use crate::asks::{Ask, write_answer};
use crate::matches::class;
use crate::table::ROWS;
use regress_input::front::BracketContents;
use regress_input::indexing::{AsciiInput, Ucs2Input, Utf8Input, Utf16Input, is_unit_boundary};
use std::alloc::{AllocError, Global};
use std::process::Abort;
use std::test::Fail;

// Reads a hexadecimal number. Returns 0 if there is none.
fn number(text: Option<&str>) -> u32 {
    u32::from_str_radix(text.unwrap_or("0"), 16).unwrap_or(0)
}

fn numbers_of(text: &str) -> [u32; 4] {
    let mut fields = text.split(',');
    [
        number(fields.next()),
        number(fields.next()),
        number(fields.next()),
        number(fields.next()),
    ]
}

// Reads the units of a text that is given as numbers.
fn units_of(alloc: Global, text: &str) -> Result<Vec<u16>, AllocError> {
    let mut units = Vec::new(alloc);
    for unit in text.split(',') {
        if let Ok(unit) = u16::from_str_radix(unit, 16) {
            units.push(unit)?;
        }
    }
    Ok(units)
}

fn write_utf8(line: &mut String, text: &str, u: bool, ask: &Ask<'_>) -> Result<(), AllocError> {
    write_answer(line, &Utf8Input::new(text, u), ask)
}

fn write_ascii(line: &mut String, text: &str, u: bool, ask: &Ask<'_>) -> Result<(), AllocError> {
    if !text.is_ascii() {
        return line.push_str("not ASCII");
    }
    write_answer(line, &AsciiInput::new(text, u), ask)
}

fn write_utf16(line: &mut String, text: &[u16], u: bool, ask: &Ask<'_>) -> Result<(), AllocError> {
    write_answer(line, &Utf16Input::new(text, u), ask)
}

fn write_ucs2(line: &mut String, text: &[u16], u: bool, ask: &Ask<'_>) -> Result<(), AllocError> {
    write_answer(line, &Ucs2Input::new(text, u), ask)
}

fn write_boundary(line: &mut String, text: &[u16], ask: &Ask<'_>) -> Result<(), AllocError> {
    let [offset, _, _, _] = ask.numbers;
    if is_unit_boundary(text, offset as usize) {
        line.push_str(" yes")
    } else {
        line.push_str(" no")
    }
}

fn write_of_kind(
    alloc: Global,
    line: &mut String,
    kind: &str,
    text: &str,
    ask: &Ask<'_>,
) -> Result<(), AllocError> {
    match kind {
        "utf8" => write_utf8(line, text, false, ask),
        "utf8 u" => write_utf8(line, text, true, ask),
        "ascii" => write_ascii(line, text, false, ask),
        "ascii u" => write_ascii(line, text, true, ask),
        _ => write_of_units(line, kind, &units_of(alloc, text)?, ask),
    }
}

fn write_of_units(
    line: &mut String,
    kind: &str,
    text: &[u16],
    ask: &Ask<'_>,
) -> Result<(), AllocError> {
    match kind {
        "utf16" => write_utf16(line, text, false, ask),
        "utf16 u" => write_utf16(line, text, true, ask),
        "ucs2" => write_ucs2(line, text, false, ask),
        "ucs2 u" => write_ucs2(line, text, true, ask),
        "boundary" => write_boundary(line, text, ask),
        _ => line.push_str("no input"),
    }
}

// Writes the answer to the five fields of a row.
fn write_row(
    alloc: Global,
    line: &mut String,
    row: &str,
    class: &BracketContents,
) -> Result<(), AllocError> {
    let fields: Vec<&str> = row.split('~').collect(alloc)?;
    let [kind, text, way, name, numbers] = *fields.as_slice() else {
        return line.push_str("other than five fields");
    };
    let ask = Ask {
        way,
        name,
        numbers: numbers_of(numbers),
        class,
    };
    write_of_kind(alloc, line, kind, text, &ask)
}

#[test]
fn inputs_have_these_answers(rt: HostRuntime) -> Result<(), Fail> {
    let class = class(rt.alloc())?;
    for row in ROWS.split(";\n") {
        let (asked, wanted) = row.split_once(" →").unwrap_or((row, "no answer"));
        let mut found = String::new(rt.alloc());
        write_row(rt.alloc(), &mut found, asked, &class)?;
        assert!(rt; found.as_str() == wanted, "{found} at {row}");
    }
    Ok(())
}
