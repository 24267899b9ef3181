//! Writes JSON values.

use std::alloc::AllocError;
use use_regexp::{Match, Range};

const HEX_DIGITS: [char; 16] = [
    '0', '1', '2', '3', '4', '5', '6', '7', '8', '9', 'a', 'b', 'c', 'd', 'e', 'f',
];

/// Writes a string of 16-bit units. Units that are not printable ASCII are escaped.
pub fn string(out: &mut String, units: &[u16]) -> Result<(), AllocError> {
    out.push('"')?;
    for unit in units {
        push_unit(out, *unit)?;
    }
    out.push('"')
}

fn push_unit(out: &mut String, unit: u16) -> Result<(), AllocError> {
    match unit {
        34 => out.push_str("\\\""),
        92 => out.push_str("\\\\"),
        32..=126 => out.push(char::from(unit as u8)),
        _ => push_escape(out, unit),
    }
}

fn push_escape(out: &mut String, unit: u16) -> Result<(), AllocError> {
    out.push_str("\\u")?;
    push_digit(out, unit / 0x1000)?;
    push_digit(out, unit / 0x100)?;
    push_digit(out, unit / 0x10)?;
    push_digit(out, unit)
}

// Writes the last hexadecimal digit of a number.
fn push_digit(out: &mut String, number: u16) -> Result<(), AllocError> {
    out.push(HEX_DIGITS[(number % 16) as usize])
}

/// Writes the text in a range, or `null`.
pub fn write_text_in_range(
    out: &mut String,
    text: &[u16],
    range: &Option<Range<usize>>,
) -> Result<(), AllocError> {
    match range {
        Some(range) => string(out, text.get(range.start..range.end).unwrap_or(&[])),
        None => out.push_str("null"),
    }
}

/// Writes a Boolean value.
pub fn write_boolean(out: &mut String, value: bool) -> Result<(), AllocError> {
    out.push_str(if value { "true" } else { "false" })
}

/// Writes the result of `exec`: the start of the match, its text, and the texts of its groups and
/// named groups. With `indices`, also writes the indices of these.
pub fn exec(
    out: &mut String,
    indices: bool,
    text: &[u16],
    found: &Match,
) -> Result<(), AllocError> {
    let start = found.start();
    write!(out, "{{\"index\":{start},")?;
    parts(out, Some(text), found)?;
    if indices {
        out.push_str(",\"indices\":{")?;
        parts(out, None, found)?;
        out.push('}')?;
    }
    out.push('}')
}

// Writes the match, its groups and its named groups, as texts. If `text` is `None`, writes their
// indices instead.
fn parts(out: &mut String, text: Option<&[u16]>, found: &Match) -> Result<(), AllocError> {
    out.push_str("\"match\":[")?;
    for (number, group) in found.groups().enumerate() {
        if number != 0 {
            out.push(',')?;
        }
        part(out, text, &group)?;
    }
    out.push_str("],\"groups\":")?;
    groups(out, text, found)
}

// Writes the text in a range. If `text` is `None`, writes its indices instead.
fn part(
    out: &mut String,
    text: Option<&[u16]>,
    range: &Option<Range<usize>>,
) -> Result<(), AllocError> {
    match (text, range) {
        (Some(text), _) => write_text_in_range(out, text, range),
        (None, Some(range)) => write!(out, "[{},{}]", range.start, range.end),
        (None, None) => out.push_str("null"),
    }
}

// Writes the named groups, or `null` if no group has a name.
fn groups(out: &mut String, text: Option<&[u16]>, found: &Match) -> Result<(), AllocError> {
    if found.named_groups().len() == 0 {
        return out.push_str("null");
    }
    out.push('{')?;
    for (number, (name, group)) in found.named_groups().enumerate() {
        if number != 0 {
            out.push(',')?;
        }
        write!(out, "\"{name}\":")?;
        part(out, text, &group)?;
    }
    out.push('}')
}
