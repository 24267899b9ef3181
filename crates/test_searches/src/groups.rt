//! The calls of a match: groups by number, in order and by name, also after it was changed or
//! cloned.

ghost use Rattle.std.specs.Prelude.{IsAscii};

use crate::patterns::{refusal, regex_of};
use crate::rows::{Row, compare};
use regress_match::{Match, Regex, SearchError, is_unit_boundary};
use std::alloc::{AllocError, Global};
use std::ops::Range;

// Rows of five fields: a pattern, the letters of its flags, or `tree` if it is a tree in words, a
// text, a change of the first match, and the results of its calls afterwards, for each search call
// that can read the text. The results are the groups 0 to 3; the items of five calls of `groups`,
// each after the number of items left; those of four calls of `named_groups`; and the range with
// the text there.
pub const MATCHES: &str = "\
(a)(b)?~~a~nothing~ 0..1 0..1 - - | 3 0..1 2 0..1 1 - 0 end 0 end | 0 end 0 end 0 end 0 end | 0..1 a
(a)(b)?~~a~push~ 0..1 0..1 - - | 4 0..1 3 0..1 2 - 1 - 0 end | 0 end 0 end 0 end 0 end | 0..1 a
(?<=(?<a>x)(?<b>y))z~~xyz~nothing~ 2..3 0..1 1..2 - | 3 2..3 2 0..1 1 1..2 0 end 0 end | 2 a 0..1 1 b 1..2 0 end 0 end | 2..3 z
(?<=(?<b>y)|(?<a>x))z~~xyz~nothing~ 2..3 1..2 - - | 3 2..3 2 1..2 1 - 0 end 0 end | 2 b 1..2 1 a - 0 end 0 end | 2..3 z
(?<n>a)~~a~clear~ 0..1 - - - | 1 0..1 0 end 0 end 0 end 0 end | 1 n - 0 end 0 end 0 end | 0..1 a
cat:2 alt named:0,6E a named:1,6E b goal~tree~b~nothing~ 0..1 - 0..1 - | 3 0..1 2 - 1 0..1 0 end 0 end | 1 n 0..1 0 end 0 end 0 end | 0..1 b
cat:2 alt named:0,6E a named:1,6E b goal~tree~b~cut~ 0..1 - - - | 2 0..1 1 - 0 end 0 end 0 end | 1 n - 0 end 0 end 0 end | 0..1 b
cat:2 alt named:0,6E a named:1,6E b goal~tree~b~clear~ 0..1 - - - | 1 0..1 0 end 0 end 0 end 0 end | 1 n - 0 end 0 end 0 end | 0..1 b
cat:3 named:0,6E a named:1,6E b goal~tree~ab~nothing~ 0..2 0..1 1..2 - | 3 0..2 2 0..1 1 1..2 0 end 0 end | 1 n 0..1 0 end 0 end 0 end | 0..2 ab
cat:3 group:0 a alt named:1,6E b named:2,6E c goal~tree~xac~nothing~ 1..3 1..2 - 2..3 | 4 1..3 3 1..2 2 - 1 2..3 0 end | 1 n 2..3 0 end 0 end 0 end | 1..3 ac
cat:3 group:0 a alt named:1,6E b named:2,6E c goal~tree~xac~clone~ 1..3 1..2 - 2..3 | 4 1..3 3 1..2 2 - 1 2..3 0 end | 1 n 2..3 0 end 0 end 0 end | 1..3 ac
\\d+~~Price: $123~nothing~ 8..11 - - - | 1 8..11 0 end 0 end 0 end 0 end | 0 end 0 end 0 end 0 end | 8..11 123
b~~ébe~nothing~ 2..3 - - - | 1 2..3 0 end 0 end 0 end 0 end | 0 end 0 end 0 end 0 end | 2..3 b
b~~ébe~parts~ 1..3 1..2 - - | 3 1..3 2 1..2 1 - 0 end 0 end | 1 year 1..2 0 end 0 end 0 end | 1..3 -";

fn write_group(line: &mut String, range: &Option<Range<usize>>) -> Result<(), AllocError> {
    match range {
        Some(range) => {
            let start = range.start;
            let end = range.end;
            write!(line, " {start}..{end}")
        }
        None => line.push_str(" -"),
    }
}

fn write_groups_by_number(line: &mut String, found: &Match) -> Result<(), AllocError> {
    for idx in 0..4 {
        write_group(line, &found.group(idx))?;
    }
    Ok(())
}

fn write_groups_in_order(line: &mut String, found: &Match) -> Result<(), AllocError> {
    let mut groups = found.groups();
    for _ in 0..5 {
        write!(line, " {}", groups.len())?;
        match groups.next() {
            Some(range) => write_group(line, &range)?,
            None => line.push_str(" end")?,
        }
    }
    Ok(())
}

// Calls a clone that is made before each call. A name stands for the same range.
fn write_names(line: &mut String, found: &Match) -> Result<(), AllocError> {
    let mut names = found.named_groups();
    for _ in 0..4 {
        write!(line, " {}", names.len())?;
        let mut rest = names.clone();
        match rest.next() {
            Some((name, range)) => write_named_group(line, found, name, &range)?,
            None => line.push_str(" end")?,
        }
        names = rest;
    }
    Ok(())
}

fn write_named_group(
    line: &mut String,
    found: &Match,
    name: &str,
    range: &Option<Range<usize>>,
) -> Result<(), AllocError> {
    write!(line, " {name}")?;
    write_group(line, range)?;
    if found.named_group(name) == *range && found.named_group("").is_none() {
        Ok(())
    } else {
        line.push_str(" and another")
    }
}

// Writes the text of the range, or `-` if the text has no such range.
fn write_text(line: &mut String, found: &Match, text: &str) -> Result<(), AllocError> {
    write_group(line, &Some(found.range()))?;
    let (start, end) = (found.start(), found.end());
    if start <= end && text.is_char_boundary(start) && text.is_char_boundary(end) {
        write!(line, " {}", found.as_str(text))
    } else {
        line.push_str(" -")
    }
}

// Returns a match of two groups, of which the first has a name and a range.
fn match_of_two_groups(alloc: Global) -> Result<Match, AllocError> {
    let captures = vec![in alloc; Some(1..2), None]?;
    let names = vec![in alloc; String::from_str(alloc, "year")?, String::new(alloc)]?;
    Ok(Match::from_parts(1..3, captures, names))
}

fn match_after_change(alloc: Global, mut found: Match, change: &str) -> Result<Match, AllocError> {
    match change {
        "push" => found.captures.push(None)?,
        "cut" => found.captures.truncate(1),
        "clear" => found.captures.clear(),
        "clone" => return found.clone(),
        "parts" => return match_of_two_groups(alloc),
        _ => {}
    }
    Ok(found)
}

fn write_answers(line: &mut String, found: &Match, text: &str) -> Result<(), AllocError> {
    write_groups_by_number(line, found)?;
    line.push_str(" |")?;
    write_groups_in_order(line, found)?;
    line.push_str(" |")?;
    write_names(line, found)?;
    line.push_str(" |")?;
    write_text(line, found, text)
}

// The call that finds the first match.
#[derive(Clone, Copy)]
enum Call {
    Utf8,
    Ascii,
    Utf16,
    Ucs2,
}

const CALLS: [Call; 4] = [Call::Utf8, Call::Ascii, Call::Utf16, Call::Ucs2];

fn first_in_utf16(re: &Regex, units: &[u16]) -> Result<Option<Match>, SearchError> {
    if is_unit_boundary(units, 0) {
        re.find_from_utf16(units, 0)?.next().transpose()
    } else {
        Ok(None)
    }
}

fn first_in_ucs2(re: &Regex, units: &[u16]) -> Result<Option<Match>, SearchError> {
    re.find_from_ucs2(units, 0)?.next().transpose()
}

// Returns the first match in an ASCII text, whose offsets are the same in units.
fn first_in_ascii(
    alloc: Global,
    re: &Regex,
    text: &str,
    call: Call,
) -> Result<Option<Match>, SearchError>
    requires { IsAscii text.now }
{
    let units: Vec<u16> = text.bytes().map(u16::from).collect(alloc)?;
    match call {
        Call::Utf8 => re.find(text),
        Call::Ascii => re.find_ascii(text),
        Call::Utf16 => first_in_utf16(re, &units),
        Call::Ucs2 => first_in_ucs2(re, &units),
    }
}

// Writes the results of the first match after it was changed.
fn write_found(
    alloc: Global,
    line: &mut String,
    re: &Regex,
    text: &str,
    change: &str,
    call: Call,
) -> Result<(), SearchError> {
    let first = if text.is_ascii() {
        first_in_ascii(alloc, re, text, call)?
    } else {
        re.find(text)?
    };
    match first {
        Some(found) => Ok(write_answers(line, &match_after_change(alloc, found, change)?, text)?),
        None => Ok(line.push_str("no match")?),
    }
}

fn check_calls(
    alloc: Global,
    differing: &mut String,
    row: Row<'_>,
    re: &Regex,
    text: &str,
    change: &str,
) -> Result<(), SearchError> {
    for call in CALLS {
        let mut found = String::new(alloc);
        write_found(alloc, &mut found, re, text, change, call)?;
        compare(differing, row, &found, "")?;
    }
    Ok(())
}

pub fn check_match(alloc: Global, differing: &mut String, row: Row<'_>) -> Result<(), SearchError> {
    let fields: Vec<&str> = row.asked.split('~').collect(alloc)?;
    let [pattern, flags, text, change] = *fields.as_slice() else {
        return Ok(compare(differing, row, "other than five fields", "")?);
    };
    for no_opt in [false, true] {
        match regex_of(alloc, pattern, flags, no_opt) {
            Ok(re) => check_calls(alloc, differing, row, &re, text, change)?,
            Err(error) => compare(differing, row, refusal(&error), "")?,
        }
    }
    Ok(())
}
