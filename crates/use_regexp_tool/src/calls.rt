//! The calls of a line, and their answers.

use crate::json;
use crate::script::{
    Literal, begins_number, first, is, number, pattern, push, skip_blanks, string, units_of, word,
};
use crate::stop::{Malformed, Stop};
use std::alloc::{AllocError, Global};
use use_regexp::{Match, Range, RegExp, ReplaceError, to_length, to_uint32};

/// The limit that stands for no limit of a split.
const NO_LIMIT: u32 = u32::MAX;

/// Answers a line: writes a line of JSON for each of its calls. A blank line has no calls.
///
/// # Errors
///
/// Returns `SyntaxError` if the pattern or its flags are refused. Returns `Malformed` if the line
/// is malformed, after the calls before the error are answered. Returns `Memory` if an allocation
/// fails.
pub fn answer(alloc: Global, out: &mut String, line: &str) -> Result<(), Stop> {
    let units = units_of(alloc, line)?;
    let line = skip_blanks(&units);
    if line.is_empty() {
        return Ok(());
    }
    let (literal, rest) = pattern(alloc, line)?;
    let Literal { source, flags } = literal;
    let mut re = RegExp::new(alloc, &source, &flags)?;
    answer_calls(alloc, out, &mut re, rest)
}

// Reads `lastIndex`, the number after `@`. It is 0 if there is no `@`. Returns it with the rest of
// the line.
fn index(alloc: Global, line: &[u16]) -> Result<(usize, &[u16]), Stop> {
    match first(line) {
        Some((64, behind)) => {
            let (given, rest) = number(alloc, behind)?;
            Ok((to_length(given), rest))
        }
        _ => Ok((0, line)),
    }
}

// Answers the calls that follow the pattern.
fn answer_calls(
    alloc: Global,
    out: &mut String,
    re: &mut RegExp,
    line: &[u16],
) -> Result<(), Stop> {
    let (last_index, behind) = index(alloc, skip_blanks(line))?;
    re.last_index = last_index;
    let mut rest = skip_blanks(behind);
    for _ in 0..line.len() {
        if rest.is_empty() {
            break;
        }
        let (call, behind) = read_call(alloc, rest)?;
        answer_call(alloc, out, re, &call)?;
        rest = skip_blanks(behind);
    }
    Ok(())
}

// The methods.
#[derive(Clone, Copy, PartialEq, Eq)]
enum Method {
    Exec,
    Test,
    Search,
    Match,
    MatchAll,
    Replace,
    ReplaceWith,
    Split,
    ToText,
    Source,
    Flags,
    LastIndex,
}

// A call of a method: its text (empty if the method takes none), and the other parameters of
// `replace` and `split`.
#[derive(Drop)]
struct Call {
    method: Method,
    text: Vec<u16>,
    template: Vec<u16>,
    limit: u32,
}

// The methods and their names.
const METHODS: [(&str, Method); 12] = [
    ("exec", Method::Exec),
    ("test", Method::Test),
    ("search", Method::Search),
    ("match", Method::Match),
    ("matchAll", Method::MatchAll),
    ("replace", Method::Replace),
    ("replaceWith", Method::ReplaceWith),
    ("split", Method::Split),
    ("toString", Method::ToText),
    ("source", Method::Source),
    ("flags", Method::Flags),
    ("lastIndex", Method::LastIndex),
];

// Returns the method with this name. Returns `None` if there is none.
fn method_of(name: &[u16]) -> Option<Method> {
    for (text, method) in METHODS {
        if is(name, text) {
            return Some(method);
        }
    }
    None
}

// Checks whether the method takes a text.
fn takes_text(method: Method) -> bool {
    !matches!(
        method,
        Method::ToText | Method::Source | Method::Flags | Method::LastIndex
    )
}

// Reads a string if `is_wanted`. Returns it with the rest of the line.
fn read_string_if_wanted(
    alloc: Global,
    is_wanted: bool,
    line: &[u16],
) -> Result<(Vec<u16>, &[u16]), Stop> {
    if is_wanted {
        string(alloc, skip_blanks(line))
    } else {
        Ok((Vec::new(alloc), line))
    }
}

// Reads a call. Returns it with the rest of the line.
fn read_call(alloc: Global, line: &[u16]) -> Result<(Call, &[u16]), Stop> {
    let (name, rest) = word(line);
    let Some(method) = method_of(name) else {
        return Err(Stop::Malformed(Malformed::NoCall));
    };
    let (text, rest) = read_string_if_wanted(alloc, takes_text(method), rest)?;
    let (template, rest) = read_string_if_wanted(alloc, method == Method::Replace, rest)?;
    let (limit, rest) = read_limit_if_wanted(alloc, method == Method::Split, rest)?;
    let call = Call {
        method,
        text,
        template,
        limit,
    };
    Ok((call, rest))
}

// Reads the limit of a split if `is_wanted` and a number follows. Returns it with the rest of the
// line.
fn read_limit_if_wanted(
    alloc: Global,
    is_wanted: bool,
    line: &[u16],
) -> Result<(u32, &[u16]), Stop> {
    let rest = skip_blanks(line);
    if !is_wanted || !begins_number(rest) {
        return Ok((NO_LIMIT, line));
    }
    let (given, rest) = number(alloc, rest)?;
    Ok((to_uint32(given), rest))
}

// Writes the result of a call, and `lastIndex` after it.
fn answer_call(alloc: Global, out: &mut String, re: &mut RegExp, call: &Call) -> Result<(), Stop> {
    out.push_str("{\"value\":")?;
    value(alloc, out, re, call)?;
    let last_index = re.last_index;
    write!(out, ",\"lastIndex\":{last_index}}}\n")?;
    Ok(())
}

// Writes the result of a call.
fn value(alloc: Global, out: &mut String, re: &mut RegExp, call: &Call) -> Result<(), Stop> {
    let text = call.text.as_slice();
    let indices = re.flags().has_indices;
    match call.method {
        Method::Exec => write_match_or_null(out, indices, text, re.exec(text)?)?,
        Method::Test => json::write_boolean(out, re.test(text)?)?,
        Method::Search => write_index_or_minus_one(out, re.search(text)?)?,
        Method::Match => matches(alloc, out, re, text)?,
        Method::MatchAll => write_each_match(out, indices, text, &re.match_all(alloc, text)?)?,
        Method::Replace => json::string(out, &re.replace(alloc, text, &call.template)?)?,
        Method::ReplaceWith => replace_with(alloc, out, re, text)?,
        Method::Split => pieces(out, text, &re.split(alloc, text, call.limit)?)?,
        Method::ToText => json::string(out, &re.to_text(alloc)?)?,
        Method::Source => json::string(out, &re.source(alloc)?)?,
        Method::Flags => json::string(out, &re.flags().letters(alloc)?)?,
        Method::LastIndex => write!(out, "{}", re.last_index)?,
    }
    Ok(())
}

// Writes a match, or `null`.
fn write_match_or_null(
    out: &mut String,
    indices: bool,
    text: &[u16],
    found: Option<Match>,
) -> Result<(), AllocError> {
    match found {
        Some(found) => json::exec(out, indices, text, &found),
        None => out.push_str("null"),
    }
}

// Writes the start of a match, or -1.
fn write_index_or_minus_one(out: &mut String, at: Option<usize>) -> Result<(), AllocError> {
    match at {
        Some(at) => { write!(out, "{at}") }
        None => out.push_str("-1"),
    }
}

// Writes the result of `match`. With `g`, it is the texts of all matches, or `null` if there is
// none. Otherwise it is the result of `exec`.
fn matches(alloc: Global, out: &mut String, re: &mut RegExp, text: &[u16]) -> Result<(), Stop> {
    let flags = re.flags();
    let mut found = re.match_text(alloc, text)?;
    if flags.global && !found.is_empty() {
        write_match_texts(out, text, &found)?;
    } else {
        write_match_or_null(out, flags.has_indices, text, found.pop())?;
    }
    Ok(())
}

// Writes a comma before an item of a list, unless it is the first item.
fn part(out: &mut String, number: usize) -> Result<(), AllocError> {
    if number != 0 {
        out.push(',')?;
    }
    Ok(())
}

// Writes the text of each match.
fn write_match_texts(out: &mut String, text: &[u16], found: &[Match]) -> Result<(), AllocError> {
    out.push('[')?;
    for (number, found) in found.iter().enumerate() {
        part(out, number)?;
        json::write_text_in_range(out, text, &Some(found.range()))?;
    }
    out.push(']')
}

// Writes each match like the result of `exec`.
fn write_each_match(
    out: &mut String,
    indices: bool,
    text: &[u16],
    found: &[Match],
) -> Result<(), AllocError> {
    out.push('[')?;
    for (number, found) in found.iter().enumerate() {
        part(out, number)?;
        json::exec(out, indices, text, found)?;
    }
    out.push(']')
}

// Writes the pieces of a text.
fn pieces(
    out: &mut String,
    text: &[u16],
    pieces: &[Option<Range<usize>>],
) -> Result<(), AllocError> {
    out.push('[')?;
    for (number, piece) in pieces.iter().enumerate() {
        part(out, number)?;
        json::write_text_in_range(out, text, piece)?;
    }
    out.push(']')
}

// Writes the text with each replaced match as `<index:match|group..>`.
fn replace_with(
    alloc: Global,
    out: &mut String,
    re: &mut RegExp,
    text: &[u16],
) -> Result<(), Stop> {
    let made = re.replace_with(
        alloc,
        text,
        |found: &Match| replacement_for_match(alloc, text, found),
    );
    match made {
        Ok(made) => Ok(json::string(out, &made)?),
        Err(ReplaceError::Search(refused)) => Err(refused.into()),
        Err(ReplaceError::Closure(refused)) => Err(refused.into()),
    }
}

// Returns the replacement of a match for `replaceWith`: `<index:match|group..>`. A group that did
// not match is `-`.
fn replacement_for_match(
    alloc: Global,
    text: &[u16],
    found: &Match,
) -> Result<Vec<u16>, AllocError> {
    let start = found.start();
    let begun = format!(in alloc; "<{start}")?;
    let mut replacement_for_match = units_of(alloc, &begun)?;
    let mut sign = 58;
    for group in found.groups() {
        push(&mut replacement_for_match, sign)?;
        match group {
            Some(range) => {
                replacement_for_match.extend_from_slice(
                    text.get(range.start..range.end).unwrap_or(&[]),
                )?
            }
            None => push(&mut replacement_for_match, 45)?,
        }
        sign = 124;
    }
    push(&mut replacement_for_match, 62)?;
    Ok(replacement_for_match)
}
