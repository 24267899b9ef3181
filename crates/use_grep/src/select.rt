//! Selects lines, and finds the parts of them that are shown.

ghost use Rattle.std.specs.Prelude.{◌≡◌, ◌++◌, ◌∷◌, ◌+◌, ◌^◌, ◌<◌, [], IfErr, IfOk, false, ◌-◌, IsCharBoundary, drop, filter, length, map, nat_lt, slice_range, string_bytes, take};
ghost use Rattle.std.specs.List.{position_or_len};
ghost use Rattle.regress_search.specs.MatchesAsSpecAnswers.{answer_of};
ghost use Rattle.regress_match.specs.{ProgramTreesAndAnswers.{utf8_answers}, CompileErrors.{IsOutOfMemory}};
ghost use Rattle.regress_match.specs.ExpansionsAndMatchRanges.{MatchFitsText, IsCharBoundaryRange};
ghost use Rattle.use_grep.specs.Selecting.{colored, is_selected, lines_of, matched_parts, numbered, painted, painted_part, nul_terminated_lines, shown, start_and_text_of_part};

use crate::pattern::Query;
use memchr::memchr_iter;
use regress_match::{Match, Regex, SearchError};
use std::alloc::{AllocError, Global};

/// The texts that begin and end the colour of a text on a terminal.
#[derive(Clone, Copy, Debug)]
pub struct Paint<'c> {
    pub start: &'c str,
    pub end: &'c str,
}

/// A line of a file, and its number, counted from 1.
#[derive(Clone, Copy, Debug)]
pub struct Line<'t> {
    pub number: u64,
    pub text: &'t str,
}

/// Checks whether a line is selected: it has a match or, with `invert`, it has none.
///
/// # Errors
///
/// `Memory` if an allocation fails.
pub fn is_selected(re: &Regex, invert: bool, line: &str) -> Result<bool, SearchError>
    ensures selected { IfOk result (λ b. b ≡ is_selected re.now invert line.now) }
    ensures refused { IfErr result IsOutOfMemory }
{
    Ok(re.find(line)?.is_some() != invert)
}

/// Returns the lines of a text.
///
/// # Errors
///
/// `AllocError` if an allocation fails.
pub fn lines_of<'t>(alloc: Global, text: &'t str) -> Result<Vec<&'t str>, AllocError>
    ensures { IfOk result (λ v. map (λ l. l.now) v.items ≡ lines_of text.now) }
{
    text.split('\n').collect(alloc)
}

/// Returns the lines of a text in which a NUL byte ends a line, for `-z`.
///
/// # Errors
///
/// `AllocError` if an allocation fails.
pub fn nul_terminated_lines<'t>(alloc: Global, text: &'t str) -> Result<Vec<&'t str>, AllocError>
    ensures { IfOk result (λ v. map (λ l. l.now) v.items ≡ nul_terminated_lines text.now) }
{
    text.split('\0').collect(alloc)
}

/// Returns the number of lines of a text.
pub fn count_lines(text: &str) -> u64
    ensures { result ≡ length (lines_of text.now) }
{
    memchr_iter(b'\n', text.as_bytes()).count() as u64 + 1
}

/// Returns the number of lines before the first one that has more than `longest` bytes. If there is
/// no such line, it is the number of all lines.
pub fn count_lines_before_too_long(lines: &[&str], longest: u64) -> usize
    ensures { result ≡ position_or_len (λ l. nat_lt longest (length l.now)) lines.now }
{
    let mut fit = 0;
    let mut left = lines;
    while let [line, behind @ ..] = left {
        if line.len() as u64 > longest {
            return fit;
        }
        fit += 1;
        left = behind;
    }
    fit
}

/// Returns all selected lines in order, with their numbers. `before` is the number of lines of the
/// file before these lines.
///
/// # Errors
///
/// `Memory` if an allocation fails.
pub fn selected<'t>(
    alloc: Global,
    re: &Regex,
    invert: bool,
    lines: &[&'t str],
    before: u64,
) -> Result<Vec<Line<'t>>, SearchError>
    requires { before + length lines.now < 2 ^ 64 }
    ensures selected { IfOk result (λ v. map shown v.items
        ≡ filter (λ l. is_selected re.now invert l.1) (numbered (before + 1) (map (λ l. l.now) lines.now))) }
    ensures refused { IfErr result IsOutOfMemory }
{
    let mut found = Vec::new(alloc);
    let mut number = before;
    for line in lines {
        number += 1;
        if is_selected(re, invert, line)? {
            push(&mut found, number, line)?;
        }
    }
    Ok(found)
}

/// Returns all lines of a text that have a match in order, with their numbers. `before` is the
/// number of lines of the file before the text. If the text has no match, and it is known that its
/// lines then have none, the text is not split into lines.
///
/// # Errors
///
/// `Memory` if an allocation fails.
pub fn matching_lines_of_text<'t>(
    alloc: Global,
    query: &Query,
    text: &'t str,
    before: u64,
) -> Result<Vec<Line<'t>>, SearchError>
    requires { before + length (lines_of text.now) < 2 ^ 64 }
    ensures selected { IfOk result (λ v. map shown v.items
        ≡ filter (λ l. is_selected query.now.re false l.1) (numbered (before + 1) (lines_of text.now))) }
    ensures refused { IfErr result IsOutOfMemory }
{
    if query.is_local && !is_selected(&query.re, false, text)? {
        return Ok(Vec::new(alloc));
    }
    let lines = lines_of(alloc, text)?;
    selected(alloc, &query.re, false, &lines, before)
}

/// Returns the lines to show, among those that were found. `before` lines were already shown, and
/// at most `most` are shown in total.
pub fn lines_up_to_maximum<'f, 't>(found: &'f [Line<'t>], before: u64, most: u64) -> &'f [Line<'t>]
    ensures { result.now ≡ take (most - before) found.now }
{
    let left = most.saturating_sub(before);
    if left < found.len() as u64 {
        &found[..left as usize]
    } else {
        found
    }
}

// Appends a line.
fn push<'t>(found: &mut Vec<Line<'t>>, number: u64, text: &'t str) -> Result<(), AllocError>
    ensures { IfOk result (λ _. map shown found.new.items ≡ map shown found.old.items ++ (number, text.now) ∷ []) }
{
    Ok(found.push(Line { number, text })?)
}

/// A part of a line that a match covers, and its start in the line, in bytes.
#[derive(Clone, Copy, Debug)]
pub struct Part<'t> {
    pub start: usize,
    pub text: &'t str,
}

/// Returns the parts of a line that matches cover, in order. A part may be empty.
///
/// # Errors
///
/// `Memory` if an allocation fails.
pub fn matched_parts<'t>(
    alloc: Global,
    re: &Regex,
    line: &'t str,
) -> Result<Vec<Part<'t>>, SearchError>
    ensures parts { IfOk result (λ v. map start_and_text_of_part v.items
        ≡ matched_parts line.now (utf8_answers re.now line.now 0)) }
    ensures refused { IfErr result IsOutOfMemory }
{
    let mut parts = Vec::new(alloc);
    for item in re.find_iter(line)? {
        let found = item?;
        push_part(&mut parts, found.start(), found.as_str(line))?;
    }
    Ok(parts)
}

// Appends a part.
fn push_part<'t>(parts: &mut Vec<Part<'t>>, start: usize, text: &'t str) -> Result<(), AllocError>
    ensures { IfOk result (λ _. map start_and_text_of_part parts.new.items
        ≡ map start_and_text_of_part parts.old.items ++ (start, text.now) ∷ []) }
{
    Ok(parts.push(Part { start, text })?)
}

/// Returns a line with its matches painted. An empty match has no colour.
///
/// # Errors
///
/// `Memory` if an allocation fails.
pub fn colored(
    alloc: Global,
    re: &Regex,
    line: &str,
    paint: Paint<'_>,
) -> Result<String, SearchError>
    ensures colored { IfOk result (λ s. string_bytes s
        ≡ colored re.now line.now paint.entry.start.now paint.entry.end.now) }
    ensures refused { IfErr result IsOutOfMemory }
{
    let mut made = String::new(alloc);
    let mut from = 0;
    for item in re.find_iter(line)? {
        let found = item?;
        from = push_match(&mut made, line, from, &found, paint)?;
    }
    push_rest_of_line(&mut made, line, from)?;
    Ok(made)
}

// Appends the rest of a line from an offset on.
fn push_rest_of_line(made: &mut String, line: &str, from: usize) -> Result<(), AllocError>
    requires { IsCharBoundary line.now from }
    ensures { IfOk result (λ _. string_bytes made.new ≡ string_bytes made.old ++ drop from line.now) }
{
    made.push_str(&line[from..])
}

// Appends the text between an offset and a match, and the painted match. Returns the end of the
// match.
fn push_match(
    made: &mut String,
    line: &str,
    from: usize,
    found: &Match,
    paint: Paint<'_>,
) -> Result<usize, AllocError>
    requires before { IsCharBoundaryRange line.now (from, found.now.range.start) }
    requires fits { MatchFitsText line.now (answer_of found.now) }
    ensures made { IfOk result (λ _. string_bytes made.new ≡ string_bytes made.old
        ++ (slice_range line.now from found.now.range.start
        ++ painted_part line.now paint.entry.start.now paint.entry.end.now (answer_of found.now))) }
    ensures behind { IfOk result (λ to. to ≡ found.now.range.end) }
{
    made.push_str(&line[from..found.start()])?;
    push_painted(made, found.as_str(line), paint)?;
    Ok(found.end())
}

// Appends a painted part.
fn push_painted(made: &mut String, part: &str, paint: Paint<'_>) -> Result<(), AllocError>
    ensures { IfOk result (λ _. string_bytes made.new ≡ string_bytes made.old
        ++ painted paint.entry.start.now paint.entry.end.now part.now) }
{
    if part.is_empty() {
        return Ok(());
    }
    made.push_str(paint.start)?;
    made.push_str(part)?;
    made.push_str(paint.end)
}
