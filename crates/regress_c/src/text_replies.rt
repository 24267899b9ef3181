//! Calls that write a text into the caller's buffer and return its length.

ghost use Rattle.std.specs.Prelude.{◌≡◌, ◌<◌, ◌≤◌, IfSome, Some, get_or, length, map, string_bytes, take, []};
ghost use Rattle.std.specs.List.{sum_by};
ghost use Rattle.std.specs.Result.{result_map_both};
ghost use Rattle.regress_c.specs.Compiling.{given_with_syntax};
ghost use Rattle.regress_c.specs.Reading.{syntax_of_number};
ghost use Rattle.regress_c.specs.Texts.{IsDiagnosisResult, IsEscapeResult, IsGroupNameResult, IsReplaceResult, IsReplaceResultOfHandle, RepliesText, RepliesDiagnosis, RepliesDiagnosisWithSyntax};
ghost use Rattle.regress_c.specs.Texts.{range_count_reply_of_handle, buffer_after_produced_text, buffer_after_text, reply_for_produced_text};
ghost use Rattle.regress_c.specs.Texts.{text_reply};
ghost use Rattle.regress_c.specs.{Codes.{done}, GroupNumbers.{index_of_first_name, group_number_reply_of_handle}, Messages.{message_of_code as spec_message_of_code}};

use crate::flags::flags_from;
use crate::message::message_of_code;
use crate::pattern::Pattern;
use crate::refusal::{DONE, Refusal};
use crate::reply::Reply;
use crate::source::Source;
use crate::syntax::syntax_of;
use regress_match::backends::diagnose_in;
use regress_match::{Regex, Syntax, escape};
use std::alloc::{AllocError, Global};

/// Which matches are replaced.
#[derive(Clone, Copy)]
pub(crate) enum ReplacedMatches {
    First,
    All,
}

// Writes a text to the front of the buffer if there is room for all of it. The count of the reply
// is its length.
fn write_text_if_room(text: &[u8], buffer: &mut [u8], code: u32) -> Reply
    ensures reply { result ≡ text_reply code text.now (length buffer.old) }
    ensures written { buffer.new ≡ buffer_after_text text.now buffer.old }
{
    let count = text.len();
    if buffer.len() < count {
        let code = Refusal::ShortBuffer.code();
        return Reply { code, count };
    }
    buffer[..count].copy_from_slice(text);
    Reply { code, count }
}

// Writes a produced text like `write_text_if_room`, or returns the reply for a refusal.
fn write_produced_text(made: Result<String, Refusal>, buffer: &mut [u8]) -> Reply
    ensures reply { result ≡ reply_for_produced_text (result_map_both string_bytes (λ e. e) made) (length buffer.old) }
    ensures written { buffer.new ≡ buffer_after_produced_text (result_map_both string_bytes (λ e. e) made) buffer.old }
{
    match made {
        Ok(text) => write_text_if_room(text.as_bytes(), buffer, DONE),
        Err(refusal) => refusal.reply(),
    }
}

/// Writes the text with the first match or all matches replaced.
pub(crate) fn replace(
    alloc: Global,
    pattern: &mut Pattern,
    text: &[u8],
    replacement: &[u8],
    which: ReplacedMatches,
    buffer: &mut [u8],
) -> Reply
    ensures replies { RepliesText (IsReplaceResultOfHandle pattern.old.held text.now replacement.now which) buffer.old
        buffer.new result }
    ensures kept { pattern.new.held ≡ pattern.old.held }
{
    let Some(re) = pattern.take(alloc) else {
        return Refusal::Empty.reply();
    };
    let made = replaced(&re, text, replacement, which);
    pattern.put(re);
    write_produced_text(made, buffer)
}

// Returns the text with the first match or all matches replaced.
fn replaced(
    re: &Regex,
    text: &[u8],
    replacement: &[u8],
    which: ReplacedMatches,
) -> Result<String, Refusal>
    ensures { IsReplaceResult re.now text.now replacement.now which (result_map_both string_bytes (λ e. e) result) }
{
    let text = str::from_utf8(text)?;
    let replacement = str::from_utf8(replacement)?;
    match which {
        ReplacedMatches::First => Ok(re.replace(text, replacement)?),
        ReplacedMatches::All => Ok(re.replace_all(text, replacement)?),
    }
}

/// Writes the text with its syntax characters escaped, so that a pattern matches it literally.
pub(crate) fn escaped(alloc: Global, text: &[u8], buffer: &mut [u8]) -> Reply
    ensures { RepliesText (IsEscapeResult text.now) buffer.old buffer.new result }
{
    write_produced_text(escaped_text(alloc, text), buffer)
}

// Returns the text with its syntax characters escaped.
fn escaped_text(alloc: Global, text: &[u8]) -> Result<String, Refusal>
    ensures { IsEscapeResult text.now (result_map_both string_bytes (λ e. e) result) }
{
    Ok(escape(alloc, str::from_utf8(text)?)?)
}

/// Replies with the number of ranges of a match of the handle's pattern, which is one more than the
/// number of groups.
pub(crate) fn range_count(alloc: Global, pattern: &mut Pattern) -> Reply
    ensures reply { result ≡ range_count_reply_of_handle pattern.old.held }
    ensures kept { pattern.new.held ≡ pattern.old.held }
{
    let Some(re) = pattern.take(alloc) else {
        return Refusal::Empty.reply();
    };
    let count = re.group_count() + 1;
    pattern.put(re);
    Reply { code: DONE, count }
}

/// Writes the name of a group. The name is empty if the group has none.
pub(crate) fn write_group_name(re: &Regex, number: usize, buffer: &mut [u8]) -> Reply
    ensures { RepliesText (IsGroupNameResult re.now number) buffer.old buffer.new result }
{
    if number == 0 || re.group_count() < number {
        return Refusal::NoGroup.reply();
    }
    let name = name_at(re.group_names(), number - 1);
    write_text_if_room(name.as_bytes(), buffer, DONE)
}

/// Replies with the number of the group with this name, in UTF-8.
pub(crate) fn reply_group_number(re: &Regex, name: &[u8]) -> Reply
    ensures { result ≡ group_number_reply_of_handle (Some re.now) name.now }
{
    if name.is_empty() {
        return Refusal::NoGroup.reply();
    }
    match index_of_first_equal_name(re.group_names(), name) {
        Some(index) => Reply {
            code: DONE,
            count: index + 1,
        },
        None => Refusal::NoGroup.reply(),
    }
}

// Returns the index of the first of these names that is equal to `name`.
fn index_of_first_equal_name(names: &[String], name: &[u8]) -> Option<usize>
    ensures index { result ≡ index_of_first_name name.now (map string_bytes names.now) }
    ensures inside { IfSome result (λ index. index < length names.now) }
{
    for (index, other) in names.iter().enumerate() {
        if name == other.as_bytes() {
            return Some(index);
        }
    }
    None
}

/// Writes the text of a code.
pub(crate) fn message(code: u32, buffer: &mut [u8]) -> Reply
    ensures reply { result ≡ text_reply done (spec_message_of_code code) (length buffer.old) }
    ensures written { buffer.new ≡ buffer_after_text (spec_message_of_code code) buffer.old }
{
    write_text_if_room(message_of_code(code).as_bytes(), buffer, DONE)
}

// Returns the name at this index, or the empty name if the list is shorter.
fn name_at(names: &[String], index: usize) -> &str
    ensures { result.now ≡ get_or (map string_bytes names.now) index [] }
{
    match names.get(index) {
        Some(name) => name.as_str(),
        None => "",
    }
}

/// Writes what is wrong with a pattern of the language with this number, like `diagnosis`.
pub(crate) fn diagnosis_with_syntax<S: Source>(
    alloc: Global,
    source: &S,
    flags: &[u8],
    syntax: u32,
    at: &mut usize,
    buffer: &mut [u8],
) -> Reply
    ensures { RepliesDiagnosisWithSyntax (syntax_of_number syntax)
        (λ s. given_with_syntax s (S.is_text source.now) (S.characters source.now) flags.now) S.width_of
        at.old buffer.old at.new buffer.new result }
{
    match syntax_of(syntax) {
        Some(syntax) => diagnosis(alloc, source, flags, syntax, at, buffer),
        None => Refusal::UnknownSyntax.reply(),
    }
}

/// If a pattern has a syntax error, writes what is wrong with it, and sets `at` to the position.
pub(crate) fn diagnosis<S: Source>(
    alloc: Global,
    source: &S,
    flags: &[u8],
    syntax: Syntax,
    at: &mut usize,
    buffer: &mut [u8],
) -> Reply
    ensures { RepliesDiagnosis (given_with_syntax syntax (S.is_text source.now) (S.characters source.now) flags.now)
        S.width_of at.old buffer.old at.new buffer.new result }
{
    match diagnosis_of_pattern(alloc, source, flags, syntax) {
        Ok(Some(told)) => {
            *at = told.at;
            write_text_if_room(told.cause.as_bytes(), buffer, Refusal::Syntax.code())
        }
        Ok(None) => Reply {
            code: DONE,
            count: 0,
        },
        Err(refusal) => refusal.reply(),
    }
}

// A diagnosis: a description of the cause, and the offset in units of the pattern at which the
// error begins.
#[derive(Drop)]
struct CauseAndOffset {
    cause: String,
    at: usize,
}

// Returns the diagnosis of a pattern. Returns `None` if the pattern is valid.
fn diagnosis_of_pattern<S: Source>(
    alloc: Global,
    source: &S,
    flags: &[u8],
    syntax: Syntax,
) -> Result<Option<CauseAndOffset>, Refusal>
    ensures { IsDiagnosisResult (given_with_syntax syntax (S.is_text source.now) (S.characters source.now) flags.now)
        S.width_of result }
{
    let flags = flags_from(flags)?;
    let code_points = source.code_points(alloc)?;
    let Some(diagnosis) = diagnose_in(alloc, &code_points, flags.for_front(), syntax)? else {
        return Ok(None);
    };
    Ok(Some(CauseAndOffset {
        cause: format!(in alloc; "{}", diagnosis.cause)?,
        at: units_of_first_code_points::<S>(&code_points, diagnosis.at),
    }))
}

// Returns the number of units of the first `count` code points of a pattern.
fn units_of_first_code_points<S: Source>(code_points: &[u32], count: usize) -> usize
    requires { count ≤ length code_points.now }
    ensures { result ≡ sum_by S.width_of (take count code_points.now) }
{
    let mut units = 0;
    for c in &code_points[..count] {
        units += S::width(*c);
    }
    units
}
