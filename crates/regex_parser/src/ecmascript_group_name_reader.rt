//! Names of groups in the whole language of ECMAScript.

ghost use Rattle.std.specs.Prelude.{◌≡◌, ◌<◌, ◌≤◌, ◌∷◌, length, string_bytes, IfErr, IsTrue, OnOk, IsSome, Bool};
ghost use Rattle.regex_meaning.specs.EcmaEscapesAndNames.{GroupName};
ghost use Rattle.regex_meaning.specs.EscapesNamesQuantifiers.{is_high_surrogate};
ghost use Rattle.regex_parser.specs.CodePointReaderContracts.{IsReadOrSyntaxError, is_syntax_error, backslash};
ghost use Rattle.regex_parser.specs.EcmaReaderContracts.{is_allowed_as_name_character, IsNameCharacterRead, IsNameCodePointRead};

use crate::code_point_reader::PatternReader;
use crate::diagnosis::Cause;
use crate::escapes_and_group_names::{is_high_surrogate, is_low_surrogate, unicode_escape};
use crate::parser_error::ParseStopReason;
use std::alloc::Global;
use ucd_derived::{is_id_continue, is_id_start};

/// Reads a name after its `<`, and the `>` (ECMA-262, `GroupName`). With every flag, a name may
/// contain the escapes `\u{..}` and `\uHHHH` and characters above U+FFFF, as in the 11th edition
/// and later.
pub(crate) fn read_group_name(
    alloc: Global,
    reader: &mut PatternReader,
) -> Result<String, ParseStopReason>
    ensures moves { length reader.new.rest.now ≤ length reader.old.rest.now }
    ensures text { IsReadOrSyntaxError (λ s. string_bytes s) (GroupName reader.old.rest.now) result
        reader.new.rest.now }
{
    let start = *reader;
    let mut name = String::new(alloc);
    let first = read_name_character(reader, start, true)?;
    name.push(first)?;
    while !reader.eat('>') {
        let letter = read_name_character(reader, start, false)?;
        name.push(letter)?;
    }
    Ok(name)
}

// Reads a character of a name: the first one or a later one. The name begins at `start`.
fn read_name_character(
    reader: &mut PatternReader,
    start: PatternReader,
    is_first: bool,
) -> Result<char, ParseStopReason>
    ensures moves { length reader.new.rest.now ≤ length reader.old.rest.now }
    ensures read { OnOk result (length reader.new.rest.now < length reader.old.rest.now) }
    ensures text { IsNameCharacterRead is_first reader.old.rest.now result reader.new.rest.now }
    ensures syntax { IfErr result (λ e. IsTrue (is_syntax_error e)) }
{
    if reader.rest.is_empty() {
        return Err(start.error_at_last_read(Cause::UnclosedName));
    }
    let before = *reader;
    let Some(c) = read_name_code_point(reader) else {
        return Err(before.error_here(Cause::InvalidName));
    };
    match char::from_u32(c) {
        Some(letter) if is_allowed_in_name(letter, is_first) => Ok(letter),
        _ => Err(before.error_here(Cause::InvalidName)),
    }
}

// Reads the code point of a character of a name: an escape, two surrogates, or the code point
// itself.
fn read_name_code_point(reader: &mut PatternReader) -> Option<u32>
    ensures moves { length reader.new.rest.now ≤ length reader.old.rest.now }
    ensures read { IsSome result → length reader.new.rest.now < length reader.old.rest.now }
    ensures text { (is_first : Bool) → IsNameCodePointRead is_first reader.old.rest.now result reader.new.rest.now }
{
    let c = reader.next()?;
    if c == '\\' as u32 {
        return read_escaped_code_point(reader);
    }
    if is_high_surrogate(c) {
        return read_surrogate_pair(reader, c);
    }
    Some(c)
}

// Reads the rest of an escape in a name, after its backslash.
fn read_escaped_code_point(reader: &mut PatternReader) -> Option<u32>
    ensures moves { length reader.new.rest.now ≤ length reader.old.rest.now }
    ensures text { (is_first : Bool) → IsNameCodePointRead is_first (backslash ∷ reader.old.rest.now) result
        reader.new.rest.now }
{
    if !reader.eat('u') {
        return None;
    }
    match unicode_escape(reader, true) {
        Ok(c) => Some(c),
        Err(_) => None,
    }
}

// Reads a trail surrogate and returns the code point of the pair.
fn read_surrogate_pair(reader: &mut PatternReader, lead: u32) -> Option<u32>
    requires { IsTrue (is_high_surrogate lead) }
    ensures moves { length reader.new.rest.now ≤ length reader.old.rest.now }
    ensures text { (is_first : Bool) → IsNameCodePointRead is_first (lead ∷ reader.old.rest.now) result
        reader.new.rest.now }
{
    let trail = reader.next()?;
    if is_low_surrogate(trail) {
        Some(0x1_0000 + (lead - 0xD800) * 0x400 + (trail - 0xDC00))
    } else {
        None
    }
}

// Checks whether the character may be the first character of a name, or a later one.
fn is_allowed_in_name(c: char, is_first: bool) -> bool
    ensures { result ≡ is_allowed_as_name_character is_first c }
{
    if is_first {
        is_id_start(c) || c == '_' || c == '$'
    } else {
        is_id_continue(c) || c == '$' || c == '\u{200C}' || c == '\u{200D}'
    }
}
