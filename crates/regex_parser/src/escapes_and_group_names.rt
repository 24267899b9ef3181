//! Escapes after a backslash, and group names.

ghost use Rattle.std.specs.Prelude.{◌≡◌, ◌≤◌, ◌∷◌, length, string_bytes, Bool, not, ◌&&◌, ◌==◌, IfErr, IfSome, IsTrue, if◌then◌else◌};
ghost use Rattle.regex_meaning.specs.EscapesNamesQuantifiers.{CharacterEscape, GroupName, control_escape_code_point, is_ascii_identifier_start, is_ascii_identifier_part, FixedHexDigits};
ghost use Rattle.regex_meaning.specs.EscapesNamesQuantifiers.{UnicodeEscape, is_high_surrogate, is_low_surrogate};
ghost use Rattle.regex_parser.specs.CodePointReaderContracts.{IsReadOrNothingCanBeRead, IsReadOrSyntaxError, ResultIsGroupNameLetterOrNone, IsOptionalTrailSurrogateEscapeRead};
ghost use Rattle.regex_parser.specs.CodePointReaderContracts.{PairsWithTrailSurrogateIfAny, IsCodePointAndClosingBrace, is_syntax_error};

use crate::code_point_reader::PatternReader;
use crate::diagnosis::Cause;
use crate::parser_error::ParseStopReason;
use regex_pattern_front::codepointset::CODE_POINT_MAX;
use std::alloc::Global;

/// Reads an escape of one character after its backslash (ECMA-262, 21.2.1 `CharacterEscape`): `t n
/// v f r`, `0` with no digit after it, `xHH`, `uHHHH`, with `unicode` `u{H..}`, or any code point
/// except an ASCII letter or digit.
pub(crate) fn character_escape(
    reader: &mut PatternReader,
    unicode: bool,
) -> Result<u32, ParseStopReason>
    ensures moves { length reader.new.rest.now ≤ length reader.old.rest.now }
    ensures text { IsReadOrNothingCanBeRead (CharacterEscape unicode reader.old.rest.now) result reader.new.rest.now }
    ensures syntax { IfErr result (λ e. IsTrue (is_syntax_error e)) }
{
    let start = *reader;
    let Some(c) = reader.next() else {
        return Err(start.error_at_last_read(Cause::NothingToEscape));
    };
    match read_escaped_character(reader, c, unicode) {
        Ok(c) => Ok(c),
        Err(cause) => Err(start.error_at_last_read(cause)),
    }
}

// Returns the character of an escape that begins with this code point.
fn read_escaped_character(reader: &mut PatternReader, c: u32, unicode: bool) -> Result<u32, Cause>
    ensures moves { length reader.new.rest.now ≤ length reader.old.rest.now }
    ensures text { IsReadOrNothingCanBeRead (CharacterEscape unicode (c ∷ reader.old.rest.now)) result
        reader.new.rest.now }
{
    match char::from_u32(c) {
        Some('0') => null(reader),
        Some('x') => read_two_hex_digits(reader),
        Some('u') => unicode_escape(reader, unicode),
        Some(letter) if letter.is_ascii_alphanumeric() => control_escape_code_point(letter).ok_or(
            invalid_escape_cause(letter),
        ),
        _ => Ok(c),
    }
}

/// Returns the control character of a letter (`ControlEscape`).
pub(crate) fn control_escape_code_point(letter: char) -> Option<u32>
    ensures { result ≡ control_escape_code_point letter }
{
    match letter {
        't' => Some(0x09),
        'n' => Some(0x0A),
        'v' => Some(0x0B),
        'f' => Some(0x0C),
        'r' => Some(0x0D),
        _ => None,
    }
}

// Returns the cause for an invalid escape that begins with this letter or digit.
fn invalid_escape_cause(letter: char) -> Cause {
    match letter {
        'p' | 'P' => Cause::PropertyEscape,
        'c' => Cause::ControlEscape,
        '1'..='7' => Cause::OctalEscape,
        'A' | 'z' | 'Z' => Cause::TextAnchor,
        _ => Cause::UnknownEscape,
    }
}

// Reads the rest of `\0`. No digit may follow.
fn null(reader: &PatternReader) -> Result<u32, Cause>
    ensures { (unicode : Bool) → IsReadOrNothingCanBeRead (CharacterEscape unicode (48 ∷ reader.now.rest.now)) result
        reader.now.rest.now }
{
    match reader.peek() {
        Some(c) if c.is_ascii_digit() => Err(Cause::OctalEscape),
        _ => Ok(0),
    }
}

/// Reads two hexadecimal digits.
///
/// An error means that two hexadecimal digits are not next.
pub(crate) fn read_two_hex_digits(reader: &mut PatternReader) -> Result<u32, Cause>
    ensures moves { length reader.new.rest.now ≤ length reader.old.rest.now }
    ensures text { IsReadOrNothingCanBeRead (FixedHexDigits 2 reader.old.rest.now) result reader.new.rest.now }
{
    reader.read_hex_digits(2).ok_or(Cause::HexEscape)
}

/// Reads the rest of an escape after `\u`. With `unicode`, two surrogates that make a pair are one
/// character.
pub(crate) fn unicode_escape(reader: &mut PatternReader, unicode: bool) -> Result<u32, Cause>
    ensures moves { length reader.new.rest.now ≤ length reader.old.rest.now }
    ensures text { IsReadOrNothingCanBeRead (UnicodeEscape unicode reader.old.rest.now) result reader.new.rest.now }
{
    if !unicode {
        return read_four_hex_digits(reader);
    }
    if reader.eat('{') {
        return code_point(reader);
    }
    let c = read_four_hex_digits(reader)?;
    Ok(read_trail_surrogate_if_any(reader, c))
}

// Reads four hexadecimal digits.
fn read_four_hex_digits(reader: &mut PatternReader) -> Result<u32, Cause>
    ensures moves { length reader.new.rest.now ≤ length reader.old.rest.now }
    ensures text { IsReadOrNothingCanBeRead (FixedHexDigits 4 reader.old.rest.now) result reader.new.rest.now }
{
    reader.read_hex_digits(4).ok_or(Cause::UnicodeEscape)
}

// Returns the code point of this number, or that of a surrogate pair if an escape of a low
// surrogate follows it.
fn read_trail_surrogate_if_any(reader: &mut PatternReader, c: u32) -> u32
    ensures moves { length reader.new.rest.now ≤ length reader.old.rest.now }
    ensures text { PairsWithTrailSurrogateIfAny c reader.old.rest.now result reader.new.rest.now }
{
    if !is_high_surrogate(c) {
        return c;
    }
    let mut ahead = *reader;
    let Some(low) = read_low_surrogate_escape(&mut ahead) else {
        return c;
    };
    *reader = ahead;
    0x1_0000 + (c - 0xD800) * 0x400 + (low - 0xDC00)
}

pub(crate) fn is_high_surrogate(c: u32) -> bool
    ensures { result ≡ is_high_surrogate c }
{
    0xD800 <= c && c <= 0xDBFF
}

pub(crate) fn is_low_surrogate(c: u32) -> bool
    ensures { result ≡ is_low_surrogate c }
{
    0xDC00 <= c && c <= 0xDFFF
}

// Reads the rest of an escape after `\u{`.
fn code_point(reader: &mut PatternReader) -> Result<u32, Cause>
    ensures moves { length reader.new.rest.now ≤ length reader.old.rest.now }
    ensures text { IsReadOrNothingCanBeRead (IsCodePointAndClosingBrace reader.old.rest.now) result
        reader.new.rest.now }
{
    let c = reader.read_number_in_base(16).ok_or(Cause::UnicodeEscape)?;
    if !reader.eat('}') {
        Err(Cause::UnicodeEscape)
    } else if c > CODE_POINT_MAX as usize {
        Err(Cause::CodePointTooGreat)
    } else {
        Ok(c as u32)
    }
}

// Reads an escape of a low surrogate.
fn read_low_surrogate_escape(reader: &mut PatternReader) -> Option<u32>
    ensures moves { length reader.new.rest.now ≤ length reader.old.rest.now }
    ensures range { IfSome result (λ c. (0xDC00 ≤ c) × (c ≤ 0xDFFF)) }
    ensures text { IsOptionalTrailSurrogateEscapeRead reader.old.rest.now result reader.new.rest.now }
{
    if !reader.eat('\\') {
        return None;
    }
    if !reader.eat('u') {
        return None;
    }
    let c = reader.read_hex_digits(4)?;
    if is_low_surrogate(c) { Some(c) } else { None }
}

/// Reads a name after its `<`, and the `>`: ASCII letters and digits, `_` and `$`, with no digit
/// first.
pub(crate) fn name(alloc: Global, reader: &mut PatternReader) -> Result<String, ParseStopReason>
    ensures moves { length reader.new.rest.now ≤ length reader.old.rest.now }
    ensures text { IsReadOrSyntaxError (λ s. string_bytes s) (GroupName reader.old.rest.now) result
        reader.new.rest.now }
{
    let start = *reader;
    let mut name = String::new(alloc);
    let mut is_first = true;
    while let Some(c) = reader.next() {
        if ends_name(c, is_first) {
            return Ok(name);
        }
        let Some(letter) = letter_of_name(c, is_first) else {
            return Err(reader.error_at_last_read(invalid_name_cause(c)));
        };
        name.push(letter)?;
        is_first = false;
    }
    Err(start.error_at_last_read(Cause::UnclosedName))
}

// Returns the cause for a code point that is not allowed in a name.
fn invalid_name_cause(c: u32) -> Cause {
    if c < 0x80 {
        Cause::InvalidName
    } else {
        Cause::NameBeyondAscii
    }
}

fn ends_name(c: u32, is_first: bool) -> bool
    ensures { result ≡ (not is_first && c == 62) }
{
    !is_first && c == '>' as u32
}

// Returns the code point as a `char` if it is allowed in a name.
fn letter_of_name(c: u32, is_first: bool) -> Option<char>
    ensures { ResultIsGroupNameLetterOrNone is_first c result }
{
    match char::from_u32(c) {
        Some(letter) if is_allowed_in_name(letter, is_first) => Some(letter),
        _ => None,
    }
}

fn is_allowed_in_name(c: char, is_first: bool) -> bool
    ensures { result ≡ (if is_first then is_ascii_identifier_start c else is_ascii_identifier_part c) }
{
    c.is_ascii_alphabetic() || c == '_' || c == '$' || c.is_ascii_digit() && !is_first
}
