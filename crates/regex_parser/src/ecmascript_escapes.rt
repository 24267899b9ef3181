//! Escapes of one character in the whole language of ECMAScript, after a backslash.

ghost use Rattle.std.specs.Prelude.{◌≡◌, ◌≤◌, ◌∷◌, ◌+◌, Bool, length, IfErr, IsTrue};
ghost use Rattle.regex_meaning.specs.EcmaEscapesAndNames.{CharacterEscape, NonIdentityEscape, LegacyOctalEscape, is_identity_escape, next_code_point_passes};
ghost use Rattle.std.specs.Char.{is_ascii_digit};
ghost use Rattle.regex_meaning.specs.ReadingStatesAndDigits.{◌∈◌};
ghost use Rattle.regex_parser.specs.CodePointReaderContracts.{IsReadOrNothingCanBeRead, is_syntax_error};
ghost use Rattle.regex_parser.specs.EcmaReaderContracts.{spec_parameters_of, IsControlLetterRead};

use crate::code_point_reader::PatternReader;
use crate::diagnosis::Cause;
use crate::escapes_and_group_names::{
    control_escape_code_point, read_two_hex_digits, unicode_escape,
};
use crate::parser_error::ParseStopReason;

/// The parameters of the grammar: whether the flag `u` is set, and whether a group of the pattern
/// has a name. With either, `\k` begins a reference.
#[derive(Clone, Copy)]
pub(crate) struct GrammarParameters {
    pub(crate) unicode: bool,
    pub(crate) named_groups: bool,
}

/// Reads an escape of one character after its backslash (ECMA-262, 9th edition, `CharacterEscape`
/// of B.1.4). If no other alternative applies, it denotes the escaped character itself, if that is
/// allowed.
pub(crate) fn read_character_escape(
    reader: &mut PatternReader,
    parameters: GrammarParameters,
) -> Result<u32, ParseStopReason>
    ensures moves { length reader.new.rest.now ≤ length reader.old.rest.now }
    ensures text { IsReadOrNothingCanBeRead (CharacterEscape (spec_parameters_of parameters) reader.old.rest.now) result
        reader.new.rest.now }
    ensures syntax { IfErr result (λ e. IsTrue (is_syntax_error e)) }
{
    let start = *reader;
    let cause = match read_non_identity_escape(reader, parameters.unicode) {
        Ok(c) => return Ok(c),
        Err(cause) => cause,
    };
    *reader = start;
    match reader.next() {
        Some(c) if is_identity_escape(c, parameters) => Ok(c),
        _ => Err(start.error_at_last_read(cause)),
    }
}

// Checks whether the code point may be escaped to denote itself (`IdentityEscape`).
fn is_identity_escape(c: u32, parameters: GrammarParameters) -> bool
    ensures { result ≡ is_identity_escape (spec_parameters_of parameters) c }
{
    if parameters.unicode {
        is_syntax_character_or_slash(c)
    } else {
        c != 'c' as u32 && !(parameters.named_groups && c == 'k' as u32)
    }
}

// Checks whether the code point is a `SyntaxCharacter` or `/`.
fn is_syntax_character_or_slash(c: u32) -> bool
    ensures { result ≡ c ∈ "^$\\.*+?()[]{}|/" }
{
    match char::from_u32(c) {
        Some(
            '^'
            | '$'
            | '\\'
            | '.'
            | '*'
            | '+'
            | '?'
            | '('
            | ')'
            | '['
            | ']'
            | '{'
            | '}'
            | '|'
            | '/',
        ) => true,
        _ => false,
    }
}

// Reads an escape that is not an `IdentityEscape`.
fn read_non_identity_escape(reader: &mut PatternReader, unicode: bool) -> Result<u32, Cause>
    ensures moves { length reader.new.rest.now ≤ length reader.old.rest.now }
    ensures text { (named_groups : Bool) → IsReadOrNothingCanBeRead
        (NonIdentityEscape (record { unicode = unicode; named_groups = named_groups }) reader.old.rest.now)
        result reader.new.rest.now }
{
    let Some(c) = reader.next() else {
        return Err(Cause::NothingToEscape);
    };
    match char::from_u32(c) {
        Some('c') => read_control_letter(reader).ok_or(Cause::ControlEscapeWithoutLetter),
        Some('x') => read_two_hex_digits(reader),
        Some('u') => unicode_escape(reader, unicode),
        Some(digit) if '0' <= digit && digit <= '7' => {
            read_octal_escape(reader, c - '0' as u32, unicode)
        }
        Some(letter) => control_escape_code_point(letter).ok_or(Cause::UnknownEscape),
        None => Err(Cause::UnknownEscape),
    }
}

// Reads the rest of `\c` and a letter.
fn read_control_letter(reader: &mut PatternReader) -> Option<u32>
    ensures moves { length reader.new.rest.now ≤ length reader.old.rest.now }
    ensures text { IsControlLetterRead reader.old.rest.now result reader.new.rest.now }
{
    let letter = reader.peek()?;
    if !letter.is_ascii_alphabetic() {
        return None;
    }
    let _ = reader.next();
    Some(u32::from(letter) % 32)
}

// Reads the rest of an escape that begins with this octal digit. With `unicode`, it is `\0` that is
// not followed by a digit. Otherwise it is a `LegacyOctalEscapeSequence`.
fn read_octal_escape(reader: &mut PatternReader, first: u32, unicode: bool) -> Result<u32, Cause>
    requires { first ≤ 7 }
    ensures moves { length reader.new.rest.now ≤ length reader.old.rest.now }
    ensures text { (named_groups : Bool) → IsReadOrNothingCanBeRead
        (NonIdentityEscape (record { unicode = unicode; named_groups = named_groups })
        ((48 + first) ∷ reader.old.rest.now)) result reader.new.rest.now }
{
    if !unicode {
        return Ok(read_legacy_octal_escape(reader, first));
    }
    if first > 0 || next_is_digit(reader) {
        Err(Cause::OctalEscapeWithUnicode)
    } else {
        Ok(0)
    }
}

// Checks whether an ASCII digit is next.
fn next_is_digit(reader: &PatternReader) -> bool
    ensures { result ≡ next_code_point_passes is_ascii_digit reader.now.rest.now }
{
    match reader.peek() {
        Some(c) => c.is_ascii_digit(),
        None => false,
    }
}

// Reads the rest of an octal escape after its first digit.
fn read_legacy_octal_escape(reader: &mut PatternReader, first: u32) -> u32
    requires { first ≤ 7 }
    ensures moves { length reader.new.rest.now ≤ length reader.old.rest.now }
    ensures text { LegacyOctalEscape ((48 + first) ∷ reader.old.rest.now) reader.new.rest.now result }
{
    let Some(second) = reader.read_digit_in_base(8) else {
        return first;
    };
    let value = 8 * first + second;
    if first > 3 {
        return value;
    }
    match reader.read_digit_in_base(8) {
        None => value,
        Some(third) => 8 * value + third,
    }
}
