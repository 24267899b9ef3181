//! Parsing of replacements, and their expansion for a match.

ghost use Rattle.std.specs.Prelude.{◌≡◌, ◌++◌, ◌<◌, IfNone, IfOk, IfSome, Some, length, option_map, slice_get, string_bytes};
ghost use Rattle.regex_meaning.specs.MatchGroupsByNumberAndName.{Answer};
ghost use Rattle.regex_meaning.specs.Replace.{parse_after_dollar, expansion, group_part, parse_digits_of_group_number, parsed_part_from_single_replacement_part, text_of, text_of_parts};
ghost use Rattle.regress_search.specs.MatchesAsSpecAnswers.{answer_of, range_as_pair};
ghost use Rattle.regress_match.specs.ReplacementPartsAsSpecParts.{parsed_part_and_rest, spec_parts_of_substitution};
ghost use Rattle.regress_match.specs.ExpansionsAndMatchRanges.{MatchFitsText, IsCharBoundaryRange};

use crate::api::Match;
use regex_pattern_front::types::MAX_CAPTURE_GROUPS;
use std::alloc::AllocError;
use std::ops::Range;

/// A part of a replacement that begins with `$`.
#[derive(Clone, Copy)]
enum DollarSubstitution<'p> {
    /// A literal `$`, followed by this text.
    Dollar(&'p str),
    /// The text of the group with this number.
    Group(usize),
    /// The text of the group with this name.
    Named(&'p str),
}

// Appends the expansion of a replacement for a match.
pub(super) fn expand(
    out: &mut String,
    found: &Match,
    text: &str,
    replacement: &str,
) -> Result<(), AllocError>
    requires { MatchFitsText text.now (answer_of found.now) }
    ensures { IfOk result (λ _. string_bytes out.new
        ≡ string_bytes out.old ++ expansion text.now (answer_of found.now) replacement.now) }
{
    let mut rest = replacement;
    while let Some((before, behind)) = rest.split_once('$') {
        let (part, left) = read_dollar_substitution(behind);
        out.push_str(before)?;
        append_part_expansion(out, found, text, part)?;
        rest = left;
    }
    out.push_str(rest)
}

// Reads the part after a `$`. Returns the part and the rest of the replacement.
fn read_dollar_substitution(behind: &str) -> (DollarSubstitution<'_>, &str)
    ensures { parsed_part_and_rest result.0 result.1.now ≡ parse_after_dollar behind.now }
{
    match behind.as_bytes().first() {
        Some(b'$') => (DollarSubstitution::Dollar(""), &behind[1..]),
        Some(b'0'..=b'9') => {
            let (number, left) = read_number(behind);
            (DollarSubstitution::Group(number), left)
        }
        Some(b'{') => read_name(behind),
        _ => (DollarSubstitution::Dollar(""), behind),
    }
}

// Reads a name up to `}`, and returns it with the rest. If there is no `}`, the whole text is
// literal. The text begins with `{`.
fn read_name(braced_name: &str) -> (DollarSubstitution<'_>, &str)
    requires { slice_get braced_name.now 0 ≡ Some 123 }
    ensures { parsed_part_and_rest result.0 result.1.now ≡ parse_after_dollar braced_name.now }
{
    match braced_name[1..].split_once('}') {
        Some((name, left)) => (DollarSubstitution::Named(name), left),
        None => (DollarSubstitution::Dollar(braced_name), ""),
    }
}

// Reads digits until the number exceeds the largest group number. Returns the number and the rest.
fn read_number(digits: &str) -> (usize, &str)
    ensures { parsed_part_from_single_replacement_part (group_part result.0) result.1.now ≡ parse_digits_of_group_number
        0 digits.now }
{
    let mut number = 0;
    let mut left = digits;
    while let Some((more, behind)) = append_digit_unless_too_large(number, left) {
        number = more;
        left = behind;
    }
    (number, left)
}

// Appends one more digit to the number. Returns the new number and the rest. Returns `None` if no
// more digits are read.
fn append_digit_unless_too_large(number: usize, digits: &str) -> Option<(usize, &str)>
    ensures ends { IfNone result (parse_digits_of_group_number number digits.now
        ≡ parsed_part_from_single_replacement_part (group_part number) digits.now) }
    ensures goes_on { IfSome result (λ next. parse_digits_of_group_number number digits.now ≡
        parse_digits_of_group_number next.0 next.1.now) }
    ensures shorter { IfSome result (λ next. length next.1.now < length digits.now) }
{
    match digits.as_bytes().first() {
        Some(digit @ b'0'..=b'9') if number <= MAX_CAPTURE_GROUPS => {
            Some((number * 10 + usize::from(digit - b'0'), &digits[1..]))
        }
        _ => None,
    }
}

// Appends the expansion of a part for a match.
fn append_part_expansion(
    out: &mut String,
    found: &Match,
    text: &str,
    part: DollarSubstitution<'_>,
) -> Result<(), AllocError>
    requires { MatchFitsText text.now (answer_of found.now) }
    ensures { IfOk result (λ _. string_bytes out.new
        ≡ string_bytes out.old ++ text_of_parts text.now (answer_of found.now) (spec_parts_of_substitution
        part.entry)) }
{
    match part {
        DollarSubstitution::Dollar(behind) => {
            out.push('$')?;
            out.push_str(behind)
        }
        DollarSubstitution::Group(number) => append_text_of_range(out, text, found.group(number)),
        DollarSubstitution::Named(name) => append_text_of_range(out, text, found.named_group(name)),
    }
}

// Appends the text of a range, if there is one.
fn append_text_of_range(
    out: &mut String,
    text: &str,
    range: Option<Range<usize>>,
) -> Result<(), AllocError>
    requires { IfSome (option_map range_as_pair range) (IsCharBoundaryRange text.now) }
    ensures { IfOk result (λ _. (m : Answer) → string_bytes out.new
        ≡ string_bytes out.old ++ text_of text.now m (option_map range_as_pair range)) }
{
    match range {
        Some(range) => out.push_str(&text[range.start..range.end]),
        None => Ok(()),
    }
}
