//! Expands templates.

ghost use Rattle.std.specs.Prelude.{◌≡◌, ◌++◌, ◌<◌, IfOk, IfSome, IsTrue, None, Some, if◌then◌else◌, length, option_map, position, string_bytes};
ghost use Rattle.std.specs.Char.{is_ascii_digit};
ghost use Rattle.std.specs.List.{list_all};
ghost use Rattle.regex_meaning.specs.{MatchGroupsByNumberAndName.{Answer}, Replace.{text_of}};
ghost use Rattle.regress_search.specs.MatchesAsSpecAnswers.{answer_of, range_as_pair};
ghost use Rattle.regress_match.specs.ExpansionsAndMatchRanges.{MatchRangesLieWithinUnits, IsRangeWithinUnits};
ghost use Rattle.use_regexp.specs.Template.{IsWritten, expansion_after_dollar, is_ascii, is_greater_than_sign, has_group_of_number as spec_has_group_of_number};
ghost use Rattle.use_regexp.specs.Template.{end_of_group_name as spec_end_of_group_name, named};
ghost use Rattle.use_regexp.specs.Template.{named_text, numbered, plain, said, substitution, two_digit_number_or_zero as spec_two_digit_number_or_zero};

use regress_match::{Match, Range};
use std::alloc::{AllocError, Global};

const DOLLAR: u16 = 36;

const LESS_THAN_SIGN: u16 = 60;

const GREATER_THAN_SIGN: u16 = 62;

// Appends the expansion of a template for a match (21.1.3.16.1, GetSubstitution). Each iteration
// reads at least one unit.
pub(crate) fn substitute(
    alloc: Global,
    out: &mut Vec<u16>,
    text: &[u16],
    found: &Match,
    template: &[u16],
) -> Result<(), AllocError>
    requires { MatchRangesLieWithinUnits text.now (answer_of found.now) }
    ensures { IfOk result (λ _. out.new.items
        ≡ out.old.items ++ substitution text.now (answer_of found.now) template.now) }
{
    let mut rest = template;
    'signs: for _turn in 0..template.len() {
        let Some((first, behind)) = rest.split_first() else {
            return Ok(());
        };
        rest = push_expansion_of_first_part(alloc, out, text, found, *first, behind)?;
    }
    Ok(())
}

// Appends the expansion of the first part of a template, and returns the rest.
fn push_expansion_of_first_part<'a>(
    alloc: Global,
    out: &mut Vec<u16>,
    text: &[u16],
    found: &Match,
    first: u16,
    behind: &'a [u16],
) -> Result<&'a [u16], AllocError>
    requires { MatchRangesLieWithinUnits text.now (answer_of found.now) }
    ensures { IfOk result (λ rest. IsWritten out.old.items out.new.items rest.now
        (said text.now (answer_of found.now) first behind.now)) }
{
    if first == DOLLAR {
        return push_expansion_after_dollar(alloc, out, text, found, behind);
    }
    out.push(first)?;
    Ok(behind)
}

// Appends the expansion of `$` and the units after it. Returns the rest.
fn push_expansion_after_dollar<'a>(
    alloc: Global,
    out: &mut Vec<u16>,
    text: &[u16],
    found: &Match,
    signs: &'a [u16],
) -> Result<&'a [u16], AllocError>
    requires { MatchRangesLieWithinUnits text.now (answer_of found.now) }
    ensures { IfOk result (λ rest. IsWritten out.old.items out.new.items rest.now
        (expansion_after_dollar text.now (answer_of found.now) signs.now)) }
{
    let Some((sign, rest)) = signs.split_first() else {
        out.push(DOLLAR)?;
        return Ok(signs);
    };
    if is_digit(*sign) {
        return push_numbered_group(out, text, found, *sign, rest);
    }
    if *sign == LESS_THAN_SIGN {
        return push_named_group_or_literal(alloc, out, text, found, rest);
    }
    push_plain(out, text, found, *sign)?;
    Ok(rest)
}

// Appends the expansion of `$` and one unit: a `$`, the match, the text before it, or the text
// after it. Otherwise appends both units.
fn push_plain(out: &mut Vec<u16>, text: &[u16], found: &Match, sign: u16) -> Result<(), AllocError>
    requires { MatchRangesLieWithinUnits text.now (answer_of found.now) }
    ensures { IfOk result (λ _. out.new.items ≡ out.old.items ++ plain text.now (answer_of found.now) sign) }
{
    if sign == 38 {
        return out.extend_from_slice(&text[found.start()..found.end()]);
    }
    if sign == 96 {
        return out.extend_from_slice(&text[..found.start()]);
    }
    if sign == 39 {
        return out.extend_from_slice(&text[found.end()..]);
    }
    out.push(DOLLAR)?;
    if sign != DOLLAR {
        out.push(sign)?;
    }
    Ok(())
}

// Checks whether a unit is a digit.
fn is_digit(unit: u16) -> bool
    ensures { result ≡ is_ascii_digit unit }
{
    matches!(unit, 48..=57)
}

// Appends the text of the group with a number of two digits, or else of one digit. If there is
// neither, appends `$` and the digit.
fn push_numbered_group<'a>(
    out: &mut Vec<u16>,
    text: &[u16],
    found: &Match,
    digit: u16,
    rest: &'a [u16],
) -> Result<&'a [u16], AllocError>
    requires fits { MatchRangesLieWithinUnits text.now (answer_of found.now) }
    requires digit { IsTrue (is_ascii_digit digit) }
    ensures { IfOk result (λ left. IsWritten out.old.items out.new.items left.now
        (numbered text.now (answer_of found.now) digit rest.now)) }
{
    let one = usize::from(digit - 48);
    let two = two_digit_number_or_zero(one, rest);
    if has_group_of_number(found, two) {
        push_range(out, text, found.group(two))?;
        return Ok(&rest[1..]);
    }
    if has_group_of_number(found, one) {
        push_range(out, text, found.group(one))?;
        return Ok(rest);
    }
    out.push(DOLLAR)?;
    out.push(digit)?;
    Ok(rest)
}

// Checks whether the pattern has a group with this number.
fn has_group_of_number(found: &Match, number: usize) -> bool
    ensures { result ≡ spec_has_group_of_number (answer_of found.now) number }
{
    0 < number && number <= found.captures.len()
}

// Returns the number with a first digit and the digit after it. Returns 0 if no digit follows.
fn two_digit_number_or_zero(first: usize, rest: &[u16]) -> usize
    requires { first < 10 }
    ensures { result ≡ spec_two_digit_number_or_zero first rest.now }
{
    match rest.first() {
        Some(digit) if is_digit(*digit) => first * 10 + usize::from(*digit - 48),
        _ => 0,
    }
}

// If any group has a name, appends the text of the group with the name before `>`. Otherwise
// appends `$<`.
fn push_named_group_or_literal<'a>(
    alloc: Global,
    out: &mut Vec<u16>,
    text: &[u16],
    found: &Match,
    rest: &'a [u16],
) -> Result<&'a [u16], AllocError>
    requires { MatchRangesLieWithinUnits text.now (answer_of found.now) }
    ensures { IfOk result (λ left. IsWritten out.old.items out.new.items left.now
        (named text.now (answer_of found.now) rest.now)) }
{
    let Some(end) = end_of_group_name(found, rest) else {
        out.push(DOLLAR)?;
        out.push(LESS_THAN_SIGN)?;
        return Ok(rest);
    };
    push_name(alloc, out, text, found, &rest[..end])?;
    Ok(&rest[end + 1..])
}

// Returns the index at which a name ends. Returns `None` if it does not end, or if no group has a
// name.
fn end_of_group_name(found: &Match, rest: &[u16]) -> Option<usize>
    ensures end { result ≡ spec_end_of_group_name (answer_of found.now) rest.now }
    ensures inside { IfSome result (λ end. end < length rest.now) }
{
    if found.named_groups().len() == 0 {
        return None;
    }
    index_of_greater_than_sign(rest)
}

// Returns the index of the first `>`.
fn index_of_greater_than_sign(rest: &[u16]) -> Option<usize>
    ensures found { result ≡ position is_greater_than_sign rest.now }
    ensures inside { IfSome result (λ at. at < length rest.now) }
{
    rest.iter().position(|unit| *unit == GREATER_THAN_SIGN)
}

// Appends the text of the group with this name, if it exists and matched.
fn push_name(
    alloc: Global,
    out: &mut Vec<u16>,
    text: &[u16],
    found: &Match,
    name: &[u16],
) -> Result<(), AllocError>
    requires { MatchRangesLieWithinUnits text.now (answer_of found.now) }
    ensures { IfOk result (λ _. out.new.items
        ≡ out.old.items ++ named_text text.now (answer_of found.now) name.now) }
{
    match ascii_text_of(alloc, name)? {
        Some(name) => push_range(out, text, found.named_group(&name)),
        None => Ok(()),
    }
}

// Returns these units as a text. Returns `None` if one of them is not ASCII. Names of groups are
// ASCII.
fn ascii_text_of(alloc: Global, units: &[u16]) -> Result<Option<String>, AllocError>
    ensures { IfOk result (λ s. option_map string_bytes s
        ≡ (if list_all is_ascii units.now then Some units.now else None)) }
{
    let mut text = String::with_capacity(alloc, units.len())?;
    for unit in units {
        if 128 <= *unit {
            return Ok(None);
        }
        text.push(char::from(*unit as u8))?;
    }
    Ok(Some(text))
}

// Appends the text in a range, if there is one.
fn push_range(
    out: &mut Vec<u16>,
    text: &[u16],
    range: Option<Range<usize>>,
) -> Result<(), AllocError>
    requires { IfSome (option_map range_as_pair range) (IsRangeWithinUnits text.now) }
    ensures { IfOk result (λ _. (m : Answer) → out.new.items
        ≡ out.old.items ++ text_of text.now m (option_map range_as_pair range)) }
{
    match range {
        Some(range) => out.extend_from_slice(&text[range.start..range.end]),
        None => Ok(()),
    }
}
