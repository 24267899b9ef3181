//! The source text of a regular expression.

ghost use Rattle.std.specs.Prelude.{◌≡◌, ◌++◌, ◌∷◌, IfOk, false, if◌then◌else◌, []};
ghost use Rattle.regex_meaning.specs.Text.{is_line_terminator as spec_is_line_terminator};
ghost use Rattle.regex_meaning.specs.GroupOpeningScanWithoutParsing.{in_class_after};
ghost use Rattle.use_regexp.specs.Source.{escaped_unit_after_backslash, escaped_from, escaped_source, needs_backslash as spec_needs_backslash};

use std::alloc::{AllocError, Global};

const BACKSLASH: u16 = 92;

const SLASH: u16 = 47;

/// Returns the source of a pattern, escaped so that it can stand between slashes (21.2.3.2.4,
/// EscapeRegExpPattern).
///
/// # Errors
///
/// `AllocError` if an allocation fails.
pub(crate) fn escaped(alloc: Global, source: &[u16]) -> Result<Vec<u16>, AllocError>
    ensures { IfOk result (λ v. v.items ≡ escaped_source source.now) }
{
    let mut out = Vec::new(alloc);
    if source.is_empty() {
        push_ascii(&mut out, b"(?:)")?;
        return Ok(out);
    }
    push_escaped(&mut out, source)?;
    Ok(out)
}

// Appends the units, with a backslash before each that needs one.
fn push_escaped(out: &mut Vec<u16>, source: &[u16]) -> Result<(), AllocError>
    ensures { IfOk result (λ _. out.new.items ≡ out.old.items ++ escaped_from false false source.now) }
{
    let mut escaped = false;
    let mut in_class = false;
    for unit in source {
        if escaped {
            push_after_backslash(out, *unit)?;
            escaped = false;
        } else {
            push_plain(out, in_class, *unit)?;
            in_class = is_class_open_after_unit(in_class, *unit);
            escaped = *unit == BACKSLASH;
        }
    }
    Ok(())
}

// Appends a unit that does not follow a backslash.
fn push_plain(out: &mut Vec<u16>, in_class: bool, unit: u16) -> Result<(), AllocError>
    ensures { IfOk result (λ _. out.new.items ≡ out.old.items
        ++ (if spec_needs_backslash in_class unit then 92 ∷ escaped_unit_after_backslash unit else unit ∷ [])) }
{
    if !needs_backslash(in_class, unit) {
        return Ok(out.push(unit)?);
    }
    out.push(BACKSLASH)?;
    push_after_backslash(out, unit)
}

// Checks whether a unit needs a backslash: it is a line terminator, or a slash outside of a class.
fn needs_backslash(in_class: bool, unit: u16) -> bool
    ensures { result ≡ spec_needs_backslash in_class unit }
{
    is_line_terminator(unit) || (unit == SLASH && !in_class)
}

// Checks whether a unit is a line terminator.
fn is_line_terminator(unit: u16) -> bool
    ensures { result ≡ spec_is_line_terminator unit }
{
    unit == 0x0A || unit == 0x0D || unit == 0x2028 || unit == 0x2029
}

// Checks whether a class is open after a unit that does not follow a backslash.
fn is_class_open_after_unit(in_class: bool, unit: u16) -> bool
    ensures { result ≡ in_class_after in_class unit }
{
    if unit == 91 {
        true
    } else if unit == 93 {
        false
    } else {
        in_class
    }
}

// Appends what follows the backslash in an escape: the name of a line terminator, or the unit
// itself.
fn push_after_backslash(out: &mut Vec<u16>, unit: u16) -> Result<(), AllocError>
    ensures { IfOk result (λ _. out.new.items ≡ out.old.items ++ escaped_unit_after_backslash unit) }
{
    if unit == 0x0A {
        push_ascii(out, b"n")
    } else if unit == 0x0D {
        push_ascii(out, b"r")
    } else if unit == 0x2028 {
        push_ascii(out, b"u2028")
    } else if unit == 0x2029 {
        push_ascii(out, b"u2029")
    } else {
        Ok(out.push(unit)?)
    }
}

// Appends an ASCII text.
pub(crate) fn push_ascii(out: &mut Vec<u16>, text: &[u8]) -> Result<(), AllocError>
    ensures { IfOk result (λ _. out.new.items ≡ out.old.items ++ text.now) }
{
    for byte in text {
        out.push(u16::from(*byte))?;
    }
    Ok(())
}
