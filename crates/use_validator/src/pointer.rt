//! Positions in a JSON document, as JSON Pointers (RFC 6901).

ghost use Rattle.std.specs.Prelude.{◌≡◌, ◌++◌, IfOk, string_bytes};
ghost use Rattle.std.specs.Char.{encode_utf8};
ghost use Rattle.use_validator.specs.Pointer.{LeadsToMember, escape, pointer_with_name};

use std::alloc::{AllocError, Global};

/// Returns the pointer to a member of what `pointer` leads to. It appends `/` and the member's
/// name, in which `~` is written `~0` and `/` is written `~1` (RFC 6901, section 3). The name of an
/// item is its index.
///
/// # Errors
///
/// `AllocError` if an allocation fails.
pub fn child(alloc: Global, pointer: &str, name: &str) -> Result<String, AllocError>
    ensures { IfOk result (λ s. string_bytes s ≡ pointer_with_name pointer.now name.now) }
{
    let mut pointer_with_name = String::from_str(alloc, pointer)?;
    pointer_with_name.push('/')?;
    push_name(&mut pointer_with_name, name)?;
    Ok(pointer_with_name)
}

// Appends an escaped name.
fn push_name(pointer: &mut String, name: &str) -> Result<(), AllocError>
    ensures { IfOk result (λ _. string_bytes pointer.new ≡ string_bytes pointer.old ++ escape name.now) }
{
    for c in name.chars() {
        push_escaped(pointer, c)?;
    }
    Ok(())
}

// Appends an escaped character of a name.
fn push_escaped(pointer: &mut String, c: char) -> Result<(), AllocError>
    ensures { IfOk result (λ _. string_bytes pointer.new ≡ string_bytes pointer.old ++ escape (encode_utf8 c)) }
{
    match c {
        '~' => pointer.push_str("~0"),
        '/' => pointer.push_str("~1"),
        c => pointer.push(c),
    }
}

/// A law: if a pointer leads to an object, the pointer with one more name leads to the member with
/// this name.
pub fn pointers_lead_to_members()
    ensures { LeadsToMember }
{}
