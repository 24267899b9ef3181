//! Escaping of texts that are to be matched literally.

ghost use Rattle.std.specs.Prelude.{◌≡◌, IfOk, string_bytes};
ghost use Rattle.regex_meaning.specs.{FlagLettersAndEscaping.{escape as spec_escape, syntax_characters}, NumberListHelpers.{contains}};

use std::alloc::{AllocError, Global};

/// Returns the text with a backslash before each syntax character, `\ ^ $ . | ? * + ( ) [ ] { }`,
/// so that it matches itself literally in a pattern. All other characters are unchanged.
///
/// `a.b*c` becomes `a\.b\*c` (tested in `test_searches`).
///
/// # Errors
///
/// `AllocError` if an allocation for the text fails.
pub fn escape(alloc: Global, text: &str) -> Result<String, AllocError>
    // Syntax characters are ASCII, so escaping bytes is the same as escaping characters.
    ensures { IfOk result (λ s. string_bytes s ≡ spec_escape text.now) }
{
    let mut escaped = String::new(alloc);
    for c in text.chars() {
        if is_special(c) {
            escaped.push('\\')?;
        }
        escaped.push(c)?;
    }
    Ok(escaped)
}

// Checks whether `c` is a syntax character (SyntaxCharacter of ECMA-262).
fn is_special(c: char) -> bool
    ensures { result ≡ contains syntax_characters c }
{
    matches!(
        c,
        '\\' | '^' | '$' | '.' | '|' | '?' | '*' | '+' | '(' | ')' | '[' | ']' | '{' | '}'
    )
}
