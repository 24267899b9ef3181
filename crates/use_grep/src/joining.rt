//! Joins several patterns into one.

ghost use Rattle.std.specs.Prelude.{◌≡◌, ◌++◌, IfOk, map, string_bytes};
ghost use Rattle.use_grep.specs.Joining.{alternative, joined};

use std::alloc::{AllocError, Global};

/// Returns one pattern that matches where any of the patterns matches. If several match at a
/// position, the first one has priority.
///
/// # Errors
///
/// `AllocError` if an allocation fails.
pub fn joined(alloc: Global, patterns: &[String]) -> Result<String, AllocError>
    ensures { IfOk result (λ s. string_bytes s ≡ joined (map string_bytes patterns.now)) }
{
    if let [only] = patterns {
        return String::from_str(alloc, only.as_str());
    }
    let mut all = String::new(alloc);
    let mut left = patterns;
    while let [pattern, behind @ ..] = left {
        push_alternative(&mut all, pattern.as_str())?;
        left = behind;
    }
    all.push_str("[]")?;
    Ok(all)
}

// Appends a pattern as an alternative, and a `|` after it.
fn push_alternative(all: &mut String, pattern: &str) -> Result<(), AllocError>
    ensures { IfOk result (λ _. string_bytes all.new ≡ string_bytes all.old ++ alternative pattern.now) }
{
    write!(all, "(?:{pattern})|")
}
