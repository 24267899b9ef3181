//! The property `Changes_When_NFKC_Casefolded` (The Unicode Standard, section 3.13).

ghost use Rattle.std.specs.Prelude.{◌≡◌, ℕ, not, [], ◌∷◌, string_bytes, encode_utf8_all, IfOk, IsTrue};
ghost use Rattle.ucd_case.specs.CaseFolding.{full_fold};
ghost use Rattle.unicode_normalization.specs.Forms.{nfkc};
ghost use Rattle.regex_meaning.specs.Outcomes.{in_intervals};
ghost use Rattle.regex_meaning.specs.UnicodeProperties.{has_property, changes_when_nfkc_casefolded, is_nfkc_casefolded};

use regex_pattern_front::codepointset::{CODE_POINT_MAX, CodePointSet, Interval};
use std::alloc::{AllocError, Global};
use ucd_case::full_folding;
use ucd_derived::is_default_ignorable_code_point;
use unicode_normalization::char::decomposition;
use unicode_normalization::{Form, to_nfkc};

/// Returns the code points that have the property. The database has no table of them, so each code
/// point is folded and normalized.
///
/// # Errors
///
/// Returns an error on allocation failure.
pub(crate) fn changes_when_nfkc_casefolded(alloc: Global) -> Result<CodePointSet, AllocError>
    ensures { IfOk result (λ s. (c : ℕ) → in_intervals s c ≡ has_property changes_when_nfkc_casefolded c) }
{
    let mut intervals = Vec::new(alloc);
    for c in 0..CODE_POINT_MAX + 1 {
        if is_changed_code_point(alloc, c)? {
            intervals.push(Interval { first: c, last: c })?;
        }
    }
    CodePointSet::from_intervals(alloc, &intervals)
}

// Checks whether the code point is changed. A surrogate is not.
fn is_changed_code_point(alloc: Global, c: u32) -> Result<bool, AllocError>
    ensures { IfOk result (λ changed. changed ≡ not (is_nfkc_casefolded c)) }
{
    match char::from_u32(c) {
        Some(character) => is_changed_by_nfkc_casefold(alloc, character),
        None => Ok(false),
    }
}

// Checks whether the character changes if default-ignorable characters are removed, the case is
// folded, and the result is normalized to NFKC.
fn is_changed_by_nfkc_casefold(alloc: Global, c: char) -> Result<bool, AllocError>
    ensures { IfOk result (λ changed. changed ≡ not (is_nfkc_casefolded c)) }
{
    if is_default_ignorable_code_point(c) {
        return Ok(true);
    }
    if is_mapped_to_itself(c) {
        return Ok(false);
    }
    let folded = folded(alloc, c)?;
    let normalized = to_nfkc(alloc, folded.as_str())?;
    let mut itself = String::new(alloc);
    itself.push(c)?;
    Ok(normalized.as_str() != itself.as_str())
}

// Checks whether the character has neither a case folding nor a decomposition. This holds for most
// characters, and no text is allocated for them.
fn is_mapped_to_itself(c: char) -> bool
    ensures { IsTrue result → nfkc (full_fold c) ≡ c ∷ [] }
{
    let mut room = [c; 3];
    full_folding(c).is_empty() && is_single_char(decomposition(c, Form::Nfkc, &mut room), c)
}

// Checks whether the text is this one character.
fn is_single_char(text: &[char], c: char) -> bool
    ensures { IsTrue result → text.now ≡ c ∷ [] }
{
    matches!(text, [only] if *only == c)
}

// Returns the full case folding of the character.
fn folded(alloc: Global, c: char) -> Result<String, AllocError>
    ensures { IfOk result (λ s. string_bytes s ≡ encode_utf8_all (full_fold c)) }
{
    let mut folded = String::new(alloc);
    let folding = full_folding(c);
    if folding.is_empty() {
        folded.push(c)?;
        return Ok(folded);
    }
    for character in folding {
        folded.push(*character)?;
    }
    Ok(folded)
}
