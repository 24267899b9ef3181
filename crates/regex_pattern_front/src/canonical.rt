//! `Canonicalize` over all of Unicode, and the characters that a backreference treats as the same.

ghost use Rattle.std.specs.Prelude.{◌≡◌, ◌==◌, ◌≤◌, false, [], ◌∷◌};
ghost use Rattle.regex_meaning.specs.{Canonical.{canonicalize, uppercase_or_itself}, Tree.{by_case}};
ghost use Rattle.regex_pattern_front.specs.AstToSpecTree.{spec_sameness_of};

use crate::folding_and_first_bytes::fold_code_point;
use ucd_case::simple_fold;

/// Which characters a backreference treats as the same.
#[derive(Clone, Copy)]
pub enum Sameness {
    /// Equal characters.
    Exact,
    /// Equal characters, and those with the same fold in the text.
    Folded,
    /// Characters with the same `canonicalize`.
    Alike { unicode: bool },
}

impl Sameness {
    /// Returns the sameness of a backreference that compares by the text's fold if `icase` is set.
    pub fn by_case(icase: bool) -> Sameness
        ensures { spec_sameness_of result ≡ by_case icase }
    {
        if icase {
            Sameness::Folded
        } else {
            Sameness::Exact
        }
    }
}

/// Returns the canonical form of `c`, by which characters are compared when case is ignored
/// (ECMA-262, 21.2.2.8.2 `Canonicalize`, over all of Unicode). With `unicode` it is the simple case
/// folding. Without it, it is the uppercase form. If that form is not one code unit, or if it is in
/// ASCII and `c` is not, the canonical form is `c`. It is also `c` for a surrogate or a number
/// above U+10FFFF.
#[inline]
pub fn canonicalize(c: u32, unicode: bool) -> u32
    ensures { result ≡ canonicalize unicode c }
{
    if c < 0x80 {
        fold_code_point(c, unicode)
    } else {
        canonicalize_nonascii(c, unicode)
    }
}

// Returns what a code point from 128 on is canonicalized to.
#[inline(never)]
fn canonicalize_nonascii(c: u32, unicode: bool) -> u32
    requires { 0x80 ≤ c }
    ensures { result ≡ canonicalize unicode c }
{
    match char::from_u32(c) {
        None => c,
        Some(character) if unicode => u32::from(simple_fold(character)),
        Some(character) => uppercase(character),
    }
}

// Steps 3.c to 3.h of `Canonicalize`, for a character beyond ASCII.
fn uppercase(character: char) -> u32
    requires { 0x80 ≤ character }
    ensures { result ≡ canonicalize false character }
{
    let c = u32::from(character);
    if 0xFFFF < c {
        return c;
    }
    let mut forms = character.to_uppercase();
    let Some(form) = forms.next() else {
        return c;
    };
    match forms.next() {
        Some(_) => c,
        None => nonascii_uppercase_unit_or_self(c, u32::from(form)),
    }
}

// Returns the uppercase form if it is one code unit beyond ASCII. Otherwise returns the code point.
fn nonascii_uppercase_unit_or_self(c: u32, form: u32) -> u32
    requires { 0x80 ≤ c }
    ensures { result ≡ uppercase_or_itself c (form ∷ []) }
{
    if form < 0x80 || 0xFFFF < form {
        c
    } else {
        form
    }
}

/// Checks whether two code points have the same `canonicalize`.
#[inline]
pub fn are_alike(c: u32, d: u32, unicode: bool) -> bool
    ensures { result ≡ (canonicalize unicode c == canonicalize unicode d) }
{
    c == d || canonicalize(c, unicode) == canonicalize(d, unicode)
}
