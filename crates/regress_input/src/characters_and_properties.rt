//! Characters of inputs, and their properties in an encoding.

ghost use Rattle.std.specs.Prelude.{◌≡◌, ◌==◌, ℕ, Bool, true, false, option_map, if◌then◌else◌, Some, None};
ghost use Rattle.regex_meaning.specs.{Text.{is_word_char, is_line_terminator}, Tree.{bracket}, Outcomes.{accepts}};
ghost use Rattle.regex_pattern_front.specs.AstToSpecTree.{class_as_spec};

use crate::front::{BracketContents, nonascii_folds_to_ascii_word_char};
use std::fmt::Debug;

/// A character of an input. Contracts see its number (`number`).
pub trait ElementType: Copy + Debug + Ord {
    ghost number: { Self → ℕ };

    // Whether a number is the number of an element.
    ghost is_number: { ℕ → Bool };

    /// Returns the element with the number `code`, or `None` if no element has it.
    fn try_from(code: u32) -> Option<Self>
        ensures { option_map (λ e. number e) result ≡ (if is_number code then Some code else None) };

    /// Returns the number of the character.
    fn as_u32(self) -> u32
        ensures { result ≡ number self };

    ghost equal: { (a b : Self) → Self.eq a b ≡ (number a == number b) };

    ghost same: { (a b : Self) → number a ≡ number b → a ≡ b };
}

/// The properties of characters in an encoding: their fold, and the classes that patterns name.
pub trait CharProperties {
    /// The type of the characters.
    type Element: ElementType;

    ghost folded: { (unicode : Bool) → ℕ → ℕ };

    /// Returns the fold of a character, which represents it if case is ignored (ECMA-262,
    /// 21.2.2.8.2).
    fn fold(c: Self::Element, unicode: bool) -> Self::Element
        ensures { Self.Element.number result ≡ folded unicode (Self.Element.number c) };

    /// Checks whether the character is an ASCII letter, an ASCII digit or `_` (ECMA-262,
    /// 21.2.2.6.2).
    #[inline(always)]
    fn is_word_char(c: Self::Element) -> bool
        ensures { result ≡ is_word_char false (Self.Element.number c) }
    {
        let c = c.as_u32();
        0x61 <= c && c <= 0x7A || 0x41 <= c && c <= 0x5A || 0x30 <= c && c <= 0x39 || c == 0x5F
    }

    /// Like `is_word_char`, if case is ignored and folds are those of the flag `u`.
    #[inline(always)]
    fn is_word_char_unicode_icase(c: Self::Element) -> bool
        ensures { result ≡ is_word_char true (Self.Element.number c) }
    {
        Self::is_word_char(c) || nonascii_folds_to_ascii_word_char(c.as_u32())
    }

    /// Checks whether the character is a line terminator (ECMA-262, 11.3).
    #[inline(always)]
    fn is_line_terminator(c: Self::Element) -> bool
        ensures { result ≡ is_line_terminator (Self.Element.number c) }
    {
        let c = c.as_u32();
        c == 0x0A || c == 0x0D || c == 0x2028 || c == 0x2029
    }

    /// Checks whether the character is in the set or, with `invert`, in its complement.
    #[inline(always)]
    fn bracket(bc: &BracketContents, c: Self::Element) -> bool
        ensures { result ≡ accepts (bracket (class_as_spec bc.now)) (Self.Element.number c) }
    {
        let inside = bc.cps.contains(c.as_u32());
        if bc.invert { !inside } else { inside }
    }
}
