//! The languages of patterns, and their numbers.

ghost use Rattle.std.specs.Prelude.{◌≡◌};
ghost use Rattle.regress_c.specs.Reading.{syntax_of_number};

use regress_match::Syntax;

/// Returns the language with this number in the header, or `None` if there is no such language.
pub(crate) fn syntax_of(number: u32) -> Option<Syntax>
    ensures { result ≡ syntax_of_number number }
{
    match number {
        0 => Some(Syntax::Profile),
        1 => Some(Syntax::EcmaScript2018),
        _ => None,
    }
}
