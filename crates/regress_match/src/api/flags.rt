//! Flags, and their conversion from and to letters.

ghost use Rattle.std.specs.Prelude.{◌≡◌, if◌then◌else◌, Some, []};
ghost use Rattle.std.specs.Iterator.{IsFinite};
ghost use Rattle.std.specs.Iterator.Runs.{WholeRun};
ghost use Rattle.regex_meaning.specs.FlagLettersAndEscaping.{flags_from_letters, flags_text};

use regex_pattern_front::flags as front;
use std::fmt;

/// How a pattern is parsed and matched. The default is case-sensitive, not multiline, and
/// optimizing.
#[derive(Clone, Copy, Debug, Default, PartialEq, Eq)]
pub struct Flags {
    /// ASCII letters match regardless of case (`i`); with `Syntax::EcmaScript2018`, all letters do.
    pub icase: bool,
    /// `^` also matches after a line terminator, and `$` before one (`m`).
    pub multiline: bool,
    /// `.` also matches line terminators (`s`).
    pub dot_all: bool,
    /// The tree is compiled as it was parsed, without optimizing it.
    pub no_opt: bool,
    /// Patterns are read by code points, and with `i`, U+017F matches like `s` and U+212A like `k`
    /// (`u`). With `Syntax::EcmaScript2018`, letters match by simple case folding.
    pub unicode: bool,
    /// Refuse classes with set operations and nested classes (`v`). `Syntax::EcmaScript2018`, which
    /// is older than `v`, ignores this flag.
    pub unicode_sets: bool,
}

impl Flags {
    ghost use Rattle.regex_pattern_front.specs.AstToSpecTree.{spec_flags_of as front_spec_flags_of};
    ghost use Rattle.regress_match.specs.PublicFlagsAsSpecFlags.{spec_flags_of};

    /// Returns the flags whose letters (`m`, `i`, `s`, `u` and `v`) are among the code points of an
    /// iterator, which must be finite. Other code points are ignored, and `no_opt` is never set.
    pub fn new<I: Iterator<Item = u32>>(letters: I) -> Self
        requires executable { I.can_next letters }
        requires finite { IsFinite (I.remaining letters) }
        ensures { WholeRun I.next_gives letters (λ run. spec_flags_of result ≡ flags_from_letters run.items) }
    {
        let mut flags = Flags::default();
        for letter in letters {
            flags.icase |= letter == 'i' as u32;
            flags.multiline |= letter == 'm' as u32;
            flags.dot_all |= letter == 's' as u32;
            flags.unicode |= letter == 'u' as u32;
            flags.unicode_sets |= letter == 'v' as u32;
        }
        flags
    }

    /// Returns the same flags as the parser's type, for `try_parse`.
    pub fn for_front(self) -> front::Flags
        ensures { front_spec_flags_of result ≡ spec_flags_of self }
    {
        front::Flags {
            icase: self.icase,
            multiline: self.multiline,
            dot_all: self.dot_all,
            no_opt: self.no_opt,
            unicode: self.unicode,
            unicode_sets: self.unicode_sets,
        }
    }
}

impl From<&str> for Flags {
    ghost use Rattle.regress_match.specs.PublicFlagsAsSpecFlags.{spec_flags_of};

    ghost from_gives = { λ s f. spec_flags_of f ≡ flags_from_letters s.now };

    /// Returns the flags whose letters (`m`, `i`, `s`, `u` and `v`) are in the text. Other
    /// characters are ignored, and `no_opt` is never set.
    fn from(letters: &str) -> Self {
        let letters = letters.as_bytes();
        Flags {
            icase: letters.contains(&b'i'),
            multiline: letters.contains(&b'm'),
            dot_all: letters.contains(&b's'),
            no_opt: false,
            unicode: letters.contains(&b'u'),
            unicode_sets: letters.contains(&b'v'),
        }
    }
}

impl fmt::Display for Flags {
    ghost use Rattle.regress_match.specs.PublicFlagsAsSpecFlags.{spec_flags_of};

    ghost output = { λ f. Some (flags_text (spec_flags_of f)) };

    /// Writes the letters of the flags that are set, in the order `m i s u v`; `no_opt` has no
    /// letter.
    fn fmt<W: fmt::Write>(&self, f: &mut fmt::Formatter<W>) -> fmt::Result {
        let multiline = letter_if_set_else_empty(self.multiline, "m");
        let icase = letter_if_set_else_empty(self.icase, "i");
        let dot_all = letter_if_set_else_empty(self.dot_all, "s");
        let unicode = letter_if_set_else_empty(self.unicode, "u");
        let unicode_sets = letter_if_set_else_empty(self.unicode_sets, "v");
        write!(f, "{multiline}{icase}{dot_all}{unicode}{unicode_sets}")
    }
}

// Returns the letter if the flag is set, and the empty text otherwise.
fn letter_if_set_else_empty(set: bool, letter: &str) -> &str
    ensures { result.now ≡ (if set then letter.now else []) }
{
    if set { letter } else { "" }
}
