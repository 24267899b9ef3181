//! Why the calls of a line are not all answered.

ghost use Rattle.std.specs.Prelude.{◌≡◌, ⊤};

use std::alloc::AllocError;
use use_regexp::{RegExpError, SearchError};

/// Why the calls of a line are not all answered.
#[derive(Clone, Copy, Debug, PartialEq, Eq)]
pub enum Stop {
    /// The pattern or its flags are refused: the constructor throws a `SyntaxError`.
    SyntaxError,
    /// The line is malformed.
    Malformed(Malformed),
    /// An allocation failed.
    Memory,
}

/// What is wrong with a line.
#[derive(Clone, Copy, Debug, PartialEq, Eq)]
pub enum Malformed {
    /// The line begins neither with `/PATTERN/FLAGS` nor with a string.
    NoPattern,
    /// A call is expected, and this is not the name of a method.
    NoCall,
    /// A string is expected.
    NoString,
    /// A string has no closing quote.
    UnclosedString,
    /// A string has an escape that is not valid in JSON.
    InvalidEscape,
    /// A string has a control character that is not escaped.
    ControlCharacter,
    /// A number is expected.
    NoNumber,
}

impl Malformed {
    /// Returns the text of the answer.
    pub fn text(self) -> &'static str {
        match self {
            Malformed::NoPattern => "no pattern",
            Malformed::NoCall => "no such call",
            Malformed::NoString => "no string",
            Malformed::UnclosedString => "unclosed string",
            Malformed::InvalidEscape => "invalid escape in a string",
            Malformed::ControlCharacter => "control character in a string",
            Malformed::NoNumber => "no number",
        }
    }
}

impl From<AllocError> for Stop {
    ghost use Rattle.use_regexp_tool.specs.declared.stop.Stop.TheVariants.{Memory};

    ghost from_gives = { λ _ e. e ≡ Memory };

    fn from(_: AllocError) -> Self {
        Stop::Memory
    }
}

impl From<Malformed> for Stop {
    ghost use Rattle.use_regexp_tool.specs.declared.stop.Stop.TheVariants.{Malformed as of_line};

    ghost from_gives = { λ why e. e ≡ of_line why };

    fn from(why: Malformed) -> Self {
        Stop::Malformed(why)
    }
}

// A search fails only if an allocation fails.
impl From<SearchError> for Stop {
    ghost use Rattle.use_regexp_tool.specs.declared.stop.Stop.TheVariants.{Memory};

    ghost from_gives = { λ _ e. e ≡ Memory };

    fn from(_: SearchError) -> Self {
        Stop::Memory
    }
}

impl From<RegExpError> for Stop {
    ghost from_gives = { λ _ _. ⊤ };

    fn from(why: RegExpError) -> Self {
        match why {
            RegExpError::Memory => Stop::Memory,
            _ => Stop::SyntaxError,
        }
    }
}
