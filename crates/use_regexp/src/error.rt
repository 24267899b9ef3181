//! Errors of the constructor of a regular expression.

ghost use Rattle.std.specs.Prelude.{◌≡◌};
ghost use Rattle.use_regexp.specs.Refusals.{constructor_error_of};

use regress_match::Error;
use std::alloc::AllocError;

/// Why the constructor of a regular expression fails.
#[derive(Clone, Copy, Debug, PartialEq, Eq, thiserror::Error)]
pub enum RegExpError {
    /// A letter is not the letter of a flag, or occurs twice.
    #[error("a flag is unknown or occurs twice (flags are d, g, i, m, s, u and y)")]
    Flags,
    /// The pattern has a syntax error or exceeds a limit.
    #[error("{0}")]
    Pattern(Error),
    /// An allocation failed.
    #[error("out of memory")]
    Memory,
}

impl From<AllocError> for RegExpError {
    ghost use Rattle.use_regexp.specs.declared.error.RegExpError.TheVariants.{Memory};

    ghost from_gives = { λ _ e. e ≡ Memory };

    fn from(_: AllocError) -> Self {
        RegExpError::Memory
    }
}

impl From<Error> for RegExpError {
    ghost from_gives = { λ refused e. e ≡ constructor_error_of refused };

    fn from(error: Error) -> Self {
        match error {
            Error::Memory => RegExpError::Memory,
            error => RegExpError::Pattern(error),
        }
    }
}
