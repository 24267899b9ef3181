//! The error type of the parser.

ghost use Rattle.std.specs.Prelude.{◌≡◌, false};
ghost use Rattle.regex_parser.specs.CodePointReaderContracts.{is_syntax_error};

use crate::diagnosis::Cause;
use std::alloc::{AllocError, AllocFailed};

/// Why parsing stops.
#[derive(Clone, Copy)]
pub(crate) enum ParseStopReason {
    /// The text is not a pattern. `left` code points are left from the error on.
    Refused { cause: Cause, left: usize },
    /// An allocation failed.
    Memory(AllocError),
}

impl From<AllocError> for ParseStopReason {
    ghost from_gives = { λ _ e. is_syntax_error e ≡ false };

    fn from(refused: AllocError) -> Self {
        ParseStopReason::Memory(refused)
    }
}

impl<T: Drop> From<AllocFailed<T>> for ParseStopReason {
    ghost from_gives = { λ _ e. is_syntax_error e ≡ false };

    fn from(refused: AllocFailed<T>) -> Self {
        ParseStopReason::Memory(AllocError::from(refused))
    }
}
