//! The faults of a case.

use regress_match::{Error, SearchError, Unbounded, WorkError};
use regress_program::emit::EmitError;
use std::alloc::AllocError;

/// What is wrong with a case.
#[derive(Clone, Copy, Debug, PartialEq, Eq)]
pub enum ParseFault {
    /// The pattern is refused.
    Pattern,
    /// An allocation failed.
    Refused,
    /// The unoptimized tree has other matches.
    Unoptimized,
    /// The copying executor finds other matches.
    Copied,
    /// The executor that remembers failures from the first attempt on finds other matches.
    Remembered,
    /// The search of ASCII texts finds other matches.
    Ascii,
    /// The copying executor finds other matches in ASCII texts.
    CopiedAscii,
    /// The search in UTF-16 finds other places.
    Utf16,
    /// A search from the end of a match finds other matches.
    Resumed,
    /// A step limit is not exact, or a search within a work limit differs.
    Limited,
    /// The work that is said to suffice does not, or leads to other matches.
    Bounded,
    /// No work bound is known.
    Unbounded,
    /// Replacing matches by `$0` changes the text.
    ReplacedByItself,
    /// A call was refused for another reason than an allocation failure, or has another result than
    /// expected.
    Wrong,
}

impl From<AllocError> for ParseFault {
    fn from(_: AllocError) -> ParseFault {
        ParseFault::Refused
    }
}

impl From<SearchError> for ParseFault {
    fn from(error: SearchError) -> ParseFault {
        match error {
            SearchError::Memory => ParseFault::Refused,
            SearchError::StepLimit => ParseFault::Wrong,
        }
    }
}

impl From<Error> for ParseFault {
    fn from(error: Error) -> ParseFault {
        match error {
            Error::Memory => ParseFault::Refused,
            Error::Parse(_) => ParseFault::Pattern,
            Error::Emit(_) => ParseFault::Wrong,
        }
    }
}

impl From<EmitError> for ParseFault {
    fn from(error: EmitError) -> ParseFault {
        match error {
            EmitError::Memory => ParseFault::Refused,
            _ => ParseFault::Wrong,
        }
    }
}

impl From<Unbounded> for ParseFault {
    fn from(reason: Unbounded) -> ParseFault {
        match reason {
            Unbounded::Memory => ParseFault::Refused,
            _ => ParseFault::Unbounded,
        }
    }
}

impl From<WorkError> for ParseFault {
    fn from(error: WorkError) -> ParseFault {
        match error {
            WorkError::Memory => ParseFault::Refused,
            WorkError::WorkLimit => ParseFault::Bounded,
        }
    }
}
