//! Why a call is refused, and the codes that C receives.

ghost use Rattle.std.specs.Prelude.{◌≡◌};
ghost use Rattle.regress_c.specs.Codes.{code_of_refusal, code_of_unbounded_reason, refusal_of_compile_error};

use crate::reply::Reply;
use regex_parser::parse::ParseError;
use regress_match::{Error, SearchError, Unbounded, WorkError};
use regress_program::emit::EmitError;
use std::alloc::{AllocError, AllocFailed};
use std::str::Utf8Error;

/// The code of a call that succeeded, for example one that compiled a pattern or found a match.
pub(crate) const DONE: u32 = 0;

/// The code of a search that reached the end of the text without a match.
pub(crate) const NO_MATCH: u32 = 1;

/// Why a call is refused.
#[derive(Clone, Copy, Debug, PartialEq, Eq)]
pub(crate) enum Refusal {
    /// The handle holds no pattern.
    Empty,
    /// The handle already holds a pattern.
    Full,
    /// A text is not UTF-8.
    NotUtf8,
    /// The start splits a character.
    NotBoundary,
    /// The buffer is too short.
    ShortBuffer,
    /// An allocation failed.
    Memory,
    /// The step budget is used up.
    StepLimit,
    /// The text is not a valid pattern.
    Syntax,
    /// The pattern has too many groups.
    TooManyGroups,
    /// The pattern has too many loops.
    TooManyLoops,
    /// The program of the pattern has too many instructions.
    TooManyInstructions,
    /// A letter is not the letter of a flag.
    UnknownFlag,
    /// The pattern is longer than the bounds allow.
    TooLong,
    /// The pattern is nested deeper than the bounds allow.
    TooDeep,
    /// The pattern has no group of this number.
    NoGroup,
    /// No search is open.
    NotOpen,
    /// Steps are not counted in this encoding.
    NotCounted,
    /// No work bound of the pattern is known, for this reason.
    Unbounded(Unbounded),
    /// The work budget is used up.
    WorkLimit,
    /// No syntax has this number.
    UnknownSyntax,
}

impl Refusal {
    /// Returns the code in the header.
    pub(crate) fn code(self) -> u32
        ensures { result ≡ code_of_refusal self }
    {
        match self {
            Refusal::Empty => 2,
            Refusal::Full => 3,
            Refusal::NotUtf8 => 4,
            Refusal::NotBoundary => 5,
            Refusal::ShortBuffer => 6,
            Refusal::Memory => 7,
            Refusal::StepLimit => 8,
            Refusal::Syntax => 9,
            Refusal::TooManyGroups => 10,
            Refusal::TooManyLoops => 11,
            Refusal::TooManyInstructions => 12,
            Refusal::UnknownFlag => 13,
            Refusal::TooLong => 14,
            Refusal::TooDeep => 15,
            Refusal::NoGroup => 16,
            Refusal::NotOpen => 17,
            Refusal::NotCounted => 18,
            Refusal::Unbounded(reason) => code_of_unbounded_reason(reason),
            Refusal::WorkLimit => 20,
            Refusal::UnknownSyntax => 21,
        }
    }

    /// Returns the reply of a refused call. Its count is 0.
    pub(crate) fn reply(self) -> Reply
        ensures { result ≡ record { code = code_of_refusal self; count = 0 } }
    {
        Reply {
            code: self.code(),
            count: 0,
        }
    }

    /// Returns the refusal for an error of compiling a pattern.
    pub(crate) fn of_error(error: Error) -> Refusal
        ensures { result ≡ refusal_of_compile_error error }
    {
        match error {
            Error::Parse(ParseError::Syntax(_)) => Refusal::Syntax,
            Error::Emit(EmitError::TooManyGroups) => Refusal::TooManyGroups,
            Error::Emit(EmitError::TooManyLoops) => Refusal::TooManyLoops,
            Error::Emit(EmitError::TooManyInstructions) => Refusal::TooManyInstructions,
            _ => Refusal::Memory,
        }
    }
}

// Returns the code of a reason for which no work bound is known.
fn code_of_unbounded_reason(reason: Unbounded) -> u32
    ensures { result ≡ code_of_unbounded_reason reason }
{
    match reason {
        Unbounded::Memory => 7,
        Unbounded::Lookaround => 19,
        Unbounded::Backreference => 22,
        Unbounded::Count => 23,
        Unbounded::BoundTooLarge => 24,
    }
}

impl From<Unbounded> for Refusal {
    ghost use Rattle.regress_c.specs.declared.refusal.Refusal.TheVariants as refusal;

    ghost from_gives = { λ reason refused. refused ≡ refusal.Unbounded reason };

    fn from(reason: Unbounded) -> Refusal {
        Refusal::Unbounded(reason)
    }
}

impl From<SearchError> for Refusal {
    ghost use Rattle.regress_c.specs.Codes.{refusal_of_search_error};

    ghost from_gives = { λ error refusal. refusal ≡ refusal_of_search_error error };

    fn from(error: SearchError) -> Refusal {
        match error {
            SearchError::Memory => Refusal::Memory,
            SearchError::StepLimit => Refusal::StepLimit,
        }
    }
}

impl From<WorkError> for Refusal {
    ghost use Rattle.regress_c.specs.Codes.{refusal_of_work_error};

    ghost from_gives = { λ error refusal. refusal ≡ refusal_of_work_error error };

    fn from(error: WorkError) -> Refusal {
        match error {
            WorkError::Memory => Refusal::Memory,
            WorkError::WorkLimit => Refusal::WorkLimit,
        }
    }
}

impl From<Utf8Error> for Refusal {
    ghost use Rattle.regress_c.specs.declared.refusal.Refusal.TheVariants.{NotUtf8};

    ghost from_gives = { λ _ refusal. refusal ≡ NotUtf8 };

    fn from(_: Utf8Error) -> Refusal {
        Refusal::NotUtf8
    }
}

impl From<AllocError> for Refusal {
    ghost use Rattle.regress_c.specs.declared.refusal.Refusal.TheVariants.{Memory};

    ghost from_gives = { λ _ refusal. refusal ≡ Memory };

    fn from(_: AllocError) -> Refusal {
        Refusal::Memory
    }
}

impl<T: Drop> From<AllocFailed<T>> for Refusal {
    ghost use Rattle.regress_c.specs.declared.refusal.Refusal.TheVariants.{Memory};

    ghost from_gives = { λ _ refusal. refusal ≡ Memory };

    fn from(_: AllocFailed<T>) -> Refusal {
        Refusal::Memory
    }
}
