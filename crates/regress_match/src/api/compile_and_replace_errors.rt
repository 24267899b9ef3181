//! Errors of compiling a pattern and of replacing matches.

ghost use Rattle.std.specs.Prelude.{◌≡◌};
ghost use Rattle.regress_match.specs.CompileErrors.{diagnosis_in_error, error_of_emit, error_of_parse};

use regex_parser::diagnosis::Diagnosis;
use regex_parser::parse::ParseError;
use regress_program::emit::EmitError;
use regress_search::exec::SearchError;
use std::alloc::AllocError;
use std::fmt;

/// The error of compiling a pattern.
#[derive(Clone, Copy, Debug, PartialEq, Eq, thiserror::Error)]
pub enum Error {
    /// The text is not a valid pattern. It displays like `unclosed group at 3`.
    #[error("{0}")]
    Parse(ParseError),
    /// The pattern exceeds a limit: it has too many groups, loops or instructions.
    #[error("{0}")]
    Emit(EmitError),
    /// An allocation failed.
    #[error("out of memory")]
    Memory,
}

impl Error {
    /// If a pattern was refused as `Parse(Syntax)`, returns what is wrong with it, and where, in
    /// code points of the pattern.
    pub fn diagnosis(self) -> Option<Diagnosis>
        ensures { result ≡ diagnosis_in_error self }
    {
        match self {
            Error::Parse(ParseError::Syntax(diagnosis)) => Some(diagnosis),
            _ => None,
        }
    }
}

impl From<AllocError> for Error {
    ghost use Rattle.regress_match.specs.declared.api.compile_and_replace_errors.Error.TheVariants.{Memory};

    ghost from_gives = { λ _ e. e ≡ Memory };

    fn from(_: AllocError) -> Self {
        Error::Memory
    }
}

impl From<ParseError> for Error {
    ghost from_gives = { λ refused e. e ≡ error_of_parse refused };

    fn from(error: ParseError) -> Self {
        match error {
            ParseError::Memory => Error::Memory,
            ParseError::TooManyGroups => Error::Emit(EmitError::TooManyGroups),
            error => Error::Parse(error),
        }
    }
}

impl From<EmitError> for Error {
    ghost from_gives = { λ refused e. e ≡ error_of_emit refused };

    fn from(error: EmitError) -> Self {
        match error {
            EmitError::Memory => Error::Memory,
            error => Error::Emit(error),
        }
    }
}

/// The error of replacing matches by the results of a closure.
#[derive(Debug, Drop, thiserror::Error)]
#[error_bound(E: fmt::Display)]
pub enum ReplaceError<E> {
    /// The search failed, or an allocation for the text failed.
    #[error("{0}")]
    Search(SearchError),
    /// The closure returned an error for a match.
    #[error("{0}")]
    Closure(E),
}

impl<E> From<SearchError> for ReplaceError<E> {
    ghost use Rattle.regress_match.specs.declared.api.compile_and_replace_errors.ReplaceError.TheVariants.{Search};

    ghost from_gives = { λ refused e. e ≡ Search refused };

    fn from(error: SearchError) -> Self {
        ReplaceError::Search(error)
    }
}

impl<E> From<AllocError> for ReplaceError<E> {
    ghost use Rattle.regress_search.specs.declared.exec.SearchError.TheVariants.{Memory};
    ghost use Rattle.regress_match.specs.declared.api.compile_and_replace_errors.ReplaceError.TheVariants.{Search};

    ghost from_gives = { λ _ e. e ≡ Search Memory };

    fn from(_: AllocError) -> Self {
        ReplaceError::Search(SearchError::Memory)
    }
}
