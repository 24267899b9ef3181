//! Why a search ends early.

use regress_match::SearchError;
use std::alloc::{AllocError, AllocFailed};
use std::io;
use thiserror::Error;

/// Why a search ends before all files are searched.
#[derive(Debug, Drop, Error)]
pub enum Failure {
    /// The output cannot be written.
    #[error("write error: {0}")]
    Write(io::Error),
    /// A file has more than 2^64 - 1 lines or bytes.
    #[error("a file has more than 2^64 - 1 bytes or lines")]
    TooLong,
    /// An allocation failed.
    #[error("out of memory")]
    Memory,
}

impl From<io::Error> for Failure {
    fn from(why: io::Error) -> Failure {
        Failure::Write(why)
    }
}

impl From<AllocError> for Failure {
    fn from(_: AllocError) -> Failure {
        Failure::Memory
    }
}

impl<T: Drop> From<AllocFailed<T>> for Failure {
    fn from(_: AllocFailed<T>) -> Failure {
        Failure::Memory
    }
}

impl From<SearchError> for Failure {
    fn from(_: SearchError) -> Failure {
        Failure::Memory
    }
}
