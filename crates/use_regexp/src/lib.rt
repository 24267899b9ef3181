//! The RegExp object of a script interpreter, over texts of 16-bit units: ECMA-262, 9th edition,
//! 21.2.3 to 21.2.6.
//!
//! With the flag `u`, pattern and text are read as UTF-16. Without it, each code unit is a
//! character. Clause numbers, such as 21.2.5.7, are those of the 9th edition unless another edition
//! is named.
//!
//! The functions take coerced values. A host converts the property `lastIndex` with [`to_length`],
//! and the limit of a split with [`to_uint32`]. If the value is not a number, the host first
//! converts it to one (7.1.3, ToNumber).
#![tactic(auto)]

mod coercions;
mod error;
mod flags;
mod pattern;
mod regexp;
mod replacing;
mod source;
mod splitting;
mod template;
mod units;

pub use crate::coercions::{to_length, to_uint32};
pub use crate::error::RegExpError;
pub use crate::flags::Flags;
pub use crate::regexp::RegExp;
pub use regress_match::{Match, Range, ReplaceError, SearchError};
