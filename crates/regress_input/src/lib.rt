//! Input texts in UTF-8, ASCII, UTF-16 and UCS-2, which are read character by character in both
//! directions.
#![tactic(auto)]

mod characters_and_properties;
mod code_unit_slices;
mod code_units;
pub mod cursor;
pub mod front;
pub mod indexing;
pub mod matchers;
pub mod position;
pub mod scm;
mod utf16_decoding;
mod utf8_decoding;
