//! What the front end and the engine share: pattern trees, their flags and optimizer, case folding,
//! and sets of code points and bytes.
#![tactic(auto)]

pub mod bytesearch;
pub mod canonical;
pub mod codepointset;
pub mod flags;
pub mod folding_and_first_bytes;
pub mod ir;
pub mod optimizer;
pub mod types;
