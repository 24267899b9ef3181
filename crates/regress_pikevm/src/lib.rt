//! The executor that copies its states. `exec`, reexported, has the iterator over matches.
#![tactic(auto)]

pub mod pikevm;

pub use regress_search::exec;
