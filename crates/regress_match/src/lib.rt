//! Regular expressions with the syntax and semantics of ECMAScript: the match engine of the crate
//! `regress`.
//!
//! A [`Regex`] is compiled from a pattern of the profile, or of the syntax that [`Syntax`] selects.
//! Its searches yield exactly the list of matches that the pattern's tree defines: the leftmost
//! match of highest priority, and then the matches after it.
//!
//! The modules below the public API are re-exported, so that a caller who names their items needs
//! no other crate.
#![tactic(auto)]

pub mod api;
pub mod backends;
pub mod command_line;
mod executor_aliases;
pub mod front;

pub use crate::api::{
    AsciiMatches, BoundedRegex, CaretDiagnosis, Cause, Diagnosis, Error, Flags, Groups,
    LimitedMatches, Match, MatchAndNext, Matches, MatchesInWork, NamedGroups, Range, Regex,
    ReplaceError, SearchError, Syntax, Unbounded, WorkError, WorkLimitedMatches, escape,
    is_unit_boundary, next_from,
};
pub use regex_parser::greatest_parenthesis_depth_of_pattern::nesting;
pub use regress_backtrack::classicalbacktrack;
pub use regress_input::{cursor, indexing, matchers, position, scm};
pub use regress_pikevm::pikevm;
pub use regress_program::{emit, insn, startpredicate};
pub use regress_search::{exec, search_loop};
