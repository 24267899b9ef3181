//! The public API of the crate. The crate root re-exports all of it except the laws.

mod code_unit_searches;
mod compile_and_replace_errors;
mod diagnosis;
mod escaping;
mod flags;
mod group_count_and_names;
mod laws;
mod match_at;
mod regex;
mod replace;
mod searches_resumed_at_offsets;
mod work_budget_searches;

pub use self::compile_and_replace_errors::{Error, ReplaceError};
pub use self::escaping::escape;
pub use self::flags::Flags;
pub use self::laws::{
    call_costs_are_work_spent, calls_within_work_return_matches,
    matches_at_offsets_follow_the_pattern, matches_lie_in_text_in_order,
    searches_follow_the_ecmascript_pattern, searches_follow_the_pattern,
    searches_return_matches_in_order, searches_return_matches_of_pattern,
    searches_return_matches_within_work, work_per_unit_limit_suffices,
};
pub use self::regex::{AsciiMatches, LimitedMatches, Matches, Regex, WorkLimitedMatches};
pub use self::replace::replacing_by_match_keeps_text;
pub use self::searches_resumed_at_offsets::{MatchAndNext, next_from};
pub use self::work_budget_searches::{BoundedRegex, MatchesInWork};
pub use regex_parser::diagnosis::{CaretDiagnosis, Cause, Diagnosis};
pub use regex_parser::syntax::Syntax;
pub use regress_bounded::work_bound::Unbounded;
pub use regress_input::indexing::is_unit_boundary;
pub use regress_search::exec::{Groups, Match, NamedGroups, SearchError, WorkError};
pub use std::ops::Range;
