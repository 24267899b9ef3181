//! The parser: from a pattern's text to its tree, diagnoses, and readers of the pattern's parts.
#![tactic(auto)]

mod case_variants;
mod character_class_parser;
mod code_point_reader;
pub mod diagnosis;
mod ecmascript_classes;
mod ecmascript_escapes;
mod ecmascript_group_name_reader;
mod ecmascript_terms;
mod escapes_and_group_names;
pub mod greatest_parenthesis_depth_of_pattern;
mod group_openings_and_names;
mod groupless_terms;
mod nfkc_casefold;
mod open_groups;
pub mod parse;
mod parser_error;
pub mod scan_law;
pub mod syntax;
mod unicode_properties;
