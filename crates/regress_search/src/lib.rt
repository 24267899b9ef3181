//! What all executors share: matches and iterators over them, the traits of executors, the search
//! loop over start positions, the search for candidate starts, and reading a text by a plan.
#![tactic(auto)]

pub mod assertions;
pub mod class_char_and_table_lookups;
pub mod class_scan;
pub mod consecutive_must_iterate_units;
pub mod exec;
pub mod exit_ranges;
mod few_units_finder;
mod few_wide_units;
pub mod follow_set_checks;
pub mod given_char_and_byte_seq_reads;
pub mod insns_that_read_or_test_text;
pub mod lazy_char_loops;
pub mod leading_char_loop;
pub mod leaping;
pub mod literal_finder;
pub mod nonreading_bodies;
mod prefix_search;
pub mod program_and_input;
mod search_by_marks;
pub mod search_context;
pub mod search_loop;
pub mod start_search;
mod start_search_by_bit_probes;
mod unit_runs;
