//! Instructions, the compiler from tree to program, start predicates, and search plans, for bytes
//! and for 16-bit units.
#![tactic(auto)]

pub mod alternation_dispatch;
pub mod bracket_verdict_on_char_range;
pub mod char_class_tables;
pub mod emit;
mod equal_tables;
mod first_set_fixpoint;
pub mod first_set_type;
mod follow_sets;
mod ghost_source_tree;
pub mod insn;
pub mod insn_to_op_lowering;
pub mod instructions;
pub mod leading_char_loop;
pub mod leap;
mod long_group_reset_op_spans;
pub mod lookahead_and_exit_tables;
pub mod lookbehind_filter;
pub mod must_iterate_tables;
pub mod ops;
pub mod plan;
mod required_prefix_analysis;
pub mod required_prefix_prefilters;
pub mod required_prefix_types;
pub mod startpredicate;
pub mod table_keys_of_units;
pub mod up_to_three_units;
