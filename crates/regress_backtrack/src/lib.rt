//! The backtracking executor, which keeps one state and undoes the changes of failed threads.
#![tactic(auto)]

mod accepted_starts;
mod alternations_and_loops;
mod attempts;
mod capture_group_and_backref_ops;
mod char_loops;
mod choice_point_resumption;
pub mod classicalbacktrack;
mod failing_lazy_exits;
pub mod failure_memo;
pub mod failures_in_memo_table;
mod interpreter;
mod leap_memory;
mod lookaround_entry;
mod lookaround_frames;
mod memoized_char_loops;
mod memoized_ends;
mod memoized_execution;
mod next_candidate_start_by_plan;
pub mod position_and_result;
pub mod program_plan_and_text;
mod required_iterations;
pub mod single_op_execution;
pub mod state;
pub mod step_and_work_budgets;
mod step_limited;
mod surplus_required_iterations;
mod work_limited;
