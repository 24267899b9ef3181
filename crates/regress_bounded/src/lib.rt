//! Searches within a work budget, and how much work suffices for all matches of a text.
#![tactic(auto)]

mod complex_lookarounds;
pub mod executor;
mod lookarounds;
mod memo_and_work_budget;
mod memoizing_executor;
mod pending_stack;
mod step_work;
mod thread_steps_and_backtracking;
mod unbounded_char_loops;
pub mod work_bound;
