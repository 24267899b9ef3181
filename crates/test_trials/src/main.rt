//! Runs cases that another engine judged, every short text with every constructor, generated
//! patterns, and odd rows with every call (only these with `test_trials hostile`).
//!
//! The exit status is 1 if a judged case or a constructor disagrees.
#![tactic(auto)]

mod bounded;
mod checks;
mod explosions;
mod fault;
mod hostile;
mod judged;
mod limits;
mod lists;
mod patterns;
mod seed;
mod seeded;
mod sweep;
mod texts;

use anyhow::Result;
use std::env;
use std::process::ExitCode;

// Checks whether only the odd rows are wanted. This is unknown if an allocation fails.
fn wants_only_hostile_rows(rt: &HostRuntime) -> bool {
    match env::args(rt) {
        Ok(mut words) => words.nth(1).is_some_and(|word| word.as_str() == "hostile"),
        Err(_) => false,
    }
}

fn main(rt: HostRuntime) -> Result<ExitCode> {
    if wants_only_hostile_rows(&rt) || wants_only_hostile_rows(&rt) {
        hostile::print_all_results(&rt)?;
        return Ok(ExitCode::SUCCESS);
    }
    let judged = judged::agree(&rt)?;
    let constructed = sweep::agrees(&rt)?;
    seeded::print_all_results(&rt)?;
    hostile::print_all_results(&rt)?;
    Ok(ExitCode::from(u8::from(!judged || !constructed)))
}
