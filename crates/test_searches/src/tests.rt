//! The tests. Each checks the rows of one table, and fails with a line for each row whose answer
//! differs.

use crate::anchored::{ANCHORED, check_anchored};
use crate::closures::{CLOSURES, check_closure_row};
use crate::constructors::CONSTRUCTORS;
use crate::deep::{NESTS, check_nest};
use crate::flags::{FLAGS, check_flags};
use crate::groups::{MATCHES, check_match};
use crate::memoization::{MEMOIZED, check_memoized};
use crate::padded_texts::{PADDED_TEXTS, check_padded_text};
use crate::paid_work::{PAID_WORK, PAID_WORK_IN_UNITS, check_paid_work, check_paid_work_in_units};
use crate::profile::{PROFILE, PROFILE_UNITS};
use crate::replace::{REPLACEMENTS, check_replacement};
use crate::rows::{Row, row_of};
use crate::searches::check_search;
use crate::step_limits::{STEP_LIMITS, check_step_limits};
use crate::table::SEARCHES;
use crate::tool::{RUNS, check_run};
use crate::units::{BOUNDARIES, UNITS, check_boundaries, check_units};
use crate::work_limits::{WORK_LIMITS, check_work_limit};
use std::alloc::Global;
use std::process::Abort;
use std::test::Fail;

// What the rows of a table test, which decides how they are read.
#[derive(Clone, Copy)]
enum Table {
    Searches,
    PaddedTexts,
    Units,
    Boundaries,
    Anchored,
    StepLimits,
    Memoized,
    WorkLimits,
    PaidWork,
    PaidWorkInUnits,
    Matches,
    Replacements,
    Closures,
    Flags,
    Runs,
    Nests,
}

// Adds a line to `differing` if the answer to a row is not the expected one.
fn check_row(
    alloc: Global,
    differing: &mut String,
    table: Table,
    row: Row<'_>,
) -> Result<(), Fail> {
    match table {
        Table::Searches => check_search(alloc, differing, row)?,
        Table::PaddedTexts => check_padded_text(alloc, differing, row)?,
        Table::Units => check_units(alloc, differing, row)?,
        Table::Boundaries => check_boundaries(alloc, differing, row)?,
        Table::Anchored => check_anchored(alloc, differing, row)?,
        Table::StepLimits => check_step_limits(alloc, differing, row)?,
        Table::Memoized => check_memoized(alloc, differing, row)?,
        Table::WorkLimits => check_work_limit(alloc, differing, row)?,
        Table::PaidWork => check_paid_work(alloc, differing, row)?,
        Table::PaidWorkInUnits => check_paid_work_in_units(alloc, differing, row)?,
        Table::Matches => check_match(alloc, differing, row)?,
        Table::Replacements => check_replacement(alloc, differing, row)?,
        Table::Closures => check_closure_row(alloc, differing, row)?,
        Table::Flags => check_flags(alloc, differing, row)?,
        Table::Runs => check_run(alloc, differing, row)?,
        Table::Nests => check_nest(alloc, differing, row)?,
    }
    Ok(())
}

// Fails with the rows of a table whose answers differ from the expected ones.
fn check_table(rt: &impl Abort, alloc: Global, table: Table, rows: &str) -> Result<(), Fail> {
    let mut differing = String::new(alloc);
    for line in rows.lines() {
        check_row(alloc, &mut differing, table, row_of(line))?;
    }
    assert!(rt; differing.is_empty(), "{differing}");
    Ok(())
}

#[test]
fn searches_in_each_encoding_by_each_executor(rt: HostRuntime) -> Result<(), Fail> {
    check_table(&rt, rt.alloc(), Table::Searches, SEARCHES)
}

#[test]
fn patterns_whose_meaning_differs_in_the_profile(rt: HostRuntime) -> Result<(), Fail> {
    check_table(&rt, rt.alloc(), Table::Searches, PROFILE)
}

#[test]
fn matches_at_offsets_around_vector_and_buffer_lengths(rt: HostRuntime) -> Result<(), Fail> {
    check_table(&rt, rt.alloc(), Table::PaddedTexts, PADDED_TEXTS)
}

#[test]
fn searches_of_16_bit_units(rt: HostRuntime) -> Result<(), Fail> {
    check_table(&rt, rt.alloc(), Table::Units, UNITS)
}

#[test]
fn patterns_of_the_profile_in_16_bit_units(rt: HostRuntime) -> Result<(), Fail> {
    check_table(&rt, rt.alloc(), Table::Units, PROFILE_UNITS)
}

#[test]
fn boundaries_of_16_bit_units(rt: HostRuntime) -> Result<(), Fail> {
    check_table(&rt, rt.alloc(), Table::Boundaries, BOUNDARIES)
}

#[test]
fn anchored_programs(rt: HostRuntime) -> Result<(), Fail> {
    check_table(&rt, rt.alloc(), Table::Anchored, ANCHORED)
}

#[test]
fn searches_within_step_limits(rt: HostRuntime) -> Result<(), Fail> {
    check_table(&rt, rt.alloc(), Table::StepLimits, STEP_LIMITS)
}

#[test]
fn searches_that_end_only_with_memoization(rt: HostRuntime) -> Result<(), Fail> {
    check_table(&rt, rt.alloc(), Table::Memoized, MEMOIZED)
}

#[test]
fn searches_within_work_limits(rt: HostRuntime) -> Result<(), Fail> {
    check_table(&rt, rt.alloc(), Table::WorkLimits, WORK_LIMITS)
}

#[test]
fn searches_that_pay_for_their_work(rt: HostRuntime) -> Result<(), Fail> {
    check_table(&rt, rt.alloc(), Table::PaidWork, PAID_WORK)
}

#[test]
fn searches_that_pay_for_their_work_in_units(rt: HostRuntime) -> Result<(), Fail> {
    check_table(&rt, rt.alloc(), Table::PaidWorkInUnits, PAID_WORK_IN_UNITS)
}

#[test]
fn calls_of_matches(rt: HostRuntime) -> Result<(), Fail> {
    check_table(&rt, rt.alloc(), Table::Matches, MATCHES)
}

#[test]
fn replacements(rt: HostRuntime) -> Result<(), Fail> {
    check_table(&rt, rt.alloc(), Table::Replacements, REPLACEMENTS)
}

#[test]
fn constructors(rt: HostRuntime) -> Result<(), Fail> {
    check_table(&rt, rt.alloc(), Table::Replacements, CONSTRUCTORS)
}

#[test]
fn replacements_by_closures(rt: HostRuntime) -> Result<(), Fail> {
    check_table(&rt, rt.alloc(), Table::Closures, CLOSURES)
}

#[test]
fn flags_and_escapes(rt: HostRuntime) -> Result<(), Fail> {
    check_table(&rt, rt.alloc(), Table::Flags, FLAGS)
}

#[test]
fn runs_of_the_program(rt: HostRuntime) -> Result<(), Fail> {
    check_table(&rt, rt.alloc(), Table::Runs, RUNS)
}

#[test]
fn wide_and_deep_patterns(rt: HostRuntime) -> Result<(), Fail> {
    check_table(&rt, rt.alloc(), Table::Nests, NESTS)
}
