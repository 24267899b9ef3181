//! Prints the lines in which a pattern has a match, like `grep`: `use_grep [OPTIONS] PATTERN
//! [FILE]..`.
//!
//! The exit status is 0 if a line was selected, 1 if none was, and 2 after an error.
#![tactic(auto)]

ghost use Rattle.std.specs.Prelude.{◌≡◌, ◌&&◌, ◌||◌, if◌then◌else◌, nat_eq, not};

mod blocks;
mod colors;
mod context;
mod failure;
mod glob;
mod joining;
mod local;
mod options;
mod pattern;
mod patterns;
mod print;
mod search;
mod select;
mod walk;

use crate::failure::Failure;
use crate::joining::joined;
use crate::options::{LINE, Options, Output};
use crate::pattern::{check_alone, compile, print_pattern_error};
use crate::patterns::{
    given_patterns, has_posix_class, has_property_escape, may_have_backreference,
};
use crate::search::{Search, Tally};
use anyhow::{Result, bail};
use std::fs;
use std::io::ErrorKind;
use std::process::ExitCode;
use use_support::{CommandLine, EXIT_STATUS_FAILURE, Given, Program, run, run_row};

// The exit status when the output is closed: that of `grep` when the signal `SIGPIPE` ends it.
const BROKEN_PIPE: u8 = 141;

// Returns the exit status of a search. With `-q`, a selected line has priority over an error.
fn status(tally: &Tally, is_quiet: bool) -> u8
    ensures { result ≡ (if nat_eq tally.now.selected 0 then (if tally.now.has_trouble then 2 else 1)
        else (if tally.now.has_trouble && not is_quiet then 2 else 0)) }
{
    if tally.selected == 0 {
        return if tally.has_trouble {
            EXIT_STATUS_FAILURE
        } else {
            1
        };
    }
    if tally.has_trouble && !is_quiet {
        EXIT_STATUS_FAILURE
    } else {
        0
    }
}

struct Grep;

impl Program for Grep {
    fn line() -> &'static CommandLine {
        &LINE
    }

    fn run(rt: &HostRuntime, given: &Given<'_>) -> Result<u8> {
        if given.has("rows") {
            return run_rows(rt, given.text("rows"));
        }
        run_once(rt, given)
    }
}

// Runs the program for one row of a file. It cannot read a file of rows itself.
struct RowRun;

impl Program for RowRun {
    fn line() -> &'static CommandLine {
        &LINE
    }

    fn run(rt: &HostRuntime, given: &Given<'_>) -> Result<u8> {
        run_once(rt, given)
    }
}

// Reads a file whose rows have the arguments of a command line. Runs the program for each row, and
// prints its status.
fn run_rows(rt: &HostRuntime, name: &str) -> Result<u8> {
    let rows = fs::read_to_string(rt, name)?;
    for row in rows.lines() {
        println!(rt; "== {row}")?;
        let status = run_row::<RowRun>(rt, row)?;
        println!(rt; "status {status}")?;
    }
    Ok(0)
}

fn run_once(rt: &HostRuntime, given: &Given<'_>) -> Result<u8> {
    let patterns = given_patterns(rt, given)?;
    let pattern = joined(rt.alloc(), &patterns)?;
    run_joined(rt, given, &patterns, pattern.as_str())
}

// Searches for the pattern that is joined from the given ones.
fn run_joined(
    rt: &HostRuntime,
    given: &Given<'_>,
    patterns: &[String],
    joined: &str,
) -> Result<u8> {
    let options = Options::of(rt, given, joined)?;
    run_checked(rt, &options, patterns)
}

// Searches if the patterns are valid.
fn run_checked(rt: &HostRuntime, options: &Options<'_>, patterns: &[String]) -> Result<u8> {
    if options.is_fixed || check_and_report_patterns(rt, options, patterns)? {
        search_files(rt, options)
    } else {
        Ok(EXIT_STATUS_FAILURE)
    }
}

// Checks the patterns, and reports what is wrong. If there are several, each has to be valid on its
// own and must not refer to groups, because groups have other numbers in the joined pattern.
fn check_and_report_patterns(
    rt: &HostRuntime,
    options: &Options<'_>,
    patterns: &[String],
) -> Result<bool> {
    print_dialect_notes(rt, options.pattern)?;
    if patterns.len() < 2 {
        return Ok(true);
    }
    for pattern in patterns {
        let pattern = pattern.as_str();
        if may_have_backreference(pattern) {
            bail!("of several patterns none may refer to a group: {pattern}");
        }
        if let Err(why) = check_alone(rt.alloc(), options, pattern) {
            print_pattern_error(rt, options, pattern, &why)?;
            return Ok(false);
        }
    }
    Ok(true)
}

// Prints notes about parts of a `grep` pattern that have another meaning here.
fn print_dialect_notes(rt: &HostRuntime, pattern: &str) -> Result<()> {
    if has_posix_class(pattern) {
        eprintln!(rt;
            "use_grep: note: POSIX classes such as [[:alpha:]] do not exist in ECMAScript: write [A-Za-z]"
        )?;
    }
    if has_property_escape(pattern) {
        eprintln!(rt;
            "use_grep: note: \\p and a brace match themselves, since a pattern here has no flag u: write ranges such as [A-Z]"
        )?;
    }
    Ok(())
}

fn search_files(rt: &HostRuntime, options: &Options<'_>) -> Result<u8> {
    let query = match compile(rt.alloc(), options) {
        Ok(query) => query,
        Err(why) => {
            print_pattern_error(rt, options, options.pattern, &why)?;
            return Ok(EXIT_STATUS_FAILURE);
        }
    };
    match Search::new(rt, &query, options)?.all() {
        Ok(tally) => Ok(status(&tally, options.output == Output::Nothing)),
        Err(why) => status_of_failed_search(&why),
    }
}

// Returns the exit status of a search that failed because its output was closed. Other failures are
// returned as errors.
fn status_of_failed_search(why: &Failure) -> Result<u8> {
    if let Failure::Write(cause) = why {
        if cause.kind() == ErrorKind::BrokenPipe {
            return Ok(BROKEN_PIPE);
        }
    }
    bail!("{why}")
}

fn main(rt: HostRuntime) -> ExitCode {
    run::<Grep>(&rt)
}
