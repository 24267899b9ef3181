//! Checks a JSON document against a JSON Schema.
//!
//! The exit status is 0 if the document is valid, 1 if it is not, and 2 if this cannot be decided
//! or an error occurs.
#![tactic(auto)]

mod claims;
mod command;
mod formats;
mod judge;
mod keyword;
mod numbers;
mod patterns;
mod pointer;
mod reader;
mod reference;
mod report;
mod rows;
mod schema;
mod search;
mod walk;

use crate::command::{LINE, Options};
use crate::numbers::convert_whole_numbers;
use crate::report::Outcome;
use crate::rows::answer_rows;
use crate::schema::Schema;
use crate::walk::report;
use anyhow::{Result, bail};
use serde_json::Value;
use std::process::ExitCode;
use std::{fs, io};
use use_support::{CommandLine, EXIT_STATUS_FAILURE, Given, Program, run};

// Reads a file as text. `-` is standard input.
fn read(rt: &HostRuntime, path: &str) -> io::Result<String> {
    if path == "-" {
        return io::read_to_string(rt.alloc(), rt.stdin());
    }
    fs::read_to_string(rt, path)
}

// Reads a file as JSON, with whole numbers as integers.
fn read_value(rt: &HostRuntime, path: &str) -> Result<Value> {
    let text = match read(rt, path) {
        Ok(text) => text,
        Err(why) => bail!("{path}: {why}"),
    };
    match Value::from_str(rt.alloc(), text.as_str()) {
        Ok(mut value) => {
            convert_whole_numbers(&mut value);
            Ok(value)
        }
        Err(why) => bail!("{path}: {why}"),
    }
}

// Checks whether the document is valid, and prints a line for each finding. If rows are wanted,
// also answers them.
fn validate(rt: &HostRuntime, options: &Options<'_>) -> Result<Outcome> {
    let alloc = rt.alloc();
    let schema = read_value(rt, options.schema)?;
    let schema = Schema::read(alloc, &schema, options.reading)?;
    let document = read_value(rt, options.document)?;
    let report = report(rt, &schema, options.steps, &document)?;
    for finding in &report.findings {
        println!(rt; "{finding}")?;
    }
    if options.rows {
        answer_rows(rt, options)?;
    }
    Ok(report.outcome())
}

struct Validator;

impl Program for Validator {
    fn line() -> &'static CommandLine {
        &LINE
    }

    fn run(rt: &HostRuntime, given: &Given<'_>) -> Result<u8> {
        Ok(match validate(rt, &Options::of(given))? {
            Outcome::Holds => 0,
            Outcome::Fails => 1,
            Outcome::Undecided => EXIT_STATUS_FAILURE,
        })
    }
}

fn main(rt: HostRuntime) -> ExitCode {
    run::<Validator>(&rt)
}
