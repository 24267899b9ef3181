//! Rows of standard input for tests. Each row has a schema and a document.

use crate::command::Options;
use crate::numbers::convert_whole_numbers;
use crate::reader::Reading;
use crate::report::{Finding, Outcome, Report};
use crate::schema::Schema;
use crate::walk::report;
use anyhow::{Context, Error, Result, bail};
use serde_json::Value;
use std::alloc::Global;

/// Prints each row of standard input with one more field. The fields of a row are separated by ` |
/// `. A row with a schema and a document gets `valid`, `invalid`, `undecided`, or `refused` if the
/// schema is refused. A row with a third field, the number of steps of a search, gets the findings,
/// or the first line of why the schema is refused. If the schema is preceded by `--assert-format `
/// or `--ignore-unknown `, this option applies to the row.
///
/// # Errors
///
/// Returns an error if a row cannot be read or printed, or if an allocation fails.
pub fn answer_rows(rt: &HostRuntime, options: &Options<'_>) -> Result<()> {
    for row in rt.stdin().lines(rt.alloc()) {
        let row = row.context("reading standard input")?;
        let answered = answer(rt, options, row.as_str())?;
        println!(rt; "{row} | {answered}")?;
    }
    Ok(())
}

fn answer(rt: &HostRuntime, options: &Options<'_>, row: &str) -> Result<String> {
    let alloc = rt.alloc();
    let fields: Vec<&str> = row.split(" | ").collect(alloc)?;
    match *fields.as_slice() {
        [schema, document] => {
            let told = check(rt, options, options.steps, (schema, document));
            Ok(String::from_str(alloc, verdict(&told))?)
        }
        [schema, document, steps] => {
            let steps = steps.parse::<u64>()?;
            match check(rt, options, steps, (schema, document)) {
                Ok(report) => lines(alloc, &report.findings),
                Err(why) => refusal(alloc, &why),
            }
        }
        _ => bail!("expected `SCHEMA | DOCUMENT` or `SCHEMA | DOCUMENT | STEPS`: {row}"),
    }
}

fn verdict(told: &Result<Report>) -> &'static str {
    let Ok(report) = told else {
        return "refused";
    };
    match report.outcome() {
        Outcome::Holds => "valid",
        Outcome::Fails => "invalid",
        Outcome::Undecided => "undecided",
    }
}

// Checks the document of a row against its schema.
fn check(
    rt: &HostRuntime,
    options: &Options<'_>,
    steps: u64,
    (schema, document): (&str, &str),
) -> Result<Report> {
    let (schema, reading) = reading(schema, options.reading);
    let schema = value(rt.alloc(), schema)?;
    let document = value(rt.alloc(), document)?;
    let schema = Schema::read(rt.alloc(), &schema, reading)?;
    report(rt, &schema, steps, &document)
}

// Removes an option in front of a schema, and applies it to `reading`.
fn reading(schema: &str, mut reading: Reading) -> (&str, Reading) {
    if let Some(schema) = schema.strip_prefix("--assert-format ") {
        reading.assert_format = true;
        return (schema, reading);
    }
    if let Some(schema) = schema.strip_prefix("--ignore-unknown ") {
        reading.ignore_unknown = true;
        return (schema, reading);
    }
    (schema, reading)
}

fn value(alloc: Global, text: &str) -> Result<Value> {
    let mut value = Value::from_str(alloc, text)?;
    convert_whole_numbers(&mut value);
    Ok(value)
}

// Returns the first line of the reason why a schema is refused.
fn refusal(alloc: Global, why: &Error) -> Result<String> {
    let why = format!(in alloc; "refused: {why}")?;
    let (line, _) = why.split_once('\n').unwrap_or((why.as_str(), ""));
    Ok(String::from_str(alloc, line)?)
}

fn lines(alloc: Global, findings: &Vec<Finding>) -> Result<String> {
    let mut lines = String::new(alloc);
    for finding in findings {
        if !lines.is_empty() {
            lines.push_str("; ")?;
        }
        write!(lines, "{finding}")?;
    }
    Ok(lines)
}
