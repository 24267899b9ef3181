//! Plans for folders that rows of standard input describe, for tests.

use crate::plan::{Refusal, Rename, plan};
use anyhow::{Context, Result};
use regress_match::Regex;
use std::alloc::{AllocError, Global};

/// Prints each row of standard input with one more field: the renamings, or why they are refused. A
/// row has four fields, separated by `~`: a pattern, a template, the names of the files, and the
/// names of everything else in the folder.
///
/// # Errors
///
/// Returns an error if a row cannot be read or printed, or if an allocation fails.
pub fn answer_rows(rt: &HostRuntime) -> Result<()> {
    for row in rt.stdin().lines(rt.alloc()) {
        let row = row.context("reading standard input")?;
        let planned = answer(rt.alloc(), row.as_str())?;
        println!(rt; "{row}~{planned}")?;
    }
    Ok(())
}

fn names_of(alloc: Global, words: &str) -> Result<Vec<String>, AllocError> {
    words
        .split(' ')
        .filter(|word| !word.is_empty())
        .map(|word| String::from_str(alloc, word))
        .try_collect(alloc)
}

fn push_renaming(line: &mut String, from: &str, to: &str) -> Result<(), AllocError> {
    if !line.is_empty() {
        line.push(' ')?;
    }
    write!(line, "{from}>{to}")
}

fn write_plan(line: &mut String, plan: &Result<Vec<Rename>, Refusal>) -> Result<(), AllocError> {
    match plan {
        Ok(renames) => {
            for Rename { from, to } in renames {
                push_renaming(line, from.as_str(), to.as_str())?;
            }
            Ok(())
        }
        Err(Refusal::InvalidNewName { from, to }) => write!(line, "{from}>{to}: no name"),
        Err(Refusal::NewNameExists { from, to }) => write!(line, "{from}>{to}: taken"),
        Err(Refusal::Same { from, other, to }) => write!(line, "{from}>{to} {other}>{to}: same"),
        Err(Refusal::Memory) => line.push_str("no memory"),
    }
}

fn answer(alloc: Global, row: &str) -> Result<String, AllocError> {
    let fields: Vec<&str> = row.split('~').collect(alloc)?;
    let [pattern, template, files, others] = *fields.as_slice() else {
        return String::from_str(alloc, "no row");
    };
    let Ok(re) = Regex::new(alloc, pattern) else {
        return String::from_str(alloc, "no pattern");
    };
    let files = names_of(alloc, files)?;
    let others = names_of(alloc, others)?;
    let mut line = String::new(alloc);
    write_plan(&mut line, &plan(alloc, &re, template, &files, &others))?;
    Ok(line)
}
