//! Runs the cases of a file with the body of `regress-tool`, and counts those with the expected
//! result. A case with another result is printed as a line on standard error.

use anyhow::Result;
use regress_match::command_line;
use serde::Deserialize;
use std::alloc::{AllocError, Global};
use std::fs;

/// The option for the whole language.
const ES2018: &str = "--es2018";

/// A file with one case in each line, and the language of their patterns.
#[derive(Clone, Copy)]
struct Cases {
    file: &'static str,
    is_whole: bool,
}

const PROFILE_CASES: Cases = Cases {
    file: "v8.jsonl",
    is_whole: false,
};

const WHOLE_CASES: Cases = Cases {
    file: "es2018.jsonl",
    is_whole: true,
};

/// The exit status for a refused pattern.
const REFUSED: u8 = 2;

// The arguments of the program, its expected output, and its expected exit status.
#[derive(Drop, Deserialize)]
struct Case {
    pattern: String,
    flags: String,
    text: String,
    stdout: String,
    status: u8,
}

// Checks whether the program has the expected result, and prints an error only if the pattern is
// refused.
fn has_judged_result(alloc: Global, is_whole: bool, case: Case) -> Result<bool, AllocError> {
    let Case {
        pattern,
        flags,
        text,
        stdout,
        status,
    } = case;
    let mut words = Vec::new(alloc);
    if is_whole {
        words.push(Some(String::from_str(alloc, ES2018)?))?;
    }
    for word in vec![in alloc; pattern, flags, text]? {
        words.push(Some(word))?;
    }
    let mut out = Vec::new(alloc);
    let mut err = Vec::new(alloc);
    let got = command_line::run(alloc, &words, &mut out, &mut err);
    let is_refused = status == REFUSED;
    Ok(got == status && out.as_slice() == stdout.as_bytes() && err.is_empty() != is_refused)
}

/// Prints the number of cases for each language. Returns whether all agree.
pub fn agree(rt: &HostRuntime) -> Result<bool> {
    let profile = agrees(rt, PROFILE_CASES)?;
    let whole = agrees(rt, WHOLE_CASES)?;
    Ok(profile && whole)
}

// Prints the number of cases in a file. Returns whether all agree.
fn agrees(rt: &HostRuntime, cases: Cases) -> Result<bool> {
    let alloc = rt.alloc();
    let lines = fs::read_to_string(rt, cases.file)?;
    let mut agree = 0u64;
    let mut differ = 0u64;
    for line in lines.lines() {
        if has_judged_result(alloc, cases.is_whole, serde_json::from_str(alloc, line)?)? {
            agree = agree.saturating_add(1);
        } else {
            eprintln!(rt; "differs: {line}")?;
            differ = differ.saturating_add(1);
        }
    }
    let all = agree.saturating_add(differ);
    println!(rt; "{all} cases: {agree} agree, {differ} differ")?;
    Ok(differ == 0)
}
