//! Renames the files of a folder by replacing the matches of a pattern in their names.
//!
//! The exit status is 0 if all files are renamed (or would be with `--apply`), 1 if the renamings
//! are refused (then no file is renamed), and 2 after an error.
#![tactic(auto)]

mod command;
mod folder;
mod groups;
mod names;
mod plan;
mod rows;

use crate::command::{LINE, Options};
use crate::folder::{apply, read_folder};
use crate::groups::parts;
use crate::plan::{Refusal, Rename, plan};
use crate::rows::answer_rows;
use anyhow::{Result, bail};
use regress_match::{Error, Flags, Regex};
use std::io;
use std::process::ExitCode;
use use_support::{CommandLine, Given, Program, run};

// Compiles the pattern. If it has a syntax error, the error shows the cause and the position.
fn compile(rt: &HostRuntime, pattern: &str, flags: Flags) -> Result<Regex> {
    let alloc = rt.alloc();
    let why = match Regex::with_flags(alloc, pattern, flags) {
        Ok(re) => return Ok(re),
        Err(why) => why,
    };
    if let Error::Parse(_) = why {
        if let Some(diagnosis) = Regex::diagnose(alloc, pattern, flags)? {
            bail!("the pattern is refused\n{}", diagnosis.below_text(pattern));
        }
    }
    bail!("{why}")
}

// Prints a line for each renaming: the old name, the new name, and with `--groups` the named
// groups.
fn show(rt: &HostRuntime, options: &Options<'_>, re: &Regex, plan: &[Rename]) -> Result<()> {
    for Rename { from, to } in plan {
        if options.groups {
            let parts = parts(rt.alloc(), re, from.as_str())?;
            println!(rt; "{from} -> {to}{parts}")?;
        } else {
            println!(rt; "{from} -> {to}")?;
        }
    }
    Ok(())
}

// Renames the files, or shows how they would be renamed. Returns whether the renamings are safe.
fn rename(rt: &HostRuntime, options: &Options<'_>) -> Result<bool> {
    let alloc = rt.alloc();
    let re = compile(rt, options.pattern, options.flags)?;
    let folder = read_folder(rt, options.folder)?;
    if folder.unreadable > 0 {
        eprintln!(rt;
            "names that are not UTF-8, which are passed over: {}",
            folder.unreadable
        )?;
    }
    let plan = match plan(alloc, &re, options.template, &folder.files, &folder.others) {
        Ok(plan) => plan,
        Err(Refusal::Memory) => bail!("out of memory"),
        Err(refusal) => {
            eprintln!(rt; "{refusal}; nothing is renamed")?;
            return Ok(false);
        }
    };
    show(rt, options, &re, &plan)?;
    if options.apply {
        apply(rt, options.folder, &plan)?;
    } else {
        eprintln!(rt;
            "{} of {} files; nothing is renamed without --apply",
            plan.len(),
            folder.files.len()
        )?;
    }
    Ok(true)
}

struct Renamer;

impl Program for Renamer {
    fn line() -> &'static CommandLine {
        &LINE
    }

    fn run(rt: &HostRuntime, given: &Given<'_>) -> Result<u8> {
        let options = Options::of(given);
        let is_renamed = rename(rt, &options)?;
        if options.rows {
            answer_rows(rt)?;
        }
        Ok(if is_renamed { 0 } else { 1 })
    }
}

fn main(rt: HostRuntime) -> ExitCode {
    run::<Renamer>(&rt)
}
