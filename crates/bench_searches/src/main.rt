//! Times a search of a file: `bench_searches PATTERN FLAGS FILE [WORK]`.
//!
//! Prints the number of matches, and the nanoseconds of the fastest of several passes over the
//! file. Each pass finds all matches, or with `WORK` those that are found within that much work. If
//! `WORK` is `bound`, the searches are those of `BoundedRegex`, with enough work.
#![tactic(auto)]

use anyhow::{Context, Result, bail};
use regress_match::api::{BoundedRegex, Flags, Regex, WorkError};
use regress_match::exec::{WorkLimitedProducer, WorkMatches};
use std::alloc::Global;
use std::rt::Clock;
use std::time::Instant;
use std::{env, fs};

/// The number of passes.
const PASSES: u32 = 5;

// The work limit of a search.
#[derive(Clone, Copy)]
enum Limit {
    None,
    Work(u64),
    /// The work that suffices by the bound of the pattern.
    Bound,
}

impl Limit {
    // Reads a limit.
    fn parse(word: &str) -> Limit {
        match word.parse::<u64>() {
            Ok(work) => Limit::Work(work),
            Err(_) => Limit::Bound,
        }
    }
}

// What finds the matches of a text.
#[derive(Clone, Copy)]
enum Searcher<'a> {
    All(&'a Regex),
    WithinWork(&'a Regex, u64),
    Bounded(&'a BoundedRegex<'a>),
}

// A search of a text.
#[derive(Clone, Copy)]
struct Search<'a> {
    searcher: Searcher<'a>,
    text: &'a str,
}

// Returns the number of matches in the text.
fn count(re: &Regex, text: &str) -> Result<u64> {
    let Ok(found) = re.find_iter(text) else {
        bail!("out of memory");
    };
    let mut matches = 0u64;
    for item in found {
        if item.is_err() {
            bail!("out of memory");
        }
        matches = matches.saturating_add(1);
    }
    Ok(matches)
}

// Returns the number of matches in the text that are found within a work limit.
fn count_in_work(re: &Regex, text: &str, work: u64) -> Result<u64> {
    match re.find_from_in_work(text, 0, work) {
        Ok(found) => count_items(found),
        Err(_) => bail!("out of memory"),
    }
}

// Returns the number of matches in the text, by a search with enough work for all of them.
fn count_within_bound(bounded: &BoundedRegex<'_>, text: &str) -> Result<u64> {
    let places = (text.len() as u64).saturating_add(1);
    let work = bounded.work_per_unit().saturating_mul(places);
    match bounded.find_from(text, 0, work) {
        Ok(found) => count_items(found),
        Err(_) => bail!("out of memory"),
    }
}

// Returns the number of matches before the end or the work limit.
fn count_items<P: WorkLimitedProducer + Drop>(found: WorkMatches<P>) -> Result<u64> {
    let mut matches = 0u64;
    for item in found {
        match item {
            Ok(_) => matches = matches.saturating_add(1),
            Err(WorkError::WorkLimit) => return Ok(matches),
            Err(WorkError::Memory) => bail!("out of memory"),
        }
    }
    Ok(matches)
}

// Returns the number of matches that a search finds, and the nanoseconds that it took.
fn pass(clock: &impl Clock, search: &Search<'_>) -> Result<(u64, u128)> {
    let start = Instant::now(clock)?;
    let matches = match search.searcher {
        Searcher::All(re) => count(re, search.text)?,
        Searcher::WithinWork(re, work) => count_in_work(re, search.text, work)?,
        Searcher::Bounded(re) => count_within_bound(re, search.text)?,
    };
    Ok((matches, start.elapsed(clock)?.as_nanos()))
}

// Returns the number of matches that a search finds, and the nanoseconds of the fastest pass.
fn fastest(clock: &impl Clock, search: &Search<'_>) -> Result<(u64, u128)> {
    let (matches, mut nanoseconds) = pass(clock, search)?;
    for _ in 1..PASSES {
        nanoseconds = nanoseconds.min(pass(clock, search)?.1);
    }
    Ok((matches, nanoseconds))
}

// Prints the number of matches in the text, and the nanoseconds of the fastest pass.
fn report(rt: &HostRuntime, searcher: Searcher<'_>, text: &str) -> Result<()> {
    let (matches, nanoseconds) = fastest(rt, &Search { searcher, text })?;
    println!(rt; "{matches} matches, {nanoseconds} ns")?;
    Ok(())
}

// Returns the arguments after the program's name.
fn words(rt: &HostRuntime, alloc: Global) -> Result<Vec<String>> {
    let mut words = Vec::new(alloc);
    for word in env::args(rt)?.skip(1) {
        words.push(word)?;
    }
    Ok(words)
}

fn main(rt: HostRuntime) -> Result<()> {
    let alloc = rt.alloc();
    let words = words(&rt, alloc)?;
    let (pattern, flags, file, limit) = match words.as_slice() {
        [pattern, flags, file] => (pattern, flags, file, Limit::None),
        [pattern, flags, file, work] => (pattern, flags, file, Limit::parse(work)),
        _ => {
            println!(rt; "usage: bench_searches PATTERN FLAGS FILE [WORK]")?;
            return Ok(());
        }
    };
    let text = fs::read_to_string(&rt, file.as_str()).context("the file cannot be read")?;
    let Ok(re) = Regex::with_flags(alloc, pattern.as_str(), Flags::from(flags.as_str())) else {
        bail!("pattern refused");
    };
    let text = text.as_str();
    match limit {
        Limit::None => report(&rt, Searcher::All(&re), text),
        Limit::Work(work) => report(&rt, Searcher::WithinWork(&re, work), text),
        Limit::Bound => {
            let Ok(bounded) = re.bounded() else {
                bail!("no work bound is known");
            };
            report(&rt, Searcher::Bounded(&bounded), text)
        }
    }
}
