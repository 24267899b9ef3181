//! Compiles every text of at most four characters, out of eight, with each constructor. Counts the
//! patterns among the texts and their matches. If a constructor disagrees with the programs of the
//! parsed tree, the text is printed as a line on standard error.

use anyhow::{Result, bail};
use regex_pattern_front::flags as front;
use regress_match::backends::{emit, emit_units, try_parse};
use regress_match::{Error, Flags, Regex, SearchError};
use regress_search::exec::{MatchProducer, Matches};
use std::alloc::{AllocError, Global};

/// The characters of the texts.
const LETTERS: [char; 8] = ['a', 'b', '|', '*', '(', ')', '^', '.'];

/// The number of texts of zero characters, of one, and so on.
const COUNTS: [u32; 5] = [1, 8, 64, 512, 4096];

/// The text that is searched.
const SEARCHED: &str = "abba";

/// The same in 16-bit units.
const SEARCHED_UNITS: [u16; 4] = [0x61, 0x62, 0x62, 0x61];

// The constructors that parse.
#[derive(Clone, Copy)]
enum Constructor {
    New,
    FromStr,
    WithFlags,
    FromUnicode,
}

const CONSTRUCTORS: [Constructor; 4] = [
    Constructor::New,
    Constructor::FromStr,
    Constructor::WithFlags,
    Constructor::FromUnicode,
];

// The counts of texts.
#[derive(Clone, Copy, Default)]
struct Tally {
    patterns: u64,
    matches: u64,
    differ: u64,
}

// Returns the text with this number, among the texts of this length.
fn text_of(alloc: Global, length: usize, number: u32) -> Result<String, AllocError> {
    let mut text = String::new(alloc);
    let mut digits = number;
    for _ in 0..length {
        text.push(LETTERS[digits as usize % LETTERS.len()])?;
        digits /= 8;
    }
    Ok(text)
}

fn constructed(
    alloc: Global,
    text: &str,
    points: &[u32],
    constructor: Constructor,
) -> Result<Regex, Error> {
    match constructor {
        Constructor::New => Regex::new(alloc, text),
        Constructor::FromStr => Regex::from_str(alloc, text),
        Constructor::WithFlags => Regex::with_flags(alloc, text, Flags::default()),
        Constructor::FromUnicode => Regex::from_unicode(alloc, points, Flags::default()),
    }
}

// Returns the pattern that is made of the programs of the parsed tree.
fn parsed(alloc: Global, points: &[u32]) -> Result<Regex, Error> {
    let tree = try_parse(alloc, points, front::Flags::default())?;
    let units = emit_units(alloc, &tree)?;
    Ok(Regex::from_programs(emit(alloc, &tree)?, units))
}

// Writes the remaining matches, and counts them.
fn write_matches<P: MatchProducer + Drop>(
    line: &mut String,
    matches: Matches<P>,
) -> Result<u64, SearchError> {
    let mut count = 0u64;
    for item in matches {
        let found = item?;
        write!(line, "{found:?}; ")?;
        count = count.saturating_add(1);
    }
    Ok(count)
}

// Writes what a pattern finds in bytes and in 16-bit units, or why it is refused. Returns the
// number of matches in bytes.
fn write_found(line: &mut String, re: Result<Regex, Error>) -> Result<Option<u64>, SearchError> {
    match re {
        Ok(re) => {
            let matches = write_matches(line, re.find_iter(SEARCHED)?)?;
            write_matches(line, re.find_from_ucs2(&SEARCHED_UNITS, 0)?)?;
            Ok(Some(matches))
        }
        Err(Error::Memory) => Err(SearchError::Memory),
        Err(refused) => {
            write!(line, "{refused:?}")?;
            Ok(None)
        }
    }
}

// Counts a text. Returns whether all constructors agree with the programs of its tree.
fn count_text(alloc: Global, tally: &mut Tally, text: &str) -> Result<bool, SearchError> {
    let points: Vec<u32> = text.chars().map(u32::from).collect(alloc)?;
    let mut wanted = String::new(alloc);
    if let Some(matches) = write_found(&mut wanted, parsed(alloc, &points))? {
        tally.patterns = tally.patterns.saturating_add(1);
        tally.matches = tally.matches.saturating_add(matches);
    }
    for constructor in CONSTRUCTORS {
        let mut line = String::new(alloc);
        write_found(&mut line, constructed(alloc, text, &points, constructor))?;
        if line.as_str() != wanted.as_str() {
            tally.differ = tally.differ.saturating_add(1);
            return Ok(false);
        }
    }
    Ok(true)
}

// Counts the texts of this length, and prints those for which constructors disagree.
fn count_all(rt: &HostRuntime, length: usize, count: u32) -> Result<Tally> {
    let mut tally = Tally::default();
    for number in 0..count {
        let text = text_of(rt.alloc(), length, number)?;
        match count_text(rt.alloc(), &mut tally, text.as_str()) {
            Ok(true) => {}
            Ok(false) => eprintln!(rt; "differs: {text}")?,
            Err(_) => bail!("out of memory"),
        }
    }
    Ok(tally)
}

/// Prints the counts for each length. Returns whether all constructors agree.
pub fn agrees(rt: &HostRuntime) -> Result<bool> {
    let mut differ = 0u64;
    for (length, texts) in COUNTS.into_iter().enumerate() {
        let tally = count_all(rt, length, texts)?;
        println!(rt;
            "of {length} characters: {texts} texts, {} patterns, {} matches, {} differ",
            tally.patterns, tally.matches, tally.differ
        )?;
        differ = differ.saturating_add(tally.differ);
    }
    Ok(differ == 0)
}
