//! Colours the tokens of a text: `use_highlighter [--html] -t NAME=PATTERN.. [FILE]`.
//!
//! The exit status is 0, or 2 after an error.
#![tactic(auto)]

mod options;
mod pieces;
mod show;
mod tokens;

use crate::options::{LINE, Options};
use crate::pieces::cut;
use crate::show::show;
use crate::tokens::{compile, tokens};
use anyhow::{Context, Result};
use std::io::IsTerminal;
use std::process::ExitCode;
use std::{fs, io};
use use_support::{CommandLine, Given, Program, run};

const MB: usize = 1_000_000;

// For texts of this length or more, a message on the terminal shows what is being done.
const MIN_BYTES_FOR_PROGRESS: usize = 10 * MB;

// Reads a file as text. `-` is standard input.
fn text_of(rt: &HostRuntime, name: &str) -> Result<String> {
    let text = if name == "-" {
        io::read_to_string(rt.alloc(), rt.reader())
    } else {
        fs::read_to_string(rt, name)
    };
    text.context(format_args!("reading {name}"))
}

// Returns the text of the options with its tokens coloured. For a long text, a message on the
// terminal shows what is being done.
fn colored(rt: &HostRuntime, options: &Options<'_>) -> Result<String> {
    let alloc = rt.alloc();
    let tokens = tokens(alloc, &options.tokens)?;
    let re = compile(alloc, &tokens)?;
    let text = text_of(rt, options.file)?;
    let shows_progress = text.len() >= MIN_BYTES_FOR_PROGRESS && rt.stderr().is_terminal();
    if shows_progress {
        eprint!(rt; "\rsearching {} MB", text.len() / MB)?;
    }
    let pieces = cut(alloc, &re, &tokens, text.as_str())?;
    if shows_progress {
        eprint!(rt; "\r\u{1b}[Kwriting {} pieces", pieces.len())?;
    }
    Ok(show(alloc, options.style, &tokens, text.as_str(), &pieces)?)
}

// Prints the file of the options with its tokens coloured.
fn print(rt: &HostRuntime, options: &Options<'_>) -> Result<()> {
    let shown = colored(rt, options);
    if rt.stderr().is_terminal() {
        eprint!(rt; "\r\u{1b}[K")?;
    }
    print!(rt; "{}", shown?)?;
    Ok(())
}

struct Highlighter;

impl Program for Highlighter {
    fn line() -> &'static CommandLine {
        &LINE
    }

    fn run(rt: &HostRuntime, given: &Given<'_>) -> Result<u8> {
        print(rt, &Options::of(rt.alloc(), given)?)?;
        Ok(0)
    }
}

fn main(rt: HostRuntime) -> ExitCode {
    run::<Highlighter>(&rt)
}
