//! Code shared by the programs that use the engine: reading the command line, and the exit status.
#![tactic(auto)]

mod arguments;

pub use crate::arguments::{Argument, CommandLine, Form, Given};
use anyhow::{Context, Result, bail};
use std::alloc::{AllocError, Global};
use std::env::{Env, FillError};
use std::io;
use std::io::ErrorKind;
use std::process::ExitCode;

/// The exit status of a program that fails.
pub const EXIT_STATUS_FAILURE: u8 = 2;

/// A program: its command line, and what it does.
pub trait Program {
    /// Returns the description of the command line.
    fn line() -> &'static CommandLine;

    /// Runs the program with the given arguments, and returns the exit status.
    ///
    /// # Errors
    ///
    /// Any error that prevents it from doing what it was asked for.
    fn run(rt: &HostRuntime, given: &Given<'_>) -> Result<u8>;
}

/// Runs a program, and returns its exit status. If it fails, the status is `EXIT_STATUS_FAILURE`, and the
/// reason is printed on standard error after the program's name.
pub fn run<P: Program>(rt: &HostRuntime) -> ExitCode {
    match run_command_line::<P>(rt) {
        Ok(status) => ExitCode::from(status),
        Err(why) => {
            let name = P::line().name;
            let _ = eprintln!(rt; "{name}: {why:#}");
            ExitCode::from(EXIT_STATUS_FAILURE)
        }
    }
}

fn run_command_line<P: Program>(rt: &HostRuntime) -> Result<u8> {
    let words = Words::read(rt).context("reading the command line")?;
    run_words::<P>(rt, &words)
}

/// Runs a program with the words of a text as its command line. The words are separated by spaces.
/// Returns the exit status.
///
/// # Errors
///
/// Any error of the program.
pub fn run_row<P: Program>(rt: &HostRuntime, row: &str) -> Result<u8> {
    let alloc = rt.alloc();
    let mut words = Words::new(alloc);
    words.push(0, P::line().name.as_bytes())?;
    for word in row.split(' ') {
        words.push(0, word.as_bytes())?;
    }
    run_words::<P>(rt, &words)
}

// Runs the program with the words of a command line. If they are invalid or ask for help, prints a
// message instead.
fn run_words<P: Program>(rt: &HostRuntime, words: &Words) -> Result<u8> {
    let line = P::line();
    match line
        .command(rt.alloc())?
        .try_get_matches_from(words.texts.as_slice())
    {
        Ok(matches) => {
            let given = Given::of(rt.alloc(), line, &matches, words)?;
            if let Some(text) = given.unreadable() {
                bail!("an argument is not UTF-8: {text}");
            }
            P::run(rt, &given)
        }
        Err(why) => {
            why.print(rt)?;
            Ok(if why.use_stderr() {
                EXIT_STATUS_FAILURE
            } else {
                0
            })
        }
    }
}

// The words of a command line.
#[derive(Drop)]
struct Words {
    // The words. Bytes that are not UTF-8 are replaced by U+FFFD.
    texts: Vec<String>,
    // The indices of the words that are not UTF-8.
    lossy: Vec<usize>,
}

impl Words {
    fn new(alloc: Global) -> Words {
        Words {
            texts: Vec::new(alloc),
            lossy: Vec::new(alloc),
        }
    }

    fn read(rt: &HostRuntime) -> io::Result<Words> {
        let alloc = rt.alloc();
        let mut words = Words::new(alloc);
        let mut buffer = vec![in alloc; 0; 4096]?;
        for index in 0..usize::MAX {
            if !words.read_word(rt, index, &mut buffer)? {
                break;
            }
        }
        Ok(words)
    }

    // Reads a word. Returns whether there is one. The buffer grows as needed.
    fn read_word(
        &mut self,
        rt: &HostRuntime,
        index: usize,
        buffer: &mut Vec<u8>,
    ) -> io::Result<bool> {
        for _ in 0..u64::BITS {
            match rt.arg(index, buffer) {
                Ok(count) => {
                    self.push(index, &buffer[..count])?;
                    return Ok(true);
                }
                Err(FillError::NotPresent) => return Ok(false),
                Err(FillError::TooLong) => {
                    let more = buffer.len().saturating_mul(2);
                    buffer.resize(more, 0)?;
                }
            }
        }
        Err(io::Error::from(ErrorKind::InvalidData))
    }

    fn push(&mut self, index: usize, word: &[u8]) -> io::Result<()> {
        let text = String::from_utf8_lossy(*self.texts.allocator(), word)?;
        if text.as_bytes() != word {
            self.lossy.push(index)?;
        }
        Ok(self.texts.push(text)?)
    }

    // Returns the words that are not UTF-8.
    fn non_utf8_words(&self, alloc: Global) -> Result<Vec<&str>, AllocError> {
        let mut texts = Vec::new(alloc);
        for index in &self.lossy {
            if let Some(text) = self.texts.get(*index) {
                texts.push(text.as_str())?;
            }
        }
        Ok(texts)
    }
}
