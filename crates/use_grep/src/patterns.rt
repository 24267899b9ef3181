//! The patterns of the command line, before they are joined.

use crate::options::has_patterns;
use anyhow::{Result, bail};
use regress_match::{Syntax, escape};
use simdutf8::compat::from_utf8;
use std::alloc::{AllocError, Global};
use std::fs;
use std::io::Read;
use use_support::Given;

/// The language of the patterns.
pub const SYNTAX: Syntax = Syntax::EcmaScript2018;

/// Returns the patterns of a command line: those of `-e`, followed by those of `-f`, or the first
/// argument. Each line is a pattern. With `-F`, syntax characters are escaped.
///
/// # Errors
///
/// Returns an error if there is no pattern, if a pattern is not UTF-8, if a file cannot be read, or
/// if an allocation fails.
pub fn given_patterns(rt: &HostRuntime, given: &Given<'_>) -> Result<Vec<String>> {
    let alloc = rt.alloc();
    let mut patterns = Patterns {
        texts: Vec::new(alloc),
        is_fixed: given.has("fixed-strings"),
    };
    if !has_patterns(given) {
        let text = given.text("pattern");
        if !given.has("pattern") {
            bail!("no pattern is given; see --help");
        }
        if given.is_lossy(text) {
            bail!("the pattern is not UTF-8: {text}");
        }
        patterns.push_lines(alloc, text)?;
    }
    for text in given.texts(alloc, "regexp")? {
        patterns.push_lines(alloc, text)?;
    }
    for name in given.texts(alloc, "file")? {
        patterns.push_file(rt, name)?;
    }
    Ok(patterns.texts)
}

#[derive(Drop)]
struct Patterns {
    texts: Vec<String>,
    is_fixed: bool,
}

impl Patterns {
    fn push_lines(&mut self, alloc: Global, text: &str) -> Result<(), AllocError> {
        for line in text.split('\n') {
            let pattern = if self.is_fixed {
                escape(alloc, line)?
            } else {
                String::from_str(alloc, line)?
            };
            self.texts.push(pattern)?;
        }
        Ok(())
    }

    // Appends the lines of a file. An empty file has none. The last line need not have a line
    // break.
    fn push_file(&mut self, rt: &HostRuntime, name: &str) -> Result<()> {
        let bytes = read(rt, name)?;
        let Ok(text) = from_utf8(&bytes) else {
            bail!("{name}: the patterns are not UTF-8");
        };
        if !text.is_empty() {
            self.push_lines(rt.alloc(), text.strip_suffix('\n').unwrap_or(text))?;
        }
        Ok(())
    }
}

fn read(rt: &HostRuntime, name: &str) -> Result<Vec<u8>> {
    if name == "-" {
        let mut bytes = Vec::new(rt.alloc());
        rt.reader().read_to_end(&mut bytes)?;
        return Ok(bytes);
    }
    match fs::read(rt, name) {
        Ok(bytes) => Ok(bytes),
        Err(why) => bail!("{name}: {why}"),
    }
}

/// Checks whether a pattern may refer to a group: it has `\k`, or a backslash before a digit from 1
/// to 9.
pub fn may_have_backreference(pattern: &str) -> bool {
    let mut is_escaped = false;
    for c in pattern.chars() {
        if is_escaped && (c == 'k' || ('1'..='9').contains(&c)) {
            return true;
        }
        is_escaped = c == '\\' && !is_escaped;
    }
    false
}

/// Checks whether a pattern has `\p{` or `\P{`. Without the flag `u`, this is the letter followed
/// by a brace.
pub fn has_property_escape(pattern: &str) -> bool {
    let mut is_escaped = false;
    let mut is_letter_escaped = false;
    for c in pattern.chars() {
        if is_letter_escaped && c == '{' {
            return true;
        }
        is_letter_escaped = is_escaped && (c == 'p' || c == 'P');
        is_escaped = c == '\\' && !is_escaped;
    }
    false
}

/// Checks whether a pattern has a POSIX class, such as `[:alpha:]` or `[:^alpha:]`, which
/// ECMAScript does not have.
pub fn has_posix_class(pattern: &str) -> bool {
    for behind in pattern.split("[:").skip(1) {
        if let Some((name, _)) = behind.split_once(":]") {
            if is_class_name(name.strip_prefix('^').unwrap_or(name)) {
                return true;
            }
        }
    }
    false
}

fn is_class_name(name: &str) -> bool {
    for byte in name.as_bytes() {
        if !byte.is_ascii_lowercase() {
            return false;
        }
    }
    !name.is_empty()
}
