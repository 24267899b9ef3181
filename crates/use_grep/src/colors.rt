//! The colours of the output, which `GREP_COLORS` may set.

use std::alloc::{AllocError, Global};
use std::env;
use std::env::VarError;
use use_support::Given;

/// The roles that have a colour.
#[derive(Clone, Copy, Debug)]
pub enum Role {
    /// A match in a selected line.
    Match,
    /// A match in a context line.
    ContextMatch,
    /// The name of a file.
    Name,
    /// The number of a line.
    Number,
    /// The offset of a line or a match.
    Offset,
    /// A separator between these.
    Separator,
    /// A selected line, apart from its matches.
    Line,
    /// A context line, apart from its matches.
    ContextLine,
}

// The key of each role in `GREP_COLORS` and its default, in the order of `Role`.
const ROLES: [(&str, &str); 8] = [
    ("ms", "01;31"),
    ("mc", "01;31"),
    ("fn", "35"),
    ("ln", "32"),
    ("bn", "32"),
    ("se", "36"),
    ("sl", ""),
    ("cx", ""),
];

/// The texts that begin and end the colour of each role on a terminal.
#[derive(Drop)]
pub struct Colors {
    // One text for each role. It is empty if the role has no colour.
    starts: Vec<String>,
    end: &'static str,
    // Whether `-v` swaps the colours of selected lines and context lines.
    reverses: bool,
}

impl Colors {
    /// Returns the colours of the command line. Without an option, they are those of the
    /// environment.
    ///
    /// # Errors
    ///
    /// `AllocError` if an allocation fails.
    pub fn of(rt: &HostRuntime, given: &Given<'_>) -> Result<Colors, AllocError> {
        if given.has("grep-colors") {
            return Colors::parse(rt.alloc(), given.text("grep-colors"));
        }
        match env::var(rt, "GREP_COLORS") {
            Ok(text) => Colors::parse(rt.alloc(), text.as_str()),
            Err(VarError::OutOfMemory) => Err(AllocError),
            Err(_) => Colors::parse(rt.alloc(), ""),
        }
    }

    // Reads settings such as `ms=01;32:fn=34:ne`, up to the first malformed one. Unknown keys are
    // ignored.
    fn parse(alloc: Global, text: &str) -> Result<Colors, AllocError> {
        let mut values = ROLES;
        let mut erases = true;
        let mut reverses = false;
        for setting in text.split(':') {
            match setting.split_once('=') {
                None => {
                    erases = erases && setting != "ne";
                    reverses = reverses || setting == "rv";
                }
                Some((key, value)) if !key.is_empty() && is_sgr(value) => {
                    set(&mut values, key, value);
                }
                Some(_) => break,
            }
        }
        let mut starts = Vec::new(alloc);
        for (_, value) in values {
            starts.push(start(alloc, value, erases)?)?;
        }
        let end = if erases {
            "\u{1b}[m\u{1b}[K"
        } else {
            "\u{1b}[m"
        };
        Ok(Colors {
            starts,
            end,
            reverses,
        })
    }

    /// Returns the role of a line apart from its matches.
    pub fn line_role(&self, is_selected: bool, is_inverted: bool) -> Role {
        if is_selected == (self.reverses && is_inverted) {
            Role::ContextLine
        } else {
            Role::Line
        }
    }

    /// Returns the text that begins the colour of a role. It is empty if the role has none.
    pub fn start(&self, role: Role) -> &str {
        match self.starts.get(role as usize) {
            Some(text) => text.as_str(),
            None => "",
        }
    }

    /// Returns the text that ends the colour of a role. It is empty if the role has none.
    pub fn end(&self, role: Role) -> &'static str {
        if self.start(role).is_empty() {
            ""
        } else {
            self.end
        }
    }
}

// Checks whether a value consists of digits and semicolons.
fn is_sgr(value: &str) -> bool {
    for byte in value.as_bytes() {
        if *byte != b';' && !byte.is_ascii_digit() {
            return false;
        }
    }
    true
}

// Sets the value of a key. `mt` sets the values of both kinds of matches.
fn set<'v>(values: &mut [(&'static str, &'v str); 8], key: &str, value: &'v str) {
    for (of, kept) in values {
        if *of == key || key == "mt" && of.starts_with('m') {
            *kept = value;
        }
    }
}

fn start(alloc: Global, value: &str, erases: bool) -> Result<String, AllocError> {
    if value.is_empty() {
        return Ok(String::new(alloc));
    }
    let erase = if erases { "\u{1b}[K" } else { "" };
    format!(in alloc; "\u{1b}[{value}m{erase}")
}
