//! The report on a value: its findings, and the outcome.

ghost use Rattle.use_validator.specs.Outcomes.{FollowsFromCounts};

use std::alloc::{AllocError, Global};
use std::fmt;

/// The outcome of checking a value with a schema.
#[derive(Clone, Copy, PartialEq, Eq)]
pub enum Outcome {
    Holds,
    Fails,
    /// A search did not have enough steps to decide.
    Undecided,
}

/// A value that does not conform to its schema, or for which this is undecided.
#[derive(Drop)]
pub struct Finding {
    /// The position of the value (a JSON Pointer).
    pub pointer: String,
    /// The position in the schema of the keyword that requires this.
    pub place: String,
    /// What is wrong.
    pub told: String,
}

impl fmt::Display for Finding {
    fn fmt<W: fmt::Write>(&self, f: &mut fmt::Formatter<W>) -> fmt::Result {
        write_line(f, self.pointer.as_str())?;
        f.write_str(": ")?;
        write_line(f, self.told.as_str())?;
        f.write_str(" (#")?;
        write_line(f, self.place.as_str())?;
        f.write_str(")")
    }
}

// Writes a text with its control characters escaped, so that it is a single line.
fn write_line<W: fmt::Write>(f: &mut fmt::Formatter<W>, text: &str) -> fmt::Result {
    for c in text.chars() {
        if c.is_control() {
            write_control(f, c)?;
        } else {
            f.write_char(c)?;
        }
    }
    Ok(())
}

// Writes a control character by its number, as in JSON. All of them are below U+0100.
fn write_control<W: fmt::Write>(f: &mut fmt::Formatter<W>, c: char) -> fmt::Result {
    f.write_str("\\u00")?;
    f.write_char(hex_digit(c as u32 / 16))?;
    f.write_char(hex_digit(c as u32 % 16))
}

fn hex_digit(n: u32) -> char {
    char::from_digit(n, 16).unwrap_or('?')
}

/// The findings about a value, in the order in which the walk makes them, and the outcome.
#[derive(Drop)]
pub struct Report {
    pub findings: Vec<Finding>,
    // Whether only the outcome is wanted.
    is_quiet: bool,
    fails: bool,
    is_undecided: bool,
}

impl Report {
    /// Creates an empty report. A quiet one collects no findings.
    pub fn new(alloc: Global, is_quiet: bool) -> Self {
        Report {
            findings: Vec::new(alloc),
            is_quiet,
            fails: false,
            is_undecided: false,
        }
    }

    /// Records that something fails or is undecided. Returns whether a finding has to be added.
    pub fn note(&mut self, outcome: Outcome) -> bool {
        match outcome {
            Outcome::Holds => return false,
            Outcome::Fails => self.fails = true,
            Outcome::Undecided => self.is_undecided = true,
        }
        !self.is_quiet
    }

    /// Checks whether only the outcome is wanted and nothing more can change it.
    pub fn is_done(&self) -> bool {
        self.is_quiet && self.fails
    }

    pub fn outcome(&self) -> Outcome {
        if self.fails {
            Outcome::Fails
        } else if self.is_undecided {
            Outcome::Undecided
        } else {
            Outcome::Holds
        }
    }
}

/// How many schemas hold, and how many may hold. The second number includes the undecided ones.
#[derive(Clone, Copy)]
pub struct Tally {
    pub holding: u64,
    pub possible: u64,
}

impl Tally {
    pub const NONE: Tally = Tally {
        holding: 0,
        possible: 0,
    };

    /// Counts one more schema.
    pub fn count(&mut self, outcome: Outcome) {
        match outcome {
            Outcome::Holds => {
                self.holding = self.holding.saturating_add(1);
                self.possible = self.possible.saturating_add(1);
            }
            Outcome::Fails => {}
            Outcome::Undecided => self.possible = self.possible.saturating_add(1),
        }
    }

    /// Returns the outcome for the limits: whether at least `least` and at most `most` schemas
    /// hold, whatever the undecided ones do.
    pub fn conclude(self, least: u64, most: u64) -> Outcome
        ensures { FollowsFromCounts least most self.holding self.possible result }
    {
        if self.possible < least || most < self.holding {
            Outcome::Fails
        } else if least <= self.holding && self.possible <= most {
            Outcome::Holds
        } else {
            Outcome::Undecided
        }
    }
}
