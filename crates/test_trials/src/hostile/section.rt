//! The sections of rows.

use crate::fault::ParseFault;
use crate::hostile::calls::{do_constructors_agree, is_escaped_as_expected};
use crate::hostile::replacements::is_replaced_as_expected;
use crate::hostile::tool::is_tool_run_as_expected;
use crate::hostile::{limits, searches, table};
use std::alloc::Global;

/// A section: rows, and what is tested with each of them.
#[derive(Clone, Copy)]
pub enum Section {
    Searches,
    Odd,
    Limits,
    Taken,
    Constructors,
    Replacements,
    Escapes,
    Tool,
}

/// All sections.
pub const SECTIONS: [Section; 8] = [
    Section::Searches,
    Section::Odd,
    Section::Limits,
    Section::Taken,
    Section::Constructors,
    Section::Replacements,
    Section::Escapes,
    Section::Tool,
];

impl Section {
    pub fn name(self) -> &'static str {
        match self {
            Section::Searches => "searches",
            Section::Odd => "odd",
            Section::Limits => "limits",
            Section::Taken => "taken steps",
            Section::Constructors => "constructors",
            Section::Replacements => "replacements",
            Section::Escapes => "escapes",
            Section::Tool => "tool",
        }
    }

    pub fn rows(self) -> &'static str {
        match self {
            Section::Searches => table::SEARCHES,
            Section::Odd => table::ODD,
            Section::Limits => table::LIMITS,
            Section::Taken => table::TAKEN,
            Section::Constructors => table::CONSTRUCTORS,
            Section::Replacements => table::REPLACEMENTS,
            Section::Escapes => table::ESCAPES,
            Section::Tool => table::TOOL_ROWS,
        }
    }

    fn try_row(self, alloc: Global, line: &str) -> Result<bool, ParseFault> {
        match self {
            Section::Searches | Section::Odd => searches::agree(alloc, line),
            Section::Limits => limits::agree(alloc, line),
            Section::Taken => limits::steps_stay_taken_on_refusal(alloc, line),
            Section::Constructors => do_constructors_agree(alloc, line),
            Section::Replacements => is_replaced_as_expected(alloc, line),
            Section::Escapes => is_escaped_as_expected(alloc, line),
            Section::Tool => is_tool_run_as_expected(alloc, line),
        }
    }

    /// Checks whether a row has the expected result. It is repeated if an allocation fails.
    pub fn agrees(self, alloc: Global, line: &str) -> bool {
        let mut tried = self.try_row(alloc, line);
        if matches!(tried, Err(ParseFault::Refused)) {
            tried = self.try_row(alloc, line);
        }
        matches!(tried, Ok(true))
    }
}
