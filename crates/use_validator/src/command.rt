//! The command line.

use crate::reader::Reading;
use use_support::Form::{Number, Switch, Word, WordOr};
use use_support::{Argument, CommandLine, Given};

/// The options of a command line.
#[derive(Drop)]
pub struct Options<'a> {
    pub schema: &'a str,
    pub document: &'a str,
    /// The maximum number of steps of each search, before a search with a work budget.
    pub steps: u64,
    pub reading: Reading,
    pub rows: bool,
}

const ABOUT: &str = "Checks a JSON document against a JSON Schema (draft 2020-12).

A line says where in the document a value stands (a JSON Pointer, which is empty for the document itself), what is
wrong with it, and in parentheses where the schema says so. `pattern` and `patternProperties` are searched with the
flag u. `$ref` leads within the schema's own document. A keyword that the program does not check is an error.
Status: 0 if the document is valid, 1 if it is not, 2 if that cannot be told.";

const DEFAULT_STEPS: &str = "100000";

impl<'a> Options<'a> {
    /// Reads the options from the given arguments.
    pub fn of(given: &Given<'a>) -> Self {
        Options {
            schema: given.text("schema"),
            document: given.text("document"),
            steps: given.number("steps").unwrap_or(0),
            reading: Reading {
                assert_format: given.has("assert-format"),
                ignore_unknown: given.has("ignore-unknown"),
            },
            rows: given.has("rows"),
        }
    }
}

/// The description of the command line.
pub static LINE: CommandLine = CommandLine {
    name: "use_validator",
    about: ABOUT,
    after: "",
    arguments: &[
        Argument("schema", Word("SCHEMA"), "A file with a JSON Schema"),
        Argument(
            "document",
            WordOr("DOCUMENT", "-"),
            "A file with a JSON document; - is standard input",
        ),
        Argument(
            "steps",
            Number(None, "N", Some(DEFAULT_STEPS)),
            "How many steps a search may take. If they are too few, only patterns with a work bound are decided",
        ),
        Argument(
            "assert-format",
            Switch(None),
            "Check `format`: date, time, date-time, duration, email, hostname, ipv4, ipv6, uri, \
             uri-reference, uuid, json-pointer, relative-json-pointer",
        ),
        Argument(
            "ignore-unknown",
            Switch(None),
            "Pass over keywords, formats and dialects that the program does not check",
        ),
        // A hidden option for tests: rows are read from standard input.
        Argument("rows", Switch(None), ""),
    ],
};
