//! The command line.

use regress_match::Flags;
use use_support::Form::{Switch, Word, WordOr};
use use_support::{Argument, CommandLine, Given};

/// The options of a command line.
#[derive(Drop)]
pub struct Options<'a> {
    pub pattern: &'a str,
    pub template: &'a str,
    pub folder: &'a str,
    pub flags: Flags,
    pub apply: bool,
    pub groups: bool,
    pub rows: bool,
}

const ABOUT: &str =
    "Renames the files of a folder by replacing the matches of a pattern in their names.

Without --apply it only shows the new names. It renames no file if two new names are the same, if one
exists already, or if one would lead out of the folder.";

/// The description of the command line.
pub static LINE: CommandLine = CommandLine {
    name: "use_renamer",
    about: ABOUT,
    after: "",
    arguments: &[
        Argument(
            "pattern",
            Word("PATTERN"),
            "A regular expression, as in ECMAScript 2018",
        ),
        Argument(
            "template",
            Word("TEMPLATE"),
            "The replacement of each match: text, $1, ${name}, $0, $$",
        ),
        Argument(
            "folder",
            WordOr("FOLDER", "."),
            "The folder whose files are renamed",
        ),
        Argument("apply", Switch(None), "Rename the files"),
        Argument(
            "groups",
            Switch(None),
            "Also show the named groups of the first match",
        ),
        // A hidden option for tests: rows are read from standard input.
        Argument("rows", Switch(None), ""),
        Argument(
            "ignore-case",
            Switch(Some('i')),
            "Letters match in either case",
        ),
    ],
};

impl<'a> Options<'a> {
    /// Reads the options of a command line.
    pub fn of(given: &Given<'a>) -> Self {
        Options {
            pattern: given.text("pattern"),
            template: given.text("template"),
            folder: given.text("folder"),
            flags: Flags {
                icase: given.has("ignore-case"),
                ..Flags::default()
            },
            apply: given.has("apply"),
            groups: given.has("groups"),
            rows: given.has("rows"),
        }
    }
}
