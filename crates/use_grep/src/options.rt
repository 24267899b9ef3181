//! The options of the command line.

use crate::colors::Colors;
use crate::glob::Globs;
use anyhow::Result;
use std::alloc::{AllocError, Global};
use std::io::IsTerminal;
use use_support::Form::{Any, Choice, Help, Number, OptionalLossyWord, Switch, Version, Words};
use use_support::{Argument, CommandLine, Given};

/// What is printed of a file.
#[derive(Clone, Copy, Debug, PartialEq, Eq)]
pub enum Output {
    /// The selected lines.
    Lines,
    /// The matches in the selected lines, each on a line of its own.
    Matches,
    /// The number of selected lines.
    Count,
    /// The file's name, if a line of it is selected.
    NamesWith,
    /// The file's name, if no line of it is selected.
    NamesWithout,
    /// No output.
    Nothing,
}

/// Context: lines that are printed because they are near selected lines.
#[derive(Clone, Copy, Debug)]
pub struct Context {
    /// Whether an option for context was given. If so, groups of lines are separated by `--`.
    pub is_on: bool,
    /// The number of lines that are printed before each selected line.
    pub before: u64,
    /// The number of lines that are printed after each selected line.
    pub after: u64,
}

/// A file name of the command line.
#[derive(Clone, Copy, Debug)]
pub struct Operand<'a> {
    pub name: &'a str,
    /// Whether the name is not valid UTF-8. If so, `name` has U+FFFD for the invalid bytes, and
    /// names no file.
    pub is_lossy: bool,
}

impl<'a> Operand<'a> {
    fn of(given: &Given<'a>, name: &'a str) -> Operand<'a> {
        Operand {
            name,
            is_lossy: given.is_lossy(name),
        }
    }
}

/// What is searched for, where, and what is printed.
#[derive(Drop)]
pub struct Options<'a> {
    pub pattern: &'a str,
    /// Whether the pattern consists of plain texts.
    pub is_fixed: bool,
    /// The files and directories to search. `-` is standard input.
    pub operands: Vec<Operand<'a>>,
    pub ignore_case: bool,
    pub words: bool,
    pub whole_lines: bool,
    pub invert: bool,
    pub numbers: bool,
    pub offsets: bool,
    /// Whether file names are printed. `None` means: if there may be several files.
    pub names: Option<bool>,
    pub output: Output,
    pub context: Context,
    /// Whether directories are searched recursively.
    pub is_recursive: bool,
    pub globs: Globs,
    /// Whether lines end with a NUL byte.
    pub nul: bool,
    /// Whether the output is flushed after each line. On a terminal, it is.
    pub flushes: bool,
    /// Whether messages about unreadable files are suppressed.
    pub is_silent: bool,
    pub colors: Option<Colors>,
    /// Whether progress is shown. It is if standard error is a terminal and standard output is not.
    pub shows_progress_line: bool,
    /// Whether binary files are printed as text.
    pub lossy: bool,
    /// The maximum number of selected lines of a file. The search of the file stops there.
    pub most: u64,
    /// The maximum number of bytes of a line.
    pub longest: u64,
}

impl<'a> Options<'a> {
    /// Reads the options of a command line. `pattern` is the pattern to search for.
    ///
    /// # Errors
    ///
    /// Returns an error if a glob is invalid or an allocation fails.
    pub fn of(rt: &HostRuntime, given: &Given<'a>, pattern: &'a str) -> Result<Options<'a>> {
        let alloc = rt.alloc();
        let output = output_of_options(given);
        let is_recursive = given.has("recursive");
        let most = given.number("max-count").unwrap_or(u64::MAX);
        Ok(Options {
            pattern,
            is_fixed: given.has("fixed-strings"),
            operands: operands(alloc, given, is_recursive)?,
            ignore_case: given.has("ignore-case"),
            words: given.has("word-regexp"),
            whole_lines: given.has("line-regexp"),
            invert: given.has("invert-match"),
            numbers: given.has("line-number"),
            offsets: given.has("byte-offset"),
            names: names(given),
            output,
            context: context_of(given, output),
            is_recursive,
            globs: Globs::of(alloc, given)?,
            nul: given.has("null-data"),
            flushes: given.has("line-buffered") || rt.stdout().is_terminal(),
            is_silent: given.has("no-messages"),
            colors: colors(rt, given)?,
            shows_progress_line: rt.stderr().is_terminal() && !rt.stdout().is_terminal(),
            lossy: given.has("text"),
            most: if does_first_line_decide_output(output) {
                most.min(1)
            } else {
                most
            },
            longest: given.number("max-line").unwrap_or(u64::MAX),
        })
    }

    /// Checks whether lines are printed, and not counts or names.
    pub fn prints_lines(&self) -> bool {
        matches!(self.output, Output::Lines | Output::Matches)
    }

    /// Returns the byte that ends a line.
    pub fn end(&self) -> u8 {
        if self.nul { 0 } else { b'\n' }
    }
}

/// Checks whether patterns are given by `-e` or `-f`. If not, the first argument is the pattern.
pub fn has_patterns(given: &Given<'_>) -> bool {
    given.has("regexp") || given.has("file")
}

// Returns what is printed. If several options apply, `-q` has priority, then `-L`, `-l`, `-c` and
// `-o`.
fn output_of_options(given: &Given<'_>) -> Output {
    if given.has("quiet") {
        Output::Nothing
    } else if given.has("files-without-match") {
        Output::NamesWithout
    } else if given.has("files-with-matches") {
        Output::NamesWith
    } else if given.has("count") {
        Output::Count
    } else if given.has("only-matching") {
        Output::Matches
    } else {
        Output::Lines
    }
}

// Checks whether the first selected line of a file determines its output.
fn does_first_line_decide_output(output: Output) -> bool {
    matches!(
        output,
        Output::NamesWith | Output::NamesWithout | Output::Nothing
    )
}

fn names(given: &Given<'_>) -> Option<bool> {
    if given.has("no-filename") {
        Some(false)
    } else if given.has("with-filename") {
        Some(true)
    } else {
        None
    }
}

fn context_of(given: &Given<'_>, output: Output) -> Context {
    let both = given.number("context");
    let before = given.number("before-context").or(both);
    let after = given.number("after-context").or(both);
    let has_lines = matches!(output, Output::Lines | Output::Matches);
    Context {
        is_on: has_lines && (before.is_some() || after.is_some()),
        before: if has_lines { before.unwrap_or(0) } else { 0 },
        after: if has_lines { after.unwrap_or(0) } else { 0 },
    }
}

// Returns the files to search: all arguments but the pattern. Without files, it is standard input
// or, with `-r`, the current directory.
fn operands<'a>(
    alloc: Global,
    given: &Given<'a>,
    is_recursive: bool,
) -> Result<Vec<Operand<'a>>, AllocError> {
    let mut operands = Vec::new(alloc);
    if has_patterns(given) && given.has("pattern") {
        operands.push(Operand::of(given, given.text("pattern")))?;
    }
    for name in given.texts(alloc, "files")? {
        operands.push(Operand::of(given, name))?;
    }
    if operands.is_empty() {
        let name = if is_recursive { "" } else { "-" };
        operands.push(Operand::of(given, name))?;
    }
    Ok(operands)
}

// Returns the colours if they are used. By default, they are used on a terminal.
fn colors(rt: &HostRuntime, given: &Given<'_>) -> Result<Option<Colors>, AllocError> {
    let when = given.text("color");
    if when == ALWAYS || when == AUTO && rt.stdout().is_terminal() {
        Ok(Some(Colors::of(rt, given)?))
    } else {
        Ok(None)
    }
}

const NEVER: &str = "never";

const ALWAYS: &str = "always";

const AUTO: &str = "auto";

/// The description of the command line.
pub static LINE: CommandLine = CommandLine {
    name: "use_grep",
    about: "Prints the lines in which a pattern of ECMAScript 2018 has a match.",
    after: "Without FILE, standard input is searched, and with -r the current directory. - is standard input.\n\
        Status: 0 if a line was selected (with -q even after an error), 1 if none was, 2 after an error.\n\
        Patterns differ from grep -P: a backreference to a group that has not matched matches the empty text, as in \
        JavaScript.\n\
        POSIX classes such as [[:alpha:]] do not exist: write [A-Za-z].\n\
        A file with a NUL byte is binary: matches in it are reported, not printed. \
        So is a selected line that is not UTF-8.\n\
        The colours are those of GREP_COLORS (mt ms mc sl cx rv fn ln bn se ne).",
    arguments: &[
        Argument(
            "pattern",
            OptionalLossyWord("PATTERN"),
            "What to search for (docs/PROFILE.md); a file, with -e or -f",
        ),
        Argument("files", Words("FILE"), "What to search"),
        Argument(
            "regexp",
            Any(Some('e'), "PATTERN"),
            "Search for this pattern too; it may be given several times",
        ),
        Argument(
            "file",
            Any(Some('f'), "FILE"),
            "Search for the patterns in FILE, one a line",
        ),
        Argument(
            "fixed-strings",
            Switch(Some('F')),
            "Take patterns as plain texts",
        ),
        Argument(
            "ignore-case",
            Switch(Some('i')),
            "Ignore the case of the letters of ASCII, and of no others",
        ),
        Argument(
            "word-regexp",
            Switch(Some('w')),
            "Only matches with no letter, digit or _ beside them",
        ),
        Argument(
            "line-regexp",
            Switch(Some('x')),
            "Only matches that are whole lines",
        ),
        Argument(
            "invert-match",
            Switch(Some('v')),
            "Select the lines without a match",
        ),
        Argument(
            "max-count",
            Number(Some('m'), "NUM", None),
            "Stop after NUM selected lines of a file",
        ),
        Argument(
            "count",
            Switch(Some('c')),
            "Print only how many lines of each file are selected",
        ),
        Argument(
            "only-matching",
            Switch(Some('o')),
            "Print each match that is not empty, on a line of its own",
        ),
        Argument(
            "quiet",
            Switch(Some('q')),
            "Print nothing, and stop at the first selected line",
        ),
        Argument(
            "files-with-matches",
            Switch(Some('l')),
            "Print only the names of files with selected lines",
        ),
        Argument(
            "files-without-match",
            Switch(Some('L')),
            "Print only the names of files without selected lines",
        ),
        Argument(
            "no-messages",
            Switch(Some('s')),
            "Print no message about a file that cannot be read",
        ),
        Argument(
            "byte-offset",
            Switch(Some('b')),
            "Print the offset of each line or match, in bytes",
        ),
        Argument(
            "with-filename",
            Switch(Some('H')),
            "Print the name of the file with each line",
        ),
        Argument("no-filename", Switch(Some('h')), "Print no names of files"),
        Argument(
            "line-number",
            Switch(Some('n')),
            "Print the number of each line",
        ),
        Argument(
            "after-context",
            Number(Some('A'), "NUM", None),
            "Print NUM lines after each selected line",
        ),
        Argument(
            "before-context",
            Number(Some('B'), "NUM", None),
            "Print NUM lines before each selected line",
        ),
        Argument(
            "context",
            Number(Some('C'), "NUM", None),
            "Print NUM lines before and after each selected line",
        ),
        Argument(
            "text",
            Switch(Some('a')),
            "Print binary files and lines that are not UTF-8, too",
        ),
        Argument(
            "recursive",
            Switch(Some('r')),
            "Search the files in directories, in the order of their names",
        ),
        Argument(
            "include",
            Any(None, "GLOB"),
            "Search only files whose base name matches",
        ),
        Argument(
            "exclude",
            Any(None, "GLOB"),
            "Skip files whose base name matches, also if --include matches",
        ),
        Argument(
            "exclude-dir",
            Any(None, "GLOB"),
            "Skip directories whose base name matches",
        ),
        Argument("null-data", Switch(Some('z')), "Lines end with a NUL byte"),
        Argument(
            "line-buffered",
            Switch(None),
            "Flush the output after each line",
        ),
        Argument(
            "max-line",
            Number(None, "BYTES", Some("100000000")),
            "Refuse a line with more bytes",
        ),
        Argument(
            "color",
            Choice("WHEN", &[NEVER, ALWAYS, AUTO], NEVER, AUTO),
            "Use colours; auto is on a terminal only",
        ),
        Argument(
            "grep-colors",
            Any(None, "COLOURS"),
            "Use these colours in place of those of GREP_COLORS",
        ),
        Argument(
            "rows",
            Any(None, "FILE"),
            "Run once for each row of FILE, with its words, and print the status",
        ),
        Argument("version", Version('V', "0.2.0"), "Print the version"),
        Argument("help", Help, "Print this help"),
    ],
};
