//! The body of the program `regress-tool`.

use crate::api::{Flags, Regex, Syntax};
use regress_search::exec::Match;
use std::alloc::Global;
use std::fmt::Display;
use std::io;
use std::io::Write;
use std::ops::Range;

/// The exit status if there is a match.
const EXIT_STATUS_FOUND: u8 = 0;

/// The exit status if there is no match.
const EXIT_STATUS_NOT_FOUND: u8 = 1;

/// The exit status if the arguments, the pattern or the search are refused, or a line cannot be
/// written.
const EXIT_STATUS_REFUSED: u8 = 2;

/// The option that selects `Syntax::EcmaScript2018`. It is the first of the words.
const ES2018_OPTION: &str = "--es2018";

/// The arguments of the program.
#[derive(Clone, Copy)]
struct Arguments<'a> {
    syntax: Syntax,
    pattern: &'a str,
    flags: &'a str,
    text: &'a str,
}

/// Searches a text, and returns the exit status: 0 if there is a match, 1 if there is none, 2 if
/// the arguments, the pattern or the search are refused.
///
/// `words` are the pattern, the letters of the flags (`i`, `m`, `s`, `u` and `v`) and the text; a
/// word that is not UTF-8 is `None`. If `--es2018` precedes these three words, the pattern is one of
/// `Syntax::EcmaScript2018`, and otherwise one of `Syntax::Profile`. Each match is written to `out`
/// as one line, before the next match is searched for: the range in bytes and the ranges of the
/// groups, with `-` for a group that did not match. A refusal is written to `err` as one line, and a
/// syntax error as two: the line of the pattern, and a `^` below the position of the error. If a
/// line cannot be written, the program ends and writes nothing more.
pub fn run<W: Write, W2: Write>(
    alloc: Global,
    words: &[Option<String>],
    out: &mut W,
    err: &mut W2,
) -> u8 {
    let Some(arguments) = read_arguments(words) else {
        return print_refusal(err, &"usage: regress-tool [--es2018] PATTERN FLAGS TEXT");
    };
    if let Some(letter) = first_unknown_flag(arguments.flags) {
        return print_unknown_flag(err, letter);
    }
    let flags = Flags::from(arguments.flags);
    match Regex::with_syntax(alloc, arguments.pattern, flags, arguments.syntax) {
        Ok(re) => print_matches(&re, arguments.text, out, err),
        Err(error) => match error.diagnosis() {
            Some(diagnosis) => print_refusal(err, &diagnosis.below_text(arguments.pattern)),
            None => print_refusal(err, &error),
        },
    }
}

// Reads the words. Returns `None` if their number is wrong, or one of them is not UTF-8.
fn read_arguments(words: &[Option<String>]) -> Option<Arguments<'_>> {
    match words {
        [pattern, flags, text] => read_pattern_flags_and_text(
            Syntax::Profile,
            pattern,
            flags,
            text,
        ),
        [Some(option), pattern, flags, text] if option.as_str() == ES2018_OPTION => {
            read_pattern_flags_and_text(Syntax::EcmaScript2018, pattern, flags, text)
        }
        _ => None,
    }
}

// Reads the words after the option. Returns `None` if one of them is not UTF-8.
fn read_pattern_flags_and_text<'a>(
    syntax: Syntax,
    pattern: &'a Option<String>,
    flags: &'a Option<String>,
    text: &'a Option<String>,
) -> Option<Arguments<'a>> {
    Some(Arguments {
        syntax,
        pattern: pattern.as_ref()?.as_str(),
        flags: flags.as_ref()?.as_str(),
        text: text.as_ref()?.as_str(),
    })
}

// Returns the first character that is not the letter of a flag.
fn first_unknown_flag(flags: &str) -> Option<char> {
    for letter in flags.chars() {
        match letter {
            'i' | 'm' | 's' | 'u' | 'v' => {}
            _ => return Some(letter),
        }
    }
    None
}

// Writes that a character is not the letter of a flag, and returns the exit status.
fn print_unknown_flag<W: Write>(err: &mut W, letter: char) -> u8 {
    let _ = writeln!(err, "unknown flag: {letter} (flags are i, m, s, u and v)");
    EXIT_STATUS_REFUSED
}

// Writes the reason why there is no result, and returns the exit status.
fn print_refusal<W: Write, E: Display>(err: &mut W, why: &E) -> u8 {
    let _ = writeln!(err, "{why}");
    EXIT_STATUS_REFUSED
}

// Writes one line for each match.
fn print_matches<W: Write, W2: Write>(re: &Regex, text: &str, out: &mut W, err: &mut W2) -> u8 {
    let matches = match re.find_iter(text) {
        Ok(matches) => matches,
        Err(error) => return print_refusal(err, &error),
    };
    let mut status = EXIT_STATUS_NOT_FOUND;
    for item in matches {
        match item {
            Ok(found) => {
                if print_match(&found, out).is_err() {
                    return EXIT_STATUS_REFUSED;
                }
                status = EXIT_STATUS_FOUND;
            }
            Err(error) => return print_refusal(err, &error),
        }
    }
    status
}

// Writes the line of one match.
fn print_match<W: Write>(found: &Match, out: &mut W) -> io::Result<()> {
    print_range(&found.range, out)?;
    for group in &found.captures {
        match group {
            Some(range) => {
                write!(out, " ")?;
                print_range(range, out)?;
            }
            None => write!(out, " -")?,
        }
    }
    writeln!(out)
}

// Writes a range as `start..end`.
fn print_range<W: Write>(range: &Range<usize>, out: &mut W) -> io::Result<()> {
    let start = range.start;
    let end = range.end;
    write!(out, "{start}..{end}")
}
