//! The options of the command line.

use crate::show::Style;
use std::alloc::{AllocError, Global};
use use_support::Form::{Each, Switch, WordOr};
use use_support::{Argument, CommandLine, Given};

/// The tokens, the text, and the style.
#[derive(Debug, Drop)]
pub struct Options<'a> {
    /// The tokens. Each is `NAME=PATTERN`.
    pub tokens: Vec<&'a str>,
    pub file: &'a str,
    pub style: Style,
}

impl<'a> Options<'a> {
    /// Reads the options of a command line.
    ///
    /// # Errors
    ///
    /// `AllocError` if an allocation fails.
    pub fn of(alloc: Global, given: &Given<'a>) -> Result<Options<'a>, AllocError> {
        let style = if given.has("html") {
            Style::Html
        } else {
            Style::Ansi
        };
        Ok(Options {
            tokens: given.texts(alloc, "token")?,
            file: given.text("file"),
            style,
        })
    }
}

const AFTER: &str =
    r#"A name is of ASCII letters, digits, _ and $, with no digit in front, and stands once.
For example: use_highlighter -t 'comment=//.*' -t 'string="[^"]*"' -t 'number=\b\d+\b' FILE"#;

/// The description of the command line.
pub static LINE: CommandLine = CommandLine {
    name: "use_highlighter",
    about: "Colours the tokens of a text.",
    after: AFTER,
    arguments: &[
        Argument(
            "html",
            Switch(None),
            "Write HTML, in which each token is a span of its name's class",
        ),
        Argument(
            "token",
            Each('t', "NAME=PATTERN"),
            "A token; where several match, the one that is given first",
        ),
        Argument(
            "file",
            WordOr("FILE", "-"),
            "What is shown; - is standard input",
        ),
    ],
};
