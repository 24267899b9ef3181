//! Descriptions of command lines, and the arguments that are given.

use crate::Words;
use clap::{Arg, ArgAction, ArgMatches, Command, value_parser};
use std::alloc::{AllocError, Global};

/// The arguments that a program accepts, and the text of its help.
pub struct CommandLine {
    pub name: &'static str,
    pub about: &'static str,
    /// The last lines of the help. Empty if there are none.
    pub after: &'static str,
    pub arguments: &'static [Argument],
}

/// A positional argument or an option: its id, its form, and its help text. The id is also the long
/// name of an option. An argument with an empty help text is not shown by `--help`.
pub struct Argument(pub &'static str, pub Form, pub &'static str);

/// The form of an argument.
#[derive(Clone, Copy)]
pub enum Form {
    /// `--ID`, with an optional short letter.
    Switch(Option<char>),
    /// `--ID NAME`, a number: an optional short letter, the value's name, and an optional default.
    Number(Option<char>, &'static str, Option<&'static str>),
    /// `--ID[=NAME]`, one of a list of words: the value's name, the words, the value if the option
    /// is absent, and the value if it is given without one.
    Choice(&'static str, &'static [&'static str], &'static str, &'static str),
    /// `--ID NAME`, required and repeatable: the short letter, and the value's name.
    Each(char, &'static str),
    /// `--ID NAME`, repeatable: an optional short letter, and the value's name. A value may begin
    /// with a hyphen.
    Any(Option<char>, &'static str),
    /// `--ID`, which prints the help. It replaces `clap`'s own option, so that `-h` is free.
    Help,
    /// `--ID`, with a short letter, which prints the program's name and this version.
    Version(char, &'static str),
    /// A required word.
    Word(&'static str),
    /// An optional word: its name, and its default.
    WordOr(&'static str, &'static str),
    /// An optional word, which need not be UTF-8: its name.
    OptionalLossyWord(&'static str),
    /// Any number of words, which need not be UTF-8: their name.
    Words(&'static str),
}

// Returns an option with an optional short letter.
fn option(alloc: Global, id: &'static str, letter: Option<char>) -> Arg<'static> {
    let arg = Arg::new(alloc, id).long(id);
    match letter {
        Some(letter) => arg.short(letter),
        None => arg,
    }
}

// Makes an argument a number, with an optional default.
fn number(arg: Arg<'static>, default: Option<&'static str>) -> Arg<'static> {
    let arg = arg.value_parser(value_parser!(u64));
    match default {
        Some(default) => arg.default_value(default),
        None => arg,
    }
}

// Makes an argument one of a list of words.
fn choice(
    arg: Arg<'static>,
    words: &'static [&'static str],
    absent: &'static str,
    bare: &'static str,
) -> Arg<'static> {
    arg.num_args(0..=1)
        .require_equals(true)
        .default_value(absent)
        .default_missing_value(bare)
        .value_parser(words)
}

// Returns a positional argument.
fn word(alloc: Global, id: &'static str, name: &'static str) -> Arg<'static> {
    Arg::new(alloc, id).value_name(name)
}

impl Argument {
    // Returns the argument for `clap`.
    fn arg(&self, alloc: Global) -> Arg<'static> {
        let id = self.0;
        let form = self.1;
        let arg = match form {
            Form::Switch(letter) => option(alloc, id, letter).action(ArgAction::SetTrue),
            Form::Number(letter, name, default) => {
                number(option(alloc, id, letter).value_name(name), default)
            }
            Form::Choice(name, words, absent, bare) => {
                choice(
                    option(alloc, id, None).value_name(name),
                    words,
                    absent,
                    bare,
                )
            }
            Form::Each(letter, name) => option(alloc, id, Some(letter))
                .value_name(name)
                .required(true)
                .action(ArgAction::Append),
            Form::Any(letter, name) => option(alloc, id, letter)
                .value_name(name)
                .allow_hyphen_values(true)
                .action(ArgAction::Append),
            Form::Help => option(alloc, id, None).action(ArgAction::Help),
            Form::Version(letter, _) => option(alloc, id, Some(letter)).action(ArgAction::Version),
            Form::Word(name) => word(alloc, id, name).required(true),
            Form::WordOr(name, default) => word(alloc, id, name).default_value(default),
            Form::OptionalLossyWord(name) => word(alloc, id, name),
            Form::Words(name) => word(alloc, id, name).num_args(0..),
        };
        arg.help(self.2).hide(self.2.is_empty())
    }

    // Sets what the whole command needs for the argument: no second option for help or the version.
    fn set<'a>(&self, command: Command<'a>) -> Command<'a> {
        match self.1 {
            Form::Help => command.disable_help_flag(true),
            Form::Version(_, text) => command.disable_version_flag(true).version(text),
            _ => command,
        }
    }
}

impl CommandLine {
    /// Returns the `clap` command for this command line.
    ///
    /// # Errors
    ///
    /// `AllocError` if an allocation fails.
    pub(crate) fn command<'a>(&self, alloc: Global) -> Result<Command<'a>, AllocError> {
        let mut command = Command::new(alloc, self.name)
            .about(self.about)
            .args_override_self(true);
        if !self.after.is_empty() {
            command = command.after_help(self.after);
        }
        for argument in self.arguments {
            command = argument.set(command).arg(argument.arg(alloc))?;
        }
        Ok(command)
    }
}

/// The arguments given on a command line, and the defaults of those that were not given.
#[derive(Drop)]
pub struct Given<'a> {
    // Each value with the id of its argument. The value of a switch is empty.
    values: Vec<(&'static str, &'a str)>,
    // The words that are not UTF-8, with U+FFFD for the invalid bytes.
    lossy: Vec<&'a str>,
    // A value that is not UTF-8, of an argument that has to be UTF-8.
    unreadable: Option<&'a str>,
}

impl<'a> Given<'a> {
    // Collects the values of the arguments of `line` from what `clap` parsed.
    pub(crate) fn of(
        alloc: Global,
        line: &'static CommandLine,
        matches: &ArgMatches<'a>,
        words: &'a Words,
    ) -> Result<Self, AllocError> {
        let mut given = Given {
            values: Vec::new(alloc),
            lossy: words.non_utf8_words(alloc)?,
            unreadable: None,
        };
        for argument in line.arguments {
            let id = argument.0;
            if let Form::Switch(_) = argument.1 {
                if matches.get_flag(id) {
                    given.values.push((id, ""))?;
                }
            } else if let Some(texts) = matches.get_strs(id) {
                given.push_values_of_argument(argument, texts)?;
            }
        }
        Ok(given)
    }

    // Adds the values of an argument.
    fn push_values_of_argument(
        &mut self,
        argument: &Argument,
        texts: &[&'a str],
    ) -> Result<(), AllocError> {
        let is_text = !matches!(argument.1, Form::OptionalLossyWord(_) | Form::Words(_));
        for text in texts {
            if is_text && !self.lossy.is_empty() && text.contains('\u{fffd}') {
                self.unreadable = Some(*text);
            }
            self.values.push((argument.0, *text))?;
        }
        Ok(())
    }

    // Returns a value that has to be UTF-8 and is not.
    pub(crate) fn unreadable(&self) -> Option<&'a str> {
        self.unreadable
    }

    /// Checks whether the value of a `OptionalLossyWord` or a `Words` was not UTF-8. In such a value, U+FFFD
    /// replaces the invalid bytes.
    pub fn is_lossy(&self, word: &str) -> bool {
        self.lossy.iter().any(|of| *of == word)
    }

    /// Checks whether the argument was given, or has a default.
    pub fn has(&self, id: &str) -> bool {
        self.values.iter().any(|(of, _)| *of == id)
    }

    /// Returns the first value of the argument. Returns an empty text if it has none.
    pub fn text(&self, id: &str) -> &'a str {
        match self.values.iter().find(|(of, _)| *of == id) {
            Some((_, text)) => *text,
            None => "",
        }
    }

    /// Returns all values of the argument.
    ///
    /// # Errors
    ///
    /// `AllocError` if an allocation fails.
    pub fn texts(&self, alloc: Global, id: &str) -> Result<Vec<&'a str>, AllocError> {
        let mut texts = Vec::new(alloc);
        for (of, text) in &self.values {
            if *of == id {
                texts.push(*text)?;
            }
        }
        Ok(texts)
    }

    /// Returns the argument's value as a number. Returns `None` if it has no value, or if the value
    /// is not a number.
    pub fn number(&self, id: &str) -> Option<u64> {
        self.text(id).parse().ok()
    }
}
