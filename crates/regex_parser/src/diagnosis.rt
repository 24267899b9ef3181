//! Diagnoses: what is wrong with a text that the parser refuses, and where.

ghost use Rattle.std.specs.Prelude.{◌≡◌, IsCharBoundary, chars, drop};

use std::fmt;
use thiserror::Error;

/// What is wrong with a text that is refused.
#[derive(Clone, Copy, Debug, PartialEq, Eq, Error)]
pub enum Cause {
    /// A parenthesis that is not closed.
    #[error("unclosed group")]
    UnclosedGroup,
    /// A closing parenthesis without an opening one.
    #[error("unopened group")]
    UnopenedGroup,
    /// `(?`, followed by something that opens no kind of group and has no cause of its own.
    #[error("unknown kind of group")]
    InvalidGroup,
    /// `(?i)`, `(?i:`, `(?-i:` and similar: `(?` before one of `i m s u x -`.
    #[error("modifiers are not supported")]
    Modifiers,
    /// `(?>`.
    #[error("atomic groups are not supported")]
    AtomicGroup,
    /// `(?#`.
    #[error("comments are not supported")]
    Comment,
    /// `(?P`, as in `(?P<n>a)` and `(?P=n)`.
    #[error("(?P is not supported, write (?<name>..) or \\k<name>")]
    PythonGroup,
    /// More capturing groups than the limit of 65,535. `groups` is their number, limited to
    /// `u32::MAX`. This is reported even if something else is wrong with the text.
    #[error("too many groups ({groups} of at most 65535)")]
    TooManyGroups { groups: u32 },
    /// A quantifier with no term before it, or after another quantifier.
    #[error("nothing to repeat")]
    NothingToRepeat,
    /// A quantifier after an anchor, a word boundary or a lookaround. In the whole language without
    /// `unicode`, a lookahead may be repeated.
    #[error("an assertion cannot be repeated")]
    RepeatedAssertion,
    /// `{n,m}` with `m` below `n`.
    #[error("the maximum of a quantifier is below its minimum")]
    QuantifierOutOfOrder,
    /// A class that is not closed.
    #[error("unclosed class")]
    UnclosedClass,
    /// A range in a class whose end is below its start.
    #[error("range out of order")]
    RangeOutOfOrder,
    /// With `unicode_sets`, a nested class, `&&` or `--`.
    #[error("set operations are not supported")]
    SetOperation,
    /// A backslash before an ASCII letter or digit that begins no escape. Escapes begin with `b B d
    /// D f k n r s S t u v w W x` and with digits. In a class, `B` and `k` begin none.
    #[error("unknown escape")]
    UnknownEscape,
    /// `\A`, `\z` or `\Z`.
    #[error("text anchors are not supported, write ^ or $")]
    TextAnchor,
    /// In the profile, `\p` or `\P`.
    #[error("property escapes are supported only in the whole language (ES2018)")]
    PropertyEscape,
    /// In the profile, `\c`.
    #[error("control escapes are supported only in the whole language (ES2018)")]
    ControlEscape,
    /// In the profile, `\0` before a digit, or `\1` to `\7` in a class.
    #[error("octal escapes are supported only in the whole language (ES2018) without u")]
    OctalEscape,
    /// In the whole language with `unicode`, `\c` without an ASCII letter after it.
    #[error("control escape without a letter")]
    ControlEscapeWithoutLetter,
    /// In the whole language with `unicode`, `\0` before a digit, or `\1` to `\7` in a class.
    #[error("octal escapes are not allowed with u")]
    OctalEscapeWithUnicode,
    /// In the whole language with `unicode`, `\p` or `\P` without a `{` after it.
    #[error("property escape without a name")]
    PropertyWithoutName,
    /// In the whole language with `unicode`, `\p{..}` or `\P{..}` with a name or a value that is
    /// not that of a Unicode property.
    #[error("unknown property")]
    UnknownProperty,
    /// In the whole language with `unicode`, a range in a class that begins or ends with a class
    /// escape.
    #[error("a class escape cannot be the end of a range")]
    RangeOfClasses,
    /// `\x` without two hexadecimal digits.
    #[error("incomplete hexadecimal escape")]
    HexEscape,
    /// `\u` without four hexadecimal digits. With `unicode`, also `\u{` without hexadecimal digits
    /// and a `}` after it.
    #[error("incomplete Unicode escape")]
    UnicodeEscape,
    /// With `unicode`, `\u{..}` past U+10FFFF.
    #[error("code point past U+10FFFF")]
    CodePointTooGreat,
    /// A backslash at the end of the text.
    #[error("backslash at the end of the pattern")]
    NothingToEscape,
    /// A reference to a group number that the pattern does not have.
    #[error("no such group")]
    NoSuchGroup,
    /// A reference to a name that no group of the pattern has.
    #[error("no group has this name")]
    NoSuchName,
    /// `\k` without a `<` after it.
    #[error("reference without a name")]
    MissingName,
    /// An ASCII character that is not allowed in a name, or not at this position of it.
    #[error("character not allowed in a name")]
    InvalidName,
    /// In the profile, a code point past U+007F in a name.
    #[error("names beyond ASCII are supported only in the whole language (ES2018)")]
    NameBeyondAscii,
    /// A name that is not closed.
    #[error("unclosed name")]
    UnclosedName,
    /// The name of an earlier group.
    #[error("duplicate name")]
    DuplicateName,
    /// With `unicode`, a `{` that does not begin a quantifier.
    #[error("incomplete quantifier")]
    IncompleteQuantifier,
    /// With `unicode`, a `]` or `}` without its partner.
    #[error("unmatched ] or }}")]
    LoneBracket,
}

/// What is wrong with a text that is refused, and where. It displays as `unclosed group at 3`.
#[derive(Clone, Copy, Debug, PartialEq, Eq, Error)]
#[error("{cause} at {at}")]
pub struct Diagnosis {
    /// What is wrong.
    pub cause: Cause,
    /// Index of the code point with which the error begins. For an unclosed name this is the `<`,
    /// for an invalid name the code point that is not allowed, for a duplicate name its first
    /// letter, and for too many groups the parenthesis of the first group past the limit.
    pub at: usize,
}

impl Diagnosis {
    /// Returns the byte offset of the error in a pattern that is a `str`. It is the length of the
    /// pattern if that has fewer than `at` code points.
    pub fn offset_in(self, pattern: &str) -> usize
        ensures boundary { IsCharBoundary pattern.now result }
        ensures place { chars (drop result pattern.now) ≡ drop self.at (chars pattern.now) }
    {
        let mut rest = pattern.chars();
        let mut left = self.at;
        while left > 0 && rest.next().is_some() {
            left -= 1;
        }
        pattern.len() - rest.as_str().len()
    }

    /// Returns the diagnosis to display below a pattern on a terminal: the line of the pattern that
    /// contains the error, a line with `^` below the error, and the cause. Each code point takes
    /// one column. A control character is shown as a blank, and a number that is not a `char` as
    /// U+FFFD.
    pub fn below(self, pattern: &[u32]) -> CaretDiagnosis<'_> {
        let (before, behind) = pattern.split_at(self.at.min(pattern.len()));
        CaretDiagnosis {
            before: PatternLinePartForDiagnosis::CodePoints(last_line(before)),
            behind: PatternLinePartForDiagnosis::CodePoints(first_line(behind)),
            cause: self.cause,
        }
    }

    /// Returns the diagnosis to display below a pattern that is a `str`, as `below` does.
    pub fn below_text(self, pattern: &str) -> CaretDiagnosis<'_> {
        let (before, behind) = pattern.split_at(self.offset_in(pattern));
        CaretDiagnosis {
            before: PatternLinePartForDiagnosis::Text(
                before.rsplit_once('\n').map_or(before, |(_, line)| line),
            ),
            behind: PatternLinePartForDiagnosis::Text(
                behind.split_once('\n').map_or(behind, |(line, _)| line),
            ),
            cause: self.cause,
        }
    }
}

/// A line of a pattern, and what is wrong in it.
#[derive(Clone, Copy, Debug)]
pub struct CaretDiagnosis<'p> {
    // The part of the line before the error, and the part from the error on.
    before: PatternLinePartForDiagnosis<'p>,
    behind: PatternLinePartForDiagnosis<'p>,
    cause: Cause,
}

impl fmt::Display for CaretDiagnosis<'_> {
    fn fmt<W: fmt::Write>(&self, f: &mut fmt::Formatter<W>) -> fmt::Result {
        self.before.write(f)?;
        self.behind.write(f)?;
        f.write_str("\n")?;
        for _ in 0..self.before.columns() {
            f.write_str(" ")?;
        }
        write!(f, "^ {}", self.cause)
    }
}

// A part of a line of a pattern.
#[derive(Clone, Copy, Debug)]
enum PatternLinePartForDiagnosis<'p> {
    CodePoints(&'p [u32]),
    Text(&'p str),
}

impl PatternLinePartForDiagnosis<'_> {
    fn columns(self) -> usize {
        match self {
            PatternLinePartForDiagnosis::CodePoints(points) => points.len(),
            PatternLinePartForDiagnosis::Text(text) => text.chars().count(),
        }
    }

    fn write<W: fmt::Write>(self, f: &mut fmt::Formatter<W>) -> fmt::Result {
        match self {
            PatternLinePartForDiagnosis::CodePoints(points) => {
                for c in points {
                    write!(f, "{}", char_shown_for_code_point(*c))?;
                }
            }
            PatternLinePartForDiagnosis::Text(text) => {
                for c in text.chars() {
                    write!(f, "{}", char_shown_for_code_point(u32::from(c)))?;
                }
            }
        }
        Ok(())
    }
}

// Returns the character that shows a code point in one column.
fn char_shown_for_code_point(c: u32) -> char {
    match char::from_u32(c) {
        Some('\0'..='\x1F' | '\x7F') => ' ',
        Some(c) => c,
        None => '\u{FFFD}',
    }
}

fn is_line_break(c: u32) -> bool {
    c == '\n' as u32
}

// Returns the text after the last line break.
fn last_line(text: &[u32]) -> &[u32] {
    let mut start = text.len();
    while start > 0 && !is_line_break(text[start - 1]) {
        start -= 1;
    }
    &text[start..]
}

// Returns the text before the first line break.
fn first_line(text: &[u32]) -> &[u32] {
    let mut end = 0;
    while end < text.len() && !is_line_break(text[end]) {
        end += 1;
    }
    &text[..end]
}
