//! Globs of file names, for `--include` and `--exclude`.

use anyhow::{Result, bail};
use regress_match::{Flags, Regex, escape};
use std::alloc::{AllocError, Global};
use use_support::Given;

/// The globs that decide which files are searched.
#[derive(Drop)]
pub struct Globs {
    include: Option<Regex>,
    exclude: Option<Regex>,
    exclude_dir: Option<Regex>,
}

impl Globs {
    /// Reads the globs of a command line.
    ///
    /// # Errors
    ///
    /// Returns an error if a glob is invalid, such as `[z-a]`, or if an allocation fails.
    pub fn of(alloc: Global, given: &Given<'_>) -> Result<Globs> {
        let dirs = without_slashes(alloc, &given.texts(alloc, "exclude-dir")?)?;
        Ok(Globs {
            include: any_of(alloc, &given.texts(alloc, "include")?)?,
            exclude: any_of(alloc, &given.texts(alloc, "exclude")?)?,
            exclude_dir: any_of(alloc, &dirs)?,
        })
    }

    /// Checks whether a file is searched. `name` is the name on the command line or, for a file in
    /// a directory, the last part of its path.
    ///
    /// # Errors
    ///
    /// `AllocError` if an allocation fails.
    pub fn is_file_searched(&self, name: &str) -> Result<bool, AllocError> {
        if matches(&self.exclude, name)? {
            return Ok(false);
        }
        Ok(self.include.is_none() || matches(&self.include, name)?)
    }

    /// Checks whether a directory is searched. `name` is as in `is_file_searched`.
    ///
    /// # Errors
    ///
    /// `AllocError` if an allocation fails.
    pub fn is_directory_searched(&self, name: &str) -> Result<bool, AllocError> {
        Ok(!matches(&self.exclude_dir, name)?)
    }
}

// Returns the names without trailing slashes.
fn without_slashes<'a>(alloc: Global, names: &[&'a str]) -> Result<Vec<&'a str>, AllocError> {
    let mut found = Vec::new(alloc);
    for name in names {
        found.push(name.trim_end_matches('/'))?;
    }
    Ok(found)
}

fn matches(globs: &Option<Regex>, name: &str) -> Result<bool, AllocError> {
    let Some(re) = globs else {
        return Ok(false);
    };
    match re.find(name) {
        Ok(found) => Ok(found.is_some()),
        Err(_) => Err(AllocError),
    }
}

// Compiles a pattern for the names that one of the globs matches. Returns `None` if there are no
// globs. A glob matches a whole name, or the part after a slash. The last alternative, an empty
// class, matches nothing.
fn any_of(alloc: Global, globs: &[&str]) -> Result<Option<Regex>> {
    if globs.is_empty() {
        return Ok(None);
    }
    let mut pattern = String::from_str(alloc, "(?:^|\\/)(?:")?;
    for glob in globs {
        push_glob(&mut pattern, alloc, glob)?;
        pattern.push('|')?;
    }
    pattern.push_str("[])$")?;
    let flags = Flags {
        unicode: true,
        ..Flags::default()
    };
    match Regex::with_flags(alloc, pattern.as_str(), flags) {
        Ok(re) => Ok(Some(re)),
        Err(why) => bail!("a glob is refused: {why}"),
    }
}

// Appends the pattern of a glob.
fn push_glob(pattern: &mut String, alloc: Global, glob: &str) -> Result<(), AllocError> {
    let mut rest = glob;
    for _ in 0..glob.len() {
        let Some(c) = rest.chars().next() else {
            break;
        };
        let behind = behind(rest, c);
        rest = push_glob_piece(pattern, alloc, c, behind)?;
    }
    Ok(())
}

fn behind(text: &str, first: char) -> &str {
    text.strip_prefix(first).unwrap_or("")
}

// Appends the pattern of one piece of a glob, which begins with a given character. Returns the rest
// of the glob.
fn push_glob_piece<'g>(
    pattern: &mut String,
    alloc: Global,
    c: char,
    rest: &'g str,
) -> Result<&'g str, AllocError> {
    match c {
        '*' => pattern.push_str("[^]*")?,
        '?' => pattern.push_str("[^]")?,
        '[' => return push_class(pattern, rest),
        '\\' => return push_escaped(pattern, alloc, rest),
        _ => push_literal(pattern, alloc, c)?,
    }
    Ok(rest)
}

fn push_literal(pattern: &mut String, alloc: Global, c: char) -> Result<(), AllocError> {
    let mut text = String::new(alloc);
    text.push(c)?;
    pattern.push_str(escape(alloc, text.as_str())?.as_str())
}

fn push_escaped<'g>(
    pattern: &mut String,
    alloc: Global,
    rest: &'g str,
) -> Result<&'g str, AllocError> {
    let c = rest.chars().next().unwrap_or('\\');
    push_literal(pattern, alloc, c)?;
    Ok(behind(rest, c))
}

// Appends the class after a `[`. If the class has no end, the `[` is literal. A `]` that comes
// first is an element of the class.
fn push_class<'g>(pattern: &mut String, rest: &'g str) -> Result<&'g str, AllocError> {
    let inside = text_after_negation(rest);
    let negated = inside.len() < rest.len();
    let skipped = inside.strip_prefix(']').unwrap_or(inside);
    let Some((elements, behind)) = skipped.split_once(']') else {
        pattern.push_str("\\[")?;
        return Ok(rest);
    };
    pattern.push_str(if negated { "[^" } else { "[" })?;
    if skipped.len() < inside.len() {
        pattern.push_str("\\]")?;
    }
    push_class_elements(pattern, elements)?;
    Ok(behind)
}

// Returns the text after a leading `!` or `^`. Returns the whole text if there is none.
fn text_after_negation(rest: &str) -> &str {
    match rest.strip_prefix('!') {
        Some(inside) => inside,
        None => rest.strip_prefix('^').unwrap_or(rest),
    }
}

// Appends the elements of a class, and its end.
fn push_class_elements(pattern: &mut String, elements: &str) -> Result<(), AllocError> {
    for c in elements.chars() {
        if c == '[' || c == '\\' || c == '^' {
            pattern.push('\\')?;
        }
        pattern.push(c)?;
    }
    pattern.push(']')
}
