//! Prints lines and results.

use crate::colors::{Colors, Role};
use crate::failure::Failure;
use crate::options::{Options, Output};
use crate::pattern::Query;
use crate::select::{Paint, colored, matched_parts};
use std::alloc::Global;
use std::io;
use std::io::{BufWriter, Printer, Write};

/// A line that is printed.
#[derive(Clone, Copy, Debug)]
pub struct Row<'t> {
    /// The line's number in the file, counted from 1.
    pub number: u64,
    /// The offset of the line in the file, in bytes.
    pub offset: u64,
    /// The line's bytes.
    pub raw: &'t [u8],
    /// The line as text, with U+FFFD for bytes that are not UTF-8.
    pub text: &'t str,
    /// Whether the line is selected. If not, it is context.
    pub is_selected: bool,
}

/// The standard output.
#[derive(Drop)]
pub struct StandardOutput<'s, 'a> {
    alloc: Global,
    options: &'s Options<'a>,
    // Whether file names are printed.
    has_names: bool,
    out: BufWriter<Printer<'s, HostRuntime>>,
}

impl<'s, 'a> StandardOutput<'s, 'a> {
    /// Creates the standard output for the options.
    ///
    /// # Errors
    ///
    /// Returns an error if an allocation fails.
    pub fn new(
        rt: &'s HostRuntime,
        options: &'s Options<'a>,
        has_names: bool,
    ) -> io::Result<StandardOutput<'s, 'a>> {
        Ok(StandardOutput {
            alloc: rt.alloc(),
            options,
            has_names,
            out: BufWriter::new(rt.alloc(), io::writer(rt))?,
        })
    }

    /// Writes the contents of the buffer.
    ///
    /// # Errors
    ///
    /// Returns an error if writing fails.
    pub fn flush(&mut self) -> io::Result<()> {
        self.out.flush()
    }

    /// Prints a line, or its matches.
    ///
    /// # Errors
    ///
    /// Returns an error if writing or an allocation fails.
    pub fn row(&mut self, query: &Query, name: &str, row: &Row<'_>) -> Result<(), Failure> {
        if self.options.output == Output::Matches {
            return self.print_matches(query, name, row);
        }
        self.prefix(name, row.number, row.offset, row.is_selected)?;
        let options = self.options;
        match &options.colors {
            Some(colors) => self.colored(colors, query, row)?,
            None => self.out.write_all(row.raw)?,
        }
        Ok(self.end_line()?)
    }

    // Prints a line in its colours. The line's own colour begins again after each match.
    fn colored(&mut self, colors: &Colors, query: &Query, row: &Row<'_>) -> Result<(), Failure> {
        let line = paint_of(
            colors,
            colors.line_role(row.is_selected, self.options.invert),
        );
        let found = paint_of(colors, match_role(row));
        if row.is_selected == self.options.invert || found.start.is_empty() {
            return Ok(self.line(line, row.raw)?);
        }
        let mut end = String::from_str(self.alloc, found.end)?;
        end.push_str(line.start)?;
        let paint = Paint {
            start: found.start,
            end: end.as_str(),
        };
        let painted = colored(self.alloc, &query.re, row.text, paint)?;
        Ok(self.line(line, painted.as_bytes())?)
    }

    // Prints the text of a line in the line's colour, without a carriage return at the end.
    fn line(&mut self, paint: Paint<'_>, text: &[u8]) -> io::Result<()> {
        let inside = text.strip_suffix(b"\r");
        self.out.write_all(paint.start.as_bytes())?;
        self.out.write_all(inside.unwrap_or(text))?;
        self.out.write_all(paint.end.as_bytes())?;
        if inside.is_some() {
            self.out.write_all(b"\r")?;
        }
        Ok(())
    }

    // Prints the matches of a selected line that are not empty, each on a line of its own.
    fn print_matches(&mut self, query: &Query, name: &str, row: &Row<'_>) -> Result<(), Failure> {
        if row.is_selected == self.options.invert {
            return Ok(());
        }
        for part in &matched_parts(self.alloc, &query.re, row.text)? {
            if part.text.is_empty() {
                continue;
            }
            let offset = row.offset.saturating_add(part.start as u64);
            self.prefix(name, row.number, offset, row.is_selected)?;
            self.painted(match_role(row), part.text)?;
            self.end_line()?;
        }
        Ok(())
    }

    // Prints the file's name, the line's number and the offset, as the options say.
    fn prefix(
        &mut self,
        name: &str,
        number: u64,
        offset: u64,
        is_selected: bool,
    ) -> io::Result<()> {
        let separator = if is_selected { ":" } else { "-" };
        if self.has_names {
            self.painted(Role::Name, name)?;
            self.painted(Role::Separator, separator)?;
        }
        if self.options.numbers {
            self.number(Role::Number, number, separator)?;
        }
        if self.options.offsets {
            self.number(Role::Offset, offset, separator)?;
        }
        Ok(())
    }

    fn number(&mut self, role: Role, number: u64, separator: &str) -> io::Result<()> {
        let digits = format!(in self.alloc; "{number}")?;
        self.painted(role, digits.as_str())?;
        self.painted(Role::Separator, separator)
    }

    // Prints a text in the colour of its role.
    fn painted(&mut self, role: Role, text: &str) -> io::Result<()> {
        let options = self.options;
        match &options.colors {
            Some(colors) => {
                let paint = paint_of(colors, role);
                self.out.write_all(paint.start.as_bytes())?;
                self.out.write_all(text.as_bytes())?;
                self.out.write_all(paint.end.as_bytes())
            }
            None => self.out.write_all(text.as_bytes()),
        }
    }

    // Ends an output line that shows a line of a file.
    fn end_line(&mut self) -> io::Result<()> {
        let end = [self.options.end()];
        self.end_output_line(&end)
    }

    // Ends an output line. Flushes the output if the options say so.
    fn end_output_line(&mut self, end: &[u8]) -> io::Result<()> {
        self.out.write_all(end)?;
        if self.options.flushes {
            self.out.flush()?;
        }
        Ok(())
    }

    /// Prints the line that separates groups of lines with context.
    ///
    /// # Errors
    ///
    /// Returns an error if writing fails.
    pub fn print_group_separator(&mut self) -> io::Result<()> {
        self.painted(Role::Separator, "--")?;
        self.out.write_all(b"\n")
    }

    /// Prints the result for a whole file: its name, or the number of its selected lines.
    ///
    /// # Errors
    ///
    /// Returns an error if writing fails.
    pub fn end(&mut self, name: &str, selected: u64) -> io::Result<()> {
        match self.options.output {
            Output::Count => self.count(name, selected),
            Output::NamesWith if selected > 0 => self.name(name),
            Output::NamesWithout if selected == 0 => self.name(name),
            _ => Ok(()),
        }
    }

    fn count(&mut self, name: &str, selected: u64) -> io::Result<()> {
        if self.has_names {
            self.painted(Role::Name, name)?;
            self.painted(Role::Separator, ":")?;
        }
        write!(self.out, "{selected}")?;
        self.end_output_line(b"\n")
    }

    fn name(&mut self, name: &str) -> io::Result<()> {
        self.painted(Role::Name, name)?;
        self.end_output_line(b"\n")
    }
}

// Returns the role of the matches in a line.
fn match_role(row: &Row<'_>) -> Role {
    if row.is_selected {
        Role::Match
    } else {
        Role::ContextMatch
    }
}

fn paint_of(colors: &Colors, role: Role) -> Paint<'_> {
    Paint {
        start: colors.start(role),
        end: colors.end(role),
    }
}
