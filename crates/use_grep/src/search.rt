//! Searches files.

ghost use Rattle.std.specs.Prelude.{◌≡◌, ◌<◌, IfOk, false, true};

use crate::blocks::{BlockError, Blocks};
use crate::context::near;
use crate::failure::Failure;
use crate::options::{Operand, Options, Output};
use crate::pattern::Query;
use crate::print::{Row, StandardOutput};
use crate::select::{
    Line, count_lines, count_lines_before_too_long, lines_of, lines_up_to_maximum,
    matching_lines_of_text, nul_terminated_lines, selected,
};
use crate::walk::{Step, Walk};
use memchr::memchr;
use simdutf8::compat::from_utf8;
use std::alloc::{AllocError, Global};
use std::collections::VecDeque;
use std::fmt::Display;
use std::fs::File;
use std::io::Read;
use std::{fs, io, mem};

// Progress is shown each time this many blocks of a file were searched. A block has 128 KB or more.
const BLOCKS_PER_PROGRESS_UPDATE: u64 = 512;

/// The result of a search.
#[derive(Clone, Copy, Debug)]
pub struct Tally {
    /// The number of selected lines.
    pub selected: u64,
    /// Whether something could not be searched.
    pub has_trouble: bool,
}

/// A search of files, which prints what it finds.
#[derive(Drop)]
pub struct Search<'s, 'a> {
    rt: &'s HostRuntime,
    query: &'s Query,
    options: &'s Options<'a>,
    screen: StandardOutput<'s, 'a>,
    tally: Tally,
    // Whether a line was printed. If so, `--` separates it from the next group.
    has_printed: bool,
}

// The progress of the search of a file.
#[derive(Drop)]
struct Progress<'n> {
    name: &'n str,
    blocks: u64,
    // The number of lines that were searched, and their bytes, with the bytes that end lines.
    lines: u64,
    bytes: u64,
    // The number of lines that were selected, and the number of the last one (0 if there is none).
    selected: u64,
    latest: u64,
    // The number of the last line that was printed, or 0.
    printed: u64,
    // The last lines before the next one. They may be printed as context before it.
    kept: VecDeque<KeptLine>,
    // Whether the rest of the file is not searched.
    is_over: bool,
    // Whether the file has a NUL byte.
    is_binary: bool,
    // Whether a line that is selected or near a selected one was not printed because it is not
    // text.
    is_hidden: bool,
}

// A line that may be printed as context.
#[derive(Drop)]
struct KeptLine {
    number: u64,
    offset: u64,
    raw: Vec<u8>,
}

impl<'n> Progress<'n> {
    fn new(alloc: Global, name: &'n str, most: u64) -> Progress<'n> {
        Progress {
            name,
            blocks: 0,
            lines: 0,
            bytes: 0,
            selected: 0,
            latest: 0,
            printed: 0,
            kept: VecDeque::new(alloc),
            is_over: most == 0,
            is_binary: false,
            is_hidden: false,
        }
    }

    // If the file is binary, ends its search at the first selected line.
    fn end_as_binary(&mut self) {
        self.is_hidden = true;
        self.is_over = true;
    }

    // Moves past a line.
    fn move_past_line(&mut self, number: u64, raw: &[u8]) {
        self.lines = number;
        self.bytes = self
            .bytes
            .saturating_add(raw.len() as u64)
            .saturating_add(1);
    }

    fn keep(
        &mut self,
        alloc: Global,
        number: u64,
        raw: &[u8],
        most: u64,
    ) -> Result<(), AllocError> {
        self.kept.push_back(KeptLine {
            number,
            offset: self.bytes,
            raw: Vec::from_slice(alloc, raw)?,
        })?;
        if self.kept.len() as u64 > most {
            let _oldest = self.kept.pop_front();
        }
        Ok(())
    }
}

impl<'s, 'a> Search<'s, 'a> {
    /// Creates a search of the files of the options.
    ///
    /// # Errors
    ///
    /// Returns an error if an allocation fails.
    pub fn new(
        rt: &'s HostRuntime,
        query: &'s Query,
        options: &'s Options<'a>,
    ) -> io::Result<Search<'s, 'a>> {
        let has_names = match options.names {
            Some(has_names) => has_names,
            None => may_be_several(rt, options),
        };
        Ok(Search {
            rt,
            query,
            options,
            screen: StandardOutput::new(rt, options, has_names)?,
            tally: Tally {
                selected: 0,
                has_trouble: false,
            },
            has_printed: false,
        })
    }

    /// Searches all files, and prints what is selected. Reports what cannot be searched.
    ///
    /// # Errors
    ///
    /// Returns an error if writing or an allocation fails.
    pub fn all(mut self) -> Result<Tally, Failure> {
        for operand in &self.options.operands {
            self.operand(operand)?;
            if self.is_done() {
                break;
            }
        }
        self.screen.flush()?;
        Ok(self.tally)
    }

    // Checks whether the rest of the search cannot change the output.
    fn is_done(&self) -> bool {
        self.options.output == Output::Nothing && self.tally.selected > 0
    }

    fn operand(&mut self, operand: &Operand<'_>) -> Result<(), Failure> {
        let name = operand.name;
        if operand.is_lossy {
            return self.report_unreadable_file(name, &"the file name is not UTF-8");
        }
        if name == "-" {
            return self.reader("(standard input)", self.rt.reader());
        }
        if self.options.is_recursive && (name.is_empty() || is_directory(self.rt, name)) {
            if name.is_empty() || self.options.globs.is_directory_searched(name)? {
                self.directory(name)?;
            }
            return Ok(());
        }
        if self.options.globs.is_file_searched(name)? {
            self.file(name)?;
        }
        Ok(())
    }

    fn directory(&mut self, name: &str) -> Result<(), Failure> {
        let mut walk = Walk::new(self.rt, &self.options.globs, name)?;
        for _ in 0..u64::MAX {
            match walk.advance()? {
                Some(Step::File(path)) => self.file(path.as_str())?,
                Some(Step::Trouble(path, why)) => self.report_unreadable_file(path.as_str(), &why)?,
                None => break,
            }
            if self.is_done() {
                break;
            }
        }
        Ok(())
    }

    fn file(&mut self, name: &str) -> Result<(), Failure> {
        match File::open(self.rt, name) {
            Ok(file) => self.reader(name, file),
            Err(why) => self.report_unreadable_file(name, &why),
        }
    }

    // Reports a file that cannot be read. With `-s`, prints no message.
    fn report_unreadable_file<E: Display>(&mut self, what: &str, why: &E) -> Result<(), Failure>
        ensures { IfOk result (λ _. self.new.tally.has_trouble ≡ true) }
    {
        self.mark_trouble();
        if self.options.is_silent {
            return Ok(());
        }
        self.print_message(what, why)
    }

    // Reports an error. The exit status shows it.
    fn trouble<E: Display>(&mut self, what: &str, why: &E) -> Result<(), Failure>
        ensures { IfOk result (λ _. self.new.tally.has_trouble ≡ true) }
    {
        self.mark_trouble();
        self.print_message(what, why)
    }

    // Records for the exit status that something could not be searched.
    fn mark_trouble(&mut self)
        ensures { self.new.tally.has_trouble ≡ true }
    {
        self.tally.has_trouble = true;
    }

    // Prints a message on standard error.
    fn print_message<E: Display>(&mut self, what: &str, why: &E) -> Result<(), Failure>
        ensures { self.new.tally ≡ self.old.tally }
    {
        self.screen.flush()?;
        self.clear()?;
        eprintln!(self.rt; "use_grep: {what}: {why}")?;
        Ok(())
    }

    fn reader<R: Read + Drop>(&mut self, name: &str, reader: R) -> Result<(), Failure> {
        let alloc = self.rt.alloc();
        let mut blocks = Blocks::new(alloc, reader, self.options.longest, self.options.end())?;
        let mut progress = Progress::new(alloc, name, self.options.most);
        for _ in 0..u64::MAX {
            if progress.is_over {
                break;
            }
            match blocks.advance() {
                Ok(true) => {
                    self.block(&mut progress, blocks.lines())?;
                    self.show_progress(&mut progress)?;
                }
                Ok(false) => progress.is_over = true,
                Err(why) => self.report_unfinished_file(&mut progress, &why)?,
            }
        }
        self.end(&progress)
    }

    // Marks a file as binary if it has a NUL byte.
    fn mark_if_binary(&self, progress: &mut Progress<'_>, block: &[u8]) {
        if !self.options.lossy && !self.options.nul && memchr(0, block).is_some() {
            progress.is_binary = true;
        }
    }

    // Shows the progress in a long file.
    fn show_progress(&self, progress: &mut Progress<'_>) -> io::Result<()> {
        progress.blocks = progress.blocks.saturating_add(1);
        if !self.options.shows_progress_line || progress.blocks % BLOCKS_PER_PROGRESS_UPDATE != 0 {
            return Ok(());
        }
        let name = progress.name;
        let lines = progress.lines;
        eprint!(self.rt; "\r{name}: {lines} lines")
    }

    // Clears the progress line.
    fn clear(&self) -> io::Result<()> {
        if self.options.shows_progress_line {
            eprint!(self.rt; "\r\u{1b}[K")?;
        }
        Ok(())
    }

    // Reports why the rest of a file is not searched.
    fn report_unfinished_file(
        &mut self,
        progress: &mut Progress<'_>,
        why: &BlockError,
    ) -> Result<(), Failure> {
        progress.is_over = true;
        let name = progress.name;
        if let BlockError::Read(why) = why {
            return self.report_unreadable_file(name, why);
        }
        let number = progress.lines.saturating_add(1);
        let what = format!(in self.rt.alloc(); "{name}:{number}")?;
        self.trouble(what.as_str(), why)
    }

    // Searches a block of lines. In a binary file, NUL bytes end lines too.
    fn block(&mut self, progress: &mut Progress<'_>, block: &[u8]) -> Result<(), Failure> {
        self.mark_if_binary(progress, block);
        let is_binary = progress.is_binary;
        if !is_binary {
            if let Ok(text) = from_utf8(block) {
                return self.text(progress, text);
            }
        }
        let end = self.options.end();
        for line in block.split(|byte| *byte == end || is_binary && *byte == 0) {
            match from_utf8(line) {
                Ok(text) => self.text(progress, text)?,
                Err(_) => self.search_non_utf8_line(progress, line)?,
            }
        }
        Ok(())
    }

    // Searches a line that is not UTF-8, with U+FFFD for the invalid bytes. If it is selected but
    // not printed, this is recorded.
    fn search_non_utf8_line(
        &mut self,
        progress: &mut Progress<'_>,
        line: &[u8],
    ) -> Result<(), Failure>
        ensures { self.old.options.now.lossy ≡ false
            → IfOk result (λ _. progress.old.selected < progress.new.selected → progress.new.is_hidden ≡ true) }
    {
        let selected = progress.selected;
        let is_lossy = self.options.lossy;
        let text = String::from_utf8_lossy(self.rt.alloc(), line)?;
        let lines = self.split_into_lines(text.as_str())?;
        self.lines(progress, &lines, Some(line))?;
        if is_lossy {
            return Ok(());
        }
        if progress.selected > selected {
            progress.is_hidden = true;
        }
        Ok(())
    }

    // Searches a text of whole lines. It is split into lines only if necessary.
    fn text(&mut self, progress: &mut Progress<'_>, text: &str) -> Result<(), Failure> {
        let options = self.options;
        let cuts = options.invert || options.nul || options.offsets || options.context.is_on;
        if cuts || !self.query.is_local || text.len() as u64 > options.longest {
            let lines = self.split_into_lines(text)?;
            return self.lines(progress, &lines, None);
        }
        if progress.is_over {
            return Ok(());
        }
        let before = progress.lines;
        let Some(behind) = before.checked_add(count_lines(text)) else {
            return Err(Failure::TooLong);
        };
        let found = matching_lines_of_text(self.rt.alloc(), self.query, text, before)?;
        for line in self.take(progress, &found) {
            self.found(progress, line)?;
        }
        progress.lines = behind;
        progress.is_over = progress.is_over || progress.selected >= self.options.most;
        Ok(())
    }

    // Splits a text into lines.
    fn split_into_lines<'t>(&self, text: &'t str) -> Result<Vec<&'t str>, AllocError> {
        let alloc = self.rt.alloc();
        if self.options.nul {
            nul_terminated_lines(alloc, text)
        } else {
            lines_of(alloc, text)
        }
    }

    // Searches lines. One of them may be too long. A line that is not UTF-8 is searched alone, and
    // its bytes are given.
    fn lines(
        &mut self,
        progress: &mut Progress<'_>,
        lines: &[&str],
        raw: Option<&[u8]>,
    ) -> Result<(), Failure> {
        if progress.is_over {
            return Ok(());
        }
        let fit = count_lines_before_too_long(lines, self.options.longest);
        let before = progress.lines;
        let Some(behind) = before.checked_add(fit as u64) else {
            return Err(Failure::TooLong);
        };
        let fitting = &lines[..fit];
        let alloc = self.rt.alloc();
        let found = selected(alloc, &self.query.re, self.options.invert, fitting, before)?;
        let latest = progress.latest;
        let wanted = self.take(progress, &found);
        if self.options.prints_lines() && !progress.is_over {
            let numbers = self.numbers(progress, fit as u64, latest, wanted)?;
            self.show(progress, fitting, raw, &numbers, wanted)?;
        } else {
            progress.lines = behind;
        }
        if fit < lines.len() && !progress.is_over {
            self.report_unfinished_file(progress, &BlockError::TooLong)?;
        }
        Ok(())
    }

    // Counts the lines that were found, up to the maximum, and returns those to print.
    fn take<'f, 't>(&self, progress: &mut Progress<'_>, found: &'f [Line<'t>]) -> &'f [Line<'t>] {
        let most = self.options.most;
        let wanted = lines_up_to_maximum(found, progress.selected, most);
        let count = wanted.len() as u64;
        progress.selected = progress.selected.saturating_add(count);
        if let [.., last] = wanted {
            progress.latest = last.number;
        }
        if !self.options.prints_lines() {
            progress.is_over = progress.selected >= most;
            return &[];
        }
        if progress.is_binary && count > 0 {
            progress.end_as_binary();
            return &[];
        }
        wanted
    }

    // Prints a selected line, if no context is printed.
    fn found(&mut self, progress: &mut Progress<'_>, line: &Line<'_>) -> Result<(), Failure> {
        let row = Row {
            number: line.number,
            offset: 0,
            raw: line.text.as_bytes(),
            text: line.text,
            is_selected: true,
        };
        self.print(progress, &row, true)
    }
}

// Printing lines with context.
impl<'s, 'a> Search<'s, 'a> {
    // Returns the numbers of the lines to print, among the kept lines and the next ones. `found`
    // are the selected lines.
    fn numbers(
        &self,
        progress: &Progress<'_>,
        count: u64,
        latest: u64,
        found: &[Line<'_>],
    ) -> Result<Vec<u64>, AllocError> {
        let alloc = self.rt.alloc();
        let context = self.options.context;
        let mut numbers = Vec::new(alloc);
        if context.is_on && latest > 0 {
            numbers.push(latest)?;
        }
        for line in found {
            numbers.push(line.number)?;
        }
        if !context.is_on {
            return Ok(numbers);
        }
        let next = progress.lines.saturating_add(1);
        let first = match progress.kept.front() {
            Some(kept) => kept.number,
            None => next,
        };
        let end = next.saturating_add(count);
        near(alloc, context.before, context.after, &numbers, first, end)
    }

    // Prints the kept lines and the given lines that have one of the numbers. Then moves past the
    // given lines.
    fn show(
        &mut self,
        progress: &mut Progress<'_>,
        lines: &[&str],
        raw: Option<&[u8]>,
        numbers: &[u64],
        selected: &[Line<'_>],
    ) -> Result<(), Failure> {
        let last = progress.lines.saturating_add(lines.len() as u64);
        let mut numbers = AscendingLineNumbers::new(numbers);
        self.show_kept(progress, &mut numbers)?;
        let mut selected = selected.iter();
        let mut next = number_of_line(selected.next());
        for line in lines {
            let number = progress.lines.saturating_add(1);
            let bytes = raw_or_text_bytes(line, raw);
            let is_selected = next == Some(number);
            if is_selected {
                next = number_of_line(selected.next());
            }
            if numbers.takes(number) {
                let row = Row {
                    number,
                    offset: progress.bytes,
                    raw: bytes,
                    text: line,
                    is_selected,
                };
                self.print(progress, &row, raw.is_none())?;
            } else {
                self.keep(progress, number, bytes, last)?;
            }
            progress.move_past_line(number, bytes);
        }
        let until = progress.latest.saturating_add(self.options.context.after);
        progress.is_over = progress.selected >= self.options.most && last >= until;
        Ok(())
    }

    // Prints the kept lines that are near a selected line.
    fn show_kept(
        &mut self,
        progress: &mut Progress<'_>,
        numbers: &mut AscendingLineNumbers<'_>,
    ) -> Result<(), Failure> {
        let mut kept = mem::replace(&mut progress.kept, VecDeque::new(self.rt.alloc()));
        for _ in 0..kept.len() {
            let Some(line) = kept.pop_front() else {
                break;
            };
            if numbers.takes(line.number) {
                let text = String::from_utf8_lossy(self.rt.alloc(), &line.raw)?;
                let row = Row {
                    number: line.number,
                    offset: line.offset,
                    raw: &line.raw,
                    text: text.as_str(),
                    is_selected: false,
                };
                self.print(progress, &row, text.as_bytes() == line.raw.as_slice())?;
            } else {
                progress.kept.push_back(line)?;
            }
        }
        Ok(())
    }

    // Keeps the last lines, which may be printed before a line that is not yet read.
    fn keep(
        &self,
        progress: &mut Progress<'_>,
        number: u64,
        raw: &[u8],
        last: u64,
    ) -> Result<(), AllocError> {
        let before = self.options.context.before;
        if number.saturating_add(before) > last {
            progress.keep(self.rt.alloc(), number, raw, before)?;
        }
        Ok(())
    }

    // Prints a line, unless it is not text. At the end of the file, this is reported.
    fn print(
        &mut self,
        progress: &mut Progress<'_>,
        row: &Row<'_>,
        is_text: bool,
    ) -> Result<(), Failure>
        ensures { is_text ≡ false → self.old.options.now.lossy ≡ false
            → IfOk result (λ _. progress.new.is_hidden ≡ true) }
    {
        let is_hidden = !is_text && !self.options.lossy;
        self.print_separator_at_gap(progress, row.number)?;
        if is_hidden {
            progress.is_hidden = true;
            return Ok(());
        }
        self.screen.row(self.query, progress.name, row)
    }

    // Prints a separator if there is a gap between a line and the line printed before it.
    fn print_separator_at_gap(
        &mut self,
        progress: &mut Progress<'_>,
        number: u64,
    ) -> io::Result<()> {
        if !self.options.context.is_on {
            return Ok(());
        }
        let follows = progress.printed > 0 && progress.printed.saturating_add(1) == number;
        if self.has_printed && !follows {
            self.screen.print_group_separator()?;
        }
        self.has_printed = true;
        progress.printed = number;
        progress.kept.clear();
        Ok(())
    }

    // Prints the result of a file.
    fn end(&mut self, progress: &Progress<'_>) -> Result<(), Failure> {
        self.clear()?;
        self.tally.selected = self.tally.selected.saturating_add(progress.selected);
        if progress.is_hidden && self.options.prints_lines() {
            self.print_message(progress.name, &"binary file matches")?;
        }
        Ok(self.screen.end(progress.name, progress.selected)?)
    }
}

// Numbers of lines in ascending order.
#[derive(Drop)]
struct AscendingLineNumbers<'n> {
    numbers: &'n [u64],
    at: usize,
}

impl<'n> AscendingLineNumbers<'n> {
    fn new(numbers: &'n [u64]) -> AscendingLineNumbers<'n> {
        AscendingLineNumbers { numbers, at: 0 }
    }

    // Checks whether the next number is this one, and if so, takes it.
    fn takes(&mut self, number: u64) -> bool {
        let is_next = self.numbers.get(self.at) == Some(&number);
        if is_next {
            self.at = self.at.saturating_add(1);
        }
        is_next
    }
}

// Returns the bytes of a line: `raw` if it is given, and otherwise those of `line`.
fn raw_or_text_bytes<'t>(line: &'t str, raw: Option<&'t [u8]>) -> &'t [u8] {
    match raw {
        Some(raw) => raw,
        None => line.as_bytes(),
    }
}

fn number_of_line(line: Option<&Line<'_>>) -> Option<u64> {
    match line {
        Some(line) => Some(line.number),
        None => None,
    }
}

fn is_directory(rt: &HostRuntime, name: &str) -> bool {
    match fs::metadata(rt, name) {
        Ok(metadata) => metadata.is_dir(),
        Err(_) => false,
    }
}

// Checks whether lines of several files may be printed, so that file names are printed too.
fn may_be_several(rt: &HostRuntime, options: &Options<'_>) -> bool {
    match options.operands.as_slice() {
        [only] => options.is_recursive && (only.name.is_empty() || is_directory(rt, only.name)),
        _ => true,
    }
}
