//! Runs the body of `regress-tool`, with outputs that do not allocate.

use crate::fault::ParseFault;
use crate::hostile::fields::Fields;
use regress_match::command_line;
use std::alloc::{AllocError, Global};
use std::io;
use std::io::Write;

/// The maximum number of bytes of an output.
const MOST: usize = 128;

// What was written, as far as it fits. `;` stands for a line feed.
#[derive(Drop)]
struct Page {
    bytes: [u8; MOST],
    len: usize,
}

impl Page {
    fn new() -> Self {
        Page {
            bytes: [0; MOST],
            len: 0,
        }
    }

    fn written(&self) -> &[u8] {
        self.bytes.get(..self.len).unwrap_or(&[])
    }

    // Appends a byte.
    fn put(&mut self, byte: u8) -> io::Result<()> {
        let place = self
            .bytes
            .get_mut(self.len)
            .ok_or(io::Error::from(io::ErrorKind::WriteZero))?;
        *place = if byte == b'\n' { b';' } else { byte };
        self.len = self.len.saturating_add(1);
        Ok(())
    }
}

impl Write for Page {
    fn write(&mut self, buf: &[u8]) -> io::Result<usize> {
        for byte in buf {
            self.put(*byte)?;
        }
        Ok(buf.len())
    }

    fn flush(&mut self) -> io::Result<()> {
        Ok(())
    }
}

fn words_of(alloc: Global, texts: [&str; 3]) -> Result<Vec<Option<String>>, AllocError> {
    let mut words = Vec::new(alloc);
    for text in texts {
        words.push(Some(String::from_str(alloc, text)?))?;
    }
    Ok(words)
}

// Checks whether these are whole lines, and a prefix of the expected output.
fn is_prefix_of_whole_lines(printed: &[u8], wanted: &str) -> bool {
    let whole = printed.is_empty() || printed.ends_with(b";");
    whole && wanted.as_bytes().starts_with(printed)
}

/// Checks whether the program has the expected exit status and outputs. If an allocation fails, it
/// reports this after a prefix of the expected lines.
pub fn is_tool_run_as_expected(alloc: Global, line: &str) -> Result<bool, ParseFault> {
    let mut fields = Fields::of(line);
    let words = words_of(alloc, [fields.next(), fields.next(), fields.next()])?;
    let (status, printed, told) = (fields.next(), fields.next(), fields.next());
    let mut out = Page::new();
    let mut err = Page::new();
    let got = command_line::run(alloc, &words, &mut out, &mut err);
    if err.written() == b"out of memory;".as_slice() {
        return Err(if got == 2 && is_prefix_of_whole_lines(out.written(), printed) {
            ParseFault::Refused
        } else {
            ParseFault::Wrong
        });
    }
    let answered = status.parse::<u8>() == Ok(got);
    Ok(answered && out.written() == printed.as_bytes() && err.written() == told.as_bytes())
}
