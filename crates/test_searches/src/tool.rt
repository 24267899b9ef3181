//! Runs of the program.

use crate::rows::{Row, compare};
use regress_match::command_line::run;
use std::alloc::{AllocError, Global};
use std::io;
use std::io::Write;

// Rows: the number of writes to the output and to the errors that succeed, the arguments, each a
// field, and the exit status with the texts written. `-` stands for any number of writes, `␀` for
// an argument that is not UTF-8.
pub const RUNS: &str = r#"-- a|ab~~abc~0 "0..1\n" ""
-- ab|a~~aab~0 "0..1\n1..3\n" ""
-- ~~ab~0 "0..0\n1..1\n2..2\n" ""
-- ~~~0 "0..0\n" ""
-- é~~aé~0 "1..3\n" ""
-- z~~abc~1 "" ""
-- a*~~a~0 "0..1\n1..1\n" ""
-- (a)|b~~ab~0 "0..1 0..1\n1..2 -\n" ""
-- (~~~2 "" "(\n^ unclosed group\n"
-- --es2018~\101|(?=a)*b~~Ab~0 "0..1\n1..2\n" ""
-- --es2018~(~~~2 "" "(\n^ unclosed group\n"
-- a~ig~a~2 "" "unknown flag: g (flags are i, m, s, u and v)\n"
-- --es2018~a~y~a~2 "" "unknown flag: y (flags are i, m, s, u and v)\n"
-- --es2018~~--es2018~0 "0..8\n" ""
-- --es2019~a~~a~2 "" "usage: regress-tool [--es2018] PATTERN FLAGS TEXT\n"
-- --es2018~a~~␀~2 "" "usage: regress-tool [--es2018] PATTERN FLAGS TEXT\n"
-- a~2 "" "usage: regress-tool [--es2018] PATTERN FLAGS TEXT\n"
-- a~~a~a~2 "" "usage: regress-tool [--es2018] PATTERN FLAGS TEXT\n"
-- a~~␀~2 "" "usage: regress-tool [--es2018] PATTERN FLAGS TEXT\n"
0- a~~aaa~2 "cut" ""
1- a~~aaa~2 "cut" ""
2- a~~aaa~2 "cut" ""
5- a~~aaa~2 "cut" ""
-0 (~~~2 "" "cut"
"#;

// A writer whose first writes succeed. It counts all writes.
#[derive(Drop)]
struct FailingWriter {
    taken: Vec<u8>,
    good: usize,
    tried: usize,
}

impl FailingWriter {
    fn new(alloc: Global, good: u8) -> FailingWriter {
        FailingWriter {
            taken: Vec::new(alloc),
            good: match good {
                b'0'..=b'9' => usize::from(good - b'0'),
                _ => usize::MAX,
            },
            tried: 0,
        }
    }

    // Returns the text, which a failed write cuts off.
    fn text(&self) -> &str {
        if self.tried <= self.good {
            return str::from_utf8(&self.taken).unwrap_or("no UTF-8");
        }
        if self.tried - self.good == 1 && b"0..1\n1..2\n2..3\n".starts_with(&self.taken) {
            "cut"
        } else {
            "more behind a failed write"
        }
    }
}

impl Write for FailingWriter {
    fn write(&mut self, buf: &[u8]) -> io::Result<usize> {
        self.tried = self.tried.saturating_add(1);
        if self.good < self.tried {
            return Err(io::Error::from(io::ErrorKind::BrokenPipe));
        }
        self.taken.extend_from_slice(buf)?;
        Ok(buf.len())
    }

    fn flush(&mut self) -> io::Result<()> {
        Ok(())
    }
}

// Returns the arguments as the program takes them.
fn arguments_of_row(alloc: Global, texts: &str) -> Result<Vec<Option<String>>, AllocError> {
    let mut words = Vec::new(alloc);
    for text in texts.split('~') {
        let word = if text == "␀" {
            None
        } else {
            Some(String::from_str(alloc, text)?)
        };
        words.push(word)?;
    }
    Ok(words)
}

// Returns the exit status and the texts that the program writes.
fn run_with_failing_outputs(alloc: Global, goods: &str, words: &str) -> Result<String, AllocError> {
    let [good_out, good_err] = *goods.as_bytes() else {
        return String::from_str(alloc, "not two numbers");
    };
    let mut out = FailingWriter::new(alloc, good_out);
    let mut err = FailingWriter::new(alloc, good_err);
    let status = run(alloc, &arguments_of_row(alloc, words)?, &mut out, &mut err);
    let printed = out.text();
    let told = err.text();
    format!(in alloc; "{status} {printed:?} {told:?}")
}

pub fn check_run(alloc: Global, differing: &mut String, row: Row<'_>) -> Result<(), AllocError> {
    let (goods, words) = row.asked.split_once(' ').unwrap_or((row.asked, ""));
    let found = run_with_failing_outputs(alloc, goods, words)?;
    compare(differing, row, &found, "")
}
