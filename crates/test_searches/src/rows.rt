//! Rows of tables. Their fields are separated by `~`, and the last field is the expected answer.

use std::alloc::AllocError;

#[derive(Clone, Copy)]
pub struct Row<'a> {
    pub asked: &'a str,
    pub wanted: &'a str,
}

pub fn row_of(line: &str) -> Row<'_> {
    let (asked, wanted) = line.rsplit_once('~').unwrap_or((line, "no answer"));
    Row { asked, wanted }
}

// Adds a line to `differing` if an answer is not the expected one. The line has the row, the method
// of the search, and the answer.
pub fn compare(
    differing: &mut String,
    row: Row<'_>,
    found: &str,
    method: &str,
) -> Result<(), AllocError> {
    if found == row.wanted {
        return Ok(());
    }
    let Row { asked, wanted } = row;
    write!(differing, "{asked}~{wanted}: {found} {method}\n")
}
