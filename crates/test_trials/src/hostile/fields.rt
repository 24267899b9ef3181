//! The fields of rows, without allocations.

/// The remaining fields of a row, separated by `~`.
#[derive(Clone, Copy)]
pub struct Fields<'a> {
    rest: &'a str,
}

impl<'a> Fields<'a> {
    pub fn of(line: &'a str) -> Self {
        Fields { rest: line }
    }

    /// Returns the next field. After the last field, returns the last field again.
    pub fn next(&mut self) -> &'a str {
        let (field, rest) = self.rest.split_once('~').unwrap_or((self.rest, self.rest));
        self.rest = rest;
        field
    }
}
