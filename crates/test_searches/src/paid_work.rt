//! Searches that pay for their work before they do it.

use crate::lines::write_found;
use crate::rows::{Row, compare};
use crate::starts::is_start;
use crate::work_limits::write_all;
use regress_match::exec::WorkLimitedProducer;
use regress_match::{MatchAndNext, Regex, SearchError, next_from};
use std::alloc::Global;

// Rows of a pattern, a text, the work that may be done, the start unless it is 0, and the matches
// with the work that is left. The costs were calculated by hand: one unit for an operation, for a
// character that a char loop tries, for a code unit that a backreference compares, for a resumed
// choice point, and for a code unit that is skipped. An exit of a greedy loop, an arm or a lookahead
// that the next unit excludes costs nothing. After a failed attempt, the positions in a leading loop
// are skipped. So are those before the last unit that no match reads before its goal (`,`), in half
// as many units as units of work were paid.
pub const PAID_WORK: &str = r"a~ba~0~limit, 0 left
a~ba~2~limit, 0 left
a~ba~3~1..2, 0 left
a~ba~4~1..2, 1 left
a~ba~18446744073709551615~1..2, 18446744073709551612 left
x~aaaa~3~limit, 0 left
x~aaaa~4~, 0 left
x~aaaa~5~, 1 left
b~aaab~4~limit, 0 left
b~aaab~5~3..4, 0 left
^b~aaaa~1~limit, 0 left
^b~aaaa~2~, 0 left
a*b~aab~5~limit, 0 left
a*b~aab~6~0..3, 0 left
a*b~aab~7~0..3, 1 left
a+b~aaac~7~limit, 0 left
a+b~aaac~8~, 0 left
a+b~aacab~10~limit, 0 left
a+b~aacab~11~3..5, 0 left
\w+,~aaaaaaaa a a a,~26~limit, 0 left
\w+,~aaaaaaaa a a a,~27~13..15, 0 left
ab|ac~ac~6~limit, 0 left
ab|ac~ac~7~0..2, 0 left
a*?b~ab~5~limit, 0 left
a*?b~ab~6~0..2, 0 left
a.*?b~axxxb~10~limit, 0 left
a.*?b~axxxb~11~0..5, 0 left
a(.*?)b~axxxb~15~limit, 0 left
a(.*?)b~axxxb~16~0..5 1..4, 0 left
(a)\1~aa~4~limit, 0 left
(a)\1~aa~5~limit, 0 left
(a)\1~aa~6~0..2 0..1, 0 left
(?=ab)a~ab~5~limit, 0 left
(?=ab)a~ab~6~0..1; limit, 0 left
(?=ab)a~ab~7~0..1, 0 left
a*~ba~3~1~limit, 0 left
a*~ba~6~1~1..2; limit, 0 left
a*~ba~7~1~1..2; 2..2, 0 left
a*~ba~0~3~, 0 left
";

// Rows of a pattern, an encoding of 16-bit units or `both`, a text, the work that may be done, and
// the matches from offset 0 on with the work that is left. The costs are those of `PAID_WORK`. A
// character outside the Basic Multilingual Plane is two code units.
pub const PAID_WORK_IN_UNITS: &str = r"a~both~ba~2~limit, 0 left
a~both~ba~3~1..2, 0 left
a*b~both~aab~5~limit, 0 left
a*b~both~aab~6~0..3, 0 left
(a)\1~both~aa~5~limit, 0 left
(a)\1~both~aa~6~0..2 0..1, 0 left
(a)\1~both~aa~7~0..2 0..1, 1 left
ab|ac~both~ac~6~limit, 0 left
ab|ac~both~ac~7~0..2, 0 left
x~both~😀x~3~limit, 0 left
x~both~😀x~4~2..3, 0 left
.x~utf16~😀x~2~limit, 0 left
.x~utf16~😀x~3~0..3, 0 left
.x~ucs2~😀x~4~limit, 0 left
.x~ucs2~😀x~5~1..3, 0 left
";

// Writes what `next_from` returned within a work limit: the first match, if there is one, or the
// limit, if the search reached it.
fn write_first_match(
    line: &mut String,
    first: Result<Option<MatchAndNext>, SearchError>,
    is_limit_reached: bool,
) -> Result<(), SearchError> {
    match first {
        Ok(Some(step)) => Ok(write_found(line, &step.found)?),
        Ok(None) => Ok(()),
        Err(_) if is_limit_reached => Ok(line.push_str("limit")?),
        Err(error) => Err(error),
    }
}

// Returns the first item that a row wants, or an empty text if it wants none.
fn first_wanted_item<'a>(row: Row<'a>) -> &'a str {
    let (items, _) = row.wanted.split_once(',').unwrap_or((row.wanted, ""));
    let (first, _) = items.split_once(';').unwrap_or((items, ""));
    first
}

// A search from an offset on, and the work that it may do.
#[derive(Clone, Copy)]
struct Search {
    start: usize,
    work: u64,
}

fn check_bytes(
    alloc: Global,
    differing: &mut String,
    row: Row<'_>,
    re: &Regex,
    text: &str,
    search: Search,
) -> Result<(), SearchError> {
    let Search { start, work } = search;
    if !is_start(text, start) {
        return Ok(compare(differing, row, "no start", "")?);
    }
    if !text.is_ascii() {
        return Ok(compare(differing, row, "no text of ASCII", "")?);
    }
    let mut found = String::new(alloc);
    write_all(&mut found, re.find_from_in_work(text, start, work)?)?;
    compare(differing, row, &found, "")?;
    let mut found = String::new(alloc);
    write_all(&mut found, re.find_from_ascii_in_work(text, start, work)?)?;
    compare(differing, row, &found, "in ASCII")?;
    let mut found = String::new(alloc);
    let mut executor = re.utf8_search_in_work(text, work)?;
    let first = next_from(&mut executor, start);
    write_first_match(&mut found, first, executor.is_work_exhausted())?;
    let wanted = first_wanted_item(row);
    Ok(compare(differing, Row { wanted, ..row }, &found, "by next_from")?)
}

fn check_utf16(
    alloc: Global,
    differing: &mut String,
    row: Row<'_>,
    re: &Regex,
    units: &[u16],
    work: u64,
) -> Result<(), SearchError> {
    let mut found = String::new(alloc);
    write_all(&mut found, re.find_from_utf16_in_work(units, 0, work)?)?;
    compare(differing, row, &found, "in UTF-16")?;
    let mut found = String::new(alloc);
    let mut executor = re.utf16_search_in_work(units, work)?;
    let first = next_from(&mut executor, 0);
    write_first_match(&mut found, first, executor.is_work_exhausted())?;
    let wanted = first_wanted_item(row);
    Ok(compare(
        differing,
        Row { wanted, ..row },
        &found,
        "in UTF-16, by next_from",
    )?)
}

fn check_ucs2(
    alloc: Global,
    differing: &mut String,
    row: Row<'_>,
    re: &Regex,
    units: &[u16],
    work: u64,
) -> Result<(), SearchError> {
    let mut found = String::new(alloc);
    write_all(&mut found, re.find_from_ucs2_in_work(units, 0, work)?)?;
    compare(differing, row, &found, "in UCS-2")?;
    let mut found = String::new(alloc);
    let mut executor = re.ucs2_search_in_work(units, work)?;
    let first = next_from(&mut executor, 0);
    write_first_match(&mut found, first, executor.is_work_exhausted())?;
    let wanted = first_wanted_item(row);
    Ok(compare(
        differing,
        Row { wanted, ..row },
        &found,
        "in UCS-2, by next_from",
    )?)
}

pub fn check_paid_work(
    alloc: Global,
    differing: &mut String,
    row: Row<'_>,
) -> Result<(), SearchError> {
    let fields: Vec<&str> = row.asked.split('~').collect(alloc)?;
    let (pattern, text, work, start) = match *fields.as_slice() {
        [pattern, text, work] => (pattern, text, work, "0"),
        [pattern, text, work, start] => (pattern, text, work, start),
        _ => return Ok(compare(differing, row, "other than four or five fields", "")?),
    };
    let Ok(re) = Regex::new(alloc, pattern) else {
        return Ok(compare(differing, row, "no pattern", "")?);
    };
    let search = Search {
        start: start.parse::<usize>().unwrap_or(0),
        work: work.parse::<u64>().unwrap_or(0),
    };
    check_bytes(alloc, differing, row, &re, text, search)
}

pub fn check_paid_work_in_units(
    alloc: Global,
    differing: &mut String,
    row: Row<'_>,
) -> Result<(), SearchError> {
    let fields: Vec<&str> = row.asked.split('~').collect(alloc)?;
    let [pattern, encoding, text, work] = *fields.as_slice() else {
        return Ok(compare(differing, row, "other than five fields", "")?);
    };
    let Ok(re) = Regex::new(alloc, pattern) else {
        return Ok(compare(differing, row, "no pattern", "")?);
    };
    let units: Vec<u16> = text.encode_utf16().collect(alloc)?;
    let work = work.parse::<u64>().unwrap_or(0);
    if encoding != "ucs2" {
        check_utf16(alloc, differing, row, &re, &units, work)?;
    }
    if encoding != "utf16" {
        check_ucs2(alloc, differing, row, &re, &units, work)?;
    }
    Ok(())
}
