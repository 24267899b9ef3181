//! Searches within a work budget.

ghost use Rattle.std.specs.Prelude.{IsAscii};

use crate::lines::write_found;
use crate::rows::{Row, compare};
use crate::starts::is_start;
use regress_match::exec::{SearchError, WorkLimitedProducer, WorkMatches};
use regress_match::{BoundedRegex, Regex, Unbounded, WorkError, is_unit_boundary};
use std::alloc::Global;

// Rows of six fields: a pattern, `bytes` or `units` for the texts to search, an ASCII text, a
// start, the work budget, and the matches with the work that is left. `limit` follows the matches
// if the budget is used up, and the answer is the reason if no bound is known. Up to `(a|b)*c`, the
// first stage completes the search, and the costs were calculated by hand (as in `paid_work`). The
// second stage completes those of texts of five or more units.
pub const WORK_LIMITS: &str = r"a~bytes~ba~0~0~limit, 0 left
a~bytes~ba~0~1~limit, 0 left
a~bytes~ba~0~2~limit, 0 left
a~bytes~ba~0~3~1..2, 0 left
a~bytes~ba~0~4~1..2, 1 left
a~bytes~ba~0~18446744073709551615~1..2, 18446744073709551612 left
a~bytes~ba~1~1~limit, 0 left
a~bytes~ba~1~2~1..2, 0 left
a~bytes~ba~2~0~, 0 left
a~bytes~ba~3~0~, 0 left
a~units~ba~0~2~limit, 0 left
a~units~ba~0~3~1..2, 0 left
a~units~ba~0~18446744073709551615~1..2, 18446744073709551612 left
a~units~ba~1~1~limit, 0 left
a~units~ba~1~2~1..2, 0 left
a~units~ba~2~0~, 0 left
a~units~ba~3~0~, 0 left
a*b~bytes~aab~0~0~limit, 0 left
a*b~bytes~aab~0~5~limit, 0 left
a*b~bytes~aab~0~6~0..3, 0 left
a*b~bytes~aab~0~18446744073709551615~0..3, 18446744073709551609 left
a*b~bytes~aa~0~4~limit, 0 left
a*b~bytes~aa~0~5~, 0 left
.*?x~bytes~ax~0~5~limit, 0 left
.*?x~bytes~ax~0~6~0..2, 0 left
a|b~units~cb~0~3~limit, 0 left
a|b~units~cb~0~4~1..2, 0 left
a|b~bytes~cb~0~3~limit, 0 left
a|b~bytes~cb~0~4~1..2, 0 left
a{2,3}~bytes~aaaa~0~5~0..3; limit, 0 left
a{2,3}~bytes~aaaa~0~6~0..3, 0 left
a??b~bytes~ab~0~5~limit, 0 left
a??b~bytes~ab~0~6~0..2, 0 left
[b]c~bytes~aabbc~0~5~limit, 0 left
[b]c~bytes~aabbc~0~6~3..5, 0 left
(a|b)*c~bytes~abc~0~15~limit, 0 left
(a|b)*c~bytes~abc~0~16~0..3 1..2, 0 left
(a|b)*c~units~abc~0~15~limit, 0 left
(a|b)*c~units~abc~0~16~0..3 1..2, 0 left
(a*)*b~bytes~aa~0~32~limit, 0 left
(a*)*b~bytes~aa~0~33~, 0 left
(a*)*b~bytes~aa~0~18446744073709551615~, 18446744073709551582 left
(a*)*b~units~aa~0~32~limit, 0 left
(a*)*b~units~aa~0~33~, 0 left
(a*)*b~units~aa~0~18446744073709551615~, 18446744073709551582 left
(?:a|a)*b~bytes~aa~0~43~limit, 0 left
(?:a|a)*b~bytes~aa~0~44~, 0 left
(?:a|a)*b~bytes~aa~0~18446744073709551615~, 18446744073709551571 left
(?:a|a)*b~units~aa~0~43~limit, 0 left
(?:a|a)*b~units~aa~0~44~, 0 left
(?:a|a)*b~units~aa~0~18446744073709551615~, 18446744073709551571 left
(?:a|a)*b~bytes~aaaaa~0~184~limit, 0 left
(?:a|a)*b~bytes~aaaaa~0~185~, 0 left
(?:a|a)*b~bytes~aaaaa~0~18446744073709551615~, 18446744073709551430 left
(?:a|a)*b~units~aaaaa~0~184~limit, 0 left
(?:a|a)*b~units~aaaaa~0~185~, 0 left
(?:a|a)*b~units~aaaaa~0~18446744073709551615~, 18446744073709551430 left
(a*)*b~bytes~aaaaaa~0~266~limit, 0 left
(a*)*b~bytes~aaaaaa~0~267~, 0 left
(a*)*b~bytes~aaaaaa~0~18446744073709551615~, 18446744073709551348 left
(a*)*b~units~aaaaaa~0~263~limit, 0 left
(a*)*b~units~aaaaaa~0~264~, 0 left
(a*)*b~units~aaaaaa~0~18446744073709551615~, 18446744073709551351 left
(?:a|a)*b|a~bytes~aaaaaaaa~0~307~0..1; 1..2; 2..3; 3..4; 4..5; 5..6; 6..7; 7..8; limit, 0 left
(?:a|a)*b|a~bytes~aaaaaaaa~0~308~0..1; 1..2; 2..3; 3..4; 4..5; 5..6; 6..7; 7..8, 0 left
(?:a|a)*b|a~units~aaaaaaaa~0~307~0..1; 1..2; 2..3; 3..4; 4..5; 5..6; 6..7; 7..8; limit, 0 left
(?:a|a)*b|a~units~aaaaaaaa~0~308~0..1; 1..2; 2..3; 3..4; 4..5; 5..6; 6..7; 7..8, 0 left
(?=a)b~bytes~b~0~0~limit, 0 left
(?=a)b~bytes~b~0~1~, 0 left
(?<!a)b~units~b~0~3~limit, 0 left
(?<!a)b~units~b~0~4~0..1, 0 left
(?=(a))a~bytes~a~0~6~limit, 0 left
(?=(a))a~bytes~a~0~7~0..1 0..1, 0 left
(?<=a)b~bytes~ab~0~5~limit, 0 left
(?<=a)b~bytes~ab~0~6~1..2, 0 left
(?<=a|bc)b~bytes~bcb~0~14~limit, 0 left
(?<=a|bc)b~bytes~bcb~0~15~2..3, 0 left
(?:a(?=a)|a(?!b))*b~bytes~aaaaaa~0~243~limit, 0 left
(?:a(?=a)|a(?!b))*b~bytes~aaaaaa~0~244~, 0 left
(?:a(?=a)|a(?!b))*b~units~aaaaaa~0~243~limit, 0 left
(?:a(?=a)|a(?!b))*b~units~aaaaaa~0~244~, 0 left
(?:a(?=(a))|a)*b~bytes~aaaaaa~0~249~limit, 0 left
(?:a(?=(a))|a)*b~bytes~aaaaaa~0~250~, 0 left
(?:a(?<=(a))|a)*b~units~aaaaaa~0~253~limit, 0 left
(?:a(?<=(a))|a)*b~units~aaaaaa~0~254~, 0 left
(?=a*)b~bytes~b~0~9~no work bound is known: a lookaround has a loop, or alternatives before its end
(?<!d(?:a|bc))b~units~b~0~9~no work bound is known: a lookaround has a loop, or alternatives before its end
(a)\1(?=b)~bytes~aab~0~9~no work bound is known: the pattern has a backreference
(\w)\1~bytes~aa~0~9~no work bound is known: the pattern has a backreference
(?:(\w)\1){0,65}~units~aa~0~9~no work bound is known: the pattern has a backreference
(?:(?:a{0,9}){0,9}b){0,9}~units~aa~0~9~no work bound is known: counts are too large, or loops are nested too deeply
(?:a|a){0,65}~bytes~aa~0~9~no work bound is known: counts are too large, or loops are nested too deeply
(?:(?:(?:(?:(?:a|b)+)+)+)+)+~bytes~aa~0~9~no work bound is known: counts are too large, or loops are nested too deeply
a{0,65536}b~bytes~aa~0~9~no work bound is known: counts are too large, or loops are nested too deeply
a{2147483648,}b~units~aa~0~9~no work bound is known: counts are too large, or loops are nested too deeply
.+?.+?.+?.+?.+?.+?.+?.+?.+?.+?.+?.+?~bytes~aa~0~9~no work bound is known: the bound is too large, or lookarounds are nested too deeply
.+?.+?.+?.+?.+?.+?.+?.+?.+?.+?.+?.+?.+?.+?.+?.+?.+?.+?.+?.+?.+?.+?.+?.+?.+?.+?.+?.+?.+?.+?.+?.+?.+?.+?.+?.+?.+?.+?.+?.+?~units~aa~0~9~no work bound is known: the bound is too large, or lookarounds are nested too deeply
(?:a|b)*.+?.+?.+?.+?.+?.+?.+?.+?.+?.+?.+?.+?.+?.+?.+?.+?.+?.+?.+?.+?.+?.+?.+?.+?.+?.+?.+?.+?.+?.+?.+?.+?.+?.+?.+?.+?.+?.+?.+?.+?~bytes~aa~0~9~no work bound is known: the bound is too large, or lookarounds are nested too deeply
";

// A search, and its work budget.
#[derive(Clone, Copy)]
struct Search<'a> {
    text: &'a str,
    start: usize,
    work: u64,
}

// Writes the matches, and the work that is left.
pub fn write_all<P: WorkLimitedProducer + Drop>(
    line: &mut String,
    mut matches: WorkMatches<P>,
) -> Result<(), SearchError> {
    for item in &mut matches {
        match item {
            Ok(found) => write_found(line, &found)?,
            Err(WorkError::WorkLimit) => line.push_str(if line.is_empty() {
                "limit"
            } else {
                "; limit"
            })?,
            Err(WorkError::Memory) => return Err(SearchError::Memory),
        }
    }
    if matches.next().is_some() {
        line.push_str("; and more behind the end")?;
    }
    let left = matches.work_left();
    Ok(write!(line, ", {left} left")?)
}

fn check_bytes(
    alloc: Global,
    differing: &mut String,
    row: Row<'_>,
    bounded: &BoundedRegex<'_>,
    search: Search<'_>,
) -> Result<(), SearchError> {
    let Search { text, start, work } = search;
    if !is_start(text, start) {
        return Ok(compare(differing, row, "no start", "")?);
    }
    if !text.is_ascii() {
        return Ok(compare(differing, row, "no text of ASCII", "")?);
    }
    let mut found = String::new(alloc);
    write_all(&mut found, bounded.find_from(text, start, work)?)?;
    compare(differing, row, &found, "in UTF-8")?;
    let mut found = String::new(alloc);
    write_all(&mut found, bounded.find_from_ascii(text, start, work)?)?;
    Ok(compare(differing, row, &found, "in ASCII")?)
}

fn check_units(
    alloc: Global,
    differing: &mut String,
    row: Row<'_>,
    bounded: &BoundedRegex<'_>,
    search: Search<'_>,
) -> Result<(), SearchError> {
    let Search { text, start, work } = search;
    let units: Vec<u16> = text.encode_utf16().collect(alloc)?;
    if !is_unit_boundary(&units, start) && start <= units.len() {
        return Ok(compare(differing, row, "no start", "")?);
    }
    let mut found = String::new(alloc);
    write_all(&mut found, bounded.find_from_utf16(&units, start, work)?)?;
    compare(differing, row, &found, "in UTF-16")?;
    let mut found = String::new(alloc);
    write_all(&mut found, bounded.find_from_ucs2(&units, start, work)?)?;
    Ok(compare(differing, row, &found, "in UCS-2")?)
}

// Checks why no bound is known. The number has the same reason, unless an allocation fails.
fn check_reason(
    alloc: Global,
    differing: &mut String,
    row: Row<'_>,
    reason: Unbounded,
    number: Result<u64, Unbounded>,
) -> Result<(), SearchError> {
    if reason == Unbounded::Memory || number == Err(Unbounded::Memory) {
        return Err(SearchError::Memory);
    }
    if number != Err(reason) {
        return Ok(compare(differing, row, "another reason for the number", "")?);
    }
    let mut found = String::new(alloc);
    write!(found, "{reason}")?;
    Ok(compare(differing, row, &found, "")?)
}

pub fn check_work_limit(
    alloc: Global,
    differing: &mut String,
    row: Row<'_>,
) -> Result<(), SearchError> {
    let fields: Vec<&str> = row.asked.split('~').collect(alloc)?;
    let [pattern, kind, text, start, work] = *fields.as_slice() else {
        return Ok(compare(differing, row, "other than six fields", "")?);
    };
    let Ok(re) = Regex::new(alloc, pattern) else {
        return Ok(compare(differing, row, "no pattern", "")?);
    };
    let number = re.work_per_unit();
    let bounded = match re.bounded() {
        Ok(bounded) => bounded,
        Err(reason) => return check_reason(alloc, differing, row, reason, number),
    };
    if number == Err(Unbounded::Memory) {
        return Err(SearchError::Memory);
    }
    if number != Ok(bounded.work_per_unit()) {
        return Ok(compare(differing, row, "another number", "")?);
    }
    let search = Search {
        text,
        start: start.parse::<usize>().unwrap_or(0),
        work: work.parse::<u64>().unwrap_or(0),
    };
    if kind == "bytes" {
        check_bytes(alloc, differing, row, &bounded, search)
    } else {
        check_units(alloc, differing, row, &bounded, search)
    }
}
