//! Matches at many offsets of padded texts. They are tested because a search scans many units at
//! once, and scans long texts in another way than short ones.

use crate::calls::SearchCall;
use crate::patterns::{refusal, regex_of};
use crate::rows::{Row, compare};
use crate::search_methods::PLANNED_METHODS;
use crate::searches::{Search, check_methods, push_text};
use regress_match::{Regex, SearchError};
use std::alloc::{AllocError, Global};

// Rows of five fields: a pattern, the letters of its flags, the filler, two pieces, and all
// matches. The text is filler, the first piece, filler, and the second piece. One of the two
// fillers is repeated as often as each of `COUNTS` says, the other at most twice. A digit in the
// matches is an offset from the beginning of a piece, `a` or `b`.
pub const PADDED_TEXTS: &str = r#"needle~~x~needle needle~a0..6; b0..6
ne~~x~ne ne~a0..2; b0..2
jake~~x~jake jake~a0..4; b0..4
Needle~i~x~nEEDLE NEEDLe~a0..6; b0..6
jab|jac~~x~jab jac~a0..3; b0..3
[jq]k~~x~jk qk~a0..2; b0..2
[jq]k~~jq-~jk qk~a0..2; b0..2
#\d~~#~#7 ##8~a0..2; b1..3
Needle~~N~Needle Needle~a0..6; b0..6
\d{3}~~x~123 456~a0..3; b0..3
\d+~~x~12 4~a0..2; b0..1
q~~x~q q~a0..1; b0..1
[^x]~~x~q -~a0..1; b0..1
\w+@~~-~j@ jk@~a0..2; b0..3
\w+@~~k.@~j@ jk@~a0..2; b0..3
\w+@\d~~j@~j@7 jk@8~a0..3; b0..4
\w+(?=,)~~k~-j, -jk,~a1..2; b1..3
[^.@]+@~~é.@~é@ jé@~a0..3; b0..4
\bq~~-~q q~a0..1; b0..1
(?<=j)k~~x~jk jk~a1..2; b1..2
(?<=jk)q~~x~jkq jkq~a2..3; b2..3
^k~m~x~␤k ␤k~a1..2; b1..2
q$~~x~q q~b0..1
j[^k]*k~~x~j k~a0..b1
j.*k~~x~j k~a0..b1
j.*?k~~x~j k~a0..b1
jx*k~~x~j k~a0..b1
(j)x*?\1~~x~j j~a0..b1 a0..1
j(?:(?=(?:(x)|(-))*(k))x*q|(x*)k)~~x~j k~a0..b1 - - - a1..b0
needle~~é~needle needle~a0..6; b0..6
\d{3}~~€~123 456~a0..3; b0..3
\d+~~€~12 4~a0..2; b0..1
\d+|$~~€~12 4~a0..2; b0..1; b1..1
[а-я]+~~é~я аб~a0..2; b0..4
[^é]~~é~q €~a0..1; b0..3
(?<=я)k~~é~яk яk~a2..3; b2..3
^k~m~€~␤k ␤k~a1..2; b1..2
j.*k~~é~j k~a0..b1
j.*?k~~é~j k~a0..b1
j[^k]*k~~€~j k~a0..b1
jé*k~~é~j k~a0..b1
"#;

// Numbers of repetitions around 8, 16, 32, 48 and 64, and around 1,024 remaining units.
const COUNTS: [usize; 18] = [
    1, 4, 5, 7, 8, 15, 16, 17, 31, 32, 33, 48, 64, 65, 1017, 1018, 1022, 1023,
];

// The fields of a row after its flags.
#[derive(Clone, Copy)]
struct PaddedRow<'a> {
    row: Row<'a>,
    filler: &'a str,
    first: &'a str,
    second: &'a str,
}

// A text, and the offsets of its two pieces.
#[derive(Drop)]
struct Filled {
    text: String,
    first: usize,
    second: usize,
}

fn fill(text: &mut String, filler: &str, count: usize) -> Result<(), AllocError> {
    for _ in 0..count {
        text.push_str(filler)?;
    }
    Ok(())
}

fn made(
    alloc: Global,
    padded: PaddedRow<'_>,
    before: usize,
    between: usize,
) -> Result<Filled, AllocError> {
    let mut text = String::new(alloc);
    fill(&mut text, padded.filler, before)?;
    let first = text.len();
    push_text(&mut text, padded.first)?;
    fill(&mut text, padded.filler, between)?;
    let second = text.len();
    push_text(&mut text, padded.second)?;
    Ok(Filled {
        text,
        first,
        second,
    })
}

// Writes the expected matches of a row with their offsets in the text.
fn write_expected_matches(
    line: &mut String,
    words: &str,
    filled: &Filled,
) -> Result<(), AllocError> {
    let mut piece = 0;
    for c in words.chars() {
        match c {
            'a' => piece = filled.first,
            'b' => piece = filled.second,
            '0'..='9' => write!(line, "{}", piece.wrapping_add(c as usize - '0' as usize))?,
            _ => line.push(c)?,
        }
    }
    Ok(())
}

fn check_text(
    alloc: Global,
    differing: &mut String,
    re: &Regex,
    padded: PaddedRow<'_>,
    filled: &Filled,
) -> Result<(), SearchError> {
    let mut wanted = String::new(alloc);
    write_expected_matches(&mut wanted, padded.row.wanted, filled)?;
    let search = Search {
        pattern: "",
        flags: "",
        text: &filled.text,
        asked: SearchCall::All,
    };
    let row = Row {
        asked: padded.row.asked,
        wanted: &wanted,
    };
    check_methods(alloc, differing, row, re, &search, &PLANNED_METHODS)
}

// Checks the texts with `count` fillers before one piece and at most two before the other.
fn check_filler_count(
    alloc: Global,
    differing: &mut String,
    re: &Regex,
    padded: PaddedRow<'_>,
    count: usize,
) -> Result<(), SearchError> {
    for few in [0usize, 1] {
        let late = made(alloc, padded, count, few.saturating_add(1))?;
        check_text(alloc, differing, re, padded, &late)?;
        let early = made(alloc, padded, few, count)?;
        check_text(alloc, differing, re, padded, &early)?;
    }
    Ok(())
}

fn check_counts(
    alloc: Global,
    differing: &mut String,
    re: &Regex,
    padded: PaddedRow<'_>,
) -> Result<(), SearchError> {
    for count in COUNTS {
        check_filler_count(alloc, differing, re, padded, count)?;
    }
    Ok(())
}

pub fn check_padded_text(
    alloc: Global,
    differing: &mut String,
    row: Row<'_>,
) -> Result<(), SearchError> {
    let fields: Vec<&str> = row.asked.split('~').collect(alloc)?;
    let [pattern, flags, filler, pieces] = *fields.as_slice() else {
        return Ok(compare(differing, row, "other than five fields", "")?);
    };
    let (first, second) = pieces.split_once(' ').unwrap_or((pieces, ""));
    let padded = PaddedRow {
        row,
        filler,
        first,
        second,
    };
    for no_opt in [false, true] {
        match regex_of(alloc, pattern, flags, no_opt) {
            Ok(re) => check_counts(alloc, differing, &re, padded)?,
            Err(error) => compare(differing, row, refusal(&error), "")?,
        }
    }
    Ok(())
}
