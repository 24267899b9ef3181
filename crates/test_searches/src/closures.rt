//! Replacements by closures.

use crate::patterns::{refusal, regex_of};
use crate::rows::{Row, compare};
use regress_match::{Match, Regex, ReplaceError};
use std::alloc::{AllocError, Global};
use std::cell::Cell;

// Rows of five fields: a pattern, a text, which matches are replaced, the kind of closure, and the
// number of its calls with the new text. The closure returns for a matched number: `twice` the
// number; `tenfold` the number in brackets; with `below ten`, `x` for those and an error for
// others; with `which call`, the number of the call.
pub const CLOSURES: &str = r#"\d+~Price: $123~first~twice~1 Price: $246
\d+~1, or 4~first~twice~1 2, or 4
\d+~none~first~twice~0 none
\d+~none~all~twice~0 none
\d+~Items: 5, 10, 15~all~tenfold~3 Items: [50], [100], [150]
\d+~Items: 5, 10, 15~first~tenfold~1 Items: [50], 10, 15
\d+~Items: 5, 10, 15~all~below ten~2 refused 10
\d+~1, 2, 3~all~below ten~3 x, x, x
\d+~x 12~first~below ten~1 refused 12
\d+~5, 12~first~below ten~1 x, 12
\d+~5, 5, 7~all~which call~3 #1, #2, #3
\d+~5, 5, 7~first~which call~1 #1, 5, 7
\d*~5a~all~which call~3 #1#2a#3
\d+~12, 13~all~below ten~1 refused 12
"#;

// Returns the number that a text is; 0 if it is none.
fn number_of(text: &str, found: &Match) -> u32 {
    let (start, end) = (found.start(), found.end());
    if start <= end && text.is_char_boundary(start) && text.is_char_boundary(end) {
        found.as_str(text).parse::<u32>().unwrap_or(0)
    } else {
        0
    }
}

// Returns what the closure returns for a number at this call.
fn closure_result_for_call(
    alloc: Global,
    call: u32,
    number: u32,
    answers: &str,
) -> Result<String, u32> {
    let answer = match answers {
        "twice" => format!(in alloc; "{}", number.wrapping_mul(2)),
        "tenfold" => format!(in alloc; "[{}]", number.wrapping_mul(10)),
        "which call" => format!(in alloc; "#{call}"),
        _ if number < 10 => String::from_str(alloc, "x"),
        _ => return Err(number),
    };
    answer.map_err(|_| number)
}

// Returns the result of replacing the first match, or each one for `all`, and the number of calls
// of the closure.
fn replaced(
    alloc: Global,
    re: &Regex,
    text: &str,
    which: &str,
    answers: &str,
) -> (u32, Result<String, ReplaceError<u32>>) {
    let calls = Cell::new(0u32);
    let answer = |found: &Match| {
        let call = calls.get().wrapping_add(1);
        calls.set(call);
        closure_result_for_call(alloc, call, number_of(text, found), answers)
    };
    let made = match which {
        "all" => re.replace_all_with(text, answer),
        _ => re.replace_with(text, answer),
    };
    (calls.get(), made)
}

fn write_replacement_outcome(
    line: &mut String,
    calls: u32,
    made: Result<String, ReplaceError<u32>>,
) -> Result<(), AllocError> {
    match made {
        Ok(text) => write!(line, "{calls} {text}"),
        Err(ReplaceError::Closure(number)) => write!(line, "{calls} refused {number}"),
        Err(ReplaceError::Search(_)) => line.push_str("no memory"),
    }
}

// Writes the result for an optimized pattern, or for one that is not optimized.
fn write_replaced(
    alloc: Global,
    line: &mut String,
    fields: [&str; 4],
    no_opt: bool,
) -> Result<(), AllocError> {
    let [pattern, text, which, answers] = fields;
    match regex_of(alloc, pattern, "", no_opt) {
        Ok(re) => {
            let (calls, made) = replaced(alloc, &re, text, which, answers);
            write_replacement_outcome(line, calls, made)
        }
        Err(error) => line.push_str(refusal(&error)),
    }
}

pub fn check_closure_row(
    alloc: Global,
    differing: &mut String,
    row: Row<'_>,
) -> Result<(), AllocError> {
    let fields: Vec<&str> = row.asked.split('~').collect(alloc)?;
    let [pattern, text, which, answers] = *fields.as_slice() else {
        return compare(differing, row, "other than five fields", "");
    };
    for no_opt in [false, true] {
        let mut found = String::new(alloc);
        write_replaced(alloc, &mut found, [pattern, text, which, answers], no_opt)?;
        compare(differing, row, &found, "")?;
    }
    Ok(())
}
