//! Searches with a step limit.

ghost use Rattle.regex_meaning.specs.CodeUnitOffsets.{IsBoundaryOrPastEnd};

use crate::lines::{write_limited, write_match_if_any};
use crate::rows::{Row, compare};
use crate::starts::is_start;
use regress_match::backends::{LimitedExecutor, emit};
use regress_match::exec::{MatchProducer, Matches};
use regress_match::{Flags, Match, Regex, SearchError};
use regress_program::insn::CompiledRegex;
use std::alloc::Global;
use test_trees::tree_of;

// Rows of seven fields: a pattern, `no_opt` or nothing, a text, a start, the least and the greatest
// limit, and the matches with each limit between them. `limit` follows the matches if the limit is
// reached. For `tree` in the second field the first is a tree in words. So it is for `left`, for
// which only the first match is searched for; the number of steps left follows it.
pub const STEP_LIMITS: &str = r#"cat:2 a goal~tree~a~0~0~1~limit
cat:2 a goal~tree~a~0~2~2~0..1; limit
cat:2 a goal~tree~a~0~3~20~0..1
cat:2 alt a b goal~tree~b~0~0~4~limit
cat:2 alt a b goal~tree~b~0~5~8~0..1; limit
cat:2 alt a b goal~tree~b~0~9~20~0..1
cat:2 a goal~left~a~0~0~1~limit, 0 left
cat:2 a goal~left~a~0~2~2~0..1, 0 left
cat:2 a goal~left~a~0~3~3~0..1, 1 left
cat:2 a goal~left~a~0~20~20~0..1, 18 left
cat:2 a goal~left~a~1~0~0~limit, 0 left
cat:2 a goal~left~a~1~1~1~, 0 left
cat:2 a goal~left~a~1~3~3~, 2 left
cat:2 a goal~left~a~2~2~2~, 2 left
cat:2 alt a b goal~left~b~0~0~4~limit, 0 left
cat:2 alt a b goal~left~b~0~7~7~0..1, 2 left
cat:3 loop1:0 a a goal~left~aa~0~11~11~0..2, 3 left
cat:2 bytes:61,62 goal~left~aab~0~5~5~1..3, 3 left
cat:2 byteset:61,62 goal~left~éa€b~0~5~5~2..3, 3 left
cat:2 byteset:61,62 goal~left~éa€b~3~5~5~6..7, 3 left
cat:3 loop1:0 a a goal~tree~aa~0~0~7~limit
cat:3 loop1:0 a a goal~tree~aa~0~8~10~0..2; limit
cat:3 loop1:0 a a goal~tree~aa~0~11~20~0..2
cat:2 loop:0,1,0,1 group:0 a goal~tree~a~0~0~6~limit
cat:2 loop:0,1,0,1 group:0 a goal~tree~a~0~7~12~0..1 0..1; limit
cat:2 loop:0,1,0,1 group:0 a goal~tree~a~0~13~20~0..1 0..1; 1..1 -
cat:2 bytes:61,62 goal~tree~aab~0~0~1~limit
cat:2 bytes:61,62 goal~tree~aab~0~2~20~1..3
cat:2 bytes:C3,A9 goal~tree~éaé~2~0~1~limit
cat:2 bytes:C3,A9 goal~tree~éaé~2~2~20~3..5
cat:2 byteset:61,62 goal~tree~éa€b~0~0~1~limit
cat:2 byteset:61,62 goal~tree~éa€b~0~2~3~2..3; limit
cat:2 byteset:61,62 goal~tree~éa€b~0~4~20~2..3; 6..7
^a~~aa~1~0~0~limit
^a~~aa~1~1~20~
[b]c~~aabbc~0~0~4~limit
[b]c~~aabbc~0~5~20~3..5
cat:2 a goal~tree~a~1~0~0~limit
cat:2 a goal~tree~a~1~1~20~
cat:2 a goal~tree~a~2~0~2~
cat:2 alt a b goal~tree~b~2~0~2~
cat:2 bytes:61,62 goal~tree~aab~4~0~2~
cat:3 loop1:0 a a goal~tree~aa~3~0~2~
cat:2 loop:0,1,0,1 group:0 a goal~tree~a~2~0~2~
é*~~ééa~0~0~4~limit
é*~~ééa~0~5~7~0..4; limit
é*~~ééa~0~8~10~0..4; 4..4; limit
é*~~ééa~0~11~20~0..4; 4..4; 5..5
é*~no_opt~ééa~0~0~7~limit
é*~no_opt~ééa~0~8~11~0..4; limit
[а-я]+~~xабвy~0~0~5~limit
[а-я]+~~xабвy~0~6~20~1..7
[а-я]+~~абяxю~0~6~9~0..6; limit
[а-я]+~~абяxю~0~10~20~0..6; 7..9
.*?x~~éбx€x~0~0~12~limit
.*?x~~éбx€x~0~13~20~0..5; limit
.*?x~~éбx€x~0~21~23~0..5; 5..9; limit
.*?x~~éбx€x~0~24~40~0..5; 5..9
(?!b)\w~~ba~0~0~6~limit
(?!b)\w~~ba~0~7~20~1..2
a(?=b)~~aab~0~0~7~limit
a(?=b)~~aab~0~8~9~1..2; limit
a(?=b)~~aab~0~10~20~1..2
(?:a|a)*b~no_opt~aaaaaaaaaaaaaaaaaaaaaaaaaaaaaaaaaaaaaaaa~41~0~0~
^a~~aa~18446744073709551615~0~2~
(?:a|a)*~~aaaaaaaaaaaaaaaaaaaaaaaaaaaaaaaaaaaaaaaa~0~0~166~limit
(?:a|a)*~~aaaaaaaaaaaaaaaaaaaaaaaaaaaaaaaaaaaaaaaa~0~167~173~0..40; limit
(?:a|a)*~~aaaaaaaaaaaaaaaaaaaaaaaaaaaaaaaaaaaaaaaa~0~174~1000~0..40; 40..40
(?:a|a)*~no_opt~aaaaaaaaaaaaaaaaaaaaaaaaaaaaaaaaaaaaaaaa~0~0~166~limit
(?:a|a)*~no_opt~aaaaaaaaaaaaaaaaaaaaaaaaaaaaaaaaaaaaaaaa~0~167~173~0..40; limit
(?:a|a)*~no_opt~aaaaaaaaaaaaaaaaaaaaaaaaaaaaaaaaaaaaaaaa~0~174~1000~0..40; 40..40
(?:a|a)*b~no_opt~aaaaaaaaaaaaaaaaaaaaaaaaaaaaaaaaaaaaaaaa~0~10000~10000~limit
(?:a|a)*b~~aaaaaaaaaaaaaaaaaaaaaaaaaaaaaaaaaaaaaaaa~0~10000~10000~limit
(?:a|a)*~~aaaaaaaaaaaaaaaaaaaaaaaaaaaaaaaaaaaaaaaa~41~0~0~
(?:a|a)*~no_opt~aaaaaaaaaaaaaaaaaaaaaaaaaaaaaaaaaaaaaaaa~41~0~0~
"#;

// A search: a text and a start, and its limit.
#[derive(Clone, Copy)]
struct Search<'a> {
    text: &'a str,
    start: usize,
    steps: u64,
}

// Writes the matches of a program within a step limit.
fn write_matches_of_program_in_steps(
    line: &mut String,
    re: &CompiledRegex,
    text: &str,
    start: usize,
    steps: u64,
) -> Result<(), SearchError> {
    if !is_start(text, start) {
        return Ok(line.push_str("no start")?);
    }
    let executor = LimitedExecutor::new(re, text, steps)?;
    if executor.steps_left() != steps {
        line.push_str("other steps")?;
    }
    let mut matches = Matches::new(executor, start);
    write_limited(line, &mut matches, false)
}

// Returns the first match from a start on.
fn first_match_from_start<P: MatchProducer>(
    executor: &mut P,
    start: usize,
) -> Result<Option<Match>, SearchError>
    requires { IsBoundaryOrPastEnd (P.text executor.old) start }
{
    let Some(pos) = executor.initial_position(start) else {
        return Ok(None);
    };
    let mut next = Some(pos);
    executor.next_match(pos, &mut next)
}

// Writes the first match of a program, and the steps that are left.
fn write_first_match_and_left_steps(
    line: &mut String,
    re: &CompiledRegex,
    text: &str,
    start: usize,
    steps: u64,
) -> Result<(), SearchError> {
    if !is_start(text, start) {
        return Ok(line.push_str("no start")?);
    }
    let mut executor = LimitedExecutor::new(re, text, steps)?;
    match first_match_from_start(&mut executor, start) {
        Ok(found) => write_match_if_any(line, &found)?,
        Err(SearchError::StepLimit) => line.push_str("limit")?,
        Err(SearchError::Memory) => return Err(SearchError::Memory),
    }
    let left = executor.steps_left();
    Ok(write!(line, ", {left} left")?)
}

// Writes the matches of a pattern within a step limit.
fn write_found(line: &mut String, re: &Regex, search: Search<'_>) -> Result<(), SearchError> {
    if !is_start(search.text, search.start) {
        return Ok(line.push_str("no start")?);
    }
    write_limited(
        line,
        &mut re.find_from_limited(search.text, search.start, search.steps)?,
        false,
    )
}

fn write_limited_matches_of_tree(
    alloc: Global,
    line: &mut String,
    words: &str,
    search: Search<'_>,
    left: bool,
) -> Result<(), SearchError> {
    let Some(tree) = tree_of(alloc, words) else {
        return Ok(line.push_str("no tree")?);
    };
    match emit(alloc, &tree) {
        Ok(re) if left => write_first_match_and_left_steps(
            line,
            &re,
            search.text,
            search.start,
            search.steps,
        ),
        Ok(re) => write_matches_of_program_in_steps(
            line,
            &re,
            search.text,
            search.start,
            search.steps,
        ),
        Err(_) => Ok(line.push_str("no program")?),
    }
}

fn write_limited_matches_of_pattern(
    alloc: Global,
    line: &mut String,
    pattern: &str,
    no_opt: bool,
    search: Search<'_>,
) -> Result<(), SearchError> {
    let flags = Flags {
        no_opt,
        ..Flags::default()
    };
    match Regex::with_flags(alloc, pattern, flags) {
        Ok(re) => write_found(line, &re, search),
        Err(_) => Ok(line.push_str("no pattern")?),
    }
}

// Writes the result of the search of a row's first four fields within a step limit.
fn write_row(alloc: Global, line: &mut String, asked: &str, steps: u64) -> Result<(), SearchError> {
    let fields: Vec<&str> = asked.split('~').collect(alloc)?;
    let [pattern, kind, text, start] = *fields.as_slice() else {
        return Ok(line.push_str("other than seven fields")?);
    };
    let Ok(start) = start.parse::<usize>() else {
        return Ok(line.push_str("no start")?);
    };
    let search = Search { text, start, steps };
    match kind {
        "tree" | "left" => write_limited_matches_of_tree(
            alloc,
            line,
            pattern,
            search,
            kind == "left",
        ),
        _ => write_limited_matches_of_pattern(alloc, line, pattern, kind == "no_opt", search),
    }
}

// Splits off the last field, a number.
fn split_number(fields: &str) -> (&str, u64) {
    match fields.rsplit_once('~') {
        Some((before, number)) => (before, number.parse::<u64>().unwrap_or(0)),
        None => (fields, 0),
    }
}

pub fn check_step_limits(
    alloc: Global,
    differing: &mut String,
    row: Row<'_>,
) -> Result<(), SearchError> {
    let (before, most) = split_number(row.asked);
    let (asked, least) = split_number(before);
    if most < least {
        compare(differing, row, "no steps", "")?;
    }
    for steps in least..=most {
        let mut found = String::new(alloc);
        write_row(alloc, &mut found, asked, steps)?;
        let method = format!(in alloc; "within {steps} steps")?;
        compare(differing, row, &found, &method)?;
    }
    Ok(())
}
