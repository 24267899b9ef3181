//! Searches that end in reasonable time only because failures are memoized or empty iterations are
//! skipped, and results of memoized lookarounds.

use crate::lines::write_utf8;
use crate::rows::{Row, compare};
use regex_parser::parse::try_parse;
use regex_pattern_front::flags::Flags;
use regress_match::SearchError;
use regress_match::backends::{DefaultExecutor, emit};
use regress_match::exec::{Matches, ProducerFromProgramAndText};
use regress_program::insn::CompiledRegex;
use std::alloc::Global;

// Rows of three fields: a pattern, a text, and its matches. In the first 23 rows and in two others,
// a search that tried all paths, or made all iterations, would not end.
pub const MEMOIZED: &str = "\
(?:a|a)*b~aaaaaaaaaaaaaaaaaaaaaaaaaaaaaaaaaaaaaaaaaaaaaaaaaaaaaaaaaaaa~
(a*)*b~aaaaaaaaaaaaaaaaaaaaaaaaaaaaaaaaaaaaaaaaaaaaaaaaaaaaaaaaaaaa~
.*.*.*.*.*.*.*.*x~aaaaaaaaaaaaaaaaaaaaaaaaaaaaaaaaaaaaaaaaaaaaaaaaaaaaaaaaaaaa~
.*?.*?.*?.*?.*?.*?.*?.*?x~aaaaaaaaaaaaaaaaaaaaaaaaaaaaaaaaaaaaaaaaaaaaaaaaaaaaaaaaaaaa~
(x+x+)+y~xxxxxxxxxxxxxxxxxxxxxxxxxxxxxxxxxxxxxxxxxxxxxxxxxxxxxxxxxxxx~
(?:){4294967295}~~0..0
(){4294967295}~a~0..0 0..0; 1..1 1..1
(?:|){4294967295}~a~0..0; 1..1
(?:()|(?:|){4294967295,}b){2,}~b~0..1 -; 1..1 1..1
a(?:()()){4294967294,4294967295}?b~ab~0..2 1..1 1..1
(?<=(){4294967295}a)~a~1..1 0..0
(?:\\b|a){4294967295}~aac~0..0; 3..3
(?:\\b|a){4294967295}c~aac~0..3
(?:a|\\b){4294967295,}?(?!$)~aac~0..2
(?:(?=)){4294967295}~a~0..0; 1..1
(?:(?=)|a){4294967295}~aa~0..0; 1..1; 2..2
(?:(?=())){4294967295}~aa~0..0 0..0; 1..1 1..1; 2..2 2..2
(?:ab|){4294967295}~abab~0..4; 4..4
(?:()|){4294967295}~a~0..0 0..0; 1..1 1..1
(?:(a)|){4294967295}~aa~0..2 -; 2..2 -
(?<=(?:(a)|){4294967295}b)~aab~3..3 -
(?:(a)|(?=(b))|\\b){4294967295}(?!$)~aab~0..2 - 2..3; 2..2 - 2..3
(?:(?=(?=(a).)|)(?:\\b|.)){4294967295}c~aac~0..3 1..2
(?:(?!a*b)a|b)*~aabaa~0..0; 1..1; 2..5; 5..5
(?:(?!a*b)(?!a*c)a|[bc])*~aacab~0..0; 1..1; 2..3; 3..3; 4..5; 5..5
(?<!^a*)b~aabb~3..4
(?:(?!(a*)b)a|b)*~aabaa~0..0 -; 1..1 -; 2..5 -; 5..5 -
(?:(?!(?:ab)*c)ab|c)*~ababcab~0..0; 1..1; 2..2; 3..3; 4..7; 7..7
(?<=^.*)b~aabb~2..3; 3..4
(?=.*b)(?=.*c)(?=.*d).~bcdabc~0..1; 1..2; 2..3
(?:(?=a*c)a)+?c~aaacaac~0..4; 4..7
(?:(?=a*b)a|b)*~aabaa~0..3; 3..3; 4..4; 5..5
(?:(?=a*b)(a)|b)*~aabaa~0..3 -; 3..3 -; 4..4 -; 5..5 -
(?:(?=a*?b)a|(?=a*?c)a|b)*~aabaacaa~0..5; 5..5; 6..6; 7..7; 8..8
(?:(?=(?:ab)*c)ab|c)*~ababcab~0..5; 5..5; 6..6; 7..7
(?:(?=(?!a*c)a*b)a|b)*~aabaa~0..3; 3..3; 4..4; 5..5
(?:ab)*(?:(?=a*b)a|b)+?c~ababcaac~0..5
(?:a(?<=^a*))*b~aab~0..3
(?:a(?=(.*)))*b~aab~0..3 2..3
(?:(?=(a))a)*b~aaab~0..4 2..3
(?:(?=(a))(?:a|a))*b~aaaaaaaaaaaaaaaaaaaaaaaaaaaaaaaaaaaaaaaaaaaaaaaaaaaaaaaaaaaa~
(?:(?=(a*)b)a|b)*~aabaa~0..3 -; 3..3 -; 4..4 -; 5..5 -
(?:(?=(a)*?c)a|c)*~aacaa~0..3 -; 3..3 -; 4..4 -; 5..5 -
(?:(?=(?:(a)b)*c)ab|c)*~ababcab~0..5 -; 5..5 -; 6..6 -; 7..7 -
(?=(a*))a(?=(b*))~aabb~0..1 0..2 1..1; 1..2 1..2 2..4
(?:(?=a*?$)a)+?c~aaaaac~
(?:(?=a*?c)a)+?c~aaacaac~0..4; 4..7
(?:(?!a*?b)a|b)*~aabaa~0..0; 1..1; 2..5; 5..5
(?:(?=a+?(?:b|c))a|(?=a*?d)a|b)*~aabaacaad~0..5; 5..5; 6..8; 8..8; 9..9
a*(?=a*?$)~aaa~0..3; 3..3
(?:(?=[ab]*?c)(?:a|b)|c)*?d~abacbbcd~0..8
(?:(?!(?:b|a*?c)d)a|b|c)*~aabaacdaa~0..3; 3..3; 4..4; 5..6; 6..6; 7..9; 9..9
(?:(?=a{0,2}?b)a|b)*~aaabaa~0..0; 1..4; 4..4; 5..5; 6..6
(?:(?=(?:a*?b)+?c)[ab])*~aabaabcab~0..6; 6..6; 7..7; 8..8; 9..9
(?:(?=.*?(?:b|c*?d))a)*b~aaab~0..4
(?:(a|aa)+?c|b)~aaaaaaaaaaaaaaaaaaaaaaaaaaaaaaaaaaaaaaaaaaaaaaaaaaaaaaaaaaaab~60..61 -
";

// Returns the program of a pattern's tree, which is not optimized.
fn program_of(alloc: Global, pattern: &str) -> Option<CompiledRegex> {
    let points: Vec<u32> = pattern.chars().map(u32::from).collect(alloc).ok()?;
    let tree = try_parse(alloc, &points, Flags::default()).ok()?;
    emit(alloc, &tree).ok()
}

// Writes the matches that an executor finds that memoizes failures after some work.
fn write_memoizing(line: &mut String, re: &CompiledRegex, text: &str) -> Result<(), SearchError> {
    let executor = DefaultExecutor::new(re, text)?;
    write_utf8(line, &mut Matches::new(executor, 0), false)
}

// Writes the matches that an executor finds that memoizes failures from the first attempt on.
fn write_always_memoizing(
    line: &mut String,
    re: &CompiledRegex,
    text: &str,
) -> Result<(), SearchError> {
    let mut executor = DefaultExecutor::new(re, text)?;
    executor.always_memoize();
    write_utf8(line, &mut Matches::new(executor, 0), false)
}

pub fn check_memoized(
    alloc: Global,
    differing: &mut String,
    row: Row<'_>,
) -> Result<(), SearchError> {
    let (pattern, text) = row.asked.split_once('~').unwrap_or((row.asked, ""));
    let Some(re) = program_of(alloc, pattern) else {
        return Ok(compare(differing, row, "no program", "")?);
    };
    let mut found = String::new(alloc);
    write_memoizing(&mut found, &re, text)?;
    compare(differing, row, &found, "after some work")?;
    let mut found = String::new(alloc);
    write_always_memoizing(&mut found, &re, text)?;
    Ok(compare(differing, row, &found, "from the first attempt on")?)
}
