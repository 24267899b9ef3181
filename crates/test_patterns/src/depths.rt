//! Tests of how deeply patterns are nested.

use crate::patterns::{add, code_points};
use regex_parser::greatest_parenthesis_depth_of_pattern::nesting;
use std::alloc::AllocError;
use std::test::Fail;

// Texts, which need not be patterns, and their nesting depths.
const DEPTHS: &str = r"a|b → 0
(a) → 1
(a)(b)(c) → 1
(a(b)|[(]\() → 2
(?:a(?<n>b)) → 2
(?=(?!(?<=a))) → 3
\\(a) → 1
\(\( → 0
[((] → 0
[\](] → 0
[\]](( → 2
[]]( → 1
[^(( → 0
))( → 1
)(() → 2
(()()) → 2
(\[(]) → 2
(\ → 1";

fn write_told(text: &mut String, pattern: &str) -> Result<(), AllocError> {
    let alloc = *text.allocator();
    let depth = nesting(&code_points(alloc, pattern)?);
    write!(text, "{depth}")
}

#[test]
fn patterns_nest_so_deep(rt: HostRuntime) -> Result<(), Fail> {
    for line in DEPTHS.lines() {
        let (pattern, wanted) = line.split_once(" → ").unwrap_or((line, "no arrow"));
        let mut found = String::new(rt.alloc());
        write_told(&mut found, pattern)?;
        assert!(rt; found.as_str() == wanted, "{found} at {line}");
    }
    Ok(())
}

#[test]
fn many_levels_are_told(rt: HostRuntime) -> Result<(), Fail> {
    let mut pattern = Vec::new(rt.alloc());
    add(&mut pattern, "(", 100_000)?;
    assert!(rt; nesting(&pattern) == 100_000);
    Ok(())
}
