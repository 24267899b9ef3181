//! Replacements by a text.

use crate::patterns::{refusal, regex_of};
use crate::rows::{Row, compare};
use regress_match::{Regex, SearchError};
use std::alloc::Global;

// Rows of six fields: a pattern, the letters of its flags, or `tree` if it is a tree in words, a
// text, which matches are replaced, the replacement, and the new text.
pub const REPLACEMENTS: &str = r#"(\d{4})-(\d{2})-(\d{2})~~2023-12-25~first~$2/$3/$1~12/25/2023
(\w+)~~hello~first~$1 $2 $3~hello  
(\w+)~~hello~first~$999~
(\w+)~~hello~first~${x $1~${x $1
\d+~~Price: 123~first~$$0~Price: $0
(?=\d)~~a1b2c~first~X~aX1b2c
\b(\w)(\w+)~~hello world~all~$1.$2~h.ello w.orld
a~~a~first~$655367~7
a~~a~first~$65535~
a*~~baac~all~-~-b--c-
(a)~~a~first~$01~a
(a)~~a~first~$10~
(?<n>a)~~xa~first~[${n}]~x[a]
a~~a~first~$x$~$x$
a~~a~first~${}~
z~~abc~all~X~abc
z~~abc~first~X~abc
~~~all~X~X
a|é~~xéay~all~<$0>~x<é><a>y
a|b~~xaby~all~$0~xaby
a~~a€a~all~€$$é~€$é€€$é
(?<n>a)|(?<m>b)~~ab~all~[${n}${m}]~[a][b]
cat:2 alt named:0,6E a named:1,6E b goal~tree~ab~all~[${n}]~[a][b]
"#;

fn replaced(re: &Regex, text: &str, which: &str, replacement: &str) -> Result<String, SearchError> {
    match which {
        "all" => re.replace_all(text, replacement),
        _ => re.replace(text, replacement),
    }
}

pub fn check_replacement(
    alloc: Global,
    differing: &mut String,
    row: Row<'_>,
) -> Result<(), SearchError> {
    let fields: Vec<&str> = row.asked.split('~').collect(alloc)?;
    let [pattern, flags, text, which, replacement] = *fields.as_slice() else {
        return Ok(compare(differing, row, "other than six fields", "")?);
    };
    for no_opt in [false, true] {
        match regex_of(alloc, pattern, flags, no_opt) {
            Ok(re) => {
                let made = replaced(&re, text, which, replacement)?;
                compare(differing, row, &made, "")?;
            }
            Err(error) => compare(differing, row, refusal(&error), "")?,
        }
    }
    Ok(())
}
