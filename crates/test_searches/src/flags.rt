//! Flags from letters, flags as text, and escaped texts.

use crate::rows::{Row, compare};
use regress_match::{Error, Flags, Regex, escape};
use std::alloc::{AllocError, Global};

// Rows of three fields: a kind, its argument, and the result. Flags are made of `letters`, of the
// code `points` of letters, or of letters with `no_opt` set; the result is their text and the names
// of the flags that are set. `escape` returns an escaped text, and `itself` the match that the
// escaped text finds in the text.
pub const FLAGS: &str = r"letters~gimuy~miu icase multiline unicode
letters~vusim~misuv icase multiline dot_all unicode unicode_sets
letters~~
letters~gvmé~mv multiline unicode_sets
points~67 76 6D E9~mv multiline unicode_sets
points~76 FFFFFFFF 6D 76~mv multiline unicode_sets
points~~
no_opt~ui~iu icase no_opt unicode
no_opt~~ no_opt
escape~a.b*c~a\.b\*c
escape~a^b$c.d|e?f*g+h(i)j[k]l{m}n\o~a\^b\$c\.d\|e\?f\*g\+h\(i\)j\[k\]l\{m\}n\\o
escape~$100 + tax (15%)~\$100 \+ tax \(15%\)
escape~a-b/c~a-b/c
escape~~
escape~é.~é\.
itself~a\^$.|?*+()[]{}é~0..17
";

fn flags_of_code_points(alloc: Global, written: &str) -> Result<Flags, AllocError> {
    let mut points = Vec::new(alloc);
    for word in written.split(' ') {
        if let Ok(point) = u32::from_str_radix(word, 16) {
            points.push(point)?;
        }
    }
    Ok(Flags::new(points.into_iter()))
}

fn write_flags(line: &mut String, flags: &Flags) -> Result<(), AllocError> {
    let named = [
        (" icase", flags.icase),
        (" multiline", flags.multiline),
        (" dot_all", flags.dot_all),
        (" no_opt", flags.no_opt),
        (" unicode", flags.unicode),
        (" unicode_sets", flags.unicode_sets),
    ];
    write!(line, "{flags}")?;
    for (name, is_set) in named {
        if is_set {
            line.push_str(name)?;
        }
    }
    Ok(())
}

// Returns the first match of an escaped text in the text.
fn write_match_of_escaped_text(alloc: Global, line: &mut String, text: &str) -> Result<(), Error> {
    let re = Regex::from_str(alloc, escape(alloc, text)?.as_str())?;
    match re.find(text) {
        Ok(Some(found)) => Ok(write!(line, "{}..{}", found.start(), found.end())?),
        Ok(None) => Ok(line.push_str("no match")?),
        Err(_) => Err(Error::Memory),
    }
}

fn write_answer(alloc: Global, line: &mut String, question: &str, text: &str) -> Result<(), Error> {
    match question {
        "letters" => Ok(write_flags(line, &Flags::from(text))?),
        "points" => Ok(write_flags(line, &flags_of_code_points(alloc, text)?)?),
        "no_opt" => {
            let flags = Flags {
                no_opt: true,
                ..Flags::from(text)
            };
            Ok(write_flags(line, &flags)?)
        }
        "escape" => Ok(line.push_str(escape(alloc, text)?.as_str())?),
        _ => write_match_of_escaped_text(alloc, line, text),
    }
}

pub fn check_flags(alloc: Global, differing: &mut String, row: Row<'_>) -> Result<(), AllocError> {
    let (question, text) = row.asked.split_once('~').unwrap_or((row.asked, ""));
    let mut found = String::new(alloc);
    match write_answer(alloc, &mut found, question, text) {
        Ok(()) => compare(differing, row, &found, ""),
        Err(_) => compare(differing, row, "refused", ""),
    }
}
