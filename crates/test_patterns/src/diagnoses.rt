//! Tests of diagnoses: what is wrong with texts that are not patterns, and where.

use crate::causes::{CAUSES, ECMASCRIPT_CAUSES};
use crate::patterns::{add, code_points, flags_of};
use crate::table::PATTERNS;
use regex_parser::diagnosis::{Cause, Diagnosis};
use regex_parser::parse::{ParseError, diagnose, parse_or_diagnose, try_parse, try_parse_in};
use regex_parser::syntax::Syntax;
use regex_pattern_front::flags::Flags;
use std::alloc::{AllocError, Global};
use std::process::Abort;
use std::test::Fail;

// Writes the error of a text. It may be an allocation failure.
fn write_error(text: &mut String, row: &str, syntax: Syntax) -> Result<(), AllocError> {
    let alloc = *text.allocator();
    let (letters, pattern) = row.split_once(':').unwrap_or((row, "no colon"));
    let pattern = code_points(alloc, pattern)?;
    match try_parse_in(alloc, &pattern, flags_of(letters), syntax) {
        Ok(_) => text.push_str("a pattern"),
        Err(error) => write!(text, "{error}"),
    }
}

// Returns the first line of a table that differs from what the parser says about its text, with
// what the parser says.
fn first_differing_line<'t>(
    alloc: Global,
    table: &'t str,
    syntax: Syntax,
) -> Result<Option<(&'t str, String)>, AllocError> {
    for line in table.lines() {
        let (row, wanted) = line.split_once(" → ").unwrap_or((line, "no arrow"));
        let mut found = String::new(alloc);
        write_error(&mut found, row, syntax)?;
        if found.as_str() != wanted {
            return Ok(Some((line, found)));
        }
    }
    Ok(None)
}

#[test]
fn causes_have_these_places(rt: HostRuntime) -> Result<(), Fail> {
    if let Some((line, found)) = first_differing_line(rt.alloc(), CAUSES, Syntax::Profile)? {
        assert!(rt; false, "{found} at {line}");
    }
    Ok(())
}

#[test]
fn causes_in_the_whole_language_have_these_places(rt: HostRuntime) -> Result<(), Fail> {
    if let Some((line, found)) = first_differing_line(
        rt.alloc(),
        ECMASCRIPT_CAUSES,
        Syntax::EcmaScript2018,
    )? {
        assert!(rt; false, "{found} at {line}");
    }
    Ok(())
}

// Checks whether the three calls that diagnose a text agree. No row has too many groups.
fn is_told_alike(alloc: Global, row: &str) -> Result<bool, AllocError> {
    let (letters, pattern) = row.split_once(':').unwrap_or((row, "no colon"));
    let pattern = code_points(alloc, pattern)?;
    let flags = flags_of(letters);
    let told = diagnose(alloc, &pattern, flags)?;
    let is_same = match try_parse(alloc, &pattern, flags) {
        Ok(_) => told.is_none(),
        Err(ParseError::Syntax(diagnosis)) => told == Some(diagnosis),
        Err(ParseError::TooManyGroups) => false,
        Err(ParseError::Memory) => return Err(AllocError),
    };
    Ok(is_same && told == parse_or_diagnose(alloc, &pattern, flags)?.err())
}

#[test]
fn causes_are_told_where_patterns_are_refused(rt: HostRuntime) -> Result<(), Fail> {
    for line in PATTERNS.lines() {
        let (row, _) = line.split_once(" → ").unwrap_or((line, ""));
        assert!(rt; is_told_alike(rt.alloc(), row)?, "{line}");
    }
    Ok(())
}

// Returns the diagnosis of a text: the first piece, 65,536 copies of the second, and the third.
fn diagnosis_of_repeated_piece(
    alloc: Global,
    pieces: [&str; 3],
) -> Result<Option<Diagnosis>, AllocError> {
    let mut pattern = code_points(alloc, pieces[0])?;
    add(&mut pattern, pieces[1], 65536)?;
    add(&mut pattern, pieces[2], 1)?;
    diagnose(alloc, &pattern, Flags::default())
}

// Pieces as above, the number of groups in the diagnosis, and the position.
const TOO_MANY: [([&str; 3], u32, usize); 3] = [
    (["", "()", ""], 65536, 131_070),
    ([")\\((?:[(]", "(?<a>", "(("], 65538, 327_684),
    ([")", "(", "*+"], 65536, 65536),
];

#[test]
fn one_group_is_too_many_whatever_else_is_wrong(rt: HostRuntime) -> Result<(), Fail> {
    for (pieces, groups, at) in TOO_MANY {
        let wanted = Diagnosis {
            cause: Cause::TooManyGroups { groups },
            at,
        };
        assert!(rt;
            diagnosis_of_repeated_piece(rt.alloc(), pieces)? == Some(wanted),
            "{}",
            pieces[1]
        );
    }
    Ok(())
}

// Returns the diagnosis of a pattern that is refused.
fn diagnosis_of_refused_pattern(
    alloc: Global,
    pattern: &str,
) -> Result<Option<Diagnosis>, AllocError> {
    let pattern = code_points(alloc, pattern)?;
    diagnose(alloc, &pattern, Flags::default())
}

// Patterns, and the byte offset of the position at which something is wrong.
const OFFSETS: [(&str, usize); 6] = [
    ("(a", 0),
    ("é*+", 3),
    ("é😀(a|b", 6),
    ("日本語[b-a]", 10),
    ("😀)", 4),
    ("aé\\", 3),
];

#[test]
fn places_have_these_offsets(rt: HostRuntime) -> Result<(), Fail> {
    for (pattern, wanted) in OFFSETS {
        let told = diagnosis_of_refused_pattern(rt.alloc(), pattern)?;
        assert!(rt;
            told.map(|it| it.offset_in(pattern)) == Some(wanted),
            "{pattern}"
        );
    }
    Ok(())
}

#[test]
fn a_place_past_the_end_is_the_end(rt: HostRuntime) {
    let beyond = Diagnosis {
        cause: Cause::UnclosedGroup,
        at: usize::MAX,
    };
    assert!(rt; beyond.offset_in("é") == 2);
}

// Writes what is displayed below a refused pattern, which is given by its code points.
fn write_shown(text: &mut String, pattern: &str) -> Result<(), AllocError> {
    let alloc = *text.allocator();
    let pattern = code_points(alloc, pattern)?;
    match diagnose(alloc, &pattern, Flags::default())? {
        Some(diagnosis) => write!(text, "{}", diagnosis.below(&pattern)),
        None => Ok(()),
    }
}

// Writes the same for a pattern that is given as a text.
fn write_shown_below_text(text: &mut String, pattern: &str) -> Result<(), AllocError> {
    match diagnosis_of_refused_pattern(*text.allocator(), pattern)? {
        Some(diagnosis) => write!(text, "{}", diagnosis.below_text(pattern)),
        None => Ok(()),
    }
}

// Patterns, and what is displayed below them.
const SHOWN: [(&str, &str); 4] = [
    ("é😀(a|b", "é😀(a|b\n  ^ unclosed group"),
    ("a\nb\t*+c\nd", "b *+c\n   ^ nothing to repeat"),
    ("a\n\\", "\\\n^ backslash at the end of the pattern"),
    ("a|b)\nc", "a|b)\n   ^ unopened group"),
];

#[test]
fn places_are_shown(rt: HostRuntime) -> Result<(), Fail> {
    for (pattern, wanted) in SHOWN {
        let mut found = String::new(rt.alloc());
        write_shown(&mut found, pattern)?;
        assert!(rt; found.as_str() == wanted, "{found}");
        let mut of_text = String::new(rt.alloc());
        write_shown_below_text(&mut of_text, pattern)?;
        assert!(rt; of_text.as_str() == wanted, "{of_text}");
    }
    Ok(())
}

#[test]
fn refusals_are_shown(rt: HostRuntime) -> Result<(), Fail> {
    let mut found = String::new(rt.alloc());
    let beyond = Diagnosis {
        cause: Cause::UnclosedName,
        at: 9,
    };
    let syntax = ParseError::Syntax(beyond);
    write!(
        found,
        "{syntax}, {}, {}",
        ParseError::TooManyGroups,
        ParseError::Memory
    )?;
    assert!(rt;
        found.as_str() == "unclosed name at 9, too many groups (at most 65535), out of memory"
    );
    let mut cause = String::new(rt.alloc());
    write!(cause, "{}", Cause::TooManyGroups { groups: 65536 })?;
    assert!(rt; cause.as_str() == "too many groups (65536 of at most 65535)");
    let mut shown = String::new(rt.alloc());
    write!(shown, "{}", beyond.below(&[0xD800, 0x61]))?;
    assert!(rt; shown.as_str() == "\u{FFFD}a\n  ^ unclosed name");
    Ok(())
}
