//! The texts of errors, and the diagnoses of malformed patterns.

use regress_match::emit::EmitError;
use regress_match::{Error, Flags, Regex, ReplaceError, SearchError, Syntax};
use std::alloc::AllocError;
use std::test::Fail;

// An error, and its text.
const EMIT_ERRORS: [(EmitError, &str); 6] = [
    (EmitError::NotWellFormed, "the tree is not well formed"),
    (
        EmitError::BytesInUnits,
        "a tree for 16-bit units contains bytes",
    ),
    (EmitError::TooManyGroups, "too many groups (at most 65535)"),
    (EmitError::TooManyLoops, "too many loops (at most 65535)"),
    (
        EmitError::TooManyInstructions,
        "too many instructions (at most 4294967295)",
    ),
    (EmitError::Memory, "out of memory"),
];

#[test]
fn errors_of_programs_have_texts(rt: HostRuntime) -> Result<(), Fail> {
    for (error, wanted) in EMIT_ERRORS {
        let mut found = String::new(rt.alloc());
        write!(found, "{error}")?;
        assert!(rt; found.as_str() == wanted, "{found}");
        let mut found = String::new(rt.alloc());
        write!(found, "{}", Error::Emit(error))?;
        assert!(rt; found.as_str() == wanted, "{found}");
    }
    Ok(())
}

fn write_refusal(text: &mut String, pattern: &str) -> Result<(), AllocError> {
    match Regex::new(*text.allocator(), pattern) {
        Ok(_) => text.push_str("a pattern"),
        Err(error) => write!(text, "{error}"),
    }
}

#[test]
fn errors_of_the_face_have_texts(rt: HostRuntime) -> Result<(), Fail> {
    let mut found = String::new(rt.alloc());
    write_refusal(&mut found, "(a|b")?;
    write!(found, "; {}; {}", Error::Memory, SearchError::StepLimit)?;
    write!(found, "; {}", SearchError::Memory)?;
    let search: ReplaceError<SearchError> = ReplaceError::Search(SearchError::Memory);
    let closure = ReplaceError::Closure(Error::Memory);
    write!(found, "; {search}; {closure}")?;
    let wanted =
        "unclosed group at 0; out of memory; the step limit is reached; out of memory; out of memory; out of memory";
    assert!(rt; found.as_str() == wanted, "{found}");
    Ok(())
}

fn write_diagnosis_of_pattern(
    text: &mut String,
    pattern: &str,
    flags: &str,
) -> Result<(), AllocError> {
    let alloc = *text.allocator();
    let told = if flags.starts_with('+') {
        Regex::diagnose_with_syntax(alloc, pattern, Flags::from(flags), Syntax::EcmaScript2018)?
    } else {
        Regex::diagnose(alloc, pattern, Flags::from(flags))?
    };
    match told {
        Some(told) => write!(
            text,
            "{told}, byte {}\n{}",
            told.offset_in(pattern),
            told.below_text(pattern)
        ),
        None => text.push_str("a pattern"),
    }
}

// Patterns, flags (after `+` for the whole language), and the texts of their diagnoses.
const DIAGNOSIS_CASES: [(&str, &str, &str); 8] = [
    (
        r"a\p{x}",
        "+u",
        "unknown property at 1, byte 1\na\\p{x}\n ^ unknown property",
    ),
    (r"\p{L}", "+u", "a pattern"),
    (
        "é(a|b",
        "",
        "unclosed group at 1, byte 2\né(a|b\n ^ unclosed group",
    ),
    (
        "a{2,1}",
        "",
        "the maximum of a quantifier is below its minimum at 1, byte 1\na{2,1}\n ^ the maximum of a quantifier is below its minimum",
    ),
    (
        r"\p{L}",
        "u",
        "property escapes are supported only in the whole language (ES2018) at 0, byte 0\n\\p{L}\n^ property escapes are supported only in the whole language (ES2018)",
    ),
    (
        "(?<n>a)|(?<n>b)",
        "",
        "duplicate name at 11, byte 11\n(?<n>a)|(?<n>b)\n           ^ duplicate name",
    ),
    (
        "a{2",
        "u",
        "incomplete quantifier at 1, byte 1\na{2\n ^ incomplete quantifier",
    ),
    ("a{2", "", "a pattern"),
];

#[test]
fn causes_are_told_by_flags(rt: HostRuntime) -> Result<(), Fail> {
    for (pattern, flags, wanted) in DIAGNOSIS_CASES {
        let mut found = String::new(rt.alloc());
        write_diagnosis_of_pattern(&mut found, pattern, flags)?;
        assert!(rt; found.as_str() == wanted, "{found}");
    }
    Ok(())
}
