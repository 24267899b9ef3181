//! Prints why a pattern is refused, what a compiled program contains, and the first and last
//! character of a text.
#![tactic(auto)]

mod all_matches;
mod laws;

use crate::all_matches::all_matches;
use crate::laws::{compile_literal, find_each_in_ecmascript, find_first, replace_by_itself};
use anyhow::{Result, bail};
use regress_match::backends::{emit, try_parse};
use regress_match::emit::EmitError;
use regress_match::front::flags::Flags;
use regress_match::indexing::{InputIndexer, Utf8Input};
use regress_match::insn::Insn;
use regress_match::{Error, Flags as SearchFlags, Regex, Syntax};

// Returns why a pattern was refused.
fn reason(error: &Error) -> &'static str {
    match error {
        Error::Parse(_) => "no pattern",
        Error::Emit(EmitError::TooManyGroups) => "too many groups",
        Error::Emit(EmitError::TooManyLoops) => "too many loops",
        Error::Emit(_) => "too large",
        Error::Memory => "out of memory",
    }
}

// Counts the instructions that read one character named in the pattern.
fn count_char_insns(insns: &[Insn]) -> usize {
    insns
        .iter()
        .filter(|insn| matches!(insn, Insn::Char(_)))
        .count()
}

// Returns the first and the last character of a text.
fn first_and_last_chars(text: &str) -> Option<(char, char)> {
    let input = Utf8Input::new(text, true);
    let first = input.peek_right(input.left_end())?;
    let last = input.peek_left(input.right_end())?;
    Some((first, last))
}

// Prints whether each of two texts is a pattern, and if not, why.
fn print_pattern_checks(rt: &HostRuntime) -> Result<()> {
    for pattern in ["(", "caf[eé]+"] {
        match Regex::new(rt.alloc(), pattern) {
            Ok(_) => println!(rt; "{pattern}: a pattern")?,
            Err(error) => println!(rt; "{pattern}: {}", reason(&error))?,
        }
    }
    Ok(())
}

// Returns how many instructions the program of a pattern has, and how many of them read one
// character named in the pattern.
fn program_size(rt: &HostRuntime, pattern: &str) -> Result<(usize, usize)> {
    let points: Vec<u32> = pattern.chars().map(u32::from).collect(rt.alloc())?;
    let Ok(tree) = try_parse(rt.alloc(), &points, Flags::default()) else {
        bail!("the example is not a pattern of the profile");
    };
    let Ok(program) = emit(rt.alloc(), &tree) else {
        bail!("out of memory in emitting the example");
    };
    let insns = program.insns();
    Ok((insns.len(), count_char_insns(insns)))
}

// Prints the range of the first match of `..` in a text, and the text after a replacement.
fn print_literal_matches(rt: &HostRuntime, text: &str) -> Result<()> {
    let dots = compile_literal(rt.alloc(), "..")?;
    if let Some(found) = find_first(&dots, text)? {
        println!(rt; "{}..{}", found.start(), found.end())?;
    }
    println!(rt; "{}", replace_by_itself(&dots, text)?)?;
    Ok(())
}

// Prints the range of each uppercase letter of a text.
fn print_uppercase_letters(rt: &HostRuntime, text: &str) -> Result<()> {
    let flags = SearchFlags {
        unicode: true,
        ..SearchFlags::default()
    };
    let re = Regex::with_syntax(rt.alloc(), r"\p{Lu}", flags, Syntax::EcmaScript2018)?;
    for found in find_each_in_ecmascript(&re, text)? {
        let found = found?;
        println!(rt; "{}..{}", found.start(), found.end())?;
    }
    Ok(())
}

fn main(rt: HostRuntime) -> Result<()> {
    print_pattern_checks(&rt)?;
    let (insns, chars) = program_size(&rt, "caf[eé]+")?;
    println!(rt; "{insns} instructions, {chars} characters")?;
    if let Some((first, last)) = first_and_last_chars("naïveté") {
        println!(rt; "{first} {last}")?;
    }
    print_literal_matches(&rt, "a.b..c")?;
    print_uppercase_letters(&rt, "aÉ")?;
    let numbers = all_matches(
        rt.alloc(),
        r"\d+",
        SearchFlags::default(),
        Syntax::EcmaScript2018,
        "1, 23",
    )?;
    println!(rt; "{} numbers", numbers.len())?;
    Ok(())
}
