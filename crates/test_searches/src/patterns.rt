//! The patterns of rows: texts, and trees in words that no text may have.

use regress_match::backends::{emit, emit_units, optimize};
use regress_match::{Error, Flags, Regex, Syntax};
use regress_program::emit::EmitError;
use regress_program::insn::CompiledRegexFor16BitUnits;
use std::alloc::Global;
use test_trees::tree_of;

// Returns the program of a tree in words for 16-bit units. A tree with bytes has none and gets that
// of the empty pattern; rows do not search for it in units.
fn units_of(alloc: Global, words: &str) -> Result<CompiledRegexFor16BitUnits, Error> {
    let tree = tree_of(alloc, words).ok_or(Error::Memory)?;
    match emit_units(alloc, &tree) {
        Err(EmitError::BytesInUnits) => {
            let empty = tree_of(alloc, "goal").ok_or(Error::Memory)?;
            Ok(emit_units(alloc, &empty)?)
        }
        units => Ok(units?),
    }
}

// Returns the pattern of two trees in words, the second of which is for 16-bit units.
fn regex_of_trees(alloc: Global, bytes: &str, units: &str, no_opt: bool) -> Result<Regex, Error> {
    let units = units_of(alloc, units)?;
    let mut tree = tree_of(alloc, bytes).ok_or(Error::Memory)?;
    if !no_opt {
        optimize(&mut tree);
    }
    Ok(Regex::from_programs(emit(alloc, &tree)?, units))
}

// Returns a clone of the pattern of two trees, whose words `/` separates.
fn regex_of_pair(alloc: Global, words: &str, no_opt: bool) -> Result<Regex, Error> {
    let (bytes, units) = words.split_once('/').unwrap_or((words, words));
    Ok(regex_of_trees(alloc, bytes, units, no_opt)?.clone()?)
}

fn regex_of_code_points(alloc: Global, pattern: &str, no_opt: bool) -> Result<Regex, Error> {
    let points: Vec<u32> = pattern.chars().map(u32::from).collect(alloc)?;
    let flags = Flags {
        no_opt,
        ..Flags::default()
    };
    Regex::from_unicode(alloc, &points, flags)
}

// Compiles a pattern with the flags of these letters. After a `+` it is one of the whole language.
fn regex_of_letters(
    alloc: Global,
    pattern: &str,
    letters: &str,
    no_opt: bool,
) -> Result<Regex, Error> {
    let flags = Flags {
        no_opt,
        ..Flags::from(letters)
    };
    if letters.starts_with('+') {
        Regex::with_syntax(alloc, pattern, flags, Syntax::EcmaScript2018)
    } else {
        Regex::with_flags(alloc, pattern, flags)
    }
}

// Compiles a pattern with the flags of these letters. Other words in place of letters are: `new`
// and `from_str`, the constructors without flags; `points`, that of code points; `tree` for a tree
// in words; `pair` for two.
pub fn regex_of(alloc: Global, pattern: &str, flags: &str, no_opt: bool) -> Result<Regex, Error> {
    match flags {
        "new" => Regex::new(alloc, pattern),
        "from_str" => Regex::from_str(alloc, pattern),
        "points" => regex_of_code_points(alloc, pattern, no_opt),
        "tree" => regex_of_trees(alloc, pattern, pattern, no_opt),
        "pair" => regex_of_pair(alloc, pattern, no_opt),
        letters => regex_of_letters(alloc, pattern, letters, no_opt),
    }
}

// Returns why there is no pattern.
pub fn refusal(error: &Error) -> &'static str {
    match error {
        Error::Parse(_) => "no pattern",
        Error::Emit(_) => "no program",
        Error::Memory => "no memory or no tree",
    }
}
