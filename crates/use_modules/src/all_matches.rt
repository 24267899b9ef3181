//! The main theorem as the contract of one function.

ghost use Rattle.std.specs.Prelude.{◌≡◌, ◌++◌, ◌∷◌, [], IfErr, IfOk, chars, map};
ghost use Rattle.regex_meaning.specs.{Grammar.{ParsesBy}, MatchGroupsByNumberAndName.{answers_from}, Text.{utf8_text}, Tree.{Tree}};
ghost use Rattle.regex_parser.specs.SyntaxDialects.{spec_syntax_of};
ghost use Rattle.regress_search.specs.MatchesAsSpecAnswers.{answer_of};
ghost use Rattle.regress_match.specs.{CompileErrors.{IsPatternRefusedWithSyntax}, ProgramTreesAndAnswers.{utf8_answers}, PublicFlagsAsSpecFlags.{spec_flags_of}};

use regress_match::api::{searches_follow_the_ecmascript_pattern, searches_follow_the_pattern};
use regress_match::{Error, Flags, Match, Regex, SearchError, Syntax};
use std::alloc::{AllocError, Global};

/// Compiles a pattern and returns its matches in `text`, in order. They are the matches of the tree
/// that the grammar of the syntax gives to the pattern, with all groups. The grammar gives a pattern
/// at most one tree (`pattern_has_at_most_one_tree`).
///
/// # Errors
///
/// Returns why the pattern is refused, or `Memory`. The clause `refused` says what each error means.
pub fn all_matches(
    alloc: Global,
    pattern: &str,
    flags: Flags,
    syntax: Syntax,
    text: &str,
) -> Result<Vec<Match>, Error>
    ensures matches { let flags = spec_flags_of flags in IfOk result (λ found. (tree : Tree)
        × ParsesBy (spec_syntax_of syntax) flags (chars pattern.now) tree
        × (map answer_of found.items ≡ answers_from tree.root (utf8_text text.now flags.unicode) 0)) }
    ensures refused { IfErr result (IsPatternRefusedWithSyntax (spec_syntax_of syntax) (spec_flags_of flags)
        (chars pattern.now)) }
{
    searches_follow_the_pattern();
    searches_follow_the_ecmascript_pattern();
    let re = Regex::with_syntax(alloc, pattern, flags, syntax)?;
    match matches_of(alloc, &re, text) {
        Ok(found) => Ok(found),
        Err(_) => Err(Error::Memory),
    }
}

// Returns the matches of a compiled pattern in `text`.
fn matches_of(alloc: Global, re: &Regex, text: &str) -> Result<Vec<Match>, SearchError>
    ensures { IfOk result (λ found. map answer_of found.items ≡ utf8_answers re.now text.now 0) }
{
    let mut all = Vec::new(alloc);
    for item in re.find_iter(text)? {
        push(&mut all, item?)?;
    }
    Ok(all)
}

// Appends a match.
fn push(all: &mut Vec<Match>, one: Match) -> Result<(), AllocError>
    ensures { IfOk result (λ _. map answer_of all.new.items ≡ map answer_of all.old.items ++ answer_of one ∷ []) }
{
    Ok(all.push(one)?)
}
