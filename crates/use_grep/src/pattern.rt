//! Compiles the pattern to search for.

ghost use Rattle.std.specs.Prelude.{◌≡◌, ◌++◌, IfOk, IsTrue, chars, codes, if◌then◌else◌, string_bytes};
ghost use Rattle.regex_meaning.specs.Tree.{Tree};
ghost use Rattle.regex_meaning.specs.EcmaGrammarWithAnnexB.{ParsesEcmaScript};
ghost use Rattle.regress_match.specs.PublicFlagsAsSpecFlags.{spec_flags_of};
ghost use Rattle.use_grep.specs.Selecting.{LinesOfTextWithoutMatchHaveNone, HasMatchesOfGrammar, framed, searched, tree_flags};

use crate::local::is_local;
use crate::options::Options;
use crate::patterns::SYNTAX;
use regress_match::{Error, Flags, Regex};
use std::alloc::{AllocError, Global};
use std::io;

// Returns the flags with which the pattern is read.
fn flags(options: &Options<'_>) -> Flags
    ensures { spec_flags_of result ≡ tree_flags options.now.ignore_case }
{
    Flags {
        icase: options.ignore_case,
        ..Flags::default()
    }
}

/// A compiled pattern, and whether it is known that the lines of a text without a match have no
/// matches.
#[derive(Drop)]
pub struct Query {
    pub re: Regex,
    pub is_local: bool,
    ghost none_in_lines: { IsTrue is_local → LinesOfTextWithoutMatchHaveNone re },
}

/// Compiles the pattern of the options.
///
/// # Errors
///
/// Returns the errors of `Regex::with_syntax`. The pattern is also checked without the frame of
/// `-w` or `-x`.
pub fn compile(alloc: Global, options: &Options<'_>) -> Result<Query, Error>
    ensures searched { IfOk result (λ q. HasMatchesOfGrammar (tree_flags options.now.ignore_case)
        (searched options.now.words options.now.whole_lines options.now.pattern.now) q.re) }
    ensures alone { IfOk result (λ _. (tree : Tree)
        × ParsesEcmaScript (tree_flags options.now.ignore_case) (chars options.now.pattern.now) tree) }
{
    let alone = Regex::with_syntax(alloc, options.pattern, flags(options), SYNTAX)?;
    if !options.words && !options.whole_lines {
        let is_local = is_local(alloc, options.pattern, flags(options))?;
        return Ok(Query {
            re: alone,
            is_local,
        });
    }
    let framed = framed(alloc, options.pattern, options.whole_lines)?;
    let re = Regex::with_syntax(alloc, framed.as_str(), flags(options), SYNTAX)?;
    Ok(Query {
        re,
        is_local: false,
    })
}

// Returns the pattern with the frame of `-x` or, without `-x`, of `-w`.
fn framed(alloc: Global, pattern: &str, whole_lines: bool) -> Result<String, AllocError>
    ensures { IfOk result (λ s. string_bytes s ≡ framed whole_lines pattern.now) }
{
    if whole_lines {
        format!(in alloc; "^(?:{pattern})$")
    } else {
        format!(in alloc; "(?<!\\w)(?:{pattern})(?!\\w)")
    }
}

/// Checks that a pattern is valid on its own, so that it may be joined with others.
///
/// # Errors
///
/// Returns the errors of `Regex::with_syntax`.
pub fn check_alone(alloc: Global, options: &Options<'_>, pattern: &str) -> Result<(), Error>
    ensures { IfOk result (λ _. (tree : Tree)
        × ParsesEcmaScript (tree_flags options.now.ignore_case) (chars pattern.now) tree) }
{
    let _alone = Regex::with_syntax(alloc, pattern, flags(options), SYNTAX)?;
    Ok(())
}

/// Prints why a pattern is refused, with a `^` below the position of the error.
///
/// # Errors
///
/// Returns an error if writing or an allocation fails.
pub fn print_pattern_error(
    rt: &HostRuntime,
    options: &Options<'_>,
    pattern: &str,
    why: &Error,
) -> io::Result<()> {
    match Regex::diagnose_with_syntax(rt.alloc(), pattern, flags(options), SYNTAX)? {
        Some(told) => {
            let below = told.below_text(pattern);
            eprintln!(rt; "use_grep: {told}\n{below}")
        }
        None => eprintln!(rt; "use_grep: {why}"),
    }
}
