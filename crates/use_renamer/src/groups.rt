//! The named groups of matches.

ghost use Rattle.std.specs.Prelude.{◌≡◌, ◌++◌, IfErr, IfOk, IfSome, option_map, string_bytes};
ghost use Rattle.regress_search.specs.MatchesAsSpecAnswers.{answer_of, range_as_pair};
ghost use Rattle.regress_match.specs.{CompileErrors.{IsOutOfMemory}, ExpansionsAndMatchRanges.{MatchFitsText, IsCharBoundaryRange}};
ghost use Rattle.use_renamer.specs.Names.{group_name_and_text, groups_shown, shown_groups_of_first_match};

use regress_match::{Match, Range, Regex, SearchError};
use std::alloc::{AllocError, Global};

/// Returns the named groups of the first match, for example ` year=2018 month=06`.
///
/// # Errors
///
/// `Memory` if an allocation fails.
pub fn parts(alloc: Global, re: &Regex, name: &str) -> Result<String, SearchError>
    ensures shown { IfOk result (λ s. string_bytes s ≡ shown_groups_of_first_match re.now name.now) }
    ensures refused { IfErr result IsOutOfMemory }
{
    match re.find(name)? {
        Some(found) => Ok(show(alloc, name, &found)?),
        None => Ok(String::new(alloc)),
    }
}

// Returns the named groups of a match in the text.
fn show(alloc: Global, text: &str, found: &Match) -> Result<String, AllocError>
    requires { MatchFitsText text.now (answer_of found.now) }
    ensures { IfOk result (λ s. string_bytes s ≡ groups_shown text.now (answer_of found.now)) }
{
    let mut line = String::new(alloc);
    for (name, range) in found.named_groups() {
        push_group(&mut line, text, name, range)?;
    }
    Ok(line)
}

// Appends a group, if it matched.
fn push_group(
    line: &mut String,
    text: &str,
    name: &str,
    range: Option<Range<usize>>,
) -> Result<(), AllocError>
    requires { IfSome (option_map range_as_pair range) (IsCharBoundaryRange text.now) }
    ensures { IfOk result (λ _. string_bytes line.new
        ≡ string_bytes line.old ++ group_name_and_text text.now (name.now, option_map range_as_pair range)) }
{
    let Some(range) = range else {
        return Ok(());
    };
    line.push_str(" ")?;
    line.push_str(name)?;
    line.push_str("=")?;
    line.push_str(&text[range.start..range.end])
}
