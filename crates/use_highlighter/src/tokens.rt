//! The tokens to search for.

ghost use Rattle.std.specs.Prelude.{◌≡◌, ◌++◌, [], All, IfOk, chars, is_some, string_bytes};
ghost use Rattle.regex_meaning.specs.EcmaGrammarWithAnnexB.{ecmascript};
ghost use Rattle.regex_meaning.specs.{FlagLettersAndEscaping.{flags_from_letters}, MatchGroupsByNumberAndName.{named_group}};
ghost use Rattle.regress_search.specs.MatchesAsSpecAnswers.{answer_of};
ghost use Rattle.regress_match.specs.{PublicFlagsAsSpecFlags.{spec_flags_of}, ProgramTreesAndAnswers.{IsCompiledWithSyntax}};
ghost use Rattle.use_highlighter.specs.Tokens.{HasValidPattern, any_of, alternative_for_token, names_of, token_of};

use anyhow::{Result, bail};
use regress_match::{Error, Flags, Match, Regex, Syntax};
use std::alloc::{AllocError, Global};

/// The language of the tokens' patterns.
const SYNTAX: Syntax = Syntax::EcmaScript2018;

/// A token: its name, and the pattern that matches it.
#[derive(Clone, Copy, Debug)]
pub struct Token<'a> {
    pub name: &'a str,
    pub pattern: &'a str,
}

/// Reads tokens. Each word is `NAME=PATTERN`.
///
/// # Errors
///
/// Returns an error if a word has no `=`, or if an allocation fails.
pub fn tokens<'a>(alloc: Global, words: &[&'a str]) -> Result<Vec<Token<'a>>> {
    let mut tokens = Vec::new(alloc);
    for word in words {
        let Some((name, pattern)) = word.split_once('=') else {
            bail!("{word}: a token is NAME=PATTERN");
        };
        tokens.push(Token { name, pattern })?;
    }
    Ok(tokens)
}

/// Compiles the joined pattern, which matches each of the tokens.
///
/// # Errors
///
/// Returns an error if the pattern of a token is not valid on its own, if a name is not valid for a
/// group, or if an allocation fails.
pub fn compile(alloc: Global, tokens: &[Token<'_>]) -> Result<Regex>
    ensures compiled { IfOk result (IsCompiledWithSyntax ecmascript (flags_from_letters [])
        (chars (any_of tokens.now))) }
    ensures alone { IfOk result (λ _. All HasValidPattern tokens.now) }
{
    for token in tokens {
        refuse_invalid_token_pattern(alloc, token)?;
    }
    let any = any_of(alloc, tokens)?;
    let why = match Regex::with_syntax(alloc, any.as_str(), flags(), SYNTAX) {
        Ok(re) => return Ok(re),
        Err(why) => why,
    };
    match why.diagnosis() {
        Some(diagnosis) => bail!(
            "all tokens: {diagnosis}\n{}",
            diagnosis.below_text(any.as_str())
        ),
        None => bail!("{why}"),
    }
}

// Returns the flags of the patterns: none.
fn flags() -> Flags
    ensures { spec_flags_of result ≡ flags_from_letters [] }
{
    Flags::default()
}

// Refuses a token whose pattern is invalid.
fn refuse_invalid_token_pattern(alloc: Global, token: &Token<'_>) -> Result<()>
    ensures { IfOk result (λ _. HasValidPattern token.now) }
{
    let name = token.name;
    match Regex::diagnose_with_syntax(alloc, token.pattern, flags(), SYNTAX)? {
        Some(error) => bail!("{name}: {error}\n{}", error.below_text(token.pattern)),
        None => Ok(()),
    }
}

// Returns a pattern that matches what one of the tokens matches, in a group with the token's name.
// It begins with `[]`, which matches nothing, so that each token follows a `|`.
fn any_of(alloc: Global, tokens: &[Token<'_>]) -> Result<String, AllocError>
    ensures { IfOk result (λ s. string_bytes s ≡ any_of tokens.now) }
{
    let mut any = String::from_str(alloc, "[]")?;
    for token in tokens {
        push_token(&mut any, token)?;
    }
    Ok(any)
}

// Appends a token.
fn push_token(any: &mut String, token: &Token<'_>) -> Result<(), AllocError>
    ensures { IfOk result (λ _. string_bytes any.new ≡ string_bytes any.old ++ alternative_for_token token.now) }
{
    any.push_str("|(?<")?;
    any.push_str(token.name)?;
    any.push_str(">")?;
    any.push_str(token.pattern)?;
    any.push_str(")")
}

/// Returns the index of the token that a match is: the first one whose group matched.
pub fn token_of(tokens: &[Token<'_>], found: &Match) -> usize
    ensures { result ≡ token_of (names_of tokens.now) (answer_of found.now) }
{
    let mut place = 0;
    let mut left = tokens;
    while let [token, behind @ ..] = left {
        if has_group_matched(found, token.name) {
            return place;
        }
        place += 1;
        left = behind;
    }
    place
}

// Checks whether the group with this name matched.
fn has_group_matched(found: &Match, name: &str) -> bool
    ensures { result ≡ is_some (named_group (answer_of found.now) name.now) }
{
    match found.named_group(name) {
        Some(_) => true,
        None => false,
    }
}
