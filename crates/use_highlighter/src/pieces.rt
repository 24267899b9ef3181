//! Splits a text into pieces: its tokens, and the texts between them.

ghost use Rattle.std.specs.Prelude.{◌≡◌, ◌++◌, ◌∷◌, [], IfErr, IfOk};
ghost use Rattle.regress_match.specs.{ProgramTreesAndAnswers.{utf8_answers}, CompileErrors.{IsOutOfMemory}};
ghost use Rattle.use_highlighter.specs.{Pieces.{IsSplitAtMatches}, Tokens.{names_of}};

use crate::tokens::{Token, token_of};
use regress_match::{Regex, SearchError};
use std::alloc::{AllocError, Global};

/// A part of a text: its range in bytes, and the index of its token if it is one.
#[derive(Clone, Copy, Debug, PartialEq, Eq)]
pub struct Piece {
    pub start: usize,
    pub end: usize,
    pub token: Option<usize>,
}

/// Splits a text into pieces. Before each match, there is a piece with the text before it, which
/// may be empty. The last piece is the rest of the text.
///
/// # Errors
///
/// Returns `Memory` if an allocation fails.
pub fn cut(
    alloc: Global,
    re: &Regex,
    tokens: &[Token<'_>],
    text: &str,
) -> Result<Vec<Piece>, SearchError>
    ensures cut { IfOk result (λ pieces.
        IsSplitAtMatches text.now (names_of tokens.now) (utf8_answers re.now text.now 0) pieces.items) }
    ensures refused { IfErr result IsOutOfMemory }
{
    let mut pieces = Vec::new(alloc);
    let mut from = 0;
    for item in re.find_iter(text)? {
        let found = item?;
        push(&mut pieces, from, found.start(), None)?;
        let token = token_of(tokens, &found);
        push(&mut pieces, found.start(), found.end(), Some(token))?;
        from = found.end();
    }
    push(&mut pieces, from, text.len(), None)?;
    Ok(pieces)
}

// Appends a piece.
fn push(
    pieces: &mut Vec<Piece>,
    start: usize,
    end: usize,
    token: Option<usize>,
) -> Result<(), AllocError>
    ensures { IfOk result (λ _. pieces.new.items
        ≡ pieces.old.items ++ record { start = start; end = end; token = token } ∷ []) }
{
    Ok(pieces.push(Piece { start, end, token })?)
}
