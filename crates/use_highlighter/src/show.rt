//! Shows pieces on a terminal or in a page.

ghost use Rattle.std.specs.Prelude.{◌≡◌, ◌++◌, IfOk, chars, flat_map, string_bytes};
ghost use Rattle.regex_meaning.specs.Laws.{Each};
ghost use Rattle.use_highlighter.specs.{Pieces.{IsSliceOf}, Tokens.{names_of}};
ghost use Rattle.use_highlighter.specs.Shown.{text_that_begins_token, colour_of, escaped, escaped_char, name_at, shown, part_in_style, span_of, text_in_style};

use crate::pieces::Piece;
use crate::tokens::Token;
use std::alloc::{AllocError, Global};

/// How tokens are shown.
#[derive(Clone, Copy, Debug, PartialEq, Eq)]
pub enum Style {
    /// In the colours of a terminal.
    Ansi,
    /// As HTML spans, whose class is the token's name.
    Html,
}

/// Returns the text of the pieces, with the tokens in this style.
///
/// # Errors
///
/// `AllocError` if an allocation fails.
pub fn show(
    alloc: Global,
    style: Style,
    tokens: &[Token<'_>],
    text: &str,
    pieces: &[Piece],
) -> Result<String, AllocError>
    requires { Each (IsSliceOf text.now) pieces.now }
    ensures { IfOk result (λ s. string_bytes s ≡ flat_map (shown style (names_of tokens.now) text.now) pieces.now) }
{
    let mut made = String::new(alloc);
    for piece in pieces {
        push_piece(
            &mut made,
            style,
            tokens,
            &text[piece.start..piece.end],
            piece.token,
        )?;
    }
    Ok(made)
}

// Appends a piece. For an empty piece, nothing is appended.
fn push_piece(
    made: &mut String,
    style: Style,
    tokens: &[Token<'_>],
    part: &str,
    token: Option<usize>,
) -> Result<(), AllocError>
    ensures { IfOk result (λ _. string_bytes made.new
        ≡ string_bytes made.old ++ part_in_style style (names_of tokens.now) token part.now) }
{
    if part.is_empty() {
        return Ok(());
    }
    let Some(number) = token else {
        return push_text(made, style, part);
    };
    push_text_that_begins_token(made, style, tokens, number)?;
    push_text(made, style, part)?;
    made.push_str(match style {
        Style::Ansi => "\u{1b}[m",
        Style::Html => "</span>",
    })
}

// Appends the text that begins a token.
fn push_text_that_begins_token(
    made: &mut String,
    style: Style,
    tokens: &[Token<'_>],
    number: usize,
) -> Result<(), AllocError>
    ensures { IfOk result (λ _. string_bytes made.new
        ≡ string_bytes made.old ++ text_that_begins_token style (names_of tokens.now) number) }
{
    match style {
        Style::Ansi => push_colour(made, number),
        Style::Html => push_html_tag(made, tokens, number),
    }
}

// Appends the escape sequence for the colour of a token.
fn push_colour(made: &mut String, number: usize) -> Result<(), AllocError>
    ensures { IfOk result (λ _. string_bytes made.new ≡ string_bytes made.old ++ colour_of number) }
{
    made.push_str("\u{1b}[3")?;
    made.push(char::from(b'1' + (number % 6) as u8))?;
    made.push_str("m")
}

// Appends the tag that begins a token.
fn push_html_tag(made: &mut String, tokens: &[Token<'_>], number: usize) -> Result<(), AllocError>
    ensures { IfOk result (λ _. string_bytes made.new
        ≡ string_bytes made.old ++ span_of (name_at (names_of tokens.now) number)) }
{
    made.push_str("<span class=\"")?;
    push_name(made, tokens, number)?;
    made.push_str("\">")
}

// Appends the name of a token as HTML.
fn push_name(made: &mut String, tokens: &[Token<'_>], number: usize) -> Result<(), AllocError>
    ensures { IfOk result (λ _. string_bytes made.new
        ≡ string_bytes made.old ++ escaped (name_at (names_of tokens.now) number)) }
{
    push_escaped(made, name_of(tokens, number))
}

// Returns the name of a token.
fn name_of<'a>(tokens: &[Token<'a>], number: usize) -> &'a str
    ensures { result.now ≡ name_at (names_of tokens.now) number }
{
    match tokens.get(number) {
        Some(token) => token.name,
        None => "",
    }
}

// Appends a text in this style.
fn push_text(made: &mut String, style: Style, part: &str) -> Result<(), AllocError>
    ensures { IfOk result (λ _. string_bytes made.new ≡ string_bytes made.old ++ text_in_style style part.now) }
{
    match style {
        Style::Ansi => made.push_str(part),
        Style::Html => push_escaped(made, part),
    }
}

// Appends a text as HTML.
#[tactic(auto, unfolding(crate::specs::Shown::escaped))]
fn push_escaped(made: &mut String, part: &str) -> Result<(), AllocError>
    ensures { IfOk result (λ _. string_bytes made.new ≡ string_bytes made.old ++ escaped part.now) }
{
    let all = chars_of(*made.allocator(), part)?;
    push_chars(made, &all)
}

fn chars_of(alloc: Global, part: &str) -> Result<Vec<char>, AllocError>
    ensures { IfOk result (λ all. all.items ≡ chars part.now) }
{
    part.chars().collect(alloc)
}

fn push_chars(made: &mut String, all: &[char]) -> Result<(), AllocError>
    ensures { IfOk result (λ _. string_bytes made.new ≡ string_bytes made.old ++ flat_map escaped_char all.now) }
{
    for c in all {
        push_char(made, *c)?;
    }
    Ok(())
}

// Appends a character as HTML.
fn push_char(made: &mut String, c: char) -> Result<(), AllocError>
    ensures { IfOk result (λ _. string_bytes made.new ≡ string_bytes made.old ++ escaped_char c) }
{
    match c {
        '&' => made.push_str("&amp;"),
        '<' => made.push_str("&lt;"),
        '>' => made.push_str("&gt;"),
        '"' => made.push_str("&quot;"),
        _ => made.push(c),
    }
}
