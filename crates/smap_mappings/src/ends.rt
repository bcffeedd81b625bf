//! Mappings that end where the lines of their script do.
ghost use Rattle.std.specs.Prelude.{◌≡◌, ◌++◌, ◌∷◌, [], IfOk, OnOk};
ghost use Rattle.std.specs.List.{cons_option};
ghost use Rattle.smap_mappings.specs.Ends as spec;
ghost use Rattle.smap_mappings.specs.Text.{IsEncodable};

use crate::token::Token;
use crate::widths::is_within;
use smap_vlq::MAX_POSITION;
use std::alloc::{AllocError, Global};

/// What is left of a token: past the ends none has an original.
fn kept(widths: &[usize], token: Token) -> Token
    ensures { result ≡ spec.kept widths.now token }
{
    if is_within(widths, token.line, token.column) {
        return token;
    }
    Token {
        line: token.line,
        column: token.column,
        original: None,
    }
}

/// Whether the next token is on this line, too, before its end.
fn goes_on(widths: &[usize], line: u32, next: Option<Token>) -> bool
    ensures { result ≡ spec.goes_on widths.now line next }
{
    match next {
        Some(token) => token.line == line && is_within(widths, token.line, token.column),
        None => false,
    }
}

/// What stands behind a token if it is the last one before the end of its line: that end.
fn end_behind(widths: &[usize], token: Token, next: Option<Token>) -> Option<Token>
    ensures { result ≡ spec.end_behind widths.now token next }
{
    if goes_on(widths, token.line, next) {
        return None;
    }
    let width = *widths.get(token.line as usize)?;
    if token.column as usize <= width && width < MAX_POSITION as usize {
        return Some(Token {
            line: token.line,
            column: width as u32 + 1,
            original: None,
        });
    }
    None
}

/// Adds what is left of a token, and the end of its line if that is behind it.
fn add_ended(
    all: &mut Vec<Token>,
    widths: &[usize],
    token: Token,
    next: Option<Token>,
) -> Result<(), AllocError>
    ensures { OnOk result (all.new.items ≡ all.old.items
        ++ (spec.kept widths.now token ∷ cons_option (spec.end_behind widths.now token next) [])) }
{
    all.push(kept(widths, token))?;
    if let Some(end) = end_behind(widths, token, next) {
        all.push(end)?;
    }
    Ok(())
}

/// These tokens as those of a script whose lines are so wide: where the last one before the end of a line has
/// an original, that is had up to this end, and what is past it has none. The tokens are those of a map,
/// sorted.
///
/// # Errors
///
/// `AllocError`.
pub fn ended(alloc: Global, tokens: &[Token], widths: &[usize]) -> Result<Vec<Token>, AllocError>
    ensures ended { IfOk result (λ all. all.items ≡ spec.ended widths.now tokens.now) }
    ensures encodable { IfOk result (λ all. IsEncodable tokens.now → IsEncodable all.items) }
{
    let mut all = Vec::new(alloc);
    for i in 0..tokens.len() {
        add_ended(&mut all, widths, tokens[i], tokens.get(i + 1).copied())?;
    }
    Ok(all)
}
