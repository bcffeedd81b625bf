//! Texts in cells of a table in Markdown.
ghost use Rattle.std.specs.Prelude.{◌≡◌, ◌++◌, IfOk, OnOk, string_bytes};
ghost use Rattle.smap_view_page.specs.Markdown as spec;

use smap_system::printable;
use std::alloc::{AllocError, Global};

/// Whether a character stands for itself in each form of Markdown and HTML.
fn is_plain(c: char) -> bool
    ensures { result ≡ spec.is_plain c }
{
    matches!(c, '0'..='9' | 'A'..='Z' | 'a'..='z' | ',' | '-' | '.' | '/' | '\u{80}'..)
}

/// A character by its number.
fn reference(alloc: Global, c: char) -> Result<String, AllocError>
    ensures { IfOk result (λ t. string_bytes t ≡ spec.reference c) }
{
    let number = c as u32;
    format!(in alloc; "&#{number};")
}

fn push_char(alloc: Global, text: &mut String, c: char) -> Result<(), AllocError>
    ensures { OnOk result (string_bytes text.new ≡ string_bytes text.old ++ spec.char_text c) }
{
    if is_plain(c) {
        return text.push(c);
    }
    let number = reference(alloc, c)?;
    text.push_str(number.as_str())
}

/// A text as code in a cell.
fn code(alloc: Global, text: &str) -> Result<String, AllocError>
    ensures { IfOk result (λ t. string_bytes t ≡ spec.code text.now) }
{
    let mut made = String::new(alloc);
    for c in text.chars() {
        push_char(alloc, &mut made, c)?;
    }
    Ok(made)
}

/// Appends a cell of a row with a text in it, as code. All but letters, digits and four signs is written by
/// its number, so no text ends its cell, or begins anything else.
///
/// # Errors
///
/// `AllocError`.
pub fn push_cell(alloc: Global, text: &mut String, cell: &str) -> Result<(), AllocError>
    ensures { OnOk result (string_bytes text.new ≡ string_bytes text.old ++ spec.cell cell.now) }
{
    let cell = printable(alloc, cell.as_bytes())?;
    let cell = code(alloc, cell.as_str())?;
    let cell = cell.as_str();
    let cell = format!(in alloc; "| <code>{cell}</code> ")?;
    text.push_str(cell.as_str())
}
