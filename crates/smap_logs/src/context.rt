//! The lines of a source around a position.
ghost use Rattle.std.specs.Io.{StartsWith};

use crate::shown::{add_blanks, add_text, count_units, near, window_of};
use crate::source_lines::lines_between;
use std::alloc::{AllocError, Global};

/// Which line is marked, and where, and how wide the numbers are.
#[derive(Clone, Copy)]
struct Shown {
    marked: u32,
    /// From 1, in UTF-16 units.
    column: u32,
    width: usize,
}

fn add_spaces(count: usize, row: &mut String) -> Result<(), AllocError> {
    for _ in 0..count {
        row.push(' ')?;
    }
    Ok(())
}

/// Adds what stands before a line's text.
fn add_head(mark: &str, number: &str, width: usize, row: &mut String) -> Result<(), AllocError> {
    row.push_str(mark)?;
    add_spaces(width.saturating_sub(number.len()), row)?;
    row.push_str(number)?;
    row.push_str(" | ")
}

/// Adds the line with `^` under this unit of the text, if the text has it or ends before it.
fn add_caret(text: &str, unit: usize, width: usize, row: &mut String) -> Result<(), AllocError> {
    if unit > count_units(text) {
        return Ok(());
    }
    add_head("  ", "", width, row)?;
    add_blanks(text, window_of(text, unit), unit, row)?;
    row.push_str("^\n")
}

/// Adds a line that isn't the marked one.
fn add_other(
    alloc: Global,
    text: &str,
    number: &str,
    width: usize,
    row: &mut String,
) -> Result<(), AllocError> {
    add_head("  ", number, width, row)?;
    let (text, _) = near(text, 0);
    add_text(alloc, text, window_of(text, 0), row)?;
    row.push('\n')
}

/// Adds the marked line, and the line with `^` under the column.
fn add_marked(
    alloc: Global,
    text: &str,
    number: &str,
    shown: Shown,
    row: &mut String,
) -> Result<(), AllocError> {
    let (text, unit) = near(text, (shown.column as usize).saturating_sub(1));
    add_head("> ", number, shown.width, row)?;
    add_text(alloc, text, window_of(text, unit), row)?;
    row.push('\n')?;
    if shown.column == 0 {
        return Ok(());
    }
    add_caret(text, unit, shown.width, row)
}

/// Adds what is shown of a line with this number.
fn add_row(
    alloc: Global,
    text: &str,
    number: u32,
    shown: Shown,
    out: &mut Vec<u8>,
) -> Result<(), AllocError>
    ensures { StartsWith out.new.items out.old.items }
{
    let mut row = String::new(alloc);
    let digits = format!(in alloc; "{number}")?;
    if number == shown.marked {
        add_marked(alloc, text, &digits, shown, &mut row)?;
    } else {
        add_other(alloc, text, &digits, shown.width, &mut row)?;
    }
    out.extend_from_slice(row.as_bytes())
}

/// Adds the lines that are shown, of which the first has this number.
fn add_rows(
    source: &str,
    lines: &[(usize, usize)],
    first: u32,
    shown: Shown,
    out: &mut Vec<u8>,
) -> Result<(), AllocError>
    ensures { StartsWith out.new.items out.old.items }
{
    let alloc = *out.allocator();
    let mut number = first;
    for line in lines {
        let text = source.get(line.0..line.1).unwrap_or("");
        add_row(alloc, text, number, shown, out)?;
        number = number.saturating_add(1);
    }
    Ok(())
}

/// Writes the lines of a source around one of them, as Node and compilers show it: `count` lines before and
/// after the line with this number, those that there are, each with its number, and below the marked line a
/// `^` under the column. Line and column count from 1, the column in UTF-16 units.
///
/// A line ends at a line feed, at a carriage return, at both in this order, at U+2028 or at U+2029; nothing
/// behind the last of these is no line. A line number past the end writes nothing, and so does 0. No `^` is
/// written for column 0, and for one that is more than one past the end of the text. Of a longer text 200
/// characters are shown, those around the column or else the first, with `…` where it is cut. Control
/// characters other than tabs, and those that turn the direction of text, are written as `\u001b`.
///
/// # Errors
///
/// `AllocError`; a part may have been written.
pub fn add_context(
    source: &str,
    line: u32,
    column: u32,
    count: u32,
    out: &mut Vec<u8>,
) -> Result<(), AllocError>
    ensures { StartsWith out.new.items out.old.items }
{
    let alloc = *out.allocator();
    let first = line.saturating_sub(count).max(1);
    let (lines, last) = lines_between(alloc, source.as_bytes(), first, line.saturating_add(count))?;
    if line == 0 || line > last {
        return Ok(());
    }
    let digits = format!(in alloc; "{last}")?;
    let shown = Shown {
        marked: line,
        column,
        width: digits.len(),
    };
    add_rows(source, &lines, first, shown, out)
}
