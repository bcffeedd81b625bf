//! The text of a line of a source, as it is shown: cut, and with control characters escaped.
ghost use Rattle.std.specs.Prelude.{◌≡◌, ◌+◌, ◌≤◌, ◌||◌, length, min};
ghost use Rattle.smap_logs.specs.Shown as spec;

use std::alloc::{AllocError, Global};

/// The most characters of a line that are shown.
const MAX_SHOWN: usize = 200;

/// Which characters of a text are shown, from the first to before the last, of this many.
#[derive(Clone, Copy)]
pub(crate) struct Window {
    pub(crate) start: usize,
    pub(crate) end: usize,
    pub(crate) count: usize,
}

/// The characters that are shown of a text with this many, around one of them.
fn window_around(count: usize, middle: usize) -> Window
    ensures shown { result.end ≡ result.start + min count 200 }
    ensures within { result.end ≤ count }
    ensures count { result.count ≡ count }
{
    if count <= MAX_SHOWN {
        return Window {
            start: 0,
            end: count,
            count,
        };
    }
    let start = middle.saturating_sub(MAX_SHOWN / 2).min(count - MAX_SHOWN);
    Window {
        start,
        end: start + MAX_SHOWN,
        count,
    }
}

fn count_chars(text: &str) -> usize {
    text.chars().count()
}

/// The character that has this UTF-16 unit, counted from 0; as many as there are if none has.
fn char_at_unit(text: &str, unit: usize) -> usize {
    let mut units = 0usize;
    let mut count = 0usize;
    for c in text.chars() {
        units = units.saturating_add(c.len_utf16());
        if units > unit {
            return count;
        }
        count = count.saturating_add(1);
    }
    count
}

/// How many UTF-16 units a text has.
pub(crate) fn count_units(text: &str) -> usize {
    let mut units = 0usize;
    for c in text.chars() {
        units = units.saturating_add(c.len_utf16());
    }
    units
}

/// Whether a byte isn't the first one of its character.
fn goes_on(b: u8) -> bool {
    b & 0xc0 == 0x80
}

/// Where the character is that has this UTF-16 unit, and how many units are before it; the end of the text if
/// none has.
fn place_of_unit(text: &[u8], unit: usize) -> (usize, usize)
    ensures { result.0 ≤ length text.now }
{
    let mut units = 0usize;
    let mut next = 0usize;
    for at in 0..text.len() {
        let b = text[at];
        if !goes_on(b) {
            units = next;
            next = next.saturating_add(if b >= 0xf0 { 2 } else { 1 });
            if next > unit {
                return (at, units);
            }
        }
    }
    (text.len(), next)
}

/// Where the character is that many before this place, or the beginning.
fn back(text: &[u8], place: usize, count: usize) -> usize
    requires { place ≤ length text.now }
    ensures { result ≤ place }
{
    let mut left = count;
    for at in (0..place).rev() {
        if !goes_on(text[at]) {
            left = left.saturating_sub(1);
            if left == 0 {
                return at;
            }
        }
    }
    0
}

/// Where the character is that many behind this place, or the end.
fn forth(text: &[u8], place: usize, count: usize) -> usize {
    let mut left = count;
    for at in place..text.len() {
        if !goes_on(text[at]) {
            if left == 0 {
                return at;
            }
            left = left.saturating_sub(1);
        }
    }
    text.len()
}

/// The part of a text of which characters may be shown around this UTF-16 unit, with one more on each side
/// where there is one; and which unit of the part it is. A line may be a whole program: of it this reads once
/// what is before the unit.
pub(crate) fn near(text: &str, unit: usize) -> (&str, usize) {
    let bytes = text.as_bytes();
    let (place, units) = place_of_unit(bytes, unit);
    let start = back(bytes, place, MAX_SHOWN + 1);
    let end = forth(bytes, place, MAX_SHOWN + 1);
    let front = count_units(text.get(start..place).unwrap_or(""));
    let left_out = units.saturating_sub(front);
    (
        text.get(start..end).unwrap_or(""),
        unit.saturating_sub(left_out),
    )
}

/// The characters that are shown of a text: those around this UTF-16 unit, counted from 0.
pub(crate) fn window_of(text: &str, unit: usize) -> Window {
    window_around(count_chars(text), char_at_unit(text, unit))
}

/// Whether a character is a control character other than a tab.
fn is_control(c: char) -> bool
    ensures { result ≡ spec.is_control c }
{
    c <= '\u{8}' || ('\u{a}' <= c && c <= '\u{1f}') || ('\u{7f}' <= c && c <= '\u{9f}')
}

/// Whether a character turns the direction of text.
fn is_direction(c: char) -> bool
    ensures { result ≡ spec.is_direction c }
{
    c == '\u{200e}'
        || c == '\u{200f}'
        || ('\u{202a}' <= c && c <= '\u{202e}')
        || ('\u{2066}' <= c && c <= '\u{2069}')
}

/// Whether a character is written as an escape, since a terminal may act on it.
fn is_escaped(c: char) -> bool
    ensures { result ≡ (spec.is_control c || spec.is_direction c) }
{
    is_control(c) || is_direction(c)
}

/// Adds a character, or its escape.
fn add_char(alloc: Global, c: char, row: &mut String) -> Result<(), AllocError> {
    if is_escaped(c) {
        let code = c as u32;
        let escape = format!(in alloc; "\\u{code:04x}")?;
        row.push_str(&escape)
    } else {
        row.push(c)
    }
}

/// Adds the characters that are shown, and a mark where the text is cut.
pub(crate) fn add_text(
    alloc: Global,
    text: &str,
    window: Window,
    row: &mut String,
) -> Result<(), AllocError> {
    if window.start > 0 {
        row.push('…')?;
    }
    for (i, c) in text.chars().enumerate() {
        if i >= window.start && i < window.end {
            add_char(alloc, c, row)?;
        }
    }
    if window.end < window.count {
        row.push('…')?;
    }
    Ok(())
}

/// Adds a space for each UTF-16 unit of a character, of which this many are before the column; a tab for a
/// tab.
fn add_blank(c: char, units: usize, row: &mut String) -> Result<(), AllocError> {
    if units == 0 {
        return Ok(());
    }
    if c == '\t' {
        return row.push('\t');
    }
    row.push(' ')?;
    if units > 1 && c.len_utf16() > 1 {
        row.push(' ')?;
    }
    Ok(())
}

/// Adds blanks up to below this UTF-16 unit of what is shown, counted from 0.
pub(crate) fn add_blanks(
    text: &str,
    window: Window,
    unit: usize,
    row: &mut String,
) -> Result<(), AllocError> {
    if window.start > 0 {
        row.push(' ')?;
    }
    let mut before = unit;
    for (i, c) in text.chars().enumerate() {
        if i >= window.start && i < window.end {
            add_blank(c, before, row)?;
        }
        before = before.saturating_sub(c.len_utf16());
    }
    Ok(())
}
