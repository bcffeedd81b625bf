//! The lines of a source, as ECMAScript ends them, and its places by line and column.
ghost use Rattle.std.specs.Prelude.{◌≡◌, ◌+◌, ◌^◌, ◌<◌, ◌≤◌, IfOk, IfSome, drop, length, option_map, ℕ};
ghost use Rattle.smap_functions.specs.Lines.{AreLines};
ghost use Rattle.smap_functions.specs.Lines as spec;

use memchr::memchr3;
use std::alloc::{AllocError, Global};

/// How many bytes are read behind the first one outside ASCII of a line, to find a column.
const MOST_READ: usize = 1024;

/// How many bytes the line terminator has with which a text begins; 0 if it begins with none.
fn terminator_len(text: &[u8]) -> usize
    ensures value { result ≡ spec.terminator_len text.now }
    ensures within { result ≤ length text.now }
{
    match text {
        [b'\r', b'\n', ..] => 2,
        [b'\n' | b'\r', ..] => 1,
        [0xe2, 0x80, 0xa8 | 0xa9, ..] => 3,
        _ => 0,
    }
}

/// A line of a source: where its text ends, and where the line behind it begins.
#[derive(Clone, Copy)]
pub struct SourceLine {
    pub end: usize,
    pub next: usize,
}

/// The line that begins here. The last one need not have a terminator.
pub fn line_at(source: &[u8], start: usize) -> SourceLine
    requires { start ≤ length source.now }
    ensures text { start ≤ result.end }
    ensures terminator { result.end ≤ result.next }
    ensures within { result.next ≤ length source.now }
    ensures end { result.end ≡ spec.line_end source.now start }
    ensures next { result.next ≡ result.end + spec.terminator_len (drop result.end source.now) }
{
    let mut at = start;
    while let Some(found) = memchr3(b'\n', b'\r', 0xe2, &source[at..]) {
        let end = at + found;
        let len = terminator_len(&source[end..]);
        if len > 0 {
            return SourceLine {
                end,
                next: end + len,
            };
        }
        at = end + 1;
    }
    SourceLine {
        end: source.len(),
        next: source.len(),
    }
}

/// A line by the places of its text: where it begins, how many bytes it has before the first one outside
/// ASCII, and where it ends.
#[derive(Clone, Copy)]
pub(crate) struct Line {
    start: usize,
    plain: usize,
    end: usize,
}

/// How many bytes are before the first one outside ASCII.
fn plain_len(row: &[u8]) -> usize
    ensures { result ≡ spec.plain_len row.now }
{
    row.iter().take_while(|b| **b < 128).count()
}

/// All lines of a source.
pub(crate) fn lines(alloc: Global, source: &[u8]) -> Result<Vec<Line>, AllocError>
    ensures { IfOk result (λ ls. AreLines source.now ls.items) }
{
    let mut lines = Vec::new(alloc);
    let mut start = 0;
    loop {
        let found = line_at(source, start);
        lines.push(Line {
            start,
            plain: plain_len(&source[start..found.end]),
            end: found.end,
        })?;
        if found.end == found.next {
            return Ok(lines);
        }
        start = found.next;
    }
}

/// Whether no character of UTF-8 begins with this byte.
fn continues(b: u8) -> bool
    ensures { result ≡ spec.continues b }
{
    128 <= b && b < 192
}

/// The UTF-16 units of the character that begins with this byte.
fn units(b: u8) -> usize
    ensures { result ≡ spec.units b }
{
    if continues(b) {
        return 0;
    }
    if b < 240 { 1 } else { 2 }
}

/// The place of a column of a text, if it is at most 1,024 bytes behind its start.
fn behind_units(text: &[u8], column: usize) -> Option<usize>
    ensures { result ≡ spec.at_most 1024 (spec.column_place text.now column) }
{
    let mut left = column;
    for (at, b) in text.iter().enumerate() {
        if at > MOST_READ {
            return None;
        }
        if left == 0 && !continues(*b) {
            return Some(at);
        }
        left = left.saturating_sub(units(*b));
    }
    if left == 0 && text.len() <= MOST_READ {
        Some(text.len())
    } else {
        None
    }
}

/// A place so many bytes further.
fn shifted(by: usize, place: Option<usize>) -> Option<usize>
    ensures { IfSome place (λ at. by + at < 2 ^ 64) → result ≡ option_map (λ at. by + at) place }
{
    match place {
        Some(at) => Some(by.saturating_add(at)),
        None => None,
    }
}

/// The place of a column in a line that has so many bytes before the first one outside ASCII.
fn place_in(row: &[u8], plain: usize, column: usize) -> Option<usize>
    ensures { plain ≡ spec.plain_len row.now → result ≡ spec.near_place row.now column }
{
    if column < plain {
        return Some(column);
    }
    if plain > row.len() {
        return None;
    }
    shifted(plain, behind_units(&row[plain..], column - plain))
}

/// The place of a column in this line.
fn place_at(source: &[u8], line: Line, column: u32) -> Option<usize>
    ensures { (start : ℕ) → start ≤ length source.now → line ≡ spec.line_from source.now start
        → result ≡ option_map (λ at. start + at) (spec.near_place (spec.line_text source.now start) column) }
{
    if line.start > line.end || line.end > source.len() {
        return None;
    }
    let row = &source[line.start..line.end];
    shifted(line.start, place_in(row, line.plain, column as usize))
}

/// The place of a line and a column, which count from 0, the column in UTF-16 units; none if there is none,
/// or if it is more than 1,024 bytes behind the first one of its line outside ASCII.
pub(crate) fn place(source: &[u8], lines: &[Line], line: u32, column: u32) -> Option<usize>
    ensures { AreLines source.now lines.now → result ≡ spec.place_of source.now line column }
{
    let line = line as usize;
    if line >= lines.len() {
        return None;
    }
    place_at(source, lines[line], column)
}
