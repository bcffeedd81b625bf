//! Where in the text of a map its fault is.
use serde_json::{Value, json};
use smap_fault_places::{Point, Start, TextRange, point_of, range_of, start_of};
use smap_record::Fault;
use std::alloc::{AllocError, Global};

/// How many bytes a page shows at most before a fault, of it and behind it.
const AROUND: usize = 1_500;

/// Stands for what is left out.
const ELLIPSIS: &str = "\u{2026}";

/// Whether no character begins with this byte.
fn is_inner(byte: u8) -> bool {
    matches!(byte, 128..=191)
}

/// The first place from this one on at which a character begins.
fn character_from(bytes: &[u8], at: usize) -> usize {
    let at = at.min(bytes.len());
    let rest = bytes.get(at..).unwrap_or(&[]);
    at.saturating_add(rest.iter().take_while(|b| is_inner(**b)).count())
}

/// Bytes between two places as text.
fn part(alloc: Global, bytes: &[u8], from: usize, to: usize) -> Result<String, AllocError> {
    let bytes = bytes.get(from..to).unwrap_or(&[]);
    String::from_utf8_lossy(alloc, bytes)
}

/// The text before a fault.
fn before(alloc: Global, bytes: &[u8], start: usize) -> Result<String, AllocError> {
    let from = character_from(bytes, start.saturating_sub(AROUND));
    let text = part(alloc, bytes, from, start)?;
    if from == 0 {
        return Ok(text);
    }
    let text = text.as_str();
    format!(in alloc; "{ELLIPSIS}{text}")
}

/// The text behind a place.
fn behind(alloc: Global, bytes: &[u8], end: usize) -> Result<String, AllocError> {
    let to = character_from(bytes, end.saturating_add(AROUND));
    let text = part(alloc, bytes, end, to)?;
    if to == bytes.len() {
        return Ok(text);
    }
    let text = text.as_str();
    format!(in alloc; "{text}{ELLIPSIS}")
}

/// The place of a fault: its line and column, from 1, its text, what stands around it, and whether it is in a
/// segment.
fn place(
    alloc: Global,
    bytes: &[u8],
    range: TextRange,
    segment: bool,
) -> Result<Value, AllocError> {
    let Point { line, column } = point_of(bytes, range.start);
    let most = character_from(bytes, range.start.saturating_add(AROUND));
    let end = range.end.min(most);
    let before = before(alloc, bytes, range.start)?;
    let fault = part(alloc, bytes, range.start, end)?;
    let after = if end < range.end {
        String::from_str(alloc, ELLIPSIS)?
    } else {
        behind(alloc, bytes, end)?
    };
    json!(in alloc; {
        "after": &after,
        "before": &before,
        "column": column,
        "fault": &fault,
        "line": line,
        "segment": segment
    })
}

/// Where a fault is in the text of a map, unless it has no place, or the file is compressed.
pub(crate) fn place_of(alloc: Global, bytes: &[u8], fault: &Fault) -> Result<Value, AllocError> {
    if start_of(bytes) == Start::Gzip {
        return Ok(Value::Null);
    }
    match range_of(alloc, bytes, fault)? {
        Some(range) => place(alloc, bytes, range, fault.place.is_some()),
        None => Ok(Value::Null),
    }
}
