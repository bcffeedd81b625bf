//! What is wrong in a segment, in words after the message of its fault.
use crate::segment::span_of;
use crate::shown_values::quoted;
use serde_json::Value;
use smap_mappings::SegmentPlace;
use smap_record::Kind;
use smap_vlq::read_segment;
use std::alloc::{AllocError, Global};

/// Which number of a segment a fault is about, if it is about a sum of them.
fn field_of(kind: Kind) -> Option<usize> {
    match kind {
        Kind::Source => Some(1),
        Kind::OriginalLine => Some(2),
        Kind::OriginalColumn => Some(3),
        Kind::Name => Some(4),
        _ => None,
    }
}

/// What these numbers of all segments of a string add up to.
fn sum_of(mappings: &[u8], field: usize) -> i64 {
    let mut sum: i64 = 0;
    for segment in mappings.split(|b| *b == b',' || *b == b';') {
        if let Ok(fields) = read_segment(segment) {
            sum = sum.saturating_add(fields.numbers.get(field).map_or(0, |n| i64::from(*n)));
        }
    }
    sum
}

/// How many entries a map has in its list with this name.
fn list_len(map: Option<&Value>, name: &str) -> usize {
    match map.and_then(|map| map.get(name)) {
        Some(Value::Array(list)) => list.len(),
        _ => 0,
    }
}

/// The sum that is out of bounds, and how long the list is that it counts in.
fn sum_words(
    alloc: Global,
    kind: Kind,
    sum: i64,
    map: Option<&Value>,
) -> Result<String, AllocError> {
    let list = match kind {
        Kind::Source => "sources",
        Kind::Name => "names",
        _ => return format!(in alloc; " {sum}"),
    };
    let len = list_len(map, list);
    format!(in alloc; " {sum}, and the map lists {len}")
}

/// What is wrong in the segment with this place of a string of mappings, in this map: the index or the
/// position that is out of bounds, or what is written where no numbers are read.
pub(crate) fn segment_detail(
    alloc: Global,
    kind: Kind,
    map: Option<&Value>,
    mappings: &str,
    place: SegmentPlace,
) -> Result<String, AllocError> {
    let mappings = mappings.as_bytes();
    let Some(span) = span_of(mappings, place) else {
        return Ok(String::new(alloc));
    };
    if let Some(field) = field_of(kind) {
        return sum_words(alloc, kind, sum_of(&mappings[..span.end], field), map);
    }
    if !matches!(kind, Kind::Number(_, _) | Kind::Count(_)) {
        return Ok(String::new(alloc));
    }
    let written = String::from_utf8_lossy(alloc, &mappings[span.start..span.end])?;
    let written = quoted(alloc, written.as_str())?;
    let written = written.as_str();
    format!(in alloc; ": {written}")
}
