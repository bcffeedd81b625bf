//! Positions anywhere in a line: from left to right, at each place the script with the longest URL.
ghost use Rattle.std.specs.Prelude.{◌≡◌, ◌++◌, ◌-◌, ◌<◌, ◌≤◌, IfOk, IfSome, OnErr, OnOk, drop, flat_map};
ghost use Rattle.std.specs.Prelude.{length};
ghost use Rattle.std.specs.Prelude.{option_map, take};
ghost use Rattle.std.specs.Io.{StartsWith};
ghost use Rattle.std.specs.List.{list_any};
ghost use Rattle.smap_trace.specs.Anywhere as spec;
ghost use Rattle.smap_trace.specs.OccurrenceView.{IsWithin, occurrence_in};
ghost use Rattle.smap_trace.specs.Cutting.{FindsNext, has_place};
ghost use Rattle.smap_trace.specs.Translation.{is_replaced, written_for};

use crate::lookups::origin_at;
use crate::occurrences::Occurrence;
use crate::scripts::Maps;
use memchr::memchr;
use smap_frames::{may_begin, push_position};
use std::alloc::AllocError;

/// The occurrence at this place of a line.
fn occurrence_between<'a, M: Maps>(
    text: &[u8],
    at: usize,
    maps: &'a M,
    ignore_query: bool,
) -> Option<Occurrence<'a>>
    requires { at ≤ length text.now }
    ensures value { option_map occurrence_in result ≡ spec.occurrence_between ignore_query
        (M.scripts maps.now) (take at text.now) (drop at text.now) }
    ensures within { IfSome result (IsWithin (length text.now - at)) }
{
    if !may_begin(&text[..at]) {
        return None;
    }
    maps.occurrence_at(&text[at..], ignore_query)
}

/// Whether a colon is followed by a digit.
fn holds_place(text: &[u8]) -> bool
    ensures { result ≡ has_place text.now }
{
    let mut at = 0;
    'colons: while let Some(colon) = memchr(b':', &text[at..]) {
        at = at + colon + 1;
        if at < text.len() && text[at].is_ascii_digit() {
            return true;
        }
    }
    false
}

/// The next occurrence at this place of a line or behind it, and where it begins.
pub(crate) fn next_occurrence<'a, M: Maps>(
    text: &[u8],
    at: usize,
    maps: &'a M,
    ignore_query: bool,
) -> Option<(usize, Occurrence<'a>)>
    requires { at ≤ length text.now }
    ensures { FindsNext ignore_query (M.scripts maps.now) text.now at result }
{
    if !holds_place(&text[at..]) {
        return None;
    }
    for start in at..text.len() {
        if let Some(found) = occurrence_between(text, start, maps, ignore_query) {
            return Some((start, found));
        }
    }
    None
}

/// Appends the position of the source, and answers that it did, if the mapping there has one with a URL;
/// and else the text as it is. If memory runs out, a prefix of that is appended.
fn push_found(out: &mut Vec<u8>, found: &Occurrence, text: &[u8]) -> Result<bool, AllocError>
    requires { (0 < found.now.line) × (0 < found.now.column) }
    ensures ok { OnOk result (out.new.items ≡ out.old.items
        ++ written_for (spec.found (occurrence_in found.now) text.now)) }
    ensures err { OnErr result (StartsWith out.new.items out.old.items) }
    ensures replaced { IfOk result (λ r. r ≡ is_replaced (spec.found (occurrence_in found.now) text.now)) }
{
    if let Some(origin) = origin_at(found.map, found.line, found.column) {
        if let Some(url) = origin.source.url {
            push_position(
                out,
                url,
                u64::from(origin.line) + 1,
                u64::from(origin.column) + 1,
            )?;
            return Ok(true);
        }
    }
    out.extend_from_slice(text)?;
    Ok(false)
}

/// Appends the line with its positions replaced, and answers whether one was. If memory runs out, a prefix
/// of that is appended.
pub(crate) fn push_pieces<M: Maps>(
    out: &mut Vec<u8>,
    text: &[u8],
    maps: &M,
    ignore_query: bool,
) -> Result<bool, AllocError>
    ensures ok { OnOk result (out.new.items ≡ out.old.items
        ++ flat_map written_for (spec.pieces_of ignore_query (M.scripts maps.now) text.now)) }
    ensures err { OnErr result (StartsWith out.new.items out.old.items) }
    ensures replaced { IfOk result (λ r. r
        ≡ list_any is_replaced (spec.pieces_of ignore_query (M.scripts maps.now) text.now)) }
{
    let mut at = 0;
    let mut replaced = false;
    'positions: while let Some((start, found)) = next_occurrence(text, at, maps, ignore_query) {
        let end = start + found.width;
        out.extend_from_slice(&text[at..start])?;
        replaced |= push_found(out, &found, &text[start..end])?;
        at = end;
    }
    out.extend_from_slice(&text[at..])?;
    Ok(replaced)
}
