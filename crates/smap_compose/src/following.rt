//! Originals that are followed: looked up in the maps of their sources.
ghost use Rattle.std.specs.Prelude.{◌≡◌, ◌<◌, ◌+◌, ◌≤◌, length, map as mapped, slice_get, Some, IfOk, IfSome};
ghost use Rattle.std.specs.Prelude.{ℕ, List, option_map, slice_index};
ghost use Rattle.smap_mappings.specs.Position.{POSITIONS};
ghost use Rattle.smap_record.specs.Record.{Entry, record_of};
ghost use Rattle.smap_record.specs.Views.{entry_of_view, mapping_of_view, origin_of_view};
ghost use Rattle.smap_trace.specs.LineStarts.{line_starts};
ghost use Rattle.smap_trace.specs.Lookup.{mapping_at};
ghost use Rattle.smap_compose.specs.Composing.{led_on, origin_in, under};
ghost use Rattle.smap_compose.specs.Following.{HasPlace, IsListedAt, followed_by, origin_at};
ghost use Rattle.smap_compose.specs.Numbered.{led_at};
ghost use Rattle.smap_compose.specs.Standing.{HoldsFrom, standing_for};

use crate::standing::number_of;
use smap_record::{OriginalView, SourceMap, TokenView};
use smap_trace::{HasMap, LineStarts, lookup_in};
use std::alloc::{AllocError, Global};

/// An original whose source is an index into those that are listed.
#[derive(Clone, Copy)]
pub(crate) struct Listed<'a> {
    pub(crate) source: usize,
    pub(crate) line: u32,
    pub(crate) column: u32,
    pub(crate) name: Option<&'a str>,
}

/// For each map the table of its lines.
pub(crate) fn tables<H: HasMap>(alloc: Global, inner: &[H]) -> Result<Vec<LineStarts>, AllocError>
    ensures { IfOk result (λ ts.
        ts.items ≡ mapped (λ h. line_starts (record_of (H.held_map h)).mappings) inner.now) }
{
    let mut tables = Vec::with_capacity(alloc, inner.len())?;
    for i in 0..inner.len() {
        tables.push(LineStarts::new(alloc, inner[i].map())?)?;
    }
    Ok(tables)
}

/// The mapping that a position has in a map. `starts` is the map's table.
fn mapping_in<'a>(
    map: &'a SourceMap,
    starts: &LineStarts,
    line: u32,
    column: u32,
) -> Option<TokenView<'a>>
    requires { starts.now ≡ line_starts (record_of map.now).mappings }
    ensures mapping { option_map mapping_of_view result
        ≡ mapping_at (record_of map.now).mappings line column }
    ensures number { IfSome result (λ t. IfSome t.original (λ o.
        slice_get (record_of map.now).sources o.source_number ≡ Some (entry_of_view o.source))) }
{
    lookup_in(map, starts, line, column).0
}

/// The original that a position has in a map. `starts` is the map's table.
fn origin_in<'a>(
    map: &'a SourceMap,
    starts: &LineStarts,
    line: u32,
    column: u32,
) -> Option<OriginalView<'a>>
    requires { starts.now ≡ line_starts (record_of map.now).mappings }
    ensures found { option_map origin_of_view result ≡ origin_in (record_of map.now) line column }
    ensures number { IfSome result (λ o.
        slice_get (record_of map.now).sources o.source_number ≡ Some (entry_of_view o.source)) }
{
    mapping_in(map, starts, line, column)?.original
}

/// An original by the map of its source, whose sources are listed from `start` on. `starts` is the map's
/// table.
fn led_on<'a>(
    original: OriginalView<'a>,
    map: &'a SourceMap,
    starts: &LineStarts,
    start: usize,
) -> Option<Listed<'a>>
    requires table { starts.now ≡ line_starts (record_of map.now).mappings }
    requires start { start + length (record_of map.now).sources < POSITIONS }
    ensures led { (sources : List Entry)
        → HoldsFrom sources start (mapped (under original.entry.source.ignored) (record_of map.now).sources)
        → option_map (origin_at sources) result ≡ option_map (led_on (origin_of_view original.entry))
        (origin_in (record_of map.now) original.entry.line original.entry.column) }
    ensures within { (count : ℕ) → start + length (record_of map.now).sources ≤ count
        → IfSome result (IsListedAt count) }
{
    // What this call promises besides the count: the numbers of a map's mappings are in range.
    let _ = map.token_count();
    let found = origin_in(map, starts, original.line, original.column)?;
    Some(Listed {
        source: start + found.source_number,
        line: found.line,
        column: found.column,
        name: found.name.or(original.name),
    })
}

/// Where an original leads, by the map of its source if it has one. What stands for its source is listed from
/// the number on that `starts` has for it.
pub(crate) fn followed<'a, H: HasMap>(
    original: OriginalView<'a>,
    inner: &'a [H],
    tables: &[LineStarts],
    leads: &[Option<usize>],
    starts: &[usize],
) -> Option<Listed<'a>>
    requires tables { tables.now ≡ mapped (λ h. line_starts (record_of (H.held_map h)).mappings) inner.now }
    requires within { original.source_number < length starts.now }
    requires start { slice_index starts.now original.source_number
        + length (standing_for (led_at (mapped H.held_map inner.now) leads.now original.source_number)
        (entry_of_view original.source)) < POSITIONS }
    requires place { HasPlace (origin_of_view original) }
    ensures followed { (sources : List Entry)
        → HoldsFrom sources (slice_index starts.now original.entry.source_number)
        (standing_for (led_at (mapped H.held_map inner.now) leads.now original.entry.source_number)
        (entry_of_view original.entry.source))
        → option_map (origin_at sources) result ≡ followed_by
        (led_at (mapped H.held_map inner.now) leads.now original.entry.source_number)
        (origin_of_view original.entry) }
    ensures within { (count : ℕ) → slice_index starts.now original.entry.source_number
        + length (standing_for (led_at (mapped H.held_map inner.now) leads.now original.entry.source_number)
        (entry_of_view original.entry.source)) ≤ count → IfSome result (IsListedAt count) }
{
    let start = starts[original.source_number];
    match number_of(inner, leads, original.source_number) {
        Some(k) => led_on(original, inner[k].map(), &tables[k], start),
        None => Some(Listed {
            source: start,
            line: original.line,
            column: original.column,
            name: original.name,
        }),
    }
}
