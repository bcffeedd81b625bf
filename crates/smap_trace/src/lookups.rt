//! The mapping for a position.
ghost use Rattle.std.specs.Prelude.{◌≡◌, ◌<◌, ℕ, length, map, option_map, slice_get, Some};
ghost use Rattle.std.specs.Prelude.{◌+◌, ◌-◌, ◌≤◌, IfSome, slice_index};
ghost use Rattle.smap_record.specs.Fitting.{mapping_position};
ghost use Rattle.smap_record.specs.Record.{record_of};
ghost use Rattle.smap_record.specs.Views.{entry_of_view, mapping_of_view, origin_of_view};
ghost use Rattle.smap_trace.specs.LineStarts.{line_starts, mappings_up_to};
ghost use Rattle.smap_trace.specs.Lookup.{FallsTo, FallsToIndex, mapping_at};
ghost use Rattle.smap_trace.specs.Positions.{IsBetween, IsWithinBinaryDigits};
ghost use Rattle.smap_trace.specs.Translation as spec;

use crate::line_starts::LineStarts;
use crate::searching::{Positions, search_between};
use smap_record::{OriginalView, SourceMap, TokenView};

/// The positions of a map's mappings, and how often one was asked for.
#[derive(Drop)]
struct Places<'a> {
    map: &'a SourceMap,
    probes: u32,
}

impl Positions for Places<'_> {
    ghost positions = { λ s. map mapping_position (record_of s.map.now).mappings };

    ghost probes = { λ s. s.probes };

    fn len(&self) -> usize {
        self.map.token_count()
    }

    fn at(&mut self, i: usize) -> (u32, u32) {
        self.probes += 1;
        let token = self.map.listed_token(i);
        (token.line, token.column)
    }
}

/// The index of the mapping for a generated position, as [`SourceMap::token`] counts them: that of the last
/// mapping on the same line, in the map's order, whose column isn't greater. There is none before the first
/// mapping of a line, whatever earlier lines have. Line and column count from 0; the column is in the map's
/// unit. That the last of several mappings at one position counts is this project's own rule.
///
/// The second value is the number of probes, each of which compares one mapping's position with the one
/// asked for. It is at most the number of binary digits of `token_count`, and 0 only for a map without
/// mappings. It takes no memory.
pub fn find(map: &SourceMap, line: u32, column: u32) -> (Option<usize>, u32)
    ensures found { FallsToIndex (record_of map.now).mappings line column result.0 }

    ensures most { IsWithinBinaryDigits result.1 (length (record_of map.now).mappings) }
    ensures least { 0 < length (record_of map.now).mappings → 0 < result.1 }
{
    find_between(map, 0, map.token_count(), line, column)
}

/// The same where the number of mappings that aren't after the position is known to be at least `from` and
/// at most `to`.
fn find_between(
    map: &SourceMap,
    from: usize,
    to: usize,
    line: u32,
    column: u32,
) -> (Option<usize>, u32)
    requires within { to ≤ length (record_of map.now).mappings }
    requires known { IsBetween from to (mappings_up_to (record_of map.now).mappings line column) }
    ensures found { FallsToIndex (record_of map.now).mappings line column result.0 }

    ensures most { IsWithinBinaryDigits result.1 (to - from) }
    ensures least { from < to → 0 < result.1 }
{
    // What this call promises besides the count: the positions of a map's mappings never fall.
    let _ = map.token_count();
    let mut places = Places { map, probes: 0 };
    let n = search_between(&mut places, from, to, line, column);
    let found = if n > 0 && map.listed_token(n - 1).line == line {
        Some(n - 1)
    } else {
        None
    };
    (found, places.probes)
}

/// What [`find`] answers, by the table of the map's lines. If the table has the line, only positions of the
/// line are compared: the number of probes is at most that of the binary digits of the number of its
/// mappings, which is the difference of two entries of the table, and 0 only if the line has none. Else it is
/// as in `find`. `starts` must be the table of this map.
pub fn find_in(map: &SourceMap, starts: &LineStarts, line: u32, column: u32) -> (Option<usize>, u32)
    requires { starts.now ≡ line_starts (record_of map.now).mappings }
    ensures found { FallsToIndex (record_of map.now).mappings line column result.0 }

    ensures most { IsWithinBinaryDigits result.1 (length (record_of map.now).mappings) }
    ensures most_of_line { line + 1 < length starts.now
        → IsWithinBinaryDigits result.1 (slice_index starts.now (line + 1) - slice_index starts.now line) }
    ensures least { length starts.now ≤ line + 1 → 0 < length (record_of map.now).mappings → 0 < result.1 }
    ensures least_of_line { line + 1 < length starts.now
        → slice_index starts.now line < slice_index starts.now (line + 1) → 0 < result.1 }
{
    let count = map.token_count();
    match starts.of_line(line) {
        Some((from, to)) => find_between(map, from, to, line, column),
        None => find_between(map, 0, count, line, column),
    }
}

/// What [`lookup`] answers, with the probes of [`find_in`]. `starts` must be the table of this map.
pub fn lookup_in<'a>(
    map: &'a SourceMap,
    starts: &LineStarts,
    line: u32,
    column: u32,
) -> (Option<TokenView<'a>>, u32)
    requires { starts.now ≡ line_starts (record_of map.now).mappings }
    ensures found { FallsTo (record_of map.now).mappings line column (option_map mapping_of_view result.0) }

    // The number of its source is that of `source`.
    ensures number { IfSome result.0 (λ t. IfSome t.original (λ o.
        slice_get (record_of map.now).sources o.source_number ≡ Some (entry_of_view o.source))) }

    ensures most { IsWithinBinaryDigits result.1 (length (record_of map.now).mappings) }
    ensures most_of_line { line + 1 < length starts.now
        → IsWithinBinaryDigits result.1 (slice_index starts.now (line + 1) - slice_index starts.now line) }
    ensures least { length starts.now ≤ line + 1 → 0 < length (record_of map.now).mappings → 0 < result.1 }
    ensures least_of_line { line + 1 < length starts.now
        → slice_index starts.now line < slice_index starts.now (line + 1) → 0 < result.1 }
{
    let (found, probes) = find_in(map, starts, line, column);
    match found {
        Some(i) => (Some(map.token(i)), probes),
        None => (None, probes),
    }
}

/// The mapping for a generated position, which is the one at the index that [`find`] returns, and the number
/// of probes.
///
/// # Examples
///
/// ```
/// let (found, _probes) = lookup(&map, 0, 7);
/// if let Some(mapping) = found && let Some(original) = mapping.original {
///     // original.source.url, original.line and original.column, both from 0, and original.name
/// }
/// ```
pub fn lookup<'a>(map: &'a SourceMap, line: u32, column: u32) -> (Option<TokenView<'a>>, u32)
    ensures found { FallsTo (record_of map.now).mappings line column (option_map mapping_of_view result.0) }

    // The number of its source is that of `source`.
    ensures number { IfSome result.0 (λ t. IfSome t.original (λ o.
        slice_get (record_of map.now).sources o.source_number ≡ Some (entry_of_view o.source))) }

    ensures most { IsWithinBinaryDigits result.1 (length (record_of map.now).mappings) }
    ensures least { 0 < length (record_of map.now).mappings → 0 < result.1 }
{
    let (found, probes) = find(map, line, column);
    match found {
        Some(i) => (Some(map.token(i)), probes),
        None => (None, probes),
    }
}

/// The mapping alone.
pub(crate) fn mapping_of<'a>(map: &'a SourceMap, line: u32, column: u32) -> Option<TokenView<'a>>
    ensures { option_map mapping_of_view result ≡ mapping_at (record_of map.now).mappings line column }
{
    lookup(map, line, column).0
}

/// The original that a position of a trace has, which counts from 1.
pub(crate) fn origin_at<'a>(map: &'a SourceMap, line: u32, column: u32) -> Option<OriginalView<'a>>
    requires { (0 < line) × (0 < column) }
    ensures { option_map origin_of_view result ≡ spec.origin_at (record_of map.now) line column }
{
    mapping_of(map, line - 1, column - 1)?.original
}
