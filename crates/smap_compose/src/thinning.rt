//! Maps without the mappings that change no lookup's original.
ghost use Rattle.std.specs.Prelude.{◌≡◌, ◌==◌, ◌&&◌, ◌<◌, ◌+◌, List, length, drop, slice_get, IfOk, IfSome};
ghost use Rattle.std.specs.Prelude.{None, Some, option_and_then, option_map};
ghost use Rattle.std.specs.List.{IsDistinct};
ghost use Rattle.smap_mappings.specs.Position.{POSITIONS};
ghost use Rattle.smap_record.specs.Record.{Entry, Mapping, record_of, same_entry};
ghost use Rattle.smap_record.specs.Views.{entry_of_view, origin_of_view};
ghost use Rattle.smap_compose.specs.Following.{AreOf, IsListedAt, origin_at, texts_of};
ghost use Rattle.smap_compose.specs.Thinning.{is_overtaken as is_overtaken_by, is_spare as is_spare_behind};
ghost use Rattle.smap_compose.specs.Thinning.{original_before as original_behind, same_origin, thin_after};
ghost use Rattle.smap_compose.specs.Thinning.{thinned};

use crate::composing::map_of;
use crate::following::Listed;
use crate::joining::{Joined, none_joined};
use crate::standing::with_all;
use smap_mappings::{MAX_POSITION, Token};
use smap_record::{OriginalView, SourceMap, Sources};
use std::alloc::{AllocError, Global};

/// Whether two mappings are at one position.
fn are_at_one(token: Token, next: Token) -> bool
    ensures { result ≡ (next.line == token.line && next.column == token.column) }
{
    next.line == token.line && next.column == token.column
}

/// Whether the next mapping is at the position of the i-th.
fn is_overtaken(map: &SourceMap, i: usize) -> bool
    requires { i < length (record_of map.now).mappings }
    ensures { (m : Mapping) → slice_get (record_of map.now).mappings i ≡ Some m
        → result ≡ is_overtaken_by m (drop (i + 1) (record_of map.now).mappings) }
{
    let count = map.token_count();
    if i + 1 == count {
        return false;
    }
    are_at_one(map.listed_token(i), map.listed_token(i + 1))
}

/// Whether two originals in the sources of one map are equal.
fn is_same(a: OriginalView<'_>, b: OriginalView<'_>) -> bool
    ensures { (sources : List Entry) → IsDistinct same_entry sources
        → slice_get sources a.entry.source_number ≡ Some (entry_of_view a.entry.source)
        → slice_get sources b.entry.source_number ≡ Some (entry_of_view b.entry.source)
        → result ≡ same_origin (origin_of_view a.entry) (origin_of_view b.entry) }
{
    a.source_number == b.source_number
        && (a.line == b.line && (a.column == b.column && a.name == b.name))
}

/// The original up to where a mapping on the line begins: that of the last mapping that stayed, if that is on
/// the line too.
fn original_before(map: &SourceMap, last: Option<usize>, line: u32) -> Option<OriginalView<'_>>
    requires { IfSome last (λ k. k < length (record_of map.now).mappings) }
    ensures origin { option_map origin_of_view result
        ≡ original_behind (option_and_then (slice_get (record_of map.now).mappings) last) line }
    ensures number { IfSome result (λ o.
        slice_get (record_of map.now).sources o.source_number ≡ Some (entry_of_view o.source)) }
{
    let token = map.token(last?);
    if token.line == line {
        token.original
    } else {
        None
    }
}

/// Whether the i-th mapping changes nothing behind the last one that stayed.
fn is_spare(map: &SourceMap, last: Option<usize>, i: usize) -> bool
    requires last { IfSome last (λ k. k < length (record_of map.now).mappings) }
    requires within { i < length (record_of map.now).mappings }
    ensures { (m : Mapping) → slice_get (record_of map.now).mappings i ≡ Some m
        → result ≡ is_spare_behind (option_and_then (slice_get (record_of map.now).mappings) last) m
        (drop (i + 1) (record_of map.now).mappings) }
{
    if is_overtaken(map, i) {
        return true;
    }
    let token = map.token(i);
    match (original_before(map, last, token.line), token.original) {
        (Some(before), Some(original)) => is_same(before, original),
        (None, None) => true,
        _ => false,
    }
}

/// The original of the i-th mapping, among the distinct sources of the map.
pub(crate) fn own_original(map: &SourceMap, i: usize) -> Option<Listed<'_>>
    requires { i < length (record_of map.now).mappings }
    ensures same { (m : Mapping) → slice_get (record_of map.now).mappings i ≡ Some m
        → option_map (origin_at (record_of map.now).sources) result ≡ m.origin }
    ensures within { IfSome result (IsListedAt (length (record_of map.now).sources)) }
{
    // What this call promises besides the count: the numbers of a map's mappings are in range.
    let _ = map.token_count();
    let original = map.token(i).original?;
    Some(Listed {
        source: original.source_number,
        line: original.line,
        column: original.column,
        name: original.name,
    })
}

/// The mappings that stay.
fn thin_mappings(alloc: Global, map: &SourceMap) -> Result<Joined<'_>, AllocError>
    ensures joins { IfOk result (λ j. AreOf (record_of map.now).sources
        (thin_after None (record_of map.now).mappings) (texts_of j.names.keys) j.tokens.items) }
    ensures few { IfOk result (λ j. length (texts_of j.names.keys) < POSITIONS) }
{
    let none = none_joined(alloc, map.token_count())?;
    let mut joined = none;
    let mut last = None;
    for i in 0..map.token_count() {
        let token = map.listed_token(i);
        if is_spare(map, last, i) {
            continue;
        }
        // A map doesn't list more names than this, so that there are never too many.
        let Ok(next) = joined.with(token.line, token.column, own_original(map, i), MAX_POSITION)
        else {
            return Err(AllocError);
        };
        joined = next;
        last = Some(i);
    }
    Ok(joined)
}

/// The map without the mappings that change no lookup's original: of several mappings at one position the
/// last stays, and then those stay whose original isn't that of the mapping before them on their line, or
/// that have none and aren't the first on it. The lookup at each position has the same original, though the
/// position of its mapping may be another.
///
/// # Errors
///
/// `AllocError`.
pub fn thin(alloc: Global, map: &SourceMap) -> Result<SourceMap, AllocError>
    ensures { IfOk result (λ m. record_of m ≡ thinned (record_of map.now)) }
{
    // What this call promises besides the count: the positions of a map's mappings never fall.
    let _ = map.token_count();
    let sources = with_all(alloc, Sources::new(alloc), map, false)?;
    let joined = thin_mappings(alloc, map)?;
    map_of(alloc, map, sources, joined)
}
