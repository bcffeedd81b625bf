//! Maps without the sources that no mapping has.
ghost use Rattle.std.specs.Prelude.{◌≡◌, ◌<◌, ◌++◌, ◌∷◌, [], length, map as mapped, slice_get, slice_index};
ghost use Rattle.std.specs.Prelude.{IfOk, IfSome, Some, false, if◌then◌else◌, option_map, replicate};
ghost use Rattle.smap_mappings.specs.Position.{POSITIONS};
ghost use Rattle.smap_record.specs.Record.{Mapping, record_of};
ghost use Rattle.smap_record.specs.Views.{entry_of_view};
ghost use Rattle.smap_compose.specs.Following.{AreOf, IsListedAt, origin_at, texts_of};
ghost use Rattle.smap_compose.specs.Kept.{AreKept};
ghost use Rattle.smap_compose.specs.Using.{is_used, used};

use crate::composing::map_of;
use crate::following::Listed;
use crate::joining::{Joined, none_joined};
use crate::thinning::own_original;
use smap_mappings::MAX_POSITION;
use smap_record::{SourceMap, SourceView, Sources};
use std::alloc::{AllocError, Global};

/// The sources that stay, and for each source its number among these.
#[derive(Drop)]
pub(crate) struct Kept {
    sources: Sources,
    numbers: Vec<usize>,
}

/// So many marks that aren't set.
fn unmarked(alloc: Global, count: usize) -> Result<Vec<bool>, AllocError>
    ensures { IfOk result (λ marks. marks.items ≡ replicate count false) }
{
    vec![in alloc; false; count]
}

/// For each distinct source whether a mapping has it.
fn used_sources(alloc: Global, map: &SourceMap) -> Result<Vec<bool>, AllocError>
    ensures { IfOk result (λ us.
        us.items ≡ mapped (is_used (record_of map.now).mappings) (record_of map.now).sources) }
{
    let mut used = unmarked(alloc, map.source_count())?;
    for i in 0..map.token_count() {
        let Some(original) = map.token(i).original else {
            continue;
        };
        used[original.source_number] = true;
    }
    Ok(used)
}

/// The sources, and this one if it is used.
fn with_used(
    alloc: Global,
    sources: Sources,
    source: SourceView<'_>,
    is_used: bool,
) -> Result<Sources, AllocError>
    ensures { IfOk result (λ s. s
        ≡ sources ++ (if is_used then entry_of_view source.entry ∷ [] else [])) }
{
    if is_used {
        sources.with_copy(alloc, source)
    } else {
        Ok(sources)
    }
}

/// The sources that are used, and their numbers.
fn kept_sources(alloc: Global, map: &SourceMap, used: &[bool]) -> Result<Kept, AllocError>
    requires { used.now ≡ mapped (is_used (record_of map.now).mappings) (record_of map.now).sources }
    ensures { IfOk result (AreKept (record_of map.now)) }
{
    let mut sources = Sources::new(alloc);
    let mut numbers = Vec::with_capacity(alloc, map.source_count())?;
    for i in 0..map.source_count() {
        numbers.push(sources.listed_count())?;
        sources = with_used(alloc, sources, map.source(i), used[i])?;
    }
    Ok(Kept { sources, numbers })
}

/// An original by these numbers of the sources.
fn numbered<'a>(own: Listed<'a>, numbers: &[usize]) -> Listed<'a>
    requires { own.source < length numbers.now }
    ensures { result ≡ record own.entry { source = slice_index numbers.now own.entry.source } }
{
    Listed {
        source: numbers[own.source],
        line: own.line,
        column: own.column,
        name: own.name,
    }
}

/// The original of the i-th mapping, among the sources that stay.
fn kept_original<'a>(map: &'a SourceMap, i: usize, kept: &Kept) -> Option<Listed<'a>>
    requires within { i < length (record_of map.now).mappings }
    requires kept { AreKept (record_of map.now) kept.now }
    ensures same { (m : Mapping) → slice_get (record_of map.now).mappings i ≡ Some m
        → option_map (origin_at kept.now.sources) result ≡ m.origin }
    ensures within { IfSome result (IsListedAt (length kept.now.sources)) }
{
    let own = own_original(map, i)?;
    Some(numbered(own, &kept.numbers))
}

/// The mappings, whose sources are those that stay.
fn kept_mappings<'a>(
    alloc: Global,
    map: &'a SourceMap,
    kept: &Kept,
) -> Result<Joined<'a>, AllocError>
    requires { AreKept (record_of map.now) kept.now }
    ensures joins { IfOk result (λ j. AreOf kept.now.sources (record_of map.now).mappings
        (texts_of j.names.keys) j.tokens.items) }
    ensures few { IfOk result (λ j. length (texts_of j.names.keys) < POSITIONS) }
{
    let none = none_joined(alloc, map.token_count())?;
    let mut joined = none;
    for i in 0..map.token_count() {
        let token = map.listed_token(i);
        let original = kept_original(map, i, kept);
        // A map doesn't list more names than this, so that there are never too many.
        let Ok(next) = joined.with(token.line, token.column, original, MAX_POSITION) else {
            return Err(AllocError);
        };
        joined = next;
    }
    Ok(joined)
}

/// The map without the sources that no mapping has, in order.
///
/// # Errors
///
/// `AllocError`.
pub fn only_used(alloc: Global, map: &SourceMap) -> Result<SourceMap, AllocError>
    ensures { IfOk result (λ m. record_of m ≡ used (record_of map.now)) }
{
    // What this call promises besides the count: the positions of a map's mappings never fall.
    let _ = map.token_count();
    let used = used_sources(alloc, map)?;
    let kept = kept_sources(alloc, map, &used)?;
    let joined = kept_mappings(alloc, map, &kept)?;
    map_of(alloc, map, kept.sources, joined)
}
