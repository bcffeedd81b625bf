//! One map out of a map and the maps of its sources.
ghost use Rattle.std.specs.Prelude.{◌≡◌, ◌<◌, ◌≤◌, length, map as mapped, IfOk, IfErr};
ghost use Rattle.std.specs.Prelude.{false, string_bytes, true};
ghost use Rattle.smap_mappings.specs.Position.{POSITIONS};
ghost use Rattle.smap_record.specs.Record.{record_of};
ghost use Rattle.smap_record.specs.Fitting.{names_used};
ghost use Rattle.smap_record.specs.Listings.{IsListing};
ghost use Rattle.smap_compose.specs.declared.error.ComposeError.TheVariants as errors;
ghost use Rattle.smap_compose.specs.Composing.{composition};
ghost use Rattle.smap_compose.specs.Following.{texts_of};
ghost use Rattle.smap_compose.specs.Numbered.{is_too_many, maps_of};
ghost use Rattle.smap_compose.specs.Standing.{all_standing};
ghost use Rattle.smap_trace.specs.LineStarts.{line_starts};

use crate::error::ComposeError;
use crate::following::tables;
use crate::joining::{Joined, join_by};
use crate::standing::{is_within, standing_sources};
use indexmap::IndexSet;
use smap_record::{Limits, SourceMap, Sources};
use smap_trace::{HasMap, LineStarts};
use std::alloc::{AllocError, Global};

/// Copies of the names.
fn copies(alloc: Global, names: &IndexSet<&str>) -> Result<Vec<String>, AllocError>
    ensures { IfOk result (λ all. mapped string_bytes all.items ≡ texts_of names.now.keys) }
{
    let mut all = Vec::with_capacity(alloc, names.len())?;
    for i in 0..names.len() {
        all.push(String::from_str(alloc, names[i])?)?;
    }
    Ok(all)
}

/// The map of these parts, with the labels of the outer one.
pub(crate) fn map_of(
    alloc: Global,
    outer: &SourceMap,
    sources: Sources,
    joined: Joined<'_>,
) -> Result<SourceMap, AllocError>
    requires { IsListing (record {
      sources = sources;
      names = texts_of joined.names.keys;
      tokens = joined.tokens.items;
    }) }
    ensures { IfOk result (λ m. m ≡ record {
      labels = outer.now.labels;
      listing = record {
        sources = sources;
        names = texts_of joined.entry.names.keys;
        tokens = joined.entry.tokens.items;
      };
    }) }
{
    let names = copies(alloc, &joined.names)?;
    SourceMap::of_parts(alloc, outer, sources, names, joined.tokens)
}

/// The composition, if not too many sources stand for those of the outer map.
fn composed<H: HasMap>(
    alloc: Global,
    outer: &SourceMap,
    inner: &[H],
    tables: &[LineStarts],
    leads: &[Option<usize>],
    items: u32,
) -> Result<SourceMap, ComposeError>
    requires tables { tables.now ≡ mapped (λ h. line_starts (record_of (H.held_map h)).mappings) inner.now }
    requires few { length (all_standing outer.now (mapped H.held_map inner.now) leads.now) ≤ items }
    requires items { items < POSITIONS }
    ensures record { IfOk result (λ m.
        record_of m ≡ composition (record_of outer.now)
        (maps_of outer.now (mapped H.held_map inner.now) leads.now)) }
    ensures few { IfOk result (λ m. length (names_used
        (composition (record_of outer.now)
        (maps_of outer.now (mapped H.held_map inner.now) leads.now)).mappings) ≤ items) }
    ensures refused { IfErr result (λ e. e ≡ errors.TooMany → items < length (names_used
        (composition (record_of outer.now)
        (maps_of outer.now (mapped H.held_map inner.now) leads.now)).mappings)) }
{
    // What this call promises besides the count: the positions of a map's mappings never fall.
    let _ = outer.token_count();
    let standing = standing_sources(alloc, outer, inner, leads)?;
    let joined = join_by(alloc, outer, inner, tables, leads, &standing, items)?;
    Ok(map_of(alloc, outer, standing.sources, joined)?)
}

/// The composition, by the tables of the inner maps.
pub(crate) fn compose_by<H: HasMap>(
    alloc: Global,
    outer: &SourceMap,
    inner: &[H],
    tables: &[LineStarts],
    leads: &[Option<usize>],
    limits: Limits,
) -> Result<SourceMap, ComposeError>
    requires { tables.now ≡ mapped (λ h. line_starts (record_of (H.held_map h)).mappings) inner.now }
    ensures record { IfOk result (λ m.
        record_of m ≡ composition (record_of outer.now)
        (maps_of outer.now (mapped H.held_map inner.now) leads.now)) }
    ensures few { IfOk result (λ m.
        is_too_many limits (record_of outer.now)
        (maps_of outer.now (mapped H.held_map inner.now) leads.now) ≡ false) }
    ensures refused { IfErr result (λ e. e ≡ errors.TooMany →
        is_too_many limits (record_of outer.now)
        (maps_of outer.now (mapped H.held_map inner.now) leads.now) ≡ true) }
{
    let items = limits.items();
    if !is_within(outer, inner, leads, items as usize) {
        return Err(ComposeError::TooMany);
    }
    composed(alloc, outer, inner, tables, leads, items)
}

/// The composition of a map with maps of its sources: each mapping stays at its position, and where its
/// source has a map, its original is what the lookup there finds, or none. The name is that of the inner map,
/// or else of the outer one; what stands for an ignored source is ignored.
///
/// `leads` has, for each distinct source of `outer`, the index of its map in `inner`; none if the source has
/// no map, as a source behind its end or with an index that `inner` hasn't. Labels are those of `outer`, and
/// sources that no mapping has stay. Each lookup is one in [`LineStarts`](smap_trace::LineStarts).
///
/// # Errors
///
/// `TooMany`: the sources that stand for those of `outer`, each as often as it stands for one, or the names
/// that are used, are more than the limit on each. `Memory`.
pub fn compose<H: HasMap>(
    alloc: Global,
    outer: &SourceMap,
    inner: &[H],
    leads: &[Option<usize>],
    limits: Limits,
) -> Result<SourceMap, ComposeError>
    ensures record { IfOk result (λ m.
        record_of m ≡ composition (record_of outer.now)
        (maps_of outer.now (mapped H.held_map inner.now) leads.now)) }
    ensures few { IfOk result (λ m.
        is_too_many limits (record_of outer.now)
        (maps_of outer.now (mapped H.held_map inner.now) leads.now) ≡ false) }
    ensures refused { IfErr result (λ e. e ≡ errors.TooMany →
        is_too_many limits (record_of outer.now)
        (maps_of outer.now (mapped H.held_map inner.now) leads.now) ≡ true) }
{
    let tables = tables(alloc, inner)?;
    compose_by(alloc, outer, inner, &tables, leads, limits)
}
