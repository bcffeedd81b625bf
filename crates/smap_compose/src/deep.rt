//! Maps whose sources lead on at every depth.
ghost use Rattle.std.specs.Prelude.{◌≡◌, ◌+◌, IfOk, List, ℕ, map as mapped};
ghost use Rattle.smap_record.specs.Record.{ReadMap, record_of};
ghost use Rattle.smap_trace.specs.LineStarts.{line_starts};
ghost use Rattle.smap_compose.specs.Composing.{Maps};
ghost use Rattle.smap_compose.specs.Deep.{AllLead, Lead, by_numbers, composed, each_by_numbers, levels};
ghost use Rattle.smap_compose.specs.Deep.{numbers_at};
ghost use Rattle.smap_compose.specs.Deep as spec;

use crate::composing::compose_by;
use crate::error::ComposeError;
use crate::following::tables;
use smap_record::{Limits, SourceMap};
use smap_trace::LineStarts;
use std::alloc::Global;

/// A map composed with these, to which its sources lead by these numbers.
fn compose_one(
    alloc: Global,
    map: &SourceMap,
    inner: &[SourceMap],
    tables: &[LineStarts],
    numbers: &[Option<usize>],
    limits: Limits,
) -> Result<SourceMap, ComposeError>
    requires { tables.now ≡ mapped (λ m. line_starts (record_of m).mappings) inner.now }
    ensures deep { IfOk result (λ m. (maps : List ReadMap) (n : ℕ) (find : Maps)
        → Lead maps find map.now numbers.now
        → mapped record_of inner.now ≡ mapped (λ x. composed n find (record_of x)) maps
        → record_of m ≡ composed (n + 1) find (record_of map.now)) }
    ensures numbers { IfOk result (λ m.
        record_of m ≡ by_numbers map.now numbers.now (mapped record_of inner.now)) }
{
    // What this call promises besides the count: the sources of a map's mappings are listed.
    let _ = map.token_count();
    compose_by(alloc, map, inner, tables, numbers, limits)
}

/// The numbers of a map's sources.
fn numbers_of<'a>(leads: &'a [Vec<Option<usize>>], k: usize) -> &'a [Option<usize>]
    ensures { result.now ≡ numbers_at leads.now k }
{
    match leads.get(k) {
        Some(numbers) => numbers.as_slice(),
        None => &[],
    }
}

/// Each of the maps composed with these, which are they themselves so many levels deep.
fn compose_each(
    alloc: Global,
    maps: &[SourceMap],
    inner: &[SourceMap],
    leads: &[Vec<Option<usize>>],
    limits: Limits,
) -> Result<Vec<SourceMap>, ComposeError>
    ensures deep { IfOk result (λ all. (n : ℕ) (find : Maps) → AllLead maps.now find leads.now
        → mapped record_of inner.now ≡ mapped (λ x. composed n find (record_of x)) maps.now
        → mapped record_of all.items ≡ mapped (λ x. composed (n + 1) find (record_of x)) maps.now) }
    ensures numbers { IfOk result (λ all.
        mapped record_of all.items ≡ each_by_numbers maps.now leads.now (mapped record_of inner.now)) }
{
    let tables = tables(alloc, inner)?;
    let mut all = Vec::with_capacity(alloc, maps.len())?;
    for k in 0..maps.len() {
        let numbers = numbers_of(leads, k);
        let map = compose_one(alloc, &maps[k], inner, &tables, numbers, limits)?;
        all.push(map)?;
    }
    Ok(all)
}

/// The maps as they were composed last, or as they are.
fn latest<'a>(maps: &'a [SourceMap], closed: &'a Option<Vec<SourceMap>>) -> &'a [SourceMap]
    ensures { result.now ≡ spec.latest maps.now closed.now }
{
    match closed {
        Some(all) => all.as_slice(),
        None => maps,
    }
}

/// Each of the maps composed with those that were composed last.
fn composed_once_more(
    alloc: Global,
    maps: &[SourceMap],
    closed: Option<Vec<SourceMap>>,
    leads: &[Vec<Option<usize>>],
    limits: Limits,
) -> Result<Vec<SourceMap>, ComposeError>
    ensures deep { IfOk result (λ all. (n : ℕ) (find : Maps) → AllLead maps.now find leads.now
        → mapped record_of (spec.latest maps.now closed)
        ≡ mapped (λ x. composed n find (record_of x)) maps.now
        → mapped record_of all.items ≡ mapped (λ x. composed (n + 1) find (record_of x)) maps.now) }
    ensures numbers { IfOk result (λ all. mapped record_of all.items
        ≡ each_by_numbers maps.now leads.now (mapped record_of (spec.latest maps.now closed))) }
{
    compose_each(alloc, maps, latest(maps, &closed), leads, limits)
}

/// The composition of a map with the maps that its sources lead to, each of which is composed so too, `below`
/// levels deep. `numbers` and `leads` have for each distinct source of `outer` and of each of `maps` the
/// index of its map in `maps`, none for a source that leads to none.
///
/// Where no source below that depth leads on, all are followed. Each level costs as much as composing all of
/// `maps` once.
///
/// # Errors
///
/// `TooMany`, as [`compose`](crate::compose) has it, of any of these compositions. `Memory`.
pub fn compose_deep(
    alloc: Global,
    outer: &SourceMap,
    numbers: &[Option<usize>],
    maps: &[SourceMap],
    leads: &[Vec<Option<usize>>],
    below: usize,
    limits: Limits,
) -> Result<SourceMap, ComposeError>
    ensures deep { IfOk result (λ m. (find : Maps) → Lead maps.now find outer.now numbers.now
        → AllLead maps.now find leads.now
        → record_of m ≡ composed (below + 1) find (record_of outer.now)) }
    ensures levels { IfOk result (λ m.
        record_of m ≡ by_numbers outer.now numbers.now (levels maps.now leads.now below)) }
{
    let mut closed = None;
    for level in 0..below {
        let _ = level;
        closed = Some(composed_once_more(alloc, maps, closed, leads, limits)?);
    }
    let inner = latest(maps, &closed);
    let tables = tables(alloc, inner)?;
    compose_one(alloc, outer, inner, &tables, numbers, limits)
}
