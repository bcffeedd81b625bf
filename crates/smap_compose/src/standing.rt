//! The sources that stand for those of a map: the sources of its map, or itself.
ghost use Rattle.std.specs.Prelude.{◌≡◌, ◌↔◌, ◌≤◌, ◌<◌, ◌++◌, length, map as mapped, slice_get, IfOk, IfSome};
ghost use Rattle.std.specs.Prelude.{IsTrue, option_and_then, option_map};
ghost use Rattle.smap_record.specs.Record.{Entry, record_of};
ghost use Rattle.smap_record.specs.Views.{entry_of_view};
ghost use Rattle.smap_compose.specs.Composing.{under};
ghost use Rattle.smap_compose.specs.Numbered.{led_at};
ghost use Rattle.smap_compose.specs.Standing.{all_standing, standing_for, AreStanding};

use smap_record::{SourceMap, SourceView, Sources};
use smap_trace::HasMap;
use std::alloc::{AllocError, Global};

/// The sources that stand for those of a map, and where those of each begin.
#[derive(Drop)]
pub(crate) struct Standing {
    pub(crate) sources: Sources,
    pub(crate) starts: Vec<usize>,
}

/// The number of the map of the i-th source, if it has one.
pub(crate) fn number_of<H: HasMap>(inner: &[H], leads: &[Option<usize>], i: usize) -> Option<usize>
    ensures map { option_and_then (slice_get (mapped record_of (mapped H.held_map inner.now))) result
        ≡ led_at (mapped H.held_map inner.now) leads.now i }
    ensures within { IfSome result (λ k. k < length inner.now) }
{
    let number = (*leads.get(i)?)?;
    if number < inner.len() {
        Some(number)
    } else {
        None
    }
}

/// The map of the i-th source, if it has one.
fn led_at<'a, H: HasMap>(inner: &'a [H], leads: &[Option<usize>], i: usize) -> Option<&'a SourceMap>
    ensures { option_map (λ m. record_of m.now) result ≡ led_at (mapped H.held_map inner.now) leads.now i }
{
    match number_of(inner, leads, i) {
        Some(k) => Some(inner[k].map()),
        None => None,
    }
}

/// A source that is ignored too if the one that it stands for is.
fn under(ignored: bool, source: SourceView<'_>) -> SourceView<'_>
    ensures { entry_of_view result ≡ under ignored (entry_of_view source.entry) }
{
    SourceView {
        url: source.url,
        content: source.content,
        ignored: ignored || source.ignored,
    }
}

/// The sources listed before, followed by those of a map.
pub(crate) fn with_all(
    alloc: Global,
    before: Sources,
    map: &SourceMap,
    ignored: bool,
) -> Result<Sources, AllocError>
    ensures { IfOk result (λ s. s ≡ before ++ mapped (under ignored) (record_of map.now).sources) }
{
    let mut sources = before;
    for i in 0..map.source_count() {
        sources = sources.with_copy(alloc, under(ignored, map.source(i)))?;
    }
    Ok(sources)
}

/// The sources listed before, followed by what stands for a source.
fn with_standing(
    alloc: Global,
    before: Sources,
    source: SourceView<'_>,
    map: Option<&SourceMap>,
) -> Result<Sources, AllocError>
    ensures { IfOk result (λ s. s
        ≡ before ++ standing_for (option_map (λ m. record_of m.now) map.entry) (entry_of_view source.entry)) }
{
    match map {
        Some(map) => with_all(alloc, before, map, source.ignored),
        None => before.with_copy(alloc, source),
    }
}

/// How many stand for a source, which has this map or none.
fn standing_count(map: Option<&SourceMap>) -> usize
    ensures { (e : Entry) → result ≡ length (standing_for (option_map (λ m. record_of m.now) map.entry) e) }
{
    match map {
        Some(map) => map.source_count(),
        None => 1,
    }
}

/// Whether at most this many sources stand for those of the outer map.
pub(crate) fn is_within<H: HasMap>(
    outer: &SourceMap,
    inner: &[H],
    leads: &[Option<usize>],
    items: usize,
) -> bool
    ensures { IsTrue result ↔ length
        (all_standing outer.now (mapped H.held_map inner.now) leads.now) ≤ items }
{
    let mut left = items;
    for i in 0..outer.source_count() {
        let count = standing_count(led_at(inner, leads, i));
        if count > left {
            return false;
        }
        left -= count;
    }
    true
}

/// The sources that stand for those of the outer map.
pub(crate) fn standing_sources<H: HasMap>(
    alloc: Global,
    outer: &SourceMap,
    inner: &[H],
    leads: &[Option<usize>],
) -> Result<Standing, AllocError>
    ensures { IfOk result (AreStanding outer.now (mapped H.held_map inner.now) leads.now) }
{
    let mut sources = Sources::new(alloc);
    let mut starts = Vec::with_capacity(alloc, outer.source_count())?;
    for i in 0..outer.source_count() {
        starts.push(sources.listed_count())?;
        sources = with_standing(alloc, sources, outer.source(i), led_at(inner, leads, i))?;
    }
    Ok(Standing { sources, starts })
}
