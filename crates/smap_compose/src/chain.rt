//! Chains of maps.
ghost use Rattle.std.specs.Prelude.{◌≡◌, ◌∷◌, [], List, map as mapped, IfOk, IfErr, false, true};
ghost use Rattle.std.specs.Prelude.{option_and_then, option_copied};
ghost use Rattle.smap_record.specs.Record.{Record, record_of};
ghost use Rattle.smap_trace.specs.LineStarts.{line_starts};
ghost use Rattle.smap_compose.specs.declared.error.ComposeError.TheVariants as errors;
ghost use Rattle.smap_compose.specs.Chain.{Link, chain_is_too_many, chained, closed as closed_by, led_to};
ghost use Rattle.smap_compose.specs.Chain.{links_of, some_too_many};
ghost use Rattle.smap_compose.specs.Closed.{AreClosed, found_in, number_in};
ghost use Rattle.smap_compose.specs.Composing.{composition};
ghost use Rattle.smap_compose.specs.Numbered.{is_too_many};

use crate::composing::compose_by;
use crate::error::ComposeError;
use indexmap::IndexMap;
use smap_record::{Limits, SourceMap};
use smap_trace::LineStarts;
use std::alloc::{AllocError, Global};

/// The maps of some links, each composed with those of the links behind it, from the last link on. `numbers`
/// has for each script the number of its first map.
#[derive(Drop)]
pub(crate) struct Closed<'a> {
    numbers: IndexMap<&'a str, usize>,
    maps: Vec<SourceMap>,
    tables: Vec<LineStarts>,
}

/// The number of the map that a source leads to.
fn number_of(numbers: &IndexMap<&str, usize>, url: Option<&str>) -> Option<usize>
    ensures { result ≡ option_and_then (found_in numbers.now.entries) (option_copied url.entry) }
{
    match numbers.get(url?) {
        Some(number) => Some(*number),
        None => None,
    }
}

/// For each source of a map the number of the map that it leads to.
fn leads_of(
    alloc: Global,
    map: &SourceMap,
    numbers: &IndexMap<&str, usize>,
) -> Result<Vec<Option<usize>>, AllocError>
    ensures { IfOk result (λ ls.
        ls.items ≡ mapped (number_in numbers.now.entries) (record_of map.now).sources) }
{
    let mut leads = Vec::with_capacity(alloc, map.source_count())?;
    for i in 0..map.source_count() {
        leads.push(number_of(numbers, map.source(i).url))?;
    }
    Ok(leads)
}

impl<'a> Closed<'a> {
    fn new(alloc: Global) -> Closed<'a>
        ensures { AreClosed [] result }
    {
        Closed {
            numbers: IndexMap::new(alloc),
            maps: Vec::new(alloc),
            tables: Vec::new(alloc),
        }
    }

    /// The composition of a map with these.
    fn composed(
        &self,
        alloc: Global,
        map: &SourceMap,
        limits: Limits,
    ) -> Result<SourceMap, ComposeError>
        requires { self.now.tables.items
            ≡ mapped (λ m. line_starts (record_of m).mappings) self.now.maps.items }
        ensures record { IfOk result (λ m. (links : List Link) → AreClosed links self.now
            → record_of m ≡ composition (record_of map.now) (led_to (closed_by links))) }
        ensures few { IfOk result (λ m. (links : List Link) → AreClosed links self.now
            → is_too_many limits (record_of map.now) (led_to (closed_by links)) ≡ false) }
        ensures refused { IfErr result (λ e. (links : List Link) → AreClosed links self.now
            → e ≡ errors.TooMany
            → is_too_many limits (record_of map.now) (led_to (closed_by links)) ≡ true) }
    {
        // What this call promises besides the count: the sources of a map's mappings are listed.
        let _ = map.token_count();
        let leads = leads_of(alloc, map, &self.numbers)?;
        compose_by(alloc, map, &self.maps, &self.tables, &leads, limits)
    }

    /// These behind one link more, whose map was composed with them.
    fn with(self, alloc: Global, script: &'a str, map: SourceMap) -> Result<Closed<'a>, AllocError>
        ensures { IfOk result (λ c. (links : List Link) (m : Record) → AreClosed links self.entry
            → record_of map ≡ composition m (led_to (closed_by links))
            → AreClosed ((script.now, m) ∷ links) c) }
    {
        let Closed {
            mut numbers,
            mut maps,
            mut tables,
        } = self;
        tables.push(LineStarts::new(alloc, &map)?)?;
        numbers.insert(script, maps.len())?;
        maps.push(map)?;
        Ok(Closed {
            numbers,
            maps,
            tables,
        })
    }
}

/// The links, each composed with the later ones.
fn close_all<'a>(
    alloc: Global,
    links: &[(&'a str, SourceMap)],
    limits: Limits,
) -> Result<Closed<'a>, ComposeError>
    ensures closed { IfOk result (λ c. AreClosed (links_of links.now) c) }
    ensures few { IfOk result (λ c. some_too_many limits (links_of links.now) ≡ false) }
    ensures refused { IfErr result (λ e. e ≡ errors.TooMany
        → some_too_many limits (links_of links.now) ≡ true) }
{
    let mut closed = Closed::new(alloc);
    let mut left = links.len();
    while left > 0 {
        left -= 1;
        let link = &links[left];
        let map = match closed.composed(alloc, &link.1, limits) {
            Ok(map) => map,
            Err(error) => return Err(error),
        };
        closed = closed.with(alloc, link.0, map)?;
    }
    Ok(closed)
}

/// The composition of a map with the chain that its sources lead to. `links` are scripts with their maps: a
/// source leads to the first later link whose URL is the source's, byte for byte. So each chain ends, and
/// `a.js` made out of an `a.js` are two links.
///
/// The original of a position in it is where one lookup after another leads. Labels are those of `outer`.
///
/// # Errors
///
/// `TooMany`, as [`compose`](crate::compose) has it, also of a link that is composed with the later ones.
/// `Memory`.
pub fn compose_chain(
    alloc: Global,
    outer: &SourceMap,
    links: &[(&str, SourceMap)],
    limits: Limits,
) -> Result<SourceMap, ComposeError>
    ensures record { IfOk result (λ m. record_of m ≡ chained (record_of outer.now) (links_of links.now)) }
    ensures few { IfOk result (λ m.
        chain_is_too_many limits (record_of outer.now) (links_of links.now) ≡ false) }
    ensures refused { IfErr result (λ e. e ≡ errors.TooMany
        → chain_is_too_many limits (record_of outer.now) (links_of links.now) ≡ true) }
{
    let closed = close_all(alloc, links, limits)?;
    closed.composed(alloc, outer, limits)
}
