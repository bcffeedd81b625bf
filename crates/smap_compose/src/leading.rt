//! Whether each map of a chain is one that a source leads to.
ghost use Rattle.std.specs.Prelude.{◌≡◌, ◌++◌, List, IfOk};
ghost use Rattle.smap_record.specs.Record.{Entry, record_of};
ghost use Rattle.smap_compose.specs.Chain.{links_of, unled};
ghost use Rattle.smap_compose.specs.Closed.{AreOpen, is_open as is_open_in};

use indexmap::IndexMap;
use smap_record::SourceMap;
use std::alloc::{AllocError, Global};

/// Whether a source of this URL waits for its map.
fn is_open(urls: &IndexMap<&str, bool>, url: &str) -> bool
    ensures { result ≡ is_open_in urls.now.entries url.now }
{
    match urls.get(url) {
        Some(is_open) => *is_open,
        None => false,
    }
}

/// The sources of a map wait for their maps, too.
fn with_sources<'a>(
    before: IndexMap<&'a str, bool>,
    map: &'a SourceMap,
) -> Result<IndexMap<&'a str, bool>, AllocError>
    ensures { IfOk result (λ urls. (es : List Entry) → AreOpen before.entry.entries es
        → AreOpen urls.entries (es ++ (record_of map.now).sources)) }
{
    let mut urls = before;
    for i in 0..map.source_count() {
        let Some(url) = map.source(i).url else {
            continue;
        };
        urls.insert(url, true)?;
    }
    Ok(urls)
}

/// The number of the first link that no source of an earlier map leads to, where a source leads to the first
/// later link whose URL is its own; none if one leads to each. A URL that is written otherwise is the usual
/// mistake, and without its map the composition stays at that source.
///
/// # Errors
///
/// `AllocError`.
pub fn first_unled(
    alloc: Global,
    outer: &SourceMap,
    links: &[(&str, SourceMap)],
) -> Result<Option<usize>, AllocError>
    ensures { IfOk result (λ n. n ≡ unled (record_of outer.now) (links_of links.now)) }
{
    let mut urls = with_sources(IndexMap::new(alloc), outer)?;
    for i in 0..links.len() {
        let link = &links[i];
        if !is_open(&urls, link.0) {
            return Ok(Some(i));
        }
        urls.insert(link.0, false)?;
        urls = with_sources(urls, &link.1)?;
    }
    Ok(None)
}
