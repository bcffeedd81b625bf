//! A map together with its sources as its text writes them, read only where the URLs of its sources take at
//! most as many bytes as a caller allows. A `sourceRoot` goes before each source that its map lists, so a
//! text of half a megabyte may have URLs of gigabytes; the map is read only when it is known that it has none
//! such.
ghost use Rattle.std.specs.Prelude.{◌≡◌, ◌≤◌, IfOk, IfSome, length, map, option_map};
ghost use Rattle.serde_json.specs.View.{view};
ghost use Rattle.smap_record.specs.Record.{record_of};
ghost use Rattle.smap_record.specs.UrlBytes.{reading_within, tree_map_within, listed_bytes};
ghost use Rattle.smap_record.specs.Fitting.{Fits, ListingFits};
ghost use Rattle.smap_record.specs.Results.{Returns};
ghost use Rattle.smap_record.specs.Written.{of_tree, as_written, url_of};

use crate::fault::ReadError;
use crate::limits::Limits;
use crate::map::SourceMap;
use crate::reading::split_map_of;
use crate::source_urls::Base;
use crate::text::map_tree;
use crate::url_bytes::are_within;
use crate::written::{WrittenSources, written_sources};
use serde_json::Value;
use smap_shape::split_contents;
use std::alloc::Global;

/// The map of a JSON tree and its sources as they are written there, or its first fault; none if the sources
/// take more than this many bytes.
fn tree_map_within(
    alloc: Global,
    tree: Value,
    base: &Base,
    limits: Limits,
    most: usize,
) -> Result<Option<(SourceMap, WrittenSources)>, ReadError>
    ensures reads { Returns (option_map (λ r. r.0)) result
        (tree_map_within base.now limits most (view tree)) }
    ensures within { IfOk result (λ o. IfSome o (λ r. listed_bytes r.0.listing.sources ≤ most)) }
    ensures fits { IfOk result (λ o. IfSome o (λ r. Fits base.now limits (record_of r.0))) }
    ensures listing_fits { IfOk result (λ o. IfSome o (λ r. ListingFits base.now limits r.0.listing)) }
    ensures written { IfOk result (λ o. IfSome o (λ r. r.1 ≡ of_tree (view tree))) }
    ensures count { IfOk result (λ o. IfSome o (λ r. length r.1 ≡ length r.0.listing.sources)) }
    ensures urls { IfOk result (λ o. IfSome o (λ r.
        map (λ e. e.url) r.0.listing.sources ≡ map (url_of base.now) r.1)) }
{
    let (contents, tree) = split_contents(alloc, tree)?;
    let written = written_sources(alloc, &tree)?;
    let within = are_within(alloc, base, &written, most)?;
    if !within {
        return Ok(None);
    }
    let map = split_map_of(alloc, contents, &tree, base, limits)?;
    Ok(Some((map, written)))
}

impl SourceMap {
    /// Reads a source map as [`from_slice_as_written`](SourceMap::from_slice_as_written) does, unless the
    /// URLs of its sources take more than `url_bytes` bytes together: then the answer is `None`, before a URL
    /// is kept.
    ///
    /// Each source counts as often as it is listed, with the bytes of its URL, or with those of the text that
    /// its URL is parsed from (`sourceRoot` and the source) if they are more. So what is counted bounds the
    /// time, too, that it takes to find the URLs; they are found twice, and one at a time at first.
    ///
    /// # Errors
    ///
    /// Those of `from_slice`, where the URLs don't take more. Only a text that isn't JSON is refused whatever
    /// it has in it.
    pub fn from_slice_within(
        alloc: Global,
        bytes: &[u8],
        base: &Base,
        limits: Limits,
        url_bytes: usize,
    ) -> Result<Option<(SourceMap, WrittenSources)>, ReadError>
        ensures reads { Returns (option_map (λ r. r.0)) result
            (reading_within base.now limits url_bytes bytes.now) }
        ensures within { IfOk result (λ o. IfSome o (λ r. listed_bytes r.0.listing.sources ≤ url_bytes)) }
        ensures fits { IfOk result (λ o. IfSome o (λ r. Fits base.now limits (record_of r.0))) }
        ensures listing_fits { IfOk result (λ o. IfSome o (λ r. ListingFits base.now limits r.0.listing)) }
        ensures written { IfOk result (λ o. IfSome o (λ r. r.1 ≡ as_written bytes.now)) }
        ensures count { IfOk result (λ o. IfSome o (λ r. length r.1 ≡ length r.0.listing.sources)) }
        ensures urls { IfOk result (λ o. IfSome o (λ r.
            map (λ e. e.url) r.0.listing.sources ≡ map (url_of base.now) r.1)) }
    {
        let tree = map_tree(alloc, bytes)?;
        tree_map_within(alloc, tree, base, limits, url_bytes)
    }
}
