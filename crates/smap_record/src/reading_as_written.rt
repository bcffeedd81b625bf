//! A map together with its sources as its text writes them, both from one JSON tree.
ghost use Rattle.std.specs.Prelude.{◌≡◌, IfOk, length, map};
ghost use Rattle.serde_json.specs.View.{view};
ghost use Rattle.smap_record.specs.Record.{record_of};
ghost use Rattle.smap_record.specs.Reading.{reading, tree_map};
ghost use Rattle.smap_record.specs.Fitting.{Fits, ListingFits};
ghost use Rattle.smap_record.specs.Results.{Returns};
ghost use Rattle.smap_record.specs.Written.{of_tree, as_written, url_of};

use crate::fault::ReadError;
use crate::limits::Limits;
use crate::map::SourceMap;
use crate::reading::split_map_of;
use crate::source_urls::Base;
use crate::text::map_tree;
use crate::written::{WrittenSources, written_sources};
use serde_json::Value;
use smap_shape::split_contents;
use std::alloc::Global;

/// The map of a JSON tree and its sources as they are written there, or its first fault.
fn tree_map_of(
    alloc: Global,
    tree: Value,
    base: &Base,
    limits: Limits,
) -> Result<(SourceMap, WrittenSources), ReadError>
    ensures reads { Returns (λ r. r.0) result (tree_map base.now limits (view tree)) }
    ensures fits { IfOk result (λ r. Fits base.now limits (record_of r.0)) }
    ensures listing_fits { IfOk result (λ r. ListingFits base.now limits r.0.listing) }
    ensures written { IfOk result (λ r. r.1 ≡ of_tree (view tree)) }
    ensures count { IfOk result (λ r. length r.1 ≡ length r.0.listing.sources) }
    ensures urls { IfOk result (λ r.
        map (λ e. e.url) r.0.listing.sources ≡ map (url_of base.now) r.1) }
{
    let (contents, tree) = split_contents(alloc, tree)?;
    let map = split_map_of(alloc, contents, &tree, base, limits)?;
    let written = written_sources(alloc, &tree)?;
    Ok((map, written))
}

impl SourceMap {
    /// Reads a source map as [`from_slice`](SourceMap::from_slice) does, and answers its sources as the
    /// text writes them as well, with the `sourceRoot` of each. The text is parsed once for both.
    ///
    /// # Errors
    ///
    /// Those of `from_slice`.
    #[tactic(auto, unfolding(crate::specs::Reading::reading))]
    pub fn from_slice_as_written(
        alloc: Global,
        bytes: &[u8],
        base: &Base,
        limits: Limits,
    ) -> Result<(SourceMap, WrittenSources), ReadError>
        ensures reads { Returns (λ r. r.0) result (reading base.now limits bytes.now) }
        ensures fits { IfOk result (λ r. Fits base.now limits (record_of r.0)) }
        ensures listing_fits { IfOk result (λ r. ListingFits base.now limits r.0.listing) }
        ensures written { IfOk result (λ r. r.1 ≡ as_written bytes.now) }
        ensures count { IfOk result (λ r. length r.1 ≡ length r.0.listing.sources) }
        ensures urls { IfOk result (λ r.
            map (λ e. e.url) r.0.listing.sources ≡ map (url_of base.now) r.1) }
    {
        let tree = map_tree(alloc, bytes)?;
        tree_map_of(alloc, tree, base, limits)
    }

    /// Answers what [`from_slice_as_written`](SourceMap::from_slice_as_written) answers, for bytes that are
    /// handed over: they are freed as soon as their JSON tree is there.
    ///
    /// # Errors
    ///
    /// Those of `from_slice`.
    #[tactic(auto, unfolding(crate::specs::Reading::reading))]
    pub fn from_vec_as_written(
        alloc: Global,
        bytes: Vec<u8>,
        base: &Base,
        limits: Limits,
    ) -> Result<(SourceMap, WrittenSources), ReadError>
        ensures reads { Returns (λ r. r.0) result (reading base.now limits bytes.items) }
        ensures fits { IfOk result (λ r. Fits base.now limits (record_of r.0)) }
        ensures listing_fits { IfOk result (λ r. ListingFits base.now limits r.0.listing) }
        ensures written { IfOk result (λ r. r.1 ≡ as_written bytes.items) }
        ensures count { IfOk result (λ r. length r.1 ≡ length r.0.listing.sources) }
        ensures urls { IfOk result (λ r.
            map (λ e. e.url) r.0.listing.sources ≡ map (url_of base.now) r.1) }
    {
        let tree = map_tree(alloc, bytes.as_slice())?;
        drop(bytes);
        tree_map_of(alloc, tree, base, limits)
    }
}
