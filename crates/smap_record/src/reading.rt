//! From bytes to a source map: the JSON text after the prefix line is parsed into a tree, then the tree's
//! members are read, then the map they describe. The contents are moved out of the tree, everything else that
//! the map keeps is copied, and the tree is freed at the end. So reading takes a few times the memory of the
//! input.
ghost use Rattle.std.specs.Prelude.{IfOk};
ghost use Rattle.serde_json.specs.View.{view};
ghost use Rattle.smap_shape.specs.Contents.{map_with_contents};
ghost use Rattle.smap_shape.specs.Reading.{shape_of};
ghost use Rattle.smap_shape.specs.Views.{map_value};
ghost use Rattle.smap_record.specs.Record.{record_of};
ghost use Rattle.smap_record.specs.Reading.{reading, tree_map};
ghost use Rattle.smap_record.specs.Fitting.{Fits, ListingFits};
ghost use Rattle.smap_record.specs.Results.{Returns};
ghost use Rattle.smap_record.specs.Owned.{texts_of, members_map};

use crate::fault::{Kind, ReadError, refused};
use crate::flat::flat_map;
use crate::limits::Limits;
use crate::map::SourceMap;
use crate::sections::index_map;
use crate::source_urls::Base;
use crate::text::map_tree;
use serde_json::Value;
use smap_shape::{Shape, shape, split_contents};
use std::alloc::Global;

/// The map of a JSON tree with these contents, or its first fault.
pub(crate) fn split_map_of(
    alloc: Global,
    contents: Vec<Option<String>>,
    tree: &Value,
    base: &Base,
    limits: Limits,
) -> Result<SourceMap, ReadError>
    ensures reads { Returns (λ m. m) result (members_map base.now limits
        (map_value (map_with_contents (texts_of contents.items)) (shape_of (view tree.now)))) }
    ensures fits { IfOk result (λ m. Fits base.now limits (record_of m)) }
    ensures listing_fits { IfOk result (λ m. ListingFits base.now limits m.listing) }
{
    match shape(tree) {
        Ok(Shape::Flat(members)) => flat_map(alloc, &members, contents, base, limits),
        Ok(Shape::Index(members)) => index_map(alloc, &members, base, limits),
        Err(fault) => Err(refused(Kind::from(fault))),
    }
}

/// The map of a JSON tree, or its first fault. Its contents are moved out of the tree.
fn tree_map_of(
    alloc: Global,
    tree: Value,
    base: &Base,
    limits: Limits,
) -> Result<SourceMap, ReadError>
    ensures reads { Returns (λ m. m) result (tree_map base.now limits (view tree)) }
    ensures fits { IfOk result (λ m. Fits base.now limits (record_of m)) }
    ensures listing_fits { IfOk result (λ m. ListingFits base.now limits m.listing) }
{
    let (contents, tree) = split_contents(alloc, tree)?;
    split_map_of(alloc, contents, &tree, base, limits)
}

impl SourceMap {
    /// Reads a source map, flat or an index map, from its bytes. `base` is the URL of the map, against
    /// which its sources are resolved; [`Limits::usual`] serve most callers.
    ///
    /// The bytes are parsed into a JSON tree. Contents are moved out of it, or copied where they are a
    /// section's, and all else that the map keeps is copied.
    ///
    /// The time is linear in the length of the input, except for two products: each source takes the length
    /// of its `sourceRoot`, and each source URL that of the base. Mappings are sorted only where columns
    /// fall within a line.
    ///
    /// # Errors
    ///
    /// `Refused` with the first fault, in the order of `docs/FORMAT.md`; `Memory`.
    ///
    /// # Examples
    ///
    /// ```
    /// let base = Base::new(alloc, "http://h/m/out.js.map")?;
    /// let map = SourceMap::from_slice(alloc, bytes, &base, Limits::usual())?;
    /// ```
    #[tactic(auto, unfolding(crate::specs::Reading::reading))]
    pub fn from_slice(
        alloc: Global,
        bytes: &[u8],
        base: &Base,
        limits: Limits,
    ) -> Result<SourceMap, ReadError>
        ensures reads { Returns (λ m. m) result (reading base.now limits bytes.now) }
        ensures fits { IfOk result (λ m. Fits base.now limits (record_of m)) }
        ensures listing_fits { IfOk result (λ m. ListingFits base.now limits m.listing) }
    {
        let tree = map_tree(alloc, bytes)?;
        tree_map_of(alloc, tree, base, limits)
    }

    /// Answers what [`from_slice`](SourceMap::from_slice) answers, for bytes that are handed over: they are
    /// freed as soon as their JSON tree is there, so that the input isn't held next to the tree and the
    /// map.
    ///
    /// # Errors
    ///
    /// Those of `from_slice`.
    #[tactic(auto, unfolding(crate::specs::Reading::reading))]
    pub fn from_vec(
        alloc: Global,
        bytes: Vec<u8>,
        base: &Base,
        limits: Limits,
    ) -> Result<SourceMap, ReadError>
        ensures reads { Returns (λ m. m) result (reading base.now limits bytes.items) }
        ensures fits { IfOk result (λ m. Fits base.now limits (record_of m)) }
        ensures listing_fits { IfOk result (λ m. ListingFits base.now limits m.listing) }
    {
        let tree = map_tree(alloc, bytes.as_slice())?;
        drop(bytes);
        tree_map_of(alloc, tree, base, limits)
    }
}
