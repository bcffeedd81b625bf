//! A flat map, read from its members and added to what is listed before it: first its counts are compared
//! with the limits, then its sources are resolved in turn, then its mappings are decoded. Names are copied
//! last, when the map can't be refused any more. The contents of a section are copied, and those of a map
//! that isn't in a section are passed in by value.
ghost use Rattle.std.specs.Prelude.{◌≡◌, ◌++◌, map, IfOk, false, string_bytes};
ghost use Rattle.smap_mappings.specs.Position.{IsPosition};
ghost use Rattle.smap_shape.specs.Contents.{with_contents as flat_with};
ghost use Rattle.smap_record.specs.Record.{record_of};
ghost use Rattle.smap_record.specs.Flat.{listed_flat, flat_map as flat_map_of};
ghost use Rattle.smap_record.specs.Fitting.{Fits, ListingFits};
ghost use Rattle.smap_record.specs.Results.{Returns};
ghost use Rattle.smap_record.specs.Owned.{texts_of};
ghost use Rattle.smap_record.specs.MapView.{listing_of};
ghost use Rattle.smap_record.specs.Building.{any_after};

mod sources;
mod tokens;

use crate::fault::{Kind, ReadError, refused};
use crate::labels::own_labels;
use crate::limits::Limits;
use crate::listing::Listing;
use crate::map::SourceMap;
use crate::source_urls::Base;
use smap_mappings::Position;
use smap_shape::FlatShape;
pub(crate) use sources::copied;
use sources::{copied_contents, with_sources};
use std::alloc::{AllocError, Global};
use tokens::{bounds, is_too_many, with_tokens};

/// The names listed before the map, followed by copies of its own.
fn with_names(
    alloc: Global,
    before: Vec<String>,
    shape: &FlatShape<'_>,
) -> Result<Vec<String>, AllocError>
    ensures { IfOk result (λ names.
        map string_bytes names.items ≡ map string_bytes before.items ++ shape.now.names) }
{
    let mut names = before;
    for i in 0..shape.name_count() {
        names.push(String::from_str(alloc, shape.name(i))?)?;
    }
    Ok(names)
}

/// What is listed once a map that starts at an offset is added to what is listed before it, or the map's
/// first fault. The map's contents are passed in, in place of those of its members. No earlier token is after
/// the offset.
fn with_contents(
    alloc: Global,
    before: Listing,
    shape: &FlatShape<'_>,
    contents: Vec<Option<String>>,
    base: &Base,
    limits: Limits,
    offset: Position,
) -> Result<Listing, ReadError>
    requires offset { IsPosition offset }
    requires none_after { any_after offset before.tokens.items ≡ false }
    requires fits { ListingFits base.now limits (listing_of before) }
    ensures reads { Returns listing_of result
        (listed_flat base.now limits offset (listing_of before)
        (flat_with (texts_of contents.items) shape.now)) }
    ensures fits { IfOk result (λ g. ListingFits base.now limits (listing_of g)) }
{
    if is_too_many(&before, shape, limits) {
        return Err(refused(Kind::TooMany));
    }
    let bounds = bounds(shape, limits, offset);
    let Listing {
        sources,
        names,
        tokens,
    } = before;
    let source_count = sources.listed_count();
    let name_count = names.len();
    let sources = with_sources(alloc, sources, base, shape, contents)?;
    let tokens = with_tokens(
        alloc,
        tokens,
        shape.mappings(),
        bounds,
        source_count,
        name_count,
    )?;
    let names = with_names(alloc, names, shape)?;
    Ok(Listing {
        sources,
        names,
        tokens,
    })
}

/// What is listed once a map that starts at an offset is added to what is listed before it, or the map's
/// first fault. The map's contents are copied. No earlier token is after the offset.
pub(crate) fn with_flat(
    alloc: Global,
    before: Listing,
    shape: &FlatShape<'_>,
    base: &Base,
    limits: Limits,
    offset: Position,
) -> Result<Listing, ReadError>
    requires offset { IsPosition offset }
    requires none_after { any_after offset before.tokens.items ≡ false }
    requires fits { ListingFits base.now limits (listing_of before) }
    ensures reads { Returns listing_of result
        (listed_flat base.now limits offset (listing_of before) shape.now) }
    ensures fits { IfOk result (λ g. ListingFits base.now limits (listing_of g)) }
{
    let contents = copied_contents(alloc, shape)?;
    with_contents(alloc, before, shape, contents, base, limits, offset)
}

/// The map that has these members and these contents, or its first fault.
pub(crate) fn flat_map(
    alloc: Global,
    shape: &FlatShape<'_>,
    contents: Vec<Option<String>>,
    base: &Base,
    limits: Limits,
) -> Result<SourceMap, ReadError>
    ensures reads { Returns (λ m. m) result
        (flat_map_of base.now limits (flat_with (texts_of contents.items) shape.now)) }
    ensures fits { IfOk result (λ m. Fits base.now limits (record_of m)) }
    ensures listing_fits { IfOk result (λ m. ListingFits base.now limits m.listing) }
{
    let start = Position { line: 0, column: 0 };
    let before = Listing::new(alloc);
    let listed = with_contents(alloc, before, shape, contents, base, limits, start)?;
    let labels = own_labels(alloc, shape.labels())?;
    Ok(SourceMap::new(labels, listed))
}
