//! An index map, read section by section in one pass: what a section lists is added to what those before it
//! list. If the map of a section is an index map, its sections are read in turn, each placed by both offsets.
//! At most eight levels of index maps are read, so the depth of recursion is bounded, however deep the JSON
//! text nests (ECMA-426, "Index source map").
ghost use Rattle.std.specs.Prelude.{◌≡◌, ◌≤◌, IfOk, None, false, map as mapped};
ghost use Rattle.serde_json.specs.View.{view};
ghost use Rattle.smap_shape.specs.Limits.{max_level};
ghost use Rattle.smap_shape.specs.Reading.{section_of};
ghost use Rattle.smap_shape.specs.Views.{index_members, section_members};
ghost use Rattle.smap_record.specs.Record.{record_of};
ghost use Rattle.smap_record.specs.Faults.{of_shape};
ghost use Rattle.smap_record.specs.Sections.{map_at_level, listed_section, listed_sections};
ghost use Rattle.smap_record.specs.Sections.{index_map as index_map_of, own_offset as offset_of};
ghost use Rattle.smap_record.specs.Fitting.{Fits, ListingFits};
ghost use Rattle.smap_record.specs.Results.{Returns};
ghost use Rattle.smap_mappings.specs.Position.{IsPosition, NeverFalls, position_of};
ghost use Rattle.smap_record.specs.MapView.{listing_of};
ghost use Rattle.smap_record.specs.Building.{any_after, error_in, both, HasRoom};
ghost use Rattle.smap_record.specs.Building.{section_start, listed_map};

use crate::fault::{Fault, Kind, ReadError, refused};
use crate::flat::with_flat;
use crate::labels::own_labels;
use crate::limits::Limits;
use crate::listing::{Listing, falls, overlaps};
use crate::map::SourceMap;
use crate::source_urls::Base;
use serde_json::Value;
use smap_mappings::Position;
use smap_shape::{IndexShape, MAX_LEVEL, SectionShape, Shape, section, shape};
use std::alloc::Global;

/// An error as one in the section with this index.
fn in_section(k: usize, error: ReadError) -> ReadError
    requires { HasRoom error }
    ensures { result ≡ error_in k error }
{
    match error {
        ReadError::Refused(fault) => {
            let Fault {
                section,
                place,
                kind,
            } = fault;
            ReadError::Refused(Fault {
                section: section.within(k),
                place,
                kind,
            })
        }
        ReadError::Memory => ReadError::Memory,
    }
}

/// The offset of a section and the tree of its map, or the first fault of these.
fn section_shape(tree: &Value, level: u8) -> Result<SectionShape<'_>, ReadError>
    requires first { 1 ≤ level }
    requires last { level ≤ max_level }
    ensures { Returns section_members result (of_shape (section_of level (view tree.now))) }
{
    match section(tree, level) {
        Ok(section) => Ok(section),
        Err(fault) => Err(refused(Kind::from(fault))),
    }
}

/// The offset of a section as written.
fn own_offset(section: &SectionShape<'_>) -> Position
    ensures { result ≡ offset_of (section_members section.now) }
{
    Position {
        line: section.line(),
        column: section.column(),
    }
}

/// Where a section with this own offset starts, in a map that starts at `outer`, or why it can't be added to
/// what is listed before it. `last` is the own offset of the previous section.
fn start_of(
    before: &Listing,
    last: Option<Position>,
    own: Position,
    outer: Position,
) -> Result<Position, ReadError>
    requires { NeverFalls (mapped position_of before.now.tokens.items) }
    ensures starts { Returns (λ p. p) result
        (section_start outer last (listing_of before.now) own) }
    ensures within { IfOk result IsPosition }
    ensures none_after { IfOk result (λ offset. any_after offset before.now.tokens.items ≡ false) }
{
    let Some(offset) = outer.place(own) else {
        return Err(refused(Kind::Offset));
    };
    if falls(last, own) {
        return Err(refused(Kind::Order));
    }
    if overlaps(before.tokens.as_slice(), offset) {
        return Err(refused(Kind::Overlap));
    }
    Ok(offset)
}

/// What is listed once the map of a section of an index map of this level, which starts at `offset`, is added
/// to what is listed before it; or the map's first fault.
#[cycle(nested)]
fn with_map(
    alloc: Global,
    before: Listing,
    tree: &Value,
    base: &Base,
    limits: Limits,
    offset: Position,
    level: u8,
) -> Result<Listing, ReadError>
    requires first { 1 ≤ level }
    requires last { level ≤ max_level }
    requires offset { IsPosition offset }
    requires none_after { any_after offset before.tokens.items ≡ false }
    requires fits { ListingFits base.now limits (listing_of before) }
    ensures reads { Returns listing_of result
        (listed_map (map_at_level base.now limits level) offset (listing_of before) (view tree.now)) }
    ensures fits { IfOk result (λ g. ListingFits base.now limits (listing_of g)) }
{
    match shape(tree) {
        Ok(Shape::Flat(members)) => with_flat(alloc, before, &members, base, limits, offset),
        Ok(Shape::Index(members)) => {
            // `section` has refused this already. The test shows the prover that the recursion ends.
            if level == MAX_LEVEL {
                return Err(refused(Kind::Nested));
            }
            with_sections(alloc, before, &members, base, limits, offset, level + 1)
        }
        Err(fault) => Err(refused(Kind::from(fault))),
    }
}

/// What is listed once one section of an index map of this level, which starts at `outer`, is added to what
/// is listed before it, and the section's own offset; or the section's first fault. `last` is the own offset
/// of the previous section.
#[cycle(nested)]
fn with_section(
    alloc: Global,
    before: Listing,
    last: Option<Position>,
    tree: &Value,
    base: &Base,
    limits: Limits,
    outer: Position,
    level: u8,
) -> Result<(Position, Listing), ReadError>
    requires first { 1 ≤ level }
    requires last { level ≤ max_level }
    requires outer { IsPosition outer }
    requires fits { ListingFits base.now limits (listing_of before) }
    ensures reads { Returns both result
        (listed_section level (map_at_level base.now limits level) outer last
        (listing_of before) (view tree.now)) }
    ensures fits { IfOk result (λ r. ListingFits base.now limits (listing_of r.1)) }
{
    let section = section_shape(tree, level)?;
    let own = own_offset(&section);
    let offset = start_of(&before, last, own, outer)?;
    let now = with_map(alloc, before, section.map(), base, limits, offset, level)?;
    Ok((own, now))
}

/// What is listed once all sections of an index map of this level, which starts at `outer`, are added to what
/// is listed before it; or the first fault.
#[cycle(nested)]
fn with_sections(
    alloc: Global,
    before: Listing,
    shape: &IndexShape<'_>,
    base: &Base,
    limits: Limits,
    outer: Position,
    level: u8,
) -> Result<Listing, ReadError>
    requires first { 1 ≤ level }
    requires last { level ≤ max_level }
    requires outer { IsPosition outer }
    requires fits { ListingFits base.now limits (listing_of before) }
    ensures reads { Returns listing_of result
        (listed_sections level (map_at_level base.now limits level) outer 0 None
        (listing_of before) (mapped view shape.now.sections)) }
    ensures fits { IfOk result (λ g. ListingFits base.now limits (listing_of g)) }
{
    let mut last = None;
    let mut listed = before;
    for k in 0..shape.section_count() {
        let tree = shape.section_value(k);
        match with_section(alloc, listed, last, tree, base, limits, outer, level) {
            Ok((own, now)) => {
                last = Some(own);
                listed = now;
            }
            Err(error) => return Err(in_section(k, error)),
        }
    }
    Ok(listed)
}

/// The map that has these members, or its first fault.
pub(crate) fn index_map(
    alloc: Global,
    shape: &IndexShape<'_>,
    base: &Base,
    limits: Limits,
) -> Result<SourceMap, ReadError>
    ensures reads { Returns (λ m. m) result (index_map_of base.now limits (index_members shape.now)) }
    ensures fits { IfOk result (λ m. Fits base.now limits (record_of m)) }
    ensures listing_fits { IfOk result (λ m. ListingFits base.now limits m.listing) }
{
    let start = Position { line: 0, column: 0 };
    let before = Listing::new(alloc);
    let listed = with_sections(alloc, before, shape, base, limits, start, 1)?;
    let labels = own_labels(alloc, shape.labels())?;
    Ok(SourceMap::new(labels, listed))
}
