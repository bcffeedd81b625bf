//! Canonical bytes, the canonical mappings string by itself, and flat bytes.
ghost use Rattle.std.specs.Prelude.{◌≡◌, ◌≤◌, ◌+◌, ◌*◌, length, IfOk, OnOk};
ghost use Rattle.smap_mappings.specs.Text.{line_count};
ghost use Rattle.smap_record.specs.Record.{record_of};
ghost use Rattle.smap_record.specs.Listings.{IsListing};
ghost use Rattle.smap_canon.specs.Layout.{absolute, form_asked, relative_form, spelling_in};
ghost use Rattle.smap_canon.specs.Layout.{layout, layout_text, flat_text, ReadsBack};
ghost use Rattle.smap_canon.specs.Canonical.{canonical_map, canonical_text, canonical_text_in};
ghost use Rattle.smap_canon.specs.Canonical.{canonical_mappings_text};
ghost use Rattle.smap_canon.specs.Laws.{IsReadAgain, IsReadAgainFrom, IsReadAgainIn, IsFlatReadAgain};
ghost use Rattle.smap_canon.specs.Spelling.{spelling_of};
ghost use Rattle.smap_canon.specs.Writing.{map_of};

use crate::layout::FlatMap;
use crate::listing_to_write::ListingToWrite;
use crate::numbering::{numbered_mappings, pass_numbered, used_names};
use crate::spelling::Spelling;
use smap_mappings::{Memory, TextLength};
use smap_record::{Base, SourceMap};
use std::alloc::Global;

/// The bytes of what is listed, with its URLs in this form.
///
/// Every error of `serde_json` means that memory ran out, in its writer or while a member was made: all keys
/// are strings, nothing is flattened, and there are no floats.
fn written(
    alloc: Global,
    listed: ListingToWrite<'_>,
    spelling: Spelling<'_>,
) -> Result<Vec<u8>, Memory>
    ensures text { IfOk result (λ bytes. bytes.items
        ≡ layout_text (spelling_of spelling.entry) (map_of listed.entry)) }
    ensures back { OnOk result (ReadsBack (layout (spelling_of spelling.entry) (map_of listed.entry))) }
    ensures listing { IsListing listed.entry.map.now.listing }
{
    // Called for its contract, which promises what holds for every listing.
    let _ = listed.map.token_count();
    let flat = FlatMap {
        alloc,
        listed,
        spelling,
    };
    match serde_json::to_string(alloc, &flat) {
        Ok(text) => Ok(text.into_bytes()),
        Err(_) => Err(Memory),
    }
}

/// The canonical bytes of the map's record, with URLs in this form.
fn canonical_spelled(
    alloc: Global,
    map: &SourceMap,
    spelling: Spelling<'_>,
) -> Result<Vec<u8>, Memory>
    ensures text { IfOk result (λ bytes. bytes.items
        ≡ layout_text (spelling_of spelling.entry) (canonical_map (record_of map.now))) }
    ensures back { OnOk result (ReadsBack
        (layout (spelling_of spelling.entry) (canonical_map (record_of map.now)))) }
    ensures listing { OnOk result (IsListing map.now.listing) }
{
    let names = used_names(alloc, map)?;
    written(alloc, ListingToWrite::of_record(map, &names), spelling)
}

/// The canonical mappings string of a map: sorted, and as short as possible, with sources numbered as the
/// record has them and names by first use. It has at most 36 bytes for each mapping, and one for each line
/// up to the last one with a mapping.
///
/// # Errors
///
/// `Memory`.
pub fn canonical_mappings(alloc: Global, map: &SourceMap) -> Result<Vec<u8>, Memory>
    ensures text { IfOk result (λ text. text.items ≡ canonical_mappings_text (record_of map.now)) }
    // At most 36 bytes for each mapping, and one for each line up to the last one with a mapping.
    ensures short { IfOk result (λ text. length text.items
        ≤ 36 * length map.now.listing.tokens + line_count map.now.listing.tokens) }
{
    let names = used_names(alloc, map)?;
    let mappings = numbered_mappings(alloc, map, &names)?;
    Ok(mappings)
}

/// The length in bytes of the canonical mappings string of a map, which isn't made for it.
///
/// # Errors
///
/// `Memory`.
pub fn canonical_mappings_len(alloc: Global, map: &SourceMap) -> Result<u128, Memory>
    ensures { IfOk result (λ len. len ≡ length (canonical_mappings_text (record_of map.now))) }
{
    let names = used_names(alloc, map)?;
    let mut text = TextLength::new();
    pass_numbered(&mut text, map, &names)?;
    Ok(text.len())
}

/// The canonical form of a map: one flat map as compact JSON, which `docs/OUTPUT.md` specifies byte by
/// byte.
///
/// Two maps have equal records exactly if their canonical bytes are equal. Read again with the same base
/// and limits, they are accepted with the same record.
///
/// # Errors
///
/// `Memory`.
///
/// # Examples
///
/// ```
/// let map = SourceMap::from_slice(alloc, bytes, &base, Limits::usual())?;
/// let tidied = canonical(alloc, &map)?;
/// ```
pub fn canonical(alloc: Global, map: &SourceMap) -> Result<Vec<u8>, Memory>
    ensures text { IfOk result (λ bytes. bytes.items ≡ canonical_text (record_of map.now)) }
    // Parsed as JSON, the bytes are the canonical tree.
    ensures back { OnOk result (ReadsBack (layout absolute (canonical_map (record_of map.now)))) }
    // Read as a map, they have no fault, and the same record.
    ensures read_again { OnOk result (IsReadAgain (record_of map.now)) }
{
    let bytes = canonical_spelled(alloc, map, Spelling::Absolute)?;
    Ok(bytes)
}

/// The canonical form of a map with source URLs relative to `base`, so that maps and sources can be moved
/// together. A URL for which that doesn't round-trip stays absolute ([`Base::relative`]), and a source
/// without a URL stays `null`.
///
/// `base` is the map's own URL. Read again with this base, the bytes are accepted with the same record.
/// Each URL and its relative form are resolved again, on top of what [`canonical`] costs.
///
/// # Errors
///
/// `Memory`.
///
/// # Examples
///
/// ```
/// let tidied = canonical_relative(alloc, &map, &base)?; // "sources":["a.js"], not ["http://h/m/a.js"]
/// ```
pub fn canonical_relative(alloc: Global, map: &SourceMap, base: &Base) -> Result<Vec<u8>, Memory>
    ensures text { IfOk result (λ bytes. bytes.items
        ≡ canonical_text_in relative_form base.now (record_of map.now)) }
    // Parsed as JSON, the bytes are the canonical tree with relative URLs.
    ensures back { OnOk result (ReadsBack
        (layout (spelling_in relative_form base.now) (canonical_map (record_of map.now)))) }
    // Read as a map with this base, they have no fault, and the same record.
    ensures read_again { OnOk result (IsReadAgainFrom base.now (record_of map.now)) }
{
    let bytes = canonical_spelled(alloc, map, Spelling::Relative(base))?;
    Ok(bytes)
}

/// The canonical bytes of the map's record in the form that is asked for: those of `canonical_relative`, or
/// those of `canonical`.
pub fn canonical_in(
    alloc: Global,
    map: &SourceMap,
    base: &Base,
    relative: bool,
) -> Result<Vec<u8>, Memory>
    ensures text { IfOk result (λ bytes. bytes.items
        ≡ canonical_text_in (form_asked relative) base.now (record_of map.now)) }
    // Parsed as JSON, the bytes are the canonical tree in that form.
    ensures back { OnOk result (ReadsBack
        (layout (spelling_in (form_asked relative) base.now) (canonical_map (record_of map.now)))) }
    // Read as a map with this base, they have no fault, and the same record.
    ensures read_again { OnOk result
        (IsReadAgainIn (form_asked relative) base.now (record_of map.now)) }
{
    let bytes = canonical_spelled(alloc, map, Spelling::asked(base, relative))?;
    Ok(bytes)
}

/// A map as one flat map, as compact JSON, with `sources` and `names` as listed, one section's after
/// another's. Repeated sources and unused names stay. Read again with the same base and limits, it is the
/// same map.
///
/// # Errors
///
/// `Memory`.
pub fn flatten(alloc: Global, map: &SourceMap) -> Result<Vec<u8>, Memory>
    ensures text { IfOk result (λ bytes. bytes.items ≡ flat_text map.now) }
    // Parsed as JSON, the bytes are the layout of the listing.
    ensures back { OnOk result (ReadsBack (layout absolute map.now)) }
    // Read as a map with a base and limits that the listing fits, they have no fault, and are the same map.
    ensures read_again { OnOk result (IsFlatReadAgain map.now) }
{
    let listed = ListingToWrite { map, names: None };
    let bytes = written(alloc, listed, Spelling::Absolute)?;
    Ok(bytes)
}
