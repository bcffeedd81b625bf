//! Reading and writing in one call, with contracts that say what the two promise together.
ghost use Rattle.std.specs.Prelude.{IfOk};
ghost use Rattle.smap_record.specs.Results.{Returns};
ghost use Rattle.smap_canon.specs.Layout.{form_asked};
ghost use Rattle.smap_canon.specs.RoundTrips.{tidied_text, IsTidied, flattened_text, IsFlattened};
ghost use Rattle.smap_canon.specs.RoundTrips.{equal_texts, DecidesEquality};

use crate::writing::{canonical_in, flatten};
use smap_record::{Base, Limits, ReadError, SourceMap};
use std::alloc::Global;

/// The canonical form of the map that these bytes are, with source URLs relative to the base if `relative`
/// is set: [`SourceMap::from_slice`], then [`crate::canonical_in`]. Under the same base and limits it is
/// accepted with the same record, and is its own canonical form.
///
/// # Errors
///
/// `Refused` with the first fault; `Memory`.
///
/// # Examples
///
/// ```
/// let text = tidied(alloc, bytes, &base, Limits::usual())?;
/// ```
pub fn tidied(
    alloc: Global,
    bytes: &[u8],
    base: &Base,
    limits: Limits,
    relative: bool,
) -> Result<Vec<u8>, ReadError>
    ensures gives { Returns (λ v. v.items) result
        (tidied_text (form_asked relative) base.now limits bytes.now) }
    ensures stays { IfOk result (λ v. IsTidied (form_asked relative) base.now limits bytes.now v.items) }
{
    let map = SourceMap::from_slice(alloc, bytes, base, limits)?;
    let Ok(text) = canonical_in(alloc, &map, base, relative) else {
        return Err(ReadError::Memory);
    };
    Ok(text)
}

/// The flat form of the map that these bytes are: [`SourceMap::from_slice`], then [`flatten`]. Under the
/// same base and limits it is accepted as the same map, with the same labels, listing and record.
///
/// # Errors
///
/// `Refused` with the first fault; `Memory`.
pub fn flattened(
    alloc: Global,
    bytes: &[u8],
    base: &Base,
    limits: Limits,
) -> Result<Vec<u8>, ReadError>
    ensures gives { Returns (λ v. v.items) result (flattened_text base.now limits bytes.now) }
    ensures stays { IfOk result (λ v. IsFlattened base.now limits bytes.now v.items) }
{
    let map = SourceMap::from_slice(alloc, bytes, base, limits)?;
    let Ok(text) = flatten(alloc, &map) else {
        return Err(ReadError::Memory);
    };
    Ok(text)
}

/// Whether two inputs have the same canonical bytes under one base and limits, in either form, which is to
/// say equal records.
///
/// # Errors
///
/// `Refused` with the first fault of `one`, or if it has none, of `other`; `Memory`.
pub fn have_equal_bytes(
    alloc: Global,
    one: &[u8],
    other: &[u8],
    base: &Base,
    limits: Limits,
    relative: bool,
) -> Result<bool, ReadError>
    ensures gives { Returns (λ equal. equal) result
        (equal_texts (form_asked relative) base.now limits one.now other.now) }
    ensures tells { IfOk result (DecidesEquality base.now limits one.now other.now) }
{
    let first = tidied(alloc, one, base, limits, relative)?;
    let second = tidied(alloc, other, base, limits, relative)?;
    Ok(first == second)
}
