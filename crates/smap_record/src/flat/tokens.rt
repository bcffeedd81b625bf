//! The mappings of a flat map: their bounds, and their tokens, whose indices count from what earlier sections
//! list.
ghost use Rattle.std.specs.Prelude.{◌≡◌, ◌+◌, ◌<◌, ◌≤◌, ◌++◌, nat_lt, length, map, IfOk, IfSome};
ghost use Rattle.std.specs.List.{AllByRecursion};
ghost use Rattle.smap_mappings.specs.Position.{POSITIONS, LINES, IsPosition};
ghost use Rattle.smap_mappings.specs.Decoded.{AreBounds, decoded};
ghost use Rattle.smap_mappings.specs.Text.{IsEncodable, IsOriginal, IsPlaced};
ghost use Rattle.smap_record.specs.Faults.{of_segments};
ghost use Rattle.smap_record.specs.Flat.{is_too_many, bounds_of, shifted as shifted_by};
ghost use Rattle.smap_record.specs.Results.{Returns};
ghost use Rattle.smap_record.specs.Steps.{joined_tokens};
ghost use Rattle.smap_record.specs.MapView.{listing_of};

use crate::fault::{Fault, ReadError};
use crate::limits::Limits;
use crate::listing::Listing;
use smap_mappings::{Bounds, MappingsError, Original, Position, Token, decode};
use smap_shape::FlatShape;
use std::alloc::{AllocError, Global};

/// Whether this many more are too many. The sum isn't computed, since it could overflow.
fn is_beyond(most: usize, before: usize, more: usize) -> bool
    ensures { result ≡ nat_lt most (before + more) }
{
    more > most || before > most - more
}

/// Whether more is listed with the map than the limits allow.
pub(crate) fn is_too_many(before: &Listing, shape: &FlatShape<'_>, limits: Limits) -> bool
    ensures value { result ≡ is_too_many limits (listing_of before.now) shape.now }
    ensures items { limits.items < POSITIONS }
{
    let items = limits.items() as usize;
    is_beyond(items, before.sources.listed_count(), shape.source_count())
        || is_beyond(items, before.names.len(), shape.name_count())
}

/// The bounds of the map's mappings string.
pub(crate) fn bounds(shape: &FlatShape<'_>, limits: Limits, offset: Position) -> Bounds
    requires items { limits.items < POSITIONS }
    requires sources { length shape.now.sources ≤ limits.items }
    requires names { length shape.now.names ≤ limits.items }
    requires offset { IsPosition offset }
    ensures value { result ≡ bounds_of limits offset shape.now }
    ensures are { AreBounds result }
    ensures lines { limits.lines ≤ LINES }
{
    Bounds {
        start_line: offset.line,
        start_column: offset.column,
        sources: shape.source_count() as u32,
        names: shape.name_count() as u32,
        lines: limits.lines(),
    }
}

/// The tokens of a mappings string.
fn own_tokens(alloc: Global, text: &str, bounds: Bounds) -> Result<Vec<Token>, ReadError>
    requires { AreBounds bounds }
    ensures says { Returns (λ v. v.items) result (of_segments (decoded bounds text.now)) }
    ensures encodable { IfOk result (λ v. IsEncodable v.items) }
{
    match decode(alloc, text.as_bytes(), bounds) {
        Ok(tokens) => Ok(tokens),
        Err(MappingsError::Fault(place, kind)) => {
            Err(ReadError::Refused(Fault::of_segment(place, kind)))
        }
        Err(MappingsError::Memory) => Err(ReadError::Memory),
    }
}

/// A token whose indices count from this many sources and names of earlier sections.
fn shifted(token: Token, sources: usize, names: usize) -> Token
    requires sources { sources < POSITIONS }
    requires names { names < POSITIONS }
    requires original { IfSome token.original IsOriginal }
    ensures { result ≡ shifted_by sources names token }
{
    let Some(original) = token.original else {
        return token;
    };
    let name = match original.name {
        Some(name) => Some((names + name as usize) as u32),
        None => None,
    };
    let original = Original {
        source: (sources + original.source as usize) as u32,
        name,
        ..original
    };
    Token {
        original: Some(original),
        ..token
    }
}

/// Shifts the indices of all tokens in place.
fn shift_all(tokens: &mut Vec<Token>, sources: usize, names: usize)
    requires sources { sources < POSITIONS }
    requires names { names < POSITIONS }
    requires placed { AllByRecursion IsPlaced tokens.old.items }
    ensures { tokens.new.items ≡ map (shifted_by sources names) tokens.old.items }
{
    if sources + names == 0 {
        return;
    }
    for i in 0..tokens.len() {
        tokens[i] = shifted(tokens[i], sources, names);
    }
}

/// Appends tokens to those of earlier sections. If there are none, the vector is kept as it is.
fn joined(mut front: Vec<Token>, mut back: Vec<Token>) -> Result<Vec<Token>, AllocError>
    ensures { IfOk result (λ v. v.items ≡ front.items ++ back.items) }
{
    if front.is_empty() {
        return Ok(back);
    }
    front.append(&mut back)?;
    Ok(front)
}

/// The tokens of earlier sections, which list this many sources and names, followed by those of a mappings
/// string; or the string's first fault.
pub(crate) fn with_tokens(
    alloc: Global,
    before: Vec<Token>,
    text: &str,
    bounds: Bounds,
    sources: usize,
    names: usize,
) -> Result<Vec<Token>, ReadError>
    requires bounds { AreBounds bounds }
    requires sources { sources < POSITIONS }
    requires names { names < POSITIONS }
    ensures { Returns (λ v. v.items) result (joined_tokens before.items sources names bounds text.now) }
{
    let mut own = own_tokens(alloc, text, bounds)?;
    shift_all(&mut own, sources, names);
    Ok(joined(before, own)?)
}
