//! The mappings string of a record, with indices into the distinct sources and the names in order of first
//! use; and that of a map's tokens as listed.
ghost use Rattle.std.specs.Prelude.{◌≡◌, ◌≢◌, ◌<◌, ◌^◌, ◌++◌, ◌∷◌, ℕ, List, [], length};
ghost use Rattle.std.specs.Prelude.{slice_get, replicate, bytes_eq, get_or};
ghost use Rattle.std.specs.Prelude.{IfOk, IfSome, OnOk, option_map};
ghost use Rattle.smap_mappings.specs.Position.{POSITIONS};
ghost use Rattle.smap_mappings.specs.declared.token.Token.{Token as SpecToken};
ghost use Rattle.smap_mappings.specs.Feeding.{Encodes, Measures};
ghost use Rattle.smap_mappings.specs.Text.{IsEncodable, IsPlaced, mappings_text};
ghost use Rattle.smap_record.specs.Record.{record_of, mapping_of, origin_of};
ghost use Rattle.smap_record.specs.Listings.{IsListing, IsListedOriginal, IsListedToken};
ghost use Rattle.smap_canon.specs.Canonical.{canonical_listing, canonical_mappings_text};
ghost use Rattle.smap_canon.specs.Canonical.{original_of, token_of};
ghost use Rattle.smap_canon.specs.Numbering.{AreNumbers, AreUsedNames, IsNumbered};
ghost use Rattle.smap_canon.specs.Numbering.{name_of, used_in, with_name};

use indexmap::IndexSet;
use smap_mappings::{Encoder, Memory, Original, TextLength, Token};
use smap_record::SourceMap;
use std::alloc::{AllocError, Global};

/// In place of the index of a listed name that no mapping has used yet.
const UNUSED: u32 = u32::MAX;

/// The names that were used so far, each once, in order of first use; and for each listed name its index
/// among these, or `UNUSED`. So a listed name is looked up in the table once, however many mappings use it.
#[derive(Drop)]
pub(crate) struct UsedNames<'a> {
    pub(crate) used: IndexSet<&'a str>,
    numbers: Vec<u32>,
}

/// No name is used yet.
fn no_names<'a>(alloc: Global, map: &'a SourceMap) -> Result<UsedNames<'a>, AllocError>
    ensures used { IfOk result (λ n. n.used.keys ≡ []) }
    ensures numbers { IfOk result (λ n. n.numbers.items ≡ replicate (length map.now.listing.names) UNUSED) }
{
    let numbers = vec![in alloc; UNUSED; map.name_count()]?;
    Ok(UsedNames {
        used: IndexSet::new(alloc),
        numbers,
    })
}

/// Notes that a listed name is used.
fn use_listed<'a>(names: &mut UsedNames<'a>, map: &'a SourceMap, listed: u32) -> Result<(), Memory>
    requires listed { listed < length map.now.listing.names }
    requires numbers { AreNumbers map.now.listing.names (used_in names.old) names.old.numbers.items }
    requires few { length names.old.used.keys < POSITIONS }
    ensures used { OnOk result (used_in names.new
        ≡ with_name (slice_get map.now.listing.names listed) (used_in names.old)) }
    ensures numbers { OnOk result (AreNumbers
        map.now.listing.names (used_in names.new) names.new.numbers.items) }
    ensures numbered { OnOk result (get_or names.new.numbers.items listed 0 ≢ UNUSED) }
    ensures kept { (n : ℕ) → get_or names.old.numbers.items n 0 ≢ UNUSED
        → get_or names.new.numbers.items n 0 ≢ UNUSED }
{
    if names.numbers[listed as usize] != UNUSED {
        return Ok(());
    }
    let (number, _) = names.used.insert_full(map.name(listed as usize))?;
    names.numbers[listed as usize] = number as u32;
    Ok(())
}

/// Notes that the name of a listed token, if it has one, is used.
fn use_name<'a>(names: &mut UsedNames<'a>, map: &'a SourceMap, token: Token) -> Result<(), Memory>
    requires listed { IsListedToken map.now.listing token }
    requires numbers { AreNumbers map.now.listing.names (used_in names.old) names.old.numbers.items }
    requires few { length names.old.used.keys < POSITIONS }
    ensures used { OnOk result (used_in names.new
        ≡ with_name (name_of (mapping_of map.now.listing token)) (used_in names.old)) }
    ensures numbers { OnOk result (AreNumbers
        map.now.listing.names (used_in names.new) names.new.numbers.items) }
    ensures numbered { OnOk result (IsNumbered names.new.numbers.items token) }
    ensures kept { (n : ℕ) → get_or names.old.numbers.items n 0 ≢ UNUSED
        → get_or names.new.numbers.items n 0 ≢ UNUSED }
{
    let Some(original) = token.original else {
        return Ok(());
    };
    let Some(listed) = original.name else {
        return Ok(());
    };
    use_listed(names, map, listed)
}

/// The names that the map's mappings use.
pub(crate) fn used_names(alloc: Global, map: &SourceMap) -> Result<UsedNames<'_>, Memory>
    ensures { IfOk result (AreUsedNames map.now) }
{
    let mut names = no_names(alloc, map)?;
    for i in 0..map.token_count() {
        use_name(&mut names, map, map.listed_token(i))?;
    }
    Ok(names)
}

/// An original position with the indices of the distinct source and of the used name.
fn original_by(names: &UsedNames<'_>, map: &SourceMap, original: Original) -> Original
    requires listed { IsListedOriginal map.now.listing original }
    requires few_sources { length map.now.listing.sources < POSITIONS }
    requires numbers { AreNumbers map.now.listing.names (used_in names.now) names.now.numbers.items }
    requires numbered { IfSome original.name (λ n. get_or names.now.numbers.items n 0 ≢ UNUSED) }
    ensures { result ≡ original_of
        (record_of map.now).sources (used_in names.now) (origin_of map.now.listing original) }
{
    let name = match original.name {
        Some(listed) => Some(names.numbers[listed as usize]),
        None => None,
    };
    Original {
        source: map.listed(original.source as usize) as u32,
        line: original.line,
        column: original.column,
        name,
    }
}

/// A listed token with the indices of the distinct source and of the used name.
fn token_by(names: &UsedNames<'_>, map: &SourceMap, token: Token) -> Token
    requires listed { IsListedToken map.now.listing token }
    requires few_sources { length map.now.listing.sources < POSITIONS }
    requires numbers { AreNumbers map.now.listing.names (used_in names.now) names.now.numbers.items }
    requires numbered { IsNumbered names.now.numbers.items token }
    ensures { result ≡ token_of
        (record_of map.now).sources (used_in names.now) (mapping_of map.now.listing token) }
{
    let original = match token.original {
        Some(original) => Some(original_by(names, map, original)),
        None => None,
    };
    Token {
        line: token.line,
        column: token.column,
        original,
    }
}

/// What tokens are passed to one by one: it writes their mappings string, or counts its bytes.
pub(crate) trait TokenSink {
    // it was passed these tokens
    ghost was_passed: { Self → List SpecToken → Type 0 };

    /// Takes the next token.
    fn take(&mut self, token: Token) -> Result<(), Memory>
        requires { IsPlaced token }
        ensures { OnOk result ((tokens : List SpecToken) → was_passed self.old tokens
            → IsEncodable (tokens ++ token ∷ []) → was_passed self.new (tokens ++ token ∷ [])) };
}

impl TokenSink for Encoder {
    ghost was_passed = { Encodes };

    fn take(&mut self, token: Token) -> Result<(), Memory> {
        self.push(token)
    }
}

impl TokenSink for TextLength {
    ghost was_passed = { Measures };

    fn take(&mut self, token: Token) -> Result<(), Memory> {
        self.push(token);
        Ok(())
    }
}

/// Passes on the tokens with these indices, in one pass over the mappings. No second array of them is made.
pub(crate) fn pass_numbered<S: TokenSink>(
    sink: &mut S,
    map: &SourceMap,
    names: &UsedNames<'_>,
) -> Result<(), Memory>
    requires none { S.was_passed sink.old [] }
    requires names { AreUsedNames map.now names.now }
    ensures passed { OnOk result (S.was_passed sink.new (canonical_listing (record_of map.now)).tokens) }
    ensures listing { OnOk result (IsListing map.now.listing) }
    ensures few { OnOk result (length map.now.listing.tokens < 2 ^ 64) }
{
    for i in 0..map.token_count() {
        sink.take(token_by(names, map, map.listed_token(i)))?;
    }
    Ok(())
}

/// The mappings string with these indices.
pub(crate) fn numbered_mappings(
    alloc: Global,
    map: &SourceMap,
    names: &UsedNames<'_>,
) -> Result<Vec<u8>, Memory>
    requires { AreUsedNames map.now names.now }
    ensures text { IfOk result (λ text. text.items ≡ canonical_mappings_text (record_of map.now)) }
    ensures listing { OnOk result (IsListing map.now.listing) }
{
    let mut encoder = Encoder::with_capacity(alloc, map.token_count())?;
    pass_numbered(&mut encoder, map, names)?;
    Ok(encoder.finish())
}

/// The mappings string of the tokens as listed.
pub(crate) fn listed_mappings(alloc: Global, map: &SourceMap) -> Result<Vec<u8>, Memory>
    ensures { IfOk result (λ text. text.items ≡ mappings_text map.now.listing.tokens) }
{
    let mut encoder = Encoder::with_capacity(alloc, map.token_count())?;
    for i in 0..map.token_count() {
        encoder.push(map.listed_token(i))?;
    }
    Ok(encoder.finish())
}
