//! The mappings of a composition. Their names are numbered by first use.
ghost use Rattle.std.specs.Prelude.{◌≡◌, ◌<◌, ◌≤◌, ◌++◌, ◌∷◌, [], List, length, map as mapped, IfOk, IfErr};
ghost use Rattle.std.specs.Prelude.{IfSome, Some, option_and_then, option_copied, option_map, slice_get};
ghost use Rattle.smap_mappings.specs.Position.{LINES, POSITIONS};
ghost use Rattle.smap_record.specs.Record.{Entry, Mapping, record_of};
ghost use Rattle.smap_record.specs.Fitting.{names_used};
ghost use Rattle.smap_trace.specs.LineStarts.{line_starts};
ghost use Rattle.smap_compose.specs.declared.error.ComposeError.TheVariants as errors;
ghost use Rattle.smap_compose.specs.Composing.{composition, followed as followed_by_maps};
ghost use Rattle.smap_compose.specs.Following.{AreOf, IsListedAt, mapping_with, name_in, origin_at};
ghost use Rattle.smap_compose.specs.Following.{texts_of, token_with, with_name as names_with};
ghost use Rattle.smap_compose.specs.Numbered.{maps_of};
ghost use Rattle.smap_compose.specs.Standing.{AreStanding};

use crate::error::ComposeError;
use crate::following::{Listed, followed};
use crate::standing::Standing;
use indexmap::IndexSet;
use smap_mappings::{Original, Token};
use smap_record::SourceMap;
use smap_trace::{HasMap, LineStarts};
use std::alloc::{AllocError, Global};

/// The names used so far, each once, and the mappings, whose names are indices into these.
#[derive(Drop)]
pub(crate) struct Joined<'a> {
    pub(crate) names: IndexSet<&'a str>,
    pub(crate) tokens: Vec<Token>,
}

/// The names used so far and this one, with its number.
fn with_name<'a>(
    mut names: IndexSet<&'a str>,
    name: Option<&'a str>,
    items: u32,
) -> Result<(IndexSet<&'a str>, Option<u32>), ComposeError>
    ensures names { IfOk result (λ r. texts_of r.0.keys
        ≡ names_with (option_copied name.entry) (texts_of names.entry.keys)) }
    ensures number { IfOk result (λ r.
        option_and_then (slice_get (texts_of r.0.keys)) r.1 ≡ option_copied name.entry) }
    ensures within { IfOk result (λ r. IfSome r.1 (λ n. n < length (texts_of r.0.keys))) }
    ensures few { IfOk result (λ r. length (texts_of names.entry.keys) ≤ items
        → length (texts_of r.0.keys) ≤ items) }
    ensures refused { IfErr result (λ e. e ≡ errors.TooMany → items < length
        (names_with (option_copied name.entry) (texts_of names.entry.keys))) }
{
    let Some(name) = name else {
        return Ok((names, None));
    };
    let (number, _) = names.insert_full(name)?;
    if names.len() > items as usize {
        return Err(ComposeError::TooMany);
    }
    Ok((names, Some(number as u32)))
}

/// The name that an original has.
fn name_of<'a>(original: Option<Listed<'a>>) -> Option<&'a str>
    ensures { option_copied result ≡ name_in original.entry }
{
    original?.name
}

/// The mapping of a position and its original, whose name has this number.
fn token_of(line: u32, column: u32, original: Option<Listed<'_>>, number: Option<u32>) -> Token
    requires { IfSome original (λ p. p.source < POSITIONS) }
    ensures { result ≡ token_with line column original.entry number }
{
    let original = match original {
        Some(original) => Some(Original {
            source: original.source as u32,
            line: original.line,
            column: original.column,
            name: number,
        }),
        None => None,
    };
    Token {
        line,
        column,
        original,
    }
}

impl<'a> Joined<'a> {
    /// One mapping more.
    pub(crate) fn with(
        self,
        line: u32,
        column: u32,
        original: Option<Listed<'a>>,
        items: u32,
    ) -> Result<Joined<'a>, ComposeError>
        requires { IfSome original (λ p. p.source < POSITIONS) }
        ensures joins { IfOk result (λ j. (sources : List Entry) (ms : List Mapping)
            → AreOf sources ms (texts_of self.entry.names.keys) self.entry.tokens.items
            → length (texts_of self.entry.names.keys) ≤ items → items < POSITIONS
            → length sources < POSITIONS → IfSome original.entry (IsListedAt (length sources))
            → line < LINES → column < POSITIONS
            → AreOf sources (ms ++ mapping_with sources line column original.entry ∷ [])
            (texts_of j.names.keys) j.tokens.items) }
        ensures few { IfOk result (λ j. length (texts_of self.entry.names.keys) ≤ items
            → length (texts_of j.names.keys) ≤ items) }
        ensures refused { IfErr result (λ e. e ≡ errors.TooMany → items < length
            (names_with (name_in original.entry) (texts_of self.entry.names.keys))) }
    {
        let Joined { names, mut tokens } = self;
        let (names, number) = with_name(names, name_of(original), items)?;
        tokens.push(token_of(line, column, original, number))?;
        Ok(Joined { names, tokens })
    }
}

/// No mapping yet, and room for so many.
pub(crate) fn none_joined<'a>(alloc: Global, room: usize) -> Result<Joined<'a>, AllocError>
    ensures { IfOk result (λ j. (texts_of j.names.keys ≡ []) × (j.tokens.items ≡ [])) }
{
    Ok(Joined {
        names: IndexSet::new(alloc),
        tokens: Vec::with_capacity(alloc, room)?,
    })
}

/// Where the original of the i-th mapping leads.
fn original_of<'a, H: HasMap>(
    outer: &'a SourceMap,
    i: usize,
    inner: &'a [H],
    tables: &[LineStarts],
    leads: &[Option<usize>],
    standing: &Standing,
) -> Option<Listed<'a>>
    requires within { i < length (record_of outer.now).mappings }
    requires tables { tables.now ≡ mapped (λ h. line_starts (record_of (H.held_map h)).mappings) inner.now }
    requires standing { AreStanding outer.now (mapped H.held_map inner.now) leads.now standing.now }
    requires few { length standing.now.sources < POSITIONS }
    ensures followed { (m : Mapping) → slice_get (record_of outer.now).mappings i ≡ Some m
        → option_map (origin_at standing.now.sources) result
        ≡ option_and_then (followed_by_maps
        (maps_of outer.now (mapped H.held_map inner.now) leads.now)) m.origin }
    ensures within { IfSome result (IsListedAt (length standing.now.sources)) }
{
    // What this call promises besides the count: the numbers of a map's mappings are in range.
    let _ = outer.token_count();
    let original = outer.token(i).original?;
    followed(original, inner, tables, leads, &standing.starts)
}

/// The mappings of the composition, and the names that they use, by the tables of the inner maps.
pub(crate) fn join_by<'a, H: HasMap>(
    alloc: Global,
    outer: &'a SourceMap,
    inner: &'a [H],
    tables: &[LineStarts],
    leads: &[Option<usize>],
    standing: &Standing,
    items: u32,
) -> Result<Joined<'a>, ComposeError>
    requires tables { tables.now ≡ mapped (λ h. line_starts (record_of (H.held_map h)).mappings) inner.now }
    requires standing { AreStanding outer.now (mapped H.held_map inner.now) leads.now standing.now }
    requires few { length standing.now.sources < POSITIONS }
    requires items { items < POSITIONS }
    ensures joins { IfOk result (λ j. AreOf standing.now.sources
        (composition (record_of outer.now)
        (maps_of outer.now (mapped H.held_map inner.now) leads.now)).mappings
        (texts_of j.names.keys) j.tokens.items) }
    ensures few { IfOk result (λ j. length (texts_of j.names.keys) ≤ items) }
    ensures refused { IfErr result (λ e. e ≡ errors.TooMany → items < length (names_used
        (composition (record_of outer.now)
        (maps_of outer.now (mapped H.held_map inner.now) leads.now)).mappings)) }
{
    let none = none_joined(alloc, outer.token_count())?;
    let mut joined = none;
    for i in 0..outer.token_count() {
        let token = outer.listed_token(i);
        let original = original_of(outer, i, inner, tables, leads, standing);
        match joined.with(token.line, token.column, original, items) {
            Ok(next) => joined = next,
            Err(error) => return Err(error),
        }
    }
    Ok(joined)
}
