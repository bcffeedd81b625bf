//! Positions that lead elsewhere in another map.
ghost use Rattle.std.specs.Prelude.{◌≡◌, ◌+◌, ◌^◌, ◌<◌, if◌then◌else◌, length, option_map};
ghost use Rattle.std.specs.Option.{option_eq};
ghost use Rattle.smap_record.specs.Record.{record_of};
ghost use Rattle.smap_record.specs.Views.{mapping_of_view, origin_of_view};
ghost use Rattle.smap_trace.specs.Lookup.{mapping_at};
ghost use Rattle.smap_differences.specs.Leading as spec;

use smap_record::{OriginalView, SourceMap, TokenView};
use smap_trace::lookup;

/// The positions of two maps' mappings that lead elsewhere in the other map.
#[derive(Clone, Copy, PartialEq, Eq)]
pub struct Leading {
    /// How many there are. A position at which both maps have mappings counts once.
    pub count: usize,
    /// The line and the column of the first one, from 0.
    pub first: Option<(u32, u32)>,
}

fn same_place(a: OriginalView<'_>, b: OriginalView<'_>) -> bool
    ensures { result ≡ spec.same_place (origin_of_view a.entry) (origin_of_view b.entry) }
{
    a.source.url == b.source.url && (a.line == b.line && (a.column == b.column && a.name == b.name))
}

fn same_places(a: Option<OriginalView<'_>>, b: Option<OriginalView<'_>>) -> bool
    ensures { result ≡ option_eq spec.same_place (option_map origin_of_view a.entry)
        (option_map origin_of_view b.entry) }
{
    match (a, b) {
        (None, None) => true,
        (Some(a), Some(b)) => same_place(a, b),
        _ => false,
    }
}

/// What a lookup finds for the position of another map's mapping.
#[tactic(auto, using(smap_trace::proofs::LookupLemmas::falls_to_is))]
fn found<'a>(map: &'a SourceMap, token: TokenView<'_>) -> Option<TokenView<'a>>
    ensures { option_map mapping_of_view result
        ≡ mapping_at (record_of map.now).mappings token.entry.line token.entry.column }
{
    lookup(map, token.line, token.column).0
}

fn leaves(shared: bool, token: TokenView<'_>, there: Option<TokenView<'_>>) -> bool
    ensures { result
        ≡ spec.leaves shared (mapping_of_view token.entry) (option_map mapping_of_view there.entry) }
{
    match there {
        Some(there) => {
            !same_places(token.original, there.original) && (shared || there.column != token.column)
        }
        None => token.original.is_some(),
    }
}

/// Whether a mapping is the last one at its position.
#[tactic(auto, using(crate::proofs::LeadingLemmas::last_is))]
fn is_last(map: &SourceMap, i: usize) -> bool
    requires { i < length (record_of map.now).mappings }
    ensures { result ≡ spec.is_last (record_of map.now).mappings i }
{
    let count = map.token_count();
    if count - i == 1 {
        return true;
    }
    let (token, next) = (map.token(i), map.token(i + 1));
    !(token.line == next.line && token.column == next.column)
}

/// Whether the position of a mapping leads elsewhere in another map.
fn counts(shared: bool, map: &SourceMap, other: &SourceMap, i: usize) -> bool
    requires { i < length (record_of map.now).mappings }
    ensures { result ≡ spec.counts shared (record_of map.now) (record_of other.now) i }
{
    let token = map.token(i);
    is_last(map, i) && leaves(shared, token, found(other, token))
}

/// One more where a position counts.
fn more(count: usize, counts: bool) -> usize
    requires { count + 1 < 2 ^ 64 }
    ensures { result ≡ count + (if counts then 1 else 0) }
{
    if counts { count + 1 } else { count }
}

/// How many positions of a map's mappings lead elsewhere in another one.
#[tactic(auto, using(crate::proofs::LeadingLemmas::filter_bound, crate::proofs::LeadingLemmas::take_all))]
fn count_in(shared: bool, map: &SourceMap, other: &SourceMap) -> usize
    ensures { result ≡ spec.count_in shared (record_of map.now) (record_of other.now) }
{
    let mut count = 0;
    for i in 0..map.token_count() {
        count = more(count, counts(shared, map, other, i));
    }
    count
}

/// The first of their mappings.
#[tactic(auto, using(crate::proofs::LeadingLemmas::none_left))]
fn first_in(shared: bool, map: &SourceMap, other: &SourceMap) -> Option<usize>
    ensures { result ≡ spec.first_in shared (record_of map.now) (record_of other.now) }
{
    for i in 0..map.token_count() {
        if counts(shared, map, other, i) {
            return Some(i);
        }
    }
    None
}

/// Where the mapping with a number is.
fn place_in(map: &SourceMap, number: Option<usize>) -> Option<(u32, u32)>
    ensures { result ≡ spec.place_in (record_of map.now) number }
{
    let number = number?;
    if number >= map.token_count() {
        return None;
    }
    let token = map.token(number);
    Some((token.line, token.column))
}

fn is_before(a: (u32, u32), b: (u32, u32)) -> bool
    ensures { result ≡ spec.is_before a b }
{
    a.0 < b.0 || (a.0 == b.0 && a.1 < b.1)
}

fn earlier(a: Option<(u32, u32)>, b: Option<(u32, u32)>) -> Option<(u32, u32)>
    ensures { result ≡ spec.earlier a b }
{
    match (a, b) {
        (Some(a), Some(b)) => Some(if is_before(b, a) { b } else { a }),
        (None, b) => b,
        (a, None) => a,
    }
}

/// The positions of two maps' mappings that lead elsewhere in the other map: to another line or column, a
/// source of another URL, or another name, or to none. Each mapping is looked up in the other map.
pub fn elsewhere(old: &SourceMap, new: &SourceMap) -> Leading
    ensures count { result.count ≡ spec.count (record_of old.now) (record_of new.now) }
    ensures first { result.first ≡ spec.first (record_of old.now) (record_of new.now) }
{
    let first = place_in(old, first_in(true, old, new));
    let other = place_in(new, first_in(false, new, old));
    Leading {
        count: count_in(true, old, new).saturating_add(count_in(false, new, old)),
        first: earlier(first, other),
    }
}
