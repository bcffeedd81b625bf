//! How much of a script has an original.
ghost use Rattle.std.specs.Prelude.{◌≡◌, ◌-◌, ◌^◌, min, sum, slice_get};
ghost use Rattle.smap_lint_rules.specs.Share as spec;

use smap_mappings::Token;
use smap_record::SourceMap;

/// How many UTF-16 units the lines of a script have, without their ends.
pub(crate) fn unit_count(widths: &[usize]) -> usize
    ensures { result ≡ min (sum widths.now) (2 ^ 64 - 1) }
{
    let mut count = 0usize;
    for width in widths {
        count = count.saturating_add(*width);
    }
    count
}

/// Where a line ends in a script whose lines are so wide; 0 where it has no such line.
fn end_of(widths: &[usize], line: u32) -> usize
    ensures { result ≡ spec.end_of widths.now line }
{
    match widths.get(line as usize) {
        Some(width) => *width,
        None => 0,
    }
}

/// Where what a mapping of this line covers ends: at the next mapping, if that is in the line before its end.
fn end_before(line: u32, end: usize, next: Option<Token>) -> usize
    ensures { result ≡ spec.end_before line end next }
{
    match next {
        Some(token) if token.line == line => end.min(token.column as usize),
        _ => end,
    }
}

/// The mapping with this number, if there is one.
fn token_at(map: &SourceMap, i: usize) -> Option<Token>
    ensures { result ≡ slice_get map.now.listing.tokens i }
{
    if i < map.token_count() {
        Some(map.listed_token(i))
    } else {
        None
    }
}

/// How many units a mapping covers: those from its column up to the next mapping of its line, or the line's
/// end.
fn covered(widths: &[usize], token: Token, next: Option<Token>) -> usize
    ensures { result ≡ spec.covered widths.now token next }
{
    if token.original.is_none() {
        return 0;
    }
    end_before(token.line, end_of(widths, token.line), next).saturating_sub(token.column as usize)
}

/// How many UTF-16 units of a script whose lines are so wide have an original: those that a mapping with an
/// original covers.
pub(crate) fn mapped_units(map: &SourceMap, widths: &[usize]) -> usize
    ensures { result ≡ min (spec.mapped_units widths.now map.now.listing.tokens) (2 ^ 64 - 1) }
{
    let mut count = 0usize;
    for i in 0..map.token_count() {
        let next = token_at(map, i + 1);
        count = count.saturating_add(covered(widths, map.listed_token(i), next));
    }
    count
}
