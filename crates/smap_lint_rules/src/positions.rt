//! The mappings that begin past the end of the script.
ghost use Rattle.std.specs.Prelude.{◌≡◌, ◌+◌, ◌^◌, ◌<◌, if◌then◌else◌, length, filter, find};
ghost use Rattle.smap_lint_rules.specs.Positions as spec;

use smap_mappings::{Token, is_within};
use smap_record::SourceMap;

/// Whether a mapping begins where a script whose lines are so wide has no position.
fn is_past_end(widths: &[usize], token: Token) -> bool
    ensures { result ≡ spec.is_past_end widths.now token }
{
    !is_within(widths, token.line, token.column)
}

/// One more where a mapping counts.
pub(crate) fn counted(count: usize, counts: bool) -> usize
    requires { count + 1 < 2 ^ 64 }
    ensures { result ≡ count + (if counts then 1 else 0) }
{
    if counts { count + 1 } else { count }
}

/// How many mappings begin past the end of a script, or of one of its lines, which are so wide.
#[tactic(auto, using(crate::proofs::WalkLemmas::filter_bound))]
pub(crate) fn count_past_end(map: &SourceMap, widths: &[usize]) -> usize
    ensures { result ≡ length (filter (spec.is_past_end widths.now) map.now.listing.tokens) }
{
    let mut count = 0;
    for i in 0..map.token_count() {
        count = counted(count, is_past_end(widths, map.listed_token(i)));
    }
    count
}

/// The first mapping that begins past the end of a script, or of one of its lines, which are so wide.
pub fn first_past_end(map: &SourceMap, widths: &[usize]) -> Option<Token>
    ensures { result ≡ find (spec.is_past_end widths.now) map.now.listing.tokens }
{
    for i in 0..map.token_count() {
        let token = map.listed_token(i);
        if is_past_end(widths, token) {
            return Some(token);
        }
    }
    None
}
