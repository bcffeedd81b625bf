//! What a map lists in vain.
ghost use Rattle.std.specs.Prelude.{◌≡◌, ◌-◌, IfOk, false, filter, length, not, replicate};
ghost use Rattle.smap_lint_rules.specs.Listed as spec;
ghost use Rattle.smap_record.specs.Record.{record_of};

use crate::positions::counted;
use smap_mappings::Token;
use smap_record::SourceMap;
use std::alloc::{AllocError, Global};

/// How many of the listed sources are listed before: with the same URL, content and ignored flag.
pub(crate) fn repeated_count(map: &SourceMap) -> usize
    ensures { result ≡ length map.now.listing.sources - length (record_of map.now).sources }
{
    map.listed_count().saturating_sub(map.source_count())
}

/// The number of a mapping's name.
fn name_of(token: Token) -> Option<u32>
    ensures { result ≡ spec.name_of token }
{
    match token.original {
        Some(original) => original.name,
        None => None,
    }
}

/// Marks a name, if there is one.
fn mark(marks: &mut Vec<bool>, name: Option<u32>)
    ensures { marks.new.items ≡ spec.marked marks.old.items name }
{
    if let Some(name) = name {
        if (name as usize) < marks.len() {
            marks[name as usize] = true;
        }
    }
}

#[tactic(auto, using(crate::proofs::WalkLemmas::filter_bound))]
fn count_unmarked(marks: &[bool]) -> usize
    ensures { result ≡ length (filter not marks.now) }
{
    let mut count = 0;
    for i in 0..marks.len() {
        count = counted(count, !marks[i]);
    }
    count
}

/// So many names without a mark.
fn unmarked(alloc: Global, count: usize) -> Result<Vec<bool>, AllocError>
    ensures { IfOk result (λ marks. marks.items ≡ replicate count false) }
{
    vec![in alloc; false; count]
}

/// How many of the listed names no mapping has.
///
/// # Errors
///
/// `AllocError`.
pub(crate) fn unused_count(alloc: Global, map: &SourceMap) -> Result<usize, AllocError>
    ensures { IfOk result (λ count. count
        ≡ length (spec.unused (length map.now.listing.names) map.now.listing.tokens)) }
{
    let mut marks = unmarked(alloc, map.name_count())?;
    for i in 0..map.token_count() {
        mark(&mut marks, name_of(map.listed_token(i)));
    }
    Ok(count_unmarked(&marks))
}
