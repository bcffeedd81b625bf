//! How often the texts of a list stand there.
ghost use Rattle.std.specs.Prelude.{◌≡◌, ◌+◌, ◌<◌, ◌^◌, IfOk, OnOk, map};
ghost use Rattle.serde_json.specs.View.{view};
ghost use Rattle.smap_differences.specs.Counts as table;
ghost use Rattle.smap_differences.specs.Lists.{texts_of};

use indexmap::IndexMap;
use serde_json::Value;
use std::alloc::{AllocError, Global};

/// How often a text stands in a list with these counts.
fn times(counts: &IndexMap<&str, usize>, text: &str) -> usize
    ensures { result ≡ table.times (table.rows_of counts.now.entries) text.now }
{
    match counts.get(text) {
        Some(count) => *count,
        None => 0,
    }
}

/// Counts a text once more.
fn add_text<'v>(counts: &mut IndexMap<&'v str, usize>, text: &'v str) -> Result<(), AllocError>
    requires { table.times (table.rows_of counts.now.entries) text.now + 1 < 2 ^ 64 }
    ensures { OnOk result (table.rows_of counts.new.entries
        ≡ table.counted (table.rows_of counts.old.entries) text.now) }
{
    let count = times(counts, text);
    counts.insert(text, count + 1)?;
    Ok(())
}

/// How often each text of a list stands there, in the order of their first places.
pub(crate) fn counts_of<'v>(
    alloc: Global,
    entries: &'v [Value],
) -> Result<IndexMap<&'v str, usize>, AllocError>
    ensures { IfOk result (λ c. table.rows_of c.entries
        ≡ table.table_of (texts_of (map view entries.now))) }
{
    let mut counts = IndexMap::new(alloc);
    for i in 0..entries.len() {
        let Some(text) = entries[i].as_str() else {
            continue;
        };
        add_text(&mut counts, text)?;
    }
    Ok(counts)
}

/// The texts of a list that another doesn't have, each once.
pub(crate) fn missing<'v>(
    alloc: Global,
    others: &IndexMap<&str, usize>,
    counts: &IndexMap<&'v str, usize>,
) -> Result<Vec<&'v str>, AllocError>
    ensures { IfOk result (λ m. map (λ n. n.now) m.items
        ≡ table.missing_in (table.rows_of others.now.entries) (table.rows_of counts.now.entries)) }
{
    let mut missing = Vec::new(alloc);
    for text in counts.keys() {
        if times(others, *text) == 0 {
            missing.push(*text)?;
        }
    }
    Ok(missing)
}

/// Whether a text stands in a list, and less often than in another one.
fn is_fewer(count: usize, other: usize) -> bool
    ensures { result ≡ table.is_fewer count other }
{
    0 < count && count < other
}

/// The texts of a list that another has too, but less often, each once.
pub(crate) fn fewer<'v>(
    alloc: Global,
    others: &IndexMap<&str, usize>,
    counts: &IndexMap<&'v str, usize>,
) -> Result<Vec<&'v str>, AllocError>
    ensures { IfOk result (λ m. map (λ n. n.now) m.items
        ≡ table.fewer_in (table.rows_of others.now.entries) (table.rows_of counts.now.entries)) }
{
    let mut fewer = Vec::new(alloc);
    for text in counts.keys() {
        if is_fewer(times(others, *text), times(counts, *text)) {
            fewer.push(*text)?;
        }
    }
    Ok(fewer)
}
