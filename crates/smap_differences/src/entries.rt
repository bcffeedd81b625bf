//! Arrays of a map before and after a rewrite: which of their texts are merged, gone and new.
ghost use Rattle.std.specs.Prelude.{◌≡◌, ◌==◌, ◌&&◌, ◌++◌, ◌∷◌, [], IfOk, OnOk, length, map, string_bytes};
ghost use Rattle.std.specs.Prelude.{take};
ghost use Rattle.std.specs.List.{flat_map, list_all};
ghost use Rattle.serde_json.specs.View.{view};
ghost use Rattle.smap_differences.specs.Changes as spec;
ghost use Rattle.smap_differences.specs.Counts as table;
ghost use Rattle.smap_differences.specs.Lists as lists;

use crate::counting::{counts_of, fewer, missing};
use crate::showing::{count_text, entry_counts, quoted};
use indexmap::IndexMap;
use serde_json::Value;
use std::alloc::{AllocError, Global};

/// The most texts that are named behind the first one.
const MORE_NAMED: usize = 2;

/// Whether an entry is a text or null, as those of sources and names are.
fn is_text_or_null(entry: &Value) -> bool
    ensures { result ≡ lists.is_text_or_null (view entry.now) }
{
    matches!(entry, Value::Null | Value::String(_))
}

/// Whether each entry is a text or null.
fn are_texts_or_null(entries: &[Value]) -> bool
    ensures { result ≡ list_all (λ v. lists.is_text_or_null (view v)) entries.now }
{
    entries.iter().all(is_text_or_null)
}

/// Appends another text.
fn push_other(alloc: Global, line: &mut String, text: &str) -> Result<(), AllocError>
    ensures { OnOk result (string_bytes line.new ≡ string_bytes line.old ++ spec.other text.now) }
{
    let text = quoted(alloc, text)?;
    let text = text.as_str();
    let other = format!(in alloc; ", {text}")?;
    line.push_str(other.as_str())
}

/// Texts behind another one.
fn others(alloc: Global, texts: &[&str]) -> Result<String, AllocError>
    ensures { IfOk result (λ t. string_bytes t ≡ flat_map spec.other (map (λ n. n.now) texts.now)) }
{
    let mut line = String::new(alloc);
    for text in texts {
        push_other(alloc, &mut line, *text)?;
    }
    Ok(line)
}

/// The first of some texts, those that are named behind another one.
fn few<'t, 'v>(texts: &'t [&'v str]) -> &'t [&'v str]
    ensures { map (λ n. n.now) result.now ≡ take 2 (map (λ n. n.now) texts.now) }
{
    if texts.len() <= MORE_NAMED {
        return texts;
    }
    &texts[..MORE_NAMED]
}

/// How many more texts there are than those that are named.
fn more(alloc: Global, count: usize) -> Result<String, AllocError>
    ensures { IfOk result (λ t. string_bytes t ≡ spec.more count) }
{
    if count <= MORE_NAMED {
        return Ok(String::new(alloc));
    }
    let count = count_text(alloc, count - MORE_NAMED)?;
    let count = count.as_str();
    format!(in alloc; " and {count} more")
}

/// A text and others, a few of them by name.
fn named_first(alloc: Global, first: &str, rest: &[&str]) -> Result<String, AllocError>
    ensures { IfOk result (λ t. string_bytes t ≡ spec.named (first.now ∷ map (λ n. n.now) rest.now)) }
{
    let first = quoted(alloc, first)?;
    let others = others(alloc, few(rest))?;
    let more = more(alloc, rest.len())?;
    let (first, others, more) = (first.as_str(), others.as_str(), more.as_str());
    format!(in alloc; "{first}{others}{more}")
}

/// Texts, a few of them by name.
pub(crate) fn named(alloc: Global, texts: &[&str]) -> Result<String, AllocError>
    ensures { IfOk result (λ t. string_bytes t ≡ spec.named (map (λ n. n.now) texts.now)) }
{
    if texts.is_empty() {
        return Ok(String::new(alloc));
    }
    named_first(alloc, texts[0], &texts[1..])
}

/// Texts behind a word, and nothing for none.
fn told(alloc: Global, word: &str, texts: &[&str]) -> Result<String, AllocError>
    ensures { IfOk result (λ t. string_bytes t ≡ spec.told word.now (map (λ n. n.now) texts.now)) }
{
    if texts.is_empty() {
        return Ok(String::new(alloc));
    }
    let named = named(alloc, texts)?;
    let named = named.as_str();
    format!(in alloc; "; {word} {named}")
}

/// Texts that are merged, and nothing for none.
fn merged_told(alloc: Global, texts: &[&str]) -> Result<String, AllocError>
    ensures { IfOk result (λ t. string_bytes t ≡ spec.merged_told (map (λ n. n.now) texts.now)) }
{
    if texts.is_empty() {
        return Ok(String::new(alloc));
    }
    let named = named(alloc, texts)?;
    let named = named.as_str();
    format!(in alloc; ", {named} merged")
}

/// Texts of a list that are others once it is rewritten.
#[derive(Drop)]
struct Difference<'v> {
    merged: Vec<&'v str>,
    gone: Vec<&'v str>,
    added: Vec<&'v str>,
}

impl Difference<'_> {
    fn is_empty(&self) -> bool
        ensures { result ≡ (length self.now.merged.items == 0 && (length self.now.gone.items == 0
            && length self.now.added.items == 0)) }
    {
        self.merged.is_empty() && self.gone.is_empty() && self.added.is_empty()
    }

    /// Which texts are merged, which are gone, and which are new.
    fn all_told(&self, alloc: Global) -> Result<String, AllocError>
        ensures { IfOk result (λ t. string_bytes t ≡ spec.all_told (map (λ n. n.now) self.now.merged.items)
            (map (λ n. n.now) self.now.gone.items) (map (λ n. n.now) self.now.added.items)) }
    {
        let merged = merged_told(alloc, &self.merged)?;
        let gone = told(alloc, "without", &self.gone)?;
        let added = told(alloc, "with", &self.added)?;
        let (merged, gone, added) = (merged.as_str(), gone.as_str(), added.as_str());
        format!(in alloc; "{merged}{gone}{added}")
    }
}

/// What is told where no text is merged, gone or new.
fn order_told(are_reordered: bool) -> &'static str
    ensures { result.now ≡ spec.order_told are_reordered }
{
    if are_reordered {
        ", in another order"
    } else {
        ", other ones"
    }
}

/// What becomes of the texts of a list.
fn texts_change(
    alloc: Global,
    is_as_long: bool,
    are_reordered: bool,
    difference: &Difference<'_>,
) -> Result<String, AllocError>
    ensures { IfOk result (λ t. string_bytes t ≡ spec.texts_change is_as_long are_reordered
        (map (λ n. n.now) difference.now.merged.items) (map (λ n. n.now) difference.now.gone.items)
        (map (λ n. n.now) difference.now.added.items)) }
{
    if is_as_long && difference.is_empty() {
        return String::from_str(alloc, order_told(are_reordered));
    }
    difference.all_told(alloc)
}

/// The texts that are merged, gone and new, by how often they stood in a list and stand there now.
fn texts_told(
    alloc: Global,
    is_as_long: bool,
    are_reordered: bool,
    before: &IndexMap<&str, usize>,
    now: &IndexMap<&str, usize>,
) -> Result<String, AllocError>
    ensures { IfOk result (λ t. string_bytes t ≡ spec.texts_change is_as_long are_reordered
        (table.fewer_in (table.rows_of now.now.entries) (table.rows_of before.now.entries))
        (table.missing_in (table.rows_of now.now.entries) (table.rows_of before.now.entries))
        (table.missing_in (table.rows_of before.now.entries) (table.rows_of now.now.entries))) }
{
    let difference = Difference {
        merged: fewer(alloc, now, before)?,
        gone: missing(alloc, now, before)?,
        added: missing(alloc, before, now)?,
    };
    texts_change(alloc, is_as_long, are_reordered, &difference)
}

/// Whether no text stands in a list more often now, and what isn't a text is null.
fn are_reordered(
    alloc: Global,
    before: &[Value],
    now: &[Value],
    olds: &IndexMap<&str, usize>,
    news: &IndexMap<&str, usize>,
) -> Result<bool, AllocError>
    ensures { IfOk result (λ b. b
        ≡ (spec.is_none (table.fewer_in (table.rows_of olds.now.entries) (table.rows_of news.now.entries))
        && (list_all (λ v. lists.is_text_or_null (view v)) before.now
        && list_all (λ v. lists.is_text_or_null (view v)) now.now))) }
{
    let repeated = fewer(alloc, olds, news)?;
    let are_texts = are_texts_or_null(before) && are_texts_or_null(now);
    Ok(repeated.is_empty() && are_texts)
}

/// What becomes of the texts of a list.
fn lists_told(alloc: Global, before: &[Value], now: &[Value]) -> Result<String, AllocError>
    ensures { IfOk result (λ t. string_bytes t ≡ spec.texts_told (length before.now == length now.now)
        (spec.are_reordered (map view before.now) (map view now.now))
        (lists.texts_of (map view before.now)) (lists.texts_of (map view now.now))) }
{
    let olds = counts_of(alloc, before)?;
    let news = counts_of(alloc, now)?;
    let are_reordered = are_reordered(alloc, before, now, &olds, &news)?;
    texts_told(
        alloc,
        before.len() == now.len(),
        are_reordered,
        &olds,
        &news,
    )
}

/// How a list of texts becomes another: how many entries there are, and which are merged, gone or new.
pub(crate) fn list_change(
    alloc: Global,
    before: &[Value],
    now: &[Value],
) -> Result<String, AllocError>
    ensures { IfOk result (λ t. string_bytes t ≡ spec.list_change (map view before.now) (map view now.now)) }
{
    let counts = entry_counts(alloc, before.len(), now.len())?;
    let texts = lists_told(alloc, before, now)?;
    let (counts, texts) = (counts.as_str(), texts.as_str());
    format!(in alloc; "{counts}{texts}")
}
