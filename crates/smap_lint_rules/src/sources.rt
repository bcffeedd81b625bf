//! What is wrong with the files of sources, in words.
ghost use Rattle.std.specs.Prelude.{◌≡◌, [], IfOk, option_copied, option_map, string_bytes, unwrap_or};
ghost use Rattle.smap_record.specs.Views.{entry_of_view};
ghost use Rattle.smap_lint_rules.specs.Findings as spec;

use crate::wording::{example, one_or_more, some_of};
use smap_record::{SourceMap, SourceView};
use std::alloc::{AllocError, Global};

/// The sources that are wrong in one way.
#[derive(Clone, Copy)]
pub struct Wrong {
    pub count: usize,
    /// The number of the first one, among the distinct sources.
    pub first: Option<usize>,
}

impl Wrong {
    /// No source.
    pub fn new() -> Wrong {
        Wrong {
            count: 0,
            first: None,
        }
    }

    /// These and the source with this number.
    pub fn with(self, number: usize) -> Wrong {
        let first = match self.first {
            Some(first) => first.min(number),
            None => number,
        };
        Wrong {
            count: self.count.saturating_add(1),
            first: Some(first),
        }
    }
}

/// A text, or an empty one where there is none.
pub(crate) fn or_empty<'a>(text: Option<&'a str>) -> &'a str
    ensures { result.now ≡ unwrap_or (option_copied text.entry) [] }
{
    match text {
        Some(text) => text,
        None => "",
    }
}

/// A URL below the folder without the folder's.
pub(crate) fn own_part<'u>(folder: &str, url: &'u str) -> &'u str
    ensures { result.now ≡ spec.own_part folder.now url.now }
{
    match url.strip_prefix(folder) {
        Some(rest) => rest,
        None => url,
    }
}

/// The first of these sources of the map.
pub(crate) fn first_wrong(map: &SourceMap, wrong: Wrong) -> Option<SourceView<'_>>
    ensures { option_map entry_of_view result ≡ spec.first_wrong map.now wrong }
{
    let Some(first) = wrong.first else {
        return None;
    };
    if first < map.source_count() {
        Some(map.source(first))
    } else {
        None
    }
}

fn missing_words(
    alloc: Global,
    count: usize,
    total: usize,
    first: &str,
) -> Result<String, AllocError>
    ensures { IfOk result (λ t. string_bytes t ≡ spec.missing_words count total first.now) }
{
    let sources = some_of(alloc, count, total, "source")?;
    let has = one_or_more(count, "has", "have");
    let example = example(alloc, count, first)?;
    format!(in alloc; "{sources} {has} neither content nor file{example}")
}

/// Whether sources have neither a content nor a file.
pub(crate) fn missing_sources(
    alloc: Global,
    map: &SourceMap,
    folder: &str,
    missing: Wrong,
) -> Result<Option<String>, AllocError>
    ensures { IfOk result (λ t. option_map string_bytes t
        ≡ spec.missing_sources map.now folder.now missing) }
{
    let Some(first) = first_wrong(map, missing) else {
        return Ok(None);
    };
    let first = own_part(folder, or_empty(first.url));
    Ok(Some(missing_words(alloc, missing.count, map.source_count(), first)?))
}

fn stale_words(alloc: Global, count: usize, total: usize, first: &str) -> Result<String, AllocError>
    ensures { IfOk result (λ t. string_bytes t ≡ spec.stale_words count total first.now) }
{
    let sources = some_of(alloc, count, total, "source")?;
    let files = one_or_more(count, "its file", "their files");
    let example = example(alloc, count, first)?;
    format!(in alloc; "the content of {sources} differs from {files}{example}")
}

/// Whether contents differ from the sources' files.
pub(crate) fn stale_contents(
    alloc: Global,
    map: &SourceMap,
    folder: &str,
    stale: Wrong,
) -> Result<Option<String>, AllocError>
    ensures { IfOk result (λ t. option_map string_bytes t ≡ spec.stale_contents map.now folder.now stale) }
{
    let Some(first) = first_wrong(map, stale) else {
        return Ok(None);
    };
    let first = own_part(folder, or_empty(first.url));
    Ok(Some(stale_words(alloc, stale.count, map.source_count(), first)?))
}
