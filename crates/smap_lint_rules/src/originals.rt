//! What is wrong in where mappings lead, and sources that are generated themselves, from which no trace leads
//! further; in words.
ghost use Rattle.std.specs.Prelude.{◌≡◌, [], IfOk, codes, filter, find, length, option_copied, option_map};
ghost use Rattle.std.specs.Option.{option_or};
ghost use Rattle.std.specs.Prelude.{string_bytes, unwrap_or};
ghost use Rattle.smap_record.specs.Record.{record_of};
ghost use Rattle.smap_record.specs.Views.{entry_of_view, origin_of_view};
ghost use Rattle.smap_lint_rules.specs.Findings as spec;

use crate::contents::{content_widths, count_originals_past_end, first_lost_original};
use crate::positions::counted;
use crate::sources::{Wrong, first_wrong, or_empty, own_part};
use crate::wording::{example, one_or_more, place, some_of};
use smap_link::{bare, link_in};
use smap_record::{OriginalView, SourceMap, SourceView};
use smap_system::printable;
use std::alloc::{AllocError, Global};

/// What is known of sources that are scripts, from files.
#[derive(Clone, Copy)]
pub struct Chains<'a> {
    /// The sources without a content whose files name maps.
    pub files: Wrong,
    /// What the first of these names.
    pub named: &'a [u8],
    /// Of all maps that sources name, how many can be had.
    pub there: usize,
}

fn lead_past(alloc: Global, count: usize, total: usize) -> Result<String, AllocError>
    ensures { IfOk result (λ t. string_bytes t ≡ spec.lead_past count total) }
{
    let mappings = some_of(alloc, count, total, "mapping")?;
    let lead = one_or_more(count, "leads", "lead");
    format!(in alloc; "{mappings} {lead} past the end of a source's content or its lines")
}

/// The URL of a source, or that it has none.
fn url_or_none<'a>(source: SourceView<'a>) -> &'a str
    ensures { result.now
        ≡ unwrap_or (entry_of_view source.entry).url (codes "a source without a URL") }
{
    match source.url {
        Some(url) => url,
        None => "a source without a URL",
    }
}

fn leads_to(alloc: Global, count: usize, original: OriginalView<'_>) -> Result<String, AllocError>
    ensures { IfOk result (λ t. string_bytes t ≡ spec.leads_to count (origin_of_view original.entry)) }
{
    let to = one_or_more(count, "to", "the first to");
    let place = place(alloc, original.line, original.column)?;
    let source = url_or_none(original.source);
    format!(in alloc; "{to} {place} of {source}")
}

fn original_words(
    alloc: Global,
    count: usize,
    total: usize,
    original: OriginalView<'_>,
) -> Result<String, AllocError>
    ensures { IfOk result (λ t. string_bytes t
        ≡ spec.original_words count total (origin_of_view original.entry)) }
{
    let what = lead_past(alloc, count, total)?;
    let place = leads_to(alloc, count, original)?;
    format!(in alloc; "{what}, {place}")
}

/// Whether mappings lead past the end of a source's content, or of a line of it.
pub(crate) fn originals_past_end(
    alloc: Global,
    map: &SourceMap,
) -> Result<Option<String>, AllocError>
    ensures { IfOk result (λ t. option_map string_bytes t ≡ spec.originals_past_end map.now) }
{
    let widths = content_widths(alloc, map)?;
    let Some(original) = first_lost_original(map, &widths) else {
        return Ok(None);
    };
    let count = count_originals_past_end(map, &widths);
    Ok(Some(original_words(alloc, count, map.token_count(), original)?))
}

/// The map that the content of a source names in its last comment.
fn own_map(source: SourceView<'_>) -> Option<&[u8]>
    ensures { option_copied result ≡ spec.own_map (entry_of_view source.entry) }
{
    let SourceView { url, content, .. } = source;
    link_in(bare(or_empty(url).as_bytes()), or_empty(content).as_bytes())
}

/// The same, empty where it names none.
fn named_map(source: SourceView<'_>) -> &[u8]
    ensures { result.now ≡ unwrap_or (spec.own_map (entry_of_view source.entry)) [] }
{
    match own_map(source) {
        Some(named) => named,
        None => &[],
    }
}

fn names_map(source: SourceView<'_>) -> bool
    ensures { result ≡ spec.names_map (entry_of_view source.entry) }
{
    own_map(source).is_some()
}

/// The first source whose content names a map.
fn first_open(map: &SourceMap) -> Option<SourceView<'_>>
    ensures { option_map entry_of_view result ≡ find spec.names_map (record_of map.now).sources }
{
    for number in 0..map.source_count() {
        let source = map.source(number);
        if names_map(source) {
            return Some(source);
        }
    }
    None
}

/// How many sources have contents that name maps.
#[tactic(auto, using(crate::proofs::WalkLemmas::filter_bound))]
fn count_open(map: &SourceMap) -> usize
    ensures { result ≡ length (filter spec.names_map (record_of map.now).sources) }
{
    let mut count = 0;
    for number in 0..map.source_count() {
        count = counted(count, names_map(map.source(number)));
    }
    count
}

/// What a content names for its map: of a `data:` URL no more than that it is one.
fn named_words(alloc: Global, named: &[u8]) -> Result<String, AllocError>
    ensures { IfOk result (λ t. string_bytes t ≡ spec.named_words named.now) }
{
    if is_data(named) {
        return String::from_str(alloc, "a map in itself");
    }
    printable(alloc, named)
}

fn is_data(url: &[u8]) -> bool
    ensures { result ≡ spec.is_data url.now }
{
    url[..url.len().min(5)].eq_ignore_ascii_case(b"data:")
}

/// A source, and the map that it names.
fn open_example(
    alloc: Global,
    folder: &str,
    named: &[u8],
    source: SourceView<'_>,
) -> Result<String, AllocError>
    ensures { IfOk result (λ t. string_bytes t
        ≡ spec.open_example folder.now named.now (entry_of_view source.entry)) }
{
    let named = named_words(alloc, named)?;
    let url = own_part(folder, or_empty(source.url));
    format!(in alloc; "{url} ({named})")
}

/// How many of the maps that so many sources name can be followed.
fn followed(alloc: Global, count: usize, there: usize) -> Result<String, AllocError>
    ensures { IfOk result (λ t. string_bytes t ≡ spec.followed count there) }
{
    if there == 0 {
        let maps = one_or_more(count, "its map isn't", "their maps aren't");
        return format!(in alloc; "{maps} there");
    }
    if there == count {
        let them = one_or_more(count, "it", "them");
        return format!(in alloc; "smap-maps compose follows {them}");
    }
    format!(in alloc; "smap-maps compose follows {there} of them")
}

/// That so many sources name maps, such as the first.
fn open_words(
    alloc: Global,
    count: usize,
    total: usize,
    there: usize,
    first: &str,
) -> Result<String, AllocError>
    ensures { IfOk result (λ t. string_bytes t ≡ spec.open_words count total there first.now) }
{
    let sources = some_of(alloc, count, total, "source")?;
    let own = one_or_more(count, "names a map of its own", "name maps of their own");
    let example = example(alloc, count, first)?;
    let followed = followed(alloc, count, there)?;
    format!(in alloc; "{sources} {own}{example}; positions lead to generated text: {followed}")
}

/// The first source whose content names a map.
fn open_content(alloc: Global, map: &SourceMap, folder: &str) -> Result<Option<String>, AllocError>
    ensures { IfOk result (λ t. option_map string_bytes t ≡ spec.open_content map.now folder.now) }
{
    let Some(first) = first_open(map) else {
        return Ok(None);
    };
    Ok(Some(open_example(alloc, folder, named_map(first), first)?))
}

/// The first source whose file names a map.
fn open_file(
    alloc: Global,
    map: &SourceMap,
    folder: &str,
    chains: Chains<'_>,
) -> Result<Option<String>, AllocError>
    ensures { IfOk result (λ t. option_map string_bytes t
        ≡ spec.open_file map.now folder.now chains.entry) }
{
    let Some(first) = first_wrong(map, chains.files) else {
        return Ok(None);
    };
    Ok(Some(open_example(alloc, folder, chains.named, first)?))
}

/// The first source that names a map: in its content, or else in its file.
fn first_example(
    alloc: Global,
    map: &SourceMap,
    folder: &str,
    chains: Chains<'_>,
) -> Result<Option<String>, AllocError>
    ensures { IfOk result (λ t. option_map string_bytes t
        ≡ option_or (spec.open_content map.now folder.now) (spec.open_file map.now folder.now chains.entry)) }
{
    match open_content(alloc, map, folder)? {
        Some(first) => Ok(Some(first)),
        None => open_file(alloc, map, folder, chains),
    }
}

/// Whether sources are scripts that name maps, which nothing follows.
pub(crate) fn open_chains(
    alloc: Global,
    map: &SourceMap,
    folder: &str,
    chains: Chains<'_>,
) -> Result<Option<String>, AllocError>
    ensures { IfOk result (λ t. option_map string_bytes t
        ≡ spec.open_chains map.now folder.now chains.entry) }
{
    let Some(first) = first_example(alloc, map, folder, chains)? else {
        return Ok(None);
    };
    let count = count_open(map).saturating_add(chains.files.count);
    let total = map.source_count();
    Ok(Some(open_words(alloc, count, total, chains.there, first.as_str())?))
}
