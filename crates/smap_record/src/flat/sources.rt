//! The sources of a flat map: each is resolved in turn and listed after those before it, with its content and
//! whether it is ignored.
ghost use Rattle.std.specs.Prelude.{◌≡◌, ◌+◌, ◌<◌, length, Some, IfOk, false};
ghost use Rattle.std.specs.Prelude.{ℕ, List, Option, slice_get, option_map, option_copied, string_bytes};
ghost use Rattle.std.specs.Prelude.{take, drop};
ghost use Rattle.std.specs.Vec.Iter.{into_iter_items};
ghost use Rattle.smap_shape.specs.Members.{fitted};
ghost use Rattle.smap_record.specs.Flat.{source_url as source_url_of, source_entry, entries_from};
ghost use Rattle.smap_record.specs.Resolving.{source_error as error_of, url_or_error as url_or_error_of};
ghost use Rattle.smap_record.specs.Results.{Returns};
ghost use Rattle.smap_record.specs.Owned.{texts_of, first_of};
ghost use Rattle.smap_record.specs.Steps.{after, with_one, AreFlags, FollowsSource};

use crate::entry::SourceEntry;
use crate::fault::{Kind, ReadError, refused};
use crate::source_urls::{Base, SourceFault, resolve};
use crate::sources::Sources;
use smap_shape::FlatShape;
use std::alloc::{AllocError, Global};
use std::vec::IntoIter;

/// The error for the source with this index.
fn source_error(i: usize, fault: SourceFault) -> ReadError
    ensures { result ≡ error_of i fault }
{
    match fault {
        SourceFault::NoUrl => refused(Kind::SourceUrl(i)),
        SourceFault::Unstable => refused(Kind::UnstableUrl(i)),
        SourceFault::Memory => ReadError::Memory,
    }
}

/// The URL that the source with this index resolved to, or its error.
fn url_or_error(i: usize, resolved: Result<String, SourceFault>) -> Result<String, ReadError>
    ensures { result ≡ url_or_error_of i resolved }
{
    match resolved {
        Ok(text) => Ok(text),
        Err(fault) => Err(source_error(i, fault)),
    }
}

/// The URL of the i-th source; a null source has none.
#[tactic(auto, unfolding(crate::specs::Flat::source_url), using(crate::proofs::StabilityLemmas::url_of))]
fn source_url(
    alloc: Global,
    base: &Base,
    root: Option<&str>,
    i: usize,
    source: Option<&str>,
) -> Result<Option<String>, ReadError>
    ensures { Returns (option_map string_bytes) result
        (source_url_of base.now (option_copied root.entry) i (option_copied source.entry)) }
{
    match source {
        None => Ok(None),
        Some(source) => match url_or_error(i, resolve(alloc, base, root, source)) {
            Ok(text) => Ok(Some(text)),
            Err(error) => Err(error),
        },
    }
}

/// A copy of a string of the tree.
pub(crate) fn copied(alloc: Global, text: Option<&str>) -> Result<Option<String>, AllocError>
    ensures { IfOk result (λ s. option_map string_bytes s ≡ option_copied text.entry) }
{
    let Some(text) = text else {
        return Ok(None);
    };
    Ok(Some(String::from_str(alloc, text)?))
}

/// The URL of the i-th source. One that is spelled like the source before it isn't resolved again: its URL
/// is that of the entry listed last.
fn next_url(
    alloc: Global,
    before: &Sources,
    base: &Base,
    shape: &FlatShape<'_>,
    i: usize,
) -> Result<Option<String>, ReadError>
    requires within { i < length shape.now.sources }
    requires last { FollowsSource base.now shape.now.root shape.now.sources i before.now }
    ensures { (source : Option (List ℕ)) → slice_get shape.now.sources i ≡ Some source
        → Returns (option_map string_bytes) result (source_url_of base.now shape.now.root i source) }
{
    let source = shape.source(i);
    if i > 0 && source == shape.source(i - 1) {
        let last = before.distinct(before.listed(before.listed_count() - 1));
        return Ok(copied(alloc, last.url)?);
    }
    source_url(alloc, base, shape.root(), i, source)
}

/// The sources listed before the i-th source, followed by it with this content.
fn with_source(
    alloc: Global,
    before: Sources,
    base: &Base,
    shape: &FlatShape<'_>,
    i: usize,
    content: Option<String>,
    ignored: bool,
) -> Result<Sources, ReadError>
    requires within { i < length shape.now.sources }
    requires last { FollowsSource base.now shape.now.root shape.now.sources i before }
    ensures { (source : Option (List ℕ)) → slice_get shape.now.sources i ≡ Some source
        → Returns (λ s. s) result (with_one before (source_entry base.now shape.now.root i source
        (option_map string_bytes content) ignored)) }
{
    let url = next_url(alloc, &before, base, shape, i)?;
    before.with(SourceEntry {
        url,
        content,
        ignored,
    })
}

/// Whether each source is ignored. The ignore list may be long, so it is read once.
fn ignored_flags(alloc: Global, shape: &FlatShape<'_>) -> Result<Vec<bool>, AllocError>
    ensures count { IfOk result (λ flags. length flags.items ≡ length shape.now.sources) }
    ensures flags { IfOk result (λ flags. AreFlags (length shape.now.sources) shape.now.ignored flags.items) }
{
    let mut flags = vec![in alloc; false; shape.source_count()]?;
    for k in 0..shape.ignored_count() {
        flags[shape.ignored_number(k)] = true;
    }
    Ok(flags)
}

/// Copies of the contents of the map's sources.
pub(crate) fn copied_contents(
    alloc: Global,
    shape: &FlatShape<'_>,
) -> Result<Vec<Option<String>>, AllocError>
    ensures copied { IfOk result (λ v.
        texts_of v.items ≡ take (length shape.now.sources) shape.now.contents) }
    ensures count { IfOk result (λ v. length v.items ≡ length shape.now.sources) }
{
    let mut contents = Vec::with_capacity(alloc, shape.source_count())?;
    for i in 0..shape.source_count() {
        contents.push(copied(alloc, shape.content(i))?)?;
    }
    Ok(contents)
}

/// The next source's content; none after the last entry.
fn next_content(rest: &mut IntoIter<Option<String>>) -> Option<String>
    ensures first { option_map string_bytes result ≡ first_of (texts_of (into_iter_items rest.old)) }
    ensures rest { texts_of (into_iter_items rest.new) ≡ drop 1 (texts_of (into_iter_items rest.old)) }
{
    match rest.next() {
        Some(content) => content,
        None => None,
    }
}

/// The sources listed before the map, followed by its own with these contents.
pub(crate) fn with_sources(
    alloc: Global,
    before: Sources,
    base: &Base,
    shape: &FlatShape<'_>,
    contents: Vec<Option<String>>,
) -> Result<Sources, ReadError>
    ensures lists { Returns (λ s. s) result
        (after before (entries_from base.now shape.now.root shape.now.ignored 0
        shape.now.sources (fitted (length shape.now.sources) (texts_of contents.items)))) }
    ensures count { IfOk result (λ s. length s ≡ length before + length shape.now.sources) }
{
    let ignored = ignored_flags(alloc, shape)?;
    let mut rest = contents.into_iter();
    let mut sources = before;
    for i in 0..shape.source_count() {
        let content = next_content(&mut rest);
        sources = with_source(alloc, sources, base, shape, i, content, ignored[i])?;
    }
    Ok(sources)
}
