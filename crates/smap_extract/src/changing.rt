//! The text of a map whose sources have other beginnings, or whose list of contents has more or fewer.
ghost use Rattle.std.specs.Prelude.{◌≡◌, IfOk, IfSome};
ghost use Rattle.smap_record.specs.Written.{as_written};
ghost use Rattle.smap_extract.specs.Renaming.{IsChanged, prefixes_of};
ghost use Rattle.smap_extract.specs.Spans.{IsSpliced};

use crate::contents::{add_contents, drop_contents, json_text, source_count};
use crate::members::{Lists, lists_of};
use crate::patterns::Meant;
use crate::reading_back::check;
use crate::renaming::renamed;
use crate::sources_fault::SourcesFault;
use crate::spans::{Edit, Span, spliced};
use smap_record::{Base, SourceMap, WrittenSources};
use smap_system::LIMIT;
use std::alloc::{AllocError, Global};

/// A map that was read.
#[derive(Drop)]
pub struct MapRead<'a> {
    /// Its own URL.
    pub url: &'a [u8],
    pub base: &'a Base,
    /// How many bytes the URLs of its sources may take.
    pub url_bytes: usize,
    pub bytes: &'a [u8],
    pub map: SourceMap,
    /// Its sources as these bytes write them.
    pub written: WrittenSources,
}

/// What is done to the sources of a map.
#[derive(Clone, Copy)]
pub(crate) enum Change<'a> {
    /// They get other beginnings.
    Rename(&'a [(&'a str, &'a str)]),
    /// They get these contents, one for each that is listed.
    Add(&'a [Option<String>]),
    /// Those that are meant lose their contents.
    Drop(&'a Meant<'a>),
}

/// Adds the edit that gives a source another beginning, if there is one for it.
fn add_name(
    alloc: Global,
    prefixes: &[(&str, &str)],
    source: Option<&str>,
    span: Span,
    edits: &mut Vec<Edit>,
) -> Result<(), AllocError> {
    let Some(source) = source else {
        return Ok(());
    };
    let name = renamed(alloc, prefixes, source.as_bytes())?;
    let name = std::str::from_utf8(&name).unwrap_or(source);
    if name != source {
        let made = json_text(alloc, name)?;
        edits.push(Edit { span, made })?;
    }
    Ok(())
}

/// Adds the edits that give other beginnings to the sources of a map, of which the first has this number.
fn add_names(
    alloc: Global,
    lists: &Lists,
    prefixes: &[(&str, &str)],
    written: &WrittenSources,
    first: usize,
    edits: &mut Vec<Edit>,
) -> Result<(), AllocError> {
    let Some(list) = &lists.sources else {
        return Ok(());
    };
    for i in 0..list.entries.len() {
        let number = first.saturating_add(i);
        if number < written.len() {
            add_name(
                alloc,
                prefixes,
                written.source(number),
                list.entries[i],
                edits,
            )?;
        }
    }
    Ok(())
}

/// Adds the edits that change a map with these lists, of whose sources the first has this number.
fn add_edits(
    alloc: Global,
    read: &MapRead<'_>,
    change: Change<'_>,
    lists: &Lists,
    first: usize,
    edits: &mut Vec<Edit>,
) -> Result<(), AllocError> {
    let written = &read.written;
    match change {
        Change::Rename(prefixes) => add_names(alloc, lists, prefixes, written, first, edits),
        Change::Add(contents) => {
            let after = first.saturating_add(source_count(lists));
            let own = contents.get(first..after).unwrap_or(&[]);
            add_contents(alloc, read.bytes, lists, own, edits)
        }
        Change::Drop(meant) => {
            drop_contents(alloc, read.bytes, lists, meant, written, first, edits)
        }
    }
}

/// The edits that change a map.
fn edits_of(
    alloc: Global,
    read: &MapRead<'_>,
    change: Change<'_>,
) -> Result<Vec<Edit>, SourcesFault> {
    let all = lists_of(alloc, read.bytes)?;
    let mut edits = Vec::new(alloc);
    let mut first: usize = 0;
    for lists in &all {
        add_edits(alloc, read, change, lists, first, &mut edits)?;
        first = first.saturating_add(source_count(lists));
    }
    if first == read.written.len() {
        Ok(edits)
    } else {
        Err(SourcesFault::Unclear)
    }
}

/// The text with these edits, which may not be too long.
fn edited(alloc: Global, text: &[u8], edits: &[Edit]) -> Result<Vec<u8>, SourcesFault>
    ensures { IfOk result (λ new. IsSpliced text.now new.items) }
{
    match spliced(alloc, text, edits)? {
        Some(new) if new.len() as u64 > LIMIT => Err(SourcesFault::TooLong),
        Some(new) => Ok(new),
        None => Err(SourcesFault::Unclear),
    }
}

/// The text of a map that is changed so; none if nothing changes.
pub(crate) fn changed(
    alloc: Global,
    read: &MapRead<'_>,
    change: Change<'_>,
) -> Result<Option<Vec<u8>>, SourcesFault>
    ensures { IfOk result (λ o. IfSome o (λ new. read.now.written ≡ as_written read.now.bytes.now
        → IsChanged (prefixes_of change.entry) read.now.bytes.now new.items)) }
{
    let edits = edits_of(alloc, read, change)?;
    if edits.is_empty() {
        return Ok(None);
    }
    let new = edited(alloc, read.bytes, &edits)?;
    check(alloc, read, change, &new)?;
    Ok(Some(new))
}
