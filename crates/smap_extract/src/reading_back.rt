//! Whether a changed map is read as it has to be.
ghost use Rattle.std.specs.Prelude.{◌≡◌, ◌<◌, IfOk, OnOk, length, map, option_copied, option_map, slice_get};
ghost use Rattle.std.specs.Prelude.{true};
ghost use Rattle.smap_record.specs.Written.{as_written};
ghost use Rattle.smap_extract.specs.Renaming as spec;

use crate::changing::{Change, MapRead};
use crate::renaming::renamed;
use crate::sources_fault::SourcesFault;
use smap_record::{Limits, SourceMap, WrittenSources};
use std::alloc::{AllocError, Global};

fn are_equal(one: Option<&str>, other: Option<&str>) -> bool
    ensures { result ≡ true → option_copied one.entry ≡ option_copied other.entry }
{
    match (one, other) {
        (Some(one), Some(other)) => one.as_bytes() == other.as_bytes(),
        (None, None) => true,
        _ => false,
    }
}

/// Whether a source with these beginnings is this one.
fn is_renamed(
    alloc: Global,
    prefixes: &[(&str, &str)],
    source: Option<&str>,
    new: Option<&str>,
) -> Result<bool, AllocError>
    ensures { IfOk result (λ is. is ≡ true → option_copied new.entry
        ≡ option_map (spec.renamed (spec.prefixes_in prefixes.now)) (option_copied source.entry)) }
{
    match (source, new) {
        (Some(source), Some(new)) => {
            let name = renamed(alloc, prefixes, source.as_bytes())?;
            Ok(new.as_bytes() == name.as_slice())
        }
        (None, None) => Ok(true),
        _ => Ok(false),
    }
}

/// Whether the sources with this number are so, and have the same root.
fn is_respelled(
    alloc: Global,
    prefixes: &[(&str, &str)],
    old: &WrittenSources,
    new: &WrittenSources,
    i: usize,
) -> Result<bool, AllocError>
    requires old { i < length old.now }
    requires new { i < length new.now }
    ensures { IfOk result (λ is. is ≡ true → slice_get new.now i
        ≡ slice_get (map (spec.respelled (spec.prefixes_in prefixes.now)) old.now) i) }
{
    if !is_renamed(alloc, prefixes, old.source(i), new.source(i))? {
        return Ok(false);
    }
    Ok(are_equal(old.root(i), new.root(i)))
}

/// Whether sources that are written so are others with other beginnings, in their order and with their roots.
fn are_respelled(
    alloc: Global,
    prefixes: &[(&str, &str)],
    old: &WrittenSources,
    new: &WrittenSources,
) -> Result<bool, AllocError>
    ensures { IfOk result (λ are. are ≡ true
        → new.now ≡ map (spec.respelled (spec.prefixes_in prefixes.now)) old.now) }
{
    if old.len() != new.len() {
        return Ok(false);
    }
    for i in 0..old.len() {
        if !is_respelled(alloc, prefixes, old, new, i)? {
            return Ok(false);
        }
    }
    Ok(true)
}

/// The content that a source is to have, which had this one: the source with this number.
fn wanted<'c>(
    change: Change<'c>,
    written: &WrittenSources,
    number: usize,
    content: Option<&'c str>,
) -> Option<&'c str> {
    match change {
        Change::Rename(_) => content,
        Change::Add(contents) => match (content, contents.get(number)) {
            (None, Some(Some(more))) => Some(more.as_str()),
            _ => content,
        },
        Change::Drop(meant) => {
            if number < written.len() && meant.has(written.source(number)) {
                None
            } else {
                content
            }
        }
    }
}

/// Whether the sources of a changed map have the contents that they are to have.
fn have_contents(change: Change<'_>, read: &MapRead<'_>, new: &SourceMap) -> bool {
    let old = &read.map;
    if old.listed_count() != new.listed_count() {
        return false;
    }
    for i in 0..old.listed_count() {
        let before = old.source(old.listed(i)).content;
        if new.source(new.listed(i)).content != wanted(change, &read.written, i, before) {
            return false;
        }
    }
    true
}

/// The beginnings that a change gives.
fn prefixes_in<'a>(change: Change<'a>) -> &'a [(&'a str, &'a str)]
    ensures { spec.prefixes_in result.now ≡ spec.prefixes_of change.entry }
{
    match change {
        Change::Rename(prefixes) => prefixes,
        Change::Add(_) | Change::Drop(_) => &[],
    }
}

/// Refuses a text that isn't read as the map with this change.
pub(crate) fn check(
    alloc: Global,
    read: &MapRead<'_>,
    change: Change<'_>,
    text: &[u8],
) -> Result<(), SourcesFault>
    ensures { OnOk result (as_written text.now
        ≡ map (spec.respelled (spec.prefixes_of change.entry)) read.now.written) }
{
    let limits = Limits::usual();
    let found = SourceMap::from_slice_within(alloc, text, read.base, limits, read.url_bytes)?;
    let Some((new, written)) = found else {
        return Err(SourcesFault::LongUrls);
    };
    let are = are_respelled(alloc, prefixes_in(change), &read.written, &written)?;
    if are && have_contents(change, read, &new) {
        Ok(())
    } else {
        Err(SourcesFault::Unread)
    }
}
