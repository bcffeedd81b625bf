//! What becomes of a script's text.
use crate::comments::{remove_comment, set_comment};
use crate::data::data_url;
use crate::identifying::{Identified, identity_of};
use crate::outlining::{Outlined, outline_of};
use crate::program::ScriptTask;
use crate::reading::map_bytes;
use crate::refusal::Refusal;
use smap_link::{InlineFault, inline_map, is_data, link_in};
use smap_system::{Disk, LIMIT, parted};
use std::alloc::Global;

/// How many comments are removed of a script at most.
const MOST_COMMENTS: usize = 64;

/// What becomes of a script.
#[derive(Drop)]
pub(crate) enum Deed {
    /// It stays as it is.
    Nothing,
    /// It gets this text.
    Text(Vec<u8>),
    /// It gets another text, and a file next to it the map that it had.
    Outline(Outlined),
    /// It or its map gets the debug id that both have then.
    Identify(Identified),
}

/// The text with its comment set to this URL.
fn set(alloc: Global, name: &[u8], text: &[u8], url: &[u8]) -> Result<Deed, Refusal> {
    if link_in(name, text) == Some(url) {
        return Ok(Deed::Nothing);
    }
    Ok(Deed::Text(set_comment(alloc, name, text, url)?.text))
}

/// The text without any comment that names a map.
fn removed(alloc: Global, name: &[u8], text: &[u8]) -> Result<Deed, Refusal> {
    let mut deed = Deed::Nothing;
    for _ in 0..MOST_COMMENTS {
        let edited = match &deed {
            Deed::Text(text) => remove_comment(alloc, name, text)?,
            _ => remove_comment(alloc, name, text)?,
        };
        match edited {
            Some(edited) => deed = Deed::Text(edited.text),
            None => return Ok(deed),
        }
    }
    Err(Refusal::Unclear)
}

/// The text with the map that it names in its comment.
fn inlined<D: Disk>(alloc: Global, disk: &D, path: &str, text: &[u8]) -> Result<Deed, Refusal> {
    let (_, name) = parted(path);
    let Some(url) = link_in(name.as_bytes(), text) else {
        return Err(Refusal::NoMap);
    };
    if is_data(url) {
        return Ok(Deed::Nothing);
    }
    let map = map_bytes(alloc, disk, path, url)?;
    let Ok(url) = data_url(alloc, &map) else {
        return Err(Refusal::Memory);
    };
    let text = set_comment(alloc, name.as_bytes(), text, &url)?.text;
    if text.len() as u64 > LIMIT {
        return Err(Refusal::TooLong);
    }
    Ok(Deed::Text(text))
}

/// The text with the name of a file in its comment, and the map that it had in it.
fn taken_out<D: Disk>(alloc: Global, disk: &D, path: &str, text: &[u8]) -> Result<Deed, Refusal> {
    let (_, name) = parted(path);
    let Some(url) = link_in(name.as_bytes(), text) else {
        return Err(Refusal::NoMap);
    };
    match inline_map(alloc, url) {
        Ok(Some(map)) => Ok(Deed::Outline(outline_of(alloc, disk, path, text, map)?)),
        Ok(None) => Ok(Deed::Nothing),
        Err(InlineFault::Memory) => Err(Refusal::Memory),
        Err(InlineFault::Form | InlineFault::Base64) => Err(Refusal::Garbled),
    }
}

/// What becomes of a script at this path, with this text.
pub(crate) fn deed_of<D: Disk>(
    alloc: Global,
    disk: &D,
    task: ScriptTask<'_>,
    path: &str,
    text: &[u8],
) -> Result<Deed, Refusal> {
    let (_, name) = parted(path);
    match task {
        ScriptTask::Set(url) => set(alloc, name.as_bytes(), text, url.as_bytes()),
        ScriptTask::Remove => removed(alloc, name.as_bytes(), text),
        ScriptTask::Inline => inlined(alloc, disk, path, text),
        ScriptTask::Outline => taken_out(alloc, disk, path, text),
        ScriptTask::Identify => identity_of(alloc, disk, path, text),
    }
}
