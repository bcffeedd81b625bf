//! Sources that two maps have with other contents.
use crate::entries::named;
use crate::sections::entries_of;
use indexmap::IndexMap;
use serde_json::Value;
use std::alloc::{AllocError, Global};

/// The entries of a member.
fn list_of<'v>(tree: &'v Value, name: &str) -> &'v [Value] {
    match tree.get(name) {
        Some(entries) => entries_of(entries),
        None => &[],
    }
}

/// The contents of the sources of a list, by their URLs; of one that is listed twice, the last one.
fn contents_of(alloc: Global, tree: &Value) -> Result<IndexMap<&str, Option<&str>>, AllocError> {
    let (sources, contents) = (list_of(tree, "sources"), list_of(tree, "sourcesContent"));
    let mut found = IndexMap::new(alloc);
    for i in 0..sources.len() {
        let Some(url) = sources[i].as_str() else {
            continue;
        };
        found.insert(url, text_at(contents, i))?;
    }
    Ok(found)
}

fn text_at(contents: &[Value], i: usize) -> Option<&str> {
    contents.get(i)?.as_str()
}

/// Whether a source is among others with another content.
fn has_other(others: &IndexMap<&str, Option<&str>>, url: &str, content: Option<&str>) -> bool {
    match others.get(url) {
        Some(other) => *other != content,
        None => false,
    }
}

/// The URLs of the sources that two maps, in canonical form, have with other contents.
fn changed<'v>(
    alloc: Global,
    others: &IndexMap<&str, Option<&str>>,
    sources: &IndexMap<&'v str, Option<&'v str>>,
) -> Result<Vec<&'v str>, AllocError> {
    let mut changed = Vec::new(alloc);
    for (url, content) in sources.iter() {
        if has_other(others, *url, *content) {
            changed.push(*url)?;
        }
    }
    Ok(changed)
}

/// The line of these.
fn changed_line(alloc: Global, urls: &[&str]) -> Result<Option<String>, AllocError> {
    if urls.is_empty() {
        return Ok(None);
    }
    let urls = named(alloc, urls)?;
    let urls = urls.as_str();
    Ok(Some(format!(in alloc; "changed sources: {urls}")?))
}

/// The line of the sources that two maps, in canonical form, have with other contents, if there are some.
///
/// # Errors
///
/// `AllocError`.
pub fn changed_contents(
    alloc: Global,
    before: &Value,
    after: &Value,
) -> Result<Option<String>, AllocError> {
    let others = contents_of(alloc, before)?;
    let sources = contents_of(alloc, after)?;
    let urls = changed(alloc, &others, &sources)?;
    changed_line(alloc, &urls)
}
