//! Contents that are put into the list of a map, or taken out of it.
ghost use Rattle.std.specs.Prelude.{◌≤◌, length};

use crate::members::{List, Lists};
use crate::patterns::Meant;
use crate::spans::{Edit, Span};
use serde_json::Value;
use smap_record::WrittenSources;
use std::alloc::{AllocError, Global};

/// A text as JSON.
pub(crate) fn json_text(alloc: Global, text: &str) -> Result<Vec<u8>, AllocError> {
    let value = Value::String(String::from_str(alloc, text)?);
    value.to_vec(alloc)
}

fn content_text(alloc: Global, content: Option<&String>) -> Result<Vec<u8>, AllocError> {
    match content {
        Some(content) => json_text(alloc, content.as_str()),
        None => Vec::from_slice(alloc, b"null"),
    }
}

/// How many of these come up to the last one that is there.
fn size_with_last(contents: &[Option<String>]) -> usize
    ensures { result ≤ length contents.now }
{
    let after = contents.iter().rev().take_while(|c| c.is_none()).count();
    contents.len().saturating_sub(after)
}

/// Adds contents to the text of a list, which may have some before them.
fn push_contents(
    alloc: Global,
    contents: &[Option<String>],
    has_some: bool,
    list: &mut Vec<u8>,
) -> Result<(), AllocError> {
    for i in 0..contents.len() {
        if has_some || i > 0 {
            list.push(b',')?;
        }
        let text = content_text(alloc, contents[i].as_ref())?;
        list.extend_from_slice(&text)?;
    }
    Ok(())
}

/// These contents as a list, after this text.
fn list_text(
    alloc: Global,
    before: &[u8],
    contents: &[Option<String>],
) -> Result<Vec<u8>, AllocError> {
    let mut text = Vec::from_slice(alloc, before)?;
    text.push(b'[')?;
    push_contents(alloc, contents, false, &mut text)?;
    text.push(b']')?;
    Ok(text)
}

/// Adds the edit that lengthens a list by contents for sources that it has none for.
fn add_longer(
    alloc: Global,
    list: &List,
    contents: &[Option<String>],
    edits: &mut Vec<Edit>,
) -> Result<(), AllocError> {
    let Some(more) = contents.get(list.entries.len()..) else {
        return Ok(());
    };
    if more.is_empty() {
        return Ok(());
    }
    let mut made = Vec::new(alloc);
    push_contents(alloc, more, !list.entries.is_empty(), &mut made)?;
    let end = list.value.end.saturating_sub(1);
    let span = Span { start: end, end };
    edits.push(Edit { span, made })?;
    Ok(())
}

/// Adds the edits that put contents into a list that is there.
fn add_entries(
    alloc: Global,
    list: &List,
    contents: &[Option<String>],
    edits: &mut Vec<Edit>,
) -> Result<(), AllocError> {
    for (span, content) in list.entries.iter().zip(contents.iter()) {
        if content.is_some() {
            let made = content_text(alloc, content.as_ref())?;
            edits.push(Edit { span: *span, made })?;
        }
    }
    add_longer(alloc, list, contents, edits)
}

/// Adds the edits that put contents for its sources, where there are some, into a map.
pub(crate) fn add_contents(
    alloc: Global,
    text: &[u8],
    lists: &Lists,
    contents: &[Option<String>],
    edits: &mut Vec<Edit>,
) -> Result<(), AllocError> {
    let contents = &contents[..size_with_last(contents)];
    if contents.is_empty() {
        return Ok(());
    }
    let (span, made) = match (&lists.contents, &lists.sources) {
        (Some(list), _) if list.value.of(text).starts_with(b"[") => {
            return add_entries(alloc, list, contents, edits);
        }
        (Some(list), _) => (list.value, list_text(alloc, b"", contents)?),
        (None, Some(sources)) => {
            let end = sources.value.end;
            let made = list_text(alloc, b",\"sourcesContent\":", contents)?;
            (Span { start: end, end }, made)
        }
        (None, None) => return Ok(()),
    };
    edits.push(Edit { span, made })?;
    Ok(())
}

/// Whether the entry with this index of a list of contents is a content that is to go. The sources of the
/// list's map are so many, from the first one on.
fn goes(
    meant: &Meant<'_>,
    written: &WrittenSources,
    first: usize,
    count: usize,
    index: usize,
) -> bool {
    let number = first.saturating_add(index);
    if index < count && number < written.len() {
        meant.has(written.source(number))
    } else {
        meant.has(None)
    }
}

/// Adds the edits that take contents out of a map, whose sources are so many, from the first one on.
pub(crate) fn drop_contents(
    alloc: Global,
    text: &[u8],
    lists: &Lists,
    meant: &Meant<'_>,
    written: &WrittenSources,
    first: usize,
    edits: &mut Vec<Edit>,
) -> Result<(), AllocError> {
    let Some(list) = &lists.contents else {
        return Ok(());
    };
    let count = source_count(lists);
    let mut gone = Vec::new(alloc);
    let mut stays = false;
    for i in 0..list.entries.len() {
        let span = list.entries[i];
        if span.of(text).starts_with(b"\"") {
            if goes(meant, written, first, count, i) {
                gone.push(span)?;
            } else {
                stays = true;
            }
        }
    }
    if gone.is_empty() {
        return Ok(());
    }
    if !stays {
        edits.push(Edit {
            span: list.whole,
            made: Vec::new(alloc),
        })?;
        return Ok(());
    }
    push_nulls(alloc, &gone, edits)
}

/// Adds the edits that put null in place of these.
fn push_nulls(alloc: Global, gone: &[Span], edits: &mut Vec<Edit>) -> Result<(), AllocError> {
    for i in 0..gone.len() {
        edits.push(Edit {
            span: gone[i],
            made: Vec::from_slice(alloc, b"null")?,
        })?;
    }
    Ok(())
}

/// How many sources a map lists.
pub(crate) fn source_count(lists: &Lists) -> usize {
    match &lists.sources {
        Some(list) => list.entries.len(),
        None => 0,
    }
}
