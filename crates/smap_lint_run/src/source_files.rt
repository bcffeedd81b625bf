//! The files of sources.
use crate::case::Case;
use smap_chains::has_no_size;
use smap_link::{PathFault, file_path, script_url};
use smap_lint_rules::{Wrong, normal_text, same_text};
use smap_record::{SourceMap, SourceView};
use smap_system::{Disk, Kind, LIMIT};
use std::alloc::{AllocError, Global};
use std::cmp::Ordering;
use std::io::{ErrorKind, Read};

/// What there is of a source.
#[derive(Drop)]
enum Found {
    /// Nothing is wrong with it, or it can't be looked at.
    Good,
    /// It has no content and no file.
    Missing,
    /// It has a content, and a file with this path.
    Both(String),
}

/// The content of the source with this number, to be compared with its file.
#[derive(Drop)]
struct Kept<'a> {
    number: usize,
    path: String,
    content: &'a str,
}

/// The path of a source's file, if its URL is that of a file of this machine.
fn path_of(alloc: Global, url: &str) -> Result<Option<String>, AllocError> {
    match file_path(alloc, url.as_bytes()) {
        Ok(Some(path)) => match String::from_utf8(path) {
            Ok(path) => Ok(Some(path)),
            Err(_) => Ok(None),
        },
        Ok(None) => Ok(None),
        Err(PathFault::Memory) => Err(AllocError),
        Err(_) => Ok(None),
    }
}

/// Whether a URL leads to a server, which isn't asked.
fn is_remote(url: &str) -> bool {
    url.starts_with("http://") || url.starts_with("https://")
}

/// What there is of a source with this URL. That of a script that was written over its source can't be looked
/// at.
fn look_for<D: Disk>(
    alloc: Global,
    disk: &D,
    script: &[u8],
    url: &str,
    content: Option<&str>,
) -> Result<Found, AllocError> {
    if url.as_bytes() == script {
        return Ok(Found::Good);
    }
    let path = path_of(alloc, url)?;
    let is_file = match &path {
        Some(path) => disk.kind(path.as_str()) == Kind::File,
        None => false,
    };
    match (content, path) {
        (Some(_), Some(path)) if is_file => Ok(Found::Both(path)),
        (None, _) if !is_file && !is_remote(url) => Ok(Found::Missing),
        _ => Ok(Found::Good),
    }
}

/// The first bytes of a file, at most so many; none if it can't be read.
fn front_of<D: Disk>(
    alloc: Global,
    disk: &D,
    path: &str,
    most: u64,
) -> Result<Option<Vec<u8>>, AllocError> {
    let Ok(reader) = disk.open(path) else {
        return Ok(None);
    };
    let mut bytes = Vec::new(alloc);
    match reader.take(most).read_to_end(&mut bytes) {
        Ok(_) => Ok(Some(bytes)),
        Err(error) if error.kind() == ErrorKind::OutOfMemory => Err(AllocError),
        Err(_) => Ok(None),
    }
}

/// The text of a file as it is compared with contents of at most so many bytes; none if it can't be read. No
/// more is read than they need: with a carriage return for each of their bytes, and a byte order mark, they
/// have `2 * most + 3`. Only a file that has still more carriage returns is read to its end.
fn text_of<D: Disk>(
    alloc: Global,
    disk: &D,
    path: &str,
    most: usize,
) -> Result<Option<Vec<u8>>, AllocError> {
    if has_no_size(disk, path) {
        return Ok(Some(Vec::new(alloc)));
    }
    let enough = (most as u64).saturating_mul(2).saturating_add(4);
    for limit in [enough.min(LIMIT), LIMIT] {
        let Some(bytes) = front_of(alloc, disk, path, limit)? else {
            return Ok(None);
        };
        let text = normal_text(alloc, &bytes)?;
        if (bytes.len() as u64) < limit || text.len() > most {
            return Ok(Some(text));
        }
    }
    Ok(None)
}

/// Which of these contents aren't those of their files. Those of one file are put side by side, the longest
/// one first, so that it is read once for all of them.
fn stale_among<D: Disk>(
    alloc: Global,
    disk: &D,
    mut kept: Vec<Kept<'_>>,
) -> Result<Wrong, AllocError> {
    kept.sort_by(|a, b| match a.path.as_str().cmp(b.path.as_str()) {
        Ordering::Equal => b.content.len().cmp(&a.content.len()),
        other => other,
    })?;
    let mut stale = Wrong::new();
    let mut path = "";
    let mut text = None;
    for one in &kept {
        if one.path.as_str() != path {
            path = one.path.as_str();
            text = text_of(alloc, disk, path, one.content.len())?;
        }
        if let Some(text) = &text {
            if !same_text(alloc, text, one.content.as_bytes())? {
                stale = stale.with(one.number);
            }
        }
    }
    Ok(stale)
}

impl Case<'_, '_> {
    /// The URL of the map's script; empty for a map without one.
    pub(crate) fn own_script(&self) -> Result<Vec<u8>, AllocError> {
        let alloc = self.book.alloc;
        match self.script {
            Some(script) => {
                let folder = self.folder.url.as_str().as_bytes();
                script_url(alloc, folder, script.name.as_bytes())
            }
            None => Ok(Vec::new(alloc)),
        }
    }

    /// The sources of the map that have neither a content nor a file, and those whose contents aren't those
    /// of their files.
    pub(crate) fn look_for_sources<D: Disk>(
        &self,
        disk: &D,
        map: &SourceMap,
    ) -> Result<(Wrong, Wrong), AllocError> {
        let alloc = self.book.alloc;
        let script = self.own_script()?;
        let mut missing = Wrong::new();
        let mut kept = Vec::new(alloc);
        for number in 0..map.source_count() {
            let SourceView { url, content, .. } = map.source(number);
            let Some(url) = url else {
                continue;
            };
            match look_for(alloc, disk, &script, url, content)? {
                Found::Good => {}
                Found::Missing => missing = missing.with(number),
                Found::Both(path) => {
                    let content = content.unwrap_or("");
                    kept.push(Kept {
                        number,
                        path,
                        content,
                    })?;
                }
            }
        }
        let stale = stale_among(alloc, disk, kept)?;
        Ok((missing, stale))
    }
}
