//! The files of sources.
use crate::changing::MapRead;
use crate::patterns::Meant;
use smap_link::{PathFault, file_path};
use smap_system::{Disk, FileFault, Kind, LIMIT, parted, read_file};
use std::alloc::{AllocError, Global};
use std::io::ErrorKind;

/// Contents for the sources of a map that have none, with one for each listed source.
#[derive(Drop)]
pub(crate) struct Found {
    pub(crate) contents: Vec<Option<String>>,
    /// How many sources are without one still.
    pub(crate) missing: u64,
    /// How many bytes the contents may have together.
    left: u64,
}

/// The path that a URL has on this machine, if it is that of a file.
fn path_of(alloc: Global, url: &[u8]) -> Result<Option<String>, AllocError> {
    match file_path(alloc, url) {
        Ok(Some(path)) => match String::from_utf8(path) {
            Ok(path) => Ok(Some(path)),
            Err(_) => Ok(None),
        },
        Err(PathFault::Memory) => Err(AllocError),
        Ok(None) | Err(_) => Ok(None),
    }
}

/// Whether a source, or its root, is relative to the map: it begins with neither a slash, a scheme nor what a
/// URL's parser leaves out there.
fn is_relative(text: &str) -> bool {
    let bytes = text.as_bytes();
    let size = bytes
        .iter()
        .take_while(|b| **b > b' ' && **b != b'/' && **b != b'\\' && **b != b':')
        .count();
    match bytes.get(size) {
        Some(b':') => false,
        Some(_) => size > 0,
        None => true,
    }
}

/// Folders with slashes at their ends; empty if there is none.
#[derive(Clone, Copy)]
struct Folders<'a> {
    /// That of the map.
    own: &'a str,
    /// That in which the program runs.
    working: &'a str,
}

fn is_below(folder: &str, path: &str) -> bool {
    !folder.is_empty() && path.starts_with(folder)
}

/// Whether a file is below the folder of its map, or below the working folder and its source relative to the
/// map: a map from elsewhere has no other files read.
fn is_allowed(folders: Folders<'_>, path: &str, root: Option<&str>, source: &str) -> bool {
    let is_relative = is_relative(source) && is_relative(root.unwrap_or(""));
    is_below(folders.own, path) || (is_relative && is_below(folders.working, path))
}

/// Whether a path leads to a file, and over no link.
fn is_plain_file<D: Disk>(alloc: Global, disk: &D, path: &str) -> Result<bool, AllocError> {
    match disk.real_path(alloc, path) {
        Ok(real) => Ok(real.as_str() == path && disk.kind(path) == Kind::File),
        Err(error) if error.kind() == ErrorKind::OutOfMemory => Err(AllocError),
        Err(_) => Ok(false),
    }
}

/// The text in a file of at most so many bytes; none if it can't be read, or isn't UTF-8.
fn text_in<D: Disk>(
    alloc: Global,
    disk: &D,
    path: &str,
    most: u64,
) -> Result<Option<String>, FileFault> {
    match read_file(alloc, disk, path, most) {
        Ok(bytes) => match String::from_utf8(bytes) {
            Ok(text) => Ok(Some(text)),
            Err(_) => Ok(None),
        },
        Err(FileFault::Read(_)) => Ok(None),
        Err(fault) => Err(fault),
    }
}

/// The text of the file of a source, if there is one that is allowed.
fn content_of<D: Disk>(
    alloc: Global,
    disk: &D,
    folders: Folders<'_>,
    url: &str,
    root: Option<&str>,
    source: &str,
    most: u64,
) -> Result<Option<String>, FileFault> {
    let Ok(path) = path_of(alloc, url.as_bytes()) else {
        return Err(FileFault::Memory);
    };
    let Some(path) = path else {
        return Ok(None);
    };
    if !is_allowed(folders, path.as_str(), root, source) {
        return Ok(None);
    }
    match is_plain_file(alloc, disk, path.as_str()) {
        Ok(true) => text_in(alloc, disk, path.as_str(), most),
        Ok(false) => Ok(None),
        Err(_) => Err(FileFault::Memory),
    }
}

impl Found {
    fn with(self, content: Option<String>, is_missing: bool) -> Result<Found, FileFault> {
        let Found {
            mut contents,
            missing,
            left,
        } = self;
        let size = match &content {
            Some(content) => content.len() as u64,
            None => 0,
        };
        if contents.push(content).is_err() {
            return Err(FileFault::Memory);
        }
        Ok(Found {
            contents,
            missing: missing.saturating_add(if is_missing { 1 } else { 0 }),
            left: left.saturating_sub(size),
        })
    }

    /// The same with the next source, which has no content and is meant.
    fn with_file<D: Disk>(
        self,
        alloc: Global,
        disk: &D,
        folders: Folders<'_>,
        url: Option<&str>,
        root: Option<&str>,
        source: Option<&str>,
    ) -> Result<Found, FileFault> {
        let (Some(url), Some(source)) = (url, source) else {
            return self.with(None, false);
        };
        let content = content_of(alloc, disk, folders, url, root, source, self.left)?;
        let is_missing = content.is_none();
        self.with(content, is_missing)
    }
}

/// The folder of the map with this URL, with a slash at its end; empty if it is none of this machine.
fn folder_of(alloc: Global, url: &[u8]) -> Result<String, AllocError> {
    match path_of(alloc, url)? {
        Some(path) => String::from_str(alloc, parted(path.as_str()).0),
        None => Ok(String::new(alloc)),
    }
}

/// The working folder with a slash at its end; empty if it isn't known, or has all files below it.
fn working_folder<D: Disk>(alloc: Global, disk: &D) -> Result<String, AllocError> {
    match disk.real_path(alloc, ".") {
        Ok(real) if real.as_str() != "/" => {
            let real = real.as_str();
            format!(in alloc; "{real}/")
        }
        Err(error) if error.kind() == ErrorKind::OutOfMemory => Err(AllocError),
        Ok(_) | Err(_) => Ok(String::new(alloc)),
    }
}

/// What the files hold of those sources of a map that are meant and have no content.
pub(crate) fn find_contents<D: Disk>(
    alloc: Global,
    disk: &D,
    read: &MapRead<'_>,
    meant: &Meant<'_>,
) -> Result<Found, FileFault> {
    let (map, written) = (&read.map, &read.written);
    let (Ok(own), Ok(working)) = (folder_of(alloc, read.url), working_folder(alloc, disk)) else {
        return Err(FileFault::Memory);
    };
    let folders = Folders {
        own: own.as_str(),
        working: working.as_str(),
    };
    let mut found = Found {
        contents: Vec::new(alloc),
        missing: 0,
        left: LIMIT,
    };
    for i in 0..map.listed_count().min(written.len()) {
        let view = map.source(map.listed(i));
        let source = written.source(i);
        found = if view.content.is_none() && meant.has(source) {
            found.with_file(alloc, disk, folders, view.url, written.root(i), source)?
        } else {
            found.with(None, false)?
        };
    }
    Ok(found)
}
