//! Files that are written where none is.
use crate::path::SourcePath;
use indexmap::IndexSet;
use smap_system::{Disk, FileFault, Kind, joined, read_file};
use std::alloc::Global;
use std::io::{self, ErrorKind, Write};

/// What became of a file.
#[derive(Clone, Copy, PartialEq, Eq)]
pub(crate) enum Fate {
    Written,
    /// It was there, with the same bytes.
    Kept,
    /// It was there, with other bytes.
    Differs,
}

fn is_a_link() -> io::Error {
    io::Error::new(ErrorKind::InvalidInput, "it is a link")
}

/// The path of what has this path below a folder.
pub(crate) fn below(alloc: Global, folder: &str, path: &[u8]) -> io::Result<String> {
    match std::str::from_utf8(path) {
        Ok(path) => Ok(joined(alloc, folder, path)?),
        Err(_) => Err(io::Error::from(ErrorKind::InvalidFilename)),
    }
}

/// Makes a folder, unless it is there. A link isn't followed.
fn make_folder<D: Disk>(alloc: Global, disk: &D, path: &str) -> io::Result<()> {
    if disk.link(alloc, path)?.is_some() {
        return Err(is_a_link());
    }
    match disk.kind(path) {
        Kind::Folder => Ok(()),
        Kind::Missing => disk.create_folder(path),
        Kind::File | Kind::Special => Err(io::Error::from(ErrorKind::NotADirectory)),
    }
}

/// The same below a folder, unless it was made before.
fn make_once<D: Disk>(
    alloc: Global,
    disk: &D,
    folder: &str,
    path: &[u8],
    made: &mut IndexSet<Vec<u8>>,
) -> io::Result<()> {
    if made.contains(path) {
        return Ok(());
    }
    let whole = below(alloc, folder, path)?;
    make_folder(alloc, disk, whole.as_str())?;
    made.insert(Vec::from_slice(alloc, path)?)?;
    Ok(())
}

/// Makes the folders of a path.
fn make_folders<D: Disk>(
    alloc: Global,
    disk: &D,
    folder: &str,
    path: &SourcePath,
    made: &mut IndexSet<Vec<u8>>,
) -> io::Result<()> {
    for i in 0..path.folder.len() {
        if path.folder[i] == b'/' {
            make_once(alloc, disk, folder, &path.folder[..i], made)?;
        }
    }
    Ok(())
}

fn write_all<W: Write>(writer: &mut W, content: &[u8]) -> io::Result<()> {
    writer.write_all(content)?;
    writer.flush()
}

/// Writes a file that isn't there. Where this fails, it isn't there after.
fn write_new<D: Disk>(disk: &D, path: &str, content: &[u8]) -> io::Result<()> {
    let mut writer = disk.create_new(path)?;
    let written = write_all(&mut writer, content);
    drop(writer);
    if written.is_err() {
        let _ = disk.remove(path);
    }
    written
}

/// Whether the file that is there has these bytes.
fn holds<D: Disk>(alloc: Global, disk: &D, path: &str, content: &[u8]) -> io::Result<bool> {
    if disk.link(alloc, path)?.is_some() {
        return Err(is_a_link());
    }
    if disk.kind(path) != Kind::File {
        return Err(io::Error::from(ErrorKind::AlreadyExists));
    }
    match read_file(alloc, disk, path, content.len() as u64) {
        Ok(bytes) => Ok(bytes.as_slice() == content),
        Err(FileFault::TooLong) => Ok(false),
        Err(FileFault::Read(error)) => Err(error),
        Err(FileFault::Memory) => Err(io::Error::from(ErrorKind::OutOfMemory)),
    }
}

/// Writes a file unless one is there.
fn write_once<D: Disk>(alloc: Global, disk: &D, path: &str, content: &[u8]) -> io::Result<Fate> {
    match write_new(disk, path, content) {
        Ok(()) => Ok(Fate::Written),
        Err(error) if error.kind() == ErrorKind::AlreadyExists => {
            if holds(alloc, disk, path, content)? {
                Ok(Fate::Kept)
            } else {
                Ok(Fate::Differs)
            }
        }
        Err(error) => Err(error),
    }
}

/// Writes the file with this path below a folder, unless it is there. `made` has the folders that were made
/// or were there before.
pub(crate) fn put_file<D: Disk>(
    alloc: Global,
    disk: &D,
    folder: &str,
    path: &SourcePath,
    file: &str,
    content: &[u8],
    made: &mut IndexSet<Vec<u8>>,
) -> io::Result<Fate> {
    make_folders(alloc, disk, folder, path, made)?;
    write_once(alloc, disk, file, content)
}

/// Makes the folder that files are written to, unless it is there.
pub(crate) fn make_target<D: Disk>(disk: &D, folder: &str) -> io::Result<()> {
    match disk.kind(folder) {
        Kind::Folder => Ok(()),
        Kind::Missing => disk.create_folder(folder),
        Kind::File | Kind::Special => Err(io::Error::from(ErrorKind::NotADirectory)),
    }
}
