//! A file that gets other bytes.
use smap_system::{BesideFault, Disk, Stamp, create_beside};
use std::alloc::Global;
use std::io::{self, Write};

/// Why a file doesn't get other bytes: it is as it was, or as another program has written it.
#[derive(Clone, Copy, PartialEq, Eq)]
pub enum ReplaceFault {
    /// No file can be made in its folder.
    Folder,
    /// It has a name that none next to it can have, or may not be replaced.
    File,
    /// What it is to hold wasn't written in full.
    NotWritten,
    /// Another program has written it since it was read.
    Changed,
}

/// Writes what a file is to hold, and waits until it is there.
fn write<D: Disk>(disk: &D, writer: &mut D::Writer, text: &[u8]) -> io::Result<()> {
    writer.write_all(text)?;
    writer.flush()?;
    disk.sync(writer)
}

/// Whether a file is what it was; what wasn't looked at before may be anything.
fn is_same<D: Disk>(disk: &D, path: &str, stamp: Option<Stamp>) -> bool {
    match stamp {
        Some(stamp) => disk.stamp(path).is_ok_and(|now| now == stamp),
        None => true,
    }
}

/// Gives a file these bytes: a file beside it is written in full, and then takes its name. If it was this
/// when it was read, it has to be the same still.
///
/// # Errors
///
/// Why it doesn't get them.
pub fn replace_file<D: Disk>(
    alloc: Global,
    disk: &D,
    path: &str,
    stamp: Option<Stamp>,
    text: &[u8],
) -> Result<(), ReplaceFault> {
    let (beside, mut writer) = match create_beside(alloc, disk, path) {
        Ok(made) => made,
        Err(BesideFault::Name(_)) => return Err(ReplaceFault::File),
        Err(BesideFault::Folder(_)) => return Err(ReplaceFault::Folder),
    };
    let written = write(disk, &mut writer, text);
    drop(writer);
    if written.is_err() {
        beside.abandon(disk);
        return Err(ReplaceFault::NotWritten);
    }
    if !is_same(disk, path, stamp) {
        beside.abandon(disk);
        return Err(ReplaceFault::Changed);
    }
    match beside.finish(disk) {
        Ok(()) => Ok(()),
        Err(_) => Err(ReplaceFault::File),
    }
}
