//! What a URL that a script names for its map leads to, on a disk.
ghost use Rattle.std.specs.Prelude.{IfOk};
ghost use Rattle.smap_map_files.specs.Target.{IsTarget, IsTargetFile};

use crate::within::is_within;
use smap_map_choice::{Named, NamedFault, named_by};
use smap_system::{Disk, Kind};
use std::alloc::{AllocError, Global};

/// The folder of a script.
#[derive(Clone, Copy)]
pub struct Home<'a> {
    /// Its path: empty for the working directory, and with a slash at its end for any other.
    pub path: &'a str,
    /// Its URL, with a slash at its end.
    pub url: &'a [u8],
}

/// What the URL that a script names for its map leads to.
#[derive(Drop)]
pub enum Target {
    /// The map itself.
    Inline(Vec<u8>),
    /// A file of the script's folder, by its name there.
    File(String),
    /// No file that is there: the name in the folder that it would have, and why.
    Absent(Vec<u8>, Absence),
    /// Neither.
    Wrong(NamedFault),
}

/// Why there is no file of a folder with a name.
#[derive(Clone, Copy, PartialEq, Eq)]
pub enum Absence {
    /// Nothing has the name.
    Missing,
    /// What has it is a folder, a pipe or a device.
    NoFile,
    /// A link leads out of the folder.
    Outside,
}

/// The file with this name in a folder.
fn file_target<D: Disk>(
    alloc: Global,
    disk: &D,
    folder: &str,
    name: Vec<u8>,
) -> Result<Target, AllocError>
    ensures { IfOk result (IsTargetFile name.items) }
{
    let name = match String::from_utf8(name) {
        Ok(name) => name,
        Err(error) => return Ok(Target::Absent(error.into_bytes(), Absence::Missing)),
    };
    let path = name.as_str();
    let path = format!(in alloc; "{folder}{path}")?;
    let path = path.as_str();
    let why = match disk.kind(path) {
        Kind::Missing => Absence::Missing,
        Kind::Folder | Kind::Special => Absence::NoFile,
        Kind::File if is_within(alloc, disk, folder, path)? => return Ok(Target::File(name)),
        Kind::File => Absence::Outside,
    };
    Ok(Target::Absent(name.into_bytes(), why))
}

/// What the script with this name in a folder names for its map by this URL: the map itself, or a file of the
/// folder that is there, and is below it once links are followed.
///
/// # Errors
///
/// Out of memory alone.
pub fn target_of<D: Disk>(
    alloc: Global,
    disk: &D,
    home: Home<'_>,
    name: &[u8],
    url: &[u8],
) -> Result<Target, AllocError>
    ensures { IfOk result (IsTarget home.entry.url.now name.now url.now) }
{
    match named_by(alloc, home.url, name, url)? {
        Named::Inline(bytes) => Ok(Target::Inline(bytes)),
        Named::File(found) => file_target(alloc, disk, home.path, found),
        Named::Wrong(why) => Ok(Target::Wrong(why)),
        Named::Nothing => unreachable!(),
    }
}
