//! Whether a file is one of a folder.
ghost use Rattle.std.specs.Prelude.{◌≡◌};
ghost use Rattle.smap_map_files.specs.Within as spec;

use smap_system::Disk;
use std::alloc::{AllocError, Global};
use std::io::ErrorKind;

/// The path of a file once links are followed, if that can be told.
fn real_path<D: Disk>(alloc: Global, disk: &D, path: &str) -> Result<Option<String>, AllocError> {
    match disk.real_path(alloc, path) {
        Ok(path) => Ok(Some(path)),
        Err(error) if error.kind() == ErrorKind::OutOfMemory => Err(AllocError),
        Err(_) => Ok(None),
    }
}

/// Whether an absolute path is below that of a folder.
fn is_below(folder: &[u8], path: &[u8]) -> bool
    ensures { result ≡ spec.is_below folder.now path.now }
{
    folder == b"/".as_slice()
        || (path.starts_with(folder) && path[folder.len()..].starts_with(b"/"))
}

/// Whether a file stands in a folder or below it once links are followed. The folder's path is empty for the
/// working directory, and `/` for the root.
///
/// # Errors
///
/// Out of memory alone: where a path can't be followed, the file is none of the folder.
pub fn is_within<D: Disk>(
    alloc: Global,
    disk: &D,
    folder: &str,
    file: &str,
) -> Result<bool, AllocError> {
    let folder = if folder.is_empty() { "." } else { folder };
    let Some(folder) = real_path(alloc, disk, folder)? else {
        return Ok(false);
    };
    match real_path(alloc, disk, file)? {
        Some(file) => Ok(is_below(folder.as_bytes(), file.as_bytes())),
        None => Ok(false),
    }
}
