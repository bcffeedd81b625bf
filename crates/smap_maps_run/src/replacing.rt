//! The file of a map that gets other bytes.
ghost use Rattle.std.specs.Prelude.{string_bytes};
ghost use Rattle.smap_maps_run.specs.Looking.{IsDue};

use crate::Failure;
use crate::looking::Case;
use smap_script_comments::{ReplaceFault, replace_file};
use smap_system::{Disk, Stamp};
use std::alloc::Global;

/// Gives a file these bytes. Where this fails, it is as it was, or as another program has written it.
pub(crate) fn put<D: Disk>(
    alloc: Global,
    disk: &D,
    file: &str,
    stamp: Stamp,
    text: &[u8],
) -> Result<(), Failure> {
    match replace_file(alloc, disk, file, Some(stamp), text) {
        Ok(()) => Ok(()),
        Err(ReplaceFault::Folder) => Err(Failure::Folder),
        Err(ReplaceFault::File) => Err(Failure::Unwritable),
        Err(ReplaceFault::NotWritten) => Err(Failure::NotWritten),
        Err(ReplaceFault::Changed) => Err(Failure::Changed),
    }
}

/// Gives the file of a map, which was this when its bytes were read, the bytes that are due. Where this
/// fails, the file is as it was, or as another program has written it.
pub(crate) fn replace<D: Disk>(case: &Case<'_, D>, stamp: Stamp, text: &[u8]) -> Result<(), Failure>
    requires { IsDue (D.held case.now.disk.now) (string_bytes case.now.target.now.file)
        case.now.target.now.url.items case.now.url_bytes case.now.work text.now }
{
    put(
        case.alloc,
        case.disk,
        case.target.file.as_str(),
        stamp,
        text,
    )
}
