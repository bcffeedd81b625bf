//! The file next to a script that gets the map within it.
use crate::comments::set_comment;
use crate::data::map_reference;
use crate::reading::named_file;
use crate::refusal::Refusal;
use crate::replacing::replace_file;
use smap_system::{Disk, Kind, LIMIT, parted, read_file};
use std::alloc::Global;

/// A script without the map that it had, and that map.
#[derive(Drop)]
pub(crate) struct Outlined {
    pub(crate) text: Vec<u8>,
    /// The path of the file for the map.
    pub(crate) file: String,
    pub(crate) map: Vec<u8>,
}

/// Refuses a path that has another file than one with these bytes.
fn check_free<D: Disk>(alloc: Global, disk: &D, path: &str, map: &[u8]) -> Result<(), Refusal> {
    match disk.kind(path) {
        Kind::Missing => Ok(()),
        Kind::File if read_file(alloc, disk, path, LIMIT)?.as_slice() == map => Ok(()),
        _ => Err(Refusal::Taken),
    }
}

/// A script at this path that names the file next to it, in place of the map within it.
pub(crate) fn outline_of<D: Disk>(
    alloc: Global,
    disk: &D,
    script: &str,
    text: &[u8],
    map: Vec<u8>,
) -> Result<Outlined, Refusal> {
    let (_, name) = parted(script);
    let file = format!(in alloc; "{script}.map")?;
    let beside = format!(in alloc; "{name}.map")?;
    let url = map_reference(alloc, beside.as_bytes())?;
    if named_file(alloc, name, &url)?.as_str() != beside.as_str() {
        return Err(Refusal::Unread);
    }
    check_free(alloc, disk, file.as_str(), &map)?;
    let edited = set_comment(alloc, name.as_bytes(), text, &url)?;
    Ok(Outlined {
        text: edited.text,
        file,
        map,
    })
}

/// Writes the file for the map, so that it is there before a script names it.
pub(crate) fn write_map<D: Disk>(
    alloc: Global,
    disk: &D,
    outlined: &Outlined,
) -> Result<(), Refusal> {
    let file = outlined.file.as_str();
    Ok(replace_file(alloc, disk, file, None, &outlined.map)?)
}
