//! The file that a script names for its map, as far as it is one of its folder.
use crate::refusal::Refusal;
use serde_json::{Value, from_slice};
use smap_map_choice::{Named, named_by};
use smap_shape::{json_text, shape};
use smap_system::{Disk, Kind, LIMIT, parted, read_file};
use std::alloc::{AllocError, Global};

/// A URL for the folder of a script: what a script names is a file of its folder under any.
const FOLDER: &[u8] = b"file:///folder/";

/// The name of the file of its folder to which this URL leads from the script with this name.
pub(crate) fn named_file(alloc: Global, name: &str, url: &[u8]) -> Result<String, Refusal> {
    match named_by(alloc, FOLDER, name.as_bytes(), url)? {
        Named::File(found) => match String::from_utf8(found) {
            Ok(found) => Ok(found),
            Err(_) => Err(Refusal::Absent),
        },
        Named::Inline(_) | Named::Wrong(_) | Named::Nothing => Err(Refusal::Elsewhere),
    }
}

/// Whether these bytes have the members of a map.
fn has_shape(alloc: Global, bytes: &[u8]) -> Result<bool, AllocError> {
    let Some(text) = json_text(bytes) else {
        return Ok(false);
    };
    match from_slice::<Value>(alloc, text) {
        Ok(tree) => Ok(shape(&tree).is_ok()),
        Err(_) => Ok(false),
    }
}

/// The bytes of the map that a script at this path names by this URL.
pub(crate) fn map_bytes<D: Disk>(
    alloc: Global,
    disk: &D,
    script: &str,
    url: &[u8],
) -> Result<Vec<u8>, Refusal> {
    let (folder, name) = parted(script);
    let found = named_file(alloc, name, url)?;
    let found = found.as_str();
    let path = format!(in alloc; "{folder}{found}")?;
    if disk.kind(path.as_str()) != Kind::File {
        return Err(Refusal::Absent);
    }
    let bytes = read_file(alloc, disk, path.as_str(), LIMIT)?;
    if has_shape(alloc, &bytes)? {
        Ok(bytes)
    } else {
        Err(Refusal::NotMap)
    }
}
