//! The one debug id that a script and the map in its folder get.
use crate::deciding::Deed;
use crate::ids::{made_id, set_debug_id, set_map_id};
use crate::reading::named_file;
use crate::refusal::Refusal;
use crate::replacing::replace_file;
use smap_link::{is_data, link_in};
use smap_lint_rules::{debug_id, id_member, same_id};
use smap_record::{ReadError, map_tree};
use smap_shape::shape;
use smap_system::{Disk, Kind, LIMIT, Stamp, parted, read_file};
use std::alloc::Global;

/// How many bytes an id has at most that is copied.
const LONGEST: usize = 64;

/// How many bytes a comment or a member with an id has at most.
const ROOM: u64 = 128;

/// The map of a script, and its file.
#[derive(Drop)]
struct MapFile {
    path: String,
    stamp: Stamp,
    bytes: Vec<u8>,
}

/// What a script and its map become: nothing where one stays as it is.
#[derive(Drop)]
pub(crate) struct Identified {
    script: Option<Vec<u8>>,
    map: Option<Vec<u8>>,
    /// The file of the map, and what it was when it was read.
    file: String,
    stamp: Stamp,
}

/// Refuses a path that is a link: what it leads to may be anywhere.
fn check_own<D: Disk>(alloc: Global, disk: &D, path: &str) -> Result<(), Refusal> {
    match disk.link(alloc, path) {
        Ok(None) => Ok(()),
        _ => Err(Refusal::Link),
    }
}

/// The file that a script at this path names by a URL.
fn named_path(alloc: Global, script: &str, url: &[u8]) -> Result<String, Refusal> {
    if is_data(url) {
        return Err(Refusal::Within);
    }
    let (folder, name) = parted(script);
    let found = named_file(alloc, name, url)?;
    let found = found.as_str();
    Ok(format!(in alloc; "{folder}{found}")?)
}

/// The file of the map of a script: what it names, or if it names nothing, the file next to it.
fn map_path<D: Disk>(
    alloc: Global,
    disk: &D,
    script: &str,
    text: &[u8],
) -> Result<String, Refusal> {
    let (_, name) = parted(script);
    let (path, none) = match link_in(name.as_bytes(), text) {
        Some(url) => (named_path(alloc, script, url)?, Refusal::Absent),
        None => (format!(in alloc; "{script}.map")?, Refusal::NoMap),
    };
    if disk.kind(path.as_str()) == Kind::File {
        Ok(path)
    } else {
        Err(none)
    }
}

/// The map of a script at this path, with this text.
fn map_file<D: Disk>(
    alloc: Global,
    disk: &D,
    script: &str,
    text: &[u8],
) -> Result<MapFile, Refusal> {
    let path = map_path(alloc, disk, script, text)?;
    check_own(alloc, disk, path.as_str())?;
    let Ok(stamp) = disk.stamp(path.as_str()) else {
        return Err(Refusal::Unreadable);
    };
    let bytes = read_file(alloc, disk, path.as_str(), LIMIT)?;
    Ok(MapFile { path, stamp, bytes })
}

/// The id that a map has.
fn id_in_map(alloc: Global, map: &[u8]) -> Result<Option<String>, Refusal> {
    let tree = match map_tree(alloc, map) {
        Ok(tree) => tree,
        Err(ReadError::Refused(_)) => return Err(Refusal::NotMap),
        Err(ReadError::Memory) => return Err(Refusal::Memory),
    };
    if shape(&tree).is_err() {
        return Err(Refusal::NotMap);
    }
    let Some(member) = id_member(&tree) else {
        return Ok(None);
    };
    match member.as_str() {
        Some(id) => Ok(Some(String::from_str(alloc, id)?)),
        None => Err(Refusal::OddId),
    }
}

/// Whether an id can be copied: it has nothing but letters, digits and hyphens.
fn is_plain(id: &[u8]) -> bool {
    !id.is_empty()
        && id.len() <= LONGEST
        && id.iter().all(|b| b.is_ascii_alphanumeric() || *b == b'-')
}

/// Refuses an id that can't be copied into a file of this size.
fn check_copied(id: &[u8], file: &[u8]) -> Result<(), Refusal> {
    if !is_plain(id) {
        Err(Refusal::OddId)
    } else if file.len() as u64 + ROOM > LIMIT {
        Err(Refusal::TooLong)
    } else {
        Ok(())
    }
}

fn with_id(alloc: Global, path: &str, text: &[u8], id: &[u8]) -> Result<Vec<u8>, Refusal> {
    check_copied(id, text)?;
    let (_, name) = parted(path);
    Ok(set_debug_id(alloc, name.as_bytes(), text, id)?.text)
}

fn map_with_id(alloc: Global, map: &[u8], id: &[u8]) -> Result<Vec<u8>, Refusal> {
    check_copied(id, map)?;
    Ok(set_map_id(alloc, map, id)?.text)
}

/// A script and a map that get an id made of both.
fn identify_anew(
    alloc: Global,
    path: &str,
    text: &[u8],
    map: MapFile,
) -> Result<Identified, Refusal> {
    let id = made_id(alloc, text, &map.bytes)?;
    let script = with_id(alloc, path, text, &id)?;
    let bytes = map_with_id(alloc, &map.bytes, &id)?;
    Ok(Identified {
        script: Some(script),
        map: Some(bytes),
        file: map.path,
        stamp: map.stamp,
    })
}

/// A script and a map, one of which has no id at least.
fn identify(
    alloc: Global,
    path: &str,
    text: &[u8],
    map: MapFile,
    of_map: Option<String>,
) -> Result<Identified, Refusal> {
    let (script, bytes) = match (debug_id(text), of_map) {
        (Some(id), _) => (None, Some(map_with_id(alloc, &map.bytes, id)?)),
        (None, Some(id)) => (Some(with_id(alloc, path, text, id.as_bytes())?), None),
        (None, None) => return identify_anew(alloc, path, text, map),
    };
    Ok(Identified {
        script,
        map: bytes,
        file: map.path,
        stamp: map.stamp,
    })
}

/// Whether both ids are one, if both are there.
fn are_one(of_script: Option<&[u8]>, of_map: &Option<String>) -> Option<bool> {
    match (of_script, of_map) {
        (Some(one), Some(other)) => Some(same_id(one, other.as_bytes())),
        _ => None,
    }
}

/// What becomes of a script at this path, with this text, and of its map.
pub(crate) fn identity_of<D: Disk>(
    alloc: Global,
    disk: &D,
    path: &str,
    text: &[u8],
) -> Result<Deed, Refusal> {
    check_own(alloc, disk, path)?;
    let map = map_file(alloc, disk, path, text)?;
    let of_map = id_in_map(alloc, &map.bytes)?;
    match are_one(debug_id(text), &of_map) {
        Some(true) => Ok(Deed::Nothing),
        Some(false) => Err(Refusal::OtherId),
        None => Ok(Deed::Identify(identify(alloc, path, text, map, of_map)?)),
    }
}

/// Writes the map, and then the script, which was this when it was read.
pub(crate) fn write_both<D: Disk>(
    alloc: Global,
    disk: &D,
    path: &str,
    stamp: Stamp,
    identified: &Identified,
) -> Result<(), Refusal> {
    if let Some(map) = &identified.map {
        let file = identified.file.as_str();
        replace_file(alloc, disk, file, Some(identified.stamp), map)?;
    }
    if let Some(text) = &identified.script {
        replace_file(alloc, disk, path, Some(stamp), text)?;
    }
    Ok(())
}
