//! The files of maps, read.
ghost use Rattle.std.specs.Prelude.{IfOk};
ghost use Rattle.smap_map_files.specs.Given.{IsContent, IsLoaded, IsMadeOf, IsRead, IsUnreadBy};
ghost use Rattle.smap_map_choice.specs.PlaceView.{place_in};

use crate::map_text::MapText;
use crate::may_name_map;
use smap_fault_places::detail;
use smap_map_choice::Place;
use smap_record::{Base, BaseFault, Fault, ReadError, SourceMap};
use smap_system::{Disk, FileFault, Kind, LIMIT, read_file};
use std::alloc::{AllocError, Global};

/// Why a file gives no map.
#[derive(Drop)]
pub enum MapFault {
    /// It can't be read.
    Unread,
    /// It is longer than what is read.
    TooLong,
    /// The URL of its script, or its own, isn't UTF-8.
    NotUtf8,
    /// Its base is no URL.
    NotUrl,
    /// It is a script, and what it names for its map is none: this, in words.
    Link(String),
    /// It isn't accepted; what follows the message of its fault.
    Refused(Fault, String),
    /// The URLs of its sources take more than this many bytes, which are allowed.
    UrlBytes(usize),
}

/// How the texts of maps are read.
#[derive(Clone, Copy)]
pub struct Reading {
    /// How many bytes the URLs of a map's sources may take.
    pub url_bytes: usize,
    /// Whether one that is refused is mended, if the closed list of repairs suffices.
    pub mends: bool,
    /// Whether the maps that its sources lead to are followed.
    pub chains: bool,
}

/// What a file gives for a map.
#[derive(Drop)]
pub enum Loaded {
    /// The map.
    Map(SourceMap),
    /// That of its mended text, and why it is refused as it is.
    Mended(SourceMap, MapFault),
    /// None, and why.
    Broken(MapFault),
}

/// What a file holds.
#[derive(Drop)]
pub enum Content {
    /// Bytes, to be read as a map.
    Bytes(Vec<u8>),
    /// The text of a script, which may name its map.
    Script(Vec<u8>),
    /// It can't be read.
    Unread(MapFault),
}

/// The map that these bytes are, or their mended text is, or what is wrong with them; `is_file` says whether
/// they are all that a file holds.
pub(crate) fn loaded_from(
    alloc: Global,
    bytes: &[u8],
    base: &[u8],
    reading: Reading,
    is_file: bool,
) -> Result<Loaded, AllocError>
    ensures { IfOk result (IsRead reading base.now bytes.now) }
{
    let Ok(base) = std::str::from_utf8(base) else {
        return Ok(Loaded::Broken(MapFault::NotUtf8));
    };
    let base = match Base::new(alloc, base) {
        Ok(base) => base,
        Err(BaseFault::NotUrl) => return Ok(Loaded::Broken(MapFault::NotUrl)),
        Err(BaseFault::Memory) => return Err(AllocError),
    };
    let text = MapText {
        bytes,
        base: &base,
        url_bytes: reading.url_bytes,
        is_file,
    };
    match text.read(alloc, bytes) {
        Ok(Some(map)) => Ok(Loaded::Map(map)),
        Ok(None) => Ok(Loaded::Broken(MapFault::UrlBytes(reading.url_bytes))),
        Err(ReadError::Refused(fault)) => {
            if !reading.mends {
                let said = text.detail(alloc, &fault)?;
                return Ok(Loaded::Broken(MapFault::Refused(fault, said)));
            }
            let said = detail(alloc, bytes, &fault)?;
            let why = MapFault::Refused(fault, said);
            match text.mended(alloc)? {
                Some(map) => Ok(Loaded::Mended(map, why)),
                None => Ok(Loaded::Broken(why)),
            }
        }
        Err(ReadError::Memory) => Err(AllocError),
    }
}

/// Why a file isn't read.
fn unread(fault: FileFault) -> Result<MapFault, AllocError>
    ensures { IfOk result IsUnreadBy }
{
    match fault {
        FileFault::TooLong => Ok(MapFault::TooLong),
        FileFault::Read(_) => Ok(MapFault::Unread),
        FileFault::Memory => Err(AllocError),
    }
}

/// The map that a file is, whatever its name, or what is wrong with it.
pub(crate) fn load_map<D: Disk>(
    alloc: Global,
    disk: &D,
    place: &Place,
    reading: Reading,
) -> Result<Loaded, AllocError>
    ensures { IfOk result (IsMadeOf (IsLoaded reading) (D.held disk.now) (place_in place.now)) }
{
    let Ok(file) = std::str::from_utf8(&place.file) else {
        return Ok(Loaded::Broken(MapFault::Unread));
    };
    match read_file(alloc, disk, file, LIMIT) {
        Ok(bytes) => loaded_from(alloc, &bytes, &place.base, reading, true),
        Err(fault) => Ok(Loaded::Broken(unread(fault)?)),
    }
}

/// What a file holds, read whole.
pub(crate) fn load<D: Disk>(alloc: Global, disk: &D, place: &Place) -> Result<Content, AllocError>
    ensures { IfOk result (IsMadeOf IsContent (D.held disk.now) (place_in place.now)) }
{
    let Ok(file) = std::str::from_utf8(&place.file) else {
        return Ok(Content::Unread(MapFault::Unread));
    };
    match read_file(alloc, disk, file, LIMIT) {
        Ok(bytes) if may_name_map(&place.file) && disk.kind(file) == Kind::File => {
            Ok(Content::Script(bytes))
        }
        Ok(bytes) => Ok(Content::Bytes(bytes)),
        Err(fault) => Ok(Content::Unread(unread(fault)?)),
    }
}
