//! A map and its script, read.
use crate::files::{read_named, text_of};
use crate::refusals::place_of;
use crate::scripts::script_of;
use serde_json::Value;
use smap_link::{FileKind, file_kind, script_url};
use smap_map_files::{Home, LinkProblem, MapText, ScriptMap, folder_url, is_within, map_of};
use smap_record::{Base, BaseFault, Fault, Limits, ReadError, SourceMap};
use smap_system::{Disk, Host, Stop, parted};
use smap_view_page::code_length;
use std::alloc::Global;

/// How maps are read.
#[derive(Clone, Copy)]
pub(crate) struct Reading<'a> {
    /// The URL of the folder, with a slash at its end, if one is given.
    pub(crate) base: Option<&'a str>,
    /// How many bytes the URLs of a map's sources may take.
    pub(crate) url_bytes: usize,
}

/// What is to be looked at.
#[derive(Clone, Copy)]
pub(crate) enum Item<'a> {
    /// A map, and its script if that is named.
    Map {
        path: &'a str,
        script: Option<&'a str>,
    },
    /// A script, in this folder or below it.
    Script {
        folder: &'a str,
        name: &'a str,
        /// Whether it was found there: what is named is the folder.
        found: bool,
    },
}

/// What there is to show of a map.
#[derive(Drop)]
pub(crate) enum Content {
    /// The map and its script.
    Map(SourceMap, String),
    /// The fault, and its place or null.
    Refused(String, Value),
}

/// A map that was read, and what it and its script are called.
#[derive(Drop)]
pub(crate) struct Loaded {
    /// The name of the map's file.
    pub(crate) map: String,
    pub(crate) url: String,
    /// The name of the script's file; empty where the map is refused.
    pub(crate) script: String,
    /// The path of the script below the folder that is named, or its name.
    pub(crate) place: String,
    /// How many bytes of the script stand before the comment that holds its map.
    pub(crate) code: usize,
    pub(crate) content: Content,
}

/// The bytes of a map, and where they come from.
#[derive(Drop)]
struct Found {
    /// The path of the file that holds it, as messages have it.
    path: String,
    name: String,
    url: String,
    bytes: Vec<u8>,
    /// Whether they are all that the file holds.
    is_file: bool,
}

/// A script that was read before its map.
#[derive(Drop)]
struct Script {
    path: String,
    bytes: Vec<u8>,
    /// How many bytes stand before the comment that holds its map.
    code: usize,
}

/// Says why a map is refused, with words that follow that.
fn refuse<E: Eprint + AllocGlobal, D: Disk>(
    host: &Host<'_, E, D>,
    found: &Found,
    error: &str,
    detail: &str,
) -> Result<(), Stop> {
    let path = found.path.as_str();
    let said = format!(in host.alloc(); "{path}: {error}{detail}")?;
    host.say(said.as_str());
    Ok(())
}

fn refuse_map<E: Eprint + AllocGlobal, D: Disk>(
    host: &Host<'_, E, D>,
    found: &Found,
    base: &Base,
    url_bytes: usize,
    fault: &Fault,
) -> Result<String, Stop> {
    let alloc = host.alloc();
    let error = format!(in alloc; "{fault}")?;
    let text = MapText {
        bytes: &found.bytes,
        base,
        url_bytes,
        is_file: found.is_file,
    };
    let detail = text.detail(alloc, fault)?;
    refuse(host, found, error.as_str(), detail.as_str())?;
    Ok(error)
}

fn refuse_urls<E: Eprint + AllocGlobal, D: Disk>(
    host: &Host<'_, E, D>,
    found: &Found,
    most: usize,
) -> Result<String, Stop> {
    let error = format!(in host.alloc(); "the URLs of its sources take more than {most} bytes")?;
    refuse(host, found, error.as_str(), " (--url-bytes allows more)")?;
    Ok(error)
}

fn base_of<E: Eprint + AllocGlobal, D: Disk>(
    host: &Host<'_, E, D>,
    found: &Found,
) -> Result<Base, Stop> {
    match Base::new(host.alloc(), found.url.as_str()) {
        Ok(base) => Ok(base),
        Err(BaseFault::Memory) => Err(Stop::Memory),
        Err(BaseFault::NotUrl) => Err(host.fail_with(1, found.path.as_str(), "base is no URL")),
    }
}

/// The script: the one that was read before, or that is named, or beside the map.
fn script_for<E: Eprint + AllocGlobal, D: Disk>(
    host: &Host<'_, E, D>,
    map_path: &str,
    map: &SourceMap,
    script: Option<Script>,
    named: Option<&str>,
) -> Result<Script, Stop> {
    let alloc = host.alloc();
    if let Some(script) = script {
        return Ok(script);
    }
    let path = match named {
        Some(path) => String::from_str(alloc, path)?,
        None => script_of(host, map_path, map)?,
    };
    let bytes = read_named(host, path.as_str())?;
    let code = bytes.len();
    Ok(Script { path, bytes, code })
}

/// A map, or why it is refused, which has been said.
#[derive(Drop)]
enum MapRead {
    Map(SourceMap),
    /// The fault, and its place or null.
    Refused(String, Value),
}

/// Reads a map that was found.
fn read_map<E: Eprint + AllocGlobal, D: Disk>(
    host: &Host<'_, E, D>,
    found: &Found,
    base: &Base,
    url_bytes: usize,
) -> Result<MapRead, Stop> {
    let (bytes, limits) = (found.bytes.as_slice(), Limits::usual());
    match SourceMap::from_slice_within(host.alloc(), bytes, base, limits, url_bytes) {
        Ok(Some((map, _))) => Ok(MapRead::Map(map)),
        Ok(None) => {
            let error = refuse_urls(host, found, url_bytes)?;
            Ok(MapRead::Refused(error, Value::Null))
        }
        Err(ReadError::Memory) => Err(Stop::Memory),
        Err(ReadError::Refused(fault)) => {
            let place = place_of(host.alloc(), bytes, &fault)?;
            let error = refuse_map(host, found, base, url_bytes, &fault)?;
            Ok(MapRead::Refused(error, place))
        }
    }
}

/// What there is to show of a map that is refused.
fn with_refused(alloc: Global, found: Found, error: String, place: Value) -> Loaded {
    Loaded {
        map: found.name,
        url: found.url,
        script: String::new(alloc),
        place: String::new(alloc),
        code: 0,
        content: Content::Refused(error, place),
    }
}

/// A script whose text is UTF-8.
#[derive(Drop)]
struct Text {
    name: String,
    text: String,
    /// How many bytes stand before the comment that holds its map.
    code: usize,
}

fn text_in<E: Eprint + AllocGlobal, D: Disk>(
    host: &Host<'_, E, D>,
    script: Script,
) -> Result<Text, Stop> {
    let Script { path, bytes, code } = script;
    let name = String::from_str(host.alloc(), parted(path.as_str()).1)?;
    let text = text_of(host, path.as_str(), bytes)?;
    Ok(Text { name, text, code })
}

/// The text of a map's script, which is read unless it was before.
fn text_for<E: Eprint + AllocGlobal, D: Disk>(
    host: &Host<'_, E, D>,
    map_path: &str,
    map: &SourceMap,
    script: Option<Script>,
    named: Option<&str>,
) -> Result<Text, Stop> {
    text_in(host, script_for(host, map_path, map, script, named)?)
}

/// What there is to show of a map that was read, with its script, whose place is this.
fn with_text(found: Found, map: SourceMap, text: Text, place: String) -> Loaded {
    let Found { name, url, .. } = found;
    Loaded {
        map: name,
        url,
        script: text.name,
        place,
        code: text.code,
        content: Content::Map(map, text.text),
    }
}

/// What there is to show of a map that was read: its script is read, too.
fn with_script<E: Eprint + AllocGlobal, D: Disk>(
    host: &Host<'_, E, D>,
    found: Found,
    map: SourceMap,
    script: Option<Script>,
    named: Option<&str>,
) -> Result<Loaded, Stop> {
    let text = text_for(host, found.path.as_str(), &map, script, named)?;
    let place = String::from_str(host.alloc(), text.name.as_str())?;
    Ok(with_text(found, map, text, place))
}

/// Reads a map that was found, and its script.
fn load_found<E: Eprint + AllocGlobal, D: Disk>(
    host: &Host<'_, E, D>,
    found: Found,
    url_bytes: usize,
    script: Option<Script>,
    named: Option<&str>,
) -> Result<Loaded, Stop> {
    let base = base_of(host, &found)?;
    match read_map(host, &found, &base, url_bytes)? {
        MapRead::Map(map) => with_script(host, found, map, script, named),
        MapRead::Refused(error, place) => Ok(with_refused(host.alloc(), found, error, place)),
    }
}

/// The URL of the file with this name below a folder.
fn file_url_of<E: Eprint + AllocGlobal, D: Disk>(
    host: &Host<'_, E, D>,
    folder_url: &[u8],
    name: &str,
) -> Result<String, Stop> {
    let url = script_url(host.alloc(), folder_url, name.as_bytes())?;
    match String::from_utf8(url) {
        Ok(url) => Ok(url),
        Err(_) => Err(host.fail_with(3, name, "has no URL")),
    }
}

/// The map in a file.
fn found_in<E: Eprint + AllocGlobal, D: Disk>(
    host: &Host<'_, E, D>,
    home: Home<'_>,
    name: &str,
) -> Result<Found, Stop> {
    let alloc = host.alloc();
    let folder = home.path;
    let path = format!(in alloc; "{folder}{name}")?;
    let bytes = read_named(host, path.as_str())?;
    let url = file_url_of(host, home.url, name)?;
    let name = String::from_str(alloc, parted(name).1)?;
    Ok(Found {
        path,
        name,
        url,
        bytes,
        is_file: true,
    })
}

/// Says that a script has no map; what it names can't be had if there is a problem.
fn fail_alone<E: Eprint + AllocGlobal, D: Disk>(
    host: &Host<'_, E, D>,
    path: &str,
    problem: Option<LinkProblem>,
) -> Stop {
    let what = match problem {
        Some(_) => "the map that it names isn't here",
        None => "it names no map",
    };
    match format!(in host.alloc();
        "{path}: {what}, and none is next to it: smap-view MAP SCRIPT names both"
    ) {
        Ok(text) => host.fail(2, text.as_str()),
        Err(_) => Stop::Memory,
    }
}

/// The map of a script, unless that lies next to it and is a link to elsewhere: a page may be handed on, so
/// it holds nothing from there.
fn own_map<E: Eprint + AllocGlobal, D: Disk>(
    host: &Host<'_, E, D>,
    home: Home<'_>,
    map: ScriptMap,
) -> Result<ScriptMap, Stop> {
    let ScriptMap::Beside(name) = map else {
        return Ok(map);
    };
    let (alloc, folder, file) = (host.alloc(), home.path, name.as_str());
    let path = format!(in alloc; "{folder}{file}")?;
    if is_within(alloc, host.disk, folder, path.as_str())? {
        return Ok(ScriptMap::Beside(name));
    }
    Ok(ScriptMap::Nothing)
}

/// What a script holds. Nobody has named one that was found in a folder, so a link that leads out of it isn't
/// followed.
fn read_script<E: Eprint + AllocGlobal, D: Disk>(
    host: &Host<'_, E, D>,
    home: Home<'_>,
    path: &str,
    found: bool,
) -> Result<Vec<u8>, Stop> {
    if found && !is_within(host.alloc(), host.disk, home.path, path)? {
        let text = format!(in host.alloc(); "{path} is a link to elsewhere")?;
        return Err(host.fail(1, text.as_str()));
    }
    read_named(host, path)
}

/// The map that a script itself holds.
fn found_within<E: Eprint + AllocGlobal, D: Disk>(
    host: &Host<'_, E, D>,
    home: Home<'_>,
    name: &str,
    path: &str,
    map: Vec<u8>,
) -> Result<Found, Stop> {
    let alloc = host.alloc();
    Ok(Found {
        path: String::from_str(alloc, path)?,
        name: String::from_str(alloc, parted(name).1)?,
        url: file_url_of(host, home.url, name)?,
        bytes: map,
        is_file: false,
    })
}

/// The map of a script that was read, with how many bytes of that stand before the comment that holds it.
/// A script that was found in a folder may have none.
fn found_by<E: Eprint + AllocGlobal, D: Disk>(
    host: &Host<'_, E, D>,
    home: Home<'_>,
    name: &str,
    found: bool,
    script: &Script,
) -> Result<Option<(Found, usize)>, Stop> {
    let (map, problem) = map_of(host.alloc(), host.disk, home, name, &script.bytes)?;
    let path = script.path.as_str();
    match own_map(host, home, map)? {
        ScriptMap::Named(map) | ScriptMap::Beside(map) => {
            Ok(Some((found_in(host, home, map.as_str())?, script.code)))
        }
        ScriptMap::Inline(map) => Ok(Some((
            found_within(host, home, name, path, map)?,
            code_length(&script.bytes),
        ))),
        ScriptMap::Nothing if found => Ok(None),
        ScriptMap::Nothing => Err(fail_alone(host, path, problem)),
    }
}

/// The script in a file. None of it is known to be a comment with its map.
fn script_in<E: Eprint + AllocGlobal, D: Disk>(
    host: &Host<'_, E, D>,
    home: Home<'_>,
    name: &str,
    found: bool,
) -> Result<Script, Stop> {
    let folder = home.path;
    let path = format!(in host.alloc(); "{folder}{name}")?;
    let bytes = read_script(host, home, path.as_str(), found)?;
    let code = bytes.len();
    Ok(Script { path, bytes, code })
}

/// Reads a script and its map. One that was found in a folder may have none.
fn load_script<E: Eprint + AllocGlobal, D: Disk>(
    host: &Host<'_, E, D>,
    reading: Reading<'_>,
    home: Home<'_>,
    name: &str,
    found: bool,
) -> Result<Option<Loaded>, Stop> {
    let script = script_in(host, home, name, found)?;
    let Some((map, code)) = found_by(host, home, name, found, &script)? else {
        return Ok(None);
    };
    let Script { path, bytes, .. } = script;
    let script = Some(Script { path, bytes, code });
    let mut loaded = load_found(host, map, reading.url_bytes, script, None)?;
    if found {
        loaded.place = String::from_str(host.alloc(), name)?;
    }
    Ok(Some(loaded))
}

/// Reads what is to be looked at: nothing where a script that was found in a folder has no map.
pub(crate) fn load<E: Eprint + AllocGlobal, D: Disk>(
    host: &Host<'_, E, D>,
    reading: Reading<'_>,
    item: Item<'_>,
) -> Result<Option<Loaded>, Stop> {
    match item {
        Item::Script {
            folder,
            name,
            found,
        } => {
            let url = folder_url(host, reading.base, folder)?;
            let home = Home {
                path: folder,
                url: &url,
            };
            load_script(host, reading, home, name, found)
        }
        Item::Map { path, script } => {
            let (folder, name) = parted(path);
            let url = folder_url(host, reading.base, folder)?;
            let home = Home {
                path: folder,
                url: &url,
            };
            let map = found_in(host, home, name)?;
            Ok(Some(load_found(host, map, reading.url_bytes, None, script)?))
        }
    }
}

/// What a single file is: a script that is followed to its map, unless a script is named with it.
pub(crate) fn item_of<'a>(path: &'a str, script: Option<&'a str>) -> Item<'a> {
    match (file_kind(path.as_bytes()), script) {
        (FileKind::Script | FileKind::StyleSheet, None) => {
            let (folder, name) = parted(path);
            Item::Script {
                folder,
                name,
                found: false,
            }
        }
        _ => Item::Map { path, script },
    }
}
