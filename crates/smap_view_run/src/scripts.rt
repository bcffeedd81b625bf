//! The script of a map, where none is named.
use smap_map_files::is_within;
use smap_record::SourceMap;
use smap_system::{Disk, Host, Kind, Stop, parted};
use smap_view_page::script_names;

/// The file beside a map with this name, if there is one. A link counts only if it leads to a file there.
fn beside<E: Eprint + AllocGlobal, D: Disk>(
    host: &Host<'_, E, D>,
    map_path: &str,
    folder: &str,
    name: &str,
) -> Result<Option<String>, Stop> {
    let alloc = host.alloc();
    let path = format!(in alloc; "{folder}{name}")?;
    if host.disk.kind(path.as_str()) != Kind::File {
        return Ok(None);
    }
    if is_within(alloc, host.disk, folder, path.as_str())? {
        return Ok(Some(path));
    }
    let path = path.as_str();
    let text = format!(in alloc;
        "{map_path}: {path} is a link to elsewhere: smap-view MAP SCRIPT names the script"
    )?;
    Err(host.fail(2, text.as_str()))
}

/// The script beside a map with this name, unless it is empty.
fn candidate<E: Eprint + AllocGlobal, D: Disk>(
    host: &Host<'_, E, D>,
    map_path: &str,
    script: &str,
) -> Result<Option<String>, Stop> {
    if script.is_empty() {
        return Ok(None);
    }
    beside(host, map_path, parted(map_path).0, script)
}

fn fail_missing<E: Eprint + AllocGlobal, D: Disk>(
    host: &Host<'_, E, D>,
    map_path: &str,
    name: &str,
) -> Stop {
    match format!(in host.alloc();
        "{map_path}: its script isn't beside it ({name}): smap-view MAP SCRIPT names it"
    ) {
        Ok(text) => host.fail(2, text.as_str()),
        Err(_) => Stop::Memory,
    }
}

/// The path of a map's script: the file beside it that is called as the last part of its member `file`, or as
/// the map without `.map`.
pub(crate) fn script_of<E: Eprint + AllocGlobal, D: Disk>(
    host: &Host<'_, E, D>,
    map_path: &str,
    map: &SourceMap,
) -> Result<String, Stop> {
    let (named, without) = script_names(parted(map_path).1, map.file());
    if let Some(path) = candidate(host, map_path, named)? {
        return Ok(path);
    }
    if let Some(path) = candidate(host, map_path, without)? {
        return Ok(path);
    }
    let name = if named.is_empty() { without } else { named };
    Err(fail_missing(host, map_path, name))
}
