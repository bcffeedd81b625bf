//! The sources of maps, as files.
use crate::judging::map_of;
use crate::looking::plain;
use crate::reporting::write_line;
use crate::targets::{Target, targets_of};
use crate::{Failure, Verdict, remark, said_name, unread};
use smap_command_line::maps::MapsWords;
use smap_extract::{Extraction, Written, write_files};
use smap_link::{FileKind, file_kind, script_url};
use smap_map_files::{Home, MapText, ScriptMap, map_of as map_of_script};
use smap_record::{Base, BaseFault, SourceMap};
use smap_system::{Disk, FileFault, Host, LIMIT, Stop, Watched, parted, read_file};
use std::alloc::{AllocError, Global};
use std::io::Write;

/// The URL of the folder that maps are taken to be in. So the paths of their sources begin there, and not at
/// the root of the file system.
const ROOT: &str = "file:///";

/// The bytes of a map.
#[derive(Drop)]
struct Found {
    /// The file that holds it.
    file: String,
    url: Vec<u8>,
    bytes: Vec<u8>,
    /// Whether it is all that the file holds.
    is_file: bool,
}

pub(crate) fn no_memory() -> Verdict {
    Verdict::Failed(Failure::Memory)
}

/// Says why a map isn't read, and answers the status of that.
pub(crate) fn refuse<E: Eprint + AllocGlobal, D: Disk>(
    host: &Host<'_, E, D>,
    file: &str,
    verdict: Verdict,
) -> Result<u8, Stop> {
    let alloc = host.alloc();
    let outcome = plain(alloc, verdict);
    if let Some(text) = remark(alloc, &outcome)? {
        let name = said_name(alloc, file, &outcome.verdict)?;
        host.say_of(name.as_str(), text.as_str());
    }
    Ok(outcome.verdict.status())
}

pub(crate) fn bytes_of<D: Disk>(alloc: Global, disk: &D, file: &str) -> Result<Vec<u8>, Verdict> {
    match read_file(alloc, disk, file, LIMIT) {
        Ok(bytes) => Ok(bytes),
        Err(FileFault::TooLong) => Err(Verdict::Failed(Failure::TooLong)),
        Err(FileFault::Read(_)) => Err(Verdict::Failed(Failure::Unread)),
        Err(FileFault::Memory) => Err(no_memory()),
    }
}

pub(crate) fn base_of(alloc: Global, url: &[u8]) -> Result<Base, Verdict> {
    let Ok(url) = std::str::from_utf8(url) else {
        return Err(Verdict::NotUrl);
    };
    match Base::new(alloc, url) {
        Ok(base) => Ok(base),
        Err(BaseFault::NotUrl) => Err(Verdict::NotUrl),
        Err(BaseFault::Memory) => Err(no_memory()),
    }
}

/// The map that a text is.
pub(crate) fn map_in(alloc: Global, text: &MapText<'_>) -> Result<SourceMap, Verdict> {
    match map_of(alloc, text.base, text.bytes, text.url_bytes) {
        Ok(Some(map)) => Ok(map),
        Ok(None) => Err(Verdict::LongUrls(text.url_bytes)),
        Err(error) => Err(unread(alloc, text, error)),
    }
}

/// Gathers the contents that a map has.
fn gather(
    alloc: Global,
    found: &Found,
    url_bytes: usize,
    extraction: &mut Extraction,
) -> Result<(), Verdict> {
    let base = base_of(alloc, &found.url)?;
    let text = MapText {
        bytes: &found.bytes,
        base: &base,
        url_bytes,
        is_file: found.is_file,
    };
    let map = map_in(alloc, &text)?;
    match extraction.add_map(alloc, &map) {
        Ok(()) => Ok(()),
        Err(_) => Err(no_memory()),
    }
}

/// The map in the file with this name in a folder.
fn found_in<D: Disk>(alloc: Global, disk: &D, folder: &str, name: &str) -> Result<Found, Verdict> {
    let Ok(file) = format!(in alloc; "{folder}{name}") else {
        return Err(no_memory());
    };
    let Ok(url) = script_url(alloc, ROOT.as_bytes(), name.as_bytes()) else {
        return Err(no_memory());
    };
    let bytes = bytes_of(alloc, disk, file.as_str())?;
    Ok(Found {
        file,
        url,
        bytes,
        is_file: true,
    })
}

/// The map that a script itself holds.
fn found_within(
    alloc: Global,
    script: &str,
    name: &str,
    bytes: Vec<u8>,
) -> Result<Found, AllocError> {
    let file = String::from_str(alloc, script)?;
    let url = script_url(alloc, ROOT.as_bytes(), name.as_bytes())?;
    Ok(Found {
        file,
        url,
        bytes,
        is_file: false,
    })
}

/// The map that a script has, which holds these bytes; none where it has none.
fn found_by<D: Disk>(
    alloc: Global,
    disk: &D,
    script: &str,
    bytes: &[u8],
) -> Result<Option<Found>, Verdict> {
    let (folder, name) = parted(script);
    let home = Home {
        path: folder,
        url: ROOT.as_bytes(),
    };
    let Ok((map, _)) = map_of_script(alloc, disk, home, name, bytes) else {
        return Err(no_memory());
    };
    match map {
        ScriptMap::Named(map) | ScriptMap::Beside(map) => {
            some(found_in(alloc, disk, folder, map.as_str()))
        }
        ScriptMap::Inline(map) => match found_within(alloc, script, name, map) {
            Ok(found) => Ok(Some(found)),
            Err(_) => Err(no_memory()),
        },
        ScriptMap::Nothing => Ok(None),
    }
}

fn some(found: Result<Found, Verdict>) -> Result<Option<Found>, Verdict> {
    match found {
        Ok(found) => Ok(Some(found)),
        Err(verdict) => Err(verdict),
    }
}

/// The map that a target's file, which holds these bytes, is.
fn found_at(alloc: Global, target: &Target, bytes: Vec<u8>) -> Result<Found, AllocError> {
    let file = String::from_str(alloc, target.file.as_str())?;
    let url = Vec::from_slice(alloc, &target.url)?;
    Ok(Found {
        file,
        url,
        bytes,
        is_file: true,
    })
}

fn is_script(file: &str) -> bool {
    matches!(
        file_kind(file.as_bytes()),
        FileKind::Script | FileKind::StyleSheet
    )
}

/// The map that is meant by a target, which may be a script; none where that has none.
fn map_of_target<D: Disk>(
    alloc: Global,
    disk: &D,
    target: &Target,
) -> Result<Option<Found>, Verdict> {
    let file = target.file.as_str();
    let bytes = bytes_of(alloc, disk, file)?;
    if is_script(file) {
        return found_by(alloc, disk, file, &bytes);
    }
    match found_at(alloc, target, bytes) {
        Ok(found) => Ok(Some(found)),
        Err(_) => Err(no_memory()),
    }
}

/// Gathers the contents of a target's map, or says why not. Answers the status of that.
fn gather_target<E: Eprint + AllocGlobal, D: Disk>(
    host: &Host<'_, E, D>,
    target: &Target,
    url_bytes: usize,
    extraction: &mut Extraction,
) -> Result<u8, Stop> {
    let found = match map_of_target(host.alloc(), host.disk, target) {
        Ok(Some(found)) => found,
        Ok(None) => {
            host.say_of(target.file.as_str(), "names no map that is there");
            return Ok(1);
        }
        Err(verdict) => return refuse(host, target.file.as_str(), verdict),
    };
    match gather(host.alloc(), &found, url_bytes, extraction) {
        Ok(()) => Ok(0),
        Err(verdict) => refuse(host, found.file.as_str(), verdict),
    }
}

/// Gathers the contents of all targets' maps. Answers the greatest status.
fn gather_all<E: Eprint + AllocGlobal, D: Disk>(
    host: &Host<'_, E, D>,
    targets: &[Target],
    url_bytes: usize,
    extraction: &mut Extraction,
) -> Result<u8, Stop> {
    let mut worst = 0;
    for target in targets {
        let status = gather_target(host, target, url_bytes, extraction)?;
        worst = worst.max(status);
    }
    Ok(worst)
}

/// Says how many files there are.
fn write_counts<E: Eprint + AllocGlobal, D: Disk, W: Write>(
    host: &Host<'_, E, D>,
    written: Written,
    without: u64,
    writer: &mut Watched<W>,
) -> Result<(), Stop> {
    let (new, kept) = (written.written, written.kept);
    let text = format!(in host.alloc();
        "{new} written, {kept} unchanged, {without} without content"
    )?;
    write_line(host, text.as_str(), writer)
}

/// Writes the contents of sources that the maps of these paths hold as files below a folder. Answers the
/// status of a run that came to its end.
pub(crate) fn extract<E: Eprint + AllocGlobal, D: Disk, W: Write>(
    host: &Host<'_, E, D>,
    asked: &MapsWords<'_>,
    writer: &mut Watched<W>,
) -> Result<u8, Stop> {
    let folder = asked.options.text("output").unwrap_or(".");
    let targets = targets_of(host, Some(ROOT), &asked.paths)?;
    let mut extraction = Extraction::new(host.alloc());
    let status = gather_all(host, &targets, asked.options.url_bytes(), &mut extraction)?;
    let written = write_files(host, folder, &extraction)?;
    write_counts(host, written, extraction.without, writer)?;
    Ok(status.max(written.status))
}
