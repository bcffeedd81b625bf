//! A folder and the names of its files.
use crate::refusing::{refuse_empty, refuse_path};
use smap_chains::has_no_size;
use smap_link::file_url;
use smap_system::{Disk, FileFault, Host, Kind, LIMIT, Stop, parted, read_file, reason, walk};
use std::alloc::{AllocError, Global};
use std::io::ErrorKind;

const ENDINGS: [&str; 5] = [".js", ".mjs", ".cjs", ".css", ".map"];

/// A folder, and the names of the scripts and maps below it, in byte order.
#[derive(Drop)]
pub(crate) struct Folder {
    /// Its path, with a slash at its end.
    pub(crate) path: String,
    /// Whether its names are all that it has, and not those of one file that was given and its script or map.
    pub(crate) is_whole: bool,
    /// Its file: URL once links are followed, with a slash at its end.
    pub(crate) url: String,
    pub(crate) names: Vec<String>,
}

/// The names of the scripts and maps in a folder and below it. A folder without any is refused.
fn names_in<E: Eprint + AllocGlobal, D: Disk>(
    host: &Host<'_, E, D>,
    given: &str,
) -> Result<Vec<String>, Stop> {
    match walk(host.alloc(), host.disk, given, &ENDINGS) {
        Ok(found) => {
            host.say_unnamed(given, found.unnamed)?;
            if found.names.is_empty() {
                let wanted = "*.js, *.mjs, *.cjs, *.css or *.map";
                return Err(refuse_empty(host, given, wanted, found.only_links));
            }
            Ok(found.names)
        }
        Err(fault) => Err(host.fail_walking(given, fault)),
    }
}

/// The URL of a folder, with a slash at its end.
fn url_of<E: Eprint + AllocGlobal, D: Disk>(
    host: &Host<'_, E, D>,
    given: &str,
) -> Result<String, Stop> {
    let alloc = host.alloc();
    let path = match host.disk.real_path(alloc, given) {
        Ok(path) => path,
        Err(error) if error.kind() == ErrorKind::OutOfMemory => return Err(Stop::Memory),
        Err(error) => return Err(host.fail_for(given, &error)),
    };
    match file_url(alloc, path.as_bytes()) {
        Ok(Some(mut url)) => {
            if !url.as_str().ends_with('/') {
                url.push_str("/")?;
            }
            Ok(url)
        }
        Ok(None) => Err(host.fail_with(3, given, "has no path")),
        Err(_) => Err(Stop::Memory),
    }
}

/// The names in a folder of a script and its map, of which this is one: those that are files.
fn pair_names<D: Disk>(
    alloc: Global,
    disk: &D,
    folder: &str,
    name: &str,
) -> Result<Vec<String>, AllocError> {
    let script = name.strip_suffix(".map").unwrap_or(name);
    let map = format!(in alloc; "{script}.map")?;
    let mut names = Vec::new(alloc);
    for name in [script, map.as_str()] {
        let path = format!(in alloc; "{folder}{name}")?;
        if disk.kind(path.as_str()) == Kind::File {
            let name = String::from_str(alloc, name)?;
            if names.push(name).is_err() {
                return Err(AllocError);
            }
        }
    }
    Ok(names)
}

impl Folder {
    /// A folder with these names, and a path without a slash at its end: the root's is empty.
    fn with<E: Eprint + AllocGlobal, D: Disk>(
        host: &Host<'_, E, D>,
        path: &str,
        names: Vec<String>,
        is_whole: bool,
    ) -> Result<Folder, Stop> {
        let url = url_of(host, if path.is_empty() { "/" } else { path })?;
        let path = format!(in host.alloc(); "{path}/")?;
        Ok(Folder {
            path,
            is_whole,
            url,
            names,
        })
    }

    /// The folder with this path, or the one of the file with this path, with that file alone and its script
    /// or map.
    pub(crate) fn new<E: Eprint + AllocGlobal, D: Disk>(
        host: &Host<'_, E, D>,
        given: &str,
    ) -> Result<Folder, Stop> {
        match host.disk.kind(given) {
            Kind::File => {
                let (folder, name) = parted(given);
                let names = pair_names(host.alloc(), host.disk, folder, name)?;
                let path = folder.strip_suffix('/').unwrap_or(".");
                Folder::with(host, path, names, false)
            }
            Kind::Folder => {
                let names = names_in(host, given)?;
                Folder::with(host, given.trim_end_matches('/'), names, true)
            }
            kind => Err(refuse_path(host, given, kind)),
        }
    }

    /// The path of the file with this name.
    pub(crate) fn file(&self, alloc: Global, name: &str) -> Result<String, AllocError> {
        let path = self.path.as_str();
        format!(in alloc; "{path}{name}")
    }

    /// The number of the file with this name.
    pub(crate) fn number(&self, name: &str) -> Option<usize> {
        match self
            .names
            .binary_search_by(|other| other.as_str().cmp(name))
        {
            Ok(number) => Some(number),
            Err(_) => None,
        }
    }
}

/// What a file holds; none if it can't be read, which is said.
pub(crate) fn read<E: Eprint + AllocGlobal, D: Disk>(
    host: &Host<'_, E, D>,
    path: &str,
) -> Result<Option<Vec<u8>>, Stop> {
    let alloc = host.alloc();
    if has_no_size(host.disk, path) {
        return Ok(Some(Vec::new(alloc)));
    }
    match read_file(alloc, host.disk, path, LIMIT) {
        Ok(bytes) => Ok(Some(bytes)),
        Err(FileFault::Memory) => Err(Stop::Memory),
        Err(FileFault::TooLong) => {
            host.say_of(path, "input too long");
            Ok(None)
        }
        Err(FileFault::Read(error)) => {
            let why = reason(alloc, &error)?;
            host.say_of(path, why.as_str());
            Ok(None)
        }
    }
}
