//! The maps that the paths name, with their URLs.
ghost use Rattle.std.specs.Prelude.{◌≡◌, ◌++◌, ◌∷◌, [], IfOk, OnOk, map, string_bytes};
ghost use Rattle.smap_maps_run.specs.Targets.{AreMapsIn, NamesAll, NamesFolder, NamesPath, files_of};
ghost use Rattle.smap_maps_run.specs.Targets.{paths_below};

use smap_link::script_url;
use smap_lint_run::{refuse_empty, refuse_path};
use smap_map_files::{Home, folder_url, without_slashes};
use smap_system::{Disk, Host, Kind, Stop, joined, parted, walk};
use std::alloc::{AllocError, Global};

/// A map to be looked at.
#[derive(Drop)]
pub(crate) struct Target {
    /// Its file, as it was given or found below a folder.
    pub(crate) file: String,
    /// Its URL, against which its sources are resolved.
    pub(crate) url: Vec<u8>,
    /// How many bytes of these two are the path and the URL of its folder.
    folder: (usize, usize),
}

/// The text that so many bytes of a text are.
fn front(text: &[u8], count: usize) -> &str {
    let front = text.get(..count).unwrap_or(&[]);
    std::str::from_utf8(front).unwrap_or("")
}

impl Target {
    /// The folder in which it was found, or that it is in, if it was given by itself.
    pub(crate) fn home(&self) -> Home<'_> {
        let (path, url) = self.folder;
        Home {
            path: front(self.file.as_str().as_bytes(), path),
            url: front(&self.url, url).as_bytes(),
        }
    }

    /// The URL of the script of which it is the map by its name.
    pub(crate) fn script(&self) -> &str {
        let url = std::str::from_utf8(&self.url).unwrap_or("");
        url.strip_suffix(".map").unwrap_or(url)
    }
}

fn add(
    alloc: Global,
    folder_url: &[u8],
    name: &str,
    file: String,
    targets: &mut Vec<Target>,
) -> Result<(), AllocError>
    ensures { OnOk result (files_of targets.new.items
        ≡ files_of targets.old.items ++ string_bytes file ∷ []) }
{
    let url = script_url(alloc, folder_url, name.as_bytes())?;
    let path = file.as_str().len().saturating_sub(name.len());
    let folder = (path, folder_url.len());
    targets.push(Target { file, url, folder })?;
    Ok(())
}

/// The names of the maps in a folder and below it, in byte order. A folder without any is refused.
fn names_in<E: Eprint + AllocGlobal, D: Disk>(
    host: &Host<'_, E, D>,
    given: &str,
    folder: &str,
) -> Result<Vec<String>, Stop>
    ensures { IfOk result (λ names. AreMapsIn (D.tree host.now.disk.now) folder.now names.items) }
{
    let alloc = host.alloc();
    let found = match walk(alloc, host.disk, folder, &[".map"]) {
        Ok(found) => found,
        Err(fault) => return Err(host.fail_walking(given, fault)),
    };
    host.say_unnamed(given, found.unnamed)?;
    if !found.names.is_empty() {
        return Ok(found.names);
    }
    Err(refuse_empty(host, given, "*.map", found.only_links))
}

/// Adds maps with these names below a folder.
fn add_below(
    alloc: Global,
    folder_url: &[u8],
    folder: &str,
    names: &[String],
    targets: &mut Vec<Target>,
) -> Result<(), AllocError>
    ensures { OnOk result (files_of targets.new.items
        ≡ files_of targets.old.items ++ paths_below folder.now names.now) }
{
    for name in names {
        let name = name.as_str();
        let file = joined(alloc, folder, name)?;
        add(alloc, folder_url, name, file, targets)?;
    }
    Ok(())
}

/// Adds the maps in a folder and below it.
fn add_folder<E: Eprint + AllocGlobal, D: Disk>(
    host: &Host<'_, E, D>,
    base: Option<&str>,
    given: &str,
    targets: &mut Vec<Target>,
) -> Result<(), Stop>
    ensures { OnOk result (NamesFolder (D.tree host.now.disk.now) given.now targets.old.items
        targets.new.items) }
{
    let folder = without_slashes(given);
    let names = names_in(host, given, folder)?;
    let url = folder_url(host, base, folder)?;
    add_below(host.alloc(), &url, folder, &names, targets)?;
    Ok(())
}

/// Adds a map by itself.
fn add_file<E: Eprint + AllocGlobal, D: Disk>(
    host: &Host<'_, E, D>,
    base: Option<&str>,
    given: &str,
    targets: &mut Vec<Target>,
) -> Result<(), Stop>
    ensures { OnOk result (files_of targets.new.items ≡ files_of targets.old.items ++ given.now ∷ []) }
{
    let alloc = host.alloc();
    let (folder, name) = parted(given);
    let url = folder_url(host, base, folder)?;
    let file = String::from_str(alloc, given)?;
    Ok(add(alloc, &url, name, file, targets)?)
}

/// Adds what a path names.
fn add_path<E: Eprint + AllocGlobal, D: Disk>(
    host: &Host<'_, E, D>,
    base: Option<&str>,
    given: &str,
    targets: &mut Vec<Target>,
) -> Result<(), Stop>
    ensures { OnOk result (NamesPath (D.tree host.now.disk.now) given.now targets.old.items
        targets.new.items) }
{
    match host.disk.kind(given) {
        Kind::Folder => add_folder(host, base, given, targets),
        Kind::File => add_file(host, base, given, targets),
        kind => Err(refuse_path(host, given, kind)),
    }
}

/// The maps that the paths name, in their order, those of a folder in byte order of their names below it.
pub(crate) fn targets_of<E: Eprint + AllocGlobal, D: Disk>(
    host: &Host<'_, E, D>,
    base: Option<&str>,
    paths: &[&str],
) -> Result<Vec<Target>, Stop>
    ensures { IfOk result (λ targets. NamesAll (D.tree host.now.disk.now) (map (λ p. p.now) paths.now) []
        targets.items) }
{
    let mut targets = Vec::new(host.alloc());
    for path in paths {
        add_path(host, base, *path, &mut targets)?;
    }
    Ok(targets)
}
