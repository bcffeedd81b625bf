//! The scripts that the paths name.
use smap_system::{Disk, Host, Kind, Stop, joined, walk};
use std::alloc::AllocError;

/// The ends of the names of scripts and style sheets.
const ENDINGS: [&str; 4] = [".js", ".mjs", ".cjs", ".css"];

/// Adds the scripts in a folder and below it, in byte order of their names.
fn add_folder<E: Eprint + AllocGlobal, D: Disk>(
    host: &Host<'_, E, D>,
    folder: &str,
    scripts: &mut Vec<String>,
) -> Result<(), Stop> {
    let alloc = host.alloc();
    let found = match walk(alloc, host.disk, folder, &ENDINGS) {
        Ok(found) => found,
        Err(fault) => return Err(host.fail_walking(folder, fault)),
    };
    host.say_unnamed(folder, found.unnamed)?;
    for name in &found.names {
        scripts.push(joined(alloc, folder, name.as_str())?)?;
    }
    Ok(())
}

/// Adds what a path names.
fn add_path<E: Eprint + AllocGlobal, D: Disk>(
    host: &Host<'_, E, D>,
    path: &str,
    scripts: &mut Vec<String>,
) -> Result<(), Stop> {
    match host.disk.kind(path) {
        Kind::Folder => add_folder(host, path, scripts),
        Kind::File => {
            scripts.push(String::from_str(host.alloc(), path)?)?;
            Ok(())
        }
        Kind::Missing => Err(host.fail_with(2, "no such file or folder", path)),
        Kind::Special => Err(host.fail_with(2, "neither a file nor a folder", path)),
    }
}

/// The scripts that the paths name, in their order.
pub(crate) fn scripts_of<E: Eprint + AllocGlobal, D: Disk>(
    host: &Host<'_, E, D>,
    paths: &[&str],
) -> Result<Vec<String>, Stop> {
    let mut scripts = Vec::new(host.alloc());
    for path in paths {
        add_path(host, *path, &mut scripts)?;
    }
    Ok(scripts)
}
