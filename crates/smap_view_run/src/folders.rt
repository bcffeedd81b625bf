//! The scripts of a folder.
use crate::loading::Item;
use smap_system::{Disk, Host, Stop, walk};
use std::alloc::{AllocError, Global};

const ENDINGS: [&str; 4] = [".js", ".mjs", ".cjs", ".css"];

/// A folder's path with a slash at its end.
pub(crate) fn with_slash(alloc: Global, folder: &str) -> Result<String, AllocError> {
    let folder = folder.trim_end_matches('/');
    format!(in alloc; "{folder}/")
}

/// The names of the scripts in a folder and below it, in byte order. `folder` ends in a slash.
pub(crate) fn scripts_in<E: Eprint + AllocGlobal, D: Disk>(
    host: &Host<'_, E, D>,
    given: &str,
    folder: &str,
) -> Result<Vec<String>, Stop> {
    match walk(host.alloc(), host.disk, folder, &ENDINGS) {
        Ok(found) => {
            host.say_unnamed(given, found.unnamed)?;
            Ok(found.names)
        }
        Err(fault) => Err(host.fail_walking(given, fault)),
    }
}

/// The scripts of a folder as items. `folder` ends in a slash.
pub(crate) fn items_in<'a>(
    alloc: Global,
    folder: &'a str,
    names: &'a [String],
) -> Result<Vec<Item<'a>>, AllocError> {
    let mut items = Vec::with_capacity(alloc, names.len())?;
    for name in names {
        items.push(Item::Script {
            folder,
            name: name.as_str(),
            found: true,
        })?;
    }
    Ok(items)
}
