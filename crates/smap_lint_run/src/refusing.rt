//! Paths that are refused before anything is looked at.
use smap_system::{Disk, Host, Kind, Stop};

/// Says that a path names neither a file nor a folder, with status 2.
pub fn refuse_path<E: Eprint + AllocGlobal, D: Disk>(
    host: &Host<'_, E, D>,
    given: &str,
    kind: Kind,
) -> Stop {
    let what = match kind {
        Kind::Missing => "no such file or folder",
        Kind::Special | Kind::File | Kind::Folder => "neither a file nor a folder",
    };
    host.fail_with(2, what, given)
}

/// Says that a folder holds none of the files that are wanted, with status 2; `only_links` as of a walk.
pub fn refuse_empty<E: Eprint + AllocGlobal, D: Disk>(
    host: &Host<'_, E, D>,
    given: &str,
    wanted: &str,
    only_links: bool,
) -> Stop {
    let why = if only_links {
        ", which holds only links (those to folders aren't followed)"
    } else {
        ""
    };
    match format!(in host.alloc(); "no {wanted} in {given}{why}") {
        Ok(text) => host.fail(2, text.as_str()),
        Err(_) => Stop::Memory,
    }
}
