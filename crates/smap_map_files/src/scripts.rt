//! The script by which a map is opened, read for what it says of that.
use crate::following::{Followed, follow};
use crate::loading::{Content, load};
use crate::opening::{Subject, ends_of, script_beside};
use crate::wanted::may_name_map;
use smap_system::{Disk, Host, Stop};

/// The script of a map: the one that a place names, or the one next to a map of a folder.
#[derive(Drop)]
pub struct ScriptRead {
    /// Its file; of a map without a script the map's.
    pub file: Vec<u8>,
    /// What it names for its map; none if there is no such script, or it can't be read.
    pub followed: Option<Followed>,
    /// How wide its lines are, if its map ends there.
    pub ends: Option<Vec<usize>>,
}

/// What this script says of its map.
fn read_script<E: Eprint + AllocGlobal, D: Disk>(
    host: &Host<'_, E, D>,
    script: &Subject<'_>,
) -> Result<ScriptRead, Stop> {
    let alloc = host.alloc();
    let mut read = ScriptRead {
        file: Vec::from_slice(alloc, &script.place.file)?,
        followed: None,
        ends: None,
    };
    if !may_name_map(&script.place.file) {
        return Ok(read);
    }
    if let Content::Script(text) = load(alloc, host.disk, &script.place)? {
        read.ends = ends_of(alloc, script, &text)?;
        read.followed = Some(follow(host, &script.place, script.root, &text)?);
    }
    Ok(read)
}

/// What the script of a map says, from which [`loaded_of`](crate::loaded_of) has it.
///
/// # Errors
///
/// `Stop::Memory` alone.
pub fn script_read<E: Eprint + AllocGlobal, D: Disk>(
    host: &Host<'_, E, D>,
    subject: &Subject<'_>,
) -> Result<ScriptRead, Stop> {
    match script_beside(host.alloc(), subject)? {
        Some(script) => read_script(host, &script),
        None => read_script(host, subject),
    }
}
