//! The map that a script of a folder has, on a disk.
ghost use Rattle.std.specs.Prelude.{IfOk};
ghost use Rattle.smap_map_files.specs.ScriptMap.{IsScriptMap, IsMapBeside};

use crate::target::{Absence, Home, Target, target_of};
use smap_link::link_in;
use smap_map_choice::{NamedFault, map_beside};
use smap_system::{Disk, Kind};
use std::alloc::{AllocError, Global};

/// The map that a script of a folder has.
#[derive(Drop)]
pub enum ScriptMap {
    /// It holds the map.
    Inline(Vec<u8>),
    /// The file of the folder that it names, by its name there.
    Named(String),
    /// The file next to it, by its name there.
    Beside(String),
    /// It has none.
    Nothing,
}

/// Why the map that a script names can't be had.
#[derive(Clone, Copy, PartialEq, Eq)]
pub enum LinkProblem {
    /// There is no such file of the folder.
    Absent(Absence),
    /// It isn't one of the folder, or isn't a map.
    Wrong(NamedFault),
}

/// The file next to the script with this name, if there is one.
fn map_next_to<D: Disk>(
    alloc: Global,
    disk: &D,
    folder: &str,
    name: &str,
) -> Result<ScriptMap, AllocError>
    ensures { IfOk result (IsMapBeside name.now) }
{
    let Ok(map) = String::from_utf8(map_beside(alloc, name.as_bytes())?) else {
        return Ok(ScriptMap::Nothing);
    };
    let path = map.as_str();
    let path = format!(in alloc; "{folder}{path}")?;
    if disk.kind(path.as_str()) == Kind::File {
        return Ok(ScriptMap::Beside(map));
    }
    Ok(ScriptMap::Nothing)
}

/// The map of the script with this name and this text in a folder: the one that it names, if that can be had,
/// or else the file next to it, if there is one; and why what it names can't be had, if it names something.
///
/// # Errors
///
/// Out of memory alone.
pub fn map_of<D: Disk>(
    alloc: Global,
    disk: &D,
    home: Home<'_>,
    name: &str,
    text: &[u8],
) -> Result<(ScriptMap, Option<LinkProblem>), AllocError>
    ensures { IfOk result (λ had. IsScriptMap home.entry.url.now name.now text.now had.0) }
{
    let Some(url) = link_in(name.as_bytes(), text) else {
        return Ok((map_next_to(alloc, disk, home.path, name)?, None));
    };
    let target = target_of(alloc, disk, home, name.as_bytes(), url)?;
    let problem = match target {
        Target::Inline(bytes) => return Ok((ScriptMap::Inline(bytes), None)),
        Target::File(file) => return Ok((ScriptMap::Named(file), None)),
        Target::Absent(_, why) => LinkProblem::Absent(why),
        Target::Wrong(why) => LinkProblem::Wrong(why),
    };
    Ok((map_next_to(alloc, disk, home.path, name)?, Some(problem)))
}
