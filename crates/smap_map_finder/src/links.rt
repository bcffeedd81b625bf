//! What the scripts of folders without a URL name for their maps.
ghost use Rattle.std.specs.Prelude.{◌≡◌, IfOk, true, ℕ};
ghost use Rattle.std.specs.Global.{Vec};
ghost use Rattle.smap_system.specs.Held.{Held};
ghost use Rattle.smap_map_files.specs.declared.wanted.Wanted.{Wanted};
ghost use Rattle.smap_map_finder.specs.Choice.{AreLinks, IsNamed, IsWithoutMap, Links as IsLink};
ghost use Rattle.smap_map_finder.specs.declared.links.Named.{Named};
ghost use Rattle.smap_map_finder.specs.Searching.{held_in, wanted_in};

use crate::opening::Search;
use crate::roots::root_of;
use indexmap::IndexMap;
use smap_map_choice::{Found, usual_place};
use smap_map_files::{Followed, Wanted, follow};
use smap_system::{Disk, Host, LIMIT, Stop, read_file};
use std::alloc::Global;

/// What a script names for its map.
#[derive(Drop)]
pub(crate) enum Named {
    /// This file.
    File(Vec<u8>),
    /// Nothing, or what can't be had.
    Nothing,
    /// The map itself; or the script can't be read.
    Other,
}

/// What scripts name, each script read once: any number of names of a log may end as one script does, and
/// what that names is the same for all.
#[derive(Drop)]
pub(crate) struct Links {
    /// By the number of the script among the files.
    pub(crate) named: IndexMap<usize, Named>,
}

impl Links {
    /// No script was read.
    pub(crate) fn new(alloc: Global) -> Links
        ensures { (held : Held) (wanted : Wanted) → AreLinks held wanted result.named.entries }
    {
        Links {
            named: IndexMap::new(alloc),
        }
    }
}

/// Whether it is this file that is named.
fn is_named(named: &Named, file: &[u8]) -> bool
    ensures { result ≡ true → (name : Vec ℕ) × (named.now ≡ Named.File name) × (name.items ≡ file.now) }
{
    let Named::File(name) = named else {
        return false;
    };
    if name.as_slice() == file {
        return true;
    }
    false
}

/// Whether nothing is named that can be had.
fn is_nothing(named: &Named) -> bool
    ensures { result ≡ true → named.now ≡ Named.Nothing }
{
    match named {
        Named::Nothing => true,
        Named::File(_) | Named::Other => false,
    }
}

impl<E: Eprint + AllocGlobal, D: Disk> Search<'_, E, D> {
    /// What the script with this number names for its map.
    fn named_by(&self, script: usize) -> Result<Named, Stop>
        ensures { IfOk result (IsNamed (held_in D.held self.now) (wanted_in self.now) script) }
    {
        let (host, wanted) = (self.host, self.wanted);
        let alloc = host.alloc();
        let (Some(file), Some(root)) = (
            wanted.files.get(script),
            root_of(wanted, Found::ByEnd(script)),
        ) else {
            return Ok(Named::Other);
        };
        let Ok(path) = std::str::from_utf8(file) else {
            return Ok(Named::Other);
        };
        let Ok(text) = read_file(alloc, host.disk, path, LIMIT) else {
            return Ok(Named::Other);
        };
        let place = usual_place(alloc, file, file)?;
        match follow(host, &place, Some(root), &text)? {
            Followed::Inline(_) => Ok(Named::Other),
            Followed::File(found) => Ok(Named::File(found.file)),
            Followed::Nothing => Ok(Named::Nothing),
            Followed::Wrong(_) => Ok(Named::Nothing),
        }
    }

    /// Reads what the script with this number names, unless that is known.
    fn note_named(&self, script: usize, links: &mut Links) -> Result<(), Stop>
        requires { AreLinks (held_in D.held self.now) (wanted_in self.now) links.old.named.entries }
        ensures { AreLinks (held_in D.held self.now) (wanted_in self.now) links.new.named.entries }
    {
        if links.named.get_index_of(&script).is_some() {
            return Ok(());
        }
        let named = self.named_by(script)?;
        links.named.insert(script, named)?;
        Ok(())
    }

    /// Whether the script with this number in the list of files names the map with the other.
    pub(crate) fn names_this(
        &self,
        script: usize,
        map: usize,
        links: &mut Links,
    ) -> Result<bool, Stop>
        requires { AreLinks (held_in D.held self.now) (wanted_in self.now) links.old.named.entries }
        ensures link { IfOk result
            (λ b. b ≡ true → IsLink (held_in D.held self.now) (wanted_in self.now) script map) }
        ensures links { AreLinks (held_in D.held self.now) (wanted_in self.now) links.new.named.entries }
    {
        let Some(map) = self.wanted.files.get(map) else {
            return Ok(false);
        };
        self.note_named(script, links)?;
        match links.named.get_full(&script) {
            Some((_, key, named)) => Ok(*key == script && is_named(named, map)),
            None => Ok(false),
        }
    }

    /// Whether the script with this number in the list of files has no map.
    pub(crate) fn is_without_map(&self, script: usize, links: &mut Links) -> Result<bool, Stop>
        requires { AreLinks (held_in D.held self.now) (wanted_in self.now) links.old.named.entries }
        ensures none { IfOk result
            (λ b. b ≡ true → IsWithoutMap (held_in D.held self.now) (wanted_in self.now) script) }
        ensures links { AreLinks (held_in D.held self.now) (wanted_in self.now) links.new.named.entries }
    {
        self.note_named(script, links)?;
        match links.named.get_full(&script) {
            Some((_, key, named)) => Ok(*key == script && is_nothing(named)),
            None => Ok(false),
        }
    }
}
