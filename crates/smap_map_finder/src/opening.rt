//! The maps of the scripts that a log names, opened as the log first names them.
ghost use Rattle.std.specs.Prelude.{◌≡◌, ◌≤◌, IfNone, IfOk, IfSome, None};
ghost use Rattle.std.specs.Prelude.{option_map};
ghost use Rattle.smap_system.specs.Held.{Held};
ghost use Rattle.smap_chains.specs.Closing.{IsFollowed};
ghost use Rattle.smap_map_finder.specs.Choice.{IsOpenedAs, IsUnopened, files_of, places_of};
ghost use Rattle.smap_map_finder.specs.Choice as spec;
ghost use Rattle.smap_map_files.specs.RootView.{folder_of};
ghost use Rattle.smap_map_finder.specs.ChosenView.{IsOver};
ghost use Rattle.smap_map_choice.specs.Picks.{found_place};
ghost use Rattle.smap_map_choice.specs.PlaceView.{place_in};
ghost use Rattle.smap_map_finder.specs.Searching.{held_in, wanted_in};

use crate::alike::Pair;
use crate::copies::Compared;
use crate::links::Links;
use crate::roots::{has_base, root_of};
use crate::telling::tell_remarks;
use indexmap::IndexMap;
use smap_chains::{Followed, follow};
use smap_link::{ChoiceFault, ScriptTable};
use smap_map_choice::{Found, Pick, Place, table_of, usual_place};
use smap_map_files::{How, Subject, Wanted, copied, open_map_of};
use smap_record::SourceMap;
use smap_system::{Disk, Host, Stop};
use std::alloc::{AllocError, Global};

/// What is searched: the machine, how maps are opened, and what the arguments name.
#[derive(Drop)]
pub(crate) struct Search<'a, E, D> {
    pub(crate) host: &'a Host<'a, E, D>,
    pub(crate) how: How,
    pub(crate) wanted: &'a Wanted<'a>,
}

/// What opens the maps.
#[derive(Drop)]
pub(crate) struct Opener {
    pub(crate) table: ScriptTable,
    pub(crate) links: Links,
    pub(crate) compared: Vec<Compared>,
    /// How often two files were found to be alike, or as often as that is tried at most, if they once
    /// weren't.
    pub(crate) tried: IndexMap<Pair, usize>,
}

impl Opener {
    /// Over maps of which no two have the same script.
    pub(crate) fn new(alloc: Global, wanted: &Wanted<'_>) -> Result<Opener, Stop>
        ensures { (held : Held) → IfOk result (IsOver held wanted.now) }
    {
        match table_of(alloc, wanted.places.as_slice()) {
            Ok(table) => Ok(Opener {
                table,
                links: Links::new(alloc),
                compared: Vec::new(alloc),
                tried: IndexMap::new(alloc),
            }),
            Err(ChoiceFault::Memory) => Err(Stop::Memory),
            Err(_) => Err(Stop::Reported(1)),
        }
    }
}

/// The place of what a pick found.
fn place_of(
    alloc: Global,
    wanted: &Wanted<'_>,
    pick: &Pick<'_>,
) -> Result<Option<Place>, AllocError>
    ensures { IfOk result (λ found. option_map place_in found ≡ found_place (places_of wanted.now)
        (files_of wanted.now) pick.now.name.now pick.now.found) }
{
    match pick.found {
        Found::Given(i) => match wanted.places.get(i) {
            Some(place) => Ok(Some(copied(alloc, place)?)),
            None => Ok(None),
        },
        Found::ByEnd(i) => match wanted.files.get(i) {
            Some(file) => Ok(Some(usual_place(alloc, pick.name, file)?)),
            None => Ok(None),
        },
        Found::Unclear(_, _) | Found::Missing => Ok(None),
    }
}

impl<'a, E: Eprint + AllocGlobal, D: Disk> Search<'a, E, D> {
    /// What is opened for a pick.
    pub(crate) fn subject_of(&self, pick: &Pick<'_>) -> Result<Option<Subject<'a>>, AllocError>
        ensures place { IfOk result (λ found. option_map (λ s. place_in s.place) found
            ≡ found_place (places_of (wanted_in self.now)) (files_of (wanted_in self.now)) pick.now.name.now
            pick.now.found) }
        ensures how { IfOk result (λ found. IfSome found (λ s.
            (folder_of s.root ≡ spec.root_of (wanted_in self.now) pick.now.found)
            × (s.has_base ≡ spec.has_base (wanted_in self.now) pick.now.found)
            × (s.reading ≡ (wanted_in self.now).reading))) }
    {
        let wanted = self.wanted;
        let Some(place) = place_of(self.host.alloc(), wanted, pick)? else {
            return Ok(None);
        };
        Ok(Some(Subject {
            place,
            root: root_of(wanted, pick.found),
            has_base: has_base(wanted, pick.found),
            reading: wanted.reading,
        }))
    }

    /// The map of a pick, opened.
    pub(crate) fn opened_map(
        &self,
        pick: &Pick<'_>,
        worst: &mut u8,
    ) -> Result<Option<SourceMap>, Stop>
        ensures named { IfOk result (λ found. IfSome found (IsOpenedAs (held_in D.held self.now)
            (wanted_in self.now) pick.now.name.now pick.now.found)) }
        ensures none { IfOk result (λ found. IfNone found (IsUnopened (held_in D.held self.now) (wanted_in
            self.now) pick.now.name.now pick.now.found worst.new)) }
        ensures worst { worst.old ≤ worst.new }
    {
        let Some(subject) = self.subject_of(pick)? else {
            return Ok(None);
        };
        let Some(map) = open_map_of(self.host, self.how, &subject, worst)? else {
            return Ok(None);
        };
        let map = self.followed(&subject, map, worst)?;
        Ok(Some(map))
    }

    /// A map with those that its sources lead to. That one isn't followed is said, and raises `worst` to the
    /// status of a map that is refused.
    fn followed(
        &self,
        subject: &Subject<'_>,
        map: SourceMap,
        worst: &mut u8,
    ) -> Result<SourceMap, Stop>
        ensures followed { IfOk result (IsFollowed (held_in D.held self.now) subject.now.reading
            (folder_of subject.now.root) (place_in subject.now.place) map) }
        ensures worst { worst.old ≤ worst.new }
    {
        let host = self.host;
        let Followed { map, remarks } = follow(host.alloc(), host.disk, subject, map)?;
        tell_remarks(host, self.how.verbose, &subject.place, &remarks)?;
        if !remarks.faults.is_empty() {
            *worst = (*worst).max(1);
        }
        Ok(map)
    }
}
