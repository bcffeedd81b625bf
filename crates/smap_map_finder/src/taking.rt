//! Which file each name of a log takes.
ghost use Rattle.std.specs.Prelude.{◌≡◌, ◌∷◌, [], Bool, IfOk, IfSome, List, map, option_map, ℕ};
ghost use Rattle.smap_map_finder.specs.Choice as spec;
ghost use Rattle.smap_map_finder.specs.Choice.{AreFiles, ArePicked, IsPicked};
ghost use Rattle.smap_map_files.specs.declared.wanted.Wanted.{Wanted};
ghost use Rattle.smap_system.specs.Held.{Held};
ghost use Rattle.smap_map_finder.specs.Searching.{held_in, wanted_in};

use crate::opening::{Opener, Search};
use crate::picking::opening_name;
use smap_map_choice::{Found, Pick};
use smap_map_files::{Subject, Wanted};
use smap_system::{Disk, Stop};
use std::alloc::{AllocError, Global};

/// The file of what was found for a name: that of its map, or of the script that has it.
fn file_of<'w>(wanted: &'w Wanted<'_>, found: Found) -> Option<&'w [u8]>
    ensures { option_map (λ f. f.now) result ≡ spec.file_of wanted.now found }
{
    match found {
        Found::Given(i) => match wanted.places.get(i) {
            Some(place) => Some(place.file.as_slice()),
            None => None,
        },
        Found::ByEnd(i) => match wanted.files.get(i) {
            Some(file) => Some(file.as_slice()),
            None => None,
        },
        Found::Unclear(_, _) | Found::Missing => None,
    }
}

/// What is found for the one name of these.
fn first_found(picks: &[Pick<'_>]) -> Option<Found>
    ensures { (held : Held) (wanted : Wanted) (in_frames : Bool) (name : List ℕ)
        → ArePicked held wanted in_frames (name ∷ []) picks.now
        → IfSome result (IsPicked held wanted in_frames name) }
{
    if picks.len() == 0 {
        return None;
    }
    Some(picks[0].found)
}

/// The files of these picks.
fn files_of<'w>(
    alloc: Global,
    wanted: &'w Wanted<'_>,
    picks: &[Pick<'_>],
) -> Result<Vec<Option<&'w [u8]>>, AllocError>
    ensures { IfOk result (λ files. map (option_map (λ f. f.now)) files.items
        ≡ map (λ p. spec.file_of wanted.now p.found) picks.now) }
{
    let mut files = Vec::with_capacity(alloc, picks.len())?;
    for pick in picks {
        files.push(file_of(wanted, pick.found))?;
    }
    Ok(files)
}

impl<'a, E: Eprint + AllocGlobal, D: Disk> Search<'a, E, D> {
    /// The file that each of these names takes. No map is opened.
    pub(crate) fn files_of(
        &self,
        in_frames: bool,
        names: &[&[u8]],
    ) -> Result<Vec<Option<&'a [u8]>>, Stop>
        ensures { IfOk result (λ files. AreFiles (held_in D.held self.now) (wanted_in self.now) in_frames
            (map (λ n. n.now) names.now) (map (option_map (λ f. f.now)) files.items)) }
    {
        let (host, wanted) = (self.host, self.wanted);
        let mut opener = Opener::new(host.alloc(), wanted)?;
        let picks = self.picks_of(&mut opener, in_frames, names);
        drop(opener);
        let picks = picks?;
        let files = files_of(host.alloc(), wanted, &picks)?;
        Ok(files)
    }
    /// What this name has; none can't be. No map is opened.
    pub(crate) fn found_for(&self, in_frames: bool, name: &[u8]) -> Result<Option<Found>, Stop>
        ensures { IfOk result (λ found. IfSome found
            (IsPicked (held_in D.held self.now) (wanted_in self.now) in_frames name.now)) }
    {
        let mut opener = Opener::new(self.host.alloc(), self.wanted)?;
        let picks = self.picks_of(&mut opener, in_frames, &[name]);
        drop(opener);
        let picks = picks?;
        Ok(first_found(&picks))
    }

    /// What is opened for what a name has, under the name that it has then.
    pub(crate) fn subject_for(
        &self,
        name: &[u8],
        found: Found,
    ) -> Result<Option<Subject<'a>>, AllocError> {
        let pick = Pick { name, found };
        let name = opening_name(self.host.alloc(), self.wanted, &pick)?;
        self.subject_of(&Pick {
            name: name.as_slice(),
            found,
        })
    }
}
