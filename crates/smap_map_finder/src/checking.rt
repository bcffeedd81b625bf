//! Every map there is, read once.
ghost use Rattle.std.specs.Prelude.{◌≡◌, ◌≤◌};
ghost use Rattle.smap_map_finder.specs.ChosenView.{AreChosen, choices_of};
ghost use Rattle.smap_map_finder.specs.Searching.{held_in, wanted_in};

use crate::chosen::Chosen;
use crate::opening::Search;
use crate::picking::key_of_found;
use smap_map_choice::{Found, Pick};
use smap_map_files::name_of_file;
use smap_system::{Disk, Stop};

impl<E: Eprint + AllocGlobal, D: Disk> Search<'_, E, D> {
    /// Reads every map there is, and names each that is refused. No map is kept.
    pub(crate) fn check_all(&self, chosen: &mut Chosen) -> Result<(), Stop>
        requires { AreChosen (held_in D.held self.now) (wanted_in self.now) (choices_of chosen.old) }
        ensures worst { chosen.old.worst ≤ chosen.new.worst }
        ensures named { AreChosen (held_in D.held self.now) (wanted_in self.now) (choices_of chosen.new) }
        ensures ends { (choices_of chosen.new).ends ≡ (choices_of chosen.old).ends }
    {
        self.check_places(chosen)?;
        self.check_files(chosen)?;
        Ok(())
    }

    /// Reads the maps of scripts with names.
    fn check_places(&self, chosen: &mut Chosen) -> Result<(), Stop>
        requires { AreChosen (held_in D.held self.now) (wanted_in self.now) (choices_of chosen.old) }
        ensures chosen { AreChosen (held_in D.held self.now) (wanted_in self.now) (choices_of chosen.new) }
        ensures ends { (choices_of chosen.new).ends ≡ (choices_of chosen.old).ends }
        ensures worst { chosen.old.worst ≤ chosen.new.worst }
    {
        for (i, place) in self.wanted.places.iter().enumerate() {
            let pick = Pick {
                name: place.script.as_slice(),
                found: Found::Given(i),
            };
            self.check_one(&pick, chosen)?;
        }
        Ok(())
    }

    /// Reads the maps in folders that are given alone.
    fn check_files(&self, chosen: &mut Chosen) -> Result<(), Stop>
        requires { AreChosen (held_in D.held self.now) (wanted_in self.now) (choices_of chosen.old) }
        ensures chosen { AreChosen (held_in D.held self.now) (wanted_in self.now) (choices_of chosen.new) }
        ensures ends { (choices_of chosen.new).ends ≡ (choices_of chosen.old).ends }
        ensures worst { chosen.old.worst ≤ chosen.new.worst }
    {
        for (i, file) in self.wanted.files.iter().enumerate() {
            let name = name_of_file(self.host.alloc(), file)?;
            let pick = Pick {
                name: name.as_slice(),
                found: Found::ByEnd(i),
            };
            self.check_one(&pick, chosen)?;
        }
        Ok(())
    }

    /// Reads the map of a pick. One that is refused is noted to have none.
    fn check_one(&self, pick: &Pick<'_>, chosen: &mut Chosen) -> Result<(), Stop>
        requires { AreChosen (held_in D.held self.now) (wanted_in self.now) (choices_of chosen.old) }
        ensures chosen { AreChosen (held_in D.held self.now) (wanted_in self.now) (choices_of chosen.new) }
        ensures ends { (choices_of chosen.new).ends ≡ (choices_of chosen.old).ends }
        ensures worst { chosen.old.worst ≤ chosen.new.worst }
    {
        let map = self.opened_under(pick, &mut chosen.worst)?;
        if map.is_some() || chosen.worst == 0 {
            return Ok(());
        }
        let key = key_of_found(self.host.alloc(), pick)?;
        chosen.note_opening(self.host.alloc(), key, pick, map)?;
        Ok(())
    }
}
