//! The maps of the scripts that a log names, as one value.
ghost use Rattle.std.specs.Prelude.{◌≡◌, IfOk, IfSome, OnOk, cond, map, option_map};
ghost use Rattle.std.specs.List.{All};
ghost use Rattle.smap_map_finder.specs.Choice.{AreFiles, IsPicked, names_of};
ghost use Rattle.smap_map_finder.specs.ChosenView.{AreChosen, Grows, IsSettledIn, KeepEnds};
ghost use Rattle.smap_map_finder.specs.ChosenView.{no_choices};
ghost use Rattle.smap_map_finder.specs.Finding.{IsSameSearch};
ghost use Rattle.smap_record.specs.Record.{record_of};
ghost use Rattle.smap_trace.specs.Scripts.{map_of};

use crate::chosen::Chosen;
use crate::opening::{Opener, Search};
use crate::roots::names_of;
use smap_map_choice::Found;
use smap_map_files::{How, Subject, Wanted};
use smap_record::SourceMap;
use smap_system::{Disk, Host, Stop};
use smap_trace::Scripts;
use std::alloc::AllocError;
use std::marker::Model;
use std::sync::Arc;

/// The maps of the scripts that a log names, of those that the arguments name, opened as the log first names
/// them. What is wrong is said on standard error.
#[derive(Drop)]
pub struct Finder<'a, E, D: Disk> {
    search: Search<'a, E, D>,
    opener: Opener,
    chosen: Chosen,
}

impl<'a, E, D: Disk> Model for Finder<'a, E, D> {
    ghost use Rattle.smap_map_finder.specs.Finding.{Finding, IsFinding};

    ghost Value = { Finding D };

    ghost use Rattle.smap_map_finder.specs.ChosenView.{choices_of};

    ghost view = { λ f. record {
      disk = f.search.host.now.disk.now;
      how = f.search.how;
      wanted = f.search.wanted.now;
      chosen = choices_of f.chosen;
    } };

    ghost invariant = { λ f. IsFinding (D.held f.search.host.now.disk.now) f.search.wanted.now f.opener
        (choices_of f.chosen) };
}

impl<'a, E: Eprint + AllocGlobal, D: Disk> Finder<'a, E, D> {
    /// Over maps of which no two have the same script.
    ///
    /// # Errors
    ///
    /// `Stop`.
    pub fn new(
        host: &'a Host<'a, E, D>,
        how: How,
        wanted: &'a Wanted<'a>,
    ) -> Result<Finder<'a, E, D>, Stop>
        ensures { IfOk result (λ f. f ≡ record {
          disk = host.now.disk.now;
          how = how;
          wanted = wanted.now;
          chosen = no_choices;
        }) }
    {
        let alloc = host.alloc();
        let opener = Opener::new(alloc, wanted)?;
        Ok(Finder {
            search: Search { host, how, wanted },
            opener,
            chosen: Chosen::new(alloc),
        })
    }

    /// Gives each of these names of a log its map, or finds that it has none: names that frames have, or
    /// other texts with a position after them. Maps are opened that aren't yet. Each map that is refused is
    /// named.
    ///
    /// # Errors
    ///
    /// `Stop`.
    pub fn open_for(&mut self, in_frames: bool, names: &[&[u8]]) -> Result<(), Stop>
        ensures settled { OnOk result (All (λ n. IsSettledIn (D.held self.old.disk) self.old.wanted in_frames
            self.new.chosen n.now) names.now) }
        ensures grows { Grows self.old.chosen self.new.chosen }
        ensures ends { KeepEnds (D.held self.old.disk) self.old.wanted (map (λ n. n.now) names.now)
            self.old.chosen self.new.chosen }
        ensures named { AreChosen (D.held self.new.disk) self.new.wanted self.new.chosen }
        ensures same { IsSameSearch self.old self.new }
    {
        self.search
            .open_for(&mut self.opener, in_frames, names, &mut self.chosen)
    }

    /// Reads every map there is, and names each that is refused. No map is kept.
    ///
    /// # Errors
    ///
    /// `Stop`.
    pub fn check_all(&mut self) -> Result<(), Stop>
        ensures ends { self.new.chosen.ends ≡ self.old.chosen.ends }
        ensures named { AreChosen (D.held self.new.disk) self.new.wanted self.new.chosen }
        ensures same { IsSameSearch self.old self.new }
    {
        self.search.check_all(&mut self.chosen)
    }

    /// Forgets the names that have maps, once there are many; the maps stay open, and names that come again
    /// find them.
    pub fn forget_many(&mut self)
        ensures ends { self.new.chosen.ends ≡ self.old.chosen.ends }
        ensures named { AreChosen (D.held self.new.disk) self.new.wanted self.new.chosen }
        ensures same { IsSameSearch self.old self.new }
    {
        self.chosen.forget_many(self.search.host.alloc());
    }

    /// Says how many maps were opened.
    ///
    /// # Errors
    ///
    /// `Stop::Memory`.
    pub fn tell_count(&self) -> Result<(), Stop> {
        self.search.tell_count(&self.chosen)
    }

    /// The names that have maps, as scripts: each has one that the arguments name.
    pub fn scripts(&self) -> &Scripts<Arc<SourceMap>>
        ensures value { result.now ≡ self.now.chosen.scripts }
        ensures named { AreChosen (D.held self.now.disk) self.now.wanted self.now.chosen }
    {
        self.chosen.scripts()
    }

    /// The map of a name.
    pub fn map_of(&self, name: &[u8]) -> Option<&SourceMap>
        ensures { option_map (λ m. record_of m.now) result ≡ map_of self.now.chosen.scripts name.now }
    {
        self.chosen.map_of(name)
    }

    /// The file that each of these names takes, as `open_for` finds it: that of its map, or of the script
    /// that has it. No map is opened.
    ///
    /// # Errors
    ///
    /// `Stop`.
    pub fn files_of(&self, in_frames: bool, names: &[&[u8]]) -> Result<Vec<Option<&'a [u8]>>, Stop>
        ensures { IfOk result (λ files. AreFiles (D.held self.now.disk) self.now.wanted in_frames
            (map (λ n. n.now) names.now) (map (option_map (λ f. f.now)) files.items)) }
    {
        self.search.files_of(in_frames, names)
    }

    /// What this name has, as `open_for` finds it. No map is opened.
    ///
    /// # Errors
    ///
    /// `Stop`.
    pub fn found_for(&self, in_frames: bool, name: &[u8]) -> Result<Option<Found>, Stop>
        ensures { IfOk result (λ found. IfSome found
            (IsPicked (D.held self.now.disk) self.now.wanted in_frames name.now)) }
    {
        self.search.found_for(in_frames, name)
    }

    /// What `open_for` opens for this, which a name has; none if that is no file.
    ///
    /// # Errors
    ///
    /// `AllocError`.
    pub fn subject_for(
        &self,
        name: &[u8],
        found: Found,
    ) -> Result<Option<Subject<'a>>, AllocError> {
        self.search.subject_for(name, found)
    }

    /// The names by which the files are found that go by the ends of their names.
    ///
    /// # Errors
    ///
    /// `AllocError`.
    pub fn names_of_files(&self) -> Result<Vec<&'a [u8]>, AllocError>
        ensures { IfOk result (λ all. map (λ s. s.now) all.items ≡ names_of self.now.wanted) }
    {
        names_of(self.search.host.alloc(), self.search.wanted)
    }

    /// The status of a run whose maps are these: the greatest of a map that was refused, unless broken maps
    /// are skipped.
    pub fn status(&self) -> u8
        ensures { result ≡ cond self.now.how.skip 0 self.now.chosen.worst }
    {
        if self.search.how.skip {
            0
        } else {
            self.chosen.worst
        }
    }

    /// Whether it was reported of a name that it isn't clear which map it has.
    pub fn is_unclear(&self) -> bool {
        self.chosen.is_unclear()
    }

    /// Whether what was opened for a name gave no map.
    pub fn gave_none(&self, name: &[u8]) -> bool {
        self.chosen.gave_none(name)
    }

    /// How many files gave maps.
    pub fn opened_count(&self) -> usize {
        self.chosen.opened_count()
    }
}
