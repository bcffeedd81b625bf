//! The maps of the scripts that a log names, opened as the log first names them.
ghost use Rattle.std.specs.Prelude.{◌≡◌, ◌<◌, ◌≤◌, ◌⊎◌, Bool, IfOk, IfSome, List, OnOk, false, map, true, ℕ};
ghost use Rattle.std.specs.List.{All, Contains};
ghost use Rattle.smap_system.specs.Held.{Held};
ghost use Rattle.smap_map_finder.specs.Choice.{ArePicked, IsPickedBy};
ghost use Rattle.smap_map_finder.specs.ChosenView.{AreChosen, Choices, Grows, IsFind, IsNumberOf};
ghost use Rattle.smap_map_finder.specs.ChosenView.{IsOver};
ghost use Rattle.smap_map_finder.specs.ChosenView.{IsNotOpened, IsServedBy, IsSettledIn, IsTried, KeepEnds};
ghost use Rattle.smap_map_finder.specs.ChosenView.{KeepsEnds, choices_of};
ghost use Rattle.smap_map_finder.specs.declared.chosen.Opening.{Opening};
ghost use Rattle.smap_map_choice.specs.declared.picks.Found.{Found};
ghost use Rattle.smap_map_files.specs.declared.wanted.Wanted.{Wanted};
ghost use Rattle.smap_map_finder.specs.Searching.{held_in, wanted_in};

use crate::chosen::Chosen;
use crate::opening::{Opener, Search};
use crate::picking::{key_of_found, opening_name};
use smap_map_choice::{Found, Pick};
use smap_record::SourceMap;
use smap_system::{Disk, Stop};
use std::alloc::{AllocError, Global};
use std::sync::Arc;

/// For so many names a file of a folder without a URL is opened at most, since for each its sources have
/// other URLs: a log may have any number of names that end alike.
pub(crate) const MOST_FOR: usize = 100;

/// Whether a pick's file is opened.
#[derive(Clone, Copy, PartialEq, Eq)]
enum Turn {
    First,
    /// It was opened for another name.
    Again,
    Never,
}

/// Whether a map was found by a name.
fn is_find(found: Found) -> bool
    ensures find { result ≡ true → IsFind found }
    ensures out { (c : Choices) → result ≡ false → IsNotOpened c found }
{
    match found {
        Found::Given(_) | Found::ByEnd(_) => true,
        Found::Unclear(_, _) | Found::Missing => false,
    }
}

/// Gives a name the map of the opening with this number, or notes that it has none.
fn link_to(
    alloc: Global,
    in_frames: bool,
    pick: &Pick<'_>,
    number: usize,
    chosen: &mut Chosen,
) -> Result<(), AllocError>
    ensures chosen { (held : Held) (wanted : Wanted) → AreChosen held wanted (choices_of chosen.old)
        → IsPickedBy held wanted in_frames pick.now
        → (o : Opening) × IsServedBy (choices_of chosen.old) number pick.now.name.now pick.now.found o
        → AreChosen held wanted (choices_of chosen.new)
        × OnOk result (IsSettledIn held wanted in_frames (choices_of chosen.new) pick.now.name.now) }
    ensures grows { Grows (choices_of chosen.old) (choices_of chosen.new) }
    ensures ends { (choices_of chosen.new).ends ≡ (choices_of chosen.old).ends }
{
    let Ok(_) = std::str::from_utf8(pick.name) else {
        return chosen.note_left(alloc, pick.name, in_frames);
    };
    let Some(map) = chosen.map_at(number) else {
        return chosen.note_left(alloc, pick.name, in_frames);
    };
    let map = Arc::try_clone(map)?;
    chosen.note_mapped(alloc, pick.name, map)
}

/// The same, or notes that a name has no map where there is no opening.
fn link(
    alloc: Global,
    in_frames: bool,
    pick: &Pick<'_>,
    number: Option<usize>,
    chosen: &mut Chosen,
) -> Result<(), AllocError>
    ensures chosen { (held : Held) (wanted : Wanted) → AreChosen held wanted (choices_of chosen.old)
        → IsPickedBy held wanted in_frames pick.now
        → IsNumberOf (choices_of chosen.old) pick.now.name.now pick.now.found number
        → AreChosen held wanted (choices_of chosen.new)
        × OnOk result (IsSettledIn held wanted in_frames (choices_of chosen.new) pick.now.name.now) }
    ensures grows { Grows (choices_of chosen.old) (choices_of chosen.new) }
    ensures ends { (choices_of chosen.new).ends ≡ (choices_of chosen.old).ends }
{
    match number {
        Some(number) => link_to(alloc, in_frames, pick, number, chosen),
        None => chosen.note_left(alloc, pick.name, in_frames),
    }
}

/// Those of these names that aren't known yet.
fn unknown<'a>(
    alloc: Global,
    in_frames: bool,
    names: &[&'a [u8]],
    chosen: &Chosen,
) -> Result<Vec<&'a [u8]>, AllocError>
    ensures each { (held : Held) (wanted : Wanted) → AreChosen held wanted (choices_of chosen.now)
        → IfOk result (λ fresh. All (λ n. IsSettledIn held wanted in_frames (choices_of chosen.now) n.now
        ⊎ Contains (map (λ f. f.now) fresh.items) n.now) names.now) }
    ensures among { IfOk result (λ fresh. All (λ f. Contains (map (λ n. n.now) names.now) f.now)
        fresh.items) }
{
    let mut unknown = Vec::new(alloc);
    for i in 0..names.len() {
        if chosen.is_known(names[i], in_frames) {
            continue;
        }
        unknown.push(names[i])?;
    }
    Ok(unknown)
}

impl<E: Eprint + AllocGlobal, D: Disk> Search<'_, E, D> {
    /// Whether a pick is opened: a file that was opened for other names is so up to a number of times. Once
    /// it is not, that is said.
    fn turn_of(&self, found: Found, chosen: &mut Chosen) -> Turn
        ensures never { result ≡ Turn.Never → IsNotOpened (choices_of chosen.new) found }
        ensures chosen { choices_of chosen.new ≡ choices_of chosen.old }
    {
        let Found::ByEnd(file) = found else {
            return Turn::First;
        };
        if !chosen.is_opened(file) {
            return Turn::First;
        }
        if chosen.count_of(file) < MOST_FOR {
            return Turn::Again;
        }
        if !chosen.is_crowded {
            chosen.is_crowded = true;
            self.host.say(
                "many names in the log end as one file: those that are left as they are want URL/=FOLDER/",
            );
        }
        Turn::Never
    }

    /// The map of what a name has, opened under the name that it has then.
    pub(crate) fn opened_under(
        &self,
        pick: &Pick<'_>,
        worst: &mut u8,
    ) -> Result<Option<SourceMap>, Stop>
        ensures tried { IfOk result (IsTried (held_in D.held self.now) (wanted_in self.now) worst.new
            pick.now.name.now pick.now.found) }
        ensures worst { worst.old ≤ worst.new }
    {
        let name = opening_name(self.host.alloc(), self.wanted, pick)?;
        let under = Pick {
            name: name.as_slice(),
            found: pick.found,
        };
        self.opened_map(&under, worst)
    }

    /// Opens the map of a pick, and notes that under this key, and for which name.
    fn open_one(&self, pick: &Pick<'_>, key: Vec<u8>, chosen: &mut Chosen) -> Result<usize, Stop>
        requires chosen { AreChosen (held_in D.held self.now) (wanted_in self.now) (choices_of chosen.old) }
        requires find { IsFind pick.now.found }
        ensures served { IfOk result (λ n. (o : Opening) × IsServedBy (choices_of chosen.new) n
            pick.now.name.now pick.now.found o) }
        ensures chosen { AreChosen (held_in D.held self.now) (wanted_in self.now) (choices_of chosen.new) }
        ensures grows { Grows (choices_of chosen.old) (choices_of chosen.new) }
        ensures ends { KeepsEnds (held_in D.held self.now) (wanted_in self.now) pick.now.name.now
            pick.now.found (choices_of chosen.old) (choices_of chosen.new) }
    {
        let map = self.opened_under(pick, &mut chosen.worst)?;
        let alloc = self.host.alloc();
        let number = chosen.note_opening(alloc, key, pick, map)?;
        chosen.note_end(alloc, pick.name, pick.found)?;
        Ok(number)
    }

    /// The number of the opening that serves a pick, which is opened if none does yet; none where nothing was
    /// found, or its file is opened for no further name.
    fn number_for(&self, pick: &Pick<'_>, chosen: &mut Chosen) -> Result<Option<usize>, Stop>
        requires { AreChosen (held_in D.held self.now) (wanted_in self.now) (choices_of chosen.old) }
        ensures number { IfOk result (IsNumberOf (choices_of chosen.new) pick.now.name.now pick.now.found) }
        ensures chosen { AreChosen (held_in D.held self.now) (wanted_in self.now) (choices_of chosen.new) }
        ensures grows { Grows (choices_of chosen.old) (choices_of chosen.new) }
        ensures ends { KeepsEnds (held_in D.held self.now) (wanted_in self.now) pick.now.name.now
            pick.now.found (choices_of chosen.old) (choices_of chosen.new) }
    {
        if !is_find(pick.found) {
            return Ok(None);
        }
        let key = key_of_found(self.host.alloc(), pick)?;
        if let Some(number) = chosen.number_of(&key, pick.name, pick.found) {
            return Ok(Some(number));
        }
        let turn = self.turn_of(pick.found, chosen);
        if turn == Turn::Never {
            return Ok(None);
        }
        let number = self.open_one(pick, key, chosen)?;
        if turn == Turn::First && chosen.map_at(number).is_some() {
            chosen.count = chosen.count.saturating_add(1);
        }
        Ok(Some(number))
    }

    /// Gives a name its map, which is opened if it isn't yet, or notes that it has none.
    fn give(&self, in_frames: bool, pick: &Pick<'_>, chosen: &mut Chosen) -> Result<(), Stop>
        requires chosen { AreChosen (held_in D.held self.now) (wanted_in self.now) (choices_of chosen.old) }
        requires picked { IsPickedBy (held_in D.held self.now) (wanted_in self.now) in_frames pick.now }
        ensures settled { OnOk result (IsSettledIn (held_in D.held self.now) (wanted_in self.now) in_frames
            (choices_of chosen.new) pick.now.name.now) }
        ensures chosen { AreChosen (held_in D.held self.now) (wanted_in self.now) (choices_of chosen.new) }
        ensures grows { Grows (choices_of chosen.old) (choices_of chosen.new) }
        ensures ends { KeepsEnds (held_in D.held self.now) (wanted_in self.now) pick.now.name.now
            pick.now.found (choices_of chosen.old) (choices_of chosen.new) }
    {
        let number = self.number_for(pick, chosen)?;
        self.tell_pick(pick, chosen)?;
        link(self.host.alloc(), in_frames, pick, number, chosen)?;
        Ok(())
    }

    /// Gives each of these names its map, or notes that it has none.
    fn give_all(&self, in_frames: bool, picks: &[Pick<'_>], chosen: &mut Chosen) -> Result<(), Stop>
        requires chosen { AreChosen (held_in D.held self.now) (wanted_in self.now) (choices_of chosen.old) }
        requires picked { All (IsPickedBy (held_in D.held self.now) (wanted_in self.now) in_frames)
            picks.now }
        ensures settled { OnOk result (All (λ p. IsSettledIn (held_in D.held self.now) (wanted_in
            self.now) in_frames (choices_of chosen.new) p.name.now) picks.now) }
        ensures chosen { AreChosen (held_in D.held self.now) (wanted_in self.now) (choices_of chosen.new) }
        ensures grows { Grows (choices_of chosen.old) (choices_of chosen.new) }
        ensures ends { KeepEnds (held_in D.held self.now) (wanted_in self.now) (map (λ p. p.name.now)
            picks.now) (choices_of chosen.old) (choices_of chosen.new) }
    {
        for i in 0..picks.len() {
            self.give(in_frames, &picks[i], chosen)?;
        }
        Ok(())
    }

    /// Gives each of these names its map, once it is found which that is.
    fn give_names(
        &self,
        opener: &mut Opener,
        in_frames: bool,
        names: &[&[u8]],
        chosen: &mut Chosen,
    ) -> Result<(), Stop>
        requires chosen { AreChosen (held_in D.held self.now) (wanted_in self.now) (choices_of chosen.old) }
        requires over { IsOver (held_in D.held self.now) (wanted_in self.now) opener.old }
        ensures settled { OnOk result (All (IsSettledIn (held_in D.held self.now) (wanted_in self.now)
            in_frames (choices_of chosen.new)) (map (λ n. n.now) names.now)) }
        ensures chosen { AreChosen (held_in D.held self.now) (wanted_in self.now) (choices_of chosen.new) }
        ensures grows { Grows (choices_of chosen.old) (choices_of chosen.new) }
        ensures ends { KeepEnds (held_in D.held self.now) (wanted_in self.now) (map (λ n. n.now) names.now)
            (choices_of chosen.old) (choices_of chosen.new) }
        ensures over { IsOver (held_in D.held self.now) (wanted_in self.now) opener.new }
    {
        if names.is_empty() {
            return Ok(());
        }
        let picks = self.picks_of(opener, in_frames, names)?;
        self.give_all(in_frames, &picks, chosen)
    }

    /// Gives each of these names of a log its map, or finds that it has none: names that frames have, or
    /// other texts with a position behind them. Maps are opened that aren't yet. Each map that is refused
    /// is named.
    pub(crate) fn open_for(
        &self,
        opener: &mut Opener,
        in_frames: bool,
        names: &[&[u8]],
        chosen: &mut Chosen,
    ) -> Result<(), Stop>
        requires named { AreChosen (held_in D.held self.now) (wanted_in self.now) (choices_of chosen.old) }
        requires over { IsOver (held_in D.held self.now) (wanted_in self.now) opener.old }
        ensures settled { OnOk result (All (λ n. IsSettledIn (held_in D.held self.now) (wanted_in self.now)
            in_frames (choices_of chosen.new) n.now) names.now) }
        ensures named { AreChosen (held_in D.held self.now) (wanted_in self.now) (choices_of chosen.new) }
        ensures grows { Grows (choices_of chosen.old) (choices_of chosen.new) }
        ensures ends { KeepEnds (held_in D.held self.now) (wanted_in self.now) (map (λ n. n.now) names.now)
            (choices_of chosen.old) (choices_of chosen.new) }
        ensures over { IsOver (held_in D.held self.now) (wanted_in self.now) opener.new }
    {
        let fresh = unknown(self.host.alloc(), in_frames, names, chosen)?;
        self.give_names(opener, in_frames, &fresh, chosen)?;
        Ok(())
    }
}
