//! Files between which it isn't clear which one a name has, and which are one.
ghost use Rattle.std.specs.Prelude.{◌≡◌, ◌∷◌, [], IfOk, IfSome, List, Some, map, true, ℕ};
ghost use Rattle.std.specs.List.{All};
ghost use Rattle.smap_system.specs.Held.{Held, IsHeld};
ghost use Rattle.smap_link.specs.Table.{IsTable};
ghost use Rattle.smap_map_choice.specs.Places.{scripts_of};
ghost use Rattle.smap_map_choice.specs.declared.picks.Found.TheVariants.{ByEnd as by_end};
ghost use Rattle.smap_map_finder.specs.Choice as spec;
ghost use Rattle.smap_map_finder.specs.Choice.{AreChoices, AreCompared, AreCopies, AreOne, ArePicksIn};
ghost use Rattle.smap_map_finder.specs.Choice.{HoldSame};
ghost use Rattle.smap_map_finder.specs.Choice.{HoldsMap, IsAmongCopies, IsBestOf, IsChoiceOf, IsFoundIn};
ghost use Rattle.smap_map_finder.specs.Choice.{names_of, places_of};
ghost use Rattle.smap_map_finder.specs.ChosenView.{IsOver};
ghost use Rattle.smap_map_finder.specs.Searching.{held_in, wanted_in};
ghost use Rattle.smap_map_files.specs.declared.wanted.Wanted.{Wanted};

use crate::opening::{Opener, Search};
use crate::picking::map_count;
use smap_link::{ScriptTable, is_data, link_in};
use smap_map_choice::{Found, Pick, pick_all};
use smap_map_files::Wanted;
use smap_system::{Disk, FileFault, LIMIT, Stop, read_file};
use std::alloc::AllocError;

/// Whether the files with these numbers hold the same.
#[derive(Clone, Copy)]
pub(crate) struct Compared {
    pub(crate) first: usize,
    pub(crate) second: usize,
    pub(crate) are_copies: bool,
}

/// Whether these are the same.
fn are_same(bytes: &[u8], others: &[u8]) -> bool
    ensures { result ≡ true → bytes.now ≡ others.now }
{
    if bytes == others {
        return true;
    }
    false
}

/// What is known of two files.
fn known(compared: &[Compared], first: usize, second: usize) -> Option<bool>
    ensures { (held : Held) (w : Wanted) → AreCompared held w compared.now
        → IfSome result (λ are. are ≡ true → AreCopies held w first second) }
{
    for i in 0..compared.len() {
        if compared[i].first == first && compared[i].second == second {
            return Some(compared[i].are_copies);
        }
    }
    None
}

/// Whether the text of a script holds its map.
fn holds_map(file: &[u8], text: &[u8]) -> bool
    ensures { result ≡ true → HoldsMap file.now text.now }
{
    match link_in(file, text) {
        Some(url) => is_data(url),
        None => false,
    }
}

/// What is found for the one name of these.
fn first_found(picks: &[Pick<'_>]) -> Option<Found>
    ensures { (w : Wanted) (files : List (List ℕ)) (name : List ℕ) → ArePicksIn w files (name ∷ []) picks.now
        → IfSome result (IsFoundIn w files name) }
{
    if picks.len() == 0 {
        return None;
    }
    Some(picks[0].found)
}

/// Whether this file is found.
fn is_found(found: Option<Found>, file: usize) -> bool
    ensures { result ≡ true → found ≡ Some (by_end file) }
{
    match found {
        Some(Found::ByEnd(i)) => i == file,
        _ => false,
    }
}

/// The file that isn't this one, of two between which it isn't clear.
fn other_than(found: Option<Found>, file: usize) -> Option<usize> {
    match found {
        Some(Found::Unclear(i, j)) => Some(if i == file { j } else { i }),
        _ => None,
    }
}

/// The files among which one is looked for: the maps, or for a script all.
fn rivals<'s, 'f>(wanted: &Wanted<'_>, files: &'s [&'f [u8]], file: usize) -> &'s [&'f [u8]]
    requires { map (λ f. f.now) files.now ≡ names_of wanted.now }
    ensures { map (λ f. f.now) result.now ≡ spec.rivals wanted.now file }
{
    if file < map_count(wanted) {
        let (maps, _) = files.split_at(map_count(wanted));
        return maps;
    }
    files
}

impl<E: Eprint + AllocGlobal, D: Disk> Search<'_, E, D> {
    /// What a file holds, if it can be read.
    pub(crate) fn bytes_of(&self, file: &[u8]) -> Result<Option<Vec<u8>>, Stop>
        ensures { IfOk result (λ bytes. IfSome bytes
            (λ b. IsHeld (held_in D.held self.now) file.now b.items)) }
    {
        let Ok(path) = std::str::from_utf8(file) else {
            return Ok(None);
        };
        match read_file(self.host.alloc(), self.host.disk, path, LIMIT) {
            Ok(bytes) => Ok(Some(bytes)),
            Err(FileFault::Memory) => Err(Stop::Memory),
            Err(_) => Ok(None),
        }
    }

    /// Whether two files hold the same, and are maps, or scripts that hold theirs.
    fn hold_same(&self, are_maps: bool, first: &[u8], second: &[u8]) -> Result<bool, Stop>
        ensures { IfOk result
            (λ same. same ≡ true → HoldSame (held_in D.held self.now) are_maps first.now second.now) }
    {
        let Some(bytes) = self.bytes_of(first)? else {
            return Ok(false);
        };
        let Some(others) = self.bytes_of(second)? else {
            return Ok(false);
        };
        if !are_same(&bytes, &others) {
            return Ok(false);
        }
        if are_maps {
            return Ok(true);
        }
        Ok(holds_map(first, &bytes))
    }

    /// The same of the files with these numbers.
    fn compare(&self, first: usize, second: usize) -> Result<bool, Stop>
        ensures { IfOk result
            (λ are. are ≡ true → AreCopies (held_in D.held self.now) (wanted_in self.now) first second) }
    {
        let files = &self.wanted.files;
        let (Some(one), Some(other)) = (files.get(first), files.get(second)) else {
            return Ok(false);
        };
        self.hold_same(first < map_count(self.wanted), one, other)
    }

    /// The same; two files are read once.
    fn are_copies(
        &self,
        compared: &mut Vec<Compared>,
        first: usize,
        second: usize,
    ) -> Result<bool, Stop>
        requires { AreCompared (held_in D.held self.now) (wanted_in self.now) compared.old.items }
        ensures copies { IfOk result
            (λ are. are ≡ true → AreCopies (held_in D.held self.now) (wanted_in self.now) first second) }
        ensures compared { AreCompared (held_in D.held self.now) (wanted_in self.now) compared.new.items }
    {
        if let Some(are_copies) = known(compared, first, second) {
            return Ok(are_copies);
        }
        let are_copies = self.compare(first, second)?;
        compared.push(Compared {
            first,
            second,
            are_copies,
        })?;
        Ok(are_copies)
    }

    /// Whether they are one for a name: they hold the same, or are maps that are alike.
    fn are_one(
        &self,
        opener: &mut Opener,
        name: &[u8],
        first: usize,
        second: usize,
    ) -> Result<bool, Stop>
        requires { IsOver (held_in D.held self.now) (wanted_in self.now) opener.old }
        ensures one { IfOk result (λ are. are ≡ true
            → AreOne (held_in D.held self.now) (wanted_in self.now) name.now first second) }
        ensures over { IsOver (held_in D.held self.now) (wanted_in self.now) opener.new }
    {
        if self.are_copies(&mut opener.compared, first, second)? {
            return Ok(true);
        }
        if first >= map_count(self.wanted) {
            return Ok(false);
        }
        self.are_alike(&mut opener.tried, name, first, second)
    }

    /// What is found for a name among these files.
    fn found_among(
        &self,
        table: &mut ScriptTable,
        files: &[&[u8]],
        name: &[u8],
    ) -> Result<Option<Found>, AllocError>
        requires { IsTable table.old (scripts_of (places_of (wanted_in self.now))) }
        ensures found { IfOk result (λ found. IfSome found
            (IsFoundIn (wanted_in self.now) (map (λ f. f.now) files.now) name.now)) }
        ensures table { IsTable table.new (scripts_of (places_of (wanted_in self.now))) }
    {
        let picks = pick_all(self.host.alloc(), table, files, true, &[name])?;
        Ok(first_found(&picks))
    }

    /// Whether a name has this file once those are left out that are one with it.
    fn is_among_copies(
        &self,
        opener: &mut Opener,
        files: &[&[u8]],
        name: &[u8],
        file: usize,
    ) -> Result<bool, Stop>
        requires over { IsOver (held_in D.held self.now) (wanted_in self.now) opener.old }
        requires files { map (λ f. f.now) files.now ≡ spec.rivals (wanted_in self.now) file }
        ensures copies { IfOk result (λ is. is ≡ true
            → IsAmongCopies (held_in D.held self.now) (wanted_in self.now) name.now file) }
        ensures over { IsOver (held_in D.held self.now) (wanted_in self.now) opener.new }
    {
        let mut left = Vec::from_slice(self.host.alloc(), files)?;
        for _ in 0..files.len() {
            let found = self.found_among(&mut opener.table, &left, name)?;
            if is_found(found, file) {
                return Ok(true);
            }
            let Some(other) = other_than(found, file) else {
                return Ok(false);
            };
            if other >= left.len() {
                return Ok(false);
            }
            let is_one = self.are_one(opener, name, file, other)?;
            if !is_one {
                return Ok(false);
            }
            left[other] = b"".as_slice();
        }
        Ok(false)
    }

    /// What a name has of which this is found: of two files between which it isn't clear, the first, if it is
    /// but for those that are one with it.
    fn choose<'n>(
        &self,
        opener: &mut Opener,
        files: &[&[u8]],
        pick: Pick<'n>,
    ) -> Result<Pick<'n>, Stop>
        requires over { IsOver (held_in D.held self.now) (wanted_in self.now) opener.old }
        requires files { map (λ f. f.now) files.now ≡ names_of (wanted_in self.now) }
        requires best { IsBestOf (held_in D.held self.now) (wanted_in self.now) pick }
        ensures name { IfOk result (λ p. p.name.now ≡ pick.entry.name.now) }
        ensures choice { IfOk result (IsChoiceOf (held_in D.held self.now) (wanted_in self.now)) }
        ensures over { IsOver (held_in D.held self.now) (wanted_in self.now) opener.new }
    {
        let Found::Unclear(first, _) = pick.found else {
            return Ok(pick);
        };
        let rivals = rivals(self.wanted, files, first);
        if !self.is_among_copies(opener, rivals, pick.name, first)? {
            return Ok(pick);
        }
        Ok(Pick {
            name: pick.name,
            found: Found::ByEnd(first),
        })
    }

    /// The same of each name.
    pub(crate) fn choose_all<'n>(
        &self,
        opener: &mut Opener,
        files: &[&[u8]],
        picks: &[Pick<'n>],
    ) -> Result<Vec<Pick<'n>>, Stop>
        requires over { IsOver (held_in D.held self.now) (wanted_in self.now) opener.old }
        requires files { map (λ f. f.now) files.now ≡ names_of (wanted_in self.now) }
        requires best { All (IsBestOf (held_in D.held self.now) (wanted_in self.now)) picks.now }
        ensures choices { IfOk result (λ all. AreChoices (held_in D.held self.now) (wanted_in self.now)
            (map (λ p. p.name.now) picks.now) all.items) }
        ensures over { IsOver (held_in D.held self.now) (wanted_in self.now) opener.new }
    {
        let mut chosen = Vec::with_capacity(self.host.alloc(), picks.len())?;
        for i in 0..picks.len() {
            let pick = self.choose(opener, files, picks[i])?;
            chosen.push(pick)?;
        }
        Ok(chosen)
    }
}
