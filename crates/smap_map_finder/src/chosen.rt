//! The maps that were opened for the names of a log.
ghost use Rattle.std.specs.Prelude.{◌≡◌, ◌==◌, Bool, IfOk, IfSome, List, OnOk, Some, count_by, false};
ghost use Rattle.std.specs.Prelude.{option_map, true, ℕ};
ghost use Rattle.std.specs.Global.{Vec};
ghost use Rattle.std.specs.List.{slice_get};
ghost use Rattle.smap_system.specs.Held.{Held};
ghost use Rattle.smap_map_finder.specs.Choice.{IsMapOf};
ghost use Rattle.smap_map_finder.specs.ChosenView.{AreChosen, Grows, HasMap, IsLeft, IsServedBy};
ghost use Rattle.smap_map_finder.specs.ChosenView.{IsSettledIn, IsTried, KeepsEnds, Serves};
ghost use Rattle.smap_map_finder.specs.ChosenView.{choices_of};
ghost use Rattle.smap_map_finder.specs.ChosenView.{no_choices};
ghost use Rattle.smap_map_finder.specs.declared.chosen.Opening.{Opening};
ghost use Rattle.smap_record.specs.Record.{record_of};
ghost use Rattle.smap_trace.specs.Scripts.{map_of};
ghost use Rattle.smap_map_files.specs.declared.wanted.Wanted.{Wanted};

use indexmap::{IndexMap, IndexSet};
use smap_link::bare;
use smap_map_choice::{Found, Pick};
use smap_record::SourceMap;
use smap_trace::{Maps, Scripts};
use std::alloc::{AllocError, Global};
use std::sync::Arc;

/// So many names without a map are remembered at most, and, where a log is read once, so many with one.
const MOST_NAMES: usize = 100_000;

/// What a name has, opened.
#[derive(Drop)]
pub(crate) struct Opening {
    /// The name of the log for which it was opened.
    pub(crate) name: Vec<u8>,
    /// What that name has.
    pub(crate) found: Found,
    /// None where there is none, or it is refused. Names that have the map share it.
    pub(crate) map: Option<Arc<SourceMap>>,
}

/// Whether an opening for one name serves another.
fn serves(opened: &[u8], opened_for: Found, name: &[u8], found: Found) -> bool
    ensures serves { result ≡ true → Serves opened.now opened_for name.now found }
    ensures all { Serves opened.now opened_for name.now found → result ≡ true }
{
    match (opened_for, found) {
        (Found::Given(i), Found::Given(j)) => i == j,
        (Found::ByEnd(i), Found::ByEnd(j)) => i == j && bare(opened) == bare(name),
        _ => false,
    }
}

/// Whether these are the same.
fn is_name(key: &[u8], name: &[u8]) -> bool
    ensures same { result ≡ true → key.now ≡ name.now }
    ensures other { result ≡ false → key.now ≡ name.now → ⊥ }
{
    if key == name {
        return true;
    }
    false
}

/// The map, to be shared.
fn shared(alloc: Global, map: Option<SourceMap>) -> Result<Option<Arc<SourceMap>>, AllocError>
    ensures { IfOk result (λ arc. option_map (λ a. a.value) arc ≡ map) }
{
    match map {
        Some(map) => Ok(Some(Arc::new(alloc, map)?)),
        None => Ok(None),
    }
}

/// A file of a folder without a URL, and a name of the log for which it was opened, without its query and its
/// fragment.
#[derive(Drop, PartialEq, Eq, Hash)]
pub(crate) struct End {
    pub(crate) file: usize,
    pub(crate) name: Vec<u8>,
}

/// The maps that were opened, and the names of the log that have them.
#[derive(Drop)]
pub(crate) struct Chosen {
    pub(crate) openings: Vec<Opening>,
    /// The numbers of the openings, by what stands for a find.
    pub(crate) numbers: IndexMap<Vec<u8>, usize>,
    /// The names that have maps.
    pub(crate) scripts: Scripts<Arc<SourceMap>>,
    /// Names that have no map, and whether they were looked for as those of frames.
    pub(crate) left: IndexMap<Vec<u8>, bool>,
    /// The files of folders without a URL that were opened.
    pub(crate) files: IndexSet<usize>,
    /// The same with the names for which they were.
    pub(crate) ends: IndexSet<End>,
    /// Whether it was told that one was opened for as many names as it may be.
    pub(crate) is_crowded: bool,
    /// How many files gave maps.
    pub(crate) count: usize,
    /// Names that were told to be taken for others.
    pub(crate) told: IndexMap<Vec<u8>, ()>,
    /// The greatest status of a map that was refused.
    pub(crate) worst: u8,
    /// Whether it was told of a name that it isn't clear which map it has.
    pub(crate) is_unclear: bool,
}

impl Chosen {
    pub(crate) fn new(alloc: Global) -> Chosen
        ensures { choices_of result ≡ no_choices }
    {
        Chosen {
            openings: Vec::new(alloc),
            numbers: IndexMap::new(alloc),
            scripts: Scripts::new(alloc),
            left: IndexMap::new(alloc),
            files: IndexSet::new(alloc),
            ends: IndexSet::new(alloc),
            is_crowded: false,
            count: 0,
            told: IndexMap::new(alloc),
            worst: 0,
            is_unclear: false,
        }
    }

    /// Whether it was told of a name that it isn't clear which map it has.
    pub(crate) fn is_unclear(&self) -> bool {
        self.is_unclear
    }

    /// Whether what was opened for a name gave no map.
    pub(crate) fn gave_none(&self, name: &[u8]) -> bool {
        self.openings.iter().any(|opening| opening.map.is_none() && opening.name.as_slice() == name)
    }

    /// How many files gave maps.
    pub(crate) fn opened_count(&self) -> usize {
        self.count
    }

    /// The names that have maps, as scripts.
    pub(crate) fn scripts(&self) -> &Scripts<Arc<SourceMap>>
        ensures { result.now ≡ (choices_of self.now).scripts }
    {
        &self.scripts
    }

    /// The map of a name.
    pub(crate) fn map_of(&self, name: &[u8]) -> Option<&SourceMap>
        ensures { option_map (λ m. record_of m.now) result ≡ map_of (choices_of self.now).scripts name.now }
    {
        self.scripts.map_of(name)
    }

    /// Forgets the names that have maps, once there are many; the maps stay open, and names that come again
    /// find them.
    pub(crate) fn forget_many(&mut self, alloc: Global)
        ensures chosen { (held : Held) (wanted : Wanted) → AreChosen held wanted (choices_of self.old)
            → AreChosen held wanted (choices_of self.new) }
        ensures ends { (choices_of self.new).ends ≡ (choices_of self.old).ends }
        ensures worst { self.new.worst ≡ self.old.worst }
    {
        if self.scripts.len() >= MOST_NAMES {
            self.scripts = Scripts::new(alloc);
        }
    }

    /// The number of the opening under this key, if it serves this name.
    pub(crate) fn number_of(&self, key: &[u8], name: &[u8], found: Found) -> Option<usize>
        ensures { IfSome result (λ n. (o : Opening) × IsServedBy (choices_of self.now) n name.now found o) }
    {
        let number = *self.numbers.get(key)?;
        let opening = self.openings.get(number)?;
        if serves(&opening.name, opening.found, name, found) {
            Some(number)
        } else {
            None
        }
    }

    /// The map of the opening with this number, if it gave one.
    pub(crate) fn map_at(&self, number: usize) -> Option<&Arc<SourceMap>>
        ensures { (o : Opening) → slice_get (choices_of self.now).openings number ≡ Some o
            → option_map (λ m. m.now) result ≡ o.map }
    {
        let opening = self.openings.get(number)?;
        opening.map.as_ref()
    }

    /// Notes what became of opening what a name has, and answers the number of that.
    pub(crate) fn note_opening(
        &mut self,
        alloc: Global,
        key: Vec<u8>,
        pick: &Pick<'_>,
        map: Option<SourceMap>,
    ) -> Result<usize, AllocError>
        ensures chosen { (held : Held) (wanted : Wanted)
            → IsTried held wanted self.old.worst pick.now.name.now pick.now.found map
            → AreChosen held wanted (choices_of self.old) → AreChosen held wanted (choices_of self.new) }
        ensures number { IfOk result (λ n. (o : Opening)
            × (slice_get (choices_of self.new).openings n ≡ Some o)
            × (o.name.items ≡ pick.now.name.now) × (o.found ≡ pick.now.found)) }
        ensures grows { Grows (choices_of self.old) (choices_of self.new) }
        ensures ends { (choices_of self.new).ends ≡ (choices_of self.old).ends }
    {
        let number = self.openings.len();
        let name = Vec::from_slice(alloc, pick.name)?;
        let map = shared(alloc, map)?;
        self.numbers.insert(key, number)?;
        self.openings.push(Opening {
            name,
            found: pick.found,
            map,
        })?;
        Ok(number)
    }

    /// Whether a file of a folder without a URL was opened.
    pub(crate) fn is_opened(&self, file: usize) -> bool {
        self.files.contains(&file)
    }

    /// For how many names it was.
    pub(crate) fn count_of(&self, file: usize) -> usize
        ensures { result ≡ count_by (λ e. e.file == file) (choices_of self.now).ends }
    {
        self.ends.iter().filter(|end| end.file == file).count()
    }

    /// Notes that what was found for a name was opened, if it is a file of a folder without a URL.
    pub(crate) fn note_end(
        &mut self,
        alloc: Global,
        name: &[u8],
        found: Found,
    ) -> Result<(), AllocError>
        ensures chosen { (held : Held) (wanted : Wanted) → AreChosen held wanted (choices_of self.old)
            → AreChosen held wanted (choices_of self.new) }
        ensures grows { Grows (choices_of self.old) (choices_of self.new) }
        ensures ends { (held : Held) (wanted : Wanted) → KeepsEnds held wanted name.now found
            (choices_of self.old) (choices_of self.new) }
    {
        let Found::ByEnd(file) = found else {
            return Ok(());
        };
        let name = Vec::from_slice(alloc, bare(name))?;
        self.files.insert(file)?;
        self.ends.insert(End { file, name })?;
        Ok(())
    }

    /// Notes that a name has this map.
    pub(crate) fn note_mapped(
        &mut self,
        alloc: Global,
        name: &[u8],
        map: Arc<SourceMap>,
    ) -> Result<(), AllocError>
        ensures chosen { (held : Held) (wanted : Wanted) → IsMapOf held wanted name.now map.value
            → AreChosen held wanted (choices_of self.old) → AreChosen held wanted (choices_of self.new) }
        ensures has { OnOk result (HasMap (choices_of self.new) name.now) }
        ensures grows { Grows (choices_of self.old) (choices_of self.new) }
        ensures ends { (choices_of self.new).ends ≡ (choices_of self.old).ends }
    {
        let name = Vec::from_slice(alloc, name)?;
        match self.scripts.put(name, map) {
            Ok(()) => Ok(()),
            Err(_) => Err(AllocError),
        }
    }

    /// Whether a name is noted to have no map.
    fn is_left(&self, name: &[u8], in_frames: bool) -> bool
        ensures { result ≡ true → (i : ℕ) × (k : Vec ℕ)
            × (slice_get (choices_of self.now).left i ≡ Some (k, in_frames))
            × (k.items ≡ name.now) }
    {
        let Some((_, key, as_frame)) = self.left.get_full(name) else {
            return false;
        };
        if *as_frame != in_frames {
            return false;
        }
        is_name(key, name)
    }

    pub(crate) fn is_known(&self, name: &[u8], in_frames: bool) -> bool
        ensures { (held : Held) (wanted : Wanted) → AreChosen held wanted (choices_of self.now)
            → result ≡ true
            → IsSettledIn held wanted in_frames (choices_of self.now) name.now }
    {
        self.is_left(name, in_frames) || self.map_of(name).is_some()
    }

    /// Forgets the names that have no map, once there are many.
    fn forget_left(&mut self, alloc: Global)
        ensures chosen { (held : Held) (wanted : Wanted) → AreChosen held wanted (choices_of self.old)
            → AreChosen held wanted (choices_of self.new) }
        ensures left { (held : Held) (wanted : Wanted) (in_frames : Bool) (name : List ℕ)
            → IsLeft held wanted in_frames (choices_of self.old) name
            → IsLeft held wanted in_frames (choices_of self.new) name }
        ensures grows { Grows (choices_of self.old) (choices_of self.new) }
        ensures ends { (choices_of self.new).ends ≡ (choices_of self.old).ends }
    {
        if self.left.len() >= MOST_NAMES {
            self.left = IndexMap::new(alloc);
        }
    }

    /// Notes that a name has no map.
    pub(crate) fn note_left(
        &mut self,
        alloc: Global,
        name: &[u8],
        in_frames: bool,
    ) -> Result<(), AllocError>
        ensures chosen { (held : Held) (wanted : Wanted)
            → IsLeft held wanted in_frames (choices_of self.old) name.now
            → AreChosen held wanted (choices_of self.old) → AreChosen held wanted (choices_of self.new) }
        ensures left { (held : Held) (wanted : Wanted)
            → IsLeft held wanted in_frames (choices_of self.old) name.now
            → IsLeft held wanted in_frames (choices_of self.new) name.now }
        ensures grows { Grows (choices_of self.old) (choices_of self.new) }
        ensures ends { (choices_of self.new).ends ≡ (choices_of self.old).ends }
    {
        let name = Vec::from_slice(alloc, name)?;
        self.forget_left(alloc);
        self.left.insert(name, in_frames)?;
        Ok(())
    }
}
