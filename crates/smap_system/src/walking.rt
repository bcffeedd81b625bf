//! The files below a folder.
ghost use Rattle.std.specs.Prelude.{◌≡◌, [], List, ℕ, true, IfOk, OnOk, ◌++◌, ◌∷◌, map, string_bytes};
ghost use Rattle.std.specs.Prelude.{string_cmp};
ghost use Rattle.std.specs.Prelude.{◌≤◌, MatchOption, Some, length, ◌&&◌};
ghost use Rattle.std.specs.Borrow.{Bor};
ghost use Rattle.std.specs.List.{slice_get};
ghost use Rattle.std.specs.List.Sorted.{IsPermutation, IsSorted};
ghost use Rattle.smap_system.specs.Walking as spec;
ghost use Rattle.smap_system.specs.Walking.{AreFilesBelow, AreWanted, files_in, folders_in, texts};
ghost use Rattle.smap_system.specs.Paths.{joined as joined_path};
ghost use Rattle.smap_system.specs.Tree.{IsListed, Tree, entries_in, entry_in};

use crate::disk::{Disk, Entry, EntryKind, Kind, Listing};
use crate::found::{Walk, WalkFault};
use crate::paths::joined;
use std::alloc::{AllocError, Global};
use std::io::{self, ErrorKind};

/// Which files a walk is for, and below which folder.
#[derive(Drop)]
struct Search<'a, D> {
    alloc: Global,
    disk: &'a D,
    root: &'a str,
    endings: &'a [&'a str],
}

/// A walk that isn't over.
#[derive(Drop)]
struct State {
    names: Vec<String>,
    unnamed: u64,
    /// The root and the folders below it, which are read one after another.
    folders: Vec<String>,
    links: bool,
    /// Whether there is anything but links and folders.
    others: bool,
}

/// Whether a name ends in this, with something before it.
fn has_one(name: &[u8], ending: &[u8]) -> bool
    ensures { result ≡ spec.has_one name.now ending.now }
{
    ending.len() < name.len() && name.ends_with(ending)
}

fn has_ending(name: &str, endings: &[&str]) -> bool
    ensures { result ≡ spec.has_ending endings.now name.now }
{
    endings
        .iter()
        .any(|ending| has_one(name.as_bytes(), ending.as_bytes()))
}

fn is_folder(kind: EntryKind) -> bool
    ensures { result ≡ spec.is_folder kind }
{
    match kind {
        EntryKind::Folder => true,
        EntryKind::File | EntryKind::Link | EntryKind::Special => false,
    }
}

fn is_file(kind: Kind) -> bool
    ensures { result ≡ spec.is_file kind }
{
    match kind {
        Kind::File => true,
        Kind::Folder | Kind::Special | Kind::Missing => false,
    }
}

fn fault_of(path: String, error: io::Error) -> WalkFault {
    if error.kind() == ErrorKind::OutOfMemory {
        WalkFault::Memory
    } else {
        WalkFault::Folder { path, error }
    }
}

impl<D: Disk> Search<'_, D> {
    /// Whether a link with this name below the root leads to a file.
    fn leads_to_file(&self, name: &str) -> Result<bool, AllocError>
        ensures { (t : Tree) → D.tree self.now.disk.now ≡ Some t
            → IfOk result (λ b. b ≡ spec.is_file (t.kinds (joined_path self.now.root.now name.now))) }
    {
        let path = joined(self.alloc, self.root, name)?;
        Ok(is_file(self.disk.kind(&path)))
    }

    /// Whether an entry with this name below the root counts.
    fn is_wanted(&self, name: &str, entry: &Entry) -> Result<bool, AllocError>
        ensures ending { IfOk result (λ b. b ≡ true
            → spec.has_ending self.now.endings.now (string_bytes entry.now.name) ≡ true) }
        ensures counts { (t : Tree) → D.tree self.now.disk.now ≡ Some t → IfOk result (λ b.
            b ≡ (spec.has_ending self.now.endings.now (string_bytes entry.now.name)
            && spec.counts t (joined_path self.now.root.now name.now) entry.now.kind)) }
    {
        if !has_ending(&entry.name, self.endings) {
            return Ok(false);
        }
        match entry.kind {
            EntryKind::File => Ok(true),
            EntryKind::Link => self.leads_to_file(name),
            EntryKind::Folder | EntryKind::Special => Ok(false),
        }
    }

    /// The entries of a folder below the root; none of one that is gone by now.
    fn listing_of(&self, folder: &str) -> Result<Listing, WalkFault>
        ensures { IfOk result
            (IsListed (D.tree self.now.disk.now) (joined_path self.now.root.now folder.now)) }
    {
        let path = joined(self.alloc, self.root, folder)?;
        match self.disk.list(self.alloc, &path) {
            Ok(listing) => Ok(listing),
            Err(error) => match error.kind() {
                // it is gone since the folder above it was read
                ErrorKind::NotFound if !folder.is_empty() => Ok(Listing {
                    entries: Vec::new(self.alloc),
                    unnamed: 0,
                }),
                _ => Err(fault_of(path, error)),
            },
        }
    }
}

impl State {
    /// A walk that has the root to read.
    fn new(alloc: Global) -> Result<State, AllocError>
        ensures names { IfOk result (λ s. s.names.items ≡ []) }
        ensures folders { IfOk result (λ s. texts s.folders.items ≡ [] ∷ []) }
    {
        Ok(State {
            names: Vec::new(alloc),
            unnamed: 0,
            folders: vec![in alloc; String::new(alloc)]?,
            links: false,
            others: false,
        })
    }

    /// Notes what an entry is.
    fn note(&mut self, kind: EntryKind)
        ensures names { self.new.names ≡ self.old.names }
        ensures folders { self.new.folders ≡ self.old.folders }
    {
        match kind {
            EntryKind::Link => self.links = true,
            EntryKind::File | EntryKind::Special => self.others = true,
            EntryKind::Folder => {}
        }
    }

    /// Notes how many entries have no name.
    fn note_unnamed(&mut self, count: u64)
        ensures names { self.new.names ≡ self.old.names }
        ensures folders { self.new.folders ≡ self.old.folders }
    {
        self.unnamed = self.unnamed.saturating_add(count);
        if count > 0 {
            self.others = true;
        }
    }

    fn add_folder(&mut self, name: String) -> Result<(), AllocError>
        ensures names { self.new.names ≡ self.old.names }
        ensures folders { OnOk result (self.new.folders.items ≡ self.old.folders.items ++ name ∷ []) }
    {
        self.folders.push(name)?;
        Ok(())
    }

    fn add_name(&mut self, name: String) -> Result<(), AllocError>
        ensures names { OnOk result (self.new.names.items ≡ self.old.names.items ++ name ∷ []) }
        ensures folders { self.new.folders ≡ self.old.folders }
    {
        self.names.push(name)?;
        Ok(())
    }

    /// Takes in an entry of a folder below the root.
    fn add<D: Disk>(
        &mut self,
        search: &Search<'_, D>,
        folder: &str,
        entry: &Entry,
    ) -> Result<(), AllocError>
        ensures wanted { AreWanted search.now.endings.now self.old.names.items
            → OnOk result (AreWanted search.now.endings.now self.new.names.items) }
        ensures folders { OnOk result (texts self.new.folders.items
            ≡ texts self.old.folders.items ++ folders_in folder.now (entry_in entry.now ∷ [])) }
        ensures files { (t : Tree) → D.tree search.now.disk.now ≡ Some t
            → OnOk result (texts self.new.names.items ≡ texts self.old.names.items
            ++ files_in t search.now.root.now (spec.has_ending search.now.endings.now) folder.now
            (entry_in entry.now ∷ [])) }
    {
        self.note(entry.kind);
        let name = joined(search.alloc, folder, &entry.name)?;
        if is_folder(entry.kind) {
            return self.add_folder(name);
        }
        if search.is_wanted(&name, entry)? {
            return self.add_name(name);
        }
        Ok(())
    }

    /// Takes in all entries of a folder below the root.
    fn add_all<D: Disk>(
        &mut self,
        search: &Search<'_, D>,
        folder: &str,
        listing: &Listing,
    ) -> Result<(), AllocError>
        ensures wanted { AreWanted search.now.endings.now self.old.names.items
            → OnOk result (AreWanted search.now.endings.now self.new.names.items) }
        ensures folders { OnOk result (texts self.new.folders.items
            ≡ texts self.old.folders.items ++ folders_in folder.now (entries_in listing.now)) }
        ensures files { (t : Tree) → D.tree search.now.disk.now ≡ Some t
            → OnOk result (texts self.new.names.items ≡ texts self.old.names.items
            ++ files_in t search.now.root.now (spec.has_ending search.now.endings.now) folder.now
            (entries_in listing.now)) }
    {
        self.note_unnamed(listing.unnamed);
        for i in 0..listing.entries.len() {
            self.add(search, folder, &listing.entries[i])?;
        }
        Ok(())
    }

    /// The folder with this number, by its name below the root.
    fn folder(&self, alloc: Global, number: usize) -> Result<Option<String>, AllocError>
        ensures { IfOk result (λ o. MatchOption o (length self.now.folders.items ≤ number)
            (λ f. slice_get (texts self.now.folders.items) number ≡ Some (string_bytes f))) }
    {
        let Some(folder) = self.folders.get(number) else {
            return Ok(None);
        };
        Ok(Some(String::from_str(alloc, folder)?))
    }

    fn finish(self) -> Result<Walk, AllocError>
        ensures order { IfOk result (λ w. IsSorted string_cmp w.names.items) }
        ensures wanted { (endings : List (Bor (List ℕ))) → AreWanted endings self.names.items
            → IfOk result (λ w. AreWanted endings w.names.items) }
        ensures same { IfOk result (λ w. IsPermutation self.names.items w.names.items) }
    {
        let State {
            mut names,
            unnamed,
            folders: _,
            links,
            others,
        } = self;
        names.sort()?;
        Ok(Walk {
            names,
            unnamed,
            only_links: links && !others,
        })
    }
}

/// The files at any depth below a folder whose names end in one of these with something before it. Links to
/// files count, links to folders aren't followed, pipes and devices don't count.
///
/// # Errors
///
/// `Folder` with the first folder that can't be read; `Memory`.
pub fn walk<D: Disk>(
    alloc: Global,
    disk: &D,
    folder: &str,
    endings: &[&str],
) -> Result<Walk, WalkFault>
    ensures order { IfOk result (λ w. IsSorted string_cmp w.names.items) }
    ensures wanted { IfOk result (λ w. AreWanted endings.now w.names.items) }
    ensures below { IfOk result (λ w. AreFilesBelow (D.tree disk.now) folder.now
        (spec.has_ending endings.now) w.names.items) }
{
    let search = Search {
        alloc,
        disk,
        root: folder,
        endings,
    };
    let mut state = State::new(alloc)?;
    for number in 0..usize::MAX {
        let Some(below) = state.folder(alloc, number)? else {
            return Ok(state.finish()?);
        };
        let listing = search.listing_of(&below)?;
        state.add_all(&search, &below, &listing)?;
    }
    Err(WalkFault::Memory)
}
