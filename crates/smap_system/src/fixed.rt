//! Files and folders in memory that don't change, so that contracts can say what they hold.
ghost use Rattle.std.specs.Prelude.{◌≡◌, IfOk, MatchResult, None, Some, map, option_map};
ghost use Rattle.smap_system.specs.Fixed as spec;
ghost use Rattle.smap_system.specs.Tree.{entries_in, entry_in};

use crate::disk::{Disk, Entry, EntryKind, Kind, Listing, Stamp};
use std::alloc::{AllocError, Global};
use std::io::{self, ErrorKind};

/// A file's name, and what it holds.
#[derive(Clone, Copy)]
pub struct FixedFile<'a> {
    pub name: &'a str,
    pub bytes: &'a [u8],
}

/// An entry of a folder: its name there, and what it is.
#[derive(Clone, Copy)]
pub struct FixedEntry<'a> {
    pub name: &'a str,
    pub kind: EntryKind,
}

/// A folder's name, and its entries.
#[derive(Clone, Copy)]
pub struct FixedFolder<'a> {
    pub name: &'a str,
    pub entries: &'a [FixedEntry<'a>],
}

/// Files and folders in memory that don't change: nothing can be written. Contracts know what they hold.
#[derive(Clone, Copy)]
pub struct FixedDisk<'a> {
    pub files: &'a [FixedFile<'a>],
    pub folders: &'a [FixedFolder<'a>],
}

/// What the first file with this name holds.
fn bytes_of<'a>(files: &[FixedFile<'a>], name: &str) -> Option<&'a [u8]>
    ensures { option_map (λ b. b.now) result ≡ spec.held_by files.now name.now }
{
    for file in files {
        if file.name == name {
            return Some(file.bytes);
        }
    }
    None
}

/// The entries of the first folder with this name.
fn entries_of<'a>(folders: &[FixedFolder<'a>], name: &str) -> Option<&'a [FixedEntry<'a>]>
    ensures { option_map (λ es. map spec.entry_of es.now) result ≡ spec.entries_by folders.now name.now }
{
    for folder in folders {
        if folder.name == name {
            return Some(folder.entries);
        }
    }
    None
}

/// An entry as a folder lists it.
fn entry_of(alloc: Global, entry: &FixedEntry<'_>) -> Result<Entry, AllocError>
    ensures { IfOk result (λ e. entry_in e ≡ spec.entry_of entry.now) }
{
    Ok(Entry {
        name: String::from_str(alloc, entry.name)?,
        kind: entry.kind,
    })
}

/// The entries as a folder lists them.
fn listing_of(alloc: Global, entries: &[FixedEntry<'_>]) -> Result<Listing, AllocError>
    ensures { IfOk result (λ l. entries_in l ≡ map spec.entry_of entries.now) }
{
    let mut listed = Vec::new(alloc);
    for i in 0..entries.len() {
        listed.push(entry_of(alloc, &entries[i])?)?;
    }
    Ok(Listing {
        entries: listed,
        unnamed: 0,
    })
}

fn refused<T>() -> io::Result<T> {
    Err(io::Error::from(ErrorKind::ReadOnlyFilesystem))
}

impl<'a> FixedDisk<'a> {
    fn found(&self, path: &str) -> io::Result<&'a [u8]>
        ensures { MatchResult result (λ b. spec.held_by self.now.files.now path.now ≡ Some b.now)
            (λ e. spec.held_by self.now.files.now path.now ≡ None) }
    {
        match bytes_of(self.files, path) {
            Some(bytes) => Ok(bytes),
            None => Err(io::Error::from(ErrorKind::NotFound)),
        }
    }
}

impl<'a> Disk for FixedDisk<'a> {
    ghost use Rattle.std.specs.Prelude.{Some};
    ghost use Rattle.smap_system.specs.Fixed.{held_by, tree_of};

    type Reader = &'a [u8];

    type Writer = Vec<u8>;

    ghost held = { λ d. Some (held_by d.files.now) };

    ghost tree = { λ d. Some (tree_of d.files.now d.folders.now) };

    fn kind(&self, path: &str) -> Kind {
        if bytes_of(self.files, path).is_some() {
            Kind::File
        } else if entries_of(self.folders, path).is_some() {
            Kind::Folder
        } else {
            Kind::Missing
        }
    }

    fn open(&self, path: &str) -> io::Result<&'a [u8]> {
        self.found(path)
    }

    fn size(&self, path: &str) -> io::Result<u64> {
        let bytes = self.found(path)?;
        Ok(bytes.len() as u64)
    }

    fn list(&self, alloc: Global, path: &str) -> io::Result<Listing> {
        match entries_of(self.folders, path) {
            Some(entries) => match listing_of(alloc, entries) {
                Ok(listing) => Ok(listing),
                Err(_) => Err(io::Error::from(ErrorKind::OutOfMemory)),
            },
            None => Err(io::Error::from(ErrorKind::NotADirectory)),
        }
    }

    fn real_path(&self, alloc: Global, path: &str) -> io::Result<String> {
        let _ = self.found(path)?;
        Ok(String::from_str(alloc, path)?)
    }

    fn create_new(&self, _path: &str) -> io::Result<Vec<u8>> {
        refused()
    }

    fn create_private(&self, _path: &str) -> io::Result<Vec<u8>> {
        refused()
    }

    fn create_folder(&self, _path: &str) -> io::Result<()> {
        refused()
    }

    fn link(&self, _alloc: Global, _path: &str) -> io::Result<Option<String>> {
        Ok(None)
    }

    fn open_existing(&self, _path: &str) -> io::Result<Vec<u8>> {
        refused()
    }

    fn copy_permissions(&self, _from: &Vec<u8>, _to: &Vec<u8>) -> io::Result<()> {
        refused()
    }

    fn stamp(&self, path: &str) -> io::Result<Stamp> {
        let size = self.size(path)?;
        Ok(Stamp {
            device: 0,
            inode: 0,
            size,
            written: (0, 0),
        })
    }

    fn sync(&self, _file: &Vec<u8>) -> io::Result<()> {
        Ok(())
    }

    fn rename(&self, _from: &str, _to: &str) -> io::Result<()> {
        refused()
    }

    fn remove(&self, _path: &str) -> io::Result<()> {
        refused()
    }
}
