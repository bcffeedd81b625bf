//! The file system of the machine.
ghost use Rattle.std.specs.Prelude.{◌≡◌};
ghost use Rattle.std.specs.Fs.{IsDir, IsFile, IsSymlink, file_type};

use crate::disk::{Disk, Entry, EntryKind, Kind, Listing, Stamp, is_a_folder};
use crate::paths::{joined, parted};
use crate::rights::rights;
use std::alloc::Global;
use std::fs::{self, DirEntry, FileType, Metadata, OpenFile, OpenOptions, Permissions};
use std::io::{self, ErrorKind};
use std::os::fd::AsFd;
use std::os::unix::fs::{MetadataExt, OpenOptionsExt, PermissionsExt, fchown};
use std::rt::Files;

/// The file system of the machine, or what a runtime has in place of it.
#[derive(Drop)]
pub struct System<'a, R> {
    rt: &'a R,
}

impl<'a, R> System<'a, R> {
    pub fn new(rt: &'a R) -> System<'a, R> {
        System { rt }
    }
}

fn kind_of(metadata: &Metadata) -> Kind
    ensures file { IsFile (file_type metadata.now) → result ≡ Kind.File }
    ensures folder { IsDir (file_type metadata.now) → result ≡ Kind.Folder }
    ensures other { ¬ (IsFile (file_type metadata.now)) → ¬ (IsDir (file_type metadata.now))
        → result ≡ Kind.Special }
{
    if metadata.is_file() {
        Kind::File
    } else if metadata.is_dir() {
        Kind::Folder
    } else {
        Kind::Special
    }
}

fn entry_kind(kind: FileType) -> EntryKind
    ensures file { IsFile kind → result ≡ EntryKind.File }
    ensures folder { IsDir kind → result ≡ EntryKind.Folder }
    ensures link { IsSymlink kind → result ≡ EntryKind.Link }
{
    if kind.is_file() {
        EntryKind::File
    } else if kind.is_dir() {
        EntryKind::Folder
    } else if kind.is_symlink() {
        EntryKind::Link
    } else {
        EntryKind::Special
    }
}

/// Adds an entry to a listing, unless it is gone by now.
fn add_entry<R: Files>(
    alloc: Global,
    entry: &DirEntry<R, Global>,
    listing: &mut Listing,
) -> io::Result<()> {
    let kind = match entry.file_type() {
        Ok(kind) => entry_kind(kind),
        Err(error) if error.kind() == ErrorKind::NotFound => return Ok(()),
        Err(error) => return Err(error),
    };
    let name = String::from_str(alloc, entry.file_name())?;
    listing.entries.push(Entry { name, kind })?;
    Ok(())
}

/// The path that a link leads to.
fn target_of<R: Files>(rt: &R, alloc: Global, path: &str) -> io::Result<String> {
    let target = rt.read_link(alloc, path)?.into_string();
    if target.starts_with('/') {
        return Ok(target);
    }
    Ok(joined(alloc, parted(path).0, &target)?)
}

/// Whether this is the user who runs the program, to whom `/proc` gives its process.
fn is_this_user<R: Files>(rt: &R, user: u32) -> bool {
    fs::metadata(rt, "/proc/self").is_ok_and(|process| process.uid() == user)
}

/// Whether another user may have put a file where this one would write it: in a folder in which others can
/// make files and only their owners can remove them, as in `/tmp`. Linux refuses `>` there too.
fn is_planted<R: Files>(rt: &R, path: &str, file: &Metadata) -> bool {
    let folder = match parted(path).0 {
        "" => ".",
        folder => folder,
    };
    let Ok(folder) = fs::metadata(rt, folder) else {
        return true;
    };
    let is_shared = folder.mode() & 0o1000 != 0 && folder.mode() & 0o022 != 0;
    is_shared && file.uid() != folder.uid() && !is_this_user(rt, file.uid())
}

impl<R: Files + AllocGlobal + Clone + Drop> Disk for System<'_, R>
where
    R::File: AsFd,
{
    ghost use Rattle.std.specs.Prelude.{None};

    type Reader = R::File;

    type Writer = R::File;

    ghost held = { λ d. None };

    ghost tree = { λ d. None };

    fn kind(&self, path: &str) -> Kind {
        match fs::metadata(self.rt, path) {
            Ok(metadata) => kind_of(&metadata),
            Err(_) => Kind::Missing,
        }
    }

    fn open(&self, path: &str) -> io::Result<R::File> {
        fs::open(self.rt, path)
    }

    fn size(&self, path: &str) -> io::Result<u64> {
        let metadata = fs::metadata(self.rt, path)?;
        if metadata.is_dir() {
            return Err(is_a_folder());
        }
        Ok(metadata.len())
    }

    fn list(&self, alloc: Global, path: &str) -> io::Result<Listing> {
        let mut listing = Listing {
            entries: Vec::new(alloc),
            unnamed: 0,
        };
        for entry in fs::read_dir(self.rt, path)? {
            match entry {
                Ok(entry) => add_entry(alloc, &entry, &mut listing)?,
                Err(error) if error.kind() == ErrorKind::InvalidFilename => {
                    listing.unnamed = listing.unnamed.saturating_add(1);
                }
                Err(error) => return Err(error),
            }
        }
        Ok(listing)
    }

    fn real_path(&self, alloc: Global, path: &str) -> io::Result<String> {
        let path = self.rt.canonicalize(alloc, path)?;
        Ok(path.into_string())
    }

    fn create_new(&self, path: &str) -> io::Result<R::File> {
        OpenOptions::new()
            .write(true)
            .create_new(true)
            .open(self.rt, path)
    }

    fn create_private(&self, path: &str) -> io::Result<R::File> {
        OpenOptions::new()
            .write(true)
            .create_new(true)
            .mode(0o600)
            .open(self.rt, path)
    }

    fn create_folder(&self, path: &str) -> io::Result<()> {
        fs::create_dir(self.rt, path)
    }

    fn link(&self, alloc: Global, path: &str) -> io::Result<Option<String>> {
        let metadata = match fs::symlink_metadata(self.rt, path) {
            Ok(metadata) => metadata,
            Err(error) if error.kind() == ErrorKind::NotFound => return Ok(None),
            Err(error) => return Err(error),
        };
        if !metadata.is_symlink() {
            return Ok(None);
        }
        if metadata.uid() != 0 && !is_this_user(self.rt, metadata.uid()) {
            let why = "it is a link of another user";
            return Err(io::Error::new(ErrorKind::PermissionDenied, why));
        }
        Ok(Some(target_of(self.rt, alloc, path)?))
    }

    fn open_existing(&self, path: &str) -> io::Result<R::File> {
        let file = OpenOptions::new().write(true).open(self.rt, path)?;
        if is_planted(self.rt, path, &file.metadata()?) {
            let why = "it is another user's, in a folder that all may write to";
            return Err(io::Error::new(ErrorKind::PermissionDenied, why));
        }
        Ok(file)
    }

    // By the open files alone: what has a name can be another file by now.
    fn copy_permissions(&self, from: &R::File, to: &R::File) -> io::Result<()> {
        let metadata = from.metadata()?;
        let keeps_group = fchown(to, None, Some(metadata.gid())).is_ok();
        let keeps_owner = fchown(to, Some(metadata.uid()), None).is_ok();
        let mode = rights(metadata.mode(), keeps_owner, keeps_group);
        to.set_permissions(Permissions::from_mode(mode))
    }

    fn stamp(&self, path: &str) -> io::Result<Stamp> {
        let metadata = fs::metadata(self.rt, path)?;
        Ok(Stamp {
            device: metadata.dev(),
            inode: metadata.ino(),
            size: metadata.len(),
            written: (metadata.mtime(), metadata.mtime_nsec()),
        })
    }

    fn sync(&self, file: &R::File) -> io::Result<()> {
        file.sync_all()
    }

    fn rename(&self, from: &str, to: &str) -> io::Result<()> {
        fs::rename(self.rt, from, to)
    }

    fn remove(&self, path: &str) -> io::Result<()> {
        fs::remove_file(self.rt, path)
    }
}
