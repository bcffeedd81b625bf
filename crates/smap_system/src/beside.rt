//! A file that is written beside its name.
ghost use Rattle.std.specs.Prelude.{IfOk, string_bytes};
ghost use Rattle.smap_system.specs.BesideView.{target_in, temporary_in};
ghost use Rattle.smap_system.specs.Paths.{IsOneBeside};

use crate::disk::{Disk, Kind, is_a_folder};
use crate::paths::beside;
use std::alloc::Global;
use std::io::{self, ErrorKind};

/// How many names are tried.
const MOST_NAMES: u64 = 1000;

/// How many links are followed, as many as Linux follows.
const MOST_LINKS: u64 = 40;

/// A file that is written beside its name, and takes the name at the end: what had the name stays as it was
/// until then. A value of this type can't be let go of but by `finish` or `abandon`.
pub struct Beside {
    /// The name that the file has until it is finished: `FOLDER/.smap-N`, for the first N from 1 to 1000 that
    /// isn't there.
    pub temporary: String,
    target: String,
}

/// Why no file is begun.
#[derive(Drop)]
pub enum BesideFault {
    /// Nothing may be written under the name.
    Name(io::Error),
    /// No file can be made in its folder.
    Folder(io::Error),
}

impl BesideFault {
    /// The disk's error.
    pub fn into_error(self) -> io::Error {
        match self {
            BesideFault::Name(error) | BesideFault::Folder(error) => error,
        }
    }
}

/// The path once the links that it ends in are followed.
fn followed<D: Disk>(alloc: Global, disk: &D, path: &str) -> io::Result<String> {
    let mut path = String::from_str(alloc, path)?;
    for _ in 0..MOST_LINKS {
        match disk.link(alloc, &path)? {
            Some(next) => path = next,
            None => return Ok(path),
        }
    }
    Err(io::Error::from(ErrorKind::FilesystemLoop))
}

/// The file that has a name, if one has.
fn existing<D: Disk>(disk: &D, path: &str) -> io::Result<Option<D::Writer>> {
    match disk.kind(path) {
        Kind::File => Ok(Some(disk.open_existing(path)?)),
        Kind::Missing => Ok(None),
        Kind::Folder => Err(is_a_folder()),
        Kind::Special => Err(io::Error::new(ErrorKind::InvalidInput, "not a regular file")),
    }
}

/// The name that a file takes at the end, and the file that has it.
fn target_of<D: Disk>(
    alloc: Global,
    disk: &D,
    path: &str,
) -> io::Result<(String, Option<D::Writer>)> {
    let target = followed(alloc, disk, path)?;
    let old = existing(disk, &target)?;
    Ok((target, old))
}

/// A file by the first name beside another that isn't there. One that gets the permissions of another is its
/// owner's alone until then.
fn create_first<D: Disk>(
    alloc: Global,
    disk: &D,
    target: &str,
    private: bool,
) -> io::Result<(String, D::Writer)>
    ensures { IfOk result (λ made. IsOneBeside target.now (string_bytes made.0)) }
{
    for number in 1..=MOST_NAMES {
        let name = beside(alloc, target, number)?;
        let made = if private {
            disk.create_private(&name)
        } else {
            disk.create_new(&name)
        };
        match made {
            Ok(writer) => return Ok((name, writer)),
            Err(error) if error.kind() == ErrorKind::AlreadyExists => {}
            Err(error) => return Err(error),
        }
    }
    Err(io::Error::from(ErrorKind::AlreadyExists))
}

/// A file beside a target, with the permissions of the old one.
fn create_for<D: Disk>(
    alloc: Global,
    disk: &D,
    target: String,
    old: Option<D::Writer>,
) -> io::Result<(Beside, D::Writer)>
    ensures { IfOk result (λ made. IsOneBeside (target_in made.0) (temporary_in made.0)) }
{
    let (temporary, writer) = create_first(alloc, disk, &target, old.is_some())?;
    if let Some(old) = &old {
        if let Err(error) = disk.copy_permissions(old, &writer) {
            let _ = disk.remove(&temporary);
            return Err(error);
        }
    }
    Ok((Beside { temporary, target }, writer))
}

/// Begins a file that takes this name at the end. Links of this user and of root are followed to their file
/// first. A file that is there has to be one that may be written: its permissions are copied, and its owner
/// where the system allows that, and until then nobody but the owner may read the new one.
///
/// # Errors
///
/// `Name` with `IsADirectory` for a folder, `InvalidInput` for a pipe or a device, `PermissionDenied` for a
/// link of another user or a file that may not be written; and each with the disk's. Nothing is left behind.
pub fn create_beside<D: Disk>(
    alloc: Global,
    disk: &D,
    path: &str,
) -> Result<(Beside, D::Writer), BesideFault>
    ensures { IfOk result (λ made. IsOneBeside (target_in made.0) (temporary_in made.0)) }
{
    match target_of(alloc, disk, path) {
        Ok((target, old)) => match create_for(alloc, disk, target, old) {
            Ok(made) => Ok(made),
            Err(error) => Err(BesideFault::Folder(error)),
        },
        Err(error) => Err(BesideFault::Name(error)),
    }
}

impl Beside {
    /// Gives the file its name. The writer has to be let go of before.
    ///
    /// # Errors
    ///
    /// The disk's. The file is removed then.
    pub fn finish<D: Disk>(self, disk: &D) -> io::Result<()> {
        let Beside { temporary, target } = self;
        let answer = disk.rename(&temporary, &target);
        if answer.is_err() {
            let _ = disk.remove(&temporary);
        }
        answer
    }

    /// Removes the file, as far as that can be done.
    pub fn abandon<D: Disk>(self, disk: &D) {
        let Beside {
            temporary,
            target: _,
        } = self;
        let _ = disk.remove(&temporary);
    }
}
