//! What a program asks of a file system. Paths are text, in UTF-8.
ghost use Rattle.std.specs.Prelude.{List, MatchResult, Option, ℕ, IfOk};
ghost use Rattle.smap_system.specs.Held.{GivesHeld, HasSize, IsNotHeld};
ghost use Rattle.smap_system.specs.Tree.{IsKind, IsListed, IsUntold, Told};
ghost use Rattle.std.specs.Prelude.{◌≡◌, IfErr};
ghost use Rattle.std.specs.IoError.{error_kind};

use std::alloc::Global;
use std::io::{self, ErrorKind, Read, Write};

/// What is there under a name, links followed.
#[derive(Clone, Copy, Debug, PartialEq, Eq)]
pub enum Kind {
    File,
    Folder,
    /// A pipe, a device or a socket.
    Special,
    Missing,
}

/// What an entry of a folder is, links not followed.
#[derive(Clone, Copy, PartialEq, Eq)]
pub enum EntryKind {
    File,
    Folder,
    Link,
    Special,
}

/// An entry of a folder.
#[derive(Drop)]
pub struct Entry {
    /// Its name in the folder, without a slash.
    pub name: String,
    pub kind: EntryKind,
}

/// The entries of one folder, and how many have names that aren't UTF-8, which can't be opened.
#[derive(Drop)]
pub struct Listing {
    pub entries: Vec<Entry>,
    pub unnamed: u64,
}

/// What tells a file from the one that it was before, or that another has put into its place.
#[derive(Clone, Copy, PartialEq, Eq)]
pub struct Stamp {
    /// Of the file system that it is on.
    pub device: u64,
    /// Its number there.
    pub inode: u64,
    /// In bytes.
    pub size: u64,
    /// When it was last written, in seconds since 1970, and the nanoseconds beyond.
    pub written: (i64, i64),
}

/// Linux's number for it.
const EISDIR: i32 = 21;

/// Why a folder isn't read or written, as the system says it.
pub(crate) fn is_a_folder() -> io::Error {
    io::Error::from_raw_os_error(EISDIR)
}

/// A file system.
pub trait Disk {
    type Reader: Read + Drop;

    type Writer: Write + Drop;

    // what its files hold, by their names, where it says so
    ghost held: { Self → Option (List ℕ → Option (List ℕ)) };

    // what stands under names and in folders, where it says so
    ghost tree: { Self → Told };

    /// What can't be looked at is missing.
    fn kind(&self, path: &str) -> Kind
        ensures { IsKind (tree self.now) path.now result };

    /// A file to be read from its start.
    ///
    /// # Errors
    ///
    /// The system's.
    fn open(&self, path: &str) -> io::Result<Self::Reader>
        ensures { MatchResult result (λ r. GivesHeld (held self.now) path.now (Self.Reader.remaining r))
            (λ e. IsNotHeld (held self.now) path.now) };

    /// In bytes.
    ///
    /// # Errors
    ///
    /// The system's: `IsADirectory` for a folder.
    fn size(&self, path: &str) -> io::Result<u64>
        ensures { IfOk result (HasSize (held self.now) path.now) };

    /// The entries of a folder, in no order; a link to a folder is followed.
    ///
    /// # Errors
    ///
    /// The system's: `NotFound` where there is no such folder, or none any more.
    fn list(&self, alloc: Global, path: &str) -> io::Result<Listing>
        ensures entries { IfOk result (IsListed (tree self.now) path.now) }
        ensures gone { IfErr result (λ e. error_kind e ≡ ErrorKind.NotFound → IsUntold (tree self.now)) };

    /// The absolute path once links are followed.
    ///
    /// # Errors
    ///
    /// The system's: `NotFound` where there is no such file.
    fn real_path(&self, alloc: Global, path: &str) -> io::Result<String>;

    /// A file that isn't there yet: whatever has this name, a link too, is refused.
    ///
    /// # Errors
    ///
    /// `AlreadyExists`, or the system's.
    fn create_new(&self, path: &str) -> io::Result<Self::Writer>;

    /// The same, of a file that nobody but its owner may read or write.
    ///
    /// # Errors
    ///
    /// Those of `create_new`.
    fn create_private(&self, path: &str) -> io::Result<Self::Writer>;

    /// A folder that isn't there yet: whatever has this name, a link too, is refused.
    ///
    /// # Errors
    ///
    /// `AlreadyExists`, or the system's.
    fn create_folder(&self, path: &str) -> io::Result<()>;

    /// The path that a link leads to; `None` where the path ends in no link.
    ///
    /// # Errors
    ///
    /// `PermissionDenied` where the link belongs to a user who is neither the program's nor root, or the
    /// system's.
    fn link(&self, alloc: Global, path: &str) -> io::Result<Option<String>>;

    /// A file that is there, to be written. Nothing of it is changed.
    ///
    /// # Errors
    ///
    /// `PermissionDenied` where another user may have put it there for this one to write, or the system's.
    fn open_existing(&self, path: &str) -> io::Result<Self::Writer>;

    /// Gives a file the permissions of another, and its owner and group as far as the system allows that.
    /// Where a group can't be given, nobody may do more than before.
    ///
    /// # Errors
    ///
    /// The system's, of the permissions.
    fn copy_permissions(&self, from: &Self::Writer, to: &Self::Writer) -> io::Result<()>;

    /// What a file is now, links followed.
    ///
    /// # Errors
    ///
    /// The system's.
    fn stamp(&self, path: &str) -> io::Result<Stamp>;

    /// Waits until what was written to a file is on the medium.
    ///
    /// # Errors
    ///
    /// The system's.
    fn sync(&self, file: &Self::Writer) -> io::Result<()>;

    /// Gives a file another name, in place of what had it.
    ///
    /// # Errors
    ///
    /// The system's.
    fn rename(&self, from: &str, to: &str) -> io::Result<()>;

    /// Removes a file.
    ///
    /// # Errors
    ///
    /// The system's.
    fn remove(&self, path: &str) -> io::Result<()>;
}
