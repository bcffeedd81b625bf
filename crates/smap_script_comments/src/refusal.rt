//! Why a script isn't changed, or a file isn't read or written.
use crate::comments::CommentFault;
use crate::replacing::ReplaceFault;
use smap_system::FileFault;
use std::alloc::AllocError;

/// Why a script isn't changed.
#[derive(Clone, Copy, Debug, PartialEq, Eq)]
pub(crate) enum Refusal {
    /// It names no map.
    NoMap,
    /// Where the comment is that names its map isn't found.
    Unclear,
    /// Its text would name another map.
    Unread,
    /// The map in its comment can't be decoded.
    Garbled,
    /// Its map is no file of its folder.
    Elsewhere,
    /// The file that it names isn't there.
    Absent,
    /// The file that it names is no map.
    NotMap,
    /// Another file has the name that its map would get.
    Taken,
    /// It holds its map.
    Within,
    /// It or the file of its map is a link.
    Link,
    /// It or its map has a debug id that can't be copied.
    OddId,
    /// It and its map have different debug ids.
    OtherId,
    /// A file has, or would have, more than 268,435,456 bytes.
    TooLong,
    /// A file can't be read.
    Unreadable,
    /// A file may not be written.
    Unwritable,
    /// The new file wasn't written in full.
    NotWritten,
    /// Another program has written the script since it was read.
    Changed,
    /// Out of memory.
    Memory,
}

impl Refusal {
    /// What is said of it.
    pub(crate) fn text(self) -> &'static str {
        match self {
            Refusal::NoMap => "names no map",
            Refusal::Unclear => "the place of the comment that names its map is unclear",
            Refusal::Unread => "the new comment would be read otherwise",
            Refusal::Garbled => "the map within it can't be decoded",
            Refusal::Elsewhere => "its map is no file of its folder",
            Refusal::Absent => "the map that it names is not there",
            Refusal::NotMap => "the file that it names is no map",
            Refusal::Taken => "another file has the name of its map",
            Refusal::Within => "its map is within it",
            Refusal::Link => "it or its map is a link",
            Refusal::OddId => "the debug id that it or its map has is invalid",
            Refusal::OtherId => "its map has another debug id",
            Refusal::TooLong => "input too long",
            Refusal::Unreadable => "cannot read it",
            Refusal::Unwritable => "cannot write it",
            Refusal::NotWritten => "write failed",
            Refusal::Changed => "it changed meanwhile, and stays as it is",
            Refusal::Memory => "out of memory",
        }
    }

    /// The status of a run that meets it.
    pub(crate) fn status(self) -> u8 {
        match self {
            Refusal::Memory => 4,
            Refusal::TooLong | Refusal::Unreadable | Refusal::Unwritable => 3,
            Refusal::NotWritten | Refusal::Changed => 3,
            _ => 1,
        }
    }
}

impl From<AllocError> for Refusal {
    ghost use Rattle.std.specs.Prelude.{◌≡◌};
    ghost use Rattle.smap_script_comments.specs.declared.refusal.Refusal.TheVariants as refusals;

    ghost from_gives = { λ _ r. r ≡ refusals.Memory };

    fn from(_error: AllocError) -> Refusal {
        Refusal::Memory
    }
}

impl From<CommentFault> for Refusal {
    fn from(fault: CommentFault) -> Refusal {
        match fault {
            CommentFault::Url | CommentFault::Unread => Refusal::Unread,
            CommentFault::Unclear => Refusal::Unclear,
            CommentFault::Memory => Refusal::Memory,
        }
    }
}

impl From<FileFault> for Refusal {
    fn from(fault: FileFault) -> Refusal {
        match fault {
            FileFault::TooLong => Refusal::TooLong,
            FileFault::Read(_) => Refusal::Unreadable,
            FileFault::Memory => Refusal::Memory,
        }
    }
}

impl From<ReplaceFault> for Refusal {
    fn from(fault: ReplaceFault) -> Refusal {
        match fault {
            ReplaceFault::Folder | ReplaceFault::File => Refusal::Unwritable,
            ReplaceFault::NotWritten => Refusal::NotWritten,
            ReplaceFault::Changed => Refusal::Changed,
        }
    }
}
