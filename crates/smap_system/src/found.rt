//! What a walk over a folder finds.

use std::alloc::AllocError;
use std::io;

/// The names of files below a folder, relative to it, in byte order.
#[derive(Drop)]
pub struct Walk {
    pub names: Vec<String>,
    /// How many names aren't UTF-8. What has one is left out.
    pub unnamed: u64,
    /// Whether the folder holds links, and nothing but links and folders, at any depth.
    pub only_links: bool,
}

/// Why a walk ends early.
#[derive(Debug, Drop)]
pub enum WalkFault {
    /// A folder, the first one or one below it, can't be read.
    Folder { path: String, error: io::Error },
    /// Out of memory.
    Memory,
}

impl From<AllocError> for WalkFault {
    ghost use Rattle.std.specs.Prelude.{◌≡◌};
    ghost use Rattle.smap_system.specs.declared.found.WalkFault.TheVariants as faults;

    ghost from_gives = { λ _ e. e ≡ faults.Memory };

    fn from(_error: AllocError) -> WalkFault {
        WalkFault::Memory
    }
}
