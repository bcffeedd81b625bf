//! What a program asks of a file system ([`Disk`]), such as the machine's ([`System`]): files that are read
//! whole and only up to a limit ([`read_file`]), the names of the files below a folder ([`walk`]), and a file
//! that is written beside its name and takes it at the end ([`create_beside`]). A writer can be asked why it
//! failed ([`Watched`]), an error for its text ([`reason`]), and names become safe to print ([`printable`]).
//!
//! Contracts say nothing of what the machine's files hold and of what stands in its folders, since they
//! aren't the program's alone: only a disk that doesn't change ([`FixedDisk`]) tells it.
//!
//! What the run of a tool asks of the machine, and how it speaks: the file system and standard error under
//! the tool's name ([`Host`]), and why a run ends before its end ([`Stop`]).
#![tactic(auto)]

mod beside;
mod disk;
mod fixed;
mod found;
mod host;
mod paths;
mod printing;
mod reading;
mod reasons;
mod rights;
mod stop;
mod system;
mod walking;
mod watched;

pub use beside::{Beside, BesideFault, create_beside};
pub use disk::{Disk, Entry, EntryKind, Kind, Listing, Stamp};
pub use fixed::{FixedDisk, FixedEntry, FixedFile, FixedFolder};
pub use found::{Walk, WalkFault};
pub use host::Host;
pub use paths::{joined, parted};
pub use printing::printable;
pub use reading::{FileFault, LIMIT, read_file};
pub use reasons::reason;
pub use stop::Stop;
pub use system::System;
pub use walking::walk;
pub use watched::Watched;
