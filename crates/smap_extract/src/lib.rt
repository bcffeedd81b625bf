//! The contents of maps' sources, as files. A path is made of a source's URL ([`source_path`]): it leads out
//! of no folder, and each of its names is one that a file can have on any system. Paths of several sources
//! that would be one file, or a file and its folder, get numbers ([`placed`]). What maps hold is gathered
//! ([`Extraction`]), and written below a folder at these paths ([`write_files`]): no file is written outside
//! of it, none that is there is changed, and no link is followed.
//!
//! Case is folded for ASCII letters alone: names that differ in the case of others, or in the normal form of
//! Unicode, are two. Contracts say which paths there are, and nothing of what is written to a disk, which
//! isn't the program's alone: who owns the folder can exchange a folder in it between two calls.
//!
//! In a map the sources get other beginnings, and the list of contents more or fewer ([`changed_sources`]).
//! Only the bytes of these change, and the new text is read back before it is written: contracts say that all
//! other bytes stay, and which sources the new map lists.
#![tactic(auto)]

mod changing;
mod contents;
mod files;
mod finding;
mod gathering;
pub mod laws;
mod members;
mod path;
mod patterns;
mod placing;
mod reading_back;
mod renaming;
mod segments;
mod sources_fault;
mod sources_run;
mod spans;
mod writing;

pub use changing::MapRead;
pub use gathering::Extraction;
pub use path::{SourcePath, source_path};
pub use patterns::Meant;
pub use placing::placed;
pub use sources_fault::SourcesFault;
pub use sources_run::{SourcesTask, changed_sources};
pub use writing::{Written, write_files};
