//! A run of `smap-maps lint` ([`lint`]): the scripts and maps of folders, one pair after the other, and what
//! keeps the maps from working, as a report. Which rule finds what is in `smap_lint_rules`, and the report's
//! forms are in `smap_report`. The file system is `smap_system`'s trait.
//! [`refuse_path`] and [`refuse_empty`] say of a path, also to other runs, that there is nothing to look at.
#![tactic(auto)]

mod asked;
mod book;
mod case;
mod folder;
mod links;
mod open;
mod program;
mod refusing;
mod scripts;
mod source_files;
mod visit;

pub use asked::LintAsked;
pub use program::lint;
pub use refusing::{refuse_empty, refuse_path};
