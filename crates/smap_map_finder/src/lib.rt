//! The maps of the scripts that a log names, of those that arguments name (`smap_map_files`), opened as the
//! log first names them ([`Finder`]). Which map a script has is decided by `smap_map_choice`; what its file
//! gives, by `smap_map_files`. The file system is `smap_system`'s trait.
//! What is wrong is said on standard error, with the status of that (`smap_system`).
#![tactic(auto)]

mod alike;
mod checking;
mod chosen;
mod copies;
mod finder;
mod giving;
mod links;
mod opening;
mod picking;
mod roots;
mod taking;
mod telling;

pub use finder::Finder;
pub use smap_map_files::How;
