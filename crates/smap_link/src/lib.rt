//! The rules that tie a script to its map: the map that a script names, the URLs of files, which names of
//! scripts are alike, and which map belongs to which script. They work on bytes, and open no file. In prose
//! they stand in `docs/LINKING.md`.
//!
//! The functions and their clauses are stable: `map_url`, `css_map_url`, `inline_map`, `resolved`,
//! `file_url`, `file_path`, `script_url`, `script_name`, `normal_form`, `key_of`, `most_alike`,
//! `common_tail`, `script_of_map`, `scripts_of_maps`, `maps_of_scripts`, `choose`,
//! `agree_equally`, `file_kind`, `link_in` and `says_nothing`.
#![tactic(auto)]

mod alike;
mod choice;
mod comment;
mod encoding;
mod endings;
mod ends;
mod inline;
mod kinds;
pub mod laws;
mod likeness;
mod names;
mod paths;
mod resolve;
mod table;
mod tails;
mod white;

pub use alike::{key_of, normal_form, own_url};
pub use choice::{Choice, ChoiceFault, choose};
pub use comment::{css_map_url, map_url};
pub use encoding::{IN_PATH, PathFault, file_url, is_path, script_url};
pub use endings::{maps_of_scripts, script_of_map, scripts_of_maps};
pub use ends::agree_equally;
pub use inline::{InlineFault, inline_map, is_data};
pub use kinds::{FileKind, file_kind, link_in, says_nothing};
pub use likeness::{Likeness, most_alike};
pub use names::{is_below, script_name};
pub use paths::{bare, file_path};
pub use resolve::{LinkFault, resolved};
pub use table::ScriptTable;
pub use tails::common_tail;
