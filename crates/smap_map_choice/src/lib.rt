//! Which maps belong to a log: those of the scripts that it names. What a user names becomes a list of places
//! (`places`), and each name of a log finds its place (`picks`). Which map a script of a folder has, `named`
//! and `script_map` say. No file is opened here, and no map is read.
#![tactic(auto)]

mod linked;
mod named;
mod picks;
mod places;
mod script_map;
mod table;

pub use named::{Named, NamedFault, named_by, named_map};
pub use picks::{Found, Pick, pick_all};
pub use places::{Place, below, usual_place};
pub use script_map::{candidate, map_beside};
pub use table::table_of;
