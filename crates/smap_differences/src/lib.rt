//! What a rewrite changes of a map, in words, member by member ([`changes`]): a map is one line mostly, so
//! that no comparison of lines says anything. `docs/OUTPUT.md` has the lines.
//!
//! What a rewrite of a source map drops: the members that the canonical form, or a flat map, doesn't have
//! ([`dropped`]), asked of the map's JSON tree. Members of sections are those of the tree's sections, at any
//! level, and of their maps. How a name is shown is told here too ([`shown_name`], [`cut`]).
//!
//! What differs between the maps of two builds: which belong together ([`paired`]), the positions that lead
//! elsewhere ([`elsewhere`]), sources with other contents ([`changed_contents`]), and how that is written
//! ([`map_diff_text`]).
#![tactic(auto)]

mod comparing;
mod contents;
mod counting;
mod entries;
mod leading;
mod members;
mod naming;
mod pairs;
mod reports;
mod sections;
mod showing;

pub use comparing::changes;
pub use contents::changed_contents;
pub use leading::{Leading, elsewhere};
pub use members::Part;
pub use naming::{bare_json, cut, json, shown_name};
pub use pairs::{Pair, paired};
pub use reports::{DiffForm, MapDiff, State, diff_form, map_diff_text};
pub use sections::{Drops, dropped};
