//! The maps of sources that were generated themselves: each is looked at as a script, whose last comment
//! names its map. [`chain_of`] finds the maps that the sources of a map lead to, at every depth, [`close`]
//! composes it with them, and [`follow`] does both for the map of a script. The file system is
//! `smap_system`'s trait.
#![tactic(auto)]

mod chains;
mod closing;
mod following;
mod remarks;
mod search;
mod source_maps;
mod ways;

pub use chains::{Chain, ChainAsked, MoreMaps, chain_of};
pub use closing::{Closed, close};
pub use following::{Followed, follow};
pub use remarks::{Remarks, remarks_of};
pub use source_maps::{Lead, has_no_size, source_lead};
