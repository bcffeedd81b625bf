//! The canonical form of a source map: a flat map whose bytes depend only on the map's record, which is
//! what it means.
//!
//! Sources are numbered as the record has them and names by first use, the mappings are written as short as
//! possible, and the members are in byte order of their names. Writing makes two passes over the mappings,
//! one for the names that they use and one for the string, and a few over the sources; a name is looked up
//! in a hashed table at most once for each time that it is listed, however many mappings use it. Besides the
//! map, it holds the table of these names, a number for each listed name, the mappings string while it is
//! written, and the output: no second list of mappings, and no JSON tree. [`canonical_mappings_len`] counts
//! that string and doesn't make it. [`same`] compares two records without writing them. In the relative form,
//! source URLs are relative to the map's URL where that round-trips, for maps that move together with their
//! sources. The canonical form is this project's own.
#![tactic(auto)]

mod labels;
pub mod laws;
mod layout;
mod listing_to_write;
mod numbering;
pub mod round_trips;
mod sameness;
mod sources_to_write;
mod spelling;
mod writing;

pub use sameness::same;
pub use writing::{
    canonical, canonical_in, canonical_mappings, canonical_mappings_len, canonical_relative,
    flatten,
};
