//! Repairs of a map's text that one odd thing voids: a closed list, and nothing silent. [`repair_text`]
//! answers the text with each repair that was made ([`Repair`]), and only where the text is refused as it is
//! and read once it is mended. A repair replaces a few bytes of the text, and all others stay: the members,
//! their order and their white space.
//!
//! What may become what is in `listed.rt`, which is asked of each repair at run time; `edits.rt` and
//! `lone.rt` look for what to replace, `mending.rt` replaces it, and `repairing.rt` reads the result again.
#![tactic(auto)]

mod decoding;
mod edits;
mod halves;
mod hosts;
mod listed;
mod lone;
mod maps;
mod mark;
mod members;
mod mending;
mod places;
mod repair;
mod repairing;
mod scanning;
mod source_repairs;
mod spelling;

pub use repair::{Change, Repair, proposal, sentence};
pub use repairing::{Repaired, repair_text};
