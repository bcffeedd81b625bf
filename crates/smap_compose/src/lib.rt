//! One map out of a chain of maps: where a map's source was generated itself and has a map, its originals are
//! followed into that map's sources. And [`Builder`], by which a map is built call by call.
//!
//! Nothing is dropped, merged or extended: the composition has the mappings of the outer map at their
//! positions, and a lookup in it is one lookup after the other, at every line and column.
#![tactic(auto)]

mod adding;
mod building;
mod chain;
mod composing;
mod deep;
mod error;
mod following;
mod joining;
pub mod laws;
mod leading;
mod standing;
mod tables;
mod thinning;
mod using;

pub use building::Builder;
pub use chain::compose_chain;
pub use composing::compose;
pub use deep::compose_deep;
pub use error::{BuildError, ComposeError};
pub use leading::first_unled;
pub use thinning::thin;
pub use using::only_used;
