//! The command line of `smap-maps`, from its words to values ([`maps_words`]): the command, its options, and
//! the paths. Which options a command has is in the table ([`OPTIONS`]).

mod clashes;
mod help;
mod messages;
mod table;
mod words;

pub use clashes::Clash;
pub use help::HELP;
pub use messages::message;
pub use table::OPTIONS;
pub use words::{Asked, MapsWords, Rewrite, WordFault, maps_words};
