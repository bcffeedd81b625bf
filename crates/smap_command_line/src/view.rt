//! The command line of `smap-view`, from its words to values ([`view_words`]): the options, the map, script
//! or folder, and the script of a map.

mod help;
mod messages;
mod table;
mod words;

pub use help::HELP;
pub use messages::message;
pub use table::OPTIONS;
pub use words::{Asked, SizesForm, ViewWords, WordFault, view_words};
