//! The command line of `smap-trace`, from its words to values ([`trace_words`]).
//!
//! An argument with a `=` is a place, `URL=FILE[=BASE]` or `URL/=FOLDER/`. Where its URL ends depends on
//! which files there are, so [`Split::first`] and [`Split::following`] give the ways to read it in order, and
//! [`Split::fault`] says what is wrong with the one whose file is there. Any other argument is the path of a
//! folder, a map or a log, which the disk tells apart, or a position; [`needs_url`] says which files are no
//! logs.

mod arguments;
mod help;
mod messages;
mod splits;
mod table;
mod words;

pub use arguments::{Argument, ArgumentFault};
pub use help::HELP;
pub use messages::{message, path_message, place_message, split_message};
pub use splits::{Kind, Split, SplitFault, needs_url};
pub use table::OPTIONS;
pub use words::{Asked, TraceWords, WordFault, trace_words};
