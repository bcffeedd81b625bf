//! The command lines of `smap-trace` ([`trace`]), `smap-maps` ([`maps`]) and `smap-view` ([`view`]), from
//! their words to values. The options of each are rows of a table ([`OptionRow`]), from which come the
//! command line for `clap` and, by `tools/options`, the option lists of the help and of the manual page, and
//! what shells complete. What was given is looked up by the name of an option ([`Options`]), and what a value
//! has to be is checked before ([`OptionFault`]); so a further option is its row and a line where it is used.
//!
//! What is asked for and what is wrong is a function of the words (`specs/Trace.antt`, `Maps.antt` and
//! `View.antt`); which words are options is said by `clap`'s own specification, at the command line that
//! `specs/Line.antt` makes of the rows.
//!
//! Nothing is opened here. Texts of faults have words as they were given, so control characters in them too:
//! what prints them escapes these.
#![tactic(auto)]

mod command;
mod fault;
mod lookups;
pub mod maps;
mod pairs;
mod reading;
mod rows;
pub mod trace;
mod values;
mod version;
pub mod view;

pub use fault::{OptionFault, option_message};
pub use lookups::Options;
pub use pairs::Pair;
pub use rows::{Commands, FORMATS, LEVELS, MapsCommand, OptionOf, OptionRow, SIZES, Value};
pub use version::{NUMBER, VERSION};
