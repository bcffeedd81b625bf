//! Logs before their maps are looked for: a log that is read block by block ([`Log`]), a reader that keeps
//! why it failed ([`Heeded`]), and the names of scripts that lines have ([`Names`], [`names_in`]). No map is
//! found or read here.
//!
//! What is known of the lines of a log besides its frames: a log that is read in pieces is collected into
//! whole lines ([`Block`]); the texts of a line that may be URLs of scripts, since a position stands behind
//! them ([`add_spans`]); what a line with positions shows where it is no frame alone on its line ([`look`],
//! [`Looked`]); the lines of a source around a position ([`add_context`]); and a URL with another beginning
//! ([`with_prefix`]). Nothing is opened here, and no map is read.
#![tactic(auto)]

mod beginnings;
mod block;
mod bytes;
mod context;
mod logs;
mod looked;
mod looking;
mod naming;
mod prefixes;
mod runs;
mod shown;
mod source_lines;
mod spans;

pub use block::Block;
pub use context::add_context;
pub use logs::{Heeded, Log};
pub use looked::Looked;
pub use looking::{Sign, look};
pub use naming::{Names, has_control, names_in};
pub use prefixes::with_prefix;
pub use spans::{Span, add_spans};
