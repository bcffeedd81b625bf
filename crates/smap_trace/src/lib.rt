//! Lookup in source maps, and the translation of stack traces to source positions.
//!
//! [`lookup`] finds the mapping for a generated position, by binary search ([`search`]), and [`find`] its
//! index. [`frame`] recognizes a line of a stack trace, as the engines of browsers and Node write it.
//! [`translate_line`] translates one line, and [`translate`] a whole trace from a reader to a writer, line by
//! line as it comes. Maps count lines and columns from 0, traces from 1.
#![tactic(auto)]

mod anywhere;
mod error;
mod kept;
mod known;
pub mod laws;
mod line_parts;
mod line_starts;
mod lines;
mod lookups;
mod match_mode;
mod named;
mod names;
mod naming;
mod occurrences;
mod outcome;
mod scripts;
mod searching;
mod streaming;
mod table;
pub mod trace_laws;
mod translated;
mod unnamed;

pub use error::TraceError;
pub use kept::Kept;
pub use known::KnownFunctions;
pub use line_parts::{LinePosition, line_positions};
pub use line_starts::LineStarts;
pub use lines::{is_hidden, translate_line, translate_line_by, translate_line_in};
pub use lookups::{find, find_in, lookup, lookup_in};
pub use match_mode::MatchMode;
pub use named::{translate_named_in, translate_named_line};
pub use names::{RenamedFrame, rename_frame};
pub use naming::{NamedScripts, named_scripts};
pub use occurrences::Occurrence;
pub use outcome::{Counts, LineOutcome};
pub use scripts::{Maps, distinct_scripts};
pub use searching::{Positions, search};
pub use smap_frames::{Frame, frame};
pub use streaming::{translate, translate_by, translate_in};
pub use table::{HasMap, Scripts};
pub use translated::{TranslatedLines, ends_like_frames};
pub use unnamed::{LineMode, named_frame, translate_alone_in};
