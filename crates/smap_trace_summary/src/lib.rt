//! What `smap-trace` says at the end of a run: how many frames stayed, and why, what helps where nothing was
//! translated, and which maps seem to be of other scripts than those that take them. It counts names of
//! frames ([`Frames`]), and asks what has found their maps; and why one position is translated, or not
//! ([`explain`]). The run itself is `smap_trace_run`'s.
#![tactic(auto)]

mod agreeing;
mod builds;
mod explained;
mod frames;
mod given;
mod hints;
mod mismatches;
mod spots;
mod steps;
mod summary;

pub use builds::{build_text, differ_in_hash};
pub use explained::{Explained, explain, original_text};
pub use frames::{Counted, Frames, add_missed};
pub use given::Given;
pub use hints::{LogForm, has_escaped_url, hint_at_nothing, hint_at_start};
pub use mismatches::{Taken, path_of, say_mismatches, taken_of};
pub use spots::Question;
pub use summary::{Stayed, Summary};
