//! `smap-maps`: a run of it, from the words of its command line to its status ([`run`]). What the words say
//! is read by `smap_command_line`, what a rewrite drops and changes is told by `smap_differences`, and what
//! is repaired by `smap_repair`; maps are read by `smap_record` and written by `smap_canon`, as by `smap`
//! itself. One map is looked at after the other, so that one is in memory at a time. `lint` is a run of
//! `smap_lint_run`, and what changes scripts one of `smap_script_comments`.
//!
//! What becomes of a source map that `smap-maps` looks at, and what is said of that: a map's bytes are judged
//! ([`judged`]), and an [`Outcome`] is a line of JSON ([`json_line`]) or a remark ([`remark`]) under the name
//! of the map's file ([`said_name`]). A [`Tally`] counts maps by their statuses.
#![tactic(auto)]

mod changing;
mod composing;
mod deciding;
mod differing;
mod extracting;
mod forms;
mod json_lines;
mod judging;
mod linting;
mod looking;
mod others;
mod outcome;
mod placing;
mod program;
mod progress;
mod remarks;
mod repairing;
mod replacing;
mod reporting;
mod sourcing;
mod targets;

pub use json_lines::json_line;
pub use judging::judged;
pub use outcome::{Failure, Outcome, Refusal, Tally, TextPlace, Verdict};
pub use placing::{refused_for, unread};
pub use program::run;
pub use remarks::{is_named, remark, said_name};
