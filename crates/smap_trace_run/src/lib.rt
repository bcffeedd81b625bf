//! `smap-trace`: a run of it, from the words of its command line to its status ([`run`]). What the words say
//! is read by `smap_command_line`, maps are found and opened by `smap_map_finder`, and lines are translated
//! by `smap_trace`; logs are read block by block by `smap_logs`, and their lines are written here; what is
//! said at the end is `smap_trace_summary`'s.
#![tactic(auto)]

mod alone;
mod decorating;
mod ending;
mod explaining;
mod listing;
mod output;
mod program;
mod tracing;
mod translating;

pub use output::Output;
pub use program::{Input, InputKind, run};
