//! The commands of `smap` as calls over a reader and a writer, from the arguments of a command line
//! ([`task_of`]) to the run of its task ([`run`]).
//!
//! A run reads its input to the end, at most 268,435,456 bytes, writes its answer or the one line of the
//! input's first fault, and flushes; `translate` writes line by line as its trace comes. What is written is
//! a function of what was read: `specs/Commands.antt` defines it, with the command line and the task of
//! each command; for `translate` it is `specs/Translate.antt`, over the definition of the bundle. All runs
//! promise it in one form (`Runs` in `specs/Run.antt`), over what the reader had left and what the writer
//! held before and after. The outcome of a run, its exit status and the line of a fault are here too.
//! Which arguments are accepted is said by `clap`'s own specification.
//!
//! The bundle that `smap translate` reads: the maps of scripts, followed by a stack trace. The format is
//! this project's own.
//!
//! A bundle is entries, then the line `trace`, then the trace up to the end of the input. An entry is a
//! header line `map SCRIPT BASE LENGTH`, LENGTH bytes of a map, and a line feed (`specs/Bundle.antt`; in
//! prose `docs/OUTPUT.md`, "The bundle"). Headers are read byte by byte and maps by their length, so that
//! nothing after the line `trace` is read here. What is wrong with a bundle is answered as data: which
//! entry, and what.
#![tactic(auto)]

mod bundle;
pub mod bundle_laws;
mod bundle_line;
mod commands;
mod entries;
mod fault;
mod fault_line;
mod header;
mod input;
pub mod laws;
mod links;
mod map_run;
mod numbers;
mod outcome;
mod output;
pub mod round_trips;
mod words;

pub use bundle::Bundle;
pub use commands::{
    ComposeOptions, Task, run, run_check, run_compose, run_flatten, run_lookup, run_respell,
    run_scripts, run_tidy, run_translate, run_translate_by, task_of,
};
pub use entries::read_bundle;
pub use fault::{BundleFault, EntryFault, Refusal};
pub use fault_line::fault_text;
pub use outcome::{Outcome, RunFault, status};
pub use words::WordsFault;
