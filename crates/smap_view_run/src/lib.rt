//! `smap-view`: a run of it, from the words of its command line to its status ([`run`]). What the words say
//! is read by `smap_command_line`, which map a script names is found by `smap_link` and `smap_map_files`,
//! where the fault of a refused map is by `smap_fault_places`, and what the page holds is made by
//! `smap_view_page`. The page is a template, a file that is installed beside the program, with the elements
//! of its data replaced. Of several scripts one after the other is looked at, so that one map is in memory at
//! a time.
#![tactic(auto)]

mod budget;
mod files;
mod folders;
mod job;
mod loading;
mod measuring;
mod page;
mod program;
mod refusals;
mod scripts;
mod sizing;
mod status;
mod template;
mod writing;

pub use program::run;
