//! What a file gives for a map: itself, or, where it is a script or a style sheet, the map that its text
//! holds or names ([`open_map_of`]); what the URL that a script names leads to, within its folder
//! ([`target_of`]), and which map it has ([`map_of`]); and the URL of a folder's files ([`folder_url`]). What
//! URL a text names is found by `smap_link`; which files are opened for a log is decided above. The file
//! system is `smap_system`'s trait. What is wrong is said on standard error, with the status of that; of a
//! map that is refused in the words of [`MapText::detail`].
//!
//! What the arguments of `smap-trace` name on the file system ([`wanted_by`]): maps of scripts, the files of
//! folders, logs; and one map for each script of these ([`settle`]). How an argument is read is decided by
//! `smap_command_line`, and what it finds wrong with options is printed here ([`refuse_options`]).
#![tactic(auto)]

mod arguments;
mod bases;
mod folders;
mod following;
mod homes;
mod loading;
mod map_text;
mod opening;
mod positions;
mod refusing;
mod script_map;
mod scripts;
mod settling;
mod target;
mod telling;
mod wanted;
mod within;

pub use arguments::wanted_by;
pub use bases::{base_given, folder_url, with_slash};
pub use folders::{name_of_file, without_slashes};
pub use following::{Followed, follow};
pub use homes::{MapHome, home_of};
pub use loading::{Content, Loaded, MapFault, Reading};
pub use map_text::MapText;
pub use opening::{How, Subject, copied, loaded_of, open_map_of};
pub use positions::{check_positions, log_of};
pub use refusing::{printable_lines, refuse_options};
pub use script_map::{LinkProblem, ScriptMap, map_of};
pub use scripts::{ScriptRead, script_read};
pub use settling::settle;
pub use target::{Absence, Home, Target, target_of};
pub use telling::{fault_words, say_of};
pub use wanted::{Origin, Positions, Root, Wanted, may_name_map};
pub use within::is_within;
