//! Changes of scripts. The comment by which a script names its map is set ([`set_comment`]) or removed
//! ([`remove_comment`]), a map becomes a URL that holds it ([`data_url`]), and script and map get a debug id
//! ([`set_debug_id`], [`set_map_id`]): texts in, texts out. Where the comment is, and what it names, is
//! `smap_link`'s to say, and which id a text has, `smap_lint_rules`'s: what is written here is read by them
//! before it is handed out.
//!
//! A run over scripts ([`edit_scripts`]) reads each, decides what becomes of its text, and names it, or gives
//! its file that text ([`replace_file`]). The file system is `smap_system`'s trait.
#![tactic(auto)]

mod comments;
mod data;
mod deciding;
mod finding;
mod identifying;
mod ids;
mod outlining;
mod places;
mod program;
mod reading;
mod refusal;
mod replacing;
mod scripts;

pub use comments::{CommentFault, Edited, is_fit, remove_comment, set_comment};
pub use data::{data_url, map_reference};
pub use ids::{made_id, set_debug_id, set_map_id};
pub use program::{ScriptTask, ScriptsAsked, edit_scripts};
pub use replacing::{ReplaceFault, replace_file};
