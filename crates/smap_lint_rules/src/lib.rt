//! Why source maps don't work: what is looked for in scripts and their maps ([`RULES`], [`Check`]), over
//! values. [`lint_pair`] gives all that is found in a map and the script that has it, by what the map says
//! beside its mappings ([`members_of`]) and what the files of its sources hold ([`Wrong`], [`normal_text`]).
//! Nothing is opened here. The lines of a script are `smap_mappings`'.
#![tactic(auto)]

mod checks;
mod contents;
mod generated;
mod ids;
mod listed;
mod lists;
mod members;
mod originals;
mod pair;
mod paths;
mod positions;
mod remarks;
mod said;
mod share;
mod sources;
mod texts;
mod wording;

pub use checks::{Check, RULES, rule_named};
pub use ids::{debug_id, id_member, map_id, same_id};
pub use members::{Members, Paths, members_of};
pub use originals::Chains;
pub use pair::{Pair, Script, lint_pair};
pub use paths::file_agrees;
pub use positions::first_past_end;
pub use remarks::Remark;
pub use sources::Wrong;
pub use texts::{normal_text, same_text};
pub use wording::mapless_words;
