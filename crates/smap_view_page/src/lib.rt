//! What the page of `smap-view` holds of a map and its script: mappings as numbers ([`mappings_text`]), how
//! many bytes of the script each source has ([`measured`]), and the JSON of both ([`map_json`],
//! [`text_json`]), written so that nothing in it ends an element of HTML ([`embedded`]). The page has no rule
//! of the format then: it reads no mappings string, no fault line and no map. What sources and folders have
//! together, also of two builds, is summed by their names ([`summed`], [`folders`]), and a budget may allow a
//! growth ([`most_after`]).
//!
//! Nothing is opened here.
#![tactic(auto)]

mod amounts;
mod beside;
mod budgets;
mod comments;
mod embedding;
mod growth;
mod laws;
mod lists;
mod mappings;
mod markdown;
mod measuring;
mod nesting;
mod numbers;
mod parts;
mod shares;
mod steps;
mod values;

pub use amounts::{Amounts, Row, summed};
pub use beside::script_names;
pub use budgets::{Growth, growth_named, most_after};
pub use comments::code_length;
pub use embedding::embedded;
pub use growth::{Builds, growth_markdown, growth_table, growth_tsv, growth_value, json_line};
pub use laws::nothing_ends_an_element;
pub use mappings::mappings_text;
pub use markdown::push_cell;
pub use measuring::{Sizes, measured};
pub use nesting::folders;
pub use parts::{
    Measures, Part, as_old, at, bytes_of, measured_script, old_bytes_of, push_parts, rows_of,
    unmeasured,
};
pub use shares::{by_growth, share};
pub use values::{map_json, text_json};
