//! The members of a source map, borrowed from its JSON tree (ECMA-426, "Source map format" and "Index
//! source map").
//!
//! [`shape`] takes a `serde_json::Value` and answers the members of a flat map or of an index map, and
//! [`section`] those of one section, or the first fault. Each array is checked once, in full, and then kept
//! as the slice of the tree that it is: nothing is copied, neither call takes memory, and a shape lives as
//! long as its tree. So `shape` takes time linear in the entries of the map's arrays, and its accessors
//! take constant time, except `is_ignored`.
//!
//! [`split_contents`] is for callers that own the tree and want to keep the contents, the largest part of
//! most maps: it moves them out of the tree.
//!
//! [`json_text`] is what of a map's bytes is JSON.
#![tactic(auto)]

mod contents;
mod fault;
mod flat;
mod index;
mod kinds;
mod labels;
mod map;
mod member;
mod sections;
mod text;

pub use contents::split_contents;
pub use fault::ShapeFault;
pub use flat::FlatShape;
pub use index::IndexShape;
pub use kinds::Shape;
pub use labels::{Labels, is_label};
pub use map::shape;
pub use sections::{MAX_LEVEL, SectionShape, section};
pub use text::{json_start, json_text};
