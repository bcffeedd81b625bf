//! What a source map says: [`SourceMap::from_slice`] and [`SourceMap::from_vec`] read it from its bytes,
//! against a [`Base`] and under [`Limits`].
//!
//! A map is read in the order in which its faults are looked for: the prefix line, the JSON text, the
//! members, and of a flat map or of each section the number of sources and names, the sources, the
//! mappings. The first fault is the answer, and no map is handed out then. Each section of an index map is
//! read after what is listed before it; an index map in a section is read by its own sections, eight levels
//! deep at most. An index map is one JSON tree, as a flat map is, and its sections are read out of it in
//! their order. Each source URL is resolved, and kept once in a hashed table. Names are copied out of
//! the JSON tree once, and so are the contents of sections; those of a flat map are moved out of the tree.
#![tactic(auto)]

mod entry;
mod fault;
mod flat;
mod labels;
pub mod laws;
mod limits;
mod listing;
mod map;
mod parts;
mod path;
mod reading;
mod reading_as_written;
mod reading_within;
mod sections;
mod source_urls;
mod sources;
mod text;
mod url_bytes;
mod view;
mod written;

pub use fault::{BaseFault, Fault, Kind, ReadError, fault_name};
pub use limits::Limits;
pub use map::SourceMap;
pub use path::Path;
pub use source_urls::Base;
pub use sources::Sources;
pub use text::map_tree;
pub use view::{LabelView, OriginalView, SourceView, TokenView};
pub use written::WrittenSources;
