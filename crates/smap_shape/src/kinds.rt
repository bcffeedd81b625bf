//! The two kinds of map.
use crate::{FlatShape, IndexShape};

/// The members of a map. A map in which `sections` is present is an index map, any other a flat map.
#[derive(Drop)]
pub enum Shape<'a> {
    /// The members of a flat map.
    Flat(FlatShape<'a>),
    /// The members of an index map.
    Index(IndexShape<'a>),
}
