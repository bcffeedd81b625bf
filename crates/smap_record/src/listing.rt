//! What a map lists. It is built by adding a flat map, or the sections of an index map one after the other.
ghost use Rattle.std.specs.Prelude.{◌≡◌, map};
ghost use Rattle.smap_mappings.specs.Position.{position_of, NeverFalls};
ghost use Rattle.smap_record.specs.Flat.{nothing};
ghost use Rattle.smap_record.specs.Sections.{falls as falls_behind};
ghost use Rattle.smap_record.specs.MapView.{listing_of};
ghost use Rattle.smap_record.specs.Building.{any_after};

use crate::sources::Sources;
use smap_mappings::{Position, Token};
use std::alloc::Global;

/// Sources and names as listed, and tokens with indices into these.
#[derive(Drop)]
pub(crate) struct Listing {
    pub(crate) sources: Sources,
    pub(crate) names: Vec<String>,
    pub(crate) tokens: Vec<Token>,
}

impl Listing {
    /// Nothing is listed yet.
    pub(crate) fn new(alloc: Global) -> Listing
        ensures { listing_of result ≡ nothing }
    {
        Listing {
            sources: Sources::new(alloc),
            names: Vec::new(alloc),
            tokens: Vec::new(alloc),
        }
    }
}

/// Whether a section's offset is before that of the previous section.
pub(crate) fn falls(last: Option<Position>, own: Position) -> bool
    ensures { result ≡ falls_behind last own }
{
    match last {
        None => false,
        Some(last) => own < last,
    }
}

/// Whether some token is after an offset. The tokens are sorted, so the last one decides.
pub(crate) fn overlaps(tokens: &[Token], offset: Position) -> bool
    requires { NeverFalls (map position_of tokens.now) }
    ensures { result ≡ any_after offset tokens.now }
{
    let count = tokens.len();
    if count == 0 {
        return false;
    }
    offset < tokens[count - 1].position()
}
