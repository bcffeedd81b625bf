//! What is written: a record or a listing.
ghost use Rattle.std.specs.Prelude.{◌≡◌, IfSome};
ghost use Rattle.std.proofs.Props.{props};
ghost use Rattle.smap_canon.specs.Numbering.{AreUsedNames};

use crate::numbering::UsedNames;
use smap_record::SourceMap;

/// The sources, names and mappings to write: those of the map's record if the names that its mappings use are
/// given, and else those of its listing.
#[derive(Clone, Copy)]
pub(crate) struct ListingToWrite<'a> {
    pub(crate) map: &'a SourceMap,
    pub(crate) names: Option<&'a UsedNames<'a>>,
    ghost names_are: { IfSome names (λ n. AreUsedNames map.now n.now) } by { Prim.hlevel props },
}

impl<'a> ListingToWrite<'a> {
    ghost use Rattle.smap_record.specs.Record.{record_of};
    ghost use Rattle.smap_canon.specs.Canonical.{canonical_map};
    ghost use Rattle.smap_canon.specs.Writing.{map_of};

    /// The map's record, given the names that its mappings use.
    pub(crate) fn of_record(map: &'a SourceMap, names: &'a UsedNames<'_>) -> ListingToWrite<'a>
        requires { AreUsedNames map.now names.now }
        ensures says { map_of result ≡ canonical_map (record_of map.now) }
        ensures map { result.map.now ≡ map.now }
    {
        ListingToWrite {
            map,
            names: Some(names),
        }
    }
}
