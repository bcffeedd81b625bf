//! The sources to write: the distinct ones of a record, or all as a map lists them.
ghost use Rattle.std.specs.Prelude.{◌≡◌, ◌<◌, length, slice_get, Some};
ghost use Rattle.smap_record.specs.Views.{entry_of_view};
ghost use Rattle.smap_canon.specs.Writing.{sources_of};

use crate::listing_to_write::ListingToWrite;
use smap_record::SourceView;

/// How many sources are written.
pub(crate) fn source_count(listed: ListingToWrite<'_>) -> usize
    ensures { result ≡ length (sources_of listed.entry) }
{
    if listed.names.is_some() {
        listed.map.source_count()
    } else {
        listed.map.listed_count()
    }
}

/// The i-th of them.
pub(crate) fn source_at(listed: ListingToWrite<'_>, i: usize) -> SourceView<'_>
    requires { i < length (sources_of listed) }
    ensures { slice_get (sources_of listed.entry) i ≡ Some (entry_of_view result) }
{
    let map = listed.map;
    let number = if listed.names.is_some() {
        i
    } else {
        map.listed(i)
    };
    map.source(number)
}
