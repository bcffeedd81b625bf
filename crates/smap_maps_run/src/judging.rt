//! What a map is that is checked.
ghost use Rattle.std.specs.Prelude.{IfOk, IfSome};
ghost use Rattle.smap_record.specs.Fitting.{Fits, ListingFits};
ghost use Rattle.smap_record.specs.Record.{record_of, usual};
ghost use Rattle.smap_record.specs.Results.{Returns};
ghost use Rattle.smap_record.specs.UrlBytes.{reading_within};
ghost use Rattle.smap_maps_run.specs.Judging.{IsJudged};

use crate::outcome::Verdict;
use crate::placing::unread;
use smap_map_files::MapText;
use smap_record::{Base, Limits, ReadError, SourceMap};
use std::alloc::Global;

/// The map that a text is; none if the URLs of its sources take more than so many bytes.
pub(crate) fn map_of(
    alloc: Global,
    base: &Base,
    bytes: &[u8],
    url_bytes: usize,
) -> Result<Option<SourceMap>, ReadError>
    ensures reads { Returns (λ o. o) result (reading_within base.now usual url_bytes bytes.now) }
    ensures fits { IfOk result (λ o. IfSome o (λ m. Fits base.now usual (record_of m))) }
    ensures listing_fits { IfOk result (λ o. IfSome o (λ m. ListingFits base.now usual m.listing)) }
{
    match SourceMap::from_slice_within(alloc, bytes, base, Limits::usual(), url_bytes)? {
        Some((map, _)) => Ok(Some(map)),
        None => Ok(None),
    }
}

/// What a map is that these bytes should be, read against its own URL within the usual limits, with at most
/// so many bytes for the URLs of its sources: accepted, refused, or failed with
/// [`Failure::Memory`](crate::Failure::Memory).
pub fn judged(alloc: Global, base: &Base, bytes: &[u8], url_bytes: usize) -> Verdict
    ensures { IsJudged base.now url_bytes bytes.now result }
{
    match map_of(alloc, base, bytes, url_bytes) {
        Ok(Some(_)) => Verdict::Accepted,
        Ok(None) => Verdict::LongUrls(url_bytes),
        Err(error) => {
            let text = MapText {
                bytes,
                base,
                url_bytes,
                is_file: true,
            };
            unread(alloc, &text, error)
        }
    }
}
