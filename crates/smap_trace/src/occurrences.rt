//! A script's URL with a line and a column behind it, at one place of a text.
ghost use Rattle.std.specs.Prelude.{◌≡◌, ◌⊎◌, IfSome, length, option_map};
ghost use Rattle.smap_record.specs.Record.{record_of};
ghost use Rattle.smap_trace.specs.Anywhere as spec;
ghost use Rattle.smap_trace.specs.OccurrenceView.{IsWithin, occurrence_in};

use smap_frames::place_after;
use smap_record::SourceMap;

/// The position of a script at the beginning of a text.
#[derive(Clone, Copy)]
pub struct Occurrence<'a> {
    pub url: &'a [u8],
    pub map: &'a SourceMap,
    /// From 1, as in a trace.
    pub line: u32,
    /// From 1.
    pub column: u32,
    /// The bytes of the text that it takes.
    pub width: usize,
}

/// The occurrence of this script at the beginning of a text.
pub(crate) fn occurrence_of<'a>(
    url: &'a [u8],
    map: &'a SourceMap,
    text: &[u8],
    ignore_query: bool,
) -> Option<Occurrence<'a>>
    ensures value { option_map occurrence_in result
        ≡ spec.occurrence_of ignore_query (url.now, record_of map.now) text.now }
    ensures within { IfSome result (IsWithin (length text.now)) }
{
    if url.is_empty() || !text.starts_with(url) {
        return None;
    }
    let place = place_after(&text[url.len()..], ignore_query)?;
    Some(Occurrence {
        url,
        map,
        line: place.line,
        column: place.column,
        width: url.len() + place.width,
    })
}

/// The one with the longer URL, and of two with URLs of one length the first.
pub(crate) fn longer<'a>(
    p: Option<Occurrence<'a>>,
    q: Option<Occurrence<'a>>,
) -> Option<Occurrence<'a>>
    ensures value { option_map occurrence_in result
        ≡ spec.longer (option_map occurrence_in p.entry) (option_map occurrence_in q.entry) }
    ensures either { (result ≡ p.entry) ⊎ (result ≡ q.entry) }
{
    match (p, q) {
        (Some(a), Some(b)) => {
            if a.url.len() < b.url.len() {
                Some(b)
            } else {
                Some(a)
            }
        }
        (Some(a), None) => Some(a),
        (None, b) => b,
    }
}
