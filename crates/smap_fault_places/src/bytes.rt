//! Parts of a mappings string.
ghost use Rattle.std.specs.Prelude.{◌≡◌, ◌≤◌, length, not, option_copied};
ghost use Rattle.std.specs.List.{after_last, count_by, list_any, suffix_len};
ghost use Rattle.smap_fault_places.specs.Segments as spec;

use smap_mappings::SegmentPlace;

fn ends_segment(byte: u8) -> bool
    ensures { result ≡ spec.ends_segment byte }
{
    byte == b';' || byte == b','
}

/// Whether there is no byte, or one that ends a segment.
fn is_edge(byte: Option<&u8>) -> bool
    ensures { result ≡ spec.is_edge (option_copied byte.entry) }
{
    match byte {
        None => true,
        Some(byte) => ends_segment(*byte),
    }
}

fn line_end_count(text: &[u8]) -> usize
    ensures { result ≡ count_by spec.is_line_end text.now }
{
    text.iter().filter(|b| **b == b';').count()
}

fn comma_count(text: &[u8]) -> usize
    ensures { result ≡ count_by spec.is_comma text.now }
{
    text.iter().filter(|b| **b == b',').count()
}

fn has_end(text: &[u8]) -> bool
    ensures { result ≡ list_any spec.ends_segment text.now }
{
    text.iter().any(|b| ends_segment(*b))
}

fn last_line_len(text: &[u8]) -> usize
    ensures value { result ≡ suffix_len (λ b. not (spec.is_line_end b)) text.now }
    ensures within { result ≤ length text.now }
{
    text.iter().rev().take_while(|b| **b != b';').count()
}

/// What is behind the last line end of a text.
fn last_line(text: &[u8]) -> &[u8]
    ensures { result.now ≡ after_last spec.is_line_end text.now }
{
    &text[text.len() - last_line_len(text)..]
}

/// Whether this is the segment with this place, between what is before and after it.
pub(crate) fn is_segment(place: SegmentPlace, before: &[u8], segment: &[u8], after: &[u8]) -> bool
    ensures { result ≡ spec.is_segment place before.now segment.now after.now }
{
    line_end_count(before) == place.line as usize
        && comma_count(last_line(before)) == place.segment as usize
        && is_edge(before.last())
        && !has_end(segment)
        && is_edge(after.first())
}
