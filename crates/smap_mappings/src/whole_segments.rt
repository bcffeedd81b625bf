//! Segments that are entirely within a piece.
ghost use Rattle.std.specs.Prelude.{◌≡◌, ◌<◌, ◌⊎◌, IfSome, IsTrue, length, slice_index};
ghost use Rattle.smap_mappings.specs.Pieces.{IsWhole};

use smap_vlq::{Fields, read_number};

/// Whether the byte at this index is a separator.
#[inline(always)]
fn ends_at(text: &[u8], place: usize) -> bool
    ensures within { IsTrue result → place < length text.now }
    ensures separator { IsTrue result
        → (slice_index text.now place ≡ 44) ⊎ (slice_index text.now place ≡ 59) }
{
    place < text.len() && (text[place] == b',' || text[place] == b';')
}

/// The segment that starts at an index, and the index of the separator that ends it: the fast way to read a
/// segment. None for what has to be read byte by byte: an invalid segment, one that is cut by the end of the
/// piece, and an empty line.
#[inline(always)]
pub(crate) fn whole_segment(text: &[u8], start: usize) -> Option<(Fields, usize)>
    ensures { IfSome result (λ x. IsWhole text.now start x.0 x.1) }
{
    let Ok((column, place)) = read_number(text, start) else {
        return None;
    };
    if ends_at(text, place) {
        let numbers = [column, 0, 0, 0, 0];
        return Some((Fields { numbers, count: 1 }, place));
    }
    let Ok((source, place)) = read_number(text, place) else {
        return None;
    };
    let Ok((original_line, place)) = read_number(text, place) else {
        return None;
    };
    let Ok((original_column, place)) = read_number(text, place) else {
        return None;
    };
    if ends_at(text, place) {
        let numbers = [column, source, original_line, original_column, 0];
        return Some((Fields { numbers, count: 4 }, place));
    }
    let Ok((name, place)) = read_number(text, place) else {
        return None;
    };
    if ends_at(text, place) {
        let numbers = [column, source, original_line, original_column, name];
        return Some((Fields { numbers, count: 5 }, place));
    }
    None
}
