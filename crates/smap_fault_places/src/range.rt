//! Ranges of bytes.
ghost use Rattle.smap_fault_places.specs.Ranges.{IsRangeOf};

/// A range of bytes of a text: from `start`, which counts from 0, up to `end`, which isn't in it.
#[derive(Clone, Copy, PartialEq, Eq)]
pub struct TextRange {
    /// The first byte.
    pub start: usize,
    /// The byte after the last one.
    pub end: usize,
}

/// What is in a text of this length of a range from `start` to `end`.
pub(crate) fn clamped(start: usize, end: usize, len: usize) -> TextRange
    ensures { IsRangeOf len result }
{
    let end = end.min(len);
    TextRange {
        start: start.min(end),
        end,
    }
}
