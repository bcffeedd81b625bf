//! Ranges of bytes, and what becomes of a text when the bytes in some of them are replaced.
ghost use Rattle.std.specs.Prelude.{◌≡◌, IfOk, IfSome};
ghost use Rattle.smap_extract.specs.Spans as spec;

use std::alloc::{AllocError, Global};

/// A range of bytes of a text: from `start` up to `end`, which isn't in it.
#[derive(Clone, Copy)]
pub(crate) struct Span {
    pub(crate) start: usize,
    pub(crate) end: usize,
}

/// Other bytes for those in a range.
#[derive(Drop)]
pub(crate) struct Edit {
    pub(crate) span: Span,
    pub(crate) made: Vec<u8>,
}

impl Span {
    /// What a text has there; nothing if the range isn't one of the text.
    pub(crate) fn of(self, text: &[u8]) -> &[u8] {
        match text.get(self.start..self.end) {
            Some(bytes) => bytes,
            None => b"",
        }
    }

    /// The same range in a text of which this is so many bytes further on.
    pub(crate) fn shifted(self, by: usize) -> Span {
        Span {
            start: self.start.saturating_add(by),
            end: self.end.saturating_add(by),
        }
    }
}

/// The text with the bytes in these ranges replaced: all others stay. None unless the ranges are of the text,
/// one after another.
pub(crate) fn spliced(
    alloc: Global,
    text: &[u8],
    edits: &[Edit],
) -> Result<Option<Vec<u8>>, AllocError>
    ensures { IfOk result (λ o. IfSome o (λ new. new.items ≡ spec.spliced text.now 0 edits.now)) }
{
    let mut new = Vec::new(alloc);
    let mut at = 0;
    for i in 0..edits.len() {
        let Edit { span, made } = &edits[i];
        if span.start < at || span.end < span.start || text.len() < span.end {
            return Ok(None);
        }
        new.extend_from_slice(&text[at..span.start])?;
        new.extend_from_slice(made)?;
        at = span.end;
    }
    new.extend_from_slice(&text[at..])?;
    Ok(Some(new))
}
