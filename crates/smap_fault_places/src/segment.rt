//! Where a segment of a mappings string is written.
ghost use Rattle.std.specs.Prelude.{◌≡◌, ◌≤◌, ◌<◌, Some, IfOk, IfSome, length};
ghost use Rattle.std.specs.Bool.{OnTrue};
ghost use Rattle.serde_json.specs.Data.{depth, string};
ghost use Rattle.serde_json.specs.Read.{read, max_depth};
ghost use Rattle.serde_json.specs.View.{view};
ghost use Rattle.smap_fault_places.specs.Ranges.{IsRangeOf};
ghost use Rattle.smap_fault_places.specs.Segments.{IsSegmentIn, IsSegmentWritten, quoted};

use crate::bytes::is_segment;
use crate::range::TextRange;
use crate::spelling::spelled_len;
use crate::step::Step;
use crate::walk::value_at;
use crate::written::value_range;
use memchr::memchr;
use serde_json::Value;
use smap_mappings::SegmentPlace;
use std::alloc::{AllocError, Global};

/// The value that a text is, if it is JSON.
fn value_of(alloc: Global, text: &[u8]) -> Result<Option<Value>, AllocError>
    ensures reads { IfOk result (λ o. IfSome o (λ v. read text.now ≡ Some (view v))) }
    ensures nests { IfOk result (λ o. IfSome o (λ v. depth (view v) ≤ max_depth)) }
{
    match Value::from_slice(alloc, text) {
        Ok(value) => Ok(Some(value)),
        Err(error) => {
            if error.is_memory() {
                Err(AllocError)
            } else {
                Ok(None)
            }
        }
    }
}

/// What is behind so many of these bytes, by its place; none if there are fewer.
fn after_count(text: &[u8], byte: u8, count: u32) -> Option<usize>
    ensures { IfSome result (λ n. n ≤ length text.now) }
{
    let mut at = 0;
    for _ in 0..count {
        at += memchr(byte, &text[at..])? + 1;
    }
    Some(at)
}

/// Where the first segment of a text ends.
fn segment_len(text: &[u8]) -> usize
    ensures { result ≤ length text.now }
{
    text.iter()
        .take_while(|b| **b != b',' && **b != b';')
        .count()
}

/// Where in a mappings string the segment with this place may be.
pub(crate) fn span_of(mappings: &[u8], place: SegmentPlace) -> Option<TextRange>
    ensures { IfSome result (IsRangeOf (length mappings.now)) }
{
    let line = after_count(mappings, b';', place.line)?;
    let start = line + after_count(&mappings[line..], b',', place.segment)?;
    let end = start + segment_len(&mappings[start..]);
    Some(TextRange { start, end })
}

/// Whether the bytes, in quotes, are a JSON string that reads as this.
fn spells(alloc: Global, bytes: &[u8], wanted: &[u8]) -> Result<bool, AllocError>
    ensures { IfOk result (λ it_does. OnTrue it_does
        (read (quoted bytes.now) ≡ Some (string wanted.now))) }
{
    let mut text = Vec::with_capacity(alloc, bytes.len())?;
    text.push(b'"')?;
    text.extend_from_slice(bytes)?;
    text.push(b'"')?;
    let Some(Value::String(read)) = value_of(alloc, text.as_slice())? else {
        return Ok(false);
    };
    Ok(read.as_bytes() == wanted)
}

/// A segment that is looked for, in a text that has a string of mappings with its quotes in a range.
#[derive(Clone, Copy)]
struct Sought<'a> {
    text: &'a [u8],
    within: TextRange,
    mappings: &'a [u8],
    place: SegmentPlace,
}

impl Sought<'_> {
    /// Where it may be, if its span of the mappings is this.
    fn candidate(&self, span: TextRange) -> Option<TextRange>
        requires { IsRangeOf (length self.now.text.now) self.now.within }
        ensures { IfSome result (λ r. (self.now.within.start < r.start)
            × (r.start ≤ r.end) × (r.end < self.now.within.end)) }
    {
        let within = self.within;
        if within.end - within.start < 2 {
            return None;
        }
        let first = within.start + 1;
        let spelled = &self.text[first..within.end - 1];
        let start = spelled_len(spelled, span.start)?;
        let end = spelled_len(spelled, span.end)?;
        if start > end {
            return None;
        }
        Some(TextRange {
            start: first + start,
            end: first + end,
        })
    }

    /// The range, if this span of the mappings is the segment and is written there.
    fn if_written(
        &self,
        alloc: Global,
        span: TextRange,
        range: TextRange,
    ) -> Result<Option<TextRange>, AllocError>
        requires outer { IsRangeOf (length self.now.text.now) self.now.within }
        requires span { IsRangeOf (length self.now.mappings.now) span }
        requires inner { (self.now.within.start < range.start)
            × (range.start ≤ range.end) × (range.end < self.now.within.end) }
        ensures { IfOk result (λ o. IfSome o
            (IsSegmentIn self.now.text.now self.now.mappings.now self.now.within self.now.place)) }
    {
        let (text, mappings) = (self.text, self.mappings);
        let before = &mappings[..span.start];
        let segment = &mappings[span.start..span.end];
        let after = &mappings[span.end..];
        if is_segment(self.place, before, segment, after)
            && spells(alloc, &text[self.within.start + 1..range.start], before)?
            && spells(alloc, &text[range.start..range.end], segment)?
        {
            Ok(Some(range))
        } else {
            Ok(None)
        }
    }

    /// Its range.
    fn range(&self, alloc: Global) -> Result<Option<TextRange>, AllocError>
        requires { IsRangeOf (length self.now.text.now) self.now.within }
        ensures { IfOk result (λ o. IfSome o
            (IsSegmentIn self.now.text.now self.now.mappings.now self.now.within self.now.place)) }
    {
        let Some(span) = span_of(self.mappings, self.place) else {
            return Ok(None);
        };
        let Some(range) = self.candidate(span) else {
            return Ok(None);
        };
        self.if_written(alloc, span, range)
    }
}

/// Where in a JSON text the segment with this place is written, of the mappings string at the path. The range
/// is within the string's quotes, and it may hold escapes; that of an empty segment is empty. `tree` is what
/// the text reads as. None if there is no string at the path, or no such segment in it.
///
/// # Errors
///
/// `AllocError`.
pub fn segment_range(
    alloc: Global,
    text: &[u8],
    tree: &Value,
    path: &[Step],
    place: SegmentPlace,
) -> Result<Option<TextRange>, AllocError>
    requires reads { read text.now ≡ Some (view tree.now) }
    requires nests { depth (view tree.now) ≤ max_depth }
    ensures { IfOk result (λ o. IfSome o (IsSegmentWritten text.now path.now place)) }
{
    let Some(within) = value_range(alloc, text, tree, path)? else {
        return Ok(None);
    };
    let Some(Value::String(mappings)) = value_at(tree, path) else {
        return Ok(None);
    };
    let sought = Sought {
        text,
        within,
        mappings: mappings.as_bytes(),
        place,
    };
    sought.range(alloc)
}
