//! A text in the parts into which its functions divide it: by these the innermost function at a place is
//! found by halving, however many functions there are.
ghost use Rattle.std.specs.Prelude.{◌≡◌, ◌++◌, IfOk, IfSome, None, OnOk, reverse};
ghost use Rattle.smap_functions.specs.Segments as spec;
ghost use Rattle.std.specs.Prelude.{not, true};
ghost use Rattle.std.specs.List.{list_any};
ghost use Rattle.smap_functions.specs.Segments.{AddsFunction, AreSegments, Counts, last_says};

use crate::found::Function;
use std::alloc::{AllocError, Global};

/// A part of a text, up to where the next one begins.
#[derive(Clone, Copy)]
pub(crate) struct Segment {
    pub(crate) start: usize,
    pub(crate) innermost: Option<Function>,
}

/// Lets the segments begin that wait, the first of them last, up to a place.
fn begin_up_to(
    place: usize,
    waiting: &mut Vec<Segment>,
    begun: &mut Vec<Segment>,
) -> Result<(), AllocError>
    ensures { OnOk result (begun.new.items ++ reverse waiting.new.items
        ≡ begun.old.items ++ reverse waiting.old.items) }
{
    while let Some(segment) = waiting.pop() {
        if place < segment.start {
            waiting.push(segment)?;
            return Ok(());
        }
        begun.push(segment)?;
    }
    Ok(())
}

/// The innermost function in the last segment.
fn innermost_last(begun: &[Segment]) -> Option<Function>
    ensures { result ≡ last_says begun.now None }
{
    match begun {
        [.., segment] => segment.innermost,
        [] => None,
    }
}

/// Adds the segments of a function, of which the second one waits.
fn add_function(
    function: Function,
    waiting: &mut Vec<Segment>,
    begun: &mut Vec<Segment>,
) -> Result<(), AllocError>
    ensures { OnOk result (AddsFunction function (begun.old.items ++ reverse waiting.old.items)
        (begun.new.items ++ reverse waiting.new.items)) }
{
    begin_up_to(function.start, waiting, begun)?;
    let innermost = innermost_last(begun);
    begun.push(Segment {
        start: function.start,
        innermost: Some(function),
    })?;
    waiting.push(Segment {
        start: function.end,
        innermost,
    })?;
    Ok(())
}

/// Whether segments begin in order.
#[tactic(auto, using(crate::proofs::SegmentLemmas::rise_rest))]
fn rise(segments: &[Segment]) -> bool
    ensures { result ≡ spec.rise 0 segments.now }
{
    let mut start = 0;
    for segment in segments {
        if segment.start < start {
            return false;
        }
        start = segment.start;
    }
    true
}

/// The segments of a text with these functions, which are in order of their starts; none if functions cross.
pub(crate) fn segments(
    alloc: Global,
    functions: &[Function],
) -> Result<Option<Vec<Segment>>, AllocError>
    ensures { IfOk result (λ o. IfSome o (λ ss. AreSegments functions.now ss.items)) }
{
    let mut begun = Vec::new(alloc);
    let mut waiting = Vec::new(alloc);
    for function in functions {
        add_function(*function, &mut waiting, &mut begun)?;
    }
    begin_up_to(usize::MAX, &mut waiting, &mut begun)?;
    if waiting.is_empty() && rise(&begun) {
        Ok(Some(begun))
    } else {
        Ok(None)
    }
}

/// How many segments begin up to a place.
fn count_up_to(segments: &[Segment], place: usize) -> usize
    requires { spec.rise 0 segments.now ≡ true }
    ensures { Counts segments.now place result }
{
    segments.partition_point(|segment| segment.start <= place)
}

/// The innermost function at a place.
pub(crate) fn innermost_at(segments: &[Segment], place: usize) -> Option<Function>
    requires { spec.rise 0 segments.now ≡ true }
    ensures { result ≡ spec.said segments.now place None }
{
    let count = count_up_to(segments, place);
    if count == 0 {
        return None;
    }
    segments[count - 1].innermost
}

/// Whether no segment begins between two places.
pub(crate) fn are_together(segments: &[Segment], place: usize, other: usize) -> bool
    requires { spec.rise 0 segments.now ≡ true }
    ensures { result ≡ not (list_any (λ s. spec.is_between place other s.start) segments.now) }
{
    count_up_to(segments, place) == count_up_to(segments, other)
}
