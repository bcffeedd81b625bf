//! The texts of a line that may be URLs of scripts.
ghost use Rattle.std.specs.Prelude.{◌≡◌, ◌++◌, ◌<◌, ◌≤◌, IfSome, OnOk, length};
ghost use Rattle.std.specs.List.{list_any};
ghost use Rattle.smap_logs.specs.Spans as spec;
ghost use Rattle.smap_logs.specs.Spans.{AddsSpans, IsPlaceIn, IsRunIn};

use crate::beginnings::{Beginnings, beginnings_of, path_start};
use crate::runs::{Place, Run, run_at};
use std::alloc::AllocError;

/// A text in a line that may be the URL of a script, since a position stands behind it.
#[derive(Clone, Copy, Debug, PartialEq, Eq)]
pub struct Span {
    pub start: usize,
    /// The end of the URL, where the position begins.
    pub url_end: usize,
    /// The end of the position.
    pub end: usize,
}

fn is_place(place: Option<usize>, start: usize) -> bool
    ensures { result ≡ spec.is_place place start }
{
    match place {
        Some(at) => at == start,
        None => false,
    }
}

fn is_among(start: usize, others: &[Option<usize>]) -> bool
    ensures { result ≡ list_any (λ other. spec.is_place other start) others.now }
{
    others.iter().any(|other| is_place(*other, start))
}

/// Adds the span that begins here, if one does and none of the others does.
fn add_span(
    line: &[u8],
    place: Place,
    start: Option<usize>,
    others: &[Option<usize>],
    spans: &mut Vec<Span>,
) -> Result<(), AllocError>
    requires place { IsPlaceIn (length line.now) place }
    requires start { IfSome start (λ at. at < place.start) }
    ensures ok { OnOk result (spans.new.items ≡ spans.old.items ++ spec.span_if place start others.now) }
    ensures within { AddsSpans (length line.now) spans.old.items spans.new.items }
{
    let Some(at) = start else {
        return Ok(());
    };
    if is_among(at, others) {
        return Ok(());
    }
    let span = Span {
        start: at,
        url_end: place.start,
        end: place.end,
    };
    spans.push(span)?;
    Ok(())
}

/// Where the path with spaces begins before a position that a parenthesis closes, if there is one.
fn path_before(line: &[u8], place: Place) -> Option<usize>
    requires { IsPlaceIn (length line.now) place }
    ensures value { result ≡ spec.path_before line.now place }
    ensures before { IfSome result (λ start. start < place.start) }
{
    if line[place.end..].starts_with(b")") {
        path_start(line, place.start)
    } else {
        None
    }
}

/// Adds the spans of one position.
#[tactic(auto, using(crate::proofs::SpanLemmas::adds_trans))]
fn add_spans_at(line: &[u8], place: Place, spans: &mut Vec<Span>) -> Result<(), AllocError>
    requires { IsPlaceIn (length line.now) place }
    ensures ok { OnOk result (spans.new.items ≡ spans.old.items ++ spec.spans_at line.now place) }
    ensures within { AddsSpans (length line.now) spans.old.items spans.new.items }
{
    let found = beginnings_of(line, place.start).apart(line, place.start);
    let Beginnings {
        nearest,
        scheme,
        root,
        farthest,
    } = found;
    add_span(line, place, nearest, &[], spans)?;
    add_span(line, place, scheme, &[nearest], spans)?;
    add_span(line, place, root, &[nearest, scheme], spans)?;
    add_span(line, place, farthest, &[nearest, scheme, root], spans)?;
    let path = path_before(line, place);
    add_span(line, place, path, &[nearest, scheme, root, farthest], spans)?;
    Ok(())
}

/// Adds the spans of a position, if there is one.
fn add_spans_if(line: &[u8], place: Option<Place>, spans: &mut Vec<Span>) -> Result<(), AllocError>
    requires { IfSome place (IsPlaceIn (length line.now)) }
    ensures ok { OnOk result (spans.new.items ≡ spans.old.items ++ spec.spans_if line.now place) }
    ensures within { AddsSpans (length line.now) spans.old.items spans.new.items }
{
    match place {
        Some(place) => add_spans_at(line, place, spans),
        None => Ok(()),
    }
}

/// Adds the spans of one run of numbers.
#[tactic(auto, using(crate::proofs::SpanLemmas::adds_trans))]
fn add_spans_of(line: &[u8], run: Run, spans: &mut Vec<Span>) -> Result<(), AllocError>
    requires { IsRunIn (length line.now) run }
    ensures ok { OnOk result (spans.new.items ≡ spans.old.items ++ spec.spans_of line.now run) }
    ensures within { AddsSpans (length line.now) spans.old.items spans.new.items }
{
    add_spans_if(line, run.first, spans)?;
    add_spans_if(line, run.last, spans)?;
    Ok(())
}

/// Adds the spans of a line (without line feed), in order of `url_end`, each at most once.
///
/// A position is `:L:C`, both numbers taken whole; of a run of more numbers, as `:1:2:3:4`, the first two and
/// the last two are positions. A URL holds no space, has at most 1,024 bytes, and begins at the start of the
/// line, behind a byte that can't be part of a URL or path, or behind a colour sequence. Of these beginnings
/// four count: the nearest, unless it is within a URL or a path from a root; the nearest with a scheme, the
/// nearest with a root, and the farthest.
///
/// A path from a root may hold spaces if it and its position are all that stands between ` (` and `)`.
///
/// The time is proportional to the line's length.
///
/// # Errors
///
/// `AllocError`; a part of the spans may have been added.
#[tactic(auto, using(crate::proofs::SpanLemmas::adds_trans))]
pub fn add_spans(line: &[u8], spans: &mut Vec<Span>) -> Result<(), AllocError>
    ensures ok { OnOk result (spans.new.items ≡ spans.old.items ++ spec.spans line.now) }
    ensures within { AddsSpans (length line.now) spans.old.items spans.new.items }
{
    let mut at = 0;
    for _ in 0..line.len() {
        if at >= line.len() {
            break;
        }
        match run_at(line, at) {
            Some(run) => {
                add_spans_of(line, run, spans)?;
                at = run.end;
            }
            None => at += 1,
        }
    }
    Ok(())
}
