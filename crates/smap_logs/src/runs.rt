//! Runs of numbers with colons before them, as `:1:2`.
ghost use Rattle.std.specs.Prelude.{◌≡◌, ℕ, ◌+◌, ◌-◌, ◌<◌, ◌≤◌, IfSome, length};
ghost use Rattle.smap_logs.specs.Spans as spec;
ghost use Rattle.smap_logs.specs.Spans.{IsPlaceIn, IsRunIn};

use crate::looking::digits_len;

/// Where the number ends whose colon stands here, if one does. A number is digits, all that there are.
pub(crate) fn number_end(line: &[u8], colon: usize) -> Option<usize>
    ensures value { result ≡ spec.number_end line.now colon }
    ensures within { IfSome result (λ end. (colon + 1 < end) × (end ≤ length line.now)) }
{
    if colon >= line.len() || line[colon] != b':' {
        return None;
    }
    let digits = digits_len(&line[colon + 1..]);
    if digits > 0 {
        Some(colon + 1 + digits)
    } else {
        None
    }
}

/// A position `:L:C` in a line: where its first colon stands, and where it ends.
#[derive(Clone, Copy)]
pub(crate) struct Place {
    pub(crate) start: usize,
    pub(crate) end: usize,
}

/// The positions that count of a run of numbers, and where it ends: the first two numbers, and the last two
/// if these are others.
#[derive(Clone, Copy)]
pub(crate) struct Run {
    pub(crate) first: Option<Place>,
    pub(crate) last: Option<Place>,
    pub(crate) end: usize,
}

impl Run {
    /// The run with one more position.
    fn with(self, place: Place) -> Run
        ensures value { result ≡ spec.with_place self place }
        ensures end { result.end ≡ place.end }
        ensures run { (len : ℕ) → IsPlaceIn len place → IsRunIn len self → IsRunIn len result }
    {
        match self.first {
            None => Run {
                first: Some(place),
                last: None,
                end: place.end,
            },
            Some(first) => Run {
                first: Some(first),
                last: Some(place),
                end: place.end,
            },
        }
    }
}

/// The run of numbers that begins here, behind this first one.
fn run_behind(line: &[u8], start: usize, first_end: usize) -> Run
    requires begun { start < first_end }
    requires within { first_end ≤ length line.now }
    ensures value { result ≡ spec.run_behind (length line.now) line.now start first_end }
    ensures run { IsRunIn (length line.now) result }
    ensures end { start < result.end }
{
    let mut run = Run {
        first: None,
        last: None,
        end: first_end,
    };
    let mut before = start;
    for _ in 0..line.len() {
        let Some(end) = number_end(line, run.end) else {
            break;
        };
        let colon = run.end;
        run = run.with(Place { start: before, end });
        before = colon;
    }
    run
}

/// The run of numbers that begins here, if one does.
pub(crate) fn run_at(line: &[u8], start: usize) -> Option<Run>
    ensures value { result ≡ spec.run_at line.now start }
    ensures run { IfSome result (IsRunIn (length line.now)) }
    ensures end { IfSome result (λ run. start < run.end) }
{
    let first_end = number_end(line, start)?;
    Some(run_behind(line, start, first_end))
}
