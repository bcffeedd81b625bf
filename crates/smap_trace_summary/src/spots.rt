//! The position of a line that is explained, and what the name of its script has.
use smap_frames::{frame, place_after};
use smap_logs::{Span, add_spans, names_in};
use smap_map_choice::Found;
use smap_map_finder::Finder;
use smap_system::{Disk, Stop};
use smap_trace::MatchMode;
use std::alloc::{AllocError, Global};

/// What is explained.
#[derive(Clone, Copy)]
pub struct Question<'a> {
    /// A line of a log, without its line feed.
    pub text: &'a [u8],
    /// How positions are found in it.
    pub mode: MatchMode,
    /// The scripts that are given by names with control characters.
    pub with_controls: &'a [Vec<u8>],
    /// What is written for the beginnings of source URLs.
    pub prefixes: &'a [(&'a str, &'a str)],
}

/// A position, and the name of its script in the line.
#[derive(Clone, Copy)]
pub(crate) struct Spot<'a> {
    pub(crate) name: &'a [u8],
    pub(crate) in_frames: bool,
    /// From 1.
    pub(crate) line: u32,
    /// From 1.
    pub(crate) column: u32,
}

/// A position, and what its name has.
#[derive(Clone, Copy)]
pub(crate) struct Sighting<'a> {
    pub(crate) spot: Spot<'a>,
    pub(crate) found: Found,
}

/// The position of the frame that a line is.
fn frame_spot<'a>(text: &'a [u8]) -> Option<Spot<'a>> {
    let frame = frame(text)?;
    Some(Spot {
        name: frame.url,
        in_frames: true,
        line: frame.line,
        column: frame.column,
    })
}

/// The position behind a text that may be the name of a script.
fn span_spot<'a>(text: &'a [u8], span: &Span) -> Option<Spot<'a>> {
    let name = text.get(span.start..span.url_end)?;
    let place = place_after(text.get(span.url_end..)?, false)?;
    Some(Spot {
        name,
        in_frames: false,
        line: place.line,
        column: place.column,
    })
}

fn is_among(sought: &[&[u8]], name: &[u8]) -> bool {
    sought.iter().any(|one| *one == name)
}

/// Adds the positions anywhere in a line whose names are looked for.
fn add_others<'a>(
    alloc: Global,
    text: &'a [u8],
    sought: &[&[u8]],
    spots: &mut Vec<Spot<'a>>,
) -> Result<(), AllocError> {
    let mut spans = Vec::new(alloc);
    add_spans(text, &mut spans)?;
    for span in &spans {
        if let Some(spot) = span_spot(text, span) {
            if is_among(sought, spot.name) {
                spots.push(spot)?;
            }
        }
    }
    Ok(())
}

/// The positions of a line whose names are looked for.
fn spots<'a>(alloc: Global, question: Question<'a>) -> Result<Vec<Spot<'a>>, AllocError> {
    let mut spots = Vec::new(alloc);
    if let Some(spot) = frame_spot(question.text) {
        spots.push(spot)?;
    }
    let names = names_in(alloc, question.text, question.mode.anywhere)?;
    let sought = names.of_others(alloc, question.with_controls)?;
    add_others(alloc, question.text, &sought, &mut spots)?;
    Ok(spots)
}

/// The first position of a line whose name has something, or else its first.
pub(crate) fn sighted<'a, E: Eprint + AllocGlobal, D: Disk>(
    alloc: Global,
    finder: &Finder<'_, E, D>,
    question: Question<'a>,
) -> Result<Option<Sighting<'a>>, Stop> {
    let mut first = None;
    for spot in &spots(alloc, question)? {
        let found = finder.found_for(spot.in_frames, spot.name)?;
        let sighting = Sighting {
            spot: *spot,
            found: found.unwrap_or(Found::Missing),
        };
        if sighting.found != Found::Missing {
            return Ok(Some(sighting));
        }
        first = first.or(Some(sighting));
    }
    Ok(first)
}
