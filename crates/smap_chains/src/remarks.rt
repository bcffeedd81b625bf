//! What is said of the sources of a map that are followed, or aren't.
use crate::chains::Chain;
use crate::closing::Closed;
use smap_record::SourceMap;
use std::alloc::{AllocError, Global};

/// What is said of the sources of a map, a sentence each.
#[derive(Drop)]
pub struct Remarks {
    /// What is followed, and which maps that sources name aren't there.
    pub notes: Vec<String>,
    /// Why maps that are there aren't followed.
    pub faults: Vec<String>,
}

/// How many sources of the first map are followed.
fn followed(chain: &Chain) -> usize {
    chain
        .numbers
        .iter()
        .filter(|number| number.is_some())
        .count()
}

/// How many sources are followed, and how deep.
fn followed_words(
    alloc: Global,
    map: &SourceMap,
    chain: &Chain,
    depth: usize,
) -> Result<String, AllocError> {
    let (count, total) = (followed(chain), map.source_count());
    let sources = if total == 1 { "source" } else { "sources" };
    let more = if count > 1 { ", .." } else { "" };
    match &chain.example {
        Some(example) => {
            let example = example.as_str();
            format!(in alloc; "follows {count} of {total} {sources}, {depth} deep: {example}{more}")
        }
        None => format!(in alloc; "follows {count} of {total} {sources}, {depth} deep"),
    }
}

/// That a source names a map which isn't there, and how many others do.
fn missed_words(alloc: Global, missed: &str, count: usize) -> Result<String, AllocError> {
    match count.saturating_sub(1) {
        0 => String::from_str(alloc, missed),
        1 => format!(in alloc; "{missed}, nor is that of another source"),
        more => format!(in alloc; "{missed}, nor are those of {more} others"),
    }
}

/// Why there is no composition, though sources lead to maps.
fn unclosed_words(closed: &Closed) -> Option<&'static str> {
    match closed {
        Closed::Endless => Some("its sources lead on more than 16 deep, or back to a map before"),
        Closed::TooMuch => Some("too many sources or names, once its sources are followed"),
        Closed::Same | Closed::Map(_) => None,
    }
}

/// What is followed, and which maps that sources name aren't there.
fn notes(
    alloc: Global,
    map: &SourceMap,
    chain: &Chain,
    closed: &Closed,
) -> Result<Vec<String>, AllocError> {
    let mut notes = Vec::new(alloc);
    if let (Closed::Map(_), Some(depth)) = (closed, chain.depth) {
        notes.push(followed_words(alloc, map, chain, depth)?)?;
    }
    if let Some(missed) = &chain.missed {
        notes.push(missed_words(alloc, missed.as_str(), chain.missing)?)?;
    }
    Ok(notes)
}

/// What is said of the sources of a map, of which this became with those of a chain.
///
/// # Errors
///
/// Out of memory alone.
pub fn remarks_of(
    alloc: Global,
    map: &SourceMap,
    chain: Chain,
    closed: &Closed,
) -> Result<Remarks, AllocError> {
    let notes = notes(alloc, map, &chain, closed)?;
    let mut faults = Vec::new(alloc);
    if let Some(words) = unclosed_words(closed) {
        faults.push(String::from_str(alloc, words)?)?;
    }
    for refusal in chain.refusals {
        faults.push(refusal)?;
    }
    Ok(Remarks { notes, faults })
}
