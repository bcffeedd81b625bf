//! Lines translated with what `--source-prefix`, `--context` and `--names` ask for.
ghost use Rattle.smap_trace_run.specs.Written.{is_plain_style};
ghost use Rattle.std.specs.Prelude.{◌≡◌};

use smap_logs::add_context;
use smap_record::SourceMap;
use smap_trace::{
    Counts, Kept, KnownFunctions, LineOutcome, LinePosition, MatchMode, RenamedFrame, Scripts,
    ends_like_frames, is_hidden, line_positions, named_frame, rename_frame,
};
use smap_trace_summary::original_text;
use std::alloc::{AllocError, Global};
use std::sync::Arc;

/// How lines are translated.
#[derive(Clone, Copy)]
pub(crate) struct Style<'a> {
    pub(crate) mode: MatchMode,
    pub(crate) hide: bool,
    /// What is written for the beginnings of source URLs.
    pub(crate) prefixes: &'a [(&'a str, &'a str)],
    /// How many lines of the source are shown around a position.
    pub(crate) context: Option<u32>,
    /// Whether frames get the names of functions.
    pub(crate) names: bool,
}

impl Style<'_> {
    /// Whether lines are written as they are translated.
    pub(crate) fn is_plain(&self) -> bool
        ensures { result ≡ is_plain_style self.now.prefixes.now self.now.context self.now.names }
    {
        self.prefixes.is_empty() && (self.context.is_none() && !self.names)
    }
}

/// What lines are translated by.
#[derive(Clone, Copy)]
pub(crate) struct Lookup<'a> {
    pub(crate) scripts: &'a Scripts<Arc<SourceMap>>,
    pub(crate) style: Style<'a>,
    /// The script that is meant in frames that name none, if one is.
    pub(crate) unnamed: Option<&'a [u8]>,
}

/// Translates these lines.
pub(crate) fn decorate(
    alloc: Global,
    lines: &[u8],
    lookup: &Lookup<'_>,
    kept: &mut Kept,
    out: &mut Vec<u8>,
) -> Result<Counts, AllocError> {
    let mut counts = Counts {
        lines: 0,
        translated: 0,
        dropped: 0,
    };
    for line in lines.split_inclusive(|b| *b == b'\n') {
        counts.lines = counts.lines.saturating_add(1);
        match decorate_once(alloc, line, lookup, kept, out)? {
            LineOutcome::Kept => {}
            LineOutcome::Translated => counts.translated = counts.translated.saturating_add(1),
            LineOutcome::Dropped => counts.dropped = counts.dropped.saturating_add(1),
        }
    }
    Ok(counts)
}

/// Translates a line, with names as it was translated before if that is kept.
fn decorate_once(
    alloc: Global,
    line: &[u8],
    lookup: &Lookup<'_>,
    kept: &mut Kept,
    out: &mut Vec<u8>,
) -> Result<LineOutcome, AllocError> {
    if !lookup.style.names || !ends_like_frames(line) {
        return decorate_line(alloc, line, lookup, &mut kept.functions, out);
    }
    if let Some((text, outcome)) = kept.lines.get(line) {
        out.extend_from_slice(text)?;
        return Ok(outcome);
    }
    let before = out.len();
    let outcome = decorate_line(alloc, line, lookup, &mut kept.functions, out)?;
    if outcome == LineOutcome::Translated {
        let text = out.get(before..).unwrap_or(b"");
        kept.lines.put(alloc, line, text, outcome)?;
    }
    Ok(outcome)
}

/// The frame that a line is, with the name of the script that is meant, if it names none.
fn with_name(
    alloc: Global,
    text: &[u8],
    lookup: &Lookup<'_>,
) -> Result<Option<Vec<u8>>, AllocError> {
    match lookup.unnamed {
        Some(script) => named_frame(alloc, script, text),
        None => Ok(None),
    }
}

/// Translates a line, which may have its end.
fn decorate_line(
    alloc: Global,
    line: &[u8],
    lookup: &Lookup<'_>,
    known: &mut KnownFunctions,
    out: &mut Vec<u8>,
) -> Result<LineOutcome, AllocError> {
    let (text, end) = match line.strip_suffix(b"\n".as_slice()) {
        Some(text) => (text, b"\n".as_slice()),
        None => (line, b"".as_slice()),
    };
    let Some(named) = with_name(alloc, text, lookup)? else {
        return decorate_text(alloc, text, end, lookup, known, out);
    };
    let mut lookup = *lookup;
    lookup.style.mode.anywhere = false;
    let before = out.len();
    let outcome = decorate_text(alloc, &named, end, &lookup, known, out)?;
    if outcome == LineOutcome::Kept {
        out.truncate(before);
        out.extend_from_slice(line)?;
    }
    Ok(outcome)
}

/// Translates a text, which is that of a line with this end.
fn decorate_text(
    alloc: Global,
    text: &[u8],
    end: &[u8],
    lookup: &Lookup<'_>,
    known: &mut KnownFunctions,
    out: &mut Vec<u8>,
) -> Result<LineOutcome, AllocError> {
    let (scripts, style) = (lookup.scripts, &lookup.style);
    let mode = style.mode;
    if style.hide && is_hidden(text, scripts, mode.ignore_query) {
        return Ok(LineOutcome::Dropped);
    }
    let positions = match line_positions(alloc, text, scripts, mode) {
        Ok(positions) => positions,
        Err(_) => return Err(AllocError),
    };
    let renamed = match rename(alloc, text, scripts, &positions, style, known) {
        Ok(renamed) => renamed,
        Err(_) => return Err(AllocError),
    };
    let is_translated = match renamed {
        Some(frame) => add_renamed(alloc, text, &positions, &frame, style, out)?,
        None => add_text(alloc, text, &positions, style, out)?,
    };
    out.extend_from_slice(end)?;
    if !is_translated {
        return Ok(LineOutcome::Kept);
    }
    add_sources(&positions, style, end.is_empty(), out)?;
    Ok(LineOutcome::Translated)
}

/// What the line has with a name, if its one position is that of a frame.
fn rename(
    alloc: Global,
    text: &[u8],
    scripts: &Scripts<Arc<SourceMap>>,
    positions: &[LinePosition<'_>],
    style: &Style<'_>,
    known: &mut KnownFunctions,
) -> Result<Option<RenamedFrame>, AllocError> {
    if !style.names || positions.len() != 1 {
        return Ok(None);
    }
    match rename_frame(alloc, text, scripts, style.mode.ignore_query, known) {
        Ok(Some(frame)) if frame.start == positions[0].start => Ok(Some(frame)),
        Ok(_) => Ok(None),
        Err(_) => Err(AllocError),
    }
}

/// Adds the text of a line with the original of its one position, and what a frame has around it with a name.
fn add_renamed(
    alloc: Global,
    text: &[u8],
    positions: &[LinePosition<'_>],
    frame: &RenamedFrame,
    style: &Style<'_>,
    out: &mut Vec<u8>,
) -> Result<bool, AllocError> {
    for position in positions {
        if let Some(piece) = text_of(alloc, position, style.prefixes)? {
            out.extend_from_slice(&frame.before)?;
            out.extend_from_slice(&piece)?;
            out.extend_from_slice(frame.closing)?;
            out.extend_from_slice(text.get(position.end..).unwrap_or(b""))?;
            return Ok(true);
        }
    }
    out.extend_from_slice(text)?;
    Ok(false)
}

/// Adds the text of a line with the originals of its positions, and answers whether it has one.
fn add_text(
    alloc: Global,
    text: &[u8],
    positions: &[LinePosition<'_>],
    style: &Style<'_>,
    out: &mut Vec<u8>,
) -> Result<bool, AllocError> {
    let mut at = 0;
    let mut is_translated = false;
    for position in positions {
        let Some(piece) = text_of(alloc, position, style.prefixes)? else {
            continue
        };
        out.extend_from_slice(text.get(at..position.start).unwrap_or(b""))?;
        out.extend_from_slice(&piece)?;
        at = position.end;
        is_translated = true;
    }
    out.extend_from_slice(text.get(at..).unwrap_or(b""))?;
    Ok(is_translated)
}

/// The original of a position with its prefix, if its source has a URL.
fn text_of(
    alloc: Global,
    position: &LinePosition<'_>,
    prefixes: &[(&str, &str)],
) -> Result<Option<Vec<u8>>, AllocError> {
    match &position.original {
        Some(original) => original_text(alloc, original, prefixes),
        None => Ok(None),
    }
}

/// Adds the lines of the sources around the originals of a line's positions.
fn add_sources(
    positions: &[LinePosition<'_>],
    style: &Style<'_>,
    needs_end: bool,
    out: &mut Vec<u8>,
) -> Result<(), AllocError> {
    let Some(count) = style.context else {
        return Ok(());
    };
    let mut needs_end = needs_end;
    for position in positions {
        let Some(original) = &position.original else {
            continue
        };
        let Some(content) = original.source.content else {
            continue
        };
        if needs_end {
            out.push(b'\n')?;
            needs_end = false;
        }
        let (line, column) = (
            original.line.saturating_add(1),
            original.column.saturating_add(1),
        );
        add_context(content, line, column, count, out)?;
    }
    Ok(())
}
