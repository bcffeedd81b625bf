//! The translation of a trace with the names of functions.
ghost use Rattle.std.specs.Prelude.{◌≡◌, ◌++◌, ◌-◌, ◌<◌, ◌^◌, IfOk, OnOk, false, option_map, true};
ghost use Rattle.smap_io.specs.Calls.{MakesAtMost, StopsInTime};
ghost use Rattle.smap_io.specs.Device.{device_failures, has_ended, is_over};
ghost use Rattle.smap_io.specs.Limits.{most_calls};
ghost use Rattle.smap_io.specs.Streams.{streams};
ghost use Rattle.smap_trace.specs.Giving.{Becomes};
ghost use Rattle.smap_trace.specs.NamedFates as spec;
ghost use Rattle.smap_trace.specs.NamedFates.{AreKept, AreTranslated, MayBecome};
ghost use Rattle.smap_trace.specs.Names.{around_of};
ghost use Rattle.smap_trace.specs.Streaming.{GivesBy};
ghost use Rattle.smap_trace.specs.Translation.{written, without_line_feed};
ghost use Rattle.smap_trace.specs.Pieces.{AppendsLine};
ghost use Rattle.smap_trace.specs.Views.{outcome_of, scripts_in};

use crate::error::TraceError;
use crate::kept::Kept;
use crate::lines::{Translator, cut_feed, map_for, translate_found, translate_frame};
use crate::match_mode::MatchMode;
use crate::names::{RenamedFrame, rename_frame};
use crate::outcome::{Counts, LineOutcome};
use crate::scripts::{Listed, Maps};
use crate::streaming::translate_with;
use crate::translated::ends_like_frames;
use smap_frames::{Frame, frame};
use smap_io::Device;
use smap_mappings::Memory;
use smap_record::SourceMap;
use std::alloc::{AllocError, Global};
use std::io::{Read, Write};

/// Appends the translation of a line that is a frame with this around its position.
fn translate_renamed<M: Maps>(
    alloc: Global,
    line: &[u8],
    renamed: &RenamedFrame,
    maps: &M,
    ignore_query: bool,
    hide: bool,
    out: &mut Vec<u8>,
) -> Result<LineOutcome, AllocError>
    ensures ok { OnOk result (out.new.items ≡ out.old.items ++ written (spec.renamed_fate
        (around_of renamed.now) ignore_query (M.scripts maps.now) hide (without_line_feed line.now))
        line.now) }
    ensures outcome { IfOk result (λ o. o ≡ outcome_of (spec.renamed_fate
        (around_of renamed.now) ignore_query (M.scripts maps.now) hide (without_line_feed line.now))) }
{
    let (text, feed) = cut_feed(line);
    if let Some(frame) = frame(text) {
        if let Some(map) = map_for(text, &frame, maps, ignore_query) {
            let mut after = Vec::from_slice(alloc, renamed.closing)?;
            after.extend_from_slice(frame.after)?;
            let renamed = Frame {
                before: &renamed.before,
                url: frame.url,
                line: frame.line,
                column: frame.column,
                after: &after,
            };
            return translate_frame(line, &renamed, feed, map, hide, out);
        }
    }
    out.extend_from_slice(line)?;
    Ok(LineOutcome::Kept)
}

/// Whether a line is translated as the frame that it is.
fn is_framed<M: Maps>(
    alloc: Global,
    line: &[u8],
    maps: &M,
    mode: MatchMode,
    hide: bool,
) -> Result<bool, AllocError>
    ensures { IfOk result (λ is. is ≡ spec.is_framed mode (M.scripts maps.now) hide line.now) }
{
    if !mode.anywhere {
        return Ok(true);
    }
    let frames = MatchMode {
        anywhere: false,
        ignore_query: mode.ignore_query,
    };
    let mut found = Vec::new(alloc);
    translate_found(line, maps, mode, hide, &mut found)?;
    let mut framed = Vec::new(alloc);
    translate_found(line, maps, frames, hide, &mut framed)?;
    Ok(found.as_slice() == framed.as_slice())
}

/// Appends the translation of a line that gets this.
fn translate_given<M: Maps>(
    alloc: Global,
    line: &[u8],
    given: &Option<RenamedFrame>,
    maps: &M,
    mode: MatchMode,
    hide: bool,
    out: &mut Vec<u8>,
) -> Result<LineOutcome, AllocError>
    ensures ok { OnOk result (out.new.items ≡ out.old.items ++ written (spec.fate_with
        (option_map around_of given.now) mode (M.scripts maps.now) hide line.now) line.now) }
    ensures outcome { IfOk result (λ o. o ≡ outcome_of (spec.fate_with
        (option_map around_of given.now) mode (M.scripts maps.now) hide line.now)) }
{
    if let Some(renamed) = given {
        if is_framed(alloc, line, maps, mode, hide)? {
            let ignore_query = mode.ignore_query;
            return translate_renamed(alloc, line, renamed, maps, ignore_query, hide, out);
        }
    }
    translate_found(line, maps, mode, hide, out)
}

/// The maps of scripts, and how positions are found and hidden.
#[derive(Drop)]
struct Naming<'a, M> {
    alloc: Global,
    maps: &'a M,
    mode: MatchMode,
    hide: bool,
}

impl<M: Maps> Naming<'_, M> {
    /// Appends the translation of a line, and answers whether it got the name of a function.
    fn translate_anew(
        &self,
        line: &[u8],
        kept: &mut Kept,
        out: &mut Vec<u8>,
    ) -> Result<(LineOutcome, bool), AllocError>
        ensures { IfOk result (λ o. AppendsLine
            (MayBecome self.now.mode (M.scripts self.now.maps.now) self.now.hide)
            (AreKept self.now.mode (M.scripts self.now.maps.now) self.now.hide)
            line.now kept.old out.old.items kept.new out.new.items o.0) }
    {
        let (text, _) = cut_feed(line);
        let (maps, mode) = (self.maps, self.mode);
        match rename_frame(
            self.alloc,
            text,
            maps,
            mode.ignore_query,
            &mut kept.functions,
        ) {
            Ok(given) => {
                let outcome = translate_given(
                    self.alloc, line, &given, maps, mode, self.hide, out,
                )?;
                Ok((outcome, given.is_some()))
            }
            Err(_) => Err(AllocError),
        }
    }

    /// The same, and keeps it if it did.
    fn translate_first(
        &self,
        line: &[u8],
        kept: &mut Kept,
        out: &mut Vec<u8>,
    ) -> Result<LineOutcome, AllocError>
        ensures { IfOk result (AppendsLine
            (MayBecome self.now.mode (M.scripts self.now.maps.now) self.now.hide)
            (AreKept self.now.mode (M.scripts self.now.maps.now) self.now.hide)
            line.now kept.old out.old.items kept.new out.new.items) }
    {
        let mut text = Vec::new(self.alloc);
        let (outcome, is_named) = self.translate_anew(line, kept, &mut text)?;
        out.extend_from_slice(&text)?;
        if is_named {
            kept.lines.put(self.alloc, line, &text, outcome)?;
        }
        Ok(outcome)
    }
}

impl<M: Maps> Translator for Naming<'_, M> {
    ghost may = { λ s. MayBecome s.mode (M.scripts s.maps.now) s.hide };

    ghost holds = { λ s. AreKept s.mode (M.scripts s.maps.now) s.hide };

    fn translate(
        &self,
        line: &[u8],
        kept: &mut Kept,
        out: &mut Vec<u8>,
    ) -> Result<LineOutcome, AllocError> {
        if !ends_like_frames(line) {
            let (outcome, _) = self.translate_anew(line, kept, out)?;
            return Ok(outcome);
        }
        if let Some((text, outcome)) = kept.lines.get(line) {
            out.extend_from_slice(text)?;
            return Ok(outcome);
        }
        self.translate_first(line, kept, out)
    }
}

/// Appends the translation of one line to `out`, as [`translate_line_by`](crate::translate_line_by) does,
/// where a frame gets the name of a function that is sure, as by [`rename_frame`]. The functions of its
/// source are read for this line alone.
///
/// # Errors
///
/// `Memory`.
pub fn translate_named_line(
    alloc: Global,
    line: &[u8],
    scripts: &[(&str, &SourceMap)],
    mode: MatchMode,
    hide: bool,
    out: &mut Vec<u8>,
) -> Result<LineOutcome, Memory>
    ensures { IfOk result (λ o. Becomes (MayBecome mode (scripts_in scripts.now) hide) line.now out.old.items
        out.new.items o) }
{
    let mut kept = Kept::new(alloc);
    let lines = Naming {
        alloc,
        maps: &Listed { scripts },
        mode,
        hide,
    };
    let (outcome, _) = lines.translate_anew(line, &mut kept, out)?;
    Ok(outcome)
}

/// Reads a stack trace to its end and writes its translation, as [`translate_in`](crate::translate_in) does,
/// where frames get the names of functions that are sure, as by [`rename_frame`](crate::rename_frame).
/// Where positions are found anywhere, lines get them whose position is that of the frame alone.
///
/// # Errors
///
/// Those of [`translate`](crate::translate), with what was written then.
pub fn translate_named_in<M: Maps, R: Read, W: Write>(
    alloc: Global,
    reader: &mut Device<R>,
    maps: &M,
    mode: MatchMode,
    hide: bool,
    writer: &mut Device<W>,
) -> Result<Counts, TraceError>
    requires reads { device_failures reader.old < 2 ^ 64 - 1 }
    requires writes { device_failures writer.old < 2 ^ 64 - 1 }
    requires not_ended { has_ended reader.old ≡ false }

    // As for `translate`, with what becomes of a line by these scripts and what is known of their sources.
    ensures gives { GivesBy (MayBecome mode (M.scripts maps.now) hide)
        (streams R.remaining reader.old reader.new W.contents writer.old writer.new) result }
    ensures calls { MakesAtMost most_calls reader.old reader.new }
    ensures reads_in_time { StopsInTime reader.old reader.new }
    ensures writes_in_time { StopsInTime writer.old writer.new }
    ensures flushed { OnOk result (is_over writer.new ≡ true) }
{
    let lines = Naming {
        alloc,
        maps,
        mode,
        hide,
    };
    translate_with(alloc, &lines, reader, writer)
}
