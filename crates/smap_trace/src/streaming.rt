//! The translation of a trace from a reader to a writer: a piece is read, the translation of the lines that
//! it ends is written, and only then is more read.
ghost use Rattle.std.specs.Prelude.{◌≡◌, ◌-◌, ◌<◌, ◌^◌, IfOk, OnOk, OnErr, true, false, []};
ghost use Rattle.smap_io.specs.Calls.{MakesAtMost, StopsInTime};
ghost use Rattle.smap_io.specs.Device.{device_failures, has_ended, is_over};
ghost use Rattle.smap_io.specs.Limits.{most_calls};
ghost use Rattle.smap_io.specs.Lines.{HasNoFeed};
ghost use Rattle.smap_io.specs.Streams.{Rises, fails_by, streams};
ghost use Rattle.smap_trace.specs.Giving.{Give, count_line};
ghost use Rattle.smap_trace.specs.Pieces.{EndsTrace, IsFate, TakesLine};
ghost use Rattle.smap_trace.specs.NamedFates.{nothing_kept};
ghost use Rattle.smap_trace.specs.Streaming.{GivesBy, TranslatesBy, TranslatesTrace, is_write};
ghost use Rattle.smap_trace.specs.Translation.{AreDistinct, fate_by, lines_of};
ghost use Rattle.smap_trace.specs.Views.{scripts_in};

use crate::error::TraceError;
use crate::kept::Kept;
use crate::lines::{ByMaps, Translator};
use crate::match_mode::MatchMode;
use crate::outcome::{Counts, LineOutcome};
use crate::scripts::{Listed, Maps};
use crate::table::by_url;
use smap_io::{Device, EachLine, MOST_CALLS, take_last, take_piece, write_all, write_and_flush};
use smap_record::SourceMap;
use std::alloc::{AllocError, Global};
use std::io::{Read, Write};

/// The most bytes of one read.
const PIECE: usize = 65_536;

/// Up to this many scripts are searched faster one by one than in a table.
const FEW: usize = 4;

/// The counts with one line more.
fn counted(counts: Counts, outcome: LineOutcome) -> Counts
    ensures { result ≡ count_line counts outcome }
{
    let lines = counts.lines.saturating_add(1);
    match outcome {
        LineOutcome::Kept => Counts { lines, ..counts },
        LineOutcome::Translated => Counts {
            lines,
            translated: counts.translated.saturating_add(1),
            ..counts
        },
        LineOutcome::Dropped => Counts {
            lines,
            dropped: counts.dropped.saturating_add(1),
            ..counts
        },
    }
}

/// What the lines so far have given: their translations, as far as they aren't written yet, and their counts;
/// and what is kept for the lines to come.
#[derive(Drop)]
pub(crate) struct Output {
    text: Vec<u8>,
    counts: Counts,
    kept: Kept,
}

/// What appends the translations of lines, and counts them.
#[derive(Drop)]
struct Translating<'a, T> {
    lines: &'a T,
}

impl<T: Translator> EachLine<Output> for Translating<'_, T> {
    ghost takes = { λ s. TakesLine (T.may s.lines.now) (T.holds s.lines.now) };

    fn take(&self, so_far: &mut Output, line: &[u8]) -> Result<(), AllocError> {
        let outcome = self
            .lines
            .translate(line, &mut so_far.kept, &mut so_far.text)?;
        so_far.counts = counted(so_far.counts, outcome);
        Ok(())
    }
}

/// Appends the translation of the last line, if there is one, and counts it.
fn end_line<T: Translator>(lines: &T, line: &[u8], so_far: &mut Output) -> Result<(), AllocError>
    requires free { HasNoFeed line.now }
    requires empty { so_far.old.text.items ≡ [] }
    requires holds { T.holds lines.now so_far.old.kept }
    ensures { OnOk result (Give (T.may lines.now) (lines_of line.now) so_far.new.text.items
        so_far.old.counts so_far.new.counts) }
{
    take_last(&Translating { lines }, so_far, line)
}

/// Writes the translation of the last line, if there is one, and flushes.
fn finish<T: Translator, W: Write>(
    lines: &T,
    line: &[u8],
    so_far: &mut Output,
    writer: &mut Device<W>,
) -> Result<Counts, TraceError>
    requires free { HasNoFeed line.now }
    requires empty { so_far.old.text.items ≡ [] }
    requires holds { T.holds lines.now so_far.old.kept }
    requires writes { device_failures writer.old < 2 ^ 64 - 1 }
    ensures ends { EndsTrace (T.may lines.now) W.contents writer.old writer.new line.now so_far.old.counts
        result }
    ensures writer_failures { Rises (fails_by is_write result) (device_failures writer.old)
        (device_failures writer.new) }
    ensures writes_in_time { StopsInTime writer.old writer.new }
    ensures flushed { OnOk result (is_over writer.new ≡ true) }
{
    let Ok(()) = end_line(lines, line, so_far) else {
        return Err(TraceError::Memory);
    };
    let Ok(()) = write_and_flush(writer, &so_far.text) else {
        return Err(TraceError::Write);
    };
    Ok(so_far.counts)
}

/// Reads to the end, and writes the translation of the lines.
pub(crate) fn translate_with<T: Translator, R: Read, W: Write>(
    alloc: Global,
    lines: &T,
    reader: &mut Device<R>,
    writer: &mut Device<W>,
) -> Result<Counts, TraceError>
    requires reads { device_failures reader.old < 2 ^ 64 - 1 }
    requires writes { device_failures writer.old < 2 ^ 64 - 1 }
    requires not_ended { has_ended reader.old ≡ false }
    requires holds { T.holds lines.now nothing_kept }
    ensures gives { GivesBy (T.may lines.now)
        (streams R.remaining reader.old reader.new W.contents writer.old writer.new) result }
    ensures calls { MakesAtMost most_calls reader.old reader.new }
    ensures reads_in_time { StopsInTime reader.old reader.new }
    ensures writes_in_time { StopsInTime writer.old writer.new }
    ensures flushed { OnOk result (is_over writer.new ≡ true) }
{
    let each = Translating { lines };
    let mut buf = [0; PIECE];
    let mut line = Vec::new(alloc);
    let mut so_far = Output {
        text: Vec::new(alloc),
        counts: Counts {
            lines: 0,
            translated: 0,
            dropped: 0,
        },
        kept: Kept::new(alloc),
    };
    'pieces: for _ in 0..MOST_CALLS {
        so_far.text.clear();
        let Ok(n) = reader.read(&mut buf) else {
            return Err(TraceError::Read);
        };
        if n == 0 {
            return finish(lines, &line, &mut so_far, writer);
        }
        let Ok(()) = take_piece(&each, &mut so_far, &mut line, &buf[..n]) else {
            return Err(TraceError::Memory);
        };
        let Ok(()) = write_all(writer, &so_far.text) else {
            return Err(TraceError::Write);
        };
    }
    Err(TraceError::Read)
}

/// Reads a stack trace to its end and writes its translation, line by line as by [`translate_line`]. A
/// script is the URL by which frames name it, and its map. With `hide`, frames in ignored sources are left
/// out.
///
/// One read asks for up to 65,536 bytes. Before the next read, the translation of all complete lines so far
/// has been written, so that a trace that still grows can be followed; it is flushed once, at the end.
/// Memory holds a table of the scripts, one piece, the line that waits for its end, and the translation of
/// one piece.
///
/// The reader's end must not have been seen yet, fewer than 2^64 - 1 calls of either device may have
/// failed, and no two scripts may have the same URL, which [`distinct_scripts`] tests.
///
/// [`translate_line`]: crate::translate_line
/// [`distinct_scripts`]: crate::distinct_scripts
///
/// # Errors
///
/// `Read` where a read fails, or after 4,294,967,296 reads: the translation of all complete lines that were
/// read has been written. `Write` where a write or the flush fails, and `Memory`: all lines that were
/// complete before the last read have been written, and then a prefix of those that it completed.
///
/// # Examples
///
/// ```
/// let mut reader = Device::new(rt.reader());
/// let mut writer = Device::new(io::writer(&rt));
/// let scripts = [("http://h/m/out.js", &map)];
/// let counts = translate(alloc, &mut reader, scripts.as_slice(), false, &mut writer)?;
/// ```
pub fn translate<R: Read, W: Write>(
    alloc: Global,
    reader: &mut Device<R>,
    scripts: &[(&str, &SourceMap)],
    hide: bool,
    writer: &mut Device<W>,
) -> Result<Counts, TraceError>
    requires reads { device_failures reader.old < 2 ^ 64 - 1 }
    requires writes { device_failures writer.old < 2 ^ 64 - 1 }
    requires not_ended { has_ended reader.old ≡ false }
    requires distinct { AreDistinct (scripts_in scripts.now) }

    // All was read, and its translation was written; or that of the complete lines, but after Write and
    // Memory for some of the last 65,536 bytes. Read and Write come with a failure of their device, and no
    // other answer does.
    ensures translates { TranslatesTrace (scripts_in scripts.now) hide
        (streams R.remaining reader.old reader.new W.contents writer.old writer.new) result }

    // At most so many reads are made, and none after the end or a failure; no write comes after the flush or
    // a failure, and where counts are answered, there was a flush.
    ensures calls { MakesAtMost most_calls reader.old reader.new }
    ensures reads_in_time { StopsInTime reader.old reader.new }
    ensures writes_in_time { StopsInTime writer.old writer.new }
    ensures flushed { OnOk result (is_over writer.new ≡ true) }
{
    translate_by(alloc, reader, scripts, MatchMode::FRAMES, hide, writer)
}

/// Reads a stack trace to its end and writes its translation, as [`translate`] does, where positions are
/// found in another way as well; each line as by [`translate_line_by`].
///
/// [`translate_line_by`]: crate::translate_line_by
///
/// # Errors
///
/// Those of [`translate`], with what was written then.
///
/// # Examples
///
/// ```
/// let mode = MatchMode { anywhere: true, ignore_query: true };
/// let counts = translate_by(alloc, &mut reader, scripts.as_slice(), mode, false, &mut writer)?;
/// ```
pub fn translate_by<R: Read, W: Write>(
    alloc: Global,
    reader: &mut Device<R>,
    scripts: &[(&str, &SourceMap)],
    mode: MatchMode,
    hide: bool,
    writer: &mut Device<W>,
) -> Result<Counts, TraceError>
    requires reads { device_failures reader.old < 2 ^ 64 - 1 }
    requires writes { device_failures writer.old < 2 ^ 64 - 1 }
    requires not_ended { has_ended reader.old ≡ false }
    requires distinct { AreDistinct (scripts_in scripts.now) }

    // As for `translate`, with what becomes of a line by this way of finding.
    ensures translates { TranslatesBy (fate_by mode (scripts_in scripts.now) hide)
        (streams R.remaining reader.old reader.new W.contents writer.old writer.new) result }
    ensures calls { MakesAtMost most_calls reader.old reader.new }
    ensures reads_in_time { StopsInTime reader.old reader.new }
    ensures writes_in_time { StopsInTime writer.old writer.new }
    ensures flushed { OnOk result (is_over writer.new ≡ true) }
{
    if scripts.len() <= FEW {
        return translate_in(alloc, reader, &Listed { scripts }, mode, hide, writer);
    }
    let Ok(maps) = by_url(alloc, scripts) else {
        return Err(TraceError::Memory);
    };
    translate_in(alloc, reader, &maps, mode, hide, writer)
}

/// Reads a stack trace to its end and writes its translation, as [`translate_by`] does, where the maps of
/// scripts are found in this way: a [`Scripts`](crate::Scripts) is made once for many traces.
///
/// # Errors
///
/// Those of [`translate`], with what was written then.
pub fn translate_in<M: Maps, R: Read, W: Write>(
    alloc: Global,
    reader: &mut Device<R>,
    maps: &M,
    mode: MatchMode,
    hide: bool,
    writer: &mut Device<W>,
) -> Result<Counts, TraceError>
    requires reads { device_failures reader.old < 2 ^ 64 - 1 }
    requires writes { device_failures writer.old < 2 ^ 64 - 1 }
    requires not_ended { has_ended reader.old ≡ false }

    // As for `translate`, with what becomes of a line by these scripts.
    ensures translates { TranslatesBy (fate_by mode (M.scripts maps.now) hide)
        (streams R.remaining reader.old reader.new W.contents writer.old writer.new) result }
    ensures calls { MakesAtMost most_calls reader.old reader.new }
    ensures reads_in_time { StopsInTime reader.old reader.new }
    ensures writes_in_time { StopsInTime writer.old writer.new }
    ensures flushed { OnOk result (is_over writer.new ≡ true) }
{
    translate_with(alloc, &ByMaps { maps, mode, hide }, reader, writer)
}
