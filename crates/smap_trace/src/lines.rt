//! The translation of a line.
ghost use Rattle.std.specs.Prelude.{◌≡◌, ◌+◌, ◌++◌, ◌<◌, ◌≤◌, List, ℕ, IfOk, OnOk, OnErr, length, option_map};
ghost use Rattle.std.specs.Prelude.{flat_map, IsTrue, true};
ghost use Rattle.std.specs.Io.{StartsWith};
ghost use Rattle.std.specs.List.{list_any};
ghost use Rattle.smap_record.specs.Record.{record_of};
ghost use Rattle.smap_trace.specs.Anywhere.{pieces_of};
ghost use Rattle.smap_frames.specs.Frame as frame_spec;
ghost use Rattle.smap_frames.specs.FrameView.{parts_in};
ghost use Rattle.smap_trace.specs.Pieces.{AppendsLine, IsFate};
ghost use Rattle.smap_trace.specs.Translation as spec;
ghost use Rattle.smap_trace.specs.Translation.{AreDistinct, Fate};
ghost use Rattle.smap_trace.specs.Views.{outcome_of, scripts_in};
ghost use Rattle.smap_trace.specs.declared.kept.Kept.{Kept as SpecKept};

use crate::anywhere::push_pieces;
use crate::kept::Kept;
use crate::lookups::origin_at;
use crate::match_mode::MatchMode;
use crate::outcome::LineOutcome;
use crate::scripts::{Listed, Maps};
use smap_frames::{Frame, frame, push_position};
use smap_mappings::Memory;
use smap_record::SourceMap;
use std::alloc::AllocError;

/// Appends the frame's parts with another position. If memory runs out, a prefix of that is appended.
fn push_frame(
    out: &mut Vec<u8>,
    frame: &Frame,
    url: &str,
    line: u64,
    column: u64,
    feed: &[u8],
) -> Result<(), AllocError>
    ensures ok { OnOk result (out.new.items ≡ out.old.items ++ (frame.now.before.now
        ++ frame_spec.position_text url.now line column ++ frame.now.after.now ++ feed.now)) }
    ensures err { OnErr result (StartsWith out.new.items out.old.items) }
{
    out.extend_from_slice(frame.before)?;
    push_position(out, url, line, column)?;
    out.extend_from_slice(frame.after)?;
    out.extend_from_slice(feed)
}

/// Appends the frame with the position of a source, which counts from 0, and the line feed if there is one;
/// or leaves the bytes as they were.
fn push_translated(
    out: &mut Vec<u8>,
    frame: &Frame,
    url: &str,
    line: u32,
    column: u32,
    feed: &[u8],
) -> Result<(), AllocError>
    ensures ok { OnOk result (out.new.items ≡ out.old.items ++ (frame.now.before.now
        ++ frame_spec.position_text url.now (line + 1) (column + 1) ++ frame.now.after.now ++ feed.now)) }
    ensures err { OnErr result (out.new.items ≡ out.old.items) }
{
    let len = out.len();
    match push_frame(
        out,
        frame,
        url,
        u64::from(line) + 1,
        u64::from(column) + 1,
        feed,
    ) {
        Ok(()) => Ok(()),
        Err(e) => {
            out.truncate(len);
            Err(e)
        }
    }
}

/// Appends the translation of a line whose frame was found, and whose script has this map; or leaves the
/// bytes as they were.
pub(crate) fn translate_frame(
    line: &[u8],
    frame: &Frame,
    feed: &[u8],
    map: &SourceMap,
    hide: bool,
    out: &mut Vec<u8>,
) -> Result<LineOutcome, AllocError>
    requires places { (0 < frame.now.line) × (0 < frame.now.column) }
    requires feed { feed.now ≡ spec.feed_of line.now }
    ensures ok { OnOk result (out.new.items ≡ out.old.items
        ++ spec.written (spec.fate_in hide (parts_in frame.now) (record_of map.now)) line.now) }
    ensures err { OnErr result (out.new.items ≡ out.old.items) }
    ensures outcome { IfOk result (λ o. o
        ≡ outcome_of (spec.fate_in hide (parts_in frame.now) (record_of map.now))) }
{
    let Some(origin) = origin_at(map, frame.line, frame.column) else {
        out.extend_from_slice(line)?;
        return Ok(LineOutcome::Kept);
    };
    if hide && origin.source.ignored {
        return Ok(LineOutcome::Dropped);
    }
    let Some(url) = origin.source.url else {
        out.extend_from_slice(line)?;
        return Ok(LineOutcome::Kept);
    };
    push_translated(out, frame, url, origin.line, origin.column, feed)?;
    Ok(LineOutcome::Translated)
}

/// The line without its line feed, and the line feed if it has one.
pub(crate) fn cut_feed<'a>(line: &'a [u8]) -> (&'a [u8], &'a [u8])
    ensures text { result.0.now ≡ spec.without_line_feed line.now }
    ensures feed { result.1.now ≡ spec.feed_of line.now }
{
    if line.ends_with(b"\n") {
        (&line[..line.len() - 1], b"\n")
    } else {
        (line, &[])
    }
}

/// The map of the script that the frame of this line names.
pub(crate) fn map_for<'a, M: Maps>(
    text: &[u8],
    frame: &Frame,
    maps: &'a M,
    ignore_query: bool,
) -> Option<&'a SourceMap>
    requires { length frame.now.before.now + length frame.now.after.now ≤ length text.now }
    ensures { option_map (λ m. record_of m.now) result
        ≡ spec.map_for ignore_query (M.scripts maps.now) text.now (parts_in frame.now) }
{
    if !ignore_query {
        return maps.map_of(frame.url);
    }
    let position = &text[frame.before.len()..text.len() - frame.after.len()];
    let found = maps.occurrence_at(position, true)?;
    if found.width == position.len() {
        Some(found.map)
    } else {
        None
    }
}

/// Appends the translation of a line whose position is found if it is a frame; or leaves the bytes as they
/// were.
fn translate_framed<M: Maps>(
    line: &[u8],
    maps: &M,
    ignore_query: bool,
    hide: bool,
    out: &mut Vec<u8>,
) -> Result<LineOutcome, AllocError>
    ensures ok { OnOk result (out.new.items ≡ out.old.items ++ spec.written
        (spec.frame_fate ignore_query (M.scripts maps.now) hide (spec.without_line_feed line.now)) line.now) }
    ensures err { OnErr result (out.new.items ≡ out.old.items) }
    ensures outcome { IfOk result (λ o. o ≡ outcome_of
        (spec.frame_fate ignore_query (M.scripts maps.now) hide (spec.without_line_feed line.now))) }
{
    let (text, feed) = cut_feed(line);
    if let Some(frame) = frame(text) {
        if let Some(map) = map_for(text, &frame, maps, ignore_query) {
            return translate_frame(line, &frame, feed, map, hide, out);
        }
    }
    out.extend_from_slice(line)?;
    Ok(LineOutcome::Kept)
}

/// Whether a line without its line feed is a frame whose source is ignored: such lines are left out where
/// these are hidden.
pub fn is_hidden<M: Maps>(text: &[u8], maps: &M, ignore_query: bool) -> bool
    ensures { result ≡ spec.is_dropped (spec.frame_fate ignore_query (M.scripts maps.now) true text.now) }
{
    if let Some(frame) = frame(text) {
        if let Some(map) = map_for(text, &frame, maps, ignore_query) {
            if let Some(origin) = origin_at(map, frame.line, frame.column) {
                return origin.source.ignored;
            }
        }
    }
    false
}

/// Appends the line with the positions in it replaced, and its line feed if it has one; and answers whether
/// one was replaced. If memory runs out, a prefix of that is appended.
fn push_line<M: Maps>(
    out: &mut Vec<u8>,
    text: &[u8],
    feed: &[u8],
    maps: &M,
    ignore_query: bool,
) -> Result<bool, AllocError>
    ensures ok { OnOk result (out.new.items ≡ out.old.items ++ (flat_map spec.written_for
        (pieces_of ignore_query (M.scripts maps.now) text.now) ++ feed.now)) }
    ensures err { OnErr result (StartsWith out.new.items out.old.items) }
    ensures replaced { IfOk result (λ r. r
        ≡ list_any spec.is_replaced (pieces_of ignore_query (M.scripts maps.now) text.now)) }
{
    let replaced = push_pieces(out, text, maps, ignore_query)?;
    out.extend_from_slice(feed)?;
    Ok(replaced)
}

/// Appends the line with the positions in it replaced, or leaves the bytes as they were.
fn translate_pieces<M: Maps>(
    text: &[u8],
    feed: &[u8],
    maps: &M,
    ignore_query: bool,
    out: &mut Vec<u8>,
) -> Result<LineOutcome, AllocError>
    ensures ok { OnOk result (out.new.items ≡ out.old.items ++ (flat_map spec.written_for
        (pieces_of ignore_query (M.scripts maps.now) text.now) ++ feed.now)) }
    ensures err { OnErr result (out.new.items ≡ out.old.items) }
    ensures outcome { IfOk result (λ o. o ≡ outcome_of
        (spec.fate_of_pieces (pieces_of ignore_query (M.scripts maps.now) text.now))) }
{
    let before = out.len();
    match push_line(out, text, feed, maps, ignore_query) {
        Ok(true) => Ok(LineOutcome::Translated),
        Ok(false) => Ok(LineOutcome::Kept),
        Err(e) => {
            out.truncate(before);
            Err(e)
        }
    }
}

/// Appends the translation of a line in which positions are found anywhere, or leaves the bytes as they
/// were.
fn translate_anywhere<M: Maps>(
    line: &[u8],
    maps: &M,
    ignore_query: bool,
    hide: bool,
    out: &mut Vec<u8>,
) -> Result<LineOutcome, AllocError>
    ensures ok { OnOk result (out.new.items ≡ out.old.items ++ spec.written
        (spec.anywhere_fate ignore_query (M.scripts maps.now) hide (spec.without_line_feed line.now))
        line.now) }
    ensures err { OnErr result (out.new.items ≡ out.old.items) }
    ensures outcome { IfOk result (λ o. o ≡ outcome_of
        (spec.anywhere_fate ignore_query (M.scripts maps.now) hide (spec.without_line_feed line.now))) }
{
    let (text, feed) = cut_feed(line);
    if hide && is_hidden(text, maps, ignore_query) {
        return Ok(LineOutcome::Dropped);
    }
    translate_pieces(text, feed, maps, ignore_query, out)
}

/// Appends the translation of a line, or leaves the bytes as they were.
pub(crate) fn translate_found<M: Maps>(
    line: &[u8],
    maps: &M,
    mode: MatchMode,
    hide: bool,
    out: &mut Vec<u8>,
) -> Result<LineOutcome, AllocError>
    ensures ok { OnOk result (out.new.items ≡ out.old.items
        ++ spec.line_translation_by (spec.fate_by mode (M.scripts maps.now) hide) line.now) }
    ensures err { OnErr result (out.new.items ≡ out.old.items) }
    ensures outcome { IfOk result (λ o. o
        ≡ outcome_of (spec.fate_by mode (M.scripts maps.now) hide line.now)) }
{
    if mode.anywhere {
        translate_anywhere(line, maps, mode.ignore_query, hide, out)
    } else {
        translate_framed(line, maps, mode.ignore_query, hide, out)
    }
}

/// Something that translates lines.
pub(crate) trait Translator {
    // what a line may become
    ghost may: { Self → List ℕ → Fate → Type 0 };

    // what holds of what is kept
    ghost holds: { Self → SpecKept → Type 0 };

    /// Appends the translation of a line.
    fn translate(
        &self,
        line: &[u8],
        kept: &mut Kept,
        out: &mut Vec<u8>,
    ) -> Result<LineOutcome, AllocError>
        ensures { IfOk result (AppendsLine (may self.now) (holds self.now) line.now kept.old out.old.items
            kept.new out.new.items) };
}

/// The maps of scripts, and how positions are found and hidden.
#[derive(Drop)]
pub(crate) struct ByMaps<'a, M> {
    pub(crate) maps: &'a M,
    pub(crate) mode: MatchMode,
    pub(crate) hide: bool,
}

impl<M: Maps> Translator for ByMaps<'_, M> {
    ghost may = { λ s. IsFate (spec.fate_by s.mode (M.scripts s.maps.now) s.hide) };

    ghost holds = { λ s k. IsTrue true };

    fn translate(
        &self,
        line: &[u8],
        _: &mut Kept,
        out: &mut Vec<u8>,
    ) -> Result<LineOutcome, AllocError> {
        translate_found(line, self.maps, self.mode, self.hide, out)
    }
}

/// Appends the translation of one line to `out`, and answers what became of the line.
///
/// A script is the URL by which frames name it, and its map. If the line is a frame, its URL is that of a
/// script, byte for byte, and the map has a mapping there with an original, then: with `hide`, if the
/// source is ignored, nothing is appended; otherwise, if the source has a URL, the frame's position is
/// replaced by the original one. Every other line is appended unchanged. The line is passed with its line
/// feed, if it has one.
///
/// No two scripts may have the same URL, which [`distinct_scripts`] tests. Scripts are searched one by one.
///
/// [`distinct_scripts`]: crate::distinct_scripts
///
/// # Errors
///
/// `Memory`, and `out` is as it was.
///
/// # Examples
///
/// ```
/// let scripts = [("http://h/m/out.js", &map)];
/// let outcome = translate_line(b"    at f (http://h/m/out.js:1:2)\n", &scripts, false, &mut out)?;
/// // LineOutcome::Translated; `out` has `    at f (http://h/m/a.js:11:3)` and the line feed
/// ```
pub fn translate_line(
    line: &[u8],
    scripts: &[(&str, &SourceMap)],
    hide: bool,
    out: &mut Vec<u8>,
) -> Result<LineOutcome, Memory>
    requires { AreDistinct (scripts_in scripts.now) }
    ensures ok { OnOk result (out.new.items ≡ out.old.items
        ++ spec.line_translation (scripts_in scripts.now) hide line.now) }
    ensures err { OnErr result (out.new.items ≡ out.old.items) }
    ensures outcome { IfOk result (λ o. o ≡ outcome_of (spec.fate (scripts_in scripts.now) hide line.now)) }
{
    translate_line_by(line, scripts, MatchMode::FRAMES, hide, out)
}

/// Appends the translation of one line to `out`, as [`translate_line`] does, where positions are found in
/// another way as well: anywhere in the line, or with a query behind the script's URL.
///
/// Anywhere, the line is cut from left to right into positions and the bytes between them. Each position is
/// replaced by the original one, if the map has a mapping there with an original, and the source has a URL.
/// With `hide`, nothing is appended where the line is a frame in an ignored source, as if only frames were
/// looked for; positions in ignored sources of other lines are replaced. `Translated` is answered where at
/// least one position was replaced.
///
/// # Errors
///
/// `Memory`, and `out` is as it was.
///
/// # Examples
///
/// ```
/// let mode = MatchMode { anywhere: true, ignore_query: false };
/// let line = b"12:00 at f (http://h/m/out.js:1:2) {\n";
/// let outcome = translate_line_by(line, &scripts, mode, false, &mut out)?;
/// // LineOutcome::Translated; `out` has `12:00 at f (http://h/m/a.js:11:3) {` and the line feed
/// ```
pub fn translate_line_by(
    line: &[u8],
    scripts: &[(&str, &SourceMap)],
    mode: MatchMode,
    hide: bool,
    out: &mut Vec<u8>,
) -> Result<LineOutcome, Memory>
    requires { AreDistinct (scripts_in scripts.now) }
    ensures ok { OnOk result (out.new.items ≡ out.old.items
        ++ spec.line_translation_by (spec.fate_by mode (scripts_in scripts.now) hide) line.now) }
    ensures err { OnErr result (out.new.items ≡ out.old.items) }
    ensures outcome { IfOk result (λ o. o
        ≡ outcome_of (spec.fate_by mode (scripts_in scripts.now) hide line.now)) }
{
    translate_line_in(line, &Listed { scripts }, mode, hide, out)
}

/// Appends the translation of one line to `out`, as [`translate_line_by`] does, where the maps of scripts
/// are found in this way.
///
/// # Errors
///
/// `Memory`, and `out` is as it was.
pub fn translate_line_in<M: Maps>(
    line: &[u8],
    maps: &M,
    mode: MatchMode,
    hide: bool,
    out: &mut Vec<u8>,
) -> Result<LineOutcome, Memory>
    ensures ok { OnOk result (out.new.items ≡ out.old.items
        ++ spec.line_translation_by (spec.fate_by mode (M.scripts maps.now) hide) line.now) }
    ensures err { OnErr result (out.new.items ≡ out.old.items) }
    ensures outcome { IfOk result (λ o. o
        ≡ outcome_of (spec.fate_by mode (M.scripts maps.now) hide line.now)) }
{
    match translate_found(line, maps, mode, hide, out) {
        Ok(outcome) => Ok(outcome),
        Err(_) => Err(Memory),
    }
}
