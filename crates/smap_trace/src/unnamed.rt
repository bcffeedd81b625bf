//! Frames that name no script, where it is known which one is meant.
ghost use Rattle.std.specs.Prelude.{◌≡◌, ◌++◌, ◌+◌, ◌≤◌, ◌-◌, ◌<◌, ◌^◌, IfOk, OnErr, OnOk, false, length};
ghost use Rattle.std.specs.Prelude.{option_map, IsTrue, true};
ghost use Rattle.std.specs.Option.{option_map_or};
ghost use Rattle.smap_frames.specs.Reading.{frame_of};
ghost use Rattle.smap_io.specs.Calls.{MakesAtMost, StopsInTime};
ghost use Rattle.smap_io.specs.Device.{device_failures, has_ended, is_over};
ghost use Rattle.smap_io.specs.Limits.{most_calls};
ghost use Rattle.smap_io.specs.Streams.{streams};
ghost use Rattle.smap_trace.specs.Pieces.{IsFate};
ghost use Rattle.smap_trace.specs.Streaming.{TranslatesBy};
ghost use Rattle.smap_trace.specs.Translation.{frame_fate, written};
ghost use Rattle.smap_trace.specs.Unnamed as spec;
ghost use Rattle.smap_trace.specs.Unnamed.{fate_alone};
ghost use Rattle.smap_trace.specs.Views.{outcome_of};

use crate::error::TraceError;
use crate::kept::Kept;
use crate::lines::{Translator, cut_feed, map_for, translate_found, translate_frame};
use crate::match_mode::MatchMode;
use crate::outcome::{Counts, LineOutcome};
use crate::scripts::Maps;
use crate::streaming::translate_with;
use smap_frames::frame;
use smap_io::Device;
use std::alloc::{AllocError, Global};
use std::io::{Read, Write};

/// How lines are translated.
#[derive(Clone, Copy)]
pub struct LineMode<'a> {
    pub mode: MatchMode,
    /// Whether frames in ignored sources are left out.
    pub hide: bool,
    /// The URL of the script that is meant in frames that name none; empty if none is.
    pub unnamed: &'a [u8],
}

/// Whether the name of a function doesn't hold the byte.
fn ends_function(b: u8) -> bool
    ensures { result ≡ spec.ends_function b }
{
    b == b' ' || b == b'/' || b == b':' || b == b'@'
}

/// How many bytes a name takes at the beginning of a line.
fn name_len(text: &[u8]) -> usize
    ensures value { result ≡ spec.name_len text.now }
    ensures within { result ≤ length text.now }
{
    text.iter().take_while(|b| !ends_function(**b)).count()
}

/// The same with ` code`, as in `global code@1:2`.
fn function_len(text: &[u8]) -> usize
    ensures value { result ≡ spec.function_len text.now }
    ensures within { result ≤ length text.now }
{
    let len = name_len(text);
    if text[len..].starts_with(b" code@") {
        len + 5
    } else {
        len
    }
}

/// The line with a URL and a colon behind its first bytes, so many.
fn with_url(alloc: Global, url: &[u8], text: &[u8], len: usize) -> Result<Vec<u8>, AllocError>
    requires within { len ≤ length text.now }
    requires len { len ≡ spec.function_len text.now + 1 }
    ensures { IfOk result (λ named. named.items ≡ spec.with_url url.now text.now) }
{
    let mut named = Vec::from_slice(alloc, &text[..len])?;
    named.extend_from_slice(url)?;
    named.push(b':')?;
    named.extend_from_slice(&text[len..])?;
    Ok(named)
}

/// Whether a line is a frame with this URL.
fn is_frame_of(text: &[u8], url: &[u8]) -> bool
    ensures { result ≡ option_map_or (spec.is_of url.now) (frame_of text.now) false }
{
    match frame(text) {
        Some(frame) => frame.url == url,
        None => false,
    }
}

/// The frame that a line without its line feed is where the script with this URL is meant in frames that name
/// none, if it is one of these: `f@http://h/out.js:1:32` for `f@1:32`.
///
/// # Errors
///
/// `AllocError`.
pub fn named_frame(alloc: Global, url: &[u8], text: &[u8]) -> Result<Option<Vec<u8>>, AllocError>
    ensures { IfOk result (λ named. option_map (λ n. n.items) named ≡ spec.named_frame url.now text.now) }
{
    let len = function_len(text);
    if !text[len..].starts_with(b"@") {
        return Ok(None);
    }
    let named = with_url(alloc, url, text, len + 1)?;
    if is_frame_of(&named, url) {
        Ok(Some(named))
    } else {
        Ok(None)
    }
}

/// Appends the translation of a line that is this frame; or leaves the bytes as they were.
fn translate_named<M: Maps>(
    line: &[u8],
    named: &[u8],
    maps: &M,
    mode: LineMode<'_>,
    out: &mut Vec<u8>,
) -> Result<LineOutcome, AllocError>
    ensures ok { OnOk result (out.new.items ≡ out.old.items
        ++ written (frame_fate mode.entry.mode.ignore_query (M.scripts maps.now) mode.entry.hide named.now)
        line.now) }
    ensures err { OnErr result (out.new.items ≡ out.old.items) }
    ensures outcome { IfOk result (λ o. o
        ≡ outcome_of
        (frame_fate mode.entry.mode.ignore_query (M.scripts maps.now) mode.entry.hide named.now)) }
{
    let (_, feed) = cut_feed(line);
    if let Some(frame) = frame(named) {
        if let Some(map) = map_for(named, &frame, maps, mode.mode.ignore_query) {
            return translate_frame(line, &frame, feed, map, mode.hide, out);
        }
    }
    out.extend_from_slice(line)?;
    Ok(LineOutcome::Kept)
}

/// Appends the translation of a line, in which a script may be meant that it doesn't name.
fn translate_meant<M: Maps>(
    alloc: Global,
    line: &[u8],
    maps: &M,
    mode: LineMode<'_>,
    out: &mut Vec<u8>,
) -> Result<LineOutcome, AllocError>
    ensures ok { OnOk result (out.new.items ≡ out.old.items ++ written
        (fate_alone mode.entry.unnamed.now mode.entry.mode (M.scripts maps.now) mode.entry.hide line.now)
        line.now) }
    ensures outcome { IfOk result (λ o. o ≡ outcome_of
        (fate_alone mode.entry.unnamed.now mode.entry.mode (M.scripts maps.now) mode.entry.hide line.now)) }
{
    let (text, _) = cut_feed(line);
    match named_frame(alloc, mode.unnamed, text)? {
        Some(named) => translate_named(line, &named, maps, mode, out),
        None => translate_found(line, maps, mode.mode, mode.hide, out),
    }
}

/// The maps of scripts, and how lines are translated.
#[derive(Drop)]
struct Meaning<'a, M> {
    alloc: Global,
    maps: &'a M,
    mode: LineMode<'a>,
}

impl<M: Maps> Translator for Meaning<'_, M> {
    ghost may = { λ s.
        IsFate (fate_alone s.mode.unnamed.now s.mode.mode (M.scripts s.maps.now) s.mode.hide) };

    ghost holds = { λ s k. IsTrue true };

    fn translate(
        &self,
        line: &[u8],
        _: &mut Kept,
        out: &mut Vec<u8>,
    ) -> Result<LineOutcome, AllocError> {
        translate_meant(self.alloc, line, self.maps, self.mode, out)
    }
}

/// Reads a stack trace to its end and writes its translation, as [`translate_in`](crate::translate_in) does,
/// where a script may be meant in frames that name none.
///
/// # Errors
///
/// Those of [`translate`](crate::translate), with what was written then.
pub fn translate_alone_in<M: Maps, R: Read, W: Write>(
    alloc: Global,
    reader: &mut Device<R>,
    maps: &M,
    mode: LineMode<'_>,
    writer: &mut Device<W>,
) -> Result<Counts, TraceError>
    requires reads { device_failures reader.old < 2 ^ 64 - 1 }
    requires writes { device_failures writer.old < 2 ^ 64 - 1 }
    requires not_ended { has_ended reader.old ≡ false }

    // As for `translate`, with what becomes of a line by these scripts.
    ensures translates { TranslatesBy
        (fate_alone mode.entry.unnamed.now mode.entry.mode (M.scripts maps.now) mode.entry.hide)
        (streams R.remaining reader.old reader.new W.contents writer.old writer.new) result }
    ensures calls { MakesAtMost most_calls reader.old reader.new }
    ensures reads_in_time { StopsInTime reader.old reader.new }
    ensures writes_in_time { StopsInTime writer.old writer.new }
    ensures flushed { OnOk result (is_over writer.new ≡ true) }
{
    translate_with(alloc, &Meaning { alloc, maps, mode }, reader, writer)
}
