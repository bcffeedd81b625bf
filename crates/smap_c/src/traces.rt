//! The calls on the lines of a trace.
ghost use Rattle.std.specs.Prelude.{◌≡◌, ◌∷◌, [], IfOk};
ghost use Rattle.smap_record.specs.Record.{record_of};
ghost use Rattle.smap_trace.specs.Giving.{Becomes};
ghost use Rattle.smap_c.specs.Traces.{mode_in, hides, names, FrameReported, LineReported, LineBy, MayBe};
ghost use Rattle.smap_c.specs.Traces.{ReportsLine};
ghost use Rattle.smap_c.specs.Handles.{held_map};

use crate::handles::SmapMap;
use smap_c_answers::{CLOSED, MEMORY, NONE, NOT_URL, OK, copy_out};
use smap_mappings::Memory;
use smap_record::SourceMap;
use smap_trace::{LineOutcome, MatchMode, frame, translate_line_by, translate_named_line};
use std::alloc::Global;
use std::{mem, str};

/// Where the parts of a frame lie in its line: the script's URL, and the position, which counts from 1.
#[repr(C)]
#[derive(Clone, Copy)]
pub struct SmapFrameParts {
    pub url_from: usize,
    pub url_len: usize,
    pub line: u32,
    pub column: u32,
}

/// The frame that a line of a trace is, if it is one.
#[unsafe(no_mangle)]
pub extern "C" fn smap_frame(text: &[u8], out: &mut SmapFrameParts) -> u32
    ensures { FrameReported text.now out.old out.new result }
{
    match frame(text) {
        Some(frame) => {
            *out = SmapFrameParts {
                url_from: frame.before.len(),
                url_len: frame.url.len(),
                line: frame.line,
                column: frame.column,
            };
            OK
        }
        None => NONE,
    }
}

/// Frames in ignored sources are left out.
const HIDE_IGNORED: u8 = 1;

/// Positions are found anywhere in a line, not only as those of frames.
const ANYWHERE: u8 = 2;

/// A query or a fragment behind a script's URL is ignored.
const IGNORE_QUERY: u8 = 4;

/// Whether frames in ignored sources are left out.
pub(crate) fn hides(how: u8) -> bool
    ensures { result ≡ hides how }
{
    how & HIDE_IGNORED == HIDE_IGNORED
}

/// How positions are found.
pub(crate) fn mode_in(how: u8) -> MatchMode
    ensures { result ≡ mode_in how }
{
    MatchMode {
        anywhere: how & ANYWHERE == ANYWHERE,
        ignore_query: how & IGNORE_QUERY == IGNORE_QUERY,
    }
}

/// Frames get the names of functions.
const NAMES: u8 = 8;

/// Whether frames get the names of functions.
pub(crate) fn names(how: u8) -> bool
    ensures { result ≡ names how }
{
    how & NAMES == NAMES
}

/// Appends the translation of a line.
fn translate(
    alloc: Global,
    map: &SourceMap,
    url: &str,
    line: &[u8],
    how: u8,
    text: &mut Vec<u8>,
) -> Result<LineOutcome, Memory>
    ensures { IfOk result (λ o. Becomes (MayBe (names how) how ((url.now, record_of map.now) ∷ [])) line.now
        text.old.items text.new.items o) }
{
    let scripts = [(url, map)];
    let (mode, hide) = (mode_in(how), hides(how));
    if names(how) {
        translate_named_line(alloc, line, &scripts, mode, hide, text)
    } else {
        translate_line_by(line, &scripts, mode, hide, text)
    }
}

/// The translation of a line and what became of it: 0 kept, 1 translated, 2 dropped.
fn line_of(
    alloc: Global,
    map: &SourceMap,
    url: &str,
    line: &[u8],
    how: u8,
    out: &mut [u8],
    len: &mut usize,
    outcome: &mut u32,
) -> u32
    ensures { LineReported url.now map.now line.now how out.old out.new len.new outcome.old outcome.new
        result }
{
    let mut text = Vec::new(alloc);
    match translate(alloc, map, url, line, how, &mut text) {
        Ok(became) => {
            *outcome = match became {
                LineOutcome::Kept => 0,
                LineOutcome::Translated => 1,
                LineOutcome::Dropped => 2,
            };
            *len = copy_out(text.as_slice(), out);
            OK
        }
        Err(_) => {
            *len = 0;
            MEMORY
        }
    }
}

/// The same of a URL that may be none, as it isn't UTF-8.
fn line_by(
    alloc: Global,
    map: &SourceMap,
    url: &[u8],
    line: &[u8],
    how: u8,
    out: &mut [u8],
    len: &mut usize,
    outcome: &mut u32,
) -> u32
    ensures { LineBy url.now map.now line.now how out.old out.new len.new outcome.old outcome.new result }
{
    match str::from_utf8(url) {
        Ok(text) => line_of(alloc, map, text, line, how, out, len, outcome),
        Err(_) => {
            *len = 0;
            NOT_URL
        }
    }
}

/// The translation of a line by the map of the script that has this URL.
#[unsafe(no_mangle)]
pub extern "C" fn smap_translate_line(
    alloc: Global,
    map: &mut SmapMap,
    url: &[u8],
    line: &[u8],
    how: u8,
    out: &mut [u8],
    len: &mut usize,
    outcome: &mut u32,
) -> u32
    ensures reported { ReportsLine (held_map map.old.owner.value) url.now line.now how out.old out.new len.new
        outcome.old outcome.new result }
    ensures same { map.new.owner.value ≡ map.old.owner.value }
{
    match mem::replace(map, SmapMap::closed(alloc)).into_box() {
        None => {
            *len = 0;
            CLOSED
        }
        Some(held) => {
            let code = line_by(alloc, &held.opened().map, url, line, how, out, len, outcome);
            *map = SmapMap::of(held);
            code
        }
    }
}
