//! Calls on traces, with the map that was read.

use crate::answers::{Answer, said};
use crate::maps::BASE;
use smap_io::Device;
use smap_mappings::Memory;
use smap_record::{Base, Limits, ReadError, SourceMap};
use smap_trace::{
    LineStarts, MatchMode, TraceError, distinct_scripts, find_in, translate, translate_line_by,
};
use std::alloc::Global;

/// The worked trace, whose frames are of each kind.
const TRACE: &[u8] = b"Error: x
    at f (http://h/m/out.js:1:2)
    at async http://h/m/out.js:1:5
g@http://h/m/out.js:1:4\r
    at eval (eval at f (http://h/m/out.js:1:2), <anonymous>:1:1)
    at f (http://h/m/out.js:0:1)
    at f (http://h/m/out.js:2:1)
    at f (http://h/m/other.js:1:2)

@http://h/m/out.js:1:2147483648";

/// A line with two positions, of which the second is no frame's.
const LINE: &[u8] = b"    at http://h/m/out.js:1:5 (http://h/m/out.js:1:2)\n";

/// The map of a text.
fn map(alloc: Global, text: &[u8]) -> Result<SourceMap, ReadError> {
    match Base::new(alloc, BASE) {
        Ok(base) => SourceMap::from_slice(alloc, text, &base, Limits::usual()),
        Err(_) => Err(ReadError::Memory),
    }
}

/// The answer where no map was read.
fn no_map(alloc: Global, error: ReadError) -> Answer {
    match error {
        ReadError::Refused(_) => said(alloc, b"refused"),
        ReadError::Memory => Err(Memory),
    }
}

/// The text of an index.
fn shown(alloc: Global, found: Option<usize>) -> Answer {
    let shown = format!(in alloc; "{found:?}")?;
    Ok(shown.into_bytes())
}

/// The index of a map's mapping for a position, by the table of its lines.
fn by_table_of(alloc: Global, map: &SourceMap) -> Answer {
    let starts = LineStarts::new(alloc, map)?;
    let (found, _probes) = find_in(map, &starts, 0, 5);
    shown(alloc, found)
}

/// The index of the mapping for a position, by the table of the map's lines.
pub(crate) fn by_table(alloc: Global, text: &[u8]) -> Answer {
    match map(alloc, text) {
        Ok(map) => by_table_of(alloc, &map),
        Err(error) => no_map(alloc, error),
    }
}

/// Writes the line by the map.
fn write_line(map: &SourceMap, mode: MatchMode, out: &mut Vec<u8>) -> Result<(), Memory> {
    let scripts = [("http://h/m/out.js", map)];
    if distinct_scripts(&scripts) {
        translate_line_by(LINE, &scripts, mode, false, out)?;
    }
    Ok(())
}

/// The answer where memory ran out after these bytes.
fn given_up(alloc: Global, out: &[u8]) -> Answer {
    if out != b"front: ".as_slice() {
        return said(alloc, b"the bytes changed");
    }
    Err(Memory)
}

/// The line by a map, after bytes that have to stay where memory runs out.
fn line_of(alloc: Global, map: &SourceMap, mode: MatchMode) -> Answer {
    let mut out = said(alloc, b"front: ")?;
    match write_line(map, mode, &mut out) {
        Ok(()) => Ok(out),
        Err(_) => given_up(alloc, out.as_slice()),
    }
}

/// The line by the map that was read.
pub(crate) fn line(alloc: Global, text: &[u8], mode: MatchMode) -> Answer {
    match map(alloc, text) {
        Ok(map) => line_of(alloc, &map, mode),
        Err(error) => no_map(alloc, error),
    }
}

/// The trace by a map, written where there is room for it.
fn traced(alloc: Global, map: &SourceMap, room: Vec<u8>) -> Result<Vec<u8>, TraceError> {
    let scripts = [("http://h/m/out.js", map)];
    if !distinct_scripts(&scripts) {
        return Ok(room);
    }
    let mut reader = Device::new(TRACE);
    let mut writer = Device::new(room);
    translate(alloc, &mut reader, &scripts, false, &mut writer)?;
    Ok(writer.into_inner())
}

/// The trace by a map. The writer has room from the beginning, since one that gets no memory fails. What was
/// written before memory ran out is a prefix of the answer, and isn't looked at here.
fn trace_of(alloc: Global, map: &SourceMap) -> Answer {
    let room = Vec::with_capacity(alloc, 4096)?;
    match traced(alloc, map, room) {
        Ok(bytes) => Ok(bytes),
        Err(TraceError::Memory) => Err(Memory),
        Err(_) => said(alloc, b"a device failed"),
    }
}

/// The trace by the map that was read.
pub(crate) fn trace(alloc: Global, text: &[u8]) -> Answer {
    match map(alloc, text) {
        Ok(map) => trace_of(alloc, &map),
        Err(error) => no_map(alloc, error),
    }
}
