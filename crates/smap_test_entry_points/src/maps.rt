//! Calls on maps.

use crate::answers::{Answer, line, said};
use smap_canon::{canonical, canonical_mappings, canonical_relative, flatten};
use smap_mappings::{Memory, SegmentPlace};
use smap_record::{
    Base, BaseFault, Fault, Kind, Limits, Path, ReadError, SourceMap, WrittenSources,
};
use std::alloc::Global;

pub(crate) const BASE: &str = "http://h/m/out.js.map";

/// The relative form of a source next to a base.
fn relative_to(alloc: Global, base: &Base) -> Answer {
    match base.relative(alloc, "http://h/r/a.js")? {
        Some(text) => Ok(text.into_bytes()),
        None => said(alloc, b"no relative spelling"),
    }
}

/// The relative form of a source next to the base.
pub(crate) fn relative(alloc: Global) -> Answer {
    match Base::new(alloc, BASE) {
        Ok(base) => relative_to(alloc, &base),
        Err(_) => Err(Memory),
    }
}

/// Why there is no base.
fn no_base(alloc: Global, fault: BaseFault) -> Answer {
    match fault {
        BaseFault::NotUrl => said(alloc, b"no URL"),
        BaseFault::Memory => Err(Memory),
    }
}

pub(crate) fn base(alloc: Global) -> Answer {
    match Base::new(alloc, BASE) {
        Ok(base) => said(alloc, base.text().as_bytes()),
        Err(fault) => no_base(alloc, fault),
    }
}

/// The line of a fault in a segment of a section within a section.
pub(crate) fn fault(alloc: Global) -> Answer {
    let Some(section) = Path::new(&[1, 20]) else {
        return said(alloc, b"too deep");
    };
    let place = SegmentPlace {
        line: 300,
        segment: 4_000,
    };
    let fault = Fault {
        section,
        place: Some(place),
        kind: Kind::Count(6),
    };
    line(alloc, &fault)
}

/// The line of the fault for which a map wasn't read.
fn refused(alloc: Global, error: ReadError) -> Answer {
    match error {
        ReadError::Refused(fault) => line(alloc, &fault),
        ReadError::Memory => Err(Memory),
    }
}

/// What one of the calls that write gives for a map.
fn written_of(alloc: Global, call: &str, map: &SourceMap, base: &Base) -> Answer {
    match call {
        "canonical" => canonical(alloc, map),
        "canonical_mappings" => canonical_mappings(alloc, map),
        "canonical_relative" => canonical_relative(alloc, map, base),
        "flatten" => flatten(alloc, map),
        _ => said(alloc, b"a map"),
    }
}

/// What one of the calls that write gives for the map that is read against a base.
fn written_against(alloc: Global, call: &str, text: &[u8], base: &Base) -> Answer {
    match SourceMap::from_slice(alloc, text, base, Limits::usual()) {
        Ok(map) => written_of(alloc, call, &map, base),
        Err(error) => refused(alloc, error),
    }
}

/// What one of the calls that write gives for the map that was read, or the line of its fault.
pub(crate) fn written(alloc: Global, call: &str, text: &[u8]) -> Answer {
    match Base::new(alloc, BASE) {
        Ok(base) => written_against(alloc, call, text, &base),
        Err(_) => Err(Memory),
    }
}

/// Writes a source or a root.
fn list(out: &mut Vec<u8>, text: Option<&str>) -> Result<(), Memory> {
    out.extend_from_slice(text.unwrap_or("null").as_bytes())?;
    out.extend_from_slice(b" ")?;
    Ok(())
}

/// Each source as it is written, and its root.
fn listed(alloc: Global, written: &WrittenSources) -> Answer {
    let mut out = Vec::new(alloc);
    for i in 0..written.len() {
        list(&mut out, written.source(i))?;
        list(&mut out, written.root(i))?;
    }
    Ok(out)
}

/// The sources of a text, as they are written there.
fn sources(alloc: Global, text: &[u8], base: &Base) -> Result<WrittenSources, ReadError> {
    let (_map, written) = SourceMap::from_slice_as_written(alloc, text, base, Limits::usual())?;
    Ok(written)
}

/// The sources of the map that is read against a base, or the line of its fault.
fn sources_against(alloc: Global, text: &[u8], base: &Base) -> Answer {
    match sources(alloc, text, base) {
        Ok(written) => listed(alloc, &written),
        Err(error) => refused(alloc, error),
    }
}

/// The sources of the map that was read, as they are written there, or the line of its fault.
pub(crate) fn as_written(alloc: Global, text: &[u8]) -> Answer {
    match Base::new(alloc, BASE) {
        Ok(base) => sources_against(alloc, text, &base),
        Err(_) => Err(Memory),
    }
}
