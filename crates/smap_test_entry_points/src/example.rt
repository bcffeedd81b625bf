//! An example of the library: reads a source map, looks a position up, prints the canonical form of the map,
//! and translates a stack trace.

use smap_canon::canonical;
use smap_io::{Device, Failed, write_all};
use smap_mappings::Memory;
use smap_record::{Base, BaseFault, Fault, Limits, ReadError, SourceMap};
use smap_trace::{TraceError, lookup, translate};
use std::io;
use thiserror::Error;

const MAP: &[u8] = br#"{"version":3,"sources":["a.js"],"mappings":"AAUE,IAEA"}"#;

/// Why the example gave up.
#[derive(Debug, Drop, Error)]
pub enum ExampleError {
    #[error("the base is not a URL")]
    Base,
    #[error("the map is refused: {0}")]
    Map(Fault),
    #[error("{0}")]
    Trace(#[from] TraceError),
    #[error("write failed")]
    Write,
    #[error("out of memory")]
    Memory,
}

impl From<BaseFault> for ExampleError {
    fn from(fault: BaseFault) -> ExampleError {
        match fault {
            BaseFault::NotUrl => ExampleError::Base,
            BaseFault::Memory => ExampleError::Memory,
        }
    }
}

impl From<ReadError> for ExampleError {
    fn from(error: ReadError) -> ExampleError {
        match error {
            ReadError::Refused(fault) => ExampleError::Map(fault),
            ReadError::Memory => ExampleError::Memory,
        }
    }
}

impl From<Memory> for ExampleError {
    fn from(_: Memory) -> ExampleError {
        ExampleError::Memory
    }
}

impl From<Failed> for ExampleError {
    fn from(_: Failed) -> ExampleError {
        ExampleError::Write
    }
}

impl From<io::Error> for ExampleError {
    fn from(_: io::Error) -> ExampleError {
        ExampleError::Write
    }
}

/// The mapping at generated line 0, column 7: both count from 0.
fn print_original(rt: &HostRuntime, map: &SourceMap) -> Result<(), ExampleError> {
    let (found, _probes) = lookup(map, 0, 7);
    if let Some(mapping) = found
        && let Some(original) = mapping.original
    {
        let url = original.source.url.unwrap_or("no URL");
        println!(rt;
            "0:7 comes from {url}, line {}, column {}",
            original.line, original.column
        )?;
    }
    Ok(())
}

/// Maps with the same meaning have the same canonical form.
fn print_canonical(rt: &HostRuntime, map: &SourceMap) -> Result<(), ExampleError> {
    let tidied = canonical(rt.alloc(), map)?;
    let mut writer = Device::new(io::writer(rt));
    write_all(&mut writer, tidied.as_slice())?;
    write_all(&mut writer, b"\n")?;
    Ok(())
}

/// The trace counts lines and columns from 1.
fn print_translated(rt: &HostRuntime, map: &SourceMap, trace: &[u8]) -> Result<(), ExampleError> {
    let mut reader = Device::new(trace);
    let mut writer = Device::new(io::writer(rt));
    let scripts = [("http://h/m/out.js", map)];
    let counts = translate(
        rt.alloc(),
        &mut reader,
        scripts.as_slice(),
        false,
        &mut writer,
    )?;
    println!(rt;
        "{} of {} lines translated",
        counts.translated, counts.lines
    )?;
    Ok(())
}

pub fn example(rt: &HostRuntime, trace: &[u8]) -> Result<(), ExampleError> {
    let base = Base::new(rt.alloc(), "http://h/m/out.js.map")?;
    let map = SourceMap::from_slice(rt.alloc(), MAP, &base, Limits::usual())?;
    print_original(rt, &map)?;
    print_canonical(rt, &map)?;
    print_translated(rt, &map, trace)
}
