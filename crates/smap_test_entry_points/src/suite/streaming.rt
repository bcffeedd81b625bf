//! When a trace is read and written, and the words for a trace that was given up.
use crate::suite::asserted::{equal, holds};
use crate::suite::reading::read;
use crate::suite::slow_reader::SlowReader;
use crate::suite::slow_writer::SlowWriter;
use crate::suite::watched::{WatchedWriter, WatchingReader};
use smap_io::Device;
use smap_record::SourceMap;
use smap_trace::{Counts, TraceError, translate};
use std::alloc::Global;
use std::cell::Cell;
use std::process::Abort;
use std::test::Fail;

const MAP: &str = r#"{"version":3,"sources":["a.js"],"mappings":"AAUE,IAEA"}"#;

const SCRIPT: &str = "http://h/m/out.js";

/// What a translation answers, and how many reads, writes and flushes it takes; `writes` counts flushes too.
#[derive(Drop)]
struct Ran {
    answer: Result<Counts, TraceError>,
    reads: u64,
    writes: u64,
    flushes: u64,
}

fn run(alloc: Global, map: &SourceMap, reader: SlowReader<'_>, writer: SlowWriter) -> Ran {
    let mut reader = Device::new(reader);
    let mut writer = Device::new(writer);
    let answer = translate(alloc, &mut reader, &[(SCRIPT, map)], false, &mut writer);
    let writer = writer.into_inner();
    Ran {
        answer,
        reads: reader.into_inner().calls,
        writes: writer.calls,
        flushes: writer.flushes,
    }
}

/// Asserts that all 10,000 lines of a trace are translated, in as many reads and writes as there are pieces.
fn is_told_by_pieces(rt: &(impl Abort + AllocGlobal), map: &SourceMap, trace: &str) {
    let pieces = trace.len() / 65536 + 1;
    let reader = SlowReader::new(trace.as_bytes(), 1000000, 0);
    let writer = SlowWriter::new(rt.alloc(), 1000000, 0);
    let ran = run(rt.alloc(), map, reader, writer);
    let counts = Counts {
        lines: 10000,
        translated: 10000,
        dropped: 0,
    };
    let calls = pieces as u64 + 1;
    equal(rt, "answer", ran.answer, Ok(counts));
    let found = (ran.reads, ran.writes, ran.flushes);
    equal(rt, "calls", found, (calls, calls, 1));
}

#[test]
fn a_piece_is_one_read_and_one_write(rt: HostRuntime) -> Result<(), Fail> {
    let mut trace = String::new(rt.alloc());
    for _ in 0..10000 {
        trace.push_str("    at f (http://h/m/out.js:1:2)\n")?;
    }
    is_told_by_pieces(&rt, &read(&rt, MAP), trace.as_str());
    Ok(())
}

#[test]
fn complete_lines_are_written_before_the_next_read(rt: HostRuntime) -> Result<(), Fail> {
    let map = read(&rt, MAP);
    let shown = Cell::new(0);
    let pieces = [
        "Error: x\n    at f (http://h/m/out.js:1:2)",
        "\n    at g",
        "\n",
        "x",
    ];
    let reader = WatchingReader::new(rt.alloc(), &pieces, &shown);
    let writer = WatchedWriter::new(rt.alloc(), &shown);
    let mut reader = Device::new(reader);
    let mut writer = Device::new(writer);
    let answer = translate(
        rt.alloc(),
        &mut reader,
        &[(SCRIPT, &map)],
        false,
        &mut writer,
    );
    holds(&rt, "answer", answer.is_ok());
    let seen = reader.into_inner().seen;
    equal(&rt, "seen", seen.as_slice(), [0, 9, 41, 50, 50].as_slice());
    equal(
        &rt,
        "bytes",
        writer.into_inner().bytes.as_slice(),
        b"Error: x\n    at f (http://h/m/a.js:11:3)\n    at g\nx".as_slice(),
    );
    Ok(())
}

#[test]
fn each_error_has_its_words(rt: HostRuntime) -> Result<(), Fail> {
    for &(error, words) in &[
        (TraceError::Read, "read failed"),
        (TraceError::Write, "write failed"),
        (TraceError::Memory, "out of memory"),
    ] {
        let said = format!(in rt.alloc(); "{error}")?;
        equal(&rt, words, said.as_str(), words);
    }
    Ok(())
}
