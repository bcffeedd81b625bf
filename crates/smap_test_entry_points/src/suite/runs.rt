//! Runs over devices that move a few bytes a call and fail at a given call, and how many calls there were.
use crate::suite::asserted::{equal, holds};
use crate::suite::slow_reader::SlowReader;
use crate::suite::slow_writer::SlowWriter;
use smap_io::Device;
use smap_tool::{Outcome, RunFault, Task, run, run_translate};
use smap_trace::MatchMode;
use std::alloc::Global;
use std::process::Abort;

/// The first script maps to line 10, column 2 and line 12, column 2 of `a.js`.
const BUNDLE: &str = "map http://h/m/out.js http://h/m/out.js.map 55\n\
    {\"version\":3,\"sources\":[\"a.js\"],\"mappings\":\"AAUE,IAEA\"}\n\
    map v http://h/m/x 48\n\
    {\"version\":3,\"sources\":[null],\"mappings\":\"AAAA\"}\n\
    trace\n\
    Error: x\n    at f (http://h/m/out.js:1:2)\n    at async http://h/m/out.js:1:5\n\
    g@http://h/m/out.js:1:4\r\n    at f (http://h/m/other.js:1:2)\n\n@http://h/m/out.js:1:2147483648";

const TOLD: &str = "Error: x\n    at f (http://h/m/a.js:11:3)\n    at async http://h/m/a.js:13:3\n\
    g@http://h/m/a.js:11:3\r\n    at f (http://h/m/other.js:1:2)\n\n@http://h/m/a.js:13:3";

/// A run that writes as it reads, and one that first reads its input to the end; their inputs, and what is
/// written for them.
#[rattlefmt::skip]
static ROWS: [(Task<'static>, &str, &str); 2] = [
    (Task::Translate { mode: MatchMode::FRAMES, hide: false, names: false }, BUNDLE, TOLD),
    (
        Task::Tidy { base: "http://h/m/out.js.map", relative: true },
        r#"{"version":3,"sources":["a.js"],"names":["x","y"],"mappings":"AAAAC,CAACD"}"#,
        r#"{"mappings":"AAAAA,CAACC","names":["y","x"],"sources":["a.js"],"version":3}"#,
    ),
];

/// What came of a run, what it wrote, and how often its devices were called.
#[derive(Drop)]
struct Ran {
    answer: Result<Outcome, RunFault>,
    bytes: Vec<u8>,
    reads: u64,
    failed_reads: u64,
    /// Writes and flushes.
    writes: u64,
    failed_writes: u64,
}

/// Runs a task over these devices.
fn run_over(alloc: Global, task: Task<'_>, reader: SlowReader<'_>, writer: SlowWriter) -> Ran {
    let mut reader = Device::new(reader);
    let mut writer = Device::new(writer);
    let answer = run(alloc, task, &mut reader, &mut writer);
    let failed_reads = reader.failures();
    let failed_writes = writer.failures();
    let writer = writer.into_inner();
    Ran {
        answer,
        reads: reader.into_inner().calls,
        failed_reads,
        writes: writer.calls,
        failed_writes,
        bytes: writer.bytes,
    }
}

/// Runs a task with a reader of 7 bytes a call and a writer of 5, of which a call fails; 0 means none.
/// Asserts that the answer names a failure of a device if there was one, and that what was written begins
/// the output, or else is all of it. Returns the answer, the reads, and the writes and flushes.
fn failing(
    rt: &(impl Abort + AllocGlobal),
    task: Task<'_>,
    (input, whole): (&str, &str),
    read: u64,
    write: u64,
) -> (Result<Outcome, RunFault>, u64, u64) {
    let reader = SlowReader::new(input.as_bytes(), 7, read);
    let writer = SlowWriter::new(rt.alloc(), 5, write);
    let ran = run_over(rt.alloc(), task, reader, writer);
    let failed = (ran.failed_reads > 0, ran.failed_writes > 0);
    let expected = (
        ran.answer == Err(RunFault::Read),
        ran.answer == Err(RunFault::Write),
    );
    equal(rt, (task, read, write), failed, expected);
    holds(
        rt,
        (task, read, write),
        whole.as_bytes().starts_with(ran.bytes.as_slice())
            && (ran.answer.is_err() || ran.bytes.len() == whole.len()),
    );
    (ran.answer, ran.reads, ran.writes)
}

/// Asserts that each read, write or flush of a task that fails is its last call of that device.
fn each_call_fails(rt: &(impl Abort + AllocGlobal), task: Task<'_>, texts: (&str, &str)) {
    let (answer, reads, writes) = failing(rt, task, texts, 0, 0);
    equal(rt, task, answer, Ok(Outcome::Done));
    for k in 1..=reads {
        let (answer, reads, _writes) = failing(rt, task, texts, k, 0);
        equal(rt, (task, k), (answer, reads), (Err(RunFault::Read), k));
    }
    for k in 1..=writes {
        let (answer, _reads, writes) = failing(rt, task, texts, 0, k);
        equal(rt, (task, k), (answer, writes), (Err(RunFault::Write), k));
    }
}

#[test]
fn the_kth_read_or_write_fails(rt: HostRuntime) {
    for &(task, input, output) in &ROWS {
        each_call_fails(&rt, task, (input, output));
    }
}

#[test]
fn frames_alone_are_translated(rt: HostRuntime) {
    let mut reader = Device::new(BUNDLE.as_bytes());
    let mut writer = Device::new(SlowWriter::new(rt.alloc(), 100, 0));
    let answer = run_translate(rt.alloc(), false, &mut reader, &mut writer);
    equal(&rt, "answer", answer, Ok(Outcome::Done));
    let written = writer.into_inner().bytes;
    equal(&rt, "bytes", written.as_slice(), TOLD.as_bytes());
}
