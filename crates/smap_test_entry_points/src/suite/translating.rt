//! A trace and a line, by calls that the program doesn't make. Many more lines are in the tables of
//! `tests/rows/`.
use crate::suite::asserted::equal;
use crate::suite::reading::read;
use smap_io::Device;
use smap_record::SourceMap;
use smap_trace::{Counts, LineOutcome, MatchMode, distinct_scripts, translate_by, translate_line};
use std::process::Abort;

const MAP: &str = r#"{"version":3,"sources":["a.js"],"mappings":"AAUE,IAEA"}"#;

const ANYWHERE: MatchMode = MatchMode {
    anywhere: true,
    ignore_query: false,
};

const TRACE: &[u8] = b"(/ab.js:1:2) /a.js:1:2/b.js:1:5\nx/b.js:1:2\n@/a.js:1:2";

const TOLD: &[u8] =
    b"(http://h/m/a.js:11:3) http://h/m/a.js:13:3\nx/b.js:1:2\n@http://h/m/a.js:11:3";

const COUNTS: Counts = Counts {
    lines: 3,
    translated: 2,
    dropped: 0,
};

/// Asserts that a trace and a line of it are translated with these scripts.
fn is_translated(rt: &(impl Abort + AllocGlobal), scripts: &[(&str, &SourceMap)]) {
    assert!(rt; distinct_scripts(scripts));
    let mut reader = Device::new(TRACE);
    let mut writer = Device::new(Vec::new(rt.alloc()));
    let hide = false;
    let answer = translate_by(
        rt.alloc(),
        &mut reader,
        scripts,
        ANYWHERE,
        hide,
        &mut writer,
    );
    equal(rt, "counts", answer, Ok(COUNTS));
    equal(rt, "translation", writer.into_inner().as_slice(), TOLD);
    let mut out = Vec::new(rt.alloc());
    let answer = translate_line(b"@/a.js:1:2", scripts, hide, &mut out);
    equal(rt, "outcome", answer, Ok(LineOutcome::Translated));
}

/// Asserts that of five scripts, which are one more than are searched one by one.
fn is_translated_by_five(rt: &(impl Abort + AllocGlobal), map: &SourceMap) {
    let scripts = [
        ("/a.js", map),
        ("/ab.js", map),
        ("/a.js:1:2/b.js", map),
        ("/b.js", map),
        ("/c.js", map),
    ];
    is_translated(rt, &scripts);
}

#[test]
fn a_trace_of_five_scripts_is_translated(rt: HostRuntime) {
    is_translated_by_five(&rt, &read(&rt, MAP));
}
