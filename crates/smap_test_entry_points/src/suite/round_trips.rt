//! The calls that put reading and writing together. The bytes of many more maps are in the tables of
//! `tests/rows/`.
use crate::suite::asserted::{equal, holds};
use crate::suite::reading::base;
use smap_canon::round_trips::{flattened, have_equal_bytes, tidied};
use smap_canon::same;
use smap_record::{Limits, ReadError, SourceMap};
use smap_tool::round_trips::read_again;
use std::process::Abort;

/// Two sections that list a source twice, and a name that no mapping uses.
const MAP: &str = concat!(
    r#"{"version":3,"sections":["#,
    r#"{"offset":{"line":0,"column":0},"map":{"version":3,"sources":["a.js"],"mappings":"AAAA"}},"#,
    r#"{"offset":{"line":0,"column":10},"map":{"version":3,"sources":["a.js","b.js"],"#,
    r#""names":["m","n"],"mappings":"AAAAC;CCCC"}}]}"#,
);

const CANONICAL: &str = concat!(
    r#"{"mappings":"AAAA,UAAAA;CCCC","names":["n"],"sources":["http://h/m/a.js","#,
    r#""http://h/m/b.js"],"version":3}"#,
);

const RELATIVE: &str =
    r#"{"mappings":"AAAA,UAAAA;CCCC","names":["n"],"sources":["a.js","b.js"],"version":3}"#;

const FLAT: &str = concat!(
    r#"{"mappings":"AAAA,UCAAC;CCCC","names":["m","n"],"sources":["http://h/m/a.js","#,
    r#""http://h/m/a.js","http://h/m/b.js"],"version":3}"#,
);

/// Another record.
const OTHER: &str = r#"{"version":3,"mappings":""}"#;

/// Asserts that these bytes were made.
fn makes<E: Drop>(rt: &impl Abort, made: Result<Vec<u8>, E>, expected: &str) {
    match made {
        Ok(bytes) => equal(rt, expected, bytes.as_slice(), expected.as_bytes()),
        Err(_) => holds(rt, expected, false),
    }
}

#[test]
fn each_form_is_written_of_a_text(rt: HostRuntime) {
    let (alloc, base, limits) = (rt.alloc(), base(&rt), Limits::usual());
    makes(
        &rt,
        tidied(alloc, MAP.as_bytes(), &base, limits, false),
        CANONICAL,
    );
    makes(
        &rt,
        tidied(alloc, MAP.as_bytes(), &base, limits, true),
        RELATIVE,
    );
    makes(&rt, flattened(alloc, MAP.as_bytes(), &base, limits), FLAT);
}

/// Asserts whether a text has the bytes of the map in both forms.
fn is_equal(rt: &(impl Abort + AllocGlobal), text: &str, expected: bool) {
    let (one, other, base) = (MAP.as_bytes(), text.as_bytes(), base(rt));
    for &relative in &[false, true] {
        let limits = Limits::usual();
        let found = have_equal_bytes(rt.alloc(), one, other, &base, limits, relative);
        equal(rt, (text, relative), found.ok(), Some(expected));
    }
}

#[test]
fn equal_records_have_equal_bytes(rt: HostRuntime) {
    for &(text, expected) in &[(RELATIVE, true), (OTHER, false)] {
        is_equal(&rt, text, expected);
    }
}

/// Asserts that both maps are the same.
fn are_same(rt: &impl Abort, maps: Result<(SourceMap, SourceMap), ReadError>) {
    let (one, other) = maps.expect(rt, "the text is accepted");
    holds(rt, "same", same(&one, &other));
}

#[test]
fn a_map_is_read_again_from_its_canonical_bytes(rt: HostRuntime) {
    let base = base(&rt);
    for &relative in &[false, true] {
        let (alloc, bytes, limits) = (rt.alloc(), MAP.as_bytes(), Limits::usual());
        are_same(&rt, read_again(alloc, bytes, &base, limits, relative));
    }
}
