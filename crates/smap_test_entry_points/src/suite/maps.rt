//! Maps that are read and composed, by calls that the program doesn't make too.
use crate::suite::asserted::equal;
use crate::suite::reading::{base, read};
use smap_compose::compose;
use smap_record::{Base, Limits, ReadError, SourceMap, TokenView, WrittenSources};
use std::process::Abort;

/// The line and column of a mapping; if it has an original, the number of its source, its line, its column,
/// and its name.
type Told<'a> = (u32, u32, Option<(usize, u32, u32, Option<&'a str>)>);

fn told(token: TokenView<'_>) -> Told<'_> {
    let original = match token.original {
        Some(o) => Some((o.source_number, o.line, o.column, o.name)),
        None => None,
    };
    (token.line, token.column, original)
}

/// Two sections. The first has an ignored source with a content, listed twice; the second has a null source
/// and a mapping with a name, which are numbered after those of the first.
const MAP: &str = concat!(
    r#"{"version":3,"file":"o","sections":[{"offset":{"line":0,"column":0},"map":{"version":3,"#,
    r#""sourceRoot":"r","sources":["a.js","./a.js"],"sourcesContent":["t","t"],"ignoreList":[0,1],"#,
    r#""names":["m"],"mappings":"A,CCEG"}},{"offset":{"line":1,"column":4},"map":{"version":3,"#,
    r#""sources":[null],"names":["n"],"mappings":"CAAAA"}}]}"#,
);

fn has_mappings(rt: &impl Abort, map: &SourceMap) {
    assert!(rt; map.token_count() == 3);
    equal(rt, 0, told(map.token(0)), (0, 0, None));
    equal(rt, 1, told(map.token(1)), (0, 1, Some((0, 2, 3, None))));
    let last = map.token(2);
    equal(rt, 2, told(last), (1, 5, Some((1, 0, 0, Some("n")))));
}

fn is_read(rt: &impl Abort, read: Result<SourceMap, ReadError>) {
    let map = read.expect(rt, "the map is read");
    has_mappings(rt, &map);
}

fn has_written(rt: &impl Abort, written: &WrittenSources) {
    assert!(rt; written.len() == 3);
    let second = (written.source(1), written.root(1));
    equal(rt, "written", second, (Some("./a.js"), Some("r")));
}

fn is_read_as_written(rt: &impl Abort, read: Result<(SourceMap, WrittenSources), ReadError>) {
    let (map, written) = read.expect(rt, "the map is read");
    has_written(rt, &written);
    is_read(rt, Ok(map));
}

/// Asserts that the map is read, also from bytes that are handed over.
fn is_read_by_each_call(rt: &(impl Abort + AllocGlobal), base: &Base) {
    let (alloc, bytes, limits) = (rt.alloc(), MAP.as_bytes(), Limits::usual());
    is_read(rt, SourceMap::from_slice(alloc, bytes, base, limits));
    let owned = Vec::from_slice(alloc, bytes).expect(rt, "memory");
    is_read_as_written(
        rt,
        SourceMap::from_vec_as_written(alloc, owned, base, limits),
    );
}

#[test]
fn a_map_is_read(rt: HostRuntime) {
    is_read_by_each_call(&rt, &base(&rt));
}

const OUTER: &str = concat!(
    r#"{"version":3,"sources":["m.js","v.js"],"names":["x","y"],"#,
    r#""mappings":"AAAAA,IAASC,ICETD"}"#,
);

const INNER: &str = r#"{"version":3,"sources":["a.ts"],"names":["name"],"mappings":"AAAA,KAGEA"}"#;

fn is_composition(rt: &impl Abort, map: &SourceMap) {
    assert!(rt; map.token_count() == 3);
    equal(
        rt,
        1,
        told(map.token(1)),
        (0, 4, Some((0, 3, 2, Some("name")))),
    );
    equal(
        rt,
        2,
        told(map.token(2)),
        (0, 8, Some((1, 2, 0, Some("x")))),
    );
}

#[test]
fn a_map_is_composed(rt: HostRuntime) {
    let outer = read(&rt, OUTER);
    let inner = [read(&rt, INNER)];
    let composed = compose(
        rt.alloc(),
        &outer,
        &inner,
        &[Some(0), None],
        Limits::usual(),
    );
    is_composition(&rt, &composed.expect(&rt, "the maps are composed"));
}
