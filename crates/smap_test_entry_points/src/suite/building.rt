//! A map that is built call by call, and why calls of a builder fail.
use crate::suite::asserted::{equal, holds};
use crate::suite::reading::{base, read};
use smap_canon::{canonical, same};
use smap_compose::{BuildError, Builder};
use smap_mappings::{Original, SegmentKind, Token};
use smap_record::{Limits, SourceMap};
use std::process::Abort;

const BUILT: &str = concat!(
    r#"{"file":"out.js","ignoreList":[1],"mappings":"AAECA;ICFD,ADKA","names":["f"],"#,
    r#""sources":["http://h/m/a.ts","http://h/m/b.ts"],"sourcesContent":[null,"B"],"version":3}"#,
);

/// A mapping of this position to this source and this position there.
fn mapping(generated: (u32, u32), source: u32, place: (u32, u32), name: Option<u32>) -> Token {
    Token {
        line: generated.0,
        column: generated.1,
        original: Some(Original {
            source,
            line: place.0,
            column: place.1,
            name,
        }),
    }
}

/// What the builder is told of its sources and its name; the numbers that it gives.
fn with_sources(
    rt: &(impl Abort + AllocGlobal),
    builder: &mut Builder,
) -> Result<[u32; 4], BuildError> {
    let alloc = rt.alloc();
    let first = builder.source(alloc, Some("a.ts"))?;
    let second = builder.source(alloc, Some("b.ts"))?;
    builder.set_content(alloc, second, Some("B"))?;
    builder.set_ignored(second, true)?;
    let again = builder.source(alloc, Some("./a.ts"))?;
    let name = builder.name(alloc, "f")?;
    Ok([first, second, again, name])
}

/// Builds the map, whose mappings aren't added in their order.
fn build(rt: &(impl Abort + AllocGlobal), mut builder: Builder) -> Result<SourceMap, BuildError> {
    builder.set_file(rt.alloc(), Some("out.js"))?;
    let numbers = with_sources(rt, &mut builder)?;
    equal(rt, "numbers", numbers, [0, 1, 0, 0]);
    builder.add(mapping((1, 4), 1, (0, 0), None))?;
    let others = [
        mapping((0, 0), 0, (2, 1), Some(0)),
        mapping((1, 4), 0, (5, 0), None),
    ];
    equal(rt, "others", builder.add_all(&others), Ok(()));
    Ok(builder.finish(rt.alloc())?)
}

#[test]
fn a_map_is_built(rt: HostRuntime) {
    let builder = Builder::new(rt.alloc(), base(&rt), Limits::usual());
    let map = build(&rt, builder).expect(&rt, "a map is built");
    let bytes = canonical(rt.alloc(), &map).expect(&rt, "memory");
    equal(&rt, "bytes", bytes.as_slice(), BUILT.as_bytes());
    holds(&rt, "read again", same(&map, &read(&rt, BUILT)));
}

/// Asserts why calls fail that don't add a mapping, in a builder that takes one source and one name.
fn are_refused(rt: &(impl Abort + AllocGlobal), builder: &mut Builder) {
    let alloc = rt.alloc();
    let refused = builder.source(alloc, Some("http://["));
    equal(rt, "URL", refused, Err(BuildError::SourceUrl));
    equal(rt, "null", builder.source(alloc, None), Ok(0));
    let second = builder.source(alloc, Some("b.ts"));
    equal(rt, "second source", second, Err(BuildError::TooMany));
    let content = builder.set_content(alloc, 1, None);
    equal(rt, "content", content, Err(BuildError::Source));
    let ignored = builder.set_ignored(1, false);
    equal(rt, "ignored", ignored, Err(BuildError::Source));
    equal(rt, "name", builder.name(alloc, ""), Ok(0));
    let second = builder.name(alloc, "g");
    equal(rt, "second name", second, Err(BuildError::TooMany));
}

/// Asserts why a mapping isn't added, and that it keeps one before it from being added with it.
fn is_refused(rt: &impl Abort, builder: &mut Builder, token: Token, kind: SegmentKind) {
    equal(rt, token, builder.fault_of(token), Some(kind));
    let fault = BuildError::Mapping(kind);
    equal(rt, token, builder.add(token), Err(fault));
    let both = [mapping((0, 0), 0, (0, 0), None), token];
    equal(rt, token, builder.add_all(&both), Err((1, fault)));
}

#[test]
fn each_fault_is_told(rt: HostRuntime) {
    let limits = Limits::new(1, 2).expect(&rt, "these are limits");
    let mut builder = Builder::new(rt.alloc(), base(&rt), limits);
    are_refused(&rt, &mut builder);
    for &(generated, source, place, name, kind) in &[
        ((2, 0), 1, (0, 0), None, SegmentKind::GeneratedLine),
        ((1, 1 << 31), 1, (0, 0), None, SegmentKind::Column),
        ((1, 0), 1, (1 << 31, 0), None, SegmentKind::Source),
        (
            (1, 0),
            0,
            (1 << 31, 1 << 31),
            None,
            SegmentKind::OriginalLine,
        ),
        (
            (1, 0),
            0,
            (0, 1 << 31),
            Some(1),
            SegmentKind::OriginalColumn,
        ),
        ((1, 0), 0, (0, 0), Some(1), SegmentKind::Name),
    ] {
        is_refused(
            &rt,
            &mut builder,
            mapping(generated, source, place, name),
            kind,
        );
    }
}
