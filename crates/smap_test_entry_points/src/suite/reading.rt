//! The maps of the tests' texts, whose base is always the same.
use smap_record::{Base, Limits, SourceMap};
use std::process::Abort;

/// The base `http://h/m/out.js.map`.
pub(crate) fn base(rt: &(impl Abort + AllocGlobal)) -> Base {
    Base::new(rt.alloc(), "http://h/m/out.js.map").expect(rt, "a base is a URL")
}

/// The map of a JSON text, with that base.
pub(crate) fn read(rt: &(impl Abort + AllocGlobal), text: &str) -> SourceMap {
    let map = SourceMap::from_slice(rt.alloc(), text.as_bytes(), &base(rt), Limits::usual());
    map.expect(rt, text)
}
