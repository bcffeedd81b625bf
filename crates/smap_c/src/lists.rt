//! What a map lists, by its numbers.
ghost use Rattle.std.specs.Prelude.{◌≡◌, map as mapped};
ghost use Rattle.smap_c.specs.Lists.{reported_listed_mapping, SourceReported, NameReported, TokenReported};
ghost use Rattle.smap_c.specs.Lists.{ListedSource, ListedName};
ghost use Rattle.smap_c.specs.Lists.{ListedToken, WrittenSource, WrittenRoot};
ghost use Rattle.smap_c.specs.Lists.{WrittenSourceReported, WrittenRootReported, plain, spellings_of};
ghost use Rattle.smap_c.specs.Handles.{held_map};

use crate::handles::{SmapMap, with_open, with_text};
use crate::opened::Opened;
use smap_c_answers::{OK, RANGE, copy_out, report_text};
use smap_mappings::Token;
use smap_record::{SourceMap, WrittenSources};
use std::alloc::Global;

/// A mapping by places in the lists of sources and names; what it doesn't have is 0.
#[repr(C)]
#[derive(Clone, Copy)]
pub struct SmapListedMapping {
    pub line: u32,
    pub column: u32,
    pub has_source: bool,
    pub has_name: bool,
    pub source_line: u32,
    pub source_column: u32,
    pub source: u32,
    pub name: u32,
}

fn reported_listed_mapping(token: Token) -> SmapListedMapping
    ensures { result ≡ reported_listed_mapping token }
{
    let mut reported = SmapListedMapping {
        line: token.line,
        column: token.column,
        has_source: false,
        has_name: false,
        source_line: 0,
        source_column: 0,
        source: 0,
        name: 0,
    };
    if let Some(original) = token.original {
        reported.has_source = true;
        reported.source_line = original.line;
        reported.source_column = original.column;
        reported.source = original.source;
        if let Some(name) = original.name {
            reported.has_name = true;
            reported.name = name;
        }
    }
    reported
}

fn source_of(map: &SourceMap, i: usize, out: &mut usize) -> u32
    ensures { SourceReported map.now i out.old out.new result }
{
    if i < map.listed_count() {
        *out = map.listed(i);
        OK
    } else {
        RANGE
    }
}

fn name_of(map: &SourceMap, i: usize, out: &mut [u8], len: &mut usize) -> u32
    ensures { NameReported map.now i out.old out.new len.new result }
{
    if i < map.name_count() {
        *len = copy_out(map.name(i).as_bytes(), out);
        OK
    } else {
        *len = 0;
        RANGE
    }
}

fn token_of(map: &SourceMap, i: usize, out: &mut SmapListedMapping) -> u32
    ensures { TokenReported map.now i out.old out.new result }
{
    if i < map.token_count() {
        *out = reported_listed_mapping(map.listed_token(i));
        OK
    } else {
        RANGE
    }
}

fn text_source_of(written: &WrittenSources, i: usize, out: &mut [u8], len: &mut usize) -> u32
    ensures { WrittenSourceReported written.now i out.old out.new len.new result }
{
    if i < written.len() {
        report_text(written.source(i), out, len)
    } else {
        *len = 0;
        RANGE
    }
}

/// The URL of the i-th listed source.
#[tactic(auto, using(crate::proofs::MapLemmas::listed_url))]
fn listed_url_of(map: &SourceMap, i: usize, out: &mut [u8], len: &mut usize) -> u32
    ensures { WrittenSourceReported (mapped plain map.now.listing.sources) i out.old out.new len.new result }
{
    if i < map.listed_count() {
        report_text(map.source(map.listed(i)).url, out, len)
    } else {
        *len = 0;
        RANGE
    }
}

fn written_source_of(opened: &Opened, i: usize, out: &mut [u8], len: &mut usize) -> u32
    ensures { WrittenSourceReported (spellings_of opened.now) i out.old out.new len.new result }
{
    match &opened.written {
        Some(written) => text_source_of(written, i, out, len),
        None => listed_url_of(&opened.map, i, out, len),
    }
}

fn text_root_of(written: &WrittenSources, i: usize, out: &mut [u8], len: &mut usize) -> u32
    ensures { WrittenRootReported written.now i out.old out.new len.new result }
{
    if i < written.len() {
        report_text(written.root(i), out, len)
    } else {
        *len = 0;
        RANGE
    }
}

/// No `sourceRoot`, if there is an i-th listed source.
fn no_root_of(map: &SourceMap, i: usize, out: &mut [u8], len: &mut usize) -> u32
    ensures { WrittenRootReported (mapped plain map.now.listing.sources) i out.old out.new len.new result }
{
    if i < map.listed_count() {
        report_text(None, out, len)
    } else {
        *len = 0;
        RANGE
    }
}

fn written_root_of(opened: &Opened, i: usize, out: &mut [u8], len: &mut usize) -> u32
    ensures { WrittenRootReported (spellings_of opened.now) i out.old out.new len.new result }
{
    match &opened.written {
        Some(written) => text_root_of(written, i, out, len),
        None => no_root_of(&opened.map, i, out, len),
    }
}

/// The number of the i-th listed source among the distinct ones.
#[unsafe(no_mangle)]
pub extern "C" fn smap_listed_source(
    alloc: Global,
    map: &mut SmapMap,
    i: usize,
    out: &mut usize,
) -> u32
    ensures reported { ListedSource (held_map map.old.owner.value) i out.old out.new result }
    ensures same { map.new.owner.value ≡ map.old.owner.value }
{
    with_open(alloc, map, out, |opened, out| {
        source_of(&opened.map, i, out)
    })
}

/// The i-th listed name.
#[unsafe(no_mangle)]
pub extern "C" fn smap_listed_name(
    alloc: Global,
    map: &mut SmapMap,
    i: usize,
    out: &mut [u8],
    len: &mut usize,
) -> u32
    ensures reported { ListedName (held_map map.old.owner.value) i out.old out.new len.new result }
    ensures same { map.new.owner.value ≡ map.old.owner.value }
{
    with_text(alloc, map, out, len, |opened, out, len| {
        name_of(&opened.map, i, out, len)
    })
}

/// The i-th mapping by places in the lists, in order of position.
#[unsafe(no_mangle)]
pub extern "C" fn smap_listed_token(
    alloc: Global,
    map: &mut SmapMap,
    i: usize,
    out: &mut SmapListedMapping,
) -> u32
    ensures reported { ListedToken (held_map map.old.owner.value) i out.old out.new result }
    ensures same { map.new.owner.value ≡ map.old.owner.value }
{
    with_open(alloc, map, out, |opened, out| token_of(&opened.map, i, out))
}

/// The i-th listed source as the text of the map writes it.
#[unsafe(no_mangle)]
pub extern "C" fn smap_written_source(
    alloc: Global,
    map: &mut SmapMap,
    i: usize,
    out: &mut [u8],
    len: &mut usize,
) -> u32
    ensures reported { WrittenSource (held_map map.old.owner.value) i out.old out.new len.new result }
    ensures same { map.new.owner.value ≡ map.old.owner.value }
{
    with_text(alloc, map, out, len, |opened, out, len| {
        written_source_of(opened, i, out, len)
    })
}

/// The `sourceRoot` that applies to the i-th listed source.
#[unsafe(no_mangle)]
pub extern "C" fn smap_written_root(
    alloc: Global,
    map: &mut SmapMap,
    i: usize,
    out: &mut [u8],
    len: &mut usize,
) -> u32
    ensures reported { WrittenRoot (held_map map.old.owner.value) i out.old out.new len.new result }
    ensures same { map.new.owner.value ≡ map.old.owner.value }
{
    with_text(alloc, map, out, len, |opened, out, len| {
        written_root_of(opened, i, out, len)
    })
}
