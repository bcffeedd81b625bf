//! What a source has, by its number.
ghost use Rattle.std.specs.Prelude.{◌≡◌};
ghost use Rattle.smap_c.specs.Sources.{UrlReported, ContentReported, SourceUrl, SourceContent};
ghost use Rattle.smap_c.specs.Sources.{IgnoredReported, Ignored};
ghost use Rattle.smap_c.specs.Handles.{held_map};

use crate::handles::{SmapMap, with_open, with_text};
use smap_c_answers::{OK, RANGE, report_text};
use smap_record::SourceMap;
use std::alloc::Global;

fn url_of(map: &SourceMap, i: usize, out: &mut [u8], len: &mut usize) -> u32
    ensures { UrlReported map.now i out.old out.new len.new result }
{
    if i < map.source_count() {
        report_text(map.source(i).url, out, len)
    } else {
        *len = 0;
        RANGE
    }
}

fn content_of(map: &SourceMap, i: usize, out: &mut [u8], len: &mut usize) -> u32
    ensures { ContentReported map.now i out.old out.new len.new result }
{
    if i < map.source_count() {
        report_text(map.source(i).content, out, len)
    } else {
        *len = 0;
        RANGE
    }
}

fn ignored_of(map: &SourceMap, i: usize, out: &mut bool) -> u32
    ensures { IgnoredReported map.now i out.old out.new result }
{
    if i < map.source_count() {
        *out = map.source(i).ignored;
        OK
    } else {
        RANGE
    }
}

/// The URL of a source.
#[unsafe(no_mangle)]
pub extern "C" fn smap_source_url(
    alloc: Global,
    map: &mut SmapMap,
    i: usize,
    out: &mut [u8],
    len: &mut usize,
) -> u32
    ensures reported { SourceUrl (held_map map.old.owner.value) i out.old out.new len.new result }
    ensures same { map.new.owner.value ≡ map.old.owner.value }
{
    with_text(alloc, map, out, len, |opened, out, len| {
        url_of(&opened.map, i, out, len)
    })
}

/// The content of a source.
#[unsafe(no_mangle)]
pub extern "C" fn smap_source_content(
    alloc: Global,
    map: &mut SmapMap,
    i: usize,
    out: &mut [u8],
    len: &mut usize,
) -> u32
    ensures reported { SourceContent (held_map map.old.owner.value) i out.old out.new len.new result }
    ensures same { map.new.owner.value ≡ map.old.owner.value }
{
    with_text(alloc, map, out, len, |opened, out, len| {
        content_of(&opened.map, i, out, len)
    })
}

/// Whether the i-th distinct source is ignored.
#[unsafe(no_mangle)]
pub extern "C" fn smap_is_ignored(alloc: Global, map: &mut SmapMap, i: usize, out: &mut bool) -> u32
    ensures reported { Ignored (held_map map.old.owner.value) i out.old out.new result }
    ensures same { map.new.owner.value ≡ map.old.owner.value }
{
    with_open(alloc, map, out, |opened, out| {
        ignored_of(&opened.map, i, out)
    })
}
