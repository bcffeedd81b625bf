//! Lookups, and mappings by their numbers.
ghost use Rattle.std.specs.Prelude.{◌≡◌, Some, None};
ghost use Rattle.smap_c.specs.Lookups.{reported_mapping, Finds, FindsIndex, LooksUp, LooksUpIndex};
ghost use Rattle.smap_c.specs.Lookups.{NameReported, NameAt};
ghost use Rattle.smap_c.specs.Lookups.{TokenReported, Token};
ghost use Rattle.smap_c.specs.Handles.{held_map};

use crate::handles::{SmapMap, with_open, with_text};
use crate::opened::Opened;
use smap_c_answers::{NONE, OK, RANGE, report_text};
use smap_record::{SourceMap, TokenView};
use smap_trace::{find_in, lookup_in};
use std::alloc::Global;

/// A mapping's numbers: a generated line and column; the number of its source among the distinct ones, a
/// line and a column of it; and whether it has a name. All count from 0.
#[repr(C)]
#[derive(Clone, Copy)]
pub struct SmapMapping {
    pub line: u32,
    pub column: u32,
    pub has_source: bool,
    pub has_name: bool,
    pub is_ignored: bool,
    pub source_line: u32,
    pub source_column: u32,
    pub source: usize,
}

fn reported_mapping(token: TokenView<'_>) -> SmapMapping
    ensures { result ≡ reported_mapping token.entry }
{
    match token.original {
        Some(original) => SmapMapping {
            line: token.line,
            column: token.column,
            has_source: true,
            has_name: original.name.is_some(),
            is_ignored: original.source.ignored,
            source_line: original.line,
            source_column: original.column,
            source: original.source_number,
        },
        None => SmapMapping {
            line: token.line,
            column: token.column,
            has_source: false,
            has_name: false,
            is_ignored: false,
            source_line: 0,
            source_column: 0,
            source: 0,
        },
    }
}

/// The mapping that a generated position falls to, or that there is none.
fn find_mapping(opened: &Opened, line: u32, column: u32, out: &mut SmapMapping) -> u32
    ensures { Finds opened.now.map line column out.old out.new result }
{
    let (found, _) = lookup_in(&opened.map, &opened.starts, line, column);
    match found {
        Some(token) => {
            *out = reported_mapping(token);
            OK
        }
        None => NONE,
    }
}

/// The mapping that a generated position falls to.
#[unsafe(no_mangle)]
pub extern "C" fn smap_lookup(
    alloc: Global,
    map: &mut SmapMap,
    line: u32,
    column: u32,
    out: &mut SmapMapping,
) -> u32
    ensures found { LooksUp (held_map map.old.owner.value) line column out.old out.new result }
    ensures same { map.new.owner.value ≡ map.old.owner.value }
{
    with_open(alloc, map, out, |opened, out| {
        find_mapping(opened, line, column, out)
    })
}

/// The number of the mapping that a generated position falls to, or that there is none.
fn find_index(opened: &Opened, line: u32, column: u32, out: &mut usize) -> u32
    ensures { FindsIndex opened.now.map line column out.old out.new result }
{
    match find_in(&opened.map, &opened.starts, line, column).0 {
        Some(i) => {
            *out = i;
            OK
        }
        None => NONE,
    }
}

/// The number of the mapping that a generated position falls to.
#[unsafe(no_mangle)]
pub extern "C" fn smap_find(
    alloc: Global,
    map: &mut SmapMap,
    line: u32,
    column: u32,
    out: &mut usize,
) -> u32
    ensures found { LooksUpIndex (held_map map.old.owner.value) line column out.old out.new result }
    ensures same { map.new.owner.value ≡ map.old.owner.value }
{
    with_open(alloc, map, out, |opened, out| {
        find_index(opened, line, column, out)
    })
}

fn name_at(opened: &Opened, line: u32, column: u32, out: &mut [u8], len: &mut usize) -> u32
    ensures { NameReported opened.now.map line column out.old out.new len.new result }
{
    match lookup_in(&opened.map, &opened.starts, line, column).0 {
        Some(token) => match token.original {
            Some(original) => report_text(original.name, out, len),
            None => report_text(None, out, len),
        },
        None => report_text(None, out, len),
    }
}

/// The name of the mapping that a generated position falls to.
#[unsafe(no_mangle)]
pub extern "C" fn smap_name_at(
    alloc: Global,
    map: &mut SmapMap,
    line: u32,
    column: u32,
    out: &mut [u8],
    len: &mut usize,
) -> u32
    ensures reported { NameAt (held_map map.old.owner.value) line column out.old out.new len.new result }
    ensures same { map.new.owner.value ≡ map.old.owner.value }
{
    with_text(alloc, map, out, len, |opened, out, len| {
        name_at(opened, line, column, out, len)
    })
}

fn token_of(map: &SourceMap, i: usize, out: &mut SmapMapping) -> u32
    ensures { TokenReported map.now i out.old out.new result }
{
    if i < map.token_count() {
        *out = reported_mapping(map.token(i));
        OK
    } else {
        RANGE
    }
}

/// The i-th mapping, in order of position.
#[unsafe(no_mangle)]
pub extern "C" fn smap_token(
    alloc: Global,
    map: &mut SmapMap,
    i: usize,
    out: &mut SmapMapping,
) -> u32
    ensures reported { Token (held_map map.old.owner.value) i out.old out.new result }
    ensures same { map.new.owner.value ≡ map.old.owner.value }
{
    with_open(alloc, map, out, |opened, out| token_of(&opened.map, i, out))
}
