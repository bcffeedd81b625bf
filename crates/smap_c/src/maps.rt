//! The calls on a map as a whole: it is opened, closed, shared, compared and counted.
ghost use Rattle.std.specs.Prelude.{◌≡◌, ◌↔◌, IsSome, IfSome, IsTrue, Option, Some, None, IfOk};
ghost use Rattle.smap_record.specs.Record.{record_of};
ghost use Rattle.smap_c.specs.Maps.{allowed, AreLimits, or_usual, Opens, OpensInto, Shares, Compares};
ghost use Rattle.smap_c.specs.Maps.{counts_of, Counts, FileReported, File};
ghost use Rattle.smap_c.specs.Memory.{TakesMemory};
ghost use Rattle.smap_c.specs.Faults.{IsWhole};
ghost use Rattle.smap_c.specs.Handles.{held_map, is_map};

use crate::faults::{SmapFault, report_fault};
use crate::handles::{Held, SmapMap, with_open, with_text};
use crate::opened::Opened;
use smap_c_answers::{CLOSED, LIMITS, MEMORY, NOT_URL, OK, memory_of, report_text};
use smap_canon::same;
use smap_mappings::{MAX_LINES, Memory};
use smap_record::{Base, BaseFault, Fault, Limits, ReadError, SourceMap};
use smap_trace::HasMap;
use std::alloc::Global;
use std::sync::Arc;
use std::{mem, str};

/// How many sources and how many names a map may list, and how many generated lines it may have; 0 stands for
/// the usual limit.
#[repr(C)]
#[derive(Clone, Copy)]
pub struct SmapLimits {
    pub items: u32,
    pub lines: u32,
}

fn or_usual(limit: u32) -> u32
    ensures { result ≡ or_usual limit }
{
    if limit == 0 { MAX_LINES } else { limit }
}

/// The limits that are asked for, unless they are too large.
pub(crate) fn limits_of(asked: &SmapLimits) -> Option<Limits>
    ensures valid { IsSome result ↔ AreLimits asked.now }
    ensures value { IfSome result (λ l. l ≡ allowed asked.now) }
{
    Limits::new(or_usual(asked.items), or_usual(asked.lines))
}

/// A share in one. There may be several, in any threads.
#[derive(Drop)]
pub struct Shared {
    pub arc: Arc<Opened>,
}

impl Shared {
    /// The first share, to be held.
    pub(crate) fn new(alloc: Global, opened: Opened) -> Result<Box<Held>, Memory>
        ensures value { IfOk result (λ b. held_map (Some b.value) ≡ Some opened) }
        ensures kind { IfOk result (λ b. IsTrue (is_map b.value)) }
    {
        let Ok(arc) = Arc::new(alloc, opened) else {
            return Err(Memory);
        };
        Held::Map(Shared { arc }).boxed(alloc)
    }

    /// One more share.
    pub(crate) fn part(&self) -> Result<Shared, Memory>
        ensures { IfOk result (λ part. part.arc.value ≡ self.now.arc.value) }
    {
        match Arc::try_clone(&self.arc) {
            Ok(arc) => Ok(Shared { arc }),
            Err(_) => Err(Memory),
        }
    }

    /// One more share, to be held.
    pub(crate) fn again(&self, alloc: Global) -> Result<Box<Held>, Memory>
        ensures value { IfOk result (λ b. held_map (Some b.value) ≡ Some self.now.arc.value) }
        ensures kind { IfOk result (λ b. IsTrue (is_map b.value)) }
    {
        let part = self.part()?;
        Held::Map(part).boxed(alloc)
    }

    /// What it owns.
    pub(crate) fn opened(&self) -> &Opened
        ensures { result.now ≡ self.now.arc.value }
    {
        &self.arc
    }
}

impl HasMap for Shared {
    ghost held_map = { λ shared. shared.arc.value.map };

    fn map(&self) -> &SourceMap {
        &self.opened().map
    }
}

/// Why no map was opened. `Memory` may come in place of any other answer.
#[derive(Drop)]
pub(crate) enum OpenFault {
    Refused(Fault),
    NotUrl,
    Limits,
    Memory,
}

/// The map of these bytes against the base that the text is.
fn open(alloc: Global, bytes: &[u8], base: &[u8], limits: &SmapLimits) -> Result<Opened, OpenFault>
    ensures { Opens bytes.now base.now limits.now result }
{
    let Some(limits) = limits_of(limits) else {
        return Err(OpenFault::Limits);
    };
    let Ok(text) = str::from_utf8(base) else {
        return Err(OpenFault::NotUrl);
    };
    match Base::new(alloc, text) {
        Ok(base) => match SourceMap::from_slice_as_written(alloc, bytes, &base, limits) {
            Ok((map, written)) => match Opened::new(alloc, base, map, Some(written)) {
                Ok(opened) => Ok(opened),
                Err(_) => Err(OpenFault::Memory),
            },
            Err(ReadError::Refused(fault)) => Err(OpenFault::Refused(fault)),
            Err(ReadError::Memory) => Err(OpenFault::Memory),
        },
        Err(BaseFault::NotUrl) => Err(OpenFault::NotUrl),
        Err(BaseFault::Memory) => Err(OpenFault::Memory),
    }
}

/// Opens a map.
#[unsafe(no_mangle)]
pub extern "C" fn smap_open(
    alloc: Global,
    map: &mut SmapMap,
    bytes: &[u8],
    base: &[u8],
    limits: &SmapLimits,
    fault: &mut SmapFault,
) -> u32
    ensures opened { OpensInto bytes.now base.now limits.now (held_map map.old.owner.value)
        (held_map map.new.owner.value) fault.old fault.new result }
    ensures whole { IsWhole fault.new result }
{
    match open(alloc, bytes, base, limits) {
        Ok(opened) => match Shared::new(alloc, opened) {
            Ok(held) => {
                *map = SmapMap::of(held);
                OK
            }
            Err(_) => MEMORY,
        },
        Err(OpenFault::Refused(refused)) => report_fault(alloc, &refused, fault),
        Err(OpenFault::NotUrl) => NOT_URL,
        Err(OpenFault::Limits) => LIMITS,
        Err(OpenFault::Memory) => MEMORY,
    }
}

/// Closes a map, and frees what it owns. A closed one stays so.
#[unsafe(no_mangle)]
pub extern "C" fn smap_close(alloc: Global, map: &mut SmapMap)
    ensures { map.new.owner.value ≡ None }
{
    *map = SmapMap::closed(alloc);
}

/// Makes the other handle one of the same map, as for another thread. What it had is freed.
#[unsafe(no_mangle)]
pub extern "C" fn smap_share(alloc: Global, map: &mut SmapMap, other: &mut SmapMap) -> u32
    ensures shared { Shares (held_map map.old.owner.value) (held_map other.old.owner.value)
        (held_map other.new.owner.value) result }
    ensures same { map.new.owner.value ≡ map.old.owner.value }
{
    let Some(it) = mem::replace(map, SmapMap::closed(alloc)).into_box() else {
        return CLOSED;
    };
    let answer = it.shared().again(alloc);
    *map = SmapMap::of(it);
    match answer {
        Ok(again) => {
            *other = SmapMap::of(again);
            OK
        }
        Err(_) => MEMORY,
    }
}

/// Whether the records of two maps are equal, as of two texts that mean one thing.
#[unsafe(no_mangle)]
pub extern "C" fn smap_same(
    alloc: Global,
    one: &mut SmapMap,
    other: &mut SmapMap,
    out: &mut bool,
) -> u32
    ensures compared { Compares (held_map one.old.owner.value) (held_map other.old.owner.value)
        out.old out.new result }
    ensures one { one.new.owner.value ≡ one.old.owner.value }
    ensures other { other.new.owner.value ≡ other.old.owner.value }
{
    let Some(a) = mem::replace(one, SmapMap::closed(alloc)).into_box() else {
        return CLOSED;
    };
    let Some(b) = mem::replace(other, SmapMap::closed(alloc)).into_box() else {
        *one = SmapMap::of(a);
        return CLOSED;
    };
    *out = same(&a.opened().map, &b.opened().map);
    *one = SmapMap::of(a);
    *other = SmapMap::of(b);
    OK
}

/// How many distinct sources, listed sources, listed names and mappings a map has, and one more than the
/// line of its last mapping.
#[repr(C)]
#[derive(Clone, Copy)]
pub struct SmapCounts {
    pub sources: usize,
    pub listed_sources: usize,
    pub names: usize,
    pub mappings: usize,
    pub lines: u32,
}

fn counts_of(map: &SourceMap) -> SmapCounts
    ensures { result ≡ counts_of map.now }
{
    SmapCounts {
        sources: map.source_count(),
        listed_sources: map.listed_count(),
        names: map.name_count(),
        mappings: map.token_count(),
        lines: map.line_count(),
    }
}

/// How much a map holds.
#[unsafe(no_mangle)]
pub extern "C" fn smap_count(alloc: Global, map: &mut SmapMap, out: &mut SmapCounts) -> u32
    ensures counts { Counts (held_map map.old.owner.value) out.old out.new result }
    ensures same { map.new.owner.value ≡ map.old.owner.value }
{
    with_open(alloc, map, out, |opened, out| {
        *out = counts_of(&opened.map);
        OK
    })
}

/// About how many bytes of memory a map takes.
#[unsafe(no_mangle)]
pub extern "C" fn smap_held(alloc: Global, map: &mut SmapMap, out: &mut usize) -> u32
    ensures reported { TakesMemory (held_map map.old.owner.value) out.old out.new result }
    ensures same { map.new.owner.value ≡ map.old.owner.value }
{
    with_open(alloc, map, out, |opened, out| {
        *out = memory_of(&opened.base, &opened.map, opened.written.as_ref());
        OK
    })
}

fn file_of(map: &SourceMap, out: &mut [u8], len: &mut usize) -> u32
    ensures { FileReported map.now out.old out.new len.new result }
{
    report_text(map.file(), out, len)
}

/// The name of the generated file.
#[unsafe(no_mangle)]
pub extern "C" fn smap_file(
    alloc: Global,
    map: &mut SmapMap,
    out: &mut [u8],
    len: &mut usize,
) -> u32
    ensures reported { File (held_map map.old.owner.value) out.old out.new len.new result }
    ensures same { map.new.owner.value ≡ map.old.owner.value }
{
    with_text(alloc, map, out, len, |opened, out, len| {
        file_of(&opened.map, out, len)
    })
}
