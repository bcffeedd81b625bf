//! A map is opened if its sources take at most so many bytes.
ghost use Rattle.smap_c.specs.Maps.{OpensAgainst, OpensWithin, OpensIntoWithin};
ghost use Rattle.smap_c.specs.Faults.{IsWhole};
ghost use Rattle.smap_c.specs.Handles.{held_map};

use crate::faults::{SmapFault, report_fault};
use crate::handles::SmapMap;
use crate::maps::{OpenFault, Shared, SmapLimits, limits_of};
use crate::opened::Opened;
use smap_c_answers::{LIMITS, MEMORY, NOT_URL, OK, URL_BYTES};
use smap_record::{Base, BaseFault, Limits, ReadError, SourceMap};
use std::alloc::Global;
use std::str;

/// The map of these bytes against this base; none if its sources take more bytes than these.
fn open_against(
    alloc: Global,
    bytes: &[u8],
    base: Base,
    limits: Limits,
    most: usize,
) -> Result<Option<Opened>, OpenFault>
    ensures { OpensAgainst bytes.now base limits most result }
{
    match SourceMap::from_slice_within(alloc, bytes, &base, limits, most) {
        Ok(Some((map, written))) => match Opened::new(alloc, base, map, Some(written)) {
            Ok(opened) => Ok(Some(opened)),
            Err(_) => Err(OpenFault::Memory),
        },
        Ok(None) => Ok(None),
        Err(ReadError::Refused(fault)) => Err(OpenFault::Refused(fault)),
        Err(ReadError::Memory) => Err(OpenFault::Memory),
    }
}

/// The map of these bytes against the base that the text is; none if its sources take more bytes than these.
#[tactic(auto, using(crate::proofs::MapLemmas::against_text))]
fn open_within(
    alloc: Global,
    bytes: &[u8],
    base: &[u8],
    limits: &SmapLimits,
    most: usize,
) -> Result<Option<Opened>, OpenFault>
    ensures { OpensWithin bytes.now base.now limits.now most result }
{
    let Some(limits) = limits_of(limits) else {
        return Err(OpenFault::Limits);
    };
    let Ok(text) = str::from_utf8(base) else {
        return Err(OpenFault::NotUrl);
    };
    match Base::new(alloc, text) {
        Ok(base) => open_against(alloc, bytes, base, limits, most),
        Err(BaseFault::NotUrl) => Err(OpenFault::NotUrl),
        Err(BaseFault::Memory) => Err(OpenFault::Memory),
    }
}

/// Opens a map whose sources take at most so many bytes.
#[unsafe(no_mangle)]
pub extern "C" fn smap_open_within(
    alloc: Global,
    map: &mut SmapMap,
    bytes: &[u8],
    base: &[u8],
    limits: &SmapLimits,
    url_bytes: usize,
    fault: &mut SmapFault,
) -> u32
    ensures opened { OpensIntoWithin bytes.now base.now limits.now url_bytes (held_map map.old.owner.value)
        (held_map map.new.owner.value) fault.old fault.new result }
    ensures whole { IsWhole fault.new result }
{
    match open_within(alloc, bytes, base, limits, url_bytes) {
        Ok(Some(opened)) => match Shared::new(alloc, opened) {
            Ok(held) => {
                *map = SmapMap::of(held);
                OK
            }
            Err(_) => MEMORY,
        },
        Ok(None) => URL_BYTES,
        Err(OpenFault::Refused(refused)) => report_fault(alloc, &refused, fault),
        Err(OpenFault::NotUrl) => NOT_URL,
        Err(OpenFault::Limits) => LIMITS,
        Err(OpenFault::Memory) => MEMORY,
    }
}
