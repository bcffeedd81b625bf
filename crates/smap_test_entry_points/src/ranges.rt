//! Where in a map's text its fault is, for each map on standard input. `tests/ranges/run` compares that with
//! what a scanner of its own finds.
//!
//! A map is a line with its length in bytes, and the map. The limits are small, so that short maps exceed
//! them: 20 sources or names, and 100 lines.
ghost use Rattle.std.specs.Prelude.{◌<◌, IfSome, length};

use smap_fault_places::{TextRange, point_of, range_of};
use smap_record::{Base, Fault, Limits, ReadError, SourceMap};
use std::alloc::{AllocError, Global};
use std::io;

const BASE: &str = "http://h/m/out.js.map";

/// The first map of the input, and what follows it.
fn first_map(input: &[u8]) -> Option<(&[u8], &[u8])>
    ensures { IfSome result (λ r. length r.1.now < length input.now) }
{
    let line = input.iter().position(|b| *b == b'\n')?;
    let len = str::from_utf8(&input[..line]).ok()?.parse::<usize>().ok()?;
    let rest = &input[line + 1..];
    if rest.len() < len {
        None
    } else {
        Some((&rest[..len], &rest[len..]))
    }
}

/// Prints a range and its two ends as points, and the fault.
fn print_range(rt: &HostRuntime, map: &[u8], range: TextRange, fault: &Fault) -> io::Result<()> {
    let start = point_of(map, range.start);
    let end = point_of(map, range.end);
    println!(rt;
        "{} {} {}:{} {}:{} {fault}",
        range.start, range.end, start.line, start.column, end.line, end.column
    )
}

/// Prints where the fault of a map is.
fn print_fault(rt: &HostRuntime, map: &[u8], fault: &Fault) -> io::Result<()> {
    match range_of(rt.alloc(), map, fault)? {
        Some(range) => print_range(rt, map, range, fault),
        None => println!(rt; "none {fault}"),
    }
}

/// The fault of a map, if it has one.
fn fault_of(
    alloc: Global,
    map: &[u8],
    base: &Base,
    limits: Limits,
) -> Result<Option<Fault>, AllocError> {
    let read = SourceMap::from_slice(alloc, map, base, limits);
    match read {
        Ok(_map) => Ok(None),
        Err(ReadError::Refused(fault)) => Ok(Some(fault)),
        Err(ReadError::Memory) => Err(AllocError),
    }
}

/// Prints where the fault of a map is, or that it has none.
fn print_map(rt: &HostRuntime, map: &[u8], base: &Base, limits: Limits) -> io::Result<()> {
    match fault_of(rt.alloc(), map, base, limits)? {
        Some(fault) => print_fault(rt, map, &fault),
        None => println!(rt; "no fault"),
    }
}

fn print_all(rt: &HostRuntime, input: &[u8], base: &Base, limits: Limits) -> io::Result<()> {
    let mut rest = input;
    'maps: while let Some((map, after)) = first_map(rest) {
        print_map(rt, map, base, limits)?;
        rest = after;
    }
    Ok(())
}

/// Prints where the faults of these maps are, and answers the exit status.
pub(crate) fn ranges(rt: &HostRuntime, input: &[u8]) -> u8 {
    let Some(limits) = Limits::new(20, 100) else {
        return 2;
    };
    let Ok(base) = Base::new(rt.alloc(), BASE) else {
        return 2;
    };
    match print_all(rt, input, &base, limits) {
        Ok(()) => 0,
        Err(_) => 1,
    }
}
