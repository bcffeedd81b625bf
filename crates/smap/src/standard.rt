//! The standard streams as `smap-trace`, `smap-maps` and `smap-view` have them. A descriptor that is closed
//! is told by its name in `/proc`, before anything is opened that could take its number; where there is no
//! `/proc`, none is taken for closed.
use smap_system::{Disk, Kind};
use smap_trace_run::{Input, InputKind};
use std::alloc::Global;
use std::io::{IsTerminal, Stdin};

fn is_closed<D: Disk>(disk: &D, name: &str) -> bool {
    disk.kind(name) == Kind::Missing && disk.kind("/proc/self/fd") == Kind::Folder
}

/// Whether standard output is closed.
pub fn is_output_closed<D: Disk>(disk: &D) -> bool {
    is_closed(disk, "/proc/self/fd/1")
}

/// Files that take the numbers of standard descriptors that are closed, so that nothing that is opened later
/// is taken for standard error.
pub fn placeholders<D: Disk>(alloc: Global, disk: &D) -> Vec<D::Reader> {
    let mut held = Vec::new(alloc);
    for _ in 0..3 {
        if !is_closed(disk, "/proc/self/fd/2") {
            break;
        }
        if let Ok(file) = disk.open("/dev/null") {
            let _ = held.push(file);
        }
    }
    held
}

/// Standard input, and what it is.
pub fn input<D: Disk>(rt: &HostRuntime, disk: &D) -> Input<Stdin> {
    let reader = rt.stdin();
    let kind = if is_closed(disk, "/proc/self/fd/0") {
        InputKind::Closed
    } else if reader.is_terminal() {
        InputKind::Terminal
    } else if disk.kind("/proc/self/fd/0") == Kind::File {
        InputKind::File
    } else {
        InputKind::Other
    };
    Input { reader, kind }
}
