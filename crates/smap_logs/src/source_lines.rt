//! Lines of a source by their numbers.
use smap_functions::line_at;
use std::alloc::{AllocError, Global};

/// The lines of a source with these numbers, from 1: those that there are, each from where it begins to where
/// its text ends; and the number of the last one. Nothing behind the last terminator is no line.
pub(crate) fn lines_between(
    alloc: Global,
    source: &[u8],
    first: u32,
    last: u32,
) -> Result<(Vec<(usize, usize)>, u32), AllocError> {
    let mut lines = Vec::new(alloc);
    let mut at = 0;
    for before in 0..last {
        if at >= source.len() {
            return Ok((lines, before));
        }
        let found = line_at(source, at);
        if before + 1 >= first {
            lines.push((at, found.end))?;
        }
        at = found.next;
    }
    Ok((lines, last))
}
