//! Where a text has an escape of half a surrogate pair whose other half isn't next to it.
use crate::halves::{first_six, is_first, is_second};
use std::alloc::{AllocError, Global};

/// What a scan meets at a backslash.
enum Escape {
    /// Half a pair alone.
    Alone,
    /// Another escape, or a whole pair: this many bytes.
    Other(usize),
}

/// What a text begins with, behind whose front there is a backslash.
fn escape_at(text: &[u8]) -> Escape {
    let one = first_six(text);
    if is_second(one) {
        return Escape::Alone;
    }
    if !is_first(one) {
        return Escape::Other(2);
    }
    match text.get(6..) {
        Some(rest) if is_second(first_six(rest)) => Escape::Other(12),
        _ => Escape::Alone,
    }
}

/// Where the halves begin, in order.
pub(crate) fn lone_halves(alloc: Global, text: &[u8]) -> Result<Vec<usize>, AllocError> {
    let mut found = Vec::new(alloc);
    let mut passed = 0;
    for i in 0..text.len() {
        if i < passed || text[i] != b'\\' {
            continue;
        }
        match escape_at(&text[i..]) {
            Escape::Alone => {
                found.push(i)?;
                passed = i.saturating_add(6);
            }
            Escape::Other(count) => passed = i.saturating_add(count),
        }
    }
    Ok(found)
}
