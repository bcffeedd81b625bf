//! The files that agree with the end of a script's name, and in how much of it.
use smap_link::agree_equally;
use std::alloc::{AllocError, Global};

/// A file, by its number, and in how many of its last segments it agrees with a name.
#[derive(Clone, Copy)]
pub(crate) struct Agreement {
    pub(crate) file: usize,
    pub(crate) segments: usize,
}

/// Why a file is the one that counts.
#[derive(Clone, Copy, PartialEq, Eq)]
pub(crate) enum Cause {
    /// It agrees in more segments than each other.
    Most,
    /// Others agree in as many.
    OfEqual,
    /// Others agree in more.
    OfFewer,
}

/// Whether a segment of a name begins here.
fn begins(name: &[u8], at: usize) -> bool {
    match at.checked_sub(1) {
        Some(before) => name.get(before) == Some(&b'/'),
        None => true,
    }
}

/// In how many of its last segments the name of a file agrees with that of a script: in the fewest that agree
/// with it in as many bytes as the whole.
fn segments_of(alloc: Global, script: &[u8], file: &[u8]) -> Result<usize, AllocError> {
    if agree_equally(alloc, script, file, b"")? {
        return Ok(0);
    }
    let mut count = 0usize;
    for at in (0..file.len()).rev() {
        if begins(file, at) {
            count = count.saturating_add(1);
            if agree_equally(alloc, script, file, file.get(at..).unwrap_or(b""))? {
                return Ok(count);
            }
        }
    }
    Ok(count)
}

/// The files with these names that agree with a script's, those first that do in most segments.
pub(crate) fn agreeing(
    alloc: Global,
    script: &[u8],
    files: &[&[u8]],
) -> Result<Vec<Agreement>, AllocError> {
    let mut all = Vec::new(alloc);
    for (file, name) in files.iter().enumerate() {
        let segments = segments_of(alloc, script, name)?;
        if segments > 0 {
            all.push(Agreement { file, segments })?;
        }
    }
    all.sort_by(|a, b| b.segments.cmp(&a.segments).then(a.file.cmp(&b.file)))?;
    Ok(all)
}

/// In how many segments this file agrees.
fn segments_in(all: &[Agreement], file: usize) -> usize {
    match all.iter().find(|agreeing| agreeing.file == file) {
        Some(agreeing) => agreeing.segments,
        None => 0,
    }
}

/// Why this file counts, of all that agree.
pub(crate) fn cause_of(all: &[Agreement], file: usize) -> Cause {
    let own = segments_in(all, file);
    if all.iter().any(|other| other.segments > own) {
        return Cause::OfFewer;
    }
    if all
        .iter()
        .any(|other| other.segments == own && other.file != file)
    {
        return Cause::OfEqual;
    }
    Cause::Most
}
