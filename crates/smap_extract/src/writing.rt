//! The files that are written.
use crate::files::{Fate, below, make_target, put_file};
use crate::gathering::{Extraction, path_text};
use crate::path::SourcePath;
use crate::placing::placed;
use indexmap::IndexSet;
use smap_system::{Disk, Host, Stop};
use std::io::{self, ErrorKind};

/// How many files there are now.
#[derive(Clone, Copy, PartialEq, Eq)]
pub struct Written {
    /// Those that were written.
    pub written: u64,
    /// Those that were there, with the same bytes.
    pub kept: u64,
    /// The exit status: 1 where a file with other bytes was there, 3 where one can't be written.
    pub status: u8,
}

impl Written {
    fn with(self, fate: Option<Fate>) -> Written {
        let Written {
            written,
            kept,
            status,
        } = self;
        let (more, same, now) = match fate {
            Some(Fate::Written) => (1, 0, 0),
            Some(Fate::Kept) => (0, 1, 0),
            Some(Fate::Differs) => (0, 0, 1),
            None => (0, 0, 3),
        };
        Written {
            written: written.saturating_add(more),
            kept: kept.saturating_add(same),
            status: status.max(now),
        }
    }
}

/// Why a file can't be written, which is said, unless memory ran out.
fn refuse<E: Eprint + AllocGlobal, D: Disk>(
    host: &Host<'_, E, D>,
    file: &str,
    error: &io::Error,
) -> Result<(), Stop> {
    if error.kind() == ErrorKind::OutOfMemory {
        return Err(Stop::Memory);
    }
    let what = format!(in host.alloc(); "cannot write {file}")?;
    let _ = host.fail_for(what.as_str(), error);
    Ok(())
}

/// Says that a path has a number, since another source has it without one.
fn say_number<E: Eprint + AllocGlobal, D: Disk>(
    host: &Host<'_, E, D>,
    wanted: &[u8],
    file: &str,
) -> Result<(), Stop> {
    let alloc = host.alloc();
    let wanted = String::from_utf8_lossy(alloc, wanted)?;
    let wanted = wanted.as_str();
    let text = format!(in alloc; "in place of {wanted}, which another source takes")?;
    host.say_of(file, text.as_str());
    Ok(())
}

/// The name of a file below a folder; none where it has none, which is said.
fn file_at<E: Eprint + AllocGlobal, D: Disk>(
    host: &Host<'_, E, D>,
    folder: &str,
    path: &SourcePath,
) -> Result<Option<String>, Stop> {
    let text = path_text(host.alloc(), path)?;
    match below(host.alloc(), folder, &text) {
        Ok(file) => Ok(Some(file)),
        Err(error) => {
            refuse(host, folder, &error)?;
            Ok(None)
        }
    }
}

/// Writes a file, and says what is to be said of it; none where it can't be written.
fn write_file<E: Eprint + AllocGlobal, D: Disk>(
    host: &Host<'_, E, D>,
    folder: &str,
    path: &SourcePath,
    content: &[u8],
    made: &mut IndexSet<Vec<u8>>,
) -> Result<Option<Fate>, Stop> {
    let Some(file) = file_at(host, folder, path)? else {
        return Ok(None);
    };
    match put_file(
        host.alloc(),
        host.disk,
        folder,
        path,
        file.as_str(),
        content,
        made,
    ) {
        Ok(fate) => {
            if fate == Fate::Differs {
                host.say_of(file.as_str(), "it has other bytes, and stays as it is");
            }
            Ok(Some(fate))
        }
        Err(error) => {
            refuse(host, file.as_str(), &error)?;
            Ok(None)
        }
    }
}

/// Says which paths have a number.
fn say_numbers<E: Eprint + AllocGlobal, D: Disk>(
    host: &Host<'_, E, D>,
    folder: &str,
    wanted: &[SourcePath],
    paths: &[SourcePath],
) -> Result<(), Stop> {
    for (before, path) in wanted.iter().zip(paths.iter()) {
        if before.name.as_slice() != path.name.as_slice() {
            let text = path_text(host.alloc(), before)?;
            if let Some(file) = file_at(host, folder, path)? {
                say_number(host, &text, file.as_str())?;
            }
        }
    }
    Ok(())
}

/// Writes the contents that were gathered as files below a folder, which is made if it isn't there. Files
/// that are there stay as they are. What can't be written is said, and the others are written.
///
/// # Errors
///
/// With status 3 where the folder can't be made, and where memory ran out.
pub fn write_files<E: Eprint + AllocGlobal, D: Disk>(
    host: &Host<'_, E, D>,
    folder: &str,
    extraction: &Extraction,
) -> Result<Written, Stop> {
    let paths = placed(host.alloc(), &extraction.paths)?;
    if let Err(error) = make_target(host.disk, folder) {
        return Err(host.fail_for(folder, &error));
    }
    say_numbers(host, folder, &extraction.paths, &paths)?;
    let mut made = IndexSet::new(host.alloc());
    let mut written = Written {
        written: 0,
        kept: 0,
        status: 0,
    };
    for (path, piece) in paths.iter().zip(extraction.pieces.as_slice().iter()) {
        let fate = write_file(host, folder, path, &piece.content, &mut made)?;
        written = written.with(fate);
    }
    Ok(written)
}
