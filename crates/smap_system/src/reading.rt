//! Files that are read whole.
ghost use Rattle.std.specs.Prelude.{◌≡◌, ◌≤◌, IfOk, IfSome, take, vec_len};
ghost use Rattle.smap_system.specs.Held.{IsHeld};

use crate::disk::Disk;
use std::alloc::Global;
use std::io::{self, ErrorKind, Read};

/// The longest file that the tools read, in bytes, which is the longest input of all.
pub const LIMIT: u64 = smap_io::LIMIT as u64;

/// Why a file isn't read.
#[derive(Drop)]
pub enum FileFault {
    /// It has more bytes than is allowed.
    TooLong,
    /// It can't be read.
    Read(io::Error),
    /// Out of memory.
    Memory,
}

fn fault_of(error: io::Error) -> FileFault {
    if error.kind() == ErrorKind::OutOfMemory {
        FileFault::Memory
    } else {
        FileFault::Read(error)
    }
}

/// Refuses a file whose size is above this.
fn check_size<D: Disk>(disk: &D, path: &str, most: u64) -> Result<(), FileFault> {
    match disk.size(path) {
        Ok(size) if size > most => Err(FileFault::TooLong),
        Ok(_) => Ok(()),
        Err(error) => Err(fault_of(error)),
    }
}

/// What a reader has, but no more than this.
fn read_up_to<R: Read + Drop>(alloc: Global, reader: R, most: u64) -> io::Result<Vec<u8>>
    ensures { IfOk result (λ bytes. IfSome (R.remaining reader) (λ left. bytes.items ≡ take most left)) }
{
    let mut bytes = Vec::new(alloc);
    reader.take(most).read_to_end(&mut bytes)?;
    Ok(bytes)
}

/// A file's bytes, refused as too long above `most` bytes, before anything beyond is read. A file that has
/// more than its size says, as a pipe has, is read up to one byte beyond.
///
/// # Errors
///
/// `TooLong`, `Read`, `Memory`.
pub fn read_file<D: Disk>(
    alloc: Global,
    disk: &D,
    path: &str,
    most: u64,
) -> Result<Vec<u8>, FileFault>
    ensures bound { IfOk result (λ bytes. vec_len bytes ≤ most) }
    ensures held { IfOk result (λ bytes. IsHeld (D.held disk.now) path.now bytes.items) }
{
    check_size(disk, path, most)?;
    let bytes = match disk.open(path) {
        Ok(reader) => read_up_to(alloc, reader, most.saturating_add(1)),
        Err(error) => Err(error),
    };
    match bytes {
        Ok(bytes) if bytes.len() as u64 > most => Err(FileFault::TooLong),
        Ok(bytes) => Ok(bytes),
        Err(error) => Err(fault_of(error)),
    }
}
