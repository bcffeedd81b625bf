//! Why a mappings string is refused, and running out of memory.
ghost use Rattle.std.specs.Prelude.{◌≡◌};

use smap_vlq::NumberFault;
use std::alloc::AllocFailed;

/// Memory ran out.
pub use std::alloc::AllocError as Memory;

/// Where a segment is in a mappings string. Both numbers count from 0, and stay at 4,294,967,295 once they
/// are there.
#[derive(Clone, Copy, Debug, PartialEq, Eq)]
pub struct SegmentPlace {
    /// The line of the string, without the start of a section added.
    pub line: u32,
    /// The index of the segment on its line.
    pub segment: u32,
}

/// What is wrong with a segment. Of several faults the first in this list is reported.
#[derive(Clone, Copy, Debug, PartialEq, Eq)]
pub enum SegmentKind {
    /// The segment is empty: a comma has nothing before or after it.
    Empty,
    /// A number is invalid: which one, from 1, where 255 stands for 255 or more; and why.
    Number(u8, NumberFault),
    /// There are this many numbers, not 1, 4 or 5; 255 stands for 255 or more.
    Count(u8),
    /// The generated line, after placing, isn't below the limit on lines.
    GeneratedLine,
    /// The generated column is negative, or after placing above 2,147,483,647.
    Column,
    /// The source index is negative, or not below the number of sources.
    Source,
    /// The original line is negative, or above 2,147,483,647.
    OriginalLine,
    /// The original column is negative, or above 2,147,483,647.
    OriginalColumn,
    /// The name index is negative, or not below the number of names.
    Name,
}

/// Why a mappings string has no tokens.
#[derive(Clone, Copy, Debug, PartialEq, Eq)]
pub enum MappingsError {
    /// The first invalid segment, in the order of the string: its place, and what is wrong with it.
    Fault(SegmentPlace, SegmentKind),
    /// Out of memory. This says nothing about the string.
    Memory,
}

impl<T: Drop> From<AllocFailed<T>> for MappingsError {
    ghost use Rattle.smap_mappings.specs.declared.error.MappingsError.TheVariants as errors;

    ghost from_gives = { λ _ e. e ≡ errors.Memory };

    fn from(_failed: AllocFailed<T>) -> MappingsError {
        MappingsError::Memory
    }
}

impl From<Memory> for MappingsError {
    ghost use Rattle.smap_mappings.specs.declared.error.MappingsError.TheVariants as errors;

    ghost from_gives = { λ _ e. e ≡ errors.Memory };

    fn from(_failed: Memory) -> MappingsError {
        MappingsError::Memory
    }
}
