//! Why a bundle is refused.

use smap_record::Fault;

/// What is wrong with an entry. Of several faults the first in this list is reported.
#[derive(Drop, PartialEq, Eq)]
pub enum EntryFault {
    /// The next line is neither a header nor `trace`.
    Header,
    /// An earlier entry has the same script.
    Repeated,
    /// The base isn't an absolute URL.
    Base,
    /// The input ends within the map, or the byte after the map isn't a line feed.
    CutOff,
    /// The map is refused, for this fault.
    Map(Fault),
}

/// The first fault of a bundle.
#[derive(Drop, PartialEq, Eq)]
pub struct Refusal {
    /// The index of the entry, from 0.
    pub entry: usize,
    /// What is wrong with it.
    pub fault: EntryFault,
}

/// Why a bundle wasn't read. `Memory` may come in place of any other answer.
#[derive(Drop, PartialEq, Eq)]
pub enum BundleFault {
    /// It has this fault, and no earlier one.
    Refused(Refusal),
    /// A header gives a map more than 268,435,456 bytes.
    TooLong,
    /// A read failed, or 4,294,967,296 reads didn't reach the line `trace`.
    Read,
    /// Out of memory, or a URL of 4 GiB or more.
    Memory,
}
