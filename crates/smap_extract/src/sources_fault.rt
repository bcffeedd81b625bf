//! Why the sources of a map aren't changed.
use crate::members::PlaceFault;
use smap_record::{Fault, ReadError};
use smap_system::FileFault;
use std::alloc::{AllocError, Global};

/// Why a map stays as it is.
#[derive(Drop)]
pub enum SourcesFault {
    /// It has a member twice.
    Twice,
    /// The place of a member isn't found.
    Unclear,
    /// It would be refused.
    Refused(Fault),
    /// The URLs of its sources would take more bytes than they may.
    LongUrls,
    /// It would be read otherwise.
    Unread,
    /// It would have more than 268,435,456 bytes.
    TooLong,
    /// Out of memory.
    Memory,
}

impl From<AllocError> for SourcesFault {
    fn from(_error: AllocError) -> SourcesFault {
        SourcesFault::Memory
    }
}

impl From<PlaceFault> for SourcesFault {
    fn from(fault: PlaceFault) -> SourcesFault {
        match fault {
            PlaceFault::Twice => SourcesFault::Twice,
            PlaceFault::Unclear => SourcesFault::Unclear,
            PlaceFault::Memory => SourcesFault::Memory,
        }
    }
}

impl From<ReadError> for SourcesFault {
    fn from(error: ReadError) -> SourcesFault {
        match error {
            ReadError::Refused(fault) => SourcesFault::Refused(fault),
            ReadError::Memory => SourcesFault::Memory,
        }
    }
}

impl From<FileFault> for SourcesFault {
    fn from(fault: FileFault) -> SourcesFault {
        match fault {
            FileFault::Memory => SourcesFault::Memory,
            FileFault::TooLong | FileFault::Read(_) => SourcesFault::TooLong,
        }
    }
}

impl SourcesFault {
    /// What is said of it.
    ///
    /// # Errors
    ///
    /// `AllocError`.
    pub fn text(&self, alloc: Global) -> Result<String, AllocError> {
        let text = match self {
            SourcesFault::Refused(fault) => {
                return format!(in alloc; "it would be refused: {fault}");
            }
            SourcesFault::Twice => "it has a member twice",
            SourcesFault::Unclear => "the place of its sources is unclear",
            SourcesFault::LongUrls => "the URLs of its sources would take too many bytes",
            SourcesFault::Unread => "it would be read otherwise",
            SourcesFault::TooLong => "it would be too long",
            SourcesFault::Memory => "out of memory",
        };
        String::from_str(alloc, text)
    }

    /// The status of a run that meets it.
    pub fn status(&self) -> u8 {
        match self {
            SourcesFault::Memory => 4,
            SourcesFault::TooLong => 3,
            _ => 1,
        }
    }
}
