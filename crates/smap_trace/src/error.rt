//! Why the translation of a trace was given up.
use thiserror::Error;

/// Why the translation of a trace was given up.
#[derive(Clone, Copy, Debug, PartialEq, Eq, Error)]
pub enum TraceError {
    /// A read failed, or 4,294,967,296 reads didn't reach the end.
    #[error("read failed")]
    Read,
    /// A write or the flush failed.
    #[error("write failed")]
    Write,
    /// Out of memory.
    #[error("out of memory")]
    Memory,
}
