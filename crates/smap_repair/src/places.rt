//! Places of a text.
use std::alloc::{AllocError, Global};

/// A range of bytes of a text.
#[derive(Clone, Copy, PartialEq, Eq)]
pub(crate) struct Place {
    pub(crate) start: usize,
    pub(crate) end: usize,
}

impl Place {
    pub(crate) fn is_empty(self) -> bool {
        self.end <= self.start
    }

    /// The bytes that a text has there; none if it ends before.
    pub(crate) fn bytes(self, text: &[u8]) -> &[u8] {
        if self.start <= self.end && self.end <= text.len() {
            &text[self.start..self.end]
        } else {
            b""
        }
    }

    /// A copy of the text there; none if it isn't UTF-8.
    pub(crate) fn copied(self, alloc: Global, text: &[u8]) -> Result<Option<String>, AllocError> {
        match str::from_utf8(self.bytes(text)) {
            Ok(text) => Ok(Some(String::from_str(alloc, text)?)),
            Err(_) => Ok(None),
        }
    }
}
