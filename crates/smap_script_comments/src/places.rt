//! Places of a text, and what becomes of a text when its bytes there are replaced.
ghost use Rattle.std.specs.Prelude.{◌≡◌, ◌+◌, ◌≤◌, IfOk, length};
ghost use Rattle.smap_script_comments.specs.Comments as spec;

use std::alloc::{AllocError, Global};

/// So many bytes at a place of a text.
#[derive(Clone, Copy)]
pub(crate) struct Place {
    pub(crate) at: usize,
    pub(crate) size: usize,
}

impl Place {
    /// What a text has there.
    pub(crate) fn bytes(self, text: &[u8]) -> &[u8]
        requires { self.at + self.size ≤ length text.now }
        ensures { result.now ≡ spec.cut text.now self.at self.size }
    {
        &text[self.at..self.at + self.size]
    }

    /// The text with other bytes there.
    pub(crate) fn replaced(
        self,
        alloc: Global,
        text: &[u8],
        made: &[u8],
    ) -> Result<Vec<u8>, AllocError>
        requires { self.at + self.size ≤ length text.now }
        ensures { IfOk result (λ new. new.items ≡ spec.replaced text.now self.at self.size made.now) }
    {
        let mut new = Vec::from_slice(alloc, &text[..self.at])?;
        new.extend_from_slice(made)?;
        new.extend_from_slice(&text[self.at + self.size..])?;
        Ok(new)
    }
}
