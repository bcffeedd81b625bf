//! A log that is read in pieces, collected into whole lines.
ghost use Rattle.std.specs.Prelude.{◌≡◌, ◌++◌, [], OnErr, OnOk};
ghost use Rattle.smap_logs.specs.Lines.{IsWhole, open_line, whole_lines};

use memchr::memrchr;
use std::alloc::{AllocError, Global};
use std::marker::Model;

/// Collects what is read of a log into whole lines.
#[derive(Drop)]
pub struct Block {
    bytes: Vec<u8>,
    /// How many bytes at the front are whole lines.
    whole: usize,
}

impl Model for Block {
    ghost use Rattle.std.specs.Prelude.{List, ℕ};
    ghost use Rattle.smap_logs.specs.Lines.{IsWhole};

    ghost Value = { List ℕ };

    ghost view = { λ b. b.bytes.items };

    ghost invariant = { λ b. IsWhole b.bytes.items b.whole };
}

/// How many bytes of a text are whole lines.
fn whole_in(bytes: &[u8]) -> usize
    ensures { IsWhole bytes.now result }
{
    match memrchr(b'\n', bytes) {
        Some(at) => at + 1,
        None => 0,
    }
}

impl Block {
    /// A block that holds nothing.
    pub fn new(alloc: Global) -> Block
        ensures { result ≡ [] }
    {
        Block {
            bytes: Vec::new(alloc),
            whole: 0,
        }
    }

    /// Adds what was read. Only the new bytes are searched, so the time is proportional to their length.
    ///
    /// # Errors
    ///
    /// `AllocError`, and the block is as it was.
    pub fn push(&mut self, bytes: &[u8]) -> Result<(), AllocError>
        ensures ok { OnOk result (self.new ≡ self.old ++ bytes.now) }
        ensures err { OnErr result (self.new ≡ self.old) }
    {
        let before = self.bytes.len();
        self.bytes.extend_from_slice(bytes)?;
        let whole = whole_in(bytes);
        if whole > 0 {
            self.whole = before + whole;
        }
        Ok(())
    }

    /// The lines that are whole, each with its line feed; empty if there is none.
    pub fn lines(&self) -> &[u8]
        ensures { result.now ≡ whole_lines self.now }
    {
        &self.bytes[..self.whole]
    }

    /// All that waits, whole or not.
    pub fn all(&self) -> &[u8]
        ensures { result.now ≡ self.now }
    {
        &self.bytes
    }

    /// Takes the whole lines away: what is left is a line without its end, maybe empty.
    pub fn pass(&mut self)
        ensures { self.new ≡ open_line self.old }
    {
        let rest = self.bytes.len() - self.whole;
        self.bytes.rotate_left(self.whole);
        self.bytes.truncate(rest);
        self.whole = 0;
    }
}
