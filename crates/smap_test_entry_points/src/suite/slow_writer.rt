//! A writer that takes a few bytes a call and fails at a given call.
ghost use Rattle.std.specs.Prelude.{◌≡◌, Some, []};

use std::alloc::Global;
use std::io::{self, ErrorKind, Write};

/// Takes at most `step` bytes a call, none where `step` is 0. Call number `fails_at`, from 1, is
/// interrupted and takes nothing; 0 means none. A flush is a call too.
#[derive(Drop)]
pub(crate) struct SlowWriter {
    /// What was written.
    pub(crate) bytes: Vec<u8>,
    step: usize,
    fails_at: u64,
    /// How many writes and flushes there were.
    pub(crate) calls: u64,
    /// How many flushes there were.
    pub(crate) flushes: u64,
}

impl SlowWriter {
    /// A writer that holds nothing and hasn't been called yet.
    pub(crate) fn new(alloc: Global, step: usize, fails_at: u64) -> Self
        ensures bytes { result.bytes.items ≡ [] }
        ensures step { result.step ≡ step }
        ensures fails_at { result.fails_at ≡ fails_at }
        ensures calls { result.calls ≡ 0 }
        ensures flushes { result.flushes ≡ 0 }
    {
        SlowWriter {
            bytes: Vec::new(alloc),
            step,
            fails_at,
            calls: 0,
            flushes: 0,
        }
    }

    fn count_call(&mut self) -> io::Result<()>
        ensures { self.new.bytes ≡ self.old.bytes }
    {
        self.calls = self.calls.saturating_add(1);
        if self.calls == self.fails_at {
            return Err(io::Error::from(ErrorKind::Interrupted));
        }
        Ok(())
    }
}

impl Write for SlowWriter {
    ghost contents = { λ w. Some w.bytes.items };

    fn write(&mut self, buf: &[u8]) -> io::Result<usize> {
        self.count_call()?;
        let n = self.step.min(buf.len());
        self.bytes.extend_from_slice(&buf[..n])?;
        Ok(n)
    }

    fn flush(&mut self) -> io::Result<()> {
        self.flushes = self.flushes.saturating_add(1);
        self.count_call()
    }
}
