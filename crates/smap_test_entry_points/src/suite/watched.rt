//! A reader that sees how much a writer holds by the time of each read, as someone who follows a growing
//! log does.

use std::alloc::Global;
use std::cell::Cell;
use std::io::{self, Read, Write};

/// Takes all bytes of each call, and shows how many it holds.
#[derive(Drop)]
pub(crate) struct WatchedWriter<'a> {
    /// What was written.
    pub(crate) bytes: Vec<u8>,
    shown: &'a Cell<usize>,
}

impl<'a> WatchedWriter<'a> {
    /// A writer that holds nothing, and shows in the cell how many bytes it holds after each call.
    pub(crate) fn new(alloc: Global, shown: &'a Cell<usize>) -> Self {
        WatchedWriter {
            bytes: Vec::new(alloc),
            shown,
        }
    }
}

impl Write for WatchedWriter<'_> {
    fn write(&mut self, buf: &[u8]) -> io::Result<usize> {
        self.bytes.extend_from_slice(buf)?;
        self.shown.set(self.bytes.len());
        Ok(buf.len())
    }

    fn flush(&mut self) -> io::Result<()> {
        Ok(())
    }
}

/// Gives one piece a call, then the end. What doesn't fit into the buffer is lost.
#[derive(Drop)]
pub(crate) struct WatchingReader<'a> {
    pieces: &'a [&'a str],
    given: usize,
    shown: &'a Cell<usize>,
    /// What the cell showed as each read began.
    pub(crate) seen: Vec<usize>,
}

impl<'a> WatchingReader<'a> {
    /// A reader of these pieces, which looks at the cell that a writer sets.
    pub(crate) fn new(alloc: Global, pieces: &'a [&'a str], shown: &'a Cell<usize>) -> Self {
        WatchingReader {
            pieces,
            given: 0,
            shown,
            seen: Vec::new(alloc),
        }
    }
}

impl Read for WatchingReader<'_> {
    fn read(&mut self, buf: &mut [u8]) -> io::Result<usize> {
        self.seen.push(self.shown.get())?;
        let Some(piece) = self.pieces.get(self.given) else {
            return Ok(0);
        };
        self.given = self.given.saturating_add(1);
        let n = piece.len().min(buf.len());
        buf[..n].copy_from_slice(&piece.as_bytes()[..n]);
        Ok(n)
    }
}
