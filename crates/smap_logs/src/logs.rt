//! Logs, read block by block: whole lines as soon as they are there.
ghost use Rattle.std.specs.Prelude.{◌≡◌, ◌<◌, false, true, [], IfOk, OnOk, length};
ghost use Rattle.std.specs.Io.KnownBytes.{Keeps};
ghost use Rattle.smap_logs.specs.Logs.{GoesOn, IsStep, handed, pending, waiting};

use crate::Block;
use smap_system::{Disk, Host, Stop};
use std::alloc::{AllocError, Global};
use std::io::{self, ErrorKind, Read};

const PIECE: usize = 65_536;

/// A log that is read.
#[derive(Drop)]
pub struct Log<R> {
    /// What it is read from.
    pub reader: R,
    buffer: Vec<u8>,
    /// What was read and not passed.
    pub block: Block,
    /// Whether its reader has ended.
    pub ended: bool,
}

/// What a log is read for at one time.
#[derive(Clone, Copy, PartialEq, Eq)]
enum Step {
    Lines,
    More,
    End,
}

/// Makes room for what is read at one time, if there is none.
fn make_room(buffer: &mut Vec<u8>) -> Result<(), AllocError>
    ensures { OnOk result (0 < length buffer.new.items) }
{
    if buffer.is_empty() {
        buffer.resize(PIECE, 0u8)?;
    }
    Ok(())
}

impl<R: Read> Log<R> {
    /// A log of which nothing was read.
    pub fn new(alloc: Global, reader: R) -> Log<R>
    where
        R: Drop,
        ensures reader { result.reader ≡ reader }
        ensures block { result.block ≡ [] }
        ensures ended { result.ended ≡ false }
    {
        Log {
            reader,
            buffer: Vec::new(alloc),
            block: Block::new(alloc),
            ended: false,
        }
    }

    /// The lines that were read; the last of a log may have no end.
    pub fn lines(&self) -> &[u8]
        ensures { result.now ≡ handed self.now }
    {
        if self.ended {
            self.block.all()
        } else {
            self.block.lines()
        }
    }

    /// Reads once.
    fn step<E: Eprint + AllocGlobal, D: Disk>(
        &mut self,
        host: &Host<'_, E, D>,
    ) -> Result<Step, Stop>
        ensures kept { OnOk result (Keeps (waiting R.remaining self.old) (waiting R.remaining self.new)) }
        ensures step { IfOk result (λ step. IsStep R.remaining step self.old self.new) }
    {
        make_room(&mut self.buffer)?;
        match self.reader.read(self.buffer.as_mut_slice()) {
            Ok(0) => {
                self.ended = true;
                Ok(Step::End)
            }
            Ok(count) => {
                self.block.push(&self.buffer[..count])?;
                Ok(if self.block.lines().is_empty() {
                    Step::More
                } else {
                    Step::Lines
                })
            }
            Err(error) if error.kind() == ErrorKind::Interrupted => Ok(Step::More),
            Err(error) => Err(host.fail_for("cannot read the log", &error)),
        }
    }

    /// Goes on to the next lines, if there are more.
    ///
    /// # Errors
    ///
    /// The log can't be read, which was said, or there is no memory.
    pub fn advance<E: Eprint + AllocGlobal, D: Disk>(
        &mut self,
        host: &Host<'_, E, D>,
    ) -> Result<bool, Stop>
        ensures going { IfOk result (λ more. more ≡ true → self.old.ended ≡ false) }
        ensures lines { IfOk result (λ more. GoesOn more (pending R.remaining self.old)
            (pending R.remaining self.new) (handed self.new)) }
    {
        if self.ended {
            return Ok(false);
        }
        self.block.pass();
        for _ in 0..u64::MAX {
            match self.step(host)? {
                Step::Lines => return Ok(true),
                Step::End => return Ok(!self.block.all().is_empty()),
                Step::More => {}
            }
        }
        Err(host.fail(3, "cannot read the log"))
    }
}

/// A reader that keeps why it failed, and the last byte that was read.
#[derive(Drop)]
pub struct Heeded<R> {
    /// What is read.
    pub reader: R,
    fault: Option<io::Error>,
    last: Option<u8>,
}

impl<R> Heeded<R> {
    /// A reader that hasn't failed, of which nothing was read.
    pub fn new(reader: R) -> Heeded<R>
        ensures { result.reader ≡ reader }
    {
        Heeded {
            reader,
            fault: None,
            last: None,
        }
    }

    /// Whether what was read ends within a line.
    pub fn ends_within_line(&self) -> bool {
        match self.last {
            Some(b) => b != b'\n',
            None => false,
        }
    }

    /// Why it failed last, if it did.
    pub fn fault(&self) -> Option<io::Error> {
        self.fault
    }
}

impl<R: Read> Read for Heeded<R> {
    ghost remaining = { λ h. R.remaining h.reader };

    fn read(&mut self, buf: &mut [u8]) -> io::Result<usize> {
        let answer = self.reader.read(buf);
        match &answer {
            Ok(count) => {
                if let Some(b) = buf.get(..*count).and_then(|bytes| bytes.last()) {
                    self.last = Some(*b);
                }
            }
            Err(error) => self.fault = Some(*error),
        }
        answer
    }
}
