//! A writer that keeps why it failed.
ghost use Rattle.std.specs.Prelude.{◌≡◌, None, OnOk};
ghost use Rattle.std.specs.Io.{WritesAtMost};
ghost use Rattle.std.specs.Io.KnownBytes.{Appends, Keeps, WriteAppends};
ghost use Rattle.smap_system.specs.Watched.{inner_of, noted};

use std::io::{self, Write};

/// A writer that keeps why it failed last.
#[derive(Drop)]
pub struct Watched<W> {
    inner: W,
    fault: Option<io::Error>,
}

impl<W> Watched<W> {
    /// A writer that hasn't failed yet.
    pub fn new(inner: W) -> Watched<W>
        ensures inner { inner_of result ≡ inner }
        ensures fault { result.fault ≡ None }
    {
        Watched { inner, fault: None }
    }

    /// Why it failed last, if it did.
    pub fn fault(&self) -> Option<io::Error>
        ensures { result ≡ self.now.fault }
    {
        self.fault
    }

    /// The writer itself.
    pub fn into_inner(self) -> W
        ensures { result ≡ inner_of self }
    {
        let Watched { inner, fault: _ } = self;
        inner
    }

    /// Keeps the error of this answer, if it is one.
    fn note<T: Copy>(&mut self, answer: io::Result<T>) -> io::Result<T>
        ensures answer { result ≡ answer }
        ensures inner { inner_of self.new ≡ inner_of self.old }
        ensures fault { self.new.fault ≡ noted self.old.fault answer }
    {
        if let Err(error) = &answer {
            self.fault = Some(*error);
        }
        answer
    }
}

impl<W: Write> Write for Watched<W> {
    ghost contents = { λ w. W.contents (inner_of w) };

    fn write(&mut self, bytes: &[u8]) -> io::Result<usize>
        ensures bound { WritesAtMost result bytes.now }
        ensures bytes { WriteAppends (W.contents (inner_of self.old)) (W.contents (inner_of self.new)) result
            bytes.now }
        ensures fault { self.new.fault ≡ noted self.old.fault result }
    {
        let answer = self.inner.write(bytes);
        self.note(answer)
    }

    fn flush(&mut self) -> io::Result<()>
        ensures bytes { Keeps (W.contents (inner_of self.old)) (W.contents (inner_of self.new)) }
        ensures fault { self.new.fault ≡ noted self.old.fault result }
    {
        let answer = self.inner.flush();
        self.note(answer)
    }

    fn write_all(&mut self, bytes: &[u8]) -> io::Result<()>
        ensures bytes { OnOk result
            (Appends (W.contents (inner_of self.old)) (W.contents (inner_of self.new)) bytes.now) }
        ensures fault { self.new.fault ≡ noted self.old.fault result }
    {
        let answer = self.inner.write_all(bytes);
        self.note(answer)
    }
}
