//! What lines are written to.
ghost use Rattle.std.specs.Prelude.{◌≡◌, OnOk};
ghost use Rattle.std.specs.Io.KnownBytes.{Appends};
ghost use Rattle.smap_trace_run.specs.OutputView.{contents_of};

use smap_system::{Disk, Host, Stop, Watched};
use std::io::{self, Write};

/// What lines are written to. The writer is lent out whole while a log is translated.
#[derive(Drop)]
pub struct Output<W> {
    pub(crate) writer: Option<Watched<W>>,
}

impl<W> Output<W> {
    /// Why it failed last, if it did.
    pub(crate) fn fault(&self) -> Option<io::Error> {
        match &self.writer {
            Some(writer) => writer.fault(),
            None => None,
        }
    }
}

impl<W: Write + Drop> Output<W> {
    /// Over a writer that has not failed yet.
    pub fn new(writer: W) -> Output<W>
        ensures { contents_of W.contents result ≡ W.contents writer }
    {
        Output {
            writer: Some(Watched::new(writer)),
        }
    }

    /// Writes a text, and flushes it.
    pub(crate) fn write<E: Eprint + AllocGlobal, D: Disk>(
        &mut self,
        host: &Host<'_, E, D>,
        text: &[u8],
    ) -> Result<(), Stop>
        ensures { OnOk result
            (Appends (contents_of W.contents self.old) (contents_of W.contents self.new) text.now) }
    {
        match &mut self.writer {
            Some(writer) => host.write(text, writer),
            None => Err(host.fail(3, "cannot write")),
        }
    }
}
