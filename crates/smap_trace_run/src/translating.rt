//! Lines of a log, translated and written.
ghost use Rattle.std.specs.Prelude.{◌≡◌, ◌-◌, ◌<◌, ◌^◌, OnOk, Some, false};
ghost use Rattle.smap_io.specs.Device.{device_failures, has_ended};
ghost use Rattle.smap_io.specs.Streams.{streams};
ghost use Rattle.smap_trace.specs.Streaming.{TranslatesBy};
ghost use Rattle.smap_trace_run.specs.Alone.{fate_meant};
ghost use Rattle.smap_trace_run.specs.Alone as spec;
ghost use Rattle.smap_trace_run.specs.OutputView.{contents_of};
ghost use Rattle.smap_trace_run.specs.Written.{AreNamed, IsBegun, IsTranslatedIn};

use crate::alone::script_alone;
use crate::decorating::{Lookup, Style, decorate};
use crate::output::Output;
use crate::tracing::Run;
use smap_io::Device;
use smap_logs::{Heeded, Log};
use smap_map_files::Wanted;
use smap_record::SourceMap;
use smap_system::{Disk, Host, Stop};
use smap_trace::{Counts, LineMode, Scripts, TraceError, translate_alone_in, translate_in};
use std::alloc::Global;
use std::io::{Read, Write};
use std::sync::Arc;

/// What became of a log's lines.
#[derive(Clone, Copy, PartialEq, Eq)]
pub(crate) struct Tally {
    pub(crate) lines: u64,
    pub(crate) changed: u64,
    /// Whether the last log ended within a line.
    ends_within_line: bool,
}

impl Tally {
    pub(crate) fn none() -> Tally {
        Tally {
            lines: 0,
            changed: 0,
            ends_within_line: false,
        }
    }

    fn add(&mut self, counts: Counts, ends_within_line: bool) {
        self.lines = self.lines.saturating_add(counts.lines);
        self.changed = self
            .changed
            .saturating_add(counts.translated)
            .saturating_add(counts.dropped);
        self.ends_within_line = ends_within_line;
    }
}

/// Translates lines by these scripts.
fn translate_lines<R: Read, W: Write>(
    alloc: Global,
    reader: &mut Device<R>,
    scripts: &Scripts<Arc<SourceMap>>,
    style: &Style<'_>,
    wanted: &Wanted<'_>,
    writer: &mut Device<W>,
) -> Result<Counts, TraceError>
    requires reads { device_failures reader.old < 2 ^ 64 - 1 }
    requires writes { device_failures writer.old < 2 ^ 64 - 1 }
    requires not_ended { has_ended reader.old ≡ false }
    ensures { TranslatesBy
        (fate_meant (spec.script_alone wanted.now) style.now.mode scripts.now style.now.hide)
        (streams R.remaining reader.old reader.new W.contents writer.old writer.new) result }
{
    let (mode, hide) = (style.mode, style.hide);
    match script_alone(wanted) {
        Some(unnamed) => {
            let mode = LineMode {
                mode,
                hide,
                unnamed,
            };
            translate_alone_in(alloc, reader, scripts, mode, writer)
        }
        None => translate_in(alloc, reader, scripts, mode, hide, writer),
    }
}

/// Why a translation was given up.
fn fail_translating<E: Eprint + AllocGlobal, D: Disk, R, W>(
    host: &Host<'_, E, D>,
    error: TraceError,
    reader: &Heeded<R>,
    output: &Output<W>,
) -> Stop {
    match error {
        TraceError::Memory => Stop::Memory,
        TraceError::Read => match reader.fault() {
            Some(error) => host.fail_for("cannot read the log", &error),
            None => host.fail(3, "cannot read the log"),
        },
        TraceError::Write => match output.fault() {
            Some(error) => host.fail_writing(&error),
            None => host.fail(3, "cannot write"),
        },
    }
}

impl<E: Eprint + AllocGlobal, D: Disk> Run<'_, E, D> {
    /// Ends the line in which the log before ended.
    pub(crate) fn begin_log<W: Write + Drop>(&mut self, output: &mut Output<W>) -> Result<(), Stop>
        ensures kept { self.new ≡ self.old }
        ensures begun { OnOk result
            (IsBegun (contents_of W.contents output.old) (contents_of W.contents output.new)) }
    {
        if self.tally.ends_within_line {
            output.write(self.host, b"\n")?;
            self.tally.ends_within_line = false;
        }
        Ok(())
    }

    /// Translates lines whose maps are open, in a style that isn't plain.
    fn decorate_lines<W: Write + Drop>(
        &mut self,
        lines: &[u8],
        output: &mut Output<W>,
    ) -> Result<(), Stop>
        ensures { self.new ≡ self.old }
    {
        let (host, job) = (self.host, self.job);
        let mut out = Vec::new(host.alloc());
        let scripts = self.finder.scripts();
        if scripts.len() != self.mapped {
            self.kept.lines.clear();
            self.mapped = scripts.len();
        }
        let lookup = Lookup {
            scripts,
            style: job.style,
            unnamed: script_alone(&job.wanted),
        };
        let counts = decorate(host.alloc(), lines, &lookup, &mut self.kept, &mut out)?;
        output.write(host, &out)?;
        self.tally.add(counts, !lines.ends_with(b"\n"));
        Ok(())
    }

    /// Translates a log whose maps are open, likewise.
    fn decorate_log<R: Read, W: Write + Drop>(
        &mut self,
        reader: R,
        output: &mut Output<W>,
    ) -> Result<(), Stop>
    where
        R: Drop,
        ensures { self.new ≡ self.old }
    {
        let mut log = Log::new(self.host.alloc(), reader);
        for _ in 0..u64::MAX {
            if !log.advance(self.host)? {
                return Ok(());
            }
            self.decorate_lines(log.lines(), output)?;
        }
        Err(self.host.fail(3, "cannot read the log"))
    }

    /// Translates a log whose maps are open.
    pub(crate) fn translate_log<R: Read, W: Write + Drop>(
        &mut self,
        reader: R,
        output: &mut Output<W>,
    ) -> Result<(), Stop>
    where
        R: Drop,
        ensures named { AreNamed (D.held self.old.disk) self.old.job self.old.chosen }
        ensures kept { self.new ≡ self.old }
        ensures traced { OnOk result (IsTranslatedIn self.old.chosen self.old.job (R.remaining reader)
            (contents_of W.contents output.old) (contents_of W.contents output.new)) }
    {
        let (host, job) = (self.host, self.job);
        if !job.style.is_plain() {
            return self.decorate_log(reader, output);
        }
        let Some(writer) = output.writer.take() else {
            return Err(host.fail(3, "cannot write"));
        };
        let mut reader = Device::new(Heeded::new(reader));
        let mut writer = Device::new(writer);
        let (scripts, style, wanted) = (self.finder.scripts(), &job.style, &job.wanted);
        let answer = translate_lines(
            host.alloc(),
            &mut reader,
            scripts,
            style,
            wanted,
            &mut writer,
        );
        output.writer = Some(writer.into_inner());
        let reader = reader.into_inner();
        match answer {
            Ok(counts) => {
                self.tally.add(counts, reader.ends_within_line());
                Ok(())
            }
            Err(error) => Err(fail_translating(host, error, &reader, output)),
        }
    }
}
