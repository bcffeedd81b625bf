//! What is said at the end of a run: how many frames stayed, and why.
ghost use Rattle.std.specs.Prelude.{◌≡◌};

use crate::alone::LinesRead;
use crate::program::STDIN;
use crate::tracing::{Run, open_log};
use smap_logs::{Log, Names};
use smap_system::{Disk, Stop, printable};
use smap_trace_summary::{
    Counted, LogForm, Stayed, Summary, add_missed, build_text, hint_at_nothing, say_mismatches,
};
use std::alloc::{AllocError, Global};

/// Adds the frames of lines without a mapping, though their script has a map, of so many lines at most.
fn add_missed_lines<E: Eprint + AllocGlobal, D: Disk>(
    run: &Run<'_, E, D>,
    lines: &[u8],
    left: &mut u64,
    missed: &mut Counted,
) -> Result<(), AllocError> {
    let (scripts, hide) = (run.finder.scripts(), run.job.style.hide);
    let read = LinesRead::of(run.host.alloc(), &run.job.wanted, lines)?;
    for line in read.text().split_inclusive(|b| *b == b'\n') {
        if *left == 0 {
            return Ok(());
        }
        *left -= 1;
        add_missed(run.host.alloc(), line, scripts, hide, missed)?;
    }
    Ok(())
}

/// The same of a log.
fn add_missed_of<E: Eprint + AllocGlobal, D: Disk>(
    run: &Run<'_, E, D>,
    path: &str,
    left: &mut u64,
    missed: &mut Counted,
) -> Result<(), Stop> {
    let host = run.host;
    let mut log = Log::new(host.alloc(), open_log(host, path)?);
    for _ in 0..u64::MAX {
        if *left == 0 || !log.advance(host)? {
            return Ok(());
        }
        add_missed_lines(run, log.lines(), left, missed)?;
    }
    Err(host.fail(3, "cannot read the log"))
}

/// The frames of logs without a mapping, though their scripts have maps: of these, or of standard input where
/// there are none. A log may have grown, so no more lines are read than were translated.
fn missed_of<E: Eprint + AllocGlobal, D: Disk>(
    run: &Run<'_, E, D>,
    logs: &[&str],
) -> Result<Counted, Stop> {
    let mut missed = Counted::new(run.host.alloc());
    let mut left = run.tally.lines;
    if logs.is_empty() {
        add_missed_of(run, STDIN, &mut left, &mut missed)?;
    }
    for path in logs {
        add_missed_of(run, path, &mut left, &mut missed)?;
    }
    Ok(missed)
}

impl<E: Eprint + AllocGlobal, D: Disk> Run<'_, E, D> {
    /// Counts the frames whose names wait for that.
    fn count_frames(&mut self) -> Result<(), AllocError>
        ensures { self.new ≡ self.old }
    {
        let alloc = self.host.alloc();
        if !self.job.quiet {
            let with_controls = self.job.with_controls.as_slice();
            self.frames.add(alloc, with_controls, &self.finder, &self.given, &self.names)?;
        }
        self.names = Names::new(alloc);
        Ok(())
    }

    /// Whether lines that are no frames have positions, where these are looked for, too.
    fn has_other_lines(&self) -> bool {
        self.job.anywhere && self.start.positions > self.frames.all()
    }

    /// How many frames of scripts with a map have no mapping. Where other lines are translated, too, these
    /// frames are counted one by one.
    fn unmapped_count(&self) -> u64 {
        if self.tally.changed > 0 && (self.frames.are_followed || self.has_other_lines()) {
            return self.frames.missed.all();
        }
        self.frames.mapped.all().saturating_sub(self.tally.changed)
    }

    /// Whether other lines than frames were translated.
    fn has_others(&self) -> bool {
        let translated = self
            .frames
            .mapped
            .all()
            .saturating_sub(self.unmapped_count());
        self.tally.changed > translated
    }

    /// Whether frames without a mapping may not be counted yet.
    fn lacks_missed(&self) -> bool {
        if self.frames.are_followed || self.has_other_lines() {
            return self.frames.mapped.all() > 0;
        }
        self.unmapped_count() > self.frames.missed.all()
    }

    /// Counts the frames of lines of a log that is read once, which were translated.
    pub(crate) fn count_lines(&mut self, lines: &[u8]) -> Result<(), AllocError>
        ensures { self.new ≡ self.old }
    {
        self.count_frames()?;
        self.frames.are_followed = self.job.anywhere;
        if self.lacks_missed() {
            let (alloc, job) = (self.host.alloc(), self.job);
            let read = LinesRead::of(alloc, &job.wanted, lines)?;
            let (scripts, hide) = (self.finder.scripts(), job.style.hide);
            add_missed(alloc, read.text(), scripts, hide, &mut self.frames.missed)?;
        }
        Ok(())
    }

    /// Whether all frames without a mapping are of one script, or all frames are without one.
    fn is_plain(&self) -> bool {
        self.tally.changed == 0 || self.frames.mapped.is_of_one()
    }

    /// Whether nothing more has to be known of the frames without a mapping.
    fn knows_missed(&self) -> bool {
        if self.has_other_lines() {
            return self.frames.are_followed || self.tally.changed == 0;
        }
        self.frames.are_followed || self.is_plain()
    }

    /// Looks through logs that are files once more, where it isn't known how many frames without a mapping
    /// there are, or of which scripts they are.
    fn find_missed(&mut self) -> Result<(), Stop> {
        if self.knows_missed() || !self.lacks_missed() {
            return Ok(());
        }
        let job = self.job;
        self.frames.missed = missed_of(self, &job.wanted.logs)?;
        Ok(())
    }

    /// The file of the map of which most frames without a mapping are.
    fn unmapped_file(&self, alloc: Global) -> Result<String, Stop> {
        let frames = &self.frames;
        let kind = if self.is_plain() {
            &frames.mapped
        } else {
            &frames.missed
        };
        let Some(name) = kind.most().or(frames.mapped.most()) else {
            return Ok(String::new(alloc));
        };
        let files = self.finder.files_of(true, &[name])?;
        match files.first() {
            Some(Some(file)) => Ok(printable(alloc, file)?),
            Some(None) | None => Ok(printable(alloc, name)?),
        }
    }

    /// Says of which build the script is that most frames without a map are of, if the folder has a map whose
    /// name differs in a hash.
    fn build_text(&self) -> Result<Option<String>, AllocError> {
        match self.frames.mapless.most() {
            Some(name) => build_text(self.host.alloc(), &self.job.wanted, name),
            None => Ok(None),
        }
    }

    /// Whether there is such a map.
    fn is_of_another_build(&self) -> Result<bool, AllocError> {
        Ok(self.build_text()?.is_some())
    }

    /// What most frames without a map are of.
    fn mapless_text(&self, alloc: Global) -> Result<String, AllocError> {
        match self.build_text()? {
            Some(text) => Ok(text),
            None => printable(alloc, self.frames.mapless.most().unwrap_or(b"")),
        }
    }

    /// Says how many frames stayed, if some did, and what most of them are of.
    fn say_counts(&self, unmapped: &str, mapless: &str) -> Result<(), Stop> {
        let summary = Summary {
            in_lines: self.has_others(),
            translated: self.tally.changed,
            unmapped: Stayed {
                count: self.unmapped_count(),
                most: unmapped,
            },
            mapless: Stayed {
                count: self.frames.mapless.all(),
                most: mapless,
            },
        };
        if summary.is_said() {
            let text = summary.text(self.host.alloc())?;
            self.host.say(text.as_str());
        }
        Ok(())
    }

    /// The same, where most frames without a mapping are of this.
    fn say_with(&self, unmapped: &str) -> Result<(), Stop> {
        let mapless = self.mapless_text(self.host.alloc())?;
        self.say_counts(unmapped, mapless.as_str())
    }

    /// Says how many frames stayed, if some did.
    fn say_summary(&self) -> Result<(), Stop> {
        let unmapped = self.unmapped_file(self.host.alloc())?;
        self.say_with(unmapped.as_str())
    }

    /// Whether no frame is of a script with a map, in this build or in another.
    fn is_unmapped(&self) -> Result<bool, AllocError> {
        if self.tally.changed > 0 || self.frames.mapped.all() > 0 {
            return Ok(false);
        }
        Ok(!self.is_of_another_build()?)
    }

    /// Says in one line what wasn't translated, and why, unless that isn't wanted, or it was said before:
    /// that the log can't be read as it is, or, where nothing was translated, that a map is refused.
    pub(crate) fn say_end(&mut self) -> Result<(), Stop> {
        if self.job.quiet || self.start.is_hinted || self.tally.lines == 0 {
            return Ok(());
        }
        self.count_frames()?;
        say_mismatches(self.host, &self.finder, &self.frames.used)?;
        if self.is_unmapped()? {
            if self.status() != 0 {
                return Ok(());
            }
            let log = LogForm {
                anywhere: self.job.anywhere,
                is_escaped: self.start.is_escaped,
            };
            return hint_at_nothing(self.host, &self.job.wanted, &self.frames, log, &self.finder);
        }
        if self.start.lines != self.tally.lines {
            // What was named and what was translated differ, as standard input does that was read before.
            return Ok(());
        }
        self.find_missed()?;
        self.say_summary()
    }
}
