//! Logs translated: files, whose names are all looked for first, and streams, as they come.
ghost use Rattle.std.specs.Prelude.{◌≡◌, ◌++◌, [], IfOk, OnOk, Some, cond, map, ⊤};
ghost use Rattle.std.specs.List.{Contains};
ghost use Rattle.std.specs.Io.Take.{take_remaining};
ghost use Rattle.smap_system.specs.Held.{GivesHeld, HasSize};
ghost use Rattle.smap_map_finder.specs.ChosenView.{AreChosen, KeepEnds, no_choices};
ghost use Rattle.smap_map_finder.specs.Finding.{IsSameSearch};
ghost use Rattle.smap_trace.specs.Naming.{urls_of};
ghost use Rattle.smap_logs.specs.Naming.{AreNamesOf, AreSame, frames_of, names_of, others_if, others_of};
ghost use Rattle.smap_trace_run.specs.Alone.{as_read};
ghost use Rattle.smap_trace_run.specs.Named.{AddsNames, HaveNames};
ghost use Rattle.smap_trace_run.specs.OutputView.{contents_of};
ghost use Rattle.smap_trace_run.specs.Running.{IsRunning, IsSameRun};
ghost use Rattle.smap_trace_run.specs.Written.{AreTraced, HaveSizes, IsTracedFront, IsTracedIn, IsTracedLog};
ghost use Rattle.smap_trace_run.specs.Written.{AreAmong, AreLogs, IsLog, IsOfLogs, asked_by, asked_for};
ghost use Rattle.smap_trace_run.specs.Written.{AreSettled, AreSettledLogs, IsNameOf, IsTracedTextIn};

use crate::alone::LinesRead;
use crate::decorating::Style;
use crate::output::Output;
use crate::translating::Tally;
use smap_logs::{Log, Names, has_control, look, names_in};
use smap_map_files::Wanted;
use smap_map_finder::{Finder, How};
use smap_system::{Disk, Host, Stop};
use smap_trace::Kept;
use smap_trace_summary::{Frames, Given, has_escaped_url, hint_at_start};
use std::alloc::{AllocError, Global};
use std::io::{Read, Take, Write};
use std::marker::Model;

/// What a run has been asked for, and has found.
#[derive(Drop)]
pub(crate) struct Job<'a> {
    pub(crate) anywhere: bool,
    pub(crate) list: bool,
    /// What is explained in place of a log.
    pub(crate) explain: Option<&'a str>,
    pub(crate) check_all: bool,
    /// Whether nothing is said at the end of what was not translated.
    pub(crate) quiet: bool,
    /// Whether a map that is refused ends the run.
    pub(crate) strict: bool,
    pub(crate) wanted: Wanted<'a>,
    /// The scripts that are given by names with control characters.
    pub(crate) with_controls: Vec<Vec<u8>>,
    pub(crate) how: How,
    pub(crate) style: Style<'a>,
}

/// The scripts that are given by names with control characters.
pub(crate) fn with_controls(
    alloc: Global,
    wanted: &Wanted<'_>,
) -> Result<Vec<Vec<u8>>, AllocError> {
    let mut names = Vec::new(alloc);
    for place in &wanted.places {
        if has_control(&place.script) {
            names.push(Vec::from_slice(alloc, &place.script)?)?;
        }
    }
    Ok(names)
}

/// A run: its job, the maps that it has found, and what has become of the logs.
#[derive(Drop)]
pub(crate) struct Run<'a, E, D: Disk> {
    pub(crate) host: &'a Host<'a, E, D>,
    pub(crate) job: &'a Job<'a>,
    pub(crate) finder: Finder<'a, E, D>,
    /// What is kept where frames get names, and how many scripts had maps when lines were.
    pub(crate) kept: Kept,
    pub(crate) mapped: usize,
    /// The names of frames that logs have and that aren't counted among the frames yet.
    pub(crate) names: Names,
    pub(crate) given: Given,
    /// The frames, for what is said at the end.
    pub(crate) frames: Frames,
    pub(crate) tally: Tally,
    pub(crate) start: Start,
}

/// What the logs show when their names are read.
#[derive(Drop)]
pub(crate) struct Start {
    is_known: bool,
    /// Whether it was said that a log isn't text in UTF-8.
    pub(crate) is_hinted: bool,
    /// Whether a line has a URL as JSON has it that writes `\/`.
    pub(crate) is_escaped: bool,
    /// How many lines there are.
    pub(crate) lines: u64,
    /// How many of them have positions, where these are looked for anywhere.
    pub(crate) positions: u64,
}

impl Start {
    /// Says what the first log is, where it isn't text in UTF-8.
    fn note<E: Eprint + AllocGlobal, D: Disk>(
        &mut self,
        host: &Host<'_, E, D>,
        job: &Job<'_>,
        lines: &[u8],
    ) {
        if !self.is_known {
            self.is_known = true;
            self.is_hinted = hint_at_start(host, lines, job.how.verbose);
        }
        self.is_escaped = self.is_escaped || has_escaped_url(lines);
        for line in lines.split_inclusive(|b| *b == b'\n') {
            self.lines = self.lines.saturating_add(1);
            if job.anywhere && look(line).is_some() {
                self.positions = self.positions.saturating_add(1);
            }
        }
    }
}

impl<'a, E, D: Disk> Model for Run<'a, E, D> {
    ghost use Rattle.smap_trace_run.specs.Running.{IsRunning, Running};

    ghost Value = { Running D };

    ghost view = { λ r. record {
      disk = r.host.now.disk.now;
      job = r.job.now;
      chosen = r.finder.chosen;
    } };

    ghost invariant = { λ r. IsRunning D.held r.host.now.disk.now r.job.now r.finder };
}

/// Ends a strict run where a map is refused.
pub(crate) fn stop_if_strict<E: Eprint + AllocGlobal, D: Disk>(
    job: &Job<'_>,
    finder: &Finder<'_, E, D>,
) -> Result<(), Stop> {
    let worst = finder.status();
    if job.strict && worst > 0 {
        return Err(Stop::Reported(worst));
    }
    Ok(())
}

/// Opens the maps of these names.
pub(crate) fn open_names<E: Eprint + AllocGlobal, D: Disk>(
    alloc: Global,
    with_controls: &[Vec<u8>],
    names: &Names,
    finder: &mut Finder<'_, E, D>,
) -> Result<(), Stop>
    ensures same { IsSameSearch finder.old finder.new }
    ensures named { AreChosen (D.held finder.old.disk) finder.old.wanted finder.old.chosen
        → AreChosen (D.held finder.new.disk) finder.new.wanted finder.new.chosen }
    ensures ends { KeepEnds (D.held finder.old.disk) finder.old.wanted (names_of names.now)
        finder.old.chosen finder.new.chosen }
    ensures settled { OnOk result (AreSettled (D.held finder.old.disk) finder.old.wanted finder.new.chosen
        (Contains (frames_of names.now))) }
{
    let frames = names.of_frames(alloc)?;
    finder.open_for(true, frames.as_slice())?;
    let others = names.of_others(alloc, with_controls)?;
    finder.open_for(false, others.as_slice())
}

/// Opens a log.
pub(crate) fn open_log<E: Eprint + AllocGlobal, D: Disk>(
    host: &Host<'_, E, D>,
    path: &str,
) -> Result<D::Reader, Stop>
    ensures { IfOk result (λ log. GivesHeld (D.held host.now.disk.now) path.now
        (D.Reader.remaining log)) }
{
    match host.disk.open(path) {
        Ok(log) => Ok(log),
        Err(error) => Err(host.fail_for("cannot read the log", &error)),
    }
}

/// Opens a log that is a file, as far as it went at this size.
fn open_front<E: Eprint + AllocGlobal, D: Disk>(
    host: &Host<'_, E, D>,
    path: &str,
    size: u64,
) -> Result<Take<D::Reader>, Stop>
    requires { HasSize (D.held host.now.disk.now) path.now size }
    ensures { IfOk result (λ log. GivesHeld (D.held host.now.disk.now) path.now
        (take_remaining D.Reader.remaining log)) }
{
    let log = open_log(host, path)?;
    Ok(log.take(size))
}

/// Adds the names that lines have.
fn add_names<E: Eprint + AllocGlobal, D: Disk>(
    host: &Host<'_, E, D>,
    job: &Job<'_>,
    lines: &[u8],
    start: &mut Start,
    names: &mut Names,
) -> Result<(), AllocError>
    ensures frames { OnOk result (AreSame (frames_of names.new)
        (frames_of names.old ++ urls_of (as_read job.now.wanted lines.now))) }
    ensures others { OnOk result (AreSame (others_of names.new) (others_of names.old
        ++ others_if job.now.anywhere (frames_of names.new) (as_read job.now.wanted lines.now))) }
{
    let read = LinesRead::of(host.alloc(), &job.wanted, lines)?;
    let lines = read.text();
    start.note(host, job, lines);
    names.add_lines(host.alloc(), lines, job.anywhere)
}

/// The names that lines have.
fn names_of_lines<E: Eprint + AllocGlobal, D: Disk>(
    host: &Host<'_, E, D>,
    job: &Job<'_>,
    lines: &[u8],
    start: &mut Start,
) -> Result<Names, AllocError>
    ensures { IfOk result (AreNamesOf job.now.anywhere (as_read job.now.wanted lines.now)) }
{
    let read = LinesRead::of(host.alloc(), &job.wanted, lines)?;
    let lines = read.text();
    start.note(host, job, lines);
    names_in(host.alloc(), lines, job.anywhere)
}

/// Adds the names that a log has.
fn name_log<E: Eprint + AllocGlobal, D: Disk, R: Read>(
    host: &Host<'_, E, D>,
    job: &Job<'_>,
    reader: R,
    start: &mut Start,
    names: &mut Names,
) -> Result<(), Stop>
where
    R: Drop,
    requires asked { IsOfLogs (D.held host.now.disk.now) job.now (R.remaining reader) }
    requires names { AreAmong (asked_by (D.held host.now.disk.now) job.now) (names_of names.old) }
    ensures names { OnOk result (AddsNames job.now.wanted (R.remaining reader) names.old names.new) }
    ensures asked { OnOk result
        (AreAmong (asked_by (D.held host.now.disk.now) job.now) (names_of names.new)) }
{
    let mut log = Log::new(host.alloc(), reader);
    for _ in 0..u64::MAX {
        let more = log.advance(host)?;
        if !more {
            return Ok(());
        }
        add_names(host, job, log.lines(), start, names)?;
    }
    Err(host.fail(3, "cannot read the log"))
}

/// Adds the names of logs that are files. Answers how far each was read.
fn name_logs<E: Eprint + AllocGlobal, D: Disk>(
    host: &Host<'_, E, D>,
    job: &Job<'_>,
    paths: &[&str],
    start: &mut Start,
    names: &mut Names,
) -> Result<Vec<u64>, Stop>
    requires logs { AreLogs (D.held host.now.disk.now) job.now paths.now }
    requires names { AreAmong (asked_by (D.held host.now.disk.now) job.now) (names_of names.old) }
    ensures names { OnOk result (HaveNames (D.held host.now.disk.now) job.now.wanted paths.now names.new) }
    ensures asked { OnOk result
        (AreAmong (asked_by (D.held host.now.disk.now) job.now) (names_of names.new)) }
    ensures sizes { IfOk result (λ sizes. HaveSizes (D.held host.now.disk.now) paths.now sizes.items) }
{
    let mut sizes = Vec::new(host.alloc());
    for path in paths {
        let size = match host.disk.size(path) {
            Ok(size) => size,
            Err(error) => return Err(host.fail_for("cannot read the log", &error)),
        };
        let log = open_front(host, path, size)?;
        name_log(host, job, log, start, names)?;
        sizes.push(size)?;
    }
    Ok(sizes)
}

impl<'a, E: Eprint + AllocGlobal, D: Disk> Run<'a, E, D> {
    /// A run that has read nothing yet.
    pub(crate) fn new(host: &'a Host<'a, E, D>, job: &'a Job<'a>) -> Result<Run<'a, E, D>, Stop>
        ensures { IfOk result (λ r. r.disk ≡ host.now.disk.now × r.job ≡ job.now) }
    {
        let given = Given::of(host.alloc(), &job.wanted)?;
        let finder = Finder::new(host, job.how, &job.wanted)?;
        Ok(Run {
            host,
            job,
            finder,
            kept: Kept::new(host.alloc()),
            mapped: 0,
            names: Names::new(host.alloc()),
            given,
            frames: Frames::none(host.alloc()),
            tally: Tally::none(),
            start: Start {
                is_known: false,
                is_hinted: false,
                is_escaped: false,
                lines: 0,
                positions: 0,
            },
        })
    }

    /// Reads each map that there is, if that is asked for.
    pub(crate) fn check_maps(&mut self) -> Result<(), Stop>
        ensures { IsSameRun self.old self.new }
    {
        if !self.job.check_all {
            return Ok(());
        }
        self.finder.check_all()?;
        stop_if_strict(self.job, &self.finder)
    }

    /// Opens the maps of names that the logs have.
    fn open_all(&mut self, names: &Names) -> Result<(), Stop>
        requires { AreAmong (asked_by (D.held self.old.disk) self.old.job) (names_of names.now) }
        ensures same { IsSameRun self.old self.new }
        ensures settled { OnOk result (AreSettled (D.held self.new.disk) self.new.job.wanted self.new.chosen
            (Contains (frames_of names.now))) }
    {
        let (alloc, job) = (self.host.alloc(), self.job);
        open_names(alloc, &job.with_controls, names, &mut self.finder)?;
        stop_if_strict(job, &self.finder)
    }

    /// Opens the maps of the scripts that lines name.
    fn open_lines(&mut self, lines: &[u8]) -> Result<(), Stop>
        requires { AreAmong (asked_by (D.held self.old.disk) self.old.job)
            (asked_for self.old.job lines.now) }
        ensures same { IsSameRun self.old self.new }
        ensures settled { OnOk result (AreSettled (D.held self.new.disk) self.new.job.wanted self.new.chosen
            (Contains (urls_of (as_read self.new.job.wanted lines.now)))) }
    {
        let host = self.host;
        let names = names_of_lines(host, self.job, lines, &mut self.start)?;
        self.names.add_counts(host.alloc(), &names, usize::MAX)?;
        self.finder.forget_many();
        self.open_all(&names)
    }

    /// Translates a log that is read once: maps are opened as its frames first name their scripts.
    pub(crate) fn follow_log<R: Read, W: Write + Drop>(
        &mut self,
        reader: R,
        output: &mut Output<W>,
    ) -> Result<(), Stop>
    where
        R: Drop,
        requires { IsOfLogs (D.held self.old.disk) self.old.job (R.remaining reader) }
        ensures same { IsSameRun self.old self.new }
        ensures traced { OnOk result (IsTracedTextIn (D.held self.old.disk) self.old.job self.new.chosen.worst
            (λ name. ⊤) (R.remaining reader) (contents_of W.contents output.old)
            (contents_of W.contents output.new)) }
    {
        let mut log = Log::new(self.host.alloc(), reader);
        for _ in 0..u64::MAX {
            let more = log.advance(self.host)?;
            if !more {
                return Ok(());
            }
            let lines = log.lines();
            self.open_lines(lines)?;
            self.translate_log(lines, output)?;
            self.count_lines(lines)?;
        }
        Err(self.host.fail(3, "cannot read the log"))
    }

    /// Opens the maps of all names of logs that are files, and answers how far each was read.
    fn open_files(&mut self, paths: &[&str]) -> Result<Vec<u64>, Stop>
        requires { AreLogs (D.held self.old.disk) self.old.job paths.now }
        ensures same { IsSameRun self.old self.new }
        ensures settled { OnOk result (AreSettledLogs (D.held self.new.disk) self.new.job.wanted
            self.new.chosen paths.now) }
        ensures sizes { IfOk result (λ sizes. HaveSizes (D.held self.old.disk) paths.now sizes.items) }
    {
        let (host, job) = (self.host, self.job);
        let mut names = Names::new(host.alloc());
        let sizes = name_logs(host, job, paths, &mut self.start, &mut names)?;
        self.open_all(&names)?;
        self.names = names;
        Ok(sizes)
    }

    /// Translates logs that are files, as far as their names were looked for.
    fn translate_files<W: Write + Drop>(
        &mut self,
        paths: &[&str],
        sizes: &[u64],
        output: &mut Output<W>,
    ) -> Result<(), Stop>
        requires settled { AreSettledLogs (D.held self.old.disk) self.old.job.wanted self.old.chosen
            paths.now }
        requires sizes { HaveSizes (D.held self.old.disk) paths.now sizes.now }
        ensures kept { self.new ≡ self.old }
        ensures traced { OnOk result (AreTraced (D.held self.old.disk) self.old.job self.new.chosen.worst
            (map (λ p. p.now) paths.now) (contents_of W.contents output.old)
            (contents_of W.contents output.new)) }
    {
        for i in 0..paths.len() {
            self.begin_log(output)?;
            let log = open_front(self.host, paths[i], sizes[i])?;
            self.translate_log(log, output)?;
        }
        Ok(())
    }

    /// Translates logs that are files: all names first, then the maps of these, then the logs.
    pub(crate) fn trace_files<W: Write + Drop>(
        &mut self,
        paths: &[&str],
        output: &mut Output<W>,
    ) -> Result<(), Stop>
        requires { AreLogs (D.held self.old.disk) self.old.job paths.now }
        ensures same { IsSameRun self.old self.new }
        ensures traced { OnOk result (AreTraced (D.held self.old.disk) self.old.job self.new.chosen.worst
            (map (λ p. p.now) paths.now) (contents_of W.contents output.old)
            (contents_of W.contents output.new)) }
    {
        let sizes = self.open_files(paths)?;
        self.translate_files(paths, &sizes, output)
    }

    /// The same of standard input, which is a file with this name as well. It is read on from where it is.
    pub(crate) fn trace_input<I: Read, W: Write + Drop>(
        &mut self,
        path: &str,
        input: I,
        output: &mut Output<W>,
    ) -> Result<(), Stop>
    where
        I: Drop,
        requires { self.old.job.wanted.logs.items ≡ [] }
        ensures same { IsSameRun self.old self.new }
        ensures traced { OnOk result (IsTracedFront (D.held self.old.disk) self.old.job self.new.chosen.worst
            path.now (I.remaining input) (contents_of W.contents output.old)
            (contents_of W.contents output.new)) }
    {
        let paths = [path];
        let sizes = self.open_files(paths.as_slice())?;
        let size = sizes[0];
        self.translate_log(input.take(size), output)
    }

    /// Translates logs with these names that are read once, one after another.
    pub(crate) fn follow_paths<W: Write + Drop>(
        &mut self,
        paths: &[&str],
        output: &mut Output<W>,
    ) -> Result<(), Stop>
        requires { AreLogs (D.held self.old.disk) self.old.job paths.now }
        ensures same { IsSameRun self.old self.new }
        ensures traced { OnOk result (AreTraced (D.held self.old.disk) self.old.job self.new.chosen.worst
            (map (λ p. p.now) paths.now) (contents_of W.contents output.old)
            (contents_of W.contents output.new)) }
    {
        for path in paths {
            self.begin_log(output)?;
            let log = open_log(self.host, path)?;
            self.follow_log(log, output)?;
        }
        Ok(())
    }

    /// The status of a run that comes to its end: the greatest of a map that was refused, unless broken maps
    /// are skipped.
    pub(crate) fn status(&self) -> u8
        ensures { result ≡ cond self.now.job.how.skip 0 self.now.chosen.worst }
    {
        self.finder.status()
    }
}
