//! A run of `smap-trace`.
ghost use Rattle.std.specs.Prelude.{◌≡◌, ◌||◌, [], false, true, IfOk, IsOk, None, Ok, OnOk, Some, codes};
ghost use Rattle.std.specs.Prelude.{cond, map, ⊤};
ghost use Rattle.smap_map_files.specs.Positions.{AreClear, has_positions, log_in};
ghost use Rattle.smap_command_line.specs.Lookups.{text};
ghost use Rattle.smap_trace_run.specs.OutputView.{contents_of};
ghost use Rattle.smap_trace_run.specs.Running.{IsSameRun};
ghost use Rattle.smap_trace_run.specs.Runs.{AreFound, IsAnswered, IsJobOf, IsTracedAsked, IsTracedJob};
ghost use Rattle.smap_trace_run.specs.Runs.{IsToTranslate, IsTranslating};
ghost use Rattle.smap_trace_run.specs.Runs.{IsTracedTo, finds_anywhere, pairs_of, prefixes_of, skipping};
ghost use Rattle.smap_trace_run.specs.Written.{IsTracedTextIn};
ghost use Rattle.smap_command_line.specs.Trace.{IsAsked};

use crate::decorating::Style;
use crate::explaining::explain;
use crate::listing::list;
use crate::output::Output;
use crate::tracing::{Job, Run, with_controls};
use smap_command_line::trace::{Asked, HELP, TraceWords, WordFault, message, trace_words};
use smap_command_line::{Options, Pair, VERSION};
use smap_map_files::{Reading, Wanted, check_positions, log_of, refuse_options, settle, wanted_by};
use smap_map_finder::How;
use smap_system::{Beside, Disk, Host, Kind, Stop, create_beside};
use smap_trace::MatchMode;
use std::alloc::{AllocError, Global};
use std::io::{Read, Write};

/// The name by which standard input can be read from its beginning, if it is a file.
pub(crate) const STDIN: &str = "/proc/self/fd/0";

/// What standard input is.
#[derive(Clone, Copy, PartialEq, Eq)]
pub enum InputKind {
    Closed,
    Terminal,
    /// A file, which [`STDIN`] names.
    File,
    Other,
}

/// Standard input.
#[derive(Drop)]
pub struct Input<I> {
    pub reader: I,
    pub kind: InputKind,
}

/// Whether a file says how long it is. The kernel says 0 of files of its own that aren't empty, as of those
/// of `/proc`.
fn has_size<D: Disk>(disk: &D, path: &str) -> bool {
    match disk.size(path) {
        Ok(size) => size > 0,
        Err(_) => false,
    }
}

/// Whether all logs can be read twice.
fn are_files<D: Disk>(disk: &D, paths: &[&str]) -> bool {
    for path in paths {
        if disk.kind(path) != Kind::File || !has_size(disk, path) {
            return false;
        }
    }
    true
}

/// Whether standard input is a file that can be read from its beginning by its name.
fn has_name<D: Disk>(disk: &D, kind: InputKind) -> bool
    ensures { result ≡ true → kind ≡ InputKind.File }
{
    match kind {
        InputKind::File => has_size(disk, STDIN) && disk.open(STDIN).is_ok(),
        InputKind::Closed | InputKind::Terminal | InputKind::Other => false,
    }
}

impl<E: Eprint + AllocGlobal, D: Disk> Run<'_, E, D> {
    /// Translates the positions that are given.
    fn follow_positions<W: Write + Drop>(&mut self, output: &mut Output<W>) -> Result<(), Stop>
        requires { self.old.job.wanted.logs.items ≡ [] }
        ensures same { IsSameRun self.old self.new }
        ensures traced { OnOk result (IsTracedTextIn (D.held self.old.disk) self.old.job self.new.chosen.worst
            (λ name. ⊤) (Some (log_in self.old.job.wanted.positions)) (contents_of W.contents output.old)
            (contents_of W.contents output.new)) }
    {
        let log = log_of(self.host.alloc(), &self.job.wanted.positions)?;
        self.follow_log(log.as_slice(), output)
    }

    /// Ends a run whose logs were translated, if they were: says what was not translated. Answers the status:
    /// the greatest of a map that was refused, unless broken maps are skipped.
    fn end(&mut self, answer: Result<(), Stop>) -> Result<u8, Stop>
        ensures { IfOk result (λ status. IsOk answer
            × status ≡ cond self.old.job.how.skip 0 self.old.chosen.worst) }
    {
        answer?;
        let status = self.status();
        self.finder.tell_count()?;
        self.say_end()?;
        Ok(status)
    }

    /// Translates the logs, or, where there are none, the positions that are given or standard input. Answers
    /// the status of a run that came to its end.
    fn trace<I: Read, W: Write + Drop>(
        &mut self,
        input: Input<I>,
        output: &mut Output<W>,
    ) -> Result<u8, Stop>
    where
        I: Drop,
        ensures { IfOk result (λ status. IsTracedTo status (D.held self.old.disk) self.old.job input.kind
            (I.remaining input.reader) (contents_of W.contents output.old)
            (contents_of W.contents output.new)) }
    {
        self.check_maps()?;
        let (host, job) = (self.host, self.job);
        let logs = job.wanted.logs.as_slice();
        if !logs.is_empty() {
            if are_files(host.disk, logs) {
                let answer = self.trace_files(logs, output);
                return self.end(answer);
            }
            let answer = self.follow_paths(logs, output);
            return self.end(answer);
        }
        if job.wanted.has_positions() {
            let answer = self.follow_positions(output);
            return self.end(answer);
        }
        if has_name(host.disk, input.kind) {
            let answer = self.trace_input(STDIN, input.reader, output);
            return self.end(answer);
        }
        let answer = self.follow_log(input.reader, output);
        self.end(answer)
    }
}

/// Does a job to its end, and answers the status of that.
fn run_job<'h, E: Eprint + AllocGlobal, D: Disk, I: Read, W: Write + Drop>(
    host: &'h Host<'h, E, D>,
    job: &Job<'_>,
    input: Input<I>,
    output: &mut Output<W>,
) -> Result<u8, Stop>
where
    I: Drop,
    ensures { IfOk result (λ status. IsTranslating job.now → IsTracedTo status (D.held host.now.disk.now)
        job.now input.kind (I.remaining input.reader) (contents_of W.contents output.old)
        (contents_of W.contents output.new)) }
{
    if job.list {
        return list(host, job, input.reader, output);
    }
    if let Some(position) = job.explain {
        return explain(host, job, position, output);
    }
    let mut run = Run::new(&*host, &*job)?;
    let answer = run.trace(input, output);
    // By a call, which is proved by itself: a run holds much.
    drop(run);
    answer
}

/// Refuses a log that can't be had, and says what is waited for. Positions are the log themselves.
fn check_input<E: Eprint + AllocGlobal, D: Disk>(
    host: &Host<'_, E, D>,
    wanted: &Wanted<'_>,
    kind: InputKind,
) -> Result<(), Stop> {
    if !wanted.logs.is_empty() || wanted.has_positions() {
        return Ok(());
    }
    match kind {
        InputKind::Closed => { Err(host.fail(3, "cannot read the log: standard input is closed")) }
        InputKind::Terminal => {
            host.say(
                "reading the log from the terminal (Ctrl-D ends it); smap-trace ... <crash.log reads a file",
            );
            Ok(())
        }
        InputKind::File | InputKind::Other => Ok(()),
    }
}

/// Refuses to explain a position together with what else may be done.
fn check_explained<E: Eprint + AllocGlobal, D: Disk>(
    host: &Host<'_, E, D>,
    wanted: &Wanted<'_>,
    list: bool,
) -> Result<(), Stop> {
    if list {
        return Err(host.fail(2, "--explain can't be given together with --list"));
    }
    if !wanted.logs.is_empty() || wanted.has_positions() {
        return Err(host.fail(
            2,
            "--explain POSITION can't be given together with logs or other positions",
        ));
    }
    Ok(())
}

/// Refuses positions that can't be translated, and a log that can't be had.
fn check_lines<E: Eprint + AllocGlobal, D: Disk>(
    host: &Host<'_, E, D>,
    wanted: &Wanted<'_>,
    options: &Options<'_>,
    kind: InputKind,
) -> Result<(), Stop>
    ensures { OnOk result (AreClear wanted.now) }
{
    check_positions(host, wanted)?;
    let list = options.has("list");
    if options.text("explain").is_some() {
        return check_explained(host, wanted, list);
    }
    if list && wanted.has_positions() {
        return Err(host.fail(
            2,
            "--list lists the scripts of a log, and none of positions",
        ));
    }
    check_input(host, wanted, kind)?;
    Ok(())
}

/// Whether positions are found anywhere in a line.
fn is_anywhere(asked: &TraceWords<'_>, wanted: &Wanted<'_>) -> bool
    ensures { result ≡ (finds_anywhere asked.now.options || has_positions wanted.now) }
{
    let options = &asked.options;
    options.has("anywhere") || !options.has("frames-only") || wanted.has_positions()
}

/// The prefixes as pairs.
fn prefixes<'a>(alloc: Global, all: &[Pair<'a>]) -> Result<Vec<(&'a str, &'a str)>, AllocError>
    ensures { IfOk result (λ pairs. pairs_of pairs.items ≡ prefixes_of all.now) }
{
    let mut prefixes = Vec::new(alloc);
    for prefix in all {
        prefixes.push((prefix.key, prefix.text))?;
    }
    Ok(prefixes)
}

/// Gives a file its name once a run came to its end, and removes it if the run stopped.
fn end_file<E: Eprint + AllocGlobal, D: Disk>(
    host: &Host<'_, E, D>,
    beside: Beside,
    answer: Result<u8, Stop>,
) -> Result<u8, Stop> {
    match answer {
        Ok(status) => match beside.finish(host.disk) {
            Ok(()) => Ok(status),
            Err(error) => Err(host.fail_writing(&error)),
        },
        Err(stop) => {
            beside.abandon(host.disk);
            Err(stop)
        }
    }
}

/// Begins the file that `-o` names, which is written beside it until all is there.
fn begin_file<E: Eprint + AllocGlobal, D: Disk>(
    host: &Host<'_, E, D>,
    file: &str,
) -> Result<(Beside, D::Writer), Stop> {
    if host.disk.kind(file) == Kind::Special {
        return Err(host.fail(
            2,
            "-o: expected the name of a file, which no pipe or device is",
        ));
    }
    match create_beside(host.alloc(), host.disk, file) {
        Ok(begun) => Ok(begun),
        Err(fault) => Err(host.fail_writing(&fault.into_error())),
    }
}

/// Whether it is no fault of the run that maps are refused.
fn skips(options: &Options<'_>) -> bool
    ensures { result ≡ skipping options.now }
{
    options.has("skip-broken") && !options.has("strict")
}

/// What the arguments name.
fn found<'a, E: Eprint + AllocGlobal, D: Disk>(
    host: &Host<'_, E, D>,
    asked: &TraceWords<'a>,
    kind: InputKind,
) -> Result<Wanted<'a>, Stop>
    ensures { IfOk result (AreFound (D.tree host.now.disk.now) (D.held host.now.disk.now) asked.now) }
{
    let mut wanted = wanted_by(host, &asked.arguments)?;
    settle(host, skips(&asked.options), &mut wanted)?;
    let is_strict = asked.options.has("strict");
    let is_closed = !asked.options.has("no-chain");
    wanted.reading = Reading {
        url_bytes: asked.options.url_bytes(),
        mends: !is_strict,
        chains: is_closed,
    };
    if wanted.is_empty() && !asked.options.has("list") {
        return Err(host.fail(
            2,
            "no map is given: expected URL=FILE, URL/=FOLDER/, a folder or a map",
        ));
    }
    check_lines(host, &wanted, &asked.options, kind)?;
    Ok(wanted)
}

/// What a run does, by its words and by what their arguments name.
fn job_of<'p, 'a: 'p, E: Eprint + AllocGlobal, D: Disk>(
    host: &Host<'_, E, D>,
    asked: &TraceWords<'a>,
    prefixes: &'p [(&'p str, &'p str)],
    kind: InputKind,
) -> Result<Job<'p>, Stop>
    requires { pairs_of prefixes.now ≡ prefixes_of asked.now.prefixes.items }
    ensures found { IfOk result (λ job.
        AreFound (D.tree host.now.disk.now) (D.held host.now.disk.now) asked.now job.wanted) }
    ensures job { IfOk result (IsJobOf asked.now) }
{
    let options = &asked.options;
    let wanted = found(host, asked, kind)?;
    let with_controls = with_controls(host.alloc(), &wanted)?;
    let anywhere = is_anywhere(asked, &wanted);
    Ok(Job {
        anywhere,
        list: options.has("list"),
        explain: options.text("explain"),
        check_all: options.has("check-all"),
        quiet: options.has("quiet"),
        strict: options.has("strict"),
        wanted,
        with_controls,
        how: How {
            skip: skips(options),
            verbose: options.has("verbose"),
        },
        style: Style {
            mode: MatchMode {
                anywhere,
                ignore_query: false,
            },
            hide: options.has("hide-ignored"),
            prefixes,
            context: options.number("context"),
            names: options.has("names"),
        },
    })
}

/// Translates, lists or explains. Answers the status of a run that came to its end.
fn trace<'h, E: Eprint + AllocGlobal, D: Disk, I: Read, W: Write + Drop>(
    host: &'h Host<'h, E, D>,
    asked: &TraceWords<'_>,
    input: Input<I>,
    output: &mut Output<W>,
) -> Result<u8, Stop>
where
    I: Drop,
    ensures { IfOk result (λ status. text asked.now.options (codes "output") ≡ None
        → IsToTranslate asked.now.options → (wanted : Wanted)
        × AreFound (D.tree host.now.disk.now) (D.held host.now.disk.now) asked.now wanted
        × IsTracedAsked status (D.held host.now.disk.now) wanted asked.now input.kind
        (I.remaining input.reader) (contents_of W.contents output.old) (contents_of W.contents output.new)) }
{
    let prefixes = prefixes(host.alloc(), &asked.prefixes)?;
    let job = job_of(&*host, asked, &prefixes, input.kind)?;
    match asked.options.text("output") {
        Some(file) => {
            let (beside, writer) = begin_file(&*host, file)?;
            let answer = run_job(host, &job, input, &mut Output::new(writer));
            end_file(&*host, beside, answer)
        }
        None => run_job(host, &job, input, output),
    }
}

/// The exit status of a run that came to its end with this status, or stopped: then it is never 0.
fn exit_status<E: Eprint + AllocGlobal, D: Disk>(
    host: &Host<'_, E, D>,
    answer: Result<u8, Stop>,
) -> u8
    ensures { result ≡ 0 → answer ≡ Ok 0 }
{
    match answer {
        Ok(status) => status,
        Err(stop) => host.status(Err(stop)),
    }
}

/// Runs `smap-trace`. The first word is the name of the program, and isn't looked at. Answers the exit
/// status: 0 where it is done, 1 where a map is refused, 2 where the command line is wrong or names what
/// can't be read, 3 where a file or the log can't be read or the output can't be written, 4 where memory ran
/// out, 141 where nobody reads the output any more.
pub fn run<E: Eprint + AllocGlobal, D: Disk, I: Read, W: Write + Drop>(
    rt: &E,
    disk: &D,
    words: &[&str],
    input: Input<I>,
    output: &mut Output<W>,
) -> u8
where
    I: Drop,
    ensures { result ≡ 0 → (asked : Asked) × IsAsked (map (λ w. w.now) words.now) asked
        × IsAnswered (D.tree disk.now) (D.held disk.now) HELP.now VERSION.now asked
        input.kind (I.remaining input.reader) (contents_of W.contents output.old)
        (contents_of W.contents output.new) }
{
    let host = Host {
        rt: &*rt,
        disk: &*disk,
        name: "smap-trace",
    };
    match trace_words(host.alloc(), words) {
        Ok(Asked::Help) => host.status(output.write(&host, HELP.as_bytes())),
        Ok(Asked::Version) => host.status(output.write(&host, VERSION.as_bytes())),
        Ok(Asked::Trace(asked)) => exit_status(&host, trace(&host, &asked, input, output)),
        Err(WordFault::Options(fault)) => host.status(Err(refuse_options(&host, &fault))),
        Err(WordFault::Nothing) => host.status(Err(host.fail_with_help(HELP))),
        Err(fault) => host.status(Err(host.fail_words(message(host.alloc(), &fault), None))),
    }
}
