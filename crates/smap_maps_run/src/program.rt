//! A run of `smap-maps`.
ghost use Rattle.std.specs.Prelude.{◌≡◌, [], IfOk, Ok, OnOk, map};
ghost use Rattle.std.specs.Io.KnownBytes.{Appends};
ghost use Rattle.smap_command_line.specs.Maps.{IsAsked};
ghost use Rattle.smap_system.specs.Watched.{inner_of};
ghost use Rattle.smap_maps_run.specs.Outcomes.{status as status_of};
ghost use Rattle.smap_maps_run.specs.Runs as spec;
ghost use Rattle.smap_maps_run.specs.Runs.{AreLookedAt, IsAnswered, IsDoneIf, IsDoneTo, IsLook};
ghost use Rattle.smap_maps_run.specs.Runs.{counts_line, counts_of, look_text};
ghost use Rattle.smap_maps_run.specs.declared.outcome.Outcome.{Outcome};
ghost use Rattle.smap_maps_run.specs.Targets.{NamesAll};

use crate::Tally;
use crate::deciding::Work;
use crate::forms::Form;
use crate::looking::Case;
use crate::others::do_other;
use crate::progress::Progress;
use crate::reporting::{report, says_something, write_line};
use crate::targets::{Target, targets_of};
use smap_command_line::maps::{Asked, HELP, MapsWords, WordFault, maps_words, message};
use smap_command_line::{MapsCommand, VERSION};
use smap_map_files::{base_given, refuse_options};
use smap_system::{Disk, Host, Stop, Watched};
use std::io::Write;
use std::rt::Clock;

/// What a run does.
#[derive(Clone, Copy)]
struct Job {
    work: Work,
    /// How many bytes the URLs of a map's sources may take.
    url_bytes: usize,
}

/// Looks at a map, and says what became of it: answers the status of that.
fn look_at<E: Eprint + AllocGlobal, D: Disk, W: Write>(
    host: &Host<'_, E, D>,
    job: Job,
    target: &Target,
    progress: &mut Progress,
    writer: &mut Watched<W>,
) -> Result<u8, Stop>
    ensures { IfOk result (λ status. (o : Outcome) × (status ≡ status_of o.verdict)
        × IsLook (D.held host.now.disk.now) job.url_bytes job.work (target.now, o)
        × Appends (W.contents (inner_of writer.old)) (W.contents (inner_of writer.new))
        (look_text job.work (target.now, o))) }
{
    let outcome = Case {
        alloc: host.alloc(),
        disk: host.disk,
        target,
        work: job.work,
        url_bytes: job.url_bytes,
    }
    .outcome();
    if says_something(job.work, &outcome.verdict) {
        progress.erase(host.rt);
    }
    report(host, job.work, target.file.as_str(), &outcome, writer)?;
    Ok(outcome.verdict.status())
}

/// Looks at each map, and says what became of it.
fn look_at_all<E: Eprint + AllocGlobal + Clock, D: Disk, W: Write>(
    host: &Host<'_, E, D>,
    job: Job,
    targets: &[Target],
    progress: &mut Progress,
    writer: &mut Watched<W>,
) -> Result<Tally, Stop>
    ensures { IfOk result (λ tally. AreLookedAt (D.held host.now.disk.now) job.url_bytes job.work targets.now
        tally (W.contents (inner_of writer.old)) (W.contents (inner_of writer.new))) }
{
    let mut tally = Tally::new();
    for done in 0..targets.len() {
        progress.show(host.rt, done);
        let status = look_at(host, job, &targets[done], progress, writer)?;
        tally = tally.with(status);
    }
    Ok(tally)
}

/// Writes how many maps are accepted.
fn write_counts<E: Eprint + AllocGlobal, D: Disk, W: Write>(
    host: &Host<'_, E, D>,
    tally: Tally,
    writer: &mut Watched<W>,
) -> Result<(), Stop>
    ensures { OnOk result (Appends (W.contents (inner_of writer.old)) (W.contents (inner_of writer.new))
        (counts_line tally)) }
{
    let (accepted, refused) = (tally.accepted, tally.refused);
    let text = format!(in host.alloc(); "{accepted} accepted, {refused} refused")?;
    write_line(host, text.as_str(), writer)
}

/// The maps that the paths name.
fn targets<E: Eprint + AllocGlobal, D: Disk>(
    host: &Host<'_, E, D>,
    asked: &MapsWords<'_>,
) -> Result<Vec<Target>, Stop>
    ensures { IfOk result (λ targets. NamesAll (D.tree host.now.disk.now)
        (map (λ p. p.now) asked.now.paths.items) [] targets.items) }
{
    match asked.options.text("base") {
        Some(base) => {
            let base = base_given(host, base)?;
            targets_of(host, Some(base.as_str()), &asked.paths)
        }
        None => targets_of(host, None, &asked.paths),
    }
}

/// The same, showing how many are done where standard error is a terminal.
fn look_showing<E: Eprint + AllocGlobal + Clock, D: Disk, W: Write>(
    host: &Host<'_, E, D>,
    job: Job,
    targets: &[Target],
    on_terminal: bool,
    writer: &mut Watched<W>,
) -> Result<Tally, Stop>
    ensures { IfOk result (λ tally. AreLookedAt (D.held host.now.disk.now) job.url_bytes job.work targets.now
        tally (W.contents (inner_of writer.old)) (W.contents (inner_of writer.new))) }
{
    let mut progress = Progress::new(targets.len(), on_terminal);
    let answer = look_at_all(host, job, targets, &mut progress, writer);
    progress.erase(host.rt);
    answer
}

/// Writes the counts where that is to be done: of a check without lines of JSON.
fn end_counts<E: Eprint + AllocGlobal, D: Disk, W: Write>(
    host: &Host<'_, E, D>,
    work: Work,
    tally: Tally,
    writer: &mut Watched<W>,
) -> Result<(), Stop>
    ensures { OnOk result (Appends (W.contents (inner_of writer.old)) (W.contents (inner_of writer.new))
        (counts_of work tally)) }
{
    match work {
        Work::Check { json: false } => write_counts(host, tally, writer),
        Work::Check { json: true } | Work::Compare { .. } | Work::Repair { .. } => Ok(()),
    }
}

/// Looks at the maps that are named. Answers the status of a run that came to its end: the greatest of all.
fn work_on<E: Eprint + AllocGlobal + Clock, D: Disk, W: Write>(
    host: &Host<'_, E, D>,
    asked: &MapsWords<'_>,
    work: Work,
    on_terminal: bool,
    writer: &mut Watched<W>,
) -> Result<u8, Stop>
    ensures { IfOk result (IsDoneTo (D.tree host.now.disk.now) (D.held host.now.disk.now) asked.now work
        (W.contents (inner_of writer.old)) (W.contents (inner_of writer.new))) }
{
    let targets = targets(host, asked)?;
    let url_bytes = asked.options.url_bytes();
    let job = Job { work, url_bytes };
    let tally = look_showing(host, job, &targets, on_terminal, writer)?;
    end_counts(host, work, tally, writer)?;
    Ok(tally.worst)
}

/// What is done with each map that the words name, if maps are looked at one after another.
fn work_of(asked: &MapsWords<'_>) -> Option<Work>
    ensures { result ≡ spec.work_of asked.now }
{
    let options = &asked.options;
    match asked.command {
        MapsCommand::Check => Some(Work::Check {
            json: options.has("json"),
        }),
        MapsCommand::Tidy => Some(Work::Compare {
            form: Form::Canonical {
                relative: asked.relative(),
            },
            rewrite: asked.rewrite(),
        }),
        MapsCommand::Flatten => Some(Work::Compare {
            form: Form::Flat,
            rewrite: asked.rewrite(),
        }),
        MapsCommand::Repair => Some(Work::Repair {
            write: options.has("write"),
        }),
        _ => None,
    }
}

/// Does what the command says. Answers the status of a run that came to its end.
fn do_task<E: Eprint + AllocGlobal + Clock, D: Disk, W: Write>(
    host: &Host<'_, E, D>,
    asked: &MapsWords<'_>,
    on_terminal: bool,
    writer: &mut Watched<W>,
) -> Result<u8, Stop>
    ensures { IfOk result (IsDoneIf (D.tree host.now.disk.now) (D.held host.now.disk.now) asked.now
        (spec.work_of asked.now) (W.contents (inner_of writer.old)) (W.contents (inner_of writer.new))) }
{
    match work_of(asked) {
        Some(work) => work_on(host, asked, work, on_terminal, writer),
        None => do_other(host, asked, writer),
    }
}

/// The exit status of a run that came to its end with this status, or stopped: then it is never 0.
fn exit_status<E: Eprint + AllocGlobal, D: Disk>(
    host: &Host<'_, E, D>,
    answer: Result<u8, Stop>,
) -> u8
    ensures { result ≡ 0 → answer ≡ Ok 0 }
{
    match answer {
        Ok(status) => status,
        Err(stop) => host.status(Err(stop)),
    }
}

/// Writes a text that is asked for: that is done.
fn said<E: Eprint + AllocGlobal, D: Disk, W: Write>(
    host: &Host<'_, E, D>,
    text: &str,
    writer: &mut Watched<W>,
) -> Result<u8, Stop>
    ensures { IfOk result (λ status. Appends (W.contents (inner_of writer.old))
        (W.contents (inner_of writer.new)) text.now) }
{
    host.write(text.as_bytes(), writer)?;
    Ok(0)
}

/// Does what the words ask for. Answers the status of a run that came to its end.
fn answer<E: Eprint + AllocGlobal + Clock, D: Disk, W: Write>(
    host: &Host<'_, E, D>,
    words: &[&str],
    on_terminal: bool,
    writer: &mut Watched<W>,
) -> Result<u8, Stop>
    ensures { IfOk result (λ status. (asked : Asked) × IsAsked (map (λ w. w.now) words.now) asked
        × IsAnswered (D.tree host.now.disk.now) (D.held host.now.disk.now) HELP.now VERSION.now asked
        (W.contents (inner_of writer.old)) (W.contents (inner_of writer.new)) status) }
{
    match maps_words(host.alloc(), words) {
        Ok(Asked::Help) => said(host, HELP, writer),
        Ok(Asked::Version) => said(host, VERSION, writer),
        Ok(Asked::Maps(asked)) => do_task(host, &asked, on_terminal, writer),
        Err(WordFault::Options(fault)) => Err(refuse_options(host, &fault)),
        Err(WordFault::Nothing) => Err(host.fail_with_help(HELP)),
        Err(fault) => Err(host.fail_words(message(host.alloc(), &fault), None)),
    }
}

/// Runs `smap-maps`. The first word is the name of the program, and isn't looked at. `on_terminal` says
/// whether standard error is a terminal, which then shows how many maps are done. Answers the exit status: 0
/// where it is done, 1 where a map is refused, would change or lose a member, 2 where the command line is
/// wrong, 3 where a file can't be read or written, 4 where memory ran out, 141 where nobody reads the output
/// any more.
pub fn run<E: Eprint + AllocGlobal + Clock, D: Disk, W: Write>(
    rt: &E,
    disk: &D,
    words: &[&str],
    on_terminal: bool,
    output: &mut Watched<W>,
) -> u8
    ensures { result ≡ 0 → (asked : Asked) × IsAsked (map (λ w. w.now) words.now) asked
        × IsAnswered (D.tree disk.now) (D.held disk.now) HELP.now VERSION.now asked
        (W.contents (inner_of output.old)) (W.contents (inner_of output.new)) 0 }
{
    let host = Host {
        rt,
        disk,
        name: "smap-maps",
    };
    let answer = answer(&host, words, on_terminal, output);
    exit_status(&host, answer)
}
