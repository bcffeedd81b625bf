//! What is said of a map, and written.
ghost use Rattle.std.specs.Prelude.{◌≡◌, OnOk};
ghost use Rattle.std.specs.Io.KnownBytes.{Appends};
ghost use Rattle.smap_system.specs.Watched.{inner_of};
ghost use Rattle.smap_maps_run.specs.Runs as spec;

use crate::deciding::Work;
use crate::{Outcome, Verdict, is_named, json_line, remark, said_name};
use smap_system::{Disk, Host, Stop, Watched, printable};
use std::alloc::AllocError;
use std::io::Write;

/// Writes a line to the output, as a terminal may have it.
pub(crate) fn write_line<E: Eprint + AllocGlobal, D: Disk, W: Write>(
    host: &Host<'_, E, D>,
    text: &str,
    writer: &mut Watched<W>,
) -> Result<(), Stop>
    ensures { OnOk result (Appends (W.contents (inner_of writer.old)) (W.contents (inner_of writer.new))
        (spec.line text.now)) }
{
    let mut line = printable(host.alloc(), text.as_bytes())?;
    line.push_str("\n")?;
    host.write(line.as_str().as_bytes(), writer)
}

/// Whether a line is written for a map.
pub(crate) fn says_something(work: Work, verdict: &Verdict) -> bool {
    work.wants_json() || !matches!(verdict, Verdict::Accepted | Verdict::Unchanged)
}

/// Says what is to be said of a map.
fn say<E: Eprint + AllocGlobal, D: Disk>(
    host: &Host<'_, E, D>,
    file: &str,
    outcome: &Outcome,
) -> Result<(), AllocError> {
    let alloc = host.alloc();
    if let Some(text) = remark(alloc, outcome)? {
        let name = said_name(alloc, file, &outcome.verdict)?;
        host.say_of(name.as_str(), text.as_str());
    }
    Ok(())
}

/// Writes what a rewrite changes.
fn write_changes<E: Eprint + AllocGlobal, D: Disk, W: Write>(
    host: &Host<'_, E, D>,
    changes: &[String],
    writer: &mut Watched<W>,
) -> Result<(), Stop>
    ensures { OnOk result (Appends (W.contents (inner_of writer.old)) (W.contents (inner_of writer.new))
        (spec.changes_text changes.now)) }
{
    for change in changes {
        let change = change.as_str();
        let text = format!(in host.alloc(); "  {change}")?;
        write_line(host, text.as_str(), writer)?;
    }
    Ok(())
}

/// Says what is to be said of a map, names one that changes, and shows how.
fn report_in_text<E: Eprint + AllocGlobal, D: Disk, W: Write>(
    host: &Host<'_, E, D>,
    file: &str,
    outcome: &Outcome,
    writer: &mut Watched<W>,
) -> Result<(), Stop>
    ensures { OnOk result (Appends (W.contents (inner_of writer.old)) (W.contents (inner_of writer.new))
        (spec.plain_report file.now outcome.now)) }
{
    say(host, file, outcome)?;
    if !is_named(&outcome.verdict) {
        return Ok(());
    }
    write_line(host, file, writer)?;
    write_changes(host, &outcome.changes, writer)
}

/// Says what became of a map.
pub(crate) fn report<E: Eprint + AllocGlobal, D: Disk, W: Write>(
    host: &Host<'_, E, D>,
    work: Work,
    file: &str,
    outcome: &Outcome,
    writer: &mut Watched<W>,
) -> Result<(), Stop>
    ensures { OnOk result (Appends (W.contents (inner_of writer.old)) (W.contents (inner_of writer.new))
        (spec.report_of work file.now outcome.now)) }
{
    if !work.wants_json() {
        return report_in_text(host, file, outcome, writer);
    }
    let line = json_line(host.alloc(), file, outcome, work.rewrites())?;
    write_line(host, line.as_str(), writer)
}
