//! The page of a run, written.
use crate::job::{Job, builds_of, fail_empty, loaded, measures_of, note};
use crate::loading::Loaded;
use crate::page::{data_of, write_data, write_growth};
use crate::status::Verdict;
use crate::template::parts;
use smap_system::{Beside, Disk, Host, Kind, Stop, Watched, create_beside};
use smap_view_page::{Measures, Part, growth_value};
use std::io::Write;

/// Writes what has grown, if there are two builds.
fn write_other<E: Eprint + AllocGlobal, D: Disk, W: Write>(
    host: &Host<'_, E, D>,
    job: &Job<'_>,
    noted: &[Part],
    writer: &mut Watched<W>,
) -> Result<(), Stop> {
    match builds_of(job, noted) {
        Some(builds) => write_growth(host, &growth_value(host.alloc(), builds)?, writer),
        None => Ok(()),
    }
}

/// What of a page is written.
#[derive(Drop)]
struct Page<'a> {
    /// The beginning of its template.
    head: &'a str,
    /// How many scripts are shown.
    shown: usize,
    /// Their parts, if another build is compared with.
    noted: Vec<Part>,
}

/// Writes what a page has of a script, behind its beginning: nothing is written before there is something to
/// show.
fn write_script<E: Eprint + AllocGlobal, D: Disk, W: Write>(
    host: &Host<'_, E, D>,
    page: &mut Page<'_>,
    loaded: &Loaded,
    measures: &Measures,
    writer: &mut Watched<W>,
) -> Result<(), Stop> {
    let data = data_of(host.alloc(), loaded, measures)?;
    if page.shown == 0 {
        host.write(page.head.as_bytes(), writer)?;
    }
    page.shown = page.shown.saturating_add(1);
    write_data(host, page.shown, &data, writer)
}

/// Adds a script to a page.
fn add_script<E: Eprint + AllocGlobal, D: Disk, W: Write>(
    host: &Host<'_, E, D>,
    job: &Job<'_>,
    page: &mut Page<'_>,
    loaded: &Loaded,
    writer: &mut Watched<W>,
) -> Result<(), Stop> {
    let measures = measures_of(host.alloc(), loaded)?;
    if job.other.is_some() {
        let number = page.shown;
        note(host.alloc(), &mut page.noted, loaded, &measures, number)?;
    }
    write_script(host, page, loaded, &measures, writer)
}

/// Writes the scripts of a page. Answers what was found wrong.
fn write_scripts<E: Eprint + AllocGlobal, D: Disk, W: Write>(
    host: &Host<'_, E, D>,
    job: &Job<'_>,
    page: &mut Page<'_>,
    writer: &mut Watched<W>,
) -> Result<Verdict, Stop> {
    let mut verdict = job.verdict();
    for item in job.items {
        if let Some(loaded) = loaded(host, job.reading, *item, &mut verdict)? {
            add_script(host, job, page, &loaded, writer)?;
        }
    }
    Ok(verdict)
}

/// Writes the page into its template.
pub(crate) fn write_page<E: Eprint + AllocGlobal, D: Disk, W: Write>(
    host: &Host<'_, E, D>,
    job: &Job<'_>,
    template: &str,
    writer: &mut Watched<W>,
) -> Result<Verdict, Stop> {
    let (head, tail) = parts(template);
    let mut page = Page {
        head,
        shown: 0,
        noted: Vec::new(host.alloc()),
    };
    let verdict = write_scripts(host, job, &mut page, writer)?;
    if page.shown == 0 {
        return Err(fail_empty(host, job.given, verdict));
    }
    write_other(host, job, &page.noted, writer)?;
    host.write(tail.as_bytes(), writer)?;
    Ok(verdict)
}

/// Gives a file that was written its name, unless the run stops.
fn end_file<E: Eprint + AllocGlobal, D: Disk>(
    host: &Host<'_, E, D>,
    beside: Beside,
    answer: Result<Verdict, Stop>,
) -> Result<Verdict, Stop> {
    match answer {
        Ok(verdict) => match beside.finish(host.disk) {
            Ok(()) => Ok(verdict),
            Err(error) => Err(host.fail_writing(&error)),
        },
        Err(stop) => {
            beside.abandon(host.disk);
            Err(stop)
        }
    }
}

/// Writes the page to the file that `-o` names, beside it until all is written.
pub(crate) fn write_file<E: Eprint + AllocGlobal, D: Disk>(
    host: &Host<'_, E, D>,
    job: &Job<'_>,
    template: &str,
    file: &str,
) -> Result<Verdict, Stop> {
    if host.disk.kind(file) == Kind::Special {
        let text = "-o: expected the name of a file, which no pipe or device is";
        return Err(host.fail(2, text));
    }
    let (beside, writer) = match create_beside(host.alloc(), host.disk, file) {
        Ok(made) => made,
        Err(fault) => return Err(host.fail_writing(&fault.into_error())),
    };
    let mut writer = Watched::new(writer);
    let answer = write_page(host, job, template, &mut writer);
    drop(writer);
    end_file(host, beside, answer)
}
