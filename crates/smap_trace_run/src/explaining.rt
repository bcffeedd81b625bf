//! `--explain`: why a position becomes that of a source, or stays.
use crate::alone::LinesRead;
use crate::output::Output;
use crate::tracing::Job;
use smap_map_files::{Positions, log_of};
use smap_map_finder::Finder;
use smap_system::{Disk, Host, Stop};
use smap_trace_summary::Question;
use std::alloc::{AllocError, Global};
use std::io::Write;

/// The position as the line of a log.
fn line_of(alloc: Global, given: &Positions<'_>, word: &str) -> Result<Vec<u8>, AllocError> {
    let mut positions = Positions {
        scripts: Vec::new(alloc),
        words: Vec::new(alloc),
    };
    for script in &given.scripts {
        positions.scripts.push(Vec::from_slice(alloc, script)?)?;
    }
    positions.words.push(word)?;
    log_of(alloc, &positions)
}

/// Writes why the first line of these becomes what it does. Answers the status: 1 where it stays.
fn explain_lines<E: Eprint + AllocGlobal, D: Disk, W: Write + Drop>(
    host: &Host<'_, E, D>,
    job: &Job<'_>,
    finder: &Finder<'_, E, D>,
    lines: &[u8],
    output: &mut Output<W>,
) -> Result<u8, Stop> {
    let question = Question {
        text: lines.split(|b| *b == b'\n').next().unwrap_or(b""),
        mode: job.style.mode,
        with_controls: &job.with_controls,
        prefixes: job.style.prefixes,
    };
    let explained = smap_trace_summary::explain(host, finder, &job.wanted, question)?;
    output.write(host, &explained.text)?;
    Ok(if explained.is_found { 0 } else { 1 })
}

/// The same of a position.
fn explain_with<E: Eprint + AllocGlobal, D: Disk, W: Write + Drop>(
    host: &Host<'_, E, D>,
    job: &Job<'_>,
    finder: &Finder<'_, E, D>,
    position: &str,
    output: &mut Output<W>,
) -> Result<u8, Stop> {
    let alloc = host.alloc();
    let line = line_of(alloc, &job.wanted.positions, position)?;
    let read = LinesRead::of(alloc, &job.wanted, &line)?;
    explain_lines(host, job, finder, read.text(), output)
}

/// Writes why a position becomes that of a source, or stays. Answers the status: 1 where it stays.
pub(crate) fn explain<'h, E: Eprint + AllocGlobal, D: Disk, W: Write + Drop>(
    host: &'h Host<'h, E, D>,
    job: &Job<'_>,
    position: &str,
    output: &mut Output<W>,
) -> Result<u8, Stop> {
    let finder = Finder::new(&*host, job.how, &job.wanted)?;
    let answer = explain_with(&*host, &*job, &finder, position, output);
    drop(finder);
    answer
}
