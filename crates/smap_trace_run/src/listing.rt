//! `--list`: the scripts that a log names.
use crate::alone::LinesRead;
use crate::output::Output;
use crate::tracing::{Job, open_log, open_names, stop_if_strict};
use indexmap::IndexMap;
use smap_link::{bare, common_tail};
use smap_logs::{Log, Looked, Names};
use smap_map_files::Wanted;
use smap_map_finder::Finder;
use smap_system::{Disk, Host, Stop, printable};
use smap_trace_summary::{Taken, hint_at_start, path_of, taken_of};
use std::alloc::{AllocError, Global};
use std::io::{Read, Write};

/// What a list is made of.
#[derive(Drop)]
struct Listed {
    names: Names,
    looked: Looked,
}

impl Listed {
    fn new(alloc: Global) -> Listed {
        Listed {
            names: Names::new(alloc),
            looked: Looked::new(),
        }
    }

    fn look(&mut self, lines: &[u8]) {
        for line in lines.split(|b| *b == b'\n') {
            self.looked.line(line);
        }
    }

    /// Adds what lines have.
    fn add(&mut self, alloc: Global, wanted: &Wanted<'_>, lines: &[u8]) -> Result<(), AllocError> {
        let read = LinesRead::of(alloc, wanted, lines)?;
        let lines = read.text();
        self.names.add_frames(alloc, lines)?;
        self.look(lines);
        Ok(())
    }
}

/// Adds what a log has.
fn list_log<E: Eprint + AllocGlobal, D: Disk, R: Read>(
    host: &Host<'_, E, D>,
    job: &Job<'_>,
    reader: R,
    listed: &mut Listed,
) -> Result<(), Stop>
where
    R: Drop,
{
    let alloc = host.alloc();
    let mut log = Log::new(alloc, reader);
    let mut is_first = true;
    for _ in 0..u64::MAX {
        if !log.advance(host)? {
            return Ok(());
        }
        let lines = log.lines();
        if is_first {
            let _ = hint_at_start(host, lines, job.how.verbose);
            is_first = false;
        }
        listed.add(alloc, &job.wanted, lines)?;
    }
    Err(host.fail(3, "cannot read the log"))
}

/// A script that the logs name: how often, and the file that it takes.
#[derive(Clone, Copy)]
struct Row<'f, 's> {
    count: u64,
    name: &'s [u8],
    file: Option<&'f [u8]>,
}

/// The names with their counts, the most frequent first, then in the order of their bytes.
fn rows<'f, 's>(
    alloc: Global,
    names: &'s Names,
    files: &[Option<&'f [u8]>],
) -> Result<Vec<Row<'f, 's>>, AllocError> {
    let mut rows = Vec::with_capacity(alloc, names.frames.len())?;
    for ((name, count), file) in names.frames.iter().zip(files.iter()) {
        rows.push(Row {
            count: *count,
            name: name.as_slice(),
            file: *file,
        })?;
    }
    rows.sort_by(|a, b| b.count.cmp(&a.count).then(a.name.cmp(b.name)))?;
    Ok(rows)
}

/// Whether of a script's name and of a file's name without `.map` the last segment alone is the same.
fn agree_in_last(name: &[u8], file: &[u8]) -> bool {
    let file = file.strip_suffix(b".map".as_slice()).unwrap_or(file);
    let name = bare(name);
    let same = common_tail(name, file);
    let Some(before) = name.len().checked_sub(same) else {
        return false;
    };
    match (name.get(before..), path_of(name).get(1..)) {
        (Some(tail), Some(path)) => !tail.contains(&b'/') && path.contains(&b'/'),
        _ => false,
    }
}

/// What makes it doubtful that the map of a file is that of a script, in words that end the script's row.
fn doubt(
    alloc: Global,
    wanted: &Wanted<'_>,
    name: &[u8],
    taken: &Taken<'_, '_>,
) -> Result<String, AllocError> {
    let file = printable(alloc, taken.file)?;
    let file = file.as_str();
    if let Some(other) = taken.other {
        let other = if name == taken.script {
            other
        } else {
            taken.script
        };
        let other = printable(alloc, other)?;
        let other = other.as_str();
        return format!(in alloc; "  ({file}, which {other} takes too)");
    }
    let is_by_end = wanted.files.iter().any(|f| f.as_slice() == taken.file);
    if is_by_end && agree_in_last(name, taken.file) {
        return format!(in alloc; "  ({file}, by its file name alone)");
    }
    Ok(String::new(alloc))
}

/// What makes it doubtful that the map that a script takes is its own, if something does.
fn doubt_of(
    alloc: Global,
    wanted: &Wanted<'_>,
    all: &IndexMap<&[u8], Taken<'_, '_>>,
    row: Row<'_, '_>,
) -> Result<String, AllocError> {
    let Some(file) = row.file else {
        return Ok(String::new(alloc));
    };
    match all.get(file) {
        Some(taken) => doubt(alloc, wanted, row.name, taken),
        None => Ok(String::new(alloc)),
    }
}

/// A row in words.
fn row_text(alloc: Global, row: Row<'_, '_>, has: &str, doubt: &str) -> Result<String, AllocError> {
    let count = row.count;
    let name = printable(alloc, row.name)?;
    let name = name.as_str();
    format!(in alloc; "{count:>7}  {has}  {name}{doubt}\n")
}

/// The line of a row.
fn line_of<E: Eprint + AllocGlobal, D: Disk>(
    alloc: Global,
    wanted: &Wanted<'_>,
    finder: &Finder<'_, E, D>,
    all: &IndexMap<&[u8], Taken<'_, '_>>,
    row: Row<'_, '_>,
) -> Result<String, AllocError> {
    if finder.map_of(row.name).is_none() {
        return row_text(alloc, row, "no map   ", "");
    }
    let doubt = doubt_of(alloc, wanted, all, row)?;
    row_text(alloc, row, "has a map", doubt.as_str())
}

/// The list.
fn list_text<E: Eprint + AllocGlobal, D: Disk>(
    alloc: Global,
    wanted: &Wanted<'_>,
    names: &Names,
    finder: &Finder<'_, E, D>,
) -> Result<String, Stop> {
    let scripts = names.of_frames(alloc)?;
    let files = finder.files_of(true, &scripts)?;
    let all = taken_of(alloc, &scripts, &files)?;
    let mut text = String::new(alloc);
    for row in rows(alloc, names, &files)? {
        let line = line_of(alloc, wanted, finder, &all, row)?;
        text.push_str(line.as_str())?;
    }
    Ok(text)
}

fn frame_count(names: &Names) -> u64 {
    let mut sum = 0u64;
    for (_, count) in names.frames.iter() {
        sum = sum.saturating_add(*count);
    }
    sum
}

/// Says why the list isn't what one would expect, if that is plain.
fn hint_at_list<E: Eprint + AllocGlobal, D: Disk>(
    host: &Host<'_, E, D>,
    job: &Job<'_>,
    listed: &Listed,
    finder: &Finder<'_, E, D>,
) -> Result<(), Stop> {
    let alloc = host.alloc();
    let frames = frame_count(&listed.names);
    let positions = listed.looked.lines;
    if positions > frames {
        let more = positions.saturating_sub(frames);
        let signs = listed.looked.signs(alloc)?;
        let signs = signs.as_str();
        let text = if signs.is_empty() {
            format!(in alloc;
                "lines with positions that are no frames alone, and not listed: {more}"
            )?
        } else {
            format!(in alloc;
                "lines with positions that are no frames alone, and not listed: {more} ({signs})"
            )?
        };
        host.say(text.as_str());
    } else if frames == 0 {
        host.say("no line of the log is a stack frame");
    }
    if frames > 0 && !job.wanted.is_empty() {
        hint_at_maps(host, &job.wanted, &listed.names, finder)?;
    }
    Ok(())
}

/// Says that no script of the log has a map.
fn hint_at_maps<E: Eprint + AllocGlobal, D: Disk>(
    host: &Host<'_, E, D>,
    wanted: &Wanted<'_>,
    names: &Names,
    finder: &Finder<'_, E, D>,
) -> Result<(), Stop> {
    let alloc = host.alloc();
    for (name, _) in names.frames.iter() {
        if finder.map_of(name).is_some() {
            return Ok(());
        }
    }
    let text = match wanted.places.first() {
        Some(place) => {
            let name = printable(alloc, &place.script)?;
            let name = name.as_str();
            format!(in alloc; "none of these has a map; the first map is that of {name}")?
        }
        None => String::from_str(
            alloc,
            "none of these has a map: no file of the folder ends as one",
        )?,
    };
    host.say(text.as_str());
    Ok(())
}

/// Reads the logs for a list.
fn list_logs<E: Eprint + AllocGlobal, D: Disk, I: Read>(
    host: &Host<'_, E, D>,
    job: &Job<'_>,
    input: I,
    listed: &mut Listed,
) -> Result<(), Stop>
where
    I: Drop,
{
    if job.wanted.logs.is_empty() {
        return list_log(host, job, input, listed);
    }
    for path in &job.wanted.logs {
        let log = open_log(host, path)?;
        list_log(host, job, log, listed)?;
    }
    Ok(())
}

/// Writes the list of the names that were found, once their maps are opened. Answers the status of that.
fn write_list<E: Eprint + AllocGlobal, D: Disk, W: Write + Drop>(
    host: &Host<'_, E, D>,
    job: &Job<'_>,
    listed: &Listed,
    finder: &mut Finder<'_, E, D>,
    output: &mut Output<W>,
) -> Result<u8, Stop> {
    let alloc = host.alloc();
    open_names(alloc, &job.with_controls, &listed.names, finder)?;
    stop_if_strict(job, finder)?;
    finder.tell_count()?;
    let text = list_text(alloc, &job.wanted, &listed.names, finder)?;
    output.write(host, text.as_bytes())?;
    hint_at_list(host, job, listed, finder)?;
    Ok(finder.status())
}

/// Lists the scripts that the logs name, by what finds their maps.
fn list_with<E: Eprint + AllocGlobal, D: Disk, I: Read, W: Write + Drop>(
    host: &Host<'_, E, D>,
    job: &Job<'_>,
    input: I,
    finder: &mut Finder<'_, E, D>,
    output: &mut Output<W>,
) -> Result<u8, Stop>
where
    I: Drop,
{
    if job.check_all {
        finder.check_all()?;
        stop_if_strict(job, finder)?;
    }
    let mut listed = Listed::new(host.alloc());
    list_logs(host, job, input, &mut listed)?;
    write_list(host, job, &listed, finder, output)
}

/// Lists the scripts that the logs name.
pub(crate) fn list<'h, E: Eprint + AllocGlobal, D: Disk, I: Read, W: Write + Drop>(
    host: &'h Host<'h, E, D>,
    job: &Job<'_>,
    input: I,
    output: &mut Output<W>,
) -> Result<u8, Stop>
where
    I: Drop,
{
    let mut finder = Finder::new(&*host, job.how, &job.wanted)?;
    let answer = list_with(&*host, &*job, input, &mut finder, output);
    drop(finder);
    answer
}
