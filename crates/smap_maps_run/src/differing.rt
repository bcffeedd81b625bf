//! The maps of two builds, compared.
use crate::Verdict;
use crate::extracting::{base_of, bytes_of, map_in, no_memory, refuse};
use crate::forms::{Form, written};
use crate::looking::tree;
use crate::targets::{Target, targets_of};
use smap_command_line::maps::MapsWords;
use smap_differences::{
    DiffForm, MapDiff, Pair, State, changed_contents, changes, diff_form, elsewhere, map_diff_text,
    paired,
};
use smap_map_files::{MapText, base_given, folder_url, is_within, without_slashes};
use smap_record::SourceMap;
use smap_system::{Disk, Host, Kind, LIMIT, Stop, Watched, parted, read_file};
use smap_view_page::{
    Builds, Part, as_old, growth_markdown, growth_table, growth_value, json_line, measured_script,
    push_parts, script_names,
};
use std::alloc::{AllocError, Global};
use std::io::Write;

/// Before the first row.
const MARKDOWN_HEAD: &str = "| | map | change |\n|---|---|---|\n";

/// What is compared, and how it is written.
#[derive(Clone, Copy)]
struct Job<'a> {
    /// The paths of both builds, as they are given.
    old: &'a str,
    new: &'a str,
    form: DiffForm,
    url_bytes: usize,
}

/// What was found so far.
#[derive(Drop)]
struct Found {
    /// The greatest status.
    status: u8,
    /// Whether something was written.
    begun: bool,
    /// What has bytes of scripts, in both builds.
    old: Vec<Part>,
    new: Vec<Part>,
}

/// A map that was read, and its canonical form.
#[derive(Drop)]
struct ReadMap {
    map: SourceMap,
    text: Vec<u8>,
}

fn read_map<D: Disk>(
    alloc: Global,
    disk: &D,
    file: &str,
    url: &[u8],
    url_bytes: usize,
) -> Result<ReadMap, Verdict> {
    let bytes = bytes_of(alloc, disk, file)?;
    let base = base_of(alloc, url)?;
    let text = MapText {
        bytes: &bytes,
        base: &base,
        url_bytes,
        is_file: true,
    };
    let map = map_in(alloc, &text)?;
    match written(alloc, Form::Canonical { relative: true }, &base, &map) {
        Ok(text) => Ok(ReadMap { map, text }),
        Err(_) => Err(no_memory()),
    }
}

/// Reads a map, or says why it is refused.
fn read<E: Eprint + AllocGlobal, D: Disk>(
    host: &Host<'_, E, D>,
    job: Job<'_>,
    file: &str,
    url: &[u8],
    found: &mut Found,
) -> Result<Option<ReadMap>, Stop> {
    match read_map(host.alloc(), host.disk, file, url, job.url_bytes) {
        Ok(map) => Ok(Some(map)),
        Err(verdict) => {
            let status = refuse(host, file, verdict)?;
            found.status = found.status.max(status);
            Ok(None)
        }
    }
}

/// The text of the file next to a map with this name, if there is one; no link leads elsewhere.
fn text_beside<E: Eprint + AllocGlobal, D: Disk>(
    host: &Host<'_, E, D>,
    folder: &str,
    name: &str,
) -> Result<Option<String>, Stop> {
    let alloc = host.alloc();
    let path = format!(in alloc; "{folder}{name}")?;
    let path = path.as_str();
    if name.is_empty()
        || host.disk.kind(path) != Kind::File
        || !is_within(alloc, host.disk, folder, path)?
    {
        return Ok(None);
    }
    match read_file(alloc, host.disk, path, LIMIT) {
        Ok(bytes) => Ok(String::from_utf8(bytes).ok()),
        Err(_) => Ok(None),
    }
}

/// The script next to a map, if there is one in UTF-8.
fn script_of<E: Eprint + AllocGlobal, D: Disk>(
    host: &Host<'_, E, D>,
    file: &str,
    map: &SourceMap,
) -> Result<Option<String>, Stop> {
    let (folder, name) = parted(file);
    let (named, without) = script_names(name, map.file());
    match text_beside(host, folder, named)? {
        Some(text) => Ok(Some(text)),
        None => text_beside(host, folder, without),
    }
}

/// Counts a script.
fn count(
    alloc: Global,
    parts: &mut Vec<Part>,
    map: &SourceMap,
    text: &str,
) -> Result<(), AllocError> {
    let measures = measured_script(alloc, map, text, text.len())?;
    push_parts(alloc, parts, map, &measures, 0)
}

/// Counts the scripts of a map of both builds, if both are there.
fn count_both<E: Eprint + AllocGlobal, D: Disk>(
    host: &Host<'_, E, D>,
    old: (&str, &SourceMap),
    new: (&str, &SourceMap),
    found: &mut Found,
) -> Result<(), Stop> {
    let Some(old_text) = script_of(host, old.0, old.1)? else {
        return Ok(());
    };
    let Some(new_text) = script_of(host, new.0, new.1)? else {
        return Ok(());
    };
    count(host.alloc(), &mut found.old, old.1, old_text.as_str())?;
    count(host.alloc(), &mut found.new, new.1, new_text.as_str())?;
    Ok(())
}

/// What differs between canonical forms.
fn changes_of(alloc: Global, old: &[u8], new: &[u8]) -> Result<Vec<String>, AllocError> {
    let (before, after) = (tree(alloc, old)?, tree(alloc, new)?);
    let mut lines = changes(alloc, &before, &after)?;
    if let Some(line) = changed_contents(alloc, &before, &after)? {
        lines.push(line)?;
    }
    Ok(lines)
}

fn without_changes(alloc: Global, path: &str, state: State) -> MapDiff<'_> {
    MapDiff {
        path,
        state,
        changes: Vec::new(alloc),
        leading: None,
    }
}

/// A map of both builds.
fn differences<'a>(
    alloc: Global,
    path: &'a str,
    old: &ReadMap,
    new: &ReadMap,
) -> Result<MapDiff<'a>, AllocError> {
    if old.text == new.text {
        return Ok(without_changes(alloc, path, State::Same));
    }
    Ok(MapDiff {
        path,
        state: State::Different,
        changes: changes_of(alloc, &old.text, &new.text)?,
        leading: Some(elsewhere(&old.map, &new.map)),
    })
}

/// Writes what differs in a map.
fn write_map<E: Eprint + AllocGlobal, D: Disk, W: Write>(
    host: &Host<'_, E, D>,
    job: Job<'_>,
    map: &mut MapDiff<'_>,
    found: &mut Found,
    writer: &mut Watched<W>,
) -> Result<(), Stop> {
    if map.state != State::Same {
        found.status = found.status.max(1);
        if job.form == DiffForm::Markdown && !found.begun {
            host.write(MARKDOWN_HEAD.as_bytes(), writer)?;
        }
        found.begun = true;
    }
    let text = map_diff_text(host.alloc(), job.form, map)?;
    host.write(text.as_bytes(), writer)
}

/// Compares a map of both builds, by the URL of the new one.
fn compare_both<E: Eprint + AllocGlobal, D: Disk, W: Write>(
    host: &Host<'_, E, D>,
    job: Job<'_>,
    path: &str,
    old: &Target,
    new: &Target,
    found: &mut Found,
    writer: &mut Watched<W>,
) -> Result<(), Stop> {
    let (old_file, new_file) = (old.file.as_str(), new.file.as_str());
    let old = read(host, job, old_file, &new.url, found)?;
    let new = read(host, job, new_file, &new.url, found)?;
    let (Some(old), Some(new)) = (old, new) else {
        return Ok(());
    };
    count_both(host, (old_file, &old.map), (new_file, &new.map), found)?;
    let mut map = differences(host.alloc(), path, &old, &new)?;
    write_map(host, job, &mut map, found, writer)
}

/// Names a map that one build alone has.
fn name_single<E: Eprint + AllocGlobal, D: Disk, W: Write>(
    host: &Host<'_, E, D>,
    job: Job<'_>,
    path: &str,
    target: &Target,
    state: State,
    found: &mut Found,
    writer: &mut Watched<W>,
) -> Result<(), Stop> {
    let file = target.file.as_str();
    let Some(read) = read(host, job, file, &target.url, found)? else {
        return Ok(());
    };
    if let Some(text) = script_of(host, file, &read.map)? {
        let parts = if state == State::New {
            &mut found.new
        } else {
            &mut found.old
        };
        count(host.alloc(), parts, &read.map, text.as_str())?;
    }
    let mut map = without_changes(host.alloc(), path, state);
    write_map(host, job, &mut map, found, writer)
}

/// The maps of both builds.
#[derive(Clone, Copy)]
struct Sides<'a> {
    old: &'a [Target],
    new: &'a [Target],
    /// Their paths, by which they belong together.
    old_paths: &'a [&'a str],
    new_paths: &'a [&'a str],
}

/// The map with a number, and its path.
fn mapped<'a>(
    targets: &'a [Target],
    paths: &[&'a str],
    number: Option<usize>,
) -> Option<(&'a Target, &'a str)> {
    let number = number?;
    Some((targets.get(number)?, *paths.get(number)?))
}

/// Compares a pair.
fn compare<E: Eprint + AllocGlobal, D: Disk, W: Write>(
    host: &Host<'_, E, D>,
    job: Job<'_>,
    sides: Sides<'_>,
    pair: Pair,
    found: &mut Found,
    writer: &mut Watched<W>,
) -> Result<(), Stop> {
    let old = mapped(sides.old, sides.old_paths, pair.old);
    let new = mapped(sides.new, sides.new_paths, pair.new);
    match (old, new) {
        (Some((old, _)), Some((new, path))) => {
            compare_both(host, job, path, old, new, found, writer)
        }
        (Some((old, path)), None) => {
            name_single(host, job, path, old, State::Gone, found, writer)
        }
        (None, Some((new, path))) => name_single(host, job, path, new, State::New, found, writer),
        (None, None) => Ok(()),
    }
}

/// Compares all pairs.
fn compare_all<E: Eprint + AllocGlobal, D: Disk, W: Write>(
    host: &Host<'_, E, D>,
    job: Job<'_>,
    sides: Sides<'_>,
    found: &mut Found,
    writer: &mut Watched<W>,
) -> Result<(), Stop> {
    let pairs = paired(host.alloc(), sides.old_paths, sides.new_paths)?;
    for i in 0..pairs.len() {
        compare(host, job, sides, pairs[i], found, writer)?;
    }
    Ok(())
}

/// The growth in the form that is asked for.
fn growth(alloc: Global, job: Job<'_>, builds: Builds<'_>) -> Result<String, AllocError> {
    match job.form {
        DiffForm::Text => growth_table(alloc, job.new, builds),
        DiffForm::Json => json_line(alloc, &growth_value(alloc, builds)?),
        DiffForm::Markdown => {
            let table = growth_markdown(alloc, builds)?;
            let table = table.as_str();
            format!(in alloc; "\n{table}")
        }
    }
}

/// Writes the growth, if scripts were counted and something differs.
fn end<E: Eprint + AllocGlobal, D: Disk, W: Write>(
    host: &Host<'_, E, D>,
    job: Job<'_>,
    found: &mut Found,
    writer: &mut Watched<W>,
) -> Result<(), Stop> {
    if !found.begun {
        if job.form == DiffForm::Markdown && found.status == 0 {
            host.write(b"No map differs.\n", writer)?;
        }
        return Ok(());
    }
    if found.old.is_empty() && found.new.is_empty() {
        return Ok(());
    }
    as_old(&mut found.old);
    let builds = Builds {
        name: job.old,
        old: &found.old,
        new: &found.new,
    };
    let text = growth(host.alloc(), job, builds)?;
    host.write(text.as_bytes(), writer)
}

/// Compares the maps of both builds. Answers the status of a run that came to its end.
fn run_sides<E: Eprint + AllocGlobal, D: Disk, W: Write>(
    host: &Host<'_, E, D>,
    job: Job<'_>,
    sides: Sides<'_>,
    writer: &mut Watched<W>,
) -> Result<u8, Stop> {
    let mut found = Found {
        status: 0,
        begun: false,
        old: Vec::new(host.alloc()),
        new: Vec::new(host.alloc()),
    };
    compare_all(host, job, sides, &mut found, writer)?;
    end(host, job, &mut found, writer)?;
    Ok(found.status)
}

/// The path of a map below its folder.
fn path_below<'a>(folder: &str, file: &'a str) -> &'a str {
    let path = file.strip_prefix(folder).unwrap_or(file);
    path.strip_prefix('/').unwrap_or(path)
}

/// The paths by which maps belong together: those below a folder, or one for both where files are compared.
fn paths_of<'a>(
    alloc: Global,
    folder: Option<&str>,
    targets: &'a [Target],
    one: &'a str,
) -> Result<Vec<&'a str>, AllocError> {
    let mut paths = Vec::with_capacity(alloc, targets.len())?;
    for target in targets {
        paths.push(match folder {
            Some(folder) => path_below(folder, target.file.as_str()),
            None => one,
        })?;
    }
    Ok(paths)
}

/// The path of a folder, if it is one.
fn folder_at<'a, E: Eprint + AllocGlobal, D: Disk>(
    host: &Host<'_, E, D>,
    path: &'a str,
) -> Option<&'a str> {
    if host.disk.kind(path) == Kind::Folder {
        return Some(without_slashes(path));
    }
    None
}

/// The URL of the new build, which both are taken to have.
fn url_of<E: Eprint + AllocGlobal, D: Disk>(
    host: &Host<'_, E, D>,
    asked: &MapsWords<'_>,
    new: &str,
) -> Result<String, Stop> {
    let folder = folder_at(host, new).unwrap_or(parted(new).0);
    let url = match asked.options.text("base") {
        Some(base) => {
            let base = base_given(host, base)?;
            folder_url(host, Some(base.as_str()), folder)?
        }
        None => folder_url(host, None, folder)?,
    };
    Ok(String::from_utf8_lossy(host.alloc(), &url)?)
}

/// Compares what the paths of a job name, both with this URL.
fn run_job<E: Eprint + AllocGlobal, D: Disk, W: Write>(
    host: &Host<'_, E, D>,
    job: Job<'_>,
    url: &str,
    writer: &mut Watched<W>,
) -> Result<u8, Stop> {
    let old = targets_of(host, Some(url), &[job.old])?;
    let new = targets_of(host, Some(url), &[job.new])?;
    let (old_folder, new_folder) = (folder_at(host, job.old), folder_at(host, job.new));
    if old_folder.is_some() != new_folder.is_some() {
        return Err(host.fail(2, "diff: expected two maps or two folders"));
    }
    run_targets(host, job, (old_folder, new_folder), &old, &new, writer)
}

/// Compares maps, which are in these folders if they are.
fn run_targets<E: Eprint + AllocGlobal, D: Disk, W: Write>(
    host: &Host<'_, E, D>,
    job: Job<'_>,
    folders: (Option<&str>, Option<&str>),
    old: &[Target],
    new: &[Target],
    writer: &mut Watched<W>,
) -> Result<u8, Stop> {
    let old_paths = paths_of(host.alloc(), folders.0, old, job.new)?;
    let new_paths = paths_of(host.alloc(), folders.1, new, job.new)?;
    let sides = Sides {
        old,
        new,
        old_paths: &old_paths,
        new_paths: &new_paths,
    };
    run_sides(host, job, sides, writer)
}

/// Compares the maps of two builds. Answers the status of a run that came to its end.
pub(crate) fn diff<E: Eprint + AllocGlobal, D: Disk, W: Write>(
    host: &Host<'_, E, D>,
    asked: &MapsWords<'_>,
    writer: &mut Watched<W>,
) -> Result<u8, Stop> {
    let paths = asked.paths.as_slice();
    let [old, new] = paths else {
        return Err(host.fail(2, "diff: expected two maps or two folders"));
    };
    let job = Job {
        old: *old,
        new: *new,
        form: diff_form(asked.options.text("format")),
        url_bytes: asked.options.url_bytes(),
    };
    let url = url_of(host, asked, job.new)?;
    run_job(host, job, url.as_str(), writer)
}
