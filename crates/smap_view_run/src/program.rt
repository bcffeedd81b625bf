//! A run of `smap-view`.
use crate::folders::{items_in, scripts_in, with_slash};
use crate::job::{Job, Other, fail_empty, loaded, measures_of, note};
use crate::loading::{Item, Loaded, Reading, item_of};
use crate::measuring::write_sizes;
use crate::status::Verdict;
use crate::template::read_template;
use crate::writing::{write_file, write_page};
use smap_command_line::VERSION;
use smap_command_line::view::{Asked, HELP, ViewWords, WordFault, message, view_words};
use smap_map_files::{base_given, folder_url, refuse_options};
use smap_system::{Disk, Host, Kind, Stop, Watched, parted};
use smap_view_page::{Part, as_old};
use std::alloc::{AllocError, Global};
use std::io::Write;

/// Whether sizes are asked for, and no page.
fn is_about_sizes(asked: &ViewWords<'_>) -> bool {
    asked.sizes().is_some() || asked.options.text("budget").is_some()
}

/// Writes what is asked for.
fn show<E: Eprint + AllocGlobal, D: Disk, W: Write>(
    host: &Host<'_, E, D>,
    program: &str,
    asked: &ViewWords<'_>,
    job: &Job<'_>,
    writer: &mut Watched<W>,
) -> Result<Verdict, Stop> {
    if is_about_sizes(asked) {
        return write_sizes(host, job, asked, writer);
    }
    let template = read_template(host, program)?;
    match asked.options.text("output") {
        Some(file) => write_file(host, job, template.as_str(), file),
        None => write_page(host, job, template.as_str(), writer),
    }
}

/// Appends what has bytes of a script.
fn push_measured(alloc: Global, parts: &mut Vec<Part>, loaded: &Loaded) -> Result<(), AllocError> {
    let measures = measures_of(alloc, loaded)?;
    note(alloc, parts, loaded, &measures, 0)
}

/// What has bytes of these scripts.
fn parts_in<E: Eprint + AllocGlobal, D: Disk>(
    host: &Host<'_, E, D>,
    reading: Reading<'_>,
    items: &[Item<'_>],
    verdict: &mut Verdict,
) -> Result<Vec<Part>, Stop> {
    let mut parts = Vec::new(host.alloc());
    for item in items {
        if let Some(loaded) = loaded(host, reading, *item, verdict)? {
            push_measured(host.alloc(), &mut parts, &loaded)?;
        }
    }
    Ok(parts)
}

/// Reads the build that this one is compared with.
fn read_items<'a, E: Eprint + AllocGlobal, D: Disk>(
    host: &Host<'_, E, D>,
    reading: Reading<'_>,
    name: &'a str,
    items: &[Item<'_>],
) -> Result<Other<'a>, Stop> {
    let mut verdict = Verdict::new();
    let mut parts = parts_in(host, reading, items, &mut verdict)?;
    if parts.is_empty() {
        return Err(fail_empty(host, name, verdict));
    }
    as_old(&mut parts);
    Ok(Other {
        name,
        parts,
        verdict,
    })
}

/// Reads the build in a folder.
fn read_folder<'a, E: Eprint + AllocGlobal, D: Disk>(
    host: &Host<'_, E, D>,
    reading: Reading<'_>,
    path: &'a str,
) -> Result<Other<'a>, Stop> {
    let alloc = host.alloc();
    let folder = with_slash(alloc, path)?;
    let names = scripts_in(host, path, folder.as_str())?;
    let items = items_in(alloc, folder.as_str(), &names)?;
    read_items(host, reading, path, &items)
}

/// Reads the build at a path, as if it were where the new one is.
fn read_other<'a, E: Eprint + AllocGlobal, D: Disk>(
    host: &Host<'_, E, D>,
    reading: Reading<'_>,
    new_folder: &str,
    path: &'a str,
) -> Result<Other<'a>, Stop> {
    let url = folder_url(host, reading.base, new_folder)?;
    let url = String::from_utf8_lossy(host.alloc(), &url)?;
    let reading = Reading {
        base: Some(url.as_str()),
        ..reading
    };
    if host.disk.kind(path) != Kind::Folder {
        return read_items(host, reading, path, &[item_of(path, None)]);
    }
    read_folder(host, reading, path)
}

/// Shows items of this folder, compared with another build if one is named.
fn compare<E: Eprint + AllocGlobal, D: Disk, W: Write>(
    host: &Host<'_, E, D>,
    program: &str,
    asked: &ViewWords<'_>,
    reading: Reading<'_>,
    folder: &str,
    items: &[Item<'_>],
    writer: &mut Watched<W>,
) -> Result<Verdict, Stop> {
    let other = match asked.options.text("compare") {
        Some(path) => Some(read_other(host, reading, folder, path)?),
        None => None,
    };
    let job = Job {
        given: asked.file,
        reading,
        items,
        other: other.as_ref(),
    };
    show(host, program, asked, &job, writer)
}

/// Shows the scripts of a folder that have a map.
fn show_folder<E: Eprint + AllocGlobal, D: Disk, W: Write>(
    host: &Host<'_, E, D>,
    program: &str,
    asked: &ViewWords<'_>,
    reading: Reading<'_>,
    writer: &mut Watched<W>,
) -> Result<Verdict, Stop> {
    let alloc = host.alloc();
    if let Some(script) = asked.script {
        let text = format!(in alloc; "a folder takes no script: {script}")?;
        return Err(host.fail(2, text.as_str()));
    }
    let folder = with_slash(alloc, asked.file)?;
    let folder = folder.as_str();
    let names = scripts_in(host, asked.file, folder)?;
    let items = items_in(alloc, folder, &names)?;
    compare(host, program, asked, reading, folder, &items, writer)
}

/// Does what the values of the command line say.
fn view<E: Eprint + AllocGlobal, D: Disk, W: Write>(
    host: &Host<'_, E, D>,
    program: &str,
    asked: &ViewWords<'_>,
    on_terminal: bool,
    writer: &mut Watched<W>,
) -> Result<Verdict, Stop> {
    let output = asked.options.text("output");
    if on_terminal && output.is_none() && !is_about_sizes(asked) {
        let text =
            "the page would go to the terminal: smap-view MAP >page.html writes it to a file";
        return Err(host.fail(2, text));
    }
    let base = match asked.options.text("base") {
        Some(base) => Some(base_given(host, base)?),
        None => None,
    };
    let base = match &base {
        Some(base) => Some(base.as_str()),
        None => None,
    };
    let reading = Reading {
        base,
        url_bytes: asked.options.url_bytes(),
    };
    if host.disk.kind(asked.file) == Kind::Folder {
        return show_folder(host, program, asked, reading, writer);
    }
    let (folder, items) = (parted(asked.file).0, [item_of(asked.file, asked.script)]);
    compare(host, program, asked, reading, folder, &items, writer)
}

/// What the words ask for.
fn answer<E: Eprint + AllocGlobal, D: Disk, W: Write>(
    host: &Host<'_, E, D>,
    words: &[&str],
    on_terminal: bool,
    writer: &mut Watched<W>,
) -> Result<Verdict, Stop> {
    let program = match words {
        [program, ..] => *program,
        [] => "",
    };
    match view_words(host.alloc(), words) {
        Ok(Asked::Help) => host.write(HELP.as_bytes(), writer)?,
        Ok(Asked::Version) => host.write(VERSION.as_bytes(), writer)?,
        Ok(Asked::View(asked)) => return view(host, program, &asked, on_terminal, writer),
        Err(WordFault::Options(fault)) => return Err(refuse_options(host, &fault)),
        Err(WordFault::Nothing) => return Err(host.fail_with_help(HELP)),
        Err(fault) => return Err(host.fail_words(message(host.alloc(), &fault), None)),
    }
    Ok(Verdict::new())
}

/// Runs `smap-view`. The first word is the name of the program, by which its template is found where it has a
/// folder. `on_terminal` says whether the output is a terminal, to which no page is written. Answers the exit
/// status: 0 where it is done, 1 where a map is refused, a script of a folder is left out or sources have
/// more bytes than the budget allows, 2 where the command line is wrong, or a map or a script isn't there, 3
/// where a file can't be read or written, 4 where memory ran out, 141 where nobody reads the output any more.
pub fn run<E: Eprint + AllocGlobal, D: Disk, W: Write>(
    rt: &E,
    disk: &D,
    words: &[&str],
    on_terminal: bool,
    output: &mut Watched<W>,
) -> u8 {
    let host = Host {
        rt,
        disk,
        name: "smap-view",
    };
    match answer(&host, words, on_terminal, output) {
        Ok(verdict) => verdict.status(),
        Err(stop) => host.end(stop),
    }
}
