//! A run over scripts.
use crate::comments::is_fit;
use crate::deciding::{Deed, deed_of};
use crate::identifying::write_both;
use crate::outlining::write_map;
use crate::refusal::Refusal;
use crate::replacing::replace_file;
use crate::scripts::scripts_of;
use smap_system::{Disk, Host, LIMIT, Stamp, Stop, Watched, printable, read_file};
use std::io::Write;

/// What is done with each script.
#[derive(Clone, Copy)]
pub enum ScriptTask<'a> {
    /// The comment that names its map gets this URL.
    Set(&'a str),
    /// The comments that name its map are removed.
    Remove,
    /// The map that it names is put into its comment.
    Inline,
    /// The map in its comment is put into a file next to it.
    Outline,
    /// It and the map in its folder get one debug id.
    Identify,
}

/// What is asked of a run over scripts.
#[derive(Drop)]
pub struct ScriptsAsked<'a> {
    /// Files and folders. Of a folder each script and style sheet counts.
    pub paths: Vec<&'a str>,
    pub task: ScriptTask<'a>,
    /// Whether scripts are rewritten; else they are named.
    pub write: bool,
}

/// Writes a line to the output, as a terminal may have it.
fn write_line<E: Eprint + AllocGlobal, D: Disk, W: Write>(
    host: &Host<'_, E, D>,
    text: &str,
    writer: &mut Watched<W>,
) -> Result<(), Stop> {
    let mut line = printable(host.alloc(), text.as_bytes())?;
    line.push_str("\n")?;
    host.write(line.as_str().as_bytes(), writer)
}

/// What a script is, and its text.
fn read<E: Eprint + AllocGlobal, D: Disk>(
    host: &Host<'_, E, D>,
    path: &str,
) -> Result<(Stamp, Vec<u8>), Refusal> {
    let Ok(stamp) = host.disk.stamp(path) else {
        return Err(Refusal::Unreadable);
    };
    let text = read_file(host.alloc(), host.disk, path, LIMIT)?;
    Ok((stamp, text))
}

/// Does what is to become of a script, which was this when it was read.
fn rewrite<E: Eprint + AllocGlobal, D: Disk>(
    host: &Host<'_, E, D>,
    path: &str,
    stamp: Stamp,
    deed: &Deed,
) -> Result<(), Refusal> {
    let (alloc, disk) = (host.alloc(), host.disk);
    match deed {
        Deed::Nothing => Ok(()),
        Deed::Text(text) => Ok(replace_file(alloc, disk, path, Some(stamp), text)?),
        Deed::Outline(outlined) => {
            write_map(alloc, disk, outlined)?;
            Ok(replace_file(alloc, disk, path, Some(stamp), &outlined.text)?)
        }
        Deed::Identify(identified) => write_both(alloc, disk, path, stamp, identified),
    }
}

/// Whether a script changes, once that is done if it is to be written.
fn change<E: Eprint + AllocGlobal, D: Disk>(
    host: &Host<'_, E, D>,
    asked: &ScriptsAsked<'_>,
    path: &str,
) -> Result<bool, Refusal> {
    let (stamp, text) = read(host, path)?;
    let deed = deed_of(host.alloc(), host.disk, asked.task, path, &text)?;
    if asked.write {
        rewrite(host, path, stamp, &deed)?;
    }
    Ok(!matches!(deed, Deed::Nothing))
}

/// Changes a script, and says what became of it: answers the status of that.
fn edit_script<E: Eprint + AllocGlobal, D: Disk, W: Write>(
    host: &Host<'_, E, D>,
    asked: &ScriptsAsked<'_>,
    path: &str,
    writer: &mut Watched<W>,
) -> Result<u8, Stop> {
    match change(host, asked, path) {
        Ok(false) => Ok(0),
        Ok(true) => {
            write_line(host, path, writer)?;
            Ok(if asked.write { 0 } else { 1 })
        }
        Err(refusal) => {
            host.say_of(path, refusal.text());
            Ok(refusal.status())
        }
    }
}

/// Refuses a URL that can't stand in a comment.
fn check_task<E: Eprint + AllocGlobal, D: Disk>(
    host: &Host<'_, E, D>,
    task: ScriptTask<'_>,
) -> Result<(), Stop> {
    match task {
        ScriptTask::Set(url) if !is_fit(url.as_bytes()) => {
            Err(host.fail_with(2, "--set: expected a URL as it stands in a comment", url))
        }
        _ => Ok(()),
    }
}

/// Changes the scripts that are named, and says which, one after another. Answers the status of a run that
/// came to its end: the greatest of all.
///
/// # Errors
///
/// Why the run stops: what is wrong was said.
pub fn edit_scripts<E: Eprint + AllocGlobal, D: Disk, W: Write>(
    host: &Host<'_, E, D>,
    asked: &ScriptsAsked<'_>,
    writer: &mut Watched<W>,
) -> Result<u8, Stop> {
    check_task(host, asked.task)?;
    let scripts = scripts_of(host, &asked.paths)?;
    let mut worst = 0;
    for script in &scripts {
        let status = edit_script(host, asked, script.as_str(), writer)?;
        worst = worst.max(status);
    }
    Ok(worst)
}
