//! The sources of maps, changed in place.
use crate::deciding::Work;
use crate::extracting::refuse;
use crate::looking::{Case, MapFile};
use crate::replacing::put;
use crate::reporting::write_line;
use crate::targets::targets_of;
use crate::{Verdict, unread};
use smap_command_line::MapsCommand;
use smap_command_line::maps::MapsWords;
use smap_extract::{MapRead, Meant, SourcesTask, changed_sources};
use smap_map_files::MapText;
use smap_record::{Limits, SourceMap};
use smap_system::{Disk, Host, Stamp, Stop, Watched};
use std::alloc::{AllocError, Global};
use std::io::Write;

/// What is done with the sources of each map.
fn sources_task<'a>(alloc: Global, asked: &MapsWords<'a>) -> Result<SourcesTask<'a>, AllocError> {
    let options = &asked.options;
    if asked.command == MapsCommand::Rename {
        let mut prefixes = Vec::new(alloc);
        for word in &options.texts(alloc, "source-prefix")? {
            prefixes.push(word.split_once('=').unwrap_or((*word, "")))?;
        }
        return Ok(if options.has("strip-common") {
            SourcesTask::Strip
        } else {
            SourcesTask::Rename(prefixes)
        });
    }
    let only = options.texts(alloc, "only")?;
    let except = options.texts(alloc, "except")?;
    let meant = Meant { only, except };
    if options.has("add") {
        Ok(SourcesTask::Add(meant))
    } else {
        Ok(SourcesTask::Drop(meant))
    }
}

/// The map in a file, or what becomes of one that can't be read.
fn map_in<'f>(
    alloc: Global,
    url: &'f [u8],
    file: &'f MapFile,
    url_bytes: usize,
) -> Result<MapRead<'f>, Verdict> {
    let (bytes, base) = (file.bytes.as_slice(), &file.base);
    match SourceMap::from_slice_within(alloc, bytes, base, Limits::usual(), url_bytes) {
        Ok(Some((map, written))) => Ok(MapRead {
            url,
            base,
            url_bytes,
            bytes,
            map,
            written,
        }),
        Ok(None) => Err(Verdict::LongUrls(url_bytes)),
        Err(error) => {
            let text = MapText {
                bytes,
                base,
                url_bytes,
                is_file: true,
            };
            Err(unread(alloc, &text, error))
        }
    }
}

/// Names a map that changes, once its file has the new text if that is wanted. Answers the status of that.
fn finish<E: Eprint + AllocGlobal, D: Disk, W: Write>(
    host: &Host<'_, E, D>,
    file: &str,
    stamp: Stamp,
    text: Option<&[u8]>,
    writer: &mut Watched<W>,
) -> Result<u8, Stop> {
    let Some(text) = text else {
        write_line(host, file, writer)?;
        return Ok(1);
    };
    match put(host.alloc(), host.disk, file, stamp, text) {
        Ok(()) => {
            write_line(host, file, writer)?;
            Ok(0)
        }
        Err(failure) => refuse(host, file, Verdict::Failed(failure)),
    }
}

/// Changes the sources of a target's map, or says why not. Answers the status of that.
fn change_target<E: Eprint + AllocGlobal, D: Disk, W: Write>(
    host: &Host<'_, E, D>,
    case: &Case<'_, D>,
    task: &SourcesTask<'_>,
    write: bool,
    writer: &mut Watched<W>,
) -> Result<u8, Stop> {
    let name = case.target.file.as_str();
    let file = match case.file() {
        Ok(file) => file,
        Err(verdict) => return refuse(host, name, verdict),
    };
    let read = match map_in(host.alloc(), &case.target.url, &file, case.url_bytes) {
        Ok(read) => read,
        Err(verdict) => return refuse(host, name, verdict),
    };
    match changed_sources(host, task, name, &read) {
        Ok(None) => Ok(0),
        Ok(Some(text)) => {
            let text = if write { Some(text.as_slice()) } else { None };
            finish(host, name, file.stamp, text, writer)
        }
        Err(fault) => {
            let text = fault.text(host.alloc())?;
            host.say_of(name, text.as_str());
            Ok(fault.status())
        }
    }
}

/// Changes the sources of the maps that the paths name. Answers the greatest status.
pub(crate) fn source<E: Eprint + AllocGlobal, D: Disk, W: Write>(
    host: &Host<'_, E, D>,
    asked: &MapsWords<'_>,
    writer: &mut Watched<W>,
) -> Result<u8, Stop> {
    let task = sources_task(host.alloc(), asked)?;
    let targets = targets_of(host, None, &asked.paths)?;
    let mut worst = 0;
    for target in &targets {
        let case = Case {
            alloc: host.alloc(),
            disk: host.disk,
            target,
            work: Work::Check { json: false },
            url_bytes: asked.options.url_bytes(),
        };
        let status = change_target(host, &case, &task, asked.options.has("write"), writer)?;
        worst = worst.max(status);
    }
    Ok(worst)
}
