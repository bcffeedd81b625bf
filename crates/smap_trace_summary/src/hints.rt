//! What helps where nothing was translated, or a log can't be read as it is.
use crate::frames::Frames;
use memchr::memmem;
use smap_logs::look;
use smap_map_files::Wanted;
use smap_map_finder::Finder;
use smap_system::{Disk, Host, Stop, printable};

/// Says what a log is that isn't text in UTF-8, by its first bytes. Answers whether it is none.
pub fn hint_at_start<E: Eprint + AllocGlobal, D: Disk>(
    host: &Host<'_, E, D>,
    start: &[u8],
    verbose: bool,
) -> bool {
    if start.starts_with(b"\x1f\x8b") {
        host.say("the log is compressed: zcat crash.log.gz | smap-trace ... reads it");
        return true;
    }
    if start.starts_with(b"\xff\xfe") || start.starts_with(b"\xfe\xff") {
        host.say(
            "the log is in UTF-16: iconv -f UTF-16 -t UTF-8 crash.log | smap-trace ... reads it",
        );
        return true;
    }
    if verbose && start.starts_with(b"\xef\xbb\xbf") {
        host.say("the log begins with a byte order mark");
    }
    false
}

/// Why a script has no map.
fn why_no_map<E: Eprint + AllocGlobal, D: Disk>(
    host: &Host<'_, E, D>,
    wanted: &Wanted<'_>,
    script: &[u8],
    finder: &Finder<'_, E, D>,
) -> Result<String, Stop> {
    let alloc = host.alloc();
    let given = wanted
        .places
        .iter()
        .any(|place| place.script.as_slice() == script);
    if given || finder.gave_none(script) {
        let text = String::from_str(alloc, "what is given for it has none; -v says more")?;
        return Ok(text);
    }
    let text = match (wanted.places.first(), wanted.roots.last()) {
        (Some(place), _) => {
            let name = printable(alloc, &place.script)?;
            let name = name.as_str();
            format!(in alloc; "the first map is that of {name}")?
        }
        (None, Some(root)) => {
            let name = printable(alloc, root.path.as_str().as_bytes())?;
            let name = name.as_str();
            format!(in alloc; "no file of {name} ends as it does")?
        }
        (None, None) => String::from_str(alloc, "no map is given")?,
    };
    Ok(text)
}

/// What a log is like, and how it is read.
#[derive(Clone, Copy)]
pub struct LogForm {
    /// Whether positions are looked for anywhere in a line.
    pub anywhere: bool,
    /// Whether a line has a URL as JSON has it that writes `\/`.
    pub is_escaped: bool,
}

/// What helps where no script of a frame can have a map.
fn hint_without_names(frames: &Frames, log: LogForm) -> &'static str {
    if log.is_escaped {
        "the log has URLs written with \\/ (JSON): smap-events reads it"
    } else if log.anywhere && frames.used.all() > 0 {
        "nothing was translated: no position in the log has a mapping (of another build?)"
    } else if log.anywhere {
        "nothing was translated: no position in the log is one of a script that has a map"
    } else if frames.foreign > 0 {
        "no frame in the log is of a script that can have a map; leave out --frames-only for other lines"
    } else {
        "no line of the log is a stack frame alone; leave out --frames-only for other lines"
    }
}

/// Says why nothing was translated, where no frame is of a script with a map.
pub fn hint_at_nothing<E: Eprint + AllocGlobal, D: Disk>(
    host: &Host<'_, E, D>,
    wanted: &Wanted<'_>,
    frames: &Frames,
    log: LogForm,
    finder: &Finder<'_, E, D>,
) -> Result<(), Stop> {
    let alloc = host.alloc();
    if finder.is_unclear() {
        return Ok(());
    }
    let Some(name) = frames.most_without() else {
        host.say(hint_without_names(frames, log));
        return Ok(());
    };
    let why = why_no_map(host, wanted, name, finder)?;
    let why = why.as_str();
    let name = printable(alloc, name)?;
    let name = name.as_str();
    let text = format!(in alloc; "no map for {name}, the script that most frames name; {why}")?;
    host.say(text.as_str());
    Ok(())
}

/// Whether a line has a position whose URL is written as in JSON with `\/` for each slash.
pub fn has_escaped_url(lines: &[u8]) -> bool {
    memmem::find(lines, b":\\/\\/").is_some()
        && lines.split(|b| *b == b'\n').any(|line| memmem::find(line, b":\\/\\/").is_some()
            && look(line).is_some())
}
