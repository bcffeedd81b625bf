//! What is said of a map: why it is refused, where it is from.
ghost use Rattle.std.specs.Prelude.{◌<◌, IfOk};

use crate::loading::MapFault;
use crate::opening::{How, Subject};
use crate::wanted::may_name_map;
use smap_link::{FileKind, file_kind};
use smap_map_choice::Place;
use smap_record::Kind;
use smap_system::{Disk, Host, Stop, printable};
use std::alloc::{AllocError, Global};

/// Says something of a map: its file, its script, and what, as after the one in parentheses.
///
/// # Errors
///
/// `Stop::Memory` alone.
pub fn say_of<E: Eprint + AllocGlobal, D: Disk>(
    host: &Host<'_, E, D>,
    place: &Place,
    what: &str,
) -> Result<(), Stop> {
    let alloc = host.alloc();
    let file = printable(alloc, &place.file)?;
    let script = printable(alloc, &place.script)?;
    let (file, script) = (file.as_str(), script.as_str());
    let text = format!(in alloc; "{file} ({script}){what}")?;
    host.say(text.as_str());
    Ok(())
}

/// What is wrong with a map in words, and the status of that.
fn words_of(alloc: Global, place: &Place, fault: &MapFault) -> Result<(String, u8), AllocError>
    ensures { IfOk result (λ told. 0 < told.1) }
{
    match fault {
        MapFault::Unread => Ok((String::from_str(alloc, "cannot read it")?, 3)),
        MapFault::TooLong => Ok((String::from_str(alloc, "input too long")?, 3)),
        MapFault::NotUtf8 => Ok((String::from_str(alloc, "its URL is not in UTF-8")?, 1)),
        MapFault::NotUrl => {
            let base = printable(alloc, &place.base)?;
            let script = printable(alloc, &place.script)?;
            let file = printable(alloc, &place.file)?;
            let (base, script, file) = (base.as_str(), script.as_str(), file.as_str());
            let text = format!(in alloc;
                "base is no URL: {base} (add =BASE, the URL of the map: \
                 {script}={file}=https://example.org/{script}.map)"
            )?;
            Ok((text, 1))
        }
        MapFault::Link(what) => {
            let what = what.as_str();
            Ok((format!(in alloc; "it {what}")?, 1))
        }
        MapFault::Refused(fault, detail) => {
            let detail = detail.as_str();
            let is_other = fault.kind == Kind::Json && detail.is_empty();
            let kind = match file_kind(&place.file) {
                FileKind::Script if is_other => " (it is a script, which names no map)",
                FileKind::StyleSheet if is_other => " (it is a style sheet, which names no map)",
                _ => "",
            };
            Ok((format!(in alloc; "{fault}{detail}{kind}")?, 1))
        }
        MapFault::UrlBytes(most) => {
            let most = *most;
            let text = format!(in alloc;
                "the URLs of its sources take more than {most} bytes (--url-bytes allows more)"
            )?;
            Ok((text, 1))
        }
    }
}

/// What is wrong with a map in words.
///
/// # Errors
///
/// `AllocError`.
pub fn fault_words(alloc: Global, place: &Place, fault: &MapFault) -> Result<String, AllocError> {
    let (words, _) = words_of(alloc, place, fault)?;
    Ok(words)
}

/// Names a map that is refused. Answers its status.
pub(crate) fn say_fault<E: Eprint + AllocGlobal, D: Disk>(
    host: &Host<'_, E, D>,
    place: &Place,
    fault: &MapFault,
) -> Result<u8, Stop>
    ensures { IfOk result (λ status. 0 < status) }
{
    let alloc = host.alloc();
    let (words, status) = words_of(alloc, place, fault)?;
    let words = words.as_str();
    let text = format!(in alloc; ": {words}")?;
    say_of(host, place, text.as_str())?;
    Ok(status)
}

/// Names a map whose mended text is read, and the command that mends its file.
pub(crate) fn say_mended<E: Eprint + AllocGlobal, D: Disk>(
    host: &Host<'_, E, D>,
    place: &Place,
    fault: &MapFault,
) -> Result<(), Stop> {
    let alloc = host.alloc();
    let (words, _) = words_of(alloc, place, fault)?;
    let words = words.as_str();
    if may_name_map(&place.file) {
        let text = format!(in alloc; ": {words}; its mended text is used")?;
        return say_of(host, place, text.as_str());
    }
    let file = printable(alloc, &place.file)?;
    let file = file.as_str();
    let text = format!(in alloc;
        ": {words}; its mended text is used, and smap-maps repair --write {file} mends the file"
    )?;
    say_of(host, place, text.as_str())
}

/// Says which map of a script is used.
pub(crate) fn say_used<E: Eprint + AllocGlobal, D: Disk>(
    host: &Host<'_, E, D>,
    how: How,
    subject: &Subject<'_>,
    which: &str,
) -> Result<(), Stop> {
    let alloc = host.alloc();
    if subject.root.is_none() {
        let kind = match file_kind(&subject.place.file) {
            FileKind::StyleSheet => "style sheet",
            FileKind::Script | FileKind::Map | FileKind::Other => "script",
        };
        let text = format!(in alloc; " is a {kind}: its {which} is used")?;
        return say_of(host, &subject.place, text.as_str());
    }
    if how.verbose {
        let text = format!(in alloc; ": its {which} is used")?;
        return say_of(host, &subject.place, text.as_str());
    }
    Ok(())
}
