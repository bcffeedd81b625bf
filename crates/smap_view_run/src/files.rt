//! Files that are named on the command line, and where they are.
use smap_system::{Disk, FileFault, Host, Kind, LIMIT, Stop, read_file};

/// What a file that is there holds.
fn read<E: Eprint + AllocGlobal, D: Disk>(
    host: &Host<'_, E, D>,
    path: &str,
) -> Result<Vec<u8>, Stop> {
    match read_file(host.alloc(), host.disk, path, LIMIT) {
        Ok(bytes) => Ok(bytes),
        Err(FileFault::Memory) => Err(Stop::Memory),
        Err(FileFault::TooLong) => Err(host.fail_with(3, path, "input too long")),
        Err(FileFault::Read(_)) => Err(host.fail_with(3, path, "cannot read it")),
    }
}

/// What a file that is named holds.
pub(crate) fn read_named<E: Eprint + AllocGlobal, D: Disk>(
    host: &Host<'_, E, D>,
    path: &str,
) -> Result<Vec<u8>, Stop> {
    let alloc = host.alloc();
    match host.disk.kind(path) {
        Kind::Missing => {
            let text = format!(in alloc; "no such file: {path}")?;
            Err(host.fail(2, text.as_str()))
        }
        Kind::Folder => {
            let text = format!(in alloc; "{path} is a folder")?;
            Err(host.fail(2, text.as_str()))
        }
        Kind::File | Kind::Special => read(host, path),
    }
}

/// A script's text, which has to be UTF-8.
pub(crate) fn text_of<E: Eprint + AllocGlobal, D: Disk>(
    host: &Host<'_, E, D>,
    path: &str,
    bytes: Vec<u8>,
) -> Result<String, Stop> {
    let alloc = host.alloc();
    match String::from_utf8(bytes) {
        Ok(text) => Ok(text),
        Err(_) => {
            let what = "isn't in UTF-8, in which columns are counted";
            let text = format!(in alloc; "{path} {what}: iconv -f ENCODING -t UTF-8 converts it")?;
            Err(host.fail(2, text.as_str()))
        }
    }
}
