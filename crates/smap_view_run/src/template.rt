//! The page without its data: a file that is installed with the program.
use smap_system::{Disk, FileFault, Host, Kind, LIMIT, Stop, parted, read_file};

/// The file's name.
const NAME: &str = "smap-view.html";

/// Where it is, from the folder of the program: beside it, where it is installed, and in the repository.
const PLACES: [&str; 3] = ["", "../share/smap/", "../../smap_view_run/"];

/// What the data take the place of.
const HOLE: &str = concat!(
    "<script type=\"application/json\" id=\"about\">null</script>\n",
    "<script type=\"application/json\" id=\"map\">null</script>\n",
    "<script type=\"application/json\" id=\"text\">null</script>\n",
);

/// The template, if a program with this path has it.
fn template_of<E: Eprint + AllocGlobal, D: Disk>(
    host: &Host<'_, E, D>,
    program: &str,
) -> Result<Option<String>, Stop> {
    let alloc = host.alloc();
    let Ok(program) = host.disk.real_path(alloc, program) else {
        return Ok(None);
    };
    let (folder, _) = parted(program.as_str());
    for place in &PLACES {
        let place = *place;
        let path = format!(in alloc; "{folder}{place}{NAME}")?;
        if host.disk.kind(path.as_str()) != Kind::File {
            continue;
        }
        match read_file(alloc, host.disk, path.as_str(), LIMIT) {
            Ok(bytes) => return Ok(String::from_utf8(bytes).ok()),
            Err(FileFault::Memory) => return Err(Stop::Memory),
            Err(_) => {}
        }
    }
    Ok(None)
}

/// The template of the program that was called by this word: of the file that this is, or of the one that the
/// system knows.
pub(crate) fn read_template<E: Eprint + AllocGlobal, D: Disk>(
    host: &Host<'_, E, D>,
    program: &str,
) -> Result<String, Stop> {
    if program.contains('/') {
        if let Some(text) = template_of(host, program)? {
            return Ok(text);
        }
    }
    match template_of(host, "/proc/self/exe")? {
        Some(text) => Ok(text),
        None => Err(host.fail(
            2,
            "cannot find smap-view.html, which belongs beside this program: tools/install installs both",
        )),
    }
}

/// What stands before the data and behind them.
pub(crate) fn parts(template: &str) -> (&str, &str) {
    template.split_once(HOLE).unwrap_or((template, ""))
}
