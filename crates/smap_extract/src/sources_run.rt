//! What becomes of a map of which the sources are changed.
ghost use Rattle.std.specs.Prelude.{◌≡◌, [], IfOk, IfSome, List};
ghost use Rattle.smap_record.specs.Written.{as_written};
ghost use Rattle.smap_extract.specs.Renaming.{IsChanged, IsChangedBy};

use crate::changing::{Change, MapRead, changed};
use crate::finding::find_contents;
use crate::patterns::Meant;
use crate::renaming::common_folder;
use crate::sources_fault::SourcesFault;
use smap_system::{Disk, Host};

/// What is done with the sources of each map.
#[derive(Drop)]
pub enum SourcesTask<'a> {
    /// Those that are meant and have no content get that of their file.
    Add(Meant<'a>),
    /// Those that are meant lose their contents.
    Drop(Meant<'a>),
    /// They get other beginnings, each by the first that it begins with.
    Rename(Vec<(&'a str, &'a str)>),
    /// They lose the folder that they are all in.
    Strip,
}

/// Says how many of the sources that are meant have no file.
fn say_missing<E: Eprint + AllocGlobal, D: Disk>(
    host: &Host<'_, E, D>,
    file: &str,
    missing: u64,
) -> Result<(), SourcesFault> {
    if missing > 0 {
        let text = format!(in host.alloc();
            "sources without content and a file in UTF-8: {missing}"
        )?;
        host.say_of(file, text.as_str());
    }
    Ok(())
}

/// The text of a map to which the contents of files are added.
fn with_contents<E: Eprint + AllocGlobal, D: Disk>(
    host: &Host<'_, E, D>,
    meant: &Meant<'_>,
    file: &str,
    read: &MapRead<'_>,
) -> Result<Option<Vec<u8>>, SourcesFault>
    ensures { IfOk result (λ o. IfSome o (λ new. read.now.written ≡ as_written read.now.bytes.now
        → IsChanged [] read.now.bytes.now new.items)) }
{
    let alloc = host.alloc();
    let found = find_contents(alloc, host.disk, read, meant)?;
    say_missing(host, file, found.missing)?;
    changed(alloc, read, Change::Add(&found.contents))
}

/// The text of the map in a file once that is done to its sources; none if nothing changes. How many sources
/// have no content still is said. `read` has the sources that the text writes.
///
/// # Errors
///
/// Why the map stays as it is.
pub fn changed_sources<E: Eprint + AllocGlobal, D: Disk>(
    host: &Host<'_, E, D>,
    task: &SourcesTask<'_>,
    file: &str,
    read: &MapRead<'_>,
) -> Result<Option<Vec<u8>>, SourcesFault>
    ensures { IfOk result (λ o. IfSome o (λ new. read.now.written ≡ as_written read.now.bytes.now
        → IsChangedBy task.now read.now.bytes.now new.items)) }
{
    let alloc = host.alloc();
    match task {
        SourcesTask::Add(meant) => with_contents(host, meant, file, read),
        SourcesTask::Drop(meant) => changed(alloc, read, Change::Drop(meant)),
        SourcesTask::Rename(prefixes) => changed(alloc, read, Change::Rename(prefixes)),
        SourcesTask::Strip => {
            let from = common_folder(&read.written);
            changed(alloc, read, Change::Rename(&[(from, "")]))
        }
    }
}
