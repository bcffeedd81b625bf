//! The map that a script names.
ghost use Rattle.std.specs.Prelude.{◌≡◌, ◌≤◌, IfOk, length, string_bytes};
ghost use Rattle.smap_map_choice.specs.PlaceView.{place_in};
ghost use Rattle.smap_map_files.specs.Given as spec;
ghost use Rattle.smap_map_files.specs.Given.{IsFollowed};
ghost use Rattle.smap_map_files.specs.RootView.{folder_of};

use crate::Root;
use crate::target::{Absence, Home, Target, target_of};
use smap_link::{LinkFault, bare, link_in, resolved};
use smap_map_choice::{NamedFault, Place, below};
use smap_system::{Disk, Host, Stop, printable};
use std::alloc::{AllocError, Global};

/// What a script names for its map.
#[derive(Drop)]
pub enum Followed {
    /// The map itself.
    Inline(Vec<u8>),
    /// A file of its folder, and the URL of that.
    File(Place),
    /// Nothing.
    Nothing,
    /// Something else: what it names, as in a sentence after "it".
    Wrong(String),
}

/// How many bytes are behind the last slash or backslash of a URL.
fn last_size(url: &[u8]) -> usize
    ensures value { result ≡ spec.last_size url.now }
    ensures within { result ≤ length url.now }
{
    url.iter()
        .rev()
        .take_while(|b| !(**b == b'/' || **b == b'\\'))
        .count()
}

/// The URL of the folder of what has this one.
pub(crate) fn folder_url<'a>(url: &'a [u8]) -> &'a [u8]
    ensures { result.now ≡ spec.folder_url url.now }
{
    let size = url.len() - last_size(url);
    if size == 0 {
        return b"/".as_slice();
    }
    &url[..size]
}

/// The path of the root in place of an empty one.
fn or_root<'a>(path: &'a str) -> &'a str
    ensures { result.now ≡ spec.or_root path.now }
{
    if path.is_empty() { "/" } else { path }
}

/// The path of the folder of a file: empty for the working directory.
pub(crate) fn folder_path<'a>(file: &'a str) -> &'a str
    ensures { result.now ≡ spec.folder_path file.now }
{
    match file.rsplit_once('/') {
        Some((folder, _)) => or_root(folder),
        None => "",
    }
}

/// The name of a file below a folder with this path.
pub(crate) fn name_below<'a>(path: &str, file: &'a [u8]) -> &'a [u8]
    ensures { result.now ≡ spec.name_below path.now file.now }
{
    let rest = match file.strip_prefix(path.as_bytes()) {
        Some(rest) => rest,
        None => file,
    };
    match rest.strip_prefix(b"/".as_slice()) {
        Some(name) => name,
        None => rest,
    }
}

/// What stands before the name of each file in a folder with this path.
pub(crate) fn front(alloc: Global, folder: &str) -> Result<String, AllocError>
    ensures { IfOk result (λ front. string_bytes front ≡ spec.front folder.now) }
{
    if folder.is_empty() || folder.ends_with('/') {
        return String::from_str(alloc, folder);
    }
    format!(in alloc; "{folder}/")
}

/// What a script names that is wrong, as in a sentence after "it".
fn wrong(alloc: Global, what: &str, name: &[u8]) -> Result<String, AllocError> {
    let name = printable(alloc, name)?;
    let name = name.as_str();
    format!(in alloc; "{what}: {name}")
}

/// The same of a URL of no file.
fn wrong_url(alloc: Global, why: NamedFault, url: &[u8]) -> Result<String, AllocError> {
    match why {
        NamedFault::Garbled => String::from_str(alloc, "names a data: URL that can't be decoded"),
        NamedFault::NotUrl => wrong(alloc, "names what is no URL", url),
        NamedFault::NoName | NamedFault::Leaves => {
            wrong(alloc, "names what is no file of its folder", url)
        }
    }
}

/// The same of a file that isn't there, by its path.
fn wrong_file(alloc: Global, why: Absence, file: &[u8]) -> Result<String, AllocError> {
    match why {
        Absence::Missing => wrong(alloc, "names a map that can't be read", file),
        Absence::NoFile | Absence::Outside => {
            wrong(alloc, "names what is no file of its folder", file)
        }
    }
}

/// The own URL of the map that a script names by this one: that, seen from the script's, or else that of the
/// place.
fn linked_base(alloc: Global, script: &Place, url: &[u8]) -> Result<Vec<u8>, AllocError>
    ensures { IfOk result (λ base. base.items ≡ spec.linked_base (place_in script.now) url.now) }
{
    match resolved(alloc, &script.script, url) {
        Ok(base) => Ok(base.into_bytes()),
        Err(LinkFault::Memory) => Err(AllocError),
        Err(_) => Vec::from_slice(alloc, &script.base),
    }
}

/// The map in this file, which a script names by this URL.
fn found_place(
    alloc: Global,
    script: &Place,
    file: Vec<u8>,
    url: &[u8],
) -> Result<Place, AllocError>
    ensures { IfOk result (λ found. (found.file.items ≡ file.items)
        × (found.base.items ≡ spec.linked_base (place_in script.now) url.now)) }
{
    Ok(Place {
        script: Vec::from_slice(alloc, &script.script)?,
        file,
        base: linked_base(alloc, script, url)?,
    })
}

/// The map that the text of a script names: in a `data:` URL, or as a file of the folder with this URL and
/// this path.
fn follow_in<E: Eprint + AllocGlobal, D: Disk>(
    host: &Host<'_, E, D>,
    script: &Place,
    folder_url: &[u8],
    folder: &str,
    text: &[u8],
) -> Result<Followed, Stop>
    ensures { IfOk result (IsFollowed (record { url = folder_url.now; path = folder.now })
        (place_in script.now) text.now) }
{
    let alloc = host.alloc();
    let Some(url) = link_in(&script.file, text) else {
        return Ok(Followed::Nothing);
    };
    let front = front(alloc, folder)?;
    let home = Home {
        path: front.as_str(),
        url: folder_url,
    };
    let name = name_below(folder, &script.file);
    let target = target_of(alloc, host.disk, home, name, url)?;
    match target {
        Target::Inline(bytes) => Ok(Followed::Inline(bytes)),
        Target::File(name) => {
            let file = below(alloc, folder.as_bytes(), name.as_bytes())?;
            Ok(Followed::File(found_place(alloc, script, file, url)?))
        }
        Target::Absent(name, why) => {
            let file = below(alloc, folder.as_bytes(), &name)?;
            Ok(Followed::Wrong(wrong_file(alloc, why, &file)?))
        }
        Target::Wrong(why) => match why {
            NamedFault::NoName => Ok(Followed::Nothing),
            _ => Ok(Followed::Wrong(wrong_url(alloc, why, url)?)),
        },
    }
}

/// The same of a script that is named by itself: a file of its own folder.
fn follow_alone<E: Eprint + AllocGlobal, D: Disk>(
    host: &Host<'_, E, D>,
    script: &Place,
    text: &[u8],
) -> Result<Followed, Stop>
    ensures { IfOk result
        (IsFollowed (spec.own_folder (place_in script.now)) (place_in script.now) text.now) }
{
    let Ok(file) = std::str::from_utf8(&script.file) else {
        return Ok(Followed::Nothing);
    };
    let url = folder_url(bare(&script.script));
    let folder = folder_path(file);
    follow_in(host, script, url, folder, text)
}

/// The map that the text of a script names: in a `data:` URL, or as a file of the folder that the script was
/// found in, or else of its own.
pub fn follow<E: Eprint + AllocGlobal, D: Disk>(
    host: &Host<'_, E, D>,
    script: &Place,
    root: Option<&Root>,
    text: &[u8],
) -> Result<Followed, Stop>
    ensures { IfOk result (IsFollowed (spec.folder_for (folder_of root.entry) (place_in script.now))
        (place_in script.now) text.now) }
{
    match root {
        Some(root) => follow_in(host, script, &root.url, root.path.as_str(), text),
        None => follow_alone(host, script, text),
    }
}
