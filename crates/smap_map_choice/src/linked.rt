//! The file of the map that a script names by a URL.
ghost use Rattle.std.specs.Prelude.{◌≡◌, ◌⊎◌, IfErr, IfOk, Ok, Err, option_map, string_bytes};
ghost use Rattle.smap_link.specs.Paths.{file_path as path_of};
ghost use Rattle.smap_map_choice.specs.Linked as spec;

use smap_link::{LinkFault, PathFault, bare, file_path, is_below, resolved, script_url};
use std::alloc::{AllocError, Global};

/// Why a URL that a script names gives no file of its folder.
#[derive(Clone, Copy, Debug, PartialEq, Eq)]
pub(crate) enum LinkedFault {
    /// With the script's URL before it, it is no URL.
    NotUrl,
    /// It stands for no file below the folder.
    Leaves,
    /// Out of memory.
    Memory,
}

impl From<AllocError> for LinkedFault {
    ghost use Rattle.std.specs.Prelude.{◌≡◌};
    ghost use Rattle.smap_map_choice.specs.declared.linked.LinkedFault.TheVariants as faults;

    ghost from_gives = { λ _ e. e ≡ faults.Memory };

    fn from(_error: AllocError) -> LinkedFault {
        LinkedFault::Memory
    }
}

fn of_path_fault(error: PathFault) -> LinkedFault
    ensures { result ≡ spec.of_path_fault error }
{
    match error {
        PathFault::Memory => LinkedFault::Memory,
        PathFault::NotUtf8 | PathFault::Host | PathFault::Escape => LinkedFault::Leaves,
    }
}

fn of_link_fault(error: LinkFault) -> LinkedFault
    ensures { result ≡ spec.of_link_fault error }
{
    match error {
        LinkFault::Memory => LinkedFault::Memory,
        LinkFault::NotUtf8 | LinkFault::NoBase | LinkFault::NotUrl => LinkedFault::NotUrl,
    }
}

/// The name behind a slash, if a file below a folder can have it.
fn name_in(alloc: Global, path: &[u8]) -> Result<Vec<u8>, LinkedFault>
    ensures value { IfOk result (λ name. Ok name.items ≡ spec.name_in path.now) }
    ensures fault { IfErr result (λ e. (e ≡ LinkedFault.Memory) ⊎ (spec.name_in path.now ≡ Err e)) }
{
    match path {
        [slash, name @ ..] if *slash == b'/' && is_below(name) => {
            let name = Vec::from_slice(alloc, name)?;
            Ok(name)
        }
        _ => Err(LinkedFault::Leaves),
    }
}

/// The name of the file with this path below the root, as a file: URL has it.
fn name_from(alloc: Global, url: &[u8]) -> Result<Vec<u8>, LinkedFault>
    ensures value { IfOk result (λ name. Ok name.items ≡ spec.name_from (path_of url.now)) }
    ensures fault { IfErr result (λ e. (e ≡ LinkedFault.Memory)
        ⊎ (spec.name_from (path_of url.now) ≡ Err e)) }
{
    match file_path(alloc, url) {
        Ok(Some(path)) => name_in(alloc, &path),
        Ok(None) => Err(LinkedFault::Leaves),
        Err(error) => Err(of_path_fault(error)),
    }
}

fn rooted(alloc: Global, rest: &[u8]) -> Result<Vec<u8>, AllocError>
    ensures { IfOk result (λ url. url.items ≡ spec.rooted rest.now) }
{
    let mut url = Vec::from_slice(alloc, b"file:///")?;
    url.extend_from_slice(rest)?;
    Ok(url)
}

/// The name below a folder of the file with this URL.
fn name_below(alloc: Global, folder: &[u8], url: &[u8]) -> Result<Vec<u8>, LinkedFault>
    ensures value { IfOk result (λ name. Ok name.items ≡ spec.name_below folder.now url.now) }
    ensures fault { IfErr result
        (λ e. (e ≡ LinkedFault.Memory) ⊎ (spec.name_below folder.now url.now ≡ Err e)) }
{
    if !url.starts_with(folder) {
        return Err(LinkedFault::Leaves);
    }
    let url = rooted(alloc, &url[folder.len()..])?;
    name_from(alloc, &url)
}

/// The URL that a script names, as that of a file.
fn url_from(alloc: Global, script: &[u8], url: &[u8]) -> Result<String, LinkedFault>
    ensures value { IfOk result (λ t. Ok (string_bytes t) ≡ spec.url_from script.now url.now) }
    ensures fault { IfErr result
        (λ e. (e ≡ LinkedFault.Memory) ⊎ (spec.url_from script.now url.now ≡ Err e)) }
{
    match resolved(alloc, script, url) {
        Ok(url) => Ok(url),
        Err(error) => Err(of_link_fault(error)),
    }
}

/// The name below its folder of the file of the map that a script names by this URL. The folder has a URL, or
/// a path, that ends in a slash, and the script has this name below it. The file stays below the folder: a
/// URL that leaves it is refused, as `../a.map` is, and one of another folder or host.
///
/// # Errors
///
/// `NotUrl`, `Leaves`, `Memory`.
pub(crate) fn linked_name(
    alloc: Global,
    folder: &[u8],
    name: &[u8],
    url: &[u8],
) -> Result<Vec<u8>, LinkedFault>
    ensures value { IfOk result (λ found. Ok found.items ≡ spec.linked folder.now name.now url.now) }
    ensures fault { IfErr result (λ e. (e ≡ LinkedFault.Memory)
        ⊎ (spec.linked folder.now name.now url.now ≡ Err e)) }
{
    let script = script_url(alloc, folder, name)?;
    let home = url_from(alloc, folder, b".")?;
    let url = url_from(alloc, &script, url)?;
    name_below(alloc, home.as_bytes(), bare(url.as_bytes()))
}
