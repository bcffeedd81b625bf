//! What a script names for its map, within its folder.
ghost use Rattle.std.specs.Prelude.{◌≡◌, IfOk, false};
ghost use Rattle.smap_link.specs.Inline.{is_data};
ghost use Rattle.smap_map_choice.specs.Named as spec;

use crate::linked::{LinkedFault, linked_name};
use smap_link::{InlineFault, inline_map, link_in};
use std::alloc::{AllocError, Global};

/// The longest URL of a file that is looked at, in bytes.
const LONGEST: usize = 65_536;

/// What a script names for its map, within its folder.
#[derive(Drop)]
pub enum Named {
    Nothing,
    /// The map itself.
    Inline(Vec<u8>),
    /// A file of the folder, by its name there.
    File(Vec<u8>),
    /// What is no map of the folder.
    Wrong(NamedFault),
}

/// Why a URL that a script names gives neither a map nor a file of its folder.
#[derive(Clone, Copy, PartialEq, Eq)]
pub enum NamedFault {
    /// It is a `data:` URL that can't be decoded.
    Garbled,
    /// It is empty, or longer than 65,536 bytes.
    NoName,
    /// With the script's URL before it, it is no URL.
    NotUrl,
    /// It stands for no file below the folder.
    Leaves,
}

/// The file of the folder that a URL leads to, which is no `data:` URL.
fn named_file(
    alloc: Global,
    folder_url: &[u8],
    name: &[u8],
    url: &[u8],
) -> Result<Named, AllocError>
    requires { is_data url.now ≡ false }
    ensures { IfOk result (spec.IsNamedBy folder_url.now name.now url.now) }
{
    if url.is_empty() || url.len() > LONGEST {
        return Ok(Named::Wrong(NamedFault::NoName));
    }
    match linked_name(alloc, folder_url, name, url) {
        Ok(found) => Ok(Named::File(found)),
        Err(LinkedFault::NotUrl) => Ok(Named::Wrong(NamedFault::NotUrl)),
        Err(LinkedFault::Leaves) => Ok(Named::Wrong(NamedFault::Leaves)),
        Err(LinkedFault::Memory) => Err(AllocError),
    }
}

/// What a script names by this URL, as `link_in` finds it in the text: never nothing. The folder and the name
/// are those of `named_map`.
///
/// # Errors
///
/// Out of memory alone.
pub fn named_by(
    alloc: Global,
    folder_url: &[u8],
    name: &[u8],
    url: &[u8],
) -> Result<Named, AllocError>
    ensures { IfOk result (spec.IsNamedBy folder_url.now name.now url.now) }
{
    match inline_map(alloc, url) {
        Ok(Some(bytes)) => Ok(Named::Inline(bytes)),
        Ok(None) => named_file(alloc, folder_url, name, url),
        Err(fault) => match fault {
            InlineFault::Memory => Err(AllocError),
            _ => Ok(Named::Wrong(NamedFault::Garbled)),
        },
    }
}

/// What a script, or a style sheet, names for its map: a map within the URL, or a file of the folder. The
/// folder has a URL, or a path, that ends in a slash; the script has this name in it, with slashes, and this
/// text, or these last lines, unless they say nothing (`says_nothing`). No file is opened. `link_in` has the
/// URL.
///
/// # Errors
///
/// Out of memory alone: a URL that can't be followed is `Named::Wrong`.
pub fn named_map(
    alloc: Global,
    folder_url: &[u8],
    name: &[u8],
    text: &[u8],
) -> Result<Named, AllocError>
    ensures { IfOk result (spec.IsNamed folder_url.now name.now text.now) }
{
    match link_in(name, text) {
        Some(url) => named_by(alloc, folder_url, name, url),
        None => Ok(Named::Nothing),
    }
}
