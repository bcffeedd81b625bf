//! Which map a source has: each source is looked at as a script, which names its map in its last comment.
ghost use Rattle.std.specs.Prelude.{◌≡◌, ◌++◌, ℕ, [], IfOk, IfSome, List, Some};
ghost use Rattle.std.specs.Prelude.{option_copied, option_map, string_bytes, unwrap_or};
ghost use Rattle.smap_link.specs.Names.{script_name as name_in};
ghost use Rattle.smap_link.specs.Paths.{bare as bare_of};
ghost use Rattle.smap_chains.specs.Chains.{IsFileText, IsText};
ghost use Rattle.smap_chains.specs.Search.{text_of};
ghost use Rattle.smap_chains.specs.SourceMaps.{IsBeside, IsLead, IsSourceTarget};

use smap_link::{bare, is_data, link_in, script_name};
use smap_map_choice::{NamedFault, map_beside};
use smap_map_files::{Home, Target, is_within, target_of};
use smap_record::SourceView;
use smap_system::{Disk, FileFault, Kind, LIMIT, read_file};
use std::alloc::{AllocError, Global};

/// Whether a file is empty by its size. So are streams, as those of `/proc`, which may have no end: nothing
/// with that size is opened.
pub fn has_no_size<D: Disk>(disk: &D, path: &str) -> bool {
    matches!(disk.size(path), Ok(0))
}

/// The text of a source.
#[derive(Drop)]
pub(crate) enum SourceText<'a> {
    Content(&'a str),
    /// That of its file, where the map has none.
    File(Vec<u8>),
}

impl SourceText<'_> {
    pub(crate) fn bytes(&self) -> &[u8]
        ensures { result.now ≡ text_of self.now }
    {
        match self {
            SourceText::Content(text) => text.as_bytes(),
            SourceText::File(bytes) => bytes.as_slice(),
        }
    }
}

/// What a source names for its map.
#[derive(Drop)]
pub struct Lead {
    /// The URL in its last comment.
    pub named: Vec<u8>,
    pub target: Target,
}

/// What the source with this URL names by another: in the folder as its scripts do, and outside of it a map
/// in its text alone.
fn source_target<D: Disk>(
    alloc: Global,
    disk: &D,
    home: Home<'_>,
    url: &str,
    named: &[u8],
) -> Result<Target, AllocError>
    ensures { IfOk result (IsSourceTarget home.entry.url.now url.now named.now) }
{
    match script_name(alloc, home.url, bare(url.as_bytes()))? {
        Some(name) => target_of(alloc, disk, home, &name, named),
        None if is_data(named) => target_of(alloc, disk, home, b"", named),
        None => Ok(Target::Wrong(NamedFault::Leaves)),
    }
}

/// What the source with this URL names for its map in its text, if it names one.
///
/// # Errors
///
/// Out of memory alone.
pub(crate) fn lead_of<D: Disk>(
    alloc: Global,
    disk: &D,
    home: Home<'_>,
    url: &str,
    text: &[u8],
) -> Result<Option<Lead>, AllocError>
    ensures { IfOk result (IsLead home.entry.url.now url.now text.now) }
{
    let Some(named) = link_in(bare(url.as_bytes()), text) else {
        return Ok(None);
    };
    let target = source_target(alloc, disk, home, url, named)?;
    let named = Vec::from_slice(alloc, named)?;
    Ok(Some(Lead { named, target }))
}

/// The path of what has this name in a folder, if it is a file of that.
fn path_of<D: Disk>(
    alloc: Global,
    disk: &D,
    folder: &str,
    name: &str,
) -> Result<Option<String>, AllocError>
    ensures { IfOk result (λ o. IfSome o (λ path. string_bytes path ≡ folder.now ++ name.now)) }
{
    let path = format!(in alloc; "{folder}{name}")?;
    if disk.kind(path.as_str()) == Kind::File && is_within(alloc, disk, folder, path.as_str())? {
        return Ok(Some(path));
    }
    Ok(None)
}

/// The path of the source with this URL, if it is a file of the folder.
fn path_in<D: Disk>(
    alloc: Global,
    disk: &D,
    home: Home<'_>,
    url: &str,
) -> Result<Option<String>, AllocError>
    ensures { IfOk result (λ o. IfSome o (λ path. (name : List ℕ)
        × ((name_in home.entry.url.now (bare_of url.now) ≡ Some name)
        × (string_bytes path ≡ home.entry.path.now ++ name)))) }
{
    let Some(name) = script_name(alloc, home.url, bare(url.as_bytes()))? else {
        return Ok(None);
    };
    match String::from_utf8(name) {
        Ok(name) => path_of(alloc, disk, home.path, name.as_str()),
        Err(_) => Ok(None),
    }
}

/// The map next to the source with this URL, as if that named it, if it is a file of the folder.
///
/// # Errors
///
/// Out of memory alone.
pub(crate) fn lead_beside<D: Disk>(
    alloc: Global,
    disk: &D,
    home: Home<'_>,
    url: &str,
) -> Result<Option<Lead>, AllocError>
    ensures { IfOk result (λ o. IfSome o (λ l. IsBeside home.entry.url.now url.now l.target)) }
{
    let Some(name) = script_name(alloc, home.url, bare(url.as_bytes()))? else {
        return Ok(None);
    };
    let named = map_beside(alloc, &name)?;
    let Ok(file) = std::str::from_utf8(&named) else {
        return Ok(None);
    };
    let file = String::from_str(alloc, file)?;
    if path_of(alloc, disk, home.path, file.as_str())?.is_none() {
        return Ok(None);
    }
    let target = Target::File(file);
    Ok(Some(Lead { named, target }))
}

/// What the file of the source with this URL holds, if it is one of the folder and can be read.
pub(crate) fn file_text<D: Disk>(
    alloc: Global,
    disk: &D,
    home: Home<'_>,
    url: &str,
) -> Result<Option<Vec<u8>>, AllocError>
    ensures { IfOk result (λ o. IfSome o (λ v. IsFileText (D.held disk.now) home.entry url.now v.items)) }
{
    let Some(path) = path_in(alloc, disk, home, url)? else {
        return Ok(None);
    };
    if has_no_size(disk, path.as_str()) {
        return Ok(None);
    }
    match read_file(alloc, disk, path.as_str(), LIMIT) {
        Ok(bytes) => Ok(Some(bytes)),
        Err(FileFault::Memory) => Err(AllocError),
        Err(_) => Ok(None),
    }
}

/// The text of a source of the map of the script with this URL: its content or, if it has none, what its file
/// in the folder holds. That of a script that was written over its source isn't there any more.
pub(crate) fn source_text<'a, D: Disk>(
    alloc: Global,
    disk: &D,
    home: Home<'_>,
    script: &[u8],
    source: SourceView<'a>,
) -> Result<Option<SourceText<'a>>, AllocError>
    ensures { IfOk result (λ o. IsText (D.held disk.now) home.entry script.now
        (unwrap_or (option_copied source.entry.url) []) (option_copied source.entry.content)
        (option_map text_of o)) }
{
    if let Some(content) = source.content {
        return Ok(Some(SourceText::Content(content)));
    }
    let url = source.url.unwrap_or("");
    if url.as_bytes() == script {
        return Ok(None);
    }
    match file_text(alloc, disk, home, url)? {
        Some(bytes) => Ok(Some(SourceText::File(bytes))),
        None => Ok(None),
    }
}

/// What a source of the map of the script with this URL names for its map, in its content or its file.
///
/// # Errors
///
/// Out of memory alone.
pub fn source_lead<D: Disk>(
    alloc: Global,
    disk: &D,
    home: Home<'_>,
    script: &[u8],
    source: SourceView<'_>,
) -> Result<Option<Lead>, AllocError> {
    match source_text(alloc, disk, home, script, source)? {
        Some(text) => lead_of(alloc, disk, home, source.url.unwrap_or(""), text.bytes()),
        None => Ok(None),
    }
}
