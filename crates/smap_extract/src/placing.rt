//! Paths of several sources.
ghost use Rattle.std.specs.Prelude.{◌≡◌, false, IfOk, OnOk, bytes_eq, map};
ghost use Rattle.std.specs.Char.{to_ascii_lowercase as lower};
ghost use Rattle.std.specs.List.{All, AllZip, IsDistinct, list_any};
ghost use Rattle.smap_extract.specs.Places as spec;
ghost use Rattle.smap_extract.specs.Places.{ArePlaced, HasFolders, IsOneOf, IsPlaced, IsTaken, Keeps};
ghost use Rattle.smap_extract.specs.Places.{items_of};

use crate::path::SourcePath;
use crate::segments::numbered;
use indexmap::{IndexMap, IndexSet};
use std::alloc::{AllocError, Global};

/// The first number that a path gets.
const FIRST: u32 = 2;

fn lowercase(alloc: Global, text: &[u8]) -> Result<Vec<u8>, AllocError>
    ensures { IfOk result (λ v. v.items ≡ map lower text.now) }
{
    text.iter().map(|b| b.to_ascii_lowercase()).collect(alloc)
}

/// What a path is known by.
fn key_of(alloc: Global, path: &SourcePath) -> Result<Vec<u8>, AllocError>
    ensures { IfOk result (λ v. v.items ≡ spec.key path.now) }
{
    let mut text = Vec::from_slice(alloc, &path.folder)?;
    text.extend_from_slice(&path.name)?;
    lowercase(alloc, &text)
}

/// Adds a folder to those that are known.
fn add_folder(
    alloc: Global,
    folder: &[u8],
    folders: &mut IndexSet<Vec<u8>>,
) -> Result<(), AllocError>
    ensures { OnOk result (spec.Has (items_of folders.old.keys) (items_of folders.new.keys)
        (map lower folder.now)) }
{
    folders.insert(lowercase(alloc, folder)?)?;
    Ok(())
}

/// Adds the folders of a path.
fn add_folders(
    alloc: Global,
    path: &SourcePath,
    folders: &mut IndexSet<Vec<u8>>,
) -> Result<(), AllocError>
    ensures has { OnOk result (HasFolders (items_of folders.new.keys) path.now.folder.items) }
    ensures keeps { OnOk result (Keeps (items_of folders.old.keys) (items_of folders.new.keys)) }
{
    for i in 0..path.folder.len() {
        if path.folder[i] == b'/' {
            add_folder(alloc, &path.folder[..i], folders)?;
        }
    }
    Ok(())
}

/// The folders of all paths.
fn folders_of(alloc: Global, paths: &[SourcePath]) -> Result<IndexSet<Vec<u8>>, AllocError>
    ensures { IfOk result (λ folders. All (λ p. HasFolders (items_of folders.keys) p.folder.items)
        paths.now) }
{
    let mut folders = IndexSet::new(alloc);
    for path in paths {
        add_folders(alloc, path, &mut folders)?;
    }
    Ok(folders)
}

/// Takes a path, if it is free: that of no folder, and not taken before.
fn take(
    alloc: Global,
    folders: &IndexSet<Vec<u8>>,
    path: &SourcePath,
    taken: &mut IndexSet<Vec<u8>>,
) -> Result<bool, AllocError>
    ensures { IfOk result (IsTaken (items_of folders.now.keys) (items_of taken.old.keys)
        (items_of taken.new.keys) path.now) }
{
    let key = key_of(alloc, path)?;
    if folders.contains(key.as_slice()) || taken.contains(key.as_slice()) {
        return Ok(false);
    }
    taken.insert(key)?;
    Ok(true)
}

/// The path with a number.
fn with_number(alloc: Global, path: &SourcePath, number: u32) -> Result<SourcePath, AllocError>
    ensures { IfOk result (IsOneOf path.now) }
{
    let folder = Vec::from_slice(alloc, &path.folder)?;
    let name = numbered(alloc, &path.name, number)?;
    Ok(SourcePath { folder, name })
}

/// The first path with a number from this one on that is free, which is taken; and its number.
fn numbered_free(
    alloc: Global,
    folders: &IndexSet<Vec<u8>>,
    path: &SourcePath,
    first: u32,
    taken: &mut IndexSet<Vec<u8>>,
) -> Result<(SourcePath, u32), AllocError>
    ensures { IfOk result (λ r. IsPlaced (items_of folders.now.keys) (items_of taken.old.keys)
        (items_of taken.new.keys) path.now r.0) }
{
    for number in first..u32::MAX {
        let other = with_number(alloc, path, number)?;
        if take(alloc, folders, &other, taken)? {
            return Ok((other, number));
        }
    }
    Err(AllocError)
}

fn copied(alloc: Global, path: &SourcePath) -> Result<SourcePath, AllocError>
    ensures { IfOk result (λ p. (p.folder.items ≡ path.now.folder.items)
        × (p.name.items ≡ path.now.name.items)) }
{
    let folder = Vec::from_slice(alloc, &path.folder)?;
    let name = Vec::from_slice(alloc, &path.name)?;
    Ok(SourcePath { folder, name })
}

/// Takes a path, or one with a number where it isn't free. `numbers` has the next number of paths that got
/// one, so that no number is tried twice.
fn place(
    alloc: Global,
    folders: &IndexSet<Vec<u8>>,
    path: &SourcePath,
    numbers: &mut IndexMap<Vec<u8>, u32>,
    taken: &mut IndexSet<Vec<u8>>,
) -> Result<SourcePath, AllocError>
    ensures { IfOk result (IsPlaced (items_of folders.now.keys) (items_of taken.old.keys)
        (items_of taken.new.keys) path.now) }
{
    if take(alloc, folders, path, taken)? {
        return copied(alloc, path);
    }
    let key = key_of(alloc, path)?;
    let first = numbers.get(key.as_slice()).copied().unwrap_or(FIRST);
    let (other, number) = numbered_free(alloc, folders, path, first, taken)?;
    numbers.insert(key, number.saturating_add(1))?;
    Ok(other)
}

/// The paths that sources get, where these are folders.
fn placed_among(
    alloc: Global,
    folders: &IndexSet<Vec<u8>>,
    paths: &[SourcePath],
) -> Result<Vec<SourcePath>, AllocError>
    ensures each { IfOk result (λ all. AllZip IsOneOf paths.now all.items) }
    ensures distinct { IfOk result (λ all. IsDistinct bytes_eq (map spec.key all.items)) }
    ensures free { IfOk result (λ all. All (λ p. list_any (bytes_eq (spec.key p)) (items_of folders.now.keys)
        ≡ false) all.items) }
{
    let mut numbers = IndexMap::new(alloc);
    let mut taken = IndexSet::new(alloc);
    let mut all = Vec::new(alloc);
    for path in paths {
        let path = place(alloc, folders, path, &mut numbers, &mut taken)?;
        all.push(path)?;
    }
    Ok(all)
}

/// The paths that sources get for those that are wanted, in their order: each as it is where it is free, and
/// otherwise with the first number from 2 on with which it is. A path is free unless a source before it has
/// it, or one of all sources is in a folder of that name.
///
/// # Errors
///
/// `AllocError`.
pub fn placed(alloc: Global, paths: &[SourcePath]) -> Result<Vec<SourcePath>, AllocError>
    ensures { IfOk result (λ all. ArePlaced paths.now all.items) }
{
    let folders = folders_of(alloc, paths)?;
    let all = placed_among(alloc, &folders, paths)?;
    Ok(all)
}
