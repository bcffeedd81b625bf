//! The folders in which the maps of picks stand, and the names of files below them.
ghost use Rattle.std.specs.Prelude.{◌≡◌, ◌==◌, IfOk, None, Some, cond, map};
ghost use Rattle.std.specs.List.{list_all};
ghost use Rattle.smap_map_finder.specs.Choice as spec;
ghost use Rattle.smap_map_files.specs.RootView.{folder_of};

use smap_map_choice::Found;
use smap_map_files::{Origin, Root, Wanted};
use std::alloc::{AllocError, Global};

/// The folder with this number.
fn root_at<'a>(wanted: &'a Wanted<'_>, number: usize) -> Option<&'a Root>
    ensures { folder_of result ≡ spec.root_at wanted.now number }
{
    wanted.roots.get(number)
}

/// The folder in which it was found, if it was in one.
pub(crate) fn root_of<'a>(wanted: &'a Wanted<'_>, found: Found) -> Option<&'a Root>
    ensures { folder_of result ≡ spec.root_of wanted.now found }
{
    match found {
        Found::Given(i) => match wanted.origins.get(i) {
            Some(Origin::Below(number)) => root_at(wanted, *number),
            Some(Origin::Alone { .. }) | None => None,
        },
        Found::ByEnd(i) => match wanted.file_roots.get(i) {
            Some(number) => root_at(wanted, *number),
            None => None,
        },
        Found::Unclear(_, _) | Found::Missing => None,
    }
}

/// Whether the map's own URL was given.
pub(crate) fn has_base(wanted: &Wanted<'_>, found: Found) -> bool
    ensures { result ≡ spec.has_base wanted.now found }
{
    match found {
        Found::Given(i) => match wanted.origins.get(i) {
            Some(Origin::Alone { has_base }) => *has_base,
            Some(Origin::Below(_)) | None => false,
        },
        Found::ByEnd(_) | Found::Unclear(_, _) | Found::Missing => false,
    }
}

/// Whether all these numbers are this one.
fn are_all(numbers: &[usize], number: usize) -> bool
    ensures { result ≡ list_all (λ n. n == number) numbers.now }
{
    numbers.iter().all(|n| *n == number)
}

fn number_if(is_it: bool, number: usize) -> Option<usize>
    ensures { result ≡ cond is_it (Some number) None }
{
    if is_it { Some(number) } else { None }
}

/// The first of these numbers, if all are this one.
fn only_number(numbers: &[usize]) -> Option<usize>
    ensures { result ≡ spec.only_number numbers.now }
{
    match numbers.first() {
        Some(number) => number_if(are_all(numbers, *number), *number),
        None => None,
    }
}

/// The folder of all files that go by the ends of their names, if it is one.
fn only_folder<'a>(wanted: &'a Wanted<'_>) -> Option<&'a Root>
    ensures { folder_of result ≡ spec.only_folder wanted.now }
{
    match only_number(&wanted.file_roots) {
        Some(number) => root_at(wanted, number),
        None => None,
    }
}

/// What stands behind the path of a folder and a slash in the name of a file; all of a name without these.
fn name_below<'a>(path: &[u8], file: &'a [u8]) -> &'a [u8]
    ensures { result.now ≡ spec.name_below path.now file.now }
{
    if file.starts_with(path) && file[path.len()..].starts_with(b"/") {
        &file[path.len() + 1..]
    } else {
        file
    }
}

fn name_in<'a>(folder: Option<&Root>, file: &'a [u8]) -> &'a [u8]
    ensures { result.now ≡ spec.name_in (folder_of folder.entry) file.now }
{
    match folder {
        Some(root) => name_below(root.path.as_bytes(), file),
        None => file,
    }
}

fn names_in<'a>(
    alloc: Global,
    folder: Option<&Root>,
    files: &'a [Vec<u8>],
) -> Result<Vec<&'a [u8]>, AllocError>
    ensures { IfOk result (λ all. map (λ s. s.now) all.items
        ≡ map (λ f. spec.name_in (folder_of folder.entry) f.items) files.now) }
{
    let mut names = Vec::with_capacity(alloc, files.len())?;
    for file in files {
        names.push(name_in(folder, file.as_slice()))?;
    }
    Ok(names)
}

/// The names by which the files are found that go by the ends of their names: below their folder, if it is
/// one.
pub(crate) fn names_of<'a>(
    alloc: Global,
    wanted: &'a Wanted<'_>,
) -> Result<Vec<&'a [u8]>, AllocError>
    ensures { IfOk result (λ all. map (λ s. s.now) all.items ≡ spec.names_of wanted.now) }
{
    names_in(alloc, only_folder(wanted), &wanted.files)
}
