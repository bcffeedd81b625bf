//! The maps in folders, and the scripts there that may name theirs.
ghost use Rattle.std.specs.Prelude.{◌≡◌, ◌≢◌, ◌<◌, ◌≤◌, ◌-◌, slice_index, take, ◌∷◌, [], List, ℕ, IfOk};
ghost use Rattle.std.specs.Prelude.{OnOk, length, map, not, string_bytes};
ghost use Rattle.smap_map_files.specs.Chosen.{holds};
ghost use Rattle.smap_map_files.specs.Lists as spec;
ghost use Rattle.smap_map_files.specs.Lists.{lists_of, texts};
ghost use Rattle.smap_map_files.specs.Naming.{AreNames, IsPath, NamesFolder, NamesFolderAlone};
ghost use Rattle.smap_link.specs.Ends.{stem as stem_of};
ghost use Rattle.smap_link.specs.Kinds.{is_map as has_map_ending};
ghost use Rattle.smap_map_choice.specs.PlaceView.{place_in};
ghost use Rattle.smap_map_choice.specs.Places as places;

use crate::following::folder_path;
use crate::settling::{add_text, chosen};
use crate::wanted::{Origin, Root, Wanted, may_name_map};
use indexmap::IndexSet;
use smap_link::{link_in, own_url, script_url};
use smap_map_choice::{Place, below, usual_place};
use smap_system::{Disk, Host, LIMIT, Stop, read_file, walk};
use std::alloc::{AllocError, Global};

const ENDINGS: [&str; 5] = [".map", ".js", ".mjs", ".cjs", ".css"];

/// Where the slashes at the end of a name begin, after its first byte.
fn slashes_start(name: &[u8]) -> usize
    ensures within { result ≤ length name.now }
    ensures slashes { (k : ℕ) → result ≤ k → k < length name.now → slice_index name.now k ≡ 47 }
    ensures other { 1 < result → slice_index name.now (result - 1) ≢ 47 }
    ensures some { 0 < length name.now → 0 < result }
{
    for i in (1..name.len()).rev() {
        if name[i] != b'/' {
            return i + 1;
        }
    }
    name.len().min(1)
}

/// What stands before a slash.
fn before_slash(name: &str, at: usize) -> &str
    requires inside { at < length name.now }
    requires slash { slice_index name.now at ≡ 47 }
    ensures { result.now ≡ take at name.now }
{
    &name[..at]
}

/// A folder's name without slashes at its end; the root's is `/`.
pub fn without_slashes(given: &str) -> &str
    ensures { IsPath given.now result.now }
{
    let at = slashes_start(given.as_bytes());
    if at < given.len() {
        before_slash(given, at)
    } else {
        given
    }
}

pub(crate) fn is_map(name: &[u8]) -> bool
    ensures { result ≡ has_map_ending name.now }
{
    name.ends_with(b".map")
}

/// The name of a script whose map has this name.
pub(crate) fn stem<'a>(name: &'a [u8]) -> &'a [u8]
    ensures { result.now ≡ stem_of name.now }
{
    if name.ends_with(b".map") {
        &name[..name.len() - 4]
    } else {
        name
    }
}

/// The scripts whose maps are among these names.
fn mapped_names<'a>(alloc: Global, names: &'a [String]) -> Result<IndexSet<&'a [u8]>, AllocError>
    ensures { (name : List ℕ) → IfOk result (λ s. holds s.keys name ≡ spec.has_own_map
        (texts names.now) name) }
{
    let mut mapped = IndexSet::new(alloc);
    for i in 0..names.len() {
        let name = names[i].as_bytes();
        if !is_map(name) {
            continue;
        }
        add_text(&mut mapped, stem(name))?;
    }
    Ok(mapped)
}

/// For each name whether there is no map beside the file.
fn unmapped(alloc: Global, names: &[String]) -> Result<Vec<bool>, AllocError>
    ensures { IfOk result (λ flags. flags.items
        ≡ map (λ name. not (spec.has_own_map (texts names.now) name)) (texts names.now)) }
{
    let mapped = mapped_names(alloc, names)?;
    let mut flags = Vec::new(alloc);
    for i in 0..names.len() {
        flags.push(!mapped.contains(names[i].as_bytes()))?;
    }
    Ok(flags)
}

/// Those names that are maps or scripts without a map beside them.
fn wanted_names(alloc: Global, names: Vec<String>) -> Result<Vec<String>, AllocError>
    ensures { IfOk result (λ wanted. texts wanted.items ≡ spec.wanted_names (texts names.items)) }
{
    let flags = unmapped(alloc, &names)?;
    chosen(alloc, names, &flags)
}

/// Whether there is a map among these files of a folder, or a script that names one.
fn has_map<E: Eprint + AllocGlobal, D: Disk>(
    host: &Host<'_, E, D>,
    path: &str,
    names: &[String],
) -> Result<bool, Stop> {
    let alloc = host.alloc();
    for name in names {
        if !may_name_map(name.as_str().as_bytes()) {
            return Ok(true);
        }
    }
    for name in names {
        let file = below(alloc, path.as_bytes(), name.as_str().as_bytes())?;
        let Ok(file) = std::str::from_utf8(&file) else {
            continue;
        };
        if let Ok(text) = read_file(alloc, host.disk, file, LIMIT)
            && link_in(file.as_bytes(), &text).is_some()
        {
            return Ok(true);
        }
    }
    Ok(false)
}

/// The names of the maps in a folder and below it, and of the scripts there that may name theirs, in byte
/// order. A folder without any is refused.
fn names_in<E: Eprint + AllocGlobal, D: Disk>(
    host: &Host<'_, E, D>,
    given: &str,
    path: &str,
) -> Result<Vec<String>, Stop>
    ensures { IfOk result (λ names. AreNames (D.tree host.now.disk.now) path.now
        (texts names.items)) }
{
    let alloc = host.alloc();
    let found = match walk(alloc, host.disk, path, &ENDINGS) {
        Ok(found) => found,
        Err(fault) => return Err(host.fail_walking(given, fault)),
    };
    host.say_unnamed(given, found.unnamed)?;
    let only_links = found.only_links;
    let names = wanted_names(alloc, found.names)?;
    if has_map(host, path, names.as_slice())? {
        return Ok(names);
    }
    let links = if only_links {
        ", which holds only links (those to folders aren't followed)"
    } else {
        ""
    };
    let text = format!(in alloc; "no *.map in {given}{links}")?;
    Err(host.fail(2, text.as_str()))
}

/// The map or script with this name in a folder with a URL.
fn place_below(alloc: Global, root: &Root, name: &str) -> Result<Place, AllocError>
    ensures { IfOk result (λ place. place_in place
        ≡ places.folder_place root.now.url.items (string_bytes root.now.path) name.now) }
{
    let script = script_url(alloc, &root.url, stem(name.as_bytes()))?;
    let file = below(alloc, root.path.as_bytes(), name.as_bytes())?;
    usual_place(alloc, &script, &file)
}

/// Adds a place in the folder with this number.
fn push_below(place: Place, number: usize, wanted: &mut Wanted<'_>) -> Result<(), AllocError>
    ensures { OnOk result (lists_of wanted.new
        ≡ spec.with_places number (place_in place ∷ []) (lists_of wanted.old)) }
{
    wanted.places.push(place)?;
    wanted.origins.push(Origin::Below(number))?;
    Ok(())
}

/// Adds the map or script with this name in the folder with this number.
fn add_below<E: Eprint + AllocGlobal, D: Disk>(
    host: &Host<'_, E, D>,
    root: &Root,
    number: usize,
    name: &str,
    wanted: &mut Wanted<'_>,
) -> Result<(), Stop>
    ensures { OnOk result (lists_of wanted.new ≡ spec.with_places number
        (spec.folder_named root.now.url.items (string_bytes root.now.path) (name.now ∷ []))
        (lists_of wanted.old)) }
{
    let place = place_below(host.alloc(), root, name)?;
    push_below(place, number, wanted)?;
    Ok(())
}

/// Adds the maps and scripts with these names in the folder with this number.
fn add_all_below<E: Eprint + AllocGlobal, D: Disk>(
    host: &Host<'_, E, D>,
    root: &Root,
    number: usize,
    names: &[String],
    wanted: &mut Wanted<'_>,
) -> Result<(), Stop>
    ensures { OnOk result (lists_of wanted.new ≡ spec.with_places number
        (spec.folder_named root.now.url.items (string_bytes root.now.path) (texts names.now))
        (lists_of wanted.old)) }
{
    for i in 0..names.len() {
        add_below(host, root, number, &names[i], wanted)?;
    }
    Ok(())
}

fn push_root(root: Root, wanted: &mut Wanted<'_>) -> Result<(), AllocError>
    ensures { OnOk result (lists_of wanted.new ≡ spec.with_root (spec.folder_in root) (lists_of wanted.old)) }
{
    wanted.roots.push(root)?;
    Ok(())
}

fn root_with(alloc: Global, url: &[u8], path: &str) -> Result<Root, AllocError>
    ensures { IfOk result (λ root. spec.folder_in root ≡ (url.now, path.now)) }
{
    Ok(Root {
        url: Vec::from_slice(alloc, url)?,
        path: String::from_str(alloc, path)?,
    })
}

/// Adds the maps in a folder, as those of scripts below a URL, or below a path as the log has it.
pub(crate) fn add_folder<E: Eprint + AllocGlobal, D: Disk>(
    host: &Host<'_, E, D>,
    url: &str,
    given: &str,
    wanted: &mut Wanted<'_>,
) -> Result<(), Stop>
    ensures { OnOk result (NamesFolder (D.tree host.now.disk.now) url.now given.now
        (lists_of wanted.old) (lists_of wanted.new)) }
{
    let path = without_slashes(given);
    let names = names_in(host, given, path)?;
    let root = root_with(host.alloc(), url.as_bytes(), path)?;
    let number = wanted.roots.len();
    add_all_below(host, &root, number, &names, wanted)?;
    push_root(root, wanted)?;
    Ok(())
}

/// Adds a file of the folder with this number.
fn push_file(file: Vec<u8>, number: usize, wanted: &mut Wanted<'_>) -> Result<(), AllocError>
    ensures { OnOk result (lists_of wanted.new ≡ spec.with_files number (file.items ∷ [])
        (lists_of wanted.old)) }
{
    wanted.files.push(file)?;
    wanted.file_roots.push(number)?;
    Ok(())
}

/// Adds files of the folder with this number.
fn add_files(
    alloc: Global,
    path: &str,
    number: usize,
    names: &[String],
    wanted: &mut Wanted<'_>,
) -> Result<(), AllocError>
    ensures { OnOk result (lists_of wanted.new
        ≡ spec.with_files number (map (places.below path.now) (texts names.now)) (lists_of wanted.old)) }
{
    for i in 0..names.len() {
        let file = below(alloc, path.as_bytes(), names[i].as_bytes())?;
        push_file(file, number, wanted)?;
    }
    Ok(())
}

/// Adds a folder whose files go by the ends of their names.
pub(crate) fn add_folder_alone<E: Eprint + AllocGlobal, D: Disk>(
    host: &Host<'_, E, D>,
    given: &str,
    wanted: &mut Wanted<'_>,
) -> Result<(), Stop>
    ensures { OnOk result (NamesFolderAlone (D.tree host.now.disk.now) given.now
        (lists_of wanted.old) (lists_of wanted.new)) }
{
    let alloc = host.alloc();
    let path = without_slashes(given);
    let names = names_in(host, given, path)?;
    let root = root_with(alloc, b"file:///folder/", path)?;
    let number = wanted.roots.len();
    add_files(alloc, path, number, &names, wanted)?;
    push_root(root, wanted)?;
    Ok(())
}

/// Adds a script whose map is given by its file.
pub(crate) fn push_script(url: Vec<u8>, wanted: &mut Wanted<'_>) -> Result<(), AllocError>
    ensures { OnOk result (lists_of wanted.new ≡ spec.with_script url.items (lists_of wanted.old)) }
{
    wanted.positions.scripts.push(url)?;
    Ok(())
}

/// The URL of a file that is given without one.
pub fn name_of_file(alloc: Global, file: &[u8]) -> Result<Vec<u8>, AllocError>
    ensures { IfOk result (λ name. name.items ≡ spec.name_of_file file.now) }
{
    let mut path = Vec::from_slice(alloc, b"/")?;
    path.extend_from_slice(file)?;
    own_url(alloc, &path)
}

/// Adds a map that goes by the end of its name, as the only file of the folder that it lies in.
pub(crate) fn add_map_alone(
    alloc: Global,
    file: &str,
    wanted: &mut Wanted<'_>,
) -> Result<(), AllocError>
    ensures { OnOk result (lists_of wanted.new ≡ spec.with_map_alone file.now (lists_of wanted.old)) }
{
    let root = root_with(alloc, b"file:///folder/", folder_path(file))?;
    let name = Vec::from_slice(alloc, file.as_bytes())?;
    let number = wanted.roots.len();
    push_file(name, number, wanted)?;
    push_root(root, wanted)?;
    let script = name_of_file(alloc, stem(file.as_bytes()))?;
    push_script(script, wanted)?;
    Ok(())
}
