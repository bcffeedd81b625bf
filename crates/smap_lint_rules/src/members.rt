//! What a map says beside its mappings.
ghost use Rattle.std.specs.Prelude.{◌≡◌, ◌++◌, ◌∷◌, [], IfOk, OnOk, codes, length, map as mapped};
ghost use Rattle.std.specs.Prelude.{option_copied, option_map, slice_get, string_bytes};
ghost use Rattle.std.specs.List.{flat_map};
ghost use Rattle.serde_json.specs.Find.{as_array};
ghost use Rattle.serde_json.specs.View.{view};
ghost use Rattle.smap_lint_rules.specs.Ids.{map_id as id_of};
ghost use Rattle.smap_lint_rules.specs.Members as spec;

use crate::ids::map_id;
use crate::paths::is_machine_path;
use serde_json::Value;
use std::alloc::{AllocError, Global};

/// How deep index maps nest: a map with more levels is refused.
const MOST_LEVELS: u8 = 8;

/// What a map says beside its mappings.
#[derive(Drop)]
pub struct Members {
    /// The member `debugId`, or `debug_id` where that is absent.
    pub debug_id: Option<String>,
    pub paths: Paths,
}

/// Paths that a map, or the sections of an index map, have for sources.
#[derive(Drop)]
pub struct Paths {
    /// The first `sourceRoot` that is an absolute path.
    pub absolute_root: Option<String>,
    /// The first source that is named by a path of the machine that built the map.
    pub machine_path: Option<String>,
    /// How many of the listed sources are.
    pub machine_paths: usize,
}

fn owned(alloc: Global, text: Option<&str>) -> Result<Option<String>, AllocError>
    ensures { IfOk result (λ t. option_map string_bytes t ≡ option_copied text.entry) }
{
    match text {
        Some(text) => {
            let text = String::from_str(alloc, text)?;
            Ok(Some(text))
        }
        None => Ok(None),
    }
}

/// The values of an array, and none of anything else.
fn values_of(value: &Value) -> &[Value]
    ensures { mapped view result.now ≡ spec.values_if (as_array (view value.now)) }
{
    match value.as_array() {
        Some(values) => values.as_slice(),
        None => &[],
    }
}

/// The sections of a map.
fn sections_of(tree: &Value) -> &[Value]
    ensures { mapped view result.now ≡ spec.listed_at (codes "sections") (view tree.now) }
{
    match tree.get("sections") {
        Some(sections) => values_of(sections),
        None => &[],
    }
}

/// The sources that a map without sections lists.
fn sources_of(map: &Value) -> &[Value]
    ensures { mapped view result.now ≡ spec.listed_at (codes "sources") (view map.now) }
{
    match map.get("sources") {
        Some(sources) => values_of(sources),
        None => &[],
    }
}

#[tactic(auto, using(crate::proofs::MemberLemmas::map_push))]
fn add_map<'v>(maps: &mut Vec<&'v Value>, map: &'v Value) -> Result<(), AllocError>
    ensures { OnOk result (mapped (λ m. view m.now) maps.new.items
        ≡ mapped (λ m. view m.now) maps.old.items ++ view map.now ∷ []) }
{
    match maps.push(map) {
        Ok(()) => Ok(()),
        Err(_) => Err(AllocError),
    }
}

/// Adds the map of a section, and those of its sections, so many levels deep.
#[cycle(levels)]
#[tactic(auto, using(std::proofs::lemmas::List::append_assoc))]
fn add_section<'v>(
    levels: u8,
    section: &'v Value,
    maps: &mut Vec<&'v Value>,
) -> Result<(), AllocError>
    ensures { OnOk result (mapped (λ m. view m.now) maps.new.items
        ≡ mapped (λ m. view m.now) maps.old.items ++ spec.maps_of_section levels (view section.now)) }
{
    let Some(map) = section.get("map") else {
        return Ok(());
    };
    add_map(maps, map)?;
    add_below(levels, map, maps)
}

/// Adds the maps of the sections of a map, and of theirs, so many levels deep.
#[cycle(levels)]
fn add_below<'v>(levels: u8, tree: &'v Value, maps: &mut Vec<&'v Value>) -> Result<(), AllocError>
    ensures { OnOk result (mapped (λ m. view m.now) maps.new.items
        ≡ mapped (λ m. view m.now) maps.old.items ++ spec.maps_below levels (view tree.now)) }
{
    if levels == 0 {
        return Ok(());
    }
    let sections = sections_of(tree);
    for i in 0..sections.len() {
        add_section(levels - 1, &sections[i], maps)?;
    }
    Ok(())
}

/// A map and those of its sections, at every level.
fn maps_in<'v>(alloc: Global, tree: &'v Value) -> Result<Vec<&'v Value>, AllocError>
    ensures { IfOk result (λ maps. mapped (λ m. view m.now) maps.items ≡ spec.maps_in (view tree.now)) }
{
    let mut maps = Vec::new(alloc);
    add_map(&mut maps, tree)?;
    add_below(MOST_LEVELS, tree, &mut maps)?;
    Ok(maps)
}

fn is_absolute(root: &str) -> bool
    ensures { result ≡ spec.is_absolute root.now }
{
    root.as_bytes().starts_with(b"/") || is_machine_path(root.as_bytes())
}

#[tactic(auto, using(crate::proofs::MemberLemmas::map_push))]
fn add_path<'v>(found: &mut Vec<&'v str>, path: &'v str) -> Result<(), AllocError>
    ensures { OnOk result (mapped (λ p. p.now) found.new.items
        ≡ mapped (λ p. p.now) found.old.items ++ path.now ∷ []) }
{
    match found.push(path) {
        Ok(()) => Ok(()),
        Err(_) => Err(AllocError),
    }
}

/// Adds a source, if it is named by a path of the machine that built the map.
fn add_source<'v>(source: &'v Value, found: &mut Vec<&'v str>) -> Result<(), AllocError>
    ensures { OnOk result (mapped (λ p. p.now) found.new.items
        ≡ mapped (λ p. p.now) found.old.items ++ spec.machine_path_of (view source.now)) }
{
    let Some(path) = source.as_str() else {
        return Ok(());
    };
    if is_machine_path(path.as_bytes()) {
        return add_path(found, path);
    }
    Ok(())
}

/// Adds the sources of a map without sections that are named so.
fn add_sources<'v>(map: &'v Value, found: &mut Vec<&'v str>) -> Result<(), AllocError>
    ensures { OnOk result (mapped (λ p. p.now) found.new.items
        ≡ mapped (λ p. p.now) found.old.items ++ spec.machine_paths_of (view map.now)) }
{
    let sources = sources_of(map);
    for i in 0..sources.len() {
        add_source(&sources[i], found)?;
    }
    Ok(())
}

/// The sources of these maps that are named so.
fn machine_paths<'v>(alloc: Global, maps: &[&'v Value]) -> Result<Vec<&'v str>, AllocError>
    ensures { IfOk result (λ found. mapped (λ p. p.now) found.items
        ≡ flat_map spec.machine_paths_of (mapped (λ m. view m.now) maps.now)) }
{
    let mut found = Vec::new(alloc);
    for i in 0..maps.len() {
        add_sources(maps[i], &mut found)?;
    }
    Ok(found)
}

/// The `sourceRoot` of a map, if it is an absolute path.
fn absolute_root_of(map: &Value) -> Option<&str>
    ensures { option_copied result ≡ slice_get (spec.absolute_root_of (view map.now)) 0 }
{
    let root = map.get("sourceRoot")?.as_str()?;
    if is_absolute(root) { Some(root) } else { None }
}

/// The first `sourceRoot` of these maps that is an absolute path.
fn absolute_root<'v>(maps: &[&'v Value]) -> Option<&'v str>
    ensures { option_copied result
        ≡ slice_get (flat_map spec.absolute_root_of (mapped (λ m. view m.now) maps.now)) 0 }
{
    for i in 0..maps.len() {
        match absolute_root_of(maps[i]) {
            Some(root) => return Some(root),
            None => {}
        }
    }
    None
}

/// The first of some paths.
#[tactic(auto, using(crate::proofs::MemberLemmas::first_mapped))]
fn first_of<'v>(paths: &[&'v str]) -> Option<&'v str>
    ensures { option_copied result ≡ slice_get (mapped (λ p. p.now) paths.now) 0 }
{
    match paths.first() {
        Some(path) => Some(*path),
        None => None,
    }
}

/// The paths of a map and of its sections.
fn paths_of(alloc: Global, tree: &Value) -> Result<Paths, AllocError>
    ensures absolute_root { IfOk result (λ p. option_map string_bytes p.absolute_root
        ≡ slice_get (spec.absolute_roots (view tree.now)) 0) }
    ensures machine_path { IfOk result (λ p. option_map string_bytes p.machine_path
        ≡ slice_get (spec.machine_paths (view tree.now)) 0) }
    ensures machine_paths { IfOk result (λ p. p.machine_paths
        ≡ length (spec.machine_paths (view tree.now))) }
{
    let maps = maps_in(alloc, tree)?;
    let absolute_root = owned(alloc, absolute_root(&maps))?;
    let paths = machine_paths(alloc, &maps)?;
    let machine_path = owned(alloc, first_of(&paths))?;
    Ok(Paths {
        absolute_root,
        machine_path,
        machine_paths: paths.len(),
    })
}

/// What a map says beside its mappings. Of an index map, its sections are looked at too, at every level.
///
/// # Errors
///
/// `AllocError`.
pub fn members_of(alloc: Global, tree: &Value) -> Result<Members, AllocError>
    ensures debug_id { IfOk result (λ m. option_map string_bytes m.debug_id ≡ id_of (view tree.now)) }
    ensures absolute_root { IfOk result (λ m. option_map string_bytes m.paths.absolute_root
        ≡ slice_get (spec.absolute_roots (view tree.now)) 0) }
    ensures machine_path { IfOk result (λ m. option_map string_bytes m.paths.machine_path
        ≡ slice_get (spec.machine_paths (view tree.now)) 0) }
    ensures machine_paths { IfOk result (λ m. m.paths.machine_paths
        ≡ length (spec.machine_paths (view tree.now))) }
{
    let debug_id = owned(alloc, map_id(tree))?;
    let paths = paths_of(alloc, tree)?;
    Ok(Members { debug_id, paths })
}
