//! The members of a map and of its sections that a rewrite drops.
ghost use Rattle.std.specs.Prelude.{◌≡◌, ◌==◌, ◌&&◌, IfOk, OnOk, length, map};
ghost use Rattle.std.specs.Str.{bytes_eq};
ghost use Rattle.indexmap.specs.IndexSet.{insert_all, insert_key};
ghost use Rattle.serde_json.specs.Find.{as_array};
ghost use Rattle.serde_json.specs.View.{view};
ghost use Rattle.smap_differences.specs.Drops as spec;

use crate::members::{Part, lost_members};
use indexmap::IndexSet;
use serde_json::Value;
use std::alloc::{AllocError, Global};

/// How deep index maps nest: a map with more levels is refused when it is read, so it isn't rewritten.
const MOST_LEVELS: u8 = 8;

/// The members that a rewrite drops.
#[derive(Drop)]
pub struct Drops<'v> {
    /// Those of the map itself, in byte order.
    pub own: Vec<&'v str>,
    /// Those of its sections and of their maps, each name once.
    pub in_sections: Vec<&'v str>,
}

/// The entries of an array, and none of anything else.
pub(crate) fn entries_of(value: &Value) -> &[Value]
    ensures { map view result.now ≡ spec.items_if (as_array (view value.now)) }
{
    match value.as_array() {
        Some(entries) => entries.as_slice(),
        None => &[],
    }
}

/// The sections of a map.
fn sections_of(tree: &Value) -> &[Value]
    ensures { map view result.now ≡ spec.sections_of (view tree.now) }
{
    match tree.get("sections") {
        Some(sections) => entries_of(sections),
        None => &[],
    }
}

/// The members of a section and of its map that a rewrite drops.
fn lost_in_section<'v>(alloc: Global, section: &'v Value) -> Result<Vec<&'v str>, AllocError>
    ensures { IfOk result (λ names. map (λ n. n.now) names.items ≡ spec.lost_in_section (view section.now)) }
{
    let mut names = lost_members(alloc, Part::Section, section)?;
    if let Some(inner) = section.get("map") {
        let more = lost_members(alloc, Part::SectionMap, inner)?;
        names.extend_from_slice(&more)?;
    }
    Ok(names)
}

/// Adds a name, unless it is there.
fn add_name<'v>(found: &mut IndexSet<&'v str>, name: &'v str) -> Result<(), AllocError>
    ensures { OnOk result (map (λ n. n.now) found.new.keys
        ≡ insert_key bytes_eq (map (λ n. n.now) found.old.keys) name.now) }
{
    found.insert(name)?;
    Ok(())
}

/// Adds names, those that aren't there yet.
fn add_once<'v>(found: &mut IndexSet<&'v str>, names: &[&'v str]) -> Result<(), AllocError>
    ensures { OnOk result (map (λ n. n.now) found.new.keys
        ≡ insert_all bytes_eq (map (λ n. n.now) found.old.keys) (map (λ n. n.now) names.now)) }
{
    for i in 0..names.len() {
        add_name(found, names[i])?;
    }
    Ok(())
}

/// Adds what is dropped of a section, and of the sections of its map, so many levels deep.
#[cycle(levels)]
fn add_section<'v>(
    alloc: Global,
    levels: u8,
    section: &'v Value,
    found: &mut IndexSet<&'v str>,
) -> Result<(), AllocError>
    ensures { OnOk result (map (λ n. n.now) found.new.keys ≡ insert_all bytes_eq
        (map (λ n. n.now) found.old.keys) (spec.lost_with_section levels (view section.now))) }
{
    let names = lost_in_section(alloc, section)?;
    add_once(found, &names)?;
    match section.get("map") {
        Some(inner) => add_below(alloc, levels, inner, found),
        None => Ok(()),
    }
}

/// Adds what is dropped of the sections of a map, and of theirs, so many levels deep.
#[cycle(levels)]
fn add_below<'v>(
    alloc: Global,
    levels: u8,
    tree: &'v Value,
    found: &mut IndexSet<&'v str>,
) -> Result<(), AllocError>
    ensures { OnOk result (map (λ n. n.now) found.new.keys ≡ insert_all bytes_eq
        (map (λ n. n.now) found.old.keys) (spec.lost_below levels (view tree.now))) }
{
    if levels == 0 {
        return Ok(());
    }
    let sections = sections_of(tree);
    for i in 0..sections.len() {
        add_section(alloc, levels - 1, &sections[i], found)?;
    }
    Ok(())
}

/// The members of a map that a rewrite drops, which no definition of ECMA-426 keeps or which the canonical
/// form of an index map doesn't have: first those of the map itself, then those of its sections, in their
/// order, and of the maps there, each name once.
///
/// # Errors
///
/// `AllocError`.
pub fn dropped<'v>(alloc: Global, tree: &'v Value) -> Result<Drops<'v>, AllocError>
    ensures own { IfOk result (λ d. map (λ n. n.now) d.own.items ≡ spec.lost spec.whole (view tree.now)) }
    ensures below { IfOk result (λ d. map (λ n. n.now) d.in_sections.items
        ≡ spec.lost_in_sections (view tree.now)) }
{
    let own = lost_members(alloc, Part::Whole, tree)?;
    let mut found = IndexSet::new(alloc);
    add_below(alloc, MOST_LEVELS, tree, &mut found)?;
    let in_sections = names_in(alloc, &found)?;
    Ok(Drops { own, in_sections })
}

/// The names of a set, in its order.
fn names_in<'v>(alloc: Global, found: &IndexSet<&'v str>) -> Result<Vec<&'v str>, AllocError>
    ensures { IfOk result (λ names. names.items ≡ found.now.keys) }
{
    let mut names = Vec::with_capacity(alloc, found.len())?;
    for name in found.iter() {
        names.push(*name)?;
    }
    Ok(names)
}

impl Drops<'_> {
    /// Whether nothing is dropped.
    pub fn is_empty(&self) -> bool
        ensures { result ≡ (length self.now.own.items == 0 && length self.now.in_sections.items == 0) }
    {
        self.own.is_empty() && self.in_sections.is_empty()
    }
}
