//! The members of a map that no repair changes, at every level that is read.
ghost use Rattle.std.specs.Prelude.{◌≡◌, ◌++◌, IfOk, OnOk, map, option_map};
ghost use Rattle.smap_repair.specs.Members as spec;
ghost use Rattle.smap_repair.specs.Members.{members_in};

use serde_json::{Map, Value};
use smap_shape::MAX_LEVEL;
use std::alloc::{AllocError, Global};

/// The members of an object.
fn object_of(tree: &Value) -> Option<&Map<String, Value>>
    ensures { option_map (λ m. m.now) result ≡ spec.object_of tree.now }
{
    match tree {
        Value::Object(members) => Some(members),
        _ => None,
    }
}

/// The value of a member.
fn member<'v>(tree: &'v Value, name: &str) -> Option<&'v Value>
    ensures { option_map (λ v. v.now) result ≡ spec.member tree.now name.now }
{
    match object_of(tree) {
        Some(members) => members.get(name),
        None => None,
    }
}

/// The sections of a map.
fn sections_of(map: &Value) -> &[Value]
    ensures { result.now ≡ spec.sections_of map.now }
{
    match member(map, "sections") {
        Some(Value::Array(sections)) => sections.as_slice(),
        _ => &[],
    }
}

/// Whether repairs leave a member of a map, or of a section, as it is.
fn stays(of_map: bool, name: &str) -> bool
    ensures { result ≡ spec.stays of_map name.now }
{
    if of_map {
        !matches!(
            name,
            "version" | "mappings" | "sourceRoot" | "sources" | "sections"
        )
    } else {
        name != "map"
    }
}

/// Adds a member, if it stays.
fn add_member<'v>(
    of_map: bool,
    name: &'v str,
    value: &'v Value,
    found: &mut Vec<(&'v str, &'v Value)>,
) -> Result<(), AllocError>
    ensures { OnOk result (members_in found.new.items
        ≡ members_in found.old.items ++ spec.staying of_map (name.now, value.now)) }
{
    if stays(of_map, name) {
        found.push((name, value))?;
    }
    Ok(())
}

/// Adds the members that stay of an object.
fn add_members<'v>(
    of_map: bool,
    tree: &'v Value,
    found: &mut Vec<(&'v str, &'v Value)>,
) -> Result<(), AllocError>
    ensures { OnOk result (members_in found.new.items
        ≡ members_in found.old.items ++ spec.staying_of of_map tree.now) }
{
    let Some(members) = object_of(tree) else {
        return Ok(());
    };
    for (name, value) in members.iter() {
        add_member(of_map, name.as_str(), value, found)?;
    }
    Ok(())
}

/// Adds the members that stay of a section, and of its map, so many levels deep.
#[cycle(levels)]
fn add_section<'v>(
    levels: u8,
    section: &'v Value,
    found: &mut Vec<(&'v str, &'v Value)>,
) -> Result<(), AllocError>
    ensures { OnOk result (members_in found.new.items
        ≡ members_in found.old.items ++ spec.staying_in_section levels section.now) }
{
    add_members(false, section, found)?;
    match member(section, "map") {
        Some(map) => add_map(levels, map, found),
        None => Ok(()),
    }
}

/// Adds the members that stay of a map, and of the maps of its sections.
#[cycle(levels)]
fn add_map<'v>(
    levels: u8,
    map: &'v Value,
    found: &mut Vec<(&'v str, &'v Value)>,
) -> Result<(), AllocError>
    ensures { OnOk result (members_in found.new.items
        ≡ members_in found.old.items ++ spec.staying_in levels map.now) }
{
    add_members(true, map, found)?;
    add_sections(levels, map, found)
}

/// Adds the members that stay of the sections of a map.
#[cycle(levels)]
fn add_sections<'v>(
    levels: u8,
    map: &'v Value,
    found: &mut Vec<(&'v str, &'v Value)>,
) -> Result<(), AllocError>
    ensures { OnOk result (members_in found.new.items
        ≡ members_in found.old.items ++ spec.staying_below levels map.now) }
{
    if levels == 0 {
        return Ok(());
    }
    let sections = sections_of(map);
    for i in 0..sections.len() {
        add_section(levels - 1, &sections[i], found)?;
    }
    Ok(())
}

/// The members of a map that stay, and those of its sections.
fn staying_members(alloc: Global, map: &Value) -> Result<Vec<(&str, &Value)>, AllocError>
    ensures { IfOk result (λ found. members_in found.items ≡ spec.all_staying map.now) }
{
    let mut found = Vec::new(alloc);
    add_map(MAX_LEVEL, map, &mut found)?;
    Ok(found)
}

/// Whether the members that no repair changes are the same in both maps.
pub(crate) fn keeps_members(
    alloc: Global,
    before: &Value,
    after: &Value,
) -> Result<bool, AllocError>
    ensures { IfOk result (λ keeps.
        keeps ≡ spec.are_same (spec.all_staying before.now) (spec.all_staying after.now)) }
{
    let before = staying_members(alloc, before)?;
    let after = staying_members(alloc, after)?;
    Ok(before.as_slice() == after.as_slice())
}
