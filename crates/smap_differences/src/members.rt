//! The members of one object that a rewrite drops.
ghost use Rattle.std.specs.Prelude.{◌≡◌, ◌++◌, ◌∷◌, [], IfOk, OnOk, map};
ghost use Rattle.serde_json.specs.View.{view};
ghost use Rattle.smap_differences.specs.Drops as spec;

use serde_json::Value;
use smap_shape::is_label;
use std::alloc::{AllocError, Global};

/// What an object is of a map (ECMA-426, "Source map format" and "Index source map").
#[derive(Clone, Copy, PartialEq, Eq)]
pub enum Part {
    /// The map itself.
    Whole,
    /// A section.
    Section,
    /// The map of a section.
    SectionMap,
}

/// Whether a map is an index map.
fn is_index(tree: &Value) -> bool
    ensures { result ≡ spec.is_index (view tree.now) }
{
    match tree.get("sections") {
        Some(sections) => !sections.is_null(),
        None => false,
    }
}

/// Whether a flat map, by itself or in a section, keeps this member besides its labels.
fn is_flat_name(name: &str) -> bool
    ensures { result ≡ spec.is_flat_name name.now }
{
    matches!(
        name,
        "version"
            | "sourceRoot"
            | "sources"
            | "sourcesContent"
            | "names"
            | "mappings"
            | "ignoreList"
            | "x_google_ignoreList"
    )
}

/// Whether a rewrite keeps what this member says.
fn is_kept(part: Part, is_index: bool, name: &str) -> bool
    ensures { result ≡ spec.is_kept part is_index name.now }
{
    match part {
        Part::Section => matches!(name, "offset" | "map"),
        Part::Whole if is_label(name) => true,
        Part::Whole | Part::SectionMap => {
            if is_index {
                matches!(name, "version" | "sections")
            } else {
                is_flat_name(name)
            }
        }
    }
}

/// Adds a name, unless a rewrite keeps what it says.
fn push_lost<'v>(
    part: Part,
    is_index: bool,
    name: &'v str,
    names: &mut Vec<&'v str>,
) -> Result<(), AllocError>
    ensures { OnOk result (map (λ n. n.now) names.new.items
        ≡ map (λ n. n.now) names.old.items ++ spec.lost_among part is_index (name.now ∷ [])) }
{
    if !is_kept(part, is_index, name) {
        names.push(name)?;
    }
    Ok(())
}

/// The names of the members that a rewrite drops, in byte order.
pub(crate) fn lost_members(alloc: Global, part: Part, tree: &Value) -> Result<Vec<&str>, AllocError>
    ensures { IfOk result (λ names. map (λ n. n.now) names.items ≡ spec.lost part (view tree.now)) }
{
    let mut names = Vec::new(alloc);
    let Some(members) = tree.as_object() else {
        return Ok(names);
    };
    let is_index = is_index(tree);
    for (name, _) in members.iter() {
        push_lost(part, is_index, name.as_str(), &mut names)?;
    }
    Ok(names)
}
