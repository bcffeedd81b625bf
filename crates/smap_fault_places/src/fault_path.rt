//! The path to what a fault is about.
ghost use Rattle.std.specs.Prelude.{◌≡◌, ◌++◌, IfOk};
ghost use Rattle.serde_json.specs.View.{view};
ghost use Rattle.smap_fault_places.specs.Faults as spec;

use crate::member::{is_of_section, key_of, step_of};
use crate::{Key, Step, value_at};
use serde_json::Value;
use smap_record::{Fault, Kind};
use std::alloc::{AllocError, Global};

/// The path to the map of the section with these indices.
pub(crate) fn map_path(alloc: Global, section: &[usize]) -> Result<Vec<Step>, AllocError>
    ensures { IfOk result (λ v. v.items ≡ spec.to_map section.now) }
{
    let mut path = Vec::new(alloc);
    let mut rest = section;
    'levels: while let [index, inner @ ..] = rest {
        path.extend_from_slice(&[
            Step::Member(Key::Sections),
            Step::Entry(*index),
            Step::Member(Key::Map),
        ])?;
        rest = inner;
    }
    Ok(path)
}

/// The path to the map, or to the section, that a fault of this kind is in.
fn base_path(alloc: Global, section: &[usize], kind: Kind) -> Result<Vec<Step>, AllocError>
    ensures { IfOk result (λ v. v.items ≡ spec.base_of section.now kind) }
{
    let mut path = map_path(alloc, section)?;
    if is_of_section(kind) {
        path.pop();
    }
    Ok(path)
}

/// The path to what a fault of a map with this tree is about.
pub(crate) fn fault_path(
    alloc: Global,
    tree: &Value,
    fault: &Fault,
) -> Result<Vec<Step>, AllocError>
    ensures { IfOk result (λ v. v.items ≡ spec.path_of (view tree.now) fault.now) }
{
    let mut path = base_path(alloc, fault.section.numbers(), fault.kind)?;
    if let Some(key) = key_of(value_at(tree, path.as_slice()), fault.kind) {
        path.extend_from_slice(&[Step::Member(key)])?;
    }
    if let Some(step) = step_of(fault.kind) {
        path.extend_from_slice(&[step])?;
    }
    Ok(path)
}
