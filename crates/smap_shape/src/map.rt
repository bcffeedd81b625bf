//! A map's tree: its version and labels, and whether it is a flat map or an index map.
ghost use Rattle.std.specs.Prelude.{◌≡◌};
ghost use Rattle.serde_json.specs.View.{view};
ghost use Rattle.smap_shape.specs.Reading as spec;
ghost use Rattle.smap_shape.specs.Views.{shape_members, map_value};

use crate::fault::ShapeFault;
use crate::flat::flat;
use crate::index::index;
use crate::kinds::Shape;
use crate::labels::{Labels, read_labels};
use crate::member::member;
use serde_json::Value;

/// The labels of a map whose version is 3.
pub(crate) fn labels_of<'v>(tree: &'v Value) -> Result<Labels<'v>, ShapeFault>
    ensures { result ≡ spec.labels_of (view tree.now) }
{
    let version = member(tree, "version").and_then(Value::as_u64);
    if version != Some(3) {
        return Err(ShapeFault::Version);
    }
    read_labels(tree)
}

/// The members of a map (ECMA-426, "Source map format", "Index source map").
///
/// A member is present if it is there and not null. An integer is a number that `Value::as_u64` accepts. Of
/// two equal keys the last one's value counts, since `serde_json` keeps no other. Members with other names
/// are ignored, and so are an index map's besides `version`, its labels and `sections`.
///
/// This goes through the arrays of a flat map once, and not through an index map's sections.
///
/// # Errors
///
/// The first fault, in the order that [`ShapeFault`] gives.
#[tactic(auto, unfolding(crate::specs::Reading::shape_of))]
pub fn shape(tree: &Value) -> Result<Shape<'_>, ShapeFault>
    ensures { map_value shape_members result ≡ spec.shape_of (view tree.now) }
{
    if !tree.is_object() {
        return Err(ShapeFault::NotObject);
    }
    let labels = labels_of(tree)?;
    match member(tree, "sections") {
        Some(sections) => {
            if member(tree, "mappings").is_some() {
                return Err(ShapeFault::Both);
            }
            Ok(Shape::Index(index(labels, sections)?))
        }
        None => Ok(Shape::Flat(flat(labels, tree)?)),
    }
}
