//! The labels of a map: what it says of itself as a whole, whether it is a flat map or an index map.
ghost use Rattle.std.specs.Prelude.{◌≡◌, option_copied};
ghost use Rattle.serde_json.specs.View.{view};
ghost use Rattle.smap_shape.specs.Labels as spec;

use crate::fault::ShapeFault;
use crate::member::{member, optional_text};
use serde_json::Value;
use std::marker::Model;

/// The labels of a map, borrowed from its JSON tree (ECMA-426, "Source map format").
#[derive(Drop)]
pub struct Labels<'a> {
    file: Option<&'a str>,
}

impl<'a> Model for Labels<'a> {
    ghost use Rattle.std.specs.Prelude.{option_copied};
    ghost use Rattle.smap_shape.specs.Labels as spec;

    ghost Value = { spec.Labels };

    ghost view = { λ s. record { file = option_copied s.file } };
}

impl<'a> Labels<'a> {
    /// The member `file`, if it is present.
    pub fn file(&self) -> Option<&'a str>
        ensures { option_copied result ≡ self.now.file }
    {
        self.file
    }
}

/// The labels of a map, or the first fault of these.
pub(crate) fn read_labels<'v>(tree: &'v Value) -> Result<Labels<'v>, ShapeFault>
    ensures { result ≡ spec.read_labels (view tree.now) }
{
    let file = optional_text(member(tree, "file")).ok_or(ShapeFault::File)?;
    Ok(Labels { file })
}

/// Whether a member with this name is a label.
pub fn is_label(name: &str) -> bool
    ensures { result ≡ spec.is_label name.now }
{
    matches!(name, "file")
}
