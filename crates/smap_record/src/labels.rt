//! The labels of a map that was read: owned, told by getters, and compared. A further label is a field of
//! `OwnLabels`, a getter, and a line of each function.
ghost use Rattle.std.specs.Prelude.{◌≡◌, ◌↔◌, IfOk, IsTrue, map as mapped};
ghost use Rattle.std.specs.Prelude.{option_copied, option_map, string_bytes};
ghost use Rattle.smap_shape.specs.Labels.{named};
ghost use Rattle.smap_record.specs.Views.{named_of_view};

use crate::flat::copied;
use crate::map::SourceMap;
use crate::view::LabelView;
use smap_shape::Labels;
use std::alloc::{AllocError, Global};
use std::marker::Model;

/// The labels of a map, copied out of its JSON tree.
#[derive(Drop)]
pub(crate) struct OwnLabels {
    pub(crate) file: Option<String>,
}

impl Model for OwnLabels {
    ghost use Rattle.std.specs.Prelude.{option_map, string_bytes};
    ghost use Rattle.smap_shape.specs.Labels as spec;

    ghost Value = { spec.Labels };

    ghost view = { λ s. record { file = option_map string_bytes s.file } };
}

/// A copy of the labels of a tree.
pub(crate) fn own_labels(alloc: Global, labels: &Labels<'_>) -> Result<OwnLabels, AllocError>
    ensures { IfOk result (λ own. own ≡ labels.now) }
{
    let file = copied(alloc, labels.file())?;
    Ok(OwnLabels { file })
}

/// A copy of the labels of a map.
pub(crate) fn labels_of(alloc: Global, map: &SourceMap) -> Result<OwnLabels, AllocError>
    ensures { IfOk result (λ own. own ≡ map.now.labels) }
{
    let file = copied(alloc, map.file())?;
    Ok(OwnLabels { file })
}

/// The string that is kept.
fn text(own: &Option<String>) -> Option<&str>
    ensures { option_copied result ≡ option_map string_bytes own.now }
{
    match own {
        Some(text) => Some(text.as_str()),
        None => None,
    }
}

impl SourceMap {
    /// The member `file`: the name of the generated file, if the map has one.
    pub fn file(&self) -> Option<&str>
        ensures { option_copied result ≡ self.now.labels.file }
    {
        let labels = &self.labels;
        text(&labels.file)
    }

    /// The labels: what the map says of itself as a whole, in byte order of their names.
    pub fn labels(&self) -> [LabelView<'_>; 1]
        ensures { mapped named_of_view result ≡ named self.now.labels }
    {
        [LabelView {
            name: "file",
            text: self.file(),
        }]
    }

    /// Whether both maps have the same labels.
    pub fn has_labels_of(&self, other: &SourceMap) -> bool
        ensures { IsTrue result ↔ (self.now.labels ≡ other.now.labels) }
    {
        self.file() == other.file()
    }
}
