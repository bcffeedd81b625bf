//! The members of an index map: its labels and its sections, which aren't looked into here.
ghost use Rattle.std.specs.Prelude.{◌≡◌, ◌<◌, length, slice_get, option_copied, Some};
ghost use Rattle.serde_json.specs.View.{view};
ghost use Rattle.smap_shape.specs.Reading.{index_of};
ghost use Rattle.smap_shape.specs.Views.{index_members, map_value};

use crate::fault::ShapeFault;
use crate::labels::Labels;
use serde_json::Value;
use std::marker::Model;

/// The members of an index map (ECMA-426, "Index source map"). Sections are numbered from 0.
#[derive(Drop)]
pub struct IndexShape<'a> {
    labels: Labels<'a>,
    sections: &'a [Value],
}

impl<'a> Model for IndexShape<'a> {
    ghost use Rattle.std.specs.Coded.{codes};
    ghost use Rattle.serde_json.specs.declared.value.Value.{Value as Tree};
    ghost use Rattle.serde_json.specs.contracts.value.Value as tree;
    ghost use Rattle.smap_shape.specs.Members.{Index};

    ghost Value = { Index Tree };

    ghost coded = { Prim.hlevel (codes, tree.the_row.coded) };

    ghost view = { λ s. record { labels = s.labels; sections = s.sections.now } };
}

impl<'a> IndexShape<'a> {
    /// The member `file` next to the sections, if it is present.
    pub fn file(&self) -> Option<&str>
        ensures { option_copied result ≡ self.now.labels.file }
    {
        let labels = &self.labels;
        labels.file()
    }

    /// The labels next to the sections.
    pub fn labels(&self) -> &Labels<'a>
        ensures { result.now ≡ self.now.labels }
    {
        &self.labels
    }

    /// The number of sections.
    pub fn section_count(&self) -> usize
        ensures { result ≡ length self.now.sections }
    {
        self.sections.len()
    }

    /// The tree of the i-th section, for [`section`](crate::section). `i` must be below `section_count`.
    pub fn section_value(&self, i: usize) -> &Value
        requires { i < length self.now.sections }
        ensures { slice_get self.now.sections i ≡ Some result.now }
    {
        let sections = self.sections;
        &sections[i]
    }
}

/// The members of an index map with these labels and these sections, or the fault of their shape.
#[tactic(auto, using(crate::proofs::ListLemmas::any_list))]
pub(crate) fn index<'v>(
    labels: Labels<'v>,
    sections: &'v Value,
) -> Result<IndexShape<'v>, ShapeFault>
    ensures { map_value index_members result ≡ index_of labels.entry (view sections.now) }
{
    let list = sections.as_array().ok_or(ShapeFault::Sections)?;
    Ok(IndexShape {
        labels,
        sections: list.as_slice(),
    })
}
