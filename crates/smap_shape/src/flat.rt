//! The members of a flat map. Its arrays are checked once, and kept as slices of the tree.
ghost use Rattle.std.specs.Prelude.{◌≡◌, ◌<◌, ◌==◌, length, slice_get, option_copied, Some, unwrap_or};
ghost use Rattle.std.specs.List.{list_any};
ghost use Rattle.serde_json.specs.View.{view};
ghost use Rattle.smap_shape.specs.Reading.{whole, flat_of};
ghost use Rattle.smap_shape.specs.Members.{is_listed};

use crate::fault::ShapeFault;
use crate::labels::Labels;
use crate::member::{member, numbers_below, optional_text, texts_only, texts_or_nulls};
use serde_json::Value;
use std::marker::Model;

/// The members of a flat map (ECMA-426, "Source map format").
///
/// Sources and names are numbered from 0, in the order of their arrays. An array that is absent or null is
/// empty.
#[derive(Drop)]
pub struct FlatShape<'a> {
    labels: Labels<'a>,
    root: Option<&'a str>,
    sources: &'a [Value],
    contents: &'a [Value],
    names: &'a [Value],
    ignored: &'a [Value],
    mappings: &'a str,
}

impl<'a> Model for FlatShape<'a> {
    ghost use Rattle.smap_shape.specs.Members.{Flat};
    ghost use Rattle.smap_shape.specs.Inside.{flat_view, IgnoresSources};

    ghost Value = { Flat };

    ghost view = { flat_view };

    ghost invariant = { IgnoresSources };
}

impl<'a> FlatShape<'a> {
    /// The member `file`, if it is present.
    pub fn file(&self) -> Option<&str>
        ensures { option_copied result ≡ self.now.labels.file }
    {
        let labels = &self.labels;
        labels.file()
    }

    /// The labels.
    pub fn labels(&self) -> &Labels<'a>
        ensures { result.now ≡ self.now.labels }
    {
        &self.labels
    }

    /// The member `sourceRoot`, if it is present; it may be empty.
    pub fn root(&self) -> Option<&str>
        ensures { option_copied result ≡ self.now.root }
    {
        self.root
    }

    /// The number of entries of `sources`, nulls included.
    pub fn source_count(&self) -> usize
        ensures { result ≡ length self.now.sources }
    {
        self.sources.len()
    }

    /// The i-th entry of `sources`, without the `sourceRoot`; none for a null. `i` must be below
    /// `source_count`.
    pub fn source(&self, i: usize) -> Option<&str>
        requires { i < length self.now.sources }
        ensures { slice_get self.now.sources i ≡ Some (option_copied result) }
    {
        let sources = self.sources;
        sources[i].as_str()
    }

    /// The content of the i-th source, if `sourcesContent` has one for it; it may be empty. `i` must be
    /// below `source_count`.
    pub fn content(&self, i: usize) -> Option<&str>
        requires { i < length self.now.sources }
        ensures { slice_get self.now.contents i ≡ Some (option_copied result) }
    {
        let contents = self.contents;
        if i < contents.len() {
            contents[i].as_str()
        } else {
            None
        }
    }

    /// Whether the i-th source is in the ignore list, which is searched from its start: to ask for all
    /// sources, go through [`ignored_number`](FlatShape::ignored_number) once instead. `i` must be below
    /// `source_count`.
    #[tactic(auto, using(crate::proofs::ListLemmas::list_steps))]
    pub fn is_ignored(&self, i: usize) -> bool
        requires { i < length self.now.sources }
        ensures { result ≡ is_listed i self.now.ignored }
    {
        let ignored = self.ignored;
        has_number(ignored, i)
    }

    /// The number of entries of the ignore list, repeats included.
    pub fn ignored_count(&self) -> usize
        ensures { result ≡ length self.now.ignored }
    {
        self.ignored.len()
    }

    /// The i-th entry of the ignore list: an index of a source. `i` must be below `ignored_count`.
    pub fn ignored_number(&self, i: usize) -> usize
        requires { i < length self.now.ignored }
        ensures number { slice_get self.now.ignored i ≡ Some result }
        ensures below { result < length self.now.sources }
    {
        let ignored = self.ignored;
        ignored[i].as_u64().unwrap_or(0) as usize
    }

    /// The number of names.
    pub fn name_count(&self) -> usize
        ensures { result ≡ length self.now.names }
    {
        self.names.len()
    }

    /// The i-th name. `i` must be below `name_count`.
    pub fn name(&self, i: usize) -> &str
        requires { i < length self.now.names }
        ensures { slice_get self.now.names i ≡ Some result.now }
    {
        let names = self.names;
        let name = names[i].as_str();
        // The shape's invariant: every entry of `names` is a string.
        match name {
            Some(text) => text,
            None => "",
        }
    }

    /// The member `mappings`, which isn't looked into.
    pub fn mappings(&self) -> &str
        ensures { result.now ≡ self.now.mappings }
    {
        self.mappings
    }
}

fn has_number(list: &[Value], n: usize) -> bool
    ensures { result ≡ list_any (λ v. unwrap_or (whole (view v)) 0 == n) list.now }
{
    list.iter().any(|v| v.as_u64().unwrap_or(0) == n as u64)
}

/// The members of a flat map with these labels, or the first fault of their shape.
pub(crate) fn flat<'v>(labels: Labels<'v>, tree: &'v Value) -> Result<FlatShape<'v>, ShapeFault>
    ensures { result ≡ flat_of labels.entry (view tree.now) }
{
    let root = optional_text(member(tree, "sourceRoot")).ok_or(ShapeFault::SourceRoot)?;
    let sources = texts_or_nulls(member(tree, "sources")).ok_or(ShapeFault::Sources)?;
    let contents = texts_or_nulls(member(tree, "sourcesContent"));
    let contents = contents.ok_or(ShapeFault::SourcesContent)?;
    let names = texts_only(member(tree, "names")).ok_or(ShapeFault::Names)?;
    let listed = member(tree, "ignoreList").or(member(tree, "x_google_ignoreList"));
    let ignored = numbers_below(listed, sources.len()).ok_or(ShapeFault::IgnoreList)?;
    let mappings = member(tree, "mappings")
        .and_then(Value::as_str)
        .ok_or(ShapeFault::Mappings)?;
    Ok(FlatShape {
        labels,
        root,
        sources,
        contents,
        names,
        ignored,
        mappings,
    })
}
