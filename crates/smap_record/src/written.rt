//! Sources as the text of a map writes them: each entry of `sources`, and the `sourceRoot` next to it. They
//! are copied out of the JSON tree that the map was read from. A root is kept once for each flat map, and
//! each source has the index of its root.
ghost use Rattle.std.specs.Prelude.{◌≡◌, ◌≤◌, ◌<◌, ◌-◌, ◌++◌, [], length, map, slice_get, Some, IfOk};
ghost use Rattle.std.specs.Prelude.{option_map, option_copied};
ghost use Rattle.serde_json.specs.View.{view};
ghost use Rattle.smap_shape.specs.Limits.{max_level};
ghost use Rattle.smap_shape.specs.Members.{index as index_map};
ghost use Rattle.smap_shape.specs.Reading.{shape_of};
ghost use Rattle.smap_shape.specs.Views.{index_members};
ghost use Rattle.smap_record.specs.Written.{if_read, of_flat, of_section, of_members, of_tree};
ghost use Rattle.smap_record.specs.WrittenView.{numbered_of, with_root};

use crate::flat::copied;
use serde_json::Value;
use smap_shape::{FlatShape, IndexShape, MAX_LEVEL, Shape, section, shape};
use std::alloc::{AllocError, Global};
use std::marker::Model;

/// An entry of `sources`, and the index of its root.
#[derive(Drop)]
struct NumberedSource {
    text: Option<String>,
    root: usize,
}

/// The sources of a map as its text writes them, in the order in which the map lists them: the i-th one is
/// the i-th listed source of the map that was read from the same text.
///
/// [`SourceMap::from_slice_as_written`](crate::SourceMap::from_slice_as_written) answers them beside the
/// map. Every getter takes constant time and no memory.
#[derive(Drop)]
pub struct WrittenSources {
    roots: Vec<Option<String>>,
    sources: Vec<NumberedSource>,
}

impl Model for WrittenSources {
    ghost use Rattle.std.specs.Prelude.{List, length};
    ghost use Rattle.smap_record.specs.Written.{Spelling};
    ghost use Rattle.smap_record.specs.WrittenView.{spellings, HaveRoots};

    ghost Value = { List Spelling };

    ghost view = { λ s. spellings s.roots.items s.sources.items };

    ghost invariant = { λ s. HaveRoots (length s.roots.items) s.sources.items };
}

/// The sources listed before a flat map, followed by copies of its own, whose root has this index.
fn with_sources(
    alloc: Global,
    before: Vec<NumberedSource>,
    shape: &FlatShape<'_>,
    root: usize,
) -> Result<Vec<NumberedSource>, AllocError>
    ensures { IfOk result (λ v. map numbered_of v.items
        ≡ map numbered_of before.items ++ with_root root shape.now.sources) }
{
    let mut sources = before;
    for i in 0..shape.source_count() {
        let text = copied(alloc, shape.source(i))?;
        sources.push(NumberedSource { text, root })?;
    }
    Ok(sources)
}

impl WrittenSources {
    fn new(alloc: Global) -> WrittenSources
        ensures { result ≡ [] }
    {
        WrittenSources {
            roots: Vec::new(alloc),
            sources: Vec::new(alloc),
        }
    }

    /// These sources, followed by those of a flat map.
    fn with_flat(self, alloc: Global, shape: &FlatShape<'_>) -> Result<WrittenSources, AllocError>
        ensures { IfOk result (λ w. w ≡ self ++ of_flat shape.now) }
    {
        let WrittenSources { mut roots, sources } = self;
        let sources = with_sources(alloc, sources, shape, roots.len())?;
        roots.push(copied(alloc, shape.root())?)?;
        Ok(WrittenSources { roots, sources })
    }

    /// The number of sources, repeats and nulls included: that of the map's listed sources.
    pub fn len(&self) -> usize
        ensures { result ≡ length self.now }
    {
        self.sources.len()
    }

    /// The i-th source as it is written, without its root; none for a null. `i` must be below `len`.
    pub fn source(&self, i: usize) -> Option<&str>
        requires { i < length self.now }
        ensures { option_map (λ s. s.source) (slice_get self.now i) ≡ Some (option_copied result) }
    {
        let sources = &self.sources;
        match &sources[i].text {
            Some(text) => Some(text.as_str()),
            None => None,
        }
    }

    /// The `sourceRoot` that applies to the i-th source, which may be empty: that of the flat map which lists
    /// it. None if that map has none. `i` must be below `len`.
    pub fn root(&self, i: usize) -> Option<&str>
        requires { i < length self.now }
        ensures { option_map (λ s. s.root) (slice_get self.now i) ≡ Some (option_copied result) }
    {
        let sources = &self.sources;
        let roots = &self.roots;
        match &roots[sources[i].root] {
            Some(text) => Some(text.as_str()),
            None => None,
        }
    }
}

/// The sources listed before a section, followed by those of the section. Index maps of `deeper` further
/// levels may be in it.
#[cycle(nested)]
fn with_section(
    alloc: Global,
    before: WrittenSources,
    tree: &Value,
    deeper: u8,
) -> Result<WrittenSources, AllocError>
    requires { deeper < max_level }
    ensures { IfOk result (λ w.
        w ≡ before ++ of_section (max_level - deeper) (of_members deeper) (view tree.now)) }
{
    match section(tree, MAX_LEVEL - deeper) {
        Ok(section) => with_map(alloc, before, section.map(), deeper),
        Err(_) => Ok(before),
    }
}

/// The sources listed before an index map, followed by those of its sections. `levels` counts the index map
/// itself.
#[cycle(nested)]
fn with_sections(
    alloc: Global,
    before: WrittenSources,
    shape: &IndexShape<'_>,
    levels: u8,
) -> Result<WrittenSources, AllocError>
    requires { levels ≤ max_level }
    ensures { IfOk result (λ w. w ≡ before ++ of_members levels (index_map (index_members shape.now))) }
{
    if levels == 0 {
        return Ok(before);
    }
    let mut written = before;
    for k in 0..shape.section_count() {
        written = with_section(alloc, written, shape.section_value(k), levels - 1)?;
    }
    Ok(written)
}

/// The sources listed before a map, followed by its own. It may have `levels` levels of index maps.
#[cycle(nested)]
fn with_map(
    alloc: Global,
    before: WrittenSources,
    tree: &Value,
    levels: u8,
) -> Result<WrittenSources, AllocError>
    requires { levels ≤ max_level }
    ensures { IfOk result (λ w. w ≡ before ++ if_read (of_members levels) (shape_of (view tree.now))) }
{
    match shape(tree) {
        Ok(Shape::Flat(members)) => before.with_flat(alloc, &members),
        Ok(Shape::Index(members)) => with_sections(alloc, before, &members, levels),
        Err(_) => Ok(before),
    }
}

/// The sources of the map of a JSON tree.
pub(crate) fn written_sources(alloc: Global, tree: &Value) -> Result<WrittenSources, AllocError>
    ensures { IfOk result (λ w. w ≡ of_tree (view tree.now)) }
{
    with_map(alloc, WrittenSources::new(alloc), tree, MAX_LEVEL)
}
