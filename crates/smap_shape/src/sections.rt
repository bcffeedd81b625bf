//! One section of an index map: its offset, and the tree of its map.
ghost use Rattle.std.specs.Prelude.{◌≡◌, ◌≤◌, IfSome, IfOk};
ghost use Rattle.serde_json.specs.View.{view};
ghost use Rattle.smap_vlq.specs.Limits.{max_position};
ghost use Rattle.smap_shape.specs.Limits.{max_level};
ghost use Rattle.smap_shape.specs.Reading.{section_of, position_member};
ghost use Rattle.smap_shape.specs.Views.{section_members, map_value};

use crate::fault::ShapeFault;
use crate::member::{member, object};
use serde_json::Value;
use smap_vlq::MAX_POSITION;
use std::marker::Model;

/// The greatest level of an index map. The outermost index map has level 1, and one in a section has one
/// level more. This project's own limit.
pub const MAX_LEVEL: u8 = 8;

/// A section of an index map (ECMA-426, "Index source map").
#[derive(Drop)]
pub struct SectionShape<'a> {
    line: u32,
    column: u32,
    map: &'a Value,
}

impl<'a> Model for SectionShape<'a> {
    ghost use Rattle.std.specs.Coded.{codes};
    ghost use Rattle.serde_json.specs.declared.value.Value.{Value as Tree};
    ghost use Rattle.serde_json.specs.contracts.value.Value as tree;
    ghost use Rattle.smap_shape.specs.Members.{Section};

    ghost Value = { Section Tree };

    ghost coded = { Prim.hlevel (codes, tree.the_row.coded) };

    ghost view = { λ s. record { line = s.line; column = s.column; map = s.map.now } };
}

impl<'a> SectionShape<'a> {
    /// The generated line of the offset, from 0.
    pub fn line(&self) -> u32
        ensures { result ≡ self.now.line }
    {
        self.line
    }

    /// The generated column of the offset, from 0.
    pub fn column(&self) -> u32
        ensures { result ≡ self.now.column }
    {
        self.column
    }

    /// The tree of the section's map, for [`shape`](crate::shape).
    pub fn map(&self) -> &Value
        ensures { result.now ≡ self.now.map }
    {
        self.map
    }
}

#[tactic(auto, unfolding(crate::specs::Reading::number_below))]
fn position_member(tree: &Value, key: &str) -> Option<u32>
    ensures value { result ≡ position_member key.now (view tree.now) }
    ensures most { IfSome result (λ n. n ≤ max_position) }
{
    let n = member(tree, key)?.as_u64()?;
    if n <= MAX_POSITION as u64 {
        Some(n as u32)
    } else {
        None
    }
}

/// The offset and the map of a section of an index map of this level (ECMA-426, "Index source map").
/// `level` must be from 1 to 8.
///
/// Line and column of the offset are from 0 to 2,147,483,647. The map is only checked to be an object, and
/// at level 8 to have no `sections`. Other members are ignored, a `url` next to the map included.
///
/// # Errors
///
/// The first of NotObject, Offset, SectionMap and Nested.
#[tactic(auto, unfolding(crate::specs::Reading::section_of))]
pub fn section(tree: &Value, level: u8) -> Result<SectionShape<'_>, ShapeFault>
    requires first { 1 ≤ level }
    requires last { level ≤ max_level }
    ensures says { map_value section_members result ≡ section_of level (view tree.now) }
    ensures line { IfOk result (λ s. s.line ≤ max_position) }
    ensures column { IfOk result (λ s. s.column ≤ max_position) }
{
    if !tree.is_object() {
        return Err(ShapeFault::NotObject);
    }
    let offset = object(tree, "offset").ok_or(ShapeFault::Offset)?;
    let line = position_member(offset, "line").ok_or(ShapeFault::Offset)?;
    let column = position_member(offset, "column").ok_or(ShapeFault::Offset)?;
    let map = object(tree, "map").ok_or(ShapeFault::SectionMap)?;
    if level == MAX_LEVEL && member(map, "sections").is_some() {
        return Err(ShapeFault::Nested);
    }
    Ok(SectionShape { line, column, map })
}
