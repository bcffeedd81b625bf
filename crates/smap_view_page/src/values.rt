//! The JSON that a page holds of a map and its script.
ghost use Rattle.std.specs.Prelude.{◌≡◌, IfOk};
ghost use Rattle.serde_json.specs.Data.{string};
ghost use Rattle.serde_json.specs.View.{view};
ghost use Rattle.serde_json.specs.Written.{compact_text};
ghost use Rattle.smap_view_page.specs.Embedding.{embedded};
ghost use Rattle.smap_view_page.specs.Trees as spec;

use crate::embedding::embedded;
use crate::lists::{Lists, lists_of, numbers};
use crate::mappings::mappings_text;
use crate::measuring::Sizes;
use serde_json::{Value, json};
use smap_record::SourceMap;
use std::alloc::{AllocError, Global};

#[tactic(auto, unfolding(crate::specs::Trees::map_object))]
fn map_object(
    alloc: Global,
    bytes: Value,
    counts: Value,
    mappings: &str,
    lists: Lists,
) -> Result<Value, AllocError>
    ensures { IfOk result (λ v. view v ≡ spec.map_object (view bytes) (view counts) (view lists.ignored)
        (string mappings.now) (view lists.names) (view lists.sources) (view lists.contents)) }
{
    json!(in alloc; {
        "bytes": bytes,
        "counts": counts,
        "ignoreList": lists.ignored,
        "mappings": mappings,
        "names": lists.names,
        "sources": lists.sources,
        "sourcesContent": lists.contents
    })
}

fn map_value(alloc: Global, map: &SourceMap, sizes: &Sizes) -> Result<Value, AllocError>
    ensures { IfOk result (λ v.
        view v ≡ spec.map_tree map.now sizes.now.bytes.items sizes.now.mappings.items) }
{
    let mappings = mappings_text(alloc, map)?;
    let bytes = numbers(alloc, &sizes.bytes)?;
    let counts = numbers(alloc, &sizes.mappings)?;
    let lists = lists_of(alloc, map)?;
    map_object(alloc, bytes, counts, &mappings, lists)
}

/// What a page holds of a map: its mappings as numbers, its lists, and the sizes of its sources.
///
/// # Errors
///
/// `AllocError`.
#[tactic(auto, using(crate::proofs::TreeLemmas::map_whole))]
pub fn map_json(alloc: Global, map: &SourceMap, sizes: &Sizes) -> Result<Vec<u8>, AllocError>
    ensures { IfOk result (λ t. t.items
        ≡ embedded (compact_text (spec.map_tree map.now sizes.now.bytes.items sizes.now.mappings.items))) }
{
    let value = map_value(alloc, map, sizes)?;
    let text = value.to_string(alloc)?;
    drop(value);
    embedded(alloc, &text)
}

/// What a page holds of a text.
///
/// # Errors
///
/// `AllocError`.
pub fn text_json(alloc: Global, text: &str) -> Result<Vec<u8>, AllocError>
    ensures { IfOk result (λ t. t.items ≡ embedded (compact_text (string text.now))) }
{
    let value = Value::String(String::from_str(alloc, text)?);
    let text = value.to_string(alloc)?;
    drop(value);
    embedded(alloc, &text)
}
