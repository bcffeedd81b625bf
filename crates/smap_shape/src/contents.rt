//! Moving the contents of a map out of its JSON tree.
ghost use Rattle.std.specs.Prelude.{◌≡◌, map, option_map, string_bytes, IfOk, IfSome, IsSome, is_some};
ghost use Rattle.serde_json.specs.Find.{as_str};
ghost use Rattle.serde_json.specs.View.{view};
ghost use Rattle.smap_shape.specs.Reading.{shape_of, list_member, text_or_null, if_present};
ghost use Rattle.smap_shape.specs.Contents.{contents_member, contents_of, map_with_contents};
ghost use Rattle.smap_shape.specs.Inside.{texts};
ghost use Rattle.smap_shape.specs.Views.{map_value};

use crate::member::{member, texts_or_nulls};
use serde_json::Value;
use std::alloc::{AllocError, Global};

/// The string that a value is, moved out of it.
fn own_text(value: Value) -> Option<String>
    ensures { option_map string_bytes result ≡ as_str (view value) }
{
    match value {
        Value::String(text) => Some(text),
        _ => None,
    }
}

/// The strings of an array, moved out of it.
fn own_texts(alloc: Global, list: Vec<Value>) -> Result<Vec<Option<String>>, AllocError>
    ensures { IfOk result (λ v. map (option_map string_bytes) v.items ≡ texts list.items) }
{
    let mut own = Vec::with_capacity(alloc, list.len())?;
    for value in list {
        own.push(own_text(value))?;
    }
    Ok(own)
}

/// The entries of a member that is an array of strings and nulls; none for one that is null.
fn listed_texts(alloc: Global, member: Value) -> Result<Vec<Option<String>>, AllocError>
    ensures { IfOk result (λ v. IfSome (list_member text_or_null (if_present (view member)))
        (λ contents. map (option_map string_bytes) v.items ≡ contents)) }
{
    match member {
        Value::Array(list) => Ok(own_texts(alloc, list)?),
        _ => Ok(Vec::new(alloc)),
    }
}

/// Whether the contents are an array of strings and nulls, or absent.
fn are_contents(tree: &Value) -> bool
    ensures { result ≡ is_some (contents_member (view tree.now)) }
{
    texts_or_nulls(member(tree, "sourcesContent")).is_some()
}

/// What `split_contents` returns for a tree whose contents are such an array, or absent.
fn split_tree(alloc: Global, tree: Value) -> Result<(Vec<Option<String>>, Value), AllocError>
    requires { IsSome (contents_member (view tree)) }
    ensures contents { IfOk result (λ r. map (option_map string_bytes) r.0.items ≡ contents_of (view tree)) }
    ensures members { IfOk result (λ r.
        shape_of (view tree)
        ≡ map_value (map_with_contents (contents_of (view tree))) (shape_of (view r.1))) }
{
    match tree {
        Value::Object(members) => {
            let mut left = members;
            match left.remove("sourcesContent") {
                Some(list) => Ok((listed_texts(alloc, list)?, Value::Object(left))),
                None => Ok((Vec::new(alloc), Value::Object(left))),
            }
        }
        other => Ok((Vec::new(alloc), other)),
    }
}

/// Moves `sourcesContent` out of a map's tree, and answers its entries and the tree without them.
///
/// The strings aren't copied: memory is taken only for the vector. The map's members are those of the
/// remaining tree with these contents, so read the members after this call. Where `sourcesContent` isn't an
/// array of strings and nulls, the tree is answered as it was, for [`shape`](crate::shape) to refuse.
///
/// # Errors
///
/// `AllocError`.
pub fn split_contents(
    alloc: Global,
    tree: Value,
) -> Result<(Vec<Option<String>>, Value), AllocError>
    ensures contents { IfOk result (λ r. map (option_map string_bytes) r.0.items ≡ contents_of (view tree)) }
    ensures members { IfOk result (λ r.
        shape_of (view tree)
        ≡ map_value (map_with_contents (contents_of (view tree))) (shape_of (view r.1))) }
{
    if are_contents(&tree) {
        split_tree(alloc, tree)
    } else {
        Ok((Vec::new(alloc), tree))
    }
}
