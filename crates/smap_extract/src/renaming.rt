//! Other beginnings for sources.
ghost use Rattle.std.specs.Prelude.{◌≡◌, ◌++◌, IfOk};
ghost use Rattle.smap_extract.specs.Renaming as spec;

use smap_record::WrittenSources;
use std::alloc::{AllocError, Global};

fn joined(alloc: Global, front: &[u8], rest: &[u8]) -> Result<Vec<u8>, AllocError>
    ensures { IfOk result (λ text. text.items ≡ front.now ++ rest.now) }
{
    let mut text = Vec::from_slice(alloc, front)?;
    text.extend_from_slice(rest)?;
    Ok(text)
}

/// A source with TO for FROM at its beginning, for the first of these that it begins with; as it is if it
/// begins with none.
pub(crate) fn renamed(
    alloc: Global,
    prefixes: &[(&str, &str)],
    source: &[u8],
) -> Result<Vec<u8>, AllocError>
    ensures { IfOk result (λ text. text.items ≡ spec.renamed (spec.prefixes_in prefixes.now) source.now) }
{
    for prefix in prefixes {
        let from = prefix.0.as_bytes();
        if source.starts_with(from) {
            return joined(alloc, prefix.1.as_bytes(), &source[from.len()..]);
        }
    }
    Vec::from_slice(alloc, source)
}

/// How many bytes two texts have in common at their beginnings.
fn common_size(one: &[u8], other: &[u8]) -> usize {
    one.iter()
        .zip(other.iter())
        .take_while(|pair| *pair.0 == *pair.1)
        .count()
}

/// What of the first bytes of a text, so many, is before their last slash, with that.
fn folder_within(text: &str, size: usize) -> &str {
    let bytes = text.as_bytes();
    let front = bytes.get(..size).unwrap_or(bytes);
    let name = front.iter().rev().take_while(|b| **b != b'/').count();
    text.get(..front.len().saturating_sub(name)).unwrap_or("")
}

/// The folder that all sources of a map are in, as they are written; empty if there is none.
pub(crate) fn common_folder(written: &WrittenSources) -> &str {
    let mut common = None;
    for i in 0..written.len() {
        if let Some(source) = written.source(i) {
            let size = match common {
                Some(before) => common_size(before, source.as_bytes()),
                None => source.len(),
            };
            common = Some(folder_within(source, size).as_bytes());
        }
    }
    match common {
        Some(common) => std::str::from_utf8(common).unwrap_or(""),
        None => "",
    }
}
