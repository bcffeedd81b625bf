//! A URL with another beginning.
ghost use Rattle.std.specs.Prelude.{◌≡◌, ◌++◌, IfOk};
ghost use Rattle.smap_logs.specs.Prefixes as spec;

use std::alloc::{AllocError, Global};

fn joined(alloc: Global, front: &[u8], rest: &[u8]) -> Result<Vec<u8>, AllocError>
    ensures { IfOk result (λ text. text.items ≡ front.now ++ rest.now) }
{
    let mut text = Vec::from_slice(alloc, front)?;
    text.extend_from_slice(rest)?;
    Ok(text)
}

/// The text with TO for FROM at its beginning, for the first of these that it begins with; as it is if it
/// begins with none.
///
/// # Errors
///
/// `AllocError`.
pub fn with_prefix(
    alloc: Global,
    prefixes: &[(&str, &str)],
    url: &[u8],
) -> Result<Vec<u8>, AllocError>
    ensures { IfOk result (λ text. text.items ≡ spec.with_prefix (spec.prefixes_in prefixes.now) url.now) }
{
    for prefix in prefixes {
        let from = prefix.0.as_bytes();
        if url.starts_with(from) {
            return joined(alloc, prefix.1.as_bytes(), &url[from.len()..]);
        }
    }
    Vec::from_slice(alloc, url)
}
