//! A URL that holds a map, and the URL of a map next to its script.
ghost use Rattle.std.specs.Prelude.{◌≡◌, IfOk, true};
ghost use Rattle.smap_script_comments.specs.Data as spec;
ghost use Rattle.smap_script_comments.specs.Data.{Holds};

use base64::engine::general_purpose::STANDARD;
use smap_link::{InlineFault, inline_map, script_url};
use std::alloc::{AllocError, Global};

/// What goes before the bytes of a map.
const BEGIN: &str = "data:application/json;base64,";

/// Whether a URL is read to hold these bytes.
fn holds(alloc: Global, url: &[u8], map: &[u8]) -> Result<bool, InlineFault>
    ensures { IfOk result (λ is. is ≡ true → Holds url.now map.now) }
{
    match inline_map(alloc, url)? {
        Some(read) => Ok(read.as_slice() == map),
        None => Ok(false),
    }
}

/// The `data:` URL that holds a map.
///
/// # Errors
///
/// `Memory`; any other fault says that the URL would be read to hold something else.
pub fn data_url(alloc: Global, map: &[u8]) -> Result<Vec<u8>, InlineFault>
    ensures { IfOk result (λ url. Holds url.items map.now) }
{
    let mut url = String::from_str(alloc, BEGIN)?;
    STANDARD.encode_string(map, &mut url)?;
    let url = url.into_bytes();
    if holds(alloc, &url, map)? {
        Ok(url)
    } else {
        Err(InlineFault::Form)
    }
}

/// The URL of a file in the script's folder, by its name.
///
/// # Errors
///
/// Memory runs out.
pub fn map_reference(alloc: Global, name: &[u8]) -> Result<Vec<u8>, AllocError>
    ensures { IfOk result (λ url. url.items ≡ spec.reference name.now) }
{
    let before: &[u8] = if name.contains(&b':') { b"./" } else { b"" };
    let url = script_url(alloc, b"", name)?;
    let mut whole = Vec::from_slice(alloc, before)?;
    whole.extend_from_slice(&url)?;
    Ok(whole)
}
