//! The names of scripts below a folder.
ghost use Rattle.std.specs.Prelude.{◌≡◌, ◌∷◌, ℕ, List, false, IfOk, MatchOption, option_map};
ghost use Rattle.smap_link.specs.Names as spec;

use crate::encoding::{has_backslashes, is_path, script_url, slashed};
use crate::inline::bytes_of;
use std::alloc::{AllocError, Global};

/// How many dots a segment is, with one byte more; 3 if it is anything but no, one or two dots.
fn dots_and(dots: u8, b: u8) -> u8
    ensures { result ≡ spec.dots_and dots b }
{
    if b == b'.' && dots < 2 { dots + 1 } else { 3 }
}

/// The same, and whether a name may go on so: not with an empty segment, `.`, `..` or a NUL.
fn after(dots: u8, b: u8) -> Option<u8>
    ensures { MatchOption result ((rest : List ℕ) → spec.is_below_from dots (b ∷ rest) ≡ false)
        (λ more. (rest : List ℕ) → spec.is_below_from dots (b ∷ rest) ≡ spec.is_below_from more rest) }
{
    if b == b'/' {
        if dots > 2 { Some(0) } else { None }
    } else if b == 0 {
        None
    } else {
        Some(dots_and(dots, b))
    }
}

/// Whether a file below a folder can have this name: no segment of it is empty, `.` or `..`, and it has no
/// NUL.
pub fn is_below(name: &[u8]) -> bool
    ensures { result ≡ spec.is_below name.now }
{
    let mut dots = 0;
    for i in 0..name.len() {
        match after(dots, name[i]) {
            Some(more) => dots = more,
            None => return false,
        }
    }
    2 < dots
}

/// What a name would have to be for its script to have this behind its folder's URL.
fn name_behind(alloc: Global, folder: &[u8], rest: &[u8]) -> Result<Vec<u8>, AllocError>
    ensures { IfOk result (λ name. name.items ≡ spec.name_behind folder.now rest.now) }
{
    if has_backslashes(folder) {
        return slashed(alloc, rest);
    }
    if is_path(folder) {
        return Vec::from_slice(alloc, rest);
    }
    bytes_of(alloc, rest)
}

/// The name of the script with this URL (or path, where the folder has a path) below a folder: the name of
/// which `script_url` makes this URL. `None` where the script isn't below the folder, as with `..`, or where
/// its URL is spelled otherwise.
///
/// # Errors
///
/// `AllocError`.
pub fn script_name(alloc: Global, folder: &[u8], url: &[u8]) -> Result<Option<Vec<u8>>, AllocError>
    ensures { IfOk result
        (λ found. option_map (λ name. name.items) found ≡ spec.script_name folder.now url.now) }
{
    if !url.starts_with(folder) {
        return Ok(None);
    }
    let name = name_behind(alloc, folder, &url[folder.len()..])?;
    if !is_below(&name) {
        return Ok(None);
    }
    let again = script_url(alloc, folder, &name)?;
    Ok(if again.as_slice() == url {
        Some(name)
    } else {
        None
    })
}
