//! Which map a script has, of those that it may have.
ghost use Rattle.std.specs.Prelude.{◌≡◌, IfOk, Some, None, cond, option_map};
ghost use Rattle.std.specs.List.{slice_get};
ghost use Rattle.smap_map_choice.specs.ScriptMap as spec;

use crate::named::Named;
use std::alloc::{AllocError, Global};

/// The name of the map next to the script with this name.
///
/// # Errors
///
/// `AllocError`.
pub fn map_beside(alloc: Global, name: &[u8]) -> Result<Vec<u8>, AllocError>
    ensures { IfOk result (λ map. map.items ≡ spec.beside name.now) }
{
    let mut map = Vec::from_slice(alloc, name)?;
    map.extend_from_slice(b".map")?;
    Ok(map)
}

/// The same where that is next, and else nothing.
fn beside_if(alloc: Global, name: &[u8], is_next: bool) -> Result<Option<Vec<u8>>, AllocError>
    ensures { IfOk result (λ found. option_map (λ v. v.items) found
        ≡ cond is_next (Some (spec.beside name.now)) None) }
{
    if is_next {
        Ok(Some(map_beside(alloc, name)?))
    } else {
        Ok(None)
    }
}

/// The next of the maps that a script with this name may have, which names this, after so many that can't be
/// had: the map itself if that stands in the script, or else the name of its file in the folder. First comes
/// what the script names, then the file next to it. The first that can be had is the script's map.
///
/// # Errors
///
/// `AllocError`.
pub fn candidate(
    alloc: Global,
    name: &[u8],
    named: Named,
    tried: usize,
) -> Result<Option<Vec<u8>>, AllocError>
    ensures { IfOk result (λ found. option_map (λ v. v.items) found
        ≡ slice_get (spec.candidates name.now named) tried) }
{
    match named {
        Named::Inline(map) | Named::File(map) => {
            if tried == 0 {
                return Ok(Some(map));
            }
            beside_if(alloc, name, tried == 1)
        }
        Named::Nothing | Named::Wrong(_) => beside_if(alloc, name, tried == 0),
    }
}
