//! The maps that a user names, each with its script.
ghost use Rattle.std.specs.Prelude.{◌≡◌, IfOk};
ghost use Rattle.smap_map_choice.specs.PlaceView.{place_in};
ghost use Rattle.smap_map_choice.specs.Places as spec;

use smap_link::own_url;
use std::alloc::{AllocError, Global};

/// A map that may be opened.
#[derive(Drop)]
pub struct Place {
    /// The name of its script: its URL, or its path as the log has it.
    pub script: Vec<u8>,
    /// Its file.
    pub file: Vec<u8>,
    /// Its own URL, against which its sources are resolved.
    pub base: Vec<u8>,
}

fn usual_base(alloc: Global, script: &[u8]) -> Result<Vec<u8>, AllocError>
    ensures { IfOk result (λ base. base.items ≡ spec.usual_base script.now) }
{
    let mut base = own_url(alloc, script)?;
    base.extend_from_slice(b".map")?;
    Ok(base)
}

/// The map in this file, of this script: its URL is the script's with `.map` behind it, unless `base` is set
/// to another.
///
/// # Errors
///
/// `AllocError`.
pub fn usual_place(alloc: Global, script: &[u8], file: &[u8]) -> Result<Place, AllocError>
    ensures { IfOk result (λ place. place_in place ≡ spec.usual_place script.now file.now) }
{
    let base = usual_base(alloc, script)?;
    let script = Vec::from_slice(alloc, script)?;
    let file = Vec::from_slice(alloc, file)?;
    Ok(Place { script, file, base })
}

fn is_open(folder: &[u8]) -> bool
    ensures { result ≡ spec.is_open folder.now }
{
    folder.is_empty() || folder.ends_with(b"/")
}

/// The file with this name below a folder.
///
/// # Errors
///
/// `AllocError`.
pub fn below(alloc: Global, folder: &[u8], name: &[u8]) -> Result<Vec<u8>, AllocError>
    ensures { IfOk result (λ file. file.items ≡ spec.below folder.now name.now) }
{
    let mut file = Vec::from_slice(alloc, folder)?;
    if is_open(folder) {
        file.extend_from_slice(name)?;
        return Ok(file);
    }
    file.extend_from_slice(b"/")?;
    file.extend_from_slice(name)?;
    Ok(file)
}
