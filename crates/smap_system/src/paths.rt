//! Names of files, made from others.
ghost use Rattle.std.specs.Prelude.{◌≡◌, IfOk, string_bytes};
ghost use Rattle.smap_system.specs.Paths as spec;
ghost use Rattle.smap_system.specs.Paths.{IsBeside, IsParted};

use std::alloc::{AllocError, Global};

fn is_open(folder: &[u8]) -> bool
    ensures { result ≡ spec.is_open folder.now }
{
    folder.is_empty() || folder.ends_with(b"/")
}

/// The name of what is below a folder. An empty name of either adds nothing to the other.
pub fn joined(alloc: Global, folder: &str, name: &str) -> Result<String, AllocError>
    ensures { IfOk result (λ t. string_bytes t ≡ spec.joined folder.now name.now) }
{
    let mut path = String::from_str(alloc, folder)?;
    if is_open(folder.as_bytes()) || name.is_empty() {
        path.push_str(name)?;
        return Ok(path);
    }
    path.push_str("/")?;
    path.push_str(name)?;
    Ok(path)
}

/// A path as its folder, which ends in a slash or is empty, and its name there.
pub fn parted(path: &str) -> (&str, &str)
    ensures { IsParted path.now result.0.now result.1.now }
{
    match path.rfind('/') {
        Some(at) => path.split_at(at + 1),
        None => ("", path),
    }
}

/// A name for a file beside another one.
pub(crate) fn beside(alloc: Global, path: &str, number: u64) -> Result<String, AllocError>
    ensures { IfOk result (λ t. IsBeside path.now number (string_bytes t)) }
{
    let (folder, _) = parted(path);
    format!(in alloc; "{folder}.smap-{number}")
}
