//! The URLs of files, against which the sources of maps are resolved.
use smap_link::own_url;
use smap_record::{Base, BaseFault};
use smap_system::{Disk, Host, Stop};
use std::alloc::{AllocError, Global};

/// A URL or a path with one slash at its end at least.
///
/// # Errors
///
/// `AllocError`.
pub fn with_slash(alloc: Global, text: &str) -> Result<String, AllocError> {
    let text = text.strip_suffix("/").unwrap_or(text);
    format!(in alloc; "{text}/")
}

/// Why no path can be added to a URL of folders, as far as its bytes say.
fn fault_in(base: &str) -> Option<&'static str> {
    if base.contains(' ') || base.contains('\n') {
        return Some("holds a space (in a URL that is %20)");
    }
    if base.contains('?') || base.contains('#') {
        return Some("has a query or a fragment");
    }
    None
}

fn refuse_base<E: Eprint + AllocGlobal, D: Disk>(
    host: &Host<'_, E, D>,
    base: &str,
    why: &str,
) -> Stop {
    match format!(in host.alloc(); "the base {why}: {base}") {
        Ok(text) => host.fail(2, text.as_str()),
        Err(_) => Stop::Memory,
    }
}

/// The URL of folders that is given, unless a map's path can't be added to it.
pub fn base_given<E: Eprint + AllocGlobal, D: Disk>(
    host: &Host<'_, E, D>,
    base: &str,
) -> Result<String, Stop> {
    if let Some(why) = fault_in(base) {
        return Err(refuse_base(host, base, why));
    }
    let base = with_slash(host.alloc(), base)?;
    match Base::new(host.alloc(), base.as_str()) {
        Ok(_) => Ok(base),
        Err(BaseFault::Memory) => Err(Stop::Memory),
        Err(BaseFault::NotUrl) => Err(refuse_base(host, base.as_str(), "is no URL")),
    }
}

/// The URL of a folder: the one that is given, or its own.
pub fn folder_url<E: Eprint + AllocGlobal, D: Disk>(
    host: &Host<'_, E, D>,
    base: Option<&str>,
    folder: &str,
) -> Result<Vec<u8>, Stop> {
    let alloc = host.alloc();
    if let Some(base) = base {
        return Ok(Vec::from_slice(alloc, base.as_bytes())?);
    }
    let start = if folder.is_empty() { "." } else { folder };
    match host.disk.real_path(alloc, start) {
        Ok(path) => {
            let path = with_slash(alloc, path.as_str())?;
            Ok(own_url(alloc, path.as_str().as_bytes())?)
        }
        Err(_) => {
            let text = format!(in alloc; "cannot enter {start}")?;
            Err(host.fail(3, text.as_str()))
        }
    }
}
