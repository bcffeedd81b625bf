//! Which scripts might have a map, by what the arguments name.
use smap_link::{is_path, normal_form};
use smap_map_files::{Origin, Wanted};
use std::alloc::{AllocError, Global};

/// The schemes of scripts that no build wrote: Node's own and the browser's.
const FOREIGN: [&str; 5] = ["chrome", "devtools", "node", "resource", "wasm"];

/// Whether scripts with URLs of this scheme have no maps: those of [`FOREIGN`], and those of extensions.
fn is_foreign(scheme: &[u8]) -> bool {
    scheme.ends_with(b"-extension") || FOREIGN.iter().any(|word| word.as_bytes() == scheme)
}

/// Whether a name is what follows a parenthesis of a path, as in `C:\Program Files (x86)\a.js`.
fn is_rest(name: &[u8]) -> bool {
    name.iter().find(|b| b"()".contains(*b)) == Some(&b')')
}

/// Whether a script with this name can have a map at all: `node:fs`, `about:blank` and `<anonymous>` can't.
pub fn can_have_map(name: &[u8]) -> bool {
    if is_path(name) {
        return true;
    }
    match name.iter().position(|b| *b == b':') {
        Some(colon) => {
            let (scheme, rest) = name.split_at(colon);
            rest.starts_with(b"://") && !is_foreign(scheme)
        }
        None => !is_rest(name) && !name.iter().any(|b| *b == b'<' || *b == b'['),
    }
}

/// What the arguments name, as far as it says which scripts might have a map.
#[derive(Drop)]
pub struct Given {
    /// Whether a folder is given alone, which any script may belong to.
    any: bool,
    /// The URLs of the other folders, by their normal forms.
    folders: Vec<Vec<u8>>,
    /// The scripts that are given by themselves, likewise.
    scripts: Vec<Vec<u8>>,
}

/// Which of the folders are given with a URL.
fn have_urls(alloc: Global, wanted: &Wanted<'_>) -> Result<Vec<bool>, AllocError> {
    let mut have = Vec::new(alloc);
    have.resize(wanted.roots.len(), false)?;
    for origin in &wanted.origins {
        if let Origin::Below(number) = origin {
            if let Some(has) = have.get_mut(*number) {
                *has = true;
            }
        }
    }
    Ok(have)
}

impl Given {
    pub fn of(alloc: Global, wanted: &Wanted<'_>) -> Result<Given, AllocError> {
        let mut folders = Vec::new(alloc);
        let have_urls = have_urls(alloc, wanted)?;
        for (root, has_url) in wanted.roots.iter().zip(have_urls.iter()) {
            if *has_url {
                folders.push(normal_form(alloc, &root.url)?)?;
            }
        }
        let mut scripts = Vec::new(alloc);
        for (place, origin) in wanted.places.iter().zip(wanted.origins.iter()) {
            if let Origin::Alone { .. } = origin {
                scripts.push(normal_form(alloc, &place.script)?)?;
            }
        }
        Ok(Given {
            any: !wanted.files.is_empty(),
            folders,
            scripts,
        })
    }

    /// Whether a script with this name might have had a map: one below a folder's URL, one alike to a script
    /// that is given, and where a folder is given alone, each that can have one.
    pub fn might_have(&self, alloc: Global, name: &[u8]) -> Result<bool, AllocError> {
        if self.any && can_have_map(name) {
            return Ok(true);
        }
        let form = normal_form(alloc, name)?;
        Ok(
            self.folders.iter().any(|folder| form.starts_with(folder))
                || self
                    .scripts
                    .iter()
                    .any(|script| form.as_slice() == script.as_slice()),
        )
    }
}
