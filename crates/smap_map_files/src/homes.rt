//! The folder of a map, in which what its sources name is looked for.
ghost use Rattle.std.specs.Prelude.{◌≡◌, IfOk, IfSome, option_copied, string_bytes};
ghost use Rattle.smap_map_choice.specs.PlaceView.{place_in};
ghost use Rattle.smap_map_files.specs.Homes as spec;
ghost use Rattle.smap_map_files.specs.RootView.{folder_in, folder_of};

use crate::Root;
use crate::folders::stem;
use crate::following::{folder_path, folder_url, front, name_below};
use crate::opening::Subject;
use crate::target::Home;
use smap_link::bare;
use smap_map_choice::Place;
use std::alloc::{AllocError, Global};

/// The folder of a map.
#[derive(Drop)]
pub struct MapHome<'a> {
    /// Its URL, with a slash at its end.
    pub url: &'a [u8],
    /// Its path: empty for the working directory, and with a slash at its end for any other.
    pub path: String,
}

impl MapHome<'_> {
    pub fn home(&self) -> Home<'_>
        ensures url { result.url.now ≡ self.now.url.now }
        ensures path { result.path.now ≡ string_bytes self.now.path }
    {
        Home {
            path: self.path.as_str(),
            url: self.url,
        }
    }
}

/// What stands before this name at the end of a URL, if that is a slash at least.
fn url_before<'a>(url: &'a [u8], name: &[u8]) -> Option<&'a [u8]>
    ensures { option_copied result ≡ spec.url_before url.now name.now }
{
    if !url.ends_with(name) {
        return None;
    }
    let before = &url[..url.len() - name.len()];
    if before.ends_with(b"/") {
        Some(before)
    } else {
        None
    }
}

/// The folder that the file of a map is in.
fn own_home<'a>(alloc: Global, place: &'a Place, file: &str) -> Result<MapHome<'a>, AllocError>
    ensures { IfOk result (λ h. spec.folder_in_home h ≡ spec.own_home place.now.base.items file.now) }
{
    Ok(MapHome {
        url: folder_url(bare(&place.base)),
        path: front(alloc, folder_path(file))?,
    })
}

/// The same of one that was found in a folder: that, if the URL of the map ends as its path does below it.
fn home_below<'a>(
    alloc: Global,
    place: &'a Place,
    file: &str,
    root: &Root,
) -> Result<MapHome<'a>, AllocError>
    ensures { IfOk result (λ h. spec.folder_in_home h
        ≡ spec.home_below (folder_in root.now) place.now.base.items file.now) }
{
    let path = root.path.as_str();
    let name = name_below(path, stem(file.as_bytes()));
    match url_before(stem(bare(&place.base)), name) {
        Some(url) => Ok(MapHome {
            url,
            path: front(alloc, path)?,
        }),
        None => own_home(alloc, place, file),
    }
}

/// The folder of a map: the one that it was found in, if its URL ends as its path does below that, or else
/// the one that its file is in. None if the name of the file isn't UTF-8.
///
/// # Errors
///
/// `AllocError`.
pub fn home_of<'a>(
    alloc: Global,
    subject: &'a Subject<'_>,
) -> Result<Option<MapHome<'a>>, AllocError>
    ensures { IfOk result (λ o. IfSome o (λ h. spec.folder_in_home h
        ≡ spec.home_of (folder_of subject.now.root) (place_in subject.now.place))) }
{
    let place = &subject.place;
    let Ok(file) = std::str::from_utf8(&place.file) else {
        return Ok(None);
    };
    match subject.root {
        Some(root) => Ok(Some(home_below(alloc, place, file, root)?)),
        None => Ok(Some(own_home(alloc, place, file)?)),
    }
}
