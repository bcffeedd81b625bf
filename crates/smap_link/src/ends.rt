//! What of a script's URL and of a map's name is compared, where the map is known by its file's name alone.
ghost use Rattle.std.specs.Prelude.{◌≡◌, ◌↔◌, IfOk, IsTrue};
ghost use Rattle.smap_link.specs.Ends as spec;
ghost use Rattle.smap_link.specs.Tails.{AgreeEqually};

use crate::alike::own_url;
use crate::encoding::utf8;
use crate::inline::bytes_of;
use crate::paths::bare;
use crate::tails::common_tail;
use std::alloc::{AllocError, Global};
use url::{ParseError, Url};

fn path_of(alloc: Global, name: &[u8], url: &[u8]) -> Result<Vec<u8>, AllocError>
    ensures { IfOk result (λ path. path.items ≡ spec.path_of name.now url.now) }
{
    let Some(text) = utf8(url) else {
        return Vec::from_slice(alloc, bare(name));
    };
    match Url::parse(alloc, text) {
        Ok(url) => bytes_of(alloc, url.path().as_bytes()),
        Err(ParseError::OutOfMemory | ParseError::Overflow) => Err(AllocError),
        Err(_) => Vec::from_slice(alloc, bare(name)),
    }
}

/// The path of a script's URL, decoded; of a name that is no URL the name without query and fragment.
pub(crate) fn script_path(alloc: Global, name: &[u8]) -> Result<Vec<u8>, AllocError>
    ensures { IfOk result (λ path. path.items ≡ spec.script_path name.now) }
{
    let url = own_url(alloc, name)?;
    path_of(alloc, name, &url)
}

pub(crate) fn stem<'a>(name: &'a [u8]) -> &'a [u8]
    ensures { result.now ≡ spec.stem name.now }
{
    if name.ends_with(b".map") {
        &name[..name.len() - 4]
    } else {
        name
    }
}

/// Whether two files agree with a script in equally many bytes: with the path of its URL their names, without
/// `.map`, have ends in common that are equally long.
///
/// # Errors
///
/// `AllocError`.
pub fn agree_equally(alloc: Global, script: &[u8], a: &[u8], b: &[u8]) -> Result<bool, AllocError>
    ensures { IfOk result (λ same. IsTrue same
        ↔ AgreeEqually (spec.script_path script.now) (spec.stem a.now) (spec.stem b.now)) }
{
    let path = script_path(alloc, script)?;
    Ok(common_tail(&path, stem(a)) == common_tail(&path, stem(b)))
}
