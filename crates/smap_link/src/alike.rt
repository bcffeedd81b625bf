//! Names of one script that differ in spelling.
ghost use Rattle.std.specs.Prelude.{◌≡◌, ◌++◌, IfOk, codes, not, ◌&&◌, string_bytes};
ghost use Rattle.smap_link.specs.Alike as spec;

use crate::encoding::{encoded, url_of, utf8};
use crate::inline::{bytes_of, without_fragment};
use crate::paths::{bare_size, has_drive, slash_count};
use std::alloc::{AllocError, Global};
use url::{ParseError, Position, Url};

/// The URL of a script: the name itself, or the file: URL of a path.
///
/// # Errors
///
/// `AllocError`.
pub fn own_url(alloc: Global, name: &[u8]) -> Result<Vec<u8>, AllocError>
    ensures { IfOk result (λ url. url.items ≡ spec.own_url name.now) }
{
    match url_of(alloc, name)? {
        Some(url) => Ok(url.into_bytes()),
        None => Vec::from_slice(alloc, name),
    }
}

/// A path with its drive in small.
fn with_small_drive(path: Vec<u8>) -> Vec<u8>
    ensures { result.items ≡ spec.with_small_drive path.items }
{
    let mut path = path;
    if has_drive(&path) {
        path[1] = path[1].to_ascii_lowercase();
    }
    path
}

/// The path of a URL with those percent escapes alone that it needs; one with an escaped slash as it is.
fn respelled(alloc: Global, path: &[u8]) -> Result<Vec<u8>, AllocError>
    ensures { IfOk result (λ p. p.items ≡ spec.respelled path.now) }
{
    let made = bytes_of(alloc, path)?;
    if slash_count(&made) != slash_count(path) {
        return Vec::from_slice(alloc, path);
    }
    encoded(alloc, &made)
}

fn form_of_url(alloc: Global, url: &Url) -> Result<Vec<u8>, AllocError>
    ensures { IfOk result (λ form. form.items ≡ spec.form_of_url url.now) }
{
    let is_local_file = url.scheme() == "file" && !url.has_host();
    let path = url.path().as_bytes();
    if is_local_file {
        let path = bytes_of(alloc, path)?;
        return Ok(with_small_drive(path));
    }
    let front = url.slice(Position::BeforeScheme, Position::BeforePath);
    let mut form = Vec::from_slice(alloc, front.as_bytes())?;
    let path = respelled(alloc, path)?;
    form.extend_from_slice(&path)?;
    Ok(form)
}

fn form_of(alloc: Global, url: &[u8]) -> Result<Vec<u8>, AllocError>
    ensures { IfOk result (λ form. form.items ≡ spec.form_of url.now) }
{
    let Some(text) = utf8(url) else {
        return Vec::from_slice(alloc, url);
    };
    match Url::parse(alloc, text) {
        Ok(parsed) => form_of_url(alloc, &parsed),
        Err(ParseError::OutOfMemory | ParseError::Overflow) => Err(AllocError),
        Err(_) => Vec::from_slice(alloc, url),
    }
}

/// What all names of a script have in common: two names are alike if this is the same for both. They may
/// differ in the query, the fragment, the default port, the capitals of the host, in being a path or its
/// file: URL, in percent escapes that no character needs, and in the case of the drive. A name that is no URL
/// is alike to itself alone.
///
/// # Errors
///
/// `AllocError`.
pub fn normal_form(alloc: Global, name: &[u8]) -> Result<Vec<u8>, AllocError>
    ensures { IfOk result (λ form. form.items ≡ spec.normal_form name.now) }
{
    let url = own_url(alloc, name)?;
    form_of(alloc, &url)
}

/// The query of a URL, from its question mark on; empty where there is none.
fn query_of<'a>(url: &'a [u8]) -> &'a [u8]
    ensures { result.now ≡ spec.query_of url.now }
{
    let whole = without_fragment(url);
    &whole[bare_size(whole)..]
}

/// What the names of a script have in common that are alike (`normal_form`) and have the same query: a script
/// with another query is another one.
///
/// # Errors
///
/// `AllocError`.
pub fn key_of(alloc: Global, name: &[u8]) -> Result<Vec<u8>, AllocError>
    ensures { IfOk result (λ key. key.items ≡ spec.key_of name.now) }
{
    let url = own_url(alloc, name)?;
    let form = form_of(alloc, &url)?;
    let mut key = Vec::from_slice(alloc, query_of(&url))?;
    key.push(b'#')?;
    key.extend_from_slice(&form)?;
    Ok(key)
}
