//! The path of a file: URL.
ghost use Rattle.std.specs.Prelude.{◌≡◌, ◌⊎◌, ◌≤◌, ◌==◌, not, IfErr, IfOk, count_by, length, option_map};
ghost use Rattle.std.specs.List.{list_any, prefix_len};
ghost use Rattle.percent_encoding.specs.Percent.{percent_decode as decoded};
ghost use Rattle.smap_link.specs.Paths as spec;

use crate::encoding::{PathFault, backslashed, is_drive, utf8};
use crate::inline::{bytes_of, same_word};
use std::alloc::{AllocError, Global};

pub(crate) fn bare_size(url: &[u8]) -> usize
    ensures value { result ≡ spec.bare_size url.now }
    ensures within { result ≤ length url.now }
{
    url.iter()
        .take_while(|b| !(**b == b'?' || **b == b'#'))
        .count()
}

/// A URL without its query and its fragment.
pub fn bare<'a>(url: &'a [u8]) -> &'a [u8]
    ensures { result.now ≡ spec.bare url.now }
{
    &url[..bare_size(url)]
}

/// How many bytes come before the first such byte; all where there is none.
pub(crate) fn size_before(text: &[u8], byte: u8) -> usize
    ensures value { result ≡ prefix_len (λ b. not (b == byte)) text.now }
    ensures within { result ≤ length text.now }
{
    text.iter().take_while(|b| **b != byte).count()
}

fn is_local(host: &[u8]) -> bool
    ensures { result ≡ spec.is_local host.now }
{
    match host {
        [] => true,
        _ => same_word(host, b"localhost"),
    }
}

pub(crate) fn has_drive(path: &[u8]) -> bool
    ensures { result ≡ spec.has_drive path.now }
{
    match path {
        [_, path @ ..] => is_drive(path),
        [] => false,
    }
}

/// How many segments of a path end in a slash.
pub(crate) fn slash_count(path: &[u8]) -> usize
    ensures { result ≡ count_by (λ b. b == 47) path.now }
{
    path.iter().filter(|b| **b == b'/').count()
}

fn has_byte(path: &[u8], byte: u8) -> bool
    ensures { result ≡ list_any (λ b. b == byte) path.now }
{
    path.iter().any(|b| *b == byte)
}

fn is_forged(path: &[u8], made: &[u8]) -> bool
    ensures { result ≡ spec.is_forged path.now made.now }
{
    slash_count(made) != slash_count(path)
        || has_byte(made, 0)
        || (has_drive(made) && has_byte(made, b'\\'))
}

/// A path as the file system has it.
fn native(alloc: Global, path: Vec<u8>) -> Result<Vec<u8>, AllocError>
    ensures { IfOk result (λ p. p.items ≡ spec.native path.items) }
{
    if has_drive(&path) {
        return backslashed(alloc, &path[1..]);
    }
    Ok(path)
}

fn checked(alloc: Global, path: &[u8], made: Vec<u8>) -> Result<Option<Vec<u8>>, PathFault>
    ensures value { IfOk result
        (λ found. Ok (option_map (λ p. p.items) found) ≡ spec.checked path.now made.items) }
    ensures fault { IfErr result (λ e. (e ≡ PathFault.Memory) ⊎ (spec.checked path.now made.items ≡ Err e)) }
{
    if is_forged(path, &made) {
        return Err(PathFault::Escape);
    }
    if utf8(&made).is_none() {
        return Err(PathFault::NotUtf8);
    }
    let path = native(alloc, made)?;
    Ok(Some(path))
}

/// What follows `file://`, without query and fragment.
fn path_in(alloc: Global, rest: &[u8]) -> Result<Option<Vec<u8>>, PathFault>
    ensures value { IfOk result (λ found. Ok (option_map (λ p. p.items) found) ≡ spec.path_in rest.now) }
    ensures fault { IfErr result (λ e. (e ≡ PathFault.Memory) ⊎ (spec.path_in rest.now ≡ Err e)) }
{
    let at = size_before(rest, b'/');
    if !is_local(&rest[..at]) {
        return Err(PathFault::Host);
    }
    let made = bytes_of(alloc, &rest[at..])?;
    checked(alloc, &rest[at..], made)
}

fn is_file(url: &[u8]) -> bool
    ensures { result ≡ spec.is_file url.now }
{
    same_word(&url[..url.len().min(7)], b"file://")
}

/// The path of a file: URL, as the file system has it: UTF-8, and `C:\..` where the URL has a drive. `None`
/// for any other URL. Query and fragment are left out, and half a percent escape stays as it is.
///
/// # Errors
///
/// `Host` where the URL names another host than `localhost`; `Escape` where a percent escape stands for a
/// slash or a NUL, as `%2F`; `NotUtf8`; `Memory`.
pub fn file_path(alloc: Global, url: &[u8]) -> Result<Option<Vec<u8>>, PathFault>
    ensures value { IfOk result (λ found. Ok (option_map (λ p. p.items) found) ≡ spec.file_path url.now) }
    ensures fault { IfErr result (λ e. (e ≡ PathFault.Memory) ⊎ (spec.file_path url.now ≡ Err e)) }
{
    if is_file(url) {
        return path_in(alloc, bare(&url[7..]));
    }
    Ok(None)
}
