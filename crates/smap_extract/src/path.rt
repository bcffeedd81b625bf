//! The path of one source.
ghost use Rattle.std.specs.Prelude.{◌≡◌, ◌≤◌, ◌++◌, ◌∷◌, [], IfOk, OnOk, filter, length, map};
ghost use Rattle.std.specs.Str.{is_utf8};
ghost use Rattle.percent_encoding.specs.Percent.{percent_decode as decoded_text};
ghost use Rattle.smap_extract.specs.Paths as spec;
ghost use Rattle.smap_extract.specs.Places.{IsPath};
ghost use Rattle.smap_extract.specs.Segments.{cleaned as is_cleaned};

use crate::segments::cleaned;
use percent_encoding::percent_decode;
use smap_link::{bare, is_data};
use std::alloc::{AllocError, Global};

/// How many names a path has at most.
const MOST_STEPS: usize = 32;

/// The path of a file below a folder.
#[derive(Drop)]
pub struct SourcePath {
    /// The folders that it is in, each with a slash behind it.
    pub folder: Vec<u8>,
    /// The name of the file.
    pub name: Vec<u8>,
}

fn is_separator(byte: u8) -> bool
    ensures { result ≡ spec.is_separator byte }
{
    byte == b'/' || byte == b'\\'
}

fn scheme_size(url: &[u8]) -> usize
    ensures value { result ≡ spec.scheme_size url.now }
    ensures within { result ≤ length url.now }
{
    url.iter()
        .take_while(|b| !(**b == b':' || is_separator(**b)))
        .count()
}

fn without_scheme<'a>(url: &'a [u8]) -> &'a [u8]
    ensures { result.now ≡ spec.without_scheme url.now }
{
    let size = scheme_size(url);
    if size < url.len() && url[size] == b':' {
        return &url[size + 1..];
    }
    url
}

fn bytes_of(alloc: Global, text: &[u8]) -> Result<Vec<u8>, AllocError>
    ensures { IfOk result (λ v. v.items ≡ decoded_text text.now) }
{
    let mut bytes = Vec::new(alloc);
    percent_decode(text).append_to(&mut bytes)?;
    Ok(bytes)
}

fn is_text(bytes: &[u8]) -> bool
    ensures { result ≡ is_utf8 bytes.now }
{
    match std::str::from_utf8(bytes) {
        Ok(_) => true,
        Err(_) => false,
    }
}

/// Text that is percent-decoded once, where that is UTF-8.
fn decoded(alloc: Global, text: &[u8]) -> Result<Vec<u8>, AllocError>
    ensures { IfOk result (λ v. v.items ≡ spec.decoded text.now) }
{
    let bytes = bytes_of(alloc, text)?;
    if is_text(&bytes) {
        return Ok(bytes);
    }
    Vec::from_slice(alloc, text)
}

/// What of a URL names a file.
fn naming_part(alloc: Global, url: &[u8]) -> Result<Vec<u8>, AllocError>
    ensures { IfOk result (λ v. v.items ≡ spec.naming_part url.now) }
{
    if is_data(url) {
        return Vec::from_slice(alloc, b"data");
    }
    decoded(alloc, without_scheme(bare(url)))
}

fn leads(segment: &[u8]) -> bool
    ensures { result ≡ spec.leads segment.now }
{
    match segment {
        [] => false,
        [byte] => *byte != b'.',
        [first, second] => !(*first == b'.' && *second == b'.'),
        _ => true,
    }
}

/// Adds a segment, unless it is empty or dots.
fn add_step<'a>(steps: &mut Vec<&'a [u8]>, segment: &'a [u8]) -> Result<(), AllocError>
    ensures { OnOk result (map (λ s. s.now) steps.new.items
        ≡ map (λ s. s.now) steps.old.items ++ filter spec.leads (segment.now ∷ [])) }
{
    if leads(segment) {
        steps.push(segment)?;
    }
    Ok(())
}

/// The segments of a text that are neither empty nor dots.
fn steps<'a>(alloc: Global, text: &'a [u8]) -> Result<Vec<&'a [u8]>, AllocError>
    ensures { IfOk result (λ v. map (λ s. s.now) v.items ≡ spec.steps text.now) }
{
    let mut steps = Vec::new(alloc);
    for segment in text.split(|b| is_separator(*b)) {
        add_step(&mut steps, segment)?;
    }
    Ok(steps)
}

/// The names of folders, each with a slash behind it.
fn folder_text(alloc: Global, steps: &[&[u8]]) -> Result<Vec<u8>, AllocError>
    ensures { IfOk result (λ v. v.items ≡ spec.folder_text (map (λ s. is_cleaned s.now) steps.now)) }
{
    let mut text = Vec::new(alloc);
    for step in steps {
        let name = cleaned(alloc, *step)?;
        text.extend_from_slice(&name)?;
        text.push(b'/')?;
    }
    Ok(text)
}

/// Those that are nearest to the file.
fn last_steps<'s, 'a>(steps: &'s [&'a [u8]]) -> &'s [&'a [u8]]
    ensures { map (λ s. is_cleaned s.now) result.now
        ≡ map is_cleaned (spec.last_steps (map (λ s. s.now) steps.now)) }
{
    &steps[steps.len().saturating_sub(MOST_STEPS)..]
}

/// The path of these names.
fn path_from(alloc: Global, steps: &[&[u8]]) -> Result<SourcePath, AllocError>
    ensures { IfOk result (IsPath (spec.or_unnamed (map (λ s. is_cleaned s.now) steps.now))) }
{
    match steps {
        [] => Ok(SourcePath {
            folder: Vec::new(alloc),
            name: Vec::from_slice(alloc, b"unnamed")?,
        }),
        [folders @ .., name] => {
            let folder = folder_text(alloc, folders)?;
            let name = cleaned(alloc, *name)?;
            Ok(SourcePath { folder, name })
        }
    }
}

/// The path of the source with this URL: without scheme, query and fragment, percent-decoded once, and
/// without what leads upwards; of more than 32 names the last. `data` for a `data:` URL, and `unnamed` where
/// there is no name.
///
/// # Errors
///
/// `AllocError`.
pub fn source_path(alloc: Global, url: &[u8]) -> Result<SourcePath, AllocError>
    ensures { IfOk result (IsPath (spec.path_of url.now)) }
{
    let text = naming_part(alloc, url)?;
    let steps = steps(alloc, &text)?;
    path_from(alloc, last_steps(&steps))
}
