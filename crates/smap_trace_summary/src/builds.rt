//! Names of files that differ in a hash alone, as those of a script in two builds do.
ghost use Rattle.std.specs.Prelude.{◌≡◌, ◌≤◌, length};
ghost use Rattle.std.specs.Char.{is_ascii_alphanumeric, is_ascii_digit, is_ascii_lowercase};
ghost use Rattle.std.specs.Char.{is_ascii_uppercase};
ghost use Rattle.std.specs.List.{list_any, prefix_len};
ghost use Rattle.smap_trace_summary.specs.Builds as spec;

use smap_link::bare;
use smap_map_files::{Origin, Wanted};
use smap_system::printable;
use std::alloc::{AllocError, Global};

/// So many letters and digits a hash has at least.
const LEAST: usize = 6;

fn is_separator(byte: u8) -> bool
    ensures { result ≡ spec.is_separator byte }
{
    byte == b'-' || byte == b'.' || byte == b'_'
}

/// How many letters and digits a text begins with.
fn word_len(text: &[u8]) -> usize
    ensures value { result ≡ prefix_len is_ascii_alphanumeric text.now }
    ensures within { result ≤ length text.now }
{
    for at in 0..text.len() {
        if !text[at].is_ascii_alphanumeric() {
            return at;
        }
    }
    text.len()
}

fn has_digit(text: &[u8]) -> bool
    ensures { result ≡ list_any is_ascii_digit text.now }
{
    text.iter().any(|b| b.is_ascii_digit())
}

fn has_capital(text: &[u8]) -> bool
    ensures { result ≡ list_any is_ascii_uppercase text.now }
{
    text.iter().any(|b| b.is_ascii_uppercase())
}

fn has_small(text: &[u8]) -> bool
    ensures { result ≡ list_any is_ascii_lowercase text.now }
{
    text.iter().any(|b| b.is_ascii_lowercase())
}

fn is_hash(text: &[u8]) -> bool
    ensures { result ≡ spec.is_hash text.now }
{
    text.len() >= LEAST && (has_digit(text) || has_capital(text) && has_small(text))
}

/// Whether two texts begin with different hashes, and go on in the same way.
fn begin_with_hashes(a: &[u8], b: &[u8]) -> bool
    ensures { result ≡ spec.begin_with_hashes a.now b.now }
{
    let (i, j) = (word_len(a), word_len(b));
    is_hash(&a[..i]) && is_hash(&b[..j]) && a[i..] == b[j..] && a[..i] != b[..j]
}

/// Whether two names differ in a hash alone: they are the same up to a separator, which is `-`, `.` or `_`,
/// different hashes follow, and then the same again. A hash is six or more letters and digits, among them a
/// digit, or capitals and small letters.
pub fn differ_in_hash(a: &[u8], b: &[u8]) -> bool
    ensures { result ≡ spec.differ_in_hash a.now b.now }
{
    for at in 0..a.len() {
        if at >= b.len() {
            return false;
        }
        if a[at] != b[at] {
            return false;
        }
        if is_separator(a[at]) && begin_with_hashes(&a[at + 1..], &b[at + 1..]) {
            return true;
        }
    }
    false
}

/// The last part of a path or URL.
fn last_part<'a>(path: &'a [u8]) -> &'a [u8] {
    path.rsplit(|b| *b == b'/' || *b == b'\\')
        .next()
        .unwrap_or(path)
}

/// A file's name without `.map`.
fn stem<'a>(name: &'a [u8]) -> &'a [u8] {
    name.strip_suffix(b".map".as_slice()).unwrap_or(name)
}

/// The number of the folder and the file of a map whose script's name differs from this one in a hash alone.
fn map_of_build<'w>(wanted: &'w Wanted<'_>, name: &[u8]) -> Option<(usize, &'w [u8])> {
    for (file, root) in wanted.files.iter().zip(wanted.file_roots.iter()) {
        let file = last_part(file);
        if differ_in_hash(stem(file), name) {
            return Some((*root, file));
        }
    }
    for (place, origin) in wanted.places.iter().zip(wanted.origins.iter()) {
        if let Origin::Below(root) = origin {
            if differ_in_hash(last_part(bare(&place.script)), name) {
                return Some((*root, last_part(&place.file)));
            }
        }
    }
    None
}

/// Says of which build a script is that has no map, if the folder has a map whose name differs in a hash.
///
/// # Errors
///
/// `AllocError`.
pub fn build_text(
    alloc: Global,
    wanted: &Wanted<'_>,
    name: &[u8],
) -> Result<Option<String>, AllocError> {
    let name = last_part(bare(name));
    let Some((number, file)) = map_of_build(wanted, name) else {
        return Ok(None);
    };
    let Some(root) = wanted.roots.get(number) else {
        return Ok(None);
    };
    let root = root.path.as_str();
    let (file, name) = (printable(alloc, file)?, printable(alloc, name)?);
    let (file, name) = (file.as_str(), name.as_str());
    let text = format!(in alloc; "{root} has {file}, the log {name}: of another build?")?;
    Ok(Some(text))
}
