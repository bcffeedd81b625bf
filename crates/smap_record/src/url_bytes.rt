//! How many bytes the URLs of sources take, before a map is read: each URL is found and let go again, until
//! together they take more than they may.
ghost use Rattle.std.specs.Prelude.{◌≡◌, ◌-◌, ◌≤◌, IfOk, SomeIff, option_copied};
ghost use Rattle.smap_record.specs.UrlBytes.{url_length, source_bytes, are_within};

use crate::source_urls::{Base, prefixed};
use crate::written::WrittenSources;
use std::alloc::{AllocError, Global};
use url::ParseError;

/// The length of the URL that a text leads to, or 0 if it leads to none.
fn url_length(base: &Base, text: &str) -> Result<usize, AllocError>
    ensures { IfOk result (λ n. n ≡ url_length base.now text.now) }
{
    match base.join(text) {
        Ok(url) => Ok(url.as_str().len()),
        Err(ParseError::OutOfMemory) => Err(AllocError),
        Err(ParseError::Overflow) => Err(AllocError),
        Err(_) => Ok(0),
    }
}

/// What a source leaves of this many bytes; none if it takes more.
fn left_by(
    alloc: Global,
    base: &Base,
    root: Option<&str>,
    source: Option<&str>,
    bytes: usize,
) -> Result<Option<usize>, AllocError>
    ensures { IfOk result (λ left.
        SomeIff left (source_bytes base.now (option_copied root.entry) (option_copied source.entry) ≤ bytes)
        (bytes - source_bytes base.now (option_copied root.entry) (option_copied source.entry))) }
{
    let Some(source) = source else {
        return Ok(Some(bytes));
    };
    let text = prefixed(alloc, root, source)?;
    if text.len() > bytes {
        return Ok(None);
    }
    let url = url_length(base, text.as_str())?;
    Ok(bytes.checked_sub(text.len().max(url)))
}

/// Whether these sources take at most this many bytes.
pub(crate) fn are_within(
    alloc: Global,
    base: &Base,
    written: &WrittenSources,
    most: usize,
) -> Result<bool, AllocError>
    ensures { IfOk result (λ within. within ≡ are_within base.now most written.now) }
{
    let mut left = most;
    for i in 0..written.len() {
        match left_by(alloc, base, written.root(i), written.source(i), left)? {
            Some(bytes) => left = bytes,
            None => return Ok(false),
        }
    }
    Ok(true)
}
