//! How a source that is no URL is spelled so that it is one: what stands where a URL has its host, as
//! `my app` in `webpack://my app/a.js`, is percent-encoded.
use percent_encoding::{AsciiSet, ascii_set, utf8_percent_encode};
use std::alloc::{AllocError, Global};
use url::{ParseError, Url};

/// What no host may hold (URL Standard, "forbidden host code points"), but for what ends it, and for `:` and
/// `@`, which may stand around it.
const NOT_IN_HOST: AsciiSet = ascii_set!(
    AsciiSet::EMPTY
        .add(0)
        .add(b' ')
        .add(b'<')
        .add(b'>')
        .add(b'[')
        .add(b'\\')
        .add(b']')
        .add(b'^')
        .add(b'|')
);

/// That, and `:` and `@`.
const NOT_AROUND_HOST: AsciiSet = ascii_set!(NOT_IN_HOST.add(b':').add(b'@'));

/// Whether a text leads to a URL from a base.
pub(crate) fn is_url(base: &Url, text: &str) -> Result<bool, AllocError> {
    match base.join(text) {
        Ok(_) => Ok(true),
        Err(ParseError::OutOfMemory | ParseError::Overflow) => Err(AllocError),
        Err(_) => Ok(false),
    }
}

/// The text with these bytes percent-encoded where a URL has its host; none if it has no such place.
fn encoded(alloc: Global, text: &str, set: AsciiSet) -> Result<Option<String>, AllocError> {
    let Some((scheme, rest)) = text.split_once("://") else {
        return Ok(None);
    };
    let count = rest
        .bytes()
        .take_while(|b| *b != b'/' && *b != b'?' && *b != b'#')
        .count();
    let Some((host, path)) = rest.split_at_checked(count) else {
        return Ok(None);
    };
    let mut spelled = String::from_str(alloc, scheme)?;
    spelled.push_str("://")?;
    utf8_percent_encode(host, set).append_to(&mut spelled)?;
    spelled.push_str(path)?;
    Ok(Some(spelled))
}

/// The text so percent-encoded, if it then leads to a URL.
fn encoded_url(
    alloc: Global,
    base: &Url,
    text: &str,
    set: AsciiSet,
) -> Result<Option<String>, AllocError> {
    let Some(spelled) = encoded(alloc, text, set)? else {
        return Ok(None);
    };
    if is_url(base, spelled.as_str())? {
        Ok(Some(spelled))
    } else {
        Ok(None)
    }
}

/// The text percent-encoded so that it leads to a URL from the base; none if it leads to one as it is, or
/// can't be made to.
pub(crate) fn respelled(
    alloc: Global,
    base: &Url,
    text: &str,
) -> Result<Option<String>, AllocError> {
    if is_url(base, text)? {
        return Ok(None);
    }
    match encoded_url(alloc, base, text, NOT_IN_HOST)? {
        Some(spelled) => Ok(Some(spelled)),
        None => encoded_url(alloc, base, text, NOT_AROUND_HOST),
    }
}
