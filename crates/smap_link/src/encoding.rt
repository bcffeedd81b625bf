//! The URLs of files, and of scripts below a folder.
ghost use Rattle.std.specs.Prelude.{◌≡◌, ◌⊎◌, false, true, IfErr, IfOk, MatchOption, OnOk, option_map};
ghost use Rattle.std.specs.Prelude.{string_bytes};
ghost use Rattle.std.specs.Str.{is_utf8};
ghost use Rattle.smap_link.specs.Urls as spec;

use percent_encoding::{AsciiSet, CONTROLS, ascii_set, percent_encode};
use std::alloc::{AllocError, Global};

/// What is percent-encoded in a path of a URL, beside all that is no ASCII: the controls, the space, and
/// `"`, `#`, `%`, `<`, `>`, `?`, `\`, `^`, `` ` ``, `{` and `}`.
pub const IN_PATH: AsciiSet = ascii_set!(
    CONTROLS
        .add(b' ')
        .add(b'"')
        .add(b'#')
        .add(b'%')
        .add(b'<')
        .add(b'>')
        .add(b'?')
        .add(b'\\')
        .add(b'^')
        .add(b'`')
        .add(b'{')
        .add(b'}')
);

fn is_rooted(path: &[u8]) -> bool
    ensures { result ≡ spec.is_rooted path.now }
{
    match path {
        [first, ..] => *first == b'/',
        [] => false,
    }
}

pub(crate) fn is_drive(path: &[u8]) -> bool
    ensures { result ≡ spec.is_drive path.now }
{
    match path {
        [letter, colon, slash, ..] => {
            letter.is_ascii_alphabetic() && (*colon == b':' && (*slash == b'/' || *slash == b'\\'))
        }
        _ => false,
    }
}

pub(crate) fn has_backslashes(path: &[u8]) -> bool
    ensures { result ≡ spec.has_backslashes path.now }
{
    match path {
        [letter, colon, slash, ..] => {
            letter.is_ascii_alphabetic() && (*colon == b':' && *slash == b'\\')
        }
        _ => false,
    }
}

/// Whether a script is named by an absolute path, and not by a URL.
pub fn is_path(script: &[u8]) -> bool
    ensures { result ≡ spec.is_path script.now }
{
    is_rooted(script) || is_drive(script)
}

pub(crate) fn slashed(alloc: Global, path: &[u8]) -> Result<Vec<u8>, AllocError>
    ensures { IfOk result (λ s. s.items ≡ spec.slashed path.now) }
{
    path.iter()
        .map(|b| if *b == b'\\' { b'/' } else { *b })
        .collect(alloc)
}

pub(crate) fn backslashed(alloc: Global, path: &[u8]) -> Result<Vec<u8>, AllocError>
    ensures { IfOk result (λ s. s.items ≡ spec.backslashed path.now) }
{
    path.iter()
        .map(|b| if *b == b'/' { b'\\' } else { *b })
        .collect(alloc)
}

/// Why a path has no URL, or a URL no path.
#[derive(Clone, Copy, PartialEq, Eq)]
pub enum PathFault {
    /// The path isn't UTF-8.
    NotUtf8,
    /// The URL names a host, and not this computer.
    Host,
    /// A percent escape of the URL stands for a slash or a NUL, which no name has.
    Escape,
    /// Out of memory.
    Memory,
}

impl From<AllocError> for PathFault {
    ghost use Rattle.std.specs.Prelude.{◌≡◌};
    ghost use Rattle.smap_link.specs.declared.encoding.PathFault.TheVariants as faults;

    ghost from_gives = { λ _ e. e ≡ faults.Memory };

    fn from(_error: AllocError) -> PathFault {
        PathFault::Memory
    }
}

/// The bytes as text, if they are UTF-8.
pub(crate) fn utf8<'a>(bytes: &'a [u8]) -> Option<&'a str>
    ensures { MatchOption result (is_utf8 bytes.now ≡ false)
        (λ text. (text.now ≡ bytes.now) × (is_utf8 bytes.now ≡ true)) }
{
    match std::str::from_utf8(bytes) {
        Ok(text) => Some(text),
        Err(_) => None,
    }
}

/// A path as in a URL.
pub(crate) fn encoded(alloc: Global, path: &[u8]) -> Result<Vec<u8>, AllocError>
    ensures { IfOk result (λ text. text.items ≡ spec.encoded path.now) }
{
    let mut text = String::new(alloc);
    percent_encode(path, IN_PATH).append_to(&mut text)?;
    Ok(text.into_bytes())
}

/// The file: URL of what begins with a slash, or with a drive.
pub(crate) fn url_of(alloc: Global, path: &[u8]) -> Result<Option<String>, AllocError>
    ensures { IfOk result (λ url. option_map string_bytes url ≡ spec.url_of path.now) }
{
    if is_rooted(path) {
        let mut url = String::from_str(alloc, "file://")?;
        percent_encode(path, IN_PATH).append_to(&mut url)?;
        return Ok(Some(url));
    }
    if is_drive(path) {
        let path = slashed(alloc, path)?;
        let mut url = String::from_str(alloc, "file:///")?;
        percent_encode(&path, IN_PATH).append_to(&mut url)?;
        return Ok(Some(url));
    }
    Ok(None)
}

/// The file: URL of an absolute path, POSIX (`/a/b`) or Windows (`C:\\a\\b`, `C:/a/b`); `None` where it is
/// none.
///
/// # Errors
///
/// `NotUtf8`, `Memory`.
pub fn file_url(alloc: Global, path: &[u8]) -> Result<Option<String>, PathFault>
    ensures value { IfOk result (λ url. option_map string_bytes url ≡ spec.url_of path.now) }
    ensures utf8 { OnOk result (is_utf8 path.now ≡ true) }
    ensures fault { IfErr result (λ e. (e ≡ PathFault.Memory)
        ⊎ ((e ≡ PathFault.NotUtf8) × (is_utf8 path.now ≡ false))) }
{
    if utf8(path).is_none() {
        return Err(PathFault::NotUtf8);
    }
    let url = url_of(alloc, path)?;
    Ok(url)
}

/// The URL of the script with this name below a folder that has this URL, or its path where the folder has a
/// path as the log has it.
///
/// # Errors
///
/// `AllocError`.
pub fn script_url(alloc: Global, folder: &[u8], name: &[u8]) -> Result<Vec<u8>, AllocError>
    ensures { IfOk result (λ url. url.items ≡ spec.script_url folder.now name.now) }
{
    let mut url = Vec::from_slice(alloc, folder)?;
    if has_backslashes(folder) {
        let name = backslashed(alloc, name)?;
        url.extend_from_slice(&name)?;
        return Ok(url);
    }
    if is_path(folder) {
        url.extend_from_slice(name)?;
        return Ok(url);
    }
    let name = encoded(alloc, name)?;
    url.extend_from_slice(&name)?;
    Ok(url)
}
