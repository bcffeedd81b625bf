//! Paths that maps have for files.
ghost use Rattle.std.specs.Prelude.{◌≡◌, ◌≤◌, length};
ghost use Rattle.smap_lint_rules.specs.Paths as spec;

/// Whether a path begins with a drive, as `C:\` and `C:/` do.
fn has_drive(path: &[u8]) -> bool
    ensures { result ≡ spec.has_drive path.now }
{
    match path {
        [letter, b':', b'\\' | b'/', ..] => letter.is_ascii_alphabetic(),
        _ => false,
    }
}

/// Whether a path is below a folder of users or builds, and not likely of a server.
fn has_front(path: &[u8]) -> bool
    ensures { result ≡ spec.has_front path.now }
{
    path.starts_with(b"/home/")
        || path.starts_with(b"/Users/")
        || path.starts_with(b"/root/")
        || path.starts_with(b"/tmp/")
        || path.starts_with(b"/var/")
        || path.starts_with(b"/private/")
        || path.starts_with(b"/mnt/")
        || path.starts_with(b"/builds/")
}

/// A path without `webpack:///` before it.
fn without_scheme<'a>(path: &'a [u8]) -> &'a [u8]
    ensures { result.now ≡ spec.without_scheme path.now }
{
    if path.starts_with(b"webpack:///") {
        &path[11..]
    } else {
        path
    }
}

/// Whether a source is named by a path of the machine that built the map: a `file:` URL, a Windows path with
/// a drive or of a share, or a path below a folder that servers don't show, as `/home/`; also behind
/// `webpack:///`.
pub(crate) fn is_machine_path(path: &[u8]) -> bool
    ensures { result ≡ spec.is_machine_path path.now }
{
    let path = without_scheme(path);
    path.starts_with(b"file:///") || path.starts_with(br"\\") || has_drive(path) || has_front(path)
}

/// How many bytes are behind the last slash or backslash of a path.
fn segment_size(path: &[u8]) -> usize
    ensures value { result ≡ spec.segment_size path.now }
    ensures within { result ≤ length path.now }
{
    path.iter()
        .rev()
        .take_while(|b| !(**b == b'/' || **b == b'\\'))
        .count()
}

/// What is behind the last slash or backslash of a path.
fn last_segment<'a>(path: &'a [u8]) -> &'a [u8]
    ensures { result.now ≡ spec.last_segment path.now }
{
    &path[path.len() - segment_size(path)..]
}

/// Whether the member `file` of a map may name this script: it is empty, or has the script's last segment.
pub fn file_agrees(file: &[u8], script: &[u8]) -> bool
    ensures { result ≡ spec.file_agrees file.now script.now }
{
    file.is_empty() || last_segment(file) == last_segment(script)
}
