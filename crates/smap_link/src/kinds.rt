//! What a file is by the end of its name, and the map that it names.
ghost use Rattle.std.specs.Prelude.{◌≡◌, option_map};
ghost use Rattle.smap_link.specs.Kinds as spec;

use crate::comment::{css_map_url, is_silent, map_url};

/// What a file is by the end of its name.
#[derive(Clone, Copy, PartialEq, Eq)]
pub enum FileKind {
    /// `.js`, `.mjs` or `.cjs`.
    Script,
    /// `.css`.
    StyleSheet,
    /// `.map`.
    Map,
    Other,
}

/// What a file with this name, or this path, is.
pub fn file_kind(name: &[u8]) -> FileKind
    ensures { result ≡ spec.file_kind name.now }
{
    if name.ends_with(b".js") || name.ends_with(b".mjs") || name.ends_with(b".cjs") {
        FileKind::Script
    } else if name.ends_with(b".css") {
        FileKind::StyleSheet
    } else if name.ends_with(b".map") {
        FileKind::Map
    } else {
        FileKind::Other
    }
}

/// The URL of the map that the text of a file with this name names, if it names one: that of a style sheet by
/// `css_map_url`, and any other by `map_url`.
pub fn link_in<'a>(name: &[u8], text: &'a [u8]) -> Option<&'a [u8]>
    ensures { option_map (λ u. u.now) result ≡ spec.link_in name.now text.now }
{
    match file_kind(name) {
        FileKind::StyleSheet => css_map_url(text),
        FileKind::Script | FileKind::Map | FileKind::Other => map_url(text),
    }
}

/// Whether a text, the end of that of a file with this name, says nothing of a map: it has no more than white
/// space and comments, and none of these names a map. What stands before it would say.
pub fn says_nothing(name: &[u8], text: &[u8]) -> bool
    ensures { result ≡ spec.says_nothing name.now text.now }
{
    match file_kind(name) {
        FileKind::StyleSheet => is_silent(text, false),
        FileKind::Script | FileKind::Map | FileKind::Other => is_silent(text, true),
    }
}
