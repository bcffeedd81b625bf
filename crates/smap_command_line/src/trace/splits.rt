//! The ways to read an argument `URL=FILE[=BASE]`, in which each part may hold a `=`.
ghost use Rattle.std.specs.Prelude.{◌≡◌, ◌≢◌, ◌+◌, ◌<◌, ◌≤◌, ℕ, MatchOption, length, option_copied};
ghost use Rattle.std.specs.Prelude.{option_map};
ghost use Rattle.std.specs.Prelude.{drop, slice_index, slice_range, take};
ghost use Rattle.smap_command_line.specs.Order.{IsSplit};
ghost use Rattle.smap_command_line.specs.Splits as spec;

use super::arguments::can_be_url;
use smap_link::{FileKind, file_kind};

/// A way to read an argument: its URL ends at one `=`, and the name of its file at a later one, or at its
/// end. What stands behind that is its base.
#[derive(Clone, Copy)]
pub struct Split<'a> {
    /// The argument.
    pub word: &'a str,
    /// Where its URL ends.
    pub url_end: usize,
    /// Where the name of its file ends.
    pub file_end: usize,
    pub ghost parts: { IsSplit word.now url_end file_end },
}

/// What is there under the name of a file.
#[derive(Clone, Copy, PartialEq, Eq)]
pub enum Kind {
    /// A file, or a pipe.
    File,
    /// A folder.
    Folder,
}

/// What is wrong with an argument that names a file or a folder.
#[derive(Clone, Copy, PartialEq, Eq)]
pub enum SplitFault {
    /// Its URL is empty, holds a line feed, or is no path and holds a space.
    Url,
    /// Its base is empty, holds a line feed, or is no path and holds a space.
    Base,
    /// It names a folder, and has a base.
    FolderBase,
    /// It names a folder, and its URL doesn't end in `/` or `\`.
    FolderUrl,
}

/// The first `=` from here on.
fn equals_from(text: &[u8], start: usize) -> Option<usize>
    requires { start ≤ length text.now }
    ensures { MatchOption result
        ((k : ℕ) → start ≤ k → k < length text.now → slice_index text.now k ≢ 61)
        (λ i. (start ≤ i) × (i < length text.now) × (slice_index text.now i ≡ 61)
        × ((k : ℕ) → start ≤ k → k < i → slice_index text.now k ≢ 61)) }
{
    for i in start..text.len() {
        if text[i] == b'=' {
            return Some(i);
        }
    }
    None
}

/// The last `=` between these places.
fn equals_between(text: &[u8], start: usize, end: usize) -> Option<usize>
    requires { (start ≤ end) × (end ≤ length text.now) }
    ensures { MatchOption result ((k : ℕ) → start ≤ k → k < end → slice_index text.now k ≢ 61)
        (λ i. (start ≤ i) × (i < end) × (slice_index text.now i ≡ 61)
        × ((k : ℕ) → i < k → k < end → slice_index text.now k ≢ 61)) }
{
    for i in (start..end).rev() {
        if text[i] == b'=' {
            return Some(i);
        }
    }
    None
}

/// What stands before a `=`.
fn text_before(word: &str, at: usize) -> &str
    requires inside { at < length word.now }
    requires equals { slice_index word.now at ≡ 61 }
    ensures { result.now ≡ take at word.now }
{
    &word[..at]
}

/// What stands behind a `=`.
fn text_behind(word: &str, at: usize) -> &str
    requires inside { at < length word.now }
    requires equals { slice_index word.now at ≡ 61 }
    ensures { result.now ≡ drop (at + 1) word.now }
{
    &word[at + 1..]
}

/// The name of a file between its URL and its base.
fn text_between(word: &str, url_end: usize, file_end: usize) -> &str
    requires { IsSplit word.now url_end file_end }
    ensures { result.now ≡ slice_range word.now (url_end + 1) file_end }
{
    &word[url_end + 1..file_end]
}

fn ends_in_slash(url: &[u8]) -> bool
    ensures { result ≡ spec.ends_in_slash url.now }
{
    url.ends_with(b"/") || url.ends_with(b"\\")
}

fn kind_fault(kind: Kind, url: &str, base: Option<&str>) -> Option<SplitFault>
    ensures { result ≡ spec.kind_fault kind url.now (option_copied base.entry) }
{
    match (kind, base) {
        (Kind::File, None) => None,
        (Kind::File, Some(base)) => {
            if can_be_url(base) {
                None
            } else {
                Some(SplitFault::Base)
            }
        }
        (Kind::Folder, Some(_)) => Some(SplitFault::FolderBase),
        (Kind::Folder, None) => {
            if ends_in_slash(url.as_bytes()) {
                None
            } else {
                Some(SplitFault::FolderUrl)
            }
        }
    }
}

/// Whether a file with this name is no log: it is a map, or a script or a style sheet, which needs a URL.
pub fn needs_url(name: &str) -> bool
    ensures { result ≡ spec.needs_url name.now }
{
    match file_kind(name.as_bytes()) {
        FileKind::Script | FileKind::StyleSheet | FileKind::Map => true,
        FileKind::Other => false,
    }
}

impl<'a> Split<'a> {
    ghost use Rattle.smap_command_line.specs.Following.{Follows, IsFirst};

    /// The way that is tried first, if the argument has a `=`.
    pub fn first(word: &'a str) -> Option<Split<'a>>
        ensures { IsFirst word.now result }
    {
        let url_end = equals_from(word.as_bytes(), 0)?;
        Some(Split {
            word,
            url_end,
            file_end: word.len(),
        })
    }

    /// The URL of a script, or of a folder of scripts.
    pub fn url(&self) -> &'a str
        ensures { result.now ≡ take self.now.url_end self.now.word.now }
    {
        text_before(self.word, self.url_end)
    }

    /// The name of a file or a folder.
    pub fn file(&self) -> &'a str
        ensures { result.now ≡ slice_range self.now.word.now (self.now.url_end + 1) self.now.file_end }
    {
        text_between(self.word, self.url_end, self.file_end)
    }

    /// The URL of the map, if there is one.
    pub fn base(&self) -> Option<&'a str>
        ensures { option_map (λ base. base.now) result ≡ spec.base_in self.now.word.now self.now.file_end }
    {
        if self.file_end < self.word.len() {
            Some(text_behind(self.word, self.file_end))
        } else {
            None
        }
    }

    /// The way that is tried after this one, if there is another. From [`Split::first`] on, the first whose
    /// file is there counts: the URL ends as early as can be, and the name of the file as late.
    pub fn following(self) -> Option<Split<'a>>
        ensures { Follows self.entry result }
    {
        let text = self.word.as_bytes();
        if let Some(file_end) = equals_between(text, self.url_end + 1, self.file_end) {
            return Some(Split {
                word: self.word,
                url_end: self.url_end,
                file_end,
            });
        }
        let url_end = equals_from(text, self.url_end + 1)?;
        Some(Split {
            word: self.word,
            url_end,
            file_end: text.len(),
        })
    }

    /// What is wrong with this way, where there is a file or a folder under the name of its file.
    pub fn fault(&self, kind: Kind) -> Option<SplitFault>
        ensures { result ≡ spec.split_fault kind (take self.now.url_end self.now.word.now)
            (spec.base_in self.now.word.now self.now.file_end) }
    {
        let url = self.url();
        if can_be_url(url) {
            kind_fault(kind, url, self.base())
        } else {
            Some(SplitFault::Url)
        }
    }
}
