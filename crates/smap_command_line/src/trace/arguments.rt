//! The arguments: places of maps, and paths of folders and logs.
ghost use Rattle.std.specs.Prelude.{◌≡◌, ◌==◌, ◌||◌, IfOk, MatchResult, None, Some, map};
ghost use Rattle.std.specs.List.{list_any};
ghost use Rattle.smap_command_line.specs.Arguments as spec;

use crate::values::parted;
use smap_link::is_path;

/// An argument, as far as its text says what it is.
#[derive(Clone, Copy)]
pub enum Argument<'a> {
    /// `URL=FILE[=BASE]` or `URL/=FOLDER/`: a text with a `=`, with something on both sides of the first.
    Place(&'a str),
    /// A text without a `=`, which isn't empty: the path of a folder, a map or a log, or a position. One that
    /// ends in `/` can only be a folder.
    Path(&'a str),
}

/// What is wrong with an argument, whatever files there are.
#[derive(Clone, Copy)]
pub enum ArgumentFault {
    /// It is empty.
    Empty,
    /// What stands before its first `=` is empty, holds a line feed, or is no path and holds a space.
    Url,
    /// Nothing stands after its first `=`.
    File,
}

fn holds(text: &[u8], byte: u8) -> bool
    ensures { result ≡ list_any (λ b. b == byte) text.now }
{
    text.iter().any(|b| *b == byte)
}

/// Whether this can be a script's URL or path in a log, or the URL of a map: it isn't looked at any closer.
pub(crate) fn can_be_url(text: &str) -> bool
    ensures { result ≡ spec.can_be_url text.now }
{
    let bytes = text.as_bytes();
    !text.is_empty() && !holds(bytes, b'\n') && (is_path(bytes) || !holds(bytes, b' '))
}

fn place_fault(url: &str, file: &str) -> Option<ArgumentFault>
    ensures { result ≡ spec.place_fault (url.now, file.now) }
{
    if !can_be_url(url) {
        Some(ArgumentFault::Url)
    } else if file.is_empty() {
        Some(ArgumentFault::File)
    } else {
        None
    }
}

/// What an argument is.
pub(crate) fn argument_in(word: &str) -> Result<Argument<'_>, ArgumentFault>
    ensures value { IfOk result (λ a. spec.argument_view a ≡ spec.argument_meant word.now) }
    ensures fault { MatchResult result (λ a. spec.argument_fault word.now ≡ None)
        (λ why. spec.argument_fault word.now ≡ Some why) }
{
    let Some((url, file)) = parted(word) else {
        return if word.is_empty() {
            Err(ArgumentFault::Empty)
        } else {
            Ok(Argument::Path(word))
        };
    };
    match place_fault(url, file) {
        Some(why) => Err(why),
        None => Ok(Argument::Place(word)),
    }
}
