//! What is said of a fault, without the name of the program before it. What a command line holds is in these
//! texts as it is.
use super::arguments::ArgumentFault;
use super::splits::{Split, SplitFault, needs_url};
use super::words::WordFault;
use crate::fault::option_message;
use std::alloc::{AllocError, Global};

const ANY: &str = "expected URL=FILE, URL/=FOLDER/, a folder, a map, a log or a position";

fn wrong_url(alloc: Global, url: &str) -> Result<String, AllocError> {
    format!(in alloc; "the URL is empty or holds a space (in a URL that is %20): '{url}'")
}

fn argument_text(alloc: Global, word: &str, why: ArgumentFault) -> Result<String, AllocError> {
    match why {
        ArgumentFault::Empty => format!(in alloc; "an argument is empty: {ANY}"),
        ArgumentFault::Url => match word.split_once('=') {
            Some((url, _)) => wrong_url(alloc, url),
            None => wrong_url(alloc, word),
        },
        ArgumentFault::File => format!(in alloc; "{word}: expected URL=FILE"),
    }
}

/// What is wrong with a command line. In its place [`HELP`](super::HELP) is printed where the fault is
/// `WordFault::Nothing`.
///
/// # Errors
///
/// `AllocError`.
pub fn message(alloc: Global, fault: &WordFault<'_>) -> Result<String, AllocError> {
    match fault {
        WordFault::Options(fault) => option_message(alloc, fault),
        WordFault::Argument {
            place: _,
            word,
            why,
        } => argument_text(alloc, *word, *why),
        WordFault::Nothing => format!(in alloc; "nothing to do: {ANY}"),
    }
}

/// What is wrong with a place whose file or folder is there.
///
/// # Errors
///
/// `AllocError`.
pub fn split_message(
    alloc: Global,
    split: &Split<'_>,
    fault: SplitFault,
) -> Result<String, AllocError> {
    match fault {
        SplitFault::Url => wrong_url(alloc, split.url()),
        SplitFault::Base => {
            let base = split.base().unwrap_or("");
            format!(in alloc; "the base is empty or holds a space (in a URL that is %20): '{base}'")
        }
        SplitFault::FolderBase => {
            let word = split.word;
            format!(in alloc; "a folder has no BASE: {word}")
        }
        SplitFault::FolderUrl => {
            let (url, file) = (split.url(), split.file());
            format!(in alloc; "{file} is a folder: write {url}/={file} for the maps in it")
        }
    }
}

/// What is wrong with a place of which no way to read it has a file or a folder that is there.
///
/// # Errors
///
/// `AllocError`.
pub fn place_message(alloc: Global, word: &str) -> Result<String, AllocError> {
    match word.split_once('=') {
        Some((url, file)) if !file.contains('=') => {
            format!(in alloc; "cannot read {file}, the map of {url}")
        }
        _ => format!(in alloc;
            "no = in {word} is followed by the name of a file or folder that can be read"
        ),
    }
}

/// What is wrong with a path that is neither that of a folder nor that of a map or a log.
///
/// # Errors
///
/// `AllocError`.
pub fn path_message(alloc: Global, word: &str) -> Result<String, AllocError> {
    if word.contains("://") {
        format!(in alloc; "{word}: expected URL=FILE")
    } else if word.ends_with(".map") {
        format!(in alloc; "cannot read {word}: no such file")
    } else if needs_url(word) {
        format!(in alloc; "{word}: expected URL=FILE, as https://example.org/app.js={word}")
    } else {
        format!(in alloc; "no such file or folder: {word}")
    }
}
