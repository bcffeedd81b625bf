//! What is wrong with the URL that a script names for its map: the rule, and a sentence after the script's
//! name.
use smap_lint_rules::Check;
use smap_map_choice::NamedFault;
use smap_map_files::Absence;
use smap_system::printable;
use std::alloc::{AllocError, Global};

fn with_url(alloc: Global, what: &str, url: &[u8]) -> Result<String, AllocError> {
    let url = printable(alloc, url)?;
    let url = url.as_str();
    format!(in alloc; "{what}: {url}")
}

/// What is wrong with a URL of no file.
pub(crate) fn wrong_words(
    alloc: Global,
    why: NamedFault,
    url: &[u8],
) -> Result<(Check, String), AllocError> {
    match why {
        NamedFault::Garbled => {
            let text = String::from_str(alloc, "names a data: URL that can't be decoded")?;
            Ok((Check::BrokenComment, text))
        }
        NamedFault::NoName => {
            let text = String::from_str(alloc, "names an empty or endless URL")?;
            Ok((Check::BrokenComment, text))
        }
        NamedFault::NotUrl => {
            let text = with_url(alloc, "names what is no URL", url)?;
            Ok((Check::BrokenComment, text))
        }
        NamedFault::Leaves => {
            let text = with_url(alloc, "names a map that is no file of the folder", url)?;
            Ok((Check::CommentLeavesFolder, text))
        }
    }
}

/// Why a URL leads to no file that is there.
pub(crate) fn absent_words(
    alloc: Global,
    why: Absence,
    url: &[u8],
) -> Result<(Check, String), AllocError> {
    match why {
        Absence::Missing | Absence::NoFile => {
            let text = with_url(alloc, "names a map that isn't there", url)?;
            Ok((Check::CommentMissingFile, text))
        }
        Absence::Outside => {
            let what = "names a map that a link leads out of the folder";
            Ok((Check::CommentLeavesFolder, with_url(alloc, what, url)?))
        }
    }
}
