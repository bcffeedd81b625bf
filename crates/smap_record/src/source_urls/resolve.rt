//! The URL of one source: the prefix and the source parsed against the base, and the text of that URL parsed
//! once more, to see that it is its own URL.
ghost use Rattle.std.specs.Prelude.{◌≡◌, ◌++◌, string_bytes, option_copied, IfOk, None};
ghost use Rattle.smap_record.specs.SourceUrls.{prefix_of, resolve as url_of};
ghost use Rattle.smap_record.specs.Resolving.{GivesSource, IsNotUnstable, if_same_again, unless_out_of_room};
ghost use Rattle.smap_record.specs.Results.{ReturnsUrl};
ghost use Rattle.smap_record.specs.Fitting.{IsOwnUrl};
ghost use Rattle.url.specs.Parts.{serialize};

use crate::fault::BaseFault;
use crate::source_urls::Base;
use std::alloc::{AllocError, Global};
use url::{ParseError, ParseResult, Url};

/// Why a source has no URL.
#[derive(Clone, Copy, PartialEq, Eq)]
pub(crate) enum SourceFault {
    NoUrl,
    Unstable,
    Memory,
}

/// The prefix that a root makes, followed by a source.
pub(crate) fn prefixed(
    alloc: Global,
    root: Option<&str>,
    source: &str,
) -> Result<String, AllocError>
    ensures { IfOk result
        (λ s. string_bytes s ≡ prefix_of (option_copied root.entry) ++ source.now) }
{
    let mut text = String::new(alloc);
    if let Some(root) = root {
        text.push_str(root)?;
        if !root.is_empty() && !root.ends_with("/") {
            text.push_str("/")?;
        }
    }
    text.push_str(source)?;
    Ok(text)
}

/// The fault that a parser's error shows, but `Memory` if the parser had no room.
fn unless_no_room(error: ParseError, fault: SourceFault) -> SourceFault
    ensures { result ≡ unless_out_of_room error fault }
{
    match error {
        ParseError::OutOfMemory | ParseError::Overflow => SourceFault::Memory,
        _ => fault,
    }
}

/// Whether a URL is the one that its own text led to. No source shows that a URL can be another one, so the
/// contract says which fault comes when.
fn same_again(url: &Url, again: ParseResult<Url>) -> Result<(), SourceFault>
    ensures { result ≡ if_same_again (serialize url.now) again }
{
    match again {
        Ok(again) if again.as_str() == url.as_str() => Ok(()),
        Ok(_) => Err(SourceFault::Unstable),
        Err(error) => Err(unless_no_room(error, SourceFault::Unstable)),
    }
}

/// The text of the source's URL.
#[tactic(auto, unfolding(crate::specs::SourceUrls::resolve))]
pub(crate) fn resolve(
    alloc: Global,
    base: &Base,
    root: Option<&str>,
    source: &str,
) -> Result<String, SourceFault>
    ensures gives { GivesSource result (url_of base.now (option_copied root.entry) source.now) }

    // The text of a URL that was parsed always leads to the URL again.
    ensures stable { IsNotUnstable result }
{
    let Ok(text) = prefixed(alloc, root, source) else {
        return Err(SourceFault::Memory);
    };
    let url = match base.join(text.as_str()) {
        Ok(url) => url,
        Err(error) => return Err(unless_no_room(error, SourceFault::NoUrl)),
    };
    same_again(&url, base.join(url.as_str()))?;
    match String::from_str(alloc, url.as_str()) {
        Ok(text) => Ok(text),
        Err(_) => Err(SourceFault::Memory),
    }
}

impl Base {
    /// The URL that a source has against this base in a map without a `sourceRoot`. It is its own URL: as a
    /// source it has itself.
    ///
    /// # Errors
    ///
    /// `NotUrl` where the source leads to no URL; `Memory`.
    #[tactic(auto, using(crate::proofs::SourceUrlLemmas::resolve_own))]
    pub fn source_url(&self, alloc: Global, source: &str) -> Result<String, BaseFault>
        ensures gives { ReturnsUrl result (url_of self.now None source.now) }
        ensures own { IfOk result (λ text. IsOwnUrl self.now (string_bytes text)) }
    {
        match resolve(alloc, self, None, source) {
            Ok(text) => Ok(text),
            Err(SourceFault::NoUrl | SourceFault::Unstable) => Err(BaseFault::NotUrl),
            Err(SourceFault::Memory) => Err(BaseFault::Memory),
        }
    }
}
