//! How a URL is spelled relatively to a base, so that a source moves together with its map.
ghost use Rattle.std.specs.Prelude.{◌≡◌, IfOk, Some, option_map, string_bytes};
ghost use Rattle.url.specs.Parser.{parse_url};
ghost use Rattle.smap_record.specs.Relative.{relative, relative_to, leads_to};

use crate::source_urls::{Base, SourceFault, resolve};
use std::alloc::{AllocError, Global};
use url::ParseError;

/// Whether a source, without a root, leads to this URL.
fn leads_to(alloc: Global, base: &Base, source: &str, url: &str) -> Result<bool, AllocError>
    ensures { IfOk result (λ leads. leads ≡ leads_to base.now source.now url.now) }
{
    match resolve(alloc, base, None, source) {
        Ok(text) => Ok(text.as_str() == url),
        Err(SourceFault::Memory) => Err(AllocError),
        Err(_) => Ok(false),
    }
}

/// The relative URL from the base to the URL that the text is.
fn relative_to(base: &Base, url: &str) -> Result<Option<String>, AllocError>
    ensures { IfOk result (λ text. option_map string_bytes text
        ≡ relative_to base.now (parse_url (Some base.now) url.now)) }
{
    match base.join(url) {
        Ok(url) => base.relative_url(&url),
        Err(ParseError::OutOfMemory | ParseError::Overflow) => Err(AllocError),
        Err(_) => Ok(None),
    }
}

impl Base {
    /// The relative form of an absolute URL, such as `../a.js`, if resolving it against this base gives the
    /// URL again.
    ///
    /// There is none where `url`, resolved against this base, isn't itself, where scheme, host or port
    /// differ, where the base has an opaque path, or where the relative URL leads elsewhere, as for a file
    /// name with a colon. The rule is this project's own (`docs/FORMAT.md`, "Source URLs"). Both URLs are
    /// parsed twice.
    ///
    /// # Errors
    ///
    /// `AllocError`, also for a URL of 4 GiB or more.
    #[tactic(auto, unfolding(crate::specs::Relative::relative))]
    pub fn relative(&self, alloc: Global, url: &str) -> Result<Option<String>, AllocError>
        ensures { IfOk result (λ text. option_map string_bytes text ≡ relative self.now url.now) }
    {
        if !leads_to(alloc, self, url, url)? {
            return Ok(None);
        }
        let Some(text) = relative_to(self, url)? else {
            return Ok(None);
        };
        if leads_to(alloc, self, text.as_str(), url)? {
            Ok(Some(text))
        } else {
            Ok(None)
        }
    }
}
