//! The base URL of a map. It is parsed once, and serves any number of maps.
ghost use Rattle.std.specs.Prelude.{◌≡◌, None, Some, IfOk, option_map, string_bytes};
ghost use Rattle.url.specs.Parser.{parse_url, Gives};
ghost use Rattle.url.specs.Parts.{serialize};
ghost use Rattle.smap_record.specs.Results.{ReturnsBase};
ghost use Rattle.smap_record.specs.Relative.{relative_url};
ghost use Rattle.smap_record.specs.Resolving.{LeadsToItself};

use crate::fault::BaseFault;
use std::alloc::{AllocError, Global};
use std::marker::Model;
use url::{ParseError, ParseResult, Url};

/// The URL against which a map's sources are resolved: usually that of the map itself.
#[derive(Drop)]
pub struct Base {
    url: Url,
}

impl Model for Base {
    ghost use Rattle.url.specs.Parts.{Parts, parts_code};

    ghost Value = { Parts };

    ghost coded = { parts_code };

    ghost view = { λ b. b.url };

    ghost use Rattle.smap_record.specs.Resolving.{IsMade};

    // It was made from a text, so that no URL that is resolved against it is unstable.
    ghost invariant = { λ b. IsMade b.url };
}

impl Base {
    /// Parses an absolute URL by the URL Standard. A URL with an opaque path, such as `mailto:x`, is a base
    /// too; only absolute sources, and fragments, can be resolved against it.
    ///
    /// # Errors
    ///
    /// `NotUrl` where `text` isn't an absolute URL; `Memory`.
    ///
    /// # Examples
    ///
    /// ```
    /// let base = Base::new(alloc, "http://h/m/out.js.map")?; // a source `a.js` is then http://h/m/a.js
    /// ```
    pub fn new(alloc: Global, text: &str) -> Result<Base, BaseFault>
        ensures { ReturnsBase (λ b. b) result (parse_url None text.now) }
    {
        match Url::parse(alloc, text) {
            Ok(url) => {
                // What this call promises besides the text: the parts of a URL are valid.
                let _ = url.as_str();
                Ok(Base { url })
            }
            Err(ParseError::OutOfMemory) => Err(BaseFault::Memory),
            Err(ParseError::Overflow) => Err(BaseFault::Memory),
            Err(_) => Err(BaseFault::NotUrl),
        }
    }

    /// The URL that a text leads to from here. Its own text leads to it again.
    pub(crate) fn join(&self, text: &str) -> ParseResult<Url>
        ensures gives { Gives result (parse_url (Some self.now) text.now) }
        ensures itself { IfOk result (LeadsToItself self.now) }
    {
        match self.url.join(text) {
            Ok(url) => {
                // What this call promises besides the text: the parts of a URL are valid.
                let _ = url.as_str();
                Ok(url)
            }
            Err(error) => Err(error),
        }
    }

    /// The relative URL that leads from here to a URL on the same host.
    pub(crate) fn relative_url(&self, url: &Url) -> Result<Option<String>, AllocError>
        ensures { IfOk result (λ text. option_map string_bytes text ≡ relative_url self.now url.now) }
    {
        let text = self.url.make_relative(url)?;
        Ok(text)
    }

    /// The URL, as the URL Standard serializes it.
    pub fn text(&self) -> &str
        ensures { result.now ≡ serialize self.now }
    {
        self.url.as_str()
    }
}
