//! The URL of a script's map.
ghost use Rattle.std.specs.Prelude.{◌≡◌, ◌⊎◌, IfErr, IfOk, None, Ok, Err, string_bytes};
ghost use Rattle.url.specs.Parser.{parse_url};
ghost use Rattle.smap_link.specs.Resolved as spec;

use crate::alike::own_url;
use crate::encoding::utf8;
use std::alloc::{AllocError, Global};
use url::{ParseError, Url};

/// Why the URL that a script names can't be resolved.
#[derive(Clone, Copy, PartialEq, Eq)]
pub enum LinkFault {
    /// The script's name or the URL isn't UTF-8.
    NotUtf8,
    /// The script's name is no URL and no absolute path.
    NoBase,
    /// With the script's URL before it, it is no URL.
    NotUrl,
    /// Out of memory.
    Memory,
}

impl From<AllocError> for LinkFault {
    ghost use Rattle.std.specs.Prelude.{◌≡◌};
    ghost use Rattle.smap_link.specs.declared.resolve.LinkFault.TheVariants as faults;

    ghost from_gives = { λ _ e. e ≡ faults.Memory };

    fn from(_error: AllocError) -> LinkFault {
        LinkFault::Memory
    }
}

/// The fault, but `Memory` if the parser had no room.
fn unless_no_room(error: ParseError, fault: LinkFault) -> LinkFault
    ensures { result ≡ spec.unless_no_room error fault }
{
    match error {
        ParseError::OutOfMemory | ParseError::Overflow => LinkFault::Memory,
        _ => fault,
    }
}

fn joined(alloc: Global, base: &str, url: &str) -> Result<String, LinkFault>
    ensures value { IfOk result (λ t. Ok (string_bytes t) ≡ spec.joined (parse_url None base.now) url.now) }
    ensures fault { IfErr result
        (λ e. (e ≡ LinkFault.Memory) ⊎ (spec.joined (parse_url None base.now) url.now ≡ Err e)) }
{
    let base = match Url::parse(alloc, base) {
        Ok(base) => base,
        Err(error) => return Err(unless_no_room(error, LinkFault::NoBase)),
    };
    match base.join(url) {
        Ok(url) => {
            let text = String::from_str(alloc, url.as_str())?;
            Ok(text)
        }
        Err(error) => Err(unless_no_room(error, LinkFault::NotUrl)),
    }
}

/// The URL of the map of a script, which names it by this URL: resolved against the script's own, as the URL
/// Standard has it. The script is named by its URL or its absolute path.
///
/// # Errors
///
/// `NotUtf8`, `NoBase`, `NotUrl`, `Memory`.
pub fn resolved(alloc: Global, script: &[u8], url: &[u8]) -> Result<String, LinkFault>
    ensures value { IfOk result (λ t. Ok (string_bytes t) ≡ spec.resolved script.now url.now) }
    ensures fault { IfErr result (λ e. (e ≡ LinkFault.Memory) ⊎ (spec.resolved script.now url.now ≡ Err e)) }
{
    if utf8(script).is_none() {
        return Err(LinkFault::NotUtf8);
    }
    let own = own_url(alloc, script)?;
    let Some(base) = utf8(&own) else {
        return Err(LinkFault::NotUtf8);
    };
    let Some(url) = utf8(url) else {
        return Err(LinkFault::NotUtf8);
    };
    joined(alloc, base, url)
}
