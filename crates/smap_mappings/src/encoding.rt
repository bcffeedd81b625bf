//! Encoding tokens as a mappings string.
ghost use Rattle.std.specs.Prelude.{◌≡◌, IfOk};
ghost use Rattle.smap_mappings.specs.Text.{IsEncodable, mappings_text};

use crate::encoder::Encoder;
use crate::error::Memory;
use crate::token::Token;
use std::alloc::Global;

/// Writes the canonical mappings string of tokens (ECMA-426, "Mappings structure"): the lines up to the
/// last one with a token, each number as the shortest encoding of its difference to the tokens before, and
/// no separator at the end. No other string that says the same tokens is as short.
///
/// The tokens must be encodable, which [`is_encodable`](crate::is_encodable) tests. One pass over the
/// tokens.
///
/// # Errors
///
/// `Memory`.
///
/// # Examples
///
/// ```
/// let tokens = decode(alloc, b"IAEA,AAAA", WIDEST)?;
/// let mappings = encode(alloc, tokens.as_slice())?; // sorted, and as short as possible
/// ```
pub fn encode(alloc: Global, tokens: &[Token]) -> Result<Vec<u8>, Memory>
    requires { IsEncodable tokens.now }
    ensures { IfOk result (λ text. text.items ≡ mappings_text tokens.now) }
{
    let mut encoder = Encoder::with_capacity(alloc, tokens.len())?;
    for token in tokens {
        encoder.push(*token)?;
    }
    Ok(encoder.finish())
}
