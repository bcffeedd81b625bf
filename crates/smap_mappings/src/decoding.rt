//! Decoding a mappings string.
ghost use Rattle.std.specs.Prelude.{◌≡◌, ◌≢◌, [], Err, IfOk};
ghost use Rattle.std.specs.List.{AllByRecursion};
ghost use Rattle.smap_mappings.specs.Decoded.{ReturnsTokens, AreBounds, IsWithin, IsFromStart, decoded};
ghost use Rattle.smap_mappings.specs.Text.{IsEncodable};
ghost use Rattle.smap_mappings.specs.Lines.{segments_of};
ghost use Rattle.smap_mappings.specs.declared.error.MappingsError.TheVariants as errors;

use crate::counting::count_segments;
use crate::error::MappingsError;
use crate::reader::MappingsReader;
use crate::token::{Bounds, Token};
use std::alloc::Global;

/// Reads a mappings string (ECMA-426, "Mappings structure"), and answers its tokens sorted by generated
/// line and column, where tokens at one position keep the order of the string. The string may be any bytes;
/// [`WIDEST`] are the bounds for one without a map.
///
/// [`WIDEST`]: crate::WIDEST
///
/// The segments are counted first, so that memory is taken once; then the string is read in one pass. The
/// tokens are sorted only where a column falls within its line, which may take more memory.
///
/// # Errors
///
/// `Fault` with the place and the kind of the first invalid segment, in the order of the string; `Memory`.
///
/// # Examples
///
/// ```
/// let tokens = decode(alloc, b"AAUE,IAEA", WIDEST)?;
/// // tokens[1]: line 0, column 4, original source 0, line 12, column 2
/// ```
pub fn decode(alloc: Global, text: &[u8], bounds: Bounds) -> Result<Vec<Token>, MappingsError>
    ensures says { ReturnsTokens result (decoded bounds text.now) }

    // What was decoded can be encoded, is within the bounds, and not before their start.
    ensures encodable { AreBounds bounds → IfOk result (λ v. IsEncodable v.items) }
    ensures within { IfOk result (λ v. AllByRecursion (IsWithin bounds) v.items) }
    ensures from_start { IfOk result (λ v. AllByRecursion (IsFromStart bounds) v.items) }

    // A string without a segment takes no memory.
    ensures empty { segments_of text.now ≡ [] → result ≢ Err errors.Memory }
{
    let mut reader = MappingsReader::new(alloc, bounds, count_segments(text))?;
    reader.feed(text)?;
    reader.finish()
}
