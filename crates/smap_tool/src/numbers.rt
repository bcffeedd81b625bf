//! Integers in the lines that are written.
ghost use Rattle.std.specs.Prelude.{◌≡◌, ◌++◌, OnOk};

use itoa::{Buffer, Integer};
use smap_mappings::Memory;

/// Appends a string, and then a number in decimal digits.
pub(crate) fn push_number<N: Integer>(
    text: &mut Vec<u8>,
    words: &str,
    number: N,
) -> Result<(), Memory>
    ensures { OnOk result (text.new.items ≡ text.old.items ++ (words.now ++ N.text number)) }
{
    text.extend_from_slice(words.as_bytes())?;
    text.extend_from_slice(Buffer::new().format(number).as_bytes())
}
