//! Text of JSON in an element of HTML.
ghost use Rattle.std.specs.Prelude.{◌≡◌, ◌++◌, IfOk, OnOk};
ghost use Rattle.smap_view_page.specs.Embedding as spec;

use std::alloc::{AllocError, Global};

fn push_embedded(bytes: &mut Vec<u8>, byte: u8) -> Result<(), AllocError>
    ensures { OnOk result (bytes.new.items ≡ bytes.old.items ++ spec.embedded_byte byte) }
{
    if byte == b'<' {
        return bytes.extend_from_slice(b"\\u003c");
    }
    bytes.push(byte)?;
    Ok(())
}

/// A text of JSON as it stands in an element of HTML: each `<`, which JSON has in strings alone, is written
/// `\u003c`.
///
/// # Errors
///
/// `AllocError`.
pub fn embedded(alloc: Global, json: &str) -> Result<Vec<u8>, AllocError>
    ensures { IfOk result (λ t. t.items ≡ spec.embedded json.now) }
{
    let bytes = json.as_bytes();
    let mut made = Vec::with_capacity(alloc, bytes.len())?;
    for byte in bytes {
        push_embedded(&mut made, *byte)?;
    }
    Ok(made)
}
