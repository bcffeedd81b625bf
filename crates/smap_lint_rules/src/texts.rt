//! Whether two texts are the same but for how their lines end.
ghost use Rattle.std.specs.Prelude.{◌≡◌, ◌==◌, IfOk, List, ℕ, filter, not};
ghost use Rattle.smap_lint_rules.specs.Texts as spec;

use std::alloc::{AllocError, Global};

/// A text without a byte order mark before it.
fn unmarked<'a>(text: &'a [u8]) -> &'a [u8]
    ensures { result.now ≡ spec.unmarked text.now }
{
    match text {
        [0xef, 0xbb, 0xbf, rest @ ..] => rest,
        _ => text,
    }
}

fn leave_out_returns(text: &mut Vec<u8>)
    ensures { text.new.items ≡ filter (λ b. not (b == 13)) text.old.items }
{
    text.retain(|b| *b != b'\r');
}

/// A text without a byte order mark before it and without carriage returns.
///
/// # Errors
///
/// `AllocError`.
pub fn normal_text(alloc: Global, text: &[u8]) -> Result<Vec<u8>, AllocError>
    ensures { IfOk result (λ bytes. bytes.items ≡ spec.normal text.now) }
{
    let mut bytes = Vec::from_slice(alloc, unmarked(text))?;
    leave_out_returns(&mut bytes);
    Ok(bytes)
}

/// Whether two texts are the same once byte order marks before them and carriage returns are left out; of one
/// that is compared with many, `normal` is its [`normal_text`].
///
/// # Errors
///
/// `AllocError`.
pub fn same_text(alloc: Global, normal: &[u8], other: &[u8]) -> Result<bool, AllocError>
    ensures { IfOk result (λ same. (one : List ℕ) → normal.now ≡ spec.normal one
        → same ≡ spec.same_text one other.now) }
{
    let other = normal_text(alloc, other)?;
    Ok(normal == other.as_slice())
}
