//! The closed list of repairs: what may become what.
ghost use Rattle.std.specs.Prelude.{◌≡◌, ◌==◌, IfOk, string_bytes};
ghost use Rattle.std.specs.List.{list_all};
ghost use Rattle.smap_repair.specs.Listed as spec;

use crate::decoding::is_respelled;
use crate::halves::is_alone;
use crate::mending::Edit;
use crate::repair::Change;
use std::alloc::{AllocError, Global};

/// What is added to a map that has no mappings, as its first member.
pub(crate) const EMPTY_MAPPINGS: &str = "\"mappings\":\"\",";

/// Whether all bytes are the digit 0.
fn are_zeros(text: &[u8]) -> bool
    ensures { result ≡ list_all (λ b. b == 48) text.now }
{
    text.iter().all(|b| *b == b'0')
}

/// Whether a text is a number 3 whose fraction is zeros.
fn is_three_point(text: &[u8]) -> bool
    ensures { result ≡ spec.is_three_point text.now }
{
    text.starts_with(b"3.") && 2 < text.len() && are_zeros(&text[2..])
}

/// Whether a JSON text is 3, as a string or with a fraction.
pub(crate) fn is_odd_three(text: &[u8]) -> bool
    ensures { result ≡ spec.is_odd_three text.now }
{
    text == b"\"3\"".as_slice() || is_three_point(text)
}

fn adds_mappings(ahead: &[u8], before: &[u8], after: &[u8]) -> bool
    ensures { result ≡ spec.adds_mappings ahead.now before.now after.now }
{
    (ahead.ends_with(b"{") && before.is_empty() && after == EMPTY_MAPPINGS.as_bytes())
        || (before == b"null".as_slice() && after == b"\"\"".as_slice())
}

/// Whether the list has a repair, between what is ahead of what it replaces and what is behind.
pub(crate) fn is_listed(
    alloc: Global,
    edit: &Edit,
    ahead: &[u8],
    behind: &[u8],
) -> Result<bool, AllocError>
    ensures { IfOk result (λ listed. listed ≡ spec.is_listed edit.now.change ahead.now
        (string_bytes edit.now.before) (string_bytes edit.now.after) behind.now) }
{
    let (before, after) = (edit.before.as_str(), edit.after.as_str());
    let (old, new) = (before.as_bytes(), after.as_bytes());
    match edit.change {
        Change::ByteOrderMark => {
            Ok(ahead.is_empty() && old == b"\xef\xbb\xbf".as_slice() && new.is_empty())
        }
        Change::HalfSurrogate => Ok(is_alone(ahead, old, behind) && new == b"\\ufffd".as_slice()),
        Change::Version => Ok(is_odd_three(old) && new == b"3".as_slice()),
        Change::Mappings => Ok(adds_mappings(ahead, old, new)),
        Change::MappingsBeside => { Ok(old == b"\"\"".as_slice() && new == b"null".as_slice()) }
        Change::SourceRoot => is_respelled(alloc, before, after),
        Change::Source(_) => is_respelled(alloc, before, after),
    }
}
