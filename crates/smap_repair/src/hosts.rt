//! Texts of URLs that are the same but for how their hosts are spelled.
ghost use Rattle.std.specs.Prelude.{◌≡◌, ◌==◌, ◌||◌, ◌≤◌, IfOk, length, not};
ghost use Rattle.std.specs.List.{prefix_len};
ghost use Rattle.percent_encoding.specs.Percent.{percent_decode as undone};
ghost use Rattle.smap_repair.specs.Hosts as spec;

use percent_encoding::percent_decode;
use std::alloc::{AllocError, Global};

/// How many bytes are ahead of the first colon.
fn scheme_len(text: &[u8]) -> usize
    ensures value { result ≡ prefix_len (λ b. not (b == 58)) text.now }
    ensures within { result ≤ length text.now }
{
    text.iter().take_while(|b| !(**b == b':')).count()
}

fn scheme(text: &[u8]) -> &[u8]
    ensures { result.now ≡ spec.scheme text.now }
{
    &text[..scheme_len(text)]
}

/// What is behind the first colon, with it.
fn tail(text: &[u8]) -> &[u8]
    ensures { result.now ≡ spec.tail text.now }
{
    &text[scheme_len(text)..]
}

/// Whether the first colon begins `://`.
fn has_host(text: &[u8]) -> bool
    ensures { result ≡ spec.has_host text.now }
{
    tail(text).starts_with(b"://")
}

/// What is behind `://`; nothing where that isn't there.
fn behind_slashes(text: &[u8]) -> &[u8]
    ensures { result.now ≡ spec.behind_slashes text.now }
{
    let tail = tail(text);
    if tail.starts_with(b"://") {
        &tail[3..]
    } else {
        b""
    }
}

/// How many bytes are ahead of a slash, a question mark or a number sign.
fn host_len(text: &[u8]) -> usize
    ensures value { result ≡ prefix_len (λ b. not ((b == 47) || ((b == 63) || (b == 35)))) text.now }
    ensures within { result ≤ length text.now }
{
    text.iter()
        .take_while(|b| !(**b == b'/' || **b == b'?' || **b == b'#'))
        .count()
}

fn host(text: &[u8]) -> &[u8]
    ensures { result.now ≡ spec.host text.now }
{
    let behind = behind_slashes(text);
    &behind[..host_len(behind)]
}

/// What is behind the host.
fn path(text: &[u8]) -> &[u8]
    ensures { result.now ≡ spec.path text.now }
{
    let behind = behind_slashes(text);
    &behind[host_len(behind)..]
}

/// The bytes once percent escapes are undone.
fn decoded(alloc: Global, text: &[u8]) -> Result<Vec<u8>, AllocError>
    ensures { IfOk result (λ v. v.items ≡ undone text.now) }
{
    let mut bytes = Vec::new(alloc);
    percent_decode(text).append_to(&mut bytes)?;
    Ok(bytes)
}

/// Whether both hosts are the same but for percent escapes.
fn same_hosts(alloc: Global, one: &[u8], other: &[u8]) -> Result<bool, AllocError>
    ensures { IfOk result (λ same. same ≡ spec.same_hosts one.now other.now) }
{
    let one = decoded(alloc, host(one))?;
    let other = decoded(alloc, host(other))?;
    Ok(one.as_slice() == other.as_slice())
}

/// Whether the texts are the same but for percent escapes in their hosts.
pub(crate) fn same_but_hosts(alloc: Global, one: &[u8], other: &[u8]) -> Result<bool, AllocError>
    ensures { IfOk result (λ same. same ≡ spec.same_but_hosts one.now other.now) }
{
    let same = same_hosts(alloc, one, other)?;
    Ok(
        has_host(one)
            && has_host(other)
            && scheme(one) == scheme(other)
            && path(one) == path(other)
            && same,
    )
}
