//! A map inside the comment of its script.
ghost use Rattle.std.specs.Prelude.{◌≡◌, ◌⊎◌, ◌≤◌, IfErr, IfOk, codes, length, not, option_map};
ghost use Rattle.std.specs.List.{filter, suffix_len};
ghost use Rattle.base64.specs.declared.engine.general_purpose.GeneralPurpose.{GeneralPurpose as Engine};
ghost use Rattle.percent_encoding.specs.Percent.{percent_decode as decoded};
ghost use Rattle.smap_link.specs.Inline as spec;

use crate::paths::size_before;
use base64::engine::general_purpose::{GeneralPurpose, NO_PAD};
use base64::{DecodeAllocError, alphabet};
use percent_encoding::percent_decode;
use std::alloc::{AllocError, Global};

/// Why a data: URL gives no map.
#[derive(Clone, Copy, PartialEq, Eq)]
pub enum InlineFault {
    /// It has no comma.
    Form,
    /// It says that it is base64, and what follows the comma is none.
    Base64,
    /// Out of memory.
    Memory,
}

impl From<AllocError> for InlineFault {
    ghost use Rattle.std.specs.Prelude.{◌≡◌};
    ghost use Rattle.smap_link.specs.declared.inline.InlineFault.TheVariants as faults;

    ghost from_gives = { λ _ e. e ≡ faults.Memory };

    fn from(_error: AllocError) -> InlineFault {
        InlineFault::Memory
    }
}

fn is_ascii_white(b: u8) -> bool
    ensures { result ≡ spec.is_ascii_white b }
{
    b == b'\t' || b == b'\n' || b == 0x0c || b == b'\r' || b == b' '
}

/// Whether both are the same but for the case of ASCII letters.
pub(crate) fn same_word(a: &[u8], b: &[u8]) -> bool
    ensures { result ≡ spec.same_word a.now b.now }
{
    a.eq_ignore_ascii_case(b)
}

pub(crate) fn without_fragment<'a>(url: &'a [u8]) -> &'a [u8]
    ensures { result.now ≡ spec.without_fragment url.now }
{
    &url[..size_before(url, b'#')]
}

fn white_count_at_end(text: &[u8]) -> usize
    ensures value { result ≡ suffix_len spec.is_ascii_white text.now }
    ensures within { result ≤ length text.now }
{
    text.iter()
        .rev()
        .take_while(|b| is_ascii_white(**b))
        .count()
}

/// How often this byte stands at the end.
fn count_at_end(text: &[u8], byte: u8) -> usize
    ensures value { result ≡ spec.count_at_end text.now byte }
    ensures within { result ≤ length text.now }
{
    text.iter().rev().take_while(|b| **b == byte).count()
}

fn ends_in_base64(text: &[u8]) -> bool
    ensures { result ≡ spec.ends_in_base64 text.now }
{
    let at = text.len().saturating_sub(6);
    let front = &text[..at];
    same_word(&text[at..], b"base64")
        && front[..front.len() - count_at_end(front, b' ')].ends_with(b";")
}

fn is_base64(mime_type: &[u8]) -> bool
    ensures { result ≡ spec.is_base64 mime_type.now }
{
    ends_in_base64(&mime_type[..mime_type.len() - white_count_at_end(mime_type)])
}

pub(crate) fn bytes_of(alloc: Global, text: &[u8]) -> Result<Vec<u8>, AllocError>
    ensures { IfOk result (λ v. v.items ≡ decoded text.now) }
{
    let mut bytes = Vec::new(alloc);
    percent_decode(text).append_to(&mut bytes)?;
    Ok(bytes)
}

fn leave_out_white(text: &mut Vec<u8>)
    ensures { text.new.items ≡ filter (λ b. not (spec.is_ascii_white b)) text.old.items }
{
    text.retain(|b| !is_ascii_white(*b));
}

fn unpadded<'a>(text: &'a [u8]) -> &'a [u8]
    ensures { result.now ≡ spec.unpadded text.now }
{
    if text.len() % 4 > 0 {
        return text;
    }
    &text[..text.len() - count_at_end(text, b'=').min(2)]
}

/// The engine of the forgiving decode.
fn forgiving() -> GeneralPurpose
    ensures { spec.IsForgiving result }
{
    GeneralPurpose::new(
        &alphabet::STANDARD,
        NO_PAD.with_decode_allow_trailing_bits(true),
    )
}

fn decode(alloc: Global, engine: &GeneralPurpose, text: &[u8]) -> Result<Vec<u8>, InlineFault>
    ensures value { IfOk result (λ v. Ok v.items ≡ spec.decoded engine.now text.now) }
    ensures fault { IfErr result
        (λ e. (e ≡ InlineFault.Memory) ⊎ (spec.decoded engine.now text.now ≡ Err e)) }
{
    match engine.decode(alloc, unpadded(text)) {
        Ok(bytes) => Ok(bytes),
        Err(DecodeAllocError::DecodeError(_)) => Err(InlineFault::Base64),
        Err(DecodeAllocError::OutOfMemory) => Err(InlineFault::Memory),
    }
}

/// The body, behind the comma.
fn body_of(
    alloc: Global,
    engine: &GeneralPurpose,
    is_base64: bool,
    text: &[u8],
) -> Result<Vec<u8>, InlineFault>
    ensures value { IfOk result (λ v. Ok v.items ≡ spec.body_of engine.now is_base64 (decoded text.now)) }
    ensures fault { IfErr result (λ e. (e ≡ InlineFault.Memory)
        ⊎ (spec.body_of engine.now is_base64 (decoded text.now) ≡ Err e)) }
{
    let mut body = bytes_of(alloc, text)?;
    if !is_base64 {
        return Ok(body);
    }
    leave_out_white(&mut body);
    decode(alloc, engine, &body)
}

/// What follows `data:`.
fn of_data(alloc: Global, engine: &GeneralPurpose, rest: &[u8]) -> Result<Vec<u8>, InlineFault>
    ensures value { IfOk result (λ v. Ok v.items ≡ spec.of_data engine.now rest.now) }
    ensures fault { IfErr result
        (λ e. (e ≡ InlineFault.Memory) ⊎ (spec.of_data engine.now rest.now ≡ Err e)) }
{
    let at = size_before(rest, b',');
    if at >= rest.len() {
        return Err(InlineFault::Form);
    }
    body_of(alloc, engine, is_base64(&rest[..at]), &rest[at + 1..])
}

/// Whether it is a `data:` URL.
pub fn is_data(url: &[u8]) -> bool
    ensures { result ≡ spec.is_data url.now }
{
    same_word(&url[..url.len().min(5)], b"data:")
}

fn inline_map_by(
    alloc: Global,
    engine: &GeneralPurpose,
    url: &[u8],
) -> Result<Option<Vec<u8>>, InlineFault>
    ensures value { IfOk result
        (λ found. Ok (option_map (λ v. v.items) found) ≡ spec.inline_map engine.now url.now) }
    ensures fault { IfErr result
        (λ e. (e ≡ InlineFault.Memory) ⊎ (spec.inline_map engine.now url.now ≡ Err e)) }
{
    if !is_data(url) {
        return Ok(None);
    }
    match of_data(alloc, engine, without_fragment(&url[5..])) {
        Ok(bytes) => Ok(Some(bytes)),
        Err(fault) => Err(fault),
    }
}

/// The map that a data: URL holds; `None` for any other URL. The URL is read by the Fetch Standard: its
/// fragment is left out, what follows the first comma is percent-decoded (half an escape stays), and decoded
/// from base64 where `;base64` stands before the comma. White space is left out there, `=` may be missing,
/// and `-` and `_` are refused.
///
/// # Errors
///
/// `Form` where there is no comma, `Base64` where that can't be decoded, and `Memory`.
pub fn inline_map(alloc: Global, url: &[u8]) -> Result<Option<Vec<u8>>, InlineFault>
    ensures value { IfOk result (λ found. (e : Engine) × spec.IsForgiving e
        × (Ok (option_map (λ v. v.items) found) ≡ spec.inline_map e url.now)) }
    ensures fault { IfErr result (λ f. (e : Engine) × spec.IsForgiving e
        × ((f ≡ InlineFault.Memory) ⊎ (spec.inline_map e url.now ≡ Err f))) }
{
    inline_map_by(alloc, &forgiving(), url)
}
