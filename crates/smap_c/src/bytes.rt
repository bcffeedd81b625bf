//! The calls that write bytes, and those that give them.
ghost use Rattle.std.specs.Prelude.{◌≡◌, Some, None, IfOk};
ghost use Rattle.smap_record.specs.Record.{record_of};
ghost use Rattle.smap_canon.specs.Canonical.{canonical_mappings_text};
ghost use Rattle.smap_mappings.specs.Decoded.{ReturnsTokens, decoded};
ghost use Rattle.smap_mappings.specs.Text.{IsEncodable};
ghost use Rattle.smap_mappings.specs.Limits.{widest};
ghost use Rattle.smap_c_answers.specs.Strings.{copied};
ghost use Rattle.smap_c.specs.Bytes.{Tidies, TidiesRelative, Flattens, SpellsMappings, Puts, IsCopied, IsAt};
ghost use Rattle.smap_c.specs.Bytes.{respelling, Respells, ReturnsText, Writes};
ghost use Rattle.smap_c.specs.Handles.{held_bytes, held_map};
ghost use Rattle.smap_c.specs.Faults.{IsWhole};

use crate::faults::{SmapFault, report_fault};
use crate::handles::{Held, SmapBytes, SmapMap, with_open};
use smap_c_answers::{CLOSED, MEMORY, OK, copy_out};
use smap_canon::{canonical, canonical_mappings, canonical_relative, flatten};
use smap_mappings::{MappingsError, Memory, Token, WIDEST, decode, encode};
use smap_record::{Fault, ReadError, SourceMap};
use std::alloc::Global;
use std::mem;

/// Where bytes lie, and how many there are: there they stay until the handle is closed or written into.
#[unsafe(no_mangle)]
pub extern "C" fn smap_bytes_data(
    alloc: Global,
    bytes: &mut SmapBytes,
    at: &mut *const u8,
    len: &mut usize,
) -> u32
    ensures at { IsAt (held_bytes bytes.old.owner.value) at.old at.new len.new result }
    ensures same { bytes.new.owner.value ≡ bytes.old.owner.value }
{
    *len = 0;
    match mem::replace(bytes, SmapBytes::closed(alloc)).into_box() {
        None => CLOSED,
        Some(held) => {
            *at = held.bytes().as_ptr();
            *len = held.bytes().len();
            *bytes = SmapBytes::of(held);
            OK
        }
    }
}

/// Copies bytes out, and says how many there are; 0 for a handle that is closed.
#[unsafe(no_mangle)]
pub extern "C" fn smap_bytes_copy(
    alloc: Global,
    bytes: &mut SmapBytes,
    from: usize,
    out: &mut [u8],
) -> usize
    ensures copied { IsCopied (held_bytes bytes.old.owner.value) from out.old out.new result }
    ensures same { bytes.new.owner.value ≡ bytes.old.owner.value }
{
    match mem::replace(bytes, SmapBytes::closed(alloc)).into_box() {
        None => 0,
        Some(held) => {
            let text = held.bytes().as_slice();
            let len = text.len();
            if from <= len {
                copy_out(&text[from..], out);
            }
            *bytes = SmapBytes::of(held);
            len
        }
    }
}

/// Frees bytes. A handle that is closed stays so.
#[unsafe(no_mangle)]
pub extern "C" fn smap_bytes_free(alloc: Global, bytes: &mut SmapBytes)
    ensures { bytes.new.owner.value ≡ None }
{
    *bytes = SmapBytes::closed(alloc);
}

/// Puts bytes into a handle.
pub(crate) fn put(alloc: Global, answer: Result<Vec<u8>, Memory>, out: &mut SmapBytes) -> u32
    ensures { Puts answer (held_bytes out.old.owner.value) (held_bytes out.new.owner.value) result }
{
    let Ok(bytes) = answer else {
        return MEMORY;
    };
    match Held::Bytes(bytes).boxed(alloc) {
        Ok(held) => {
            *out = SmapBytes::of(held);
            OK
        }
        Err(_) => MEMORY,
    }
}

/// The canonical bytes of a map.
#[unsafe(no_mangle)]
pub extern "C" fn smap_canonical(alloc: Global, map: &mut SmapMap, out: &mut SmapBytes) -> u32
    ensures bytes { Tidies (held_map map.old.owner.value) (held_bytes out.old.owner.value)
        (held_bytes out.new.owner.value) result }
    ensures same { map.new.owner.value ≡ map.old.owner.value }
{
    with_open(alloc, map, out, |opened, out| {
        put(alloc, canonical(alloc, &opened.map), out)
    })
}

/// The canonical bytes of a map, its sources as seen from its base.
#[unsafe(no_mangle)]
pub extern "C" fn smap_canonical_relative(
    alloc: Global,
    map: &mut SmapMap,
    out: &mut SmapBytes,
) -> u32
    ensures bytes { TidiesRelative (held_map map.old.owner.value) (held_bytes out.old.owner.value)
        (held_bytes out.new.owner.value) result }
    ensures same { map.new.owner.value ≡ map.old.owner.value }
{
    with_open(alloc, map, out, |opened, out| {
        put(
            alloc,
            canonical_relative(alloc, &opened.map, &opened.base),
            out,
        )
    })
}

fn put_mappings(alloc: Global, map: &SourceMap, out: &mut SmapBytes) -> u32
    ensures { Writes (canonical_mappings_text (record_of map.now)) (held_bytes out.old.owner.value)
        (held_bytes out.new.owner.value) result }
{
    put(alloc, canonical_mappings(alloc, map), out)
}

/// The canonical mappings text of a map.
#[unsafe(no_mangle)]
pub extern "C" fn smap_canonical_mappings(
    alloc: Global,
    map: &mut SmapMap,
    out: &mut SmapBytes,
) -> u32
    ensures bytes { SpellsMappings (held_map map.old.owner.value) (held_bytes out.old.owner.value)
        (held_bytes out.new.owner.value) result }
    ensures same { map.new.owner.value ≡ map.old.owner.value }
{
    with_open(alloc, map, out, |opened, out| {
        put_mappings(alloc, &opened.map, out)
    })
}

/// A map as one flat map, its lists as they are.
#[unsafe(no_mangle)]
pub extern "C" fn smap_flatten(alloc: Global, map: &mut SmapMap, out: &mut SmapBytes) -> u32
    ensures bytes { Flattens (held_map map.old.owner.value) (held_bytes out.old.owner.value)
        (held_bytes out.new.owner.value) result }
    ensures same { map.new.owner.value ≡ map.old.owner.value }
{
    with_open(alloc, map, out, |opened, out| {
        put(alloc, flatten(alloc, &opened.map), out)
    })
}

/// The tokens of a text that starts at line 0 and column 0; no list bounds its indices.
fn tokens_of(alloc: Global, text: &[u8]) -> Result<Vec<Token>, MappingsError>
    ensures says { ReturnsTokens result (decoded widest text.now) }
    ensures encodable { IfOk result (λ tokens. IsEncodable tokens.items) }
{
    decode(alloc, text, WIDEST)
}

/// The text of these tokens, or the first fault.
fn respelled(alloc: Global, text: &[u8]) -> Result<Vec<u8>, ReadError>
    ensures { ReturnsText result (respelling text.now) }
{
    match tokens_of(alloc, text) {
        Ok(tokens) => {
            let spelled = encode(alloc, tokens.as_slice())?;
            Ok(spelled)
        }
        Err(MappingsError::Fault(place, kind)) => {
            let fault = Fault::of_segment(place, kind);
            Err(ReadError::Refused(fault))
        }
        Err(MappingsError::Memory) => Err(ReadError::Memory),
    }
}

/// A mappings text by line and column, in its shortest spellings; or its first fault.
#[unsafe(no_mangle)]
pub extern "C" fn smap_respell(
    alloc: Global,
    text: &[u8],
    out: &mut SmapBytes,
    fault: &mut SmapFault,
) -> u32
    ensures respelled { Respells text.now (held_bytes out.old.owner.value)
        (held_bytes out.new.owner.value) fault.old fault.new result }
    ensures whole { IsWhole fault.new result }
{
    match respelled(alloc, text) {
        Ok(spelled) => put(alloc, Ok(spelled), out),
        Err(ReadError::Refused(refused)) => report_fault(alloc, &refused, fault),
        Err(ReadError::Memory) => MEMORY,
    }
}
