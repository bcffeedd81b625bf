//! Names of files and folders.
ghost use Rattle.std.specs.Prelude.{◌≡◌, ◌≤◌, ◌==◌, IfOk, get_or, length, not};
ghost use Rattle.std.specs.List.{prefix_len, suffix_len};
ghost use Rattle.smap_link.specs.Inline.{same_word as is_same_word};
ghost use Rattle.smap_extract.specs.Segments as spec;

use std::alloc::{AllocError, Global};

/// How long a name is at most, in bytes, before a number and low lines are added.
const LONGEST: usize = 240;

fn is_refused(byte: u8) -> bool
    ensures { result ≡ spec.is_refused byte }
{
    byte < 32
        || (byte == b'"'
            || (byte == b'*'
                || (byte == b'/'
                    || (byte == b':'
                        || (byte == b'<'
                            || (byte == b'>'
                                || (byte == b'?'
                                    || (byte == b'\\' || (byte == b'|' || byte == 127)))))))))
}

fn plain(alloc: Global, name: &[u8]) -> Result<Vec<u8>, AllocError>
    ensures { IfOk result (λ v. v.items ≡ spec.plain name.now) }
{
    name.iter()
        .map(|b| if is_refused(*b) { b'_' } else { *b })
        .collect(alloc)
}

fn begins_character(name: &[u8], at: usize) -> bool
    ensures { result ≡ spec.begins_character (get_or name.now at 0) }
{
    match name.get(at) {
        Some(byte) => *byte < 128 || *byte >= 192,
        None => true,
    }
}

/// The greatest place up to `LONGEST` at which a character begins.
fn edge(name: &[u8]) -> usize
    ensures { result ≡ spec.edge name.now }
{
    if begins_character(name, 240) {
        240
    } else if begins_character(name, 239) {
        239
    } else if begins_character(name, 238) {
        238
    } else {
        237
    }
}

fn cut<'a>(name: &'a [u8]) -> &'a [u8]
    ensures { result.now ≡ spec.cut name.now }
{
    if name.len() <= LONGEST {
        return name;
    }
    &name[..edge(name)]
}

fn is_left_out(byte: u8) -> bool
    ensures { result ≡ spec.is_left_out byte }
{
    byte == b'.' || byte == b' '
}

fn ends_badly(name: &[u8]) -> bool
    ensures { result ≡ spec.ends_badly name.now }
{
    match name.last() {
        Some(byte) => is_left_out(*byte),
        None => false,
    }
}

/// The name, without a dot or a space at its end.
fn closed(mut name: Vec<u8>) -> Result<Vec<u8>, AllocError>
    ensures { IfOk result (λ v. v.items ≡ spec.closed name.items) }
{
    if ends_badly(&name) {
        name.push(b'_')?;
    }
    Ok(name)
}

fn same_word(a: &[u8], b: &[u8]) -> bool
    ensures { result ≡ is_same_word a.now b.now }
{
    a.eq_ignore_ascii_case(b)
}

fn is_port_number(text: &[u8]) -> bool
    ensures { result ≡ spec.is_port_number text.now }
{
    match text {
        [digit] => digit.is_ascii_digit(),
        [first, second] => *first == 194 && (*second == 178 || (*second == 179 || *second == 185)),
        _ => false,
    }
}

fn is_port(word: &[u8]) -> bool
    ensures { result ≡ spec.is_port word.now }
{
    let size = word.len().min(3);
    (same_word(&word[..size], b"com") || same_word(&word[..size], b"lpt"))
        && is_port_number(&word[size..])
}

fn is_device_word(word: &[u8]) -> bool
    ensures { result ≡ spec.is_device_word word.now }
{
    same_word(word, b"con")
        || (same_word(word, b"prn")
            || (same_word(word, b"aux")
                || (same_word(word, b"nul")
                    || (same_word(word, b"conin$")
                        || (same_word(word, b"conout$") || is_port(word))))))
}

fn stem_size(name: &[u8]) -> usize
    ensures value { result ≡ prefix_len (λ b. not (spec.is_left_out b)) name.now }
    ensures within { result ≤ length name.now }
{
    name.iter().take_while(|b| !is_left_out(**b)).count()
}

fn is_device(name: &[u8]) -> bool
    ensures { result ≡ spec.is_device name.now }
{
    is_device_word(&name[..stem_size(name)])
}

/// The name, such that it is no device's.
fn guarded(mut name: Vec<u8>) -> Result<Vec<u8>, AllocError>
    ensures { IfOk result (λ v. v.items ≡ spec.guarded name.items) }
{
    if is_device(&name) {
        name.insert(0, b'_')?;
    }
    Ok(name)
}

fn sealed(alloc: Global, name: &[u8]) -> Result<Vec<u8>, AllocError>
    ensures { IfOk result (λ v. v.items ≡ spec.sealed name.now) }
{
    guarded(closed(plain(alloc, name)?)?)
}

/// The name for a segment of a URL.
pub(crate) fn cleaned(alloc: Global, segment: &[u8]) -> Result<Vec<u8>, AllocError>
    ensures { IfOk result (λ v. v.items ≡ spec.cleaned segment.now) }
{
    sealed(alloc, cut(segment))
}

/// How many bytes stand behind the last dot.
fn size_behind_dot(name: &[u8]) -> usize
    ensures value { result ≡ suffix_len (λ b. not (b == 46)) name.now }
    ensures within { result ≤ length name.now }
{
    name.iter().rev().take_while(|b| **b != b'.').count()
}

/// How long a name is without its extension.
fn base_size(name: &[u8]) -> usize
    ensures value { result ≡ spec.base_size name.now }
    ensures within { result ≤ length name.now }
{
    let dot = (name.len() - size_behind_dot(name)).saturating_sub(1);
    if dot == 0 { name.len() } else { dot }
}

/// A name with a number before its extension, as `name~2.ext`.
pub(crate) fn numbered(alloc: Global, name: &[u8], number: u32) -> Result<Vec<u8>, AllocError>
    ensures { IfOk result (λ v. v.items ≡ spec.numbered name.now number) }
{
    let at = base_size(name);
    let mark = format!(in alloc; "~{number}")?;
    let mut text = Vec::from_slice(alloc, &name[..at])?;
    text.extend_from_slice(mark.as_str().as_bytes())?;
    text.extend_from_slice(&name[at..])?;
    sealed(alloc, &text)
}
