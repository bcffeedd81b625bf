//! The name that a frame of a trace has before its position, and how that of a function takes its place.
ghost use Rattle.std.specs.Prelude.{◌≡◌, ◌++◌, ◌≤◌, ◌==◌, IfOk, OnOk, drop, length, not, option_copied};
ghost use Rattle.std.specs.Prelude.{slice_range, take};
ghost use Rattle.std.specs.List.{position_or_len, prefix_len, suffix_len};
ghost use Rattle.smap_functions.specs.Renaming as spec;

use std::alloc::{AllocError, Global};

/// The name of a function: a word, and that of its class.
#[derive(Clone, Copy)]
pub struct Name<'a> {
    pub word: &'a [u8],
    /// The class of which the function is a member.
    pub class: Option<&'a [u8]>,
}

fn is_separator(b: u8) -> bool
    ensures { result ≡ spec.is_separator b }
{
    b == b'.' || b == b'/'
}

/// How many bytes are behind the last separator.
fn part_len(text: &[u8]) -> usize
    ensures value { result ≡ suffix_len (λ b. not (spec.is_separator b)) text.now }
    ensures within { result ≤ length text.now }
{
    text.iter().rev().take_while(|b| !is_separator(**b)).count()
}

/// Whether the name that a log has is this word, or ends with it behind `.` or `/`.
pub fn says(logged: &[u8], word: &[u8]) -> bool
    ensures { result ≡ spec.says logged.now word.now }
{
    let part = &logged[logged.len() - part_len(logged)..];
    part == word
}

/// How many spaces are at the start.
fn spaces_len(text: &[u8]) -> usize
    ensures value { result ≡ prefix_len spec.is_space text.now }
    ensures within { result ≤ length text.now }
{
    text.iter().take_while(|b| **b == b' ').count()
}

/// How many bytes are before the first space.
fn word_len(text: &[u8]) -> usize
    ensures value { result ≡ position_or_len spec.is_space text.now }
    ensures within { result ≤ length text.now }
{
    text.iter().take_while(|b| !(**b == b' ')).count()
}

/// How many bytes are behind the last `*`.
fn behind_star_len(text: &[u8]) -> usize
    ensures value { result ≡ suffix_len (λ b. not (b == 42)) text.now }
    ensures within { result ≤ length text.now }
{
    text.iter().rev().take_while(|b| !(**b == b'*')).count()
}

fn async_len(text: &[u8]) -> usize
    ensures value { result ≡ spec.async_len text.now }
    ensures within { result ≤ length text.now }
{
    if text.starts_with(b"async ") { 6 } else { 0 }
}

fn kind_len(text: &[u8]) -> usize
    ensures value { result ≡ spec.kind_len text.now }
    ensures within { result ≤ length text.now }
{
    if text.starts_with(b"new ") || (text.starts_with(b"get ") || text.starts_with(b"set ")) {
        4
    } else {
        0
    }
}

/// How many bytes at the start of a name stay.
fn marks_len(text: &[u8]) -> usize
    ensures value { result ≡ spec.marks_len text.now }
    ensures within { result ≤ length text.now }
{
    let len = async_len(text);
    len + kind_len(&text[len..])
}

/// How many bytes at the end of a name stay.
fn alias_len(text: &[u8]) -> usize
    ensures value { result ≡ spec.alias_len text.now }
    ensures within { result ≤ length text.now }
{
    let len = word_len(text);
    if text[len..].starts_with(b" [as ") && text.ends_with(b"]") {
        text.len() - len
    } else {
        0
    }
}

/// Where a name of V8 is in what stands before ` (`.
fn place_in_lead(lead: &[u8]) -> (usize, usize)
    ensures value { result ≡ spec.place_in_lead lead.now }
    ensures order { result.0 ≤ result.1 }
    ensures within { result.1 ≤ length lead.now }
{
    let at = (spaces_len(lead) + 3).min(lead.len());
    let start = at + marks_len(&lead[at..]);
    (start, lead.len() - alias_len(&lead[start..]))
}

/// Where one of Firefox is in what stands before `@`.
fn place_behind_star(text: &[u8]) -> (usize, usize)
    ensures value { result ≡ spec.place_behind_star text.now }
    ensures order { result.0 ≤ result.1 }
    ensures within { result.1 ≤ length text.now }
{
    (text.len() - behind_star_len(text), text.len())
}

/// Where the name is in what a frame has before its position.
fn name_place(before: &[u8]) -> (usize, usize)
    ensures value { result ≡ spec.name_place before.now }
    ensures order { result.0 ≤ result.1 }
    ensures within { result.1 ≤ length before.now }
{
    if before.ends_with(b"@") {
        place_behind_star(&before[..before.len() - 1])
    } else if before.ends_with(b" (") {
        place_in_lead(&before[..before.len() - 2])
    } else {
        (before.len(), before.len())
    }
}

/// What a frame has before its position: what is before the name, the name, and what is behind it.
fn cut_name<'a>(before: &'a [u8]) -> (&'a [u8], &'a [u8], &'a [u8])
    ensures front { result.0.now ≡ take (spec.name_place before.now).0 before.now }
    ensures name { result.1.now ≡ spec.logged_name before.now }
    ensures back { result.2.now ≡ drop (spec.name_place before.now).1 before.now }
{
    let (start, end) = name_place(before);
    (&before[..start], &before[start..end], &before[end..])
}

/// The name that a frame has before its position.
pub fn logged_name(before: &[u8]) -> &[u8]
    ensures { result.now ≡ spec.logged_name before.now }
{
    cut_name(before).1
}

/// Whether a frame has no name, and no place for one.
fn is_alone(before: &[u8]) -> bool
    ensures { result ≡ spec.is_alone before.now }
{
    !(before.ends_with(b"@") || before.ends_with(b" ("))
}

/// Appends what is written for the name that a log has.
fn push_name(out: &mut Vec<u8>, logged: &[u8], name: &Name<'_>) -> Result<(), AllocError>
    ensures ok { OnOk result (out.new.items ≡ out.old.items
        ++ spec.written_name logged.now (option_copied name.now.class) name.now.word.now) }
{
    match name.class {
        Some(class) => {
            out.extend_from_slice(class)?;
            out.push(b'.')?;
            out.extend_from_slice(name.word)
        }
        None if says(logged, name.word) => out.extend_from_slice(logged),
        None => out.extend_from_slice(name.word),
    }
}

/// What stands behind the name that a frame without one gets.
fn opening<'a>(before: &[u8]) -> &'a [u8]
    ensures { result.now ≡ spec.opening before.now }
{
    if is_alone(before) { b" (" } else { b"" }
}

/// What a frame has before its position, with this name.
///
/// # Errors
///
/// `AllocError`.
#[tactic(auto, using(crate::proofs::JoinedLemmas::joined))]
pub fn renamed_before(alloc: Global, before: &[u8], name: &Name<'_>) -> Result<Vec<u8>, AllocError>
    ensures { IfOk result (λ text. text.items
        ≡ spec.renamed_before before.now (option_copied name.now.class) name.now.word.now) }
{
    let (front, logged, back) = cut_name(before);
    let mut text = Vec::from_slice(alloc, front)?;
    push_name(&mut text, logged, name)?;
    text.extend_from_slice(back)?;
    text.extend_from_slice(opening(before))?;
    Ok(text)
}

/// What stands behind the position of a frame that gets a name, before what stood there.
pub fn closing<'a>(before: &[u8]) -> &'a [u8]
    ensures { result.now ≡ spec.closing before.now }
{
    if is_alone(before) { b")" } else { b"" }
}
