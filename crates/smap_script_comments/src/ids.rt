//! The debug id by which services for crash reports find the map of a script: made, and written into both.
ghost use Rattle.std.specs.Prelude.{◌≡◌, ◌+◌, ◌≤◌, IfOk, Some, length, true};
ghost use Rattle.std.specs.Char.{is_ascii_whitespace};
ghost use Rattle.std.specs.List.{list_all, suffix_len};
ghost use Rattle.smap_link.specs.Kinds.{file_kind as kind_of, link_in as named_by};
ghost use Rattle.smap_lint_rules.specs.Ids.{debug_id as id_of};
ghost use Rattle.smap_script_comments.specs.Comments.{sheet_kind};
ghost use Rattle.smap_script_comments.specs.Ids as spec;
ghost use Rattle.smap_script_comments.specs.Ids.{HasMapId, IsBehindCode, IsIdSet, IsMapIdSet};

use crate::comments::{CommentFault, Edited, framed, names};
use crate::finding::place_of;
use crate::places::Place;
use sha2::{Digest, Sha256};
use smap_link::{FileKind, file_kind, link_in};
use smap_lint_rules::{debug_id, map_id};
use smap_record::{ReadError, map_tree};
use std::alloc::{AllocError, Global};
use uuid::{Builder, Uuid};

/// The SHA-256 of the SHA-256 of both.
fn digest_of(script: &[u8], map: &[u8]) -> [u8; 32]
    ensures { result ≡ spec.digest_of script.now map.now }
{
    let of_script = Sha256::digest(script);
    let of_map = Sha256::digest(map);
    let mut hasher = Sha256::new();
    hasher.update(of_script);
    hasher.update(of_map);
    hasher.finalize()
}

/// The first bytes of a digest, as a UUID has random ones.
fn uuid_of(digest: [u8; 32]) -> Uuid
    ensures { result ≡ spec.uuid_of digest }
{
    let mut bytes = [0u8; 16];
    bytes.copy_from_slice(&digest[..16]);
    Builder::from_random_bytes(bytes).into_uuid()
}

/// A debug id for a script and its map, which depends on all bytes of both: the same files get the same id.
///
/// # Errors
///
/// Memory runs out.
pub fn made_id(alloc: Global, script: &[u8], map: &[u8]) -> Result<Vec<u8>, AllocError>
    ensures { IfOk result (λ id. id.items ≡ spec.made_id script.now map.now) }
{
    let id = uuid_of(digest_of(script, map));
    let mut buffer = Uuid::encode_buffer();
    let text = id.hyphenated().encode_lower(&mut buffer);
    Vec::from_slice(alloc, text.as_bytes())
}

fn white_behind(text: &[u8]) -> usize
    ensures value { result ≡ suffix_len is_ascii_whitespace text.now }
    ensures within { result ≤ length text.now }
{
    text.iter()
        .rev()
        .take_while(|b| b.is_ascii_whitespace())
        .count()
}

fn is_blank(text: &[u8]) -> bool
    ensures { result ≡ list_all is_ascii_whitespace text.now }
{
    text.iter().all(|b| b.is_ascii_whitespace())
}

fn begins_line(text: &[u8], at: usize) -> bool
    requires { at ≤ length text.now }
{
    at == 0 || text[at - 1] == b'\n'
}

/// Where the comment with the id of a text goes: before the comment that names its map, if that has the last
/// line for itself, and else at the end.
fn id_place(name: &[u8], text: &[u8]) -> usize
    ensures within { result ≤ length text.now }
    ensures place { IsBehindCode name.now text.now result }
{
    let Ok(place) = place_of(name, text) else {
        return text.len();
    };
    let behind = &text[place.at + place.size..];
    if begins_line(text, place.at) && is_blank(behind) {
        place.at
    } else {
        text.len()
    }
}

fn id_comment(alloc: Global, name: &[u8], id: &[u8]) -> Result<Vec<u8>, AllocError>
    ensures { IfOk result (λ text. text.items ≡ spec.id_comment (sheet_kind (kind_of name.now)) id.now) }
{
    let (begin, end): (&[u8], &[u8]) = if file_kind(name) == FileKind::StyleSheet {
        (b"/*# debugId=", b" */")
    } else {
        (b"//# debugId=", b"")
    };
    let mut text = Vec::from_slice(alloc, begin)?;
    text.extend_from_slice(id)?;
    text.extend_from_slice(end)?;
    Ok(text)
}

/// Whether a text is read to have this id.
fn has_id(text: &[u8], id: &[u8]) -> bool
    ensures { result ≡ true → id_of text.now ≡ Some id.now }
{
    match debug_id(text) {
        Some(found) => found == id,
        None => false,
    }
}

/// Whether two texts of a script name one map.
fn same_link(name: &[u8], one: &[u8], other: &[u8]) -> bool
    ensures { result ≡ true → named_by name.now one.now ≡ named_by name.now other.now }
{
    match link_in(name, other) {
        Some(url) => names(name, one, url),
        None => link_in(name, one).is_none(),
    }
}

/// The text of a script or a style sheet, by its name, with this id in a comment behind all code.
///
/// # Errors
///
/// `Unread` if the new text doesn't have this id, or would name another map, and `Memory`.
pub fn set_debug_id(
    alloc: Global,
    name: &[u8],
    text: &[u8],
    id: &[u8],
) -> Result<Edited, CommentFault>
    ensures { IfOk result (IsIdSet name.now text.now id.now) }
{
    let at = id_place(name, text);
    let comment = id_comment(alloc, name, id)?;
    let made = framed(alloc, &text[..at], true, &comment)?;
    let place = Place { at, size: 0 };
    let new = place.replaced(alloc, text, &made)?;
    if has_id(&new, id) && same_link(name, &new, text) {
        Ok(Edited {
            at,
            size: 0,
            made,
            text: new,
        })
    } else {
        Err(CommentFault::Unread)
    }
}

/// Where another member goes into the object with which a text ends.
fn member_place(text: &[u8]) -> usize
    ensures { result ≤ length text.now }
{
    let end = text.len() - white_behind(text);
    let before = end.saturating_sub(1);
    before - white_behind(&text[..before])
}

fn id_member_text(alloc: Global, id: &[u8]) -> Result<Vec<u8>, AllocError>
    ensures { IfOk result (λ text. text.items ≡ spec.id_member_text id.now) }
{
    let mut text = Vec::from_slice(alloc, b",\"debugId\":\"")?;
    text.extend_from_slice(id)?;
    text.extend_from_slice(b"\"")?;
    Ok(text)
}

/// Whether a map is read to have this id.
fn has_map_id(alloc: Global, map: &[u8], id: &[u8]) -> Result<bool, AllocError>
    ensures { IfOk result (λ is. is ≡ true → HasMapId map.now id.now) }
{
    let tree = match map_tree(alloc, map) {
        Ok(tree) => tree,
        Err(ReadError::Refused(_)) => return Ok(false),
        Err(ReadError::Memory) => return Err(AllocError),
    };
    match map_id(&tree) {
        Some(found) => Ok(found.as_bytes() == id),
        None => Ok(false),
    }
}

/// The text of a map that has no debug id, with this one in a last member.
///
/// # Errors
///
/// `Unread` if the new text doesn't have this id, and `Memory`.
pub fn set_map_id(alloc: Global, map: &[u8], id: &[u8]) -> Result<Edited, CommentFault>
    ensures { IfOk result (IsMapIdSet map.now id.now) }
{
    let at = member_place(map);
    let made = id_member_text(alloc, id)?;
    let place = Place { at, size: 0 };
    let text = place.replaced(alloc, map, &made)?;
    if has_map_id(alloc, &text, id)? {
        Ok(Edited {
            at,
            size: 0,
            made,
            text,
        })
    } else {
        Err(CommentFault::Unread)
    }
}
