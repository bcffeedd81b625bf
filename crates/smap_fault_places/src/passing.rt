//! Passing what stands beside a child in an array or an object, by the tokens.
ghost use Rattle.std.specs.Prelude.{◌≡◌, ◌∷◌, [], IfOk, IfSome, OnOk};
ghost use Rattle.std.specs.Bool.{OnTrue};
ghost use Rattle.json.specs.Token.{string};
ghost use Rattle.json.specs.Lex.{tokens};
ghost use Rattle.json.specs.Json.{Json};
ghost use Rattle.smap_fault_places.specs.Contexts as spec;

use json::{Invalid, Reader, Scratch, Token};
use std::alloc::{AllocError, Global};

/// Passes members and the end of their object, and says whether there are any. None may have this name.
fn pass_members(reader: &mut Reader<'_>, name: &str, depth: usize) -> Result<bool, Invalid>
    ensures { IfOk result (λ some. spec.PassesMembers depth name.now some reader.old reader.new) }
{
    let mut some = false;
    'members: while let Some(key) = reader.next_key()? {
        if name == key {
            return Err(Invalid);
        }
        reader.skip_value(depth)?;
        some = true;
    }
    Ok(some)
}

/// Passes items and the end of their array, and says whether there are any.
fn pass_items(reader: &mut Reader<'_>, depth: usize) -> Result<bool, Invalid>
    ensures { IfOk result (λ some. spec.PassesItems depth some reader.old reader.new) }
{
    let mut some = false;
    'items: while !reader.take_end_array() {
        reader.skip_value(depth)?;
        some = true;
    }
    Ok(some)
}

/// Passes so many items.
fn pass_count(reader: &mut Reader<'_>, count: usize, depth: usize) -> Result<(), Invalid>
    ensures { OnOk result (spec.PassedItems depth count reader.old reader.new) }
{
    for _ in 0..count {
        reader.skip_value(depth)?;
    }
    Ok(())
}

/// Passes the beginning of an object up to a string that is no name, and gives that.
fn pass_to_name<'a>(reader: &mut Reader<'a>, depth: usize) -> Result<&'a str, Invalid>
    ensures { IfOk result (λ last. spec.OpensObject depth reader.old (string last.now ∷ reader.new)) }
{
    let Some(Token::BeginObject) = reader.next() else {
        return Err(Invalid);
    };
    'members: while let Some(token) = reader.next() {
        match token {
            Token::Key(_) => reader.skip_value(depth)?,
            Token::String(last) => return Ok(last),
            _ => return Err(Invalid),
        }
    }
    Err(Invalid)
}

/// Whether the text is that of a value.
pub(crate) fn is_text(alloc: Global, text: &[u8], depth: usize) -> Result<bool, AllocError>
    ensures { IfOk result (λ it_is. OnTrue it_is ((j : Json) × spec.IsText depth text.now j)) }
{
    let Ok(text) = str::from_utf8(text) else {
        return Ok(false);
    };
    let mut scratch = Scratch::new(alloc);
    let mut reader = Reader::new(text, &mut scratch)?;
    match reader.skip_value(depth) {
        Ok(()) if reader.next().is_none() => Ok(true),
        _ => Ok(false),
    }
}

/// Whether the text is the beginning of an object up to a member's name.
pub(crate) fn opens_member(
    alloc: Global,
    text: &[u8],
    name: &str,
    depth: usize,
) -> Result<bool, AllocError>
    ensures { IfOk result (λ it_is. OnTrue it_is (spec.IsBeforeMember depth name.now text.now)) }
{
    let Ok(text) = str::from_utf8(text) else {
        return Ok(false);
    };
    let mut scratch = Scratch::new(alloc);
    let mut reader = Reader::new(text, &mut scratch)?;
    match pass_to_name(&mut reader, depth) {
        Ok(last) => Ok(name == last && reader.next().is_none()),
        Err(_) => Ok(false),
    }
}

/// Whether the text is the beginning of an array with so many items, of which there are some.
pub(crate) fn opens_items(
    alloc: Global,
    text: &[u8],
    count: usize,
    depth: usize,
) -> Result<bool, AllocError>
    ensures { IfOk result (λ it_is. OnTrue it_is (spec.IsBeforeItem depth count text.now)) }
{
    if count == 0 {
        return Ok(false);
    }
    let Ok(text) = str::from_utf8(text) else {
        return Ok(false);
    };
    let mut scratch = Scratch::new(alloc);
    let mut reader = Reader::new(text, &mut scratch)?;
    let Some(Token::BeginArray) = reader.next() else {
        return Ok(false);
    };
    match pass_count(&mut reader, count, depth) {
        Ok(()) if reader.next().is_none() => Ok(true),
        _ => Ok(false),
    }
}

/// Whether the text is that of members and the end of their object, and then whether there are any.
pub(crate) fn members_in(
    alloc: Global,
    text: &[u8],
    name: &str,
    depth: usize,
) -> Result<Option<bool>, AllocError>
    ensures { IfOk result (λ o. IfSome o
        (λ some. spec.PassesMembers depth name.now some (tokens text.now) [])) }
{
    let Ok(text) = str::from_utf8(text) else {
        return Ok(None);
    };
    let mut scratch = Scratch::new(alloc);
    let mut reader = Reader::new(text, &mut scratch)?;
    match pass_members(&mut reader, name, depth) {
        Ok(some) if reader.next().is_none() => Ok(Some(some)),
        _ => Ok(None),
    }
}

/// Whether the text is that of items and the end of their array, and then whether there are any.
pub(crate) fn items_in(alloc: Global, text: &[u8], depth: usize) -> Result<Option<bool>, AllocError>
    ensures { IfOk result (λ o. IfSome o (λ some. spec.PassesItems depth some (tokens text.now) [])) }
{
    let Ok(text) = str::from_utf8(text) else {
        return Ok(None);
    };
    let mut scratch = Scratch::new(alloc);
    let mut reader = Reader::new(text, &mut scratch)?;
    match pass_items(&mut reader, depth) {
        Ok(some) if reader.next().is_none() => Ok(Some(some)),
        _ => Ok(None),
    }
}
