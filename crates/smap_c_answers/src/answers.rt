//! What the calls that tie a script to its map answer: bytes, nothing, or a code.
ghost use Rattle.std.specs.Prelude.{◌≡◌, IfOk, Ok, Some, option_map};
ghost use Rattle.std.specs.Str.{bytes_eq, is_utf8};
ghost use Rattle.base64.specs.declared.engine.general_purpose.GeneralPurpose.{GeneralPurpose as Engine};
ghost use Rattle.smap_link.specs.Alike.{normal_form};
ghost use Rattle.smap_link.specs.Inline.{IsForgiving, inline_map};
ghost use Rattle.smap_link.specs.Names.{script_name};
ghost use Rattle.smap_link.specs.Paths.{file_path};
ghost use Rattle.smap_link.specs.Resolved.{resolved};
ghost use Rattle.smap_link.specs.Urls.{script_url};
ghost use Rattle.smap_c_answers.specs.Answers as spec;

use crate::codes::{MEMORY, NOT_BASE64, NOT_URL, NOT_UTF8};
use smap_link::{InlineFault, LinkFault, PathFault};
use std::alloc::{AllocError, Global};

/// The URL of its map that a script, or a style sheet, names in its text.
pub fn link_in<'a>(css: bool, text: &'a [u8]) -> Option<&'a [u8]>
    ensures { option_map (λ u. u.now) result ≡ spec.link_in css text.now }
{
    if css {
        smap_link::css_map_url(text)
    } else {
        smap_link::map_url(text)
    }
}

fn data_code(fault: InlineFault) -> u32
    ensures { result ≡ spec.data_code fault }
{
    match fault {
        InlineFault::Form => NOT_URL,
        InlineFault::Base64 => NOT_BASE64,
        InlineFault::Memory => MEMORY,
    }
}

/// The bytes that a data: URL holds.
pub fn data_answer(alloc: Global, url: &[u8]) -> Result<Option<Vec<u8>>, u32>
    ensures { (e : Engine) × IsForgiving e × spec.IsAnswer result (spec.data_answer (inline_map e url.now)) }
{
    match smap_link::inline_map(alloc, url) {
        Ok(found) => Ok(found),
        Err(fault) => Err(data_code(fault)),
    }
}

/// The file: URL of an absolute path.
pub fn file_url_answer(alloc: Global, path: &[u8]) -> Result<Option<Vec<u8>>, u32>
    ensures { spec.IsAnswer result (spec.url_answer (is_utf8 path.now) path.now) }
{
    match smap_link::file_url(alloc, path) {
        Ok(Some(url)) => Ok(Some(url.into_bytes())),
        Ok(None) => Ok(None),
        Err(fault) => Err(path_code(fault)),
    }
}

fn path_code(fault: PathFault) -> u32
    ensures { result ≡ spec.path_code fault }
{
    match fault {
        PathFault::NotUtf8 => NOT_UTF8,
        PathFault::Host | PathFault::Escape => NOT_URL,
        PathFault::Memory => MEMORY,
    }
}

/// The path of a file: URL.
pub fn file_path_answer(alloc: Global, url: &[u8]) -> Result<Option<Vec<u8>>, u32>
    ensures { spec.IsAnswer result (spec.path_answer (file_path url.now)) }
{
    match smap_link::file_path(alloc, url) {
        Ok(found) => Ok(found),
        Err(fault) => Err(path_code(fault)),
    }
}

/// The URL of the script with this name below a folder.
pub fn script_url_answer(alloc: Global, folder: &[u8], name: &[u8]) -> Result<Option<Vec<u8>>, u32>
    ensures { spec.IsAnswer result (Ok (Some (script_url folder.now name.now))) }
{
    match smap_link::script_url(alloc, folder, name) {
        Ok(url) => Ok(Some(url)),
        Err(_) => Err(MEMORY),
    }
}

/// The name that the script with this URL has below a folder.
pub fn script_name_answer(alloc: Global, folder: &[u8], url: &[u8]) -> Result<Option<Vec<u8>>, u32>
    ensures { spec.IsAnswer result (Ok (script_name folder.now url.now)) }
{
    match smap_link::script_name(alloc, folder, url) {
        Ok(found) => Ok(found),
        Err(_) => Err(MEMORY),
    }
}

fn link_code(fault: LinkFault) -> u32
    ensures { result ≡ spec.link_code fault }
{
    match fault {
        LinkFault::NotUtf8 => NOT_UTF8,
        LinkFault::NoBase | LinkFault::NotUrl => NOT_URL,
        LinkFault::Memory => MEMORY,
    }
}

/// The URL of a script's map, which the script names by a URL.
pub fn resolved_answer(alloc: Global, script: &[u8], url: &[u8]) -> Result<Option<Vec<u8>>, u32>
    ensures { spec.IsAnswer result (spec.link_answer (resolved script.now url.now)) }
{
    match smap_link::resolved(alloc, script, url) {
        Ok(text) => Ok(Some(text.into_bytes())),
        Err(fault) => Err(link_code(fault)),
    }
}

fn form_of(alloc: Global, name: &[u8], with_query: bool) -> Result<Vec<u8>, AllocError>
    ensures { IfOk result (λ form. form.items ≡ spec.form_of with_query name.now) }
{
    if with_query {
        smap_link::key_of(alloc, name)
    } else {
        smap_link::normal_form(alloc, name)
    }
}

/// What all names of a script have in common, or those with the same query.
pub fn form_answer(alloc: Global, name: &[u8], with_query: bool) -> Result<Option<Vec<u8>>, u32>
    ensures { spec.IsAnswer result (Ok (Some (spec.form_of with_query name.now))) }
{
    match form_of(alloc, name, with_query) {
        Ok(form) => Ok(Some(form)),
        Err(_) => Err(MEMORY),
    }
}

/// Whether two names are alike.
///
/// # Errors
///
/// Out of memory.
pub fn are_alike(alloc: Global, one: &[u8], other: &[u8]) -> Result<bool, AllocError>
    ensures { IfOk result (λ alike. alike ≡ bytes_eq (normal_form one.now) (normal_form other.now)) }
{
    let one = smap_link::normal_form(alloc, one)?;
    let other = smap_link::normal_form(alloc, other)?;
    Ok(one.as_slice() == other.as_slice())
}
