//! Which map belongs to a script: the calls that need no map.
ghost use Rattle.std.specs.Prelude.{◌≡◌};
ghost use Rattle.smap_c_answers.specs.Answers.{Answer, IsAnswer, answer_of};
ghost use Rattle.smap_c.specs.Handles.{held_bytes};
ghost use Rattle.smap_c.specs.Links as spec;

use crate::handles::{Held, SmapBytes};
use smap_c_answers::{
    MEMORY, NONE, OK, are_alike, data_answer, file_path_answer, file_url_answer, form_answer,
    link_in, report_bytes, resolved_answer, script_name_answer, script_url_answer,
};
use std::alloc::Global;

/// The URL of its map that a script, or a style sheet, names in its text.
#[unsafe(no_mangle)]
pub extern "C" fn smap_script_link(text: &[u8], css: bool, out: &mut [u8], len: &mut usize) -> u32
    ensures { spec.LinkReported css text.now out.old out.new len.new result }
{
    report_bytes(link_in(css, text), out, len)
}

/// Puts an answer into a handle, or says why there is none.
fn put_answer(alloc: Global, answer: Result<Option<Vec<u8>>, u32>, out: &mut SmapBytes) -> u32
    ensures { spec.Gives (answer_of answer) (held_bytes out.old.owner.value)
        (held_bytes out.new.owner.value) result }
{
    match answer {
        Ok(Some(bytes)) => match Held::Bytes(bytes).boxed(alloc) {
            Ok(held) => {
                *out = SmapBytes::of(held);
                OK
            }
            Err(_) => MEMORY,
        },
        Ok(None) => NONE,
        Err(code) => code,
    }
}

/// The same of an answer that is known but for a want of memory.
fn give(alloc: Global, answer: Result<Option<Vec<u8>>, u32>, out: &mut SmapBytes) -> u32
    ensures { (said : Answer) → IsAnswer answer said
        → spec.Gives said (held_bytes out.old.owner.value) (held_bytes out.new.owner.value) result }
{
    put_answer(alloc, answer, out)
}

/// The bytes that a data: URL holds.
#[unsafe(no_mangle)]
pub extern "C" fn smap_data_url(alloc: Global, url: &[u8], out: &mut SmapBytes) -> u32
    ensures { spec.DataGiven url.now (held_bytes out.old.owner.value)
        (held_bytes out.new.owner.value) result }
{
    let answer = data_answer(alloc, url);
    give(alloc, answer, out)
}

/// The file: URL of an absolute path.
#[unsafe(no_mangle)]
pub extern "C" fn smap_file_url(alloc: Global, path: &[u8], out: &mut SmapBytes) -> u32
    ensures { spec.FileUrlGiven path.now (held_bytes out.old.owner.value)
        (held_bytes out.new.owner.value) result }
{
    let answer = file_url_answer(alloc, path);
    give(alloc, answer, out)
}

/// The path of a file: URL.
#[unsafe(no_mangle)]
pub extern "C" fn smap_file_path(alloc: Global, url: &[u8], out: &mut SmapBytes) -> u32
    ensures { spec.FilePathGiven url.now (held_bytes out.old.owner.value)
        (held_bytes out.new.owner.value) result }
{
    let answer = file_path_answer(alloc, url);
    give(alloc, answer, out)
}

/// The URL of the script with this name below a folder.
#[unsafe(no_mangle)]
pub extern "C" fn smap_script_url(
    alloc: Global,
    folder: &[u8],
    name: &[u8],
    out: &mut SmapBytes,
) -> u32
    ensures { spec.ScriptUrlGiven folder.now name.now (held_bytes out.old.owner.value)
        (held_bytes out.new.owner.value) result }
{
    let answer = script_url_answer(alloc, folder, name);
    give(alloc, answer, out)
}

/// The name that the script with this URL has below a folder.
#[unsafe(no_mangle)]
pub extern "C" fn smap_script_name(
    alloc: Global,
    folder: &[u8],
    url: &[u8],
    out: &mut SmapBytes,
) -> u32
    ensures { spec.ScriptNameGiven folder.now url.now (held_bytes out.old.owner.value)
        (held_bytes out.new.owner.value) result }
{
    let answer = script_name_answer(alloc, folder, url);
    give(alloc, answer, out)
}

/// The URL of a script's map, which the script names by a URL.
#[unsafe(no_mangle)]
pub extern "C" fn smap_resolve(alloc: Global, script: &[u8], url: &[u8], out: &mut SmapBytes) -> u32
    ensures { spec.ResolvedGiven script.now url.now (held_bytes out.old.owner.value)
        (held_bytes out.new.owner.value) result }
{
    let answer = resolved_answer(alloc, script, url);
    give(alloc, answer, out)
}

/// What all names of a script have in common, or those with the same query.
#[unsafe(no_mangle)]
pub extern "C" fn smap_normal_form(
    alloc: Global,
    name: &[u8],
    with_query: bool,
    out: &mut SmapBytes,
) -> u32
    ensures { spec.FormGiven with_query name.now (held_bytes out.old.owner.value)
        (held_bytes out.new.owner.value) result }
{
    let answer = form_answer(alloc, name, with_query);
    give(alloc, answer, out)
}

/// Whether two names are alike.
#[unsafe(no_mangle)]
pub extern "C" fn smap_alike(alloc: Global, one: &[u8], other: &[u8], out: &mut bool) -> u32
    ensures { spec.AlikeReported one.now other.now out.old out.new result }
{
    match are_alike(alloc, one, other) {
        Ok(alike) => {
            *out = alike;
            OK
        }
        Err(_) => MEMORY,
    }
}
