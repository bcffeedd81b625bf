//! What a script names for its map within its folder, and which maps it may have.
ghost use Rattle.std.specs.Prelude.{◌≡◌, option_map};
ghost use Rattle.smap_link.specs.Kinds.{file_kind as kind_of};
ghost use Rattle.smap_c_answers.specs.FileKinds.{number_of_kind};
ghost use Rattle.smap_c.specs.Handles.{held_bytes};
ghost use Rattle.smap_c.specs.Named as spec;

use crate::handles::{Held, SmapBytes};
use smap_c_answers::{MEMORY, NONE, OK, number_of, number_of_kind};
use smap_link::file_kind;
use smap_map_choice::{Named, candidate, named_map};
use std::alloc::Global;

/// Puts bytes into a handle, if there are some, and the number of what a script names beside it.
fn put_found(
    alloc: Global,
    found: Option<Vec<u8>>,
    number: u32,
    kind: &mut u32,
    out: &mut SmapBytes,
) -> u32
    ensures { spec.IsPut (option_map (λ v. v.items) found) number kind.old kind.new
        (held_bytes out.old.owner.value) (held_bytes out.new.owner.value) result }
{
    let Some(bytes) = found else {
        *kind = number;
        return NONE;
    };
    match Held::Bytes(bytes).boxed(alloc) {
        Ok(held) => {
            *kind = number;
            *out = SmapBytes::of(held);
            OK
        }
        Err(_) => MEMORY,
    }
}

/// The map that a script names, or the name of its file.
fn found_in(named: Named) -> Option<Vec<u8>>
    ensures { option_map (λ v. v.items) result ≡ spec.held_in named }
{
    match named {
        Named::Inline(bytes) | Named::File(bytes) => Some(bytes),
        Named::Nothing | Named::Wrong(_) => None,
    }
}

/// What a script, or a style sheet, names for its map within its folder.
#[unsafe(no_mangle)]
pub extern "C" fn smap_named_map(
    alloc: Global,
    folder: &[u8],
    name: &[u8],
    text: &[u8],
    out: &mut SmapBytes,
    kind: &mut u32,
) -> u32
    ensures { spec.NamedGiven folder.now name.now text.now kind.old kind.new
        (held_bytes out.old.owner.value) (held_bytes out.new.owner.value) result }
{
    match named_map(alloc, folder, name, text) {
        Ok(named) => {
            let number = number_of(&named, name, text);
            put_found(alloc, found_in(named), number, kind, out)
        }
        Err(_) => MEMORY,
    }
}

/// The next of the maps that a script, or a style sheet, may have within its folder, after so many that can't
/// be had.
#[unsafe(no_mangle)]
pub extern "C" fn smap_script_map(
    alloc: Global,
    folder: &[u8],
    name: &[u8],
    text: &[u8],
    tried: usize,
    out: &mut SmapBytes,
    kind: &mut u32,
) -> u32
    ensures { spec.MapGiven folder.now name.now text.now tried kind.old kind.new
        (held_bytes out.old.owner.value) (held_bytes out.new.owner.value) result }
{
    let Ok(named) = named_map(alloc, folder, name, text) else {
        return MEMORY;
    };
    let number = number_of(&named, name, text);
    match candidate(alloc, name, named, tried) {
        Ok(found) => put_found(alloc, found, number, kind, out),
        Err(_) => MEMORY,
    }
}

/// What a file is by the end of its name.
#[unsafe(no_mangle)]
pub extern "C" fn smap_file_kind(name: &[u8]) -> u32
    ensures { result ≡ number_of_kind (kind_of name.now) }
{
    number_of_kind(file_kind(name))
}
