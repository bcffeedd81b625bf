//! The bytes that a map would be rewritten to.
ghost use Rattle.std.specs.Prelude.{◌≡◌, IfOk, IfSome, OnOk, option_map};
ghost use Rattle.smap_record.specs.Record.{usual};
ghost use Rattle.smap_record.specs.Results.{Returns};
ghost use Rattle.smap_maps_run.specs.Forms.{IsReadAgainAs, KeepsRecord, formed_text, written_text};

use crate::judging::map_of;
use smap_canon::{canonical_in, flatten};
use smap_record::{Base, ReadError, SourceMap};
use std::alloc::{AllocError, Global};

/// The form that a map is compared with.
#[derive(Clone, Copy, PartialEq, Eq)]
pub(crate) enum Form {
    /// The canonical form, with relative source URLs or with absolute ones.
    Canonical { relative: bool },
    /// One flat map.
    Flat,
}

/// The bytes of a map that was read in a form.
pub(crate) fn written(
    alloc: Global,
    form: Form,
    base: &Base,
    map: &SourceMap,
) -> Result<Vec<u8>, AllocError>
    ensures text { IfOk result (λ v. v.items ≡ written_text form base.now map.now) }
    ensures read_again { OnOk result (IsReadAgainAs form base.now map.now) }
{
    let text = match form {
        Form::Canonical { relative } => canonical_in(alloc, map, base, relative),
        Form::Flat => flatten(alloc, map),
    };
    match text {
        Ok(text) => Ok(text),
        Err(_) => Err(AllocError),
    }
}

/// The bytes of a map in a form; none if the URLs of its sources take more than so many bytes. They are
/// accepted with the record that the map has.
pub(crate) fn formed(
    alloc: Global,
    form: Form,
    base: &Base,
    bytes: &[u8],
    url_bytes: usize,
) -> Result<Option<Vec<u8>>, ReadError>
    ensures gives { Returns (option_map (λ v. v.items)) result
        (formed_text form base.now usual url_bytes bytes.now) }
    ensures keeps { IfOk result (λ o. IfSome o (λ v.
        KeepsRecord base.now usual url_bytes bytes.now v.items)) }
{
    let Some(map) = map_of(alloc, base, bytes, url_bytes)? else {
        return Ok(None);
    };
    match written(alloc, form, base, &map) {
        Ok(text) => Ok(Some(text)),
        Err(_) => Err(ReadError::Memory),
    }
}
