//! The error line of a refused bundle.
ghost use Rattle.std.specs.Prelude.{◌≡◌, ◌∷◌, ◌++◌, [], string_bytes, IfOk};
ghost use Rattle.smap_tool.specs.BundleLine.{bundle_line};

use crate::{EntryFault, Refusal};
use itoa::Buffer;
use smap_mappings::Memory;
use std::alloc::Global;

/// The line without its line feed.
fn bundle_text(alloc: Global, refusal: &Refusal) -> Result<String, Memory>
    ensures { IfOk result (λ line. string_bytes line ≡ bundle_line refusal.now) }
{
    let mut buffer = Buffer::new();
    let entry = buffer.format(refusal.entry);
    match &refusal.fault {
        EntryFault::Header => format!(in alloc; "refused: bundle header {entry}"),
        EntryFault::Repeated => format!(in alloc; "refused: map {entry}: script repeated"),
        EntryFault::Base => format!(in alloc; "refused: map {entry}: base is no URL"),
        EntryFault::CutOff => format!(in alloc; "refused: map {entry}: cut off"),
        EntryFault::Map(fault) => format!(in alloc; "refused: map {entry}: {fault}"),
    }
}

/// The line with its line feed, as it is written.
pub(crate) fn bundle_refusal(alloc: Global, refusal: &Refusal) -> Result<Vec<u8>, Memory>
    ensures { IfOk result (λ text. text.items ≡ bundle_line refusal.now ++ 10 ∷ []) }
{
    let mut text = bundle_text(alloc, refusal)?.into_bytes();
    text.push(b'\n')?;
    Ok(text)
}
