//! What is kept while lines get the names of functions.
ghost use Rattle.std.specs.Prelude.{◌≡◌};
ghost use Rattle.smap_trace.specs.NamedFates.{nothing_kept};

use crate::known::KnownFunctions;
use crate::translated::TranslatedLines;
use std::alloc::Global;

/// The functions of sources, and the translations of lines.
#[derive(Drop)]
pub struct Kept {
    pub functions: KnownFunctions,
    pub lines: TranslatedLines,
}

impl Kept {
    /// Nothing.
    pub fn new(alloc: Global) -> Kept
        ensures { result ≡ nothing_kept }
    {
        Kept {
            functions: KnownFunctions::new(alloc),
            lines: TranslatedLines::new(alloc),
        }
    }
}
