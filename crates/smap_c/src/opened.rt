//! What a handle of a map owns.
ghost use Rattle.std.specs.Prelude.{◌≡◌, IfOk, None};
ghost use Rattle.smap_record.specs.Record.{record_of};
ghost use Rattle.smap_trace.specs.LineStarts.{line_starts};

use smap_mappings::Memory;
use smap_record::{Base, SourceMap, WrittenSources};
use smap_trace::LineStarts;
use std::alloc::Global;
use std::sync::Arc;

/// A map and the base that it was read against, its sources as its text writes them, if it was read from one,
/// and where the mappings of each line begin.
#[derive(Drop)]
pub struct Opened {
    pub base: Arc<Base>,
    pub map: SourceMap,
    pub written: Option<WrittenSources>,
    pub starts: LineStarts,
    ghost tied: { starts ≡ line_starts (record_of map).mappings },
}

impl Opened {
    /// A map against its base, with the table of its lines.
    pub(crate) fn new(
        alloc: Global,
        base: Base,
        map: SourceMap,
        written: Option<WrittenSources>,
    ) -> Result<Opened, Memory>
        ensures base { IfOk result (λ o. o.base.value ≡ base) }
        ensures map { IfOk result (λ o. o.map ≡ map) }
        ensures written { IfOk result (λ o. o.written ≡ written) }
    {
        let starts = LineStarts::new(alloc, &map)?;
        let Ok(base) = Arc::new(alloc, base) else {
            return Err(Memory);
        };
        Ok(Opened {
            base,
            map,
            written,
            starts,
        })
    }

    /// What a map was made as of another one, whose base it shares.
    pub(crate) fn made(alloc: Global, of: &Opened, map: SourceMap) -> Result<Opened, Memory>
        ensures base { IfOk result (λ o. o.base.value ≡ of.now.base.value) }
        ensures map { IfOk result (λ o. o.map ≡ map) }
        ensures written { IfOk result (λ o. o.written ≡ None) }
    {
        let starts = LineStarts::new(alloc, &map)?;
        let Ok(base) = Arc::try_clone(&of.base) else {
            return Err(Memory);
        };
        Ok(Opened {
            base,
            map,
            written: None,
            starts,
        })
    }
}
