//! A map composed with those that its sources lead to.
ghost use Rattle.std.specs.Prelude.{IfOk};
ghost use Rattle.smap_chains.specs.Closing.{IsClosedBy};

use crate::chains::Chain;
use smap_compose::{ComposeError, compose_deep};
use smap_record::{Limits, SourceMap};
use std::alloc::{AllocError, Global};

/// What becomes of a map with those that its sources lead to.
#[derive(Drop)]
pub enum Closed {
    /// Its sources lead to none.
    Same,
    /// The composition.
    Map(SourceMap),
    /// None: they lead on more than 16 deep, or back to a map before.
    Endless,
    /// None: it would list too many sources, or use too many names.
    TooMuch,
}

/// A map composed with those of a chain, which its sources lead to.
///
/// # Errors
///
/// Out of memory alone.
pub fn close(alloc: Global, map: &SourceMap, chain: &Chain) -> Result<Closed, AllocError>
    ensures { IfOk result (IsClosedBy map.now chain.now) }
{
    let below = match chain.depth {
        None => return Ok(Closed::Endless),
        Some(0) => return Ok(Closed::Same),
        Some(depth) => depth.saturating_sub(1),
    };
    let (numbers, maps, leads) = (&chain.numbers, &chain.maps, &chain.leads);
    match compose_deep(alloc, map, numbers, maps, leads, below, Limits::usual()) {
        Ok(map) => Ok(Closed::Map(map)),
        Err(ComposeError::TooMany) => Ok(Closed::TooMuch),
        Err(ComposeError::Memory) => Err(AllocError),
    }
}
