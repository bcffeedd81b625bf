//! The five running values of a mappings string.
ghost use Rattle.std.specs.Prelude.{◌≡◌};
ghost use Rattle.smap_mappings.specs.Steps.{at_start};

use smap_vlq::MAX_POSITION;

/// One more than the greatest column, original line or index, so that the difference of any two of them can
/// be encoded.
pub(crate) const POSITION_LIMIT: u32 = MAX_POSITION + 1;

/// The absolute values at the last segment. The numbers of the next one are differences from these (ECMA-426,
/// "Mappings structure").
#[derive(Clone, Copy)]
pub(crate) struct Running {
    pub(crate) column: u32,
    pub(crate) source: u32,
    pub(crate) original_line: u32,
    pub(crate) original_column: u32,
    pub(crate) name: u32,
}

impl Running {
    /// The values before the first segment.
    pub(crate) fn new() -> Running
        ensures { result ≡ at_start }
    {
        Running {
            column: 0,
            source: 0,
            original_line: 0,
            original_column: 0,
            name: 0,
        }
    }
}
