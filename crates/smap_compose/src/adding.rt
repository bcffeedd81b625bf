//! Many mappings that are added to a map that is built.
ghost use Rattle.std.specs.Prelude.{◌≡◌};
ghost use Rattle.smap_compose.specs.Adding.{AddsAll, first_fault};
ghost use Rattle.smap_compose.specs.Building.{bounds_of};

use crate::building::Builder;
use crate::error::BuildError;
use smap_mappings::{SegmentKind, Token};

impl Builder {
    /// The first of these mappings that would be refused, by its index, and why.
    fn first_fault(&self, tokens: &[Token]) -> Option<(usize, SegmentKind)>
        ensures { result ≡ first_fault (bounds_of self.now) 0 tokens.now }
    {
        for i in 0..tokens.len() {
            if let Some(kind) = self.fault_of(tokens[i]) {
                return Some((i, kind));
            }
        }
        None
    }

    /// Adds all of these mappings in their order.
    ///
    /// # Errors
    ///
    /// `Mapping`, with the index of the first one that is refused; none is added then. `Memory`, with the
    /// number of those that are added.
    pub fn add_all(&mut self, tokens: &[Token]) -> Result<(), (usize, BuildError)>
        ensures { AddsAll result self.old self.new tokens.now }
    {
        if let Some((i, kind)) = self.first_fault(tokens) {
            return Err((i, BuildError::Mapping(kind)));
        }
        for i in 0..tokens.len() {
            if self.add(tokens[i]).is_err() {
                return Err((i, BuildError::Memory));
            }
        }
        Ok(())
    }
}
