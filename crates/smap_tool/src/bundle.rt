//! The scripts of a bundle.
ghost use Rattle.std.specs.Prelude.{◌≡◌};
ghost use Rattle.smap_record.specs.Scripts.{AreDistinct};

use smap_record::SourceMap;
use smap_trace::Scripts;
use std::marker::Model;

/// The scripts of a bundle with their maps, in the order of its entries. No two have the same URL. A contract
/// sees each script's URL and the record of its map.
#[derive(Drop)]
pub struct Bundle {
    scripts: Scripts<SourceMap>,
}

impl Model for Bundle {
    ghost use Rattle.std.specs.Prelude.{List};
    ghost use Rattle.smap_record.specs.Scripts.{AreDistinct, Script};

    ghost Value = { List Script };

    ghost view = { λ b. b.scripts };

    ghost invariant = { λ b. AreDistinct b.scripts };
}

impl Bundle {
    pub(crate) fn new(scripts: Scripts<SourceMap>) -> Bundle
        requires { AreDistinct scripts }
        ensures { result ≡ scripts }
    {
        Bundle { scripts }
    }

    /// The scripts, in the form that `smap_trace::translate_in` takes.
    pub fn scripts(&self) -> &Scripts<SourceMap>
        ensures scripts { result.now ≡ self.now }
        ensures distinct { AreDistinct self.now }
    {
        &self.scripts
    }
}
