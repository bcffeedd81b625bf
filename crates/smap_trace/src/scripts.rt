//! Where the maps of scripts are found.
ghost use Rattle.std.specs.Prelude.{◌↔◌, ◌≡◌, List, IsTrue, IfSome, length, option_map};
ghost use Rattle.smap_record.specs.Record.{record_of};
ghost use Rattle.smap_trace.specs.Anywhere.{longest};
ghost use Rattle.smap_trace.specs.OccurrenceView.{IsWithin, occurrence_in};
ghost use Rattle.smap_trace.specs.Scripts.{AreDistinct, Script, map_of};
ghost use Rattle.smap_trace.specs.Views.{scripts_in};

use crate::occurrences::{Occurrence, longer, occurrence_of};
use smap_record::SourceMap;

/// Whether no two scripts have the same URL, byte for byte, as [`translate`](crate::translate) and
/// [`translate_line`](crate::translate_line) require. It takes no memory, and time in the square of the
/// number of scripts.
pub fn distinct_scripts(scripts: &[(&str, &SourceMap)]) -> bool
    ensures { IsTrue result ↔ AreDistinct (scripts_in scripts.now) }
{
    for i in 0..scripts.len() {
        for j in i + 1..scripts.len() {
            if scripts[i].0 == scripts[j].0 {
                return false;
            }
        }
    }
    true
}

/// Where the maps of scripts are found, by the scripts' URLs. No two scripts have the same one.
pub trait Maps {
    // the scripts, each with what its map says
    ghost scripts: { Self → List Script };

    /// The map of the script that has this URL.
    fn map_of(&self, url: &[u8]) -> Option<&SourceMap>
        ensures { option_map (λ m. record_of m.now) result ≡ map_of (scripts self.now) url.now };

    /// The occurrence of the script with the longest URL at the beginning of the text.
    fn occurrence_at(&self, text: &[u8], ignore_query: bool) -> Option<Occurrence<'_>>
        ensures value { option_map occurrence_in result
            ≡ longest ignore_query (scripts self.now) text.now }
        ensures within { IfSome result (IsWithin (length text.now)) };
}

/// The scripts as they are passed in, searched one by one, which takes no memory.
#[derive(Drop)]
pub(crate) struct Listed<'a> {
    pub(crate) scripts: &'a [(&'a str, &'a SourceMap)],
}

impl Maps for Listed<'_> {
    ghost scripts = { λ s. scripts_in s.scripts.now };

    fn map_of(&self, url: &[u8]) -> Option<&SourceMap> {
        for script in self.scripts {
            if script.0.as_bytes() == url {
                return Some(script.1);
            }
        }
        None
    }

    fn occurrence_at(&self, text: &[u8], ignore_query: bool) -> Option<Occurrence<'_>> {
        let mut best = None;
        for script in self.scripts {
            let found = occurrence_of(script.0.as_bytes(), script.1, text, ignore_query);
            best = longer(best, found);
        }
        best
    }
}
