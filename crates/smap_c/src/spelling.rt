//! The call that writes a mappings string of mappings given as numbers.
ghost use Rattle.smap_c.specs.Handles.{held_bytes};
ghost use Rattle.smap_c.specs.Spelling.{Spells, SpellsUnless};

use crate::bytes::put;
use crate::handles::SmapBytes;
use smap_c_answers::{MappingNumbers, RANGE, first_wrong, spelled};
use std::alloc::Global;

/// The canonical mappings string of mappings in any order; or the index of the first wrong one.
#[unsafe(no_mangle)]
pub extern "C" fn smap_spell(
    alloc: Global,
    mappings: &[MappingNumbers],
    out: &mut SmapBytes,
    wrong: &mut usize,
) -> u32
    ensures { Spells mappings.now (held_bytes out.old.owner.value) (held_bytes out.new.owner.value)
        wrong.old wrong.new result }
{
    match first_wrong(mappings) {
        Some(i) => {
            *wrong = i;
            RANGE
        }
        None => put(alloc, spelled(alloc, mappings), out),
    }
}
