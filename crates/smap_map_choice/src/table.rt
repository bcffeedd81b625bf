//! The table of the scripts that places name.
ghost use Rattle.std.specs.Prelude.{◌≡◌, IfErr, IfOk, OnOk, map};
ghost use Rattle.smap_link.specs.Choice.{AreDistinct, IsFaultOf};
ghost use Rattle.smap_link.specs.Table.{IsTable};
ghost use Rattle.smap_map_choice.specs.PlaceView.{places_in};
ghost use Rattle.smap_map_choice.specs.Places.{scripts_of};

use crate::places::Place;
use smap_link::{ChoiceFault, ScriptTable};
use std::alloc::{AllocError, Global};

/// The names of the scripts.
fn scripts_in<'a>(alloc: Global, places: &'a [Place]) -> Result<Vec<&'a [u8]>, AllocError>
    ensures { IfOk result (λ all. map (λ s. s.now) all.items ≡ scripts_of (places_in places.now)) }
{
    let mut scripts = Vec::new(alloc);
    for place in places {
        scripts.push(place.script.as_slice())?;
    }
    Ok(scripts)
}

/// The table of the scripts of these places.
///
/// The time is proportional to the bytes of all names.
///
/// # Errors
///
/// `Repeated` where two of the scripts have the same name; `Memory`.
pub fn table_of(alloc: Global, places: &[Place]) -> Result<ScriptTable, ChoiceFault>
    ensures table { IfOk result (λ t. IsTable t (scripts_of (places_in places.now))) }
    ensures distinct { OnOk result (AreDistinct (scripts_of (places_in places.now))) }
    ensures fault { IfErr result (λ e. IsFaultOf (scripts_of (places_in places.now)) e) }
{
    let scripts = scripts_in(alloc, places)?;
    ScriptTable::new(alloc, &scripts)
}
