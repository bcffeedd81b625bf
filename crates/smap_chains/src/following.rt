//! The map of a script, opened, with those that its sources lead to.
ghost use Rattle.std.specs.Prelude.{◌≡◌, ◌⊎◌, IfOk};
ghost use Rattle.smap_chains.specs.Closing.{IsClosedAt, IsFollowed};
ghost use Rattle.smap_map_choice.specs.PlaceView.{place_in};
ghost use Rattle.smap_map_files.specs.Homes.{folder_in_home, home_of};
ghost use Rattle.smap_map_files.specs.RootView.{folder_of};

use crate::chains::{ChainAsked, MoreMaps, chain_of};
use crate::closing::{Closed, close};
use crate::remarks::{Remarks, remarks_of};
use smap_link::own_url;
use smap_map_files::{MapHome, Subject, home_of};
use smap_record::SourceMap;
use smap_system::Disk;
use std::alloc::{AllocError, Global};

/// A map with those that its sources lead to, as far as these can be followed.
#[derive(Drop)]
pub struct Followed {
    pub map: SourceMap,
    /// What is said of its sources.
    pub remarks: Remarks,
}

/// A map as it is.
fn alone(alloc: Global, map: SourceMap) -> Followed
    ensures { result.map ≡ map }
{
    Followed {
        map,
        remarks: Remarks {
            notes: Vec::new(alloc),
            faults: Vec::new(alloc),
        },
    }
}

/// The map that was opened for this, closed over those that its sources lead to in this folder.
fn closed_in<D: Disk>(
    alloc: Global,
    disk: &D,
    subject: &Subject<'_>,
    home: &MapHome<'_>,
    map: SourceMap,
) -> Result<Followed, AllocError>
    requires { folder_in_home home.now ≡ home_of (folder_of subject.now.root) (place_in subject.now.place) }
    ensures { IfOk result (λ f. (f.map ≡ map) ⊎ IsClosedAt (D.held disk.now) subject.now.reading
        (folder_of subject.now.root) (place_in subject.now.place) map f.map) }
{
    let asked = ChainAsked {
        home: home.home(),
        more: MoreMaps {
            beside: false,
            given: &[],
        },
        url_bytes: subject.reading.url_bytes,
    };
    let script = own_url(alloc, &subject.place.script)?;
    let chain = chain_of(alloc, disk, asked, &script, &map)?;
    let closed = close(alloc, &map, &chain)?;
    let remarks = remarks_of(alloc, &map, chain, &closed)?;
    let map = match closed {
        Closed::Map(closed) => closed,
        Closed::Same | Closed::Endless | Closed::TooMuch => map,
    };
    Ok(Followed { map, remarks })
}

/// The map that was opened for this, with those that its sources lead to in its folder, if chains are
/// followed.
///
/// # Errors
///
/// Out of memory alone.
pub fn follow<D: Disk>(
    alloc: Global,
    disk: &D,
    subject: &Subject<'_>,
    map: SourceMap,
) -> Result<Followed, AllocError>
    ensures { IfOk result (λ f. IsFollowed (D.held disk.now) subject.now.reading
        (folder_of subject.now.root) (place_in subject.now.place) map f.map) }
{
    if !subject.reading.chains {
        return Ok(alone(alloc, map));
    }
    match home_of(alloc, subject)? {
        Some(home) => closed_in(alloc, disk, subject, &home, map),
        None => Ok(alone(alloc, map)),
    }
}
