//! Maps that are made of others: composed, thinned, and without the sources that no mapping has.
ghost use Rattle.std.specs.Prelude.{◌≡◌, ◌⊎◌, ◌++◌, ◌∷◌, [], map as mapped, IfOk, IfErr, Some, None};
ghost use Rattle.std.specs.List.{Contains};
ghost use Rattle.smap_record.specs.Record.{record_of};
ghost use Rattle.smap_compose.specs.Thinning.{thinned};
ghost use Rattle.smap_compose.specs.Using.{used};
ghost use Rattle.smap_c_answers.specs.Codes as codes;
ghost use Rattle.smap_c.specs.Composing.{Composes, ComposesInto, ComposesOpen, Makes, MakesInto};
ghost use Rattle.smap_c.specs.Composing.{NotShared, made_by};
ghost use Rattle.smap_c.specs.Handles.{held_map};

use crate::handles::{SmapMap, with_open};
use crate::maps::{Shared, SmapLimits, limits_of};
use crate::opened::Opened;
use smap_c_answers::{CLOSED, LIMITS, MEMORY, OK, TOO_MANY};
use smap_compose::{ComposeError, compose, only_used, thin};
use smap_record::{Limits, SourceMap};
use std::alloc::{AllocError, Global};
use std::mem;

/// A share in the map that a handle has, or the code that says why not.
fn share_of(alloc: Global, map: &mut SmapMap) -> Result<Shared, u32>
    ensures held { IfOk result (λ s. held_map map.old.owner.value ≡ Some s.arc.value) }
    ensures code { IfErr result (NotShared (held_map map.old.owner.value)) }
    ensures same { map.new.owner.value ≡ map.old.owner.value }
{
    let Some(it) = mem::replace(map, SmapMap::closed(alloc)).into_box() else {
        return Err(CLOSED);
    };
    let part = it.shared().part();
    *map = SmapMap::of(it);
    match part {
        Ok(share) => Ok(share),
        Err(_) => Err(MEMORY),
    }
}

/// One share more.
fn with_share(alloc: Global, shares: Vec<Shared>, map: &mut SmapMap) -> Result<Vec<Shared>, u32>
    ensures held { IfOk result (λ ss. mapped (λ s. Some s.arc.value) ss.items
        ≡ mapped (λ s. Some s.arc.value) shares.items ++ held_map map.old.owner.value ∷ []) }
    ensures code { IfErr result (NotShared (held_map map.old.owner.value)) }
    ensures same { map.new.owner.value ≡ map.old.owner.value }
{
    let share = match share_of(alloc, map) {
        Ok(share) => share,
        Err(code) => return Err(code),
    };
    let mut shares = shares;
    match shares.push(share) {
        Ok(()) => Ok(shares),
        Err(_) => Err(MEMORY),
    }
}

/// Shares in the maps that handles have, or the code that says why not.
fn shares_of(alloc: Global, maps: &mut [SmapMap]) -> Result<Vec<Shared>, u32>
    ensures held { IfOk result (λ ss. mapped (λ h. held_map h.owner.value) maps.old
        ≡ mapped (λ s. Some s.arc.value) ss.items) }
    ensures code { IfErr result (λ code. (code ≡ codes.MEMORY)
        ⊎ ((code ≡ codes.CLOSED) × Contains (mapped (λ h. held_map h.owner.value) maps.old) None)) }
    ensures same { mapped (λ h. h.owner.value) maps.new ≡ mapped (λ h. h.owner.value) maps.old }
{
    let mut shares = Vec::new(alloc);
    for i in 0..maps.len() {
        match with_share(alloc, shares, &mut maps[i]) {
            Ok(next) => shares = next,
            Err(code) => return Err(code),
        }
    }
    Ok(shares)
}

/// Opens the handle on a map that was made of the one that another handle has.
fn put_made(alloc: Global, of: &Opened, map: SourceMap, out: &mut SmapMap) -> u32
    ensures { Makes of.now (record_of map) (held_map out.old.owner.value) (held_map out.new.owner.value)
        result }
{
    let Ok(opened) = Opened::made(alloc, of, map) else {
        return MEMORY;
    };
    match Shared::new(alloc, opened) {
        Ok(held) => {
            *out = SmapMap::of(held);
            OK
        }
        Err(_) => MEMORY,
    }
}

/// The indices, each of which may lead to a map.
fn leads_of(alloc: Global, indices: &[usize]) -> Result<Vec<Option<usize>>, AllocError>
    ensures { IfOk result (λ ls. ls.items ≡ mapped Some indices.now) }
{
    let mut leads = Vec::with_capacity(alloc, indices.len())?;
    for i in 0..indices.len() {
        leads.push(Some(indices[i]))?;
    }
    Ok(leads)
}

#[tactic(auto, using(crate::proofs::ComposingLemmas::too_large))]
fn put_composition(
    alloc: Global,
    outer: &Opened,
    inner: &[Shared],
    indices: &[usize],
    limits: Limits,
    out: &mut SmapMap,
) -> u32
    ensures { Composes outer.now (mapped (λ s. s.arc.value.map) inner.now) indices.now limits
        (held_map out.old.owner.value) (held_map out.new.owner.value) result }
{
    let Ok(leads) = leads_of(alloc, indices) else {
        return MEMORY;
    };
    match compose(alloc, &outer.map, inner, &leads, limits) {
        Ok(map) => put_made(alloc, outer, map, out),
        Err(ComposeError::TooMany) => TOO_MANY,
        Err(ComposeError::Memory) => MEMORY,
    }
}

/// The same of the map that a handle has.
fn compose_open(
    alloc: Global,
    outer: &mut SmapMap,
    inner: &[Shared],
    indices: &[usize],
    limits: Limits,
    out: &mut SmapMap,
) -> u32
    ensures composed { ComposesOpen (held_map outer.old.owner.value)
        (mapped (λ s. s.arc.value.map) inner.now) indices.now limits
        (held_map out.old.owner.value) (held_map out.new.owner.value) result }
    ensures same { outer.new.owner.value ≡ outer.old.owner.value }
{
    with_open(alloc, outer, out, |opened, out| {
        put_composition(alloc, opened, inner, indices, limits, out)
    })
}

/// Composes a map with maps of its sources.
#[unsafe(no_mangle)]
pub extern "C" fn smap_compose(
    alloc: Global,
    outer: &mut SmapMap,
    inner: &mut [SmapMap],
    leads: &[usize],
    limits: &SmapLimits,
    out: &mut SmapMap,
) -> u32
    ensures composed { ComposesInto (held_map outer.old.owner.value)
        (mapped (λ h. held_map h.owner.value) inner.old) leads.now limits.now
        (held_map out.old.owner.value) (held_map out.new.owner.value) result }
    ensures outer { outer.new.owner.value ≡ outer.old.owner.value }
    ensures inner { mapped (λ h. h.owner.value) inner.new ≡ mapped (λ h. h.owner.value) inner.old }
{
    let Some(limits) = limits_of(limits) else {
        return LIMITS;
    };
    let shares = match shares_of(alloc, inner) {
        Ok(shares) => shares,
        Err(code) => return code,
    };
    compose_open(alloc, outer, &shares, leads, limits, out)
}

/// What is made of a map.
#[derive(Clone, Copy)]
pub(crate) enum Making {
    Thinned,
    Used,
}

fn made_by(alloc: Global, making: Making, map: &SourceMap) -> Result<SourceMap, AllocError>
    ensures { IfOk result (λ m. record_of m ≡ made_by making (record_of map.now)) }
{
    match making {
        Making::Thinned => thin(alloc, map),
        Making::Used => only_used(alloc, map),
    }
}

fn put_made_by(alloc: Global, making: Making, opened: &Opened, out: &mut SmapMap) -> u32
    ensures { Makes opened.now (made_by making (record_of opened.now.map)) (held_map out.old.owner.value)
        (held_map out.new.owner.value) result }
{
    match made_by(alloc, making, &opened.map) {
        Ok(map) => put_made(alloc, opened, map, out),
        Err(_) => MEMORY,
    }
}

/// The same of the map that a handle has.
fn make_by(alloc: Global, making: Making, map: &mut SmapMap, out: &mut SmapMap) -> u32
    ensures made { MakesInto (made_by making) (held_map map.old.owner.value) (held_map out.old.owner.value)
        (held_map out.new.owner.value) result }
    ensures same { map.new.owner.value ≡ map.old.owner.value }
{
    with_open(alloc, map, out, |opened, out| {
        put_made_by(alloc, making, opened, out)
    })
}

/// Makes a map without the mappings that change no lookup's original.
#[unsafe(no_mangle)]
pub extern "C" fn smap_thin(alloc: Global, map: &mut SmapMap, out: &mut SmapMap) -> u32
    ensures made { MakesInto thinned (held_map map.old.owner.value) (held_map out.old.owner.value)
        (held_map out.new.owner.value) result }
    ensures same { map.new.owner.value ≡ map.old.owner.value }
{
    make_by(alloc, Making::Thinned, map, out)
}

/// Makes a map without the sources that no mapping has.
#[unsafe(no_mangle)]
pub extern "C" fn smap_only_used(alloc: Global, map: &mut SmapMap, out: &mut SmapMap) -> u32
    ensures made { MakesInto used (held_map map.old.owner.value) (held_map out.old.owner.value)
        (held_map out.new.owner.value) result }
    ensures same { map.new.owner.value ≡ map.old.owner.value }
{
    make_by(alloc, Making::Used, map, out)
}
