//! The handles of maps, bytes, scripts and builders: structs of the caller's. Each owns what it holds in a
//! box, by a pointer that C carries.
ghost use Rattle.std.specs.Prelude.{◌≡◌, ◌↔◌, Option, Some, None, IfOk, IfSome, IsSome, IsTrue, MatchOption};
ghost use Rattle.std.specs.Box.Ownership.{box_owns};
ghost use Rattle.smap_c.specs.Handles.{held_builder, held_bytes, held_map, held_scripts};
ghost use Rattle.smap_c.specs.Handles.{IsAsked, IsTextAsked};
ghost use Rattle.smap_c.specs.Handles.{is_builder, is_bytes, is_map, is_none_or, is_scripts};
ghost use Rattle.smap_c.specs.declared.handles.Held.{Held};

use crate::maps::Shared;
use crate::opened::Opened;
use smap_c_answers::CLOSED;
use smap_compose::Builder;
use smap_mappings::Memory;
use smap_trace::Scripts;
use std::alloc::{Allocator, Global};
use std::marker::Model;
use std::mem;

/// What a handle holds: a share in a map, bytes, scripts, or a builder, which has far more fields than those.
#[derive(Drop)]
pub enum Held {
    Map(Shared),
    Bytes(Vec<u8>),
    Scripts(Scripts<Shared>),
    Builder(Box<Builder>),
}

impl Held {
    /// The same in a box.
    pub(crate) fn boxed(self, alloc: Global) -> Result<Box<Held>, Memory>
        ensures { IfOk result (λ b. b.value ≡ self) }
    {
        match Box::new(alloc, self) {
            Ok(held) => Ok(held),
            Err(_) => Err(Memory),
        }
    }

    /// The share in a map.
    pub(crate) fn shared(&self) -> &Shared
        requires { IsTrue (is_map self.now) }
        ensures { held_map (Some self.now) ≡ Some result.now.arc.value }
    {
        match self {
            Held::Map(shared) => shared,
            Held::Bytes(_) | Held::Scripts(_) | Held::Builder(_) => unreachable!(),
        }
    }

    /// The map that it has a share in.
    pub(crate) fn opened(&self) -> &Opened
        requires { IsTrue (is_map self.now) }
        ensures { held_map (Some self.now) ≡ Some result.now }
    {
        self.shared().opened()
    }

    /// The bytes.
    pub(crate) fn bytes(&self) -> &Vec<u8>
        requires { IsTrue (is_bytes self.now) }
        ensures { held_bytes (Some self.now) ≡ Some result.now }
    {
        match self {
            Held::Bytes(bytes) => bytes,
            Held::Map(_) | Held::Scripts(_) | Held::Builder(_) => unreachable!(),
        }
    }

    /// The scripts.
    pub(crate) fn scripts(&self) -> &Scripts<Shared>
        requires { IsTrue (is_scripts self.now) }
        ensures { held_scripts (Some self.now) ≡ Some result.now }
    {
        match self {
            Held::Scripts(scripts) => scripts,
            Held::Map(_) | Held::Bytes(_) | Held::Builder(_) => unreachable!(),
        }
    }

    /// The builder.
    pub(crate) fn into_builder(self) -> Builder
        requires { IsTrue (is_builder self) }
        ensures { held_builder (Some self) ≡ Some result }
    {
        match self {
            Held::Builder(builder) => Box::into_inner(builder),
            Held::Map(_) | Held::Bytes(_) | Held::Scripts(_) => unreachable!(),
        }
    }
}

/// A box as its pointer.
pub(crate) struct Loose<T, A: Allocator> {
    pub(crate) at: *mut T,
    pub(crate) alloc: A,
    pub(crate) ghost value: { T },
}

impl<T, A: Allocator> Model for Loose<T, A> {
    ghost also_owns = { λ l. box_owns (A.dealloc_token l.alloc) T.row l.at l.value };
}

impl<T: Drop, A: Allocator> Loose<T, A> {
    pub(crate) fn of(value: Box<T, A>) -> Loose<T, A>
        ensures { result.value ≡ value.value }
    {
        let (at, alloc) = Box::into_raw_with_allocator(value);
        Loose { at, alloc }
    }

    pub(crate) fn into_box(self) -> Box<T, A>
        ensures { result.value ≡ self.value }
    {
        let Loose { at, alloc } = self;
        unsafe { Box::from_raw(alloc, at) }
    }
}

/// Owns one in a box, or nothing, through a pointer that C carries. Dropping it forgets what it owns, so that
/// happens only when it owns nothing.
#[repr(C)]
#[derive(Drop)]
pub struct Owner {
    at: *mut u8,
    alloc: Global,
    pub ghost value: { Option Held },
}

impl Model for Owner {
    ghost use Rattle.smap_c.specs.Owned.{owned};

    ghost also_owns = { λ h. owned h.alloc h.at h.value };
}

unsafe impl Send for Owner {}

impl Owner {
    fn none(alloc: Global) -> Owner
        ensures { result.value ≡ None }
    {
        Owner {
            at: std::ptr::null_mut(),
            alloc,
        }
    }

    fn of(held: Loose<Held, Global>) -> Owner
        ensures { result.value ≡ Some held.value }
    {
        let Loose { at, alloc } = held;
        Owner {
            at: at as *mut u8,
            alloc,
        }
    }

    fn into_loose(self) -> Loose<Held, Global>
        requires { IsSome self.value }
        ensures { Some result.value ≡ self.value }
    {
        let Owner { at, alloc } = self;
        Loose {
            at: at as *mut Held,
            alloc,
        }
    }

    /// What it owns; `is_open` says whether it owns something.
    fn into_box(self, is_open: bool) -> Option<Box<Held>>
        requires { IsTrue is_open ↔ IsSome self.value }
        ensures { MatchOption result (self.value ≡ None) (λ b. self.value ≡ Some b.value) }
    {
        if is_open {
            Some(self.into_loose().into_box())
        } else {
            None
        }
    }
}

/// The handle of a map. C makes one by zeros, which is closed, and never writes into it nor copies it.
#[repr(C)]
pub struct SmapMap {
    is_open: bool,
    pub owner: Owner,
    ghost tied: { IsTrue is_open ↔ IsSome owner.value },
    ghost kind: { IsTrue (is_none_or is_map owner.value) },
}

impl Drop for SmapMap {
    fn drop(self) {
        drop(self.into_box());
    }
}

impl SmapMap {
    /// The handle that is closed.
    pub(crate) fn closed(alloc: Global) -> SmapMap
        ensures { result.owner.value ≡ None }
    {
        SmapMap {
            is_open: false,
            owner: Owner::none(alloc),
        }
    }

    /// The handle that owns this.
    pub(crate) fn of(held: Box<Held>) -> SmapMap
        requires { IsTrue (is_map held.value) }
        ensures { result.owner.value ≡ Some held.value }
    {
        SmapMap {
            is_open: true,
            owner: Owner::of(Loose::of(held)),
        }
    }

    /// What it owns.
    pub(crate) fn into_box(self) -> Option<Box<Held>>
        ensures value { MatchOption result (self.owner.value ≡ None) (λ b. self.owner.value ≡ Some b.value) }
        ensures kind { IfSome result (λ b. IsTrue (is_map b.value)) }
    {
        let SmapMap { is_open, owner } = self;
        owner.into_box(is_open)
    }
}

/// The handle of bytes. C makes one by zeros, which is closed, and never writes into it nor copies it.
#[repr(C)]
pub struct SmapBytes {
    is_open: bool,
    pub owner: Owner,
    ghost tied: { IsTrue is_open ↔ IsSome owner.value },
    ghost kind: { IsTrue (is_none_or is_bytes owner.value) },
}

impl Drop for SmapBytes {
    fn drop(self) {
        drop(self.into_box());
    }
}

impl SmapBytes {
    /// The handle that is closed.
    pub(crate) fn closed(alloc: Global) -> SmapBytes
        ensures { result.owner.value ≡ None }
    {
        SmapBytes {
            is_open: false,
            owner: Owner::none(alloc),
        }
    }

    /// The handle that owns this.
    pub(crate) fn of(held: Box<Held>) -> SmapBytes
        requires { IsTrue (is_bytes held.value) }
        ensures { result.owner.value ≡ Some held.value }
    {
        SmapBytes {
            is_open: true,
            owner: Owner::of(Loose::of(held)),
        }
    }

    /// What it owns.
    pub(crate) fn into_box(self) -> Option<Box<Held>>
        ensures value { MatchOption result (self.owner.value ≡ None) (λ b. self.owner.value ≡ Some b.value) }
        ensures kind { IfSome result (λ b. IsTrue (is_bytes b.value)) }
    {
        let SmapBytes { is_open, owner } = self;
        owner.into_box(is_open)
    }
}

/// The handle of scripts. C makes one by zeros, which is closed, and never writes into it nor copies it.
#[repr(C)]
pub struct SmapScripts {
    is_open: bool,
    pub owner: Owner,
    ghost tied: { IsTrue is_open ↔ IsSome owner.value },
    ghost kind: { IsTrue (is_none_or is_scripts owner.value) },
}

impl Drop for SmapScripts {
    fn drop(self) {
        drop(self.into_box());
    }
}

impl SmapScripts {
    /// The handle that is closed.
    pub(crate) fn closed(alloc: Global) -> SmapScripts
        ensures { result.owner.value ≡ None }
    {
        SmapScripts {
            is_open: false,
            owner: Owner::none(alloc),
        }
    }

    /// The handle that owns this.
    pub(crate) fn of(held: Box<Held>) -> SmapScripts
        requires { IsTrue (is_scripts held.value) }
        ensures { result.owner.value ≡ Some held.value }
    {
        SmapScripts {
            is_open: true,
            owner: Owner::of(Loose::of(held)),
        }
    }

    /// What it owns.
    pub(crate) fn into_box(self) -> Option<Box<Held>>
        ensures value { MatchOption result (self.owner.value ≡ None) (λ b. self.owner.value ≡ Some b.value) }
        ensures kind { IfSome result (λ b. IsTrue (is_scripts b.value)) }
    {
        let SmapScripts { is_open, owner } = self;
        owner.into_box(is_open)
    }
}

/// The handle of a builder. C makes one by zeros, which is closed, and never writes into it nor copies it.
#[repr(C)]
pub struct SmapBuilder {
    is_open: bool,
    pub owner: Owner,
    ghost tied: { IsTrue is_open ↔ IsSome owner.value },
    ghost kind: { IsTrue (is_none_or is_builder owner.value) },
}

impl Drop for SmapBuilder {
    fn drop(self) {
        drop(self.into_box());
    }
}

impl SmapBuilder {
    /// The handle that is closed.
    pub(crate) fn closed(alloc: Global) -> SmapBuilder
        ensures { result.owner.value ≡ None }
    {
        SmapBuilder {
            is_open: false,
            owner: Owner::none(alloc),
        }
    }

    /// The handle that owns this.
    pub(crate) fn of(held: Box<Held>) -> SmapBuilder
        requires { IsTrue (is_builder held.value) }
        ensures { result.owner.value ≡ Some held.value }
    {
        SmapBuilder {
            is_open: true,
            owner: Owner::of(Loose::of(held)),
        }
    }

    /// What it owns.
    pub(crate) fn into_box(self) -> Option<Box<Held>>
        ensures value { MatchOption result (self.owner.value ≡ None) (λ b. self.owner.value ≡ Some b.value) }
        ensures kind { IfSome result (λ b. IsTrue (is_builder b.value)) }
    {
        let SmapBuilder { is_open, owner } = self;
        owner.into_box(is_open)
    }
}

/// What is asked of an open map, which stays as it is: the code of the answer, or that it is closed.
pub(crate) fn with_open<O, F: FnOnce(&Opened, &mut O) -> u32>(
    alloc: Global,
    map: &mut SmapMap,
    out: &mut O,
    ask: F,
) -> u32
    requires { F.IsAlwaysCallable ask }
    ensures asked { IsAsked F.FnOnce ask (held_map map.old.owner.value) out.old out.new result }
    ensures same { map.new.owner.value ≡ map.old.owner.value }
{
    match mem::replace(map, SmapMap::closed(alloc)).into_box() {
        None => CLOSED,
        Some(held) => {
            let code = ask(held.opened(), out);
            *map = SmapMap::of(held);
            code
        }
    }
}

/// The same of what copies a text out.
pub(crate) fn with_text<F: FnOnce(&Opened, &mut [u8], &mut usize) -> u32>(
    alloc: Global,
    map: &mut SmapMap,
    out: &mut [u8],
    len: &mut usize,
    ask: F,
) -> u32
    requires { F.IsAlwaysCallable ask }
    ensures asked { IsTextAsked F.FnOnce ask (held_map map.old.owner.value) out.old out.new len.new result }
    ensures same { map.new.owner.value ≡ map.old.owner.value }
{
    match mem::replace(map, SmapMap::closed(alloc)).into_box() {
        None => {
            *len = 0;
            CLOSED
        }
        Some(held) => {
            let code = ask(held.opened(), out, len);
            *map = SmapMap::of(held);
            code
        }
    }
}
