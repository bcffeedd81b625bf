//! A text that is read, and where it is refused, repaired and read again.
ghost use Rattle.std.specs.Prelude.{◌≡◌, IfOk, ℕ, List, IfSome, Err};
ghost use Rattle.std.specs.Bool.{OnTrue};
ghost use Rattle.std.specs.List.{list_all};
ghost use Rattle.smap_record.specs.Results.{Returns};
ghost use Rattle.smap_record.specs.UrlBytes.{reading_within};
ghost use Rattle.smap_repair.specs.Leading.{Leads};
ghost use Rattle.smap_repair.specs.Repairing.{IsRepaired, IsState};
ghost use Rattle.smap_repair.specs.Members.{AreOfText, IsMendedIn, KeepsMembers, KeepsOthers, KeepsRest};
ghost use Rattle.smap_repair.specs.Members.{is_of_text};
ghost use Rattle.smap_repair.specs.Unmarking.{IsMarkedOnly, LosesMark};

use crate::edits::{edits_of_halves, edits_of_maps};
use crate::mark::without_mark;
use crate::members::keeps_members;
use crate::mending::{Mended, with_edits};
use crate::repair::{Change, Repair};
use smap_record::{Base, Fault, Limits, ReadError, SourceMap, map_tree};
use std::alloc::{AllocError, Global};

/// What becomes of a map's text that is repaired.
#[derive(Drop)]
pub enum Repaired {
    /// The text is read as it is, and stays so.
    Sound,
    /// The text was refused, and is read now.
    Mended {
        /// The mended text.
        text: Vec<u8>,
        /// What was done, in order.
        repairs: Vec<Repair>,
    },
    /// The text is refused, and stays as it is.
    Refused {
        /// Its first fault.
        fault: Fault,
        /// The first fault that the repairs leave; none where there is nothing to repair.
        left: Option<Fault>,
    },
    /// The URLs of its sources take more bytes than they may, as it is or once it is repaired.
    LongUrls,
}

/// What a text is.
#[derive(Drop)]
enum State {
    Sound,
    LongUrls,
    Faulty(Fault),
}

/// How a text is read, before it is repaired and after.
#[derive(Drop)]
struct Reading<'a> {
    alloc: Global,
    base: &'a Base,
    limits: Limits,
    /// How many bytes the URLs of its sources may take.
    url_bytes: usize,
}

/// Whether all are repairs by which a text becomes JSON, and none of a member.
fn are_of_text(repairs: &[Repair]) -> bool
    ensures { result ≡ list_all (λ r. is_of_text r.change) repairs.now }
{
    repairs.iter().all(|repair| matches!(
        repair.change,
        Change::ByteOrderMark | Change::HalfSurrogate
    ))
}

/// A text, with escapes of half a surrogate pair repaired as well.
fn halves_mended(alloc: Global, mended: Mended) -> Result<Option<Mended>, AllocError>
    ensures of_text { IfOk result (λ o. IfSome o (λ m. AreOfText m.repairs.items)) }
    ensures leads { IfOk result (λ o. IfSome o (λ m. (old : List ℕ)
        → Leads mended.repairs.items old mended.text.items → Leads m.repairs.items old m.text.items)) }
{
    let Mended { text, repairs } = mended;
    let edits = edits_of_halves(alloc, &text)?;
    match with_edits(alloc, &text, repairs, edits)? {
        Some(mended) if are_of_text(&mended.repairs) => Ok(Some(mended)),
        _ => Ok(None),
    }
}

/// Whether a map that becomes another text keeps the members that no repair changes.
fn keeps(alloc: Global, old: &[u8], new: &[u8]) -> Result<bool, AllocError>
    ensures { IfOk result (λ keeps. OnTrue keeps (KeepsMembers old.now new.now)) }
{
    let (Ok(before), Ok(after)) = (map_tree(alloc, old), map_tree(alloc, new)) else {
        return Ok(false);
    };
    keeps_members(alloc, &before, &after)
}

/// A text, with what its maps have to be repaired repaired as well; none if nothing was to be repaired.
fn maps_mended(alloc: Global, mended: Mended, base: &Base) -> Result<Option<Mended>, AllocError>
    ensures keeps { IfOk result (λ o. IfSome o (λ m. KeepsRest mended.text.items m.text.items)) }
    ensures leads { IfOk result (λ o. IfSome o (λ m. (old : List ℕ)
        → Leads mended.repairs.items old mended.text.items → Leads m.repairs.items old m.text.items)) }
{
    let Mended { text, repairs } = mended;
    let edits = edits_of_maps(alloc, &text, base)?;
    if edits.is_empty() {
        if repairs.is_empty() {
            return Ok(None);
        }
        return Ok(Some(Mended { text, repairs }));
    }
    let Some(mended) = with_edits(alloc, &text, repairs, edits)? else {
        return Ok(None);
    };
    if keeps(alloc, &text, &mended.text)? {
        Ok(Some(mended))
    } else {
        Ok(None)
    }
}

/// A text, with what the list has for it repaired as well; none if nothing was to be repaired.
fn further_mended(alloc: Global, mended: Mended, base: &Base) -> Result<Option<Mended>, AllocError>
    ensures members { IfOk result (λ o. IfSome o (λ m. (old : List ℕ)
        → Leads mended.repairs.items old mended.text.items → IsMendedIn old m.text.items)) }
    ensures leads { IfOk result (λ o. IfSome o (λ m. (old : List ℕ)
        → Leads mended.repairs.items old mended.text.items → Leads m.repairs.items old m.text.items)) }
{
    let Some(mended) = halves_mended(alloc, mended)? else {
        return Ok(None);
    };
    match maps_mended(alloc, mended, base)? {
        Some(mended) => Ok(Some(mended)),
        None => Ok(None),
    }
}

impl Reading<'_> {
    /// The map that a text is; none where the URLs of its sources take more bytes.
    fn map_of(&self, text: &[u8]) -> Result<Option<SourceMap>, ReadError>
        ensures { Returns (λ o. o) result
            (reading_within self.now.base.now self.now.limits self.now.url_bytes text.now) }
    {
        let (alloc, base, limits) = (self.alloc, self.base, self.limits);
        match SourceMap::from_slice_within(alloc, text, base, limits, self.url_bytes)? {
            Some((map, _)) => Ok(Some(map)),
            None => Ok(None),
        }
    }

    /// What a text is.
    fn state_of(&self, text: &[u8]) -> Result<State, AllocError>
        ensures { IfOk result
            (IsState (reading_within self.now.base.now self.now.limits self.now.url_bytes text.now)) }
    {
        match self.map_of(text) {
            Ok(Some(_)) => Ok(State::Sound),
            Ok(None) => Ok(State::LongUrls),
            Err(ReadError::Refused(fault)) => Ok(State::Faulty(fault)),
            Err(ReadError::Memory) => Err(AllocError),
        }
    }

    /// What becomes of a text with this first fault that is repaired so far.
    fn repaired_further(&self, fault: Fault, mended: Mended) -> Result<Repaired, AllocError>
        ensures members { IfOk result (λ a. (old : List ℕ)
            → Leads mended.repairs.items old mended.text.items → KeepsOthers old a) }
        ensures answer { IfOk result (λ a. (old : List ℕ)
            → reading_within self.now.base.now self.now.limits self.now.url_bytes old ≡ Err fault
            → Leads mended.repairs.items old mended.text.items
            → IsRepaired self.now.base.now self.now.limits self.now.url_bytes old a) }
    {
        let Some(Mended { text, repairs }) = further_mended(self.alloc, mended, self.base)? else {
            return Ok(Repaired::Refused { fault, left: None });
        };
        match self.state_of(&text)? {
            State::Sound => Ok(Repaired::Mended { text, repairs }),
            State::LongUrls => Ok(Repaired::LongUrls),
            State::Faulty(left) => Ok(Repaired::Refused {
                fault,
                left: Some(left),
            }),
        }
    }
}

/// Repairs the text of a map, if it is refused as it is and the closed list of repairs suffices.
///
/// `base` and `limits` are those with which the map is read, before and after, and `url_bytes` is how many
/// bytes the URLs of its sources may take ([`SourceMap::from_slice_within`]). The text is looked through a
/// few times, whatever the number of repairs, and read twice, or three times if it begins with a byte order
/// mark: where that alone keeps it from being read, it is all that is removed. A map that needs anything else
/// besides stays refused, and so does one that needs more than 65,536 repairs. All members but `version`,
/// `mappings`, `sourceRoot` and `sources` stay, in maps of sections too. Which section and which index a
/// repair is told with is tested, and not promised.
///
/// # Errors
///
/// `AllocError`, also for a URL of 4 GiB or more.
pub fn repair_text(
    alloc: Global,
    text: &[u8],
    base: &Base,
    limits: Limits,
    url_bytes: usize,
) -> Result<Repaired, AllocError>
    ensures answer { IfOk result (IsRepaired base.now limits url_bytes text.now) }
    ensures mark { IfOk result (λ a. IsMarkedOnly base.now limits url_bytes text.now → LosesMark text.now a) }
{
    let reading = Reading {
        alloc,
        base,
        limits,
        url_bytes,
    };
    let fault = match reading.state_of(text)? {
        State::Sound => return Ok(Repaired::Sound),
        State::LongUrls => return Ok(Repaired::LongUrls),
        State::Faulty(fault) => fault,
    };
    let mended = without_mark(alloc, text)?;
    if mended.repairs.is_empty() {
        return reading.repaired_further(fault, mended);
    }
    match reading.state_of(&mended.text)? {
        State::Sound => Ok(Repaired::Mended {
            text: mended.text,
            repairs: mended.repairs,
        }),
        State::LongUrls => Ok(Repaired::LongUrls),
        State::Faulty(_) => reading.repaired_further(fault, mended),
    }
}
