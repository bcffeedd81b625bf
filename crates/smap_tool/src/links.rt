//! Reading a chain of maps: entries as those of a bundle, the outer map first, and then the line `end`.
ghost use Rattle.std.specs.Prelude.{◌≡◌, ℕ, ◌-◌, ◌^◌, ◌<◌, IfOk, IfErr, MatchOption, None, Some, Ok, Err};
ghost use Rattle.std.specs.Prelude.{length, min, option_map};
ghost use Rattle.smap_compose.specs.Chain.{links_of};
ghost use Rattle.smap_record.specs.Reading.{reading};
ghost use Rattle.smap_record.specs.Record.{usual};
ghost use Rattle.smap_tool.specs.Bundle.{map_in as map_found};
ghost use Rattle.smap_tool.specs.Header.{header_in as header_found};
ghost use Rattle.smap_tool.specs.Links.{IsFirst, base_url, chain_in, chain_of, entry_in as entry_found};
ghost use Rattle.smap_tool.specs.Links.{entry_of, links_from, map_read};
ghost use Rattle.url.specs.Parser.{parse_url};

use crate::fault::{EntryFault, Refusal};
use crate::header::{Header, parse_header};
use memchr::memchr;
use smap_record::{Base, BaseFault, Limits, ReadError, SourceMap};
use std::alloc::Global;

/// An entry of a chain, and what follows it.
#[derive(Drop)]
struct LinkEntry<'a> {
    script: &'a str,
    base: Base,
    map: SourceMap,
    rest: &'a [u8],
}

/// A chain: the outer map with its base, and the links behind it.
#[derive(Drop)]
pub(crate) struct Chain<'a> {
    pub(crate) base: Base,
    pub(crate) outer: SourceMap,
    pub(crate) links: Vec<(&'a str, SourceMap)>,
}

/// Why a chain wasn't read.
#[derive(Drop)]
pub(crate) enum ChainFault {
    /// An entry has this fault, and none before it has one.
    Refused(Refusal),
    /// Out of memory.
    Memory,
}

/// An entry is refused for this fault.
fn refused(entry: usize, fault: EntryFault) -> ChainFault
    ensures { result ≡ ChainFault.Refused (record { entry = entry; fault = fault }) }
{
    ChainFault::Refused(Refusal { entry, fault })
}

/// The header with which a text begins, and what follows its line.
fn header_in(text: &[u8]) -> Option<(Header<'_>, &[u8])>
    ensures { MatchOption result (header_found text.now ≡ None) (λ h. (n : ℕ)
        × (header_found text.now
        ≡ Some (record { script = h.0.script.now; base = h.0.base.now; bytes = n }, h.1.now))
        × (h.0.length ≡ min n (2 ^ 64 - 1)) × (length h.1.now < length text.now)) }
{
    let Some(feed) = memchr(b'\n', text) else {
        return None;
    };
    let Some(header) = parse_header(&text[..feed + 1]) else {
        return None;
    };
    Some((header, &text[feed + 1..]))
}

/// The bytes of a map, and what follows the line feed behind them.
fn map_in(text: &[u8], len: u64) -> Option<(&[u8], &[u8])>
    ensures { (n : ℕ) → len ≡ min n (2 ^ 64 - 1)
        → option_map (λ p. (p.0.now, p.1.now)) result ≡ map_found n text.now }
{
    if len >= text.len() as u64 {
        return None;
    }
    let len = len as usize;
    if text[len] != b'\n' {
        return None;
    }
    Some((&text[..len], &text[len + 1..]))
}

/// The base of an entry.
fn base_of(alloc: Global, entry: usize, base: &str) -> Result<Base, ChainFault>
    ensures base { IfOk result (λ url. base_url entry (parse_url None base.now) ≡ Ok url) }
    ensures refused { IfErr result (IsFirst (base_url entry (parse_url None base.now))) }
{
    match Base::new(alloc, base) {
        Ok(base) => Ok(base),
        Err(BaseFault::NotUrl) => Err(refused(entry, EntryFault::Base)),
        Err(BaseFault::Memory) => Err(ChainFault::Memory),
    }
}

/// The map of an entry.
fn map_of(alloc: Global, entry: usize, base: &Base, bytes: &[u8]) -> Result<SourceMap, ChainFault>
    ensures map { IfOk result (λ m. map_read entry (reading base.now usual bytes.now) ≡ Ok m) }
    ensures refused { IfErr result (IsFirst (map_read entry (reading base.now usual bytes.now))) }
{
    match SourceMap::from_slice(alloc, bytes, base, Limits::usual()) {
        Ok(map) => Ok(map),
        Err(ReadError::Refused(fault)) => Err(refused(entry, EntryFault::Map(fault))),
        Err(ReadError::Memory) => Err(ChainFault::Memory),
    }
}

/// The entry with which a text begins.
fn entry_in<'a>(alloc: Global, entry: usize, text: &'a [u8]) -> Result<LinkEntry<'a>, ChainFault>
    ensures entry { IfOk result (λ e. entry_found entry text.now ≡ Ok (entry_of e)) }
    ensures shorter { IfOk result (λ e. length e.rest.now < length text.now) }
    ensures refused { IfErr result (IsFirst (entry_found entry text.now)) }
{
    let Some((header, text)) = header_in(text) else {
        return Err(refused(entry, EntryFault::Header));
    };
    let base = match base_of(alloc, entry, header.base) {
        Ok(base) => base,
        Err(fault) => return Err(fault),
    };
    let Some((bytes, rest)) = map_in(text, header.length) else {
        return Err(refused(entry, EntryFault::CutOff));
    };
    match map_of(alloc, entry, &base, bytes) {
        Ok(map) => Ok(LinkEntry {
            script: header.script,
            base,
            map,
            rest,
        }),
        Err(fault) => Err(fault),
    }
}

/// The links behind the outer map, up to the line `end`.
fn links_in<'a>(alloc: Global, text: &'a [u8]) -> Result<Vec<(&'a str, SourceMap)>, ChainFault>
    ensures links { IfOk result (λ ls.
        links_from (length text.now) 1 text.now ≡ Ok (links_of ls.items)) }
    ensures refused { IfErr result (IsFirst (links_from (length text.now) 1 text.now)) }
{
    let mut links = Vec::new(alloc);
    let mut rest = text;
    while rest != b"end\n".as_slice() {
        let entry = match entry_in(alloc, links.len() + 1, rest) {
            Ok(entry) => entry,
            Err(fault) => return Err(fault),
        };
        let Ok(()) = links.push((entry.script, entry.map)) else {
            return Err(ChainFault::Memory);
        };
        rest = entry.rest;
    }
    Ok(links)
}

/// The chain that an input holds, none if it has no entry.
pub(crate) fn read_chain<'a>(
    alloc: Global,
    input: &'a [u8],
) -> Result<Option<Chain<'a>>, ChainFault>
    ensures chain { IfOk result (λ c. chain_in input.now ≡ Ok (option_map chain_of c)) }
    ensures refused { IfErr result (IsFirst (chain_in input.now)) }
{
    if input == b"end\n".as_slice() {
        return Ok(None);
    }
    let first = match entry_in(alloc, 0, input) {
        Ok(first) => first,
        Err(fault) => return Err(fault),
    };
    match links_in(alloc, first.rest) {
        Ok(links) => Ok(Some(Chain {
            base: first.base,
            outer: first.map,
            links,
        })),
        Err(fault) => Err(fault),
    }
}
