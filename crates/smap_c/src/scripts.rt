//! Scripts, each a URL and a map, and the translation of a whole trace by them.
ghost use Rattle.std.specs.Prelude.{◌≡◌, [], Some, None, IfOk, IsTrue, OnOk, OnErr, option_map};
ghost use Rattle.smap_record.specs.Record.{record_of};
ghost use Rattle.smap_trace.specs.Giving.{Give, no_counts};
ghost use Rattle.smap_trace.specs.Scripts.{with_script};
ghost use Rattle.smap_trace.specs.Translation.{lines_of};
ghost use Rattle.smap_c.specs.Scripts.{Adds, AddsScript, IsTranslation, reported_counts, reported_trace};
ghost use Rattle.smap_c.specs.Scripts.{TranslatesInto, TranslatesBy};
ghost use Rattle.smap_c.specs.Handles.{held_bytes, held_map, held_scripts, is_scripts};
ghost use Rattle.smap_c.specs.Traces.{MayBeNamed, fates, names};

use crate::handles::{Held, SmapBytes, SmapMap, SmapScripts};
use crate::maps::Shared;
use crate::traces::{hides, mode_in, names};
use smap_c_answers::{CLOSED, MEMORY, NOT_URL, OK};
use smap_io::Device;
use smap_mappings::Memory;
use smap_trace::{Counts, Scripts, translate_in, translate_named_in};
use std::alloc::Global;
use std::{mem, str};

/// How many lines a trace has, and how many of them are translated and dropped.
#[repr(C)]
#[derive(Clone, Copy)]
pub struct SmapTraceCounts {
    pub lines: u64,
    pub translated: u64,
    pub dropped: u64,
}

/// The scripts of a handle that had none.
fn first(alloc: Global, url: Vec<u8>, shared: Shared) -> Result<Box<Held>, Memory>
    ensures value { IfOk result (λ b. held_scripts (Some b.value)
        ≡ Some (with_script url.items (record_of shared.arc.value.map) [])) }
    ensures kind { IfOk result (λ b. IsTrue (is_scripts b.value)) }
{
    let mut scripts = Scripts::new(alloc);
    scripts.put(url, shared)?;
    Held::Scripts(scripts).boxed(alloc)
}

/// Puts a script among those that are held, in place of one of the same URL.
fn put(held: &mut Held, url: Vec<u8>, shared: Shared) -> Result<(), Memory>
    requires { IsTrue (is_scripts held.old) }
    ensures kind { IsTrue (is_scripts held.new) }
    ensures ok { OnOk result (held_scripts (Some held.new)
        ≡ option_map (with_script url.items (record_of shared.arc.value.map))
        (held_scripts (Some held.old))) }
    ensures err { OnErr result (held.new ≡ held.old) }
{
    match held {
        Held::Scripts(scripts) => scripts.put(url, shared),
        Held::Map(_) | Held::Bytes(_) | Held::Builder(_) => unreachable!(),
    }
}

/// Puts a script among those of the handle, in place of one of the same URL.
fn add(alloc: Global, scripts: &mut SmapScripts, url: Vec<u8>, shared: Shared) -> u32
    ensures { Adds url.items (record_of shared.arc.value.map)
        (held_scripts scripts.old.owner.value) (held_scripts scripts.new.owner.value) result }
{
    let Some(mut held) = mem::replace(scripts, SmapScripts::closed(alloc)).into_box() else {
        let Ok(held) = first(alloc, url, shared) else {
            return MEMORY;
        };
        *scripts = SmapScripts::of(held);
        return OK;
    };
    let answer = put(&mut held, url, shared);
    *scripts = SmapScripts::of(held);
    match answer {
        Ok(_) => OK,
        Err(_) => MEMORY,
    }
}

/// Adds a script.
#[unsafe(no_mangle)]
pub extern "C" fn smap_add_script(
    alloc: Global,
    scripts: &mut SmapScripts,
    url: &[u8],
    map: &mut SmapMap,
) -> u32
    ensures added { AddsScript url.now (held_map map.old.owner.value) (held_scripts scripts.old.owner.value)
        (held_scripts scripts.new.owner.value) result }
    ensures same { map.new.owner.value ≡ map.old.owner.value }
{
    if str::from_utf8(url).is_err() {
        return NOT_URL;
    }
    let Some(it) = mem::replace(map, SmapMap::closed(alloc)).into_box() else {
        return CLOSED;
    };
    let part = it.shared().part();
    *map = SmapMap::of(it);
    let Ok(shared) = part else {
        return MEMORY;
    };
    match Vec::from_slice(alloc, url) {
        Ok(url) => add(alloc, scripts, url, shared),
        Err(_) => MEMORY,
    }
}

/// Frees scripts. A handle that is closed stays so.
#[unsafe(no_mangle)]
pub extern "C" fn smap_close_scripts(alloc: Global, scripts: &mut SmapScripts)
    ensures { scripts.new.owner.value ≡ None }
{
    *scripts = SmapScripts::closed(alloc);
}

fn reported_counts(counts: Counts) -> SmapTraceCounts
    ensures { result ≡ reported_counts counts }
{
    SmapTraceCounts {
        lines: counts.lines,
        translated: counts.translated,
        dropped: counts.dropped,
    }
}

/// The translation of a trace, and its counts.
fn translated(
    alloc: Global,
    scripts: &Scripts<Shared>,
    trace: &[u8],
    how: u8,
) -> Result<(Vec<u8>, Counts), Memory>
    ensures { IfOk result (λ reported. (reported.0.items, reported.1)
        ≡ reported_trace (fates how scripts.now) trace.now) }
{
    let mut reader = Device::new(trace);
    let mut writer = Device::new(Vec::new(alloc));
    match translate_in(
        alloc,
        &mut reader,
        scripts,
        mode_in(how),
        hides(how),
        &mut writer,
    ) {
        Ok(counts) => Ok((writer.into_inner(), counts)),
        Err(_) => Err(Memory),
    }
}

/// The same with the names of functions.
fn translated_named(
    alloc: Global,
    scripts: &Scripts<Shared>,
    trace: &[u8],
    how: u8,
) -> Result<(Vec<u8>, Counts), Memory>
    ensures { IfOk result (λ told. Give (MayBeNamed how scripts.now) (lines_of trace.now) told.0.items
        no_counts told.1) }
{
    let mut reader = Device::new(trace);
    let mut writer = Device::new(Vec::new(alloc));
    match translate_named_in(
        alloc,
        &mut reader,
        scripts,
        mode_in(how),
        hides(how),
        &mut writer,
    ) {
        Ok(counts) => Ok((writer.into_inner(), counts)),
        Err(_) => Err(Memory),
    }
}

/// The translation of a trace as it is asked for, and its counts.
fn translation(
    alloc: Global,
    scripts: &Scripts<Shared>,
    trace: &[u8],
    how: u8,
) -> Result<(Vec<u8>, Counts), Memory>
    ensures { IfOk result (λ told. IsTranslation (names how) how scripts.now trace.now
        (told.0.items, told.1)) }
{
    if names(how) {
        translated_named(alloc, scripts, trace, how)
    } else {
        translated(alloc, scripts, trace, how)
    }
}

/// Puts the translation into a handle.
fn translate_into(
    alloc: Global,
    scripts: &Scripts<Shared>,
    trace: &[u8],
    how: u8,
    out: &mut SmapBytes,
    counts: &mut SmapTraceCounts,
) -> u32
    ensures { TranslatesInto scripts.now trace.now how
        (held_bytes out.old.owner.value) (held_bytes out.new.owner.value) counts.old counts.new result }
{
    let Ok((bytes, reported)) = translation(alloc, scripts, trace, how) else {
        return MEMORY;
    };
    let Ok(held) = Held::Bytes(bytes).boxed(alloc) else {
        return MEMORY;
    };
    *out = SmapBytes::of(held);
    *counts = reported_counts(reported);
    OK
}

/// The translation of a trace by scripts.
#[unsafe(no_mangle)]
pub extern "C" fn smap_translate(
    alloc: Global,
    scripts: &mut SmapScripts,
    trace: &[u8],
    how: u8,
    out: &mut SmapBytes,
    counts: &mut SmapTraceCounts,
) -> u32
    ensures reported { TranslatesBy (held_scripts scripts.old.owner.value) trace.now how
        (held_bytes out.old.owner.value) (held_bytes out.new.owner.value) counts.old counts.new result }
    ensures same { scripts.new.owner.value ≡ scripts.old.owner.value }
{
    match mem::replace(scripts, SmapScripts::closed(alloc)).into_box() {
        None => CLOSED,
        Some(held) => {
            let code = translate_into(alloc, held.scripts(), trace, how, out, counts);
            *scripts = SmapScripts::of(held);
            code
        }
    }
}
