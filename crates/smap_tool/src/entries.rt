//! Reading the entries of a bundle.
ghost use Rattle.std.specs.Prelude.{◌≡◌, ◌≢◌, ℕ, List, ◌-◌, ◌^◌, ◌<◌, ◌≤◌, ◌++◌, ◌∷◌, [], IfOk, IfErr};
ghost use Rattle.std.specs.Prelude.{MatchResult, OnOk, Err, None, false, length, min, true};
ghost use Rattle.smap_io.specs.Calls.{MakesAtMost, SpendsCalls, StopsInTime};
ghost use Rattle.smap_io.specs.Device.{device_failures, has_ended, has_gone_on, is_over};
ghost use Rattle.smap_io.specs.Limits.{longest_input, most_calls};
ghost use Rattle.smap_io.specs.Reading.{Gave};
ghost use Rattle.smap_record.specs.Reading.{reading};
ghost use Rattle.smap_record.specs.Record.{record_of};
ghost use Rattle.smap_record.specs.declared.fault.Fault.{Fault};
ghost use Rattle.smap_tool.specs.Bundle as spec;
ghost use Rattle.smap_tool.specs.Bundle.{usual};
ghost use Rattle.smap_tool.specs.Entries.{IsFaultAt, IsNew, TakesEntries, TakesEntry, TakesMap, UsesCalls};
ghost use Rattle.smap_tool.specs.Entries.{cut_off, refusal};
ghost use Rattle.smap_tool.specs.Header.{trace_line};
ghost use Rattle.smap_tool.specs.Reach.{IsWithinEntry, IsWithinMap, ReadsNoMore};
ghost use Rattle.smap_tool.specs.Reading.{IsLine};
ghost use Rattle.smap_tool.specs.Stopping as stopping;
ghost use Rattle.smap_tool.specs.Stopping.{Says, Stops};
ghost use Rattle.url.specs.Parser.{parse_url};

use crate::bundle::Bundle;
use crate::fault::{BundleFault, EntryFault, Refusal};
use crate::header::{Header, LONGEST_HEADER, parse_header};
use smap_io::{Device, LIMIT, MOST_CALLS, ReadFault, read_line, read_up_to};
use smap_record::{Base, BaseFault, Limits, ReadError, SourceMap};
use smap_trace::{Maps, Scripts};
use std::alloc::Global;
use std::io::Read;

/// An entry is refused for this fault.
fn refused(entry: usize, fault: EntryFault) -> BundleFault
    ensures { Says (λ found. found ≡ refusal entry fault) result }
{
    BundleFault::Refused(Refusal { entry, fault })
}

/// The answer to a fault of reading.
fn unread(fault: ReadFault) -> BundleFault
    ensures { result ≡ stopping.unread fault }
{
    match fault {
        ReadFault::Failed | ReadFault::Spent => BundleFault::Read,
        ReadFault::Memory => BundleFault::Memory,
    }
}

/// Whether a script with this URL was read.
fn has_script(scripts: &Scripts<SourceMap>, script: &str) -> bool
    ensures { result ≡ spec.has_script scripts.now script.now }
{
    scripts.map_of(script.as_bytes()).is_some()
}

/// The base of the next entry, once its length and its script are checked.
fn base_of(
    alloc: Global,
    header: &Header<'_>,
    scripts: &Scripts<SourceMap>,
) -> Result<Base, BundleFault>
    ensures fits { OnOk result (header.now.length ≤ longest_input) }
    ensures new { OnOk result (IsNew scripts.now header.now.script.now) }
    ensures base { IfOk result (λ base. parse_url None header.now.base.now ≡ Ok base) }
    ensures stops { (n : ℕ) (more : List ℕ) → header.now.length ≡ min n (2 ^ 64 - 1)
        → IfErr result (Says (λ found. spec.entry_with scripts.now
        (record { script = header.now.script.now; base = header.now.base.now; bytes = n }) more
        ≡ Err found)) }
{
    if header.length > LIMIT as u64 {
        return Err(BundleFault::TooLong);
    }
    if has_script(scripts, header.script) {
        return Err(refused(scripts.len(), EntryFault::Repeated));
    }
    match Base::new(alloc, header.base) {
        Ok(base) => Ok(base),
        Err(BaseFault::NotUrl) => Err(refused(scripts.len(), EntryFault::Base)),
        Err(BaseFault::Memory) => Err(BundleFault::Memory),
    }
}

/// The bytes of the next entry's map. The line feed after them is read too.
fn bytes_of<R: Read>(
    alloc: Global,
    reader: &mut Device<R>,
    calls: &mut u64,
    entry: usize,
    len: usize,
) -> Result<Vec<u8>, BundleFault>
    requires failures { device_failures reader.old < 2 ^ 64 - 1 }
    requires not_ended { has_ended reader.old ≡ false }
    requires small { len ≤ longest_input }
    ensures len { IfOk result (λ bytes. length bytes.items ≡ len) }
    ensures gave { IfOk result (λ bytes. Gave R.remaining reader.old reader.new (bytes.items ++ 10 ∷ [])) }
    ensures failures { OnOk result (device_failures reader.new ≡ device_failures reader.old) }
    ensures not_ended { OnOk result (has_ended reader.new ≡ false) }
    ensures calls { IfOk result (λ bytes. UsesCalls calls.old calls.new (bytes.items ++ 10 ∷ [])) }
    ensures stops { IfErr result (Stops R.remaining reader.old reader.new calls.old (cut_off entry len)
        (IsWithinMap len)) }
    ensures in_time { StopsInTime reader.old reader.new }
    ensures spends { SpendsCalls reader.old reader.new calls.old calls.new }
    ensures still { OnOk result (is_over reader.new ≡ is_over reader.old) }
{
    let mut bytes = match read_up_to(alloc, reader, calls, len + 1) {
        Ok(bytes) => bytes,
        Err(fault) => return Err(unread(fault)),
    };
    if bytes.len() <= len || bytes[len] != b'\n' {
        return Err(refused(entry, EntryFault::CutOff));
    }
    bytes.truncate(len);
    Ok(bytes)
}

/// The next entry's map.
fn map_of(
    alloc: Global,
    entry: usize,
    base: &Base,
    bytes: Vec<u8>,
) -> Result<SourceMap, BundleFault>
    ensures map { IfOk result (λ m. reading base.now usual bytes.items ≡ Ok m) }
    ensures stops { IfErr result (Says (λ found. (fault : Fault)
        × (reading base.now usual bytes.items ≡ Err fault)
        × (found ≡ refusal entry (EntryFault.Map fault)))) }
{
    match SourceMap::from_vec(alloc, bytes, base, Limits::usual()) {
        Ok(map) => Ok(map),
        Err(ReadError::Refused(fault)) => Err(refused(entry, EntryFault::Map(fault))),
        Err(ReadError::Memory) => Err(BundleFault::Memory),
    }
}

/// Adds a script after the others.
fn add(
    alloc: Global,
    scripts: &mut Scripts<SourceMap>,
    script: &str,
    map: SourceMap,
) -> Result<(), BundleFault>
    requires { IsNew scripts.old script.now }
    ensures added { OnOk result (scripts.new ≡ scripts.old ++ (script.now, record_of map) ∷ []) }
    ensures memory { IfErr result (λ fault. fault ≡ BundleFault.Memory) }
{
    let Ok(url) = Vec::from_slice(alloc, script.as_bytes()) else {
        return Err(BundleFault::Memory);
    };
    match scripts.put(url, map) {
        Ok(()) => Ok(()),
        Err(_) => Err(BundleFault::Memory),
    }
}

/// Reads the rest of the entry with this header, and adds its script.
fn take_map<R: Read>(
    alloc: Global,
    reader: &mut Device<R>,
    calls: &mut u64,
    header: &Header<'_>,
    scripts: &mut Scripts<SourceMap>,
) -> Result<(), BundleFault>
    requires failures { device_failures reader.old < 2 ^ 64 - 1 }
    requires not_ended { has_ended reader.old ≡ false }
    ensures takes { OnOk result (TakesMap R.remaining reader.old reader.new calls.old calls.new
        header.now.script.now header.now.base.now header.now.length scripts.old scripts.new) }
    ensures failures { OnOk result (device_failures reader.new ≡ device_failures reader.old) }
    ensures not_ended { OnOk result (has_ended reader.new ≡ false) }
    ensures stops { (n : ℕ) → header.now.length ≡ min n (2 ^ 64 - 1)
        → IfErr result (Stops R.remaining reader.old reader.new calls.old
        (λ more found. spec.entry_with scripts.old
        (record { script = header.now.script.now; base = header.now.base.now; bytes = n }) more ≡ Err found)
        (IsWithinMap n)) }
    ensures in_time { StopsInTime reader.old reader.new }
    ensures spends { SpendsCalls reader.old reader.new calls.old calls.new }
    ensures still { OnOk result (is_over reader.new ≡ is_over reader.old) }
{
    let base = base_of(alloc, header, scripts)?;
    let entry = scripts.len();
    let bytes = bytes_of(alloc, reader, calls, entry, header.length as usize)?;
    let map = map_of(alloc, entry, &base, bytes)?;
    add(alloc, scripts, header.script, map)
}

/// Reads the rest of the entry that begins with this line, which isn't `trace`, and adds its script.
fn take_entry<R: Read>(
    alloc: Global,
    reader: &mut Device<R>,
    calls: &mut u64,
    line: &[u8],
    scripts: &mut Scripts<SourceMap>,
) -> Result<(), BundleFault>
    requires failures { device_failures reader.old < 2 ^ 64 - 1 }
    requires line { IsLine (has_ended reader.old) line.now }
    requires no_trace { line.now ≢ trace_line }
    ensures takes { OnOk result (TakesEntry R.remaining reader.old reader.new calls.old calls.new
        line.now scripts.old scripts.new) }
    ensures failures { OnOk result (device_failures reader.new ≡ device_failures reader.old) }
    ensures not_ended { OnOk result (has_ended reader.new ≡ false) }
    ensures stops { IfErr result (Stops R.remaining reader.old reader.new calls.old
        (λ more. IsFaultAt scripts.old (line.now ++ more))
        (IsWithinEntry line.now)) }
    ensures open { MatchResult result (λ _. has_ended reader.old ≡ false)
        (λ fault. fault ≡ BundleFault.Read → has_ended reader.old ≡ false) }
    ensures in_time { StopsInTime reader.old reader.new }
    ensures spends { SpendsCalls reader.old reader.new calls.old calls.new }
    ensures still { OnOk result (is_over reader.new ≡ is_over reader.old) }
    ensures idle { has_ended reader.old ≡ true → has_gone_on reader.new ≡ has_gone_on reader.old }
{
    let Some(header) = parse_header(line) else {
        return Err(refused(scripts.len(), EntryFault::Header));
    };
    take_map(alloc, reader, calls, &header, scripts)
}

/// Reads the entries of a bundle and the line `trace` after them, and nothing more: the reader is then at
/// the first byte of the trace. Where an entry has a fault, nothing after its line is read, or for a fault
/// of its map nothing after the byte that follows the map. Where reading gives up, nothing was read after
/// the byte that follows the entry's map, or after the line that isn't a header.
///
/// The reader's end must not have been seen yet, and fewer than 2^64 - 1 of its calls may have failed.
///
/// # Errors
///
/// `Refused` with the first fault; `TooLong` where a header gives a map more than 268,435,456 bytes (the
/// entries together have no limit); `Read` where a read fails, or 4,294,967,296 reads didn't reach the line
/// `trace`; `Memory`.
pub fn read_bundle<R: Read>(alloc: Global, reader: &mut Device<R>) -> Result<Bundle, BundleFault>
    requires failures { device_failures reader.old < 2 ^ 64 - 1 }
    requires not_ended { has_ended reader.old ≡ false }

    // What was read, and whatever may follow it as the trace, is a bundle of exactly these scripts.
    ensures takes { IfOk result (TakesEntries R.remaining reader.old reader.new) }
    ensures failures { OnOk result (device_failures reader.new ≡ device_failures reader.old) }
    ensures not_ended { OnOk result (has_ended reader.new ≡ false) }

    // Refused and TooLong are the bundle's first fault, whatever follows what was read, and nothing was read
    // past what shows it: the line of the fault, or for a fault of a map the byte after the map. With Read
    // and Memory too, nothing was read past the entry or past the line `trace`. Read comes with a failure of
    // the reader, or if at least as many bytes as calls were read, and no other answer comes with a failure.
    ensures stops { IfErr result (Stops R.remaining reader.old reader.new most_calls spec.HasFault
        ReadsNoMore) }

    // At most so many reads are made, and none after the end or a failure.
    ensures calls { MakesAtMost most_calls reader.old reader.new }
    ensures in_time { StopsInTime reader.old reader.new }
    ensures still { OnOk result (is_over reader.new ≡ is_over reader.old) }
{
    let mut scripts = Scripts::new(alloc);
    let mut calls = MOST_CALLS;
    'entries: loop {
        let line = match read_line(alloc, reader, &mut calls, LONGEST_HEADER) {
            Ok(line) => line,
            Err(fault) => return Err(unread(fault)),
        };
        if line.as_slice() == b"trace\n".as_slice() {
            return Ok(Bundle::new(scripts));
        }
        take_entry(alloc, reader, &mut calls, line.as_slice(), &mut scripts)?;
    }
}
