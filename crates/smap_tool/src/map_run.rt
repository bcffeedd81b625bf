//! The common part of the runs that read a map against a base.
ghost use Rattle.std.specs.Prelude.{◌≡◌, ◌+◌, ◌-◌, ◌^◌, ◌<◌, ℕ, List, None, IfOk, false, OnOk, true};
ghost use Rattle.smap_io.specs.Calls.{MakesAtMost, StopsInTime};
ghost use Rattle.smap_io.specs.Device.{device_failures, has_ended, is_over};
ghost use Rattle.smap_io.specs.Limits.{longest_input};
ghost use Rattle.smap_io.specs.Streams.{streams};
ghost use Rattle.smap_record.specs.Results.{Returns};
ghost use Rattle.smap_record.specs.Reading.{reading};
ghost use Rattle.smap_record.specs.Record.{Parts, ReadMap, usual};
ghost use Rattle.smap_tool.specs.Run.{WritesOutputAgainst, Runs};
ghost use Rattle.smap_tool.specs.MapRun.{map_output};
ghost use Rattle.url.specs.Parser.{parse_url};

use crate::fault_line::refusal;
use crate::input::read_input;
use crate::outcome::{Outcome, RunFault};
use crate::output::{write_answer, write_refused_base};
use smap_io::Device;
use smap_mappings::Memory;
use smap_record::{Base, BaseFault, Limits, ReadError, SourceMap};
use std::alloc::Global;
use std::io::{Read, Write};

/// What a command writes for a map that was read against a base.
pub(crate) trait MapCommand {
    ghost output: { Self → Parts → ReadMap → List ℕ };

    fn text(&self, alloc: Global, base: &Base, map: &SourceMap) -> Result<Vec<u8>, Memory>
        ensures { IfOk result (λ text. text.items ≡ output self.now base.now map.now) };
}

/// The map of an input, which is freed.
fn map_of(alloc: Global, base: &Base, input: Vec<u8>) -> Result<SourceMap, ReadError>
    ensures { Returns (λ m. m) result (reading base.now usual input.items) }
{
    SourceMap::from_vec(alloc, input, base, Limits::usual())
}

/// What is written for an input, and the outcome.
fn answer<C: MapCommand>(
    alloc: Global,
    command: &C,
    base: &Base,
    input: Vec<u8>,
) -> Result<(Vec<u8>, Outcome), Memory>
    ensures { IfOk result (λ x. (x.0.items, x.1) ≡ map_output (C.output command.now) base.now input.items) }
{
    match map_of(alloc, base, input) {
        Ok(map) => Ok((command.text(alloc, base, &map)?, Outcome::Done)),
        Err(ReadError::Refused(fault)) => Ok((refusal(alloc, &fault)?, Outcome::Refused)),
        Err(ReadError::Memory) => Err(Memory),
    }
}

/// Reads a map against a base and writes the command's output for it, or the line of the map's first fault.
/// A base that isn't an absolute URL is refused before anything is read.
pub(crate) fn run_on_map<C: MapCommand, R: Read, W: Write>(
    alloc: Global,
    command: &C,
    base: &str,
    reader: &mut Device<R>,
    writer: &mut Device<W>,
) -> Result<Outcome, RunFault>
    requires reader { device_failures reader.old < 2 ^ 64 - 1 }
    requires writer { device_failures writer.old < 2 ^ 64 - 1 }
    requires not_ended { has_ended reader.old ≡ false }
    ensures answers { Runs (WritesOutputAgainst (parse_url None base.now) (map_output (C.output command.now)))
        (streams R.remaining reader.old reader.new W.contents writer.old writer.new) result }
    ensures calls { MakesAtMost (longest_input + 1) reader.old reader.new }
    ensures reads_in_time { StopsInTime reader.old reader.new }
    ensures writes_in_time { StopsInTime writer.old writer.new }
    ensures flushed { OnOk result (is_over writer.new ≡ true) }
{
    let base = match Base::new(alloc, base) {
        Ok(base) => base,
        Err(BaseFault::NotUrl) => return write_refused_base(writer),
        Err(BaseFault::Memory) => return Err(RunFault::Memory),
    };
    let input = read_input(alloc, reader)?;
    let (text, outcome) = answer(alloc, command, &base, input)?;
    write_answer(writer, &text, outcome)
}
