//! The command `flatten`: convert an index map to a flat map.
ghost use Rattle.std.specs.Prelude.{◌≡◌, ◌+◌, ◌-◌, ◌^◌, ◌<◌, None, false, IfOk, OnOk, true};
ghost use Rattle.smap_io.specs.Calls.{MakesAtMost, StopsInTime};
ghost use Rattle.smap_io.specs.Device.{device_failures, has_ended, is_over};
ghost use Rattle.smap_io.specs.Limits.{longest_input};
ghost use Rattle.smap_io.specs.Streams.{streams};
ghost use Rattle.smap_tool.specs.Run.{WritesOutputAgainst, Runs};
ghost use Rattle.smap_canon.specs.Layout.{flat_text};
ghost use Rattle.smap_tool.specs.Commands.{flatten_output};
ghost use Rattle.url.specs.Parser.{parse_url};
ghost use Rattle.clap.specs.Words.{app_of};
ghost use Rattle.clap.specs.declared.builder.command.Command.TheViews.{out-Command as fields_of};
ghost use Rattle.smap_tool.specs.Commands as arguments;

use crate::map_run::{MapCommand, run_on_map};
use crate::outcome::{Outcome, RunFault};
use crate::words::on_base;
use clap::Command;
use smap_canon::flatten;
use smap_io::Device;
use smap_mappings::Memory;
use smap_record::{Base, SourceMap};
use std::alloc::{AllocError, Global};
use std::io::{Read, Write};

/// The arguments of the command.
pub(crate) fn flatten_command<'a>(alloc: Global) -> Result<Command<'a>, AllocError>
    ensures shape { IfOk result (λ c. app_of c ≡ arguments.flatten) }
    ensures local { IfOk result (λ c. (fields_of c).has_globals ≡ false) }
{
    on_base(
        alloc,
        "flatten",
        "Convert an index map (with sections) to a flat map, with sources and names as listed",
    )
}

struct Flatten;

impl MapCommand for Flatten {
    ghost output = { λ _ _ m. flat_text m };

    fn text(&self, alloc: Global, _base: &Base, map: &SourceMap) -> Result<Vec<u8>, Memory> {
        flatten(alloc, map)
    }
}

/// Reads a map, and writes it as one flat map with nothing after it, or the line of its first fault with a
/// line feed (then the answer is `Refused`).
///
/// A base that isn't an absolute URL is refused before anything is read.
///
/// # Errors
///
/// Those of [`run`](crate::run).
pub fn run_flatten<R: Read, W: Write>(
    alloc: Global,
    base: &str,
    reader: &mut Device<R>,
    writer: &mut Device<W>,
) -> Result<Outcome, RunFault>
    requires reader { device_failures reader.old < 2 ^ 64 - 1 }
    requires writer { device_failures writer.old < 2 ^ 64 - 1 }
    requires not_ended { has_ended reader.old ≡ false }

    // What was written is what the definition gives for what was read against the base. Read and Write come
    // with a failure of their device, and no other answer does.
    ensures answers { Runs (WritesOutputAgainst (parse_url None base.now) flatten_output)
        (streams R.remaining reader.old reader.new W.contents writer.old writer.new) result }

    // At most one read is made for each byte that an input may have, and one more.
    ensures calls { MakesAtMost (longest_input + 1) reader.old reader.new }

    // No read comes after the end or a failure. The output is flushed once, and no write comes after that or
    // after a failure.
    ensures reads_in_time { StopsInTime reader.old reader.new }
    ensures writes_in_time { StopsInTime writer.old writer.new }
    ensures flushed { OnOk result (is_over writer.new ≡ true) }
{
    run_on_map(alloc, &Flatten, base, reader, writer)
}
