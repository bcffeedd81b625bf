//! The command `check`: validate a map.
ghost use Rattle.std.specs.Prelude.{◌≡◌, ◌+◌, ◌-◌, ◌^◌, ◌<◌, ◌++◌, None, false, IfOk, OnOk, true};
ghost use Rattle.smap_io.specs.Calls.{MakesAtMost, StopsInTime};
ghost use Rattle.smap_io.specs.Device.{device_failures, has_ended, is_over};
ghost use Rattle.smap_io.specs.Limits.{longest_input};
ghost use Rattle.smap_io.specs.Streams.{streams};
ghost use Rattle.smap_tool.specs.Commands.{check_output, check_text, counts_line, length_line, most_bytes};
ghost use Rattle.smap_tool.specs.Run.{WritesOutputAgainst, Runs};
ghost use Rattle.url.specs.Parser.{parse_url};
ghost use Rattle.clap.specs.Words.{app_of};
ghost use Rattle.clap.specs.declared.builder.command.Command.TheViews.{out-Command as fields_of};
ghost use Rattle.smap_tool.specs.Commands as arguments;

use crate::map_run::{MapCommand, run_on_map};
use crate::numbers::push_number;
use crate::outcome::{Outcome, RunFault};
use crate::words::on_base;
use clap::Command;
use smap_canon::canonical_mappings_len;
use smap_io::Device;
use smap_mappings::Memory;
use smap_record::{Base, SourceMap};
use std::alloc::{AllocError, Global};
use std::io::{Read, Write};

/// The arguments of the command.
pub(crate) fn check_command<'a>(alloc: Global) -> Result<Command<'a>, AllocError>
    ensures shape { IfOk result (λ c. app_of c ≡ arguments.check) }
    ensures local { IfOk result (λ c. (fields_of c).has_globals ≡ false) }
{
    on_base(
        alloc,
        "check",
        "Validate a map: print a summary, or its first error",
    )
}

/// Appends the line of counts, without its line feed.
#[tactic(auto, unfolding(crate::specs::Commands::counts_line))]
fn push_counts(text: &mut Vec<u8>, map: &SourceMap) -> Result<(), Memory>
    ensures { OnOk result (text.new.items ≡ text.old.items ++ counts_line map.now) }
{
    push_number(text, "accepted: ", map.source_count())?;
    push_number(text, " sources, ", map.name_count())?;
    push_number(text, " names, ", map.token_count())?;
    push_number(text, " mappings, ", map.line_count())?;
    text.extend_from_slice(b" lines")?;
    Ok(())
}

/// The most bytes of the canonical mappings string: 36 for each mapping, and one for each line.
fn most_bytes(map: &SourceMap) -> u128
    ensures { result ≡ most_bytes map.now }
{
    36 * map.token_count() as u128 + map.line_count() as u128
}

/// Appends the line of lengths, without its line feed.
#[tactic(auto, unfolding(crate::specs::Commands::length_line))]
fn push_length(alloc: Global, text: &mut Vec<u8>, map: &SourceMap) -> Result<(), Memory>
    ensures { OnOk result (text.new.items ≡ text.old.items ++ length_line map.now) }
{
    let len = canonical_mappings_len(alloc, map)?;
    push_number(text, "canonical mappings: ", len)?;
    push_number(text, " bytes, at most ", most_bytes(map))
}

struct Check;

impl MapCommand for Check {
    ghost output = { λ _ _ m. check_text m };

    fn text(&self, alloc: Global, _base: &Base, map: &SourceMap) -> Result<Vec<u8>, Memory> {
        let mut text = Vec::new(alloc);
        push_counts(&mut text, map)?;
        text.push(b'\n')?;
        push_length(alloc, &mut text, map)?;
        text.push(b'\n')?;
        Ok(text)
    }
}

/// Reads a map, and writes `accepted: S sources, N names, M mappings, L lines` and
/// `canonical mappings: B bytes, at most K`, or the line of its first fault (then the answer is `Refused`),
/// each with a line feed.
///
/// S is the number of distinct sources, N that of listed names, and L one more than the line of the last
/// mapping, or 0. B is the length of the canonical mappings string, and K is 36 for each mapping and one
/// for each line.
///
/// A base that isn't an absolute URL is refused before anything is read.
///
/// # Errors
///
/// Those of [`run`](crate::run).
pub fn run_check<R: Read, W: Write>(
    alloc: Global,
    base: &str,
    reader: &mut Device<R>,
    writer: &mut Device<W>,
) -> Result<Outcome, RunFault>
    requires reader { device_failures reader.old < 2 ^ 64 - 1 }
    requires writer { device_failures writer.old < 2 ^ 64 - 1 }
    requires not_ended { has_ended reader.old ≡ false }

    // What was written is what the definition gives for what was read against the base. Read and Write come
    // with a failure of their device, and no other answer does.
    ensures answers { Runs (WritesOutputAgainst (parse_url None base.now) check_output)
        (streams R.remaining reader.old reader.new W.contents writer.old writer.new) result }

    // At most one read is made for each byte that an input may have, and one more.
    ensures calls { MakesAtMost (longest_input + 1) reader.old reader.new }

    // No read comes after the end or a failure. The output is flushed once, and no write comes after that or
    // after a failure.
    ensures reads_in_time { StopsInTime reader.old reader.new }
    ensures writes_in_time { StopsInTime writer.old writer.new }
    ensures flushed { OnOk result (is_over writer.new ≡ true) }
{
    run_on_map(alloc, &Check, base, reader, writer)
}
