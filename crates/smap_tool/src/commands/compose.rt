//! The command `compose`: write the composition of a chain of maps.
ghost use Rattle.std.specs.Prelude.{◌≡◌, ◌+◌, ◌-◌, ◌^◌, ◌<◌, false, IfOk, OnOk, string_bytes, true};
ghost use Rattle.std.specs.Prelude.{if◌then◌else◌};
ghost use Rattle.smap_canon.specs.Canonical.{canonical_text_in};
ghost use Rattle.smap_canon.specs.Layout.{form_asked};
ghost use Rattle.smap_io.specs.Calls.{MakesAtMost, StopsInTime};
ghost use Rattle.smap_io.specs.Device.{device_failures, has_ended, is_over};
ghost use Rattle.smap_io.specs.Limits.{longest_input};
ghost use Rattle.smap_io.specs.Streams.{streams};
ghost use Rattle.smap_compose.specs.Thinning.{thinned};
ghost use Rattle.smap_compose.specs.Using.{used};
ghost use Rattle.smap_record.specs.Record.{record_of};
ghost use Rattle.smap_tool.specs.Compose.{asked, chain_output, compose_output, refused, unled_line};
ghost use Rattle.smap_tool.specs.Links.{chain_of};
ghost use Rattle.smap_tool.specs.Run.{WritesOutput, Runs};
ghost use Rattle.clap.specs.Words.{app_of};
ghost use Rattle.clap.specs.declared.builder.command.Command.TheViews.{out-Command as fields_of};
ghost use Rattle.smap_tool.specs.Commands as arguments;

use crate::bundle_line::bundle_refusal;
use crate::input::read_input;
use crate::links::{Chain, ChainFault, read_chain};
use crate::outcome::{Outcome, RunFault};
use crate::output::write_answer;
use crate::words::with_flag;
use clap::Command;
use itoa::Buffer;
use smap_canon::canonical_in;
use smap_compose::{ComposeError, compose_chain, first_unled, only_used, thin};
use smap_io::Device;
use smap_mappings::Memory;
use smap_record::{Base, Limits, SourceMap};
use std::alloc::{AllocError, Global};
use std::io::{Read, Write};

/// How a composition is written.
#[derive(Clone, Copy, Debug, PartialEq, Eq)]
pub struct ComposeOptions {
    /// Whether source URLs are written relative to the base of the outer map, where that round-trips.
    pub relative: bool,
    /// Whether mappings are left out that change no lookup's original.
    pub thin: bool,
    /// Whether sources are left out that no mapping has.
    pub used: bool,
}

/// The arguments of the command.
pub(crate) fn compose_command<'a>(alloc: Global) -> Result<Command<'a>, AllocError>
    ensures shape { IfOk result (λ c. app_of c ≡ arguments.compose) }
    ensures local { IfOk result (λ c. (fields_of c).has_globals ≡ false) }
{
    let about = "Write one map for a chain of maps";
    let command = Command::new(alloc, "compose").about(about);
    let command = with_flag(
        alloc,
        command,
        "relative",
        "Write source URLs relative to BASE of the first map where that round-trips",
    )?;
    let command = with_flag(
        alloc,
        command,
        "thin",
        "Leave out mappings that change no position's original",
    )?;
    with_flag(
        alloc,
        command,
        "used",
        "Leave out sources that no mapping has",
    )
}

/// An error line with its line feed, and that the input is refused.
fn refuse(line: String) -> Result<(Vec<u8>, Outcome), Memory>
    ensures { IfOk result (λ x. (x.0.items, x.1) ≡ refused (string_bytes line)) }
{
    let mut text = line.into_bytes();
    text.push(b'\n')?;
    Ok((text, Outcome::Refused))
}

/// The error line of a link that no source leads to.
fn unled(alloc: Global, link: usize) -> Result<String, Memory>
    requires { link + 1 < 2 ^ 64 }
    ensures { IfOk result (λ line. string_bytes line ≡ unled_line link) }
{
    let mut buffer = Buffer::new();
    let map = buffer.format(link + 1);
    format!(in alloc; "refused: map {map}: no source leads to it")
}

/// The map, thinned if that is asked for.
fn thin_if(alloc: Global, is_asked: bool, map: SourceMap) -> Result<SourceMap, AllocError>
    ensures { IfOk result (λ m. record_of m
        ≡ (if is_asked then thinned (record_of map) else record_of map)) }
{
    if is_asked { thin(alloc, &map) } else { Ok(map) }
}

/// The map, without the sources that no mapping has if that is asked for.
fn used_if(alloc: Global, is_asked: bool, map: SourceMap) -> Result<SourceMap, AllocError>
    ensures { IfOk result (λ m. record_of m
        ≡ (if is_asked then used (record_of map) else record_of map)) }
{
    if is_asked {
        only_used(alloc, &map)
    } else {
        Ok(map)
    }
}

/// The composition, as it is asked for.
fn asked(alloc: Global, options: ComposeOptions, map: SourceMap) -> Result<SourceMap, AllocError>
    ensures { IfOk result (λ m. record_of m ≡ asked options (record_of map)) }
{
    let thin = thin_if(alloc, options.thin, map)?;
    used_if(alloc, options.used, thin)
}

/// The canonical form of the composition, as it is asked for.
fn text_of(
    alloc: Global,
    options: ComposeOptions,
    base: &Base,
    map: SourceMap,
) -> Result<Vec<u8>, Memory>
    ensures { IfOk result (λ text. text.items
        ≡ canonical_text_in (form_asked options.relative) base.now (asked options (record_of map))) }
{
    let map = asked(alloc, options, map)?;
    canonical_in(alloc, &map, base, options.relative)
}

/// What is written for a chain, and the outcome.
fn compose(
    alloc: Global,
    options: ComposeOptions,
    chain: &Chain<'_>,
) -> Result<(Vec<u8>, Outcome), Memory>
    ensures { IfOk result (λ x. (x.0.items, x.1) ≡ chain_output options (chain_of chain.now)) }
{
    if let Some(link) = first_unled(alloc, &chain.outer, &chain.links)? {
        return refuse(unled(alloc, link)?);
    }
    match compose_chain(alloc, &chain.outer, &chain.links, Limits::usual()) {
        Ok(map) => Ok((text_of(alloc, options, &chain.base, map)?, Outcome::Done)),
        Err(ComposeError::TooMany) => refuse(String::from_str(
            alloc,
            "refused: too many sources or names",
        )?),
        Err(ComposeError::Memory) => Err(Memory),
    }
}

/// What is written for an input, and the outcome.
fn answer(
    alloc: Global,
    options: ComposeOptions,
    input: &[u8],
) -> Result<(Vec<u8>, Outcome), Memory>
    ensures { IfOk result (λ x. (x.0.items, x.1) ≡ compose_output options input.now) }
{
    match read_chain(alloc, input) {
        Ok(Some(chain)) => compose(alloc, options, &chain),
        Ok(None) => refuse(String::from_str(alloc, "refused: no maps")?),
        Err(ChainFault::Refused(refusal)) => {
            Ok((bundle_refusal(alloc, &refusal)?, Outcome::Refused))
        }
        Err(ChainFault::Memory) => Err(Memory),
    }
}

/// Reads a chain of maps, and writes the canonical form of its composition with nothing after it, or the line
/// of its first fault with a line feed (then the answer is `Refused`). The chain has the entries of a bundle,
/// the outer map first, and then the line `end` and nothing more.
///
/// # Errors
///
/// Those of [`run`](crate::run).
pub fn run_compose<R: Read, W: Write>(
    alloc: Global,
    options: ComposeOptions,
    reader: &mut Device<R>,
    writer: &mut Device<W>,
) -> Result<Outcome, RunFault>
    requires reader { device_failures reader.old < 2 ^ 64 - 1 }
    requires writer { device_failures writer.old < 2 ^ 64 - 1 }
    requires not_ended { has_ended reader.old ≡ false }

    // What was written is what the definition gives for what was read. Read and Write come with a failure
    // of their device, and no other answer does.
    ensures answers { Runs (WritesOutput (compose_output options))
        (streams R.remaining reader.old reader.new W.contents writer.old writer.new) result }

    // At most one read is made for each byte that an input may have, and one more.
    ensures calls { MakesAtMost (longest_input + 1) reader.old reader.new }

    // No read comes after the end or a failure. The output is flushed once, and no write comes after that or
    // after a failure.
    ensures reads_in_time { StopsInTime reader.old reader.new }
    ensures writes_in_time { StopsInTime writer.old writer.new }
    ensures flushed { OnOk result (is_over writer.new ≡ true) }
{
    let input = read_input(alloc, reader)?;
    let (text, outcome) = answer(alloc, options, &input)?;
    write_answer(writer, &text, outcome)
}
