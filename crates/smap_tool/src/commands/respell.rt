//! The command `respell`: re-encode a bare mappings string.
ghost use Rattle.std.specs.Prelude.{◌≡◌, ◌+◌, ◌-◌, ◌^◌, ◌<◌, false, IfOk, OnOk, true};
ghost use Rattle.smap_io.specs.Calls.{MakesAtMost, StopsInTime};
ghost use Rattle.smap_io.specs.Device.{device_failures, has_ended, is_over};
ghost use Rattle.smap_io.specs.Limits.{longest_input};
ghost use Rattle.smap_io.specs.Streams.{streams};
ghost use Rattle.smap_mappings.specs.Decoded.{ReturnsTokens, decoded};
ghost use Rattle.smap_mappings.specs.Text.{IsEncodable};
ghost use Rattle.smap_trace.specs.Translation.{without_line_feed};
ghost use Rattle.smap_tool.specs.Commands.{respell_bounds, respell_output};
ghost use Rattle.smap_tool.specs.Run.{WritesOutput, Runs};
ghost use Rattle.clap.specs.Words.{app_of};
ghost use Rattle.clap.specs.declared.builder.command.Command.TheViews.{out-Command as fields_of};
ghost use Rattle.smap_tool.specs.Commands as arguments;

use crate::fault_line::refusal;
use crate::input::read_input;
use crate::outcome::{Outcome, RunFault};
use crate::output::write_answer;
use clap::Command;
use smap_io::Device;
use smap_mappings::{MappingsError, Memory, Token, WIDEST, decode, encode};
use smap_record::Fault;
use std::alloc::Global;
use std::io::{Read, Write};

/// The arguments of the command.
pub(crate) fn respell_command<'a>(alloc: Global) -> Command<'a>
    ensures shape { app_of result ≡ arguments.respell }
    ensures local { (fields_of result).has_globals ≡ false }
{
    Command::new(alloc, "respell").about(
        "Re-encode a \"mappings\" string: sorted, and as short as possible",
    )
}

/// The string without the line feed at its end, if it has one.
fn without_line_feed(text: &[u8]) -> &[u8]
    ensures { result.now ≡ without_line_feed text.now }
{
    if text.ends_with(b"\n") {
        &text[..text.len() - 1]
    } else {
        text
    }
}

/// The tokens of an input, which is freed: only they are needed for the output. The string starts at line 0
/// and column 0, and its indices are only bounded by the greatest one.
fn tokens_of(alloc: Global, input: Vec<u8>) -> Result<Vec<Token>, MappingsError>
    ensures says { ReturnsTokens result (decoded respell_bounds (without_line_feed input.items)) }
    ensures encodable { IfOk result (λ tokens. IsEncodable tokens.items) }
{
    decode(alloc, without_line_feed(input.as_slice()), WIDEST)
}

/// What is written for an input, and the outcome.
fn respell(alloc: Global, input: Vec<u8>) -> Result<(Vec<u8>, Outcome), Memory>
    ensures { IfOk result (λ x. (x.0.items, x.1) ≡ respell_output input.items) }
{
    match tokens_of(alloc, input) {
        Ok(tokens) => {
            let mut text = encode(alloc, tokens.as_slice())?;
            text.push(b'\n')?;
            Ok((text, Outcome::Done))
        }
        Err(MappingsError::Fault(place, kind)) => {
            let fault = Fault::of_segment(place, kind);
            Ok((refusal(alloc, &fault)?, Outcome::Refused))
        }
        Err(MappingsError::Memory) => Err(Memory),
    }
}

/// Reads a mappings string, and writes the canonical one with the same tokens, or the line of its first
/// fault (then the answer is `Refused`), each with a line feed. One line feed at the end of the input isn't
/// part of the string.
///
/// # Errors
///
/// Those of [`run`](crate::run).
pub fn run_respell<R: Read, W: Write>(
    alloc: Global,
    reader: &mut Device<R>,
    writer: &mut Device<W>,
) -> Result<Outcome, RunFault>
    requires reader { device_failures reader.old < 2 ^ 64 - 1 }
    requires writer { device_failures writer.old < 2 ^ 64 - 1 }
    requires not_ended { has_ended reader.old ≡ false }

    // What was written is what the definition gives for what was read. Read and Write come with a failure
    // of their device, and no other answer does.
    ensures answers { Runs (WritesOutput respell_output)
        (streams R.remaining reader.old reader.new W.contents writer.old writer.new) result }

    // At most one read is made for each byte that an input may have, and one more.
    ensures calls { MakesAtMost (longest_input + 1) reader.old reader.new }

    // No read comes after the end or a failure. The output is flushed once, and no write comes after that or
    // after a failure.
    ensures reads_in_time { StopsInTime reader.old reader.new }
    ensures writes_in_time { StopsInTime writer.old writer.new }
    ensures flushed { OnOk result (is_over writer.new ≡ true) }
{
    let input = read_input(alloc, reader)?;
    let (text, outcome) = respell(alloc, input)?;
    write_answer(writer, &text, outcome)
}
