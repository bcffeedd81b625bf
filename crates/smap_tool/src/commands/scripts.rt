//! The command `scripts`: list the scripts that a stack trace names.
ghost use Rattle.std.specs.Prelude.{◌≡◌, ◌-◌, ◌++◌, ◌^◌, ◌<◌, IfOk, OnOk, false, flat_map, true};
ghost use Rattle.smap_io.specs.Calls.{MakesAtMost, StopsInTime};
ghost use Rattle.smap_io.specs.Device.{device_failures, has_ended, is_over};
ghost use Rattle.smap_io.specs.Limits.{most_calls};
ghost use Rattle.smap_io.specs.Streams.{streams};
ghost use Rattle.smap_tool.specs.Scripts.{RunsScripts, script_line};
ghost use Rattle.clap.specs.Words.{app_of};
ghost use Rattle.clap.specs.declared.builder.command.Command.TheViews.{out-Command as fields_of};
ghost use Rattle.smap_tool.specs.Commands as arguments;

use crate::numbers::push_number;
use crate::outcome::{Outcome, RunFault};
use crate::output::write_answer;
use clap::Command;
use smap_io::Device;
use smap_mappings::Memory;
use smap_trace::{NamedScripts, TraceError, named_scripts};
use std::alloc::Global;
use std::io::{Read, Write};

/// The arguments of the command.
pub(crate) fn scripts_command<'a>(alloc: Global) -> Command<'a>
    ensures shape { app_of result ≡ arguments.scripts }
    ensures local { (fields_of result).has_globals ≡ false }
{
    Command::new(alloc, "scripts").about(
        "List the scripts that a stack trace names, with the number of lines that name each",
    )
}

/// Appends the line of a script.
fn push_script(text: &mut Vec<u8>, url: &[u8], lines: u64) -> Result<(), Memory>
    ensures { OnOk result (text.new.items ≡ text.old.items ++ script_line (url.now, lines)) }
{
    push_number(text, "", lines)?;
    text.push(b' ')?;
    text.extend_from_slice(url)?;
    text.push(b'\n')?;
    Ok(())
}

/// The lines of all scripts.
fn scripts_text(alloc: Global, named: &NamedScripts) -> Result<Vec<u8>, Memory>
    ensures { IfOk result (λ text. text.items ≡ flat_map script_line named.now) }
{
    let mut text = Vec::new(alloc);
    for i in 0..named.len() {
        if let Some((url, lines)) = named.get(i) {
            push_script(&mut text, url, lines)?;
        }
    }
    Ok(text)
}

/// Reads a stack trace to its end, and writes a line `COUNT URL` for each URL that its frames name, in the
/// order in which they first come: how many lines name it, a space and the URL.
///
/// The trace has no limit on its length. It is read by at most 4,294,967,296 calls; more are answered as
/// `Read`. Nothing is written before its end.
///
/// # Errors
///
/// Those of [`run`](crate::run), except `TooLong`.
pub fn run_scripts<R: Read, W: Write>(
    alloc: Global,
    reader: &mut Device<R>,
    writer: &mut Device<W>,
) -> Result<Outcome, RunFault>
    requires reader { device_failures reader.old < 2 ^ 64 - 1 }
    requires writer { device_failures writer.old < 2 ^ 64 - 1 }
    requires not_ended { has_ended reader.old ≡ false }

    // What was written is the list of what the trace names. Read and Write come with a failure of their
    // device, and no other answer does.
    ensures answers { RunsScripts
        (streams R.remaining reader.old reader.new W.contents writer.old writer.new) result }
    ensures calls { MakesAtMost most_calls reader.old reader.new }

    // No read comes after the end or a failure. The output is flushed once, and no write comes after that or
    // after a failure.
    ensures reads_in_time { StopsInTime reader.old reader.new }
    ensures writes_in_time { StopsInTime writer.old writer.new }
    ensures flushed { OnOk result (is_over writer.new ≡ true) }
{
    let named = match named_scripts(alloc, reader) {
        Ok(named) => named,
        Err(TraceError::Memory) => return Err(RunFault::Memory),
        // Nothing was written, so that no write has failed.
        Err(TraceError::Read | TraceError::Write) => return Err(RunFault::Read),
    };
    let text = scripts_text(alloc, &named)?;
    write_answer(writer, text.as_slice(), Outcome::Done)
}
