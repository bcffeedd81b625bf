//! Writing an answer.
ghost use Rattle.std.specs.Prelude.{◌-◌, ◌^◌, ◌<◌, OnOk, true, ◌≡◌};
ghost use Rattle.smap_io.specs.Calls.{StopsInTime};
ghost use Rattle.smap_io.specs.Device.{device_failures, is_over};
ghost use Rattle.smap_tool.specs.Run.{WritesAnswer, refused_base};
ghost use Rattle.smap_tool.specs.declared.outcome.Outcome.TheVariants.{Refused};

use crate::outcome::{Outcome, RunFault};
use smap_io::{Device, write_and_flush};
use std::io::Write;

/// Writes a string and then flushes, once. It answers the outcome, or `Write` if a call of the writer
/// failed.
pub fn write_answer<W: Write>(
    writer: &mut Device<W>,
    text: &[u8],
    outcome: Outcome,
) -> Result<Outcome, RunFault>
    requires { device_failures writer.old < 2 ^ 64 - 1 }
    ensures writes { WritesAnswer W.contents writer.old writer.new text.now outcome result }
    ensures in_time { StopsInTime writer.old writer.new }
    ensures flushed { OnOk result (is_over writer.new ≡ true) }
{
    let Ok(()) = write_and_flush(writer, text) else {
        return Err(RunFault::Write);
    };
    Ok(outcome)
}

/// Refuses a base that isn't an absolute URL.
pub fn write_refused_base<W: Write>(writer: &mut Device<W>) -> Result<Outcome, RunFault>
    requires { device_failures writer.old < 2 ^ 64 - 1 }
    ensures writes { WritesAnswer W.contents writer.old writer.new refused_base Refused result }
    ensures in_time { StopsInTime writer.old writer.new }
    ensures flushed { OnOk result (is_over writer.new ≡ true) }
{
    write_answer(writer, b"refused: base is no URL\n", Outcome::Refused)
}
