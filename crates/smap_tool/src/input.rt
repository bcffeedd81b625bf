//! Reading an input to its end.
ghost use Rattle.std.specs.Prelude.{◌≡◌, ◌+◌, ◌-◌, ◌^◌, ◌<◌};
ghost use Rattle.smap_io.specs.Calls.{MakesAtMost, StopsInTime};
ghost use Rattle.smap_io.specs.Device.{device_failures};
ghost use Rattle.smap_io.specs.Limits.{longest_input};
ghost use Rattle.smap_tool.specs.Run.{ReadsInput};

use crate::outcome::RunFault;
use smap_io::{Device, LIMIT, ReadFault, read_up_to};
use std::alloc::Global;
use std::io::Read;

/// Reads to the end. What was read is lost if this fails: with `TooLong` if there are more bytes than the
/// limit, `Read` if a call of the reader failed, or `Memory`.
pub fn read_input<R: Read>(alloc: Global, reader: &mut Device<R>) -> Result<Vec<u8>, RunFault>
    requires { device_failures reader.old < 2 ^ 64 - 1 }
    ensures reads { ReadsInput R.remaining reader.old reader.new result }
    ensures calls { MakesAtMost (longest_input + 1) reader.old reader.new }
    ensures in_time { StopsInTime reader.old reader.new }
{
    // Each call but one that sees the end brings at least one byte, so that the calls aren't used up first.
    let mut calls = LIMIT as u64 + 1;
    match read_up_to(alloc, reader, &mut calls, LIMIT + 1) {
        Ok(input) if input.len() <= LIMIT => Ok(input),
        Ok(_) => Err(RunFault::TooLong),
        Err(ReadFault::Failed | ReadFault::Spent) => Err(RunFault::Read),
        Err(ReadFault::Memory) => Err(RunFault::Memory),
    }
}
