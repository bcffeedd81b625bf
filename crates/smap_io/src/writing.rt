//! Writing a string of bytes with as many write calls as it takes.
ghost use Rattle.std.specs.Prelude.{◌≡◌, ◌-◌, ◌^◌, ◌<◌, OnOk, true};
ghost use Rattle.smap_io.specs.Calls.{StopsInTime};
ghost use Rattle.smap_io.specs.Device.{device_failures, failures_after, is_over};
ghost use Rattle.smap_io.specs.Writing.{WritesText};

use crate::device::{Device, Failed};
use std::io::Write;

/// Writes all of `text`, with as many write calls as it takes.
///
/// # Errors
///
/// `Failed` where a write fails. The calls before it have then written a prefix of `text`.
pub fn write_all<W: Write>(writer: &mut Device<W>, text: &[u8]) -> Result<(), Failed>
    requires { device_failures writer.old < 2 ^ 64 - 1 }
    ensures bytes { WritesText W.contents writer.old writer.new text.now result }
    ensures failures { device_failures writer.new ≡ failures_after (device_failures writer.old) result }
    ensures in_time { StopsInTime writer.old writer.new }
    ensures still { OnOk result (is_over writer.new ≡ is_over writer.old) }
{
    let mut at = 0;
    while at < text.len() {
        let Ok(n) = writer.write(&text[at..]) else {
            return Err(Failed);
        };
        at += n;
    }
    Ok(())
}

/// Writes all of `text`, and then flushes once.
///
/// # Errors
///
/// `Failed` where a write or the flush fails. What was written is then a prefix of `text`, perhaps all of
/// it.
#[tactic(auto, using(crate::proofs::WritingLemmas::flushed_text))]
pub fn write_and_flush<W: Write>(writer: &mut Device<W>, text: &[u8]) -> Result<(), Failed>
    requires { device_failures writer.old < 2 ^ 64 - 1 }
    ensures bytes { WritesText W.contents writer.old writer.new text.now result }
    ensures failures { device_failures writer.new ≡ failures_after (device_failures writer.old) result }
    ensures in_time { StopsInTime writer.old writer.new }
    ensures flushed { OnOk result (is_over writer.new ≡ true) }
{
    write_all(writer, text)?;
    writer.flush()
}
