//! Reading as much as is wanted, with as many read calls as it takes, up to a limit. The buffer grows as
//! the bytes come, so that a large limit alone takes no memory.
ghost use Rattle.std.specs.Prelude.{◌≡◌, ◌+◌, ◌-◌, ◌^◌, ◌<◌, ◌≤◌, ◌||◌, IfOk, MatchResult, OnOk, false};
ghost use Rattle.std.specs.Prelude.{drop, length, take, vec_len};
ghost use Rattle.smap_io.specs.Calls.{SpendsCalls, StaysOpen, StopsInTime};
ghost use Rattle.smap_io.specs.Device.{device_failures, is_over};
ghost use Rattle.smap_io.specs.Reading.{GaveUp, IsFewerThan, IsWithinLine, ReadsByte, ReadsLine, ReadsSome};
ghost use Rattle.smap_io.specs.Reading.{ReadsUpTo, TakesCalls};

use crate::device::Device;
use std::alloc::{AllocError, Global};
use std::io::Read;

/// The longest input that the program reads, in bytes: 256 MiB. This project's own limit.
pub const LIMIT: usize = 268_435_456;

/// The most read calls for an input without a limit on its length, such as a stack trace. This project's
/// own limit.
pub const MOST_CALLS: u64 = 4_294_967_296;

/// Why reading gave up.
#[derive(Clone, Copy, Debug, PartialEq, Eq)]
pub enum ReadFault {
    /// A read call failed.
    Failed,
    /// All read calls were used up.
    Spent,
    /// Out of memory.
    Memory,
}

/// How many bytes a read asks for: few enough to stay in the processor's cache, and enough that few calls
/// are needed.
const MORE_ROOM: usize = 262_144;

/// Appends zeros as room for a read, if all room is filled. The vector grows by doubling; only what is
/// filled with zeros is touched.
fn make_room(text: &mut Vec<u8>, filled: usize, most: usize) -> Result<(), AllocError>
    requires filled { filled ≤ vec_len text.old }
    requires inside { filled < most }
    requires within { vec_len text.old ≤ most }
    ensures front { take filled text.new.items ≡ take filled text.old.items }
    ensures within { vec_len text.new ≤ most }
    ensures room { OnOk result (filled < vec_len text.new) }
{
    if filled < text.len() {
        return Ok(());
    }
    text.resize(filled.saturating_add(MORE_ROOM).min(most), 0)
}

/// One read call, if one is left. It says whether reading is over, by the end or a failure: then no further
/// call is made.
fn read_some<R: Read>(
    reader: &mut Device<R>,
    calls: &mut u64,
    over: &mut bool,
    buf: &mut [u8],
) -> Result<usize, ReadFault>
    requires failures { device_failures reader.old < 2 ^ 64 - 1 }
    requires going { over.old ≡ false }
    requires room { 0 < length buf.old }
    ensures bound { IfOk result (λ n. n ≤ length buf.new) }
    ensures reads { MatchResult result
        (λ n. ReadsSome R.remaining reader.old reader.new calls.old calls.new over.new n (take n buf.new))
        (GaveUp R.remaining reader.old reader.new (IsFewerThan 1) calls.old) }
    ensures in_time { StopsInTime reader.old reader.new }
    ensures spends { SpendsCalls reader.old reader.new calls.old calls.new }
    ensures over { OnOk result (is_over reader.new ≡ is_over reader.old || over.new) }
{
    if *calls == 0 {
        return Err(ReadFault::Spent);
    }
    *calls -= 1;
    match reader.read(buf) {
        Ok(n) => {
            *over = n == 0;
            Ok(n)
        }
        Err(_) => {
            *over = true;
            Err(ReadFault::Failed)
        }
    }
}

/// One read call, into the room after what is filled.
fn read_after<R: Read>(
    reader: &mut Device<R>,
    calls: &mut u64,
    over: &mut bool,
    text: &mut Vec<u8>,
    filled: usize,
) -> Result<usize, ReadFault>
    requires failures { device_failures reader.old < 2 ^ 64 - 1 }
    requires going { over.old ≡ false }
    requires room { filled < vec_len text.old }
    ensures len { vec_len text.new ≡ vec_len text.old }
    ensures front { take filled text.new.items ≡ take filled text.old.items }
    ensures fits { IfOk result (λ n. filled + n ≤ vec_len text.new) }
    ensures reads { MatchResult result
        (λ n. ReadsSome R.remaining reader.old reader.new calls.old calls.new over.new n
        (take n (drop filled text.new.items)))
        (GaveUp R.remaining reader.old reader.new (IsFewerThan 1) calls.old) }
    ensures in_time { StopsInTime reader.old reader.new }
    ensures spends { SpendsCalls reader.old reader.new calls.old calls.new }
    ensures over { OnOk result (is_over reader.new ≡ is_over reader.old || over.new) }
{
    read_some(reader, calls, over, &mut text[filled..])
}

/// Reads `most` bytes, or all that there are before the end of the input.
///
/// It makes at most `*calls` read calls, and subtracts those that it made. Each call brings at least one
/// byte, except the one that sees the end, so that as many calls as bytes are always enough.
///
/// # Errors
///
/// `Failed` where a read fails, `Spent` where no call is left, and `Memory`. What was read is lost then. No
/// call is made after one that failed or saw the end.
pub fn read_up_to<R: Read>(
    alloc: Global,
    reader: &mut Device<R>,
    calls: &mut u64,
    most: usize,
) -> Result<Vec<u8>, ReadFault>
    requires { device_failures reader.old < 2 ^ 64 - 1 }
    ensures reads { MatchResult result (λ text. ReadsUpTo R.remaining reader.old reader.new most text.items)
        (GaveUp R.remaining reader.old reader.new (IsFewerThan most) calls.old) }
    ensures calls { IfOk result (λ text. TakesCalls reader.new most calls.old calls.new text.items) }
    ensures in_time { StopsInTime reader.old reader.new }
    ensures spends { SpendsCalls reader.old reader.new calls.old calls.new }
    ensures still { OnOk result (StaysOpen reader.old reader.new) }
{
    let mut text = Vec::new(alloc);
    let mut filled = 0;
    let mut over = false;
    'reads: while filled < most {
        let Ok(()) = make_room(&mut text, filled, most) else {
            return Err(ReadFault::Memory);
        };
        let n = read_after(reader, calls, &mut over, &mut text, filled)?;
        if over {
            text.truncate(filled);
            return Ok(text);
        }
        filled += n;
    }
    Ok(text)
}

/// The next byte, or none at the end.
fn read_byte<R: Read>(
    reader: &mut Device<R>,
    calls: &mut u64,
    over: &mut bool,
) -> Result<Option<u8>, ReadFault>
    requires failures { device_failures reader.old < 2 ^ 64 - 1 }
    requires going { over.old ≡ false }
    ensures byte { ReadsByte R.remaining reader.old reader.new calls.old calls.new over.new result }
    ensures in_time { StopsInTime reader.old reader.new }
    ensures spends { SpendsCalls reader.old reader.new calls.old calls.new }
    ensures over { OnOk result (is_over reader.new ≡ is_over reader.old || over.new) }
{
    let mut buf = [0];
    read_some(reader, calls, over, &mut buf)?;
    if *over {
        return Ok(None);
    }
    Ok(Some(buf[0]))
}

/// Reads the next line with its line feed, of at most `most` bytes, byte by byte, so that nothing after it
/// is read.
///
/// Without a line feed in the answer either the input has ended, or there are `most` bytes before a line
/// feed. Calls are counted as by [`read_up_to`].
///
/// # Errors
///
/// Those of [`read_up_to`].
pub fn read_line<R: Read>(
    alloc: Global,
    reader: &mut Device<R>,
    calls: &mut u64,
    most: usize,
) -> Result<Vec<u8>, ReadFault>
    requires { device_failures reader.old < 2 ^ 64 - 1 }
    ensures reads { MatchResult result (λ line. ReadsLine R.remaining reader.old reader.new most line.items)
        (GaveUp R.remaining reader.old reader.new (IsWithinLine most) calls.old) }
    ensures calls { IfOk result (λ line. TakesCalls reader.new most calls.old calls.new line.items) }
    ensures in_time { StopsInTime reader.old reader.new }
    ensures spends { SpendsCalls reader.old reader.new calls.old calls.new }
    ensures still { OnOk result (StaysOpen reader.old reader.new) }
{
    let mut line = Vec::new(alloc);
    let mut over = false;
    'bytes: while line.len() < most {
        let Some(byte) = read_byte(reader, calls, &mut over)? else {
            return Ok(line);
        };
        let Ok(()) = line.push(byte) else {
            return Err(ReadFault::Memory);
        };
        if byte == b'\n' {
            return Ok(line);
        }
    }
    Ok(line)
}
