//! The scripts that the frames of a trace name.
ghost use Rattle.std.specs.Prelude.{◌≡◌, ◌-◌, ◌==◌, ◌^◌, ◌<◌, OnOk, false, length, option_map, slice_get};
ghost use Rattle.smap_io.specs.Calls.{MakesAtMost, StopsInTime};
ghost use Rattle.smap_io.specs.Device.{device_failures, has_ended};
ghost use Rattle.smap_io.specs.Limits.{most_calls};
ghost use Rattle.smap_trace.specs.Naming.{ReadsNames};
ghost use Rattle.smap_trace.specs.Counting.{CountsLine, named_of, with_url};

use crate::error::TraceError;
use crate::lines::cut_feed;
use indexmap::IndexMap;
use smap_frames::frame;
use smap_io::{Device, EachLine, MOST_CALLS, take_last, take_piece};
use std::alloc::{AllocError, Global};
use std::io::Read;
use std::marker::Model;

/// The most bytes of one read.
const PIECE: usize = 65_536;

/// The URLs that the frames of a trace name, each once, in the order in which they first come, with the
/// number of lines that name it. A contract sees the list of these pairs.
#[derive(Drop)]
pub struct NamedScripts {
    lines: IndexMap<Vec<u8>, u64>,
}

impl Model for NamedScripts {
    ghost use Rattle.std.specs.Prelude.{List, ℕ};

    ghost Value = { List (List ℕ × ℕ) };

    ghost use Rattle.smap_trace.specs.Counting.{named_of};

    ghost view = { λ n. named_of n.lines.entries };
}

impl NamedScripts {
    /// What was counted.
    fn of(lines: IndexMap<Vec<u8>, u64>) -> NamedScripts
        ensures { result ≡ named_of lines.entries }
    {
        NamedScripts { lines }
    }

    /// How many URLs there are.
    pub fn len(&self) -> usize
        ensures { result ≡ length self.now }
    {
        self.lines.len()
    }

    /// Whether there is none.
    pub fn is_empty(&self) -> bool
        ensures { result ≡ (length self.now == 0) }
    {
        self.len() == 0
    }

    /// The URL with this index, and the number of lines that name it, which stays at
    /// 18,446,744,073,709,551,615 once it is there.
    pub fn get(&self, i: usize) -> Option<(&[u8], u64)>
        ensures { option_map (λ p. (p.0.now, p.1)) result ≡ slice_get self.now i }
    {
        let lines = &self.lines;
        match lines.get_index(i) {
            Some((url, count)) => Some((url.as_slice(), *count)),
            None => None,
        }
    }
}

/// Counts one line more that names this URL. Only the first line that names it copies it.
fn count_url(
    alloc: Global,
    lines: &mut IndexMap<Vec<u8>, u64>,
    url: &[u8],
) -> Result<(), AllocError>
    ensures { OnOk result (named_of lines.new.entries ≡ with_url url.now (named_of lines.old.entries)) }
{
    if let Some(i) = lines.get_index_of(url) {
        lines[i] = lines[i].saturating_add(1);
        return Ok(());
    }
    let mut key = Vec::new(alloc);
    key.extend_from_slice(url)?;
    lines.insert(key, 1)?;
    Ok(())
}

/// What counts the URLs of lines that are frames.
#[derive(Drop)]
struct UrlCounter {
    alloc: Global,
}

impl EachLine<NamedScripts> for UrlCounter {
    ghost takes = { λ s. CountsLine };

    fn take(&self, so_far: &mut NamedScripts, line: &[u8]) -> Result<(), AllocError> {
        match frame(cut_feed(line).0) {
            Some(frame) => count_url(self.alloc, &mut so_far.lines, frame.url),
            None => Ok(()),
        }
    }
}

/// Reads a stack trace to its end, and answers the URLs that its frames name, in the order in which they
/// first come, with the number of lines that name each.
///
/// One read asks for up to 65,536 bytes. Memory holds the distinct URLs, one piece, and the line that waits
/// for its end.
///
/// The reader's end must not have been seen yet, and fewer than 2^64 - 1 of its calls may have failed.
///
/// # Errors
///
/// `Read` where a read fails, or after 4,294,967,296 reads, and `Memory`.
///
/// # Examples
///
/// ```
/// let mut reader = Device::new(rt.reader());
/// let named = named_scripts(alloc, &mut reader)?;
/// // of two lines `    at f (http://h/m/out.js:1:2)`: named.get(0) is Some((b"http://h/m/out.js", 2))
/// ```
pub fn named_scripts<R: Read>(
    alloc: Global,
    reader: &mut Device<R>,
) -> Result<NamedScripts, TraceError>
    requires reads { device_failures reader.old < 2 ^ 64 - 1 }
    requires not_ended { has_ended reader.old ≡ false }

    // All was read, and the answer is what the trace names. Read comes with a failure of the reader, or once
    // the limit on reads was reached; and no other answer comes with a failure.
    ensures names { ReadsNames R.remaining reader.old reader.new result }

    // At most so many reads are made, and none after the end or a failure.
    ensures calls { MakesAtMost most_calls reader.old reader.new }
    ensures in_time { StopsInTime reader.old reader.new }
{
    let each = UrlCounter { alloc };
    let mut buf = [0; PIECE];
    let mut line = Vec::new(alloc);
    let mut named = NamedScripts::of(IndexMap::new(alloc));
    'pieces: for _ in 0..MOST_CALLS {
        let Ok(n) = reader.read(&mut buf) else {
            return Err(TraceError::Read);
        };
        if n == 0 {
            let Ok(()) = take_last(&each, &mut named, &line) else {
                return Err(TraceError::Memory);
            };
            return Ok(named);
        }
        let Ok(()) = take_piece(&each, &mut named, &mut line, &buf[..n]) else {
            return Err(TraceError::Memory);
        };
    }
    Err(TraceError::Read)
}
