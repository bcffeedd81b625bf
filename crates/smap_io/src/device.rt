//! A reader or a writer with its calls and failures counted and its end noted.
ghost use Rattle.std.specs.Prelude.{◌≡◌, ◌+◌, ◌-◌, ◌^◌, ◌<◌, ◌||◌, false, true};
ghost use Rattle.std.specs.Io.{ReadsAtMost, WritesAtMost};
ghost use Rattle.std.specs.Io.KnownBytes.{ReadConsumes, WriteAppends, Keeps};
ghost use Rattle.smap_io.specs.Device.{device_inner, device_calls, device_failures, has_ended, is_over};
ghost use Rattle.smap_io.specs.Device.{has_gone_on, failures_after, fails, is_end, CountsCall, TakesSome};

use std::io::{Read, Write};

/// A call of a [`Device`] failed: the reader or writer answered an error, an interruption included, or a
/// write of at least one byte took none. The error itself isn't kept.
#[derive(Clone, Copy, Debug, PartialEq, Eq)]
pub struct Failed;

/// A reader or a writer, with the number of its calls, the number of those that failed and, for a reader,
/// whether its end was seen.
///
/// Each call is passed on exactly once, also where it fails: a short read or write is handed out as it
/// came, and nothing is retried. Contracts say that each call is counted, and that the count of failures
/// rises exactly with `Failed`; that, for readers and writers whose contents are known, what a read gave is
/// what the reader lost and what a write took is what the writer gained; and that a failed call moves
/// nothing. That a counted call is made, and that `Failed` is its failure, no contract can say, since the
/// traits of the standard library count no calls: tests show it.
///
/// A device is over once a call failed, a read saw the end, or a flush was made. It notes whether a call was
/// made after that: so a contract can say that a failure or the end was the last of the calls, and that a
/// writer was flushed once, at the end.
///
/// The calls require that fewer than 2^64 - 1 calls have failed.
#[derive(Drop)]
pub struct Device<T> {
    inner: T,
    failures: u64,
    ended: bool,
    calls: u64,
    over: bool,
    went_on: bool,
}

impl<T> Device<T> {
    /// A device around a reader or a writer. No call has failed yet, and the end hasn't been seen.
    pub fn new(inner: T) -> Self
        ensures inner { device_inner result ≡ inner }
        ensures failures { device_failures result ≡ 0 }
        ensures ended { has_ended result ≡ false }
        ensures calls { device_calls result ≡ 0 }
        ensures over { is_over result ≡ false }
        ensures went_on { has_gone_on result ≡ false }
    {
        Device {
            inner,
            failures: 0,
            ended: false,
            calls: 0,
            over: false,
            went_on: false,
        }
    }

    /// The number of calls that have failed.
    pub fn failures(&self) -> u64
        ensures { result ≡ device_failures self.now }
    {
        self.failures
    }

    /// Whether the end of the input was seen: a read into at least one byte has answered 0.
    pub fn ended(&self) -> bool
        ensures { result ≡ has_ended self.now }
    {
        self.ended
    }

    /// The number of calls of the reader or writer that were made, the failed ones included; it stays at
    /// 2^64 - 1.
    pub fn calls(&self) -> u64
        ensures { result ≡ device_calls self.now }
    {
        self.calls
    }

    /// Whether the device is over: a call failed, a read saw the end, or a flush was made.
    pub fn is_over(&self) -> bool
        ensures { result ≡ is_over self.now }
    {
        self.over
    }

    /// Whether a call was made although the device was over.
    pub fn has_gone_on(&self) -> bool
        ensures { result ≡ has_gone_on self.now }
    {
        self.went_on
    }

    /// Takes the reader or writer out of the device.
    pub fn into_inner(self) -> T
        ensures { result ≡ device_inner self }
    {
        self.inner
    }

    /// Counts a call.
    fn count_call(&mut self)
        ensures inner { device_inner self.new ≡ device_inner self.old }
        ensures failures { device_failures self.new ≡ device_failures self.old }
        ensures ended { has_ended self.new ≡ has_ended self.old }
        ensures over { is_over self.new ≡ is_over self.old }
        ensures calls { CountsCall self.old self.new }
    {
        self.calls = self.calls.saturating_add(1);
        self.went_on |= self.over;
    }

    /// Counts a failure of the call that was counted last.
    fn count_failure(&mut self) -> Failed
        requires { device_failures self.old < 2 ^ 64 - 1 }
        ensures inner { device_inner self.new ≡ device_inner self.old }
        ensures failures { device_failures self.new ≡ device_failures self.old + 1 }
        ensures ended { has_ended self.new ≡ has_ended self.old }
        ensures over { is_over self.new ≡ true }
        ensures calls { device_calls self.new ≡ device_calls self.old }
        ensures went_on { has_gone_on self.new ≡ has_gone_on self.old }
    {
        self.failures += 1;
        self.over = true;
        Failed
    }
}

impl<R: Read> Device<R> {
    /// Makes one read call, and answers how many bytes it put at the start of `buf`. An answer of 0 for a
    /// `buf` that isn't empty is the end of the input, and is noted.
    ///
    /// # Errors
    ///
    /// `Failed` where the read fails or is interrupted.
    pub fn read(&mut self, buf: &mut [u8]) -> Result<usize, Failed>
        requires { device_failures self.old < 2 ^ 64 - 1 }
        ensures bound { ReadsAtMost result buf.new }
        ensures bytes { ReadConsumes (R.remaining (device_inner self.old))
            (R.remaining (device_inner self.new)) result buf.new }
        ensures failures { device_failures self.new
            ≡ failures_after (device_failures self.old) result }
        ensures ended { has_ended self.new ≡ has_ended self.old || is_end result buf.new }
        ensures over { is_over self.new ≡ is_over self.old || (fails result || is_end result buf.new) }
        ensures calls { CountsCall self.old self.new }
    {
        self.count_call();
        match self.inner.read(buf) {
            Ok(n) => {
                let is_end = n == 0 && !buf.is_empty();
                self.ended |= is_end;
                self.over |= is_end;
                Ok(n)
            }
            Err(_) => Err(self.count_failure()),
        }
    }
}

impl<W: Write> Device<W> {
    /// Makes one write call, and answers how many bytes it took from the start of `buf`.
    ///
    /// # Errors
    ///
    /// `Failed` where the write fails, is interrupted, or takes none of at least one byte.
    pub fn write(&mut self, buf: &[u8]) -> Result<usize, Failed>
        requires { device_failures self.old < 2 ^ 64 - 1 }
        ensures bound { WritesAtMost result buf.now }
        ensures some { TakesSome result buf.now }
        ensures bytes { WriteAppends (W.contents (device_inner self.old))
            (W.contents (device_inner self.new)) result buf.now }
        ensures failures { device_failures self.new
            ≡ failures_after (device_failures self.old) result }
        ensures ended { has_ended self.new ≡ has_ended self.old }
        ensures over { is_over self.new ≡ is_over self.old || fails result }
        ensures calls { CountsCall self.old self.new }
    {
        self.count_call();
        match self.inner.write(buf) {
            Ok(n) if n > 0 || buf.is_empty() => Ok(n),
            _ => Err(self.count_failure()),
        }
    }

    /// Makes one flush call.
    ///
    /// # Errors
    ///
    /// `Failed` where the flush fails or is interrupted.
    pub fn flush(&mut self) -> Result<(), Failed>
        requires { device_failures self.old < 2 ^ 64 - 1 }
        ensures bytes { Keeps (W.contents (device_inner self.old))
            (W.contents (device_inner self.new)) }
        ensures failures { device_failures self.new
            ≡ failures_after (device_failures self.old) result }
        ensures ended { has_ended self.new ≡ has_ended self.old }
        ensures over { is_over self.new ≡ true }
        ensures calls { CountsCall self.old self.new }
    {
        self.count_call();
        match self.inner.flush() {
            Ok(()) => {
                self.over = true;
                Ok(())
            }
            Err(_) => Err(self.count_failure()),
        }
    }
}
