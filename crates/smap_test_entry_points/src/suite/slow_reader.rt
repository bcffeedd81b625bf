//! A reader that gives a few bytes a call and fails at a given call.
ghost use Rattle.std.specs.Prelude.{◌≡◌, ◌<◌, Some};

use std::io::{self, ErrorKind, Read};

/// Gives at most `step` bytes a call, and at least one while there are some. Call number `fails_at`, from
/// 1, is interrupted and gives nothing; 0 means none.
#[derive(Drop)]
pub(crate) struct SlowReader<'a> {
    /// What is left.
    rest: &'a [u8],
    step: usize,
    fails_at: u64,
    /// How many reads there were.
    pub(crate) calls: u64,
    ghost steps: { 0 < step },
}

impl SlowReader<'_> {
    /// A reader of these bytes that wasn't called yet.
    pub(crate) fn new(rest: &[u8], step: usize, fails_at: u64) -> SlowReader<'_>
        requires { 0 < step }
        ensures rest { result.rest.now ≡ rest.now }
        ensures step { result.step ≡ step }
        ensures fails_at { result.fails_at ≡ fails_at }
        ensures calls { result.calls ≡ 0 }
    {
        SlowReader {
            rest,
            step,
            fails_at,
            calls: 0,
        }
    }
}

impl Read for SlowReader<'_> {
    ghost remaining = { λ r. Some r.rest.now };

    fn read(&mut self, buf: &mut [u8]) -> io::Result<usize> {
        self.calls = self.calls.saturating_add(1);
        if self.calls == self.fails_at {
            return Err(io::Error::from(ErrorKind::Interrupted));
        }
        let n = self.step.min(buf.len()).min(self.rest.len());
        let (front, rest) = self.rest.split_at(n);
        buf[..n].copy_from_slice(front);
        self.rest = rest;
        Ok(n)
    }
}
