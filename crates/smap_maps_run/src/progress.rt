//! How many maps are done, on a terminal.

use std::rt::Clock;
use std::time::{Duration, Instant};

/// The milliseconds between two lines.
const PAUSE: u64 = 200;

/// How many maps are done, shown on the terminal that standard error is, in one line that is erased again.
#[derive(Drop)]
pub(crate) struct Progress {
    /// How many there are.
    all: usize,
    /// When the line was shown last, if at all.
    shown: Option<Instant>,
    /// Whether the line stands there.
    stands: bool,
    /// Whether there is a terminal.
    is_on: bool,
}

impl Progress {
    pub(crate) fn new(all: usize, is_on: bool) -> Progress {
        Progress {
            all,
            shown: None,
            stands: false,
            is_on,
        }
    }

    /// Whether it is time for another line.
    fn is_due(&self, now: Instant) -> bool {
        match self.shown {
            Some(before) => now.saturating_duration_since(before) >= Duration::from_millis(PAUSE),
            None => true,
        }
    }

    /// Shows how many are done, five times a second at most.
    pub(crate) fn show<E: Eprint + Clock>(&mut self, rt: &E, done: usize) {
        if !self.is_on {
            return;
        }
        let Ok(now) = Instant::now(rt) else {
            return;
        };
        if !self.is_due(now) {
            return;
        }
        let all = self.all;
        let _ = eprint!(rt; "\r{done} of {all}");
        self.shown = Some(now);
        self.stands = true;
    }

    /// Erases the line.
    pub(crate) fn erase<E: Eprint>(&mut self, rt: &E) {
        if self.stands {
            let _ = eprint!(rt; "\r                                                  \r");
            self.stands = false;
        }
    }
}
