//! How long the last batch was out.

ghost use Rattle.std.specs.Prelude.{◌≡◌, None};

use std::time::{Clock, Instant};

/// How long ago that was, in microseconds; `None` if the clock can't be read.
pub fn micros_since<C: Clock>(clock: &C, since: Instant) -> Option<u64> {
    match since.elapsed(clock) {
        Ok(time) => Some(u64::try_from(time.as_micros()).unwrap_or(u64::MAX)),
        Err(_) => None,
    }
}

/// How long the last batch was out, from its sealing until it was seen to be back, in microseconds. It is 0 before the first is
/// back, and if the clock can't be read.
#[derive(Drop)]
pub struct CommitTime {
    // Since when a batch is out.
    since: Option<Instant>,
    micros: u64,
}

impl CommitTime {
    /// None yet.
    pub fn new() -> Self
        ensures { result ≡ record { since = None; micros = 0 } }
    {
        CommitTime {
            since: None,
            micros: 0,
        }
    }

    /// A batch was sealed.
    pub fn begin<C: Clock>(&mut self, clock: &C)
        ensures { self.new.micros ≡ self.old.micros }
    {
        self.since = Instant::now(clock).ok();
    }

    /// How long the last one was that is known.
    pub fn last(&self) -> u64
        ensures { result ≡ self.now.micros }
    {
        self.micros
    }

    /// None is out: how long the last one was.
    pub fn end<C: Clock>(&mut self, clock: &C) -> u64
        ensures time { result ≡ self.new.micros }
        ensures ended { self.new.since ≡ None }
        ensures before { self.old.since ≡ None → self.new ≡ self.old }
    {
        if let Some(since) = self.since.take() {
            self.micros = micros_since(clock, since).unwrap_or(0);
        }
        self.micros
    }
}
