//! What watches how long a device call takes.

ghost use Rattle.std.specs.Prelude.{◌≡◌};

use crate::call_count::CallCount;
use std::sync::Arc;
use std::time::{Clock, Duration, Instant};

/// What watches how long a device call takes, from when it is first seen.
#[derive(Drop)]
pub struct CallWatch<'r, R> {
    clock: &'r R,
    count: Arc<CallCount>,
    limit: Duration,
    // How often a call was found to take too long, up to the greatest number.
    late: u64,
    // The call that was under way last, and since when it was seen to be.
    seen: Option<(u64, Instant)>,
}

impl<'r, R: Clock> CallWatch<'r, R> {
    ghost use Rattle.std.specs.Prelude.{◌≡◌, true};
    ghost use Rattle.alm_types.specs.Counts.{one_more};

    /// Watches these calls: none may take longer than `limit`.
    pub fn new(clock: &'r R, count: Arc<CallCount>, limit: Duration) -> Self {
        CallWatch {
            clock,
            count,
            limit,
            late: 0,
            seen: None,
        }
    }

    /// Whether a call has been under way for longer than the limit: then that is counted.
    pub fn is_over(&mut self) -> bool
        ensures late { result ≡ true → self.new.late ≡ one_more self.old.late }
    {
        let over = self.takes_too_long();
        if over {
            self.late = self.late.saturating_add(1);
        }
        over
    }

    // Whether a call has been under way for longer than the limit. It hasn't if the clock can't be read.
    fn takes_too_long(&mut self) -> bool
        ensures late { self.new.late ≡ self.old.late }
    {
        let Some(call) = self.count.under_way() else {
            return false;
        };
        match self.seen {
            Some((seen, since)) if seen == call => match since.elapsed(self.clock) {
                Ok(time) => time > self.limit,
                Err(_) => false,
            },
            _ => {
                self.seen = Instant::now(self.clock).ok().map(|now| (call, now));
                false
            }
        }
    }
}
