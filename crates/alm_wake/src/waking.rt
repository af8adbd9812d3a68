//! When the slots are woken that a batch answers.
ghost use Rattle.std.specs.Prelude.{◌≡◌, ◌<◌, ◌+◌, ◌-◌, ◌^◌, ◌&&◌, MatchBool, min, nat_le, not, slice_set};
ghost use Rattle.alm_wake.specs.Wakings.{is_owed, may_sleep, no_one, no_reply, with_reply};

use crate::bounds::{MANY, QUEUE};
use alm_types::{SLOTS, Slot};

/// When to wake the slots of a batch that is answered. No other batch queued: each slot as soon as it has a reply. One queued:
/// all slots after the whole batch is answered. Two queued: the same, except for a slot with 8 or more replies, which asks on
/// without them. Its next request waits after those two batches anyway. It is left asleep until the next batch is answered, not
/// twice in a row, and takes the replies of both by one wake.
#[derive(Clone, Copy, Debug, PartialEq, Eq)]
pub struct Waking {
    /// How many batches were fetched.
    fetched: u64,
    /// How many more waited as the first reply of this batch was due.
    waiting: u64,
    /// How many replies of it each slot has for which it wasn't woken.
    replies: [u16; SLOTS],
    /// The slots that the batch before left asleep.
    late: [bool; SLOTS],
}

impl Waking {
    /// No batch yet.
    pub fn new() -> Self
        ensures { result ≡
            record { fetched = 0; waiting = 0; replies = no_reply; late = no_one } }
    {
        Waking {
            fetched: 0,
            waiting: 0,
            replies: [0; SLOTS],
            late: [false; SLOTS],
        }
    }

    /// A batch was fetched.
    pub fn fetch(&mut self)
        ensures { self.new ≡ record self.old { fetched = min (self.old.fetched + 1) (2 ^ 64 - 1) } }
    {
        self.fetched = self.fetched.saturating_add(1);
    }

    /// The replies of the batch that was fetched last are due, and `sealed` batches were sealed so far.
    pub fn begin(&mut self, sealed: u64)
        ensures { self.new ≡
            record self.old { waiting = sealed - self.old.fetched; replies = no_reply } }
    {
        self.waiting = sealed.saturating_sub(self.fetched);
        self.replies = [0; SLOTS];
    }

    /// Whether two batches more waited.
    pub fn is_busy(&self) -> bool
        ensures { result ≡ nat_le 2 self.now.waiting }
    {
        self.waiting >= QUEUE
    }

    /// A slot has a reply: whether it is woken immediately.
    pub fn reply(&mut self, slot: Slot) -> bool
        ensures { MatchBool result ((self.old.waiting ≡ 0) × (self.new ≡ self.old))
            ((0 < self.old.waiting) ×
            (self.new ≡ record self.old { replies = with_reply self.old.replies slot })) }
    {
        if self.waiting == 0 {
            return true;
        }
        let place = slot.number() as usize;
        self.replies[place] = self.replies[place].saturating_add(1);
        false
    }

    /// The batch is answered: whether a slot is woken now.
    pub fn end(&mut self, slot: Slot) -> bool
        ensures woken { result ≡ is_owed self.old slot && not (may_sleep self.old slot) }
        ensures late { self.new ≡
            record self.old { late = slice_set self.old.late slot (may_sleep self.old slot) } }
    {
        let place = slot.number() as usize;
        let replies = self.replies[place];
        let late = self.late[place];
        let sleeps = self.is_busy() && replies >= MANY && !late;
        self.late[place] = sleeps;
        (replies > 0 || late) && !sleeps
    }
}
