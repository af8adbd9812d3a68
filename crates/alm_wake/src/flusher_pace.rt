//! When the flusher's thread sleeps, and whom it wakes.

ghost use Rattle.std.specs.Prelude.{◌≡◌, ◌<◌, ◌≤◌, ◌+◌, ◌-◌, ◌^◌, ◌⊎◌, ℕ, IsTrue, MatchBool, min, slice_set};
ghost use Rattle.alm_types.specs.Sizes.{slot_count};
ghost use Rattle.alm_wake.specs.Paces.{after_reply};
ghost use Rattle.alm_wake.specs.Wakings.{is_late, may_sleep, no_one, no_reply};

use crate::bell::Bell;
use crate::bounds::{EARLY_YIELDS, REST};
use crate::flags::Flags;
use crate::waking::Waking;
use alm_types::{SLOTS, Slot};
use std::sync::Wait;
use std::sync::atomic::Ordering;
use std::thread;

/// When the flusher's thread sleeps, and whom it wakes. It knows how many batches wait, and which slots the held one answers.
#[derive(Drop)]
pub struct FlusherPace<'f, B: Bell + Drop> {
    flags: &'f Flags<B>,
    waking: Waking,
    // How many turns in a row found no work.
    idle: u32,
    // How often it has yielded to a batch that is about to come.
    yields: u32,
}

impl<'f, B: Bell + Drop> FlusherPace<'f, B> {
    /// No batch was fetched yet.
    pub fn new(flags: &'f Flags<B>) -> Self
        ensures waking { result.waking ≡
            record { fetched = 0; waiting = 0; replies = no_reply; late = no_one } }
        ensures turns { (result.idle ≡ 0) × (result.yields ≡ 0) }
    {
        FlusherPace {
            flags,
            waking: Waking::new(),
            idle: 0,
            yields: 0,
        }
    }

    /// Whether the thread is to stop.
    pub fn is_stopped(&self) -> bool {
        self.flags.is_stopped()
    }

    /// Whether no further batch is sealed. Ask before a fetch: it then finds all that were.
    pub fn is_last(&self) -> bool {
        self.flags.sealed.load(Ordering::SeqCst)
    }

    /// A batch was fetched.
    pub fn fetch(&mut self)
        ensures { self.new ≡ record self.old {
          waking = record self.old.waking {
            fetched = min (self.old.waking.fetched + 1) (2 ^ 64 - 1);
          };
        } }
    {
        self.flags.near.store(false, Ordering::SeqCst);
        self.waking.fetch();
    }

    /// Whether an open checkpoint continues, though no batch is there. Its pieces wait for a batch that is about to come.
    pub fn has_rest(&self) -> bool
        ensures { IsTrue result → 10 ≤ self.now.idle }
    {
        self.idle >= REST && !self.flags.near.load(Ordering::SeqCst)
    }

    /// The held batch was published: its replies are due.
    pub fn publish(&mut self)
        ensures { self.new ≡ record self.old {
          waking = record self.old.waking {
            waiting = self.new.waking.waiting;
            replies = no_reply;
          };
        } }
    {
        self.waking.begin(self.flags.batches.load(Ordering::SeqCst));
        self.flags
            .busy
            .store(self.waking.is_busy(), Ordering::SeqCst);
    }

    /// A receipt was released to a slot: it is woken now, or after the whole batch.
    pub fn release(&mut self, slot: Slot)
        ensures { self.new ≡ record self.old { waking = after_reply self.old.waking slot } }
    {
        if self.waking.reply(slot) {
            self.flags.slots.ring(slot);
        }
    }

    /// The console of the next receipt has no room for it: its slot is woken.
    pub fn find_full(&self, slot: Slot) {
        self.flags.slots.ring(slot);
    }

    /// The batch is answered. The slots that are still to be woken are left to the sequencer's thread: that thread is a batch
    /// ahead then.
    pub fn answer(&mut self)
        ensures late { (s : ℕ) → s < slot_count →
            is_late self.new.waking s ≡ may_sleep self.old.waking s }
        ensures others { self.new ≡ record self.old {
          waking =
              record self.old.waking { late = self.new.waking.late };
        } }
    {
        for number in 0..SLOTS {
            if let Some(slot) = Slot::new(number as u8) {
                self.end(slot);
            }
        }
        self.flags.sequencer.ring();
    }

    // The batch is answered: this slot is left to the sequencer's thread if it is to be woken.
    fn end(&mut self, slot: Slot)
        ensures { self.new ≡ record self.old {
          waking = record self.old.waking {
            late = slice_set self.old.waking.late slot (may_sleep self.old.waking slot);
          };
        } }
    {
        if self.waking.end(slot) {
            self.flags.slots.leave(slot);
        }
    }

    /// A turn found work.
    pub fn work(&mut self)
        ensures { self.new ≡ record self.old { idle = 0 } }
    {
        self.idle = 0;
    }

    /// No batch is out: the sequencer's thread is woken if it waits for that.
    pub fn empty(&self) {
        if self.flags.out.swap(false, Ordering::SeqCst) {
            self.flags.sequencer.ring();
        }
    }

    /// Whether a batch is about to come, ahead of which the thread was woken: it stays awake for it a while, and yields to others.
    pub fn stays_awake(&mut self) -> bool
        ensures { MatchBool result
            ((self.old.yields < 32) ×
            (self.new ≡ record self.old { yields = self.old.yields + 1 }))
            ((self.new ≡ record self.old { yields = 0 }) ⊎
            ((32 ≤ self.old.yields) × (self.new ≡ self.old))) }
    {
        if !self.flags.near.load(Ordering::SeqCst) {
            self.yields = 0;
            return false;
        }
        if self.yields >= EARLY_YIELDS {
            self.flags.near.store(false, Ordering::SeqCst);
            return false;
        }
        self.yields += 1;
        thread::yield_now();
        true
    }

    /// Announces that it waits for a slot to receive: whether that is new. If so, try once more: only a slot that receives after
    /// it rings.
    pub fn announce_full(&self) -> bool {
        !self.flags.full.swap(true, Ordering::SeqCst)
    }

    /// Waits for work.
    pub fn wait<R: Wait>(&mut self, rt: &R)
        ensures { self.new ≡ record self.old { idle = min (self.old.idle + 1) (2 ^ 32 - 1) } }
    {
        self.flags.flusher.wait(rt, self.idle);
        self.idle = self.idle.saturating_add(1);
    }

    /// Stops all threads.
    pub fn stop_all(&self) {
        self.flags.stop_all();
    }
}
