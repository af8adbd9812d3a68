//! A hold that counts.

use alm_disk::Hold;
use alm_types::Slot;
use std::sync::atomic::{AtomicU64, Ordering};

/// Lets each sync begin, or none, and counts how often it is asked, and informed of slot 5.
#[derive(Drop)]
pub struct Counted {
    begins: bool,
    pub asked: AtomicU64,
    pub taken: AtomicU64,
    pub looked: AtomicU64,
}

impl Counted {
    /// One with all counts 0.
    pub fn new(begins: bool) -> Self {
        Counted {
            begins,
            asked: AtomicU64::new(0),
            taken: AtomicU64::new(0),
            looked: AtomicU64::new(0),
        }
    }
}

/// One more, if it is the slot that is counted.
fn count(slot: Slot, times: &AtomicU64) {
    if slot.number() == 5 {
        times.fetch_add(1, Ordering::SeqCst);
    }
}

impl Hold for Counted {
    ghost use Rattle.std.specs.Prelude.{◌≡◌};

    ghost answers = { λ hold begins. begins ≡ hold.begins };

    fn before_sync(&self) -> bool {
        self.asked.fetch_add(1, Ordering::SeqCst);
        self.begins
    }

    fn taken(&self, slot: Slot) {
        count(slot, &self.taken);
    }

    fn looked(&self, slot: Slot) {
        count(slot, &self.looked);
    }
}
