//! A hold that others open.

use alm_disk::Hold;
use alm_types::Slot;
use std::sync::atomic::{AtomicBool, AtomicU64, Ordering};
use std::thread;

/// How often it is checked whether it may continue.
const TURNS: u64 = 20_000_000;

/// Holds the first sync after the first take until another slot's request was taken and another slot has looked, since it began.
/// After 20 million turns, each of which yields once, the sync fails.
#[derive(Drop)]
pub struct Gate {
    // The slot whose request was taken first; 0 if none was.
    first: AtomicU64,
    begun: AtomicBool,
    takes: AtomicU64,
    looks: AtomicU64,
    /// How often a bound was met.
    pub late: AtomicU64,
}

impl Gate {
    /// One that nothing has passed; `is_held` says whether it holds.
    pub fn new(is_held: bool) -> Self {
        Gate {
            begun: AtomicBool::new(!is_held),
            first: AtomicU64::new(0),
            takes: AtomicU64::new(0),
            looks: AtomicU64::new(0),
            late: AtomicU64::new(0),
        }
    }

    /// Whether it has begun to hold.
    pub fn has_begun(&self) -> bool {
        self.begun.load(Ordering::SeqCst)
    }

    /// Whether another slot has looked since.
    pub fn is_looked(&self) -> bool {
        self.looks.load(Ordering::SeqCst) > 0
    }

    // The same, and another's request was taken.
    fn is_open(&self) -> bool {
        self.is_looked() && self.takes.load(Ordering::SeqCst) > 0
    }

    /// Waits in this turn until another slot has looked.
    pub fn linger(&self) {
        for _ in 0..TURNS {
            if self.is_looked() {
                return;
            }
            thread::yield_now();
        }
        self.late.fetch_add(1, Ordering::SeqCst);
    }

    // Whether this is another slot while it holds.
    fn is_other(&self, slot: Slot) -> bool {
        let first = self.first.load(Ordering::SeqCst);
        self.has_begun() && first != u64::from(slot.number()) + 1
    }
}

impl Hold for Gate {
    ghost answers = { λ _ _. Unit {0} };

    fn before_sync(&self) -> bool {
        if self.first.load(Ordering::SeqCst) == 0 || self.begun.swap(true, Ordering::SeqCst) {
            return true;
        }
        for _ in 0..TURNS {
            if self.is_open() {
                return true;
            }
            thread::yield_now();
        }
        self.late.fetch_add(1, Ordering::SeqCst);
        false
    }

    fn taken(&self, slot: Slot) {
        if self.first.load(Ordering::SeqCst) == 0 {
            self.first
                .store(u64::from(slot.number()) + 1, Ordering::SeqCst);
        } else if self.is_other(slot) {
            self.takes.fetch_add(1, Ordering::SeqCst);
        }
    }

    fn looked(&self, slot: Slot) {
        if self.is_other(slot) {
            self.looks.fetch_add(1, Ordering::SeqCst);
        }
    }
}
