//! A hold that keeps a commit back.

use alm_disk::Hold;
use alm_types::Slot;
use std::sync::atomic::{AtomicBool, AtomicU64, Ordering};
use std::thread;

/// How often it is checked whether a client has been answered.
const TURNS: u32 = 200_000;

/// Lets the opening's sync pass, and holds the next one back until a client has been answered; or for a number of turns, each of
/// which yields once.
#[derive(Drop)]
pub struct Latch {
    syncs: AtomicU64,
    answered: AtomicBool,
}

impl Latch {
    /// One that nothing has passed.
    pub fn new() -> Self {
        Latch {
            syncs: AtomicU64::new(0),
            answered: AtomicBool::new(false),
        }
    }

    /// A client has been answered.
    pub fn answer(&self) {
        self.answered.store(true, Ordering::SeqCst);
    }
}

impl Hold for Latch {
    ghost answers = { λ _ _. Unit {0} };

    fn before_sync(&self) -> bool {
        if self.syncs.fetch_add(1, Ordering::SeqCst) != 1 {
            return true;
        }
        for _ in 0..TURNS {
            if self.answered.load(Ordering::SeqCst) {
                return true;
            }
            thread::yield_now();
        }
        true
    }

    fn taken(&self, _slot: Slot) {}

    fn looked(&self, _slot: Slot) {}
}
