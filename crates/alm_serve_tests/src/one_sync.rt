//! A hold that lets the opening's sync pass, and no other.

use alm_disk::Hold;
use alm_types::Slot;
use std::sync::atomic::{AtomicBool, Ordering};

/// Lets the first sync pass, and no other.
#[derive(Drop)]
pub struct OneSync {
    passed: AtomicBool,
}

impl OneSync {
    /// One that nothing has passed.
    pub fn new() -> Self {
        OneSync {
            passed: AtomicBool::new(false),
        }
    }
}

impl Hold for OneSync {
    ghost answers = { λ _ _. Unit {0} };

    fn before_sync(&self) -> bool {
        !self.passed.swap(true, Ordering::SeqCst)
    }

    fn taken(&self, _slot: Slot) {}

    fn looked(&self, _slot: Slot) {}
}
