//! What a run and a reader of its device signal to each other.

use std::sync::atomic::{AtomicBool, AtomicU64, Ordering};

/// What a run and a reader of its device signal to each other: hints, on which no contract depends. The flusher's thread notes how
/// many actions are stored before each of its turns. Then it looks whether a checkpoint is asked for, because the device was found
/// damaged: at the latest after its longest sleep.
#[derive(Drop)]
pub struct Healing {
    stored: AtomicU64,
    asked: AtomicBool,
}

impl Healing {
    /// Nothing is known to be stored, and no checkpoint is asked for.
    pub fn new() -> Self {
        Healing {
            stored: AtomicU64::new(0),
            asked: AtomicBool::new(false),
        }
    }

    /// This number of actions is stored.
    pub fn note(&self, stored: u64) {
        self.stored.store(stored, Ordering::SeqCst);
    }

    /// How many actions are known to be stored: what is read from now on has them.
    pub fn stored(&self) -> u64 {
        self.stored.load(Ordering::SeqCst)
    }

    /// Asks for a checkpoint.
    pub fn ask(&self) {
        self.asked.store(true, Ordering::SeqCst);
    }

    /// Whether one is asked for that hasn't begun.
    pub fn is_asked(&self) -> bool {
        self.asked.load(Ordering::SeqCst)
    }

    /// It has begun.
    pub fn begin(&self) {
        self.asked.store(false, Ordering::SeqCst);
    }
}
