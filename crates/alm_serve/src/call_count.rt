//! How many calls of a device have begun and ended.

use std::sync::atomic::{AtomicU64, Ordering};

/// How many calls of a device have begun and ended, for other threads to see. One call begins after the other has ended.
#[derive(Drop)]
pub struct CallCount {
    // One for each beginning and each end: odd while a call is under way.
    marks: AtomicU64,
}

impl CallCount {
    /// No call has begun.
    pub fn new() -> Self {
        CallCount {
            marks: AtomicU64::new(0),
        }
    }

    /// A call begins, or the one that is under way has ended.
    pub fn mark(&self) {
        self.marks.fetch_add(1, Ordering::SeqCst);
    }

    /// The call that is under way, by a number that no other call of that device has.
    pub fn under_way(&self) -> Option<u64> {
        let marks = self.marks.load(Ordering::SeqCst);
        (marks % 2 == 1).then_some(marks)
    }
}
