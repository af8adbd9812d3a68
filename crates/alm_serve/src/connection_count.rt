//! How many connections have ended.

use crate::slot_bell::SlotBell;
use alm_wake::Bell;
use std::sync::atomic::{AtomicU64, Ordering};

/// How many connections have ended, of as many as the server is to have.
#[derive(Drop)]
pub struct ConnectionCount {
    // 0 is without end.
    most: u64,
    ended: AtomicU64,
    bells: Vec<SlotBell>,
}

impl ConnectionCount {
    /// `most` connections in all, 0 without end. These bells are rung when the last one has ended.
    pub fn new(most: u32, bells: Vec<SlotBell>) -> Self {
        ConnectionCount {
            most: u64::from(most),
            ended: AtomicU64::new(0),
            bells,
        }
    }

    /// Whether the last connection has ended.
    pub fn are_over(&self) -> bool {
        self.most > 0 && self.ended.load(Ordering::SeqCst) >= self.most
    }

    /// One connection more has ended.
    pub fn end_one(&self) {
        self.ended.fetch_add(1, Ordering::SeqCst);
        if self.are_over() {
            for bell in &self.bells {
                bell.ring();
            }
        }
    }
}
