//! What the sources note while they run.

use alm_types::Slot;
use std::alloc::{AllocError, Global};
use std::sync::atomic::{AtomicU64, Ordering};

/// What the sources note while they run.
#[derive(Drop)]
pub struct Notes {
    /// How often something was wrong.
    pub wrong: AtomicU64,
    /// The greatest number that was reported.
    pub told: AtomicU64,
    /// How many looks were answered, and how many refused.
    pub shown: AtomicU64,
    pub unseen: AtomicU64,
    // Which request each number is of; 0 if none is noted.
    requests: Vec<AtomicU64>,
}

impl Notes {
    /// No notes yet, with room for `numbers` numbers.
    pub fn new(alloc: Global, numbers: usize) -> Result<Self, AllocError> {
        let mut requests = Vec::new(alloc);
        for _ in 0..numbers {
            requests.push(AtomicU64::new(0))?;
        }
        Ok(Notes {
            wrong: AtomicU64::new(0),
            told: AtomicU64::new(0),
            shown: AtomicU64::new(0),
            unseen: AtomicU64::new(0),
            requests,
        })
    }

    /// Something was wrong.
    pub fn is_wrong(&self) {
        self.wrong.fetch_add(1, Ordering::SeqCst);
    }

    /// A number was reported to a slot.
    pub fn is_told(&self, number: u64) {
        self.told.fetch_max(number, Ordering::SeqCst);
    }

    /// A slot's request of a serial was accepted under a number: wrong if another one was.
    pub fn is_accepted(&self, slot: Slot, serial: u64, number: u64) {
        let request = serial
            .wrapping_mul(18)
            .wrapping_add(u64::from(slot.number()));
        match self.place(number) {
            Some(place) => {
                if place.swap(request, Ordering::SeqCst) != 0 {
                    self.is_wrong();
                }
            }
            None => self.is_wrong(),
        }
    }

    /// The slot and serial of the request that was accepted under a number.
    pub fn accepted(&self, number: u64) -> Option<(Slot, u64)> {
        let request = self.place(number)?.load(Ordering::SeqCst);
        if request == 0 {
            return None;
        }
        let slot = Slot::new((request % 18) as u8)?;
        Some((slot, request / 18))
    }

    /// Whether each request is noted that was accepted under a number up to this one.
    pub fn are_noted_up_to(&self, number: u64) -> bool {
        for before in 0..number {
            if self.accepted(before + 1).is_none() {
                return false;
            }
        }
        true
    }

    // The place of the request of a number.
    fn place(&self, number: u64) -> Option<&AtomicU64> {
        if number == 0 {
            return None;
        }
        match usize::try_from(number - 1) {
            Ok(place) => self.requests.get(place),
            Err(_) => None,
        }
    }
}
