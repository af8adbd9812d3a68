//! A bell that counts its rings.

use alm_types::{SLOTS, Slot};
use alm_wake::{Bell, Bells, Flags};
use std::alloc::{AllocError, Global};
use std::sync::atomic::{AtomicU64, Ordering};
use std::sync::{Arc, Wait};

/// A bell that counts its rings, and by which nobody waits.
#[derive(Drop)]
pub struct Counter {
    pub rings: Arc<AtomicU64, Global>,
}

impl Bell for Counter {
    fn ring(&self) {
        self.rings.fetch_add(1, Ordering::SeqCst);
    }

    fn wait<R: Wait>(&self, _rt: &R, _idle: u32) {}
}

/// How often each slot's bell was rung.
#[derive(Drop)]
pub struct Counts {
    rings: Vec<Arc<AtomicU64, Global>>,
}

impl Counts {
    /// How often this slot's bell was rung, of as many slots as there are bells.
    pub fn of(&self, slot: Slot) -> u64 {
        match self.rings.get(slot.number() as usize) {
            Some(rings) => rings.load(Ordering::SeqCst),
            None => 0,
        }
    }

    /// How often all of them were.
    pub fn all(&self) -> u64 {
        let mut sum = 0u64;
        for rings in &self.rings {
            sum = sum.saturating_add(rings.load(Ordering::SeqCst));
        }
        sum
    }
}

/// The flags of all 18 slots, and how often each slot's bell was rung.
pub fn flags_of(alloc: Global) -> Result<(Flags<Counter>, Counts), AllocError> {
    let mut slots = Vec::with_capacity(alloc, SLOTS)?;
    let mut bells = Vec::with_capacity(alloc, SLOTS)?;
    let mut counts = Vec::with_capacity(alloc, SLOTS)?;
    for number in 0..18_u8 {
        if let Some(slot) = Slot::new(number) {
            let rings = Arc::new(alloc, AtomicU64::new(0))?;
            counts.push(Arc::try_clone(&rings)?)?;
            bells.push(Counter { rings })?;
            slots.push(slot)?;
        }
    }
    let flags = Flags::new(Bells::new(slots.as_slice(), bells));
    Ok((flags, Counts { rings: counts }))
}
