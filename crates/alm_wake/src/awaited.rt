//! The slots that the sequencer's thread waits for, as the slots see them.

ghost use Rattle.std.specs.Prelude.{◌≡◌, ◌↔◌, ℕ, ◌<◌, ◌^◌, ◌⊎◌, IsTrue};
ghost use Rattle.std.specs.Int.{bit_at};
ghost use Rattle.std.specs.Int.RustNames.{count_ones};
ghost use Rattle.alm_types.specs.Sizes.{slot_count};
ghost use Rattle.alm_wake.specs.Gatherings.{Awaits};

use crate::bounds::{AWAKE, FEW};
use crate::gathering::Gathering;
use alm_types::{SLOTS, Slot};
use std::sync::atomic::{AtomicU32, Ordering};

/// The slots that the sequencer's thread waits for, a bit each. The thread is woken when two of them are still to come, so that
/// it is awake as the last one comes. If it isn't awake then, the last one wakes it.
#[derive(Drop)]
pub struct Awaited {
    slots: AtomicU32,
}

// The bits of the slots that a gathering awaits.
fn bits_of(gathering: &Gathering) -> u32
    ensures bits { (s : ℕ) → s < slot_count →
        ((bit_at result s ≡ 1) ↔ Awaits gathering.now s) }
    ensures others { result < 2 ^ slot_count }
{
    let mut bits: u32 = 0;
    for slot in 0..SLOTS {
        if gathering.awaits(slot) {
            bits |= 1u32 << slot;
        }
    }
    bits
}

// Whether the thread is woken by the slot that leaves these to come: as none is left, or as few are and it sleeps.
fn wakes(left: u32) -> bool
    ensures { IsTrue result ↔
        ((left ≡ 0) ⊎ ((bit_at left 31 ≡ 0) × (count_ones left ≡ 2))) }
{
    left == 0 || left & AWAKE == 0 && left.count_ones() == FEW
}

impl Awaited {
    /// No slot is awaited.
    pub fn new() -> Self {
        Awaited {
            slots: AtomicU32::new(0),
        }
    }

    /// Starts to await the slots of this gathering: check once more for what they sent before.
    pub fn begin(&self, gathering: &Gathering) {
        self.slots.store(bits_of(gathering), Ordering::SeqCst);
    }

    /// The slots of this gathering that are still awaited: whether any hasn't come.
    pub fn narrow(&self, gathering: &Gathering) -> bool {
        let bits = bits_of(gathering);
        self.slots.fetch_and(bits, Ordering::SeqCst) & bits != 0
    }

    /// The thread is awake: no slot wakes it from now on.
    pub fn attend(&self) {
        self.slots.fetch_or(AWAKE, Ordering::SeqCst);
    }

    /// Whether all have come.
    pub fn have_come(&self) -> bool {
        self.slots.load(Ordering::SeqCst) & !AWAKE == 0
    }

    /// It is woken again from now on: whether all have come.
    pub fn listen(&self) -> bool {
        self.slots.fetch_and(!AWAKE, Ordering::SeqCst) & !AWAKE == 0
    }

    /// No slot is awaited any longer.
    pub fn end(&self) {
        self.slots.store(0, Ordering::SeqCst);
    }

    /// This slot has sent something: whether it was awaited, and the thread is to be woken. Only a load if it wasn't awaited.
    pub fn come(&self, slot: Slot) -> bool {
        let bit = 1u32 << slot.number();
        if self.slots.load(Ordering::SeqCst) & bit == 0 {
            return false;
        }
        let left = self.slots.fetch_and(!bit, Ordering::SeqCst) & !bit;
        wakes(left)
    }
}
