//! The bells of the slots.

ghost use Rattle.std.specs.Prelude.{◌≡◌, ◌<◌, ℕ, option_copied, slice_get, slice_index};
ghost use Rattle.alm_types.specs.Sizes.{slot_count};
ghost use Rattle.alm_wake.specs.Places.{IsPlaceOf};

use crate::bell::Bell;
use alm_types::{SLOTS, Slot};
use std::sync::atomic::{AtomicU32, Ordering};

/// The bells of the slots.
#[derive(Drop)]
pub struct Bells<B: Bell + Drop> {
    bells: Vec<B>,
    // The index of each slot's bell; not below their number if it has none.
    places: [usize; SLOTS],
    // The slots that one thread left for another to wake: a bit each.
    left: AtomicU32,
}

impl<B: Bell + Drop> Bells<B> {
    /// The bells of these slots, in their order.
    pub fn new(slots: &[Slot], bells: Vec<B>) -> Self
        ensures bells { result.bells ≡ bells }
        ensures places { (s : ℕ) → s < slot_count →
            IsPlaceOf s slots.now (slice_index result.places s) }
    {
        let mut places = [usize::MAX; SLOTS];
        for place in 0..slots.len() {
            places[slots[place].number() as usize] = place;
        }
        Bells {
            bells,
            places,
            left: AtomicU32::new(0),
        }
    }

    /// The bell of a slot.
    pub fn of(&self, slot: Slot) -> Option<&B>
        ensures { option_copied result ≡
            slice_get self.now.bells.items (slice_index self.now.places slot) }
    {
        self.bells.get(self.places[slot.number() as usize])
    }

    /// Rings the bell of a slot.
    pub fn ring(&self, slot: Slot) {
        if let Some(bell) = self.of(slot) {
            bell.ring();
        }
    }

    /// Leaves the bell of a slot to the next caller of [`Bells::ring_left`].
    pub fn leave(&self, slot: Slot) {
        self.left.fetch_or(1u32 << slot.number(), Ordering::SeqCst);
    }

    /// Rings those that were left. Only a load if none was.
    pub fn ring_left(&self) {
        if self.left.load(Ordering::SeqCst) == 0 {
            return;
        }
        let left = self.left.swap(0, Ordering::SeqCst);
        for number in 0..SLOTS {
            if left & (1u32 << number) != 0 {
                if let Some(bell) = self.bells.get(self.places[number]) {
                    bell.ring();
                }
            }
        }
    }

    /// Rings them all.
    pub fn ring_all(&self) {
        for bell in &self.bells {
            bell.ring();
        }
    }
}
