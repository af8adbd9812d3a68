//! The flusher's end of a slot.

ghost use Rattle.std.specs.Prelude.{◌≡◌, ◌-◌, ◌^◌, length, min};
ghost use Rattle.rtrb.specs.Ring.{sent, producer_capacity};
ghost use Rattle.alm_types.specs.Sizes.{most_out};

use crate::receipt::Receipt;
use crate::told::Told;
use alm_types::Slot;
use rtrb::{Producer, PushError};

/// The flusher's end of a slot: it releases receipts.
#[derive(Drop)]
pub struct Outbox<T: Told + Drop> {
    pub(crate) slot: Slot,
    // How many receipts were released, up to the last count.
    pub(crate) released: u64,
    pub(crate) replies: Producer<Receipt<T>>,
    ghost count: { released ≡ min (length (sent replies)) (2 ^ 64 - 1) },
    ghost room: { producer_capacity replies ≡ most_out },
}

impl<T: Told + Drop> Outbox<T> {
    ghost use Rattle.std.specs.Prelude.{◌≡◌, ◌+◌, ◌<◌, ◌≤◌, ◌++◌, [], ◌∷◌, OnOk, IfErr, IsOk};
    ghost use Rattle.alm_rings.specs.Ends.{SameOutbox, released_of, room_in};

    /// The slot whose end it is.
    pub fn slot(&self) -> Slot
        ensures { result ≡ self.now.slot }
    {
        self.slot
    }

    /// Releases a receipt. If no place of the ring is known to be free, the receipt is returned and nothing changes.
    pub fn release(&mut self, receipt: Receipt<T>) -> Result<(), Receipt<T>>
        ensures end { SameOutbox self.old self.new }
        ensures ok { OnOk result ((released_of self.new ≡ released_of self.old ++ receipt ∷ [])
            × (room_in self.old ≤ room_in self.new + 1)) }
        ensures full { IfErr result
            (λ back. (back ≡ receipt) × (released_of self.new ≡ released_of self.old) ×
            (room_in self.new ≡ room_in self.old)) }
        ensures cause { 0 < room_in self.old → IsOk result }
    {
        match self.replies.push(receipt) {
            Ok(()) => {
                self.released = self.released.saturating_add(1);
                Ok(())
            }
            Err(PushError::Full(receipt)) => Err(receipt),
        }
    }
}
