//! The console's end of a slot.

ghost use Rattle.std.specs.Prelude.{◌≡◌, ◌≤◌, ◌+◌, ◌-◌, ◌^◌, length, min};
ghost use Rattle.rtrb.specs.Ring.{sent, received, producer_capacity};
ghost use Rattle.alm_types.specs.Sizes.{most_out};

use crate::busy::Busy;
use crate::receipt::Receipt;
use crate::serials::{LAST_SERIAL, Serials};
use crate::told::Told;
use alm_types::{Slot, Want};
use rtrb::{Consumer, Producer, PushError};
use std::alloc::Global;

/// How many requests may be unanswered, and how many each ring of a slot holds.
pub const MOST_OUT: usize = 64;

/// The console's end of a slot: it sends requests, and receives receipts.
#[derive(Drop)]
pub struct Console<T: Told + Drop> {
    pub(crate) slot: Slot,
    pub(crate) serial: u64,
    // How many receipts were received, up to the last count.
    pub(crate) receipts: u64,
    pub(crate) requests: Producer<Want, Global, Serials>,
    pub(crate) replies: Consumer<Receipt<T>>,
    ghost serials: { serial ≡ length (sent requests) },
    ghost count: { receipts ≡ min (length (received replies)) (2 ^ 64 - 1) },
    ghost few: { length (sent requests) ≤ most_out + length (received replies) },
    ghost room: { producer_capacity requests ≡ most_out },
}

impl<T: Told + Drop> Console<T> {
    ghost use Rattle.std.specs.Prelude.{◌≡◌, ◌+◌, ◌<◌, ◌≤◌, ◌-◌, ◌^◌, ◌++◌, [], ◌∷◌, IfOk, IfErr, IfSome, IfNone, IsOk, IsSome, length, IsTrue, ◌↔◌};
    ghost use mathlib.Core.List.{IsPrefix};
    ghost use Rattle.alm_rings.specs.Ends.{SameConsole, sent_of, received_of, coming_to, room_of};

    /// The slot whose end it is.
    pub fn slot(&self) -> Slot
        ensures { result ≡ self.now.slot }
    {
        self.slot
    }

    /// How many requests are unanswered: sent, and their receipts not received.
    pub fn unanswered(&self) -> u64
        ensures count { result ≡ length (sent_of self.now) - length (received_of self.now) }
        ensures few { result ≤ most_out }
    {
        self.serial.saturating_sub(self.receipts)
    }

    /// Sends a request, and gives its serial, from 1.
    ///
    /// Changes nothing and returns [`Busy`] with what was wanted if [`MOST_OUT`] requests are unanswered, if no place is known to be
    /// free, or if the serials are used up.
    pub fn send(&mut self, want: Want) -> Result<u64, Busy>
        ensures end { SameConsole self.old self.new }
        ensures receipts { (received_of self.new ≡ received_of self.old) ×
            (coming_to self.new ≡ coming_to self.old) }
        ensures sent { IfOk result
            (λ serial. (sent_of self.new ≡ sent_of self.old ++ want ∷ []) ×
            (serial ≡ length (sent_of self.new)) × (room_of self.old ≤ room_of self.new + 1)) }
        ensures few { IfOk result
            (λ _. length (sent_of self.old) < most_out + length (received_of self.old)) }
        ensures busy { IfErr result
            (λ busy. (busy.0 ≡ want) × (sent_of self.new ≡ sent_of self.old) ×
            (room_of self.new ≡ room_of self.old)) }
        ensures cause { length (sent_of self.old) < most_out + length (received_of self.old) →
            0 < room_of self.old → length (sent_of self.old) < 2 ^ 64 - 1 → IsOk result }
    {
        if self.unanswered() >= MOST_OUT as u64 || self.serial == LAST_SERIAL {
            return Err(Busy(want));
        }
        match self.requests.push(want) {
            Ok(()) => {
                self.serial += 1;
                Ok(self.serial)
            }
            Err(PushError::Full(want)) => Err(Busy(want)),
        }
    }

    /// Whether a receipt is known to wait.
    pub fn waits(&self) -> bool
        ensures { IsTrue result ↔ (0 < length (coming_to self.now)) }
    {
        self.replies.cached_slots() > 0
    }

    /// The next receipt. `None` if no receipt is known to wait.
    pub fn receive(&mut self) -> Option<Receipt<T>>
        ensures end { SameConsole self.old self.new }
        ensures requests { (sent_of self.new ≡ sent_of self.old) ×
            (room_of self.new ≡ room_of self.old) }
        ensures some { IfSome result
            (λ receipt. received_of self.new ≡ received_of self.old ++ receipt ∷ []) }
        ensures known { IfSome result
            (λ receipt. IsPrefix (coming_to self.old) (receipt ∷ coming_to self.new)) }
        ensures none { IfNone result
            ((received_of self.new ≡ received_of self.old) ×
            (coming_to self.new ≡ coming_to self.old)) }
        ensures cause { 0 < length (coming_to self.old) → IsSome result }
    {
        match self.replies.pop() {
            Ok(receipt) => {
                self.receipts = self.receipts.saturating_add(1);
                Some(receipt)
            }
            Err(_) => None,
        }
    }
}
