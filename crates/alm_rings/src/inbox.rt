//! The sequencer's end of a slot.

ghost use Rattle.std.specs.Prelude.{◌≡◌, length};
ghost use Rattle.rtrb.specs.Ring.{received};

use crate::serials::Serials;
use alm_types::{Slot, Want};
use rtrb::Consumer;
use std::alloc::Global;

/// The sequencer's end of a slot: it takes requests.
#[derive(Drop)]
pub struct Inbox {
    pub(crate) slot: Slot,
    pub(crate) serial: u64,
    pub(crate) requests: Consumer<Want, Global, Serials>,
    ghost serials: { serial ≡ length (received requests) },
}

impl Inbox {
    ghost use Rattle.std.specs.Prelude.{◌≡◌, ◌<◌, ◌++◌, [], ◌∷◌, IfSome, IfNone, IsSome, IsTrue, ◌↔◌, length};
    ghost use mathlib.Core.List.{IsPrefix};
    ghost use Rattle.alm_rings.specs.Ends.{SameInbox, taken_of, waiting_in};

    /// The slot whose end it is.
    pub fn slot(&self) -> Slot
        ensures { result ≡ self.now.slot }
    {
        self.slot
    }

    /// Whether a request is known to wait.
    pub fn waits(&self) -> bool
        ensures { IsTrue result ↔ (0 < length (waiting_in self.now)) }
    {
        self.requests.cached_slots() > 0
    }

    /// The next request, after its serial. `None` if no request is known to wait.
    pub fn take(&mut self) -> Option<(u64, Want)>
        ensures end { SameInbox self.old self.new }
        ensures some { IfSome result
            (λ next. (taken_of self.new ≡ taken_of self.old ++ next.1 ∷ []) ×
            (next.0 ≡ length (taken_of self.new))) }
        ensures known { IfSome result
            (λ next. IsPrefix (waiting_in self.old) (next.1 ∷ waiting_in self.new)) }
        ensures none { IfNone result
            ((taken_of self.new ≡ taken_of self.old) ×
            (waiting_in self.new ≡ waiting_in self.old)) }
        ensures cause { 0 < length (waiting_in self.old) → IsSome result }
    {
        match self.requests.pop() {
            Ok(want) => {
                self.serial += 1;
                Some((self.serial, want))
            }
            Err(_) => None,
        }
    }
}
