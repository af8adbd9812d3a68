//! The slots that the open batch waits for.
ghost use Rattle.std.specs.Prelude.{◌≡◌, ◌↔◌, ◌<◌, ◌/◌, None, min, IsTrue, IfSome, MatchBool, slice_set, true, false};
ghost use Rattle.alm_wake.specs.Gatherings.{Awaits, AwaitsSome, AwaitsNone, nobody};
ghost use Rattle.alm_types.specs.Sizes.{slot_count};

use crate::bounds::GATHER_SHARE;
use crate::pause::Pause;
use alm_types::{SLOTS, Slot};

/// The slots that the open batch waits for, after the batch before it is back: those that were answered by that one soon ask
/// again. A batch without them commits for a part of the slots, while the others wait for a whole commit more. It waits for no
/// other slot, and only once, so a slot that doesn't come delays the others by one pause.
#[derive(Clone, Copy, Debug, PartialEq, Eq)]
pub struct Gathering {
    /// The slots that have a request in the open batch.
    joined: [bool; SLOTS],
    /// The slots that had one in the batch before it.
    answered: [bool; SLOTS],
    /// The open batch has not waited yet.
    fresh: bool,
}

impl Gathering {
    /// No slot is awaited yet.
    pub fn new() -> Self
        ensures { result ≡ record { joined = nobody; answered = nobody; fresh = false } }
    {
        Gathering {
            joined: [false; SLOTS],
            answered: [false; SLOTS],
            fresh: false,
        }
    }

    /// A request of this slot came into the open batch.
    pub fn join(&mut self, slot: Slot)
        ensures { self.new ≡ record self.old { joined = slice_set self.old.joined slot true } }
    {
        self.joined[slot.number() as usize] = true;
    }

    /// The open batch was sealed: the next one waits for the slots that are in it.
    pub fn seal(&mut self)
        ensures { self.new ≡ record { joined = nobody; answered = self.old.joined; fresh = true } }
    {
        *self = Gathering {
            joined: [false; SLOTS],
            answered: self.joined,
            fresh: true,
        };
    }

    /// Whether this slot is awaited: it was answered by the batch before, and has none in the open one.
    pub fn awaits(&self, slot: usize) -> bool
        requires { slot < slot_count }
        ensures { IsTrue result ↔ Awaits self.now slot }
    {
        self.answered[slot] && !self.joined[slot]
    }

    // Whether a slot is awaited.
    fn awaits_some(&self) -> bool
        ensures { MatchBool result (AwaitsSome self.now) (AwaitsNone self.now) }
    {
        for slot in 0..SLOTS {
            if self.awaits(slot) {
                return true;
            }
        }
        false
    }

    /// The pause that the open batch may wait, if the batch before it is back after `took` microseconds. There is one if a slot
    /// is awaited, once a batch, and for half of that time at most.
    pub fn pause(&mut self, took: u64) -> Option<Pause>
        ensures whom { IfSome result (λ _. AwaitsSome self.old) }
        ensures long { IfSome result (λ pause. pause.micros ≡ min (took / 2) 500) }
        ensures often { IfSome result
            (λ _. (self.old.fresh ≡ true) × (self.new ≡ record self.old { fresh = false })) }
        ensures none { result ≡ None →
            (self.new ≡ self.old) × (self.old.fresh ≡ true → AwaitsNone self.old) }
    {
        if !self.fresh || !self.awaits_some() {
            return None;
        }
        self.fresh = false;
        Some(Pause::of(took / GATHER_SHARE))
    }
}
