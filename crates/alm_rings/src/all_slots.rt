//! The ends of all slots.

ghost use Rattle.std.specs.Prelude.{◌≡◌, ◌<◌, ℕ, [], length, slice_get, Some, IfOk, IsSome};
ghost use Rattle.rtrb.specs.Ring.{IsPair};
ghost use Rattle.alm_rings.specs.declared.console.Console.{Console};
ghost use Rattle.alm_rings.specs.declared.inbox.Inbox.{Inbox};
ghost use Rattle.alm_rings.specs.declared.outbox.Outbox.{Outbox};
ghost use Rattle.alm_rings.specs.Ends.{sent_of, received_of};
ghost use Rattle.alm_rings.specs.Placed.{AreApart, inbox_at, outbox_at, taken_by, released_by};
ghost use Rattle.alm_types.specs.Sizes.{slot_count};

use crate::console::Console;
use crate::inbox::Inbox;
use crate::outbox::Outbox;
use crate::slot::open_slot;
use crate::told::Told;
use alm_types::{SLOTS, Slot};
use std::alloc::{AllocError, Global};

/// The ends of all slots, in the order of the slots.
#[derive(Drop)]
pub struct SlotEnds<T: Told + Drop> {
    pub consoles: Vec<Console<T>>,
    pub inboxes: Vec<Inbox>,
    pub outboxes: Vec<Outbox<T>>,
}

/// The ends of all slots, new; an error only if out of memory.
pub fn open_slots<T: Told + Drop>(alloc: Global) -> Result<SlotEnds<T>, AllocError>
    ensures count { IfOk result (λ e. length e.consoles.items ≡ slot_count) }
    ensures apart { IfOk result
        (λ e. AreApart (λ i. i.slot) e.inboxes.items × AreApart (λ o. o.slot) e.outboxes.items) }
    ensures inboxes { IfOk result
        (λ e. (s : ℕ) → s < slot_count → IsSome (inbox_at s e.inboxes.items)) }
    ensures outboxes { IfOk result
        (λ e. (s : ℕ) → s < slot_count → IsSome (outbox_at s e.outboxes.items)) }
    ensures requests { IfOk result
        (λ e. (s : ℕ) (c : Console _ _) (i : Inbox) → slice_get e.consoles.items s ≡ Some c →
        inbox_at s e.inboxes.items ≡ Some i → IsPair c.requests i.requests) }
    ensures replies { IfOk result
        (λ e. (s : ℕ) (c : Console _ _) (o : Outbox _ _) → slice_get e.consoles.items s ≡ Some c →
        outbox_at s e.outboxes.items ≡ Some o → IsPair o.replies c.replies) }
    ensures consoles { IfOk result
        (λ e. (s : ℕ) (c : Console _ _) → slice_get e.consoles.items s ≡ Some c →
        (sent_of c ≡ []) × (received_of c ≡ [])) }
    ensures taken { IfOk result (λ e. (s : ℕ) → taken_by s e.inboxes.items ≡ []) }
    ensures released { IfOk result (λ e. (s : ℕ) → released_by s e.outboxes.items ≡ []) }
{
    let mut consoles = Vec::with_capacity(alloc, SLOTS)?;
    let mut inboxes = Vec::with_capacity(alloc, SLOTS)?;
    let mut outboxes = Vec::with_capacity(alloc, SLOTS)?;
    for number in 0..SLOTS as u8 {
        match Slot::new(number) {
            Some(slot) => {
                let (console, inbox, outbox) = open_slot(alloc, slot)?;
                consoles.push_reserved(console);
                inboxes.push_reserved(inbox);
                outboxes.push_reserved(outbox);
            }
            None => unreachable!(),
        }
    }
    Ok(SlotEnds {
        consoles,
        inboxes,
        outboxes,
    })
}
