//! The ends of some slots.
ghost use Rattle.std.specs.Prelude.{◌≡◌, map, IfOk};
ghost use Rattle.alm_rings.specs.Placed.{AreApart};
ghost use Rattle.alm_threads.specs.Serving.{ServesNoOthers};
ghost use Rattle.alm_threads.specs.Slots.{AreNew, AreNewConsoles, AreTied};

use alm_rings::{SlotEnds, Told, open_slot};
use alm_types::Slot;
use std::alloc::{AllocError, Global};

/// The ends of these slots, new and in their order; an error only if out of memory.
pub fn open_some<T: Told + Drop>(alloc: Global, slots: &[Slot]) -> Result<SlotEnds<T>, AllocError>
    requires { AreApart (λ s. s) slots.now }
    ensures order { IfOk result (λ e. map (λ c. c.slot) e.consoles.items ≡ slots.now) }
    ensures new { IfOk result (λ e. AreNew e.inboxes.items e.outboxes.items) }
    ensures new_consoles { IfOk result (λ e. AreNewConsoles e.consoles.items) }
    ensures tied { IfOk result (λ e. AreTied e.consoles.items e.inboxes.items e.outboxes.items) }
    ensures only { IfOk result (λ e. ServesNoOthers slots.now e.inboxes.items) }
{
    let mut consoles = Vec::with_capacity(alloc, slots.len())?;
    let mut inboxes = Vec::with_capacity(alloc, slots.len())?;
    let mut outboxes = Vec::with_capacity(alloc, slots.len())?;
    for slot in slots {
        let (console, inbox, outbox) = open_slot(alloc, *slot)?;
        consoles.push_reserved(console);
        inboxes.push_reserved(inbox);
        outboxes.push_reserved(outbox);
    }
    Ok(SlotEnds {
        consoles,
        inboxes,
        outboxes,
    })
}
