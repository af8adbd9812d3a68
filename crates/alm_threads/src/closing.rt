//! The slots are closed.
ghost use Rattle.std.specs.Prelude.{◌≡◌, ◌≢◌, ◌≤◌, ℕ, [], vec_len, vec_capacity};
ghost use Rattle.alm_rings.specs.Placed.{AreApart, inbox_at, outbox_at};
ghost use Rattle.alm_threads.specs.Runs.{AreClosed};
ghost use Rattle.alm_threads.specs.Slots.{AreTied};

use alm_rings::{Console, Inbox, Outbox, SlotReport, Told, close_slot};
use alm_types::Slot;

// The inbox of a slot, taken out.
fn take_inbox(inboxes: &mut Vec<Inbox>, slot: Slot) -> Option<Inbox>
    ensures inbox { result ≡ inbox_at slot inboxes.old.items }
    ensures others { (s : ℕ) → s ≢ slot →
        inbox_at s inboxes.new.items ≡ inbox_at s inboxes.old.items }
{
    for place in 0..inboxes.len() {
        if inboxes[place].slot().number() == slot.number() {
            return Some(inboxes.remove(place));
        }
    }
    None
}

// The outbox of a slot, taken out.
fn take_outbox<T: Told + Drop>(outboxes: &mut Vec<Outbox<T>>, slot: Slot) -> Option<Outbox<T>>
    ensures outbox { result ≡ outbox_at slot outboxes.old.items }
    ensures others { (s : ℕ) → s ≢ slot →
        outbox_at s outboxes.new.items ≡ outbox_at s outboxes.old.items }
{
    for place in 0..outboxes.len() {
        if outboxes[place].slot().number() == slot.number() {
            return Some(outboxes.remove(place));
        }
    }
    None
}

/// Closes the slots in the order of their consoles. Takes no memory: the reports go into `room`.
pub fn close_all<T: Told + Drop>(
    consoles: Vec<Console<T>>,
    inboxes: Vec<Inbox>,
    outboxes: Vec<Outbox<T>>,
    room: Vec<Option<SlotReport>>,
) -> Vec<Option<SlotReport>>
    requires apart { AreApart (λ c. c.slot) consoles.items }
    requires tied { AreTied consoles.items inboxes.items outboxes.items }
    requires room { (room.items ≡ []) × (vec_len consoles ≤ vec_capacity room) }
    ensures closed { AreClosed consoles.items inboxes.items outboxes.items result.items }
{
    let (mut inboxes, mut outboxes, mut reports) = (inboxes, outboxes, room);
    for console in consoles {
        let slot = console.slot();
        let Some(inbox) = take_inbox(&mut inboxes, slot) else {
            unreachable!()
        };
        let Some(outbox) = take_outbox(&mut outboxes, slot) else {
            unreachable!()
        };
        reports.push_reserved(close_slot(console, inbox, outbox));
    }
    reports
}
