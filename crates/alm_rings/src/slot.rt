//! The three ends of a slot.

ghost use Rattle.std.specs.Prelude.{◌≡◌, ◌+◌, ◌-◌, ◌<◌, ◌≤◌, ◌^◌, ◌++◌, [], IfOk, IfSome, IsSome, length, min};
ghost use mathlib.Core.List.{IsPrefix};
ghost use Rattle.rtrb.specs.Ring.{IsPair};
ghost use Rattle.alm_rings.specs.Ends.{AreEnds, SameConsole, SameInbox, SameOutbox, sent_of, received_of, taken_of, released_of, waiting_in, coming_to, room_of, room_in};
ghost use Rattle.alm_types.specs.Sizes.{most_out};

use crate::console::{Console, MOST_OUT};
use crate::inbox::Inbox;
use crate::outbox::Outbox;
use crate::serials::Serials;
use crate::slot_report::SlotReport;
use crate::told::Told;
use alm_types::Slot;
use rtrb::RingBuffer;
use std::alloc::{AllocError, Global};

/// The three ends of a new slot, over two rings of 64; an error only if out of memory.
pub fn open_slot<T: Told + Drop>(
    alloc: Global,
    slot: Slot,
) -> Result<(Console<T>, Inbox, Outbox<T>), AllocError>
    ensures ends { IfOk result (λ r. AreEnds r.0 r.1 r.2) }
    ensures slot { IfOk result (λ r. (r.0.slot ≡ slot) × (r.1.slot ≡ slot) × (r.2.slot ≡ slot)) }
    ensures new { IfOk result
        (λ r. (sent_of r.0 ≡ []) × (received_of r.0 ≡ []) × (taken_of r.1 ≡ []) ×
        (released_of r.2 ≡ [])) }
    ensures room { IfOk result (λ r. (room_of r.0 ≡ most_out) × (room_in r.2 ≡ most_out)) }
    ensures nothing_waits { IfOk result (λ r. (waiting_in r.1 ≡ []) × (coming_to r.0 ≡ [])) }
{
    let (requests, inbox) = RingBuffer::with_protocol::<Global, Serials>(alloc, MOST_OUT)?;
    let (outbox, replies) = RingBuffer::new(alloc, MOST_OUT)?;
    let console = Console {
        slot,
        serial: 0,
        receipts: 0,
        requests,
        replies,
    };
    let inbox = Inbox {
        slot,
        serial: 0,
        requests: inbox,
    };
    let outbox = Outbox {
        slot,
        released: 0,
        replies: outbox,
    };
    Ok((console, inbox, outbox))
}

/// Synchronises the two ends of a slot's ring of requests, in one thread: each learns what the other did. Takes no
/// memory.
pub fn requests_beside<T: Told + Drop>(console: &mut Console<T>, inbox: &mut Inbox)
    requires { IsPair console.old.requests inbox.old.requests }
    ensures ends { IsPair console.new.requests inbox.new.requests }
    ensures same { SameConsole console.old console.new × SameInbox inbox.old inbox.new }
    ensures sent { (sent_of console.new ≡ sent_of console.old) ×
        (taken_of inbox.new ≡ taken_of inbox.old) }
    ensures replies { (received_of console.new ≡ received_of console.old) ×
        (coming_to console.new ≡ coming_to console.old) }
    ensures requests { taken_of inbox.new ++ waiting_in inbox.new ≡ sent_of console.new }
    ensures serials { length (sent_of console.new) < 2 ^ 64 }
    ensures few { length (sent_of console.new) ≤ most_out + length (received_of console.new) }
    ensures room { most_out + length (taken_of inbox.new) ≤
        room_of console.new + length (sent_of console.new) }
{
    // for the proof: the serial is a number of 64 bits, so fewer than 2^64 requests were sent
    let _serial = console.serial;
    console.requests.slots_beside(&mut inbox.requests);
    inbox.requests.slots_beside(&mut console.requests);
}

/// Synchronises the two ends of a slot's ring of receipts, in one thread: each learns what the other did. Takes no
/// memory.
pub fn replies_beside<T: Told + Drop>(console: &mut Console<T>, outbox: &mut Outbox<T>)
    requires { IsPair outbox.old.replies console.old.replies }
    ensures ends { IsPair outbox.new.replies console.new.replies }
    ensures same { SameConsole console.old console.new × SameOutbox outbox.old outbox.new }
    ensures released { (received_of console.new ≡ received_of console.old) ×
        (released_of outbox.new ≡ released_of outbox.old) }
    ensures requests { (sent_of console.new ≡ sent_of console.old) ×
        (room_of console.new ≡ room_of console.old) }
    ensures replies { received_of console.new ++ coming_to console.new ≡ released_of outbox.new }
    ensures room { most_out + length (received_of console.new) ≤
        room_in outbox.new + length (released_of outbox.new) }
{
    outbox.replies.slots_beside(&mut console.replies);
    console.replies.slots_beside(&mut outbox.replies);
}

/// Synchronises a slot's three ends, in one thread: each learns what the others did. Takes no memory.
pub fn beside<T: Told + Drop>(console: &mut Console<T>, inbox: &mut Inbox, outbox: &mut Outbox<T>)
    requires { AreEnds console.old inbox.old outbox.old }
    ensures ends { AreEnds console.new inbox.new outbox.new }
    ensures same { SameConsole console.old console.new × SameInbox inbox.old inbox.new ×
        SameOutbox outbox.old outbox.new }
    ensures console { (sent_of console.new ≡ sent_of console.old) ×
        (received_of console.new ≡ received_of console.old) }
    ensures others { (taken_of inbox.new ≡ taken_of inbox.old) ×
        (released_of outbox.new ≡ released_of outbox.old) }
    ensures requests { taken_of inbox.new ++ waiting_in inbox.new ≡ sent_of console.new }
    ensures replies { received_of console.new ++ coming_to console.new ≡ released_of outbox.new }
    ensures serials { length (sent_of console.new) < 2 ^ 64 }
    ensures few { length (sent_of console.new) ≤ most_out + length (received_of console.new) }
    ensures room { most_out + length (taken_of inbox.new) ≤
        room_of console.new + length (sent_of console.new) }
    ensures reply_room { most_out + length (received_of console.new) ≤
        room_in outbox.new + length (released_of outbox.new) }
{
    requests_beside(console, inbox);
    replies_beside(console, outbox);
}

/// Ends a slot, and reports what went through it. Always `Some`, since it has all the slot's ends.
pub fn close_slot<T: Told + Drop>(
    console: Console<T>,
    inbox: Inbox,
    outbox: Outbox<T>,
) -> Option<SlotReport>
    requires { AreEnds console inbox outbox }
    ensures some { IsSome result }
    ensures requests { IfSome result
        (λ r. (r.sent ≡ length (sent_of console)) × (r.taken ≡ length (taken_of inbox))) }
    ensures receipts { IfSome result
        (λ r. (r.released ≡ min (length (released_of outbox)) (2 ^ 64 - 1)) ×
        (r.received ≡ min (length (received_of console)) (2 ^ 64 - 1))) }
    ensures taken { IsPrefix (taken_of inbox) (sent_of console) }
    ensures received { IsPrefix (received_of console) (released_of outbox) }
{
    let (mut console, mut inbox, mut outbox) = (console, inbox, outbox);
    beside(&mut console, &mut inbox, &mut outbox);
    Some(SlotReport {
        sent: console.serial,
        taken: inbox.serial,
        released: outbox.released,
        received: console.receipts,
    })
}
