//! All slots together.

use crate::one::{One, accepted, ack};
use alm_rings::{Console, Inbox, Outbox, open_slot};
use alm_types::{Slot, Want};
use std::alloc::Global;
use std::process::Abort;
use std::test::Fail;

/// The ends of a slot.
#[derive(Drop)]
struct Ends {
    console: Console<One>,
    inbox: Inbox,
    outbox: Outbox<One>,
}

/// What a slot sends as its request of this serial: no other slot sends the same.
fn request(slot: Slot, serial: u8) -> Want {
    ack(told_by(slot, serial))
}

/// What the receipt of this request has in place of its serial: no other slot gets the same.
fn told_by(slot: Slot, serial: u8) -> u64 {
    u64::from(slot.number()) * 10 + u64::from(serial)
}

/// The ends of all 18 slots.
fn open_all(alloc: Global) -> Result<Vec<Ends>, Fail> {
    let mut slots = Vec::with_capacity(alloc, 18)?;
    for number in 0..18 {
        let slot = Slot::new(number).ok_or("slot")?;
        let (console, inbox, outbox) = open_slot(alloc, slot)?;
        slots.push(Ends {
            console,
            inbox,
            outbox,
        })?;
    }
    Ok(slots)
}

/// Each slot sends a request.
fn send_all(rt: &impl Abort, slots: &mut [Ends], serial: u8) {
    for ends in slots {
        let want = request(ends.console.slot(), serial);
        assert_eq!(rt; ends.console.send(want), Ok(u64::from(serial)));
    }
}

/// Each slot's request is taken and its receipt released.
fn answer_all(rt: &impl Abort, slots: &mut [Ends], serial: u8) {
    for ends in slots {
        let want = request(ends.inbox.slot(), serial);
        assert_eq!(rt; ends.inbox.take(), Some((u64::from(serial), want)));
        let slot = ends.outbox.slot();
        let receipt = accepted(slot, told_by(slot, serial));
        assert!(rt; ends.outbox.release(receipt).is_ok());
    }
}

/// Each slot receives its receipt, and no other.
fn receive_all(rt: &impl Abort, slots: &mut [Ends], serial: u8) {
    for ends in slots {
        let wanted = told_by(ends.console.slot(), serial);
        match ends.console.receive() {
            Some(receipt) => assert_eq!(rt; receipt.serial, wanted),
            None => assert!(rt; false, "no receipt {wanted}"),
        }
        assert!(rt; ends.console.receive().is_none());
    }
}

#[test]
fn all_slots_go_round_beside_each_other(rt: HostRuntime) -> Result<(), Fail> {
    let mut slots = open_all(rt.alloc())?;
    for serial in 1..=3 {
        send_all(&rt, &mut slots, serial);
        answer_all(&rt, &mut slots, serial);
        receive_all(&rt, &mut slots, serial);
    }
    Ok(())
}
