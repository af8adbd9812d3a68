//! The ends of a slot in two threads.

ghost use Rattle.alm_rings.specs.Ends.{SameConsole, SameInbox, SameOutbox};

use crate::one::{One, accepted, ack};
use alm_rings::{Console, Inbox, Outbox, SlotReport, close_slot, open_slot};
use alm_types::Slot;
use std::alloc::{AllocError, Global};
use std::process::Abort;
use std::sync::Wait;
use std::test::Fail;
use std::thread;
use std::thread::Threads;

/// How many requests go through.
const REQUESTS: u64 = 100_000;

/// Sends all requests, and receives all their receipts in order.
fn ask(rt: &(impl Abort + Wait), console: Console<One>) -> Console<One>
    ensures { SameConsole console result }
{
    let mut console = console;
    let mut sent = 0;
    let mut received = 0;
    for _ in rt.forever() {
        if received >= REQUESTS {
            break;
        }
        if sent < REQUESTS && console.send(ack(sent + 1)).is_ok() {
            sent += 1;
        } else if let Some(receipt) = console.receive() {
            received += 1;
            assert_eq!(rt; receipt.serial, received);
        } else {
            thread::yield_now();
        }
    }
    console
}

/// Answers all requests, each as it comes.
fn answer(rt: &(impl Abort + Wait), inbox: Inbox, outbox: Outbox<One>) -> (Inbox, Outbox<One>)
    ensures { SameInbox inbox result.0 × SameOutbox outbox result.1 }
{
    let mut inbox = inbox;
    let mut outbox = outbox;
    let mut answered = 0;
    for _ in rt.forever() {
        if answered >= REQUESTS {
            break;
        }
        match inbox.take() {
            Some((serial, want)) => {
                answered += 1;
                assert_eq!(rt; (serial, want), (answered, ack(answered)));
                let receipt = accepted(outbox.slot(), serial);
                assert!(rt; outbox.release(receipt).is_ok());
            }
            None => thread::yield_now(),
        }
    }
    (inbox, outbox)
}

fn run<R: Threads + Wait + Abort + Sync>(
    rt: &R,
    alloc: Global,
    slot: Slot,
) -> Result<Option<SlotReport>, AllocError> {
    let (console, inbox, outbox) = open_slot::<One>(alloc, slot)?;
    let (console, (inbox, outbox)) = thread::join(
        rt,
        move || -> Console<One>
            ensures { SameConsole console result }
        { ask(rt, console) },
        move || -> (Inbox, Outbox<One>)
            ensures { SameInbox inbox result.0 × SameOutbox outbox result.1 }
        { answer(rt, inbox, outbox) },
    );
    Ok(close_slot(console, inbox, outbox))
}

#[test]
fn each_request_is_answered(rt: HostRuntime) -> Result<(), Fail> {
    let slot = Slot::new(16).ok_or("slot")?;
    let want = SlotReport {
        sent: REQUESTS,
        taken: REQUESTS,
        released: REQUESTS,
        received: REQUESTS,
    };
    assert_eq!(rt; run(&rt, rt.alloc(), slot)?, Some(want));
    Ok(())
}
