//! Requests and their receipts between two threads.

ghost use Rattle.std.specs.Prelude.{IfOk, IsSome};
ghost use Rattle.alm_rings.specs.Ends.{SameConsole, SameInbox, SameOutbox};

use crate::rings::untold::{Untold, refused};
use alm_rings::{Console, Inbox, Outbox, SlotReport, close_slot, open_slot};
use alm_types::{Action, AlarmId, Slot, Want};
use std::alloc::{AllocError, Global};
use std::hint::spin_loop;
use std::sync::Wait;
use std::thread;
use std::thread::Threads;

/// The most requests or receipts of one turn.
const TURN: usize = 64;

/// How many times a processor pauses before it polls for receipts: each poll delays the thread that releases them.
const PAUSES: u32 = 40;

fn pause() {
    for _ in 0..PAUSES {
        spin_loop();
    }
}

/// Sends as many requests as it can, and returns the serial of the last.
fn send(console: &mut Console<Untold>, requests: u64) -> Option<u64>
    ensures { SameConsole console.old console.new }
{
    let mut last = None;
    for _ in 0..TURN {
        if last == Some(requests) {
            break;
        }
        let Ok(serial) = console.send(Want::Do(Action::Ack(AlarmId(0)))) else {
            break;
        };
        last = Some(serial);
    }
    last
}

/// Receives what has come, and returns the serial of the last receipt.
fn receive(console: &mut Console<Untold>) -> Option<u64>
    ensures { SameConsole console.old console.new }
{
    let mut last = None;
    for _ in 0..TURN {
        let Some(receipt) = console.receive() else {
            break;
        };
        last = Some(receipt.serial);
        if !console.waits() {
            break;
        }
    }
    last
}

/// Sends `requests` requests and receives their receipts, by turns: as many as can be sent, then as many as have come.
fn ask(rt: &impl Wait, console: Console<Untold>, requests: u64) -> Console<Untold>
    ensures { SameConsole console result }
{
    let mut console = console;
    let (mut sent, mut received) = (0u64, 0u64);
    for _ in rt.forever() {
        if received >= requests {
            break;
        }
        if sent < requests {
            sent = send(&mut console, requests).unwrap_or(sent);
        }
        if !console.waits() {
            pause();
        }
        match receive(&mut console) {
            Some(last) => received = last,
            None => thread::yield_now(),
        }
    }
    console
}

/// Answers a number of requests, each as it comes.
fn answer(
    rt: &impl Wait,
    inbox: Inbox,
    outbox: Outbox<Untold>,
    requests: u64,
) -> (Inbox, Outbox<Untold>)
    ensures { SameInbox inbox result.0 × SameOutbox outbox result.1 }
{
    let mut inbox = inbox;
    let mut outbox = outbox;
    let mut answered = 0u64;
    for _ in rt.forever() {
        if answered >= requests {
            break;
        }
        match inbox.take() {
            Some((serial, want)) => {
                answered = serial;
                let receipt = refused(outbox.slot(), serial, want);
                let _ = outbox.release(receipt);
            }
            None => thread::yield_now(),
        }
    }
    (inbox, outbox)
}

/// Sends a number of requests through a slot, up to its report.
pub fn exchange<R: Threads + Wait + Sync>(
    rt: &R,
    alloc: Global,
    slot: Slot,
    requests: u64,
) -> Result<Option<SlotReport>, AllocError>
    ensures { IfOk result (λ report. IsSome report) }
{
    let (console, inbox, outbox) = open_slot::<Untold>(alloc, slot)?;
    let (console, (inbox, outbox)) = thread::join(
        rt,
        move || -> Console<Untold>
            ensures { SameConsole console result }
        { ask(rt, console, requests) },
        move || -> (Inbox, Outbox<Untold>)
            ensures { SameInbox inbox result.0 × SameOutbox outbox result.1 }
        { answer(rt, inbox, outbox, requests) },
    );
    Ok(close_slot(console, inbox, outbox))
}
