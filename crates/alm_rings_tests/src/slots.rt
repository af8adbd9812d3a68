//! The three ends of a slot.

ghost use Rattle.alm_rings.specs.Ends.{SameConsole, SameInbox, SameOutbox};

use crate::one::{One, accepted, ack};
use alm_rings::{Busy, Console, Inbox, Outbox, SlotReport, beside, close_slot, open_slot};
use alm_types::{Slot, Verdict};
use std::process::Abort;
use std::test::Fail;

fn sends(rt: &impl Abort, console: &mut Console<One>, serial: u64)
    ensures { SameConsole console.old console.new }
{
    assert_eq!(rt; console.send(ack(serial)), Ok(serial));
}

fn takes(rt: &impl Abort, inbox: &mut Inbox, serial: u64)
    ensures { SameInbox inbox.old inbox.new }
{
    assert_eq!(rt; inbox.take(), Some((serial, ack(serial))));
}

fn releases(rt: &impl Abort, outbox: &mut Outbox<One>, serial: u64)
    ensures { SameOutbox outbox.old outbox.new }
{
    let receipt = accepted(outbox.slot(), serial);
    assert!(rt; outbox.release(receipt).is_ok());
}

fn receives(rt: &impl Abort, console: &mut Console<One>, serial: u64)
    ensures { SameConsole console.old console.new }
{
    match console.receive() {
        Some(receipt) => {
            assert_eq!(rt; receipt.serial, serial);
            assert_eq!(rt; receipt.number, 1);
            assert_eq!(rt; receipt.slot, console.slot());
            assert_eq!(rt; receipt.verdict, Verdict::Accepted(ack(serial).action()));
            assert_eq!(rt; receipt.told.action, ack(serial).action());
        }
        None => assert!(rt; false, "no receipt {serial}"),
    }
}

#[test]
fn sixty_four_requests_may_be_unanswered(rt: HostRuntime) -> Result<(), Fail> {
    let slot = Slot::new(0).ok_or("slot")?;
    let (mut console, mut inbox, mut outbox) = open_slot(rt.alloc(), slot)?;
    assert_eq!(rt; console.unanswered(), 0);
    for serial in 1..=64 {
        sends(&rt, &mut console, serial);
        assert_eq!(rt; console.unanswered(), serial);
    }
    assert_eq!(rt; console.send(ack(65)), Err(Busy(ack(65))), "nothing taken");
    for serial in 1..=64 {
        takes(&rt, &mut inbox, serial);
    }
    assert_eq!(rt; inbox.take(), None);
    assert_eq!(rt;
        console.send(ack(65)),
        Err(Busy(ack(65))),
        "nothing answered"
    );
    releases(&rt, &mut outbox, 1);
    assert_eq!(rt;
        console.send(ack(65)),
        Err(Busy(ack(65))),
        "nothing received"
    );
    receives(&rt, &mut console, 1);
    assert_eq!(rt; console.unanswered(), 63);
    sends(&rt, &mut console, 65);
    assert_eq!(rt; console.send(ack(66)), Err(Busy(ack(66))), "one received");
    takes(&rt, &mut inbox, 65);
    Ok(())
}

#[test]
fn sixty_four_receipts_may_wait(rt: HostRuntime) -> Result<(), Fail> {
    let slot = Slot::new(0).ok_or("slot")?;
    let (mut console, _inbox, mut outbox) = open_slot(rt.alloc(), slot)?;
    assert!(rt; console.receive().is_none(), "nothing sent");
    sends(&rt, &mut console, 1);
    assert!(rt; console.receive().is_none(), "nothing released");
    for serial in 1..=64 {
        releases(&rt, &mut outbox, serial);
    }
    let receipt = accepted(outbox.slot(), 65);
    match outbox.release(receipt) {
        Ok(()) => assert!(rt; false, "no place"),
        Err(receipt) => assert_eq!(rt; receipt.serial, 65),
    }
    receives(&rt, &mut console, 1);
    releases(&rt, &mut outbox, 65);
    assert_eq!(rt; console.unanswered(), 0);
    for serial in 2..=65 {
        receives(&rt, &mut console, serial);
    }
    assert!(rt; console.receive().is_none(), "all received");
    assert_eq!(rt; console.unanswered(), 0, "65 receipts of one request");
    Ok(())
}

// The ends aren't synchronised here: each checks its ring again, however many came before.
#[test]
fn a_slot_goes_on_behind_a_million_requests(rt: HostRuntime) -> Result<(), Fail> {
    let slot = Slot::new(0).ok_or("slot")?;
    let (mut console, mut inbox, mut outbox) = open_slot(rt.alloc(), slot)?;
    for serial in 1..=1_000_200 {
        sends(&rt, &mut console, serial);
        takes(&rt, &mut inbox, serial);
        releases(&rt, &mut outbox, serial);
        receives(&rt, &mut console, serial);
    }
    Ok(())
}

#[test]
fn a_round_of_each_slot(rt: HostRuntime) -> Result<(), Fail> {
    for number in 0..18 {
        let slot = Slot::new(number).ok_or("slot")?;
        let (mut console, mut inbox, mut outbox) = open_slot(rt.alloc(), slot)?;
        assert_eq!(rt;
            (console.slot(), inbox.slot(), outbox.slot()),
            (slot, slot, slot)
        );
        assert!(rt; !inbox.waits(), "nothing sent");
        sends(&rt, &mut console, 1);
        assert!(rt; !inbox.waits(), "not told");
        beside(&mut console, &mut inbox, &mut outbox);
        assert!(rt; inbox.waits(), "told");
        takes(&rt, &mut inbox, 1);
        assert!(rt; !inbox.waits(), "taken");
        releases(&rt, &mut outbox, 1);
        assert!(rt; !console.waits(), "not told");
        beside(&mut console, &mut inbox, &mut outbox);
        assert!(rt; console.waits(), "told");
        receives(&rt, &mut console, 1);
        assert!(rt; !console.waits(), "received");
    }
    Ok(())
}

#[test]
fn a_report_counts_what_went_through(rt: HostRuntime) -> Result<(), Fail> {
    let slot = Slot::new(17).ok_or("slot")?;
    let (mut console, mut inbox, mut outbox) = open_slot(rt.alloc(), slot)?;
    sends(&rt, &mut console, 1);
    sends(&rt, &mut console, 2);
    sends(&rt, &mut console, 3);
    sends(&rt, &mut console, 4);
    takes(&rt, &mut inbox, 1);
    takes(&rt, &mut inbox, 2);
    takes(&rt, &mut inbox, 3);
    releases(&rt, &mut outbox, 1);
    releases(&rt, &mut outbox, 2);
    receives(&rt, &mut console, 1);
    let want = SlotReport {
        sent: 4,
        taken: 3,
        released: 2,
        received: 1,
    };
    assert_eq!(rt; close_slot(console, inbox, outbox), Some(want));
    Ok(())
}

#[test]
fn busy_says_what_it_is(rt: HostRuntime) -> Result<(), Fail> {
    let text = format!(in rt.alloc(); "{}", Busy(ack(1)))?;
    assert_eq!(rt; text.as_str(), "the request was not sent");
    Ok(())
}
