//! All slots together.

ghost use Rattle.std.specs.Prelude.{◌≡◌, ◌<◌, ℕ, [], IfOk, IsSome};
ghost use Rattle.alm_rings.specs.Placed.{AreApart, inbox_at, taken_by, released_by};

use crate::course::{Call, Outcome, differs_at, open_worked};
use crate::parts::Parts;
use alm_board::{Board, PlainTold};
use alm_common_tests::{moment_of, reading_of, same, slot_of};
use alm_flush::Release;
use alm_rings::{Console, Outbox, Receipt, SlotEnds, open_slots};
use alm_seq::{Seal, Take};
use alm_store::Store;
use alm_types::{Action, AlarmId, Answer, Moment, Reading, Refusal, Slot, Verdict};
use std::alloc::{AllocError, Global};
use std::test::Fail;

const DEVICE: usize = 65_536;

/// What each slot asks.
fn wanted(slot: Slot, moment: Moment, low: Reading) -> Action {
    match slot.number() {
        17 => Action::Clock(moment),
        16 => Action::Value(AlarmId(3), low),
        number => Action::Ack(AlarmId(u32::from(number))),
    }
}

/// What it is answered after the clock's action.
fn answered(slot: Slot, moment: Moment) -> Verdict {
    match slot.number() {
        17 => Verdict::Accepted(Action::Clock(moment)),
        16 => Verdict::Refused(Refusal::NoChange, 1),
        0..4 => Verdict::Refused(Refusal::NotUnacknowledged, 1),
        _ => Verdict::Refused(Refusal::NoSuchAlarm, 1),
    }
}

#[test]
fn each_slot_gets_its_own(rt: HostRuntime) -> Result<(), Fail> {
    let moment = moment_of(1000)?;
    let low = reading_of(7)?;
    let mut sends = Vec::new(rt.alloc());
    let mut takes = Vec::new(rt.alloc());
    let mut releases = Vec::new(rt.alloc());
    let mut receives = Vec::new(rt.alloc());
    for number in 0..18 {
        let slot = slot_of(17 - number)?;
        sends.push((
            Call::Send(slot, wanted(slot, moment, low)),
            Outcome::Sent(Some(1)),
        ))?;
        takes.push((
            Call::Take(slot),
            Outcome::Took(Take::Taken(answered(slot, moment))),
        ))?;
        releases.push((Call::Release, Outcome::Released(Release::Released(slot))))?;
        receives.push((
            Call::Receive(slot),
            Outcome::Received(Some((1, 1, answered(slot, moment)))),
        ))?;
    }
    let mut course = sends;
    course.extend_from_slice(&takes)?;
    course.push((Call::Seal, Outcome::Sealed(Seal::Sealed)))?;
    // One action: four device calls.
    course.push((Call::Store(8), Outcome::Stored(Some(4))))?;
    course.extend_from_slice(&releases)?;
    course.push((Call::Release, Outcome::Released(Release::Nothing)))?;
    course.push((Call::GiveBack, Outcome::GaveBack(true)))?;
    course.extend_from_slice(&receives)?;
    same(differs_at(rt.alloc(), DEVICE, 64, &course)?, None)?;
    Ok(())
}

const ACK: Action = Action::Ack(AlarmId(0));

#[test]
fn a_batch_takes_256_entries(rt: HostRuntime) -> Result<(), Fail> {
    let judged = Outcome::Took(Take::Taken(Verdict::Refused(Refusal::NotUnacknowledged, 0)));
    let mut sends = Vec::new(rt.alloc());
    let mut takes = Vec::new(rt.alloc());
    for number in 0..5 {
        let slot = slot_of(number)?;
        for serial in 1..=64 {
            sends.push((Call::Send(slot, ACK), Outcome::Sent(Some(serial))))?;
        }
        if number < 4 {
            for _ in 0..64 {
                takes.push((Call::Take(slot), judged))?;
            }
        }
    }
    let last = slot_of(4)?;
    let mut course = sends;
    course.extend_from_slice(&takes)?;
    course.push((Call::Take(last), Outcome::Took(Take::BatchFull)))?;
    course.push((Call::Seal, Outcome::Sealed(Seal::Sealed)))?;
    course.push((Call::Take(last), judged))?;
    same(differs_at(rt.alloc(), DEVICE, 64, &course)?, None)?;
    Ok(())
}

const SECOND_REFUSED: Verdict = Verdict::Refused(Refusal::NotUnacknowledged, 2);

#[test]
fn the_verdict_is_of_the_actions_before(rt: HostRuntime) -> Result<(), Fail> {
    let feed = slot_of(16)?;
    let console = slot_of(5)?;
    let high = reading_of(900)?;
    let course = [
        (
            Call::Send(feed, Action::Value(AlarmId(0), high)),
            Outcome::Sent(Some(1)),
        ),
        (Call::Send(console, ACK), Outcome::Sent(Some(1))),
        (Call::Send(console, ACK), Outcome::Sent(Some(2))),
        (
            Call::Take(feed),
            Outcome::Took(Take::Taken(Verdict::Accepted(Action::Value(AlarmId(0), high)))),
        ),
        (
            Call::Take(console),
            Outcome::Took(Take::Taken(Verdict::Accepted(ACK))),
        ),
        // In the same batch.
        (
            Call::Take(console),
            Outcome::Took(Take::Taken(SECOND_REFUSED)),
        ),
        (Call::Seal, Outcome::Sealed(Seal::Sealed)),
        (Call::Store(8), Outcome::Stored(Some(4))),
        (Call::Release, Outcome::Released(Release::Released(feed))),
        (Call::Release, Outcome::Released(Release::Released(console))),
        (Call::Release, Outcome::Released(Release::Released(console))),
        (
            Call::Receive(console),
            Outcome::Received(Some((1, 2, Verdict::Accepted(ACK)))),
        ),
        (
            Call::Receive(console),
            Outcome::Received(Some((2, 2, SECOND_REFUSED))),
        ),
    ];
    same(differs_at(rt.alloc(), DEVICE, 64, &course)?, None)?;
    Ok(())
}

const REFUSED: Verdict = Verdict::Refused(Refusal::NotUnacknowledged, 0);

/// A slot's requests from a serial to another are refused, and stored in one batch without a device call.
fn refuse(
    course: &mut Vec<(Call, Outcome)>,
    slot: Slot,
    first: u64,
    last: u64,
) -> Result<(), AllocError> {
    for serial in first..=last {
        course.push((
            Call::Send(slot, Action::Ack(AlarmId(1))),
            Outcome::Sent(Some(serial)),
        ))?;
        course.push((Call::Take(slot), Outcome::Took(Take::Taken(REFUSED))))?;
    }
    course.push((Call::Seal, Outcome::Sealed(Seal::Sealed)))?;
    course.push((Call::Store(1), Outcome::Stored(Some(1))))?;
    Ok(())
}

/// 64 receipts fill the ring.
fn filling(alloc: Global, slot: Slot) -> Result<Vec<(Call, Outcome)>, AllocError> {
    let mut course = Vec::new(alloc);
    refuse(&mut course, slot, 1, 64)?;
    course.push((
        Call::Send(slot, Action::Ack(AlarmId(1))),
        Outcome::Sent(None),
    ))?;
    for _receipt in 0..64 {
        course.push((Call::Release, Outcome::Released(Release::Released(slot))))?;
    }
    course.push((Call::GiveBack, Outcome::GaveBack(true)))?;
    Ok(course)
}

/// The 65th reply stays.
fn full(alloc: Global, slot: Slot) -> Result<Vec<(Call, Outcome)>, AllocError> {
    let mut course = Vec::new(alloc);
    course.push((
        Call::Receive(slot),
        Outcome::Received(Some((1, 0, REFUSED))),
    ))?;
    refuse(&mut course, slot, 65, 65)?;
    for _again in 0..2 {
        course.push((Call::Release, Outcome::Released(Release::Full(slot))))?;
    }
    course.push((Call::GiveBack, Outcome::GaveBack(false)))?;
    Ok(course)
}

/// The reply that is released after a receipt was received.
fn going(slot: Slot) -> [(Call, Outcome); 2] {
    [
        (Call::Release, Outcome::Released(Release::Released(slot))),
        (Call::GiveBack, Outcome::GaveBack(true)),
    ]
}

/// Answers the slot's own console once, so that one of its requests is answered.
fn answer<K: Store>(parts: &Parts<K>, outboxes: &mut Vec<Outbox<PlainTold>>) -> bool {
    let Some(slot) = Slot::new(9) else {
        return false;
    };
    let receipt = Receipt {
        slot,
        serial: 1,
        verdict: REFUSED,
        number: 0,
        told: parts.flusher.board().tell(),
    };
    match outboxes.get_mut(9) {
        Some(outbox) => outbox.release(receipt).is_ok(),
        None => false,
    }
}

/// Whether that console's next receipts have these serials.
fn hears(consoles: &mut Vec<Console<PlainTold>>, first: u64, last: u64) -> bool {
    let mut same = true;
    for serial in first..=last {
        same = same
            && match consoles.get_mut(9).and_then(Console::receive) {
                Some(receipt) => receipt.serial == serial,
                None => false,
            };
    }
    same
}

/// The ends of a ring that fills: replies are released to consoles that receive none, so that more requests can be
/// sent.
#[derive(Drop)]
struct Crossed {
    ends: SlotEnds<PlainTold>,
    answers: Vec<Outbox<PlainTold>>,
    deaf: Vec<Console<PlainTold>>,
}

fn cross_ends(alloc: Global) -> Result<Crossed, AllocError>
    ensures apart { IfOk result
        (λ x. AreApart (λ i. i.slot) x.ends.inboxes.items ×
        AreApart (λ o. o.slot) x.ends.outboxes.items) }
    ensures all { IfOk result (λ x. (s : ℕ) → s < 18 → IsSome (inbox_at s x.ends.inboxes.items)) }
    ensures taken { IfOk result (λ x. (s : ℕ) → taken_by s x.ends.inboxes.items ≡ []) }
    ensures released { IfOk result (λ x. (s : ℕ) → released_by s x.ends.outboxes.items ≡ []) }
{
    let first = open_slots(alloc)?;
    let second = open_slots(alloc)?;
    Ok(Crossed {
        ends: SlotEnds {
            consoles: first.consoles,
            inboxes: first.inboxes,
            outboxes: second.outboxes,
        },
        answers: first.outboxes,
        deaf: second.consoles,
    })
}

/// The courses of a ring that fills, is full and continues.
#[derive(Drop)]
struct Courses {
    filling: Vec<(Call, Outcome)>,
    full: Vec<(Call, Outcome)>,
    going: [(Call, Outcome); 2],
}

/// 64 receipts wait, the 65th reply stays, and all come in order after one is received.
fn fills_the_ring<K: Store>(
    parts: &mut Parts<K>,
    answers: &mut Vec<Outbox<PlainTold>>,
    deaf: &mut Vec<Console<PlainTold>>,
    courses: &Courses,
    shown: &mut Answer,
) -> bool {
    parts.differs_at(&courses.filling, shown).is_none()
        && answer(parts, answers)
        && parts.differs_at(&courses.full, shown).is_none()
        && hears(deaf, 1, 1)
        && parts.differs_at(&courses.going, shown).is_none()
        && hears(deaf, 2, 65)
}

/// Whether a full ring keeps the reply.
fn keeps_the_reply(alloc: Global, courses: &Courses) -> Result<bool, AllocError> {
    let mut shown = Answer::new(alloc);
    let Crossed {
        ends,
        mut answers,
        mut deaf,
    } = cross_ends(alloc)?;
    let store = open_worked(alloc, DEVICE, 64)?;
    let mut parts = Parts::new(alloc, ends, store)?;
    let fills = fills_the_ring(&mut parts, &mut answers, &mut deaf, courses, &mut shown);
    drop(parts);
    Ok(fills)
}

#[test]
fn a_full_ring_keeps_the_reply(rt: HostRuntime) -> Result<(), Fail> {
    let slot = slot_of(9)?;
    let courses = Courses {
        filling: filling(rt.alloc(), slot)?,
        full: full(rt.alloc(), slot)?,
        going: going(slot),
    };
    assert!(rt; keeps_the_reply(rt.alloc(), &courses)?);
    Ok(())
}
