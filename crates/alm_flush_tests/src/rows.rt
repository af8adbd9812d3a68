//! The worked rows.

use crate::course::{Call, Outcome, differs_at, open_worked, play};
use alm_common_tests::{reading_of, same, slot_of};
use alm_flush::{Advance, Fetch, Publishes, Release};
use alm_seq::{Seal, Take};
use alm_types::{Action, AlarmId, Refusal, Shown, Slot, Verdict};
use std::alloc::Global;
use std::test::Fail;

const DEVICE: usize = 65_536;

const REFUSED: Verdict = Verdict::Refused(Refusal::NotUnacknowledged, 0);

#[test]
fn a_refusal_goes_its_way(rt: HostRuntime) -> Result<(), Fail> {
    let slot = slot_of(0)?;
    let course = [
        (
            Call::Send(slot, Action::Ack(AlarmId(0))),
            Outcome::Sent(Some(1)),
        ),
        (Call::Take(slot), Outcome::Took(Take::Taken(REFUSED))),
        (Call::Take(slot), Outcome::Took(Take::Empty)),
        (Call::Fetch, Outcome::Fetched(Fetch::Empty)),
        (Call::Seal, Outcome::Sealed(Seal::Sealed)),
        (Call::Seal, Outcome::Sealed(Seal::NothingToSeal)),
        (Call::Advance, Outcome::Advanced(Advance::Nothing)),
        (Call::Fetch, Outcome::Fetched(Fetch::Got)),
        (Call::Fetch, Outcome::Fetched(Fetch::Held)),
        (Call::Publish, Outcome::Published(Publishes::NotYet)),
        (Call::Release, Outcome::Released(Release::Nothing)),
        (Call::GiveBack, Outcome::GaveBack(false)),
        (Call::Advance, Outcome::Advanced(Advance::Committed)),
        // It isn't released before it is published.
        (Call::Release, Outcome::Released(Release::Nothing)),
        (Call::Publish, Outcome::Published(Publishes::Published)),
        // A reply is left.
        (Call::GiveBack, Outcome::GaveBack(false)),
        (Call::Release, Outcome::Released(Release::Released(slot))),
        (Call::Release, Outcome::Released(Release::Nothing)),
        (Call::GiveBack, Outcome::GaveBack(true)),
        (Call::Fetch, Outcome::Fetched(Fetch::Empty)),
        (
            Call::Receive(slot),
            Outcome::Received(Some((1, 0, REFUSED))),
        ),
    ];
    same(differs_at(rt.alloc(), DEVICE, 64, &course)?, None)?;
    Ok(())
}

/// How many calls a device has noted after a request, if its batch is committed in `steps` steps.
fn calls_of(alloc: Global, want: Action, verdict: Verdict, steps: usize) -> Result<usize, Fail> {
    let slot = slot_of(16)?;
    let mut course = Vec::from_array(
        alloc,
        [
            (Call::Send(slot, want), Outcome::Sent(Some(1))),
            (Call::Take(slot), Outcome::Took(Take::Taken(verdict))),
            (Call::Seal, Outcome::Sealed(Seal::Sealed)),
            (Call::Fetch, Outcome::Fetched(Fetch::Got)),
        ],
    )?;
    for _step in 1..steps {
        course.push((Call::Advance, Outcome::Advanced(Advance::More)))?;
    }
    course.push((Call::Advance, Outcome::Advanced(Advance::Committed)))?;
    let played = play(alloc, DEVICE, 64, &course)?;
    match played.differs_at {
        None => Ok(played.disk.calls().len()),
        Some(_) => Err(Fail::new("another outcome")),
    }
}

#[test]
fn a_batch_of_refusals_makes_no_device_call(rt: HostRuntime) -> Result<(), Fail> {
    let alloc = rt.alloc();
    let opened = open_worked(alloc, DEVICE, 64)?.into_disk().calls().len();
    let vain = Action::Value(AlarmId(9), reading_of(0)?);
    let good = Action::Value(AlarmId(0), reading_of(800)?);
    let refused = Verdict::Refused(Refusal::NoSuchAlarm, 0);
    same(calls_of(alloc, vain, refused, 1)?, opened)?;
    same(
        calls_of(alloc, good, Verdict::Accepted(good), 4)?,
        opened.saturating_add(4),
    )?;
    Ok(())
}

/// A slot's request of a serial, taken and refused.
fn refused(slot: Slot, serial: u64) -> [(Call, Outcome); 2] {
    [
        (
            Call::Send(slot, Action::Ack(AlarmId(0))),
            Outcome::Sent(Some(serial)),
        ),
        (Call::Take(slot), Outcome::Took(Take::Taken(REFUSED))),
    ]
}

/// Its batch is stored without a device call, its reply is released, and the batch is returned.
fn answered(slot: Slot, serial: u64) -> [(Call, Outcome); 4] {
    [
        (Call::Store(1), Outcome::Stored(Some(1))),
        (Call::Release, Outcome::Released(Release::Released(slot))),
        (Call::GiveBack, Outcome::GaveBack(true)),
        (
            Call::Receive(slot),
            Outcome::Received(Some((serial, 0, REFUSED))),
        ),
    ]
}

#[test]
fn the_eighth_seal_finds_no_room(rt: HostRuntime) -> Result<(), Fail> {
    let slot = slot_of(3)?;
    let mut course = Vec::new(rt.alloc());
    for serial in 1..=7 {
        course.extend_from_slice(&refused(slot, serial))?;
        course.push((Call::Seal, Outcome::Sealed(Seal::Sealed)))?;
    }
    course.extend_from_slice(&refused(slot, 8))?;
    course.push((Call::Seal, Outcome::Sealed(Seal::NoRoom)))?;
    // When the first is returned, the eighth is sealed.
    course.extend_from_slice(&answered(slot, 1))?;
    course.push((Call::Seal, Outcome::Sealed(Seal::Sealed)))?;
    for serial in 2..=8 {
        course.extend_from_slice(&answered(slot, serial))?;
    }
    course.push((Call::Fetch, Outcome::Fetched(Fetch::Empty)))?;
    same(differs_at(rt.alloc(), DEVICE, 64, &course)?, None)?;
    Ok(())
}

#[test]
fn a_look_shows_what_is_published(rt: HostRuntime) -> Result<(), Fail> {
    let feed = slot_of(16)?;
    let high = reading_of(900)?;
    let course = [
        (
            Call::Send(feed, Action::Value(AlarmId(0), high)),
            Outcome::Sent(Some(1)),
        ),
        (
            Call::Take(feed),
            Outcome::Took(Take::Taken(Verdict::Accepted(Action::Value(AlarmId(0), high)))),
        ),
        (Call::Seal, Outcome::Sealed(Seal::Sealed)),
        (Call::Look(AlarmId(0)), Outcome::Looked(0, Shown::Normal)),
        (
            Call::Look(AlarmId(4)),
            Outcome::NotShown(Refusal::NoSuchAlarm),
        ),
        // It is seen after it is published, before its receipt is released.
        (Call::Store(8), Outcome::Stored(Some(4))),
        (Call::Look(AlarmId(0)), Outcome::Looked(1, Shown::Unack)),
        (Call::Release, Outcome::Released(Release::Released(feed))),
        (
            Call::Receive(feed),
            Outcome::Received(Some((1, 1, Verdict::Accepted(Action::Value(AlarmId(0), high))))),
        ),
    ];
    same(differs_at(rt.alloc(), DEVICE, 64, &course)?, None)?;
    Ok(())
}
