//! What is stored.

use crate::course::{Call, Outcome, Played, play};
use crate::opened::reopen;
use alm_common_tests::{moment_of, same, slot_of};
use alm_disk::{Disk, MemDisk};
use alm_flush::{Advance, Fetch, Publishes, Release};
use alm_model::Alarms;
use alm_seq::{Seal, Take};
use alm_types::{Action, Moment, Slot, Verdict};
use std::alloc::{AllocError, Global};
use std::test::Fail;

/// A device for the worked table with segments of 4,116 bytes, room for 117 frames of one action.
const SMALL: usize = 28_997;

/// How many calls formatting and opening make.
const FIRST_CALLS: usize = 16;

/// A moment by the clock's slot is judged, and sealed in a batch of its own.
fn sealed(slot: Slot, moment: &Moment) -> [(Call, Outcome); 3] {
    [
        (
            Call::Send(slot, Action::Clock(*moment)),
            Outcome::Sent(Some(moment.seconds())),
        ),
        (
            Call::Take(slot),
            Outcome::Took(Take::Taken(Verdict::Accepted(Action::Clock(*moment)))),
        ),
        (Call::Seal, Outcome::Sealed(Seal::Sealed)),
    ]
}

/// It is stored in `steps` steps, and its receipt comes.
fn stored(slot: Slot, moment: &Moment, steps: u64) -> [(Call, Outcome); 4] {
    let number = moment.seconds();
    let verdict = Verdict::Accepted(Action::Clock(*moment));
    [
        (Call::Store(16), Outcome::Stored(Some(steps))),
        (Call::Release, Outcome::Released(Release::Released(slot))),
        (Call::GiveBack, Outcome::GaveBack(true)),
        (
            Call::Receive(slot),
            Outcome::Received(Some((number, number, verdict))),
        ),
    ]
}

#[test]
fn a_checkpoint_is_opened_where_more_than_half_is_used(rt: HostRuntime) -> Result<(), Fail> {
    let slot = slot_of(17)?;
    let mut course = Vec::new(rt.alloc());
    for second in 1..=120 {
        let moment = moment_of(second)?;
        // The 59th commit opens a checkpoint of four calls, and the 59th after that one another, which closes a gate first.
        let steps = match second {
            60 => 8,
            119 => 10,
            _ => 4,
        };
        course.extend_from_slice(&sealed(slot, &moment))?;
        course.extend_from_slice(&stored(slot, &moment, steps))?;
    }
    let played = play(rt.alloc(), SMALL, 1024, &course)?;
    let Played {
        differs_at,
        disk,
        ..
    } = played;
    let found = reopened(rt.alloc(), disk)?;
    same((differs_at, found), (None, (120, 3)))?;
    Ok(())
}

/// The count and epoch of a device.
fn reopened(alloc: Global, disk: MemDisk) -> Result<(u64, u64), AllocError> {
    let keeper = reopen(alloc, disk)?;
    Ok((keeper.count(), keeper.epoch()))
}

#[test]
fn what_has_failed_fails_for_good(rt: HostRuntime) -> Result<(), Fail> {
    let slot = slot_of(17)?;
    let moment = moment_of(1)?;
    let mut course = Vec::new(rt.alloc());
    course.extend_from_slice(&sealed(slot, &moment))?;
    course.extend_from_slice(&[
        (Call::Fetch, Outcome::Fetched(Fetch::Got)),
        (Call::Advance, Outcome::Advanced(Advance::More)),
        (Call::Advance, Outcome::Advanced(Advance::More)),
        // The third call fails.
        (Call::Advance, Outcome::Advanced(Advance::Failed)),
        (Call::Advance, Outcome::Advanced(Advance::Failed)),
        (Call::Publish, Outcome::Published(Publishes::NotYet)),
        (Call::Release, Outcome::Released(Release::Nothing)),
        (Call::GiveBack, Outcome::GaveBack(false)),
        (Call::Fetch, Outcome::Fetched(Fetch::Held)),
        (Call::Receive(slot), Outcome::Received(None)),
    ])?;
    let played = play(rt.alloc(), SMALL, FIRST_CALLS + 2, &course)?;
    let found = (played.differs_at, played.count, played.disk.failures());
    same(found, (None, 0, 1))?;
    Ok(())
}
