//! The first new action on a device of version 01: a checkpoint comes first.

use crate::course::{Call, Outcome, Played, play_over};
use crate::opened::{Standing, open_formatted_as, stands_as};
use alm_codec::Version;
use alm_common_tests::{moment_of, reading_of, same, slot_of};
use alm_desk::worked_table;
use alm_disk::MemDisk;
use alm_flush::{Advance, Fetch, Release};
use alm_seq::{Seal, Take};
use alm_types::{Action, AlarmId, Slot, Verdict};
use std::alloc::Global;
use std::test::Fail;

/// The smallest device for the worked table.
const SIZE: usize = 28_997;

/// More calls than are made.
const CALLS: usize = 64;

/// A slot's first action is judged, and sealed in a batch of its own.
fn sealed(slot: Slot, action: &Action) -> [(Call, Outcome); 3] {
    [
        (Call::Send(slot, *action), Outcome::Sent(Some(1))),
        (
            Call::Take(slot),
            Outcome::Took(Take::Taken(Verdict::Accepted(*action))),
        ),
        (Call::Seal, Outcome::Sealed(Seal::Sealed)),
    ]
}

/// It is stored by four calls, and its receipt has this number.
fn stored(slot: Slot, action: Action, number: u64) -> [(Call, Outcome); 4] {
    let verdict = Verdict::Accepted(action);
    [
        (Call::Store(4), Outcome::Stored(Some(4))),
        (Call::Release, Outcome::Released(Release::Released(slot))),
        (Call::GiveBack, Outcome::GaveBack(true)),
        (
            Call::Receive(slot),
            Outcome::Received(Some((1, number, verdict))),
        ),
    ]
}

/// After two early actions on a device of version 01, the first `steps` of the eight steps that store a priority.
fn played(alloc: Global, steps: u32) -> Result<Played, Fail> {
    let clock = slot_of(17)?;
    let feed = slot_of(16)?;
    let console = slot_of(0)?;
    let starts = Action::Clock(moment_of(1000)?);
    let comes = Action::Value(AlarmId(0), reading_of(800)?);
    let mut course = Vec::new(alloc);
    course.extend_from_slice(&sealed(clock, &starts))?;
    course.extend_from_slice(&stored(clock, starts, 1))?;
    course.extend_from_slice(&sealed(feed, &comes))?;
    course.extend_from_slice(&stored(feed, comes, 2))?;
    course.extend_from_slice(&sealed(console, &Action::SetPriority(AlarmId(0), 3)))?;
    course.push((Call::Fetch, Outcome::Fetched(Fetch::Got)))?;
    for step in 1..=steps {
        let advance = if step == 8 {
            Advance::Committed
        } else {
            Advance::More
        };
        course.push((Call::Advance, Outcome::Advanced(advance)))?;
    }
    let disk = MemDisk::new(alloc, vec![in alloc; 0u8; SIZE]?, CALLS)?;
    let store = open_formatted_as(alloc, &worked_table(alloc)?, disk, Version::V01)?;
    Ok(play_over(alloc, store, &course)?)
}

/// The bytes of a device from a place on.
fn has(disk: &MemDisk, at: usize, bytes: &[u8]) -> bool {
    disk.bytes().get(at..at.saturating_add(bytes.len())) == Some(bytes)
}

/// After the fourth call the checkpoint is done: the half that stands is of version 02.
#[test]
fn a_checkpoint_comes_before_the_first_new_action(rt: HostRuntime) -> Result<(), Fail> {
    let alloc = rt.alloc();
    let Played {
        differs_at,
        disk,
        ..
    } = played(alloc, 4)?;
    same(differs_at, None)?;
    let wanted = Standing {
        epoch: 2,
        count: 2,
        used: 0,
    };
    same(stands_as(alloc, disk)?, wanted)?;
    Ok(())
}

/// After the eighth the priority is stored after the checkpoint.
#[test]
fn the_first_new_action_is_stored_behind_it(rt: HostRuntime) -> Result<(), Fail> {
    let alloc = rt.alloc();
    let Played {
        differs_at,
        disk,
        ..
    } = played(alloc, 8)?;
    same(differs_at, None)?;
    let header = [0xa5, 0x41, 0x4c, 0x4d, 0x53, 0x52, 0x56, 0x30, 0x31];
    let head = [
        0xa5, 0, 0, 0, 0, 0, 0, 0, 2, 2, 0, 0, 0, 0, 0, 0, 2, 0, 0, 0, 0, 0, 0, 0x28, 0x6a,
    ];
    let frame = [
        0xa5, 0, 0, 0, 0, 0, 0, 0, 2, 0, 0, 0, 0, 0, 0, 0, 3, 0, 1, 9, 0, 0, 0, 0, 0, 0, 0, 0, 0,
        0, 0, 0, 0, 0, 3, 0,
    ];
    let bytes = has(&disk, 0, &header) && has(&disk, 14_510, &head) && has(&disk, 24_881, &frame);
    assert!(rt; bytes);
    let wanted = Standing {
        epoch: 2,
        count: 3,
        used: 35,
    };
    same(stands_as(alloc, disk)?, wanted)?;
    Ok(())
}
